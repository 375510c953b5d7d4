//! Lines and fields of a report, written and read.
ghost use Rattle.std.specs.Prelude.{◌≡◌, ◌≢◌, ◌++◌, ℕ, List, IfSome, IfNone, OnOk};
ghost use Rattle.utf8_reports.specs.Fields.{text_line, field_line};
ghost use Rattle.utf8_reports.specs.private.Reading.{BeginsLine, BeginsFieldLine};

use mail_wire::{Memory, Octets, line_end};

/// Puts a text last, on a line of its own.
pub fn push_line(made: &mut Octets, text: &[u8]) -> Result<(), Memory>
    ensures { OnOk result (made.new ≡ made.old ++ text_line text.now) }
{
    made.push_slice(text)?;
    made.push_slice(b"\r\n")
}

/// Puts a field on one line last.
pub fn push_field(made: &mut Octets, name: &[u8], body: &[u8]) -> Result<(), Memory>
    ensures { OnOk result (made.new ≡ made.old ++ field_line name.now body.now) }
{
    made.push_slice(name)?;
    made.push_slice(body)?;
    made.push_slice(b"\r\n")
}

/// What follows these octets, where the others begin with them.
pub fn following<'a>(octets: &'a [u8], first: &[u8]) -> Option<&'a [u8]>
    ensures found { IfSome result (λ rest. octets.now ≡ first.now ++ rest.now) }
    ensures none { IfNone result ((rest : List ℕ) → octets.now ≢ first.now ++ rest) }
{
    octets.strip_prefix(first)
}

// The first line without its CRLF, and what follows it.
fn split_line(octets: &[u8]) -> Option<(&[u8], &[u8])>
    ensures found { IfSome result (λ x. BeginsLine octets.now x.0.now x.1.now) }
    ensures none { IfNone result ((line rest : List ℕ) → ¬ BeginsLine octets.now line rest) }
{
    let Some(end) = line_end(&[], octets) else {
        return None;
    };
    Some((&octets[..end - 2], &octets[end..]))
}

/// The body of a field on one line with which octets begin, and what follows that line.
pub fn field_body<'a>(octets: &'a [u8], name: &[u8]) -> Option<(&'a [u8], &'a [u8])>
    ensures found { IfSome result (λ x. BeginsFieldLine name.now octets.now x.0.now x.1.now) }
    ensures none { IfNone result ((body rest : List ℕ) → ¬ BeginsFieldLine name.now octets.now body rest) }
{
    let Some(after) = following(octets, name) else {
        return None;
    };
    split_line(after)
}
