//! The lines of a made field.
ghost use Rattle.std.specs.Prelude.{◌≡◌, ◌∷◌, ◌++◌, [], OnOk};
ghost use Rattle.mail_wire.specs.Lines.{crlf};
ghost use Rattle.encoded_words.specs.Folding.{made_body};
ghost use Rattle.field_downgrade.specs.private.Stretches.{piece_where};

use mail_wire::{Memory, Octets};

/// Begins a line of a made field: CRLF and a white octet.
pub fn begin_line(made: &mut Octets, white: u8) -> Result<(), Memory>
    ensures { OnOk result (made.new ≡ made.old ++ (crlf ++ white ∷ [])) }
{
    made.push_slice(b"\r\n")?;
    made.push(white)
}

/// Puts octets that are copied on a line of their own. No octets give no line.
pub fn push_copied_line(made: &mut Octets, white: u8, copied: &[u8]) -> Result<(), Memory>
    ensures { OnOk result (made.new ≡ made.old ++ made_body (piece_where white copied.now)) }
{
    if copied.is_empty() {
        return Ok(());
    }
    begin_line(made, white)?;
    made.push_slice(copied)
}
