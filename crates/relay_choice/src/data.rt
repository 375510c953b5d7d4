//! A message as data.
ghost use Rattle.std.specs.Prelude.{◌≡◌, ◌<◌, ◌≤◌, ◌++◌, OnOk, length, take, drop};
ghost use Rattle.mail_wire.specs.Dots.{missing_end, stuffed};
ghost use Rattle.relay_choice.specs.Said.{data_text};
ghost use Rattle.relay_choice.specs.private.Runs.{dot_before, begins_with_dot};

use mail_wire::{Memory, Octets, is_ended};
use memchr::memmem;

fn begins_with_dot(text: &[u8]) -> bool
    ensures { result ≡ begins_with_dot text.now }
{
    matches!(text, [b'.', ..])
}

// How many octets of a text, the first of which begins a line, stand before the next line that begins with a dot.
fn run_len(text: &[u8]) -> usize
    ensures bound { result ≤ length text.now }
    ensures some { 0 < length text.now → 0 < result }
    ensures run { 0 < length text.now → stuffed text.now ≡ dot_before text.now ++ (take result text.now ++ stuffed (drop result text.now)) }
{
    match memmem::find(text, b"\r\n.") {
        Some(at) => at + 2,
        None => text.len(),
    }
}

fn push_stuffed(made: &mut Octets, octets: &[u8]) -> Result<(), Memory>
    ensures { OnOk result (made.new ≡ made.old ++ stuffed octets.now) }
{
    let mut rest = octets;
    while !rest.is_empty() {
        if begins_with_dot(rest) {
            made.push(b'.')?;
        }
        let (run, others) = rest.split_at(run_len(rest));
        made.push_slice(run)?;
        rest = others;
    }
    Ok(())
}

// Puts the CRLF last that a message's last line lacks.
fn push_missing_end(made: &mut Octets, octets: &[u8]) -> Result<(), Memory>
    ensures { OnOk result (made.new ≡ made.old ++ missing_end octets.now) }
{
    if is_ended(octets) {
        return Ok(());
    }
    made.push_slice(b"\r\n")
}

/// Puts a message last as data: with a dot before each line that begins with one, and with the line that ends them.
pub fn push_data(made: &mut Octets, octets: &[u8]) -> Result<(), Memory>
    ensures { OnOk result (made.new ≡ made.old ++ data_text octets.now) }
{
    push_stuffed(made, octets)?;
    push_missing_end(made, octets)?;
    made.push_slice(b".\r\n")
}
