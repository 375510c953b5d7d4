//! What `check` tells of a message.
ghost use Rattle.std.specs.Prelude.{◌≡◌, ◌++◌, IfOk, OnOk};
ghost use Rattle.mime_tree.specs.Tree.{HasTree};
ghost use Rattle.surrogate_rope.specs.Ropes.{IsRopeOf};
ghost use Rattle.mail_command.specs.Checking.{HasFigures, figures_text, number_line, utf8_line};

use itoa::Buffer;
use mail_wire::{Memory, Octets};
use mime_tree::{Tree, has_high_block};
use std::alloc::Global;
use surrogate_rope::Rope;

/// What is counted of a message: its octets, those of its surrogate, its entities, the fields that are made anew, and whether an
/// octet above 127 stands in the header block of an entity.
#[derive(Clone, Copy)]
pub struct Figures {
    pub octets: usize,
    pub served: usize,
    pub entities: usize,
    pub rewritten: usize,
    pub utf8: bool,
}

/// The figures of a message.
pub fn figures_of(msg: &[u8], tree: &Tree, rope: &Rope) -> Figures
    requires tree { HasTree msg.now tree.now.entities }
    requires rope { IsRopeOf msg.now rope.now }
    ensures { HasFigures msg.now result }
{
    Figures {
        octets: msg.len(),
        served: rope.size(),
        entities: tree.entities.len(),
        rewritten: rope.rewritten(),
        utf8: has_high_block(msg, tree),
    }
}

/// Puts a word, a number and the end of the line last.
pub fn push_number_line(text: &mut Octets, word: &[u8], number: u128) -> Result<(), Memory>
    ensures { OnOk result (text.new ≡ text.old ++ number_line word.now number) }
{
    let mut buffer = Buffer::new();
    text.push_slice(word)?;
    text.push_slice(buffer.format(number).as_bytes())?;
    text.push_slice(b"\r\n")
}

// The line that tells whether a header block has an octet above 127.
fn utf8_line(utf8: bool) -> &'static [u8]
    ensures { result.now ≡ utf8_line utf8 }
{
    if utf8 {
        b"utf8 yes\r\n"
    } else {
        b"utf8 no\r\n"
    }
}

/// The lines of the figures.
pub fn figures_text(alloc: Global, figures: &Figures) -> Result<Octets, Memory>
    ensures { IfOk result (λ text. text ≡ figures_text figures.now) }
{
    let mut text = Octets::new(alloc);
    push_number_line(&mut text, b"octets ", figures.octets as u128)?;
    push_number_line(&mut text, b"served ", figures.served as u128)?;
    push_number_line(&mut text, b"entities ", figures.entities as u128)?;
    push_number_line(&mut text, b"rewritten ", figures.rewritten as u128)?;
    text.push_slice(utf8_line(figures.utf8))?;
    Ok(text)
}
