//! What a reader tells of octets that come in pieces.
use crate::test_imap_grammar::spelling::push_event;
use imap_grammar::Reader;
use mail_wire::{Memory, Octets};
use std::alloc::Global;

// Feeds a piece, of which the first octet has this place, and puts the event last. Gives how many octets were used.
fn feed_once(
    reader: &mut Reader,
    utf8: bool,
    piece: &[u8],
    place: usize,
    text: &mut Octets,
) -> Result<usize, Memory> {
    let (used, event) = reader.feed(piece, utf8)?;
    let put = push_event(text, place.saturating_add(used), &event);
    drop(event);
    put?;
    Ok(used)
}

// Feeds all octets of a piece, of which the first one has this place, and puts each event last.
fn feed_all(
    reader: &mut Reader,
    utf8: bool,
    piece: &[u8],
    place: usize,
    text: &mut Octets,
) -> Result<(), Memory> {
    let mut done = 0;
    for _ in 0..piece.len() {
        let Some((_, rest)) = piece.split_at_checked(done) else {
            return text.push_slice(b"too many used\n");
        };
        if rest.is_empty() {
            return Ok(());
        }
        let used = feed_once(reader, utf8, rest, place.saturating_add(done), text)?;
        done = done.saturating_add(used);
    }
    Ok(())
}

fn feed_singly(
    reader: &mut Reader,
    utf8: bool,
    octets: &[u8],
    text: &mut Octets,
) -> Result<(), Memory> {
    let mut place = 0;
    for octet in octets {
        feed_all(reader, utf8, &[*octet], place, text)?;
        place = place.saturating_add(1);
    }
    Ok(())
}

fn feed_both(
    reader: &mut Reader,
    utf8: bool,
    front: &[u8],
    back: &[u8],
    text: &mut Octets,
) -> Result<(), Memory> {
    feed_all(reader, utf8, front, 0, text)?;
    feed_all(reader, utf8, back, front.len(), text)
}

/// The events of octets that come one by one.
pub fn told_singly(alloc: Global, utf8: bool, octets: &[u8]) -> Result<Octets, Memory> {
    let mut text = Octets::new(alloc);
    let mut reader = Reader::open(alloc);
    let fed = feed_singly(&mut reader, utf8, octets, &mut text);
    drop(reader);
    fed?;
    Ok(text)
}

/// The events of octets that come in two pieces.
pub fn told_cut(alloc: Global, utf8: bool, front: &[u8], back: &[u8]) -> Result<Octets, Memory> {
    let mut text = Octets::new(alloc);
    let mut reader = Reader::open(alloc);
    let fed = feed_both(&mut reader, utf8, front, back, &mut text);
    drop(reader);
    fed?;
    Ok(text)
}

/// Whether these are the events of the octets, whole, octet by octet, and wherever they are cut in two.
pub fn observed(alloc: Global, utf8: bool, octets: &[u8], wanted: &[u8]) -> Result<bool, Memory> {
    if told_singly(alloc, utf8, octets)?.as_slice() != wanted {
        return Ok(false);
    }
    for cut in 0..=octets.len() {
        let (front, back) = octets.split_at(cut);
        if told_cut(alloc, utf8, front, back)?.as_slice() != wanted {
            return Ok(false);
        }
    }
    Ok(true)
}

/// The same of a session that has enabled UTF-8 and of another.
pub fn tells_always(alloc: Global, octets: &[u8], wanted: &[u8]) -> Result<bool, Memory> {
    if !observed(alloc, false, octets, wanted)? {
        return Ok(false);
    }
    observed(alloc, true, octets, wanted)
}
