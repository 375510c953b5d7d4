//! Messages that were made to lead a server astray: what is served of them, and that it is served as it is.
use crate::test_surrogate_rope::ropes::{GLOBAL, GLOBAL_MADE, SHUT};
use mail_wire::{Memory, Octets};
use mime_tree::Shape::{Leaf, Message, Multipart};
use mime_tree::{Outline, Shape, Tree, read_tree};
use std::alloc::Global;
use std::test::Fail;
use surrogate_rope::Rope;
use test_mail::{Case, all_hold};

// More than any surrogate here has.
const ROOM: usize = 3000;

// A message, its surrogate, how many fields of it were made anew, and what its entities hold.
struct Row {
    msg: &'static str,
    made: &'static str,
    rewritten: usize,
    shapes: &'static [Shape],
}

impl Case for Row {
    fn holds(&self, alloc: Global) -> Result<bool, Memory> {
        Ok(is_served(
            alloc,
            self.msg.as_bytes(),
            self.made.as_bytes(),
            self.rewritten,
            self.shapes,
        ))
    }
}

// What is served of a message.
#[derive(Drop)]
struct Served {
    octets: Octets,
    rewritten: usize,
    outlines: Vec<Outline>,
}

// What is served of a message, or nothing where it has no tree or memory was wanting.
fn serve(alloc: Global, msg: &[u8]) -> Option<Served> {
    let Ok(tree) = read_tree(alloc, msg) else {
        return None;
    };
    let Ok(rope) = Rope::build(alloc, msg, &tree) else {
        return None;
    };
    let mut buffer = [0; ROOM];
    let count = rope.read_at(msg, 0, &mut buffer);
    let mut octets = Octets::new(alloc);
    if rope.size() != count || octets.push_slice(&buffer[..count]).is_err() {
        return None;
    }
    match rope.outlines(alloc) {
        Ok(outlines) => Some(Served {
            octets,
            rewritten: rope.rewritten(),
            outlines,
        }),
        Err(_) => None,
    }
}

fn have_shapes(outlines: &[Outline], shapes: &[Shape]) -> bool {
    outlines.len() == shapes.len()
        && outlines
            .iter()
            .zip(shapes)
            .all(|(outline, shape)| outline.shape == *shape)
}

// Whether a message is served so, and what is served is then served as it is.
fn is_served(alloc: Global, msg: &[u8], made: &[u8], rewritten: usize, shapes: &[Shape]) -> bool {
    let Some(first) = serve(alloc, msg) else {
        return false;
    };
    let Some(again) = serve(alloc, first.octets.as_slice()) else {
        return false;
    };
    first.octets.as_slice() == made
        && first.rewritten == rewritten
        && have_shapes(&first.outlines, shapes)
        && again.octets.as_slice() == made
        && again.rewritten == 0
        && have_shapes(&again.outlines, shapes)
}

const ROWS: [(&str, &[Row]); 3] = [
    (
        "a boundary that a field could make",
        &[
            Row {
                msg: "Content-Type: multipart/mixed; boundary=\"b:\"\r\n\r\n--b:\r\n--b: é\r\n\r\nt\r\n--b:--\r\n",
                made: "Content-Type: multipart/mixed; boundary=\"b:\"\r\n\r\n--b:\r\nDowngraded---b:\r\n =?UTF-8?B?w6k=?=\r\n\r\nt\r\n--b:--\r\n",
                rewritten: 1,
                shapes: &[Multipart, Leaf],
            },
            Row {
                msg: "Content-Type: multipart/mixed; boundary=\"b: =?UTF-8?B?w6k=?=\"\r\n\r\n--b: =?UTF-8?B?w6k=?=\r\n--b: é\r\n\r\nt\r\n--b: =?UTF-8?B?w6k=?=--\r\n",
                made: "Content-Type: multipart/mixed; boundary=\"b: =?UTF-8?B?w6k=?=\"\r\n\r\n--b: =?UTF-8?B?w6k=?=\r\nDowngraded---b:\r\n =?UTF-8?B?w6k=?=\r\n\r\nt\r\n--b: =?UTF-8?B?w6k=?=--\r\n",
                rewritten: 1,
                shapes: &[Multipart, Leaf],
            },
            Row {
                msg: "Content-Type: multipart/mixed; boundary=b\r\n\r\n--b\r\nContent-Type: multipart/mixed; boundary=b\r\n\r\n--b\r\nSubject: é\r\n\r\nt\r\n--b--\r\n",
                made: "Content-Type: multipart/mixed; boundary=b\r\n\r\n--b\r\nContent-Type: multipart/mixed; boundary=b\r\n\r\n--b\r\nSubject:\r\n =?UTF-8?B?w6k=?=\r\n\r\nt\r\n--b--\r\n",
                rewritten: 1,
                shapes: &[Multipart, Leaf, Leaf],
            },
            Row {
                msg: "Content-Type: multipart/mixed; boundary=\"b \"\r\n\r\n--b \r\nSubject: é\r\n\r\nt\r\n--b --\r\n",
                made: "Content-Type: multipart/mixed; boundary=\"b \"\r\n\r\n--b \r\nSubject: é\r\n\r\nt\r\n--b --\r\n",
                rewritten: 0,
                shapes: &[Leaf],
            },
            Row {
                msg: "Content-Type: multipart/mixed; boundary=12345678901234567890123456789012345678901234567890123456789012345678901\r\n\r\n--12345678901234567890123456789012345678901234567890123456789012345678901\r\nSubject: é\r\n\r\nt\r\n",
                made: "Content-Type: multipart/mixed; boundary=12345678901234567890123456789012345678901234567890123456789012345678901\r\n\r\n--12345678901234567890123456789012345678901234567890123456789012345678901\r\nSubject: é\r\n\r\nt\r\n",
                rewritten: 0,
                shapes: &[Leaf],
            },
        ],
    ),
    (
        "a type that opens what is shut",
        &[
            Row {
                msg: GLOBAL,
                made: GLOBAL_MADE,
                rewritten: 2,
                shapes: &[Multipart, Message, Leaf],
            },
            Row {
                msg: SHUT,
                made: SHUT,
                rewritten: 0,
                shapes: &[Multipart, Leaf],
            },
            Row {
                msg: "Content-Type: é\r\nContent-Type: multipart/mixed; boundary=b\r\n\r\n--b\r\n\r\nt\r\n--b--\r\n",
                made: "Content-Type:\r\n =?UTF-8?B?w6k=?=\r\nContent-Type: multipart/mixed; boundary=b\r\n\r\n--b\r\n\r\nt\r\n--b--\r\n",
                rewritten: 1,
                shapes: &[Leaf],
            },
        ],
    ),
    (
        "a value that looks like what is made",
        &[
            Row {
                msg: "Subject: =?UTF-8?B?w6k é\r\n\r\n",
                made: "Subject:\r\n =?UTF-8?B?w6k\r\n =?UTF-8?B?w6k=?=\r\n\r\n",
                rewritten: 1,
                shapes: &[Leaf],
            },
            Row {
                msg: "Subject: =?UTF-8?B?ww==?= é\r\n\r\n",
                made: "Subject:\r\n =?UTF-8?B?ww==?=\r\n =?UTF-8?B?IMOp?=\r\n\r\n",
                rewritten: 1,
                shapes: &[Leaf],
            },
            Row {
                msg: "Content-Disposition: a; b*1=é\r\n\r\n",
                made: "Downgraded-Content-Disposition:\r\n =?UTF-8?B?YTsgYioxPcOp?=\r\n\r\n",
                rewritten: 1,
                shapes: &[Leaf],
            },
        ],
    ),
];

#[test]
fn what_leads_a_server_astray_is_served_as_it_is(rt: HostRuntime) -> Result<(), Fail> {
    all_hold(rt.alloc(), &ROWS)
}

// Puts a text so often last.
fn push_times(made: &mut Octets, text: &str, count: usize) -> Result<(), Memory> {
    for _ in 0..count {
        made.push_slice(text.as_bytes())?;
    }
    Ok(())
}

// A Date with a comment that is so deep.
fn deep_date(alloc: Global, depth: usize) -> Result<Octets, Memory> {
    let mut msg = Octets::new(alloc);
    msg.push_slice(b"Date: ")?;
    push_times(&mut msg, "(", depth)?;
    msg.push_slice("é".as_bytes())?;
    push_times(&mut msg, ")", depth)?;
    msg.push_slice(b"\r\n\r\n")?;
    Ok(msg)
}

// What it is written as where each comment is a piece.
fn deep_date_made(alloc: Global, depth: usize) -> Result<Octets, Memory> {
    let mut made = Octets::new(alloc);
    made.push_slice(b"Date:\r\n")?;
    push_times(&mut made, " (\r\n", depth)?;
    made.push_slice(b" =?UTF-8?B?w6k=?=\r\n")?;
    push_times(&mut made, " )\r\n", depth)?;
    made.push_slice(b"\r\n")?;
    Ok(made)
}

// Whether comments are pieces at this depth.
fn are_pieces(alloc: Global, depth: usize) -> Result<bool, Memory> {
    let msg = deep_date(alloc, depth)?;
    let made = deep_date_made(alloc, depth)?;
    Ok(is_served(alloc, msg.as_slice(), made.as_slice(), 1, &[Leaf]))
}

const ASIDE: &str =
    "Downgraded-Date:\r\n =?UTF-8?B?KCgoKCgoKCgoKCgoKCgoKCgoKCgoKCgoKCgoKCgoKCgoKCgoKCgoKCgoKCgo?=\r\n =?UTF-8?B?KCgoKCgoKCgoKCgoKCgoKCgoKCjDqSkpKSkpKSkpKSkpKSkpKSkpKSkpKSkp?=\r\n =?UTF-8?B?KSkpKSkpKSkpKSkpKSkpKSkpKSkpKSkpKSkpKSkpKSkpKSkpKSkpKSkp?=\r\n\r\n";

// Whether the field is put aside at this depth.
fn is_put_aside(alloc: Global, depth: usize) -> Result<bool, Memory> {
    let msg = deep_date(alloc, depth)?;
    Ok(is_served(alloc, msg.as_slice(), ASIDE.as_bytes(), 1, &[Leaf]))
}

#[test]
fn comments_of_any_depth(rt: HostRuntime) {
    assert!(rt; are_pieces(rt.alloc(), 64) == Ok(true) && is_put_aside(rt.alloc(), 65) == Ok(true));
}

// A message within messages, so many of them, and an UTF-8 field in the last one.
fn nested(alloc: Global, count: usize, field: &str) -> Result<Octets, Memory> {
    let mut msg = Octets::new(alloc);
    push_times(&mut msg, "Content-Type: message/rfc822\r\n\r\n", count)?;
    msg.push_slice(field.as_bytes())?;
    Ok(msg)
}

// Whether every header block of a tree is ASCII.
fn has_ascii_blocks(msg: &[u8], tree: &Tree) -> bool {
    tree.entities.as_slice().iter().all(|entity| match msg.get(entity.at..entity.body) {
        Some(block) => block.is_ascii(),
        None => false,
    })
}

const SHAPES: [Shape; 33] = [
    Message, Message, Message, Message, Message, Message, Message, Message, Message, Message,
    Message, Message, Message, Message, Message, Message, Message, Message, Message, Message,
    Message, Message, Message, Message, Message, Message, Message, Message, Message, Message,
    Message, Message, Leaf,
];

// Whether messages within messages have so many octets, and the field of the last one is made anew.
fn is_made_anew(alloc: Global, count: usize, lens: [usize; 2]) -> Result<bool, Memory> {
    let msg = nested(alloc, count, "Subject: é\r\n")?;
    let made = nested(alloc, count, "Subject:\r\n =?UTF-8?B?w6k=?=\r\n")?;
    Ok(
        [msg.len(), made.len()] == lens
            && is_served(alloc, msg.as_slice(), made.as_slice(), 1, &SHAPES),
    )
}

// Whether they have so many octets, and it is too deep to be seen.
fn is_too_deep(alloc: Global, count: usize, len: usize) -> Result<bool, Memory> {
    let msg = nested(alloc, count, "Subject: é\r\n")?;
    let is_ascii = match read_tree(alloc, msg.as_slice()) {
        Ok(tree) => has_ascii_blocks(msg.as_slice(), &tree),
        Err(_) => false,
    };
    Ok(msg.len() == len && is_ascii && is_served(alloc, msg.as_slice(), msg.as_slice(), 0, &SHAPES))
}

#[test]
fn messages_within_messages(rt: HostRuntime) {
    assert!(rt;
        is_made_anew(rt.alloc(), 32, [1037, 1053]) == Ok(true)
            && is_too_deep(rt.alloc(), 40, 1293) == Ok(true)
    );
}
