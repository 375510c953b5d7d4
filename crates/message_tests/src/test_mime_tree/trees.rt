//! The tree of worked messages, by the public calls.
use mail_wire::{Memory, Octets};
use mime_tree::{Entity, Shape, TreeFault, complete, read_tree};
use std::alloc::Global;
use std::test::Fail;
use test_mail::{Case, all_hold};

// An entity by its parent, depth, places and shape.
type Row = (Option<usize>, u32, [usize; 3], Shape);

// Octets, and the entities of their tree, its fault, or the octets with their last line completed.
enum Message {
    HasTree(&'static [u8], &'static [Row]),
    HasFault(&'static [u8], TreeFault),
    IsCompleted(&'static [u8], &'static [u8]),
}

impl Case for Message {
    fn holds(&self, alloc: Global) -> Result<bool, Memory> {
        match self {
            Message::HasTree(octets, rows) => Ok(has_rows(alloc, *octets, *rows)),
            Message::HasFault(octets, fault) => Ok(has_fault(alloc, *octets, *fault)),
            Message::IsCompleted(octets, wanted) => is_completed(alloc, *octets, *wanted),
        }
    }
}

fn is_row(entity: &Entity, row: &Row) -> bool {
    entity.parent == row.0
        && entity.depth == row.1
        && [entity.at, entity.body, entity.end] == row.2
        && entity.shape == row.3
}

fn has_rows(alloc: Global, octets: &[u8], rows: &[Row]) -> bool {
    let Ok(tree) = read_tree(alloc, octets) else {
        return false;
    };
    let entities = tree.entities.as_slice();
    entities.len() == rows.len()
        && entities
            .iter()
            .zip(rows)
            .all(|(entity, row)| is_row(entity, row))
}

fn has_fault(alloc: Global, octets: &[u8], wanted: TreeFault) -> bool {
    match read_tree(alloc, octets) {
        Ok(_) => false,
        Err(fault) => fault == wanted,
    }
}

fn is_completed(alloc: Global, octets: &[u8], wanted: &[u8]) -> Result<bool, Memory> {
    let mut made = Octets::from_slice(alloc, octets)?;
    complete(&mut made)?;
    Ok(made.as_slice() == wanted)
}

const MESSAGES: [(&str, &[Message]); 10] = [
    (
        "an empty message is a leaf",
        &[Message::HasTree(b"", &[(None, 1, [0, 0, 0], Shape::Leaf)])],
    ),
    (
        "one without a type is a leaf",
        &[Message::HasTree(b"A: b\r\n\r\nx", &[(None, 1, [0, 8, 9], Shape::Leaf)])],
    ),
    (
        "its body may be missing",
        &[Message::HasTree(b"A: b\r\n", &[(None, 1, [0, 6, 6], Shape::Leaf)])],
    ),
    (
        "parts stand between delimiter lines",
        &[Message::HasTree(
            b"Content-Type: multipart/mixed; boundary=\"a\\b\"\r\n\r\nx\r\n--ab\r\n\r\ny\r\n--ab \t\r\n--ab--\r\nz",
            &[
                (None, 1, [0, 49, 80], Shape::Multipart),
                (Some(0), 2, [58, 60, 61], Shape::Leaf),
                (Some(0), 2, [71, 71, 71], Shape::Leaf),
            ],
        )],
    ),
    (
        "parts of a digest are messages",
        &[Message::HasTree(
            b"Content-Type:multipart/digest;boundary=a\r\n\r\n--a\r\n\r\nA:b\r\n--a\r\nContent-Type:x\r\n\r\n--a--",
            &[
                (None, 1, [0, 44, 84], Shape::Multipart),
                (Some(0), 2, [49, 51, 54], Shape::Message),
                (Some(1), 3, [51, 54, 54], Shape::Leaf),
                (Some(0), 2, [61, 77, 77], Shape::Leaf),
            ],
        )],
    ),
    (
        "another encoding keeps an entity shut",
        &[Message::HasTree(
            b"Content-Type:message/rfc822\r\nContent-Transfer-Encoding:base64\r\n\r\n",
            &[(None, 1, [0, 65, 65], Shape::Leaf)],
        )],
    ),
    (
        "8BIT does not",
        &[Message::HasTree(
            b"Content-Type:message/global\r\nContent-Transfer-Encoding: (a) 8BIT\r\n\r\n",
            &[
                (None, 1, [0, 68, 68], Shape::Message),
                (Some(0), 2, [68, 68, 68], Shape::Leaf),
            ],
        )],
    ),
    (
        "outer delimiters come before inner ones",
        &[Message::HasTree(
            b"Content-Type:multipart/x;boundary=a\r\n\r\n--a\r\nContent-Type:multipart/x;boundary=b\r\n\r\n--b\r\n--a\r\n\r\n--b\r\n",
            &[
                (None, 1, [0, 39, 100], Shape::Multipart),
                (Some(0), 2, [44, 83, 86], Shape::Multipart),
                (Some(1), 3, [86, 86, 86], Shape::Leaf),
                (Some(0), 2, [93, 95, 100], Shape::Leaf),
            ],
        )],
    ),
    (
        "the first fault is told",
        &[
            Message::HasFault(b"A\r\n\0", TreeFault::Nul { at: 3 }),
            Message::HasFault(b"A\r\nx\ry\n", TreeFault::BareCr { at: 4 }),
            Message::HasFault(b"A: b\r\n\r\n\n", TreeFault::BareLf { at: 8 }),
            Message::HasFault(b"A: b\r\nc\r\n", TreeFault::NotField { at: 6 }),
            Message::HasFault(b"A: \xFF\r\nc\r\n", TreeFault::NotUtf8 { at: 3 }),
            Message::HasFault(
                b"Content-Type:message/rfc822\r\n\r\nc\r\n",
                TreeFault::NotField { at: 31 },
            ),
        ],
    ),
    (
        "a last line is completed",
        &[
            Message::IsCompleted(b"", b""),
            Message::IsCompleted(b"a", b"a\r\n"),
            Message::IsCompleted(b"a\r\n", b"a\r\n"),
            Message::IsCompleted(b"a\r", b"a\r"),
            Message::IsCompleted(b"a\n", b"a\n\r\n"),
        ],
    ),
];

#[test]
fn messages_have_trees_or_faults(rt: HostRuntime) -> Result<(), Fail> {
    all_hold(rt.alloc(), &MESSAGES)
}
