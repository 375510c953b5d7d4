//! Chosen fields of worked headers, by the public call.
ghost use Rattle.std.specs.Prelude.{IfSome};
ghost use Rattle.imap_views.specs.Fields.{HasSomeBlock};

use imap_views::chosen_fields;
use mail_wire::{Memory, Octets};
use std::alloc::Global;
use std::test::Fail;
use test_mail::{Case, all_hold};
use utf8_fields::read_block;

const HEADER: &str = "A: 1\r\n 2\r\nb : 3\r\na:4\r\nAb: é\r\n\r\n";

fn has_block(alloc: Global, header: &[u8]) -> Option<&[u8]>
    ensures { IfSome result (λ x. HasSomeBlock x.now) }
{
    match read_block(alloc, header) {
        Ok(_) => Some(header),
        Err(_) => None,
    }
}

fn names_of(alloc: Global, words: &[&str]) -> Result<Vec<Octets>, Memory> {
    let mut names: Vec<Octets> = Vec::new(alloc);
    for word in words {
        names.push(Octets::from_slice(alloc, word.as_bytes())?)?;
    }
    Ok(names)
}

// A header, names, whether they are left out, and the fields that are chosen.
struct Chosen(&'static str, &'static [&'static str], bool, &'static str);

impl Case for Chosen {
    fn holds(&self, alloc: Global) -> Result<bool, Memory> {
        let Some(header) = has_block(alloc, self.0.as_bytes()) else {
            return Ok(false);
        };
        let names = names_of(alloc, self.1)?;
        let mut text = Octets::from_slice(alloc, b"before ")?;
        let done = chosen_fields(alloc, header, &names, self.2, &mut text);
        Ok(done.is_ok() && text.as_slice().strip_prefix(b"before ") == Some(self.3.as_bytes()))
    }
}

const CHOSEN: [(&str, &[Chosen]); 10] = [
    (
        "chosen fields are raw",
        &[Chosen(HEADER, &["a"], false, "A: 1\r\n 2\r\na:4\r\n\r\n")],
    ),
    (
        "the others are, too",
        &[Chosen(HEADER, &["A"], true, "b : 3\r\nAb: é\r\n\r\n")],
    ),
    (
        "none may have the name",
        &[Chosen(HEADER, &["c"], false, "\r\n")],
    ),
    (
        "a last line is ended",
        &[Chosen("A: 1", &["A"], false, "A: 1\r\n")],
    ),
    ("a header may be empty", &[Chosen("", &["A"], true, "\r\n")]),
    (
        "names are chosen in any order and case",
        &[Chosen(HEADER, &["aB", "B", "a", "A"], false, HEADER)],
    ),
    (
        "or left out",
        &[Chosen(HEADER, &["aB", "B", "a", "A"], true, "\r\n")],
    ),
    (
        "no name leaves out none",
        &[Chosen(HEADER, &[], true, HEADER)],
    ),
    ("and chooses none", &[Chosen(HEADER, &[], false, "\r\n")]),
    (
        "a name that isn't there leaves out none",
        &[Chosen(
            HEADER,
            &["x", "ab"],
            true,
            "A: 1\r\n 2\r\nb : 3\r\na:4\r\n\r\n",
        )],
    ),
];

#[test]
fn fields_are_chosen_by_their_names(rt: HostRuntime) -> Result<(), Fail> {
    all_hold(rt.alloc(), &CHOSEN)
}
