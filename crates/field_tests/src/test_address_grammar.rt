//! Texts and what is read of them. A row has the text, and what is told.
use address_grammar::{
    Address, AddressFault, AddressList, Element, Mailbox, read_list, read_path, write_address,
};
use encoded_words::Unit;
use mail_wire::{Memory, Octets};
use std::alloc::Global;
use std::test::Fail;
use test_mail::{Case, all_hold};

// What is called with a text.
#[derive(Clone, Copy)]
enum Call {
    // The local part and the domain are told, with a bar between the two.
    ReadPath,
    // An address is read, and told as it is written.
    WriteAddress,
    // Each element is told on a line, and then parentheses for each comment.
    ReadList,
}

struct Row(Call, &'static str, &'static str);

impl Case for Row {
    fn holds(&self, alloc: Global) -> Result<bool, Memory> {
        let mut told = Octets::new(alloc);
        tell(alloc, self.0, self.1.as_bytes(), &mut told)?;
        Ok(told.as_slice() == self.2.as_bytes())
    }
}

fn tell(alloc: Global, call: Call, text: &[u8], told: &mut Octets) -> Result<(), Memory> {
    match call {
        Call::ReadPath => tell_path(told, read_path(alloc, text)),
        Call::WriteAddress => tell_written(alloc, text, told),
        Call::ReadList => tell_list(told, read_list(alloc, text)),
    }
}

fn put_all(told: &mut Octets, parts: &[&[u8]]) -> Result<(), Memory> {
    for part in parts {
        told.push_slice(part)?;
    }
    Ok(())
}

fn tell_fault(told: &mut Octets, fault: AddressFault) -> Result<(), Memory> {
    match fault {
        AddressFault::Malformed => told.push_slice(b"malformed"),
        AddressFault::Memory => Err(Memory),
    }
}

fn tell_path(told: &mut Octets, read: Result<Option<Address>, AddressFault>) -> Result<(), Memory> {
    match read {
        Ok(Some(address)) => put_all(
            told,
            &[address.local.as_slice(), b"|", address.domain.as_slice()],
        ),
        Ok(None) => told.push_slice(b"null"),
        Err(fault) => tell_fault(told, fault),
    }
}

fn tell_written(alloc: Global, text: &[u8], told: &mut Octets) -> Result<(), Memory> {
    match read_path(alloc, text) {
        Ok(Some(address)) => {
            let made = write_address(alloc, &address)?;
            told.push_slice(made.as_slice())
        }
        _ => told.push_slice(b"no address"),
    }
}

fn tell_list(told: &mut Octets, read: Result<AddressList, AddressFault>) -> Result<(), Memory> {
    match read {
        Ok(list) => tell_elements(told, &list),
        Err(fault) => tell_fault(told, fault),
    }
}

fn tell_elements(told: &mut Octets, list: &AddressList) -> Result<(), Memory> {
    for element in list.elements.as_slice() {
        match element {
            Element::Mailbox(mailbox) => tell_mailbox(told, mailbox)?,
            Element::Group { name, members } => {
                tell_group(told, name.as_slice(), members.as_slice())?
            }
        }
        told.push(b'\n')?;
    }
    for _ in &list.comments {
        told.push_slice(b"()")?;
    }
    Ok(())
}

fn tell_group(told: &mut Octets, name: &[Unit], members: &[Mailbox]) -> Result<(), Memory> {
    tell_units(told, name)?;
    told.push(b':')?;
    for member in members {
        told.push(b' ')?;
        tell_mailbox(told, member)?;
    }
    told.push(b';')
}

// Tells whether there is a phrase, what it says, and the address, in angle brackets or not.
fn tell_mailbox(told: &mut Octets, mailbox: &Mailbox) -> Result<(), Memory> {
    if mailbox.phrase {
        told.push_slice(b"phrase ")?;
    }
    tell_units(told, mailbox.display.as_slice())?;
    let (open, close): (&[u8], &[u8]) = if mailbox.angle {
        (b"<", b">")
    } else {
        (b"", b"")
    };
    let address = &mailbox.address;
    put_all(
        told,
        &[
            open,
            address.local.as_slice(),
            b"@",
            address.domain.as_slice(),
            close,
        ],
    )
}

// Tells each text between quotes, before a space.
fn tell_units(told: &mut Octets, units: &[Unit]) -> Result<(), Memory> {
    for unit in units {
        match unit {
            Unit::Text(octets) => put_all(told, &[b"\"", octets.as_slice(), b"\" "])?,
            Unit::Opaque { .. } => told.push_slice(b"opaque ")?,
        }
    }
    Ok(())
}

const ROWS: [(&str, &[Row]); 8] = [
    (
        "paths are read",
        &[
            Row(Call::ReadPath, "<a@b>", "a|b"),
            Row(Call::ReadPath, "(x) < a . b (y)@ c . é >", "a.b|c.é"),
            Row(
                Call::ReadPath,
                "<\"a b\".\"\\\"\"@[1\\]2]>",
                "a b.\"|[1\\]2]",
            ),
            Row(Call::ReadPath, "<\"\"@é>", "|é"),
        ],
    ),
    (
        "null paths are read",
        &[
            Row(Call::ReadPath, "<>", "null"),
            Row(Call::ReadPath, "<(x) >", "null"),
        ],
    ),
    (
        "other paths are malformed",
        &[
            Row(Call::ReadPath, "<a@>", "malformed"),
            Row(Call::ReadPath, "<a>", "malformed"),
            Row(Call::ReadPath, "a@b", "malformed"),
            Row(Call::ReadPath, "<a@b", "malformed"),
            Row(Call::ReadPath, "<@x:a@b>", "malformed"),
            Row(Call::ReadPath, "<a@b>c", "malformed"),
            Row(Call::ReadPath, "<a.@b>", "malformed"),
            Row(Call::ReadPath, "<a@b.>", "malformed"),
            Row(Call::ReadPath, "<a@\"b\">", "malformed"),
            Row(Call::ReadPath, "", "malformed"),
        ],
    ),
    (
        "addresses are written",
        &[
            Row(Call::WriteAddress, "<\"a\".b@ c . d>", "a.b@c.d"),
            Row(Call::WriteAddress, "<\"é (\"@[1 2]>", "\"é (\"@[1 2]"),
            Row(Call::WriteAddress, "<\"\\\"\\\\\\é\"@b>", "\"\\\"\\\\é\"@b"),
            Row(Call::WriteAddress, "<\"\"@b>", "\"\"@b"),
            Row(Call::WriteAddress, "<\".\"@b>", "\".\"@b"),
        ],
    ),
    (
        "mailboxes are read",
        &[Row(
            Call::ReadList,
            ", =?UTF-8?Q?=C3=A9?= a.<@x,@y:a@b> (c (d)), \"\" <c@d>,, g: a@é, (e) <f@g>;, h:;,",
            "phrase \"é a.\" <a@b>\nphrase <c@d>\n\"g\" : a@é <f@g>;\n\"h\" :;\n()()",
        )],
    ),
    (
        "members are read",
        &[Row(
            Call::ReadList,
            "g: a@é, (e) <f@g>;",
            "\"g\" : a@é <f@g>;\n()",
        )],
    ),
    (
        "lists are malformed",
        &[
            Row(Call::ReadList, "a", "malformed"),
            Row(Call::ReadList, "a@", "malformed"),
            Row(Call::ReadList, "a@b c", "malformed"),
            Row(Call::ReadList, "g: a@é,, b@c;", "malformed"),
            Row(Call::ReadList, "g: a@b", "malformed"),
            Row(Call::ReadList, "a <b@c", "malformed"),
            Row(Call::ReadList, "a <b@c> d", "malformed"),
            Row(Call::ReadList, "g: h: a@b;;", "malformed"),
            Row(Call::ReadList, "<@x:>", "malformed"),
            Row(Call::ReadList, ":;", "malformed"),
            Row(Call::ReadList, "a@b;", "malformed"),
            Row(Call::ReadList, "\"a", "malformed"),
            Row(Call::ReadList, "a@b, <@x a@b>", "malformed"),
        ],
    ),
    (
        "lists may be empty",
        &[
            Row(Call::ReadList, "", ""),
            Row(Call::ReadList, ",", ""),
            Row(Call::ReadList, ",,", ""),
            Row(Call::ReadList, "(a)", "()"),
            Row(Call::ReadList, " , (b) ,", "()"),
        ],
    ),
];

#[test]
fn paths_and_lists_are_read(rt: HostRuntime) -> Result<(), Fail> {
    all_hold(rt.alloc(), &ROWS)
}
