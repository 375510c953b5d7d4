//! Events as text, so that a row of a table says what is wanted.
use imap_grammar::{Command, Event, FetchItem, SectionPart, Set, StatusItem, StoreOp};
use itoa::Buffer;
use mail_wire::{Items, Memory, Octets};

fn push_number(text: &mut Octets, number: usize) -> Result<(), Memory> {
    let mut digits = Buffer::new();
    text.push_slice(digits.format(number).as_bytes())
}

// A string between angle brackets.
fn push_string(text: &mut Octets, string: &Octets) -> Result<(), Memory> {
    text.push_slice(b" <")?;
    text.push_slice(string.as_slice())?;
    text.push(b'>')
}

fn push_strings(text: &mut Octets, strings: &Items<Octets>) -> Result<(), Memory> {
    for string in strings.as_slice() {
        push_string(text, string)?;
    }
    Ok(())
}

fn push_named(text: &mut Octets, name: &[u8], string: &Octets) -> Result<(), Memory> {
    text.push_slice(name)?;
    push_string(text, string)
}

fn push_pair(
    text: &mut Octets,
    name: &[u8],
    first: &Octets,
    second: &Octets,
) -> Result<(), Memory> {
    push_named(text, name, first)?;
    push_string(text, second)
}

// ---- FETCH

fn push_end(text: &mut Octets, end: Option<u32>) -> Result<(), Memory> {
    match end {
        Some(number) => push_number(text, number as usize),
        None => text.push(b'*'),
    }
}

fn push_range(text: &mut Octets, first: Option<u32>, last: Option<u32>) -> Result<(), Memory> {
    text.push(b' ')?;
    push_end(text, first)?;
    text.push(b':')?;
    push_end(text, last)
}

fn push_set(text: &mut Octets, set: &Set) -> Result<(), Memory> {
    for (first, last) in set.ranges.as_slice() {
        push_range(text, *first, *last)?;
    }
    Ok(())
}

fn push_fields(text: &mut Octets, names: &Items<Octets>, negated: bool) -> Result<(), Memory> {
    text.push_slice(if negated { b"Not" } else { b"Fields" })?;
    push_strings(text, names)
}

fn push_part(text: &mut Octets, part: &SectionPart) -> Result<(), Memory> {
    match part {
        SectionPart::Whole => text.push_slice(b"Whole"),
        SectionPart::Header => text.push_slice(b"Header"),
        SectionPart::Fields { names, negated } => push_fields(text, names, *negated),
        SectionPart::Text => text.push_slice(b"Text"),
        SectionPart::Mime => text.push_slice(b"Mime"),
    }
}

fn push_path(text: &mut Octets, path: &Items<u32>) -> Result<(), Memory> {
    for number in path.as_slice() {
        push_number(text, *number as usize)?;
        text.push(b'.')?;
    }
    Ok(())
}

fn push_partial(text: &mut Octets, partial: Option<(u32, u32)>) -> Result<(), Memory> {
    let Some((from, most)) = partial else {
        return Ok(());
    };
    text.push(b'<')?;
    push_number(text, from as usize)?;
    text.push(b'.')?;
    push_number(text, most as usize)?;
    text.push(b'>')
}

fn push_section(
    text: &mut Octets,
    peek: bool,
    path: &Items<u32>,
    part: &SectionPart,
    partial: Option<(u32, u32)>,
) -> Result<(), Memory> {
    text.push_slice(if peek { b" Peek[" } else { b" Section[" })?;
    push_path(text, path)?;
    push_part(text, part)?;
    text.push(b']')?;
    push_partial(text, partial)
}

fn push_item(text: &mut Octets, item: &FetchItem) -> Result<(), Memory> {
    match item {
        FetchItem::Flags => text.push_slice(b" Flags"),
        FetchItem::Uid => text.push_slice(b" Uid"),
        FetchItem::InternalDate => text.push_slice(b" InternalDate"),
        FetchItem::Size => text.push_slice(b" Size"),
        FetchItem::Rfc822 => text.push_slice(b" Rfc822"),
        FetchItem::Rfc822Header => text.push_slice(b" Rfc822Header"),
        FetchItem::Rfc822Text => text.push_slice(b" Rfc822Text"),
        FetchItem::Envelope => text.push_slice(b" Envelope"),
        FetchItem::Body => text.push_slice(b" Body"),
        FetchItem::BodyStructure => text.push_slice(b" BodyStructure"),
        FetchItem::Section {
            peek,
            path,
            part,
            partial,
        } => push_section(text, *peek, path, part, *partial),
    }
}

fn push_fetch(
    text: &mut Octets,
    uid: bool,
    set: &Set,
    items: &Items<FetchItem>,
) -> Result<(), Memory> {
    text.push_slice(if uid { b"UidFetch" } else { b"Fetch" })?;
    push_set(text, set)?;
    for item in items.as_slice() {
        push_item(text, item)?;
    }
    Ok(())
}

// ---- other commands

fn status_name(item: StatusItem) -> &'static [u8] {
    match item {
        StatusItem::Messages => b" Messages",
        StatusItem::Recent => b" Recent",
        StatusItem::UidNext => b" UidNext",
        StatusItem::UidValidity => b" UidValidity",
        StatusItem::Unseen => b" Unseen",
    }
}

fn push_status(text: &mut Octets, name: &Octets, items: &Items<StatusItem>) -> Result<(), Memory> {
    push_named(text, b"Status", name)?;
    for item in items.as_slice() {
        text.push_slice(status_name(*item))?;
    }
    Ok(())
}

fn store_name(op: StoreOp, silent: bool) -> &'static [u8] {
    match (op, silent) {
        (StoreOp::Replace, false) => b" Replace ",
        (StoreOp::Replace, true) => b" Replace silent ",
        (StoreOp::Add, false) => b" Add ",
        (StoreOp::Add, true) => b" Add silent ",
        (StoreOp::Remove, false) => b" Remove ",
        (StoreOp::Remove, true) => b" Remove silent ",
    }
}

fn push_store(
    text: &mut Octets,
    uid: bool,
    set: &Set,
    how: &[u8],
    flags: u8,
) -> Result<(), Memory> {
    text.push_slice(if uid { b"UidStore" } else { b"Store" })?;
    push_set(text, set)?;
    text.push_slice(how)?;
    push_number(text, flags as usize)
}

fn push_append(
    text: &mut Octets,
    name: &Octets,
    flags: u8,
    date: &Option<Octets>,
    utf8: bool,
    octets: &Octets,
) -> Result<(), Memory> {
    text.push_slice(if utf8 { b"AppendUtf8" } else { b"Append" })?;
    push_string(text, name)?;
    text.push(b' ')?;
    push_number(text, flags as usize)?;
    if let Some(date) = date {
        push_string(text, date)?;
    }
    push_named(text, b" data", octets)
}

fn push_enable(text: &mut Octets, words: &Items<Octets>) -> Result<(), Memory> {
    text.push_slice(b"Enable")?;
    push_strings(text, words)
}

fn push_command(text: &mut Octets, command: &Command) -> Result<(), Memory> {
    match command {
        Command::Capability => text.push_slice(b"Capability"),
        Command::Noop => text.push_slice(b"Noop"),
        Command::Check => text.push_slice(b"Check"),
        Command::Logout => text.push_slice(b"Logout"),
        Command::Expunge => text.push_slice(b"Expunge"),
        Command::Close => text.push_slice(b"Close"),
        Command::NotHere => text.push_slice(b"NotHere"),
        Command::Login { name, password } => push_pair(text, b"Login", name, password),
        Command::Select { name } => push_named(text, b"Select", name),
        Command::Examine { name } => push_named(text, b"Examine", name),
        Command::Create { name } => push_named(text, b"Create", name),
        Command::List { reference, pattern } => push_pair(text, b"List", reference, pattern),
        Command::Enable { words } => push_enable(text, words),
        Command::Status { name, items } => push_status(text, name, items),
        Command::Append {
            name,
            flags,
            date,
            utf8,
            octets,
        } => push_append(text, name, *flags, date, *utf8, octets),
        Command::Fetch { uid, set, items } => push_fetch(text, *uid, set, items),
        Command::Store {
            uid,
            set,
            op,
            silent,
            flags,
        } => push_store(text, *uid, set, store_name(*op, *silent), *flags),
    }
}

// ---- events

fn push_tagged(text: &mut Octets, tag: &Octets, command: &Command) -> Result<(), Memory> {
    text.push_slice(tag.as_slice())?;
    text.push(b' ')?;
    push_command(text, command)
}

fn push_bad(text: &mut Octets, tag: &Option<Octets>, at: usize) -> Result<(), Memory> {
    text.push_slice(b"bad ")?;
    push_number(text, at)?;
    match tag {
        Some(tag) => push_string(text, tag),
        None => Ok(()),
    }
}

fn push_said(text: &mut Octets, event: &Event) -> Result<(), Memory> {
    match event {
        Event::More => text.push_slice(b"more"),
        Event::Go => text.push_slice(b"go"),
        Event::Command { tag, command } => push_tagged(text, tag, command),
        Event::Bad { tag, at } => push_bad(text, tag, *at),
        Event::TooLarge { tag } => push_named(text, b"large", tag),
        Event::TooLong => text.push_slice(b"long"),
    }
}

/// Puts an event last: a line with the place where it is due and what it says. Where nothing is due nothing is put.
pub fn push_event(text: &mut Octets, place: usize, event: &Event) -> Result<(), Memory> {
    if matches!(event, Event::More) {
        return Ok(());
    }
    push_number(text, place)?;
    text.push(b' ')?;
    push_said(text, event)?;
    text.push(b'\n')
}
