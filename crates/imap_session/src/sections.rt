//! Sections of a message (RFC 3501, 6.4.5): their names in a reply, and the literals that follow these.
ghost use Rattle.std.specs.Prelude.{◌≡◌, ◌<◌, ◌≤◌, ◌+◌, ◌^◌, ◌++◌, ◌&&◌, ◌==◌, None, not, length, map, codes, decimal, IfSome, OnOk};
ghost use Rattle.std.specs.List.{join_with_byte, list_all};
ghost use Rattle.imap_words.specs.Tokens.{is_atom_char};
ghost use Rattle.mime_tree.specs.Sections.{section};
ghost use Rattle.mime_tree.specs.declared.sections.Part.{Part};
ghost use Rattle.surrogate_cache.specs.Served.{is_enabled};
ghost use Rattle.surrogate_rope.specs.Served.{IsShownOf, shown_octets, shown_outlines};
ghost use Rattle.mail_store.specs.StoreState.{StoreState};
ghost use Rattle.session_core.specs.Desks.{stored_octets};
ghost use Rattle.session_core.specs.Keeps.{Keeps, fault_of};
ghost use Rattle.session_core.specs.Oracles.{WithOracles};
ghost use Rattle.imap_session.specs.Items.{field_name, fields_word as word_of_fields, part_words, partial_span as span_of_partial, partial_text, section_name, span_parts};
ghost use Rattle.imap_session.specs.Machine.{reply};
ghost use Rattle.imap_session.specs.Replies.{part_octets};
ghost use Rattle.imap_session.specs.private.Asking.{AsksStored, IsAsked, IsOfMessage, IsWanted, separator_octets, asked_parts, head_octets, name_of, wanted_place};
ghost use Rattle.imap_session.specs.private.Messages.{ShowsAlike};
ghost use Rattle.imap_session.specs.private.Pending.{Carries};
ghost use Rattle.imap_session.specs.private.Shown.{IsShownIn, names_all, names_message};

use crate::messages::give_pending;
use crate::states::Kind;
use crate::views::put_fields;
use imap_grammar::{FetchItem, SectionPart};
use imap_mailboxes::quote;
use imap_views::read_range;
use imap_words::{Kind as Run, passes};
use itoa::Buffer;
use kept_mail::Listed;
use mail_wire::{Clock, Fault, Keeper, Memory, Octets, Span, Wire};
use mime_tree::Part;
use session_core::Outside;
use std::alloc::Global;
use surrogate_rope::Shown;

// ---- names

/// Puts a number last, after a word.
pub fn push_number(made: &mut Octets, word: &[u8], number: usize) -> Result<(), Memory>
    ensures { OnOk result (made.new ≡ made.old ++ (word.now ++ decimal number)) }
{
    let mut digits = Buffer::new();
    made.push_slice(word)?;
    made.push_slice(digits.format(number).as_bytes())
}

// Puts an octet last where something stands before what comes next.
fn push_separator(made: &mut Octets, octet: u8, is_separated: bool) -> Result<(), Memory>
    ensures { OnOk result (made.new ≡ made.old ++ separator_octets octet is_separated) }
{
    if is_separated {
        made.push(octet)?;
    }
    Ok(())
}

fn push_path(name: &mut Octets, path: &[u32]) -> Result<(), Memory>
    ensures { OnOk result (name.new ≡ name.old ++ join_with_byte 46 (map decimal path.now)) }
{
    let mut is_separated = false;
    for number in path {
        push_separator(name, b'.', is_separated)?;
        push_number(name, b"", *number as usize)?;
        is_separated = true;
    }
    Ok(())
}

fn is_atom(octets: &[u8]) -> bool
    ensures { result ≡ list_all is_atom_char octets.now }
{
    octets.iter().all(|octet| passes(Run::Atom, *octet))
}

// Puts a field's name last, in upper case.
fn push_field_name(alloc: Global, name: &mut Octets, field: &[u8]) -> Result<(), Memory>
    ensures { OnOk result (name.new ≡ name.old ++ field_name field.now) }
{
    let upper = field.to_ascii_uppercase(alloc)?;
    if is_atom(&upper) {
        return name.push_slice(&upper);
    }
    name.push_slice(quote(alloc, &upper)?.as_slice())
}

fn push_field_names(alloc: Global, name: &mut Octets, fields: &[Octets]) -> Result<(), Memory>
    ensures { OnOk result (name.new ≡ name.old ++ join_with_byte 32 (map field_name fields.now)) }
{
    let mut is_separated = false;
    for field in fields {
        push_separator(name, b' ', is_separated)?;
        push_field_name(alloc, name, field.as_slice())?;
        is_separated = true;
    }
    Ok(())
}

fn fields_word(negated: bool) -> &'static [u8]
    ensures { result.now ≡ word_of_fields negated }
{
    if negated {
        b"HEADER.FIELDS.NOT ("
    } else {
        b"HEADER.FIELDS ("
    }
}

// Puts the words last that ask for fields of a header.
fn push_fields(
    alloc: Global,
    name: &mut Octets,
    fields: &[Octets],
    negated: bool,
) -> Result<(), Memory>
    ensures { OnOk result (name.new ≡ name.old ++ (word_of_fields negated ++ (join_with_byte 32 (map field_name fields.now) ++ codes ")"))) }
{
    name.push_slice(fields_word(negated))?;
    push_field_names(alloc, name, fields)?;
    name.push(b')')
}

// Puts the word of a part last, of which a part that is asked whole has none.
fn push_word(alloc: Global, name: &mut Octets, part: &SectionPart) -> Result<(), Memory>
    ensures { OnOk result (name.new ≡ name.old ++ join_with_byte 46 (part_words part.now)) }
{
    match part {
        SectionPart::Whole => Ok(()),
        SectionPart::Header => name.push_slice(b"HEADER"),
        SectionPart::Fields { names, negated } => {
            push_fields(alloc, name, names.as_slice(), *negated)
        }
        SectionPart::Text => name.push_slice(b"TEXT"),
        SectionPart::Mime => name.push_slice(b"MIME"),
    }
}

fn is_whole(part: &SectionPart) -> bool
    ensures { result ≡ names_all part.now }
{
    matches!(part, SectionPart::Whole)
}

/// Whether a section is the message.
pub fn is_message(path: &[u32], part: &SectionPart) -> bool
    ensures { result ≡ names_message path.now part.now }
{
    is_whole(part) && path.is_empty()
}

// Whether a part has a word after a path.
fn has_separator(path: &[u32], part: &SectionPart) -> bool
    ensures { result ≡ (not (names_all part.now) && not (length path.now == 0)) }
{
    !is_whole(part) && !path.is_empty()
}

// Puts the octet last from which on a part of the section is asked.
fn push_partial(name: &mut Octets, partial: Option<(u32, u32)>) -> Result<(), Memory>
    ensures { OnOk result (name.new ≡ name.old ++ partial_text partial) }
{
    let Some((from, _)) = partial else {
        return Ok(());
    };
    push_number(name, b"<", from as usize)?;
    name.push(b'>')
}

// Puts the name of a section last.
fn push_section(
    alloc: Global,
    name: &mut Octets,
    path: &[u32],
    part: &SectionPart,
    partial: Option<(u32, u32)>,
) -> Result<(), Memory>
    ensures { OnOk result (name.new ≡ name.old ++ section_name path.now part.now partial) }
{
    name.push_slice(b"BODY[")?;
    push_path(name, path)?;
    push_separator(name, b'.', has_separator(path, part))?;
    push_word(alloc, name, part)?;
    name.push(b']')?;
    push_partial(name, partial)
}

// ---- what is asked

/// Fields of a header: those of these names, or where it is negated all others.
#[derive(Clone, Copy)]
pub struct Chosen<'a> {
    pub names: &'a [Octets],
    pub negated: bool,
}

/// What is asked of an entity.
#[derive(Clone, Copy)]
pub enum Wanted<'a> {
    Octets(Part),
    Fields(Chosen<'a>),
}

/// What a section is called in the reply: a word, or what its own words say.
#[derive(Clone, Copy)]
pub enum Called<'a> {
    Word(&'a [u8]),
    Section(&'a SectionPart),
}

/// A section that is asked.
#[derive(Clone, Copy)]
pub struct Asked<'a> {
    pub called: Called<'a>,
    pub path: &'a [u32],
    pub wanted: Wanted<'a>,
    /// From this octet on, at most so many.
    pub partial: Option<(u32, u32)>,
}

fn wanted_of(part: &SectionPart) -> Wanted<'_>
    ensures { IsWanted part.now result }
{
    match part {
        SectionPart::Whole => Wanted::Octets(Part::Whole),
        SectionPart::Header => Wanted::Octets(Part::Header),
        SectionPart::Fields { names, negated } => Wanted::Fields(Chosen {
            names: names.as_slice(),
            negated: *negated,
        }),
        SectionPart::Text => Wanted::Octets(Part::Text),
        SectionPart::Mime => Wanted::Octets(Part::Mime),
    }
}

// Octets of the whole message, under a name of their own.
fn of_message(word: &'static [u8], part: Part) -> Asked<'static>
    ensures { IsOfMessage word.now part result }
{
    Asked {
        called: Called::Word(word),
        path: &[],
        wanted: Wanted::Octets(part),
        partial: None,
    }
}

/// The section that an item asks, if it asks one.
pub fn asked_by(item: &FetchItem) -> Option<Asked<'_>>
    ensures { IsAsked item.now result }
{
    match item {
        FetchItem::Rfc822 => Some(of_message(b"RFC822", Part::Whole)),
        FetchItem::Rfc822Header => Some(of_message(b"RFC822.HEADER", Part::Header)),
        FetchItem::Rfc822Text => Some(of_message(b"RFC822.TEXT", Part::Text)),
        FetchItem::Section {
            path,
            part,
            partial,
            ..
        } => Some(Asked {
            called: Called::Section(part),
            path: path.as_slice(),
            wanted: wanted_of(part),
            partial: *partial,
        }),
        _ => None,
    }
}

// Puts the name of what is asked last.
fn push_name(alloc: Global, pending: &mut Octets, asked: &Asked<'_>) -> Result<(), Memory>
    ensures { OnOk result (pending.new ≡ pending.old ++ name_of asked.now) }
{
    match asked.called {
        Called::Word(word) => pending.push_slice(word),
        Called::Section(part) => push_section(alloc, pending, asked.path, part, asked.partial),
    }
}

// ---- octets as literals

/// Which octets of a section are asked.
pub fn partial_span(partial: Option<(u32, u32)>, span: Span) -> Span
    requires { span.at + span.len < 2 ^ 64 }
    ensures { result ≡ span_of_partial partial span }
{
    let Some((from, count)) = partial else {
        return span;
    };
    let from = from as usize;
    Span {
        at: span.at + from.min(span.len),
        len: (count as usize).min(span.len.saturating_sub(from)),
    }
}

/// Puts the header of a literal last, after the name of what is asked.
pub fn push_head(
    alloc: Global,
    pending: &mut Octets,
    asked: &Asked<'_>,
    size: usize,
) -> Result<(), Memory>
    ensures { OnOk result (pending.new ≡ pending.old ++ head_octets (name_of asked.now) size) }
{
    push_name(alloc, pending, asked)?;
    push_number(pending, b" {", size)?;
    pending.push_slice(b"}\r\n")
}

// Puts the answer last where there is no such section.
fn push_nil(alloc: Global, pending: &mut Octets, asked: &Asked<'_>) -> Result<(), Memory>
    ensures { OnOk result (pending.new ≡ pending.old ++ (name_of asked.now ++ codes " NIL")) }
{
    push_name(alloc, pending, asked)?;
    pending.push_slice(b" NIL")
}

// Gives a range of what is shown of a message as a literal, after what is pending and the name of what is asked.
fn give_span<V: Kind, W: Wire, J: Keeper, C: Clock>(
    asked: &Asked<'_>,
    span: Span,
    one: &Listed,
    shown: &Shown,
    pending: &mut Octets,
    outside: &mut Outside<W, J, C>,
) -> Result<(), Fault>
    requires id { one.now.id < length outside.old.desk.store.kept.messages }
    requires shown { IsShownIn V.mode (stored_octets outside.old.desk.store one.now.id) shown.now }
    requires within { span.at + span.len ≤ length (shown_octets (stored_octets outside.old.desk.store one.now.id) shown.now) }
    ensures carries { WithOracles (λ oracles. (store : StoreState) → ShowsAlike store outside.old.desk.store → Carries (part_octets oracles) outside.old outside.new (fault_of result)
        pending.old pending.new (reply (span_parts V.mode store one.now (name_of asked.now) span))) }
    ensures desk { OnOk result (outside.new.desk ≡ outside.old.desk) }
    ensures keeps { Keeps outside.old outside.new (fault_of result) }
{
    push_head(outside.alloc(), pending, asked, span.len)?;
    give_pending(pending, outside)?;
    outside.give_range(one.id, shown, span)
}

/// Tells a message as it is stored, or the part of it that is asked. What it is shown of isn't needed.
pub fn put_stored<V: Kind, W: Wire, J: Keeper, C: Clock>(
    asked: &Asked<'_>,
    one: &Listed,
    pending: &mut Octets,
    outside: &mut Outside<W, J, C>,
) -> Result<(), Fault>
    requires id { one.now.id < length outside.old.desk.store.kept.messages }
    requires stored { AsksStored (is_enabled V.mode) asked.now }
    ensures carries { WithOracles (λ oracles. (store : StoreState) → ShowsAlike store outside.old.desk.store → Carries (part_octets oracles) outside.old outside.new (fault_of result)
        pending.old pending.new (reply (asked_parts oracles V.mode store one.now asked.now))) }
    ensures desk { OnOk result (outside.new.desk ≡ outside.old.desk) }
    ensures keeps { Keeps outside.old outside.new (fault_of result) }
{
    let whole = Span {
        at: 0,
        len: outside.store().octets(one.id).len(),
    };
    let span = partial_span(asked.partial, whole);
    push_head(outside.alloc(), pending, asked, span.len)?;
    give_pending(pending, outside)?;
    outside.give_stored(one.id, span)
}

// ---- sections

// The part of an entity from which what is wanted is taken.
fn place_of(wanted: Wanted<'_>) -> Part
    ensures { result ≡ wanted_place wanted.entry }
{
    match wanted {
        Wanted::Octets(part) => part,
        Wanted::Fields(_) => Part::Header,
    }
}

// Where a section stands in what is shown, if there is one.
fn find(asked: &Asked<'_>, shown: &Shown, msg: &[u8]) -> Option<Span>
    requires { IsShownOf msg.now shown.now }
    ensures found { result ≡ section (shown_outlines shown.now) asked.now.path.now (wanted_place asked.now.wanted) }
    ensures within { IfSome result (λ span. span.at + span.len ≤ length (shown_octets msg.now shown.now)) }
    ensures fits { IfSome result (λ span. span.at + span.len < 2 ^ 64) }
{
    // Its places are numbers, as it stands within a size.
    let _size = shown.size(msg);
    shown.section(asked.path, place_of(asked.wanted))
}

// Puts the fields of a header that is shown last, or that there is no such header.
fn put_chosen<V: Kind, W: Wire, J: Keeper, C: Clock>(
    asked: &Asked<'_>,
    chosen: Chosen<'_>,
    one: &Listed,
    shown: &Shown,
    pending: &mut Octets,
    outside: &Outside<W, J, C>,
) -> Result<(), Memory>
    requires id { one.now.id < length outside.now.desk.store.kept.messages }
    requires shown { IsShownIn V.mode (stored_octets outside.now.desk.store one.now.id) shown.now }
    requires chosen { asked.now.wanted ≡ Wanted.Fields chosen }
    ensures { WithOracles (λ oracles. (store : StoreState) → ShowsAlike store outside.now.desk.store
        → OnOk result (Carries (part_octets oracles) outside.now outside.now None pending.old pending.new (reply (asked_parts oracles V.mode store one.now asked.now)))) }
{
    let alloc = outside.alloc();
    let msg = outside.octets(one.id);
    let Some(span) = find(asked, shown, msg) else {
        return push_nil(alloc, pending, asked);
    };
    let header = read_range(alloc, shown, msg, span)?;
    put_fields(alloc, asked, chosen, header.as_slice(), pending)
}

// Tells octets of what is shown of a message, or that there are none.
fn put_octets<V: Kind, W: Wire, J: Keeper, C: Clock>(
    asked: &Asked<'_>,
    one: &Listed,
    shown: &Shown,
    pending: &mut Octets,
    outside: &mut Outside<W, J, C>,
) -> Result<(), Fault>
    requires id { one.now.id < length outside.old.desk.store.kept.messages }
    requires shown { IsShownIn V.mode (stored_octets outside.old.desk.store one.now.id) shown.now }
    requires octets { (what : Part) × (asked.now.wanted ≡ Wanted.Octets what) }
    ensures carries { WithOracles (λ oracles. (store : StoreState) → ShowsAlike store outside.old.desk.store → Carries (part_octets oracles) outside.old outside.new (fault_of result)
        pending.old pending.new (reply (asked_parts oracles V.mode store one.now asked.now))) }
    ensures desk { OnOk result (outside.new.desk ≡ outside.old.desk) }
    ensures keeps { Keeps outside.old outside.new (fault_of result) }
{
    let Some(span) = find(asked, shown, outside.octets(one.id)) else {
        return Ok(push_nil(outside.alloc(), pending, asked)?);
    };
    let span = partial_span(asked.partial, span);
    give_span::<V, W, J, C>(asked, span, one, shown, pending, outside)
}

/// Tells a section of what is shown of a message, or that there is none. What is to be given may stay pending.
pub fn put_section<V: Kind, W: Wire, J: Keeper, C: Clock>(
    asked: &Asked<'_>,
    one: &Listed,
    shown: &Shown,
    pending: &mut Octets,
    outside: &mut Outside<W, J, C>,
) -> Result<(), Fault>
    requires id { one.now.id < length outside.old.desk.store.kept.messages }
    requires shown { IsShownIn V.mode (stored_octets outside.old.desk.store one.now.id) shown.now }
    ensures carries { WithOracles (λ oracles. (store : StoreState) → ShowsAlike store outside.old.desk.store → Carries (part_octets oracles) outside.old outside.new (fault_of result)
        pending.old pending.new (reply (asked_parts oracles V.mode store one.now asked.now))) }
    ensures desk { OnOk result (outside.new.desk ≡ outside.old.desk) }
    ensures keeps { Keeps outside.old outside.new (fault_of result) }
{
    match asked.wanted {
        Wanted::Octets(_) => put_octets::<V, W, J, C>(asked, one, shown, pending, outside),
        Wanted::Fields(chosen) => Ok(put_chosen::<V, W, J, C>(
            asked, chosen, one, shown, pending, outside,
        )?),
    }
}
