//! Readers of FETCH.
#![tactic(auto, using(crate::proofs::LineEnds::fetch_steps))]

ghost use Rattle.std.specs.Prelude.{◌≡◌, ◌∷◌, ◌++◌, Bool, true, false, [], None, Err, IfOk, MatchResult};
ghost use Rattle.mail_wire.specs.Lines.{first_line};
ghost use Rattle.imap_words.specs.Languages.{Maybe};
ghost use Rattle.imap_words.specs.Reading.{Reads, StopsReading, never};
ghost use Rattle.imap_words.specs.Keywords.{IsWordOf};
ghost use Rattle.imap_words.specs.Tokens.{is_digit as is_digit_of};
ghost use Rattle.imap_words.specs.declared.stop.Stop.TheVariants.{More, Memory};
ghost use Rattle.imap_grammar.specs.declared.command.SectionPart.TheVariants.{Fields as FieldsPart};
ghost use Rattle.imap_grammar.specs.declared.words.ItemWord.TheVariants.{Body as BodyWord, All as AllWord, Full as FullWord, Fast as FastWord};
ghost use Rattle.imap_grammar.specs.Fetching.{item_words, macro_words, text_words, after_item_word, after_section_word, IsPartial, macro_items};
ghost use Rattle.imap_grammar.specs.declared.command.Command.TheVariants.{Fetch as FetchCommand};
ghost use Rattle.imap_grammar.specs.Commands.{IsBareCommand, IsFetch};
ghost use Rattle.imap_grammar.specs.Awaiting.{Comes, IsAfterItems, IsAfterNames};
ghost use Rattle.imap_grammar.specs.FetchParts.{is_read, PassesNoEnd, with_items, with_name as with_name_of, with_number as with_number_of, IsAfterThese, IsAfterStep, Goes, StepComes, after_partial, IsSectionEnd, AreNames, IsAfterText, AreNumbers, IsSectionOf, IsRestOf, IsListed, IsLoneItem};

use crate::awaited::{Awaited, Fetching, FieldNames, Next};
use crate::command::{Command, FetchItem, SectionPart, Set};
use crate::commands::bare;
use crate::words::{ItemWord, SectionWord};
use imap_words::{Head, Stop, name_head, non_zero, number, octet, read_word, set_and_space};
use mail_wire::{Items, Octets, TableWord};
use std::alloc::Global;

/// What was read of an item: all of it, which is put last, or all up to a literal of this size.
#[derive(Drop)]
enum Step {
    Read(Fetching),
    Awaits(u32, FieldNames),
}

// ---- words

// The words of items, and after them those of macros.
const ITEM_WORDS: [TableWord<ItemWord>; 14] = [
    TableWord(b"ENVELOPE", ItemWord::Envelope),
    TableWord(b"FLAGS", ItemWord::Flags),
    TableWord(b"INTERNALDATE", ItemWord::InternalDate),
    TableWord(b"RFC822", ItemWord::Rfc822),
    TableWord(b"RFC822.HEADER", ItemWord::Rfc822Header),
    TableWord(b"RFC822.SIZE", ItemWord::Size),
    TableWord(b"RFC822.TEXT", ItemWord::Rfc822Text),
    TableWord(b"BODY", ItemWord::Body),
    TableWord(b"BODYSTRUCTURE", ItemWord::BodyStructure),
    TableWord(b"UID", ItemWord::Uid),
    TableWord(b"BODY.PEEK", ItemWord::BodyPeek),
    TableWord(b"ALL", ItemWord::All),
    TableWord(b"FULL", ItemWord::Full),
    TableWord(b"FAST", ItemWord::Fast),
];

const ITEMS: usize = 11;

// Reads the word of an item or a macro.
fn item_word(text: &[u8]) -> Result<(ItemWord, &[u8]), Stop>
    ensures { MatchResult result (λ x. Reads (IsWordOf (item_words ++ macro_words)) after_item_word text.now x.0 x.1.now) (λ stop. StopsReading (IsWordOf (item_words ++ macro_words)) after_item_word text.now stop) }
{
    read_word(&ITEM_WORDS, text)
}

// Reads the word of an item alone.
fn listed_word(text: &[u8]) -> Result<(ItemWord, &[u8]), Stop>
    ensures { MatchResult result (λ x. Reads (IsWordOf item_words) after_item_word text.now x.0 x.1.now) (λ stop. StopsReading (IsWordOf item_words) after_item_word text.now stop) }
{
    read_word(&ITEM_WORDS[..ITEMS], text)
}

// The words of sections; the last one stands after numbers alone.
const SECTION_WORDS: [TableWord<SectionWord>; 5] = [
    TableWord(b"HEADER", SectionWord::Header),
    TableWord(b"HEADER.FIELDS", SectionWord::Fields),
    TableWord(b"HEADER.FIELDS.NOT", SectionWord::FieldsNot),
    TableWord(b"TEXT", SectionWord::Text),
    TableWord(b"MIME", SectionWord::Mime),
];

// Reads a word of a section.
fn section_word(after_numbers: bool, text: &[u8]) -> Result<(SectionWord, &[u8]), Stop>
    ensures { MatchResult result (λ x. Reads (IsWordOf (text_words after_numbers)) after_section_word text.now x.0 x.1.now) (λ stop. StopsReading (IsWordOf (text_words after_numbers)) after_section_word text.now stop) }
{
    if after_numbers {
        return read_word(&SECTION_WORDS, text);
    }
    read_word(&SECTION_WORDS[..4], text)
}

// ---- sections

// Reads from which octet on and how many.
fn octets_part(text: &[u8]) -> Result<((u32, u32), &[u8]), Stop>
    ensures { MatchResult result (λ x. Reads IsPartial never text.now x.0 x.1.now) (λ stop. StopsReading IsPartial never text.now stop) }
{
    let after_open = octet(b'<', text)?;
    let (from, after_from) = number(after_open)?;
    let after_dot = octet(b'.', after_from)?;
    let (most, after_most) = non_zero(after_dot)?;
    let rest = octet(b'>', after_most)?;
    Ok(((from, most), rest))
}

// The same, where it comes next.
fn partial(text: &[u8]) -> Result<(Option<(u32, u32)>, &[u8]), Stop>
    ensures { MatchResult result (λ x. Reads (Maybe IsPartial) after_partial text.now x.0 x.1.now) (λ stop. StopsReading (Maybe IsPartial) after_partial text.now stop) }
{
    let Some((first, _)) = text.split_first() else {
        return Err(Stop::More);
    };
    if *first != b'<' {
        return Ok((None, text));
    }
    let (part, rest) = octets_part(text)?;
    Ok((Some(part), rest))
}

// Puts an item last.
fn push_item(fetching: Fetching, item: FetchItem) -> Result<Fetching, Stop>
    ensures { MatchResult result (λ made. made ≡ with_items fetching (item ∷ [])) (λ stop. stop ≡ Memory) }
{
    let Fetching {
        uid,
        set,
        mut items,
        listed,
    } = fetching;
    let Ok(()) = items.push(item) else {
        return Err(Stop::Memory);
    };
    Ok(Fetching {
        uid,
        set,
        items,
        listed,
    })
}

/// A section up to its part.
#[derive(Drop)]
struct Begun {
    fetching: Fetching,
    peek: bool,
    path: Items<u32>,
}

// Reads the end of a section and what follows it, and puts the item last.
fn section_end(begun: Begun, part: SectionPart, text: &[u8]) -> Result<(Step, &[u8]), Stop>
    ensures more { result ≡ Err More → first_line text.now ≡ None }
    ensures passes { IfOk result (λ x. PassesNoEnd text.now x.0 x.1.now) }
    ensures reads { (utf8 : Bool) → MatchResult result (λ x. Goes utf8 (IsSectionEnd utf8 begun.fetching begun.peek begun.path part) text.now x.0 x.1.now) (λ stop. StopsReading (IsSectionEnd utf8 begun.fetching begun.peek begun.path part) never text.now stop) }
{
    let after_close = octet(b']', text)?;
    let (partial, rest) = partial(after_close)?;
    let Begun {
        fetching,
        peek,
        path,
    } = begun;
    let item = FetchItem::Section {
        peek,
        path,
        part,
        partial,
    };
    let made = push_item(fetching, item)?;
    Ok((Step::Read(made), rest))
}

// Puts a name last.
fn with_name(so_far: FieldNames, name: Octets) -> Result<FieldNames, Stop>
    ensures { MatchResult result (λ made. made ≡ with_name_of so_far name) (λ stop. stop ≡ Memory) }
{
    let FieldNames {
        fetching,
        peek,
        path,
        negated,
        mut names,
    } = so_far;
    let Ok(()) = names.push(name) else {
        return Err(Stop::Memory);
    };
    Ok(FieldNames {
        fetching,
        peek,
        path,
        negated,
        names,
    })
}

// Reads what follows the names of fields.
fn names_end(so_far: FieldNames, text: &[u8]) -> Result<(Step, &[u8]), Stop>
    ensures more { result ≡ Err More → first_line text.now ≡ None }
    ensures passes { IfOk result (λ x. PassesNoEnd text.now x.0 x.1.now) }
    ensures reads { (utf8 : Bool) → MatchResult result (λ x. Goes utf8 (IsSectionEnd utf8 so_far.fetching so_far.peek so_far.path (FieldsPart so_far.names so_far.negated)) text.now x.0 x.1.now) (λ stop. StopsReading (IsSectionEnd utf8 so_far.fetching so_far.peek so_far.path (FieldsPart so_far.names so_far.negated)) never text.now stop) }
{
    let FieldNames {
        fetching,
        peek,
        path,
        negated,
        names,
    } = so_far;
    let begun = Begun {
        fetching,
        peek,
        path,
    };
    section_end(begun, SectionPart::Fields { names, negated }, text)
}

// Reads what follows a name of a field: more names, and the rest of the item.
fn more_names(alloc: Global, so_far: FieldNames, text: &[u8]) -> Result<(Step, &[u8]), Stop>
    ensures more { result ≡ Err More → first_line text.now ≡ None }
    ensures passes { IfOk result (λ x. PassesNoEnd text.now x.0 x.1.now) }
    ensures reads { (utf8 : Bool) → MatchResult result (λ x. Goes utf8 (IsAfterNames utf8 so_far so_far.names) text.now x.0 x.1.now) (λ stop. StopsReading (IsAfterNames utf8 so_far so_far.names) never text.now stop) }
{
    let mut named = so_far;
    let mut rest = text;
    while let Some((separator, others)) = rest.split_first() {
        if *separator != b' ' {
            let after_names = octet(b')', rest)?;
            return names_end(named, after_names);
        }
        let (head, following) = name_head(alloc, others)?;
        match head {
            Head::Literal(size) => return Ok((Step::Awaits(size, named), following)),
            Head::Whole(name) => named = with_name(named, name)?,
        }
        rest = following;
    }
    Err(Stop::More)
}

// Reads the names of fields in parentheses.
fn field_names(
    alloc: Global,
    begun: Begun,
    negated: bool,
    text: &[u8],
) -> Result<(Step, &[u8]), Stop>
    ensures more { result ≡ Err More → first_line text.now ≡ None }
    ensures passes { IfOk result (λ x. PassesNoEnd text.now x.0 x.1.now) }
    ensures reads { (utf8 : Bool) → MatchResult result (λ x. Goes utf8 (AreNames utf8 begun.fetching begun.peek begun.path negated) text.now x.0 x.1.now) (λ stop. StopsReading (AreNames utf8 begun.fetching begun.peek begun.path negated) never text.now stop) }
{
    let after_space = octet(b' ', text)?;
    let after_open = octet(b'(', after_space)?;
    let (head, rest) = name_head(alloc, after_open)?;
    let Begun {
        fetching,
        peek,
        path,
    } = begun;
    let so_far = FieldNames {
        fetching,
        peek,
        path,
        negated,
        names: Items::new(alloc),
    };
    match head {
        Head::Literal(size) => Ok((Step::Awaits(size, so_far), rest)),
        Head::Whole(name) => {
            let first = with_name(so_far, name)?;
            more_names(alloc, first, rest)
        }
    }
}

// Reads what follows a word of a section.
fn after_text(
    alloc: Global,
    begun: Begun,
    word: SectionWord,
    text: &[u8],
) -> Result<(Step, &[u8]), Stop>
    ensures more { result ≡ Err More → first_line text.now ≡ None }
    ensures passes { IfOk result (λ x. PassesNoEnd text.now x.0 x.1.now) }
    ensures reads { (utf8 : Bool) → MatchResult result (λ x. Goes utf8 (IsAfterText utf8 begun.fetching begun.peek begun.path word) text.now x.0 x.1.now) (λ stop. StopsReading (IsAfterText utf8 begun.fetching begun.peek begun.path word) never text.now stop) }
{
    match word {
        SectionWord::Header => section_end(begun, SectionPart::Header, text),
        SectionWord::Text => section_end(begun, SectionPart::Text, text),
        SectionWord::Mime => section_end(begun, SectionPart::Mime, text),
        SectionWord::Fields => field_names(alloc, begun, false, text),
        SectionWord::FieldsNot => field_names(alloc, begun, true, text),
    }
}

#[tactic(auto, unfolding(imap_words::specs::Tokens::is_digit))]
fn is_digit(octet: u8) -> bool
    ensures { result ≡ is_digit_of octet }
{
    octet > 47 && octet < 58
}

// Puts a number last.
fn with_number(begun: Begun, number: u32) -> Result<Begun, Stop>
    ensures { MatchResult result (λ made. made ≡ with_number_of begun number) (λ stop. stop ≡ Memory) }
{
    let Begun {
        fetching,
        peek,
        mut path,
    } = begun;
    let Ok(()) = path.push(number) else {
        return Err(Stop::Memory);
    };
    Ok(Begun {
        fetching,
        peek,
        path,
    })
}

// Reads numbers and what follows them.
fn numbered(alloc: Global, begun: Begun, text: &[u8]) -> Result<(Step, &[u8]), Stop>
    ensures more { result ≡ Err More → first_line text.now ≡ None }
    ensures passes { IfOk result (λ x. PassesNoEnd text.now x.0 x.1.now) }
    ensures reads { (utf8 : Bool) → MatchResult result (λ x. Goes utf8 (AreNumbers utf8 begun.fetching begun.peek begun.path) text.now x.0 x.1.now) (λ stop. StopsReading (AreNumbers utf8 begun.fetching begun.peek begun.path) never text.now stop) }
{
    let (first, after_first) = non_zero(text)?;
    let mut so_far = with_number(begun, first)?;
    let mut rest = after_first;
    while let Some((separator, others)) = rest.split_first() {
        if *separator != b'.' {
            return section_end(so_far, SectionPart::Whole, rest);
        }
        let Some((next, _)) = others.split_first() else {
            return Err(Stop::More);
        };
        if !is_digit(*next) {
            let (word, after_word) = section_word(true, others)?;
            return after_text(alloc, so_far, word, after_word);
        }
        let (number, following) = non_zero(others)?;
        so_far = with_number(so_far, number)?;
        rest = following;
    }
    Err(Stop::More)
}

// Reads a section and what follows it.
fn section(
    alloc: Global,
    fetching: Fetching,
    peek: bool,
    text: &[u8],
) -> Result<(Step, &[u8]), Stop>
    ensures more { result ≡ Err More → first_line text.now ≡ None }
    ensures passes { IfOk result (λ x. PassesNoEnd text.now x.0 x.1.now) }
    ensures reads { (utf8 : Bool) → MatchResult result (λ x. Goes utf8 (IsSectionOf utf8 fetching peek) text.now x.0 x.1.now) (λ stop. StopsReading (IsSectionOf utf8 fetching peek) never text.now stop) }
{
    let after_open = octet(b'[', text)?;
    let begun = Begun {
        fetching,
        peek,
        path: Items::new(alloc),
    };
    let Some((first, _)) = after_open.split_first() else {
        return Err(Stop::More);
    };
    if *first == b']' {
        return section_end(begun, SectionPart::Whole, after_open);
    }
    if is_digit(*first) {
        return numbered(alloc, begun, after_open);
    }
    let (word, rest) = section_word(false, after_open)?;
    after_text(alloc, begun, word, rest)
}

// ---- items

// The item is read, and put last.
fn read_item(fetching: Fetching, item: FetchItem, text: &[u8]) -> Result<(Step, &[u8]), Stop>
    ensures more { result ≡ Err More → first_line text.now ≡ None }
    ensures passes { IfOk result (λ x. PassesNoEnd text.now x.0 x.1.now) }
    ensures reads { (utf8 : Bool) → MatchResult result (λ x. Goes utf8 (IsAfterThese utf8 fetching (item ∷ [])) text.now x.0 x.1.now) (λ stop. StopsReading (IsAfterThese utf8 fetching (item ∷ [])) never text.now stop) }
{
    let made = push_item(fetching, item)?;
    Ok((Step::Read(made), text))
}

// Puts what FAST stands for last.
fn with_fast(fetching: Fetching) -> Result<Fetching, Stop>
    ensures { MatchResult result (λ made. made ≡ with_items fetching (macro_items FastWord)) (λ stop. stop ≡ Memory) }
{
    let with_flags = push_item(fetching, FetchItem::Flags)?;
    let with_date = push_item(with_flags, FetchItem::InternalDate)?;
    let made = push_item(with_date, FetchItem::Size)?;
    Ok(made)
}

// The same of ALL.
fn with_all(fetching: Fetching) -> Result<Fetching, Stop>
    ensures { MatchResult result (λ made. made ≡ with_items fetching (macro_items AllWord)) (λ stop. stop ≡ Memory) }
{
    let fast = with_fast(fetching)?;
    let made = push_item(fast, FetchItem::Envelope)?;
    Ok(made)
}

// The same of FULL.
fn with_full(fetching: Fetching) -> Result<Fetching, Stop>
    ensures { MatchResult result (λ made. made ≡ with_items fetching (macro_items FullWord)) (λ stop. stop ≡ Memory) }
{
    let all = with_all(fetching)?;
    let made = push_item(all, FetchItem::Body)?;
    Ok(made)
}

// Reads what follows BODY.
fn after_body(alloc: Global, fetching: Fetching, text: &[u8]) -> Result<(Step, &[u8]), Stop>
    ensures more { result ≡ Err More → first_line text.now ≡ None }
    ensures passes { IfOk result (λ x. PassesNoEnd text.now x.0 x.1.now) }
    ensures reads { (utf8 : Bool) → MatchResult result (λ x. Goes utf8 (IsRestOf utf8 fetching BodyWord) text.now x.0 x.1.now) (λ stop. StopsReading (IsRestOf utf8 fetching BodyWord) never text.now stop) }
{
    let Some((first, _)) = text.split_first() else {
        return Err(Stop::More);
    };
    if *first == b'[' {
        return section(alloc, fetching, false, text);
    }
    read_item(fetching, FetchItem::Body, text)
}

// Reads what follows the word of an item or a macro.
fn after_word(
    alloc: Global,
    fetching: Fetching,
    word: ItemWord,
    text: &[u8],
) -> Result<(Step, &[u8]), Stop>
    ensures more { result ≡ Err More → first_line text.now ≡ None }
    ensures passes { IfOk result (λ x. PassesNoEnd text.now x.0 x.1.now) }
    ensures reads { (utf8 : Bool) → MatchResult result (λ x. Goes utf8 (IsRestOf utf8 fetching word) text.now x.0 x.1.now) (λ stop. StopsReading (IsRestOf utf8 fetching word) never text.now stop) }
{
    match word {
        ItemWord::Flags => read_item(fetching, FetchItem::Flags, text),
        ItemWord::Uid => read_item(fetching, FetchItem::Uid, text),
        ItemWord::InternalDate => read_item(fetching, FetchItem::InternalDate, text),
        ItemWord::Size => read_item(fetching, FetchItem::Size, text),
        ItemWord::Rfc822 => read_item(fetching, FetchItem::Rfc822, text),
        ItemWord::Rfc822Header => read_item(fetching, FetchItem::Rfc822Header, text),
        ItemWord::Rfc822Text => read_item(fetching, FetchItem::Rfc822Text, text),
        ItemWord::Envelope => read_item(fetching, FetchItem::Envelope, text),
        ItemWord::BodyStructure => read_item(fetching, FetchItem::BodyStructure, text),
        ItemWord::Body => after_body(alloc, fetching, text),
        ItemWord::BodyPeek => section(alloc, fetching, true, text),
        ItemWord::All => {
            let made = with_all(fetching)?;
            Ok((Step::Read(made), text))
        }
        ItemWord::Fast => {
            let made = with_fast(fetching)?;
            Ok((Step::Read(made), text))
        }
        ItemWord::Full => {
            let made = with_full(fetching)?;
            Ok((Step::Read(made), text))
        }
    }
}

// Reads an item of a list.
fn listed_item(alloc: Global, fetching: Fetching, text: &[u8]) -> Result<(Step, &[u8]), Stop>
    ensures more { result ≡ Err More → first_line text.now ≡ None }
    ensures passes { IfOk result (λ x. PassesNoEnd text.now x.0 x.1.now) }
    ensures reads { (utf8 : Bool) → MatchResult result (λ x. Goes utf8 (IsListed utf8 fetching) text.now x.0 x.1.now) (λ stop. StopsReading (IsListed utf8 fetching) never text.now stop) }
{
    let (word, rest) = listed_word(text)?;
    after_word(alloc, fetching, word, rest)
}

// Reads an item alone, or a macro.
fn lone_item(alloc: Global, fetching: Fetching, text: &[u8]) -> Result<(Step, &[u8]), Stop>
    ensures more { result ≡ Err More → first_line text.now ≡ None }
    ensures passes { IfOk result (λ x. PassesNoEnd text.now x.0 x.1.now) }
    ensures reads { (utf8 : Bool) → MatchResult result (λ x. Goes utf8 (IsLoneItem utf8 fetching) text.now x.0 x.1.now) (λ stop. StopsReading (IsLoneItem utf8 fetching) never text.now stop) }
{
    let (word, rest) = item_word(text)?;
    after_word(alloc, fetching, word, rest)
}

// Reads the end of the line, with which FETCH is whole.
fn whole(fetching: Fetching, text: &[u8]) -> Result<(Next, &[u8]), Stop>
    ensures more { result ≡ Err More → first_line text.now ≡ None }
    ensures reads { MatchResult result (λ x. (utf8 : Bool) → Comes utf8 (IsBareCommand (FetchCommand fetching.uid fetching.set fetching.items)) text.now x.0 x.1.now) (λ stop. StopsReading (IsBareCommand (FetchCommand fetching.uid fetching.set fetching.items)) never text.now stop) }
{
    let Fetching {
        uid,
        set,
        items,
        ..
    } = fetching;
    bare(Command::Fetch { uid, set, items }, text)
}

// Reads what follows an item.
fn more_items(alloc: Global, fetching: Fetching, text: &[u8]) -> Result<(Next, &[u8]), Stop>
    ensures more { result ≡ Err More → first_line text.now ≡ None }
    ensures reads { (utf8 : Bool) → MatchResult result (λ x. Comes utf8 (IsAfterItems fetching.listed utf8 fetching.uid fetching.set.ranges fetching.items) text.now x.0 x.1.now) (λ stop. StopsReading (IsAfterItems fetching.listed utf8 fetching.uid fetching.set.ranges fetching.items) never text.now stop) }
{
    let mut so_far = fetching;
    let mut rest = text;
    while let Some((separator, others)) = rest.split_first() {
        if !so_far.listed {
            return whole(so_far, rest);
        }
        if *separator != b' ' {
            let after_items = octet(b')', rest)?;
            return whole(so_far, after_items);
        }
        let (step, following) = listed_item(alloc, so_far, others)?;
        match step {
            Step::Awaits(size, names) => {
                return Ok((Next::Awaits(size, Awaited::FieldName(names)), following));
            }
            Step::Read(made) => so_far = made,
        }
        rest = following;
    }
    Err(Stop::More)
}

// Reads what follows, or awaits the octets of a literal.
fn following_step(alloc: Global, step: Step, text: &[u8]) -> Result<(Next, &[u8]), Stop>
    ensures more { result ≡ Err More → first_line text.now ≡ None }
    ensures read { result ≡ Err More → is_read step ≡ true }
    ensures reads { (utf8 : Bool) → MatchResult result (λ x. StepComes utf8 step text.now x.0 x.1.now) (λ stop. StopsReading (IsAfterStep utf8 step) never text.now stop) }
{
    match step {
        Step::Awaits(size, names) => Ok((Next::Awaits(size, Awaited::FieldName(names)), text)),
        Step::Read(fetching) => more_items(alloc, fetching, text),
    }
}

// Reads what follows a literal that is a field's name.
pub fn after_field_name(
    alloc: Global,
    utf8: bool,
    so_far: FieldNames,
    name: Octets,
    text: &[u8],
) -> Result<(Next, &[u8]), Stop>
    ensures more { result ≡ Err More → first_line text.now ≡ None }
    ensures reads { MatchResult result (λ x. Comes utf8 (IsAfterNames utf8 so_far (so_far.names ++ name ∷ [])) text.now x.0 x.1.now) (λ stop. StopsReading (IsAfterNames utf8 so_far (so_far.names ++ name ∷ [])) never text.now stop) }
{
    let made = with_name(so_far, name)?;
    let (step, rest) = more_names(alloc, made, text)?;
    following_step(alloc, step, rest)
}

// Reads what follows FETCH.
pub fn fetch(alloc: Global, utf8: bool, uid: bool, text: &[u8]) -> Result<(Next, &[u8]), Stop>
    ensures more { result ≡ Err More → first_line text.now ≡ None }
    ensures reads { MatchResult result (λ x. Comes utf8 (IsFetch utf8 uid) text.now x.0 x.1.now) (λ stop. StopsReading (IsFetch utf8 uid) never text.now stop) }
{
    let after_space = octet(b' ', text)?;
    let (ranges, after_set) = set_and_space(alloc, after_space)?;
    let Some((first, others)) = after_set.split_first() else {
        return Err(Stop::More);
    };
    let set = Set { ranges };
    if *first == b'(' {
        let begun = Fetching {
            uid,
            set,
            items: Items::new(alloc),
            listed: true,
        };
        let (step, rest) = listed_item(alloc, begun, others)?;
        return following_step(alloc, step, rest);
    }
    let begun = Fetching {
        uid,
        set,
        items: Items::new(alloc),
        listed: false,
    };
    let (step, rest) = lone_item(alloc, begun, after_set)?;
    following_step(alloc, step, rest)
}
