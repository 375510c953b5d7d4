//! Readers of commands, after their names. Each reads to the command's end, or up to the octets of a literal.
#![tactic(auto, using(crate::proofs::LineEnds::command_steps))]

ghost use Rattle.std.specs.Prelude.{◌≡◌, ◌≤◌, ℕ, Bool, true, false, List, length, take, drop, Some, None, Err, IfSome, MatchOption, MatchResult};
ghost use Rattle.imap_words.specs.declared.stop.Stop.TheVariants.{More};
ghost use Rattle.mail_wire.specs.Lines.{first_line};
ghost use Rattle.imap_words.specs.Reading.{Reads, StopsReading, never};
ghost use Rattle.imap_grammar.specs.Commands.{IsBareCommand, IsLoginCommand, IsAtoms, IsEnable, IsNaming, IsListing, IsStatusItems, IsStatus, IsStore, IsNotHere, IsUid, IsAfterName};
ghost use Rattle.imap_grammar.specs.Awaiting.{Comes, named, IsAfterUser, IsAfterReference, IsAfterStatusName};

use crate::append::append;
use crate::awaited::{Awaited, Naming, Next};
use crate::command::{Command, Set, StatusItem};
use crate::fetch::fetch;
use crate::flags::{flags_to_end, storing_word};
use crate::tables::{status_word, uid_name};
use crate::words::{Name, UidName};
use imap_words::{Head, Kind, Stop, line_end, octet, run, set_and_space, string_head};
use mail_wire::{Items, Octets};
use std::alloc::Global;

// Reads the end of the line, with which this command is whole.
pub fn bare(command: Command, text: &[u8]) -> Result<(Next, &[u8]), Stop>
    ensures more { result ≡ Err More → first_line text.now ≡ None }
    ensures reads { MatchResult result (λ x. (utf8 : Bool) → Comes utf8 (IsBareCommand command) text.now x.0 x.1.now) (λ stop. StopsReading (IsBareCommand command) never text.now stop) }
{
    let rest = line_end(text)?;
    Ok((Next::Whole(command), rest))
}

// ---- LOGIN

pub fn after_user(
    alloc: Global,
    utf8: bool,
    name: Octets,
    text: &[u8],
) -> Result<(Next, &[u8]), Stop>
    ensures more { result ≡ Err More → first_line text.now ≡ None }
    ensures reads { MatchResult result (λ x. Comes utf8 (IsAfterUser utf8 name) text.now x.0 x.1.now) (λ stop. StopsReading (IsAfterUser utf8 name) never text.now stop) }
{
    let after_space = octet(b' ', text)?;
    let (head, rest) = string_head(alloc, utf8, Kind::Astring, after_space)?;
    match head {
        Head::Whole(password) => bare(Command::Login { name, password }, rest),
        Head::Literal(size) => Ok((Next::Awaits(size, Awaited::LoginPassword { name }), rest)),
    }
}

fn login(alloc: Global, utf8: bool, text: &[u8]) -> Result<(Next, &[u8]), Stop>
    ensures more { result ≡ Err More → first_line text.now ≡ None }
    ensures reads { MatchResult result (λ x. Comes utf8 (IsLoginCommand utf8) text.now x.0 x.1.now) (λ stop. StopsReading (IsLoginCommand utf8) never text.now stop) }
{
    let after_space = octet(b' ', text)?;
    let (head, rest) = string_head(alloc, utf8, Kind::Astring, after_space)?;
    match head {
        Head::Whole(name) => after_user(alloc, utf8, name, rest),
        Head::Literal(size) => Ok((Next::Awaits(size, Awaited::LoginName), rest)),
    }
}

// ---- ENABLE

// Reads atoms with a space between any two, and the end of the line.
fn atoms(alloc: Global, text: &[u8]) -> Result<(Items<Octets>, &[u8]), Stop>
    ensures more { result ≡ Err More → first_line text.now ≡ None }
    ensures reads { MatchResult result (λ x. Reads IsAtoms never text.now x.0 x.1.now) (λ stop. StopsReading IsAtoms never text.now stop) }
{
    let (first, after_first) = run(Kind::Atom, text)?;
    let Ok(first) = Octets::from_slice(alloc, first) else {
        return Err(Stop::Memory);
    };
    let mut atoms = Items::new(alloc);
    let Ok(()) = atoms.push(first) else {
        return Err(Stop::Memory);
    };
    let mut rest = after_first;
    while let Some((separator, others)) = rest.split_first() {
        if *separator != b' ' {
            let following = line_end(rest)?;
            return Ok((atoms, following));
        }
        let (atom, following) = run(Kind::Atom, others)?;
        let Ok(atom) = Octets::from_slice(alloc, atom) else {
            return Err(Stop::Memory);
        };
        let Ok(()) = atoms.push(atom) else {
            return Err(Stop::Memory);
        };
        rest = following;
    }
    Err(Stop::More)
}

fn enable(alloc: Global, text: &[u8]) -> Result<(Next, &[u8]), Stop>
    ensures more { result ≡ Err More → first_line text.now ≡ None }
    ensures reads { MatchResult result (λ x. (utf8 : Bool) → Comes utf8 IsEnable text.now x.0 x.1.now) (λ stop. StopsReading IsEnable never text.now stop) }
{
    let after_space = octet(b' ', text)?;
    let (words, rest) = atoms(alloc, after_space)?;
    Ok((Next::Whole(Command::Enable { words }), rest))
}

// ---- SELECT, EXAMINE and CREATE

// The command with this mailbox.
fn command_with(naming: Naming, name: Octets) -> Command
    ensures { result ≡ named naming name }
{
    match naming {
        Naming::Select => Command::Select { name },
        Naming::Examine => Command::Examine { name },
        Naming::Create => Command::Create { name },
    }
}

pub fn after_mailbox(naming: Naming, name: Octets, text: &[u8]) -> Result<(Next, &[u8]), Stop>
    ensures more { result ≡ Err More → first_line text.now ≡ None }
    ensures reads { MatchResult result (λ x. (utf8 : Bool) → Comes utf8 (IsBareCommand (named naming name)) text.now x.0 x.1.now) (λ stop. StopsReading (IsBareCommand (named naming name)) never text.now stop) }
{
    bare(command_with(naming, name), text)
}

fn with_mailbox(
    alloc: Global,
    utf8: bool,
    naming: Naming,
    text: &[u8],
) -> Result<(Next, &[u8]), Stop>
    ensures more { result ≡ Err More → first_line text.now ≡ None }
    ensures reads { MatchResult result (λ x. Comes utf8 (IsNaming utf8 (named naming)) text.now x.0 x.1.now) (λ stop. StopsReading (IsNaming utf8 (named naming)) never text.now stop) }
{
    let after_space = octet(b' ', text)?;
    let (head, rest) = string_head(alloc, utf8, Kind::Astring, after_space)?;
    match head {
        Head::Whole(name) => after_mailbox(naming, name, rest),
        Head::Literal(size) => Ok((Next::Awaits(size, Awaited::Mailbox(naming)), rest)),
    }
}

// ---- LIST

pub fn after_reference(
    alloc: Global,
    utf8: bool,
    reference: Octets,
    text: &[u8],
) -> Result<(Next, &[u8]), Stop>
    ensures more { result ≡ Err More → first_line text.now ≡ None }
    ensures reads { MatchResult result (λ x. Comes utf8 (IsAfterReference utf8 reference) text.now x.0 x.1.now) (λ stop. StopsReading (IsAfterReference utf8 reference) never text.now stop) }
{
    let after_space = octet(b' ', text)?;
    let (head, rest) = string_head(alloc, utf8, Kind::ListMailbox, after_space)?;
    match head {
        Head::Whole(pattern) => bare(Command::List { reference, pattern }, rest),
        Head::Literal(size) => Ok((Next::Awaits(size, Awaited::ListPattern { reference }), rest)),
    }
}

fn list(alloc: Global, utf8: bool, text: &[u8]) -> Result<(Next, &[u8]), Stop>
    ensures more { result ≡ Err More → first_line text.now ≡ None }
    ensures reads { MatchResult result (λ x. Comes utf8 (IsListing utf8) text.now x.0 x.1.now) (λ stop. StopsReading (IsListing utf8) never text.now stop) }
{
    let after_space = octet(b' ', text)?;
    let (head, rest) = string_head(alloc, utf8, Kind::Astring, after_space)?;
    match head {
        Head::Whole(reference) => after_reference(alloc, utf8, reference, rest),
        Head::Literal(size) => Ok((Next::Awaits(size, Awaited::ListReference), rest)),
    }
}

// ---- STATUS

// Reads items in parentheses.
fn status_items(alloc: Global, text: &[u8]) -> Result<(Items<StatusItem>, &[u8]), Stop>
    ensures { MatchResult result (λ x. Reads IsStatusItems never text.now x.0 x.1.now) (λ stop. StopsReading IsStatusItems never text.now stop) }
{
    let after_open = octet(b'(', text)?;
    let (first, after_first) = status_word(after_open)?;
    let mut items = Items::new(alloc);
    let Ok(()) = items.push(first) else {
        return Err(Stop::Memory);
    };
    let mut rest = after_first;
    while let Some((separator, others)) = rest.split_first() {
        if *separator != b' ' {
            let following = octet(b')', rest)?;
            return Ok((items, following));
        }
        let (item, following) = status_word(others)?;
        let Ok(()) = items.push(item) else {
            return Err(Stop::Memory);
        };
        rest = following;
    }
    Err(Stop::More)
}

pub fn after_status_name(alloc: Global, name: Octets, text: &[u8]) -> Result<(Next, &[u8]), Stop>
    ensures more { result ≡ Err More → first_line text.now ≡ None }
    ensures reads { MatchResult result (λ x. (utf8 : Bool) → Comes utf8 (IsAfterStatusName name) text.now x.0 x.1.now) (λ stop. StopsReading (IsAfterStatusName name) never text.now stop) }
{
    let after_space = octet(b' ', text)?;
    let (items, rest) = status_items(alloc, after_space)?;
    bare(Command::Status { name, items }, rest)
}

fn status(alloc: Global, utf8: bool, text: &[u8]) -> Result<(Next, &[u8]), Stop>
    ensures more { result ≡ Err More → first_line text.now ≡ None }
    ensures reads { MatchResult result (λ x. Comes utf8 (IsStatus utf8) text.now x.0 x.1.now) (λ stop. StopsReading (IsStatus utf8) never text.now stop) }
{
    let after_space = octet(b' ', text)?;
    let (head, rest) = string_head(alloc, utf8, Kind::Astring, after_space)?;
    match head {
        Head::Whole(name) => after_status_name(alloc, name, rest),
        Head::Literal(size) => Ok((Next::Awaits(size, Awaited::StatusName), rest)),
    }
}

// ---- STORE, UID and what isn't here

fn store(alloc: Global, uid: bool, text: &[u8]) -> Result<(Next, &[u8]), Stop>
    ensures more { result ≡ Err More → first_line text.now ≡ None }
    ensures reads { MatchResult result (λ x. (utf8 : Bool) → Comes utf8 (IsStore uid) text.now x.0 x.1.now) (λ stop. StopsReading (IsStore uid) never text.now stop) }
{
    let after_space = octet(b' ', text)?;
    let (ranges, after_set) = set_and_space(alloc, after_space)?;
    let ((op, silent), after_word) = storing_word(after_set)?;
    let following = octet(b' ', after_word)?;
    let (flags, rest) = flags_to_end(following)?;
    let set = Set { ranges };
    Ok((
        Next::Whole(Command::Store {
            uid,
            set,
            op,
            silent,
            flags,
        }),
        rest,
    ))
}

// How many octets the first line has.
fn line_len(text: &[u8]) -> Option<usize>
    ensures bound { IfSome result (λ n. n ≤ length text.now) }
    ensures line { MatchOption result (first_line text.now ≡ None) (λ n. first_line text.now ≡ Some (record { line = take n text.now; rest = drop n text.now })) }
{
    mail_wire::line_end(&[], text)
}

fn not_here(text: &[u8]) -> Result<(Next, &[u8]), Stop>
    ensures more { result ≡ Err More → first_line text.now ≡ None }
    ensures reads { MatchResult result (λ x. (utf8 : Bool) → Comes utf8 IsNotHere text.now x.0 x.1.now) (λ stop. StopsReading IsNotHere never text.now stop) }
{
    let Some(len) = line_len(text) else {
        return Err(Stop::More);
    };
    let (_, rest) = text.split_at(len);
    Ok((Next::Whole(Command::NotHere), rest))
}

fn uid(alloc: Global, utf8: bool, text: &[u8]) -> Result<(Next, &[u8]), Stop>
    ensures more { result ≡ Err More → first_line text.now ≡ None }
    ensures reads { MatchResult result (λ x. Comes utf8 (IsUid utf8) text.now x.0 x.1.now) (λ stop. StopsReading (IsUid utf8) never text.now stop) }
{
    let after_space = octet(b' ', text)?;
    let (name, rest) = uid_name(after_space)?;
    match name {
        UidName::Fetch => fetch(alloc, utf8, true, rest),
        UidName::Store => store(alloc, true, rest),
        UidName::NotHere => not_here(rest),
    }
}

// ---- all of them

// Reads what follows a command's name.
pub fn after_name(alloc: Global, utf8: bool, name: Name, text: &[u8]) -> Result<(Next, &[u8]), Stop>
    ensures more { result ≡ Err More → first_line text.now ≡ None }
    ensures reads { MatchResult result (λ x. Comes utf8 (IsAfterName utf8 name) text.now x.0 x.1.now) (λ stop. StopsReading (IsAfterName utf8 name) never text.now stop) }
{
    match name {
        Name::Capability => bare(Command::Capability, text),
        Name::Noop => bare(Command::Noop, text),
        Name::Check => bare(Command::Check, text),
        Name::Logout => bare(Command::Logout, text),
        Name::Login => login(alloc, utf8, text),
        Name::Enable => enable(alloc, text),
        Name::Select => with_mailbox(alloc, utf8, Naming::Select, text),
        Name::Examine => with_mailbox(alloc, utf8, Naming::Examine, text),
        Name::Create => with_mailbox(alloc, utf8, Naming::Create, text),
        Name::List => list(alloc, utf8, text),
        Name::Status => status(alloc, utf8, text),
        Name::Append => append(alloc, utf8, text),
        Name::Fetch => fetch(alloc, utf8, false, text),
        Name::Store => store(alloc, false, text),
        Name::Uid => uid(alloc, utf8, text),
        Name::Expunge => bare(Command::Expunge, text),
        Name::Close => bare(Command::Close, text),
        Name::NotHere => not_here(text),
    }
}
