//! What is told of folders, and their making.
ghost use Rattle.std.specs.Prelude.{◌≡◌, ◌<◌, ◌++◌, length, map, string_bytes, IfOk, IfSome, IsUtf8, OnOk};
ghost use Rattle.kept_mail.specs.Kept.{kept_folder_name, listed};
ghost use Rattle.imap_mailboxes.specs.Names.{quoted, shown_name as name_shown};
ghost use Rattle.surrogate_cache.specs.Served.{is_enabled};
ghost use Rattle.session_core.specs.Desks.{IsOpen};
ghost use Rattle.session_core.specs.Keeps.{Keeps, fault_of};
ghost use Rattle.session_core.specs.Doing.{Does};
ghost use Rattle.session_core.specs.Oracles.{Oracles, WithOracles};
ghost use Rattle.imap_session.specs.Machine.{create_by, folder_lines as lines_of_folder, folder_named, list_line as line_of_list, list_lines as lines_of_list, State, status_among, status_line as line_of_status, status_text as status_of_item, spaced, unseen_among};
ghost use Rattle.imap_session.specs.Replies.{part_octets, reply_octets};
ghost use Rattle.imap_session.specs.private.Lines.{status_octets, words_of_created};

use crate::replies::{DONE, TOO_LARGE, say};
use crate::states::Kind;
use imap_grammar::StatusItem;
use imap_mailboxes::{Pattern, has_flag, quote, read_name, shown_name};
use journal_records::may_name_folder;
use kept_mail::Listed;
use mail_store::Store;
use mail_wire::{Clock, Fault, Keeper, Memory, Octets, Wire};
use session_core::{Created, Outside};
use std::alloc::Global;

const SEEN: u8 = 1;

const BAD_NAME: &[u8] = b"NO bad name";

/// The folder that a text names.
pub fn find_named<V: Kind>(
    alloc: Global,
    store: &Store,
    account: u32,
    written: &[u8],
) -> Result<Option<u32>, Memory>
    ensures found { IfOk result (λ found. WithOracles (λ oracles. found ≡ folder_named oracles V.mode store.now account written.now)) }
    ensures known { IfOk result (λ found. IfSome found (λ folder. folder < length store.now.kept.folders)) }
{
    let Some(name) = read_name(alloc, V::enabled(), written)? else {
        return Ok(None);
    };
    store.find_folder(account, &name)
}

/// The lines of SELECT and EXAMINE, where the folder has so many messages.
pub fn folder_lines(
    alloc: Global,
    store: &Store,
    folder: u32,
    read_only: bool,
    count: usize,
) -> Result<Octets, Memory>
    requires folder { folder < length store.now.kept.folders }
    requires count { count ≡ length (listed store.now.kept folder) }
    ensures { IfOk result (λ lines. (oracles : Oracles) → lines ≡ reply_octets oracles (lines_of_folder store.now folder read_only)) }
{
    let next = store.uid_next(folder);
    let permanent = if read_only {
        ""
    } else {
        "\\Answered \\Flagged \\Deleted \\Seen \\Draft"
    };
    let lines = format!(in alloc;
        "* {count} EXISTS\r\n* 0 RECENT\r\n* FLAGS (\\Answered \\Flagged \\Deleted \\Seen \\Draft)\r\n* OK [UIDVALIDITY 1] ok\r\n* OK [UIDNEXT {next}] ok\r\n* OK [PERMANENTFLAGS ({permanent})] ok\r\n"
    )?;
    Ok(Octets::from_vec(lines.into_bytes()))
}

// The name of a folder as the session shows it.
fn shown_text<V: Kind>(alloc: Global, name: &[u8]) -> Result<Octets, Memory>
    requires { IsUtf8 name.now }
    ensures { IfOk result (λ text. text ≡ name_shown (is_enabled V.mode) name.now) }
{
    match str::from_utf8(name) {
        Ok(name) => shown_name(alloc, V::enabled(), name),
        // It is UTF-8.
        Err(_) => unreachable!(),
    }
}

// Puts the line of a folder last, where its name matches.
fn push_list_line<V: Kind>(
    alloc: Global,
    lines: &mut Octets,
    pattern: &Pattern,
    name: &[u8],
) -> Result<(), Memory>
    requires { IsUtf8 name.now }
    ensures { (oracles : Oracles) → OnOk result (lines.new ≡ lines.old ++ reply_octets oracles (line_of_list V.mode pattern.now name.now)) }
{
    let shown = shown_text::<V>(alloc, name)?;
    if !pattern.matches(shown.as_slice()) {
        return Ok(());
    }
    let quoted = quote(alloc, shown.as_slice())?;
    lines.push_slice(b"* LIST () NIL ")?;
    lines.push_slice(quoted.as_slice())?;
    lines.push_slice(b"\r\n")
}

/// The lines of LIST, one for each folder of the account whose name matches.
pub fn list_lines<V: Kind>(
    alloc: Global,
    store: &Store,
    account: u32,
    reference: &[u8],
    pattern: &[u8],
) -> Result<Octets, Memory>
    ensures { IfOk result (λ lines. (oracles : Oracles) → lines ≡ reply_octets oracles (lines_of_list V.mode store.now account reference.now pattern.now)) }
{
    if pattern.is_empty() {
        return Octets::from_slice(alloc, b"* LIST (\\Noselect) NIL \"\"\r\n");
    }
    let whole = Pattern::new(alloc, reference, pattern)?;
    let names = store.folder_names(account)?;
    let mut lines = Octets::new(alloc);
    for name in &names {
        push_list_line::<V>(alloc, &mut lines, &whole, name.as_slice())?;
    }
    Ok(lines)
}

// How many messages of the list aren't seen.
fn count_unseen(messages: &[Listed]) -> usize
    ensures { result ≡ unseen_among messages.now }
{
    messages
        .iter()
        .filter(|one| !has_flag(one.flags, SEEN))
        .count()
}

// What STATUS tells of an item.
fn status_text(
    alloc: Global,
    item: StatusItem,
    messages: &[Listed],
    next: u32,
) -> Result<String, Memory>
    ensures { IfOk result (λ text. string_bytes text ≡ status_among item messages.now next) }
{
    let text = match item {
        StatusItem::Messages => format!(in alloc; "MESSAGES {}", messages.len())?,
        StatusItem::Recent => String::from_str(alloc, "RECENT 0")?,
        StatusItem::UidNext => format!(in alloc; "UIDNEXT {next}")?,
        StatusItem::UidValidity => String::from_str(alloc, "UIDVALIDITY 1")?,
        StatusItem::Unseen => format!(in alloc; "UNSEEN {}", count_unseen(messages))?,
    };
    Ok(text)
}

// What STATUS tells of items, with a space between any two.
fn status_texts(
    alloc: Global,
    items: &[StatusItem],
    messages: &[Listed],
    next: u32,
) -> Result<Octets, Memory>
    ensures { IfOk result (λ texts. texts ≡ spaced (map (λ item. status_among item messages.now next) items.now)) }
{
    let mut texts = Octets::new(alloc);
    for (place, item) in items.iter().enumerate() {
        if place > 0 {
            texts.push(b' ')?;
        }
        let text = status_text(alloc, *item, messages, next)?;
        texts.push_slice(text.as_bytes())?;
    }
    Ok(texts)
}

// What STATUS tells of items of a folder.
fn status_of(
    alloc: Global,
    store: &Store,
    folder: u32,
    items: &[StatusItem],
) -> Result<Octets, Memory>
    requires { folder < length store.now.kept.folders }
    ensures { IfOk result (λ texts. texts ≡ spaced (map (status_of_item store.now folder) items.now)) }
{
    let messages = store.list(folder)?;
    status_texts(alloc, items, &messages, store.uid_next(folder))
}

// The name of a folder as the session shows it, quoted.
fn quoted_name<V: Kind>(alloc: Global, store: &Store, folder: u32) -> Result<Octets, Memory>
    requires { folder < length store.now.kept.folders }
    ensures { IfOk result (λ text. text ≡ quoted (name_shown (is_enabled V.mode) (kept_folder_name store.now.kept folder))) }
{
    let shown = shown_text::<V>(alloc, store.folder_name(folder))?;
    quote(alloc, shown.as_slice())
}

// Puts the line of STATUS last, of a folder's name and what is told of it.
fn push_status(line: &mut Octets, name: &[u8], texts: &[u8]) -> Result<(), Memory>
    ensures { OnOk result (line.new ≡ line.old ++ status_octets name.now texts.now) }
{
    line.push_slice(b"* STATUS ")?;
    line.push_slice(name)?;
    line.push_slice(b" (")?;
    line.push_slice(texts)?;
    line.push_slice(b")\r\n")
}

/// The line of STATUS.
pub fn status_line<V: Kind>(
    alloc: Global,
    store: &Store,
    folder: u32,
    items: &[StatusItem],
) -> Result<Octets, Memory>
    requires { folder < length store.now.kept.folders }
    ensures { IfOk result (λ line. (oracles : Oracles) → line ≡ reply_octets oracles (line_of_status V.mode store.now folder items.now)) }
{
    let name = quoted_name::<V>(alloc, store, folder)?;
    let texts = status_of(alloc, store, folder, items)?;
    let mut line = Octets::new(alloc);
    push_status(&mut line, name.as_slice(), texts.as_slice())?;
    Ok(line)
}

// What CREATE answers.
fn created_words(created: Created) -> &'static [u8]
    ensures { result.now ≡ words_of_created created }
{
    match created {
        Created::Made => DONE,
        Created::Exists => b"NO exists",
        Created::TooLarge => TOO_LARGE,
    }
}

/// Makes a folder of the name that the text writes, unless it is refused, and answers.
pub fn create<V: Kind, W: Wire, J: Keeper, C: Clock>(
    account: u32,
    tag: &[u8],
    written: &[u8],
    outside: &mut Outside<W, J, C>,
) -> Result<(), Fault>
    requires opens { IsOpen outside.old.desk }
    requires known { account < length outside.old.desk.store.kept.accounts }
    ensures does { WithOracles (λ oracles. (state : State) → Does (part_octets oracles) outside.old outside.new (fault_of result)
        (create_by tag.now state account outside.old.desk.store (oracles.name_of (is_enabled V.mode) written.now)).acts) }
    ensures keeps { Keeps outside.old outside.new (fault_of result) }
{
    let alloc = outside.alloc();
    let Some(name) = read_name(alloc, V::enabled(), written)? else {
        return say(tag, BAD_NAME, outside);
    };
    if !may_name_folder(alloc, &name)? {
        return say(tag, BAD_NAME, outside);
    }
    let created = outside.create_folder(account, &name)?;
    say(tag, created_words(created), outside)
}
