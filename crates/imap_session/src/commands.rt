//! The commands of each state.
ghost use Rattle.std.specs.Prelude.{◌≡◌, ◌<◌, ℕ, List, length, false, OnOk};
ghost use Rattle.kept_mail.specs.Kept.{listed, logged_in};
ghost use Rattle.mail_store.specs.StoreState.{StoreState};
ghost use Rattle.session_core.specs.Desks.{IsOpen};
ghost use Rattle.session_core.specs.Doing.{Does};
ghost use Rattle.session_core.specs.Keeps.{Keeps, fault_of};
ghost use Rattle.session_core.specs.Oracles.{Oracles, WithOracles};
ghost use Rattle.imap_session.specs.Machine.{State, answers, asks_utf8 as asks_utf8_of, authenticated_step, common_step, context_of, done, enable_step, folder_lines as lines_of_folder, folder_named, lacks_date, list_lines as lines_of_list, login_by, mailbox_step, not_authenticated_step, opened_words as words_of_opened, select_by, status_by, step, takes_moment};
ghost use Rattle.imap_session.specs.Replies.{part_octets};
ghost use Rattle.imap_session.specs.Session.{IsSaid, KnowsNext, KnowsState, TakesStep, TakesStepAt, state_of, state_or_ended};
ghost use Rattle.imap_session.specs.private.Messages.{selects_or_appends, state_left};

use crate::appending::{AppendRequest, append};
use crate::folders::{create, find_named, folder_lines, list_lines, status_line};
use crate::replies::{DONE, NO_SUCH_FOLDER, OUT_OF_ORDER, answer, answer_text, say};
use crate::selected::answer_selected;
use crate::states::{Authenticated, Imap, ImapState, Kind, NotAuthenticated};
use imap_grammar::{Command, StatusItem};
use mail_wire::{Clock, Fault, Keeper, Octets, Wire, is_same_name};
use session_core::Outside;
use surrogate_cache::{Enabled, Legacy};

const CAPABILITY: &[u8] = b"* CAPABILITY IMAP4rev1 ENABLE UTF8=ACCEPT\r\n";

// ---- in every state

// What is given for a command of every state. Any other is out of order.
fn give_common<W: Wire, J: Keeper, C: Clock>(
    tag: &[u8],
    command: &Command,
    outside: &mut Outside<W, J, C>,
) -> Result<(), Fault>
    ensures does { (oracles : Oracles) (state : State) → Does (part_octets oracles) outside.old outside.new (fault_of result) (common_step tag.now state command.now).acts }
    ensures same { outside.new.desk ≡ outside.old.desk }
    ensures keeps { Keeps outside.old outside.new (fault_of result) }
{
    match command {
        Command::Capability => answer_text(CAPABILITY, tag, DONE, outside),
        Command::Noop => say(tag, DONE, outside),
        Command::Logout => answer_text(b"* BYE bye\r\n", tag, DONE, outside),
        Command::NotHere => say(tag, b"NO not here", outside),
        _ => say(tag, OUT_OF_ORDER, outside),
    }
}

// The session after a command that leaves the state.
fn left_by(session: ImapState, command: &Command) -> Option<ImapState>
    ensures state { state_or_ended result ≡ state_left (state_of session) command.now }
    ensures known { (store : StoreState) → KnowsState store session → KnowsNext store result }
{
    match command {
        Command::Logout => None,
        _ => Some(session),
    }
}

// A command of every state, or one that is out of order.
fn answer_common<W: Wire, J: Keeper, C: Clock>(
    session: ImapState,
    tag: &[u8],
    command: &Command,
    outside: &mut Outside<W, J, C>,
) -> Result<Option<ImapState>, Fault>
    requires known { KnowsState outside.old.desk.store session }
    ensures takes { TakesStep outside.old outside.new result (λ oracles. common_step tag.now (state_of session) command.now) }
    ensures keeps { Keeps outside.old outside.new (fault_of result) }
{
    give_common(tag, command, outside)?;
    Ok(left_by(session, command))
}

// ---- before login

// LOGIN, with a name and a password.
fn login<W: Wire, J: Keeper, C: Clock>(
    imap: Imap<NotAuthenticated, Legacy>,
    tag: &[u8],
    name: &[u8],
    password: &[u8],
    outside: &mut Outside<W, J, C>,
) -> Result<Option<ImapState>, Fault>
    ensures takes { TakesStep outside.old outside.new result (λ oracles. login_by tag.now (logged_in oracles.path_of outside.old.desk.store.kept name.now password.now)) }
    ensures keeps { Keeps outside.old outside.new (fault_of result) }
{
    let Some(account) = outside.store().login(name, password)? else {
        say(tag, b"NO no", outside)?;
        return Ok(Some(ImapState::NotAuthenticated(imap)));
    };
    say(tag, DONE, outside)?;
    Ok(Some(ImapState::Authenticated(imap.login(account))))
}

// A command where nobody has logged in.
fn answer_unauthenticated<W: Wire, J: Keeper, C: Clock>(
    imap: Imap<NotAuthenticated, Legacy>,
    tag: &[u8],
    command: &Command,
    outside: &mut Outside<W, J, C>,
) -> Result<Option<ImapState>, Fault>
    ensures takes { TakesStep outside.old outside.new result (λ oracles. not_authenticated_step oracles tag.now outside.old.desk.store command.now) }
    ensures keeps { Keeps outside.old outside.new (fault_of result) }
{
    match command {
        Command::Login { name, password } => {
            login(imap, tag, name.as_slice(), password.as_slice(), outside)
        }
        _ => answer_common(ImapState::NotAuthenticated(imap), tag, command, outside),
    }
}

// ---- on folders

fn opened_words(read_only: bool) -> &'static [u8]
    ensures { result.now ≡ words_of_opened read_only }
{
    if read_only {
        b"OK [READ-ONLY] done"
    } else {
        b"OK [READ-WRITE] done"
    }
}

// Gives the lines of a folder that was opened, and has so many messages.
fn give_opened<W: Wire, J: Keeper, C: Clock>(
    folder: u32,
    read_only: bool,
    count: usize,
    tag: &[u8],
    outside: &mut Outside<W, J, C>,
) -> Result<(), Fault>
    requires folder { folder < length outside.old.desk.store.kept.folders }
    requires count { count ≡ length (listed outside.old.desk.store.kept folder) }
    ensures does { (oracles : Oracles) (state : State) → Does (part_octets oracles) outside.old outside.new (fault_of result)
        (answers tag.now (words_of_opened read_only) (lines_of_folder outside.old.desk.store folder read_only) state).acts }
    ensures same { outside.new.desk ≡ outside.old.desk }
    ensures keeps { Keeps outside.old outside.new (fault_of result) }
{
    let lines = folder_lines(outside.alloc(), outside.store(), folder, read_only, count)?;
    answer(lines, tag, opened_words(read_only), outside)
}

// SELECT or EXAMINE. Where there is no such folder, none is selected any more.
pub fn select<V: Kind, W: Wire, J: Keeper, C: Clock>(
    imap: Imap<Authenticated, V>,
    tag: &[u8],
    written: &[u8],
    read_only: bool,
    outside: &mut Outside<W, J, C>,
) -> Result<Option<ImapState>, Fault>
    requires known { imap.state.account < length outside.old.desk.store.kept.accounts }
    ensures takes { TakesStep outside.old outside.new result (λ oracles.
        select_by tag.now V.mode imap.state.account read_only outside.old.desk.store (folder_named oracles V.mode outside.old.desk.store imap.state.account written.now)) }
    ensures keeps { Keeps outside.old outside.new (fault_of result) }
{
    let account = imap.state.account;
    let found = find_named::<V>(outside.alloc(), outside.store(), account, written)?;
    let Some(folder) = found else {
        say(tag, NO_SUCH_FOLDER, outside)?;
        return Ok(Some(V::in_authenticated(imap)));
    };
    let messages = outside.store().list(folder)?;
    give_opened(folder, read_only, messages.len(), tag, outside)?;
    Ok(Some(V::in_selected(imap.select(folder, read_only, messages))))
}

// STATUS.
fn give_status<V: Kind, W: Wire, J: Keeper, C: Clock>(
    account: u32,
    tag: &[u8],
    written: &[u8],
    items: &[StatusItem],
    outside: &mut Outside<W, J, C>,
) -> Result<(), Fault>
    ensures does { WithOracles (λ oracles. (state : State) → Does (part_octets oracles) outside.old outside.new (fault_of result)
        (status_by tag.now state V.mode outside.old.desk.store items.now (folder_named oracles V.mode outside.old.desk.store account written.now)).acts) }
    ensures same { outside.new.desk ≡ outside.old.desk }
    ensures keeps { Keeps outside.old outside.new (fault_of result) }
{
    let alloc = outside.alloc();
    let Some(folder) = find_named::<V>(alloc, outside.store(), account, written)? else {
        return say(tag, NO_SUCH_FOLDER, outside);
    };
    let line = status_line::<V>(alloc, outside.store(), folder, items)?;
    answer(line, tag, DONE, outside)
}

// LIST.
fn give_list<V: Kind, W: Wire, J: Keeper, C: Clock>(
    account: u32,
    tag: &[u8],
    reference: &[u8],
    pattern: &[u8],
    outside: &mut Outside<W, J, C>,
) -> Result<(), Fault>
    ensures does { (oracles : Oracles) (state : State) → Does (part_octets oracles) outside.old outside.new (fault_of result)
        (answers tag.now done (lines_of_list V.mode outside.old.desk.store account reference.now pattern.now) state).acts }
    ensures same { outside.new.desk ≡ outside.old.desk }
    ensures keeps { Keeps outside.old outside.new (fault_of result) }
{
    let lines = list_lines::<V>(
        outside.alloc(),
        outside.store(),
        account,
        reference,
        pattern,
    )?;
    answer(lines, tag, DONE, outside)
}

// What is done for a command on folders that leaves the state, or for one of every state.
fn give_on_folders<V: Kind, W: Wire, J: Keeper, C: Clock>(
    account: u32,
    tag: &[u8],
    command: &Command,
    outside: &mut Outside<W, J, C>,
) -> Result<(), Fault>
    requires opens { IsOpen outside.old.desk }
    requires account { account < length outside.old.desk.store.kept.accounts }
    requires other { selects_or_appends command.now ≡ false }
    ensures does { WithOracles (λ oracles. (now : List ℕ) (state : State) → Does (part_octets oracles) outside.old outside.new (fault_of result)
        (mailbox_step (context_of oracles now tag.now outside.old.desk.store) state V.mode account command.now).acts) }
    ensures known { OnOk result ((session : ImapState) → KnowsState outside.old.desk.store session → KnowsState outside.new.desk.store session) }
    ensures keeps { Keeps outside.old outside.new (fault_of result) }
{
    match command {
        Command::Create { name } => create::<V, W, J, C>(account, tag, name.as_slice(), outside),
        Command::List { reference, pattern } => {
            let (reference, pattern) = (reference.as_slice(), pattern.as_slice());
            give_list::<V, W, J, C>(account, tag, reference, pattern, outside)
        }
        Command::Status { name, items } => {
            give_status::<V, W, J, C>(account, tag, name.as_slice(), items.as_slice(), outside)
        }
        _ => give_common(tag, command, outside),
    }
}

// A command on folders that leaves the state, or one of every state.
pub fn answer_on_folders<V: Kind, W: Wire, J: Keeper, C: Clock>(
    session: ImapState,
    account: u32,
    tag: &[u8],
    command: &Command,
    outside: &mut Outside<W, J, C>,
) -> Result<Option<ImapState>, Fault>
    requires opens { IsOpen outside.old.desk }
    requires known { KnowsState outside.old.desk.store session }
    requires account { account < length outside.old.desk.store.kept.accounts }
    requires other { selects_or_appends command.now ≡ false }
    ensures takes { (now : List ℕ) → TakesStep outside.old outside.new result (λ oracles.
        mailbox_step (context_of oracles now tag.now outside.old.desk.store) (state_of session) V.mode account command.now) }
    ensures keeps { Keeps outside.old outside.new (fault_of result) }
{
    give_on_folders::<V, W, J, C>(account, tag, command, outside)?;
    Ok(left_by(session, command))
}

// ---- after login

// Whether ENABLE asks for UTF-8.
fn asks_utf8(words: &[Octets]) -> bool
    ensures { result ≡ asks_utf8_of words.now }
{
    words
        .iter()
        .any(|word| is_same_name(b"UTF8=ACCEPT", word.as_slice()))
}

// ENABLE. What it turns on is told.
fn enable<V: Kind, W: Wire, J: Keeper, C: Clock>(
    imap: Imap<Authenticated, V>,
    tag: &[u8],
    words: &[Octets],
    outside: &mut Outside<W, J, C>,
) -> Result<Option<ImapState>, Fault>
    requires known { imap.state.account < length outside.old.desk.store.kept.accounts }
    ensures takes { TakesStep outside.old outside.new result (λ oracles. enable_step tag.now V.mode imap.state.account (asks_utf8_of words.now)) }
    ensures keeps { Keeps outside.old outside.new (fault_of result) }
{
    if V::enabled() || !asks_utf8(words) {
        answer_text(b"* ENABLED\r\n", tag, DONE, outside)?;
        return Ok(Some(V::in_authenticated(imap)));
    }
    answer_text(b"* ENABLED UTF8=ACCEPT\r\n", tag, DONE, outside)?;
    Ok(Some(Enabled::in_authenticated(imap.enable())))
}

// A command where no folder is selected.
fn answer_authenticated<V: Kind, W: Wire, J: Keeper, C: Clock>(
    imap: Imap<Authenticated, V>,
    tag: &[u8],
    command: &Command,
    outside: &mut Outside<W, J, C>,
) -> Result<Option<ImapState>, Fault>
    requires opens { IsOpen outside.old.desk }
    requires known { imap.state.account < length outside.old.desk.store.kept.accounts }
    requires said { IsSaid command.now }
    ensures takes { TakesStepAt outside.old outside.new result (lacks_date command.now) (λ oracles now.
        authenticated_step (context_of oracles now tag.now outside.old.desk.store) V.mode imap.state.account command.now) }
    ensures keeps { Keeps outside.old outside.new (fault_of result) }
{
    match command {
        Command::Enable { words } => enable(imap, tag, words.as_slice(), outside),
        Command::Select { name } => select(imap, tag, name.as_slice(), false, outside),
        Command::Examine { name } => select(imap, tag, name.as_slice(), true, outside),
        Command::Append {
            name,
            flags,
            date,
            utf8,
            octets,
        } => {
            let request = AppendRequest {
                written: name.as_slice(),
                flags: *flags,
                date,
                in_utf8: *utf8,
                octets: octets.as_slice(),
            };
            append(imap, tag, &request, outside)
        }
        _ => {
            let account = imap.state.account;
            let session = V::in_authenticated(imap);
            answer_on_folders::<V, W, J, C>(session, account, tag, command, outside)
        }
    }
}

/// Does what a command says in the state of the session. None where it ends the session.
pub fn answer_command<W: Wire, J: Keeper, C: Clock>(
    session: ImapState,
    tag: &[u8],
    command: &Command,
    outside: &mut Outside<W, J, C>,
) -> Result<Option<ImapState>, Fault>
    requires opens { IsOpen outside.old.desk }
    requires known { KnowsState outside.old.desk.store session }
    requires said { IsSaid command.now }
    ensures takes { TakesStepAt outside.old outside.new result (takes_moment (state_of session) command.now) (λ oracles now. step oracles now (state_of session) outside.old.desk.store tag.now command.now) }
    ensures keeps { Keeps outside.old outside.new (fault_of result) }
{
    match session {
        ImapState::NotAuthenticated(imap) => answer_unauthenticated(imap, tag, command, outside),
        ImapState::Authenticated(imap) => answer_authenticated(imap, tag, command, outside),
        ImapState::EnabledAuthenticated(imap) => answer_authenticated(imap, tag, command, outside),
        ImapState::Selected(imap) => answer_selected(imap, tag, command, outside),
        ImapState::EnabledSelected(imap) => answer_selected(imap, tag, command, outside),
    }
}
