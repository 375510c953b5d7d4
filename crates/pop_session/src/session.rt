//! The rows of a session, and serving it.
ghost use Rattle.std.specs.Prelude.{◌≡◌, [], None, Some, Err, IfOk, OnErr, ◌⊎◌, map, false, refl, string_bytes};
ghost use Rattle.std.specs.Option.{option_copied};
ghost use Rattle.mail_wire.specs.Numbers.{number_of};
ghost use Rattle.session_core.specs.Desks.{IsOpen};
ghost use Rattle.session_core.specs.Doing.{AsksAndReplies, Replies};
ghost use Rattle.session_core.specs.Keeps.{Keeps, fault_of};
ghost use Rattle.session_core.specs.Oracles.{WithOracles};
ghost use Rattle.session_core.specs.Served.{met_of};
ghost use Rattle.session_core.specs.Serving.{ServesBy};
ghost use Rattle.session_core.specs.declared.rows.Wants.TheVariants.{Line};
ghost use Rattle.pop_session.specs.Machine.{transaction, answers, done, marked, authorization_step, first_step, transaction_asks, transaction_step, transaction_reply, dele_step, quit_step};
ghost use Rattle.pop_session.specs.Replies.{reply_octets};
ghost use Rattle.pop_session.specs.Session.{pop_grammar, pop_protocol, PopStands, KnowsPop, TakesStep};
ghost use Rattle.pop_session.specs.States.{state_or_ended, KnowsState, Knows};
ghost use Rattle.pop_session.specs.laws.PopLaws.{agrees_by, opening_fits_by, rows_fit_by, long_rows_fit_by};

use crate::command::{
    Command, Keyword, is_http, is_of_transaction, read_command, read_top_numbers,
};
use crate::replies::{
    Asked, find_message, list, list_one, message_at, retr, stat, top, uidl, uidl_one,
};
use crate::states::{Authorization, Kind, Login, MaildropMessage, Pop, PopState, Transaction};
use mail_store::Store;
use mail_wire::{Clock, Fault, Keeper, Memory, Wire};
use session_core::{Framed, Outside, Rows, Served, Session, Wants, serve};
use std::alloc::Global;

const DONE: &[u8] = b"+OK\r\n";

const OUT_OF_ORDER: &[u8] = b"-ERR out of order\r\n";

const SYNTAX: &[u8] = b"-ERR syntax\r\n";

const NO_SUCH_MESSAGE: &[u8] = b"-ERR no such message\r\n";

const BYE: &[u8] = b"+OK bye\r\n";

const CAPABILITIES: &[u8] = b"+OK\r\nUTF8 USER\r\nTOP\r\nUIDL\r\nUSER\r\n.\r\n";

const TOO_LONG: &[u8] = b"-ERR line too long\r\n";

// A reply of one line, and the state after it; none where the session has ended.
#[derive(Debug, Drop)]
struct OneLine {
    reply: &'static [u8],
    next: Option<PopState>,
}

// The rows of AUTHORIZATION.
fn answer_authorization<V: Kind>(
    alloc: Global,
    pop: Pop<Authorization, V>,
    command: Command,
    store: &Store,
) -> Result<OneLine, Memory>
    ensures reply { IfOk result (λ answer. WithOracles (λ oracles.
        answer.reply.now ≡ reply_octets oracles (authorization_step oracles V.mode pop.state.user store.now command.entry.keyword (option_copied command.entry.argument)).reply)) }
    ensures next { IfOk result (λ answer. WithOracles (λ oracles.
        state_or_ended answer.next ≡ (authorization_step oracles V.mode pop.state.user store.now command.entry.keyword (option_copied command.entry.argument)).state)) }
    ensures known { IfOk result (λ answer. KnowsState store.now (state_or_ended answer.next)) }
{
    let (reply, next) = match (command.keyword, command.argument) {
        (keyword, _) if is_of_transaction(keyword) => {
            (OUT_OF_ORDER, Some(V::in_authorization(pop)))
        }
        (Keyword::Capa, None) => (CAPABILITIES, Some(V::in_authorization(pop))),
        (Keyword::Utf8, None) => (DONE, Some(PopState::EnabledAuthorization(pop.utf8()))),
        (Keyword::User, Some(name)) if !name.is_empty() => {
            (DONE, Some(V::in_authorization(pop.user(alloc, name)?)))
        }
        (Keyword::Pass, Some(password)) => match pop.pass(alloc, password, store)? {
            Login::OutOfOrder(pop) => (OUT_OF_ORDER, Some(V::in_authorization(pop))),
            Login::Refused(pop) => (b"-ERR no\r\n".as_slice(), Some(V::in_authorization(pop))),
            Login::Open(pop) => (DONE, Some(V::in_transaction(pop))),
        },
        (Keyword::Quit, None) => (BYE, None),
        _ => (SYNTAX, Some(V::in_authorization(pop))),
    };
    Ok(OneLine { reply, next })
}

// A command of AUTHORIZATION.
fn authorize<V: Kind, W: Wire, J: Keeper, C: Clock>(
    pop: Pop<Authorization, V>,
    command: Command,
    outside: &mut Outside<W, J, C>,
) -> Result<Option<PopState>, Fault>
    ensures takes { TakesStep outside.old outside.new result []
        (λ oracles. authorization_step oracles V.mode pop.state.user outside.old.desk.store command.entry.keyword (option_copied command.entry.argument)) }
    ensures keeps { Keeps outside.old outside.new (fault_of result) }
{
    let answer = answer_authorization(outside.alloc(), pop, command, outside.store())?;
    outside.give(answer.reply)?;
    Ok(answer.next)
}

// The first line: an HTTP request ends the session, and any other line is one of a legacy session.
fn answer_first<W: Wire, J: Keeper, C: Clock>(
    command: Command,
    outside: &mut Outside<W, J, C>,
) -> Result<Option<PopState>, Fault>
    ensures takes { TakesStep outside.old outside.new result []
        (λ oracles. first_step oracles outside.old.desk.store command.entry.keyword (option_copied command.entry.argument)) }
    ensures keeps { Keeps outside.old outside.new (fault_of result) }
{
    if is_http(command.keyword) {
        outside.give(SYNTAX)?;
        return Ok(None);
    }
    authorize(Pop::new(), command, outside)
}

// Gives a text as a reply. Where there was no memory to make it, nothing is given.
fn give_text<W: Wire, J: Keeper, C: Clock>(
    made: Result<String, Memory>,
    outside: &mut Outside<W, J, C>,
) -> Result<(), Fault>
    ensures told { IfOk made (λ text. Replies outside.old outside.new (fault_of result) (string_bytes text)) }
    ensures none { OnErr made ((result ≡ Err Fault.Memory) × (outside.new ≡ outside.old)) }
    ensures keeps { Keeps outside.old outside.new (fault_of result) }
{
    let text = made?;
    outside.give(text.as_bytes())
}

// The replies of TRANSACTION on all messages of the maildrop.
fn give_of_maildrop<V: Kind, W: Wire, J: Keeper, C: Clock>(
    keyword: Keyword,
    maildrop: &[MaildropMessage],
    outside: &mut Outside<W, J, C>,
) -> Result<(), Fault>
    requires keyword { (keyword ≡ Keyword.Stat) ⊎ (keyword ≡ Keyword.List) ⊎ (keyword ≡ Keyword.Uidl) }
    requires opens { IsOpen outside.old.desk }
    requires known { Knows outside.old.desk.store maildrop.now }
    ensures replies { WithOracles (λ oracles. AsksAndReplies outside.old outside.new (fault_of result)
        (transaction_asks V.mode maildrop.now outside.old.desk.store keyword None)
        (reply_octets oracles (transaction_reply oracles V.mode maildrop.now outside.old.desk.store keyword None))) }
    ensures keeps { Keeps outside.old outside.new (fault_of result) }
{
    match keyword {
        Keyword::Stat => give_text(stat::<V, W, J, C>(maildrop, outside), outside),
        Keyword::List => give_text(list::<V, W, J, C>(maildrop, outside), outside),
        _ => give_text(uidl(outside.alloc(), maildrop), outside),
    }
}

// The replies of TRANSACTION that ask for one message.
fn give_of_message<V: Kind, W: Wire, J: Keeper, C: Clock>(
    keyword: Keyword,
    text: &[u8],
    maildrop: &[MaildropMessage],
    outside: &mut Outside<W, J, C>,
) -> Result<(), Fault>
    requires keyword { (keyword ≡ Keyword.List) ⊎ (keyword ≡ Keyword.Uidl) ⊎ (keyword ≡ Keyword.Retr) }
    requires opens { IsOpen outside.old.desk }
    requires known { Knows outside.old.desk.store maildrop.now }
    ensures replies { WithOracles (λ oracles. AsksAndReplies outside.old outside.new (fault_of result)
        (transaction_asks V.mode maildrop.now outside.old.desk.store keyword (Some text.now))
        (reply_octets oracles (transaction_reply oracles V.mode maildrop.now outside.old.desk.store keyword (Some text.now)))) }
    ensures keeps { Keeps outside.old outside.new (fault_of result) }
{
    let (number, one) = match find_message(outside.store(), maildrop, text) {
        Asked::NotNumber => return outside.give(SYNTAX),
        Asked::NoSuch => return outside.give(NO_SUCH_MESSAGE),
        Asked::Found { number, one } => (number, one),
    };
    match keyword {
        Keyword::Retr => retr::<V, W, J, C>(&one, outside),
        Keyword::Uidl => give_text(uidl_one(outside.alloc(), number, &one), outside),
        _ => give_text(list_one::<V, W, J, C>(number, &one, outside), outside),
    }
}

// TOP, with the text of its two numbers.
fn give_top<V: Kind, W: Wire, J: Keeper, C: Clock>(
    text: &[u8],
    maildrop: &[MaildropMessage],
    outside: &mut Outside<W, J, C>,
) -> Result<(), Fault>
    requires opens { IsOpen outside.old.desk }
    requires known { Knows outside.old.desk.store maildrop.now }
    ensures replies { WithOracles (λ oracles. AsksAndReplies outside.old outside.new (fault_of result)
        (transaction_asks V.mode maildrop.now outside.old.desk.store Keyword.Top (Some text.now))
        (reply_octets oracles (transaction_reply oracles V.mode maildrop.now outside.old.desk.store Keyword.Top (Some text.now)))) }
    ensures keeps { Keeps outside.old outside.new (fault_of result) }
{
    let Some(numbers) = read_top_numbers(text) else {
        return outside.give(SYNTAX);
    };
    match message_at(outside.store(), maildrop, numbers.number) {
        Some(one) => top::<V, W, J, C>(&one, numbers.lines, outside),
        None => outside.give(NO_SUCH_MESSAGE),
    }
}

// The replies of TRANSACTION that leave the state, to a command without an argument.
fn give_bare<V: Kind, W: Wire, J: Keeper, C: Clock>(
    keyword: Keyword,
    maildrop: &[MaildropMessage],
    outside: &mut Outside<W, J, C>,
) -> Result<(), Fault>
    requires opens { IsOpen outside.old.desk }
    requires known { Knows outside.old.desk.store maildrop.now }
    ensures replies { WithOracles (λ oracles. AsksAndReplies outside.old outside.new (fault_of result)
        (transaction_asks V.mode maildrop.now outside.old.desk.store keyword None)
        (reply_octets oracles (transaction_reply oracles V.mode maildrop.now outside.old.desk.store keyword None))) }
    ensures keeps { Keeps outside.old outside.new (fault_of result) }
{
    match keyword {
        Keyword::User | Keyword::Pass | Keyword::Utf8 => outside.give(OUT_OF_ORDER),
        Keyword::Capa => outside.give(CAPABILITIES),
        Keyword::Noop => outside.give(DONE),
        Keyword::Stat | Keyword::List | Keyword::Uidl => {
            give_of_maildrop::<V, W, J, C>(keyword, maildrop, outside)
        }
        _ => outside.give(SYNTAX),
    }
}

// Those to a command with an argument.
fn give_by_argument<V: Kind, W: Wire, J: Keeper, C: Clock>(
    keyword: Keyword,
    text: &[u8],
    maildrop: &[MaildropMessage],
    outside: &mut Outside<W, J, C>,
) -> Result<(), Fault>
    requires opens { IsOpen outside.old.desk }
    requires known { Knows outside.old.desk.store maildrop.now }
    ensures replies { WithOracles (λ oracles. AsksAndReplies outside.old outside.new (fault_of result)
        (transaction_asks V.mode maildrop.now outside.old.desk.store keyword (Some text.now))
        (reply_octets oracles (transaction_reply oracles V.mode maildrop.now outside.old.desk.store keyword (Some text.now)))) }
    ensures keeps { Keeps outside.old outside.new (fault_of result) }
{
    match keyword {
        Keyword::User | Keyword::Pass | Keyword::Utf8 => outside.give(OUT_OF_ORDER),
        Keyword::List | Keyword::Uidl | Keyword::Retr => {
            give_of_message::<V, W, J, C>(keyword, text, maildrop, outside)
        }
        Keyword::Top => give_top::<V, W, J, C>(text, maildrop, outside),
        _ => outside.give(SYNTAX),
    }
}

// The replies of TRANSACTION that leave the state.
fn give_reply<V: Kind, W: Wire, J: Keeper, C: Clock>(
    maildrop: &[MaildropMessage],
    command: Command,
    outside: &mut Outside<W, J, C>,
) -> Result<(), Fault>
    requires opens { IsOpen outside.old.desk }
    requires known { Knows outside.old.desk.store maildrop.now }
    ensures replies { WithOracles (λ oracles. AsksAndReplies outside.old outside.new (fault_of result)
        (transaction_asks V.mode maildrop.now outside.old.desk.store command.entry.keyword (option_copied command.entry.argument))
        (reply_octets oracles (transaction_reply oracles V.mode maildrop.now outside.old.desk.store command.entry.keyword (option_copied command.entry.argument)))) }
    ensures keeps { Keeps outside.old outside.new (fault_of result) }
{
    match command.argument {
        Some(text) => give_by_argument::<V, W, J, C>(command.keyword, text, maildrop, outside),
        None => give_bare::<V, W, J, C>(command.keyword, maildrop, outside),
    }
}

// A command of TRANSACTION that leaves the state.
fn stay<V: Kind, W: Wire, J: Keeper, C: Clock>(
    pop: Pop<Transaction, V>,
    command: Command,
    outside: &mut Outside<W, J, C>,
) -> Result<Option<PopState>, Fault>
    requires opens { IsOpen outside.old.desk }
    requires known { Knows outside.old.desk.store pop.state.maildrop.items }
    ensures takes { TakesStep outside.old outside.new result
        (transaction_asks V.mode pop.state.maildrop.items outside.old.desk.store command.entry.keyword (option_copied command.entry.argument))
        (λ oracles. answers
        (transaction_reply oracles V.mode pop.state.maildrop.items outside.old.desk.store command.entry.keyword (option_copied command.entry.argument))
        (transaction V.mode pop.state.maildrop.items)) }
    ensures keeps { Keeps outside.old outside.new (fault_of result) }
{
    give_reply::<V, W, J, C>(&pop.state.maildrop, command, outside)?;
    Ok(Some(V::in_transaction(pop)))
}

// DELE, with the text of its number.
fn dele<V: Kind, W: Wire, J: Keeper, C: Clock>(
    pop: Pop<Transaction, V>,
    text: &[u8],
    outside: &mut Outside<W, J, C>,
) -> Result<Option<PopState>, Fault>
    requires { Knows outside.old.desk.store pop.state.maildrop.items }
    ensures takes { TakesStep outside.old outside.new result [] (λ oracles. dele_step V.mode pop.state.maildrop.items (number_of text.now)) }
    ensures keeps { Keeps outside.old outside.new (fault_of result) }
{
    match find_message(outside.store(), &pop.state.maildrop, text) {
        Asked::NotNumber => {
            outside.give(SYNTAX)?;
            Ok(Some(V::in_transaction(pop)))
        }
        Asked::NoSuch => {
            outside.give(NO_SUCH_MESSAGE)?;
            Ok(Some(V::in_transaction(pop)))
        }
        Asked::Found { number, one: _ } => {
            outside.give(DONE)?;
            Ok(Some(V::in_transaction(pop.dele((number - 1) as usize))))
        }
    }
}

// RSET: no message is marked any more.
fn rset<V: Kind, W: Wire, J: Keeper, C: Clock>(
    pop: Pop<Transaction, V>,
    outside: &mut Outside<W, J, C>,
) -> Result<Option<PopState>, Fault>
    requires { Knows outside.old.desk.store pop.state.maildrop.items }
    ensures takes { TakesStep outside.old outside.new result [] (λ oracles. answers done (transaction V.mode (map (marked false) pop.state.maildrop.items))) }
    ensures keeps { Keeps outside.old outside.new (fault_of result) }
{
    outside.give(DONE)?;
    Ok(Some(V::in_transaction(pop.rset())))
}

// QUIT: the marked messages go, and then the session's end is told.
fn quit<V: Kind, W: Wire, J: Keeper, C: Clock>(
    pop: Pop<Transaction, V>,
    outside: &mut Outside<W, J, C>,
) -> Result<Option<PopState>, Fault>
    requires opens { IsOpen outside.old.desk }
    requires known { Knows outside.old.desk.store pop.state.maildrop.items }
    ensures takes { TakesStep outside.old outside.new result [] (λ oracles. quit_step pop.state.maildrop.items) }
    ensures keeps { Keeps outside.old outside.new (fault_of result) }
{
    pop.quit().update(outside)?;
    outside.give(BYE)?;
    Ok(None)
}

// The rows of TRANSACTION.
fn transact<V: Kind, W: Wire, J: Keeper, C: Clock>(
    pop: Pop<Transaction, V>,
    command: Command,
    outside: &mut Outside<W, J, C>,
) -> Result<Option<PopState>, Fault>
    requires opens { IsOpen outside.old.desk }
    requires known { Knows outside.old.desk.store pop.state.maildrop.items }
    ensures takes { TakesStep outside.old outside.new result
        (transaction_asks V.mode pop.state.maildrop.items outside.old.desk.store command.entry.keyword (option_copied command.entry.argument))
        (λ oracles. transaction_step oracles V.mode pop.state.maildrop.items outside.old.desk.store command.entry.keyword (option_copied command.entry.argument)) }
    ensures keeps { Keeps outside.old outside.new (fault_of result) }
{
    match (command.keyword, command.argument) {
        (Keyword::Dele, Some(text)) => dele(pop, text, outside),
        (Keyword::Rset, None) => rset(pop, outside),
        (Keyword::Quit, None) => quit(pop, outside),
        _ => stay(pop, command, outside),
    }
}

impl Rows for PopState {
    ghost grammar = { pop_grammar };

    ghost stands = { PopStands };

    ghost wanted = { λ session. Line };

    ghost knows = { KnowsPop };

    fn begin<W: Wire, J: Keeper, C: Clock>(outside: &mut Outside<W, J, C>) -> Result<Self, Fault> {
        outside.give(b"+OK ready\r\n")?;
        Ok(PopState::Greeted)
    }

    fn wants(&self) -> Wants {
        Wants::Line
    }

    fn answer<W: Wire, J: Keeper, C: Clock>(
        self,
        line: &[u8],
        outside: &mut Outside<W, J, C>,
    ) -> Result<Option<Self>, Fault> {
        let command = read_command(line);
        match self {
            PopState::Greeted => answer_first(command, outside),
            PopState::Authorization(pop) => authorize(pop, command, outside),
            PopState::EnabledAuthorization(pop) => authorize(pop, command, outside),
            PopState::Transaction(pop) => transact(pop, command, outside),
            PopState::EnabledTransaction(pop) => transact(pop, command, outside),
        }
    }

    fn refuse_line<W: Wire, J: Keeper, C: Clock>(
        self,
        outside: &mut Outside<W, J, C>,
    ) -> Result<(), Fault> {
        outside.give(TOO_LONG)
    }

    ghost agrees = { agrees_by };

    ghost ends = { λ oracles machine. refl };

    ghost opening_fits = { opening_fits_by };

    ghost rows_fit = { rows_fit_by };

    ghost long_rows_fit = { long_rows_fit_by };
}

/// A session, to feed it a stream.
pub type PopSession = Session<Framed<PopState>>;

/// Serves one session: gives the greeting, takes pieces of at most 4,096 octets, and answers each command as soon as it is whole.
///
/// A line of more than `LINE_MAX` octets ends the session with a reply. `KeeperFault` comes where the marked messages couldn't be taken
/// out of the journal; then the store has failed.
pub fn serve_pop<W: Wire, J: Keeper, C: Clock>(outside: &mut Outside<W, J, C>) -> Served
    requires { IsOpen outside.old.desk }
    ensures serves { ServesBy pop_protocol outside.old outside.new result }
    ensures keeps { Keeps outside.old outside.new (met_of result) }
{
    serve::<Framed<PopState>, W, J, C>(outside)
}
