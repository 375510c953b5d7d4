//! A session over its outside.
ghost use Rattle.std.specs.Prelude.{◌≡◌, ◌++◌, ◌<◌, ◌≤◌, ℕ, List, IfOk, IfSome, string_bytes, IsTrue, [], length};
ghost use Rattle.mail_wire.specs.Dots.{unstuffed};
ghost use Rattle.address_grammar.specs.Paths.{ComesInPath};
ghost use Rattle.journal_records.specs.Stored.{HasMark};
ghost use Rattle.mail_store.specs.Changing.{IsDeliverable};
ghost use Rattle.kept_mail.specs.Kept.{name_of};
ghost use Rattle.mime_tree.specs.Openings.{IsOtherField};
ghost use Rattle.mail_store.specs.StoreState.{StoreState};
ghost use Rattle.session_core.specs.Desks.{IsOpen};
ghost use Rattle.session_core.specs.Doing.{Does, Makes, Replies};
ghost use Rattle.session_core.specs.Keeps.{Keeps, fault_of};
ghost use Rattle.session_core.specs.Oracles.{WithOracles};
ghost use Rattle.session_core.specs.Moments.{IsMoment, moment_of};
ghost use Rattle.session_core.specs.Served.{met_of};
ghost use Rattle.session_core.specs.Serving.{ServesBy};
ghost use Rattle.session_core.specs.Steps.{IsReadyAfter, Steps};
ghost use Rattle.session_core.specs.declared.desk.Desk.{Desk};
ghost use Rattle.smtp_grammar.specs.Reading.{DataHaveEnded};
ghost use Rattle.smtp_session.specs.Machine.{acts_in, delivery_with, end_data as end_of};
ghost use Rattle.smtp_session.specs.Session.{SmtpReady, KnowsState, SmtpStands, greeting, line_octets, reply_octets, smtp_protocol, state_of, state_or_ended};
ghost use Rattle.smtp_session.specs.Trace.{protocol as protocol_of, received, return_path};
ghost use Rattle.smtp_session.specs.laws.SmtpLaws.{begins_fit_by, fits_by, framed_by, goes_on_by, quiet_by, waits_by};
ghost use Rattle.smtp_session.specs.private.Steps.{AreMarked, IsFirst, IsFirstNext, IsJudged, ReadsLines, due_of, state_after, stepped};

use crate::loops::is_looping;
use crate::rows::{Reply, TOO_LARGE, answer};
use crate::states::{Client, Data, Envelope, Fresh, Greeted, Smtp, SmtpState};
use crate::trace::{mark_after, received_field, return_path_field};
use address_grammar::Address;
use journal_records::mark_in;
use kept_mail::{Delivery, has_large_octets};
use mail_wire::{Clock, Fault, FoundLine, Keeper, Memory, Octets, Wire, find_line};
use mime_tree::{TreeFault, read_tree};
use session_core::{Advance, Delivered, Machine, Outside, Served, Session, Timestamp, serve};
use smtp_grammar::DataReader;
use std::alloc::Global;

const TOO_LONG: &[u8] = b"500 5.5.2 line too long\r\n";

const NOT_A_MESSAGE: &[u8] = b"554 5.6.0 not a message\r\n";

const ROUTING_LOOP: &[u8] = b"554 5.4.6 routing loop\r\n";

const STORED: &[u8] = b"250 2.0.0 stored\r\n";

/// A session that has not ended, with what was read of the data where it takes data.
#[derive(Debug, Drop)]
pub struct SmtpMachine {
    pub state: SmtpState,
    pub reader: DataReader,
}

// The greeting of a server of this name.
fn greeting_text(alloc: Global, name: &str) -> Result<String, Memory>
    ensures { IfOk result (λ text. string_bytes text ≡ reply_octets (greeting name.now)) }
{
    Ok(format!(in alloc; "220 {name} ESMTP\r\n")?)
}

// The protocol that a message came by (RFC 3848; RFC 6531, 4.3).
fn protocol(smtputf8: bool, extended: bool) -> &'static [u8]
    ensures { result.now ≡ protocol_of smtputf8 extended }
{
    match (smtputf8, extended) {
        (true, _) => b"UTF8SMTP",
        (false, true) => b"ESMTP",
        (false, false) => b"SMTP",
    }
}

// Octets that are kept, and their mark.
#[derive(Debug, Drop)]
struct Marked {
    octets: Octets,
    mark: u8,
}

// The octets that are kept of data: those for accounts, and those for addresses elsewhere.
#[derive(Debug, Drop)]
struct KeptOctets {
    local: Marked,
    remote: Marked,
}

// The field that tells where a message came from, with this date.
fn trace_field(
    alloc: Global,
    client: &Client,
    envelope: &Envelope,
    name: &[u8],
    date: &[u8],
) -> Result<Octets, Memory>
    ensures { IfOk result (λ field. field ≡ received client.now.name name.now (protocol_of envelope.now.smtputf8 client.now.extended) date.now) }
{
    let with = protocol(envelope.smtputf8, client.extended);
    received_field(alloc, client.name.as_slice(), name, with, date)
}

// Octets that have this mark, after one more field.
fn after_field(field: Octets, octets: &[u8], mark: u8) -> Result<Marked, Memory>
    ensures octets { IfOk result (λ marked. marked.octets ≡ field ++ octets.now) }
    ensures mark { IfOk result (λ marked. IsOtherField field → HasMark octets.now mark → HasMark marked.octets marked.mark) }
{
    let mark = mark_after(field.as_slice(), mark);
    let mut whole = field;
    whole.push_slice(octets)?;
    Ok(Marked {
        octets: whole,
        mark,
    })
}

// The octets that are kept of this content, which has this mark, with the field that tells where it came from: those for accounts
// tell the path too.
fn kept_octets(
    alloc: Global,
    trace: Octets,
    path: &Option<Address>,
    content: &[u8],
    mark: u8,
) -> Result<KeptOctets, Memory>
    requires { IfSome path.now ComesInPath }
    ensures local { IfOk result (λ kept. kept.local.octets ≡ return_path path.now ++ kept.remote.octets) }
    ensures remote { IfOk result (λ kept. kept.remote.octets ≡ trace ++ content.now) }
    ensures marks { IfOk result (λ kept. IsOtherField trace → HasMark content.now mark
        → HasMark kept.local.octets kept.local.mark × HasMark kept.remote.octets kept.remote.mark) }
{
    let remote = after_field(trace, content, mark)?;
    let field = return_path_field(alloc, path)?;
    let local = after_field(field, remote.octets.as_slice(), remote.mark)?;
    Ok(KeptOctets { local, remote })
}

// Whether octets have a tree of entities, and what is then known of them: whether they are a message that goes in a circle, and
// their mark.
#[derive(Debug, Clone, Copy)]
struct Judged {
    is_message: bool,
    loops: bool,
    mark: u8,
}

// The tree is read here alone.
fn judge(alloc: Global, octets: &[u8]) -> Result<Judged, Memory>
    ensures { IfOk result (IsJudged octets.now) }
{
    match read_tree(alloc, octets) {
        Ok(tree) => Ok(Judged {
            is_message: true,
            loops: is_looping(octets, &tree),
            mark: mark_in(octets, &tree),
        }),
        Err(TreeFault::Memory) => Err(Memory),
        Err(_) => Ok(Judged {
            is_message: false,
            loops: false,
            mark: 0,
        }),
    }
}

// What is kept of data, and what their content is. The marks are right where it is a message.
#[derive(Debug, Drop)]
struct Accepted {
    delivery: Delivery,
    judged: Judged,
}

// What is kept of this content, which came at this moment.
fn accept_data(
    alloc: Global,
    client: &Client,
    envelope: Envelope,
    name: &[u8],
    content: &[u8],
    timestamp: Timestamp,
) -> Result<Accepted, Memory>
    requires { IfSome envelope.path ComesInPath }
    ensures delivery { IfOk result (λ accepted. (store : StoreState) → name.now ≡ name_of store.kept
        → accepted.delivery ≡ delivery_with accepted.delivery.local_mark accepted.delivery.remote_mark store client.now envelope (moment_of timestamp) content.now) }
    ensures judged { IfOk result (λ accepted. IsJudged content.now accepted.judged) }
    ensures marks { IfOk result (λ accepted. IsTrue accepted.judged.is_message
        → IsOtherField (received client.now.name name.now (protocol_of envelope.smtputf8 client.now.extended) timestamp.date) → AreMarked accepted.delivery) }
{
    let judged = judge(alloc, content)?;
    let trace = trace_field(alloc, client, &envelope, name, timestamp.date.as_slice())?;
    let KeptOctets { local, remote } = kept_octets(
        alloc,
        trace,
        &envelope.path,
        content,
        judged.mark,
    )?;
    let delivery = Delivery {
        path: envelope.path,
        local: envelope.local,
        local_octets: local.octets,
        local_mark: local.mark,
        remote: envelope.remote,
        remote_octets: remote.octets,
        remote_mark: remote.mark,
        date: timestamp.internal,
    };
    Ok(Accepted { delivery, judged })
}

// Keeps a message, or tells why not.
fn deliver<W: Wire, J: Keeper, C: Clock>(
    accepted: &Accepted,
    outside: &mut Outside<W, J, C>,
) -> Result<&'static [u8], Fault>
    requires opens { IsOpen outside.old.desk }
    requires deliverable { IsTrue accepted.now.judged.is_message → IsDeliverable outside.old.desk.store accepted.now.delivery }
    ensures reply { IfOk result (λ reply. (client : Client) → reply.now ≡ reply_octets (due_of outside.old.desk.store client accepted.now).reply) }
    ensures makes { (client : Client) → Makes outside.old outside.new (fault_of result) (due_of outside.old.desk.store client accepted.now).changes }
    ensures keeps { Keeps outside.old outside.new (fault_of result) }
{
    let delivery = &accepted.delivery;
    if has_large_octets(delivery, outside.store().message_max()) {
        return Ok(TOO_LARGE);
    }
    if !accepted.judged.is_message {
        return Ok(NOT_A_MESSAGE);
    }
    if accepted.judged.loops {
        return Ok(ROUTING_LOOP);
    }
    match outside.deliver(delivery)? {
        Delivered::Stored => Ok(STORED),
        Delivered::TooLarge => Ok(TOO_LARGE),
    }
}

// The reply to data; the client may send other mail.
fn reply_to_data<W: Wire, J: Keeper, C: Clock>(
    client: Client,
    reply: &'static [u8],
    outside: &mut Outside<W, J, C>,
) -> Result<Smtp<Greeted>, Fault>
    ensures replies { Replies outside.old outside.new (fault_of result) reply.now }
    ensures client { IfOk result (λ next. next.state.client ≡ client) }
    ensures keeps { Keeps outside.old outside.new (fault_of result) }
{
    outside.give(reply)?;
    Ok(Smtp::greeted(client))
}

// Keeps a message, or tells why not, and then gives the reply.
fn finish_data<W: Wire, J: Keeper, C: Clock>(
    client: Client,
    accepted: Accepted,
    outside: &mut Outside<W, J, C>,
) -> Result<Smtp<Greeted>, Fault>
    requires opens { IsOpen outside.old.desk }
    requires deliverable { IsTrue accepted.judged.is_message → IsDeliverable outside.old.desk.store accepted.delivery }
    ensures does { Does line_octets outside.old outside.new (fault_of result) (acts_in (due_of outside.old.desk.store client accepted)) }
    ensures client { IfOk result (λ next. next.state.client ≡ client) }
    ensures keeps { Keeps outside.old outside.new (fault_of result) }
{
    let delivered = deliver(&accepted, outside);
    drop(accepted);
    let reply = delivered?;
    reply_to_data(client, reply, outside)
}

// A session that takes data, and what was read of them.
#[derive(Debug, Drop)]
struct TakenData {
    session: Smtp<Data>,
    reader: DataReader,
}

// The end of data, which came at this moment.
fn end_data<W: Wire, J: Keeper, C: Clock>(
    whole: TakenData,
    timestamp: Timestamp,
    outside: &mut Outside<W, J, C>,
) -> Result<Smtp<Greeted>, Fault>
    requires moment { (seconds : ℕ) × IsMoment seconds (moment_of timestamp) }
    requires opens { IsOpen outside.old.desk }
    requires limit { whole.reader.limit ≡ outside.old.desk.store.message_max }
    requires known { KnowsState outside.old.desk.store (state_of (SmtpState.Data whole.session)) }
    ensures does { WithOracles (λ oracles. (lines : List ℕ) → DataHaveEnded whole.reader lines
        → Does line_octets outside.old outside.new (fault_of result)
        (acts_in (end_of oracles outside.old.desk.store whole.session.state.client whole.session.state.envelope (moment_of timestamp) (unstuffed lines)))) }
    ensures client { IfOk result (λ next. next.state.client ≡ whole.session.state.client) }
    ensures keeps { Keeps outside.old outside.new (fault_of result) }
{
    let TakenData { session, reader } = whole;
    let Data { client, envelope } = session.state;
    let Some(content) = reader.into_content() else {
        drop(envelope);
        drop(timestamp);
        return reply_to_data(client, TOO_LARGE, outside);
    };
    let name = outside.store().name().as_bytes();
    let made = accept_data(
        outside.alloc(),
        &client,
        envelope,
        name,
        content.as_slice(),
        timestamp,
    );
    drop(content);
    let accepted = made?;
    finish_data(client, accepted, outside)
}

// A session in this state, with nothing read of data.
fn begun(alloc: Global, max: u32, state: SmtpState) -> SmtpMachine
    ensures state { result.state ≡ state }
    ensures first { (desk : Desk) → desk.store.message_max ≡ max → KnowsState desk.store (state_of state) → IsFirst result desk }
{
    SmtpMachine {
        state,
        reader: DataReader::new(alloc, max),
    }
}

// Data, as far as they are in the piece.
fn take_data<W: Wire, J: Keeper, C: Clock>(
    session: Smtp<Data>,
    mut reader: DataReader,
    kept: &mut Octets,
    piece: &[u8],
    outside: &mut Outside<W, J, C>,
) -> Result<Advance<SmtpMachine>, Fault>
    requires some { 0 < length piece.now }
    requires opens { IsOpen outside.old.desk }
    requires ready { SmtpReady (record { state = SmtpState.Data session; reader = reader }) kept.old outside.old.desk }
    ensures steps { Steps smtp_protocol SmtpStands outside.old outside.new (record { state = SmtpState.Data session; reader = reader }) kept.old kept.new piece.now result }
    ensures used { IfOk result (λ advance. (0 < advance.used) × (advance.used ≤ length piece.now)) }
    ensures ready { IfOk result (λ advance. IsReadyAfter SmtpReady advance kept.new outside.new.desk) }
    ensures keeps { Keeps outside.old outside.new (fault_of result) }
{
    let taken = reader.take(piece);
    let data = TakenData { session, reader };
    let Ok(found) = taken else {
        drop(data);
        return Err(Fault::Memory);
    };
    match found {
        Some(used) => {
            let Ok(timestamp) = outside.now() else {
                drop(data);
                return Err(Fault::Memory);
            };
            let greeted = end_data(data, timestamp, outside)?;
            let (alloc, max) = (outside.alloc(), outside.store().message_max());
            Ok(Advance {
                next: Some(begun(alloc, max, SmtpState::Greeted(greeted))),
                used,
            })
        }
        None => Ok(Advance {
            next: Some(SmtpMachine {
                state: SmtpState::Data(data.session),
                reader: data.reader,
            }),
            used: piece.len(),
        }),
    }
}

// What is left after a line: a session in this state, with nothing read of data.
fn begun_next(alloc: Global, max: u32, next: Option<SmtpState>) -> Option<SmtpMachine>
    ensures state { state_after result ≡ next }
    ensures first { (desk : Desk) → desk.store.message_max ≡ max → KnowsState desk.store (state_or_ended next) → IsFirstNext result desk }
{
    match next {
        Some(state) => Some(begun(alloc, max, state)),
        None => None,
    }
}

// A whole line: its reply is given.
fn answer_line<W: Wire, J: Keeper, C: Clock>(
    state: SmtpState,
    line: &[u8],
    outside: &mut Outside<W, J, C>,
) -> Result<Option<SmtpMachine>, Fault>
    requires line { 2 ≤ length line.now }
    requires opens { IsOpen outside.old.desk }
    requires known { KnowsState outside.old.desk.store (state_of state) }
    ensures does { WithOracles (λ oracles. Does line_octets outside.old outside.new (fault_of result)
        (acts_in (stepped oracles state outside.old.desk.store line.now))) }
    ensures next { IfOk result (λ next. WithOracles (λ oracles. state_or_ended (state_after next)
        ≡ (stepped oracles state outside.old.desk.store line.now).state)) }
    ensures first { IfOk result (λ next. IsFirstNext next outside.new.desk) }
    ensures keeps { Keeps outside.old outside.new (fault_of result) }
{
    let alloc = outside.alloc();
    let Reply { octets, next } = answer(alloc, state, line, outside.store())?;
    let given = outside.give(octets.as_slice());
    drop(octets);
    let max = outside.store().message_max();
    match given {
        Ok(()) => Ok(begun_next(alloc, max, next)),
        Err(met) => {
            drop(next);
            Err(met)
        }
    }
}

// The rest of a whole line: its reply is given.
fn take_whole<W: Wire, J: Keeper, C: Clock>(
    machine: SmtpMachine,
    kept: &mut Octets,
    front: &[u8],
    outside: &mut Outside<W, J, C>,
) -> Result<Option<SmtpMachine>, Fault>
    requires line { 2 ≤ length (kept.old ++ front.now) }
    requires opens { IsOpen outside.old.desk }
    requires known { KnowsState outside.old.desk.store (state_of machine.state) }
    ensures does { WithOracles (λ oracles. Does line_octets outside.old outside.new (fault_of result)
        (acts_in (stepped oracles machine.state outside.old.desk.store (kept.old ++ front.now)))) }
    ensures next { IfOk result (λ next. WithOracles (λ oracles. state_or_ended (state_after next)
        ≡ (stepped oracles machine.state outside.old.desk.store (kept.old ++ front.now)).state)) }
    ensures first { IfOk result (λ next. IsFirstNext next outside.new.desk) }
    ensures kept { IfOk result (λ next. kept.new ≡ []) }
    ensures keeps { Keeps outside.old outside.new (fault_of result) }
{
    let SmtpMachine { state, reader } = machine;
    drop(reader);
    let Ok(()) = kept.push_slice(front) else {
        drop(state);
        return Err(Fault::Memory);
    };
    let next = answer_line(state, kept.as_slice(), outside)?;
    kept.clear();
    Ok(next)
}

// A line, as far as it is in the piece.
fn take_line<W: Wire, J: Keeper, C: Clock>(
    machine: SmtpMachine,
    kept: &mut Octets,
    piece: &[u8],
    outside: &mut Outside<W, J, C>,
) -> Result<Advance<SmtpMachine>, Fault>
    requires some { 0 < length piece.now }
    requires lines { ReadsLines machine.state }
    requires opens { IsOpen outside.old.desk }
    requires ready { SmtpReady machine kept.old outside.old.desk }
    ensures steps { Steps smtp_protocol SmtpStands outside.old outside.new machine kept.old kept.new piece.now result }
    ensures used { IfOk result (λ advance. (0 < advance.used) × (advance.used ≤ length piece.now)) }
    ensures ready { IfOk result (λ advance. IsReadyAfter SmtpReady advance kept.new outside.new.desk) }
    ensures keeps { Keeps outside.old outside.new (fault_of result) }
{
    match find_line(kept.as_slice(), piece) {
        FoundLine::Whole(used) => {
            let (front, _) = piece.split_at(used);
            let next = take_whole(machine, kept, front, outside)?;
            Ok(Advance { next, used })
        }
        FoundLine::TooLong => {
            drop(machine);
            outside.give(TOO_LONG)?;
            Ok(Advance {
                next: None,
                used: piece.len(),
            })
        }
        FoundLine::Waiting => {
            let Ok(()) = kept.push_slice(piece) else {
                drop(machine);
                return Err(Fault::Memory);
            };
            Ok(Advance {
                next: Some(machine),
                used: piece.len(),
            })
        }
    }
}

impl Machine for SmtpMachine {
    ghost protocol = { smtp_protocol };

    ghost stands = { SmtpStands };

    ghost is_ready = { SmtpReady };

    fn begin<W: Wire, J: Keeper, C: Clock>(outside: &mut Outside<W, J, C>) -> Result<Self, Fault> {
        let alloc = outside.alloc();
        let text = greeting_text(alloc, outside.store().name())?;
        outside.give(text.as_bytes())?;
        let max = outside.store().message_max();
        Ok(begun(
            alloc,
            max,
            SmtpState::Fresh(Smtp {
                state: Fresh { is_first: true },
            }),
        ))
    }

    fn take_next<W: Wire, J: Keeper, C: Clock>(
        self,
        kept: &mut Octets,
        piece: &[u8],
        outside: &mut Outside<W, J, C>,
    ) -> Result<Advance<Self>, Fault> {
        let SmtpMachine { state, reader } = self;
        match state {
            SmtpState::Data(session) => take_data(session, reader, kept, piece, outside),
            state => take_line(SmtpMachine { state, reader }, kept, piece, outside),
        }
    }

    ghost framed = { λ oracles are. framed_by oracles };

    ghost waits = { waits_by };

    ghost goes_on = { goes_on_by };

    ghost quiet = { quiet_by };

    ghost begins_fit = { begins_fit_by };

    ghost fits = { fits_by };
}

/// A session, to feed it a stream.
pub type SmtpSession = Session<SmtpMachine>;

/// Serves one session: gives the greeting, takes pieces of at most 4,096 octets, gives the replies to the commands and to the data that
/// are whole, in their order, and keeps each message before the reply that says so.
///
/// A line of more than `LINE_MAX` octets ends the session with a reply; data that are too large are dropped as they come.
/// `KeeperFault` comes where a message couldn't be put into the journal; then the store has failed.
pub fn serve_smtp<W: Wire, J: Keeper, C: Clock>(outside: &mut Outside<W, J, C>) -> Served
    requires { IsOpen outside.old.desk }
    ensures serves { ServesBy smtp_protocol outside.old outside.new result }
    ensures keeps { Keeps outside.old outside.new (met_of result) }
{
    serve::<SmtpMachine, W, J, C>(outside)
}
