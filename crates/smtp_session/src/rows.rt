//! The rows of commands: a reply, and the state after it.
ghost use Rattle.std.specs.Prelude.{◌≡◌, ◌==◌, ◌≤◌, ◌<◌, ◌++◌, ◌∷◌, [], true, false, IfOk, IfSome, MatchOption, None, length, Some, option_and_then, not, nat_le, nat_lt, codes};
ghost use Rattle.std.specs.List.{All, list_any};
ghost use Rattle.address_grammar.specs.Addresses.{address_text};
ghost use Rattle.address_grammar.specs.Paths.{ComesInPath};
ghost use Rattle.journal_records.specs.Addresses.{WithPaths, IsSendable};
ghost use Rattle.kept_mail.specs.Kept.{find_account, name_of};
ghost use Rattle.mail_store.specs.StoreState.{StoreState};
ghost use Rattle.smtp_grammar.specs.Commands.{is_client as is_client_of, white_words, path_after as path_after_of};
ghost use Rattle.smtp_session.specs.Machine.{greeted as greeted_of, mail as mail_of, step, line_step, offers as offers_of, client_of, ehlo_step, helo_step, within_limit, lacks_smtputf8 as lacks_smtputf8_of, mail_by, mail_step, is_same_remote as is_same_remote_of, envelope_recipient_count as recipient_count_of, rcpt_local, rcpt_remote, rcpt_to, alone, rcpt_step, data_step, ok as ok_of, reset as reset_of};
ghost use Rattle.smtp_session.specs.Session.{Knows, KnowsState, reply_octets, state_of, state_or_ended};
ghost use Rattle.session_core.specs.Oracles.{WithOracles};

use crate::states::{Client, Envelope, Greeted, Mail, Smtp, SmtpState};
use ace_domains::same;
use address_grammar::{Address, AddressFault, read_path, write_address};
use journal_records::TEXT_MAX;
use kept_mail::RECIPIENTS_MAX;
use mail_store::Store;
use mail_wire::{Memory, Octets, is_ascii, is_white_text};
use smtp_grammar::{PathAndRest, Verb, is_client, path_after, read_command, read_parameters};
use std::alloc::Global;

/// A reply of whole lines, and the state after it; none where the session has ended.
#[derive(Debug, Drop)]
pub struct Reply {
    pub octets: Octets,
    pub next: Option<SmtpState>,
}

fn says(alloc: Global, text: &[u8], next: SmtpState) -> Result<Reply, Memory>
    ensures reply { IfOk result (λ reply. reply.octets ≡ text.now) }
    ensures next { IfOk result (λ reply. reply.next ≡ Some next) }
{
    Ok(Reply {
        octets: Octets::from_slice(alloc, text)?,
        next: Some(next),
    })
}

const OK: &[u8] = b"250 2.0.0 ok\r\n";

const RECIPIENT_OK: &[u8] = b"250 2.1.5 ok\r\n";

const BYE: &[u8] = b"221 2.0.0 bye\r\n";

const UNVERIFIED: &[u8] = b"252 2.5.0 send and see\r\n";

const UNKNOWN: &[u8] = b"500 5.5.2 unknown command\r\n";

const HTTP_REQUEST: &[u8] = b"500 5.5.2 syntax error\r\n";

const BAD_ARGUMENT: &[u8] = b"501 5.5.4 bad argument\r\n";

const OUT_OF_ORDER: &[u8] = b"503 5.5.1 out of order\r\n";

const NEEDS_SMTPUTF8: &[u8] = b"553 5.6.7 address needs SMTPUTF8\r\n";

/// The reply to what is too large to be kept.
pub const TOO_LARGE: &[u8] = b"552 5.3.4 too large\r\n";

const TOO_MANY: &[u8] = b"452 4.5.3 too many recipients\r\n";

const NO_MAILBOX: &[u8] = b"550 5.1.1 no such mailbox\r\n";

// What the server can do (RFC 5321, 4.1.1.1).
fn offers(alloc: Global, store: &Store) -> Result<Octets, Memory>
    ensures { IfOk result (λ reply. reply ≡ reply_octets (offers_of store.now)) }
{
    let name = store.name();
    let max = store.message_max();
    let text = format!(in alloc;
        "250-{name}\r\n250-8BITMIME\r\n250-SIZE {max}\r\n250-SMTPUTF8\r\n250 ENHANCEDSTATUSCODES\r\n"
    )?;
    Octets::from_slice(alloc, text.as_bytes())
}

// Nothing but the name.
fn name_line(alloc: Global, store: &Store) -> Result<Octets, Memory>
    ensures { IfOk result (λ reply. reply ≡ reply_octets ((codes "250 " ++ name_of store.now.kept) ∷ [])) }
{
    let name = store.name();
    let text = format!(in alloc; "250 {name}\r\n")?;
    Octets::from_slice(alloc, text.as_bytes())
}

// The reply to a client that has greeted by this name.
fn welcome(alloc: Global, octets: Octets, name: &[u8], extended: bool) -> Result<Reply, Memory>
    requires { is_client_of name.now ≡ true }
    ensures reply { IfOk result (λ reply. reply.octets ≡ octets) }
    ensures next { IfOk result (λ reply. state_or_ended reply.next ≡ greeted_of (client_of name.now extended)) }
    ensures known { IfOk result (λ reply. (store : StoreState) → KnowsState store (state_or_ended reply.next)) }
{
    let client = Client {
        name: Octets::from_slice(alloc, name)?,
        extended,
    };
    Ok(Reply {
        octets,
        next: Some(SmtpState::Greeted(Smtp::greeted(client))),
    })
}

// The reply to EHLO by this name.
fn offer(alloc: Global, name: &[u8], store: &Store) -> Result<Reply, Memory>
    requires { is_client_of name.now ≡ true }
    ensures reply { IfOk result (λ reply. reply.octets ≡ reply_octets (offers_of store.now)) }
    ensures next { IfOk result (λ reply. state_or_ended reply.next ≡ greeted_of (client_of name.now true)) }
    ensures known { IfOk result (λ reply. KnowsState store.now (state_or_ended reply.next)) }
{
    let octets = offers(alloc, store)?;
    welcome(alloc, octets, name, true)
}

// EHLO; what was said before is forgotten.
fn ehlo(alloc: Global, state: SmtpState, name: &[u8], store: &Store) -> Result<Reply, Memory>
    requires { KnowsState store.now (state_of state) }
    ensures reply { IfOk result (λ reply. reply.octets ≡ reply_octets (ehlo_step (state_of state) store.now name.now).reply) }
    ensures next { IfOk result (λ reply. state_or_ended reply.next ≡ (ehlo_step (state_of state) store.now name.now).state) }
    ensures known { IfOk result (λ reply. KnowsState store.now (state_or_ended reply.next)) }
{
    if is_client(name) {
        drop(state);
        offer(alloc, name, store)
    } else {
        says(alloc, BAD_ARGUMENT, state)
    }
}

// The reply to HELO by this name.
fn name_itself(alloc: Global, name: &[u8], store: &Store) -> Result<Reply, Memory>
    requires { is_client_of name.now ≡ true }
    ensures reply { IfOk result (λ reply. reply.octets ≡ reply_octets ((codes "250 " ++ name_of store.now.kept) ∷ [])) }
    ensures next { IfOk result (λ reply. state_or_ended reply.next ≡ greeted_of (client_of name.now false)) }
    ensures known { IfOk result (λ reply. KnowsState store.now (state_or_ended reply.next)) }
{
    let octets = name_line(alloc, store)?;
    welcome(alloc, octets, name, false)
}

// HELO; what was said before is forgotten.
fn helo(alloc: Global, state: SmtpState, name: &[u8], store: &Store) -> Result<Reply, Memory>
    requires { KnowsState store.now (state_of state) }
    ensures reply { IfOk result (λ reply. reply.octets ≡ reply_octets (helo_step (state_of state) store.now name.now).reply) }
    ensures next { IfOk result (λ reply. state_or_ended reply.next ≡ (helo_step (state_of state) store.now name.now).state) }
    ensures known { IfOk result (λ reply. KnowsState store.now (state_or_ended reply.next)) }
{
    if is_client(name) {
        drop(state);
        name_itself(alloc, name, store)
    } else {
        says(alloc, BAD_ARGUMENT, state)
    }
}

// Whether the text of an address is longer than one may be.
fn is_long(alloc: Global, address: &Address) -> Result<bool, Memory>
    requires { ComesInPath address.now }
    ensures { IfOk result (λ is. is ≡ not (nat_le (length (address_text address.now)) TEXT_MAX)) }
{
    let text = write_address(alloc, address)?;
    Ok(text.len() > TEXT_MAX)
}

// The path that a text is, where it is one within the limit.
fn read_limited_path(alloc: Global, text: &[u8]) -> Result<Option<Option<Address>>, Memory>
    ensures path { IfOk result (λ path. WithPaths (λ path_of. path ≡ option_and_then within_limit (path_of text.now))) }
    ensures sendable { IfOk result (λ path. IfSome path (λ path. IfSome path IsSendable)) }
{
    match read_path(alloc, text) {
        Ok(None) => Ok(Some(None)),
        Ok(Some(address)) => {
            if is_long(alloc, &address)? {
                return Ok(None);
            }
            Ok(Some(Some(address)))
        }
        Err(AddressFault::Malformed) => Ok(None),
        Err(AddressFault::Memory) => Err(Memory),
    }
}

// Whether the address isn't ASCII, and SMTPUTF8 isn't said.
fn lacks_smtputf8(smtputf8: bool, address: &Address) -> bool
    ensures { result ≡ lacks_smtputf8_of smtputf8 (Some address.now) }
{
    !smtputf8 && !(is_ascii(address.local.as_slice()) && is_ascii(address.domain.as_slice()))
}

fn path_lacks_smtputf8(smtputf8: bool, path: &Option<Address>) -> bool
    ensures { result ≡ lacks_smtputf8_of smtputf8 path.now }
{
    match path {
        Some(address) => lacks_smtputf8(smtputf8, address),
        None => false,
    }
}

// MAIL with a path that was read, and what stands after it.
fn mail_path(
    alloc: Global,
    session: Smtp<Greeted>,
    path: Option<Address>,
    rest: &[u8],
    store: &Store,
) -> Result<Reply, Memory>
    requires client { is_client_of session.state.client.name ≡ true }
    requires path { IfSome path IsSendable }
    ensures reply { IfOk result (λ reply. reply.octets ≡ reply_octets (mail_by session.state.client store.now (Some path) (white_words rest.now)).reply) }
    ensures next { IfOk result (λ reply. state_or_ended reply.next ≡ (mail_by session.state.client store.now (Some path) (white_words rest.now)).state) }
    ensures known { IfOk result (λ reply. KnowsState store.now (state_or_ended reply.next)) }
{
    let parameters = read_parameters(alloc, rest)?;
    if parameters.malformed {
        return says(alloc, BAD_ARGUMENT, SmtpState::Greeted(session));
    }
    if parameters.unknown {
        return says(
            alloc,
            b"555 5.5.4 unknown parameter\r\n",
            SmtpState::Greeted(session),
        );
    }
    if path_lacks_smtputf8(parameters.smtputf8, &path) {
        return says(alloc, NEEDS_SMTPUTF8, SmtpState::Greeted(session));
    }
    if parameters.size > u64::from(store.message_max()) {
        return says(alloc, TOO_LARGE, SmtpState::Greeted(session));
    }
    let next = session.mail(alloc, path, parameters.smtputf8);
    says(alloc, b"250 2.1.0 ok\r\n", SmtpState::Mail(next))
}

// MAIL, in the state that has it.
fn mail(
    alloc: Global,
    session: Smtp<Greeted>,
    argument: &[u8],
    store: &Store,
) -> Result<Reply, Memory>
    requires { is_client_of session.state.client.name ≡ true }
    ensures reply { IfOk result (λ reply. WithOracles (λ oracles. reply.octets
        ≡ reply_octets (mail_step oracles (greeted_of session.state.client) store.now argument.now).reply)) }
    ensures next { IfOk result (λ reply. WithOracles (λ oracles. state_or_ended reply.next
        ≡ (mail_step oracles (greeted_of session.state.client) store.now argument.now).state)) }
    ensures known { IfOk result (λ reply. KnowsState store.now (state_or_ended reply.next)) }
{
    let Some(given) = path_after(b"FROM:", argument) else {
        return says(alloc, BAD_ARGUMENT, SmtpState::Greeted(session));
    };
    match read_limited_path(alloc, given.path)? {
        Some(path) => mail_path(alloc, session, path, given.rest, store),
        None => says(alloc, BAD_ARGUMENT, SmtpState::Greeted(session)),
    }
}

fn domain_of(address: &Address) -> &str
    requires { ComesInPath address.now }
    ensures { result.now ≡ address.now.domain }
{
    match std::str::from_utf8(address.domain.as_slice()) {
        Ok(domain) => domain,
        Err(_) => unreachable!(),
    }
}

// MAIL, in any state.
fn answer_mail(
    alloc: Global,
    state: SmtpState,
    argument: &[u8],
    store: &Store,
) -> Result<Reply, Memory>
    requires { KnowsState store.now (state_of state) }
    ensures reply { IfOk result (λ reply. WithOracles (λ oracles. reply.octets
        ≡ reply_octets (mail_step oracles (state_of state) store.now argument.now).reply)) }
    ensures next { IfOk result (λ reply. WithOracles (λ oracles. state_or_ended reply.next
        ≡ (mail_step oracles (state_of state) store.now argument.now).state)) }
    ensures known { IfOk result (λ reply. KnowsState store.now (state_or_ended reply.next)) }
{
    match state {
        SmtpState::Greeted(session) => mail(alloc, session, argument, store),
        state => says(alloc, OUT_OF_ORDER, state),
    }
}

// Whether two addresses of domains that aren't local are the same.
fn is_same_remote(alloc: Global, a: &Address, b: &Address) -> Result<bool, Memory>
    requires a { ComesInPath a.now }
    requires b { ComesInPath b.now }
    ensures { IfOk result (λ is. is ≡ is_same_remote_of a.now b.now) }
{
    if a.local.as_slice() != b.local.as_slice() {
        return Ok(false);
    }
    same(alloc, domain_of(a), domain_of(b))
}

fn has_remote(alloc: Global, remote: &[Address], address: &Address) -> Result<bool, Memory>
    requires remote { All IsSendable remote.now }
    requires address { IsSendable address.now }
    ensures { IfOk result (λ has. has ≡ list_any (λ other. is_same_remote_of other address.now) remote.now) }
{
    for other in remote {
        if is_same_remote(alloc, other, address)? {
            return Ok(true);
        }
    }
    Ok(false)
}

fn recipient_count(envelope: &Envelope) -> usize
    requires { recipient_count_of envelope.now ≤ RECIPIENTS_MAX }
    ensures { result ≡ recipient_count_of envelope.now }
{
    envelope.local.len() + envelope.remote.len()
}

// Whether there is no room for one more recipient.
fn is_full(envelope: &Envelope) -> bool
    requires { recipient_count_of envelope.now ≤ RECIPIENTS_MAX }
    ensures { result ≡ not (nat_lt (recipient_count_of envelope.now) RECIPIENTS_MAX) }
{
    recipient_count(envelope) >= RECIPIENTS_MAX
}

fn has_account(local: &[u32], account: u32) -> bool
    ensures { result ≡ list_any (λ other. other == account) local.now }
{
    local.contains(&account)
}

// An account as a recipient.
fn rcpt_account(
    alloc: Global,
    session: Smtp<Mail>,
    account: u32,
    store: &Store,
) -> Result<Reply, Memory>
    requires client { is_client_of session.state.client.name ≡ true }
    requires known { Knows store.now session.state.envelope }
    requires account { account < length store.now.kept.accounts }
    ensures reply { IfOk result (λ reply. reply.octets ≡ reply_octets (rcpt_local session.state.client session.state.envelope (Some account)).reply) }
    ensures next { IfOk result (λ reply. state_or_ended reply.next ≡ (rcpt_local session.state.client session.state.envelope (Some account)).state) }
    ensures known { IfOk result (λ reply. KnowsState store.now (state_or_ended reply.next)) }
{
    if has_account(session.state.envelope.local.as_slice(), account) {
        return says(alloc, RECIPIENT_OK, SmtpState::Mail(session));
    }
    if is_full(&session.state.envelope) {
        return says(alloc, TOO_MANY, SmtpState::Mail(session));
    }
    let next = session.rcpt_account(account)?;
    says(alloc, RECIPIENT_OK, SmtpState::Mail(next))
}

// An address elsewhere as a recipient.
fn rcpt_address(
    alloc: Global,
    session: Smtp<Mail>,
    address: Address,
    store: &Store,
) -> Result<Reply, Memory>
    requires client { is_client_of session.state.client.name ≡ true }
    requires known { Knows store.now session.state.envelope }
    requires address { IsSendable address }
    ensures reply { IfOk result (λ reply. reply.octets ≡ reply_octets (rcpt_remote session.state.client session.state.envelope address).reply) }
    ensures next { IfOk result (λ reply. state_or_ended reply.next ≡ (rcpt_remote session.state.client session.state.envelope address).state) }
    ensures known { IfOk result (λ reply. KnowsState store.now (state_or_ended reply.next)) }
{
    if has_remote(alloc, session.state.envelope.remote.as_slice(), &address)? {
        return says(alloc, RECIPIENT_OK, SmtpState::Mail(session));
    }
    if is_full(&session.state.envelope) {
        return says(alloc, TOO_MANY, SmtpState::Mail(session));
    }
    let next = session.rcpt_address(address)?;
    says(alloc, RECIPIENT_OK, SmtpState::Mail(next))
}

// RCPT with an address of a domain that is local.
fn rcpt_mailbox(
    alloc: Global,
    session: Smtp<Mail>,
    address: Address,
    store: &Store,
) -> Result<Reply, Memory>
    requires client { is_client_of session.state.client.name ≡ true }
    requires known { Knows store.now session.state.envelope }
    requires address { IsSendable address }
    ensures reply { IfOk result (λ reply. WithPaths (λ path_of. reply.octets
        ≡ reply_octets (rcpt_local session.state.client session.state.envelope (find_account path_of store.now.kept address)).reply)) }
    ensures next { IfOk result (λ reply. WithPaths (λ path_of. state_or_ended reply.next
        ≡ (rcpt_local session.state.client session.state.envelope (find_account path_of store.now.kept address)).state)) }
    ensures known { IfOk result (λ reply. KnowsState store.now (state_or_ended reply.next)) }
{
    let found = store.find_account(&address);
    drop(address);
    match found? {
        Some(account) => rcpt_account(alloc, session, account, store),
        None => says(alloc, NO_MAILBOX, SmtpState::Mail(session)),
    }
}

// RCPT with an address that was read.
fn rcpt_path(
    alloc: Global,
    session: Smtp<Mail>,
    address: Address,
    store: &Store,
) -> Result<Reply, Memory>
    requires client { is_client_of session.state.client.name ≡ true }
    requires known { Knows store.now session.state.envelope }
    requires address { IsSendable address }
    ensures reply { IfOk result (λ reply. WithOracles (λ oracles. reply.octets
        ≡ reply_octets (rcpt_to oracles session.state.client session.state.envelope store.now (Some (Some address))).reply)) }
    ensures next { IfOk result (λ reply. WithOracles (λ oracles. state_or_ended reply.next
        ≡ (rcpt_to oracles session.state.client session.state.envelope store.now (Some (Some address))).state)) }
    ensures known { IfOk result (λ reply. KnowsState store.now (state_or_ended reply.next)) }
{
    if lacks_smtputf8(session.state.envelope.smtputf8, &address) {
        return says(alloc, NEEDS_SMTPUTF8, SmtpState::Mail(session));
    }
    if store.is_local(domain_of(&address))? {
        return rcpt_mailbox(alloc, session, address, store);
    }
    rcpt_address(alloc, session, address, store)
}

// The text of a path, where nothing stands after it.
fn lone_path<'a>(word: &[u8], argument: &'a [u8]) -> Option<PathAndRest<'a>>
    ensures { MatchOption result (alone (path_after_of word.now argument.now) ≡ None)
        (λ found. alone (path_after_of word.now argument.now) ≡ Some (record { path = found.path.now; rest = found.rest.now })) }
{
    let given = path_after(word, argument)?;
    if is_white_text(given.rest) {
        Some(given)
    } else {
        None
    }
}

// RCPT, in the state that has it.
fn rcpt(alloc: Global, session: Smtp<Mail>, argument: &[u8], store: &Store) -> Result<Reply, Memory>
    requires client { is_client_of session.state.client.name ≡ true }
    requires known { Knows store.now session.state.envelope }
    ensures reply { IfOk result (λ reply. WithOracles (λ oracles. reply.octets
        ≡ reply_octets (rcpt_step oracles (mail_of session.state.client session.state.envelope) store.now argument.now).reply)) }
    ensures next { IfOk result (λ reply. WithOracles (λ oracles. state_or_ended reply.next
        ≡ (rcpt_step oracles (mail_of session.state.client session.state.envelope) store.now argument.now).state)) }
    ensures known { IfOk result (λ reply. KnowsState store.now (state_or_ended reply.next)) }
{
    let Some(given) = lone_path(b"TO:", argument) else {
        return says(alloc, BAD_ARGUMENT, SmtpState::Mail(session));
    };
    match read_limited_path(alloc, given.path)? {
        Some(Some(address)) => rcpt_path(alloc, session, address, store),
        _ => says(alloc, BAD_ARGUMENT, SmtpState::Mail(session)),
    }
}

// RCPT, in any state.
fn answer_rcpt(
    alloc: Global,
    state: SmtpState,
    argument: &[u8],
    store: &Store,
) -> Result<Reply, Memory>
    requires { KnowsState store.now (state_of state) }
    ensures reply { IfOk result (λ reply. WithOracles (λ oracles. reply.octets
        ≡ reply_octets (rcpt_step oracles (state_of state) store.now argument.now).reply)) }
    ensures next { IfOk result (λ reply. WithOracles (λ oracles. state_or_ended reply.next
        ≡ (rcpt_step oracles (state_of state) store.now argument.now).state)) }
    ensures known { IfOk result (λ reply. KnowsState store.now (state_or_ended reply.next)) }
{
    match state {
        SmtpState::Mail(session) => rcpt(alloc, session, argument, store),
        state => says(alloc, OUT_OF_ORDER, state),
    }
}

// DATA, in the state that has it.
fn data(alloc: Global, session: Smtp<Mail>, store: &Store) -> Result<Reply, Memory>
    requires client { is_client_of session.state.client.name ≡ true }
    requires known { Knows store.now session.state.envelope }
    ensures reply { IfOk result (λ reply. reply.octets ≡ reply_octets (data_step (mail_of session.state.client session.state.envelope)).reply) }
    ensures next { IfOk result (λ reply. state_or_ended reply.next ≡ (data_step (mail_of session.state.client session.state.envelope)).state) }
    ensures known { IfOk result (λ reply. KnowsState store.now (state_or_ended reply.next)) }
{
    if recipient_count(&session.state.envelope) == 0 {
        return says(alloc, OUT_OF_ORDER, SmtpState::Mail(session));
    }
    let next = session.data();
    says(alloc, b"354 go ahead\r\n", SmtpState::Data(next))
}

// DATA, in any state.
fn answer_data(alloc: Global, state: SmtpState, store: &Store) -> Result<Reply, Memory>
    requires { KnowsState store.now (state_of state) }
    ensures reply { IfOk result (λ reply. reply.octets ≡ reply_octets (data_step (state_of state)).reply) }
    ensures next { IfOk result (λ reply. state_or_ended reply.next ≡ (data_step (state_of state)).state) }
    ensures known { IfOk result (λ reply. KnowsState store.now (state_or_ended reply.next)) }
{
    match state {
        SmtpState::Mail(session) => data(alloc, session, store),
        state => says(alloc, OUT_OF_ORDER, state),
    }
}

// The path and the recipients are forgotten.
fn reset(state: SmtpState) -> SmtpState
    ensures state { state_of result ≡ reset_of (state_of state) }
    ensures known { (store : StoreState) → KnowsState store (state_of state) → KnowsState store (state_of result) }
{
    match state {
        SmtpState::Mail(session) => SmtpState::Greeted(session.reset()),
        state => state,
    }
}

// RSET, in any state.
fn answer_rset(alloc: Global, state: SmtpState, store: &Store) -> Result<Reply, Memory>
    requires { KnowsState store.now (state_of state) }
    ensures reply { IfOk result (λ reply. reply.octets ≡ reply_octets (ok_of (reset_of (state_of state))).reply) }
    ensures next { IfOk result (λ reply. state_or_ended reply.next ≡ reset_of (state_of state)) }
    ensures known { IfOk result (λ reply. KnowsState store.now (state_or_ended reply.next)) }
{
    says(alloc, OK, reset(state))
}

// The last reply: no session is left.
fn says_last(alloc: Global, text: &[u8]) -> Result<Reply, Memory>
    ensures reply { IfOk result (λ reply. reply.octets ≡ text.now) }
    ensures next { IfOk result (λ reply. reply.next ≡ None) }
{
    Ok(Reply {
        octets: Octets::from_slice(alloc, text)?,
        next: None,
    })
}

// A command, in any state.
#[tactic(auto, unfolding(crate::specs::Machine::step))]
fn answer_command(
    alloc: Global,
    state: SmtpState,
    verb: Verb,
    argument: &[u8],
    store: &Store,
) -> Result<Reply, Memory>
    requires { KnowsState store.now (state_of state) }
    ensures reply { IfOk result (λ reply. WithOracles (λ oracles. reply.octets
        ≡ reply_octets (step oracles (state_of state) store.now verb argument.now).reply)) }
    ensures next { IfOk result (λ reply. WithOracles (λ oracles. state_or_ended reply.next
        ≡ (step oracles (state_of state) store.now verb argument.now).state)) }
    ensures known { IfOk result (λ reply. KnowsState store.now (state_or_ended reply.next)) }
{
    match verb {
        Verb::Ehlo => ehlo(alloc, state, argument, store),
        Verb::Helo => helo(alloc, state, argument, store),
        Verb::Mail => answer_mail(alloc, state, argument, store),
        Verb::Rcpt => answer_rcpt(alloc, state, argument, store),
        Verb::Data => answer_data(alloc, state, store),
        Verb::Rset => answer_rset(alloc, state, store),
        Verb::Noop => says(alloc, OK, state),
        Verb::Vrfy => says(alloc, UNVERIFIED, state),
        Verb::Quit => {
            drop(state);
            says_last(alloc, BYE)
        }
        Verb::Other => says(alloc, UNKNOWN, state),
    }
}

/// A line, which has its CRLF: a command, or an HTTP request in place of the first one.
#[tactic(auto, unfolding(crate::specs::Machine::line_step))]
pub fn answer(alloc: Global, state: SmtpState, line: &[u8], store: &Store) -> Result<Reply, Memory>
    requires line { 2 ≤ length line.now }
    requires known { KnowsState store.now (state_of state) }
    ensures reply { IfOk result (λ reply. WithOracles (λ oracles. reply.octets
        ≡ reply_octets (line_step oracles (state_of state) store.now line.now).reply)) }
    ensures next { IfOk result (λ reply. WithOracles (λ oracles. state_or_ended reply.next
        ≡ (line_step oracles (state_of state) store.now line.now).state)) }
    ensures known { IfOk result (λ reply. KnowsState store.now (state_or_ended reply.next)) }
{
    if state.begins_with_request(line) {
        drop(state);
        return says_last(alloc, HTTP_REQUEST);
    }
    let command = read_command(line);
    let state = state.past_first();
    answer_command(alloc, state, command.verb, command.argument, store)
}
