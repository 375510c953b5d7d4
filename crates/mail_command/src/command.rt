//! Runs a command over a wire, a keeper and a dial.
ghost use Rattle.std.specs.Prelude.{◌≡◌, ◌≢◌, ℕ, List, [], ◌∷◌, Some, Err, IfOk, IfErr, IfSome};
ghost use Rattle.mail_wire.specs.Moves.{HasWireCause};
ghost use Rattle.ace_domains.specs.Domains.{compared_form};
ghost use Rattle.address_grammar.specs.Addresses.{address_text};
ghost use Rattle.address_grammar.specs.declared.Address.{Address as AddressValue};
ghost use Rattle.journal_records.specs.Addresses.{WithPaths};
ghost use Rattle.mail_store.specs.Changing.{account_refusal, domain_refusal};
ghost use Rattle.journal_records.specs.declared.records.Record.TheVariants as records;
ghost use Rattle.session_core.specs.Serving.{OfInstance};
ghost use Rattle.session_core.specs.declared.desk.TheConstants.{LIMITS};
ghost use Rattle.setup_command.specs.AddingRuns.{RunsAdding, IsExactAdding};
ghost use Rattle.setup_command.specs.Running.{IsExactJournal, HasStatusCause};
ghost use Rattle.setup_command.specs.Statuses.{status_of};
ghost use Rattle.setup_command.specs.WordForms.{IsAccountByInput, IsAccountCommand, IsDomainCommand, IsHelpCommand, SaysAccount};
ghost use Rattle.mail_command.specs.Causes.{HasStatusWords, IsCompleteRun};
ghost use Rattle.mail_command.specs.Passwords.{IsExactByInput, RunsByInput};
ghost use Rattle.mail_command.specs.Protocols.{protocol_for};
ghost use Rattle.mail_command.specs.Words.{Names, IsNoCommand, IsDowngrade, IsCheck, IsGen, IsRelayCommand, IsSession, MayOpenJournal, OpensJournal};
ghost use Rattle.mail_command.specs.RelayRuns.{RunsRelay};
ghost use Rattle.mail_command.specs.Running.{RefusesWords, RunsDowngrade, RunsCheck, RunsGen, RunsSession, GivesHelp};
ghost use Rattle.mail_command.specs.declared.roles.Role.{Role as RoleValue};

use crate::passwords::run_account_by_input;
use crate::relaying::run_relay;
use crate::roles::{Role, role_named};
use crate::serving_words::{gen_words, relay_words};
use crate::sessions::run_session;
use crate::standalone::{Standalone, run_standalone};
use crate::tasks::Task;
use address_grammar::Address;
use mail_wire::{Clock, Dial, Fault, Keeper, Memory, Octets, Wire, Words, give_all};
use setup_command::{
    AccountWords, KEEPER_FAULT, WANT_OF_MEMORY, WIRE_FAULT, WORDS_REFUSED, read_account,
    read_domain, run_account, run_domain,
};
use std::alloc::Global;

/// The commands that words name.
#[derive(Drop)]
pub enum Command {
    Standalone(Standalone),
    Session(Role),
    /// The address and the password of an account.
    Account(Address, Octets),
    /// The password is the first line of the input.
    AccountByInput(Address),
    Domain(String),
    /// The queue is sent to the server that this host names.
    Relay(String),
}

// The command of one word.
fn command_named(word: &str) -> Option<Command>
    ensures { Names (word.now ∷ []) result }
{
    match word {
        "downgrade" => Some(Command::Standalone(Standalone::Message(Task::Downgrade))),
        "check" => Some(Command::Standalone(Standalone::Message(Task::Check))),
        "help" => Some(Command::Standalone(Standalone::Help)),
        _ => {
            let role = role_named(word)?;
            Some(Command::Session(role))
        }
    }
}

// The command of the words of `account`.
fn account_command(said: AccountWords) -> Command
    ensures { (words : List (List ℕ)) → SaysAccount words said.address said.password → Names words (Some result) }
{
    let AccountWords { address, password } = said;
    match password {
        Some(password) => Command::Account(address, password),
        None => Command::AccountByInput(address),
    }
}

// The command of fewer words or of more.
fn command_with_values(alloc: Global, words: &Words) -> Result<Option<Command>, Memory>
    requires { (word : List ℕ) → words.now ≢ word ∷ [] }
    ensures { IfOk result (Names words.now) }
{
    if let Some(said) = read_account(alloc, words)? {
        return Ok(Some(account_command(said)));
    }
    if let Some(name) = read_domain(alloc, words)? {
        return Ok(Some(Command::Domain(name)));
    }
    if let Some(host) = relay_words(words) {
        return Ok(Some(Command::Relay(String::from_str(alloc, host)?)));
    }
    match gen_words(words) {
        Some(number) => Ok(Some(Command::Standalone(Standalone::Gen(number)))),
        None => Ok(None),
    }
}

// The command that the words name. One word takes no memory.
fn command_of(alloc: Global, words: &Words) -> Result<Option<Command>, Memory>
    ensures names { IfOk result (Names words.now) }
    ensures memory { IfErr result (λ _. (word : List ℕ) → words.now ≢ word ∷ []) }
{
    match (words.get(0), words.get(1)) {
        (Some(word), None) => Ok(command_named(word)),
        _ => command_with_values(alloc, words),
    }
}

// Tells that the words are those of no command.
pub(crate) fn refuse_words<W: Wire>(wire: &mut W) -> Result<u8, Fault>
    ensures refuses { RefusesWords (W.observed wire.old) (W.observed wire.new) (status_of result) }
    ensures fine { IfOk result (λ status. status ≡ 4) }
    ensures cause { HasWireCause (W.observed wire.old) (W.observed wire.new) result Fault.Wire }
    ensures keeper { ¬ (result ≡ Err Fault.Keeper) }
{
    give_all(wire, b"words refused\r\n")?;
    Ok(WORDS_REFUSED)
}

// Does what the words say.
fn work<W: Wire, J: Keeper, L: Dial, C: Clock>(
    alloc: Global,
    words: &Words,
    wire: &mut W,
    keeper: &mut J,
    dial: &mut L,
    clock: &mut C,
) -> Result<u8, Fault>
    ensures words { IsNoCommand words.now → RefusesWords (W.observed wire.old) (W.observed wire.new) (status_of result) }
    ensures downgrade { IsDowngrade words.now → RunsDowngrade (W.observed wire.old) (W.observed wire.new) (status_of result) }
    ensures check { IsCheck words.now → RunsCheck (W.observed wire.old) (W.observed wire.new) (status_of result) }
    ensures generates { (number : ℕ) → IsGen words.now number → RunsGen number (W.observed wire.old) (W.observed wire.new) (status_of result) }
    ensures session { (role : RoleValue) → IsSession words.now role → OfInstance (protocol_for role) (C.observed clock.old) (λ instance. RunsSession instance LIMITS
        (J.observed keeper.old).octets (J.observed keeper.new).octets (W.observed wire.old) (W.observed wire.new) (status_of result)) }
    ensures account { (address : AddressValue) (password : List ℕ) → IsAccountCommand words.now address password → WithPaths (λ path_of.
        RunsAdding (λ kept. account_refusal path_of kept address) (records.Account (address_text address) password)
        (J.observed keeper.old).octets (J.observed keeper.new).octets (W.observed wire.old) (W.observed wire.new) (status_of result)) }
    ensures account_exact { (address : AddressValue) (password : List ℕ) → IsAccountCommand words.now address password → WithPaths (λ path_of.
        IfSome (J.observed keeper.old).octets (λ octets. IsExactAdding (λ kept. account_refusal path_of kept address) octets (status_of result))) }
    ensures account_by_input { (address : AddressValue) → IsAccountByInput words.now address → WithPaths (λ path_of.
        RunsByInput (λ kept. account_refusal path_of kept address) (λ password. records.Account (address_text address) password)
        (J.observed keeper.old).octets (J.observed keeper.new).octets (W.observed wire.old) (W.observed wire.new) (status_of result)) }
    ensures account_by_input_exact { (address : AddressValue) → IsAccountByInput words.now address → WithPaths (λ path_of.
        IfSome (J.observed keeper.old).octets (λ octets. IsExactByInput (λ kept. account_refusal path_of kept address) octets (status_of result))) }
    ensures domain { (name : List ℕ) → IsDomainCommand words.now name → RunsAdding (λ kept. domain_refusal kept name) (records.Domain (compared_form name))
        (J.observed keeper.old).octets (J.observed keeper.new).octets (W.observed wire.old) (W.observed wire.new) (status_of result) }
    ensures domain_exact { (name : List ℕ) → IsDomainCommand words.now name
        → IfSome (J.observed keeper.old).octets (λ octets. IsExactAdding (λ kept. domain_refusal kept name) octets (status_of result)) }
    ensures help { IsHelpCommand words.now → GivesHelp (W.observed wire.old) (W.observed wire.new) (status_of result) }
    ensures relay { (host : List ℕ) → IsRelayCommand words.now host → RunsRelay LIMITS host
        (record { wire = W.observed wire.old; keeper = J.observed keeper.old; dial = L.observed dial.old; clock = C.observed clock.old })
        (record { wire = W.observed wire.new; keeper = J.observed keeper.new; dial = L.observed dial.new; clock = C.observed clock.new }) (status_of result) }
    ensures journal { OpensJournal words.now → IfSome (J.observed keeper.old).octets (λ octets. IsExactJournal octets (status_of result)) }
    ensures untouched { ¬ MayOpenJournal words.now → J.observed keeper.new ≡ J.observed keeper.old }
    ensures undialled { ((host : List ℕ) → ¬ IsRelayCommand words.now host) → L.observed dial.new ≡ L.observed dial.old }
    ensures cause { HasStatusCause (W.observed wire.old) (W.observed wire.new) (J.observed keeper.old) (J.observed keeper.new) (status_of result) }
    ensures statuses { HasStatusWords words.now (status_of result) }
{
    match command_of(alloc, words)? {
        Some(Command::Standalone(command)) => run_standalone(alloc, command, wire),
        Some(Command::Session(role)) => run_session(alloc, role, wire, keeper, clock),
        Some(Command::Account(address, password)) => {
            run_account(alloc, &address, password.as_slice(), wire, keeper)
        }
        Some(Command::AccountByInput(address)) => {
            run_account_by_input(alloc, &address, wire, keeper)
        }
        Some(Command::Domain(name)) => run_domain(alloc, &name, wire, keeper),
        Some(Command::Relay(host)) => run_relay(alloc, &host, wire, keeper, dial, clock),
        None => refuse_words(wire),
    }
}

/// The status that an answer is.
pub fn status_after(answer: Result<u8, Fault>) -> u8
    ensures { result ≡ status_of answer }
{
    match answer {
        Ok(status) => status,
        Err(Fault::Wire) => WIRE_FAULT,
        Err(Fault::Keeper) => KEEPER_FAULT,
        Err(Fault::Memory) => WANT_OF_MEMORY,
    }
}

/// Runs the command that the words name, and answers its status: 0 where the work is done, 1 after a fault of the wire,
/// 2 after one of the keeper, 3 for want of memory, 4 where the words are those of no command or the input has no password, 5 where the journal is bad,
/// 6 where a session took 1 GiB without an end, 7 where the octets are no message or are more than 32 MiB, 8 where somebody is
/// left in the queue, 9 where the store refuses an account or a domain.
pub fn run<W: Wire, J: Keeper, L: Dial, C: Clock>(
    alloc: Global,
    words: &Words,
    wire: &mut W,
    keeper: &mut J,
    dial: &mut L,
    clock: &mut C,
) -> u8
    ensures words { IsNoCommand words.now → RefusesWords (W.observed wire.old) (W.observed wire.new) result }
    ensures downgrade { IsDowngrade words.now → RunsDowngrade (W.observed wire.old) (W.observed wire.new) result }
    ensures check { IsCheck words.now → RunsCheck (W.observed wire.old) (W.observed wire.new) result }
    ensures generates { (number : ℕ) → IsGen words.now number → RunsGen number (W.observed wire.old) (W.observed wire.new) result }
    ensures session { (role : RoleValue) → IsSession words.now role → OfInstance (protocol_for role) (C.observed clock.old) (λ instance. RunsSession instance LIMITS
        (J.observed keeper.old).octets (J.observed keeper.new).octets (W.observed wire.old) (W.observed wire.new) result) }
    ensures account { (address : AddressValue) (password : List ℕ) → IsAccountCommand words.now address password → WithPaths (λ path_of.
        RunsAdding (λ kept. account_refusal path_of kept address) (records.Account (address_text address) password)
        (J.observed keeper.old).octets (J.observed keeper.new).octets (W.observed wire.old) (W.observed wire.new) result) }
    ensures account_exact { (address : AddressValue) (password : List ℕ) → IsAccountCommand words.now address password → WithPaths (λ path_of.
        IfSome (J.observed keeper.old).octets (λ octets. IsExactAdding (λ kept. account_refusal path_of kept address) octets result)) }
    ensures account_by_input { (address : AddressValue) → IsAccountByInput words.now address → WithPaths (λ path_of.
        RunsByInput (λ kept. account_refusal path_of kept address) (λ password. records.Account (address_text address) password)
        (J.observed keeper.old).octets (J.observed keeper.new).octets (W.observed wire.old) (W.observed wire.new) result) }
    ensures account_by_input_exact { (address : AddressValue) → IsAccountByInput words.now address → WithPaths (λ path_of.
        IfSome (J.observed keeper.old).octets (λ octets. IsExactByInput (λ kept. account_refusal path_of kept address) octets result)) }
    ensures domain { (name : List ℕ) → IsDomainCommand words.now name → RunsAdding (λ kept. domain_refusal kept name) (records.Domain (compared_form name))
        (J.observed keeper.old).octets (J.observed keeper.new).octets (W.observed wire.old) (W.observed wire.new) result }
    ensures domain_exact { (name : List ℕ) → IsDomainCommand words.now name
        → IfSome (J.observed keeper.old).octets (λ octets. IsExactAdding (λ kept. domain_refusal kept name) octets result) }
    ensures help { IsHelpCommand words.now → GivesHelp (W.observed wire.old) (W.observed wire.new) result }
    ensures relay { (host : List ℕ) → IsRelayCommand words.now host → RunsRelay LIMITS host
        (record { wire = W.observed wire.old; keeper = J.observed keeper.old; dial = L.observed dial.old; clock = C.observed clock.old })
        (record { wire = W.observed wire.new; keeper = J.observed keeper.new; dial = L.observed dial.new; clock = C.observed clock.new }) result }
    // A bad journal is told.
    ensures journal { OpensJournal words.now → IfSome (J.observed keeper.old).octets (λ octets. IsExactJournal octets result) }
    // Other words leave the journal, and `relay` alone dials.
    ensures untouched { ¬ MayOpenJournal words.now → J.observed keeper.new ≡ J.observed keeper.old }
    ensures undialled { ((host : List ℕ) → ¬ IsRelayCommand words.now host) → L.observed dial.new ≡ L.observed dial.old }
    ensures cause { HasStatusCause (W.observed wire.old) (W.observed wire.new) (J.observed keeper.old) (J.observed keeper.new) result }
    // A status comes only for words of a command that may end so.
    ensures statuses { HasStatusWords words.now result }
    // Where neither the wire nor the keeper failed, the command is carried out and told whole, or memory was wanting.
    ensures complete { IsCompleteRun (W.observed wire.old) (W.observed wire.new) (J.observed keeper.old) (J.observed keeper.new) result }
{
    status_after(work(alloc, words, wire, keeper, dial, clock))
}
