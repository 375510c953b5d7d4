//! The commands that add an account or a domain to the store of a keeper.
ghost use Rattle.std.specs.Prelude.{◌≡◌, ◌≢◌, ◌≤◌, length, IfSome, None};
ghost use Rattle.ace_domains.specs.Domains.{compared_form, normal_form};
ghost use Rattle.address_grammar.specs.Addresses.{address_text};
ghost use Rattle.journal_records.specs.Addresses.{WithPaths, IsSendable};
ghost use Rattle.mail_store.specs.Changing.{account_refusal, domain_refusal};
ghost use Rattle.journal_records.specs.declared.limits.TheConstants.{TEXT_MAX};
ghost use Rattle.journal_records.specs.declared.records.Record.TheVariants as records;
ghost use Rattle.setup_command.specs.AddingRuns.{RunsAdding, IsExactAdding};
ghost use Rattle.setup_command.specs.Running.{HasStatusCause, IsExactJournal};
ghost use Rattle.setup_command.specs.Statuses.{status_of};

use crate::refusals::{tell_refused, tell_unopened};
use crate::statuses::DONE;
use address_grammar::Address;
use kept_mail::MESSAGE_MAX;
use mail_store::Store;
use mail_wire::{Fault, Keeper, Wire};
use std::alloc::Global;

/// Makes a domain local: `DONE` where it is put last in the journal, `BAD_JOURNAL` where that is bad, `ADDING_REFUSED` where the
/// store refuses it.
pub fn run_domain<W: Wire, J: Keeper>(
    alloc: Global,
    domain: &str,
    wire: &mut W,
    keeper: &mut J,
) -> Result<u8, Fault>
    requires { normal_form domain.now ≢ None }
    ensures runs { RunsAdding (λ kept. domain_refusal kept domain.now) (records.Domain (compared_form domain.now))
        (J.observed keeper.old).octets (J.observed keeper.new).octets (W.observed wire.old) (W.observed wire.new) (status_of result) }
    // What the store refuses is told, and nothing else; and a bad journal.
    ensures exact { IfSome (J.observed keeper.old).octets (λ octets. IsExactAdding (λ kept. domain_refusal kept domain.now) octets (status_of result)) }
    ensures journal { IfSome (J.observed keeper.old).octets (λ octets. IsExactJournal octets (status_of result)) }
    ensures cause { HasStatusCause (W.observed wire.old) (W.observed wire.new) (J.observed keeper.old) (J.observed keeper.new) (status_of result) }
{
    let mut store = match Store::open(alloc, keeper, MESSAGE_MAX) {
        Ok(store) => store,
        Err(fault) => return tell_unopened(alloc, fault, wire),
    };
    match store.add_domain(keeper, domain) {
        Ok(()) => Ok(DONE),
        Err(why) => tell_refused(why, wire),
    }
}

/// Makes an account with this address and password: `DONE` where it is put last in the journal, `BAD_JOURNAL` where that is
/// bad, `ADDING_REFUSED` where the store refuses it.
pub fn run_account<W: Wire, J: Keeper>(
    alloc: Global,
    address: &Address,
    password: &[u8],
    wire: &mut W,
    keeper: &mut J,
) -> Result<u8, Fault>
    requires address { IsSendable address.now }
    requires password { length password.now ≤ TEXT_MAX }
    ensures runs { WithPaths (λ path_of. RunsAdding (λ kept. account_refusal path_of kept address.now) (records.Account (address_text address.now) password.now)
        (J.observed keeper.old).octets (J.observed keeper.new).octets (W.observed wire.old) (W.observed wire.new) (status_of result)) }
    // What the store refuses is told, and nothing else; and a bad journal.
    ensures exact { WithPaths (λ path_of. IfSome (J.observed keeper.old).octets (λ octets.
        IsExactAdding (λ kept. account_refusal path_of kept address.now) octets (status_of result))) }
    ensures journal { IfSome (J.observed keeper.old).octets (λ octets. IsExactJournal octets (status_of result)) }
    ensures cause { HasStatusCause (W.observed wire.old) (W.observed wire.new) (J.observed keeper.old) (J.observed keeper.new) (status_of result) }
{
    let mut store = match Store::open(alloc, keeper, MESSAGE_MAX) {
        Ok(store) => store,
        Err(fault) => return tell_unopened(alloc, fault, wire),
    };
    match store.add_account(keeper, address, password) {
        Ok(_) => Ok(DONE),
        Err(why) => tell_refused(why, wire),
    }
}
