//! The reader of what a sender asks for a message (RFC 3461, 4.3 and 4.4).
ghost use Rattle.std.specs.Prelude.{◌≡◌, List, ℕ, IfOk, IfSome, IfNone};
ghost use Rattle.std.specs.Option.{option_copied};
ghost use Rattle.dsn_terms.specs.MailTerms.{ret_says, EnvidSays, HasMailTerms};
ghost use Rattle.dsn_terms.specs.KeptTerms.{CanKeepEnvid};
ghost use Rattle.dsn_terms.specs.declared.Terms.{Terms};

use crate::Terms;
use crate::parameters::{are_parameters, value_under};
use crate::xtext::read_printable;
use mail_wire::{Memory, Octets, TableWord, find_word};
use std::alloc::Global;

// The values of RET, and whether each asks for the whole message.
const RET_WORDS: [TableWord<bool>; 2] = [TableWord(b"FULL", true), TableWord(b"HDRS", false)];

// Whether RET asks for the whole message.
fn read_ret(value: Option<&[u8]>) -> Option<bool>
    ensures { result ≡ ret_says (option_copied value.entry) }
{
    match value {
        Some(value) => find_word(&RET_WORDS, value),
        None => Some(false),
    }
}

// The identifier that ENVID says.
fn read_envid(alloc: Global, value: Option<&[u8]>) -> Result<Option<Octets>, Memory>
    ensures found { IfOk result (λ o. IfSome o (EnvidSays (option_copied value.entry))) }
    ensures none { IfOk result (λ o. IfNone o ((envid : List ℕ) → ¬ EnvidSays (option_copied value.entry) envid)) }
{
    let Some(value) = value else {
        return Ok(Some(Octets::new(alloc)));
    };
    if value.is_empty() || value.len() > 100 {
        return Ok(None);
    }
    read_printable(alloc, value)
}

/// What the parameters of MAIL ask for a message. Nothing exactly where one is neither RET nor ENVID, is there twice or has a value that
/// isn't one of its own.
pub fn read_mail_terms(alloc: Global, params: &[Octets]) -> Result<Option<Terms>, Memory>
    ensures found { IfOk result (λ o. IfSome o (HasMailTerms params.now)) }
    ensures none { IfOk result (λ o. IfNone o ((terms : Terms) → ¬ HasMailTerms params.now terms)) }
    ensures kept { IfOk result (λ o. IfSome o (λ terms. CanKeepEnvid terms.envid)) }
{
    if !are_parameters(b"RET=", b"ENVID=", params) {
        return Ok(None);
    }
    let Some(full) = read_ret(value_under(b"RET=", params)) else {
        return Ok(None);
    };
    let Some(envid) = read_envid(alloc, value_under(b"ENVID=", params))? else {
        return Ok(None);
    };
    Ok(Some(Terms { envid, full }))
}
