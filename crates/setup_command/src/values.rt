//! What `clap` reads after the name of a command.
ghost use Rattle.std.specs.Prelude.{◌≡◌, ◌≢◌, ◌↔◌, ℕ, List, [], ◌∷◌, Option, map, option_map, codes, IfOk, IfSome, IfNone, IsTrue};
ghost use Rattle.clap.specs.Words.{app_of, kind_of, rule_of};
ghost use Rattle.setup_command.specs.private.Apps.{account_app, account_words, domain_app};
ghost use Rattle.setup_command.specs.PlainWords.{IsCalled};

use clap::error::ErrorKind;
use clap::{Arg, ArgAction, Command, Error};
use mail_wire::Memory;
use std::alloc::Global;

// The command of one word.
fn domain_command<'a>(alloc: Global) -> Result<Command<'a>, Memory>
    ensures { IfOk result (λ command. app_of command ≡ domain_app) }
{
    let domain = Arg::new(alloc, "domain")
        .required(true)
        .action(ArgAction::Set);
    Ok(Command::new(alloc, "domain").arg(domain)?)
}

// The command of one word or two.
fn account_command<'a>(alloc: Global) -> Result<Command<'a>, Memory>
    ensures { IfOk result (λ command. app_of command ≡ account_app) }
{
    let address = Arg::new(alloc, "address")
        .required(true)
        .action(ArgAction::Set);
    let password = Arg::new(alloc, "password").action(ArgAction::Set);
    Ok(Command::new(alloc, "account").arg(address)?.arg(password)?)
}

// Whether memory was refused.
fn is_want_of_memory(error: &Error) -> bool
    ensures { IsTrue result ↔ (kind_of error.now ≡ ErrorKind.OutOfMemory) }
{
    matches!(error.kind(), ErrorKind::OutOfMemory)
}

/// The one word after `domain`, or none where there are fewer or more.
pub fn one_value<'a>(alloc: Global, words: &'a [&'a str]) -> Result<Option<&'a str>, Memory>
    requires { IsCalled (codes "domain") (map (λ s. s.now) words.now) }
    ensures some { IfOk result (λ found. IfSome found (λ value. map (λ s. s.now) words.now ≡ codes "domain" ∷ value.now ∷ [])) }
    ensures none { IfOk result (λ found. IfNone found ((value : List ℕ) → map (λ s. s.now) words.now ≢ codes "domain" ∷ value ∷ [])) }
{
    let command = domain_command(alloc)?;
    match command.try_get_matches_from(words) {
        Ok(matches) => Ok(matches.get_str("domain")),
        Err(error) => {
            if is_want_of_memory(&error) {
                return Err(Memory);
            }
            Ok(None)
        }
    }
}

/// The word after `account`, and the second one where it is there, or none where there are fewer or more.
pub fn account_values<'a>(
    alloc: Global,
    words: &'a [&'a str],
) -> Result<Option<(&'a str, Option<&'a str>)>, Memory>
    requires { IsCalled (codes "account") (map (λ s. s.now) words.now) }
    ensures some { IfOk result (λ found. IfSome found (λ values. map (λ s. s.now) words.now ≡ account_words values.0.now (option_map (λ s. s.now) values.1))) }
    ensures none { IfOk result (λ found. IfNone found ((address : List ℕ) (password : Option (List ℕ)) → map (λ s. s.now) words.now ≢ account_words address password)) }
{
    let command = account_command(alloc)?;
    match command.try_get_matches_from(words) {
        Ok(matches) => match matches.get_str("address") {
            Some(address) => Ok(Some((address, matches.get_str("password")))),
            None => Ok(None),
        },
        Err(error) => {
            if is_want_of_memory(&error) {
                return Err(Memory);
            }
            Ok(None)
        }
    }
}
