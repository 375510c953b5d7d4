//! Reads the words of the commands that add to a store.
ghost use Rattle.std.specs.Prelude.{◌≡◌, ◌≢◌, ◌≤◌, ◌↔◌, ℕ, List, length, map, option_map, string_bytes, IfOk, IfSome, IfNone, IsTrue, IsUtf8, None};
ghost use Rattle.std.specs.List.{list_all};
ghost use Rattle.ace_domains.specs.Domains.{normal_form};
ghost use Rattle.address_grammar.specs.Addresses.{address_text};
ghost use Rattle.address_grammar.specs.Paths.{ComesInPath};
ghost use Rattle.address_grammar.specs.declared.Address.{Address as AddressValue};
ghost use Rattle.journal_records.specs.Addresses.{IsTextOfAddress};
ghost use Rattle.setup_command.specs.PlainWords.{IsCalled, is_plain_word as is_plain_word};
ghost use Rattle.setup_command.specs.private.Passwords.{IsShortPassword};
ghost use Rattle.setup_command.specs.WordForms.{IsAccountByInput, IsAccountCommand, IsAccountText, IsDomainCommand, SaysAccount};

use crate::values::{account_values, one_value};
use ace_domains::normal;
use address_grammar::{Address, write_address};
use journal_records::{TEXT_MAX, read_text};
use mail_wire::{Memory, Octets, Words};
use std::alloc::Global;

/// What the words of `account` say: without a password, it is the first line of the input.
#[derive(Debug, Drop)]
pub struct AccountWords {
    pub address: Address,
    pub password: Option<Octets>,
}

// The words as a list.
fn list_of<'a>(alloc: Global, words: &'a Words) -> Result<Vec<&'a str>, Memory>
    ensures { IfOk result (λ list. map (λ s. s.now) list.items ≡ words.now) }
{
    let mut list = Vec::new(alloc);
    while let Some(word) = words.get(list.len()) {
        list.push(word)?;
    }
    Ok(list)
}

/// Whether the word isn't empty and doesn't begin with `-`.
pub fn is_plain(word: &str) -> bool
    ensures { result ≡ is_plain_word word.now }
{
    match word.as_bytes().first() {
        Some(first) => *first != b'-',
        None => false,
    }
}

// Whether no word is empty or begins with `-`.
fn are_plain(words: &[&str]) -> bool
    ensures { result ≡ list_all (λ s. is_plain_word s.now) words.now }
{
    words.iter().all(|word| is_plain(word))
}

// Whether the first word is this name and the others are plain.
fn is_called(words: &[&str], name: &str) -> bool
    ensures { IsTrue result ↔ IsCalled name.now (map (λ s. s.now) words.now) }
{
    match words.split_first() {
        Some((first, rest)) => *first == name && are_plain(rest),
        None => false,
    }
}

// Whether the domain has a normal form.
fn has_form(alloc: Global, domain: &[u8]) -> Result<bool, Memory>
    requires { IsUtf8 domain.now }
    ensures { IfOk result (λ has. IsTrue has ↔ (normal_form domain.now ≢ None)) }
{
    match std::str::from_utf8(domain) {
        Ok(domain) => Ok(normal(alloc, domain)?.is_some()),
        Err(_) => unreachable!(),
    }
}

// Whether the address has a text within the limit.
fn is_short(alloc: Global, address: &Address) -> Result<bool, Memory>
    requires { ComesInPath address.now }
    ensures { IfOk result (λ short. IsTrue short ↔ (length (address_text address.now) ≤ TEXT_MAX)) }
{
    Ok(write_address(alloc, address)?.len() <= TEXT_MAX)
}

// The address of an account, by its text.
fn account_address(alloc: Global, text: &[u8]) -> Result<Option<Address>, Memory>
    ensures some { IfOk result (λ found. IfSome found (IsAccountText text.now)) }
    ensures none { IfOk result (λ found. IfNone found ((address : AddressValue) → ¬ IsAccountText text.now address)) }
{
    let Some(address) = read_text(alloc, text)? else {
        return Ok(None);
    };
    if !has_form(alloc, address.domain.as_slice())? {
        return Ok(None);
    }
    if !is_short(alloc, &address)? {
        return Ok(None);
    }
    Ok(Some(address))
}

// Whether the password is within the limit, or there is none.
fn is_within(password: Option<&str>) -> bool
    ensures { IsTrue result ↔ IsShortPassword (option_map (λ s. s.now) password.entry) }
{
    match password {
        Some(word) => word.len() <= TEXT_MAX,
        None => true,
    }
}

// The octets of the password where there is one.
fn password_octets(alloc: Global, password: Option<&str>) -> Result<Option<Octets>, Memory>
    ensures { IfOk result (λ octets. octets ≡ option_map (λ s. s.now) password.entry) }
{
    match password {
        Some(word) => Ok(Some(Octets::from_slice(alloc, word.as_bytes())?)),
        None => Ok(None),
    }
}

/// What the words of `account` say, or none where the words aren't such.
pub fn read_account(alloc: Global, words: &Words) -> Result<Option<AccountWords>, Memory>
    ensures some { IfOk result (λ found. IfSome found (λ said. SaysAccount words.now said.address said.password)) }
    ensures none { IfOk result (λ found. IfNone found ((address : AddressValue) (password : List ℕ) → ¬ IsAccountCommand words.now address password)) }
    ensures none_by_input { IfOk result (λ found. IfNone found ((address : AddressValue) → ¬ IsAccountByInput words.now address)) }
{
    let list = list_of(alloc, words)?;
    if !is_called(&list, "account") {
        return Ok(None);
    }
    let Some((text, password)) = account_values(alloc, &list)? else {
        return Ok(None);
    };
    if !is_within(password) {
        return Ok(None);
    }
    let Some(address) = account_address(alloc, text.as_bytes())? else {
        return Ok(None);
    };
    let password = password_octets(alloc, password)?;
    Ok(Some(AccountWords { address, password }))
}

/// The domain that the words of `domain` name, or none where the words aren't such.
pub fn read_domain(alloc: Global, words: &Words) -> Result<Option<String>, Memory>
    ensures some { IfOk result (λ found. IfSome found (λ name. IsDomainCommand words.now (string_bytes name))) }
    ensures none { IfOk result (λ found. IfNone found ((name : List ℕ) → ¬ IsDomainCommand words.now name)) }
{
    let list = list_of(alloc, words)?;
    if !is_called(&list, "domain") {
        return Ok(None);
    }
    let Some(domain) = one_value(alloc, &list)? else {
        return Ok(None);
    };
    let Some(_) = normal(alloc, domain)? else {
        return Ok(None);
    };
    Ok(Some(String::from_str(alloc, domain)?))
}
