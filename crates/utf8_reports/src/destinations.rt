//! Where a report goes, and from where it comes.
ghost use Rattle.std.specs.Prelude.{◌≡◌, ◌↔◌, ℕ, Bool, List, IsTrue, IfOk, IfSome, IsSomeAnd, option_map};
ghost use Rattle.address_grammar.specs.Addresses.{address_text};
ghost use Rattle.address_grammar.specs.Paths.{ComesInPath};
ghost use Rattle.address_lists.specs.ListPieces.{served_address};
ghost use Rattle.utf8_reports.specs.Destinations.{is_global, shown_path, IsReporter};
ghost use Rattle.utf8_reports.specs.private.Reading.{IsShownText};

use crate::addresses::read_address;
use ace_domains::normal;
use address_grammar::{Address, push_address};
use address_lists::served;
use mail_wire::{Memory, Octets};
use std::alloc::Global;

/// The text of the path to which a report goes, and whether the report is in UTF-8.
#[derive(Drop)]
pub struct Destination {
    pub text: Octets,
    pub global: bool,
}

/// The text of an address.
pub fn text_of(alloc: Global, address: &Address) -> Result<Octets, Memory>
    ensures { IfOk result (λ text. text ≡ address_text address.now) }
{
    let mut text = Octets::new(alloc);
    push_address(&mut text, address)?;
    Ok(text)
}

// The text of an address as it is served, where it can be.
fn served_text(alloc: Global, address: &Address) -> Result<Option<Octets>, Memory>
    requires { ComesInPath address.now }
    ensures { IfOk result (λ text. text ≡ option_map address_text (served_address address.now)) }
{
    let Some(served) = served(alloc, address)? else {
        return Ok(None);
    };
    let text = text_of(alloc, &served)?;
    Ok(Some(text))
}

/// Where the report of a message with this path goes.
pub fn destination_of(alloc: Global, path: &Address) -> Result<Destination, Memory>
    requires { ComesInPath path.now }
    ensures text { IfOk result (λ to. to.text ≡ shown_path path.now) }
    ensures global { IfOk result (λ to. to.global ≡ is_global path.now) }
{
    if let Some(text) = served_text(alloc, path)? {
        return Ok(Destination {
            text,
            global: false,
        });
    }
    let text = text_of(alloc, path)?;
    Ok(Destination { text, global: true })
}

/// Whether the report of the path that has this text is in UTF-8, and nothing where no path has it.
pub fn read_destination(alloc: Global, text: &[u8]) -> Result<Option<bool>, Memory>
    ensures found { IfOk result (λ o. IfSome o (IsShownText text.now)) }
    ensures exact { (global : Bool) → IsShownText text.now global → IfOk result (λ o. IsSomeAnd o (λ found. found ≡ global)) }
{
    let Some(path) = read_address(alloc, text)? else {
        return Ok(None);
    };
    let Some(served) = served_text(alloc, &path)? else {
        return Ok(Some(true));
    };
    if served.as_slice() != text {
        return Ok(None);
    }
    Ok(Some(false))
}

/// Whether the text is a name of a server.
pub fn is_reporter(alloc: Global, text: &[u8]) -> Result<bool, Memory>
    ensures { IfOk result (λ is. IsTrue is ↔ IsReporter text.now) }
{
    let Ok(domain) = str::from_utf8(text) else {
        return Ok(false);
    };
    match normal(alloc, domain)? {
        Some(form) => Ok(form.as_slice() == text),
        None => Ok(false),
    }
}
