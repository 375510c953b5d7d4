//! Envelopes.
ghost use Rattle.std.specs.Prelude.{◌≡◌, ◌++◌, [], IfOk, OnOk, OnErr};
ghost use Rattle.imap_views.specs.Envelopes.{AreAddressesOf, AreAddressesOr, HasEnvelope, IsEnvelope, IsStringOf};
ghost use Rattle.imap_views.specs.Fields.{HasSomeBlock};
ghost use Rattle.imap_views.specs.Strings.{AddsText};
ghost use Rattle.imap_views.specs.private.Reading.{AddsAfterSpace, HasAllAddresses, HasSenders, IsRead, raws_in};

use crate::addresses::addresses_form;
use crate::headers::{Header, read_header};
use crate::strings::{push_after_space, push_nstring, slice_of};
use mail_wire::{Memory, Octets};
use std::alloc::Global;

// Puts the value of the first field of this name last, as a string or NIL.
fn push_string_of(
    alloc: Global,
    made: &mut Octets,
    header: &Header<'_>,
    name: &[u8],
) -> Result<(), Memory>
    requires { IsRead header.now }
    ensures { OnOk result (AddsText (IsStringOf name.now (raws_in header.now)) made.old made.new) }
{
    let value = header.first(alloc, name)?;
    push_nstring(made, slice_of(&value))
}

// The same, after a space.
fn push_string_after(
    alloc: Global,
    made: &mut Octets,
    header: &Header<'_>,
    name: &[u8],
) -> Result<(), Memory>
    requires { IsRead header.now }
    ensures { OnOk result (AddsAfterSpace (IsStringOf name.now (raws_in header.now)) made.old made.new) }
{
    made.push(b' ')?;
    push_string_of(alloc, made, header, name)
}

// The addresses of the first field of this name.
fn addresses_of(alloc: Global, header: &Header<'_>, name: &[u8]) -> Result<Octets, Memory>
    requires { IsRead header.now }
    ensures { IfOk result (λ made. AreAddressesOf name.now (raws_in header.now) made) }
{
    let value = header.first(alloc, name)?;
    addresses_form(alloc, &value)
}

// The same, or these where there is no such field.
fn addresses_or(
    alloc: Global,
    from: &[u8],
    header: &Header<'_>,
    name: &[u8],
) -> Result<Octets, Memory>
    requires { IsRead header.now }
    ensures { IfOk result (λ made. AreAddressesOr from.now name.now (raws_in header.now) made) }
{
    let value = header.first(alloc, name)?;
    match value {
        Some(_) => addresses_form(alloc, &value),
        None => Octets::from_slice(alloc, from),
    }
}

// Puts the addresses of the first field of this name last, after a space.
fn push_addresses_of(
    alloc: Global,
    made: &mut Octets,
    header: &Header<'_>,
    name: &[u8],
) -> Result<(), Memory>
    requires { IsRead header.now }
    ensures { OnOk result (AddsAfterSpace (AreAddressesOf name.now (raws_in header.now)) made.old made.new) }
{
    let addresses = addresses_of(alloc, header, name)?;
    push_after_space(made, addresses.as_slice())
}

// The same, or these where there is no such field.
fn push_addresses_or(
    alloc: Global,
    made: &mut Octets,
    from: &[u8],
    header: &Header<'_>,
    name: &[u8],
) -> Result<(), Memory>
    requires { IsRead header.now }
    ensures { OnOk result (AddsAfterSpace (AreAddressesOr from.now name.now (raws_in header.now)) made.old made.new) }
{
    let addresses = addresses_or(alloc, from, header, name)?;
    push_after_space(made, addresses.as_slice())
}

// Puts the author, the sender and the address for replies last, after spaces.
fn push_senders(alloc: Global, made: &mut Octets, header: &Header<'_>) -> Result<(), Memory>
    requires { IsRead header.now }
    ensures { OnOk result (AddsText (HasSenders (raws_in header.now)) made.old made.new) }
{
    let from = addresses_of(alloc, header, b"From")?;
    push_after_space(made, from.as_slice())?;
    push_addresses_or(alloc, made, from.as_slice(), header, b"Sender")?;
    push_addresses_or(alloc, made, from.as_slice(), header, b"Reply-To")
}

// Puts the senders and the addressees last, after spaces.
fn push_all_addresses(alloc: Global, made: &mut Octets, header: &Header<'_>) -> Result<(), Memory>
    requires { IsRead header.now }
    ensures { OnOk result (AddsText (HasAllAddresses (raws_in header.now)) made.old made.new) }
{
    push_senders(alloc, made, header)?;
    push_addresses_of(alloc, made, header, b"To")?;
    push_addresses_of(alloc, made, header, b"Cc")?;
    push_addresses_of(alloc, made, header, b"Bcc")
}

// Puts the envelope of a header that was read into a text that is empty yet.
fn push_envelope(alloc: Global, made: &mut Octets, header: &Header<'_>) -> Result<(), Memory>
    requires read { IsRead header.now }
    requires empty { made.old ≡ [] }
    ensures { OnOk result (IsEnvelope (raws_in header.now) made.new) }
{
    made.push(b'(')?;
    push_string_of(alloc, made, header, b"Date")?;
    push_string_after(alloc, made, header, b"Subject")?;
    push_all_addresses(alloc, made, header)?;
    push_string_after(alloc, made, header, b"In-Reply-To")?;
    push_string_after(alloc, made, header, b"Message-ID")?;
    made.push(b')')
}

/// The envelope of a header that was read.
pub fn envelope_of(alloc: Global, header: &Header<'_>) -> Result<Octets, Memory>
    requires { IsRead header.now }
    ensures { IfOk result (λ made. IsEnvelope (raws_in header.now) made) }
{
    let mut made = Octets::new(alloc);
    push_envelope(alloc, &mut made, header)?;
    Ok(made)
}

/// Puts the envelope of a header last.
pub fn envelope(alloc: Global, header: &[u8], out: &mut Octets) -> Result<(), Memory>
    requires { HasSomeBlock header.now }
    ensures ok { OnOk result (AddsText (HasEnvelope header.now) out.old out.new) }
    ensures err { OnErr result (out.new ≡ out.old) }
{
    let header = read_header(alloc, header)?;
    let text = envelope_of(alloc, &header)?;
    out.push_slice(text.as_slice())
}
