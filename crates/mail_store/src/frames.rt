//! What stands at a place of a keeper's octets.
ghost use Rattle.std.specs.Prelude.{◌≡◌, ◌↔◌, ◌+◌, ◌-◌, ◌≤◌, ◌<◌, length, take, drop, option_map, IsTrue, IfOk, OnOk, OnErr, IfErr, IfSome};
ghost use Rattle.mail_wire.specs.Keeping.{HasKeeperCause};
ghost use Rattle.journal_records.specs.Frames.{IsFrame, FitsIn, IsBeginningOf, IsLong};
ghost use Rattle.mail_store.specs.Opening.{EndsInZeros, are_zeros};
ghost use Rattle.mail_store.specs.private.Replaying.{IsOutside, BreaksFrame};

use crate::opening::OpenFault;
use journal_records::{Beginning, Frame, beginning_of, frame_of};
use mail_wire::Keeper;
use std::alloc::{AllocError, Global};

// The buffer has so many octets. Where it has fewer it is made anew, which takes less than to make it longer.
fn set_len(alloc: Global, buffer: &mut Vec<u8>, len: usize) -> Result<(), AllocError>
    ensures { OnOk result (length buffer.new.items ≡ len) }
{
    if len <= buffer.len() {
        buffer.truncate(len);
    } else {
        *buffer = Vec::from_elem(alloc, 0, len)?;
    }
    Ok(())
}

/// Fills the buffer with the octets at a place.
pub fn fill<J: Keeper>(
    alloc: Global,
    keeper: &mut J,
    at: u64,
    len: usize,
    buffer: &mut Vec<u8>,
) -> Result<(), OpenFault>
    requires { IfSome (J.observed keeper.old).octets (λ octets. at + len ≤ length octets) }
    ensures len { OnOk result (length buffer.new.items ≡ len) }
    ensures octets { OnOk result (IfSome (J.observed keeper.old).octets (λ octets. buffer.new.items ≡ take len (drop at octets))) }
    ensures same { (J.observed keeper.new).octets ≡ (J.observed keeper.old).octets }
    ensures unappended { (J.observed keeper.new).appends ≡ (J.observed keeper.old).appends }
    ensures cause { HasKeeperCause (J.observed keeper.old) (J.observed keeper.new) result OpenFault.Keeper }
    ensures outside { IfErr result IsOutside }
{
    set_len(alloc, buffer, len)?;
    keeper.read_at(at, buffer)?;
    Ok(())
}

/// What stands at a place before the end.
pub fn frame_at<J: Keeper>(keeper: &mut J, at: u64, had: u64) -> Result<Frame, OpenFault>
    requires within { at ≤ had }
    requires had { IfSome (J.observed keeper.old).octets (λ octets. had ≡ length octets) }
    ensures frame { IfOk result (λ frame. IfSome (J.observed keeper.old).octets (λ octets. IsFrame frame (drop at octets))) }
    ensures room { IfOk result (λ frame. FitsIn frame (had - at)) }
    ensures same { (J.observed keeper.new).octets ≡ (J.observed keeper.old).octets }
    ensures unappended { (J.observed keeper.new).appends ≡ (J.observed keeper.old).appends }
    ensures cause { HasKeeperCause (J.observed keeper.old) (J.observed keeper.new) result OpenFault.Keeper }
    ensures outside { IfErr result IsOutside }
{
    let left = had - at;
    if left < 4 {
        return Ok(Frame::CutShort);
    }
    let mut front = [0; 4];
    keeper.read_at(at, &mut front)?;
    Ok(frame_of(&front, left))
}

/// What a keeper's first octets are.
pub fn read_beginning<J: Keeper>(
    alloc: Global,
    keeper: &mut J,
    had: u64,
    buffer: &mut Vec<u8>,
) -> Result<Beginning, OpenFault>
    requires { IfSome (J.observed keeper.old).octets (λ octets. had ≡ length octets) }
    ensures beginning { IfOk result (λ beginning. IfSome (J.observed keeper.old).octets (IsBeginningOf beginning)) }
    ensures long { IfOk result (λ beginning. IsLong beginning had) }
    ensures same { (J.observed keeper.new).octets ≡ (J.observed keeper.old).octets }
    ensures unappended { (J.observed keeper.new).appends ≡ (J.observed keeper.old).appends }
    ensures cause { HasKeeperCause (J.observed keeper.old) (J.observed keeper.new) result OpenFault.Keeper }
    ensures outside { IfErr result IsOutside }
{
    let len = had.min(8) as usize;
    fill(alloc, keeper, 0, len, buffer)?;
    Ok(beginning_of(buffer))
}

// How many octets are read at once where zeros are looked for.
const PIECE: u64 = 4096;

// A write that a power cut broke off leaves whole sectors of so many octets.
const SECTOR: u64 = 512;

fn are_zeros(octets: &[u8]) -> bool
    ensures { result ≡ are_zeros octets.now }
{
    octets.iter().all(|octet| *octet == 0)
}

// Whether all octets from a place on are zero.
fn are_zeros_from<J: Keeper>(
    alloc: Global,
    keeper: &mut J,
    from: u64,
    had: u64,
    buffer: &mut Vec<u8>,
) -> Result<bool, OpenFault>
    requires had { IfSome (J.observed keeper.old).octets (λ octets. had ≡ length octets) }
    requires within { from ≤ had }
    ensures zeros { IfOk result (λ are. IfSome (J.observed keeper.old).octets (λ octets. are ≡ are_zeros (drop from octets))) }
    ensures same { (J.observed keeper.new).octets ≡ (J.observed keeper.old).octets }
    ensures unappended { (J.observed keeper.new).appends ≡ (J.observed keeper.old).appends }
    ensures cause { HasKeeperCause (J.observed keeper.old) (J.observed keeper.new) result OpenFault.Keeper }
    ensures outside { IfErr result IsOutside }
{
    let mut at = from;
    while at < had {
        let len = (had - at).min(PIECE);
        fill(alloc, keeper, at, len as usize, buffer)?;
        if !are_zeros(buffer) {
            return Ok(false);
        }
        at += len;
    }
    Ok(true)
}

// Whether the octets from a place on end in zeros from the beginning of a sector on.
fn end_in_zeros<J: Keeper>(
    alloc: Global,
    keeper: &mut J,
    at: u64,
    had: u64,
    buffer: &mut Vec<u8>,
) -> Result<bool, OpenFault>
    requires had { IfSome (J.observed keeper.old).octets (λ octets. had ≡ length octets) }
    requires within { at < had }
    ensures ends { IfOk result (λ ends. IfSome (J.observed keeper.old).octets (λ octets. IsTrue ends ↔ EndsInZeros at (drop at octets))) }
    ensures same { (J.observed keeper.new).octets ≡ (J.observed keeper.old).octets }
    ensures unappended { (J.observed keeper.new).appends ≡ (J.observed keeper.old).appends }
    ensures cause { HasKeeperCause (J.observed keeper.old) (J.observed keeper.new) result OpenFault.Keeper }
    ensures outside { IfErr result IsOutside }
{
    // The last sector ends with the file, so that no other has to be looked at.
    let sector = (had - 1) / SECTOR * SECTOR;
    if sector < at {
        return Ok(false);
    }
    are_zeros_from(alloc, keeper, sector, had, buffer)
}

/// Whether octets that begin with this frame, and with no record, are broken off.
pub fn is_broken_off<J: Keeper>(
    alloc: Global,
    keeper: &mut J,
    at: u64,
    had: u64,
    frame: Frame,
    buffer: &mut Vec<u8>,
) -> Result<bool, OpenFault>
    requires had { IfSome (J.observed keeper.old).octets (λ octets. had ≡ length octets) }
    requires within { at ≤ had }
    requires room { FitsIn frame (had - at) }
    ensures broken { IfOk result (λ is. IfSome (J.observed keeper.old).octets (λ octets. IsTrue is ↔ BreaksFrame frame at (drop at octets))) }
    ensures same { (J.observed keeper.new).octets ≡ (J.observed keeper.old).octets }
    ensures unappended { (J.observed keeper.new).appends ≡ (J.observed keeper.old).appends }
    ensures cause { HasKeeperCause (J.observed keeper.old) (J.observed keeper.new) result OpenFault.Keeper }
    ensures outside { IfErr result IsOutside }
{
    let len = match frame {
        Frame::CutShort => return Ok(true),
        Frame::Bad => return are_zeros_from(alloc, keeper, at, had, buffer),
        Frame::Whole(len) => len,
    };
    if had - at - 4 != len as u64 {
        return Ok(false);
    }
    end_in_zeros(alloc, keeper, at, had, buffer)
}

/// Cuts off what stands after a place.
pub fn cut_after<J: Keeper>(keeper: &mut J, had: u64, end: u64) -> Result<(), OpenFault>
    requires had { IfSome (J.observed keeper.old).octets (λ octets. had ≡ length octets) }
    requires within { end ≤ had }
    ensures cut { OnOk result ((J.observed keeper.new).octets ≡ option_map (take end) (J.observed keeper.old).octets) }
    ensures same { OnErr result ((J.observed keeper.new).octets ≡ (J.observed keeper.old).octets) }
    ensures cause { HasKeeperCause (J.observed keeper.old) (J.observed keeper.new) result OpenFault.Keeper }
    ensures unappended { (J.observed keeper.new).appends ≡ (J.observed keeper.old).appends }
    ensures outside { IfErr result IsOutside }
{
    if had <= end {
        return Ok(());
    }
    keeper.cut(end)?;
    Ok(())
}
