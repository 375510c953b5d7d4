//! Cuts the journal, and keeps what is cut.
ghost use Rattle.std.specs.Prelude.{◌≤◌};

use crate::owned_file::{named_node, open_or_make, shut_others_out, sync_name};
use std::fs::{File, Files, OpenFile};
use std::io::{self, Read, Seek, SeekFrom, Write};

/// Why a call of the keeper failed.
#[derive(Clone, Copy, Debug)]
pub enum JournalFailure {
    /// The journal couldn't be opened, read, written or synced.
    Journal(io::Error),
    /// The octets that were to be cut couldn't be kept in the file for them.
    Cut(io::Error),
}

impl From<io::Error> for JournalFailure {
    fn from(error: io::Error) -> JournalFailure {
        JournalFailure::Journal(error)
    }
}

// Puts all that is left of one file last in another one, and syncs that, or leaves it as it was. How many octets these are.
fn put_rest<T: Read, K: Write + Seek + OpenFile>(from: &mut T, into: &mut K) -> io::Result<u64> {
    let end = into.seek(SeekFrom::End(0))?;
    let done = match io::copy(from, into) {
        Ok(count) => into.sync_data().map(|()| count),
        Err(error) => Err(error),
    };
    if done.is_err() {
        let _taken_back = into.set_len(end);
    }
    done
}

// Keeps the octets of the journal from this place on in the file of this name. How many they are.
fn keep_rest<F: Files<File = File>>(
    files: &F,
    path: &str,
    journal: &mut File,
    at: u64,
) -> io::Result<u64> {
    let mut kept = open_or_make(files, path, true)?;
    named_node(files, path, &kept)?;
    shut_others_out(&kept)?;
    journal.seek(SeekFrom::Start(at))?;
    let count = put_rest(journal, &mut kept)?;
    sync_name(files, path)?;
    Ok(count)
}

/// Leaves only the first octets of the journal, once the others are kept in the file of this name. How many these are is added
/// to the count.
pub fn cut_kept<F: Files<File = File>>(
    files: &F,
    path: &str,
    journal: &mut File,
    len: u64,
    cut_octets: &mut u64,
) -> Result<(), JournalFailure>
    ensures never_falls { cut_octets.old ≤ cut_octets.new }
{
    let count = match keep_rest(files, path, journal, len) {
        Ok(count) => count,
        Err(error) => return Err(JournalFailure::Cut(error)),
    };
    journal.set_len(len)?;
    *cut_octets = cut_octets.saturating_add(count);
    journal.sync_data()?;
    Ok(())
}
