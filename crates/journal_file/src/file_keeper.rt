//! The keeper over a file. It tells nothing of what it keeps, and counts its failures. One program at a time has the file.
ghost use Rattle.std.specs.Prelude.{◌≡◌, ◌≤◌, None, false};
ghost use Rattle.mail_wire.specs.Causes.{HasCause};

use crate::cutting::{JournalFailure, cut_kept};
use crate::owned_file::{Node, named_node, open_or_make, replaced, shut_others_out, sync_name};
use mail_wire::{Failed, Faults, Keeper};
use std::fs::{File, Files, OpenFile};
use std::io::{self, Read, Seek, SeekFrom, Write};

/// A file as a keeper. The file is opened, or made where there is none, by the first call that needs it, and its exclusive
/// lock is taken before it is looked at: that call waits while another program has it. The lock is held until the keeper
/// is dropped or `release` is called.
///
/// It is a regular file that is its owner's alone. What was put last or cut is synced at `Ok`. What is cut is kept first, in a
/// file of its own. Where the file that was opened isn't the one of its name any more, nothing is put last or cut. A keeper
/// that is released and finds another file then fails once, and works on that one from then on; it makes none in the place
/// of one that has gone.
#[derive(Drop)]
pub struct FileKeeper<F: Files<File = File>> {
    files: F,
    path: &'static str,
    cut_path: &'static str,
    file: Option<File>,
    node: Option<Node>,
    cut_octets: u64,
    faults: Faults<JournalFailure>,
}

impl<F: Files<File = File>> FileKeeper<F> {
    /// A keeper over the file at this path, which isn't opened yet. What is cut of it is kept in the file at the other path.
    pub fn new(files: F, path: &'static str, cut_path: &'static str) -> Self
        ensures files { result.files ≡ files }
        ensures path { result.path ≡ path.entry }
        ensures cut_path { result.cut_path ≡ cut_path.entry }
        ensures closed { result.file ≡ None }
        ensures any_file { result.node ≡ None }
        ensures cut { result.cut_octets ≡ 0 }
        ensures count { result.faults.count ≡ 0 }
        ensures failure { result.faults.last ≡ None }
    {
        FileKeeper {
            files,
            path,
            cut_path,
            file: None,
            node: None,
            cut_octets: 0,
            faults: Faults::none(),
        }
    }

    /// Closes the file, so that another program may have it. The next call opens it again.
    pub fn release(&mut self)
        ensures closed { self.new.file ≡ None }
        ensures node { self.new.node ≡ self.old.node }
        ensures cut { self.new.cut_octets ≡ self.old.cut_octets }
        ensures faults { self.new.faults ≡ self.old.faults }
    {
        self.file = None;
    }

    /// Why the last call that failed did.
    pub fn failure(&self) -> Option<JournalFailure>
        ensures { result ≡ self.now.faults.last }
    {
        self.faults.last
    }

    /// How many octets were cut since this was asked last.
    pub fn take_cut_octets(&mut self) -> u64
        ensures result { result ≡ self.old.cut_octets }
        ensures taken { self.new.cut_octets ≡ 0 }
        ensures node { self.new.node ≡ self.old.node }
        ensures faults { self.new.faults ≡ self.old.faults }
    {
        let count = self.cut_octets;
        self.cut_octets = 0;
        count
    }
}

// Takes the exclusive lock, again where a signal came in between.
fn lock(file: &File) -> io::Result<()> {
    for _ in 0..u64::MAX {
        match file.lock() {
            Err(error) if error.kind() == io::ErrorKind::Interrupted => {}
            done => return done,
        }
    }
    Err(io::Error::from(io::ErrorKind::Interrupted))
}

// Has the file be its owner's alone, and its name stay.
fn make_safe<F: Files<File = File>>(files: &F, path: &str, file: &File) -> io::Result<()> {
    shut_others_out(file)?;
    // whoever made it may not have come to this
    if file.metadata()?.len() == 0 {
        sync_name(files, path)?;
    }
    Ok(())
}

// The file, which is this program's alone from here on, and has to be the one that was opened before.
fn open<F: Files<File = File>>(files: &F, path: &str, node: &mut Option<Node>) -> io::Result<File> {
    let file = open_or_make(files, path, node.is_none())?;
    lock(&file)?;
    let found = named_node(files, path, &file)?;
    let before = node.replace(found);
    if before.is_some_and(|before| before != found) {
        return Err(replaced());
    }
    make_safe(files, path, &file)?;
    Ok(file)
}

// The file, which is opened now if it isn't yet.
fn opened<'a, F: Files<File = File>>(
    file: &'a mut Option<File>,
    files: &F,
    path: &str,
    node: &mut Option<Node>,
) -> io::Result<&'a mut File> {
    if file.is_none() {
        *file = Some(open(files, path, node)?);
    }
    file.as_mut()
        .ok_or(io::Error::from(io::ErrorKind::NotFound))
}

// The file, which has to be the one of its name to be changed.
fn opened_to_change<'a, F: Files<File = File>>(
    file: &'a mut Option<File>,
    files: &F,
    path: &str,
    node: &mut Option<Node>,
) -> io::Result<&'a mut File> {
    let file = opened(file, files, path, node)?;
    named_node(files, path, file)?;
    Ok(file)
}

fn len_of<T: OpenFile>(file: &mut T) -> io::Result<u64> {
    Ok(file.metadata()?.len())
}

fn read_from<T: Read + Seek>(file: &mut T, at: u64, into: &mut [u8]) -> io::Result<()> {
    file.seek(SeekFrom::Start(at))?;
    file.read_exact(into)
}

fn write_synced<T: Write + OpenFile>(file: &mut T, parts: &[&[u8]]) -> io::Result<()> {
    for part in parts {
        file.write_all(part)?;
    }
    file.sync_data()
}

// Puts the parts last, and takes back what was written of them where that fails: nobody is told that it is kept.
fn write_last<T: Write + Seek + OpenFile>(file: &mut T, parts: &[&[u8]]) -> io::Result<()> {
    let end = file.seek(SeekFrom::End(0))?;
    let done = write_synced(file, parts);
    if done.is_err() {
        let _taken_back = file.set_len(end);
    }
    done
}

// The failure, which is of the journal itself.
fn told<T>(done: io::Result<T>) -> Result<T, JournalFailure> {
    Ok(done?)
}

impl<F: Files<File = File>> Keeper for FileKeeper<F> {
    ghost observed = { λ keeper. record { octets = None; appends = None; faults = keeper.faults.count; never_fails = false } };

    fn len(&mut self) -> Result<u64, Failed>
        ensures cause { HasCause self.old.faults.count self.new.faults.count result }
        ensures cut { self.new.cut_octets ≡ self.old.cut_octets }
    {
        let file = opened(&mut self.file, &self.files, self.path, &mut self.node);
        self.faults.counted(told(file.and_then(len_of)))
    }

    fn read_at(&mut self, at: u64, into: &mut [u8]) -> Result<(), Failed>
        ensures cause { HasCause self.old.faults.count self.new.faults.count result }
        ensures cut { self.new.cut_octets ≡ self.old.cut_octets }
    {
        let file = opened(&mut self.file, &self.files, self.path, &mut self.node);
        let done = file.and_then(|file| read_from(file, at, into));
        self.faults.counted(told(done))
    }

    fn append_all(&mut self, parts: &[&[u8]]) -> Result<(), Failed>
        ensures cause { HasCause self.old.faults.count self.new.faults.count result }
        ensures cut { self.new.cut_octets ≡ self.old.cut_octets }
    {
        let file = opened_to_change(&mut self.file, &self.files, self.path, &mut self.node);
        let done = file.and_then(|file| write_last(file, parts));
        self.faults.counted(told(done))
    }

    fn cut(&mut self, len: u64) -> Result<(), Failed>
        ensures cause { HasCause self.old.faults.count self.new.faults.count result }
        ensures cut { self.old.cut_octets ≤ self.new.cut_octets }
    {
        let file = opened_to_change(&mut self.file, &self.files, self.path, &mut self.node);
        let done = match file {
            Ok(file) => cut_kept(&self.files, self.cut_path, file, len, &mut self.cut_octets),
            Err(error) => Err(JournalFailure::Journal(error)),
        };
        self.faults.counted(done)
    }
}
