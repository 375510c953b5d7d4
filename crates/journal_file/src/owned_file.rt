//! Regular files that are their owner's alone.
use std::fs::{self, File, Files, Metadata, OpenFile, OpenOptions, Permissions};
use std::io::{self, ErrorKind};
use std::os::unix::fs::{MetadataExt, OpenOptionsExt, PermissionsExt};

// Its owner may read and write it, and nobody else.
const OWNER_ALONE: u32 = 0o600;

// The bits of a mode that let others in, or let the file be run.
const WIDER: u32 = 0o7177;

/// Which file it is, whatever its name.
#[derive(Clone, Copy, PartialEq, Eq)]
pub struct Node {
    device: u64,
    number: u64,
}

impl Node {
    fn of(found: &Metadata) -> Node {
        Node {
            device: found.dev(),
            number: found.ino(),
        }
    }
}

fn not_regular() -> io::Error {
    io::Error::new(ErrorKind::InvalidInput, "not a regular file")
}

/// The failure of a file that isn't the one of its name any more.
pub fn replaced() -> io::Error {
    io::Error::other("replaced or removed while it was in use")
}

// Opens the file that is there.
fn open_there<F: Files<File = File>>(files: &F, path: &str) -> io::Result<File> {
    OpenOptions::new().read(true).write(true).open(files, path)
}

// Makes the file, unless something has its name.
fn make<F: Files<File = File>>(files: &F, path: &str) -> io::Result<File> {
    OpenOptions::new()
        .read(true)
        .write(true)
        .create_new(true)
        .mode(OWNER_ALONE)
        .open(files, path)
}

/// Opens the file, or makes it where it isn't there and it may be made. What isn't a regular file isn't opened, nor is what a
/// link leads to.
pub fn open_or_make<F: Files<File = File>>(
    files: &F,
    path: &str,
    may_make: bool,
) -> io::Result<File> {
    match fs::symlink_metadata(files, path) {
        Ok(found) if found.is_file() => open_there(files, path),
        Ok(_) => Err(not_regular()),
        Err(error) if may_make && error.kind() == ErrorKind::NotFound => match make(files, path) {
            // another program was first
            Err(error) if error.kind() == ErrorKind::AlreadyExists => open_there(files, path),
            made => made,
        },
        Err(error) => Err(error),
    }
}

/// The open file, which has to be the regular one of this name.
pub fn named_node<F: Files<File = File>>(files: &F, path: &str, file: &File) -> io::Result<Node> {
    let node = Node::of(&file.metadata()?);
    match fs::symlink_metadata(files, path) {
        Ok(found) if !found.is_file() => Err(not_regular()),
        Ok(found) if Node::of(&found) == node => Ok(node),
        Ok(_) => Err(replaced()),
        Err(error) if error.kind() == ErrorKind::NotFound => Err(replaced()),
        Err(error) => Err(error),
    }
}

/// Lets nobody but its owner read and write the file, where that can be had: only its owner may say so.
pub fn shut_others_out(file: &File) -> io::Result<()> {
    if file.metadata()?.permissions().mode() & WIDER != 0 {
        let _done = file.set_permissions(Permissions::from_mode(OWNER_ALONE));
    }
    Ok(())
}

// The folder that has the file.
fn folder_of(path: &str) -> &str {
    match path.rsplit_once('/') {
        Some(("", _)) => "/",
        Some((folder, _)) => folder,
        None => ".",
    }
}

/// Syncs the folder of the file, so that its name stays.
pub fn sync_name<F: Files<File = File>>(files: &F, path: &str) -> io::Result<()> {
    OpenOptions::new()
        .read(true)
        .open(files, folder_of(path))?
        .sync_all()
}
