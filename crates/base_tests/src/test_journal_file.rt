//! The keeper over a file.
use crate::test_mail_wire::{use_keeper, use_parts};
use journal_file::{FileKeeper, JournalFailure};
use mail_wire::{Failed, Keeper};
use std::fs::{self, OpenOptions};
use std::io::ErrorKind;
use std::os::unix::fs::{PermissionsExt, symlink};
use std::test::Fail;

#[test]
fn a_file_takes_several_parts_by_one_call(rt: HostRuntime) {
    let mut keeper = FileKeeper::new(rt, "parts", "parts.cut");
    let mut buffer = [0; 7];
    assert!(rt;
        use_keeper(&mut keeper) == Ok(())
            && use_parts(&mut keeper) == Ok(())
            && keeper.read_at(0, &mut buffer) == Ok(())
            && buffer == *b"yzabcde"
            && keeper.len() == Ok(7)
    );
}

// What failed last, where it was the journal that did.
fn journal_failure(keeper: &FileKeeper<HostRuntime>) -> Option<ErrorKind> {
    match keeper.failure() {
        Some(JournalFailure::Journal(error)) => Some(error.kind()),
        Some(JournalFailure::Cut(_)) | None => None,
    }
}

// What failed last, where it was the file of what is cut.
fn cut_failure(keeper: &FileKeeper<HostRuntime>) -> Option<ErrorKind> {
    match keeper.failure() {
        Some(JournalFailure::Cut(error)) => Some(error.kind()),
        Some(JournalFailure::Journal(_)) | None => None,
    }
}

#[test]
fn a_keeper_over_a_file_keeps_and_counts(rt: HostRuntime) -> Result<(), Fail> {
    let mut keeper = FileKeeper::new(rt, "journal", "journal.cut");
    assert_eq!(rt; keeper.len(), Ok(0));
    assert_eq!(rt; use_keeper(&mut keeper), Ok(()));
    assert_eq!(rt; keeper.append(b"abc"), Ok(()));
    let mut buffer = [0; 3];
    assert_eq!(rt; keeper.read_at(1, &mut buffer), Ok(()));
    assert_eq!(rt; buffer, *b"zab");
    assert_eq!(rt; keeper.cut(3), Ok(()));
    assert!(rt; keeper.failure().is_none());
    assert_eq!(rt; keeper.read_at(1, &mut buffer), Err(Failed::Outside));
    assert_eq!(rt; journal_failure(&keeper), Some(ErrorKind::UnexpectedEof));
    Ok(())
}

#[test]
fn a_file_that_cannot_be_opened_is_told(rt: HostRuntime) -> Result<(), Fail> {
    let mut keeper = FileKeeper::new(rt, "none/journal", "none/journal.cut");
    assert_eq!(rt; keeper.len(), Err(Failed::Outside));
    assert_eq!(rt; journal_failure(&keeper), Some(ErrorKind::NotFound));
    Ok(())
}

// Whether another open of the file has its lock.
fn is_locked(rt: &HostRuntime) -> Result<bool, Fail> {
    let file = OpenOptions::new().read(true).open(rt, "locked")?;
    Ok(file.try_lock().is_err())
}

#[test]
fn a_keeper_has_its_file_alone_until_it_is_released(rt: HostRuntime) -> Result<(), Fail> {
    let mut keeper = FileKeeper::new(rt, "locked", "locked.cut");
    assert_eq!(rt; keeper.len(), Ok(0));
    assert!(rt; is_locked(&rt)?);
    keeper.release();
    assert!(rt; !is_locked(&rt)?);
    assert_eq!(rt; keeper.append(b"abc"), Ok(()));
    assert!(rt; is_locked(&rt)?);
    Ok(())
}

#[test]
fn what_is_cut_is_kept_and_counted(rt: HostRuntime) -> Result<(), Fail> {
    let mut keeper = FileKeeper::new(rt, "cut", "cut.cut");
    assert_eq!(rt; keeper.append(b"abcdefg"), Ok(()));
    assert_eq!(rt; keeper.take_cut_octets(), 0);
    assert_eq!(rt; keeper.cut(5), Ok(()));
    assert_eq!(rt; keeper.cut(2), Ok(()));
    assert_eq!(rt; keeper.take_cut_octets(), 5);
    assert_eq!(rt; keeper.take_cut_octets(), 0);
    assert_eq!(rt; fs::read_to_string(&rt, "cut")?.as_str(), "ab");
    assert_eq!(rt; fs::read_to_string(&rt, "cut.cut")?.as_str(), "fgcde");
    Ok(())
}

#[test]
fn what_cannot_be_kept_is_not_cut(rt: HostRuntime) -> Result<(), Fail> {
    let mut keeper = FileKeeper::new(rt, "uncut", "none/uncut.cut");
    assert_eq!(rt; keeper.append(b"abc"), Ok(()));
    assert_eq!(rt; keeper.cut(1), Err(Failed::Outside));
    assert_eq!(rt; cut_failure(&keeper), Some(ErrorKind::NotFound));
    assert_eq!(rt; keeper.len(), Ok(3));
    assert_eq!(rt; keeper.take_cut_octets(), 0);
    Ok(())
}

#[test]
fn a_new_file_is_its_owners_alone(rt: HostRuntime) -> Result<(), Fail> {
    let mut keeper = FileKeeper::new(rt, "alone", "alone.cut");
    assert_eq!(rt; keeper.append(b"abc"), Ok(()));
    assert_eq!(rt; keeper.cut(1), Ok(()));
    for path in ["alone", "alone.cut"] {
        let mode = fs::metadata(&rt, path)?.permissions().mode();
        assert_eq!(rt; mode & 0o7777, 0o600);
    }
    Ok(())
}

#[test]
fn what_is_no_regular_file_is_refused(rt: HostRuntime) -> Result<(), Fail> {
    fs::write(&rt, "other", "abc")?;
    symlink(&rt, "other", "link")?;
    fs::create_dir(&rt, "folder")?;
    for path in ["link", "folder"] {
        let mut keeper = FileKeeper::new(rt, path, "cut");
        assert_eq!(rt; keeper.append(b"d"), Err(Failed::Outside));
        assert_eq!(rt; journal_failure(&keeper), Some(ErrorKind::InvalidInput));
    }
    assert_eq!(rt; fs::read_to_string(&rt, "other")?.as_str(), "abc");
    Ok(())
}

#[test]
fn a_file_that_was_replaced_takes_nothing(rt: HostRuntime) -> Result<(), Fail> {
    let mut keeper = FileKeeper::new(rt, "replaced", "replaced.cut");
    assert_eq!(rt; keeper.append(b"abc"), Ok(()));
    fs::write(&rt, "new", "xyz")?;
    fs::rename(&rt, "new", "replaced")?;
    assert_eq!(rt; keeper.append(b"d"), Err(Failed::Outside));
    assert_eq!(rt; keeper.cut(1), Err(Failed::Outside));
    assert_eq!(rt; journal_failure(&keeper), Some(ErrorKind::Other));
    keeper.release();
    // it says so once more, and then works on the file that is there
    assert_eq!(rt; keeper.len(), Err(Failed::Outside));
    assert_eq!(rt; keeper.append(b"d"), Ok(()));
    assert_eq!(rt; fs::read_to_string(&rt, "replaced")?.as_str(), "xyzd");
    Ok(())
}

#[test]
fn a_file_that_has_gone_is_not_made_again(rt: HostRuntime) -> Result<(), Fail> {
    let mut keeper = FileKeeper::new(rt, "gone", "gone.cut");
    assert_eq!(rt; keeper.append(b"abc"), Ok(()));
    keeper.release();
    fs::remove_file(&rt, "gone")?;
    assert_eq!(rt; keeper.append(b"d"), Err(Failed::Outside));
    assert_eq!(rt; journal_failure(&keeper), Some(ErrorKind::NotFound));
    assert!(rt; !fs::exists(&rt, "gone")?);
    Ok(())
}
