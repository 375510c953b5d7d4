//! Connections that are served one after the other: what the next one sees, and what the cache has counted.
ghost use Rattle.std.specs.Prelude.{IfOk, IfSome};
ghost use Rattle.session_core.specs.Desks.{AreLimits, WorksWithin};
ghost use Rattle.session_core.specs.declared.desk.TheConstants.{LIMITS};

use mail_command::{
    Desk, LIMITS, Limits, OpenFault, Outside, Role, Served, open_desk, serve_next, serve_one,
    serve_words,
};
use mail_wire::{FixedClock, MemKeeper, Octets};
use std::alloc::Global;
use std::test::Fail;
use surrogate_cache::Counts;
use test_mail::{BEGUN, JOURNAL, failing, given, keeper_of, wire_of, words_of};

const SENDS: &[u8] =
    b"HELO a\r\nMAIL FROM:<>\r\nRCPT TO:<ann@example.org>\r\nDATA\r\n\r\n.\r\nQUIT\r\n";

const TAKES_AWAY: &[u8] = b"USER ann@example.org\r\nPASS pw\r\nUIDL\r\nDELE 1\r\nQUIT\r\n";

// A session that hasn't enabled UTF-8.
const LEGACY: &[u8] = b"USER ann@example.org\r\nPASS pw\r\nUTF8\r\nSTAT\r\nLIST 1\r\nQUIT\r\n";

const LEGACY_REPLIES: &[u8] =
    b"+OK ready\r\n+OK\r\n+OK\r\n-ERR out of order\r\n+OK 1 44\r\n+OK 1 44\r\n+OK bye\r\n";

/// A connection with this input, from the desk that was kept: how it ended or why it wasn't served, what it was given, and the desk for
/// the next one.
pub fn connect(
    alloc: Global,
    role: Role,
    kept: Option<Desk>,
    input: &[u8],
    keeper: &mut MemKeeper,
) -> Result<(Result<Served, OpenFault>, Octets, Option<Desk>), Fail>
    requires { IfSome kept (WorksWithin LIMITS) }
    ensures { IfOk result (λ advance. IfSome advance.2 (WorksWithin LIMITS)) }
{
    let mut wire = wire_of(alloc, input, &[], None)?;
    let mut clock = FixedClock::new(0);
    match serve_next(alloc, role, kept, &mut wire, keeper, &mut clock) {
        Ok((served, kept)) => Ok((Ok(served), given(alloc, wire.entries())?, kept)),
        Err(fault) => Ok((Err(fault), given(alloc, wire.entries())?, None)),
    }
}

#[test]
fn a_connection_sees_what_another_program_wrote(rt: HostRuntime) -> Result<(), Fail> {
    let alloc = rt.alloc();
    let mut keeper = keeper_of(alloc, BEGUN, None)?;
    let (_, _, smtp) = connect(alloc, Role::Smtp, None, SENDS, &mut keeper)?;
    let (_, first, pop) = connect(alloc, Role::Pop, None, TAKES_AWAY, &mut keeper)?;
    let (_, _, smtp) = connect(alloc, Role::Smtp, smtp, SENDS, &mut keeper)?;
    let (_, _, _smtp) = connect(alloc, Role::Smtp, smtp, SENDS, &mut keeper)?;
    let (served, second, _pop) = connect(alloc, Role::Pop, pop, TAKES_AWAY, &mut keeper)?;
    assert!(rt; served == Ok(Served::Ended));
    for (given, listing) in [
        (first, b"1 1\r\n.\r\n+OK\r\n+OK bye\r\n".as_slice()),
        (second, b"1 2\r\n2 3\r\n.\r\n+OK\r\n+OK bye\r\n"),
    ] {
        assert!(rt; given.as_slice().ends_with(listing));
    }
    Ok(())
}

const MARKS_SEEN: &[u8] =
    b"a LOGIN ann@example.org pw\r\nb SELECT INBOX\r\nc UID STORE * FLAGS.SILENT \\Seen\r\nd LOGOUT\r\n";

const COUNTS_UNSEEN: &[u8] =
    b"a LOGIN ann@example.org pw\r\nb STATUS INBOX (MESSAGES UNSEEN)\r\nc LOGOUT\r\n";

#[test]
fn a_connection_of_imap_sees_mail_and_pop_sees_it_go(rt: HostRuntime) -> Result<(), Fail> {
    let alloc = rt.alloc();
    let mut keeper = keeper_of(alloc, JOURNAL, None)?;
    let (_, _, imap) = connect(alloc, Role::Imap, None, MARKS_SEEN, &mut keeper)?;
    let (_, _, _smtp) = connect(alloc, Role::Smtp, None, SENDS, &mut keeper)?;
    let (_, two, imap) = connect(alloc, Role::Imap, imap, COUNTS_UNSEEN, &mut keeper)?;
    let (_, _, _pop) = connect(alloc, Role::Pop, None, TAKES_AWAY, &mut keeper)?;
    let (served, one, _imap) = connect(alloc, Role::Imap, imap, COUNTS_UNSEEN, &mut keeper)?;
    assert!(rt; served == Ok(Served::Ended));
    for (given, status) in [
        (
            two,
            b"* STATUS \"INBOX\" (MESSAGES 2 UNSEEN 1)\r\nb OK done\r\n* BYE bye\r\nc OK done\r\n".as_slice(),
        ),
        (
            one,
            b"* STATUS \"INBOX\" (MESSAGES 1 UNSEEN 1)\r\nb OK done\r\n* BYE bye\r\nc OK done\r\n",
        ),
    ] {
        assert!(rt; given.as_slice().ends_with(status));
    }
    Ok(())
}

/// Whether the cache of a desk has built so many ropes, and found so many.
pub fn has_counted(kept: &Option<Desk>, built: u64, hits: u64) -> bool {
    match kept {
        Some(desk) => desk.cache.counts() == Counts { built, hits },
        None => false,
    }
}

const TELLS_SIZES: &[u8] =
    b"a LOGIN ann@example.org pw\r\nb EXAMINE INBOX\r\nc FETCH 1:* RFC822.SIZE\r\nd LOGOUT\r\n";

#[test]
fn the_next_connection_has_the_cache_of_the_last_one(rt: HostRuntime) -> Result<(), Fail> {
    let alloc = rt.alloc();
    let mut keeper = keeper_of(alloc, JOURNAL, None)?;
    let (_, first, kept) = connect(alloc, Role::Pop, None, LEGACY, &mut keeper)?;
    assert!(rt; has_counted(&kept, 1, 1));
    let (_, second, kept) = connect(alloc, Role::Pop, kept, LEGACY, &mut keeper)?;
    assert!(rt; has_counted(&kept, 1, 3));
    assert!(rt; second.as_slice() == first.as_slice());
    // Another program delivers a message, for which the desk catches up.
    let (_, _, _smtp) = connect(alloc, Role::Smtp, None, SENDS, &mut keeper)?;
    let (_, _, kept) = connect(alloc, Role::Imap, kept, TELLS_SIZES, &mut keeper)?;
    assert!(rt; has_counted(&kept, 2, 4));
    let (_, _, kept) = connect(alloc, Role::Imap, kept, TELLS_SIZES, &mut keeper)?;
    assert!(rt; has_counted(&kept, 2, 6));
    Ok(())
}

#[test]
fn after_a_fault_of_the_keeper_the_desk_is_opened_again(rt: HostRuntime) -> Result<(), Fail> {
    let alloc = rt.alloc();
    // The keeper's calls are one for the length, the reads, and what a delivery appends.
    for call in 0..9 {
        let mut keeper = keeper_of(alloc, JOURNAL, failing(call))?;
        let (served, _, kept) = connect(alloc, Role::Smtp, None, SENDS, &mut keeper)?;
        let is_told = served == Ok(Served::KeeperFault) || served == Err(OpenFault::Keeper);
        assert!(rt; is_told && kept.is_none(), "at {call}");
        let (served, given, kept) = connect(alloc, Role::Pop, None, LEGACY, &mut keeper)?;
        assert!(rt; served == Ok(Served::Ended) && kept.is_some(), "at {call}");
        assert!(rt; given.as_slice() == LEGACY_REPLIES, "at {call}");
    }
    Ok(())
}

/// How a session ends over this journal within these limits, what it was given, and the desk after it.
pub fn served_within(
    alloc: Global,
    role: Role,
    limits: Limits,
    journal: &[u8],
    input: &[u8],
) -> Result<(Served, Octets, Desk), Fail>
    requires { AreLimits limits }
{
    let mut keeper = keeper_of(alloc, journal, None)?;
    let Ok(desk) = open_desk(alloc, &mut keeper, limits) else {
        return Err(Fail::from("the journal isn't opened"));
    };
    let mut wire = wire_of(alloc, input, &[], None)?;
    let mut clock = FixedClock::new(0);
    let mut outside = Outside::new(alloc, desk, &mut wire, &mut keeper, &mut clock);
    let served = serve_one(role, &mut outside);
    let (desk, wire, _keeper, _clock) = outside.into_parts();
    Ok((served, given(alloc, wire.entries())?, desk))
}

#[test]
fn a_session_takes_no_more_than_its_limit(rt: HostRuntime) -> Result<(), Fail> {
    let two_replies = b"+OK ready\r\n+OK\r\n+OK\r\n".as_slice();
    let whole = LEGACY.len() as u64;
    for (limit, end, replies) in [
        (33, Served::Limit, two_replies),
        (whole, Served::Ended, LEGACY_REPLIES),
    ] {
        let limits = Limits {
            message_max: 25,
            session_max: limit.max(26),
            pool_blocks: 1,
            cache_entries: 1,
        };
        let (served, given, _desk) = served_within(rt.alloc(), Role::Pop, limits, JOURNAL, LEGACY)?;
        assert_eq!(rt; served, end);
        assert!(rt; given.as_slice() == replies);
    }
    Ok(())
}

#[test]
fn the_words_of_serve_are_read(rt: HostRuntime) -> Result<(), Fail> {
    for (role, port, count, said) in [
        ("pop", "110", "1", (Role::Pop, 110, 1)),
        ("smtp", "1", "1000000", (Role::Smtp, 1, 1_000_000)),
        ("pop", "65535", "20", (Role::Pop, 65535, 20)),
        ("imap", "1143", "1000", (Role::Imap, 1143, 1000)),
    ] {
        let words = words_of(rt.alloc(), &["serve", role, port, count])?;
        assert!(rt; serve_words(&words) == Some(said), "{role} {port} {count}");
    }
    Ok(())
}
