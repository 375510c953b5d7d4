//! What sessions leave in the cache of surrogates, which has the ropes of the messages that were asked for last.
ghost use Rattle.std.specs.Prelude.{◌<◌, ◌≤◌};
ghost use Rattle.session_core.specs.Desks.{AreLimits};

use crate::connections::{connect, has_counted, served_within};
use mail_command::{LIMITS, Limits, Role, Served};
use mail_wire::{Memory, Octets};
use std::alloc::Global;
use std::test::Fail;
use surrogate_cache::Counts;
use test_mail::{CAFE, journal_of, keeper_of};

// How much a cache has room for.
#[derive(Clone, Copy, Debug)]
enum Room {
    OneRope,
    OneBlock,
    All,
}

// The limits of the program, with a cache of so many blocks for so many entries.
fn limits_with(pool_blocks: u32, cache_entries: u32) -> Limits
    requires blocks { (0 < pool_blocks) × (pool_blocks ≤ 65536) }
    requires entries { 0 < cache_entries }
    ensures { AreLimits result }
{
    Limits {
        message_max: LIMITS.message_max,
        session_max: LIMITS.session_max,
        pool_blocks,
        cache_entries,
    }
}

fn limits_of(room: Room) -> Limits
    ensures { AreLimits result }
{
    match room {
        Room::OneRope => limits_with(1, 1),
        Room::OneBlock => limits_with(1, 256),
        Room::All => LIMITS,
    }
}

// What a client sends, and what it is sent then.
type Exchange = (&'static str, &'static str);

// What is sent in these exchanges, and what is given.
fn streams_of(alloc: Global, exchanges: &[Exchange]) -> Result<(Octets, Octets), Memory> {
    let mut sent = Octets::new(alloc);
    let mut given = Octets::new(alloc);
    for (said, answered) in exchanges {
        sent.push_slice(said.as_bytes())?;
        given.push_slice(answered.as_bytes())?;
    }
    Ok((sent, given))
}

// Whether a session over a journal of these messages is served so, and leaves these entries and counts.
fn leaves(
    alloc: Global,
    role: Role,
    room: Room,
    messages: &[(u8, &[u8])],
    exchanges: &[Exchange],
    left: (&[u32], Counts),
) -> Result<bool, Fail> {
    let journal = journal_of(alloc, messages)?;
    let (sent, replies) = streams_of(alloc, exchanges)?;
    let limits = limits_of(room);
    let (served, given, desk) = served_within(
        alloc,
        role,
        limits,
        journal.as_slice(),
        sent.as_slice(),
    )?;
    let (entries, counts) = left;
    let held = desk.cache.entries(alloc)?;
    Ok(
        served == Served::Ended
            && given.as_slice() == replies.as_slice()
            && held.as_slice() == entries
            && desk.cache.counts() == counts,
    )
}

const READY: Exchange = ("", "* OK IMAP4rev1 ready\r\n");

const LOGIN: Exchange = ("a LOGIN ann@example.org pw\r\n", "a OK done\r\n");

const SELECT_ONE: Exchange = (
    "s SELECT INBOX\r\n",
    "* 1 EXISTS\r\n* 0 RECENT\r\n* FLAGS (\\Answered \\Flagged \\Deleted \\Seen \\Draft)\r\n* OK [UIDVALIDITY 1] ok\r\n\
* OK [UIDNEXT 2] ok\r\n* OK [PERMANENTFLAGS (\\Answered \\Flagged \\Deleted \\Seen \\Draft)] ok\r\ns OK [READ-WRITE] done\r\n",
);

const SELECT_TWO: Exchange = (
    "s SELECT INBOX\r\n",
    "* 2 EXISTS\r\n* 0 RECENT\r\n* FLAGS (\\Answered \\Flagged \\Deleted \\Seen \\Draft)\r\n* OK [UIDVALIDITY 1] ok\r\n\
* OK [UIDNEXT 3] ok\r\n* OK [PERMANENTFLAGS (\\Answered \\Flagged \\Deleted \\Seen \\Draft)] ok\r\ns OK [READ-WRITE] done\r\n",
);

// A session that enables UTF-8 in its midst.
const ENABLING: [Exchange; 9] = [
    READY,
    LOGIN,
    SELECT_ONE,
    (
        "b FETCH 1 BODY.PEEK[]<8.10>\r\nc FETCH 1 RFC822.SIZE\r\n",
        "* 1 FETCH (BODY[]<8> {10}\r\n\r\n =?UTF-8)\r\nb OK done\r\n* 1 FETCH (RFC822.SIZE 44)\r\nc OK done\r\n",
    ),
    ("d CLOSE\r\n", "d OK done\r\n"),
    (
        "e ENABLE UTF8=ACCEPT\r\n",
        "* ENABLED UTF8=ACCEPT\r\ne OK done\r\n",
    ),
    SELECT_ONE,
    (
        "b FETCH 1 BODY.PEEK[]<8.10>\r\nf FETCH 1 RFC822.SIZE\r\n",
        "* 1 FETCH (BODY[]<8> {10}\r\n café bar)\r\nb OK done\r\n* 1 FETCH (RFC822.SIZE 25)\r\nf OK done\r\n",
    ),
    ("g LOGOUT\r\n", "* BYE bye\r\ng OK done\r\n"),
];

// One that doesn't, and takes the message out.
const CHANGING: [Exchange; 7] = [
    READY,
    LOGIN,
    SELECT_ONE,
    (
        "b FETCH 1 (BODY BODY.PEEK[HEADER.FIELDS (subject)])\r\n",
        "* 1 FETCH (BODY (\"text\" \"plain\" (\"charset\" \"us-ascii\") NIL NIL \"7bit\" 3 1) BODY[HEADER.FIELDS (SUBJECT)] {41}\r\n\
Subject:\r\n =?UTF-8?B?Y2Fmw6k=?=\r\n bar\r\n\r\n)\r\nb OK done\r\n",
    ),
    (
        "c FETCH 1 BODY[TEXT]\r\n",
        "* 1 FETCH (BODY[TEXT] {3}\r\nx\r\n FLAGS (\\Seen))\r\nc OK done\r\n",
    ),
    (
        "d STORE 1 +FLAGS (\\Deleted)\r\n",
        "* 1 FETCH (FLAGS (\\Deleted \\Seen))\r\nd OK done\r\n",
    ),
    ("e EXPUNGE\r\n", "* 1 EXPUNGE\r\ne OK done\r\n"),
];

const LISTING: [Exchange; 1] = [(
    "USER ann@example.org\r\nPASS pw\r\nUTF8\r\nSTAT\r\nLIST 1\r\nQUIT\r\n",
    "+OK ready\r\n+OK\r\n+OK\r\n-ERR out of order\r\n+OK 1 44\r\n+OK 1 44\r\n+OK bye\r\n",
)];

#[test]
fn a_small_cache_serves_the_same(rt: HostRuntime) -> Result<(), Fail> {
    let alloc = rt.alloc();
    let counts = Counts { built: 1, hits: 1 };
    let one: [(u8, &[u8]); 1] = [(0, CAFE)];
    for room in [Room::OneRope, Room::OneBlock, Room::All] {
        for (role, exchanges) in [
            (Role::Imap, ENABLING.as_slice()),
            (Role::Imap, &CHANGING),
            (Role::Pop, &LISTING),
        ] {
            let same = leaves(alloc, role, room, &one, exchanges, (&[0], counts))?;
            assert!(rt; same, "{room:?}");
        }
    }
    Ok(())
}

const SIZES: [Exchange; 5] = [READY, LOGIN, SELECT_TWO, TELLS_SIZES, TELLS_FLAGS];

const BODIES: [Exchange; 6] = [
    READY,
    LOGIN,
    SELECT_TWO,
    TELLS_SIZES,
    TELLS_BODIES,
    TELLS_FLAGS,
];

const TELLS_SIZES: Exchange = (
    "c FETCH 1:* RFC822.SIZE\r\n",
    "* 1 FETCH (RFC822.SIZE 44)\r\n* 2 FETCH (RFC822.SIZE 6)\r\nc OK done\r\n",
);

const TELLS_BODIES: Exchange = (
    "d UID FETCH 1:* (RFC822.SIZE BODY.PEEK[TEXT] ENVELOPE)\r\n",
    "* 1 FETCH (UID 1 RFC822.SIZE 44 BODY[TEXT] {3}\r\nx\r\n ENVELOPE (NIL \"=?UTF-8?B?Y2Fmw6k=?= bar\" NIL NIL NIL NIL NIL NIL NIL NIL))\r\n\
* 2 FETCH (UID 2 RFC822.SIZE 6 BODY[TEXT] {0}\r\n ENVELOPE (NIL NIL NIL NIL NIL NIL NIL NIL NIL NIL))\r\nd OK done\r\n",
);

const TELLS_FLAGS: Exchange = (
    "e FETCH 1:* (FLAGS UID INTERNALDATE)\r\n",
    "* 1 FETCH (FLAGS () UID 1 INTERNALDATE \"01-Jan-1970 00:00:00 +0000\")\r\n\
* 2 FETCH (FLAGS () UID 2 INTERNALDATE \"01-Jan-1970 00:00:00 +0000\")\r\ne OK done\r\n",
);

#[test]
fn each_message_that_is_told_is_asked_for_once(rt: HostRuntime) -> Result<(), Fail> {
    let two: [(u8, &[u8]); 2] = [(0, CAFE), (0, b"A: 1\r\n")];
    for (room, exchanges, entries, built, hits) in [
        (Room::All, SIZES.as_slice(), [1, 0].as_slice(), 2, 0),
        (Room::All, &BODIES, &[1, 0], 2, 2),
        (Room::OneRope, &SIZES, &[1], 2, 0),
        (Room::OneRope, &BODIES, &[1], 4, 0),
    ] {
        let left = (entries, Counts { built, hits });
        let once = leaves(rt.alloc(), Role::Imap, room, &two, exchanges, left)?;
        assert!(rt; once, "{room:?} {built}");
    }
    Ok(())
}

const RETRIEVES: &[u8] = b"USER ann@example.org\r\nPASS pw\r\nSTAT\r\nLIST\r\nRETR 1\r\n";

const ENABLED: &[u8] =
    b"UTF8\r\nUSER ann@example.org\r\nPASS pw\r\nSTAT\r\nLIST\r\nRETR 1\r\nTOP 1 0\r\nQUIT\r\n";

const REFUSED: &[u8] =
    b"USER ann@example.org\r\nPASS pw\r\nRETR 3\r\nLIST x\r\nTOP 1\r\nUIDL\r\nDELE 1\r\nRETR 1\r\nNOOP\r\nRSET\r\nQUIT\r\n";

#[test]
fn what_is_not_shown_is_not_asked_for(rt: HostRuntime) -> Result<(), Fail> {
    let alloc = rt.alloc();
    let journal = journal_of(alloc, &[(0, CAFE), (0, CAFE)])?;
    let mut keeper = keeper_of(alloc, journal.as_slice(), None)?;
    let (_, _, kept) = connect(alloc, Role::Pop, None, RETRIEVES, &mut keeper)?;
    assert!(rt; has_counted(&kept, 2, 3));
    // An enabled session asks for nothing, what is refused neither, nor do other commands.
    let (_, _, kept) = connect(alloc, Role::Pop, kept, ENABLED, &mut keeper)?;
    assert!(rt; has_counted(&kept, 2, 3));
    let (_, _, kept) = connect(alloc, Role::Pop, kept, REFUSED, &mut keeper)?;
    assert!(rt; has_counted(&kept, 2, 3));
    Ok(())
}
