//! Texts, words, wires and keepers, each public call once with ample memory.
use mail_wire::{
    CLOCK_END, Clock, Dial, Entry, Failed, Failure, Fault, FixedClock, Items, Keeper, MemDial,
    MemKeeper, MemServer, MemWire, Memory, Octets, StdWire, SystemClock, TableWord, WireFailure,
    Words, date_text, find_crlf, find_word, first_faulty, give_all, internal_date, is_message,
    lines, take_piece, unfold,
};
use std::alloc::Global;
use std::io::{self, ErrorKind, Read, Write};
use std::test::Fail;

// Whether this is unfolded so.
fn is_unfolded(alloc: Global, text: &[u8], wanted: &[u8]) -> Result<bool, Memory> {
    Ok(unfold(alloc, text)?.as_slice() == wanted)
}

// Whether the lines have these places and lengths.
fn has_lines(octets: &[u8], wanted: &[[usize; 2]]) -> bool {
    let mut spans = lines(octets);
    for place in wanted {
        match spans.next() {
            Some(line) => {
                if [line.at, line.len] != *place {
                    return false;
                }
            }
            None => return false,
        }
    }
    spans.next().is_none()
}

#[test]
fn unfolding_takes_the_crlf_of_folds(rt: HostRuntime) {
    assert!(rt;
        is_unfolded(rt.alloc(), b" a\r\n b\r\n\tc\r\n\r\n", b" a b\tc\r\n\r\n") == Ok(true)
            && has_lines(b"a\r\n\r\nb", &[[0, 3], [3, 2], [5, 1]])
    );
}

#[test]
fn faulty_octets_are_found(rt: HostRuntime) {
    assert!(rt; is_message(b"") && is_message(b"a\r\n\r\n") && !is_message(b"a"));
    assert!(rt;
        first_faulty(b"a\r\nb\0\r") == Some(4)
            && first_faulty(b"a\r\r\n") == Some(1)
            && first_faulty(b"\r\n\n") == Some(2)
    );
}

// Octets are looked at many at a time, so a fault stands at each place once.
const SOUND: &[u8; 70] =
    b"aaaaaaaaaaaaaaaaaaaaaaaaaaaaaaaaa\r\naaaaaaaaaaaaaaaaaaaaaaaaaaaaaaaaaaa";

// Whether a faulty octet is found at this place.
fn is_found(faulty: u8, at: usize) -> bool {
    let mut octets = *SOUND;
    if at < 70 {
        octets[at] = faulty;
    }
    first_faulty(&octets) == Some(at) && find_crlf(&octets) == Some(33)
}

#[test]
fn a_faulty_octet_is_found_at_each_place(rt: HostRuntime) {
    assert!(rt; first_faulty(SOUND).is_none() && find_crlf(SOUND) == Some(33));
    for at in 0..70 {
        if at != 33 && at != 34 {
            assert!(rt;
                is_found(0, at) && is_found(b'\r', at) && is_found(b'\n', at),
                "at {at}"
            );
        }
    }
}

// Whether two words are kept, and no more.
fn keeps_words(alloc: Global) -> Result<bool, Memory> {
    let mut words = Words::none(alloc);
    words.push("pop")?;
    words.push("é")?;
    Ok(words.get(0) == Some("pop") && words.get(1) == Some("é") && words.get(2).is_none())
}

#[test]
fn words_are_kept_in_order(rt: HostRuntime) {
    assert!(rt; keeps_words(rt.alloc()) == Ok(true));
}

// Whether a wire hands out pieces of 2 octets and then 1, and its third call fails.
fn hands_out_and_fails(wire: &mut MemWire) -> bool {
    let mut buffer = [0; 8];
    take_piece(wire, &mut buffer) == Ok(2)
        && give_all(wire, b"x") == Ok(())
        && give_all(wire, b"yz") == Err(Fault::Wire)
        && take_piece(wire, &mut buffer) == Ok(1)
        && take_piece(wire, &mut buffer) == Ok(0)
}

// Whether this is what was given.
fn was_given(alloc: Global, entries: &[Entry], wanted: &[u8]) -> Result<bool, Memory> {
    let mut given = Octets::new(alloc);
    for entry in entries {
        if let Entry::Given(octets) = entry {
            given.push_slice(octets.as_slice())?;
        }
    }
    given.push(b'.')?;
    Ok(given.as_slice() == wanted)
}

fn wire_goes_well(alloc: Global) -> Result<bool, Memory> {
    let input = Octets::from_slice(alloc, b"abc")?;
    let sizes = Vec::from_slice(alloc, &[2])?;
    let failures = Vec::from_slice(alloc, &[Failure { call: 2, kept: 1 }])?;
    let mut wire = MemWire::new(alloc, input, sizes, failures);
    Ok(hands_out_and_fails(&mut wire) && was_given(alloc, wire.entries(), b"xy.")?)
}

#[test]
fn a_wire_in_memory_hands_out_pieces_and_fails(rt: HostRuntime) {
    assert!(rt; wire_goes_well(rt.alloc()) == Ok(true));
}

// A keeper's calls, through its bound.
pub fn use_keeper<J: Keeper>(keeper: &mut J) -> Result<(), Failed> {
    keeper.append(b"yz")?;
    Ok(())
}

// Several parts by one call of a keeper, through its bound.
pub fn use_parts<J: Keeper>(keeper: &mut J) -> Result<(), Failed> {
    keeper.append_all(&[b"ab", b"", b"cde"])
}

// Whether a keeper of three octets keeps two more, and one of them when its second append fails.
fn keeps_and_fails(keeper: &mut MemKeeper) -> bool {
    let mut buffer = [0; 3];
    use_keeper(keeper) == Ok(())
        && use_keeper(keeper) == Err(Failed::Outside)
        && keeper.len() == Ok(6)
        && keeper.read_at(2, &mut buffer) == Ok(())
        && buffer == *b"cyz"
        && keeper.cut(4) == Ok(())
        && keeper.octets() == b"abcy".as_slice()
}

fn keeper_goes_well(alloc: Global) -> Result<bool, Memory> {
    let octets = Octets::from_slice(alloc, b"abc")?;
    let failures = Vec::from_slice(alloc, &[Failure { call: 1, kept: 1 }])?;
    Ok(keeps_and_fails(&mut MemKeeper::new(octets, failures)))
}

#[test]
fn a_keeper_in_memory_keeps_and_fails(rt: HostRuntime) {
    assert!(rt; keeper_goes_well(rt.alloc()) == Ok(true));
}

// Whether a keeper takes parts by one call, of which the second one fails.
fn takes_parts(keeper: &mut MemKeeper) -> bool {
    use_parts(keeper) == Ok(())
        && use_parts(keeper) == Err(Failed::Outside)
        && keeper.octets() == b"abcdeabc".as_slice()
}

fn parts_go_well(alloc: Global) -> Result<bool, Memory> {
    let failures = Vec::from_slice(alloc, &[Failure { call: 1, kept: 3 }])?;
    Ok(takes_parts(&mut MemKeeper::new(Octets::new(alloc), failures)))
}

#[test]
fn a_keeper_puts_several_parts_by_one_call(rt: HostRuntime) {
    assert!(rt; parts_go_well(rt.alloc()) == Ok(true));
}

// A side that always fails.
#[derive(Drop)]
struct Broken;

impl Read for Broken {
    fn read(&mut self, _into: &mut [u8]) -> io::Result<usize> {
        Err(io::Error::from(ErrorKind::ConnectionReset))
    }
}

impl Write for Broken {
    fn write(&mut self, _from: &[u8]) -> io::Result<usize> {
        Err(io::Error::from(ErrorKind::BrokenPipe))
    }

    fn flush(&mut self) -> io::Result<()> {
        Ok(())
    }
}

#[test]
fn a_wire_tells_which_side_failed(rt: HostRuntime) -> Result<(), Fail> {
    let mut wire = StdWire::new(Broken, Broken);
    assert!(rt; wire.failure().is_none());
    let mut buffer = [0; 8];
    assert_eq!(rt; take_piece(&mut wire, &mut buffer), Err(Fault::Wire));
    assert!(rt; matches!(wire.failure(), Some(WireFailure::Input(_))));
    assert_eq!(rt; give_all(&mut wire, b"x"), Err(Fault::Wire));
    assert!(rt; matches!(wire.failure(), Some(WireFailure::Output(_))));
    Ok(())
}

// A clock's reading, through its bound.
fn reading_of<C: Clock>(clock: &mut C) -> u64 {
    clock.now()
}

#[test]
fn a_fixed_clock_stands_still(rt: HostRuntime) {
    let mut clock = FixedClock::new(86_399);
    assert!(rt; reading_of(&mut clock) == 86_399 && reading_of(&mut clock) == 86_399);
}

#[test]
fn the_systems_clock_tells_a_moment(rt: HostRuntime) -> Result<(), Fail> {
    let mut clock = SystemClock::new(rt);
    assert!(rt; reading_of(&mut clock) < CLOCK_END);
    Ok(())
}

#[test]
fn a_moment_has_its_texts(rt: HostRuntime) -> Result<(), Fail> {
    let alloc = rt.alloc();
    assert!(rt; date_text(alloc, 0)?.as_slice() == b"Thu, 01 Jan 1970 00:00:00 +0000".as_slice());
    assert!(rt; internal_date(alloc, 0)?.as_slice() == b"01-Jan-1970 00:00:00 +0000".as_slice());
    let last = CLOCK_END - 1;
    assert!(rt;
        date_text(alloc, last)?.as_slice() == b"Fri, 31 Dec 9999 23:59:59 +0000".as_slice()
    );
    assert!(rt; internal_date(alloc, last)?.as_slice() == b"31-Dec-9999 23:59:59 +0000".as_slice());
    Ok(())
}

#[test]
fn octets_are_cut_back_to_their_first(rt: HostRuntime) -> Result<(), Fail> {
    let alloc = rt.alloc();
    let mut octets = Octets::from_slice(alloc, b"abc")?;
    octets.truncate(4);
    assert!(rt; octets.as_slice() == b"abc".as_slice());
    octets.truncate(2);
    assert!(rt; octets.as_slice() == b"ab".as_slice());
    octets.push(b'd')?;
    assert!(rt; octets.as_slice() == b"abd".as_slice());
    octets.truncate(0);
    assert!(rt; octets.is_empty());
    Ok(())
}

#[test]
fn items_stand_in_their_order(rt: HostRuntime) -> Result<(), Fail> {
    let alloc = rt.alloc();
    let mut items: Items<Octets> = Items::new(alloc);
    assert!(rt; items.is_empty());
    items.push(Octets::from_slice(alloc, b"a")?)?;
    items.push(Octets::new(alloc))?;
    assert!(rt; items.len() == 2);
    assert!(rt;
        items
            .as_slice()
            .first()
            .is_some_and(|first| first.as_slice() == b"a".as_slice())
    );
    let items = Items::from_vec(items.into_vec());
    assert!(rt; items.len() == 2);
    Ok(())
}

#[test]
fn a_dial_in_memory_keeps_what_was_said_to_a_server(rt: HostRuntime) -> Result<(), Fail> {
    let alloc = rt.alloc();
    let server = MemServer {
        sends: Octets::from_slice(alloc, b"220 x\r\n")?,
        sizes: Vec::from_slice(alloc, &[3])?,
        failures: Vec::new(alloc),
    };
    let mut dial = MemDial::new(alloc, server, Vec::from_slice(alloc, &[1])?);
    let mut wire = dial.dial("mail.example.net")?;
    let mut buffer = [0; 8];
    assert_eq!(rt; take_piece(&mut wire, &mut buffer), Ok(3));
    assert_eq!(rt; give_all(&mut wire, b"QUIT\r\n"), Ok(()));
    assert!(rt; dial.entries().is_empty());
    dial.hand_back(wire);
    assert!(rt;
        matches!(dial.entries(), [Entry::Taken(taken), Entry::Given(given)]
        if taken.as_slice() == b"220".as_slice() && given.as_slice() == b"QUIT\r\n".as_slice())
    );

    // The second call fails, and the third reaches such a server again.
    assert!(rt; matches!(dial.dial("mail.example.org"), Err(Failed::Outside)));
    assert_eq!(rt; dial.entries().len(), 2);
    let again = dial.dial("")?;
    dial.hand_back(again);
    assert!(rt; dial.entries().is_empty());
    for (at, host) in ["mail.example.net", "mail.example.org", ""]
        .iter()
        .enumerate()
    {
        assert!(rt; dial.asked().get(at).is_some_and(|asked| asked == *host));
    }
    assert!(rt; dial.asked().get(3).is_none());
    Ok(())
}

#[test]
fn words_of_a_table_are_found_in_any_case(rt: HostRuntime) -> Result<(), Fail> {
    let table = [TableWord(b"one", 1u8), TableWord(b"two", 2)];
    assert_eq!(rt; find_word(&table, b"TwO"), Some(2));
    assert_eq!(rt; find_word(&table, b"tw"), None);
    Ok(())
}
