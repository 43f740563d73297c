//! What is due on a channel, with the notes worked out by hand from RFC 7574 (sections 3.2 to 3.12).
ghost use Rattle.std.specs.Prelude.{◌≡◌, ◌≤◌, length, IfOk};

use pp_agenda::{Agenda, Due};
use pp_draft::Note;
use pp_news::Acknowledgement;
use pp_outside::Address;
use pp_ranges::{ChunkRange, RangeList};
use pp_seat::Seat;
use pp_tree::ChunkSet;
use std::alloc::Global;
use std::test::Fail;

fn range(first: u32, last: u32) -> ChunkRange
    requires { first ≤ last }
    ensures { result ≡ record { first = first; last = last } }
{
    match ChunkRange::new(first, last) {
        Some(range) => range,
        None => ChunkRange::default(),
    }
}

fn have(first: u32, last: u32) -> Note
    requires { first ≤ last }
{
    Note::Have {
        range: range(first, last),
    }
}

// Of ten chunks 0 to 2, 5, 6 and 9.
fn some(alloc: Global) -> Result<ChunkSet, Fail>
    ensures { IfOk result (λ set. length set ≡ 10) }
{
    let mut set = ChunkSet::none(alloc, 10)?;
    set.insert(0);
    set.insert(1);
    set.insert(2);
    set.insert(5);
    set.insert(6);
    set.insert(9);
    Ok(set)
}

// A channel with a slot, whose other peer isn't proven.
fn opened(alloc: Global, chunks: u32) -> Result<Seat, Fail>
    requires some { 1 ≤ chunks }
    requires few { chunks ≤ 1_000 }
    ensures { IfOk result (λ seat. seat.told.chunks ≡ chunks) }
{
    let mut seat = Seat::new(alloc, chunks, 1024)?;
    seat.begin(1024, true);
    Ok(seat)
}

// Chunks were told of.
fn told(seat: &mut Seat, range: ChunkRange)
    ensures { seat.new.told.chunks ≡ seat.old.told.chunks }
{
    if range.last() < seat.chunks() {
        seat.said_have(range);
    }
}

// Chunks were asked for.
fn asked(seat: &mut Seat, range: ChunkRange)
    ensures { seat.new.told.chunks ≡ seat.old.told.chunks }
{
    if range.last() < seat.chunks() {
        seat.said_request(range, 7);
    }
}

// Fills an agenda, if it has room. The tests need little of what this call does.
fn fills(agenda: &mut Agenda, seat: &Seat, due: &Due<'_>) -> bool
    requires { length due.now.committed.now ≡ seat.now.told.chunks }
{
    let fits = due.acknowledgements.len() <= 614
        && due.news.len() <= 307
        && due.addresses.len() <= 16;
    if fits {
        agenda.fill(seat, due);
    }
    fits
}

// Whether these notes are due and no others.
fn are_due(agenda: &mut Agenda, seat: &Seat, due: &Due<'_>, want: &[Note]) -> bool
    requires { length due.now.committed.now ≡ seat.now.told.chunks }
{
    fills(agenda, seat, due) && agenda.notes() == want
}

// How many notes are due, if the last are these.
fn end_with(agenda: &mut Agenda, seat: &Seat, due: &Due<'_>, want: &[Note]) -> Option<usize>
    requires { length due.now.committed.now ≡ seat.now.told.chunks }
{
    if !fills(agenda, seat, due) || !agenda.notes().ends_with(want) {
        return None;
    }
    Some(agenda.notes().len())
}

// What is due before the other peer is proven.
fn are_due_at_first(agenda: &mut Agenda, seat: &Seat, due: &Due<'_>) -> bool
    requires { length due.now.committed.now ≡ seat.now.told.chunks }
{
    let want = [Note::Choke, have(2, 2), have(5, 6), have(9, 9)];
    are_due(agenda, seat, due, &want)
}

// What is due once it is.
fn are_all_due(agenda: &mut Agenda, seat: &Seat, due: &Due<'_>) -> bool
    requires { length due.now.committed.now ≡ seat.now.told.chunks }
{
    let want = [
        Note::Choke,
        Note::Ack {
            range: range(0, 2),
            delay: 30,
        },
        have(0, 0),
        have(1, 1),
        have(2, 2),
        have(5, 6),
        have(9, 9),
        Note::Request { range: range(7, 8) },
        Note::Cancel { range: range(5, 6) },
        Note::PexReq,
        Note::Pex4 {
            address: [10, 0, 0, 2],
            port: 7000,
        },
        Note::Pex6 {
            address: [1; 16],
            port: 7001,
        },
    ];
    are_due(agenda, seat, due, &want)
}

// All is due on a channel that isn't proven at first. Whether it comes in its order, before and after.
fn all_kinds(seat: &mut Seat, set: &ChunkSet, agenda: &mut Agenda) -> [bool; 2]
    requires { length set.now ≡ seat.old.told.chunks }
{
    let mut requests = RangeList::new();
    let _ = requests.insert(range(7, 8));
    let due = Due {
        committed: set,
        tells: true,
        acknowledgements: &[Acknowledgement {
            range: range(0, 2),
            delay: 30,
        }],
        news: &[range(0, 0), range(1, 2), range(5, 6)],
        requests: &requests,
        asks_addresses: true,
        addresses: &[Address::V4([10, 0, 0, 2], 7000), Address::V6([1; 16], 7001)],
        is_silent: true,
    };
    let first = are_due_at_first(agenda, seat, &due);
    seat.prove();
    [first, are_all_due(agenda, seat, &due)]
}

// The slot is to go, chunks 0 and 1 were told of, and 4 to 6 are awaited.
#[test]
fn all_kinds_stand_in_their_order(rt: HostRuntime) -> Result<(), Fail> {
    let set = some(rt.alloc())?;
    let mut seat = opened(rt.alloc(), 10)?;
    seat.turn();
    told(&mut seat, range(0, 1));
    asked(&mut seat, range(4, 6));
    let mut agenda = Agenda::new(rt.alloc())?;
    assert_eq!(rt; all_kinds(&mut seat, &set, &mut agenda), [true; 2]);
    Ok(())
}

// Nothing is to be said of these chunks.
fn nothing<'a>(committed: &'a ChunkSet, requests: &'a RangeList) -> Due<'a>
    ensures { result.committed.now ≡ committed.now }
{
    Due {
        committed,
        tells: false,
        acknowledgements: &[],
        news: &[],
        requests,
        asks_addresses: false,
        addresses: &[],
        is_silent: true,
    }
}

// Nothing is to be said: whether nothing is before it may be told that this peer is alive, that alone then and on a proven
// channel, and nothing where something was said.
fn silences(seat: &mut Seat, set: &ChunkSet, agenda: &mut Agenda) -> [bool; 4]
    requires { length set.now ≡ seat.old.told.chunks }
    ensures { seat.new.told.chunks ≡ seat.old.told.chunks }
{
    let requests = RangeList::new();
    let mut due = nothing(set, &requests);
    let first = are_due(agenda, seat, &due, &[]);
    due.tells = true;
    let telling = are_due(agenda, seat, &due, &[Note::KeepAlive]);
    seat.prove();
    due.tells = false;
    let proven = are_due(agenda, seat, &due, &[Note::KeepAlive]);
    due.is_silent = false;
    [first, telling, proven, are_due(agenda, seat, &due, &[])]
}

// The slot comes back. Whether this alone is said.
fn unchokes(seat: &mut Seat, set: &ChunkSet, agenda: &mut Agenda) -> bool
    requires { length set.now ≡ seat.old.told.chunks }
{
    let requests = RangeList::new();
    let mut due = nothing(set, &requests);
    due.is_silent = false;
    seat.said_choke();
    seat.turn();
    are_due(agenda, seat, &due, &[Note::Unchoke])
}

#[test]
fn nothing_to_say_is_silence_or_alive(rt: HostRuntime) -> Result<(), Fail> {
    let set = ChunkSet::none(rt.alloc(), 10)?;
    let mut seat = opened(rt.alloc(), 10)?;
    let mut agenda = Agenda::new(rt.alloc())?;
    let silences = silences(&mut seat, &set, &mut agenda);
    let unchokes = unchokes(&mut seat, &set, &mut agenda);
    assert_eq!(rt; (silences, unchokes), ([true; 4], true));
    Ok(())
}

// How many notes are due at first, and once those were said, where the last are as they should be.
fn rows(seat: &mut Seat, set: &ChunkSet, agenda: &mut Agenda) -> [Option<usize>; 2]
    requires { length set.now ≡ seat.old.told.chunks }
{
    let requests = RangeList::new();
    let mut due = nothing(set, &requests);
    due.tells = true;
    due.is_silent = false;
    let last = [have(122, 122), have(124, 124), have(126, 126)];
    let first = end_with(agenda, seat, &due, &last);
    told(seat, range(0, 126));
    let last = [have(136, 136), have(138, 138)];
    [first, end_with(agenda, seat, &due, &last)]
}

// Every other chunk of 140.
#[test]
fn rows_are_told_of_64_at_a_time(rt: HostRuntime) -> Result<(), Fail> {
    let mut set = ChunkSet::none(rt.alloc(), 140)?;
    for i in 0..70u32 {
        set.insert(2 * i);
    }
    let mut seat = opened(rt.alloc(), 140)?;
    let mut agenda = Agenda::new(rt.alloc())?;
    let rows = rows(&mut seat, &set, &mut agenda);
    assert_eq!(rt; rows, [Some(64), Some(6)]);
    Ok(())
}
