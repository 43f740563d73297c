//! The seat of one channel, message by message. What is wanted of each step was worked out by hand from RFC 7574 (sections 3.2 to 3.10),
//! RFC 6817 (a window of two chunks at first) and this profile's times; the plans are those of a tree over seven chunks.
ghost use Rattle.std.specs.Prelude.{◌≡◌, length};

use pp_ranges::ChunkRange;
use pp_requests::Cancelled;
use pp_seat::{Claimed, Listed, Seat};
use pp_tree::{ChunkSet, Digest, Node};
use std::process::Abort;
use std::test::Fail;

// What comes, is sent or ends.
#[derive(Clone, Copy, Debug, PartialEq, Eq)]
enum Step {
    Request(u32, u32),
    Cancel(u32, u32),
    // the first chunk and the last, the delay and the moment
    Ack(u32, u32, u64, u64),
    // the next chunk, if there is one, is sent at that moment
    Data(u64),
    LetGo,
    DropBelow(u32),
    Choke,
    Unchoke,
    Taken(u64),
}

// What it answers.
#[derive(Clone, Copy, Debug, PartialEq, Eq)]
enum Answer {
    Nothing,
    Is(Listed),
    Goes(Cancelled),
    Next(Option<u32>),
    Count(u32),
}

use Answer::{Count, Goes, Is, Next, Nothing};
use Step::{Ack, Cancel, Choke, Data, DropBelow, LetGo, Request, Taken, Unchoke};

// A range of the content.
fn part(seat: &Seat, first: u32, last: u32) -> Option<ChunkRange> {
    if last >= seat.chunks() {
        return None;
    }
    ChunkRange::new(first, last)
}

fn acked(seat: &mut Seat, first: u32, last: u32, delay: u64, now: u64) -> Option<Answer> {
    if last >= seat.chunks() {
        return None;
    }
    let range = ChunkRange::new(first, last)?;
    seat.heard_ack(range, delay, now);
    Some(Nothing)
}

fn sent(seat: &mut Seat, now: u64) -> Answer {
    match seat.next() {
        Some(i) => {
            seat.said_data(i, now);
            Next(Some(i))
        }
        None => Next(None),
    }
}

fn gone(seat: &mut Seat) -> Answer {
    match seat.next() {
        Some(i) => {
            seat.let_go(i);
            Next(Some(i))
        }
        None => Next(None),
    }
}

fn made(seat: &mut Seat, step: Step) -> Option<Answer> {
    match step {
        Request(first, last) => {
            let range = part(seat, first, last)?;
            Some(Is(seat.heard_request(range)))
        }
        Cancel(first, last) => {
            let range = part(seat, first, last)?;
            Some(Goes(seat.heard_cancel(range)))
        }
        Ack(first, last, delay, now) => acked(seat, first, last, delay, now),
        Data(now) => Some(sent(seat, now)),
        LetGo => Some(gone(seat)),
        DropBelow(i) => Some(Count(seat.drop_below(i))),
        Choke => {
            seat.said_choke();
            Some(Nothing)
        }
        Unchoke => {
            seat.said_unchoke();
            Some(Nothing)
        }
        Taken(now) => {
            seat.taken(now);
            Some(Nothing)
        }
    }
}

fn keeps_to(rt: &impl Abort, seat: &mut Seat, steps: &[(Step, Answer)]) {
    for (step, want) in steps {
        assert_eq!(rt; made(seat, *step), Some(*want), "{step:?}");
    }
}

#[test]
fn serves_while_the_window_lets(rt: HostRuntime) -> Result<(), Fail> {
    let mut seat = Seat::new(rt.alloc(), 7, 1024)?;
    let steps = [
        (Request(2, 4), Is(Listed::Choked)),
        (Unchoke, Nothing),
        (Request(2, 4), Is(Listed::Choked)),
        (Choke, Nothing),
        (Unchoke, Nothing),
        (Request(2, 4), Is(Listed::Yes)),
        (Data(10), Next(Some(2))),
        (Data(11), Next(Some(3))),
        (Data(12), Next(None)),
        (Ack(2, 2, 100, 20), Nothing),
        (Data(21), Next(Some(4))),
        (Data(22), Next(None)),
        (Request(5, 6), Is(Listed::Yes)),
        (Cancel(6, 6), Goes(Cancelled::Exact)),
        (Ack(3, 4, 100, 30), Nothing),
        (Data(40), Next(Some(5))),
        (Data(41), Next(None)),
        (Request(0, 1), Is(Listed::Yes)),
        (Choke, Nothing),
        (Data(42), Next(None)),
        (Request(0, 1), Is(Listed::Choked)),
        (Unchoke, Nothing),
        (Data(43), Next(None)),
        (Request(0, 1), Is(Listed::Yes)),
        // Nothing was acknowledged for a second, the least timeout: the window is one chunk, and nothing flies.
        (Taken(1_000_040), Nothing),
        (Data(1_000_041), Next(Some(0))),
        (Data(1_000_042), Next(None)),
    ];
    keeps_to(&rt, &mut seat, &steps);
    Ok(())
}

#[test]
fn lists_64_ranges(rt: HostRuntime) -> Result<(), Fail> {
    let mut seat = Seat::new(rt.alloc(), 1 << 20, 1024)?;
    seat.begin(1024, true);
    for i in 0..64u32 {
        assert_eq!(rt;
            made(&mut seat, Request(2 * i, 2 * i)),
            Some(Is(Listed::Yes)),
            "{i}"
        );
    }
    let steps = [
        (Request(128, 128), Is(Listed::Full)),
        (Request(1, 1), Is(Listed::Yes)),
        (Request(1_000_000, 1_048_575), Is(Listed::Yes)),
        (LetGo, Next(Some(0))),
        (DropBelow(7), Count(4)),
        (Data(1), Next(Some(8))),
        // The ranges from 10 to 126 go, and 40,000 chunks of the last one.
        (DropBelow(1_040_000), Count(40_059)),
        (Data(2), Next(Some(1_040_000))),
    ];
    keeps_to(&rt, &mut seat, &steps);
    Ok(())
}

fn node(layer: u8, offset: u32) -> Node {
    Node { layer, offset }
}

fn claimed(seat: &mut Seat, first: u32, last: u32) -> Option<Claimed> {
    if last >= seat.chunks() {
        return None;
    }
    let range = ChunkRange::new(first, last)?;
    Some(seat.heard_integrity(range, Digest::new([7; 32])))
}

fn plans(seat: &Seat, i: u32, want: &[Node]) -> bool {
    i < seat.chunks() && seat.plan(i).as_slice() == want
}

fn told(seat: &mut Seat, first: u32, last: u32) {
    if last >= seat.chunks() {
        return;
    }
    if let Some(range) = ChunkRange::new(first, last) {
        seat.heard_have(range);
    }
}

#[test]
fn claims_count_once_proven(rt: HostRuntime) -> Result<(), Fail> {
    let mut seat = Seat::new(rt.alloc(), 7, 1024)?;
    assert_eq!(rt; claimed(&mut seat, 0, 3), Some(Claimed::Unproven));
    seat.prove();
    assert_eq!(rt; claimed(&mut seat, 0, 3), Some(Claimed::Yes));
    assert_eq!(rt; claimed(&mut seat, 0, 2), Some(Claimed::NotANode));
    assert_eq!(rt; claimed(&mut seat, 6, 6), Some(Claimed::Yes));
    seat.begin(1024, true);
    assert_eq!(rt; claimed(&mut seat, 6, 6), Some(Claimed::Unproven));
    Ok(())
}

#[test]
fn plans_what_was_not_told(rt: HostRuntime) -> Result<(), Fail> {
    let mut seat = Seat::new(rt.alloc(), 7, 1024)?;
    let first = [node(2, 0), node(1, 2), node(0, 6), node(1, 1), node(0, 1)];
    assert!(rt; plans(&seat, 0, &first));
    told(&mut seat, 0, 0);
    assert!(rt; plans(&seat, 1, &[]));
    assert!(rt; plans(&seat, 2, &[node(0, 3)]));
    seat.begin(1024, true);
    assert!(rt; plans(&seat, 0, &first));
    Ok(())
}

fn asked(seat: &mut Seat, first: u32, last: u32, now: u64) {
    if last >= seat.chunks() {
        return;
    }
    if let Some(range) = ChunkRange::new(first, last) {
        seat.said_request(range, now);
    }
}

#[test]
fn asks_for_one_chunk_after_an_expiry(rt: HostRuntime) -> Result<(), Fail> {
    let mut seat = Seat::new(rt.alloc(), 70, 1024)?;
    asked(&mut seat, 3, 5, 5);
    assert_eq!(rt; seat.room(), 29);
    assert_eq!(rt;
        (seat.heard_data(4, 6), seat.heard_data(4, 6)),
        (true, false)
    );
    assert_eq!(rt; (seat.expired(10_000_004), seat.room()), (None, 30));
    // One is outstanding still, and then none.
    assert_eq!(rt; (seat.expired(10_000_005), seat.room()), (Some(3), 0));
    assert_eq!(rt; (seat.expired(10_000_005), seat.room()), (Some(5), 1));
    assert_eq!(rt; seat.expired(10_000_005), None);
    asked(&mut seat, 7, 7, 10_000_005);
    assert_eq!(rt; seat.room(), 0);
    assert_eq!(rt; (seat.heard_data(7, 10_000_006), seat.room()), (true, 1));
    seat.resume();
    assert_eq!(rt; seat.room(), 32);
    Ok(())
}

// The fifth of 32 never comes.
#[test]
fn a_lost_chunk_stops_nothing(rt: HostRuntime) -> Result<(), Fail> {
    let mut seat = Seat::new(rt.alloc(), 70, 1024)?;
    asked(&mut seat, 0, 31, 5);
    for i in [0, 1, 2, 3, 5, 6] {
        assert!(rt; seat.heard_data(i, 6));
    }
    assert_eq!(rt; (seat.lost(), seat.room()), (None, 6));
    assert!(rt; seat.heard_data(7, 6));
    assert_eq!(rt; (seat.lost(), seat.lost(), seat.room()), (Some(4), None, 8));
    Ok(())
}

#[test]
fn forgets_what_it_asked_for(rt: HostRuntime) -> Result<(), Fail> {
    let mut seat = Seat::new(rt.alloc(), 70, 1024)?;
    asked(&mut seat, 0, 40, 0);
    assert_eq!(rt; seat.room(), 0);
    assert!(rt; seat.awaits(31) && !seat.awaits(32));
    seat.said_cancel(1);
    assert_eq!(rt; (seat.room(), seat.awaited().len()), (1, 31));
    seat.heard_choke();
    assert!(rt; !seat.may_ask());
    assert_eq!(rt; seat.room(), 32);
    asked(&mut seat, 40, 41, 0);
    assert_eq!(rt; seat.room(), 30);
    seat.forget_requests();
    assert_eq!(rt; seat.room(), 32);
    seat.heard_unchoke();
    assert!(rt; seat.may_ask());
    Ok(())
}

// The next range that is told of, if there is one.
fn tells(seat: &mut Seat, committed: &ChunkSet) -> Option<(u32, u32)>
    requires { length committed.now ≡ seat.old.told.chunks }
    ensures { seat.new.told.chunks ≡ seat.old.told.chunks }
{
    let range = seat.next_have(committed)?;
    seat.said_have(range);
    Some((range.first(), range.last()))
}

#[test]
fn tells_of_ranges_once(rt: HostRuntime) -> Result<(), Fail> {
    let mut seat = Seat::new(rt.alloc(), 7, 1024)?;
    let mut committed = ChunkSet::none(rt.alloc(), 7)?;
    committed.insert(0);
    committed.insert(1);
    committed.insert(2);
    committed.insert(5);
    assert_eq!(rt; tells(&mut seat, &committed), Some((0, 2)));
    assert_eq!(rt; tells(&mut seat, &committed), Some((5, 5)));
    assert_eq!(rt; tells(&mut seat, &committed), None);
    committed.insert(3);
    committed.insert(6);
    assert_eq!(rt; tells(&mut seat, &committed), Some((6, 6)));
    assert_eq!(rt; tells(&mut seat, &committed), None);
    seat.rewind(1);
    assert_eq!(rt; tells(&mut seat, &committed), Some((1, 3)));
    assert_eq!(rt; seat.cursor(), 4);
    Ok(())
}

#[test]
fn exchanges_addresses_at_times(rt: HostRuntime) -> Result<(), Fail> {
    let mut seat = Seat::new(rt.alloc(), 7, 1024)?;
    assert!(rt; seat.may_answer(0) && seat.may_question(0) && !seat.is_awaited(0));
    seat.said_addresses(100);
    assert!(rt; !seat.may_answer(10_000_099) && seat.may_answer(10_000_100));
    seat.said_question(100);
    assert!(rt; !seat.may_question(60_000_099) && seat.may_question(60_000_100));
    assert!(rt;
        seat.is_awaited(100) && seat.is_awaited(10_000_100) && !seat.is_awaited(10_000_101)
    );
    Ok(())
}
