// What was asked for, on both sides, and the slots of those that are not choked.
use pp_ranges::ChunkRange;
use pp_requests::{Asked, Cancelled, Requests, Slots};
use std::test::*;

// A chunk is asked for at a moment.
fn ask(asked: &mut Asked, chunk: u32, moment: u64) {
    if asked.room() > 0 && !asked.contains(chunk) {
        asked.ask(chunk, moment);
    }
}

// So many chunks from one on are asked for at a moment.
fn ask_row(asked: &mut Asked, first: u32, count: u32, moment: u64) {
    for i in 0..count {
        ask(asked, first.saturating_add(i), moment);
    }
}

// Chunks 100, 99, .. are asked for at moments 0 and 1 in turn. Whether these are all for which there is room.
fn asks_for_32(asked: &mut Asked) -> bool {
    for i in 0..32u32 {
        ask(asked, 100 - i, u64::from(i % 2));
    }
    asked.room() == 0 && asked.entries().len() == 32
}

fn first_of(asked: &Asked) -> Option<u32> {
    match asked.entries() {
        [first, ..] => Some(first.chunk),
        [] => None,
    }
}

// What expires in turn. Those asked for at moment 0 have even numbers.
fn expired(asked: &mut Asked) -> [Option<u32>; 4] {
    [
        asked.expired(9_999_999),
        asked.expired(10_000_000),
        asked.expired(10_000_000),
        asked.expired(10_000_001),
    ]
}

// Whether a chunk can be withdrawn once.
fn withdraws_once(asked: &mut Asked) -> bool {
    asked.withdraw(100) && !asked.withdraw(100) && !asked.contains(100) && asked.room() == 4
}

fn clears(asked: &mut Asked) -> bool {
    asked.clear();
    asked.room() == 32 && !asked.contains(71)
}

#[test]
fn asks_for_32_chunks(rt: HostRuntime) {
    let mut asked = Asked::new();
    assert!(rt; asks_for_32(&mut asked) && first_of(&asked) == Some(69));
    assert!(rt; expired(&mut asked) == [None, Some(70), Some(72), Some(69)]);
    assert!(rt; withdraws_once(&mut asked) && clears(&mut asked));
}

// Chunks come at a moment: whether each was asked for.
fn come(asked: &mut Asked, chunks: &[u64], moment: u64) -> bool {
    for i in chunks {
        if !asked.came(*i, moment) {
            return false;
        }
    }
    true
}

// All but the fifth come. Once three of greater numbers did it is lost, and once.
fn loses_the_fifth(asked: &mut Asked) -> bool {
    come(asked, &[0, 1, 2, 3, 5, 6], 7)
        && asked.lost().is_none()
        && come(asked, &[7], 7)
        && asked.lost() == Some(4)
        && asked.lost().is_none()
        && !asked.came(4, 8)
}

#[test]
fn three_overtake(rt: HostRuntime) {
    let mut asked = Asked::new();
    ask_row(&mut asked, 0, 32, 5);
    assert!(rt; loses_the_fifth(&mut asked));
}

// Chunks 4 to 6 were asked for later than chunk 9, and chunks 20 to 22 later than those.
fn loses_none(asked: &mut Asked) -> bool {
    ask_row(asked, 9, 1, 5);
    ask_row(asked, 4, 3, 6);
    let come_first = come(asked, &[4, 5, 6, 9], 7);
    ask_row(asked, 20, 3, 8);
    ask_row(asked, 2, 1, 9);
    come_first && come(asked, &[20, 21, 22], 10) && asked.lost().is_none() && asked.contains(2)
}

#[test]
fn lesser_and_earlier_ones_overtake_nothing(rt: HostRuntime) {
    assert!(rt; loses_none(&mut Asked::new()));
}

// Answers after ten seconds, and such as come when their requests were taken for lost, overtake nothing.
fn loses_none_by_late_ones(asked: &mut Asked) -> bool {
    ask_row(asked, 0, 6, 5);
    let come_late = come(asked, &[3, 4, 5], 10_000_005) && asked.lost().is_none();
    ask_row(asked, 10, 4, 10_000_005);
    come_late
        && come(asked, &[11, 12, 13], 10_000_006)
        && come(asked, &[10], 10_000_006)
        && asked.lost() == Some(0)
}

#[test]
fn late_ones_overtake_nothing(rt: HostRuntime) {
    assert!(rt; loses_none_by_late_ones(&mut Asked::new()));
}

// Whether a seat without a slot is granted one.
fn grants(slots: &mut Slots, seat: u8, now: u64) -> bool {
    seat < 64 && !slots.has(seat) && slots.grant(seat, now)
}

// Whether a seat has no slot and is granted none, so that it waits.
fn waits(slots: &mut Slots, seat: u8, now: u64) -> bool {
    if seat >= 64 || slots.has(seat) || slots.grant(seat, now) {
        return false;
    }
    slots.wait(seat, now);
    true
}

// Seats 20 to 27 have the slots, the first two since moment 5.
fn grant_all(slots: &mut Slots) -> bool {
    for seat in 20..28u8 {
        if !grants(slots, seat, u64::from(seat / 22 * 10 + 5)) {
            return false;
        }
    }
    slots.due(40_000_000).is_none()
}

// Seat 4 waits since moment 1, as it says later.
fn all_wait(slots: &mut Slots) -> bool {
    waits(slots, 9, 7)
        && waits(slots, 4, 7)
        && waits(slots, 63, 8)
        && waits(slots, 4, 1)
        && slots.first_waiting() == Some(4)
}

// Seat 20 goes after thirty seconds, and so does seat 4, which waited for its slot. Seat 63 has it then.
fn turns(slots: &mut Slots) -> bool {
    let due = slots.due(29_999_999).is_none() && slots.due(30_000_000) == Some((20, 4));
    slots.release(4);
    slots.release(20);
    due && slots.due(30_000_000).is_none() && grants(slots, 63, 31_000_000)
}

// The next turn comes thirty seconds after this one, and is seat 9's, unless that goes.
fn turns_again(slots: &mut Slots) -> bool {
    slots.turned(31_000_000);
    let due = slots.due(60_999_999).is_none() && slots.due(61_000_000) == Some((21, 9));
    slots.release(9);
    due && slots.first_waiting().is_none()
}

#[test]
fn turns_the_slots(rt: HostRuntime) {
    let mut slots = Slots::new();
    assert!(rt; grant_all(&mut slots));
    assert!(rt; all_wait(&mut slots));
    assert!(rt; turns(&mut slots));
    assert!(rt; turns_again(&mut slots));
}

// Whether there is room for a range.
fn request(requests: &mut Requests, first: u32, last: u32) -> bool {
    match ChunkRange::new(first, last) {
        Some(range) => requests.request(range).is_ok(),
        None => false,
    }
}

// So many even numbers from one on are requested, each as a range.
fn request_evens(requests: &mut Requests, first: u32, count: u32) -> bool {
    for i in 0..count {
        let number = first.saturating_add(i.saturating_mul(2));
        if !request(requests, number, number) {
            return false;
        }
    }
    true
}

// Whether these are taken in turn, each of which is peeked at before.
fn takes(requests: &mut Requests, numbers: &[u32]) -> bool {
    for number in numbers {
        if requests.peek() != Some(*number) || requests.take() != Some(*number) {
            return false;
        }
    }
    true
}

// There are the even numbers from 0 to 126.
fn has_no_room(requests: &mut Requests) -> bool {
    requests.peek().is_none()
        && request_evens(requests, 0, 64)
        && !request(requests, 128, 128)
        && !requests.contains(128)
        && requests.contains(126)
}

// The number 1 joins two ranges, so that there is room for one.
fn joins_two(requests: &mut Requests) -> bool {
    request(requests, 1, 1)
        && request(requests, 128, 128)
        && !request(requests, 130, 130)
        && takes(requests, &[0, 1, 2, 4])
}

// Two numbers below 9 are left, and then all from 10 to 120, each even.
fn drops(requests: &mut Requests) -> bool {
    requests.drop_below(9) == 2
        && requests.drop_below(9) == 0
        && requests.peek() == Some(10)
        && requests.drop_below(121) == 56
        && requests.take() == Some(122)
}

fn empties(requests: &mut Requests) -> bool {
    requests.clear();
    requests.take().is_none() && requests.drop_below(u32::MAX) == 0
}

#[test]
fn takes_no_65th_range(rt: HostRuntime) {
    let mut requests = Requests::new();
    assert!(rt; has_no_room(&mut requests));
    assert!(rt; joins_two(&mut requests));
    assert!(rt; drops(&mut requests));
    assert!(rt; empties(&mut requests));
}

fn cancel(requests: &mut Requests, first: u32, last: u32) -> Option<Cancelled> {
    Some(requests.cancel(ChunkRange::new(first, last)?))
}

// Whether the even numbers from 20 to 142 are taken in turn, and then none.
fn takes_evens(requests: &mut Requests) -> bool {
    for i in 10..72u32 {
        if requests.take() != Some(2 * i) {
            return false;
        }
    }
    requests.take().is_none()
}

// Those from 0 to 10, and the even ones from 20 to 144: a hole in the first range makes a 65th.
#[test]
fn drops_a_range_where_a_hole_has_no_room(rt: HostRuntime) {
    let mut requests = Requests::new();
    assert!(rt; request(&mut requests, 0, 10) && request_evens(&mut requests, 20, 63));
    assert!(rt; cancel(&mut requests, 5, 5) == Some(Cancelled::Wide));
    assert!(rt; cancel(&mut requests, 144, 150) == Some(Cancelled::Exact));
    assert!(rt; takes_evens(&mut requests));
}
