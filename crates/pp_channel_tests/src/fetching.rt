//! Which chunks are asked for, of whom. There are eight, of which chunk 1 is held. Seat 3 offers all, seat 5 the first four, and seat 9
//! chunk 2. What is wanted was worked out by hand.
use pp_avail::{Rank, Ranker};
use pp_fetching::Fetching;
use pp_ranges::{ChunkRange, RangeList};
use pp_seat::Seat;
use pp_tree::ChunkSet;
use std::alloc::Global;
use std::test::Fail;

fn offer(fetching: &mut Fetching, seat: u8, first: u32, last: u32) {
    if let Some(range) = ChunkRange::new(first, last)
        && seat < 64
        && last < fetching.chunks()
    {
        fetching.offer(seat, range);
    }
}

fn offered(alloc: Global) -> Result<Fetching, Fail> {
    let mut held = ChunkSet::none(alloc, 8)?;
    held.insert(1);
    let mut fetching = Fetching::new(alloc, 8, &held)?;
    offer(&mut fetching, 3, 0, 7);
    offer(&mut fetching, 5, 0, 3);
    offer(&mut fetching, 9, 2, 2);
    Ok(fetching)
}

fn pick(fetching: &mut Fetching, seat: u8, room: u32, ranker: &Ranker) -> RangeList {
    if seat < 64 && room <= 32 {
        return fetching.pick(seat, room, ranker);
    }
    RangeList::new()
}

// The range of that number, by its first and last.
fn nth(picks: &RangeList, n: usize) -> Option<(u32, u32)> {
    if n >= picks.count() {
        return None;
    }
    let range = picks.range(n);
    Some((range.first(), range.last()))
}

fn is_asked(fetching: &Fetching, i: u32) -> bool {
    i < fetching.chunks() && fetching.is_asked(i)
}

// How many chunks from one on and below another are asked for.
fn asked_in(fetching: &Fetching, first: u32, end: u32) -> u32 {
    let mut count: u32 = 0;
    for i in first..end {
        count = count.saturating_add(u32::from(is_asked(fetching, i)));
    }
    count
}

// What is picked of a seat with room for so many chunks: two ranges at most.
#[derive(Clone, Copy)]
struct Case {
    seat: u8,
    room: u32,
    one: Option<(u32, u32)>,
    two: Option<(u32, u32)>,
}

// Whether it is in each case what is wanted, and is asked for then.
fn picks_as(alloc: Global, ranker: &Ranker, cases: &[Case]) -> Result<bool, Fail> {
    for case in cases {
        let mut fetching = offered(alloc)?;
        let picks = pick(&mut fetching, case.seat, case.room, ranker);
        if nth(&picks, 0) != case.one || nth(&picks, 1) != case.two || picks.count() > 2 {
            return Ok(false);
        }
        for i in 0..8 {
            if is_asked(&fetching, i) != picks.contains(i) {
                return Ok(false);
            }
        }
    }
    Ok(true)
}

fn from_seat(seat: u8, room: u32, one: Option<(u32, u32)>, two: Option<(u32, u32)>) -> Case {
    Case {
        seat,
        room,
        one,
        two,
    }
}

#[test]
fn chunks_are_picked_by_rank(rt: HostRuntime) -> Result<(), Fail> {
    let rarest = Ranker::new(Rank::Rarest, |_: u32, copies: u32| copies);
    let cases = [
        from_seat(3, 0, None, None),
        from_seat(3, 1, Some((4, 4)), None),
        from_seat(3, 2, Some((4, 5)), None),
        from_seat(3, 5, Some((0, 0)), Some((4, 7))),
        from_seat(3, 32, Some((0, 0)), Some((2, 7))),
        from_seat(5, 2, Some((0, 0)), Some((3, 3))),
        from_seat(9, 2, Some((2, 2)), None),
        from_seat(6, 2, None, None),
    ];
    assert!(rt; picks_as(rt.alloc(), &rarest, &cases)?);
    let sequential = Ranker::new(Rank::Sequential, |_: u32, _: u32| 0);
    let cases = [
        from_seat(3, 0, None, None),
        from_seat(3, 1, Some((0, 0)), None),
        from_seat(3, 2, Some((0, 0)), Some((2, 2))),
        from_seat(3, 32, Some((0, 0)), Some((2, 7))),
        from_seat(5, 32, Some((0, 0)), Some((2, 3))),
        from_seat(6, 32, None, None),
    ];
    assert!(rt; picks_as(rt.alloc(), &sequential, &cases)?);
    Ok(())
}

fn ask(seat: &mut Seat, first: u32, last: u32) {
    if let Some(range) = ChunkRange::new(first, last)
        && last < seat.chunks()
    {
        seat.said_request(range, 7);
    }
}

// Chunks 0 and 2 to 7 were picked of seat 3. The REQUESTs of 0, 2 and 3 were sent, and that of the others was refused.
#[test]
fn what_was_refused_is_given_back(rt: HostRuntime) -> Result<(), Fail> {
    let sequential = Ranker::new(Rank::Sequential, |_: u32, _: u32| 0);
    let mut fetching = offered(rt.alloc())?;
    let mut seat = Seat::new(rt.alloc(), 8, 1024)?;
    let picks = pick(&mut fetching, 3, 32, &sequential);
    ask(&mut seat, 0, 0);
    ask(&mut seat, 2, 3);
    fetching.settle(&picks, &seat);
    assert_eq!(rt;
        (asked_in(&fetching, 0, 4), asked_in(&fetching, 4, 8)),
        (3, 0)
    );
    // Seat 5 offers none but those that are asked for.
    assert_eq!(rt; pick(&mut fetching, 5, 32, &sequential).count(), 0);
    // Nothing of seat 3 is asked for any more.
    fetching.give_back_all(seat.awaited());
    assert_eq!(rt; (asked_in(&fetching, 0, 8), fetching.left()), (0, 7));
    fetching.leave(3);
    assert_eq!(rt; pick(&mut fetching, 3, 32, &sequential).count(), 0);
    fetching.want_below(3);
    assert_eq!(rt;
        nth(&pick(&mut fetching, 5, 1, &sequential), 0),
        Some((0, 0))
    );
    assert_eq!(rt;
        nth(&pick(&mut fetching, 5, 32, &sequential), 0),
        Some((2, 2))
    );
    Ok(())
}

#[test]
fn a_chunk_that_came_is_had(rt: HostRuntime) -> Result<(), Fail> {
    let mut fetching = offered(rt.alloc())?;
    if fetching.chunks() > 2 {
        fetching.got(2);
        assert_eq!(rt;
            (fetching.wants(1), fetching.wants(2), fetching.left()),
            (false, false, 6)
        );
        // No such chunk is asked for.
        fetching.give_back(2);
        fetching.give_back(900);
        assert_eq!(rt; (fetching.wants(0), fetching.wants(2)), (true, false));
    }
    Ok(())
}
