//! Turns of a peer over memory devices. Its content is `abc`.
use crate::side::Side;
use pp_avail::Rank;
use pp_outside::{Call, Event};
use pp_turns::{take_turn, take_turns};
use std::test::*;

// Takes so many turns.
fn turns(side: &mut Side, count: u32, fetches: bool) -> bool {
    let mut buffer = [0; 65536];
    take_turns(
        &mut side.peer,
        count,
        fetches,
        &mut buffer,
        &mut side.disk,
        &mut side.link,
    )
    .is_ok()
}

// Takes one.
fn turn(side: &mut Side) -> bool {
    let mut buffer = [0; 65536];
    take_turn(&mut side.peer, &mut buffer, &mut side.disk, &mut side.link).is_ok()
}

// How many turns were counted, and how many refused waits.
fn counted(side: &Side) -> [u64; 2] {
    let counts = side.peer.counts();
    [counts.turns, counts.receive_faults]
}

// Nothing is to come up to a moment.
fn expects_nothing(side: &mut Side, at: u64) -> bool {
    side.link.add(Event::Quiet { at }, &[]).is_ok()
}

// Whether two turns in which nothing comes are counted.
fn takes_two(side: &mut Side) -> bool {
    expects_nothing(side, 100_000)
        && expects_nothing(side, 200_000)
        && turn(side)
        && turns(side, 1, false)
        && counted(side) == [2, 0]
}

// Whether one more is counted, whose wait the link refuses.
fn takes_a_refused_one(side: &mut Side) -> bool {
    side.link.fail_next(Call::Next);
    turns(side, 1, false) && counted(side) == [3, 1]
}

#[test]
fn each_turn_waits_once(rt: HostRuntime) -> Result<(), Fail> {
    let mut side = Side::of_abc(rt.alloc(), None)?;
    assert!(rt; takes_two(&mut side));
    assert!(rt; takes_a_refused_one(&mut side));
    Ok(())
}

#[test]
fn a_fetch_that_has_all_takes_no_turn(rt: HostRuntime) -> Result<(), Fail> {
    let mut side = Side::of_abc(rt.alloc(), Some(Rank::Sequential))?;
    assert!(rt; turns(&mut side, 5, true));
    assert_eq!(rt; counted(&side), [0, 0]);
    Ok(())
}
