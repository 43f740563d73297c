//! What is left of the peers of a schedule.

use pp_play::{Outcome, ReplayFault, replay};
use pp_replay::{ScheduleFault, ScheduleKind};
use std::alloc::Global;
use std::test::Fail;

// What is told of a peer: its lives, how many chunks it announced, and how many it holds.
type Told = (usize, u32, u32);

pub(crate) fn played(alloc: Global, text: &[u8]) -> Result<Outcome, Fail> {
    match replay(alloc, text) {
        Ok(outcome) => Ok(outcome),
        Err(_) => Err("not replayed".into()),
    }
}

fn told(outcome: &Outcome, peer: usize) -> Option<Told> {
    let end = outcome.ends.get(peer)?;
    Some((end.life_count(), end.announced(), end.held().count()))
}

pub(crate) const CRASHED: &[u8] = b"ppspp-schedule 1
content 1024 7000 5
peer 0 seed
peer 1 fetch sequential 0
peer 2 fetch rarest 0 1
run 8 100000
lose 2
repeat 1
crash 1 2
start 1
run 600 100000
";

// Seven chunks come to two peers, one of which crashed and was started again.
#[test]
fn a_crash_loses_nothing_that_was_announced(rt: HostRuntime) -> Result<(), Fail> {
    let outcome = played(rt.alloc(), CRASHED)?;
    let all = [0, 1, 2, 3].map(|peer| told(&outcome, peer));
    assert_eq!(rt;
        all,
        [Some((1, 7, 7)), Some((2, 7, 7)), Some((1, 7, 7)), None]
    );
    Ok(())
}

fn fault_of(alloc: Global, text: &[u8]) -> Option<ReplayFault> {
    replay(alloc, text).err()
}

pub(crate) const OTHER: &[u8] = b"ppspp-schedule 2
";

pub(crate) const FOURTH: &[u8] = b"ppspp-schedule 1
content 1024 7000 5
peer 0 seed
turn 3
";

#[test]
fn names_the_first_faulty_line(rt: HostRuntime) -> Result<(), Fail> {
    let header = ScheduleFault {
        line: 1,
        kind: ScheduleKind::Header,
    };
    let peer = ScheduleFault {
        line: 4,
        kind: ScheduleKind::Peer,
    };
    assert_eq!(rt;
        fault_of(rt.alloc(), OTHER),
        Some(ReplayFault::Schedule(header))
    );
    assert_eq!(rt;
        fault_of(rt.alloc(), FOURTH),
        Some(ReplayFault::Schedule(peer))
    );
    Ok(())
}
