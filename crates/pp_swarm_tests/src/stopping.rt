//! A swarm whose disk refuses a write stops, and the others go on.

use crate::shared::{
    ABC, OF_ONE, OF_ZEROS, OTHER, PEER, REQUEST, SEVEN, Shared, disk_of_seven, swarm_of_abc,
    swarm_of_seven,
};
use pp_outside::{Call, MemoryDisk};
use std::alloc::Global;
use std::process::Abort;
use std::test::*;

// Chunk 0 of `abc`, sent at moment 0.
const DATA: [u8; 20] = [
    1, 0, 0, 0, 0, 0, 0, 0, 0, 0, 0, 0, 0, 0, 0, 0, 0, 97, 98, 99,
];

// The swarm of `abc`, which has nothing, and that of the 7,000 bytes, which has all; a peer opens a channel of each.
fn opened(alloc: Global) -> Result<Shared, Fail> {
    let mut shared = Shared::new(alloc)?;
    shared.join(&swarm_of_abc()?, MemoryDisk::new(alloc, &[])?)?;
    shared.join(&swarm_of_seven()?, disk_of_seven(alloc)?)?;
    shared.opens(PEER, 1, &ABC);
    shared.opens(PEER, 2, &SEVEN);
    shared.skip();
    Ok(shared)
}

// The first write that a chunk causes is refused: whether the swarm stops, and the other one doesn't.
fn stops_the_first(shared: &mut Shared) -> bool {
    if let Some(disk) = shared.disks.first_mut() {
        disk.fail_next(Call::Write);
    }
    shared.hears(PEER, 3, &[&OF_ZEROS, &DATA]);
    shared.hears_nothing(4);
    !shared.goes_on(0) && shared.goes_on(1)
}

// Whether the other swarm sends what it is asked for, and closes its channel.
fn goes_on_beside(shared: &mut Shared) -> bool {
    shared.skip();
    shared.hears(PEER, 5, &[&OF_ONE, &REQUEST]);
    shared.sends_data(&[5, 12, 19, 26]) && shared.came(1) == Some(2)
}

// What comes for the stopped swarm: whether it is dropped, and isn't counted as one for none.
fn drops_for_the_stopped(shared: &mut Shared) -> bool {
    let came = shared.came(0);
    shared.skip();
    shared.hears(PEER, 6, &[&OF_ZEROS, &REQUEST]);
    shared.opens(OTHER, 7, &ABC);
    shared.is_silent() && shared.came(0) == came && shared.hub.unrouted() == 0
}

#[test]
fn a_refused_write_stops_its_swarm_alone(rt: HostRuntime) -> Result<(), Fail> {
    let mut shared = opened(rt.alloc())?;
    assert!(rt; stops_the_first(&mut shared));
    assert!(rt; goes_on_beside(&mut shared));
    assert!(rt; drops_for_the_stopped(&mut shared));
    Ok(())
}

// A wait is refused: whether each swarm counts it, but the stopped one.
fn counts_a_refusal(shared: &mut Shared) -> bool {
    let stopped = shared.refusals(0);
    shared.hub.refused();
    shared.refusals(0) == stopped && shared.refusals(1) == Some(1)
}

#[test]
fn a_refused_wait_is_counted_by_those_that_go_on(rt: HostRuntime) -> Result<(), Fail> {
    let mut shared = opened(rt.alloc())?;
    assert!(rt; stops_the_first(&mut shared));
    assert!(rt; counts_a_refusal(&mut shared));
    Ok(())
}
