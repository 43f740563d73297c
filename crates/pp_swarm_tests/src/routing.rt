//! To which swarm a datagram goes.

use crate::shared::{
    ABC, CLOSING, HAVE_SEVEN, NONE, OF_ONE, OF_ZEROS, OTHER, PEER, REQUEST, SEVEN, Shared, THEIRS,
};
use pp_outside::MemoryDisk;
use pp_tree::{Descriptor, Digest, Method};
use std::alloc::Global;
use std::process::Abort;
use std::test::*;

// The handshake of a peer for the second of two swarms: whether that one replies, in 73 bytes, and the first saw nothing.
fn greets_the_second(shared: &mut Shared) -> bool {
    shared.opens(PEER, 1, &SEVEN);
    shared.replies(PEER, &OF_ONE, &SEVEN, &HAVE_SEVEN)
        && shared.is_silent()
        && shared.is_long(0, 73)
        && shared.came(0) == Some(0)
        && shared.came(1) == Some(1)
}

#[test]
fn a_handshake_goes_to_the_swarm_that_it_names(rt: HostRuntime) -> Result<(), Fail> {
    let mut shared = Shared::both(rt.alloc())?;
    assert!(rt; greets_the_second(&mut shared));
    assert!(rt; shared.hub.unrouted() == 0);
    Ok(())
}

// A peer opens a channel of each of two swarms, and asks for chunk 0 on each: whether each swarm sends its own.
fn serves_each(shared: &mut Shared) -> bool {
    shared.opens(PEER, 1, &SEVEN);
    shared.opens(PEER, 2, &ABC);
    shared.skip();
    shared.hears(PEER, 3, &[&OF_ZEROS, &REQUEST]);
    let abc = shared.sends_data(b"abc");
    shared.hears(PEER, 4, &[&OF_ONE, &REQUEST]);
    abc && shared.sends_data(&[5, 12, 19, 26])
        && shared.came(0) == Some(2)
        && shared.came(1) == Some(2)
}

// The number is another's, or no one's: whether nothing goes, and it is counted.
fn drops_others(shared: &mut Shared) -> bool {
    shared.hears(OTHER, 5, &[&OF_ZEROS, &REQUEST]);
    shared.hears(PEER, 6, &[&THEIRS, &REQUEST]);
    shared.hears(PEER, 7, &[&NONE, &REQUEST]);
    shared.hears(PEER, 8, &[&[1, 2, 3]]);
    shared.opens(PEER, 9, &[7; 32]);
    shared.is_silent()
        && shared.hub.unrouted() == 5
        && shared.came(0) == Some(2)
        && shared.came(1) == Some(2)
}

#[test]
fn a_number_goes_to_the_swarm_whose_channel_it_is(rt: HostRuntime) -> Result<(), Fail> {
    let mut shared = Shared::both(rt.alloc())?;
    assert!(rt; serves_each(&mut shared));
    assert!(rt; drops_others(&mut shared));
    Ok(())
}

// Whether each swarm closes its channel, the first one first.
fn closes_both(shared: &mut Shared) -> bool {
    shared.opens(PEER, 1, &SEVEN);
    shared.opens(OTHER, 2, &ABC);
    shared.hears(PEER, 3, &[&OF_ONE]);
    shared.hears(OTHER, 4, &[&OF_ZEROS]);
    shared.skip();
    shared.close();
    shared.says(OTHER, &[&THEIRS, &CLOSING])
        && shared.says(PEER, &[&THEIRS, &CLOSING])
        && shared.is_silent()
}

#[test]
fn channels_are_closed_by_rising_swarm(rt: HostRuntime) -> Result<(), Fail> {
    let mut shared = Shared::both(rt.alloc())?;
    assert!(rt; closes_both(&mut shared));
    Ok(())
}

// The swarm of a content of three bytes whose root is another for each number; its store is empty.
fn joins(shared: &mut Shared, alloc: Global, number: u8) -> Result<bool, Fail> {
    let swarm = Descriptor::new(Digest::new([number; 32]), 1024, 3, Method::Range32)?;
    shared.join(&swarm, MemoryDisk::new(alloc, &[])?)
}

#[test]
fn the_seventeenth_is_given_back(rt: HostRuntime) -> Result<(), Fail> {
    let mut shared = Shared::new(rt.alloc())?;
    for number in 0..16 {
        assert!(rt; joins(&mut shared, rt.alloc(), number)?);
    }
    assert!(rt; !joins(&mut shared, rt.alloc(), 16)?);
    assert!(rt; shared.hub.swarms() == 16);
    Ok(())
}
