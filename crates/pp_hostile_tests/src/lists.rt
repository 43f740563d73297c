//! A seeder of 200 chunks that is asked for as many ranges as a list has room for, and for one more.

use crate::judging::is_served;
use crate::side::{PEER, Side};
use pp_outside::{MemoryDisk, ZeroSource};
use pp_store::import;
use std::alloc::{AllocError, Global};
use std::test::*;

// A seeder of 200 chunks of 256 zeros.
fn seeder(alloc: Global) -> Result<Side, Fail> {
    let mut disk = MemoryDisk::new(alloc, &[])?;
    let swarm = import(256, &mut ZeroSource::new(51_200), &mut disk)?;
    Side::open(alloc, &swarm, None, disk)
}

// A datagram that asks for so many chunks, of which no two touch.
fn asking(alloc: Global, number: &[u8; 4], count: u8) -> Result<Vec<u8>, AllocError> {
    let mut bytes = number.to_vec(alloc)?;
    for n in 0..count {
        let chunk = n.saturating_mul(2);
        bytes.extend_from_slice(&[8, 0, 0, 0, chunk, 0, 0, 0, chunk])?;
    }
    Ok(bytes)
}

// Whether the last chunk is served once the peer has taken back all that it asked for: so many chunks of which no two touch.
fn serves_behind(alloc: Global, side: &mut Side, count: u8) -> Result<bool, AllocError> {
    let Some(number) = side.opens(PEER, 1) else {
        return Ok(false);
    };
    let bytes = asking(alloc, &number, count)?;
    side.takes(PEER, 2, &bytes);
    let name = [0, 0, 0, 199, 0, 0, 0, 199];
    let all = [0, 0, 0, 0, 0, 0, 0, 199];
    let parts: [&[u8]; 8] = [&number, &[9], &all, &[2], &all, &[0; 8], &[8], &name];
    Ok(side.serves(PEER, 3, &parts, &name, &[0; 256]))
}

// That, what the definitions say of it, and how many REQUESTs found no room.
fn shows(alloc: Global, side: &mut Side, count: u8) -> Result<(bool, bool, u64), Fail> {
    let is_sent = serves_behind(alloc, side, count)?;
    let is_right = is_served(side)?;
    Ok((is_sent, is_right, side.peer.counts().full))
}

fn shown(alloc: Global, count: u8) -> Result<(bool, bool, u64), Fail> {
    let mut side = seeder(alloc)?;
    shows(alloc, &mut side, count)
}

#[test]
fn a_full_list_is_survived(rt: HostRuntime) -> Result<(), Fail> {
    for (count, refused) in [(64, 0), (65, 1), (99, 35)] {
        assert_eq!(rt;
            shown(rt.alloc(), count)?,
            (true, true, refused),
            "{count} ranges"
        );
    }
    Ok(())
}
