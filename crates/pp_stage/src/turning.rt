//! A turn of a running peer.
ghost use Rattle.std.specs.Prelude.{◌≡◌, true, length, IfOk};
ghost use Rattle.pp_watch.specs.Waiting.{FitsBuffer};
ghost use Rattle.pp_stage.specs.Shown.{IsReady};
ghost use Rattle.pp_stage.specs.Turned.{KeepsPromises, TurnsAs, post_of};

use crate::acting::{Acted, Devices, act};
use crate::memory::enough;
use pp_core::Peer;
use pp_outside::{Address, MemoryDisk, MemoryLink};
use pp_watch::wait;
use std::alloc::AllocError;
use std::marker::Brand;

/// A peer that runs, and its link.
#[derive(Drop)]
pub struct Running {
    pub peer: Peer,
    pub link: MemoryLink,
    /// The next wait is ordered to fail.
    pub is_deaf: bool,
}

/// A peer after a turn, with its disk, and whether it goes on.
#[derive(Drop)]
pub struct Turned {
    pub disk: MemoryDisk,
    pub running: Running,
    pub goes_on: bool,
}

/// The moment of a turn in microseconds, and what comes in it: a datagram with its sender, or nothing.
#[derive(Clone, Copy)]
pub struct Cue<'a> {
    pub clock: u64,
    pub came: Option<(Address, &'a [u8])>,
}

/// Takes a turn of a peer that runs: it waits for what comes, takes it, and sends what is due. Where the disk refuses a write or a sync the
/// peer doesn't go on, and nothing is sent. The buffer has 65,536 bytes. The error comes where memory is missing.
pub fn take_turn(
    running: Running,
    disk: MemoryDisk,
    cue: Cue<'_>,
    buffer: &mut [u8],
) -> Result<Turned, AllocError>
    requires ready { IsReady running }
    requires fits { FitsBuffer cue.came }
    requires room { length buffer.old ≡ 65536 }
    ensures turns { IfOk result (λ t. TurnsAs cue.entry disk running t) }
    ensures promises { IfOk result (λ t. KeepsPromises t.goes_on (post_of running disk) (post_of t.running t.disk)) }
    ensures ready { IfOk result (λ t. t.goes_on ≡ true → IsReady t.running) }
{
    let Running {
        mut peer,
        mut link,
        is_deaf,
    } = running;
    let event = wait(&mut link, is_deaf, cue.clock, cue.came, buffer)?;
    let Acted { devices, goes_on } = act::<Brand>(&mut peer, event, buffer, Devices { disk, link });
    let Devices { disk, link } = devices;
    enough(disk.short())?;
    enough(link.short())?;
    Ok(Turned {
        disk,
        running: Running {
            peer,
            link,
            is_deaf: false,
        },
        goes_on,
    })
}
