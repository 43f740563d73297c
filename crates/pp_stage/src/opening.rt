//! A peer's opening over a disk in memory.
ghost use Rattle.std.specs.Prelude.{◌≡◌, ◌≢◌, IfOk, IfErr, IfSome, OnOk};
ghost use Rattle.pp_outside.specs.MemoryDisk.{state_of};
ghost use Rattle.pp_holding.specs.Opening.{IsOpenFault};
ghost use Rattle.pp_watch.specs.Done.{IsSince, as_before};
ghost use Rattle.pp_stage.specs.Opening.{Begins, LosesNothing, OpensAs};
ghost use Rattle.pp_stage.specs.Shown.{IsReady};

use crate::memory::enough;
use crate::turning::Running;
use arrayvec::ArrayVec;
use pp_avail::Rank;
use pp_core::Peer;
use pp_outside::{Address, MemoryDisk, MemoryLink};
use pp_scan::ScanFault;
use pp_tree::Descriptor;
use pp_watch::{Before, WatchedDisk};
use std::alloc::{AllocError, Global};
use std::marker::Brand;

/// What a peer is opened with: the 32 bytes from which the numbers of its channels are drawn, in which order it asks for chunks, if it
/// asks for any, and whom it dials.
#[derive(Drop)]
pub struct Start {
    pub random: [u8; 32],
    pub asks: Option<Rank>,
    pub dialled: ArrayVec<Address, 16>,
}

/// The disk after an opening, and the peer with its link, if its store was opened.
#[derive(Drop)]
pub struct Opened {
    pub disk: MemoryDisk,
    pub running: Option<Running>,
}

// The disk after an opening, and what that came to.
#[derive(Drop)]
pub(crate) struct Tried {
    pub disk: MemoryDisk,
    pub peer: Result<Peer, ScanFault>,
}

// Opens a store while its disk is watched. The disk is what `B` says of it.
pub(crate) fn try_open<B: Before>(
    alloc: Global,
    descriptor: &Descriptor,
    start: &Start,
    disk: MemoryDisk,
) -> Tried
    requires disk { B.disk ≡ as_before disk }
    ensures since { IsSince (as_before disk) result.disk }
    ensures begins { IfOk result.peer (Begins descriptor.now start.now (state_of disk) (state_of result.disk)) }
    ensures fault { IfErr result.peer (IsOpenFault descriptor.now (state_of disk) (state_of result.disk)) }
    ensures lasts { LosesNothing descriptor.now (state_of disk).history (state_of result.disk).history }
{
    let mut disk = WatchedDisk::<B>::new(disk);
    let peer = Peer::open(
        alloc,
        descriptor,
        start.random,
        start.asks,
        &start.dialled,
        &mut disk,
    );
    Tried {
        disk: disk.into_inner(),
        peer,
    }
}

// Answers an error where memory was missing.
fn had_memory(fault: ScanFault) -> Result<(), AllocError>
    ensures { OnOk result (fault ≢ ScanFault.Memory) }
{
    match fault {
        ScanFault::Memory => Err(AllocError),
        ScanFault::NotAStore { .. } | ScanFault::Disk => Ok(()),
    }
}

/// Opens a peer's store: an empty file becomes one that holds no chunk, any other is synced and scanned. No peer runs where the file is
/// another's, or the disk refuses a call. The error comes where memory is missing.
pub fn open(
    alloc: Global,
    descriptor: &Descriptor,
    start: &Start,
    disk: MemoryDisk,
) -> Result<Opened, AllocError>
    ensures opens { IfOk result (λ o. OpensAs descriptor.now disk o.disk o.running) }
    ensures begins { IfOk result (λ o. IfSome o.running
        (λ r. Begins descriptor.now start.now (state_of disk) (state_of o.disk) r.peer)) }
    ensures lasts { IfOk result (λ o. LosesNothing descriptor.now (state_of disk).history (state_of o.disk).history) }
    ensures ready { IfOk result (λ o. IfSome o.running IsReady) }
{
    let Tried { disk, peer } = try_open::<Brand>(alloc, descriptor, start, disk);
    enough(disk.short())?;
    let running = match peer {
        Ok(peer) => Some(Running {
            peer,
            link: MemoryLink::new(alloc)?,
            is_deaf: false,
        }),
        Err(fault) => {
            had_memory(fault)?;
            None
        }
    };
    Ok(Opened { disk, running })
}
