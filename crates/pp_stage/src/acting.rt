//! What a running peer does with its devices while these are watched.
ghost use Rattle.std.specs.Prelude.{◌≡◌, true, length, IfOk};
ghost use Rattle.pp_terms.specs.format.Traffic.{LinkState};
ghost use Rattle.pp_outside.specs.MemoryDisk as disks;
ghost use Rattle.pp_outside.specs.MemoryLink as links;
ghost use Rattle.pp_outside.specs.Outside.{DoesNext, FitsIn};
ghost use Rattle.pp_turns.specs.Turning.{post};
ghost use Rattle.pp_watch.specs.Done as doings;
ghost use Rattle.pp_watch.specs.Sent as sendings;
ghost use Rattle.pp_watch.specs.Turned.{HasActed};
ghost use Rattle.pp_stage.specs.Turned.{KeepsPromises, as_devices};

use pp_core::Peer;
use pp_outside::{Event, LinkFault, MemoryDisk, MemoryLink};
use pp_turns::hear;
use pp_watch::{Before, WatchedDisk, WatchedLink};

/// A disk and a link.
#[derive(Drop)]
pub(crate) struct Devices {
    pub disk: MemoryDisk,
    pub link: MemoryLink,
}

/// The devices after a turn, and whether the peer goes on.
#[derive(Drop)]
pub(crate) struct Acted {
    pub devices: Devices,
    pub goes_on: bool,
}

/// Takes what a wait came to, and sends what is due. The devices are what `B` says of them.
pub(crate) fn act<B: Before>(
    peer: &mut Peer,
    came: Result<Event, LinkFault>,
    buffer: &[u8],
    devices: Devices,
) -> Acted
    requires disk { B.disk ≡ doings.as_before devices.disk }
    requires link { B.link ≡ sendings.as_before devices.link }
    requires room { length buffer.now ≡ 65536 }
    requires fits { IfOk came (λ event. FitsIn event buffer.now) }
    requires live { peer.old.parts.holding.store.live ≡ true }
    ensures acted { HasActed result.goes_on (as_devices devices) (as_devices result.devices) }
    // Over each link on which that was what a wait came to, the peer's turn is one more that keeps what a peer promises.
    ensures promises { (link : LinkState) → DoesNext link buffer.now came (links.state_of devices.link) → KeepsPromises result.goes_on
        (post peer.old (disks.state_of devices.disk) link)
        (post peer.new (disks.state_of result.devices.disk) (links.state_of result.devices.link)) }
    ensures live { result.goes_on ≡ true → peer.new.parts.holding.store.live ≡ true }
{
    let mut disk = WatchedDisk::<B>::new(devices.disk);
    let mut link = WatchedLink::<B>::new(devices.link);
    let goes_on = hear(peer, came, buffer, &mut disk).is_ok();
    if goes_on {
        peer.flush(&mut disk, &mut link);
    }
    Acted {
        devices: Devices {
            disk: disk.into_inner(),
            link: link.into_inner(),
        },
        goes_on,
    }
}
