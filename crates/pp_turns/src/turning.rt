//! The turns of a peer.

ghost use Rattle.std.specs.Prelude.{◌≡◌, true, false, length, MatchBool, IfOk, OnOk, OnErr};
ghost use Rattle.pp_terms.specs.Count.{HasCause};
ghost use Rattle.pp_terms.specs.format.Traffic.{LinkState};
ghost use Rattle.pp_outside.specs.Outside.{size_of, FitsIn, DoesNext};
ghost use Rattle.pp_scan.specs.Look.{KeepsAll};
ghost use Rattle.pp_holding.specs.Holding.{stock_of};
ghost use Rattle.pp_holding.specs.Stock.{Advances};
ghost use Rattle.pp_peer.specs.Standing.{Beginning};
ghost use Rattle.pp_core.specs.Offering.{limit_of};
ghost use Rattle.pp_turns.specs.Alike.{Carries, GainsAlike};
ghost use Rattle.pp_turns.specs.Taking.{TakesTurn, Waits, Finishes, TurnsEnd, HasAll, LacksSome};
ghost use Rattle.pp_turns.specs.Turning.{post, IsBegun};

use pp_core::Peer;
use pp_outside::{Disk, DiskFault, Event, Link, LinkFault};

/// How long a turn waits, in microseconds.
pub const WAIT_US: u64 = 100_000;

/// Takes so many turns; a peer that fetches takes none more once all its chunks are committed. The buffer has 65,536 bytes, room for any
/// datagram. A fault of the disk ends the turns: after it the peer isn't live, and nothing is sent.
pub fn take_turns<D: Disk, L: Link>(
    peer: &mut Peer,
    turns: u32,
    fetches: bool,
    buffer: &mut [u8],
    disk: &mut D,
    link: &mut L,
) -> Result<(), DiskFault>
    requires room { length buffer.old ≡ 65536 }
    ensures { (b : Beginning) → IsBegun b (post peer.old (D.state disk.old) (L.seen link.old))
        → TurnsEnd b turns fetches (post peer.old (D.state disk.old) (L.seen link.old)) (post peer.new (D.state disk.new) (L.seen link.new)) result }
{
    let mut taken = 0;
    while taken < turns {
        if is_done(peer, fetches) {
            return Ok(());
        }
        take_turn(peer, buffer, disk, link)?;
        taken += 1;
    }
    Ok(())
}

// Whether a peer that fetches has all its chunks committed.
fn is_done(peer: &Peer, fetches: bool) -> bool
    ensures { MatchBool result ((fetches ≡ true) × HasAll peer.now) (fetches ≡ true → LacksSome peer.now) }
{
    fetches && peer.committed().first_absent().is_none()
}

/// Waits once, at most 100,000 microseconds, takes what came, and sends what is due. A wait that the link refuses is counted, and what is
/// due is sent then too. The buffer has 65,536 bytes. After a fault of the disk the peer isn't live, and nothing is sent.
pub fn take_turn<D: Disk, L: Link>(
    peer: &mut Peer,
    buffer: &mut [u8],
    disk: &mut D,
    link: &mut L,
) -> Result<(), DiskFault>
    requires room { length buffer.old ≡ 65536 }
    ensures { TakesTurn (post peer.old (D.state disk.old) (L.seen link.old)) (post peer.new (D.state disk.new) (L.seen link.new)) result }
{
    let came = link.next(WAIT_US, buffer);
    hear(peer, came, buffer, disk)?;
    finish_turn(peer, disk, link);
    Ok(())
}

/// Takes what a wait came to: the event, whose bytes are at the front of the buffer; a wait that the link refused is counted. The buffer has
/// 65,536 bytes. After a fault of the disk the peer isn't live.
pub fn hear<D: Disk>(
    peer: &mut Peer,
    came: Result<Event, LinkFault>,
    buffer: &[u8],
    disk: &mut D,
) -> Result<(), DiskFault>
    requires room { length buffer.now ≡ 65536 }
    requires fits { IfOk came (λ event. FitsIn event buffer.now) }
    // Over each link on which that was what a wait came to it is the first half of a turn.
    ensures waits { (old new : LinkState) → DoesNext old buffer.now came new
        → Waits (post peer.old (D.state disk.old) old) (post peer.new (D.state disk.new) new) result }
    // Whatever it answers, what was committed stays so, and the book keeps what it knows.
    ensures advances { Advances (stock_of peer.old.parts.holding (D.state disk.old)) (stock_of peer.new.parts.holding (D.state disk.new)) }
    // Only where the disk refused a write or a sync it answers a fault.
    ensures cause { peer.old.parts.holding.store.live ≡ true → HasCause (D.state disk.old).hard (D.state disk.new).hard result }
    ensures live { peer.old.parts.holding.store.live ≡ true → OnOk result (peer.new.parts.holding.store.live ≡ true) }
    ensures dead { OnErr result (peer.new.parts.holding.store.live ≡ false) }
    // The number below which the peer asks for chunks stays.
    ensures limit { OnOk result (limit_of peer.new.parts.fetching ≡ limit_of peer.old.parts.fetching) }
{
    match came {
        Ok(event) => peer.absorb(&event, &buffer[..size(&event)], disk),
        Err(_) => {
            peer.refused();
            Ok(())
        }
    }
}

/// Sends what is due, which ends a turn: `hear` is its first half. Between the two the disk may be read, and `Peer::want_below` called.
pub fn finish_turn<D: Disk, L: Link>(peer: &mut Peer, disk: &mut D, link: &mut L)
    ensures ends { Finishes (post peer.old (D.state disk.old) (L.seen link.old))
        (post peer.new (D.state disk.new) (L.seen link.new)) }
    // The link gained what was sent; over each other that gains the same a turn ends, too.
    ensures carries { Carries (post peer.old (D.state disk.old) (L.seen link.old))
        (post peer.new (D.state disk.new) (L.seen link.new)) }
    ensures alike { (seen seen' : LinkState) → GainsAlike (L.seen link.old) (L.seen link.new) seen seen'
        → Finishes (post peer.old (D.state disk.old) seen) (post peer.new (D.state disk.new) seen') }
    // What the peer holds stays, and the disk is only read.
    ensures store { peer.new.parts.holding.store ≡ peer.old.parts.holding.store }
    ensures book { peer.new.parts.holding.book ≡ peer.old.parts.holding.book }
    ensures reads { KeepsAll (D.state disk.old) (D.state disk.new) }
    ensures limit { limit_of peer.new.parts.fetching ≡ limit_of peer.old.parts.fetching }
{
    peer.flush(disk, link);
}

// How many bytes of the buffer are the event's.
fn size(event: &Event) -> usize
    ensures { result ≡ size_of event.now }
{
    match *event {
        Event::Datagram { len, .. } => len,
        Event::Quiet { .. } => 0,
    }
}
