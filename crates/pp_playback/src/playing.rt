// Turns in which a content is written.
ghost use Rattle.std.specs.Prelude.{◌≡◌, length};
ghost use Rattle.pp_terms.specs.format.Descriptor.{chunks_of};
ghost use Rattle.pp_terms.specs.format.Traffic.{LinkState};
ghost use Rattle.pp_turns.specs.Turning.{post};
ghost use Rattle.pp_playback.specs.Turns.{Stand, stand, PlaysTurn, Begins, PlaysOut, TakesAll};

use pp_core::Peer;
use pp_outside::{Disk, Link, Sink};
use pp_stream::{PlayFault, Player};
use pp_turns::{WAIT_US, finish_turn, hear};

/// Why no more turns are taken.
#[derive(Clone, Copy, Debug, PartialEq, Eq)]
pub enum PlayStop {
    /// The disk refused a write or a sync: the peer isn't live, and nothing was sent after that.
    Broken,
    /// The content can't be written on, and nothing was sent after that.
    Unwritten(PlayFault),
}

/// Waits once, at most 100,000 microseconds, takes what came, writes the committed chunks from the base on, asks for chunks below
/// the player's limit alone, and sends what is due. A fault ends the turn at once. The buffer has 65,536 bytes.
pub fn play_turn<D: Disk, L: Link, K: Sink>(
    peer: &mut Peer,
    player: &mut Player,
    buffer: &mut [u8],
    disk: &mut D,
    link: &mut L,
    sink: &mut K,
) -> Result<(), PlayStop>
    requires room { length buffer.old ≡ 65536 }
    requires of { player.old.chunks ≡ chunks_of peer.old.parts.holding.store.descriptor }
    ensures turn { PlaysTurn (stand (post peer.old (D.state disk.old) (L.seen link.old)) player.old (K.state sink.old))
        (stand (post peer.new (D.state disk.new) (L.seen link.new)) player.new (K.state sink.new)) result }
    ensures of { player.new.chunks ≡ chunks_of peer.new.parts.holding.store.descriptor }
    ensures chunks { player.new.chunks ≡ player.old.chunks }
{
    let came = link.next(WAIT_US, buffer);
    let heard = hear(peer, came, buffer, disk);
    // Their contracts tell that a chunk has bytes, and that the book is the store's.
    let _ = peer.descriptor().chunk();
    let _ = peer.book();
    match heard {
        Ok(()) => {}
        Err(_) => return Err(PlayStop::Broken),
    }
    // Behind a wait that was refused nothing is left to be written, so this does nothing then.
    match player.step(peer, disk, sink) {
        Ok(()) => {}
        Err(fault) => return Err(PlayStop::Unwritten(fault)),
    }
    peer.want_below(player.limit());
    finish_turn(peer, disk, link);
    Ok(())
}

/// A peer that fetches, with how far its content is written, and a buffer of 65,536 bytes for datagrams.
#[derive(Drop)]
pub struct Show {
    pub peer: Peer,
    pub player: Player,
    pub buffer: Vec<u8>,
}

/// Writes what is committed, asks for chunks below the player's limit alone, and takes turns until all chunks are written, at most so
/// many. A fault ends it at once, and nothing is sent after that.
pub fn play_turns<D: Disk, L: Link, K: Sink>(
    show: &mut Show,
    turns: u32,
    disk: &mut D,
    link: &mut L,
    sink: &mut K,
) -> Result<(), PlayStop>
    requires room { length show.old.buffer.items ≡ 65536 }
    requires of { show.old.player.chunks ≡ chunks_of show.old.peer.parts.holding.store.descriptor }
    ensures { PlaysOut turns (stand (post show.old.peer (D.state disk.old) (L.seen link.old)) show.old.player (K.state sink.old))
        (stand (post show.new.peer (D.state disk.new) (L.seen link.new)) show.new.player (K.state sink.new)) result }
{
    begin(&mut show.peer, &mut show.player, disk, sink)?;
    take_all(show, turns, disk, link, sink)
}

// Writes what is committed, and asks for chunks below the player's limit alone.
fn begin<D: Disk, K: Sink>(
    peer: &mut Peer,
    player: &mut Player,
    disk: &mut D,
    sink: &mut K,
) -> Result<(), PlayStop>
    requires { player.old.chunks ≡ chunks_of peer.old.parts.holding.store.descriptor }
    ensures begins { (link : LinkState) → Begins (stand (post peer.old (D.state disk.old) link) player.old (K.state sink.old))
        (stand (post peer.new (D.state disk.new) link) player.new (K.state sink.new)) result }
    ensures of { player.new.chunks ≡ chunks_of peer.new.parts.holding.store.descriptor }
{
    // Their contracts tell that a chunk has bytes, and that the book is the store's.
    let _ = peer.descriptor().chunk();
    let _ = peer.book();
    match player.step(peer, disk, sink) {
        Ok(()) => {}
        Err(why) => return Err(PlayStop::Unwritten(why)),
    }
    let limit = player.limit();
    peer.want_below(limit);
    Ok(())
}

fn take_all<D: Disk, L: Link, K: Sink>(
    show: &mut Show,
    turns: u32,
    disk: &mut D,
    link: &mut L,
    sink: &mut K,
) -> Result<(), PlayStop>
    requires room { length show.old.buffer.items ≡ 65536 }
    requires of { show.old.player.chunks ≡ chunks_of show.old.peer.parts.holding.store.descriptor }
    ensures { (first : Stand) → TakesAll turns first (stand (post show.old.peer (D.state disk.old) (L.seen link.old)) show.old.player (K.state sink.old))
        (stand (post show.new.peer (D.state disk.new) (L.seen link.new)) show.new.player (K.state sink.new)) result }
{
    let chunks = show.peer.descriptor().chunks();
    let mut taken = 0;
    while taken < turns {
        if show.player.base() >= chunks {
            return Ok(());
        }
        play_turn(
            &mut show.peer,
            &mut show.player,
            &mut show.buffer,
            disk,
            link,
            sink,
        )?;
        taken += 1;
    }
    Ok(())
}
