// The command `play STORE DESCRIPTOR LISTEN TURNS WINDOW PEER..`.
ghost use Rattle.std.specs.Prelude.{◌≡◌, is_some, true, length};
ghost use Rattle.pp_terms.specs.command.Stream.{SourceState};
ghost use Rattle.pp_terms.specs.format.Descriptor.{chunks_of};
ghost use Rattle.pp_peer.specs.Standing.{Beginning};
ghost use Rattle.pp_tree.specs.Book.{empty_book};
ghost use Rattle.pp_turns.specs.Turning.{post};
ghost use Rattle.pp_playback.specs.Turns.{stand};
ghost use Rattle.pp_node.specs.Outside.{outside};
ghost use Rattle.pp_node.specs.Playing.{PlayEnds, HasShown, Shows, IsJudged, player_of, status_of_fault, status_of_play, status_of_stop};
ghost use Rattle.pp_node.specs.Seeding.{words_of, dials_of};
ghost use Rattle.pp_node.specs.Status.{number_of};

use crate::preparing::{Peering, Ready, SeedFault, prepare};
use crate::status::Status;
use pp_outside::{Disk, Link, Sink};
use pp_playback::{PlayStop, Show, play_turns};
use pp_stream::{PlayFault, Player};
use pp_tree::Book;
use std::alloc::Global;

impl SeedFault {
    fn status(self) -> Status
        ensures { result ≡ status_of_fault self }
    {
        match self {
            SeedFault::NotAStore { .. } => Status::NotAStore,
            SeedFault::Disk => Status::DiskFault,
            SeedFault::Link => Status::LinkFault,
            SeedFault::Memory => Status::Memory,
        }
    }
}

/// Does what `play` says: attaches the named store, listens, dials the peers and asks them for the chunks that the store lacks, of the next
/// `window` chunks alone; what is committed goes to the sink in order, each chunk read again and its digest compared with the book's. It
/// ends once all is written, after `turns` turns of at most 100,000 microseconds each, or at the first fault. Nothing is said of a
/// fault. The book is empty at entry, and at the end it is the peer's.
pub(crate) fn play<D: Disk, L: Link, K: Sink>(
    alloc: Global,
    words: &Peering<'_>,
    window: u32,
    disk: &mut D,
    link: &mut L,
    sink: &mut K,
    book: &mut Book,
) -> Status
    requires empty { book.old ≡ empty_book }
    requires asks { is_some words.now.asks ≡ true }
    ensures { (source : SourceState)
        → PlayEnds (number_of result) (words_of words.now) window (dials_of words.now)
        (outside (D.state disk.old) (L.seen link.old) source (K.state sink.old) book.old)
        (outside (D.state disk.new) (L.seen link.new) source (K.state sink.new) book.new) }
{
    match prepare(alloc, words, disk, link) {
        Ok(ready) => show(ready, words.turns, window, disk, link, sink, book),
        Err(fault) => fault.status(),
    }
}

// Writes the content in turns; the book becomes the peer's.
fn show<D: Disk, L: Link, K: Sink>(
    ready: Ready,
    turns: u32,
    window: u32,
    disk: &mut D,
    link: &mut L,
    sink: &mut K,
    book: &mut Book,
) -> Status
    requires room { length ready.buffer.items ≡ 65536 }
    ensures { (b : Beginning)
        → HasShown result b turns (stand (post ready.peer (D.state disk.old) (L.seen link.old)) (player_of ready.peer window) (K.state sink.old))
        (D.state disk.new) (L.seen link.new) book.new (K.state sink.new) }
{
    let Ready { peer, buffer } = ready;
    let chunks = peer.descriptor().chunks();
    let mut show = Show {
        peer,
        player: Player::new(chunks, window),
        buffer,
    };
    let status = take_all(&mut show, turns, disk, link, sink);
    let Show { peer, .. } = show;
    *book = peer.into_book();
    status
}

// Takes the turns, and closes the channels where no fault ended them.
fn take_all<D: Disk, L: Link, K: Sink>(
    show: &mut Show,
    turns: u32,
    disk: &mut D,
    link: &mut L,
    sink: &mut K,
) -> Status
    requires room { length show.old.buffer.items ≡ 65536 }
    requires of { show.old.player.chunks ≡ chunks_of show.old.peer.parts.holding.store.descriptor }
    ensures { (b : Beginning)
        → Shows result b turns (stand (post show.old.peer (D.state disk.old) (L.seen link.old)) show.old.player (K.state sink.old))
        (stand (post show.new.peer (D.state disk.new) (L.seen link.new)) show.new.player (K.state sink.new)) }
{
    let chunks = show.peer.descriptor().chunks();
    match play_turns(show, turns, disk, link, sink) {
        Ok(()) => {
            show.peer.close(disk, link);
            // Its contract tells of how many chunks the set is.
            let _ = show.peer.book();
            judge(&show.player, chunks)
        }
        Err(stop) => status_of(stop),
    }
}

// Whether all chunks are written, of which there are so many.
fn judge(player: &Player, chunks: u32) -> Status
    ensures { player.now.chunks ≡ chunks → IsJudged result player.now }
{
    if player.base() < chunks {
        Status::Incomplete
    } else {
        Status::Done
    }
}

fn status_of(stop: PlayStop) -> Status
    ensures { result ≡ status_of_stop stop }
{
    match stop {
        PlayStop::Broken => Status::DiskFault,
        PlayStop::Unwritten(fault) => status_of_play(fault),
    }
}

fn status_of_play(fault: PlayFault) -> Status
    ensures { result ≡ status_of_play fault }
{
    match fault {
        PlayFault::Disk => Status::DiskFault,
        PlayFault::Sink => Status::SinkFault,
        PlayFault::Damaged { .. } => Status::Damaged,
    }
}
