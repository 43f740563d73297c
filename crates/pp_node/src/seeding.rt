// The commands `seed STORE DESCRIPTOR LISTEN TURNS` and `fetch STORE DESCRIPTOR LISTEN TURNS ORDER PEER..`.
ghost use Rattle.std.specs.Prelude.{◌≡◌, None, true, length, is_some, OnOk};
ghost use Rattle.pp_terms.specs.Count.{HasCause};
ghost use Rattle.pp_terms.specs.command.Report.{SaysReport};
ghost use Rattle.pp_terms.specs.command.Stream.{SourceState};
ghost use Rattle.pp_core.specs.Turning.{Closes};
ghost use Rattle.pp_peer.specs.Standing.{Beginning};
ghost use Rattle.pp_tree.specs.Book.{empty_book};
ghost use Rattle.pp_node.specs.Outside.{outside};
ghost use Rattle.pp_node.specs.Promising.{SeedEnds, FetchEndsBehind};
ghost use Rattle.pp_node.specs.Seeding.{words_of, dials_of, earlier_of, service_of, told_of, ReportsSeed, Judges, Finishes, Serves, HasServed};
ghost use Rattle.pp_node.specs.Status.{number_of};
ghost use Rattle.pp_turns.specs.Taking.{IsSized};
ghost use Rattle.pp_turns.specs.Turning.{post, IsBegun};

use crate::checking::put_not_a_store;
use crate::counting::{put_counts, total};
use crate::preparing::{Peering, Ready, SeedFault, prepare};
use crate::printing::put_counted;
use crate::ranges::put_held;
use crate::status::Status;
use pp_core::Peer;
use pp_outside::{Disk, Link, Sink, SinkFault};
use pp_stream::put_all;
use pp_tree::Book;
use pp_turns::take_turns;
use std::alloc::Global;

/// Does what `seed` or `fetch` says: attaches the named store, listens, serves the chunks that it holds for `turns` turns of at most
/// 100,000 microseconds each, or asks for those that it lacks too until all are committed; then it closes the channels, and prints
/// which chunks the peer has and 22 lines of what it counted. A fetch that lacks some chunk names the first. The book is empty at
/// entry, and at the end it is the peer's.
pub(crate) fn share<D: Disk, L: Link, K: Sink>(
    alloc: Global,
    words: &Peering<'_>,
    disk: &mut D,
    link: &mut L,
    sink: &mut K,
    book: &mut Book,
) -> Status
    requires empty { book.old ≡ empty_book }
    ensures seeds { words.now.asks ≡ None → words.now.earlier ≡ None → (source : SourceState)
        → SeedEnds (number_of result) (words_of words.now)
        (outside (D.state disk.old) (L.seen link.old) source (K.state sink.old) book.old)
        (outside (D.state disk.new) (L.seen link.new) source (K.state sink.new) book.new) }
    ensures fetches { is_some words.now.asks ≡ true → (source : SourceState)
        → FetchEndsBehind (earlier_of words.now) (number_of result) (words_of words.now) (dials_of words.now)
        (outside (D.state disk.old) (L.seen link.old) source (K.state sink.old) book.old)
        (outside (D.state disk.new) (L.seen link.new) source (K.state sink.new) book.new) }
{
    match prepare(alloc, words, disk, link) {
        Ok(ready) => serve(ready, words, disk, link, sink, book),
        Err(fault) => report(fault, sink),
    }
}

/// Takes the turns, closes the channels and reports; the book becomes the peer's.
pub(crate) fn serve<D: Disk, L: Link, K: Sink>(
    ready: Ready,
    words: &Peering<'_>,
    disk: &mut D,
    link: &mut L,
    sink: &mut K,
    book: &mut Book,
) -> Status
    requires room { length ready.buffer.items ≡ 65536 }
    ensures { (b : Beginning) → IsBegun b (post ready.peer (D.state disk.old) (L.seen link.old))
        → HasServed result (service_of words.now) b (post ready.peer (D.state disk.old) (L.seen link.old))
        (D.state disk.new) (L.seen link.new) book.new (K.state sink.old) (K.state sink.new) }
{
    let Ready {
        mut peer,
        mut buffer,
    } = ready;
    let status = take_all(&mut peer, words, &mut buffer, disk, link, sink);
    *book = peer.into_book();
    status
}

// Takes the turns; where the disk refused nothing in them, closes the channels and reports.
fn take_all<D: Disk, L: Link, K: Sink>(
    peer: &mut Peer,
    words: &Peering<'_>,
    buffer: &mut [u8],
    disk: &mut D,
    link: &mut L,
    sink: &mut K,
) -> Status
    requires room { length buffer.old ≡ 65536 }
    ensures { (b : Beginning) → IsBegun b (post peer.old (D.state disk.old) (L.seen link.old))
        → Serves result (service_of words.now) b (post peer.old (D.state disk.old) (L.seen link.old))
        (post peer.new (D.state disk.new) (L.seen link.new)) (K.state sink.old) (K.state sink.new) }
{
    let fetches = words.asks.is_some();
    match take_turns(peer, words.turns, fetches, buffer, disk, link) {
        Ok(()) => finish(peer, words, disk, link, sink),
        Err(_) => report(SeedFault::Disk, sink),
    }
}

// Closes the channels and reports.
fn finish<D: Disk, L: Link, K: Sink>(
    peer: &mut Peer,
    words: &Peering<'_>,
    disk: &D,
    link: &mut L,
    sink: &mut K,
) -> Status
    ensures closes { Closes peer.old peer.new (L.seen link.old) (L.seen link.new) (D.state disk.now) }
    ensures finishes { Finishes result (service_of words.now) peer.new (K.state sink.old) (K.state sink.new) }
    ensures sized { IsSized peer.new }
{
    peer.close(disk, link);
    // Its contract tells of how many chunks the set is.
    let _ = peer.book();
    match put_report(peer, words, sink) {
        Ok(()) => judge(peer, words.asks.is_some(), sink),
        Err(_) => Status::SinkFault,
    }
}

// Says which chunks the peer has, and what was counted.
fn put_report<K: Sink>(peer: &Peer, words: &Peering<'_>, sink: &mut K) -> Result<(), SinkFault>
    requires { IsSized peer.now }
    ensures said { OnOk result (SaysReport peer.now.parts.holding.store.committed (told_of (earlier_of words.now) peer.now) (K.state sink.old) (K.state sink.new)) }
    ensures cause { HasCause (K.state sink.old).faults (K.state sink.new).faults result }
{
    put_held(peer.committed(), peer.descriptor().chunks(), sink)?;
    match words.earlier {
        Some(counts) => put_counts(&total(counts, peer.counts()), sink),
        None => put_counts(peer.counts(), sink),
    }
}

// A fetch is done where all chunks are committed. A line that the sink refuses is given up.
fn judge<K: Sink>(peer: &Peer, fetches: bool, sink: &mut K) -> Status
    ensures { Judges result fetches peer.now (K.state sink.old) (K.state sink.new) }
{
    match peer.committed().first_absent() {
        Some(first) if fetches => {
            let _ = put_counted(
                sink,
                b"incomplete: first missing chunk ",
                u64::from(first),
                b"\n",
            );
            Status::Incomplete
        }
        _ => Status::Done,
    }
}

/// Says what was at fault. A line that the sink refuses is given up.
pub(crate) fn report<K: Sink>(fault: SeedFault, sink: &mut K) -> Status
    ensures { ReportsSeed fault result (K.state sink.old) (K.state sink.new) }
{
    match fault {
        SeedFault::NotAStore { at, found, want } => {
            let _ = put_not_a_store(at, found, want, sink);
            Status::NotAStore
        }
        SeedFault::Disk => {
            let _ = put_all(sink, b"disk fault\n");
            Status::DiskFault
        }
        SeedFault::Link => {
            let _ = put_all(sink, b"link fault\n");
            Status::LinkFault
        }
        SeedFault::Memory => Status::Memory,
    }
}
