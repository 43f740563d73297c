// The command `fetch STORE DESC LISTEN TURNS ORDER PEER..`, also where DESC names a swarm without its size, which the store's header tells,
// or the last chunk that another peer sends.
ghost use Rattle.std.specs.Prelude.{◌≡◌, Option, None, Some, true, List, is_some, [], OnOk};
ghost use Rattle.pp_terms.specs.Count.{HasCause};
ghost use Rattle.pp_terms.specs.command.Report.{SaysReport};
ghost use Rattle.pp_terms.specs.command.Stream.{SourceState};
ghost use Rattle.pp_terms.specs.disk.Disk.{DiskState, IsKnown};
ghost use Rattle.pp_terms.specs.disk.Untouched.{IsFreshlyAttached};
ghost use Rattle.pp_terms.specs.format.Traffic as traffic;
ghost use Rattle.pp_terms.specs.format.Traffic.{LinkState, GainsAddress};
ghost use Rattle.pp_terms.specs.tree.Content.{IsChunkSize};
ghost use Rattle.pp_counts.specs.Counts.{tally_of};
ghost use Rattle.pp_outside.specs.Outside.{address_of};
ghost use Rattle.pp_tree.specs.Book.{empty_book};
ghost use Rattle.pp_targets.specs.Names.{target_of};
ghost use Rattle.pp_targets.specs.TargetText.{IsTarget};
ghost use Rattle.pp_node.specs.Looking.{IsOf};
ghost use Rattle.pp_node.specs.Naming.{HasAttached};
ghost use Rattle.pp_node.specs.NamedFetching.{SoughtEnds, TargetFetchEnds, UnlearnedIn, dials_in, sought_of, words_at};
ghost use Rattle.pp_node.specs.NamedSeeding.{KeepsFound};
ghost use Rattle.pp_node.specs.Outside.{outside};
ghost use Rattle.pp_node.specs.Preparing.{IsUnsent};
ghost use Rattle.pp_node.specs.Promising.{FetchEndsBehind};
ghost use Rattle.pp_node.specs.Seeding.{words_of, dials_of, earlier_of};
ghost use Rattle.pp_node.specs.Status.{number_of};

use crate::counting::put_counts;
use crate::named_seeding::share_told;
use crate::naming::{find_descriptor, report as report_naming};
use crate::preparing::{Peering, SeedFault, open_peer, room};
use crate::seeding::{report, serve, share};
use crate::status::Status;
use arrayvec::ArrayVec;
use pp_avail::Rank;
use pp_counts::Counts;
use pp_learner::Learner;
use pp_outside::{Address, Disk, Link, Sink, SinkFault};
use pp_sizing::{Lesson, learn_size};
use pp_stream::put_all;
use pp_targets::{SwarmName, Target};
use pp_tree::{Book, Descriptor};
use pp_turns::WAIT_US;
use std::alloc::Global;

/// What the words of `fetch` name. Channel numbers are drawn from `random`, 32 bytes that nobody can guess.
#[derive(Drop)]
pub(crate) struct Fetching<'a> {
    pub(crate) store: &'a str,
    pub(crate) target: &'a Target,
    pub(crate) listen: &'a Address,
    pub(crate) turns: u32,
    pub(crate) rank: Rank,
    pub(crate) dial: &'a ArrayVec<Address, 16>,
    pub(crate) random: [u8; 32],
}

// The swarm that the target names without its size.
#[derive(Drop)]
struct Search<'a> {
    name: &'a SwarmName,
    words: &'a Fetching<'a>,
}

impl Fetching<'_> {
    // The words of a peer of the descriptor.
    fn of<'b>(&'b self, descriptor: &'b Descriptor) -> Peering<'b>
        ensures words { words_of result ≡ words_at self.now descriptor.now self.now.turns }
        ensures dials { dials_of result ≡ dials_in self.now }
        ensures asks { is_some result.asks ≡ true }
        ensures alone { result.earlier ≡ None }
    {
        Peering {
            store: self.store,
            descriptor,
            listen: self.listen,
            turns: self.turns,
            asks: Some(self.rank),
            dial: self.dial,
            random: self.random,
            earlier: None,
        }
    }

    // The words of a peer of the descriptor that was learned, for the turns that are left. Its channels have other numbers than the
    // learner's: the first of its random bytes is another.
    fn behind<'b>(&'b self, lesson: &'b Lesson, counts: &'b Counts) -> Peering<'b>
        ensures words { words_of result ≡ words_at self.now lesson.now.descriptor lesson.now.left }
        ensures dials { dials_of result ≡ dials_in self.now }
        ensures asks { is_some result.asks ≡ true }
        ensures earlier { earlier_of result ≡ Some (tally_of counts.now) }
    {
        let mut random = self.random;
        random[0] ^= 1;
        Peering {
            store: self.store,
            descriptor: &lesson.descriptor,
            listen: self.listen,
            turns: lesson.left,
            asks: Some(self.rank),
            dial: self.dial,
            random,
            earlier: Some(counts),
        }
    }
}

/// Does what `fetch` says, by either form of its swarm's text. Where the store's header tells the size, it is fetched by that. For an empty
/// file a learner dials the peers and asks them for their last chunks; where one of these tells the size, a peer fetches the content in
/// the turns that are left, and the report adds what both counted.
pub(crate) fn fetch_target<D: Disk, L: Link, K: Sink>(
    alloc: Global,
    words: &Fetching<'_>,
    disk: &mut D,
    link: &mut L,
    sink: &mut K,
    book: &mut Book,
) -> Status
    requires empty { book.old ≡ empty_book }
    requires valid { IsTarget (target_of words.now.target.now) }
    ensures { (source : SourceState)
        → TargetFetchEnds (number_of result) words.now.store.now (target_of words.now.target.now) (address_of words.now.listen.now)
        words.now.turns (dials_in words.now)
        (outside (D.state disk.old) (L.seen link.old) source (K.state sink.old) book.old)
        (outside (D.state disk.new) (L.seen link.new) source (K.state sink.new) book.new) }
{
    match words.target {
        Target::Sized(descriptor) => share(alloc, &words.of(descriptor), disk, link, sink, book),
        Target::Auto(name) => match find_descriptor(words.store, name, disk) {
            Ok(Some(descriptor)) => {
                share_told(alloc, &words.of(&descriptor), disk, link, sink, book)
            }
            Ok(None) => seek(alloc, &Search { name, words }, disk, link, sink, book),
            Err(fault) => report_naming(fault, sink),
        },
    }
}

// Begins to listen, learns the size, and fetches the content.
fn seek<D: Disk, L: Link, K: Sink>(
    alloc: Global,
    search: &Search<'_>,
    disk: &mut D,
    link: &mut L,
    sink: &mut K,
    book: &mut Book,
) -> Status
    requires empty { book.old ≡ empty_book }
    requires size { IsChunkSize search.now.name.now.chunk }
    requires attached { IsKnown (D.state disk.old) → IsFreshlyAttached (D.state disk.old).history }
    requires nothing { IsKnown (D.state disk.old) → (D.state disk.old).history.reads ≡ [] }
    ensures { (before : DiskState) (source : SourceState) → HasAttached search.now.words.now.store.now before (D.state disk.old)
        → SoughtEnds (number_of result) (sought_of search.now) (dials_in search.now.words.now)
        (outside before (L.seen link.old) source (K.state sink.old) book.old)
        (outside (D.state disk.new) (L.seen link.new) source (K.state sink.new) book.new) }
{
    match link.bind(search.words.listen) {
        Ok(()) => learn(alloc, search, disk, link, sink, book),
        Err(_) => report(SeedFault::Link, sink),
    }
}

// Learns the size over a link that was bound, and fetches the content.
fn learn<D: Disk, L: Link, K: Sink>(
    alloc: Global,
    search: &Search<'_>,
    disk: &mut D,
    link: &mut L,
    sink: &mut K,
    book: &mut Book,
) -> Status
    requires empty { book.old ≡ empty_book }
    requires size { IsChunkSize search.now.name.now.chunk }
    requires attached { IsKnown (D.state disk.old) → IsFreshlyAttached (D.state disk.old).history }
    requires nothing { IsKnown (D.state disk.old) → (D.state disk.old).history.reads ≡ [] }
    ensures { (before : DiskState) (unbound : LinkState) (source : SourceState)
        → HasAttached search.now.words.now.store.now before (D.state disk.old) → IsUnsent unbound (L.seen link.old)
        → GainsAddress unbound.bound (address_of search.now.words.now.listen.now) (L.seen link.old).bound
        → SoughtEnds (number_of result) (sought_of search.now) (dials_in search.now.words.now)
        (outside before unbound source (K.state sink.old) book.old)
        (outside (D.state disk.new) (L.seen link.new) source (K.state sink.new) book.new) }
{
    let words = search.words;
    let Ok(mut buffer) = room(alloc) else {
        return Status::Memory;
    };
    let Ok(mut learner) = Learner::open(alloc, search.name, words.random, words.dial.as_slice())
    else {
        return Status::Memory;
    };
    match learn_size(&mut learner, words.turns, WAIT_US, &mut buffer, disk, link) {
        Some(lesson) => {
            let peering = words.behind(&lesson, learner.counts());
            fetch_learned(alloc, &peering, disk, link, sink, book)
        }
        None => report_nothing(learner.counts(), sink),
    }
}

// Fetches the content of the descriptor that was learned, over a link that was bound.
fn fetch_learned<D: Disk, L: Link, K: Sink>(
    alloc: Global,
    words: &Peering<'_>,
    disk: &mut D,
    link: &mut L,
    sink: &mut K,
    book: &mut Book,
) -> Status
    requires empty { book.old ≡ empty_book }
    requires asks { is_some words.now.asks ≡ true }
    requires attached { IsKnown (D.state disk.old) → IsFreshlyAttached (D.state disk.old).history }
    requires begins { IsKnown (D.state disk.old) → IsOf words.now.descriptor.now (D.state disk.old).history.reads }
    ensures { (before : DiskState) (bound : Option (List traffic.Address)) (source : SourceState)
        → HasAttached words.now.store.now before (D.state disk.old)
        → GainsAddress bound (address_of words.now.listen.now) (L.seen link.old).bound
        → KeepsFound (D.state disk.old) (D.state disk.new)
        × FetchEndsBehind (earlier_of words.now) (number_of result) (words_of words.now) (dials_of words.now)
        (outside before (record (L.seen link.old) { bound = bound }) source (K.state sink.old) book.old)
        (outside (D.state disk.new) (L.seen link.new) source (K.state sink.new) book.new) }
{
    match open_peer(alloc, words, disk) {
        Ok(ready) => serve(ready, words, disk, link, sink, book),
        Err(fault) => report(fault, sink),
    }
}

// Reports that no size was learned, and so no chunk is there. A last line that the sink refuses is given up.
fn report_nothing<K: Sink>(counts: &Counts, sink: &mut K) -> Status
    ensures { UnlearnedIn result (tally_of counts.now) (K.state sink.old) (K.state sink.new) }
{
    match put_nothing(counts, sink) {
        Ok(()) => {
            let _ = put_all(sink, b"incomplete: first missing chunk 0\n");
            Status::Incomplete
        }
        Err(_) => Status::SinkFault,
    }
}

fn put_nothing<K: Sink>(counts: &Counts, sink: &mut K) -> Result<(), SinkFault>
    ensures said { OnOk result (SaysReport [] (tally_of counts.now) (K.state sink.old) (K.state sink.new)) }
    ensures cause { HasCause (K.state sink.old).faults (K.state sink.new).faults result }
{
    put_all(sink, b"held 0 of 0 none\n")?;
    put_counts(counts, sink)
}
