// The command `seed STORE DESC LISTEN TURNS`, also where DESC names a swarm without its size, which the store's header tells.
ghost use Rattle.std.specs.Prelude.{◌≡◌, ◌<◌, None, length};
ghost use Rattle.pp_terms.specs.command.Stream.{SourceState};
ghost use Rattle.pp_terms.specs.disk.Disk.{DiskState, IsKnown};
ghost use Rattle.pp_terms.specs.disk.Store.{HasHeader};
ghost use Rattle.pp_terms.specs.disk.Untouched.{IsFreshlyAttached};
ghost use Rattle.pp_outside.specs.Outside.{address_of};
ghost use Rattle.pp_tree.specs.Book.{empty_book};
ghost use Rattle.pp_targets.specs.Names.{target_of};
ghost use Rattle.pp_targets.specs.TargetText.{IsTarget};
ghost use Rattle.pp_node.specs.Naming.{HasAttached};
ghost use Rattle.pp_node.specs.NamedFetching.{SharesTold};
ghost use Rattle.pp_node.specs.NamedSeeding.{KeepsFound, TargetSeedEnds, words_for};
ghost use Rattle.pp_node.specs.Outside.{outside};
ghost use Rattle.pp_node.specs.Seeding.{words_of};
ghost use Rattle.pp_node.specs.Status.{number_of};

use crate::naming::{put_shape, report as report_naming, tell_descriptor};
use crate::preparing::{Peering, Ready, listen_and_open};
use crate::seeding::{report, serve, share};
use crate::status::Status;
use arrayvec::ArrayVec;
use pp_named::first_misshapen;
use pp_outside::{Address, Disk, Link, Sink};
use pp_targets::Target;
use pp_tree::{Book, Descriptor};
use std::alloc::Global;

/// What the words of `seed` name. Channel numbers are drawn from `random`, 32 bytes that nobody can guess.
#[derive(Drop)]
pub(crate) struct Sharing<'a> {
    pub(crate) store: &'a str,
    pub(crate) target: &'a Target,
    pub(crate) listen: &'a Address,
    pub(crate) turns: u32,
    pub(crate) random: [u8; 32],
}

impl Sharing<'_> {
    // The words of a peer of the descriptor, which dials nobody.
    fn of<'b>(&'b self, descriptor: &'b Descriptor, dial: &'b ArrayVec<Address, 16>) -> Peering<'b>
        ensures words { words_of result ≡ words_for self.now descriptor.now }
        ensures idle { result.asks ≡ None }
        ensures alone { result.earlier ≡ None }
    {
        Peering {
            store: self.store,
            descriptor,
            listen: self.listen,
            turns: self.turns,
            asks: None,
            dial,
            random: self.random,
            earlier: None,
        }
    }
}

/// Does what `seed` says, by either form of its swarm's text.
pub(crate) fn seed_target<D: Disk, L: Link, K: Sink>(
    alloc: Global,
    words: &Sharing<'_>,
    disk: &mut D,
    link: &mut L,
    sink: &mut K,
    book: &mut Book,
) -> Status
    requires empty { book.old ≡ empty_book }
    requires valid { IsTarget (target_of words.now.target.now) }
    ensures { (source : SourceState)
        → TargetSeedEnds (number_of result) words.now.store.now (target_of words.now.target.now) (address_of words.now.listen.now) words.now.turns
        (outside (D.state disk.old) (L.seen link.old) source (K.state sink.old) book.old)
        (outside (D.state disk.new) (L.seen link.new) source (K.state sink.new) book.new) }
{
    let none = ArrayVec::new();
    match words.target {
        Target::Sized(descriptor) => {
            share(alloc, &words.of(descriptor, &none), disk, link, sink, book)
        }
        Target::Auto(name) => match tell_descriptor(words.store, name, disk) {
            Ok(descriptor) => {
                share_told(alloc, &words.of(&descriptor, &none), disk, link, sink, book)
            }
            Err(fault) => report_naming(fault, sink),
        },
    }
}

/// Seeds or fetches the descriptor that the header of the attached store told, unless a node of the scanned book is out of shape.
pub(crate) fn share_told<D: Disk, L: Link, K: Sink>(
    alloc: Global,
    words: &Peering<'_>,
    disk: &mut D,
    link: &mut L,
    sink: &mut K,
    book: &mut Book,
) -> Status
    requires empty { book.old ≡ empty_book }
    requires alone { words.now.earlier ≡ None }
    requires attached { IsKnown (D.state disk.old) → IsFreshlyAttached (D.state disk.old).history }
    requires some { IsKnown (D.state disk.old) → 0 < length (D.state disk.old).history.reads }
    requires begins { IsKnown (D.state disk.old) → HasHeader words.now.descriptor.now (D.state disk.old).history.reads }
    ensures { (before : DiskState) (source : SourceState) → HasAttached words.now.store.now before (D.state disk.old)
        → KeepsFound (D.state disk.old) (D.state disk.new)
        × SharesTold words.now (number_of result)
        (outside before (L.seen link.old) source (K.state sink.old) book.old)
        (outside (D.state disk.new) (L.seen link.new) source (K.state sink.new) book.new) }
{
    match listen_and_open(alloc, words, disk, link) {
        Ok(ready) => match first_misshapen(ready.peer.book()) {
            None => serve(ready, words, disk, link, sink, book),
            Some(node) => {
                let Ready { peer, buffer: _ } = ready;
                *book = peer.into_book();
                let _ = put_shape(node, sink);
                Status::Shape
            }
        },
        Err(fault) => report(fault, sink),
    }
}
