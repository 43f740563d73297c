// A peer is made ready to seed or to fetch.
ghost use Rattle.std.specs.Prelude.{◌≡◌, ◌<◌, length, IfOk};
ghost use Rattle.pp_terms.specs.disk.Disk.{IsKnown, GainsName};
ghost use Rattle.pp_outside.specs.Outside.{address_of};
ghost use Rattle.pp_terms.specs.disk.Untouched.{IsFreshlyAttached, IsSyncedAtMost};
ghost use Rattle.pp_node.specs.Looking.{IsOf, Lasts};
ghost use Rattle.pp_node.specs.Preparing.{IsUnsent, HasPrepared, HasOpenedPeer, LeavesDisk, LeavesLink, fault_of_probe, fault_of_open};

use arrayvec::ArrayVec;
use pp_avail::Rank;
use pp_core::Peer;
use pp_counts::Counts;
use pp_outside::{Address, Disk, Link};
use pp_scan::ScanFault;
use pp_store::{ProbeFault, probe};
use pp_tree::Descriptor;
use std::alloc::{AllocError, Global};

/// What the words of `seed` or `fetch` name. A peer that fetches has an order in which it asks for chunks, and addresses that it
/// dials. Channel numbers are drawn from `random`, 32 bytes that nobody can guess. The report adds what was counted earlier in the run.
#[derive(Drop)]
pub(crate) struct Peering<'a> {
    pub(crate) store: &'a str,
    pub(crate) descriptor: &'a Descriptor,
    pub(crate) listen: &'a Address,
    pub(crate) turns: u32,
    pub(crate) asks: Option<Rank>,
    pub(crate) dial: &'a ArrayVec<Address, 16>,
    pub(crate) random: [u8; 32],
    pub(crate) earlier: Option<&'a Counts>,
}

/// Why a peer couldn't be made ready.
#[derive(Clone, Copy, Debug, PartialEq, Eq)]
pub(crate) enum SeedFault {
    /// Byte `at`, below 64, of the file is the first that differs from the header.
    NotAStore { at: u8, found: u8, want: u8 },
    /// The disk refused a call.
    Disk,
    /// The link refused to listen.
    Link,
    /// There was no memory.
    Memory,
}

impl SeedFault {
    fn of_probe(fault: ProbeFault) -> SeedFault
        ensures { result ≡ fault_of_probe fault }
    {
        match fault {
            ProbeFault::NotAStore { at, found, want } => SeedFault::NotAStore { at, found, want },
            ProbeFault::Disk => SeedFault::Disk,
        }
    }

    fn of_open(fault: ScanFault) -> SeedFault
        ensures { result ≡ fault_of_open fault }
    {
        match fault {
            ScanFault::NotAStore { at, found, want } => SeedFault::NotAStore { at, found, want },
            ScanFault::Disk => SeedFault::Disk,
            ScanFault::Memory => SeedFault::Memory,
        }
    }
}

/// A peer of an open store, and the room for a datagram that comes.
#[derive(Drop)]
pub(crate) struct Ready {
    pub(crate) peer: Peer,
    pub(crate) buffer: Vec<u8>,
}

/// The longest datagram that comes, in bytes.
const LONGEST: usize = 65_536;

/// Attaches the named store, begins to listen, takes all memory and opens the store, in this order.
pub(crate) fn prepare<D: Disk, L: Link>(
    alloc: Global,
    words: &Peering<'_>,
    disk: &mut D,
    link: &mut L,
) -> Result<Ready, SeedFault>
    ensures prepared { HasPrepared words.now (D.state disk.old) (D.state disk.new) (L.seen link.old) (L.seen link.new) result }
    ensures lasts { IsKnown (D.state disk.old) → Lasts words.now.descriptor.now (D.state disk.new).history }
    // A file that wasn't empty is not written to, whatever it answers.
    ensures unwritten { IsKnown (D.state disk.old) → 0 < length (D.state disk.new).history.found
        → IsSyncedAtMost (D.state disk.new).history }
    ensures disk { IsKnown (D.state disk.old) → LeavesDisk words.now.descriptor.now (D.state disk.new).history result }
    ensures named { IsKnown (D.state disk.old)
        → GainsName (D.state disk.old).history.names words.now.store.now (D.state disk.new).history.names }
    ensures link { LeavesLink (L.seen link.old).bound (address_of words.now.listen.now) (L.seen link.new).bound result }
    ensures unsent { IsUnsent (L.seen link.old) (L.seen link.new) }
{
    match disk.attach(words.store) {
        Ok(()) => prepare_attached(alloc, words, disk, link),
        Err(_) => Err(SeedFault::Disk),
    }
}

fn prepare_attached<D: Disk, L: Link>(
    alloc: Global,
    words: &Peering<'_>,
    disk: &mut D,
    link: &mut L,
) -> Result<Ready, SeedFault>
    requires attached { IsKnown (D.state disk.old) → IsFreshlyAttached (D.state disk.old).history }
    ensures prepared { HasPrepared words.now (D.state disk.old) (D.state disk.new) (L.seen link.old) (L.seen link.new) result }
    ensures lasts { IsKnown (D.state disk.old) → Lasts words.now.descriptor.now (D.state disk.new).history }
    ensures unwritten { IsKnown (D.state disk.old) → 0 < length (D.state disk.new).history.found
        → IsSyncedAtMost (D.state disk.new).history }
    ensures disk { IsKnown (D.state disk.old) → LeavesDisk words.now.descriptor.now (D.state disk.new).history result }
    ensures names { IsKnown (D.state disk.old) → (D.state disk.new).history.names ≡ (D.state disk.old).history.names }
    ensures link { LeavesLink (L.seen link.old).bound (address_of words.now.listen.now) (L.seen link.new).bound result }
    ensures unsent { IsUnsent (L.seen link.old) (L.seen link.new) }
{
    match probe(words.descriptor, disk) {
        Ok(_) => listen_and_open(alloc, words, disk, link),
        Err(fault) => Err(SeedFault::of_probe(fault)),
    }
}

/// Begins to listen, takes all memory and opens the store, whose file is empty or begins with the header.
pub(crate) fn listen_and_open<D: Disk, L: Link>(
    alloc: Global,
    words: &Peering<'_>,
    disk: &mut D,
    link: &mut L,
) -> Result<Ready, SeedFault>
    requires attached { IsKnown (D.state disk.old) → IsFreshlyAttached (D.state disk.old).history }
    requires begins { IsKnown (D.state disk.old) → IsOf words.now.descriptor.now (D.state disk.old).history.reads }
    ensures prepared { HasPrepared words.now (D.state disk.old) (D.state disk.new) (L.seen link.old) (L.seen link.new) result }
    ensures lasts { IsKnown (D.state disk.old) → Lasts words.now.descriptor.now (D.state disk.new).history }
    ensures unwritten { IsKnown (D.state disk.old) → 0 < length (D.state disk.new).history.found
        → IsSyncedAtMost (D.state disk.new).history }
    ensures disk { IsKnown (D.state disk.old) → LeavesDisk words.now.descriptor.now (D.state disk.new).history result }
    ensures names { IsKnown (D.state disk.old) → (D.state disk.new).history.names ≡ (D.state disk.old).history.names }
    ensures found { IsKnown (D.state disk.old) → (D.state disk.new).history.found ≡ (D.state disk.old).history.found }
    ensures link { LeavesLink (L.seen link.old).bound (address_of words.now.listen.now) (L.seen link.new).bound result }
    ensures unsent { IsUnsent (L.seen link.old) (L.seen link.new) }
{
    match link.bind(words.listen) {
        Ok(()) => open_peer(alloc, words, disk),
        Err(_) => Err(SeedFault::Link),
    }
}

/// Room for the longest datagram.
pub(crate) fn room(alloc: Global) -> Result<Vec<u8>, AllocError>
    ensures { IfOk result (λ bytes. length bytes.items ≡ 65536) }
{
    vec![in alloc; 0; LONGEST]
}

/// Takes all memory and opens the store, whose file is empty or begins with the header.
pub(crate) fn open_peer<D: Disk>(
    alloc: Global,
    words: &Peering<'_>,
    disk: &mut D,
) -> Result<Ready, SeedFault>
    requires attached { IsKnown (D.state disk.old) → IsFreshlyAttached (D.state disk.old).history }
    requires begins { IsKnown (D.state disk.old) → IsOf words.now.descriptor.now (D.state disk.old).history.reads }
    ensures opened { HasOpenedPeer words.now (D.state disk.old) (D.state disk.new) result }
    ensures lasts { IsKnown (D.state disk.old) → Lasts words.now.descriptor.now (D.state disk.new).history }
    ensures unwritten { IsKnown (D.state disk.old) → 0 < length (D.state disk.new).history.found
        → IsSyncedAtMost (D.state disk.new).history }
    ensures disk { IsKnown (D.state disk.old) → LeavesDisk words.now.descriptor.now (D.state disk.new).history result }
    ensures names { IsKnown (D.state disk.old) → (D.state disk.new).history.names ≡ (D.state disk.old).history.names }
    ensures found { IsKnown (D.state disk.old) → (D.state disk.new).history.found ≡ (D.state disk.old).history.found }
{
    let Ok(buffer) = room(alloc) else {
        return Err(SeedFault::Memory);
    };
    match Peer::open(
        alloc,
        words.descriptor,
        words.random,
        words.asks,
        words.dial,
        disk,
    ) {
        Ok(peer) => Ok(Ready { peer, buffer }),
        Err(fault) => Err(SeedFault::of_open(fault)),
    }
}
