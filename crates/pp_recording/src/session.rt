// The recording of a session in memory.
ghost use Rattle.std.specs.Prelude.{◌≡◌, ◌↔◌, ℕ, ◌+◌, ◌-◌, ◌^◌, ◌<◌, ◌≤◌, List, None, suc, length, reverse, IsTrue, IfOk, IfErr, OnOk};
ghost use Rattle.hex.specs.Hex.{IsBytes};
ghost use Rattle.pp_terms.specs.format.Descriptor as descriptors;
ghost use Rattle.pp_terms.specs.format.Descriptor.{height_of};
ghost use Rattle.pp_outside.specs.MemoryLink.{in_order};
ghost use Rattle.pp_outside.specs.Outside.{address_of};
ghost use Rattle.pp_outside.specs.Records.{marked};
ghost use Rattle.pp_tree.specs.Book.{entry, IsInTree, IsPreparedFor};
ghost use Rattle.pp_recording.specs.Recording.{node_with, first_nodes, nodes_of, IsDatagram, IsKeptRecord, AreDigestsOf};
ghost use Rattle.pp_recording.specs.Sessions.{IsOfSession, IsSessionFault, entry_at, IsTraffic, IsCopied, IsNode, IsFirst, IsSmall};

use crate::parts::has_port;
use crate::recording::{Entry, Recording};
use crate::writing::text_of;
use pp_outside::{Address, Mark, MemoryLink};
use pp_tree::{Book, Descriptor, Digest, Node};
use std::alloc::{AllocError, Global};

const MOST_RECORDS: usize = 16_384;

const MOST_NODES: usize = 65_536;

const MOST_TEXT: usize = 16_777_216;

const MOST_BYTES: usize = 65_536;

/// Why a session gives no recording: it has more than 16,384 records, its book knows more than 65,536 nodes, its text would
/// have more than 16,777,216 bytes, or a datagram has more than 65,536 bytes or an address with port 0; or there is no
/// memory.
#[derive(Clone, Copy, PartialEq, Eq, Debug)]
pub enum SessionFault {
    Limit {
        records: usize,
        nodes: usize,
        bytes: u64,
    },
    Memory,
}

// The records of a link as entries, and whether a recording may have each of them.
#[derive(Drop)]
pub(crate) struct Traffic {
    entries: Vec<Entry>,
    bytes: Vec<u8>,
    is_kept: bool,
}

// How many records, nodes and bytes of its text a recording has.
#[derive(Clone, Copy)]
pub(crate) struct Size {
    records: usize,
    nodes: usize,
    bytes: usize,
}

/// The recording of a session: the traffic of its link, and what its book knows of the swarm's tree.
pub fn of_session(
    alloc: Global,
    descriptor: &Descriptor,
    book: &Book,
    link: &MemoryLink,
) -> Result<Recording, SessionFault>
    ensures ok { IfOk result (IsOfSession descriptor.now (entry book.now) (reverse (in_order link.now))) }
    ensures fault { IfErr result (IsSessionFault descriptor.now (entry book.now) (reverse (in_order link.now))) }
{
    let Ok(traffic) = gather(alloc, link) else {
        return Err(SessionFault::Memory);
    };
    let mut known = Book::empty(alloc);
    let Ok(()) = known.blank(alloc, descriptor) else {
        return Err(SessionFault::Memory);
    };
    let nodes = copy_all(book, &mut known, descriptor);
    let Ok(text) = text_of(alloc, descriptor, &known, &traffic.entries, &traffic.bytes) else {
        return Err(SessionFault::Memory);
    };
    tell_digest(&descriptor.root());
    let size = Size {
        records: traffic.entries.len(),
        nodes,
        bytes: text.len(),
    };
    if !size.fits(traffic.is_kept) {
        return Err(SessionFault::Limit {
            records: size.records,
            nodes: size.nodes,
            bytes: size.bytes as u64,
        });
    }
    Ok(Recording::new(*descriptor, known, traffic.entries, traffic.bytes))
}

impl Size {
    // Whether a recording may be of that size, where each record may stand in one.
    fn fits(&self, is_kept: bool) -> bool
        ensures { IsTrue result ↔ IsSmall is_kept self.now }
    {
        is_kept
            && self.records <= MOST_RECORDS
            && self.nodes <= MOST_NODES
            && self.bytes <= MOST_TEXT
    }
}

// ---- the traffic

// The entry of a mark whose datagram lies so.
fn entry_at(mark: Mark, start: usize, len: usize) -> Entry
    ensures { result ≡ entry_at mark start len }
{
    match mark {
        Mark::Received { at, from } => Entry::Received {
            at,
            from,
            start,
            len,
        },
        Mark::Quiet { at } => Entry::Quiet { at },
        Mark::Sent { moment, to } => Entry::Sent {
            moment,
            to,
            start,
            len,
        },
    }
}

// Whether a recording may have that datagram, from or to the address.
fn is_datagram(address: &Address, bytes: &[u8]) -> bool
    ensures { (number : ℕ) → number < 2 ^ 64 → IsTrue result ↔ IsDatagram number (address_of address.now) bytes.now }
{
    tell_bytes(bytes);
    has_port(address) && bytes.len() <= MOST_BYTES
}

// Does nothing. Its contract tells that bytes are numbers below 256.
fn tell_bytes(_bytes: &[u8])
    ensures { IsBytes _bytes.now }
{}

// Whether a recording may have the record of a mark with that datagram.
fn is_kept(mark: Mark, bytes: &[u8]) -> bool
    ensures { IsTrue result ↔ IsKeptRecord (marked mark bytes.now) }
{
    match mark {
        Mark::Received { from, .. } => is_datagram(&from, bytes),
        Mark::Sent { to, .. } => is_datagram(&to, bytes),
        Mark::Quiet { .. } => true,
    }
}

// Adds record n of the link.
fn add_record(traffic: &mut Traffic, link: &MemoryLink, n: usize) -> Result<(), AllocError>
    requires within { n < length (in_order link.now) }
    requires before { IsTraffic n (in_order link.now) traffic.old }
    ensures { OnOk result (IsTraffic (n + 1) (in_order link.now) traffic.new) }
{
    let mark = link.mark(n);
    let bytes = link.mark_bytes(n);
    let start = traffic.bytes.len();
    traffic.entries.push(entry_at(mark, start, bytes.len()))?;
    traffic.bytes.extend_from_slice(bytes)?;
    traffic.is_kept = is_kept(mark, bytes) & traffic.is_kept;
    Ok(())
}

// The records of a link.
fn gather(alloc: Global, link: &MemoryLink) -> Result<Traffic, AllocError>
    ensures { IfOk result (IsTraffic (length (in_order link.now)) (in_order link.now)) }
{
    let mut traffic = Traffic {
        entries: Vec::with_capacity(alloc, link.marks())?,
        bytes: Vec::new(alloc),
        is_kept: true,
    };
    for n in 0..link.marks() {
        add_record(&mut traffic, link, n)?;
    }
    Ok(traffic)
}

// ---- the book

// Does nothing. Its contract tells that a digest has 32 bytes, each a number below 256.
fn tell_digest(digest: &Digest)
    ensures size { length digest.now ≡ 32 }
    ensures bytes { IsBytes digest.now }
{
    tell_bytes(digest.bytes().as_slice());
}

// Enters a node, which wasn't known, where another book knows it, and tells how many nodes that are.
fn copy_node(from: &Book, to: &mut Book, node: Node) -> usize
    requires place { (d : descriptors.Descriptor) × IsPreparedFor d to.old × IsInTree d node.layer node.offset }
    requires absent { entry to.old node.layer node.offset ≡ None }
    requires digests { AreDigestsOf (entry to.old) }
    ensures copied { IsCopied (IsNode node.layer node.offset) (entry from.now) (entry to.old) (entry to.new) }
    ensures count { result ≡ length (node_with node.layer node.offset (entry from.now node.layer node.offset)) }
    ensures few { result ≤ 1 }
    ensures prepared { (d : descriptors.Descriptor) → IsPreparedFor d to.old → IsPreparedFor d to.new }
    ensures digests { AreDigestsOf (entry to.new) }
{
    match from.get(node) {
        Some(digest) => {
            tell_digest(&digest);
            to.set(node, &digest);
            1
        }
        None => 0,
    }
}

// Enters the first nodes of a layer, none of which was known.
fn copy_layer(from: &Book, to: &mut Book, layer: u8, count: u32) -> usize
    requires place { (d : descriptors.Descriptor) × IsPreparedFor d to.old × (layer ≤ height_of d) × (count ≤ 2 ^ (height_of d - layer)) }
    requires absent { (i : ℕ) → entry to.old layer i ≡ None }
    requires digests { AreDigestsOf (entry to.old) }
    ensures copied { IsCopied (IsFirst layer count) (entry from.now) (entry to.old) (entry to.new) }
    ensures count { result ≡ length (first_nodes (entry from.now) layer count) }
    ensures few { result ≤ count }
    ensures prepared { (d : descriptors.Descriptor) → IsPreparedFor d to.old → IsPreparedFor d to.new }
    ensures digests { AreDigestsOf (entry to.new) }
{
    let mut nodes = 0;
    for offset in 0..count {
        nodes += copy_node(from, to, Node { layer, offset });
    }
    nodes
}

// Enters the nodes of the whole tree, none of which was known.
fn copy_all(from: &Book, to: &mut Book, descriptor: &Descriptor) -> usize
    requires place { IsPreparedFor descriptor.now to.old }
    requires absent { (k j : ℕ) → entry to.old k j ≡ None }
    ensures copied { IsCopied (IsInTree descriptor.now) (entry from.now) (entry to.old) (entry to.new) }
    ensures count { result ≡ length (nodes_of descriptor.now (entry from.now)) }
    ensures prepared { IsPreparedFor descriptor.now to.new }
    ensures digests { AreDigestsOf (entry to.new) }
{
    let height = descriptor.height();
    let mut nodes = 0;
    for layer in 0..height + 1 {
        nodes += copy_layer(from, to, layer, 1 << (height - layer));
    }
    nodes
}
