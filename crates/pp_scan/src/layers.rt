// The nodes of a tree, looked up in a store from the root down, with the gates that stand beside their pairs.
ghost use Rattle.std.specs.Prelude.{◌≡◌, ℕ, suc, ◌+◌, ◌-◌, ◌*◌, ◌/◌, ◌^◌, ◌<◌, ◌≤◌, ◌++◌, true, false, None, Some, length, take, drop, slice_index, slice_index_or, is_some, OnOk, OnErr, IfOk};
ghost use Rattle.sha2.specs.Sha256.{sha256};
ghost use Rattle.pp_terms.specs.tree.Book.{IsRooted};
ghost use Rattle.pp_terms.specs.format.Descriptor as terms;
ghost use Rattle.pp_terms.specs.format.Descriptor.{height_of, chunks_of};
ghost use Rattle.pp_terms.specs.disk.Image.{child, known, slice, is_open};
ghost use Rattle.pp_terms.specs.disk.Store.{pair_place, pair_slot};
ghost use Rattle.pp_terms.specs.disk.Disk.{IsKnown};
ghost use Rattle.pp_tree.specs.Book.{entry, HasRootAlone};
ghost use Rattle.pp_scan.specs.Look.{OnlyReads};
ghost use Rattle.pp_scan.specs.Layers.{IsUnder, IsBareUnder, HasKnownUnder, HasOnlyKnownUnder, HasKnown, HasOnlyKnown};
ghost use Rattle.pp_scan.specs.Gates.{IsSlotUnder, ShowsGates};

use crate::gates::mark;
use crate::layout::slot_place;
use pp_outside::{Disk, DiskFault};
use pp_tree::{Book, ChunkSet, Descriptor, Digest, Node, parent};

/// Adds to a book that has the root alone every node that the file lets be known, from the root down, and marks the chunks
/// in whose slots pairs were read by their gates. A slot's pair and gate are read together, and nothing of what isn't known.
/// `len` is the file's length in bytes.
pub(crate) fn know_nodes<D: Disk>(
    descriptor: &Descriptor,
    len: u64,
    disk: &mut D,
    book: &mut Book,
    set: &mut ChunkSet,
) -> Result<(), DiskFault>
    requires alone { HasRootAlone descriptor.now (entry book.old) }
    requires rooted { IsRooted descriptor.now (entry book.old) }
    requires room { length set.old ≡ chunks_of descriptor.now }
    requires counted { IsKnown (D.state disk.old) → len ≡ length (D.state disk.old).history.reads }

    ensures looks { OnlyReads (D.state disk.old) result (D.state disk.new) }
    ensures count { length set.new ≡ length set.old }
    ensures descriptor { book.new.descriptor ≡ book.old.descriptor }
    ensures kept { IsRooted descriptor.now (entry book.new) }
    ensures only { IsKnown (D.state disk.old) → HasOnlyKnown descriptor.now (D.state disk.old).history.reads (entry book.new) }
    ensures known { IsKnown (D.state disk.old) → OnOk result (HasKnown descriptor.now (D.state disk.old).history.reads (entry book.new)) }
    ensures gates { IsKnown (D.state disk.old)
        → OnOk result (ShowsGates descriptor.now (D.state disk.old).history.reads (height_of descriptor.now) 0 (entry book.new) set.new) }
{
    let root = Node {
        layer: descriptor.height(),
        offset: 0,
    };
    know_under(descriptor, len, root, disk, book, set)
}

// Adds the known nodes under a node.
fn know_under<D: Disk>(
    descriptor: &Descriptor,
    len: u64,
    node: Node,
    disk: &mut D,
    book: &mut Book,
    set: &mut ChunkSet,
) -> Result<(), DiskFault>
    requires low { node.layer ≤ height_of descriptor.now }
    requires first { (node.offset + 1) * 2 ^ node.layer ≤ 2 ^ 20 }
    requires bare { IsBareUnder node.layer node.offset (entry book.old) }
    requires room { length set.old ≡ chunks_of descriptor.now }
    requires counted { IsKnown (D.state disk.old) → len ≡ length (D.state disk.old).history.reads }

    ensures looks { OnlyReads (D.state disk.old) result (D.state disk.new) }
    ensures count { length set.new ≡ length set.old }
    ensures descriptor { book.new.descriptor ≡ book.old.descriptor }
    ensures kept { (d : terms.Descriptor) → IsRooted d (entry book.old) → IsRooted d (entry book.new) }
    ensures others { (l j : ℕ) → (IsUnder node.layer node.offset l j → ⊥) → entry book.new l j ≡ entry book.old l j }
    ensures only { IsKnown (D.state disk.old)
        → entry book.old node.layer node.offset ≡ known descriptor.now (D.state disk.old).history.reads node.layer node.offset
        → HasOnlyKnownUnder descriptor.now (D.state disk.old).history.reads node.layer node.offset (entry book.new) }
    ensures known { IsKnown (D.state disk.old)
        → entry book.old node.layer node.offset ≡ known descriptor.now (D.state disk.old).history.reads node.layer node.offset
        → OnOk result (HasKnownUnder descriptor.now (D.state disk.old).history.reads node.layer node.offset (entry book.new)) }
    ensures elsewhere { (s : ℕ) → (IsSlotUnder node.layer node.offset s → ⊥)
        → slice_index_or set.new s false ≡ slice_index_or set.old s false }
    ensures gates { IsKnown (D.state disk.old) → OnOk result
        (ShowsGates descriptor.now (D.state disk.old).history.reads node.layer node.offset (entry book.new) set.new) }
{
    if node.layer == 0 {
        return Ok(());
    }
    if let Err(fault) = know_children(descriptor, len, node, disk, book, set) {
        return Err(fault);
    }
    let layer = node.layer - 1;
    let offset = 2 * node.offset;
    if book.get(Node { layer, offset }).is_none() {
        return Ok(());
    }
    let left = Node { layer, offset };
    if let Err(fault) = know_under(descriptor, len, left, disk, book, set) {
        return Err(fault);
    }
    let offset = offset + 1;
    let right = Node { layer, offset };
    know_under(descriptor, len, right, disk, book, set)
}

// Adds the children of a node, where the book has it and their pair lies inside the file and has its digest, and marks the
// chunk in whose slot the pair stands by its gate, where it was read.
fn know_children<D: Disk>(
    descriptor: &Descriptor,
    len: u64,
    node: Node,
    disk: &mut D,
    book: &mut Book,
    set: &mut ChunkSet,
) -> Result<(), DiskFault>
    requires inner { 0 < node.layer }
    requires low { node.layer ≤ 20 }
    requires first { (node.offset + 1) * 2 ^ node.layer ≤ 2 ^ 20 }
    requires absent { (j : ℕ) → j / 2 ≡ node.offset → entry book.old (node.layer - 1) j ≡ None }
    requires room { length set.old ≡ chunks_of descriptor.now }
    requires counted { IsKnown (D.state disk.old) → len ≡ length (D.state disk.old).history.reads }

    ensures looks { OnlyReads (D.state disk.old) result (D.state disk.new) }
    ensures count { length set.new ≡ length set.old }
    ensures descriptor { book.new.descriptor ≡ book.old.descriptor }
    ensures kept { (d : terms.Descriptor) → IsRooted d (entry book.old) → IsRooted d (entry book.new) }
    ensures others { (l j : ℕ) → ((l ≡ node.layer - 1) × (j / 2 ≡ node.offset) → ⊥) → entry book.new l j ≡ entry book.old l j }
    ensures refused { OnErr result (book.new ≡ book.old) }
    ensures children { IsKnown (D.state disk.old) → OnOk result ((j : ℕ) → j / 2 ≡ node.offset
        → entry book.new (node.layer - 1) j
        ≡ child (slice (D.state disk.old).history.reads (pair_place descriptor.now.chunk (node.layer - 1) node.offset) 64) j
        (entry book.old node.layer node.offset)) }
    ensures elsewhere { (s : ℕ) → (s ≡ pair_slot (node.layer - 1) node.offset → ⊥)
        → slice_index_or set.new s false ≡ slice_index_or set.old s false }
    ensures gate { IsKnown (D.state disk.old) → OnOk result (is_some (entry book.new (node.layer - 1) (2 * node.offset)) ≡ true
        → pair_slot (node.layer - 1) node.offset < chunks_of descriptor.now
        → slice_index_or set.new (pair_slot (node.layer - 1) node.offset) false
        ≡ is_open descriptor.now (D.state disk.old).history.reads (pair_slot (node.layer - 1) node.offset)) }
{
    let Some(digest) = book.get(node) else {
        return Ok(());
    };
    let slot = (node.offset << node.layer) + (1 << (node.layer - 1)) - 1;
    let chunk = descriptor.chunk();
    let place = slot_place(chunk, slot) + u64::from(chunk);
    if place + 64 > len {
        return Ok(());
    }
    match read_tail(place, disk) {
        Ok(tail) => {
            adopt(book, node, &digest, &tail.pair);
            mark(descriptor, slot, tail.gate, set);
            Ok(())
        }
        Err(fault) => Err(fault),
    }
}

// What stands behind a chunk in its slot.
#[derive(Clone, Copy)]
struct SlotTail {
    pair: [u8; 64],
    gate: u8,
}

// Reads a slot's pair and gate, which stand at a place. Past its end the file counts as zeros.
fn read_tail<D: Disk>(place: u64, disk: &mut D) -> Result<SlotTail, DiskFault>
    requires { place ≤ 2 ^ 39 }
    ensures looks { OnlyReads (D.state disk.old) result (D.state disk.new) }
    ensures pair { IsKnown (D.state disk.old) → place + 64 ≤ length (D.state disk.old).history.reads
        → IfOk result (λ tail. tail.pair ≡ slice (D.state disk.old).history.reads place 64) }
    ensures gate { IsKnown (D.state disk.old) → IfOk result (λ tail. tail.gate ≡ slice_index (D.state disk.old).history.reads (place + 64)) }
{
    let mut bytes = [0u8; 65];
    match disk.read_at(place, &mut bytes) {
        Ok(()) => Ok(tail_of(&bytes)),
        Err(fault) => Err(fault),
    }
}

// The pair and then the gate, by their bytes.
fn tail_of(bytes: &[u8; 65]) -> SlotTail
    ensures pair { result.pair ≡ take 64 bytes.now }
    ensures gate { result.gate ≡ slice_index bytes.now 64 }
{
    let mut pair = [0u8; 64];
    pair.copy_from_slice(&bytes[..64]);
    let gate = bytes[64];
    SlotTail { pair, gate }
}

// Adds the two halves of the pair as the node's children, if their digest is the node's.
fn adopt(book: &mut Book, node: Node, digest: &Digest, pair: &[u8; 64])
    requires inner { 0 < node.layer }
    requires there { entry book.old node.layer node.offset ≡ Some digest.now }
    requires absent { (j : ℕ) → j / 2 ≡ node.offset → entry book.old (node.layer - 1) j ≡ None }
    ensures descriptor { book.new.descriptor ≡ book.old.descriptor }
    ensures kept { (d : terms.Descriptor) → IsRooted d (entry book.old) → IsRooted d (entry book.new) }
    ensures others { (l j : ℕ) → ((l ≡ node.layer - 1) × (j / 2 ≡ node.offset) → ⊥) → entry book.new l j ≡ entry book.old l j }
    ensures children { (j : ℕ) → j / 2 ≡ node.offset
        → entry book.new (node.layer - 1) j ≡ child pair.now j (Some digest.now) }
{
    let (left, right) = halves(pair);
    if *parent(&left, &right).bytes() == *digest.bytes() {
        book.adopt_pair(node, left, right);
    }
}

// The two digests of a pair.
fn halves(pair: &[u8; 64]) -> (Digest, Digest)
    ensures left { result.0 ≡ take 32 pair.now }
    ensures right { result.1 ≡ drop 32 pair.now }
{
    let (mut left, mut right) = ([0; 32], [0; 32]);
    left.copy_from_slice(&pair[..32]);
    right.copy_from_slice(&pair[32..]);
    (Digest::new(left), Digest::new(right))
}
