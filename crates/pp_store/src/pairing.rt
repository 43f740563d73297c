// The pairs of digests that a store keeps behind its chunks.
ghost use Rattle.std.specs.Prelude.{[], ◌∷◌, ◌≡◌, ℕ, suc, ◌+◌, ◌*◌, ◌^◌, ◌<◌, ◌≤◌, true, false, None, List, length, is_some, replicate, OnOk};
ghost use Rattle.sha2.specs.Sha256.{sha256};
ghost use Rattle.pp_terms.specs.tree.Content.{chunk_length};
ghost use Rattle.pp_terms.specs.tree.Tree.{above};
ghost use Rattle.pp_terms.specs.tree.Book.{IsRooted, IsJoined, IsBacked};
ghost use Rattle.pp_terms.specs.format.Descriptor.{chunks_of, height_of, IsDescriptor};
ghost use Rattle.pp_terms.specs.disk.Disk.{IsKnown};
ghost use Rattle.pp_terms.specs.tree.Proves.{first_absent};
ghost use Rattle.pp_terms.specs.disk.Store.{pair_slot};
ghost use Rattle.pp_tree.specs.Book.{entry};
ghost use Rattle.pp_scan.specs.Holding.{is_there};
ghost use Rattle.pp_store.specs.Behind.{DoesBehind};
ghost use Rattle.pp_store.specs.Writes.{after_writes, pair_at, way_pairs, unfilled_pair, unfilled_pairs, pairs_for, with_pairs, put_writes, Wrote};
ghost use Rattle.pp_store.specs.Pairs.{has_pair, HasItsPairs, IsUnfilled, PutsPairs, PutsChunk};

use crate::growing::write_pair;
use pp_outside::{Disk, DiskFault};
use pp_scan::slot_place;
use pp_tree::{Bits, Book, Descriptor, Digest, Node};

// The slot of the pair of node (layer + 1, offset).
fn pair_slot(layer: u8, offset: u32) -> u32
    requires low { layer < 20 }
    requires few { offset * 2 ^ suc layer < 2 ^ 20 }
    ensures { result ≡ pair_slot layer offset }
{
    let step = 1 << layer;
    (2 * offset + 1) * step - 1
}

// The left child of the node whose pair a slot has.
fn left_child(slot: u32) -> Node
    requires { slot < 2 ^ 21 }
    ensures { (j : ℕ) × (result.offset ≡ 2 * j) × (slot ≡ pair_slot result.layer j) }
{
    let number = slot + 1;
    let layer = number.trailing_zeros() as u8;
    Node {
        layer,
        offset: 2 * (number >> (layer + 1)),
    }
}

/// Marks the pairs whose digests the book has.
pub(crate) fn find_pairs(descriptor: &Descriptor, book: &Book, pairs: &mut Bits)
    requires none { pairs.old ≡ replicate (2 * chunks_of descriptor.now) false }
    ensures len { length pairs.new ≡ length pairs.old }
    ensures found { (k j : ℕ) → k < height_of descriptor.now → pair_slot k j < 2 * chunks_of descriptor.now
        → has_pair pairs.new k j ≡ is_some (entry book.now k (2 * j)) }
{
    let height = descriptor.height();
    for slot in 0..2 * descriptor.chunks() {
        let left = left_child(slot);
        if left.layer < height && book.get(left).is_some() {
            pairs.set(slot as usize);
        }
    }
}

// Writes the pair of node (layer + 1, offset), unless it is stored.
fn put_pair<D: Disk>(
    descriptor: &Descriptor,
    layer: u8,
    offset: u32,
    book: &Book,
    pairs: &mut Bits,
    disk: &mut D,
) -> Result<(), DiskFault>
    requires inner { layer < height_of descriptor.now }
    requires covers { offset * 2 ^ suc layer < chunks_of descriptor.now }
    requires size { length pairs.old ≡ 2 * chunks_of descriptor.now }
    requires rooted { IsRooted descriptor.now (entry book.now) }
    requires there { (left : List ℕ) × (right : List ℕ) × IsJoined (entry book.now) layer offset left right }

    ensures does { DoesBehind (D.state disk.old) result (D.state disk.new) }
    ensures stored { OnOk result (has_pair pairs.new layer offset ≡ true) }
    ensures wrote { OnOk result (Wrote descriptor.now (entry book.now) (pair_at layer offset ∷ []) pairs.old pairs.new (D.state disk.old) (D.state disk.new)) }
    ensures puts { PutsPairs descriptor.now (entry book.now) pairs.old pairs.new (D.state disk.old) (D.state disk.new) }
{
    let chunk = descriptor.chunk();
    let slot = pair_slot(layer, offset);
    if pairs.has(slot as usize) {
        return Ok(());
    }
    let left = digest_of(book, layer, 2 * offset);
    let right = digest_of(book, layer, 2 * offset + 1);
    match write_pair(disk, chunk, slot, &left, &right) {
        Ok(()) => {
            pairs.set(slot as usize);
            Ok(())
        }
        Err(fault) => Err(fault),
    }
}

// The digest of a node that the book has.
fn digest_of(book: &Book, layer: u8, offset: u32) -> Digest
    requires { is_some (entry book.now layer offset) ≡ true }
    ensures digest { Some result ≡ entry book.now layer offset }
    ensures len { length result ≡ 32 }
{
    book.get(Node { layer, offset }).unwrap()
}

// Writes the pairs on the way from a chunk to the root that aren't stored, from below.
fn put_way<D: Disk>(
    descriptor: &Descriptor,
    i: u32,
    book: &Book,
    pairs: &mut Bits,
    disk: &mut D,
) -> Result<(), DiskFault>
    requires within { i < chunks_of descriptor.now }
    requires size { length pairs.old ≡ 2 * chunks_of descriptor.now }
    requires rooted { IsRooted descriptor.now (entry book.now) }
    requires leaf { is_some (entry book.now 0 i) ≡ true }

    ensures does { DoesBehind (D.state disk.old) result (D.state disk.new) }
    ensures stored { OnOk result ((k : ℕ) → k < height_of descriptor.now → has_pair pairs.new k (above (suc k) i) ≡ true) }
    ensures wrote { OnOk result (Wrote descriptor.now (entry book.now) (way_pairs i (height_of descriptor.now)) pairs.old pairs.new (D.state disk.old) (D.state disk.new)) }
    ensures puts { PutsPairs descriptor.now (entry book.now) pairs.old pairs.new (D.state disk.old) (D.state disk.new) }
{
    for layer in 0..descriptor.height() {
        match put_pair(descriptor, layer, i >> (layer + 1), book, pairs, disk) {
            Ok(()) => {}
            Err(fault) => return Err(fault),
        }
    }
    Ok(())
}

// Writes the pairs of the nodes that cover a chunk and aren't full, where they aren't stored, from below.
fn put_unfilled<D: Disk>(
    descriptor: &Descriptor,
    book: &Book,
    pairs: &mut Bits,
    disk: &mut D,
) -> Result<(), DiskFault>
    requires size { length pairs.old ≡ 2 * chunks_of descriptor.now }
    requires rooted { IsRooted descriptor.now (entry book.now) }
    requires peaks { first_absent (entry book.now) (chunks_of descriptor.now) ≡ None }

    ensures does { DoesBehind (D.state disk.old) result (D.state disk.new) }
    ensures stored { OnOk result ((k : ℕ) → IsUnfilled descriptor.now k → has_pair pairs.new k (above (suc k) (chunks_of descriptor.now)) ≡ true) }
    ensures wrote { OnOk result (Wrote descriptor.now (entry book.now) (unfilled_pairs (chunks_of descriptor.now) (height_of descriptor.now)) pairs.old pairs.new
        (D.state disk.old) (D.state disk.new)) }
    ensures puts { PutsPairs descriptor.now (entry book.now) pairs.old pairs.new (D.state disk.old) (D.state disk.new) }
{
    for layer in 0..descriptor.height() {
        match put_unfilled_at(descriptor, layer, book, pairs, disk) {
            Ok(()) => {}
            Err(fault) => return Err(fault),
        }
    }
    Ok(())
}

// Of one layer only the node behind the full ones can cover a chunk and not be full.
fn put_unfilled_at<D: Disk>(
    descriptor: &Descriptor,
    layer: u8,
    book: &Book,
    pairs: &mut Bits,
    disk: &mut D,
) -> Result<(), DiskFault>
    requires inner { layer < height_of descriptor.now }
    requires size { length pairs.old ≡ 2 * chunks_of descriptor.now }
    requires rooted { IsRooted descriptor.now (entry book.now) }
    requires peaks { first_absent (entry book.now) (chunks_of descriptor.now) ≡ None }

    ensures does { DoesBehind (D.state disk.old) result (D.state disk.new) }
    ensures stored { OnOk result (IsUnfilled descriptor.now layer → has_pair pairs.new layer (above (suc layer) (chunks_of descriptor.now)) ≡ true) }
    ensures wrote { OnOk result (Wrote descriptor.now (entry book.now) (unfilled_pair (chunks_of descriptor.now) layer) pairs.old pairs.new
        (D.state disk.old) (D.state disk.new)) }
    ensures puts { PutsPairs descriptor.now (entry book.now) pairs.old pairs.new (D.state disk.old) (D.state disk.new) }
{
    let chunks = descriptor.chunks();
    let offset = chunks >> (layer + 1);
    if offset << (layer + 1) < chunks {
        put_pair(descriptor, layer, offset, book, pairs, disk)
    } else {
        Ok(())
    }
}

// Writes the pairs that a chunk needs and that aren't stored.
fn put_pairs<D: Disk>(
    descriptor: &Descriptor,
    i: u32,
    book: &Book,
    pairs: &mut Bits,
    disk: &mut D,
) -> Result<(), DiskFault>
    requires within { i < chunks_of descriptor.now }
    requires size { length pairs.old ≡ 2 * chunks_of descriptor.now }
    requires rooted { IsRooted descriptor.now (entry book.now) }
    requires leaf { is_some (entry book.now 0 i) ≡ true }
    requires peaks { first_absent (entry book.now) (chunks_of descriptor.now) ≡ None }

    ensures does { DoesBehind (D.state disk.old) result (D.state disk.new) }
    ensures stored { OnOk result (HasItsPairs descriptor.now pairs.new i) }
    ensures wrote { OnOk result (Wrote descriptor.now (entry book.now) (pairs_for descriptor.now i) pairs.old pairs.new (D.state disk.old) (D.state disk.new)) }
    ensures puts { PutsPairs descriptor.now (entry book.now) pairs.old pairs.new (D.state disk.old) (D.state disk.new) }
{
    match put_way(descriptor, i, book, pairs, disk) {
        Ok(()) => put_unfilled(descriptor, book, pairs, disk),
        Err(fault) => Err(fault),
    }
}

/// Writes a chunk whose digest is its leaf's, and then the pairs that it needs and that aren't stored: those on its way
/// to the root, and those of the other nodes that cover a chunk and aren't full, from below.
pub(crate) fn put_pieces<D: Disk>(
    descriptor: &Descriptor,
    i: u32,
    chunk: &[u8],
    book: &Book,
    pairs: &mut Bits,
    disk: &mut D,
) -> Result<(), DiskFault>
    requires size { length pairs.old ≡ 2 * chunks_of descriptor.now }
    requires backed { IsBacked descriptor.now (entry book.now) i chunk.now }
    requires peaks { first_absent (entry book.now) (chunks_of descriptor.now) ≡ None }

    ensures valid { IsDescriptor descriptor.now }
    ensures does { DoesBehind (D.state disk.old) result (D.state disk.new) }
    ensures stored { OnOk result (HasItsPairs descriptor.now pairs.new i) }
    ensures there { IsKnown (D.state disk.old) → OnOk result (is_there descriptor.now (D.state disk.new).history.reads (entry book.now) i ≡ true) }
    ensures marked { OnOk result (pairs.new ≡ with_pairs pairs.old (pairs_for descriptor.now i)) }
    ensures wrote { IsKnown (D.state disk.old) → OnOk result ((D.state disk.new).history
        ≡ after_writes (D.state disk.old).history (put_writes descriptor.now pairs.old (entry book.now) i chunk.now)) }
    ensures puts { PutsChunk descriptor.now (entry book.now) i pairs.old pairs.new (D.state disk.old) (D.state disk.new) }
{
    match disk.write_at(slot_place(descriptor.chunk(), i), chunk) {
        Ok(()) => put_pairs(descriptor, i, book, pairs, disk),
        Err(fault) => Err(fault),
    }
}
