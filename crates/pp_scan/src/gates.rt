// The gates of chunks: which are open, and which of them count.
ghost use Rattle.std.specs.Prelude.{◌≡◌, ℕ, suc, ◌^◌, ◌<◌, ◌≤◌, ◌==◌, ◌&&◌, false, length, slice_index_or, is_some, OnOk};
ghost use Rattle.pp_terms.specs.tree.Book.{has_peaks};
ghost use Rattle.pp_terms.specs.format.Descriptor.{chunks_of, height_of};
ghost use Rattle.pp_terms.specs.disk.Disk.{IsKnown};
ghost use Rattle.pp_tree.specs.Book.{entry, chunks_in_book};
ghost use Rattle.pp_scan.specs.Look.{OnlyReads};
ghost use Rattle.pp_scan.specs.Gates.{ShowsGate};

use crate::layout::{OPEN_GATE, gate_place};
use pp_outside::{Disk, DiskFault};
use pp_tree::{Book, ChunkSet, Descriptor, Node};

/// Marks the chunk of a slot by the value of its gate. Slots behind the content's last chunk have none.
pub(crate) fn mark(descriptor: &Descriptor, slot: u32, gate: u8, set: &mut ChunkSet)
    requires room { length set.old ≡ chunks_of descriptor.now }
    ensures count { length set.new ≡ length set.old }
    ensures others { (s : ℕ) → (s ≡ slot → ⊥) → slice_index_or set.new s false ≡ slice_index_or set.old s false }
    ensures marked { slot < chunks_of descriptor.now → slice_index_or set.new slot false ≡ (gate == 0x4f) }
{
    if slot >= descriptor.chunks() {
        return;
    }
    if gate == OPEN_GATE {
        set.insert(slot);
    } else {
        set.remove(slot);
    }
}

/// Marks the chunk of the file's last slot, in which no pair stands, by its gate. Of a chunk whose leaf isn't in the book
/// nothing is read.
pub(crate) fn mark_last<D: Disk>(
    descriptor: &Descriptor,
    disk: &mut D,
    book: &Book,
    set: &mut ChunkSet,
) -> Result<(), DiskFault>
    requires room { length set.old ≡ chunks_of descriptor.now }
    ensures looks { OnlyReads (D.state disk.old) result (D.state disk.new) }
    ensures count { length set.new ≡ length set.old }
    ensures others { (s : ℕ) → (suc s ≡ 2 ^ height_of descriptor.now → ⊥)
        → slice_index_or set.new s false ≡ slice_index_or set.old s false }
    ensures last { IsKnown (D.state disk.old) → OnOk result ((s : ℕ) → suc s ≡ 2 ^ height_of descriptor.now
        → ShowsGate descriptor.now (D.state disk.old).history.reads (entry book.now) set.new s) }
    ensures fits { (chunks_of descriptor.now ≤ 2 ^ 20) × (chunks_of descriptor.now ≤ 2 ^ height_of descriptor.now) }
{
    let last = (1 << descriptor.height()) - 1;
    if last >= descriptor.chunks() || book.get(Node::leaf(last)).is_none() {
        return Ok(());
    }
    let mut gate = [0u8; 1];
    match disk.read_at(gate_place(descriptor.chunk(), last), &mut gate) {
        Ok(()) => {
            mark(descriptor, last, gate[0], set);
            Ok(())
        }
        Err(fault) => Err(fault),
    }
}

/// Takes out of the set each chunk whose leaf isn't in the book, and all of them where a peak isn't.
pub(crate) fn keep_known(book: &Book, set: &mut ChunkSet)
    requires few { length set.old ≤ 2 ^ 20 }
    ensures count { length set.new ≡ length set.old }
    ensures kept { (i : ℕ) → slice_index_or set.new i false
        ≡ (slice_index_or set.old i false && has_peaks (entry book.now) (chunks_in_book book.now) && is_some (entry book.now 0 i)) }
{
    keep_leaves(book.has_peaks(), book, set);
}

// The same, once it is known whether the book has all peaks.
fn keep_leaves(peaks: bool, book: &Book, set: &mut ChunkSet)
    requires few { length set.old ≤ 2 ^ 20 }
    ensures count { length set.new ≡ length set.old }
    ensures kept { (i : ℕ) → slice_index_or set.new i false ≡ (slice_index_or set.old i false && peaks && is_some (entry book.now 0 i)) }
{
    let mut from = 0;
    while let Some(i) = set.first_from(from) {
        if !is_kept(peaks, book, i) {
            set.remove(i);
        }
        from = i + 1;
    }
}

// Whether the leaf of chunk i is in the book, and all peaks.
fn is_kept(peaks: bool, book: &Book, i: u32) -> bool
    ensures { result ≡ (peaks && is_some (entry book.now 0 i)) }
{
    peaks && book.get(Node::leaf(i)).is_some()
}
