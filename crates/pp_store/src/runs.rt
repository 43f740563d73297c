// Runs of chunks are read back.
ghost use Rattle.std.specs.Prelude.{◌≡◌, ℕ, ◌+◌, ◌-◌, ◌*◌, ◌^◌, ◌≤◌, ◌<◌, true, Some, List, is_some, length, take, IsTrue, OnOk, MatchOption};
ghost use Rattle.pp_terms.specs.Count.{HasCause, HasRisen};
ghost use Rattle.pp_terms.specs.tree.Content.{chunk_length};
ghost use Rattle.pp_terms.specs.format.Descriptor.{chunks_of};
ghost use Rattle.pp_terms.specs.disk.Disk.{IsKnown, IsRead};
ghost use Rattle.pp_terms.specs.disk.Store.{chunk_place};
ghost use Rattle.pp_tree.specs.Book.{entry};
ghost use Rattle.pp_scan.specs.Look.{KeepsAll};
ghost use Rattle.pp_scan.specs.Holding.{is_there};
ghost use Rattle.pp_store.specs.Runs.{run_length, HasRun, AreRead, AreTogether, AreLeaves, IsFirstDamaged};

use crate::reading::ReadFault;
use pp_lanes::digest_four;
use pp_outside::{Disk, DiskFault};
use pp_scan::slot_place;
use pp_tree::{Book, Descriptor, Digest, Node, leaf};

/// What a reading of chunks that follow one another came to.
#[derive(Clone, Copy, Debug, PartialEq, Eq)]
pub struct Run {
    /// How many of them are right, from the first on.
    pub count: u32,
    /// Why the next one isn't, where these aren't all.
    pub fault: Option<ReadFault>,
}

/// Reads the chunks from `first` on to the front of `out`, one behind the other: as many as it has room for and the content
/// has. The book has their leaves. What was read is digested, four whole chunks at once, and the run ends before the first
/// chunk that the disk refused to read, Disk, or whose digest isn't the book's, Damaged.
pub fn read_run<D: Disk>(
    descriptor: &Descriptor,
    first: u32,
    out: &mut [u8],
    book: &Book,
    disk: &mut D,
) -> Run
    requires within { first < chunks_of descriptor.now }
    requires room { descriptor.now.chunk ≤ length out.old }
    requires leaves { (k : ℕ) → k < run_length descriptor.now first (length out.old)
        → is_some (entry book.now 0 (first + k)) ≡ true }

    ensures run { HasRun descriptor.now first (entry book.now) (D.state disk.old) (D.state disk.new) out.new result }
    // Over a disk that is honest and tells no chunk that is there is damaged.
    ensures sound { IsKnown (D.state disk.old)
        → is_there descriptor.now (D.state disk.old).history.reads (entry book.now) (first + result.count) ≡ true
        → (found kept : List ℕ) → result.fault ≡ Some (ReadFault.Damaged found kept) → ⊥ }
    ensures looks { KeepsAll (D.state disk.old) (D.state disk.new) }
    ensures hard { (D.state disk.new).hard ≡ (D.state disk.old).hard }
{
    let room = out.len() / descriptor.chunk() as usize;
    let left = descriptor.chunks() - first;
    let want = room.min(left as usize) as u32;
    let read = read_chunks(descriptor, first, want, out, disk);
    match first_damaged(descriptor, first, read, out, book) {
        Some(damage) => Run {
            count: damage.at,
            fault: Some(ReadFault::Damaged {
                found: damage.found,
                kept: damage.kept,
            }),
        },
        None if read < want => Run {
            count: read,
            fault: Some(ReadFault::Disk),
        },
        None => Run {
            count: read,
            fault: None,
        },
    }
}

// Reads so many chunks, and answers how many of them it read before the disk refused one. What stands between them in the file is
// read with them, as many at once as there is room for; where the disk refuses that, each is read alone.
fn read_chunks<D: Disk>(
    descriptor: &Descriptor,
    first: u32,
    count: u32,
    out: &mut [u8],
    disk: &mut D,
) -> u32
    requires within { first + count ≤ chunks_of descriptor.now }
    requires room { count * descriptor.now.chunk ≤ length out.old }
    ensures most { result ≤ count }
    ensures read { IsKnown (D.state disk.old)
        → AreRead descriptor.now first (D.state disk.old).history.reads out.new result }
    ensures refused { result < count → HasRisen (D.state disk.old).faults (D.state disk.new).faults }
    ensures looks { KeepsAll (D.state disk.old) (D.state disk.new) }
    ensures hard { (D.state disk.new).hard ≡ (D.state disk.old).hard }
{
    let chunk = descriptor.chunk() as usize;
    let mut read = 0;
    while read < count {
        let left = count - read;
        let rest = &mut out[read as usize * chunk..];
        let group = fitting_slots(left, chunk, rest.len());
        match read_slots(descriptor, first + read, group, rest, disk) {
            Ok(()) => read += group,
            Err(_) => return read + read_each(descriptor, first + read, left, rest, disk),
        }
    }
    count
}

// For how many of so many slots there is room, the last one up to its chunk's end.
fn fitting_slots(count: u32, chunk: usize, room: usize) -> u32
    requires some { 0 < count }
    requires size { chunk ≤ 8192 }
    requires fits { chunk ≤ room }
    ensures some { 0 < result }
    ensures most { result ≤ count }
    ensures fits { (result - 1) * (chunk + 65) + chunk ≤ room }
{
    let fitting = 1 + (room - chunk) / (chunk + 65);
    fitting.min(count as usize) as u32
}

// Reads so many slots that follow one another, the last one up to its chunk's end, and moves their chunks together.
fn read_slots<D: Disk>(
    descriptor: &Descriptor,
    first: u32,
    count: u32,
    out: &mut [u8],
    disk: &mut D,
) -> Result<(), DiskFault>
    requires some { 0 < count }
    requires within { first + count ≤ chunks_of descriptor.now }
    requires room { (count - 1) * (descriptor.now.chunk + 65) + descriptor.now.chunk ≤ length out.old }
    ensures read { IsKnown (D.state disk.old)
        → OnOk result (AreRead descriptor.now first (D.state disk.old).history.reads out.new count) }
    ensures looks { KeepsAll (D.state disk.old) (D.state disk.new) }
    ensures hard { (D.state disk.new).hard ≡ (D.state disk.old).hard }
{
    let chunk = descriptor.chunk() as usize;
    let before = (count - 1) as usize * (chunk + 65);
    let size = descriptor.chunk_len(first + count - 1) as usize;
    disk.read_at(
        slot_place(descriptor.chunk(), first),
        &mut out[..before + size],
    )?;
    close_gaps(chunk, count as usize, out);
    Ok(())
}

// Moves the chunks of slots together.
fn close_gaps(chunk: usize, count: usize, out: &mut [u8])
    requires some { 0 < count }
    requires room { (count - 1) * (chunk + 65) + chunk ≤ length out.old }
    ensures { AreTogether chunk count out.old out.new }
{
    let slot = chunk + 65;
    for k in 1..count {
        out.copy_within(k * slot..k * slot + chunk, k * chunk);
    }
}

// Reads so many chunks one by one, and answers how many of them it read before the disk refused one.
fn read_each<D: Disk>(
    descriptor: &Descriptor,
    first: u32,
    count: u32,
    out: &mut [u8],
    disk: &mut D,
) -> u32
    requires within { first + count ≤ chunks_of descriptor.now }
    requires room { count * descriptor.now.chunk ≤ length out.old }
    ensures most { result ≤ count }
    ensures read { IsKnown (D.state disk.old)
        → AreRead descriptor.now first (D.state disk.old).history.reads out.new result }
    ensures refused { result < count → HasRisen (D.state disk.old).faults (D.state disk.new).faults }
    ensures looks { KeepsAll (D.state disk.old) (D.state disk.new) }
    ensures hard { (D.state disk.new).hard ≡ (D.state disk.old).hard }
{
    let chunk = descriptor.chunk() as usize;
    for k in 0..count {
        match read_bytes(descriptor, first + k, &mut out[k as usize * chunk..], disk) {
            Ok(()) => {}
            Err(_) => return k,
        }
    }
    count
}

// Reads the bytes of a chunk to the front of `out`.
fn read_bytes<D: Disk>(
    descriptor: &Descriptor,
    i: u32,
    out: &mut [u8],
    disk: &mut D,
) -> Result<(), DiskFault>
    requires within { i < chunks_of descriptor.now }
    requires room { chunk_length descriptor.now.size descriptor.now.chunk i ≤ length out.old }
    ensures read { IsKnown (D.state disk.old) → OnOk result (IsRead (D.state disk.old).history.reads
        (chunk_place descriptor.now.chunk i) (take (chunk_length descriptor.now.size descriptor.now.chunk i) out.new)) }
    ensures cause { HasCause (D.state disk.old).faults (D.state disk.new).faults result }
    ensures looks { KeepsAll (D.state disk.old) (D.state disk.new) }
    ensures hard { (D.state disk.new).hard ≡ (D.state disk.old).hard }
{
    let size = descriptor.chunk_len(i) as usize;
    disk.read_at(slot_place(descriptor.chunk(), i), &mut out[..size])
}

// The first of some chunks whose digest isn't its leaf's in the book.
#[derive(Clone, Copy)]
struct Damage {
    at: u32,
    found: Digest,
    kept: Digest,
}

// Judges so many chunks by the book's leaves.
fn first_damaged(
    descriptor: &Descriptor,
    first: u32,
    count: u32,
    out: &[u8],
    book: &Book,
) -> Option<Damage>
    requires within { first + count ≤ chunks_of descriptor.now }
    requires room { count * descriptor.now.chunk ≤ length out.now }
    requires leaves { (k : ℕ) → k < count → is_some (entry book.now 0 (first + k)) ≡ true }
    ensures { MatchOption result (AreLeaves descriptor.now first (entry book.now) out.now count)
        (λ damage. IsFirstDamaged descriptor.now first (entry book.now) out.now count damage.at damage.found damage.kept) }
{
    let chunk = descriptor.chunk() as usize;
    for at in count_fours(descriptor, first, count, out, book)..count {
        let start = at as usize * chunk;
        let size = descriptor.chunk_len(first + at) as usize;
        let found = leaf(&out[start..start + size]);
        let kept = book.get(Node::leaf(first + at)).unwrap();
        if *kept.bytes() != *found.bytes() {
            return Some(Damage { at, found, kept });
        }
    }
    None
}

// How many of the chunks, by fours of whole ones, have the digests of their leaves.
fn count_fours(descriptor: &Descriptor, first: u32, count: u32, out: &[u8], book: &Book) -> u32
    requires within { first + count ≤ chunks_of descriptor.now }
    requires room { count * descriptor.now.chunk ≤ length out.now }
    ensures most { result ≤ count }
    ensures leaves { AreLeaves descriptor.now first (entry book.now) out.now result }
{
    let chunk = descriptor.chunk() as usize;
    let mut right = 0;
    let mut start = 0;
    while count - right >= 4 && is_right_four(descriptor, first + right, &out[start..], book) {
        right += 4;
        start += 4 * chunk;
    }
    right
}

// Whether the four chunks from chunk i on are whole, and have the digests of their leaves.
fn is_right_four(descriptor: &Descriptor, i: u32, out: &[u8], book: &Book) -> bool
    requires within { i + 4 ≤ chunks_of descriptor.now }
    requires room { 4 * descriptor.now.chunk ≤ length out.now }
    ensures { IsTrue result → AreLeaves descriptor.now i (entry book.now) out.now 4 }
{
    let chunk = descriptor.chunk();
    if descriptor.chunk_len(i + 3) != chunk {
        return false;
    }
    let four = digest_four(out, chunk as usize);
    is_leaf(book, i, &four[0])
        && is_leaf(book, i + 1, &four[1])
        && is_leaf(book, i + 2, &four[2])
        && is_leaf(book, i + 3, &four[3])
}

// Whether the book has this digest as the leaf of chunk i.
fn is_leaf(book: &Book, i: u32, digest: &[u8; 32]) -> bool
    ensures { IsTrue result → entry book.now 0 i ≡ Some digest.now }
{
    match book.get(Node::leaf(i)) {
        Some(kept) => *kept.bytes() == *digest,
        None => false,
    }
}
