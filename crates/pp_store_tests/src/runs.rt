//! Runs of a store of 7,000 bytes in chunks of 1,024: six whole ones, and one of 856 bytes.
ghost use Rattle.std.specs.Prelude.{◌≡◌, ℕ, ◌<◌, true, is_some, IsTrue};
ghost use Rattle.pp_terms.specs.format.Descriptor.{chunks_of};
ghost use Rattle.pp_tree.specs.Book.{entry};

use crate::fresh::Fresh;
use crate::imports::imported;
use crate::swarm::content_of_seven;
use pp_outside::{Disk, MemoryDisk};
use pp_store::{ReadFault, Run, read_run};
use pp_tree::{Book, Descriptor, Node, leaf};
use std::alloc::Global;
use std::test::Fail;

// Whether the book has all leaves.
fn has_leaves(descriptor: &Descriptor, book: &Book) -> bool
    ensures { IsTrue result → (i : ℕ) → i < chunks_of descriptor.now → is_some (entry book.now 0 i) ≡ true }
{
    for i in 0..descriptor.chunks() {
        if book.get(Node::leaf(i)).is_none() {
            return false;
        }
    }
    true
}

// The run from a chunk on, where it may be asked for.
fn run_from(first: u32, out: &mut [u8], fresh: &mut Fresh) -> Option<Run> {
    let descriptor = fresh.descriptor;
    if first >= descriptor.chunks()
        || out.len() < descriptor.chunk() as usize
        || !has_leaves(&descriptor, &fresh.book)
    {
        return None;
    }
    let run = read_run(&descriptor, first, out, &fresh.book, &mut fresh.disk);
    Some(run)
}

// The number of the chunk that is changed, the first one of the run, the room for it and the disk's calls; how many chunks the run
// has, and whether its end is a refused call or a damaged chunk.
type Case = (u32, u32, usize, u32, u32, Option<bool>);

const RUNS: [Case; 14] = [
    // At the third one of the first four: one call reads all seven, and none is left for another.
    (2, 0, 8192, 9, 2, Some(false)),
    (2, 0, 8192, 1, 2, Some(false)),
    (2, 0, 8192, 0, 0, Some(true)),
    (2, 2, 1024, 9, 0, Some(false)),
    // There is no room for what stands between two chunks: each is read alone.
    (2, 0, 2048, 9, 2, None),
    (2, 0, 2048, 2, 2, None),
    (2, 0, 2048, 1, 1, Some(true)),
    (2, 1, 2048, 9, 1, Some(false)),
    (2, 1, 2048, 1, 1, Some(true)),
    // Behind four right ones, and at the last chunk.
    (4, 0, 8192, 9, 4, Some(false)),
    (6, 0, 8192, 9, 6, Some(false)),
    (6, 0, 8192, 1, 6, Some(false)),
    // Three whole chunks and the last one.
    (2, 3, 8192, 9, 4, None),
    (2, 5, 2047, 9, 1, None),
];

// So many chunks of the content.
fn chunks_of_content<'c>(content: &'c [u8], first: u32, count: u32) -> &'c [u8] {
    let begin = (first as usize).saturating_mul(1024);
    let end = begin.saturating_add((count as usize).saturating_mul(1024));
    content.get(begin..end.min(content.len())).unwrap_or(&[])
}

// The content with byte 500 of one chunk changed.
fn damaged_content(damaged: u32) -> [u8; 7000] {
    let mut content = content_of_seven();
    if let Some(byte) = content.get_mut(
        (damaged as usize).saturating_mul(1024).saturating_add(500),
    ) {
        *byte ^= 1;
    }
    content
}

// What ends a run.
fn end_of(damaged: u32, refused: Option<bool>) -> Option<ReadFault> {
    match refused {
        Some(true) => Some(ReadFault::Disk),
        Some(false) => Some(ReadFault::Damaged {
            found: leaf(chunks_of_content(&damaged_content(damaged), damaged, 1)),
            kept: leaf(chunks_of_content(&content_of_seven(), damaged, 1)),
        }),
        None => None,
    }
}

// Writes byte 500 of one chunk with its lowest bit changed.
fn damage(damaged: u32, disk: &mut MemoryDisk) -> bool {
    let at = 64 + 1089 * u64::from(damaged) + 500;
    let content = damaged_content(damaged);
    match chunks_of_content(&content, damaged, 1).get(500) {
        Some(byte) if at < 8192 => disk.write_at(at, &[*byte]).is_ok(),
        _ => false,
    }
}

// Whether the run behind what was damaged is what is wanted, and the bytes of so many chunks are the content's.
fn reads_as(case: Case, fresh: &mut Fresh) -> bool {
    let (damaged, first, room, _, count, refused) = case;
    let mut out = [0u8; 8192];
    let is_damaged = damage(damaged, &mut fresh.disk.inner);
    let run = run_from(first, &mut out[..room.min(8192)], fresh);
    let fault = end_of(damaged, refused);
    is_damaged && run == Some(Run { count, fault }) && is_content(&out, first, count)
}

fn is_content(out: &[u8], first: u32, count: u32) -> bool {
    let content = content_of_seven();
    out.starts_with(chunks_of_content(&content, first, count))
}

fn is_wanted(alloc: Global, case: Case) -> Result<bool, Fail> {
    let mut fresh = imported(alloc, case.3)?;
    Ok(reads_as(case, &mut fresh))
}

// Byte 500 of one chunk is changed, and the disk takes so many calls.
#[test]
fn a_run_ends_before_a_damaged_chunk(rt: HostRuntime) -> Result<(), Fail> {
    for (k, case) in RUNS.iter().enumerate() {
        assert!(rt; is_wanted(rt.alloc(), *case)?, "case {k}");
    }
    Ok(())
}
