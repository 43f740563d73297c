// Chunks are read back.
ghost use Rattle.std.specs.Prelude.{◌≡◌, ℕ, ◌≤◌, ◌<◌, true, Err, List, is_some, length, drop};
ghost use Rattle.pp_terms.specs.tree.Content.{chunk_length};
ghost use Rattle.pp_terms.specs.format.Descriptor.{chunks_of};
ghost use Rattle.pp_terms.specs.disk.Disk.{IsKnown};
ghost use Rattle.pp_tree.specs.Book.{entry};
ghost use Rattle.pp_scan.specs.Look.{KeepsAll};
ghost use Rattle.pp_scan.specs.Holding.{is_there};
ghost use Rattle.pp_store.specs.ReadChunk.{HasRead};

use pp_outside::Disk;
use pp_scan::slot_place;
use pp_tree::{Book, Descriptor, Digest, Node, leaf};
use thiserror::Error;

/// Why a chunk wasn't read.
#[derive(Clone, Copy, Debug, PartialEq, Eq, Error)]
pub enum ReadFault {
    /// The disk refused the reading.
    #[error("the disk refused a reading")]
    Disk,
    /// The store has not committed the chunk.
    #[error("the chunk is absent")]
    Absent,
    /// What was read has the digest `found`, and the book has `kept`.
    #[error("the chunk is damaged")]
    Damaged { found: Digest, kept: Digest },
}

/// Reads a chunk whose leaf the book has to the front of `out`, and answers its length in bytes. What was read is digested;
/// Damaged comes exactly where its digest isn't the book's.
pub fn read_chunk<D: Disk>(
    descriptor: &Descriptor,
    i: u32,
    out: &mut [u8],
    book: &Book,
    disk: &mut D,
) -> Result<usize, ReadFault>
    requires within { i < chunks_of descriptor.now }
    requires room { chunk_length descriptor.now.size descriptor.now.chunk i ≤ length out.old }
    requires leaf { is_some (entry book.now 0 i) ≡ true }

    ensures read { HasRead ⊥ descriptor.now i (entry book.now) (D.state disk.old) (D.state disk.new) out.new result }
    // Over a disk that is honest and tells no chunk that is there is damaged.
    ensures sound { IsKnown (D.state disk.old) → is_there descriptor.now (D.state disk.old).history.reads (entry book.now) i ≡ true
        → (found kept : List ℕ) → result ≡ Err (ReadFault.Damaged found kept) → ⊥ }
    ensures rest { drop (chunk_length descriptor.now.size descriptor.now.chunk i) out.new
        ≡ drop (chunk_length descriptor.now.size descriptor.now.chunk i) out.old }
    ensures looks { KeepsAll (D.state disk.old) (D.state disk.new) }
    ensures hard { (D.state disk.new).hard ≡ (D.state disk.old).hard }
{
    let kept = book
        .get(Node {
            layer: 0,
            offset: i,
        })
        .unwrap();
    let size = descriptor.chunk_len(i) as usize;
    let bytes = &mut out[..size];
    match disk.read_at(slot_place(descriptor.chunk(), i), bytes) {
        Ok(()) => {
            let found = leaf(bytes);
            if *kept.bytes() == *found.bytes() {
                Ok(size)
            } else {
                Err(ReadFault::Damaged { found, kept })
            }
        }
        Err(_) => Err(ReadFault::Disk),
    }
}
