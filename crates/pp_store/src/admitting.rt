// Chunks that peers send are admitted by their digests.
ghost use Rattle.std.specs.Prelude.{◌≡◌, ℕ, ◌<◌, None};
ghost use Rattle.sha2.specs.Sha256.{sha256};
ghost use Rattle.pp_terms.specs.tree.Book.{IsRooted, IsBacked};
ghost use Rattle.pp_terms.specs.format.Descriptor as terms;
ghost use Rattle.pp_terms.specs.format.Descriptor.{chunks_of, height_of, IsDescriptor};
ghost use Rattle.pp_terms.specs.tree.Proves.{first_absent};
ghost use Rattle.pp_tree.specs.Book.{entry};
ghost use Rattle.pp_terms.specs.tree.Claims.{latest};
ghost use Rattle.pp_paths.specs.Climb.{path};
ghost use Rattle.pp_paths.specs.Judge.{judged, KeepsEntries};
ghost use Rattle.pp_store.specs.Answer.{admitted, learned, by_verdict, with_path};

use pp_paths::{Claims, Settled, Verdict, judge_and_adopt, settle_peaks, wrong_node};
use pp_tree::{Book, Descriptor, Digest, Node};

/// What a store says to bytes that came as a chunk.
#[derive(Clone, Copy, PartialEq, Eq, Debug)]
pub enum Put {
    /// They are the chunk, and were written.
    Stored,
    /// The chunk is committed or pending already.
    Held,
    /// The digest of this node is wanted, and neither known nor claimed.
    Missing(Node),
    /// The digests lead to another one than the book's at this node.
    Wrong {
        node: Node,
        found: Digest,
        kept: Digest,
    },
    /// They have another length, in bytes, than the chunk.
    Length {
        found: usize,
        want: u32,
    },
}

/// Judges bytes as a chunk by the book and by claims, and adds to the book what is proved by that. Stored says that they
/// are the chunk; nothing is written.
pub(crate) fn admit(
    descriptor: &Descriptor,
    i: u32,
    chunk: &[u8],
    claims: &Claims,
    book: &mut Book,
) -> Put
    requires within { i < chunks_of descriptor.now }
    requires rooted { IsRooted descriptor.now (entry book.old) }

    ensures answer { result ≡ admitted descriptor.now (entry book.old) (latest claims.now) i chunk.now }
    ensures learned { (k j : ℕ) → entry book.new k j ≡ learned descriptor.now (entry book.old) (latest claims.now) i chunk.now k j }
    ensures backed { result ≡ Put.Stored → IsBacked descriptor.now (entry book.new) i chunk.now }
    ensures peaks { result ≡ Put.Stored → first_absent (entry book.new) (chunks_of descriptor.now) ≡ None }

    ensures kept { KeepsEntries (entry book.old) (entry book.new) }
    ensures rooted { (d : terms.Descriptor) → IsRooted d (entry book.old) → IsRooted d (entry book.new) }
    ensures descriptor { book.new.descriptor ≡ book.old.descriptor }
    ensures valid { IsDescriptor descriptor.now }
{
    let want = descriptor.chunk_len(i);
    let found = chunk.len();
    if found != want as usize {
        return Put::Length { found, want };
    }
    let chunks = descriptor.chunks();
    match settle_peaks(book, claims, chunks) {
        Settled::Known => admit_judged(descriptor, i, chunk, claims, book),
        Settled::Missing(node) => Put::Missing(node),
        Settled::Wrong { found, kept } => {
            let node = wrong_node(book, claims, chunks);
            Put::Wrong { node, found, kept }
        }
    }
}

// The same, once the peaks are settled.
fn admit_judged(
    descriptor: &Descriptor,
    i: u32,
    chunk: &[u8],
    claims: &Claims,
    book: &mut Book,
) -> Put
    requires within { i < chunks_of descriptor.now }
    requires rooted { IsRooted descriptor.now (entry book.old) }
    requires peaks { first_absent (entry book.old) (chunks_of descriptor.now) ≡ None }

    ensures answer { result ≡ by_verdict (judged descriptor.now (entry book.old) (latest claims.now) i chunk.now) }
    ensures learned { (k j : ℕ) → entry book.new k j ≡ with_path (judged descriptor.now (entry book.old) (latest claims.now) i chunk.now)
        (entry book.old) (path (latest claims.now) (height_of descriptor.now) 0 i (sha256 chunk.now)) k j }
    ensures backed { result ≡ Put.Stored → IsBacked descriptor.now (entry book.new) i chunk.now }
    ensures peaks { first_absent (entry book.new) (chunks_of descriptor.now) ≡ None }

    ensures kept { KeepsEntries (entry book.old) (entry book.new) }
    ensures rooted { (d : terms.Descriptor) → IsRooted d (entry book.old) → IsRooted d (entry book.new) }
    ensures descriptor { book.new.descriptor ≡ book.old.descriptor }
{
    match judge_and_adopt(book, claims, descriptor, i, chunk) {
        Verdict::Fits => Put::Stored,
        Verdict::Missing(node) => Put::Missing(node),
        Verdict::Wrong { node, found, kept } => Put::Wrong { node, found, kept },
        Verdict::Length { found, want } => Put::Length { found, want },
    }
}
