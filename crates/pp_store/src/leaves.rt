// The leaf digests of a buffer of chunks.
ghost use Rattle.std.specs.Prelude.{◌≡◌, ℕ, ◌+◌, ◌*◌, ◌<◌, ◌≤◌, ◌%◌, [], length, slice_index_or};
ghost use Rattle.sha2.specs.Sha256.{sha256};
ghost use Rattle.pp_terms.specs.tree.Content.{chunk_of};
ghost use Rattle.pp_store.specs.Leaves.{HasLeaves};

use pp_lanes::digest_four;
use pp_tree::{Digest, leaf};

/// How many chunks a buffer has at the most.
pub(crate) const LEAVES: usize = 256;

/// Digests each chunk of the pieces, which are cut into chunks of that many bytes, the last one possibly shorter.
pub(crate) fn leaf_digests(pieces: &[u8], chunk: usize, digests: &mut [Digest; LEAVES])
    requires some { 0 < chunk }
    requires small { chunk ≤ 8192 }
    requires blocks { chunk % 64 ≡ 0 }
    requires few { length pieces.now ≤ 256 * chunk }
    ensures { (i : ℕ) → i * chunk < length pieces.now
        → slice_index_or digests.new i [] ≡ sha256 (chunk_of pieces.now chunk i) }
{
    let mut i = digest_fours(pieces, chunk, digests);
    let mut start = i * chunk;
    while start < pieces.len() {
        let end = pieces.len().min(start + chunk);
        digests[i] = leaf(&pieces[start..end]);
        i += 1;
        start += chunk;
    }
}

// Digests the first chunks, four at once, while there are so many whole ones. Answers how many that is.
fn digest_fours(pieces: &[u8], chunk: usize, digests: &mut [Digest; LEAVES]) -> usize
    requires some { 0 < chunk }
    requires small { chunk ≤ 8192 }
    requires blocks { chunk % 64 ≡ 0 }
    requires few { length pieces.now ≤ 256 * chunk }
    ensures whole { result * chunk ≤ length pieces.now }
    ensures digests { HasLeaves pieces.now chunk result digests.new }
    ensures room { length digests.new ≡ 256 }
{
    let mut i = 0;
    let mut start = 0;
    while pieces.len() - start >= 4 * chunk {
        put_four(digests, i, &digest_four(&pieces[start..], chunk));
        i += 4;
        start += 4 * chunk;
    }
    i
}

// Puts four digests at place i and behind it.
fn put_four(digests: &mut [Digest; LEAVES], i: usize, four: &[[u8; 32]; 4])
    requires { i + 4 ≤ 256 }
    ensures first { slice_index_or digests.new i [] ≡ slice_index_or four.now 0 [] }
    ensures second { slice_index_or digests.new (i + 1) [] ≡ slice_index_or four.now 1 [] }
    ensures third { slice_index_or digests.new (i + 2) [] ≡ slice_index_or four.now 2 [] }
    ensures fourth { slice_index_or digests.new (i + 3) [] ≡ slice_index_or four.now 3 [] }
    ensures room { length digests.new ≡ 256 }
    ensures before { (k : ℕ) → k < i → slice_index_or digests.new k [] ≡ slice_index_or digests.old k [] }
{
    digests[i] = Digest::new(four[0]);
    digests[i + 1] = Digest::new(four[1]);
    digests[i + 2] = Digest::new(four[2]);
    digests[i + 3] = Digest::new(four[3]);
}
