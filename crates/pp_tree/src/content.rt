// The tree of a whole content in memory.
ghost use Rattle.std.specs.Prelude.{◌≡◌, ℕ, ◌+◌, ◌*◌, ◌/◌, ◌^◌, ◌<◌, ◌≤◌, ◌++◌, length, slice_index_or, [], IfOk};
ghost use Rattle.sha2.specs.Sha256.{sha256};
ghost use Rattle.pp_terms.specs.tree.Content.{chunk_count};
ghost use Rattle.pp_terms.specs.tree.Tree as terms;
ghost use Rattle.pp_terms.specs.tree.Tree.{leaf_of, empty_hash};

use crate::digest::{Digest, leaf};
use crate::node::{height, parent};
use std::alloc::{AllocError, Global};

/// The root hash of a content cut into chunks of that many bytes (RFC 7574, section 5.1): of at least one byte and at most
/// 2^20 chunks. It takes memory for the digests of two layers.
pub fn root_of(alloc: Global, content: &[u8], chunk: u32) -> Result<Digest, AllocError>
    requires size { 0 < chunk }
    requires some { 0 < length content.now }
    requires most { length content.now ≤ 2 ^ 20 * chunk }
    ensures { IfOk result (λ root. root ≡ terms.root_of content.now chunk) }
{
    let mut layer = leaves(alloc, content, chunk as usize)?;
    for _ in 0..height(layer.len() as u32) {
        layer = parents(alloc, &layer)?;
    }
    Ok(layer[0])
}

// The digests of the chunks.
fn leaves(alloc: Global, content: &[u8], chunk: usize) -> Result<Vec<Digest>, AllocError>
    requires size { 0 < chunk }
    requires fits { length content.now + chunk < 2 ^ 64 }
    ensures len { IfOk result (λ digests. length digests.items ≡ chunk_count (length content.now) chunk) }
    ensures each { IfOk result (λ digests. (i : ℕ) → i < length digests.items
        → slice_index_or digests.items i [] ≡ leaf_of content.now chunk i) }
{
    let mut digests = Vec::new(alloc);
    let mut start = 0;
    while start < content.len() {
        let end = content.len().min(start + chunk);
        digests.push(leaf(&content[start..end]))?;
        start += chunk;
    }
    Ok(digests)
}

// The digests of the nodes above a layer's, those that cover a chunk.
fn parents(alloc: Global, layer: &[Digest]) -> Result<Vec<Digest>, AllocError>
    ensures len { IfOk result (λ digests. length digests.items ≡ (length layer.now + 1) / 2) }
    ensures each { IfOk result (λ digests. (j : ℕ) → j < length digests.items → slice_index_or digests.items j []
        ≡ sha256 (slice_index_or layer.now (2 * j) [] ++ slice_index_or layer.now (2 * j + 1) empty_hash)) }
{
    let mut digests = Vec::new(alloc);
    for j in 0..layer.len().div_ceil(2) {
        let left = layer[2 * j];
        let right = digest_or_empty(layer, 2 * j + 1);
        digests.push(parent(&left, &right))?;
    }
    Ok(digests)
}

// The digest at that place of a layer, past its end that of a node that covers no chunk.
fn digest_or_empty(layer: &[Digest], i: usize) -> Digest
    ensures { result ≡ slice_index_or layer.now i empty_hash }
{
    if i < layer.len() {
        layer[i]
    } else {
        Digest::new([0; 32])
    }
}
