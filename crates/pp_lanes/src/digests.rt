// Whole messages: their blocks, the padding's block, and the digests (FIPS 180-4, sections 5.1.1 and 6.2).

ghost use Rattle.pp_lanes.specs.Lanes.{lane};
ghost use Rattle.sha2.specs.Sha256.{digest_bytes, initial_hash_256, padding, sha256};
ghost use Rattle.std.specs.Prelude.{◌≡◌, ℕ, ◌*◌, ◌%◌, ◌<◌, ◌≤◌, [], length, take, drop, slice_index_or};

use crate::blocks::compress;
use crate::constants::INITIAL_HASH;
use std::simd::u32x4;

// The padding of a message of `size` bytes, a whole number of blocks: one block.
fn last_block(size: usize) -> [u8; 64]
    requires { size % 64 ≡ 0 }
    ensures { result ≡ padding size }
{
    let mut block = [0u8; 64];
    block[0] = 0x80;
    block[56..64].copy_from_slice(&(size as u64).wrapping_mul(8).to_be_bytes());
    block
}

// The initial hash value, in each lane.
#[inline(always)]
fn initial_state() -> [u32x4; 8]
    ensures { (j : ℕ) → j < 4 → lane j result ≡ initial_hash_256 }
{
    [
        u32x4::splat(INITIAL_HASH[0]),
        u32x4::splat(INITIAL_HASH[1]),
        u32x4::splat(INITIAL_HASH[2]),
        u32x4::splat(INITIAL_HASH[3]),
        u32x4::splat(INITIAL_HASH[4]),
        u32x4::splat(INITIAL_HASH[5]),
        u32x4::splat(INITIAL_HASH[6]),
        u32x4::splat(INITIAL_HASH[7]),
    ]
}

// The hash value of lane `j`, as 32 bytes, the high byte of each word first.
fn digest_of(state: [u32x4; 8], j: usize) -> [u8; 32]
    requires { j < 4 }
    ensures { result ≡ digest_bytes (lane j state) 8 }
{
    let mut digest = [0u8; 32];
    'words: for i in 0..8 {
        digest[4 * i..4 * i + 4].copy_from_slice(&state[i].to_array()[j].to_be_bytes());
    }
    digest
}

/// The SHA-256 digests (FIPS 180-4, section 6.2) of the first four pieces of `size` bytes each, which stand one behind the
/// other at the beginning of `bytes`. `size` is a whole number of blocks of 64 bytes, 0 among them; bytes behind the fourth
/// piece are not read. Each digest is the eight words of the hash value as 32 bytes, the high byte of a word first.
pub fn digest_four(bytes: &[u8], size: usize) -> [[u8; 32]; 4]
    requires whole { size % 64 ≡ 0 }
    requires room { 4 * size ≤ length bytes.now }
    ensures { (j : ℕ) → j < 4 → slice_index_or result j [] ≡ sha256 (take size (drop (j * size) bytes.now)) }
{
    let mut state = initial_state();
    'whole: for i in 0..size / 64 {
        let next = compress(state, bytes, size, 64 * i);
        state = next;
    }
    // The padding is the same in all lanes, so they read one block, at distance 0.
    let last = last_block(size);
    let state = compress(state, &last, 0, 0);
    [
        digest_of(state, 0),
        digest_of(state, 1),
        digest_of(state, 2),
        digest_of(state, 3),
    ]
}
