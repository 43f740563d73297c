// One block of each lane at a time (FIPS 180-4, sections 5.2.1 and 6.2.2).

ghost use Rattle.pp_lanes.specs.Lanes.{block_of, lane, window};
ghost use Rattle.sha2.specs.Sha256.{add_state, compress, word_at};
ghost use Rattle.std.specs.Prelude.{◌≡◌, ℕ, ◌+◌, ◌*◌, ◌<◌, ◌≤◌, length, slice_index};

use crate::steps::{first_four_steps, four_steps};
use crate::words::add;
use std::simd::u32x4;

// The word at byte `at`, its high byte first.
#[inline(always)]
fn load_be(bytes: &[u8], at: usize) -> u32
    requires { at + 4 ≤ length bytes.now }
    ensures { result ≡ word_at bytes.now at }
{
    u32::from_be_bytes([bytes[at], bytes[at + 1], bytes[at + 2], bytes[at + 3]])
}

// The word at byte `at` of each lane, whose bytes begin `size` behind those of the lane before it.
#[inline(always)]
fn load_four(bytes: &[u8], size: usize, at: usize) -> u32x4
    requires { at + 3 * size + 4 ≤ length bytes.now }
    ensures { (j : ℕ) → j < 4 → slice_index result j ≡ word_at bytes.now (at + j * size) }
{
    u32x4::from_array([
        load_be(bytes, at),
        load_be(bytes, at + size),
        load_be(bytes, at + 2 * size),
        load_be(bytes, at + 3 * size),
    ])
}

// The 16 words of each lane's block, the first of which begins at byte `at`.
#[inline(always)]
fn load_words(w: &mut [u32x4; 16], bytes: &[u8], size: usize, at: usize)
    requires { at + 3 * size + 64 ≤ length bytes.now }
    ensures { (j k : ℕ) → j < 4 → k < 16 → slice_index (window j w.new) k ≡ word_at (block_of bytes.now size at j) (4 * k) }
{
    'words: for i in 0..16 {
        w[i] = load_four(bytes, size, at + 4 * i);
    }
}

// The state, with what the rounds made of it added to it.
#[inline(always)]
fn add_state(state: [u32x4; 8], v: [u32x4; 8]) -> [u32x4; 8]
    ensures { (j : ℕ) → j < 4 → lane j result ≡ add_state (lane j state) (lane j v) }
{
    [
        add(state[0], v[0]),
        add(state[1], v[1]),
        add(state[2], v[2]),
        add(state[3], v[3]),
        add(state[4], v[4]),
        add(state[5], v[5]),
        add(state[6], v[6]),
        add(state[7], v[7]),
    ]
}

// The state after the 64 rounds in each lane over the 64 bytes from `at` on. Each lane's bytes begin `size` behind those of
// the lane before it.
pub(crate) fn compress(state: [u32x4; 8], bytes: &[u8], size: usize, at: usize) -> [u32x4; 8]
    requires { at + 3 * size + 64 ≤ length bytes.now }
    ensures { (j : ℕ) → j < 4 → lane j result ≡ compress (lane j state) (block_of bytes.now size at j) }
{
    let mut w = [u32x4::splat(0); 16];
    load_words(&mut w, bytes, size, at);
    let v = first_four_steps(&w, state, 0);
    let v = first_four_steps(&w, v, 4);
    let v = first_four_steps(&w, v, 8);
    let mut v = first_four_steps(&w, v, 12);
    // Sixteen rounds a turn, so that each word's place in the ring is a constant.
    'schedule: for turn in 1..4 {
        let next = four_steps(&mut w, v, turn, 0);
        let next = four_steps(&mut w, next, turn, 4);
        let next = four_steps(&mut w, next, turn, 8);
        let next = four_steps(&mut w, next, turn, 12);
        v = next;
    }
    add_state(state, v)
}
