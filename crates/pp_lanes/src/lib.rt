//! SHA-256 (FIPS 180-4) of four messages of one length at once, one in each lane of a vector. Nothing here takes memory.
#![tactic(auto)]

mod blocks;
mod constants;
mod digests;
mod steps;
mod words;

pub use digests::digest_four;
