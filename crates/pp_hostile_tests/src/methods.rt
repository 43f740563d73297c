//! The other ways to name chunks: bins of 32 and 64 bits, and ranges of 64 bits.

use crate::side::joined;
use crate::trial::{Depth, Names, Outcome, SURVIVED, To, tried};
use pp_tree::Method;
use std::alloc::Global;
use std::process::Abort;
use std::test::*;

// Bin 7 is over chunks 0 to 7, and bin 6 the leaf of chunk 3.
const BINS_32: Names = Names {
    method: Method::Bin32,
    all: &[0, 0, 0, 7],
    fourth: &[0, 0, 0, 6],
};

const BINS_64: Names = Names {
    method: Method::Bin64,
    all: &[0, 0, 0, 0, 0, 0, 0, 7],
    fourth: &[0, 0, 0, 0, 0, 0, 0, 6],
};

const RANGES_64: Names = Names {
    method: Method::Range64,
    all: &[0, 0, 0, 0, 0, 0, 0, 0, 0, 0, 0, 0, 0, 0, 0, 6],
    fourth: &[0, 0, 0, 0, 0, 0, 0, 3, 0, 0, 0, 0, 0, 0, 0, 3],
};

// One bits alone; the bin over all chunks that have a number; the leaf of the greatest; the leaf behind the content.
const NAMES_32: [&[u8]; 4] = [
    &[255, 255, 255, 255],
    &[127, 255, 255, 255],
    &[255, 255, 255, 254],
    &[0, 0, 0, 14],
];

const NAMES_64: [&[u8]; 4] = [
    &[255, 255, 255, 255, 255, 255, 255, 255],
    &[127, 255, 255, 255, 255, 255, 255, 255],
    &[255, 255, 255, 255, 255, 255, 255, 254],
    &[0, 0, 0, 0, 0, 0, 0, 14],
];

// The greatest number; all numbers; from 2^63 on; a reversed span; the chunk behind the content.
const SPANS_64: [&[u8]; 5] = [
    &[255; 16],
    &[
        0, 0, 0, 0, 0, 0, 0, 0, 255, 255, 255, 255, 255, 255, 255, 255,
    ],
    &[
        128, 0, 0, 0, 0, 0, 0, 0, 255, 255, 255, 255, 255, 255, 255, 255,
    ],
    &[
        255, 255, 255, 255, 255, 255, 255, 255, 0, 0, 0, 0, 0, 0, 0, 0,
    ],
    &[0, 0, 0, 0, 0, 0, 0, 7, 0, 0, 0, 0, 0, 0, 0, 7],
];

// The types of the messages that name chunks: DATA, ACK, HAVE, INTEGRITY, REQUEST and CANCEL.
const KINDS: [u8; 6] = [1, 2, 3, 4, 8, 9];

// What follows the name in any of them: enough for an INTEGRITY.
const REST: [u8; 32] = [10; 32];

// What becomes of a message of a kind with a name.
fn met(alloc: Global, names: Names, kind: u8, name: &[u8]) -> Result<Outcome, Fail> {
    let message = joined(alloc, &[&[kind], name, &REST])?;
    tried(alloc, names, To::Channel, &message, Depth::Chunks)
}

// A message of each kind, with each of the names. To the others what follows the name is CHOKEs.
fn survives(rt: &impl Abort, alloc: Global, names: Names, given: &[&[u8]]) -> Result<(), Fail> {
    for kind in KINDS {
        for (n, name) in given.iter().enumerate() {
            assert_eq!(rt;
                met(alloc, names, kind, name)?,
                SURVIVED,
                "type {kind} with name {n}"
            );
        }
    }
    Ok(())
}

#[test]
fn strange_bins_of_32_bits_are_survived(rt: HostRuntime) -> Result<(), Fail> {
    survives(&rt, rt.alloc(), BINS_32, &NAMES_32)
}

#[test]
fn strange_bins_of_64_bits_are_survived(rt: HostRuntime) -> Result<(), Fail> {
    survives(&rt, rt.alloc(), BINS_64, &NAMES_64)
}

#[test]
fn strange_ranges_of_64_bits_are_survived(rt: HostRuntime) -> Result<(), Fail> {
    survives(&rt, rt.alloc(), RANGES_64, &SPANS_64)
}
