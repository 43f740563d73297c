//! Scans of files for the store of `abc`.

use crate::examples::{FIELDS, GAP, REST, STORE, abc, joined};
use crate::swarm::prepared;
use pp_outside::MemoryDisk;
use pp_scan::{ScanFault, scan, verify};
use pp_tree::ChunkSet;
use std::alloc::Global;
use std::test::Fail;

// How chunks are found: by their gates, or by their hashes.
#[derive(Clone, Copy)]
enum Way {
    Scan,
    Verify,
}

// How many chunks were found.
fn counted(found: Result<ChunkSet, ScanFault>) -> Result<u32, ScanFault> {
    match found {
        Ok(set) => Ok(set.count()),
        Err(fault) => Err(fault),
    }
}

// How many chunks are found on a disk.
fn found(alloc: Global, way: Way, disk: &mut MemoryDisk) -> Result<Result<u32, ScanFault>, Fail> {
    let descriptor = abc()?;
    let mut book = prepared(alloc, &descriptor)?;
    Ok(counted(match way {
        Way::Scan => scan(alloc, &descriptor, disk, &mut book),
        Way::Verify => verify(alloc, &descriptor, disk, &mut book),
    }))
}

// How many chunks are found in a file of these parts.
fn held(alloc: Global, way: Way, parts: &[&[u8]]) -> Result<Result<u32, ScanFault>, Fail> {
    let file = joined(alloc, parts)?;
    let mut disk = MemoryDisk::new(alloc, &file)?;
    found(alloc, way, &mut disk)
}

const NAME: &[u8] = b"PPSTORE2";

// The parts of a file, and how many chunks are found there. A scan goes by the header and the gate, and reads no chunk.
const SCANNED: [(&[&[u8]], Result<u32, ScanFault>); 7] = [
    (&STORE, Ok(1)),
    (&[], Ok(0)),
    // another byte in the chunk
    (&[NAME, &FIELDS, &GAP, b"bbc", &REST, &[0x4f]], Ok(1)),
    // The gate lies past the end.
    (&[NAME, &FIELDS, &GAP, b"abc", &REST], Ok(0)),
    // A gate with any other value is closed.
    (&[NAME, &FIELDS, &GAP, b"abc", &REST, &[0x4e]], Ok(0)),
    // the first byte that differs from the header
    (
        &[b"PPSTORE3", &FIELDS, &GAP, b"abc", &REST, &[0x4f]],
        Err(ScanFault::NotAStore {
            at: 7,
            found: 51,
            want: 50,
        }),
    ),
    (
        &[b"PPSTORE"],
        Err(ScanFault::NotAStore {
            at: 7,
            found: 0,
            want: 50,
        }),
    ),
];

#[test]
fn a_scan_finds_chunks_by_their_gates(rt: HostRuntime) -> Result<(), Fail> {
    for (k, (parts, want)) in SCANNED.iter().enumerate() {
        assert_eq!(rt; held(rt.alloc(), Way::Scan, parts)?, *want, "case {k}");
    }
    Ok(())
}

const BLANK: [u8; 64] = [0; 64];

// A file is verified by its chunk, whatever its header and its gates are.
#[test]
fn hashing_finds_chunks_by_their_bytes(rt: HostRuntime) -> Result<(), Fail> {
    let cases: [(&[&[u8]], u32); 3] = [
        (&[&BLANK, b"abc"], 1),
        (&[&BLANK, b"ab"], 0),
        (&[NAME, &FIELDS, &GAP, b"bbc", &REST, &[0x4f]], 0),
    ];
    for (parts, want) in cases {
        assert_eq!(rt; held(rt.alloc(), Way::Verify, parts)?, Ok(want));
    }
    Ok(())
}
