// Names of swarms, and sizes that are learned. The contents are those of 7,000 and of 6,144 bytes in chunks of 1,024, the first six
// chunks the same. The digests were worked out with another implementation of SHA-256.
use hex::FromHex;
use pp_paths::Claims;
use pp_targets::{Learned, SwarmName, Target, learn};
use pp_tree::{Descriptor, DescriptorFault, Digest, Method, Node, leaf, parent};
use std::alloc::{AllocError, Global};
use std::test::*;

const ABC: &str = "ba7816bf8f01cfea414140de5dae2223b00361a396177a9cb410ff61f20015ad";

const SEVEN: &str = "b42effe6efb1b60e3199b18182c63d9577f6cdfeaaa0acb3399ac8d87b4d8f73";

const SIX: &str = "a7b21c5bbd5d0c87e7a89e1028c503ab40c20e9569a7922a2570e75251a61d40";

const FIRST_FOUR: &str = "ec5bb09e21df1ebfb769ce3360f5ff39335612ae52728b4cf2d410f8dbf31f9c";

const NEXT_TWO: &str = "6d5ee579dc3d3cedadfea6351f2b2bf97fe09764472f105b2332c39d6481583d";

const LEAF_0: &str = "c895858914baa700c85213dfbaee7d53cb75abd264fb0741093ff4675d13fad0";

const LEAF_1: &str = "6e8da3ae3630a70d55ec4e892a08afb087f3a74de93784ee5c57859a8b65841e";

// The root of the first two chunks.
const TWO: &str = "554ab6a2299f66936d4ec8b2d0e5f0459d87babedf6b81ee3c101c29fe18f695";

const LEAF_4: &str = "939a2fd65dd45ff4b1a919ec121144f3eef6e75247817f9ec97938cbb6d6000d";

const LEAF_6: &str = "84639b69bdabf15d356a9e32a67fe4fd56e7c464d314baf3aa09966c5fe187fa";

// What chunk 5 leads to at node (1, 2), with the lowest bit of its first byte changed.
const CHANGED: &str = "dfd98a901484b4888fee1b55158da00bf8be8cd83cdc803e507620fce3fa0fff";

// The root of seven chunks with the first leaf in the place of the last peak.
const OTHER_ROOT: &str = "88613eeac5fb7f60eb775dfdd434b70ca01c6f202cf08098617c006d5ace2cff";

// Zeros, where it is no digest's text.
fn digest(text: &str) -> Digest {
    match <[u8; 32]>::from_hex(text) {
        Ok(bytes) => Digest::new(bytes),
        Err(_) => Digest::new([0; 32]),
    }
}

fn node(layer: u8, offset: u32) -> Node {
    Node { layer, offset }
}

// The names of the swarms with these roots, in chunks of 1,024 bytes.
const NAME_OF_ABC: &str =
    "ppspp1:ba7816bf8f01cfea414140de5dae2223b00361a396177a9cb410ff61f20015ad:1024:auto:2";

const NAME_OF_TWO: &str =
    "ppspp1:554ab6a2299f66936d4ec8b2d0e5f0459d87babedf6b81ee3c101c29fe18f695:1024:auto:2";

const NAME_OF_SIX: &str =
    "ppspp1:a7b21c5bbd5d0c87e7a89e1028c503ab40c20e9569a7922a2570e75251a61d40:1024:auto:2";

const NAME_OF_SEVEN: &str =
    "ppspp1:b42effe6efb1b60e3199b18182c63d9577f6cdfeaaa0acb3399ac8d87b4d8f73:1024:auto:2";

// What bytes tell as the last chunk of a swarm with that name. None where they can't be a chunk.
fn told(claims: &Claims, name: &str, i: u32, bytes: &[u8]) -> Option<Learned> {
    match Target::read(name) {
        Ok(Target::Auto(name)) => {
            if i >= 1 << 20 || bytes.is_empty() || bytes.len() > name.chunk as usize {
                return None;
            }
            Some(learn(claims, &name, i, bytes))
        }
        _ => None,
    }
}

// What a swarm of so many bytes in chunks of 1,024 is learned to be.
fn is_size(told: Option<Learned>, root: &str, size: u64) -> bool {
    match Descriptor::new(digest(root), 1024, size, Method::Range32) {
        Ok(descriptor) => told == Some(Learned::Size(descriptor)),
        Err(_) => false,
    }
}

fn wrong(found: &str, kept: &str) -> Option<Learned> {
    let (found, kept) = (digest(found), digest(kept));
    Some(Learned::Wrong { found, kept })
}

fn missing(layer: u8, offset: u32) -> Option<Learned> {
    Some(Learned::Missing(node(layer, offset)))
}

fn claim_all(claims: &mut Claims, nodes: &[(u8, u32, &str)]) {
    for (layer, offset, text) in nodes {
        claims.add(node(*layer, *offset), digest(text));
    }
}

fn claimed(alloc: Global, nodes: &[(u8, u32, &str)]) -> Result<Claims, AllocError> {
    let mut claims = Claims::new(alloc)?;
    claim_all(&mut claims, nodes);
    Ok(claims)
}

// What bytes tell where these digests are claimed.
fn told_by(
    alloc: Global,
    nodes: &[(u8, u32, &str)],
    name: &str,
    i: u32,
    bytes: &[u8],
) -> Option<Learned> {
    match claimed(alloc, nodes) {
        Ok(claims) => told(&claims, name, i, bytes),
        Err(_) => None,
    }
}

// the bytes of a whole chunk
fn chunk(i: u32) -> [u8; 1024] {
    let mut bytes = [0; 1024];
    for (at, byte) in bytes.iter_mut().enumerate() {
        let j = i as usize % 7 * 1024 + at;
        *byte = ((5 + 7 * j + j / 256 + j / 65536) % 256) as u8;
    }
    bytes
}

// Names without a size, and the chunk's length and the method that they tell.
const AUTOS: [(&str, u32, Method); 3] = [
    (
        "ppspp1:ba7816bf8f01cfea414140de5dae2223b00361a396177a9cb410ff61f20015ad:1024:auto:2",
        1024,
        Method::Range32,
    ),
    (
        "ppspp1:ba7816bf8f01cfea414140de5dae2223b00361a396177a9cb410ff61f20015ad:256:auto:0",
        256,
        Method::Bin32,
    ),
    (
        "ppspp1:ba7816bf8f01cfea414140de5dae2223b00361a396177a9cb410ff61f20015ad:8192:auto:4",
        8192,
        Method::Range64,
    ),
];

fn is_auto(text: &str, chunk: u32, method: Method) -> bool {
    let name = SwarmName {
        root: leaf(b"abc"),
        chunk,
        method,
    };
    Target::read(text) == Ok(Target::Auto(name))
}

fn is_sized(text: &str) -> bool {
    match Descriptor::new(leaf(b"abc"), 1024, 3, Method::Range32) {
        Ok(descriptor) => Target::read(text) == Ok(Target::Sized(descriptor)),
        Err(_) => false,
    }
}

// How many of these are read, before one that isn't.
fn autos_read(rows: &[(&str, u32, Method)]) -> u8 {
    let mut right: u8 = 0;
    for (text, chunk, method) in rows {
        if !is_auto(text, *chunk, *method) {
            return right;
        }
        right = right.saturating_add(1);
    }
    right
}

const SIZED: &str =
    "ppspp1:ba7816bf8f01cfea414140de5dae2223b00361a396177a9cb410ff61f20015ad:1024:3:2";

#[test]
fn reads_both_forms(rt: HostRuntime) {
    assert_eq!(rt; autos_read(&AUTOS), 3);
    assert!(rt; is_sized(SIZED));
}

// Texts, and what is wrong with them.
const FAULTS: [(&str, DescriptorFault); 18] = [
    (
        "ppspp1:ba7816bf8f01cfea414140de5dae2223b00361a396177a9cb410ff61f20015ad:1000:auto:2",
        DescriptorFault::Chunk { at: 72 },
    ),
    (
        "ppspp1:ba7816bf8f01cfea414140de5dae2223b00361a396177a9cb410ff61f20015ad:1000:3:2",
        DescriptorFault::Chunk { at: 72 },
    ),
    (
        "ppspp1:ba7816bf8f01cfea414140de5dae2223b00361a396177a9cb410ff61f20015ad:1024:0:2",
        DescriptorFault::Size { at: 77 },
    ),
    (
        "ppspp1:ba7816bf8f01cfea414140de5dae2223b00361a396177a9cb410ff61f20015ad:1024:auto:1",
        DescriptorFault::Method { at: 82 },
    ),
    (
        "ppspp1:ba7816bf8f01cfea414140de5dae2223b00361a396177a9cb410ff61f20015ad:1024:3:1",
        DescriptorFault::Method { at: 79 },
    ),
    (
        "ppspp1:ba7816bf8f01cfea414140de5dae2223b00361a396177a9cb410ff61f20015ad:1024:",
        DescriptorFault::Form { at: 77 },
    ),
    (
        "ppspp1:ba7816bf8f01cfea414140de5dae2223b00361a396177a9cb410ff61f20015ad:1024:xuto:2",
        DescriptorFault::Form { at: 77 },
    ),
    (
        "ppspp1:ba7816bf8f01cfea414140de5dae2223b00361a396177a9cb410ff61f20015ad:1024:aut",
        DescriptorFault::Form { at: 80 },
    ),
    (
        "ppspp1:ba7816bf8f01cfea414140de5dae2223b00361a396177a9cb410ff61f20015ad:1024:autx:2",
        DescriptorFault::Form { at: 80 },
    ),
    (
        "ppspp1:ba7816bf8f01cfea414140de5dae2223b00361a396177a9cb410ff61f20015ad:1024:Auto:2",
        DescriptorFault::Form { at: 77 },
    ),
    (
        "ppspp1:ba7816bf8f01cfea414140de5dae2223b00361a396177a9cb410ff61f20015ad:1024:3auto:2",
        DescriptorFault::Form { at: 78 },
    ),
    (
        "ppspp1:ba7816bf8f01cfea414140de5dae2223b00361a396177a9cb410ff61f20015ad:1024:auto",
        DescriptorFault::Form { at: 81 },
    ),
    (
        "ppspp1:ba7816bf8f01cfea414140de5dae2223b00361a396177a9cb410ff61f20015ad:1024:auto:",
        DescriptorFault::Form { at: 82 },
    ),
    (
        "ppspp1:ba7816bf8f01cfea414140de5dae2223b00361a396177a9cb410ff61f20015ad:1024:auto:02",
        DescriptorFault::Form { at: 83 },
    ),
    (
        "ppspp1:ba7816bf8f01cfea414140de5dae2223b00361a396177a9cb410ff61f20015ad:auto:auto:2",
        DescriptorFault::Form { at: 72 },
    ),
    ("", DescriptorFault::Form { at: 0 }),
    ("ppspp1:ba78", DescriptorFault::Form { at: 11 }),
    ("auto", DescriptorFault::Form { at: 0 }),
];

fn has_fault(text: &str, want: DescriptorFault) -> bool {
    match Target::read(text) {
        Ok(_) => false,
        Err(fault) => fault == want,
    }
}

// How many of these have their fault, before one that hasn't.
fn faults(rows: &[(&str, DescriptorFault)]) -> u8 {
    let mut right: u8 = 0;
    for (text, want) in rows {
        if !has_fault(text, *want) {
            return right;
        }
        right = right.saturating_add(1);
    }
    right
}

#[test]
fn names_the_fault_of_a_text(rt: HostRuntime) {
    assert_eq!(rt; faults(&FAULTS), 18);
}

// two digests joined
fn both(left: &Digest, right: &Digest) -> [u8; 64] {
    let mut bytes = [0; 64];
    bytes[..32].copy_from_slice(left.bytes());
    bytes[32..].copy_from_slice(right.bytes());
    bytes
}

#[test]
fn learns_of_one_chunk(rt: HostRuntime) {
    assert!(rt; told_by(rt.alloc(), &[], NAME_OF_ABC, 0, b"abc") == missing(0, 0));
    assert!(rt;
        is_size(
            told_by(rt.alloc(), &[(0, 0, ABC)], NAME_OF_ABC, 0, b"abc"),
            ABC,
            3
        )
    );
}

#[test]
fn takes_no_two_digests_for_a_chunk(rt: HostRuntime) {
    let (left, right) = (digest(LEAF_0), digest(LEAF_1));
    assert!(rt; parent(&left, &right) == digest(TWO));
    let told = told_by(
        rt.alloc(),
        &[(0, 0, TWO)],
        NAME_OF_TWO,
        0,
        &both(&left, &right),
    );
    assert!(rt; told == Some(Learned::SixtyFour));
}

// the last of seven chunks
fn last_of_seven() -> [u8; 856] {
    let mut bytes = [0; 856];
    for (at, byte) in bytes.iter_mut().enumerate() {
        let j = 6 * 1024 + at;
        *byte = ((5 + 7 * j + j / 256 + j / 65536) % 256) as u8;
    }
    bytes
}

const PEAKS: [(u8, u32, &str); 3] = [(2, 0, FIRST_FOUR), (1, 2, NEXT_TWO), (0, 6, LEAF_6)];

// Whether the first peak is missing that isn't claimed.
fn lacks_peaks(alloc: Global) -> bool {
    let last = last_of_seven();
    told_by(alloc, &[], NAME_OF_SEVEN, 6, &last) == missing(2, 0)
        && told_by(alloc, &PEAKS[1..3], NAME_OF_SEVEN, 6, &last) == missing(2, 0)
        && told_by(alloc, &PEAKS[..1], NAME_OF_SEVEN, 6, &last) == missing(1, 2)
        && told_by(alloc, &PEAKS[..2], NAME_OF_SEVEN, 6, &last) == missing(0, 6)
}

#[test]
fn learns_of_seven_chunks(rt: HostRuntime) {
    assert!(rt; lacks_peaks(rt.alloc()));
    let told = told_by(rt.alloc(), &PEAKS, NAME_OF_SEVEN, 6, &last_of_seven());
    assert!(rt; is_size(told, SEVEN, 7000));
}

#[test]
fn learns_of_no_wrong_peak(rt: HostRuntime) {
    let peaks = [(2, 0, FIRST_FOUR), (1, 2, NEXT_TWO), (0, 6, LEAF_0)];
    let told = told_by(rt.alloc(), &peaks, NAME_OF_SEVEN, 6, &chunk(0));
    assert!(rt; told == wrong(OTHER_ROOT, SEVEN));
}

const NODES: [(u8, u32, &str); 3] = [(2, 0, FIRST_FOUR), (1, 2, NEXT_TWO), (0, 4, LEAF_4)];

// The last of six chunks, and the same with one bit changed.
fn learns_of_six(alloc: Global) -> bool {
    let mut last = chunk(5);
    let told = told_by(alloc, &NODES, NAME_OF_SIX, 5, &last);
    last[0] ^= 1;
    is_size(told, SIX, 6144)
        && told_by(alloc, &NODES, NAME_OF_SIX, 5, &last) == wrong(CHANGED, NEXT_TWO)
}

#[test]
fn learns_of_six_chunks(rt: HostRuntime) {
    assert!(rt; told_by(rt.alloc(), &NODES[..2], NAME_OF_SIX, 5, &chunk(5)) == missing(0, 4));
    assert!(rt; learns_of_six(rt.alloc()));
}
