// Values of one swarm: digests, nodes, the root of a content, and bits.
ghost use Rattle.std.specs.Prelude.{◌≡◌, length};

use pp_tree::{Bits, Digest, Node, height, is_full, leaf, parent, peaks, root_of};
use std::alloc::Global;
use std::test::*;

mod descriptors;
mod sets;

const ABC: [u8; 32] = [
    0xba, 0x78, 0x16, 0xbf, 0x8f, 0x01, 0xcf, 0xea, 0x41, 0x41, 0x40, 0xde, 0x5d, 0xae, 0x22, 0x23,
    0xb0, 0x03, 0x61, 0xa3, 0x96, 0x17, 0x7a, 0x9c, 0xb4, 0x10, 0xff, 0x61, 0xf2, 0x00, 0x15, 0xad,
];

const ZEROS: [u8; 32] = [
    0xf5, 0xa5, 0xfd, 0x42, 0xd1, 0x6a, 0x20, 0x30, 0x27, 0x98, 0xef, 0x6e, 0xd3, 0x09, 0x97, 0x9b,
    0x43, 0x00, 0x3d, 0x23, 0x20, 0xd9, 0xf0, 0xe8, 0xea, 0x98, 0x31, 0xa9, 0x27, 0x59, 0xfb, 0x4b,
];

// The digest of "abc" is of FIPS 180-4's examples. That of their 448 bits isn't one of 64 bytes: the other is that of 64 zeros.
#[test]
fn digests_a_chunk_and_two_digests(rt: HostRuntime) {
    let digest = leaf(b"abc");
    assert!(rt; *digest.bytes() == ABC && digest == Digest::new(ABC));
    let zeros = Digest::new([0; 32]);
    assert!(rt; *parent(&zeros, &zeros).bytes() == ZEROS);
}

// How many chunks there are, and the height of their tree.
const HEIGHTS: [(u32, u8); 7] = [
    (1, 0),
    (2, 1),
    (3, 2),
    (4, 2),
    (5, 3),
    (7, 3),
    (1 << 20, 20),
];

fn has_height(chunks: u32, want: u8) -> bool {
    chunks > 0 && chunks <= 1 << 20 && height(chunks) == want
}

// How many of these have their height, before one that hasn't.
fn heights() -> u8 {
    let mut right: u8 = 0;
    for (chunks, want) in HEIGHTS {
        if !has_height(chunks, want) {
            return right;
        }
        right = right.saturating_add(1);
    }
    right
}

fn node(layer: u8, offset: u32) -> Node {
    Node { layer, offset }
}

#[test]
fn finds_peaks_heights_and_full_nodes(rt: HostRuntime) {
    assert!(rt; &peaks(7)[..] == [node(2, 0), node(1, 2), node(0, 6)].as_slice());
    assert_eq!(rt; heights(), 7);
    assert!(rt; is_full(node(1, 2), 7) && is_full(node(0, 6), 7));
    assert!(rt; !is_full(node(1, 3), 7) && !is_full(node(2, 1), 7));
}

// Its root was computed elsewhere.
const ROOT: [u8; 32] = [
    0xb4, 0x2e, 0xff, 0xe6, 0xef, 0xb1, 0xb6, 0x0e, 0x31, 0x99, 0xb1, 0x81, 0x82, 0xc6, 0x3d, 0x95,
    0x77, 0xf6, 0xcd, 0xfe, 0xaa, 0xa0, 0xac, 0xb3, 0x39, 0x9a, 0xc8, 0xd8, 0x7b, 0x4d, 0x8f, 0x73,
];

// 7,000 bytes: 5, 12, 19 .., with a step more at each 256th.
fn content() -> [u8; 7000] {
    let mut content = [0u8; 7000];
    for (j, byte) in content.iter_mut().enumerate() {
        *byte = ((5 + 7 * j + j / 256 + j / 65_536) % 256) as u8;
    }
    content
}

fn has_root(alloc: Global, content: &[u8], root: Digest) -> bool {
    if content.is_empty() || content.len() > 7000 {
        return false;
    }
    match root_of(alloc, content, 1024) {
        Ok(found) => found == root,
        Err(_) => false,
    }
}

#[test]
fn finds_the_root_of_seven_chunks(rt: HostRuntime) {
    assert!(rt; has_root(rt.alloc(), &content(), Digest::new(ROOT)));
    assert!(rt; has_root(rt.alloc(), b"abc", leaf(b"abc")));
}

// Which of bits 64, 65, 131 and 199 are set.
fn some(bits: &Bits) -> [bool; 4]
    requires { length bits.now ≡ 200 }
{
    [bits.has(64), bits.has(65), bits.has(131), bits.has(199)]
}

fn sets_and_clears(bits: &mut Bits) -> bool
    requires { length bits.old ≡ 200 }
{
    bits.set(199);
    bits.fill(0, 130);
    let filled = some(bits) == [true, true, false, true];
    bits.clear();
    let cleared = some(bits) == [false; 4];
    bits.set(64);
    filled && cleared && some(bits) == [true, false, false, false]
}

#[test]
fn clears_what_was_set(rt: HostRuntime) {
    match Bits::new(rt.alloc(), 200) {
        Ok(mut bits) => assert!(rt; sets_and_clears(&mut bits)),
        Err(_) => assert!(rt; false),
    }
}
