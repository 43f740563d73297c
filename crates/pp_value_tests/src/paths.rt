// The digests that peers claim, of a content of 7,000 bytes in seven chunks of 1,024, the last one of 856. The digests were worked
// out with another implementation of SHA-256.
ghost use Rattle.std.specs.Prelude.{IfOk};
ghost use Rattle.pp_terms.specs.tree.Book.{IsRooted};
ghost use Rattle.pp_tree.specs.Book.{entry};

use hex::FromHex;
use pp_paths::{Claims, Settled, Verdict, adopt, judge, settle_peaks, wrong_node};
use pp_tree::{Book, Descriptor, Digest, FieldFault, Method, Node};
use std::alloc::{AllocError, Global};
use std::test::*;

const ROOT: &str = "b42effe6efb1b60e3199b18182c63d9577f6cdfeaaa0acb3399ac8d87b4d8f73";

const CLAIMS: [(u8, u32, &str); 5] = [
    (
        2,
        0,
        "ec5bb09e21df1ebfb769ce3360f5ff39335612ae52728b4cf2d410f8dbf31f9c",
    ),
    (
        1,
        2,
        "6d5ee579dc3d3cedadfea6351f2b2bf97fe09764472f105b2332c39d6481583d",
    ),
    (
        0,
        6,
        "84639b69bdabf15d356a9e32a67fe4fd56e7c464d314baf3aa09966c5fe187fa",
    ),
    (
        1,
        1,
        "60e2b0afe2df4707bfe4ee483571d42aca9811dfedb14ccdc0bb54b907a3b7e0",
    ),
    (
        0,
        1,
        "6e8da3ae3630a70d55ec4e892a08afb087f3a74de93784ee5c57859a8b65841e",
    ),
];

// What the pair of leaves leads to at node (2, 0), with the lowest bit of the first byte changed.
const CHANGED: &str = "76844da83ec3f078d284c1cf75f03f390e4cc4ab803d09644d8c541295999f78";

// The root with the first leaf in the place of the last peak.
const OTHER_ROOT: &str = "88613eeac5fb7f60eb775dfdd434b70ca01c6f202cf08098617c006d5ace2cff";

const FIRST_LEAF: &str = "c895858914baa700c85213dfbaee7d53cb75abd264fb0741093ff4675d13fad0";

// Zeros, where it is no digest's text.
fn digest(text: &str) -> Digest {
    match <[u8; 32]>::from_hex(text) {
        Ok(bytes) => Digest::new(bytes),
        Err(_) => Digest::new([0; 32]),
    }
}

fn node(layer: u8, offset: u32) -> Node {
    Node { layer, offset }
}

fn descriptor() -> Result<Descriptor, FieldFault> {
    Descriptor::new(digest(ROOT), 1024, 7000, Method::Range32)
}

fn prepared(alloc: Global, descriptor: &Descriptor) -> Result<Book, AllocError>
    ensures rooted { IfOk result (λ book. IsRooted descriptor.now (entry book)) }
{
    let mut book = Book::empty(alloc);
    book.prepare(alloc, descriptor)?;
    Ok(book)
}

fn claim_all(claims: &mut Claims) {
    for (layer, offset, text) in CLAIMS {
        claims.add(node(layer, offset), digest(text));
    }
}

fn claimed(alloc: Global) -> Result<Claims, AllocError> {
    let mut claims = Claims::new(alloc)?;
    claim_all(&mut claims);
    Ok(claims)
}

// The bytes of a chunk, or more of the same kind behind the last one's.
fn chunk(i: u32) -> [u8; 1024] {
    let mut bytes = [0; 1024];
    for (at, byte) in bytes.iter_mut().enumerate() {
        let j = i as usize % 7 * 1024 + at;
        *byte = ((5 + 7 * j + j / 256 + j / 65536) % 256) as u8;
    }
    bytes
}

fn settle(book: &mut Book, claims: &Claims, descriptor: &Descriptor) -> Settled
    requires rooted { IsRooted descriptor.now (entry book.old) }
    ensures rooted { IsRooted descriptor.now (entry book.new) }
{
    settle_peaks(book, claims, descriptor.chunks())
}

// What is said of bytes as a chunk of the content; none where it has no such chunk.
fn judged(
    book: &Book,
    claims: &Claims,
    descriptor: &Descriptor,
    i: u32,
    bytes: &[u8],
) -> Option<Verdict> {
    if i >= descriptor.chunks() {
        return None;
    }
    Some(judge(book, claims, descriptor, i, bytes))
}

// Whether the first peak is missing from a new book.
fn lacks_peak(alloc: Global, claims: &Claims) -> bool {
    match descriptor() {
        Ok(descriptor) => match prepared(alloc, &descriptor) {
            Ok(mut book) => settle(&mut book, claims, &descriptor) == Settled::Missing(node(2, 0)),
            Err(_) => false,
        },
        Err(_) => false,
    }
}

#[test]
fn wants_the_first_peak(rt: HostRuntime) {
    match Claims::new(rt.alloc()) {
        Ok(claims) => assert!(rt; lacks_peak(rt.alloc(), &claims)),
        Err(_) => assert!(rt; false),
    }
}

// Whether a byte that is wrong is found at the first node that the book has.
fn finds_wrong_byte(book: &Book, claims: &Claims, descriptor: &Descriptor) -> bool {
    let mut bytes = chunk(0);
    bytes[0] ^= 1;
    let wrong = Verdict::Wrong {
        node: node(2, 0),
        found: digest(CHANGED),
        kept: digest(CLAIMS[0].2),
    };
    judged(book, claims, descriptor, 0, &bytes) == Some(wrong)
}

// Whether the first chunk fits, whose digest is then in the book.
fn adopts_first(book: &mut Book, claims: &Claims, descriptor: &Descriptor) -> bool
    requires rooted { IsRooted descriptor.now (entry book.old) }
{
    let bytes = chunk(0);
    if descriptor.chunks() != 7 || judge(book, claims, descriptor, 0, &bytes) != Verdict::Fits {
        return false;
    }
    adopt(book, claims, descriptor, 0, &bytes);
    book.get(node(0, 0)) == Some(digest(FIRST_LEAF))
}

fn judges(book: &mut Book, claims: &Claims, descriptor: &Descriptor) -> bool
    requires rooted { IsRooted descriptor.now (entry book.old) }
{
    settle(book, claims, descriptor) == Settled::Known
        && finds_wrong_byte(book, claims, descriptor)
        && adopts_first(book, claims, descriptor)
}

fn judges_by_new(alloc: Global, claims: &Claims) -> bool {
    match descriptor() {
        Ok(descriptor) => match prepared(alloc, &descriptor) {
            Ok(mut book) => judges(&mut book, claims, &descriptor),
            Err(_) => false,
        },
        Err(_) => false,
    }
}

#[test]
fn judges_by_claims(rt: HostRuntime) {
    match claimed(rt.alloc()) {
        Ok(claims) => assert!(rt; judges_by_new(rt.alloc(), &claims)),
        Err(_) => assert!(rt; false),
    }
}

fn length(found: usize, want: u32) -> Option<Verdict> {
    Some(Verdict::Length { found, want })
}

fn missing(layer: u8, offset: u32) -> Option<Verdict> {
    Some(Verdict::Missing(node(layer, offset)))
}

// As many bytes as the last chunk has.
fn short(bytes: &[u8; 1024]) -> &[u8] {
    &bytes[..856]
}

// The bytes of the last chunk are judged as those of some.
fn judges_last(book: &Book, claims: &Claims, descriptor: &Descriptor) -> bool {
    let last = chunk(6);
    judged(book, claims, descriptor, 0, &last) == missing(0, 1)
        && judged(book, claims, descriptor, 3, &last) == missing(0, 2)
        && judged(book, claims, descriptor, 6, short(&last)) == Some(Verdict::Fits)
        && judged(book, claims, descriptor, 6, &last) == length(1024, 856)
        && judged(book, claims, descriptor, 5, short(&last)) == length(856, 1024)
}

// A peak is missing at first, and siblings are once the peaks are known and no claim is left.
fn wants(book: &mut Book, claims: &mut Claims, descriptor: &Descriptor) -> bool
    requires rooted { IsRooted descriptor.now (entry book.old) }
{
    let is_missing = judged(book, claims, descriptor, 0, &chunk(0)) == missing(2, 0);
    let is_settled = settle(book, claims, descriptor) == Settled::Known;
    claims.forget();
    is_missing && is_settled && judges_last(book, claims, descriptor)
}

fn wants_by_new(alloc: Global, claims: &mut Claims) -> bool {
    match descriptor() {
        Ok(descriptor) => match prepared(alloc, &descriptor) {
            Ok(mut book) => wants(&mut book, claims, &descriptor),
            Err(_) => false,
        },
        Err(_) => false,
    }
}

#[test]
fn wants_a_sibling_or_a_length(rt: HostRuntime) {
    match claimed(rt.alloc()) {
        Ok(mut claims) => assert!(rt; wants_by_new(rt.alloc(), &mut claims)),
        Err(_) => assert!(rt; false),
    }
}

// What the peaks lead to where that isn't what the book has, and the node.
fn wrong_peaks(book: &mut Book, claims: &Claims, descriptor: &Descriptor) -> Option<(Settled, Node)>
    requires rooted { IsRooted descriptor.now (entry book.old) }
{
    let settled = settle_peaks(book, claims, descriptor.chunks());
    if let Settled::Wrong { .. } = settled {
        return Some((settled, wrong_node(book, claims, descriptor.chunks())));
    }
    None
}

fn refuses_first_leaf(book: &mut Book, claims: &mut Claims, descriptor: &Descriptor) -> bool
    requires rooted { IsRooted descriptor.now (entry book.old) }
{
    claims.add(node(0, 6), digest(FIRST_LEAF));
    let wrong = Settled::Wrong {
        found: digest(OTHER_ROOT),
        kept: digest(ROOT),
    };
    wrong_peaks(book, claims, descriptor) == Some((wrong, node(3, 0))) && !book.has_peaks()
}

fn refuses_by_new(alloc: Global, claims: &mut Claims) -> bool {
    match descriptor() {
        Ok(descriptor) => match prepared(alloc, &descriptor) {
            Ok(mut book) => refuses_first_leaf(&mut book, claims, &descriptor),
            Err(_) => false,
        },
        Err(_) => false,
    }
}

#[test]
fn settles_no_wrong_peaks(rt: HostRuntime) {
    match claimed(rt.alloc()) {
        Ok(mut claims) => assert!(rt; refuses_by_new(rt.alloc(), &mut claims)),
        Err(_) => assert!(rt; false),
    }
}

// Claims 129 leaves, one more than are kept.
fn claim_leaves(claims: &mut Claims, digest: Digest) {
    for offset in 0..129 {
        claims.add(node(0, offset), digest);
    }
}

// Whether the first of them is forgotten, and the second once a leaf is claimed again.
fn keeps_latest(claims: &mut Claims) -> bool {
    let (first, second) = (digest(ROOT), digest(FIRST_LEAF));
    claim_leaves(claims, first);
    let kept = claims.latest(node(0, 0)).is_none() && claims.latest(node(0, 1)) == Some(first);
    claims.add(node(0, 128), second);
    kept && claims.latest(node(0, 128)) == Some(second) && claims.latest(node(0, 1)).is_none()
}

#[test]
fn keeps_the_latest_claims(rt: HostRuntime) {
    match Claims::new(rt.alloc()) {
        Ok(mut claims) => assert!(rt; keeps_latest(&mut claims)),
        Err(_) => assert!(rt; false),
    }
}
