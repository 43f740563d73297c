// The hashes that go before a chunk, and what a peer was told.
ghost use Rattle.std.specs.Prelude.{◌≡◌, ◌<◌, IfOk};

use pp_plan::{Told, plan};
use pp_ranges::ChunkRange;
use pp_tree::Node;
use std::alloc::{AllocError, Global};
use std::test::*;

fn node(layer: u8, offset: u32) -> Node {
    Node { layer, offset }
}

fn tell(told: &mut Told, first: u32, last: u32)
    ensures { told.new.chunks ≡ told.old.chunks }
{
    if last < told.chunks() {
        if let Some(range) = ChunkRange::new(first, last) {
            told.told(range);
        }
    }
}

fn none_told(alloc: Global) -> Result<Told, AllocError>
    ensures { IfOk result (λ told. told.chunks ≡ 7) }
{
    Told::none(alloc, 7)
}

// Whether these hashes go before a chunk of seven.
fn plans(told: &Told, i: u32, want: &[Node]) -> bool
    requires chunks { told.now.chunks ≡ 7 }
    requires inside { i < 7 }
{
    &plan(i, told, 7)[..] == want
}

// The hashes before the first chunk and before the last, and before two more once the first was told.
fn plans_all(told: &mut Told) -> bool
    requires { told.old.chunks ≡ 7 }
{
    let all = [node(2, 0), node(1, 2), node(0, 6), node(1, 1), node(0, 1)];
    let first = plans(told, 0, &all) && plans(told, 6, &all[..3]);
    tell(told, 0, 0);
    first && plans(told, 1, &[]) && plans(told, 2, &[node(0, 3)])
}

#[test]
fn plans_for_seven_chunks(rt: HostRuntime) {
    match none_told(rt.alloc()) {
        Ok(mut told) => assert!(rt; plans_all(&mut told)),
        Err(_) => assert!(rt; false),
    }
}

// Whether each of some nodes is known, or none of them.
fn are_all(told: &Told, nodes: &[Node], are_known: bool) -> bool {
    for node in nodes {
        if told.has(*node) != are_known {
            return false;
        }
    }
    true
}

// Whether each of some nodes is known, and no other one of them is.
fn knows(told: &Told, all: &[Node], none: &[Node]) -> bool {
    are_all(told, all, true) && are_all(told, none, false)
}

// All five chunks are told of, and then all is forgotten.
fn cuts(told: &mut Told) -> bool {
    tell(told, 0, 4);
    let whole = [node(0, 4), node(0, 5), node(2, 1)];
    let is_known = knows(told, &whole, &[node(0, 6)]);
    told.forget();
    is_known && !told.has(node(0, 4))
}

#[test]
fn cuts_what_is_told_to_the_content(rt: HostRuntime) {
    match Told::none(rt.alloc(), 5) {
        Ok(mut told) => assert!(rt; cuts(&mut told)),
        Err(_) => assert!(rt; false),
    }
}

// Nodes over chunk 262,144, below layer 12 and above, and nodes beside them.
fn knows_one(told: &Told) -> bool {
    let low = [
        node(0, 262_145),
        node(5, 8_193),
        node(6, 4_097),
        node(11, 128),
    ];
    let high = [node(17, 3), node(18, 0), node(19, 1), node(20, 0)];
    let beside = [
        node(0, 262_146),
        node(5, 8_194),
        node(6, 4_098),
        node(11, 127),
    ];
    let far = [node(17, 1), node(17, 4), node(18, 2), node(20, 1)];
    knows(told, &low, &beside) && knows(told, &high, &far)
}

// Nodes over chunks 63 and 64, and nodes beside them.
fn knows_two(told: &Told) -> bool {
    let over = [node(0, 62), node(0, 65), node(5, 3), node(17, 1)];
    let past = [node(0, 61), node(0, 66), node(5, 4), node(7, 2)];
    knows(told, &over, &past)
}

fn knows_three(told: &mut Told) -> bool {
    tell(told, 262_144, 262_144);
    let one = knows_one(told);
    tell(told, 63, 64);
    one && knows_two(told)
}

#[test]
fn knows_what_chunks_of_many_tell(rt: HostRuntime) {
    match Told::none(rt.alloc(), 1 << 20) {
        Ok(mut told) => assert!(rt; knows_three(&mut told)),
        Err(_) => assert!(rt; false),
    }
}
