// Sets of chunks.
ghost use Rattle.std.specs.Prelude.{◌≡◌, ◌≤◌, length, IfOk};

use pp_tree::ChunkSet;
use std::alloc::{AllocError, Global};
use std::test::*;

// Of 5,000 chunks the first so many, and two more.
fn some(alloc: Global, first: u32) -> Result<ChunkSet, AllocError>
    requires { first ≤ 5_000 }
    ensures { IfOk result (λ set. length set ≡ 5_000) }
{
    let mut set = ChunkSet::none(alloc, 5_000)?;
    for i in 0..first {
        set.insert(i);
    }
    set.insert(4_097);
    set.insert(4_999);
    Ok(set)
}

// The members that are found from some numbers on.
fn found(set: &ChunkSet) -> [Option<u32>; 4] {
    [
        set.first_from(63),
        set.first_from(64),
        set.first_from(4_098),
        set.first_from(5_000),
    ]
}

// The numbers of no member that are found from some on.
fn absent(set: &ChunkSet) -> [Option<u32>; 5] {
    [
        set.first_absent(),
        set.first_absent_from(0),
        set.first_absent_from(4_097),
        set.first_absent_from(4_999),
        set.first_absent_from(5_000),
    ]
}

// There are 64 from the front on, and two more, of which one is removed.
fn finds_both(set: &mut ChunkSet) -> bool
    requires { length set.old ≡ 5_000 }
{
    let members = found(set) == [Some(63), Some(4_097), Some(4_999), None];
    let others = absent(set) == [Some(64), Some(64), Some(4_098), None, None];
    let count = set.count();
    set.remove(4_097);
    let one = set.count() == 65 && set.first_from(64) == Some(4_999);
    members && others && count == 66 && one
}

#[test]
fn finds_chunks_far_apart(rt: HostRuntime) {
    match some(rt.alloc(), 64) {
        Ok(mut set) => assert!(rt; finds_both(&mut set)),
        Err(_) => assert!(rt; false),
    }
}

// The first that three sets have, while the first of them has two, one and none of the last two numbers.
fn common(set: &mut ChunkSet, other: &ChunkSet, third: &ChunkSet) -> [Option<u32>; 4]
    requires set { length set.old ≡ 5_000 }
    requires other { length other.now ≡ 5_000 }
    requires third { length third.now ≡ 5_000 }
    ensures { length set.new ≡ 5_000 }
{
    let two = set.first_common(other, third);
    let low = set.first_common(third, third);
    set.remove(4_097);
    let one = set.first_common(other, third);
    set.remove(4_999);
    [two, low, one, set.first_common(other, third)]
}

// Whether they are found, and the second number is gone then.
fn are_common(set: &mut ChunkSet, other: &ChunkSet, third: &ChunkSet) -> bool
    requires set { length set.old ≡ 5_000 }
    requires other { length other.now ≡ 5_000 }
    requires third { length third.now ≡ 5_000 }
{
    let found = common(set, other, third);
    found == [Some(4_097), Some(0), Some(4_999), None] && set.contains(63) && !set.contains(4_999)
}

fn are_common_with_first(set: &mut ChunkSet, other: &ChunkSet, alloc: Global) -> bool
    requires set { length set.old ≡ 5_000 }
    requires other { length other.now ≡ 5_000 }
{
    match some(alloc, 5) {
        Ok(third) => are_common(set, other, &third),
        Err(_) => false,
    }
}

fn are_common_with_two(set: &mut ChunkSet, alloc: Global) -> bool
    requires { length set.old ≡ 5_000 }
{
    match some(alloc, 0) {
        Ok(other) => are_common_with_first(set, &other, alloc),
        Err(_) => false,
    }
}

#[test]
fn finds_what_three_have(rt: HostRuntime) {
    match some(rt.alloc(), 64) {
        Ok(mut set) => assert!(rt; are_common_with_two(&mut set, rt.alloc())),
        Err(_) => assert!(rt; false),
    }
}
