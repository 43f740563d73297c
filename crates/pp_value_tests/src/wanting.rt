// What is still to be asked for of five chunks, of which chunk 1 is held.
ghost use Rattle.std.specs.Prelude.{◌≡◌, length, IfOk};

use crate::avail::{none_offered, offer, zero};
use pp_avail::{Avail, Rank, Ranker};
use pp_tree::ChunkSet;
use pp_wanting::Wanting;
use std::alloc::{AllocError, Global};
use std::test::*;

fn held(alloc: Global) -> Result<ChunkSet, AllocError>
    ensures { IfOk result (λ set. length set ≡ 5) }
{
    let mut held = ChunkSet::none(alloc, 5)?;
    held.insert(1);
    Ok(held)
}

fn four_wanted(alloc: Global) -> Result<Wanting, AllocError>
    ensures { IfOk result (λ wanting. length wanting.had ≡ 5) }
{
    let held = held(alloc)?;
    Wanting::new(alloc, 5, &held)
}

// Which of the five chunks are wanted.
fn wanted(wanting: &Wanting) -> [bool; 5]
    requires { length wanting.now.had ≡ 5 }
{
    [
        wanting.wants(0),
        wanting.wants(1),
        wanting.wants(2),
        wanting.wants(3),
        wanting.wants(4),
    ]
}

// Chunk 2 is asked for, given back, and got.
fn asks_and_gets(wanting: &mut Wanting) -> bool
    requires { length wanting.old.had ≡ 5 }
{
    wanting.ask(2);
    let asked = wanted(wanting) == [true, false, false, true, true];
    wanting.give_back(2);
    let back = wanted(wanting) == [true, false, true, true, true] && !wanting.is_asked(2);
    wanting.got(2);
    let got = wanted(wanting) == [true, false, false, true, true] && wanting.left() == 3;
    asked && back && got
}

#[test]
fn what_is_asked_for_is_not_wanted(rt: HostRuntime) {
    match four_wanted(rt.alloc()) {
        Ok(mut wanting) => assert!(rt; asks_and_gets(&mut wanting)),
        Err(_) => assert!(rt; false),
    }
}

fn holds_back(wanting: &mut Wanting) -> bool
    requires { length wanting.old.had ≡ 5 }
{
    wanting.want_below(3);
    let low = wanted(wanting) == [true, false, true, false, false];
    wanting.want_below(9);
    low && wanted(wanting) == [true, false, true, true, true]
}

#[test]
fn a_limit_holds_back(rt: HostRuntime) {
    match four_wanted(rt.alloc()) {
        Ok(mut wanting) => assert!(rt; holds_back(&mut wanting)),
        Err(_) => assert!(rt; false),
    }
}

// What is next of seat 7, which offers chunks 1 to 3, and of seat 8, which offers none.
fn next_of_two(wanting: &Wanting, avail: &mut Avail) -> [Option<u32>; 2]
    requires wanting { length wanting.now.had ≡ 5 }
    requires avail { avail.old.chunks ≡ 5 }
{
    let ranker = Ranker::new(Rank::Sequential, zero);
    offer(avail, 7, 1, 3);
    let next = wanting.next(avail, 7, &ranker);
    [next, wanting.next(avail, 8, &ranker)]
}

fn next_of_new(alloc: Global, wanting: &Wanting) -> bool
    requires { length wanting.now.had ≡ 5 }
{
    match none_offered(alloc, 5) {
        Ok(mut avail) => next_of_two(wanting, &mut avail) == [Some(2), None],
        Err(_) => false,
    }
}

#[test]
fn the_least_offered_chunk_comes_next(rt: HostRuntime) {
    match four_wanted(rt.alloc()) {
        Ok(wanting) => assert!(rt; next_of_new(rt.alloc(), &wanting)),
        Err(_) => assert!(rt; false),
    }
}
