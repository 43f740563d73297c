// What seats offer, and which chunk is asked of one next.
ghost use Rattle.std.specs.Prelude.{◌≡◌, ◌*◌, ◌<◌, ◌≤◌, length, IfOk};

use pp_avail::{Avail, Rank, Ranker, by_blocks, pick};
use pp_ranges::ChunkRange;
use pp_tree::ChunkSet;
use std::alloc::{AllocError, Global};
use std::test::*;

// All chunks are wanted.
fn all_wanted(alloc: Global, chunks: u32) -> Result<ChunkSet, AllocError>
    ensures { IfOk result (λ set. length set ≡ chunks) }
{
    let mut set = ChunkSet::none(alloc, chunks)?;
    for i in 0..chunks {
        set.insert(i);
    }
    Ok(set)
}

fn none_wanted(alloc: Global, chunks: u32) -> Result<ChunkSet, AllocError>
    ensures { IfOk result (λ set. length set ≡ chunks) }
{
    ChunkSet::none(alloc, chunks)
}

// No seat offers any chunk.
pub(crate) fn none_offered(alloc: Global, chunks: u32) -> Result<Avail, AllocError>
    requires { chunks ≤ 1048576 }
    ensures { IfOk result (λ a. a.chunks ≡ chunks) }
{
    Avail::new(alloc, chunks)
}

// A seat offers the chunks from one to another.
pub(crate) fn offer(avail: &mut Avail, seat: u8, first: u32, last: u32)
    requires seat { seat < 64 }
    requires inside { last < avail.old.chunks }
    ensures { avail.new.chunks ≡ avail.old.chunks }
{
    if let Some(range) = ChunkRange::new(first, last) {
        avail.offer(seat, range);
    }
}

fn leave(avail: &mut Avail, seat: u8)
    requires { seat < 64 }
    ensures { avail.new.chunks ≡ avail.old.chunks }
{
    avail.leave(seat);
}

fn copies_of(_i: u32, copies: u32) -> u32
    ensures { result ≡ copies }
{
    copies
}

pub(crate) fn zero(_i: u32, _copies: u32) -> u32
    ensures { result ≡ 0 }
{
    0
}

fn pick_rarest(avail: &Avail, seat: u8, wanted: &ChunkSet) -> Option<u32>
    requires seat { seat < 64 }
    requires wanted { length wanted.now ≡ avail.now.chunks }
{
    let ranker = Ranker::new(Rank::Rarest, copies_of);
    pick(avail, seat, wanted, &ranker)
}

fn pick_first(avail: &Avail, seat: u8, wanted: &ChunkSet) -> Option<u32>
    requires seat { seat < 64 }
    requires wanted { length wanted.now ≡ avail.now.chunks }
{
    let ranker = Ranker::new(Rank::Sequential, zero);
    pick(avail, seat, wanted, &ranker)
}

fn pick_by_blocks(avail: &Avail, seat: u8, wanted: &ChunkSet) -> Option<u32>
    requires seat { seat < 64 }
    requires wanted { length wanted.now ≡ avail.now.chunks }
{
    let ranker = Ranker::new(Rank::Blocks, by_blocks);
    pick(avail, seat, wanted, &ranker)
}

// Of seven chunks, seat 0 offers all and seat 1 the first four.
fn offer_seven(avail: &mut Avail)
    requires { avail.old.chunks ≡ 7 }
    ensures { avail.new.chunks ≡ 7 }
{
    offer(avail, 0, 0, 6);
    offer(avail, 1, 0, 3);
}

// How many seats have chunks 3 and 4.
fn copies(avail: &Avail) -> [u32; 2]
    requires { avail.now.chunks ≡ 7 }
{
    [avail.copies(3), avail.copies(4)]
}

// Whether seat 0 has chunk 3, and whether seat 1 has chunks 3 and 4.
fn offered(avail: &Avail) -> [bool; 3]
    requires { avail.now.chunks ≡ 7 }
{
    [avail.has(0, 3), avail.has(1, 3), avail.has(1, 4)]
}

// Whether both seats are counted, and one once the other leaves.
fn counts(avail: &mut Avail) -> bool
    requires { avail.old.chunks ≡ 7 }
{
    offer_seven(avail);
    let both = copies(avail) == [2, 1] && offered(avail) == [true, true, false];
    leave(avail, 0);
    both && copies(avail) == [1, 0] && offered(avail) == [false, true, false]
}

fn counts_of_new(alloc: Global) -> bool {
    match none_offered(alloc, 7) {
        Ok(mut avail) => counts(&mut avail),
        Err(_) => false,
    }
}

#[test]
fn counts_seats(rt: HostRuntime) {
    assert!(rt; counts_of_new(rt.alloc()));
}

// The first four of seven chunks aren't wanted.
fn want_last_three(wanted: &mut ChunkSet)
    requires { length wanted.old ≡ 7 }
    ensures { length wanted.new ≡ 7 }
{
    for i in 0..4 {
        wanted.remove(i);
    }
}

fn picks_of_seven(avail: &mut Avail, wanted: &mut ChunkSet) -> bool
    requires chunks { avail.old.chunks ≡ 7 }
    requires wanted { length wanted.old ≡ 7 }
{
    offer_seven(avail);
    let rare = pick_rarest(avail, 0, wanted) == Some(4);
    let first = pick_first(avail, 0, wanted) == Some(0);
    want_last_three(wanted);
    rare && first
        && pick_rarest(avail, 1, wanted).is_none()
        && pick_first(avail, 1, wanted).is_none()
}

fn picks_of_seven_by_new(alloc: Global, wanted: &mut ChunkSet) -> bool
    requires { length wanted.old ≡ 7 }
{
    match none_offered(alloc, 7) {
        Ok(mut avail) => picks_of_seven(&mut avail, wanted),
        Err(_) => false,
    }
}

#[test]
fn picks_the_least_rank(rt: HostRuntime) {
    match all_wanted(rt.alloc(), 7) {
        Ok(mut wanted) => assert!(rt; picks_of_seven_by_new(rt.alloc(), &mut wanted)),
        Err(_) => assert!(rt; false),
    }
}

// How many seats have chunks that lie at the edges of words, of 200 chunks.
fn at_edges(avail: &Avail) -> [u32; 10]
    requires { avail.now.chunks ≡ 200 }
{
    [
        avail.copies(0),
        avail.copies(62),
        avail.copies(63),
        avail.copies(64),
        avail.copies(127),
        avail.copies(128),
        avail.copies(129),
        avail.copies(191),
        avail.copies(192),
        avail.copies(199),
    ]
}

// Whether a seat has these two chunks and lacks these two, of 200.
fn has_only(avail: &Avail, seat: u8, has: [u32; 2], lacks: [u32; 2]) -> bool
    requires { avail.now.chunks ≡ 200 }
{
    let inside = has[0] < 200 && has[1] < 200 && lacks[0] < 200 && lacks[1] < 200;
    seat < 64
        && inside
        && avail.has(seat, has[0])
        && avail.has(seat, has[1])
        && !avail.has(seat, lacks[0])
        && !avail.has(seat, lacks[1])
}

// Seat 0 offers all, twice, and seat 1 some. Then both offer again what they offer.
fn offer_twice(avail: &mut Avail) -> bool
    requires { avail.old.chunks ≡ 200 }
    ensures { avail.new.chunks ≡ 200 }
{
    offer(avail, 0, 0, 199);
    offer(avail, 0, 0, 199);
    offer(avail, 1, 63, 128);
    let once = at_edges(avail) == [1, 1, 2, 2, 2, 2, 1, 1, 1, 1];
    offer(avail, 0, 60, 130);
    offer(avail, 1, 64, 127);
    offer(avail, 1, 100, 100);
    once && at_edges(avail) == [1, 1, 2, 2, 2, 2, 1, 1, 1, 1]
}

// Seat 1 offers more. Seat 0 leaves, and offers some.
fn offer_and_leave(avail: &mut Avail) -> bool
    requires { avail.old.chunks ≡ 200 }
    ensures { avail.new.chunks ≡ 200 }
{
    offer(avail, 1, 0, 191);
    let more = at_edges(avail) == [2, 2, 2, 2, 2, 2, 2, 2, 1, 1];
    leave(avail, 0);
    let alone = at_edges(avail) == [1, 1, 1, 1, 1, 1, 1, 1, 0, 0];
    offer(avail, 0, 127, 192);
    more && alone && at_edges(avail) == [1, 1, 1, 1, 2, 2, 2, 2, 1, 0]
}

fn offers_all(avail: &mut Avail) -> bool
    requires { avail.old.chunks ≡ 200 }
{
    let twice = offer_twice(avail) && avail.has(0, 199);
    let some = has_only(avail, 1, [63, 128], [62, 129]);
    twice && some && offer_and_leave(avail) && has_only(avail, 0, [127, 192], [126, 193])
}

fn offers_all_of_new(alloc: Global) -> bool {
    match none_offered(alloc, 200) {
        Ok(mut avail) => offers_all(&mut avail),
        Err(_) => false,
    }
}

#[test]
fn offers_again(rt: HostRuntime) {
    assert!(rt; offers_all_of_new(rt.alloc()));
}

// Of 2,100 chunks, seat 0 offers all, two more those of the first block, of which one lacks chunk 7.
fn offer_blocks(avail: &mut Avail)
    requires { avail.old.chunks ≡ 2100 }
    ensures { avail.new.chunks ≡ 2100 }
{
    offer(avail, 0, 0, 2_099);
    offer(avail, 1, 0, 1_023);
    offer(avail, 2, 0, 6);
    offer(avail, 2, 8, 1_023);
}

const WANTED: [u32; 5] = [5, 7, 9, 1_030, 2_048];

// Five chunks are wanted of 2,100.
fn want_five(wanted: &mut ChunkSet)
    requires { length wanted.old ≡ 2100 }
    ensures { length wanted.new ≡ 2100 }
{
    for i in WANTED {
        if i < 2_100 {
            wanted.insert(i);
        }
    }
}

// What is picked of seat 0, which isn't wanted any more.
fn take_pick(avail: &Avail, wanted: &mut ChunkSet) -> Option<u32>
    requires chunks { avail.now.chunks ≡ 2100 }
    requires wanted { length wanted.old ≡ 2100 }
    ensures { length wanted.new ≡ 2100 }
{
    let chunk = pick_by_blocks(avail, 0, wanted)?;
    if chunk < 2_100 {
        wanted.remove(chunk);
    }
    Some(chunk)
}

// Chunk 7 has one copy less than the others of its block.
fn picks_of_first_block(avail: &Avail, wanted: &mut ChunkSet) -> bool
    requires chunks { avail.now.chunks ≡ 2100 }
    requires wanted { length wanted.old ≡ 2100 }
    ensures { length wanted.new ≡ 2100 }
{
    pick_rarest(avail, 0, wanted) == Some(1_030)
        && pick_by_blocks(avail, 2, wanted) == Some(5)
        && take_pick(avail, wanted) == Some(7)
        && take_pick(avail, wanted) == Some(5)
        && take_pick(avail, wanted) == Some(9)
}

// Seat 1 offers none of the other blocks.
fn picks_of_rest(avail: &Avail, wanted: &mut ChunkSet) -> bool
    requires chunks { avail.now.chunks ≡ 2100 }
    requires wanted { length wanted.old ≡ 2100 }
{
    pick_by_blocks(avail, 1, wanted).is_none()
        && take_pick(avail, wanted) == Some(1_030)
        && take_pick(avail, wanted) == Some(2_048)
        && take_pick(avail, wanted).is_none()
}

fn picks_of_blocks_by_new(alloc: Global, wanted: &mut ChunkSet) -> bool
    requires { length wanted.old ≡ 2100 }
{
    match none_offered(alloc, 2_100) {
        Ok(mut avail) => {
            offer_blocks(&mut avail);
            picks_of_first_block(&avail, wanted) && picks_of_rest(&avail, wanted)
        }
        Err(_) => false,
    }
}

#[test]
fn picks_by_blocks(rt: HostRuntime) {
    match none_wanted(rt.alloc(), 2_100) {
        Ok(mut wanted) => {
            want_five(&mut wanted);
            assert!(rt; picks_of_blocks_by_new(rt.alloc(), &mut wanted));
        }
        Err(_) => assert!(rt; false),
    }
}

const CHUNKS: u32 = 1_048_576;

// Of as many chunks as may be, seats 0 and 1 offer all.
fn two_offer_all(avail: &mut Avail)
    requires { avail.old.chunks ≡ CHUNKS }
    ensures { avail.new.chunks ≡ CHUNKS }
{
    offer(avail, 0, 0, CHUNKS - 1);
    offer(avail, 1, 0, CHUNKS - 1);
}

// 100 chunks far apart are wanted.
fn want_spread(wanted: &mut ChunkSet)
    requires { length wanted.old ≡ CHUNKS }
    ensures { length wanted.new ≡ CHUNKS }
{
    for i in 0..100 {
        wanted.insert(i * 10_000);
    }
}

// Whether so many picks, of both seats in turn, give the chunks so far apart in order; each is wanted no more once it is picked.
fn picks_in_order(avail: &Avail, wanted: &mut ChunkSet, picks: u32, apart: u32) -> bool
    requires chunks { avail.now.chunks ≡ CHUNKS }
    requires wanted { length wanted.old ≡ CHUNKS }
    requires inside { picks * apart ≤ CHUNKS }
    ensures { length wanted.new ≡ CHUNKS }
{
    for i in 0..picks {
        let chunk = i * apart;
        if pick_rarest(avail, (i % 2) as u8, wanted) != Some(chunk) {
            return false;
        }
        wanted.remove(chunk);
    }
    true
}

// Whether 1,000 times 100 picks give the chunks that are wanted in order.
fn picks_few_in_order(avail: &Avail, wanted: &mut ChunkSet) -> bool
    requires chunks { avail.now.chunks ≡ CHUNKS }
    requires wanted { length wanted.old ≡ CHUNKS }
    ensures { length wanted.new ≡ CHUNKS }
{
    for _ in 0..1_000 {
        want_spread(wanted);
        if !picks_in_order(avail, wanted, 100, 10_000) {
            return false;
        }
    }
    true
}

fn picks_few_of_new(alloc: Global, wanted: &mut ChunkSet) -> bool
    requires { length wanted.old ≡ CHUNKS }
{
    match none_offered(alloc, CHUNKS) {
        Ok(mut avail) => {
            two_offer_all(&mut avail);
            picks_few_in_order(&avail, wanted) && pick_rarest(&avail, 0, wanted).is_none()
        }
        Err(_) => false,
    }
}

#[test]
fn picks_among_few_wanted(rt: HostRuntime) {
    match none_wanted(rt.alloc(), CHUNKS) {
        Ok(mut wanted) => {
            assert!(rt; picks_few_of_new(rt.alloc(), &mut wanted) && wanted.count() == 0);
        }
        Err(_) => assert!(rt; false),
    }
}

fn picks_many_of_new(alloc: Global, wanted: &mut ChunkSet) -> bool
    requires { length wanted.old ≡ CHUNKS }
{
    match none_offered(alloc, CHUNKS) {
        Ok(mut avail) => {
            two_offer_all(&mut avail);
            picks_in_order(&avail, wanted, 100_000, 1) && wanted.first_from(0) == Some(100_000)
        }
        Err(_) => false,
    }
}

#[test]
fn picks_among_all_wanted(rt: HostRuntime) {
    match all_wanted(rt.alloc(), CHUNKS) {
        Ok(mut wanted) => {
            assert!(rt; picks_many_of_new(rt.alloc(), &mut wanted) && wanted.count() == 948_576);
        }
        Err(_) => assert!(rt; false),
    }
}

#[test]
fn keeps_rules(rt: HostRuntime) {
    let ranker = Ranker::new(Rank::Rarest, copies_of);
    let same = ranker;
    assert!(rt; ranker.rank(7, 3) == 3 && same.rank(7, 4) == 4);
    let ranker = Ranker::new(Rank::Sequential, zero);
    assert!(rt; ranker.rank(7, 3) == 0);
}

// The ranks of chunks at the ends of blocks, with so many copies.
#[test]
fn ranks_by_blocks(rt: HostRuntime) {
    let ranker = Ranker::new(Rank::Blocks, by_blocks);
    assert!(rt; ranker.rank(5, 3) == 3 && ranker.rank(1_030, 1) == 65);
    assert!(rt; ranker.rank(1_023, 64) == 63 && ranker.rank(1_024, 0) == 64);
    assert!(rt; ranker.rank(1_048_575, 64) == 65_535);
}
