//! A peer whose requests are lost, or the answers to them.

use crate::by_chunks::{Pair, SERVED, fetcher, opened, options_of, served};
use crate::by_datagrams::{NUMBERS, OURS, PEER, THEIRS, request, tells, told};
use crate::by_rows::{OTHER, have};
use crate::side::Side;
use pp_outside::Address;
use std::alloc::Global;
use std::test::*;

// Whether these chunks came to a fetcher.
fn pass(pair: &mut Pair, came: &[u8]) -> bool {
    for chunk in came {
        if !pair.passes(*chunk) {
            return false;
        }
    }
    true
}

// Whether a fetcher says this, and no more, once these chunks came.
fn says_behind(pair: &mut Pair, came: &[u8], parts: &[&[u8]]) -> bool {
    if !pass(pair, came) {
        return false;
    }
    pair.fetcher.flush();
    pair.fetcher.says(PEER, parts) && pair.fetcher.is_silent()
}

// Chunks 0 to 31 were asked for. All but the fifth come: when three of greater numbers did, it is asked for again.
fn asks_again(pair: &mut Pair) -> bool {
    says_behind(pair, &[0, 1, 2, 3, 5, 6], &[&OURS, &request(32, 37)])
        && says_behind(pair, &[7], &[&OURS, &request(4, 4), &request(38, 38)])
}

// The next one comes, and it isn't asked for once more.
fn asks_once(pair: &mut Pair) -> bool {
    says_behind(pair, &[8], &[&OURS, &request(39, 39)])
}

#[test]
fn a_chunk_that_three_overtook_is_asked_for_again_once(rt: HostRuntime) -> Result<(), Fail> {
    let mut pair = Pair::new(rt.alloc())?;
    assert!(rt; asks_again(&mut pair) && asks_once(&mut pair));
    Ok(())
}

// None of the seven chunks comes for ten seconds; then one is asked for, and no second.
fn probes(side: &mut Side) -> bool {
    side.skip();
    if !(side.waits(10_000_002) && tells(side, PEER, &request(0, 0))) {
        return false;
    }
    side.waits(10_100_002) && side.is_silent()
}

// What answers the probe comes, and the rest is asked for.
fn goes_on(side: &mut Side, served: &[u8; SERVED]) -> bool {
    told(side, 10_100_003, &served[4..]) && tells(side, PEER, &request(1, 6))
}

#[test]
fn a_silent_channel_is_asked_for_one_chunk_at_a_time(rt: HostRuntime) -> Result<(), Fail> {
    let mut side = fetcher(rt.alloc())?;
    let served = served(rt.alloc())?;
    assert!(rt; probes(&mut side) && goes_on(&mut side, &served));
    Ok(())
}

// A peer replies on a channel of this number, and has these chunks.
fn replied(fetcher: &mut Side, from: Address, numbers: [&[u8]; 2], chunks: &[u8]) -> bool {
    let options = options_of(fetcher);
    let [number, source] = numbers;
    fetcher.hears(from, 2, &[number, &[0], source, &options, chunks])
}

// Two peers replied. The second has all chunks, and is asked for the first 32; then the first has chunk 4 alone.
fn both_replied(fetcher: &mut Side) -> bool {
    fetcher.waits(1);
    replied(fetcher, PEER, [&NUMBERS[1], &OURS], &have(0, 99))
        && replied(fetcher, OTHER, [&OURS, &THEIRS], &have(4, 4))
}

// A fetcher that dialled two peers, of which the second is a seeder.
fn of_two(alloc: Global) -> Result<Pair, Fail> {
    let mut pair = Pair::open(alloc, &[OTHER, PEER])?;
    opened(&mut pair.seeder, &NUMBERS[1]);
    both_replied(&mut pair.fetcher);
    pair.skip();
    Ok(pair)
}

// Whether what the second peer lost is asked of the first.
fn asks_the_other(pair: &mut Pair) -> bool {
    if !pass(pair, &[0, 1, 2, 3, 5, 6, 7]) {
        return false;
    }
    pair.fetcher.flush();
    tells(&mut pair.fetcher, OTHER, &request(4, 4))
        && pair.fetcher.says(PEER, &[&OURS, &request(32, 39)])
        && pair.fetcher.is_silent()
}

#[test]
fn a_chunk_that_one_lost_is_asked_of_another(rt: HostRuntime) -> Result<(), Fail> {
    let mut pair = of_two(rt.alloc())?;
    assert!(rt; asks_the_other(&mut pair));
    Ok(())
}
