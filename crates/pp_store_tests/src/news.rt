//! News of chunks that were committed. What is wanted was found by hand.

ghost use Rattle.std.specs.Prelude.{◌≡◌, length, IfOk, true};
ghost use Rattle.pp_news.specs.News.{AreIn};

use pp_holding::{MOST_TICKETS, Ticket};
use pp_news::{Acknowledgement, News};
use pp_ranges::ChunkRange;
use pp_tree::ChunkSet;
use std::alloc::{AllocError, Global};
use std::test::Fail;

fn ticket(chunk: u32, seat: u8, delay: u64) -> Ticket {
    Ticket { chunk, seat, delay }
}

// Of 20 chunks those from 0 to 5 and from 8 to 12.
fn committed(alloc: Global) -> Result<ChunkSet, AllocError>
    ensures { IfOk result (λ set. length set ≡ 20) }
{
    let mut set = ChunkSet::none(alloc, 20)?;
    for i in 0..13 {
        if i != 6 && i != 7 {
            set.insert(i);
        }
    }
    Ok(set)
}

// Whether all tickets are for chunks of 20 that are committed.
fn are_in(committed: &ChunkSet, tickets: &[Ticket]) -> bool
    requires { length committed.now ≡ 20 }
    ensures { result ≡ true → AreIn committed.now tickets.now }
{
    for ticket in tickets {
        if ticket.chunk >= 20 || !committed.contains(ticket.chunk) {
            return false;
        }
    }
    true
}

fn range(first: u32, last: u32) -> ChunkRange {
    match ChunkRange::new(first, last) {
        Some(range) => range,
        None => ChunkRange::default(),
    }
}

fn acknowledged(first: u32, last: u32, delay: u64) -> Acknowledgement {
    let range = range(first, last);
    Acknowledgement { range, delay }
}

// Whether tickets are gathered in these ranges.
fn is_gathered(news: &mut News, tickets: &[Ticket], want: &[ChunkRange]) -> bool {
    if tickets.len() > MOST_TICKETS {
        return false;
    }
    news.gather(tickets);
    news.ranges() == want
}

// Whether a seat's tickets and repeats are acknowledged like that.
fn is_acknowledged(
    news: &mut News,
    seat: u8,
    tickets: &[Ticket],
    repeats: &[Ticket],
    committed: &ChunkSet,
    want: &[Acknowledgement],
) -> bool
    requires { length committed.now ≡ 20 }
{
    if tickets.len() > MOST_TICKETS || repeats.len() > MOST_TICKETS {
        return false;
    }
    if !are_in(committed, tickets) {
        return false;
    }
    news.acknowledge(seat, tickets, repeats, committed);
    news.acknowledgements() == want
}

// Whether runs of chunks are gathered, whatever their order and their seats.
fn are_gathered(news: &mut News) -> bool {
    let some = [
        ticket(5, 1, 0),
        ticket(3, 2, 0),
        ticket(4, 1, 0),
        ticket(9, 1, 0),
        ticket(3, 1, 0),
    ];
    is_gathered(news, &some, &[range(3, 5), range(9, 9)])
}

// Whether the first and the last chunk are.
fn are_ends_gathered(news: &mut News) -> bool {
    let ends = [ticket(u32::MAX, 0, 0), ticket(0, 63, 0)];
    let want = [range(0, 0), range(u32::MAX, u32::MAX)];
    is_gathered(news, &ends, &want)
}

#[test]
fn gathers_runs(rt: HostRuntime) -> Result<(), Fail> {
    let mut news = News::new(rt.alloc())?;
    assert!(rt; are_gathered(&mut news));
    assert!(rt; are_ends_gathered(&mut news));
    assert!(rt; is_gathered(&mut news, &[], &[]));
    Ok(())
}

fn some() -> [Ticket; 6] {
    [
        ticket(4, 1, 100),
        ticket(2, 1, 200),
        ticket(9, 2, 300),
        ticket(8, 1, 400),
        ticket(12, 1, 500),
        ticket(3, 1, 50),
    ]
}

fn again() -> [Ticket; 4] {
    [
        ticket(1, 1, 70),
        ticket(9, 2, 80),
        ticket(0, 1, 90),
        ticket(1, 1, 60),
    ]
}

// Whether seat 1 has its ranges, and its repeats behind them; seat 2 its own; and seat 3 none.
fn are_acknowledged(news: &mut News, set: &ChunkSet) -> [bool; 3]
    requires { length set.now ≡ 20 }
{
    let one = [
        acknowledged(2, 4, 50),
        acknowledged(8, 12, 500),
        acknowledged(1, 1, 70),
        acknowledged(0, 0, 90),
        acknowledged(1, 1, 60),
    ];
    let two = [acknowledged(9, 9, 300), acknowledged(9, 9, 80)];
    [
        is_acknowledged(news, 1, &some(), &again(), set, &one),
        is_acknowledged(news, 2, &some(), &again(), set, &two),
        is_acknowledged(news, 3, &some(), &again(), set, &[]),
    ]
}

#[test]
fn acknowledges_each_seat(rt: HostRuntime) -> Result<(), Fail> {
    let mut news = News::new(rt.alloc())?;
    let set = committed(rt.alloc())?;
    assert_eq!(rt; are_acknowledged(&mut news, &set), [true; 3]);
    Ok(())
}
