//! Datagrams on their way to the peers of a replay, and what a network does to them.
use pp_mail::Mail;
use pp_outside::Address;
use std::alloc::{AllocError, Global};
use std::test::Fail;

// How a datagram is written here: ten times the number of the peer that it says to come from, and its first byte, which is below 10.
fn written(waits: Option<(Address, &[u8])>) -> u64 {
    let Some((Address::V4(address, _), [first, ..])) = waits else {
        return 0;
    };
    u64::from(address[3]) * 10 + u64::from(*first)
}

// What waits for a peer, the oldest first, each as above and behind a factor of 100. All of it is taken away.
fn drained(mail: &mut Mail, peer: u8) -> u64 {
    let mut found = 0u64;
    for _ in 0..8 {
        if usize::from(peer) >= mail.peers() || mail.is_empty(peer) {
            return found;
        }
        found = found
            .wrapping_mul(100)
            .wrapping_add(written(mail.oldest(peer)));
        mail.lose(peer);
    }
    found
}

fn at(peer: u8) -> Address {
    Address::V4([10, 0, 0, peer], 7_000)
}

// Three peers, where peers 0 and 2 sent peer 1 the datagrams 7, 8 and 9 in this order.
fn three(alloc: Global) -> Result<Mail, AllocError> {
    let mut mail = Mail::new(alloc, 3)?;
    mail.deliver(0, &at(1), &[7, 7])?;
    mail.deliver(2, &at(1), &[8])?;
    mail.deliver(0, &at(1), &[9, 9, 9])?;
    Ok(mail)
}

#[derive(Drop)]
enum Event {
    Loss,
    Repetition,
    Delay,
    Forgery,
    Delivery(Address),
}

fn happen(alloc: Global, mail: &mut Mail, peer: u8, event: Event) -> Result<(), AllocError> {
    if usize::from(peer) >= mail.peers() {
        return Ok(());
    }
    match event {
        Event::Loss => {
            mail.lose(peer);
            Ok(())
        }
        Event::Repetition => mail.repeat(peer),
        Event::Delay => {
            mail.delay(peer);
            Ok(())
        }
        Event::Forgery => mail.forge(peer, 6, Vec::from_slice(alloc, &[5])?),
        Event::Delivery(to) => mail.deliver(peer, &to, &[4]),
    }
}

// What waits for each of three peers after an event at one of them.
fn after(alloc: Global, peer: u8, event: Event) -> Result<(u64, u64, u64), AllocError> {
    let mut mail = three(alloc)?;
    happen(alloc, &mut mail, peer, event)?;
    Ok((
        drained(&mut mail, 0),
        drained(&mut mail, 1),
        drained(&mut mail, 2),
    ))
}

// At peer 1 three datagrams wait, and at peer 0 none does.
#[test]
fn troubles_where_three_wait_and_none(rt: HostRuntime) -> Result<(), Fail> {
    let expected = [
        (1, Event::Loss, (0, 28_09, 0)),
        (1, Event::Repetition, (0, 7_28_09_07, 0)),
        (1, Event::Delay, (0, 28_09_07, 0)),
        (1, Event::Forgery, (0, 7_28_09_65, 0)),
        (0, Event::Loss, (0, 7_28_09, 0)),
        (0, Event::Repetition, (0, 7_28_09, 0)),
        (0, Event::Delay, (0, 7_28_09, 0)),
        (0, Event::Forgery, (65, 7_28_09, 0)),
    ];
    for (peer, event, found) in expected {
        assert_eq!(rt; after(rt.alloc(), peer, event)?, found);
    }
    Ok(())
}

#[test]
fn peer_two_sends(rt: HostRuntime) -> Result<(), Fail> {
    let mut long = [0; 16];
    long[12] = 10;
    let expected = [
        (at(0), (24, 7_28_09, 0)),
        (at(1), (0, 7_28_09_24, 0)),
        (at(2), (0, 7_28_09, 24)),
        (at(3), (0, 7_28_09, 0)),
        (Address::V4([10, 0, 1, 0], 7_000), (0, 7_28_09, 0)),
        (Address::V4([10, 0, 0, 0], 7_001), (0, 7_28_09, 0)),
        (Address::V6(long, 7_000), (0, 7_28_09, 0)),
    ];
    for (to, found) in expected {
        assert_eq!(rt; after(rt.alloc(), 2, Event::Delivery(to))?, found);
    }
    Ok(())
}

// How many wait for the first of two peers once it was sent so many, and then one came once more and one was forged.
fn waiting(alloc: Global, sent: u32) -> Result<(u32, u32), AllocError> {
    let mut mail = Mail::new(alloc, 2)?;
    for _ in 0..sent {
        mail.deliver(1, &at(0), &[1])?;
    }
    let mut counts = (0, 0);
    counts.0 = count(&mut mail);
    for _ in 0..sent {
        mail.deliver(1, &at(0), &[1])?;
    }
    if mail.peers() > 0 {
        mail.repeat(0)?;
        mail.forge(0, 1, Vec::from_slice(alloc, &[2])?)?;
    }
    counts.1 = count(&mut mail);
    Ok(counts)
}

// How many wait for the first peer. All of them are taken away.
fn count(mail: &mut Mail) -> u32 {
    let mut found = 0u32;
    for _ in 0..2_000 {
        if mail.peers() == 0 || mail.is_empty(0) {
            return found;
        }
        found = found.wrapping_add(1);
        mail.lose(0);
    }
    found
}

#[test]
fn only_what_is_sent_has_a_limit(rt: HostRuntime) -> Result<(), Fail> {
    assert_eq!(rt; waiting(rt.alloc(), 1_023)?, (1_023, 1_025));
    assert_eq!(rt; waiting(rt.alloc(), 1_024)?, (1_024, 1_026));
    assert_eq!(rt; waiting(rt.alloc(), 1_025)?, (1_024, 1_026));
    Ok(())
}
