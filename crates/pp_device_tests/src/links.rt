// A link in memory: what it hands out, and what it keeps.
use pp_outside::{
    Address, Call, Disk, Event, Link, LinkFault, Mark, MemoryDisk, MemoryLink, NullDisk,
};
use std::alloc::Global;
use std::test::*;

const PEER: Address = Address::V4([127, 0, 0, 1], 7000);

const OTHER: Address = Address::V6([1; 16], 7001);

// Whether a check holds of a new link.
fn holds(alloc: Global, check: fn(&mut MemoryLink) -> bool) -> bool
    requires { IsAlwaysCallable check }
{
    match MemoryLink::new(alloc) {
        Ok(mut link) => check(&mut link),
        Err(_) => false,
    }
}

// Adds a datagram from the peer.
fn add(link: &mut MemoryLink, at: u64, bytes: &[u8]) -> bool {
    let event = Event::Datagram {
        from: PEER,
        len: bytes.len(),
        at,
    };
    bytes.len() <= 65536 && link.add(event, bytes).is_ok()
}

// Adds two datagrams, with a wait between them in which none came.
fn add_three(link: &mut MemoryLink) -> bool {
    add(link, 5, &[1, 2]) && link.add(Event::Quiet { at: 7 }, &[]).is_ok() && add(link, 8, &[3])
}

// What the link answers to a wait with room for any datagram, full of nines, and what the first three bytes of the room then are.
fn waited(link: &mut impl Link) -> (Result<Event, LinkFault>, [u8; 3]) {
    let mut room = [9; 65536];
    let event = link.next(1000, &mut room);
    (event, [room[0], room[1], room[2]])
}

// A datagram of the peer.
fn datagram(at: u64, len: usize) -> Result<Event, LinkFault> {
    Ok(Event::Datagram {
        from: PEER,
        len,
        at,
    })
}

// Whether a wait is refused, and then the three events come.
fn hands_out_three(link: &mut impl Link) -> bool {
    waited(link) == (Err(LinkFault), [9, 9, 9])
        && waited(link) == (datagram(5, 2), [1, 2, 9])
        && waited(link) == (Ok(Event::Quiet { at: 7 }), [9, 9, 9])
        && waited(link) == (datagram(8, 1), [3, 9, 9])
}

fn hands_out(link: &mut MemoryLink) -> bool {
    let has_three = add_three(link);
    link.fail_next(Call::Next);
    link.fail_next(Call::Read);
    has_three && hands_out_three(link)
}

#[test]
fn hands_out_in_order(rt: HostRuntime) {
    assert!(rt; holds(rt.alloc(), hands_out));
}

// Whether a datagram is sent.
fn sends(link: &mut impl Link, disk: &impl Disk, to: &Address, bytes: &[u8]) -> bool {
    link.send(disk, to, bytes).is_ok()
}

// It is bound at the second try. It sends a datagram, and one comes, and none.
fn comes_and_goes(link: &mut MemoryLink, disk: &MemoryDisk) -> bool {
    link.fail_next(Call::Bind);
    link.bind(&PEER).is_err()
        && link.bind(&PEER).is_ok()
        && sends(link, disk, &PEER, &[1, 2])
        && add(link, 5, &[3])
        && waited(link).0.is_ok()
        && waited(link).0.is_ok()
}

// One sending is refused, and one isn't.
fn sends_again(link: &mut MemoryLink, disk: &MemoryDisk) -> bool {
    link.fail_next(Call::Send);
    !sends(link, disk, &PEER, &[9]) && sends(link, disk, &OTHER, &[4])
}

fn sends_over_a_sync(link: &mut MemoryLink, disk: &mut MemoryDisk) -> bool {
    comes_and_goes(link, disk) && disk.sync().is_ok() && sends_again(link, disk)
}

// Whether its record of this number is this.
fn is_kept(link: &MemoryLink, n: usize, mark: Mark, bytes: &[u8]) -> bool {
    n < link.marks() && link.mark(n) == mark && link.mark_bytes(n) == bytes
}

// Whether it keeps a datagram sent, one that came, a wait, and one sent after the sync.
fn keeps_all(link: &MemoryLink) -> bool {
    let before = Mark::Sent {
        moment: 0,
        to: PEER,
    };
    let behind = Mark::Sent {
        moment: 1,
        to: OTHER,
    };
    is_kept(link, 0, before, &[1, 2])
        && is_kept(link, 1, Mark::Received { at: 5, from: PEER }, &[3])
        && is_kept(link, 2, Mark::Quiet { at: 5 }, &[])
        && is_kept(link, 3, behind, &[4])
        && link.marks() == 4
}

// Whether a datagram of this number was sent with these bytes.
fn is_sent(link: &MemoryLink, n: usize, bytes: &[u8]) -> bool {
    n < link.sent() && link.sent_bytes(n) == bytes
}

fn keeps_sent(link: &MemoryLink) -> bool {
    link.sent() == 2 && is_sent(link, 0, &[1, 2]) && is_sent(link, 1, &[4])
}

fn keeps_what_it_sends(link: &mut MemoryLink, disk: &mut MemoryDisk) -> bool {
    sends_over_a_sync(link, disk) && keeps_all(link) && keeps_sent(link)
}

fn keeps_beside_new(alloc: Global, link: &mut MemoryLink) -> bool {
    match MemoryDisk::new(alloc, &[]) {
        Ok(mut disk) => keeps_what_it_sends(link, &mut disk),
        Err(_) => false,
    }
}

#[test]
fn keeps_what_came_and_went(rt: HostRuntime) {
    match MemoryLink::new(rt.alloc()) {
        Ok(mut link) => assert!(rt; keeps_beside_new(rt.alloc(), &mut link)),
        Err(_) => assert!(rt; false),
    }
}

// Whether a sending passes or not, as it says, and a binding and a wait do.
fn sends_only_if(link: &mut impl Link, passes: bool) -> bool {
    sends(link, &NullDisk::new(), &PEER, &[1]) == passes
        && link.bind(&PEER).is_ok()
        && waited(link).0.is_ok()
}

fn fails_second_sending(link: &mut MemoryLink) -> bool {
    let has_three = add_three(link);
    link.fail_after(Call::Send, 1);
    link.fail_after(Call::Write, 0);
    for passes in [true, false, true, true] {
        if !sends_only_if(link, passes) {
            return false;
        }
    }
    has_three && link.sent() == 3
}

#[test]
fn the_second_sending_fails(rt: HostRuntime) {
    assert!(rt; holds(rt.alloc(), fails_second_sending));
}

fn fails_third_wait(link: &mut MemoryLink) -> bool {
    let has_three = add_three(link);
    link.fail_after(Call::Next, 2);
    for passes in [true, true, false, true] {
        if waited(link).0.is_ok() != passes {
            return false;
        }
    }
    has_three
}

#[test]
fn the_third_wait_fails(rt: HostRuntime) {
    assert!(rt; holds(rt.alloc(), fails_third_wait));
}
