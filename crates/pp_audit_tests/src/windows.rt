ghost use Rattle.std.specs.Prelude.{◌<◌};

use crate::traffic::{
    LOCAL, PEER, REMOTE, acknowledges, answered, came, delivery, handshake, quiet, swarm, went,
};
use pp_audit::*;
use pp_tree::Descriptor;
use std::alloc::{AllocError, Global};
use std::test::Fail;

/// A DATA of each of the first six chunks, all at the moment 0, and an ACK of each of the first four, none of them late.
#[derive(Drop)]
struct Exchange {
    hello: [u8; 64],
    reply: [u8; 64],
    chunks: [Vec<u8>; 6],
    acks: [[u8; 30]; 4],
}

fn exchanged(alloc: Global, d: &Descriptor) -> Result<Exchange, AllocError> {
    Ok(Exchange {
        hello: handshake(0, REMOTE, &d.root()),
        reply: handshake(REMOTE, LOCAL, &d.root()),
        chunks: [
            delivery(alloc, REMOTE, &[], 0)?,
            delivery(alloc, REMOTE, &[], 1)?,
            delivery(alloc, REMOTE, &[], 2)?,
            delivery(alloc, REMOTE, &[], 3)?,
            delivery(alloc, REMOTE, &[], 4)?,
            delivery(alloc, REMOTE, &[], 5)?,
        ],
        acks: [
            acknowledges(LOCAL, 0, 9),
            acknowledges(LOCAL, 1, 9),
            acknowledges(LOCAL, 2, 9),
            acknowledges(LOCAL, 3, 9),
        ],
    })
}

impl Exchange {
    fn hello<'m>(&'m self) -> Entry<'m> {
        came(PEER, &self.hello)
    }

    fn reply<'m>(&'m self) -> Entry<'m> {
        went(PEER, &self.reply)
    }

    fn chunk<'m>(&'m self, i: usize) -> Entry<'m>
        requires { i < 6 }
    {
        went(PEER, &self.chunks[i])
    }

    fn ack<'m>(&'m self, i: usize) -> Entry<'m>
        requires { i < 4 }
    {
        let ack = &self.acks[i];
        came(PEER, ack)
    }
}

// Whether the channel lets one chunk more be sent where it is wanted: behind the handshakes, and behind each entry after them.
fn lets_where<'m>(d: &Descriptor, list: &'m [Entry<'m>], wanted: &[bool]) -> bool {
    for (k, want) in wanted.iter().enumerate() {
        let before = list.len().min(k.saturating_add(2));
        if lets_send(d, answered(0), &list[..before]) != *want {
            return false;
        }
    }
    true
}

// The window is 2048 bytes at first. With no queuing delay an ACK of one chunk moves it by 1024 * 1024 / window: to 2560, to 2969,
// and to 3322, of which one chunk above the flight is left: 3072, three chunks.
#[test]
fn a_window_grows(rt: HostRuntime) -> Result<(), Fail> {
    let d = swarm(rt.alloc())?;
    let x = exchanged(rt.alloc(), &d)?;
    let list = [
        x.hello(),
        x.reply(),
        x.chunk(0),
        x.chunk(1),
        x.ack(0),
        x.chunk(2),
        x.ack(1),
        x.chunk(3),
        x.ack(2),
        x.chunk(4),
        x.chunk(5),
    ];
    let wanted = [
        true, true, false, true, false, true, false, true, true, false,
    ];
    assert!(rt; lets_where(&d, &list, &wanted));
    Ok(())
}

// Chunk 0 is lost once the three behind it are acknowledged, and 3072 bytes are halved, down to two chunks.
#[test]
fn a_loss_halves_a_window(rt: HostRuntime) -> Result<(), Fail> {
    let d = swarm(rt.alloc())?;
    let x = exchanged(rt.alloc(), &d)?;
    let list = [
        x.hello(),
        x.reply(),
        x.chunk(0),
        x.chunk(1),
        x.ack(1),
        x.chunk(2),
        x.ack(2),
        x.chunk(3),
        x.ack(3),
        x.chunk(4),
        x.chunk(5),
    ];
    let wanted = [
        true, true, false, true, false, true, false, true, true, false,
    ];
    assert!(rt; lets_where(&d, &list, &wanted));
    Ok(())
}

// A second after the first sending all is written off, and one chunk may fly; an ACK of what was written off does nothing, and one
// of the chunk that flies doubles the window.
#[test]
fn a_timeout_shuts_a_window(rt: HostRuntime) -> Result<(), Fail> {
    let d = swarm(rt.alloc())?;
    let x = exchanged(rt.alloc(), &d)?;
    let list = [
        x.hello(),
        x.reply(),
        x.chunk(0),
        x.chunk(1),
        quiet(999_999),
        quiet(1_000_000),
        x.chunk(2),
        x.ack(0),
        x.ack(2),
        x.chunk(3),
        x.chunk(4),
    ];
    let wanted = [
        true, true, false, false, true, false, false, true, true, false,
    ];
    assert!(rt; lets_where(&d, &list, &wanted));
    Ok(())
}
