use crate::traffic::{acknowledges, content, first_chunk, handshake, leaves, swarm, with_change};
use pp_audit::*;
use pp_outside::Address;
use pp_tree::Book;
use std::alloc::Global;
use std::test::Fail;

// A fetch of a first chunk from a peer that this one dialled. Both peers' numbers for the channel.
const PEER: Address = Address::V4([10, 0, 0, 2], 7000);

const OTHER: Address = Address::V4([10, 0, 0, 3], 7000);

const HERE: u32 = crate::traffic::REMOTE;

const THERE: u32 = 0x0102_0304;

fn came<'m>(from: Address, bytes: &'m [u8]) -> Entry<'m> {
    Entry::Received { at: 0, from, bytes }
}

fn went<'m>(bytes: &'m [u8]) -> Entry<'m> {
    Entry::Sent {
        moment: 0,
        to: PEER,
        bytes,
    }
}

fn quiet<'m>(at: u64) -> Entry<'m> {
    Entry::Quiet { at }
}

/// The first chunk behind its hashes.
fn first(alloc: Global) -> Result<Vec<u8>, Fail> {
    let content = content(alloc)?;
    let bytes = first_chunk(alloc, &leaves(&content), &content)?;
    Ok(bytes)
}

// Whether all is stored by a peer that holds these chunks, where the last record is a datagram from there.
fn is_stored(alloc: Global, from: Address, bytes: &[u8], held: &[bool]) -> Result<bool, Fail> {
    let d = swarm(alloc)?;
    let dial = handshake(0, HERE, &d.root());
    let taken = handshake(HERE, THERE, &d.root());
    let list = [went(&dial), came(PEER, &taken), came(from, bytes)];
    Ok(stores_all(&d, &Book::empty(alloc), held, &list))
}

#[test]
fn decides_what_is_stored(rt: HostRuntime) -> Result<(), Fail> {
    let bytes = first(rt.alloc())?;
    assert!(rt; is_stored(rt.alloc(), PEER, &bytes, &[true])?);
    assert!(rt; !is_stored(rt.alloc(), PEER, &bytes, &[false, true])?);
    Ok(())
}

#[test]
fn stores_nothing_else(rt: HostRuntime) -> Result<(), Fail> {
    let bytes = first(rt.alloc())?;
    // a byte of the chunk is another one, and nothing proves it; or it came from another address
    let changed = with_change(rt.alloc(), &bytes, 300)?;
    assert!(rt; is_stored(rt.alloc(), PEER, &changed, &[])?);
    assert!(rt; is_stored(rt.alloc(), OTHER, &bytes, &[])?);
    Ok(())
}

// Whether all is acknowledged by the end of a quiet turn, where the turn of the chunk has an ACK of this one.
fn is_acknowledged(alloc: Global, bytes: &[u8], chunk: u32) -> Result<bool, Fail> {
    let d = swarm(alloc)?;
    let dial = handshake(0, HERE, &d.root());
    let taken = handshake(HERE, THERE, &d.root());
    let answer = acknowledges(THERE, chunk, 2);
    let list = [
        quiet(0),
        went(&dial),
        came(PEER, &taken),
        came(PEER, bytes),
        went(&answer),
        quiet(1000),
    ];
    Ok(acknowledges_all(&d, &Book::empty(alloc), &list))
}

#[test]
fn decides_what_is_acknowledged(rt: HostRuntime) -> Result<(), Fail> {
    let bytes = first(rt.alloc())?;
    assert!(rt; is_acknowledged(rt.alloc(), &bytes, 0)?);
    assert!(rt; !is_acknowledged(rt.alloc(), &bytes, 1)?);
    Ok(())
}

#[test]
fn acknowledges_nothing_else(rt: HostRuntime) -> Result<(), Fail> {
    let bytes = first(rt.alloc())?;
    let changed = with_change(rt.alloc(), &bytes, 300)?;
    assert!(rt; is_acknowledged(rt.alloc(), &changed, 1)?);
    Ok(())
}
