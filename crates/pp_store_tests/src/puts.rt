//! Chunks that are put, crashes, and what is held afterwards.
ghost use Rattle.std.specs.Prelude.{◌≡◌};
ghost use Rattle.pp_terms.specs.tree.Book.{IsRooted};
ghost use Rattle.pp_tree.specs.Book.{entry};

use crate::fresh::Fresh;
use crate::swarm::{Swarm, bytes_of, opened, prepared, seven_chunks, small_chunks};
use hex::FromHex;
use pp_outside::{Disk, MemoryDisk};
use pp_store::{Put, Store};
use pp_tree::{Descriptor, Digest, Node};
use std::alloc::Global;
use std::test::Fail;

// A disk on which the first chunk was put, and that crashed then.
fn crashed(alloc: Global, swarm: &Swarm) -> Result<MemoryDisk, Fail> {
    let mut fresh = Fresh::of(alloc, swarm.descriptor, u32::MAX)?;
    fresh.put_chunk(alloc, swarm, 0);
    fresh.disk.inner.crash(2);
    Ok(fresh.disk.inner)
}

// Whether this comes of the first chunk, and one is pending then.
fn puts_first(alloc: Global, swarm: &Swarm, fresh: &mut Fresh, want: Put) -> bool
    requires same { fresh.old.store.descriptor ≡ fresh.old.descriptor }
    requires rooted { IsRooted fresh.old.descriptor (entry fresh.old.book) }
    ensures same { fresh.new.store.descriptor ≡ fresh.new.descriptor }
    ensures rooted { IsRooted fresh.new.descriptor (entry fresh.new.book) }
{
    fresh.put_chunk(alloc, swarm, 0) == Some(want) && fresh.counts() == (1, 0)
}

// Whether the first chunk is stored and then held. There are the chunk, three pairs on its way, and two of nodes that aren't full: (1,3)
// and (2,1).
fn stores_once(alloc: Global, swarm: &Swarm, fresh: &mut Fresh) -> bool
    requires same { fresh.old.store.descriptor ≡ fresh.old.descriptor }
    requires rooted { IsRooted fresh.old.descriptor (entry fresh.old.book) }
    ensures same { fresh.new.store.descriptor ≡ fresh.new.descriptor }
    ensures rooted { IsRooted fresh.new.descriptor (entry fresh.new.book) }
{
    fresh.counts() == (0, 0)
        && puts_first(alloc, swarm, fresh, Put::Stored)
        && fresh.bytes().len() == 8776
        && puts_first(alloc, swarm, fresh, Put::Held)
}

// A crash loses a chunk that is pending, so it is stored again.
fn stores_again(alloc: Global, swarm: &Swarm) -> Result<bool, Fail> {
    let disk = crashed(alloc, swarm)?;
    let mut fresh = Fresh::on(alloc, swarm.descriptor, disk, u32::MAX)?;
    Ok(stores_once(alloc, swarm, &mut fresh) && fresh.commits() && fresh.counts() == (0, 1))
}

#[test]
fn a_chunk_is_stored_once(rt: HostRuntime) -> Result<(), Fail> {
    let swarm = seven_chunks(rt.alloc())?;
    assert!(rt; stores_again(rt.alloc(), &swarm)?);
    Ok(())
}

// What the first chunk with the lowest bit of its first byte changed leads to at node (2, 0), and what is there: worked out
// with another implementation of SHA-256.
const CHANGED: &str = "76844da83ec3f078d284c1cf75f03f390e4cc4ab803d09644d8c541295999f78";

const PEAK: &str = "ec5bb09e21df1ebfb769ce3360f5ff39335612ae52728b4cf2d410f8dbf31f9c";

const PEAK_NODE: Node = Node {
    layer: 2,
    offset: 0,
};

// Whether this comes of bytes that are put behind no hashes.
fn is_refused(alloc: Global, i: u32, want: Put) -> Result<bool, Fail> {
    let swarm = seven_chunks(alloc)?;
    is_refused_alone(alloc, swarm.descriptor, i, want)
}

fn is_refused_alone(
    alloc: Global,
    descriptor: Descriptor,
    i: u32,
    want: Put,
) -> Result<bool, Fail> {
    let mut fresh = Fresh::of(alloc, descriptor, u32::MAX)?;
    Ok(fresh.put_alone(alloc, i, &bytes_of(1024, 0)) == Some(want))
}

// The last chunk has 856 bytes.
#[test]
fn other_lengths_are_refused(rt: HostRuntime) -> Result<(), Fail> {
    let found = 1024;
    let put = Put::Length { found, want: 856 };
    assert!(rt; is_refused(rt.alloc(), 6, put)?);
    Ok(())
}

#[test]
fn bytes_that_nothing_proves_are_refused(rt: HostRuntime) -> Result<(), Fail> {
    assert!(rt; is_refused(rt.alloc(), 0, Put::Missing(PEAK_NODE))?);
    Ok(())
}

// Nothing was written behind the header.
fn is_blank(bytes: &[u8]) -> bool {
    for byte in bytes.iter().skip(64) {
        if *byte != 0 {
            return false;
        }
    }
    true
}

// The first chunk with its first bit changed.
fn changed() -> [u8; 1024] {
    let mut bytes = bytes_of(1024, 0);
    bytes[0] ^= 1;
    bytes
}

// Whether this comes of that chunk, nothing is written, and no chunk waits.
fn refuses_changed(alloc: Global, swarm: &Swarm, want: Put) -> Result<bool, Fail> {
    let mut fresh = Fresh::of(alloc, swarm.descriptor, u32::MAX)?;
    let put = fresh.put_other(alloc, swarm, 0, &changed());
    Ok(put == Some(want) && is_blank(fresh.bytes()) && fresh.counts() == (0, 0))
}

fn digest(text: &str) -> Result<Digest, Fail> {
    Ok(Digest::new(<[u8; 32]>::from_hex(text)?))
}

#[test]
fn other_bytes_are_refused(rt: HostRuntime) -> Result<(), Fail> {
    let put = Put::Wrong {
        node: PEAK_NODE,
        found: digest(CHANGED)?,
        kept: digest(PEAK)?,
    };
    let swarm = seven_chunks(rt.alloc())?;
    assert!(rt; refuses_changed(rt.alloc(), &swarm, put)?);
    Ok(())
}

// Which of seven chunks are committed, a bit for each.
fn committed(store: &Store) -> u8 {
    let mut bits = 0;
    for i in 0..7 {
        if store.committed().first_from(i) == Some(i) {
            bits |= 1 << i;
        }
    }
    bits
}

// Which chunks are committed in a store that is opened on a disk.
fn committed_on(alloc: Global, swarm: &Swarm, disk: &mut MemoryDisk) -> Result<u8, Fail> {
    let mut book = prepared(alloc, &swarm.descriptor)?;
    let store = opened(alloc, &swarm.descriptor, disk, &mut book)?;
    Ok(committed(&store))
}

// Which chunks that a store has committed are lost where it crashes.
fn lost(alloc: Global, swarm: &Swarm, fresh: &mut Fresh, pick: u64) -> Result<u8, Fail> {
    fresh.disk.inner.crash(pick);
    let again = committed_on(alloc, swarm, &mut fresh.disk.inner)?;
    Ok(committed(&fresh.store) & !again)
}

// All seven are put. Whether that goes well or not, as is wanted, and the store is live then or not.
fn puts_seven(alloc: Global, swarm: &Swarm, fresh: &mut Fresh, want: bool) -> bool
    requires same { fresh.old.store.descriptor ≡ fresh.old.descriptor }
    requires rooted { IsRooted fresh.old.descriptor (entry fresh.old.book) }
{
    fresh.put_all(alloc, swarm, 7, true) == want && fresh.store.is_live() == want
}

// So it goes on a disk that refuses the call after so many, and crashes then. Whether what was committed is held. Seven chunks, seven pairs
// and seven gates, and two syncs in each of four commits, are 29 calls.
fn survives(alloc: Global, swarm: &Swarm, calls: u32, pick: u64) -> Result<bool, Fail> {
    let mut fresh = Fresh::of(alloc, swarm.descriptor, calls)?;
    let is_right = puts_seven(alloc, swarm, &mut fresh, calls >= 29);
    Ok(is_right && lost(alloc, swarm, &mut fresh, pick)? == 0)
}

#[test]
fn what_was_committed_is_held(rt: HostRuntime) -> Result<(), Fail> {
    let swarm = seven_chunks(rt.alloc())?;
    for calls in 0..31 {
        for pick in 0..6 {
            let is_right = survives(rt.alloc(), &swarm, calls, pick)?;
            assert!(rt; is_right, "{calls} calls, pick {pick}");
        }
    }
    Ok(())
}

// Whether 64 chunks are put before any epoch ends, and are pending then.
fn puts_many(alloc: Global, swarm: &Swarm, fresh: &mut Fresh) -> bool
    requires same { fresh.old.store.descriptor ≡ fresh.old.descriptor }
    requires rooted { IsRooted fresh.old.descriptor (entry fresh.old.book) }
    ensures same { fresh.new.store.descriptor ≡ fresh.new.descriptor }
    ensures rooted { IsRooted fresh.new.descriptor (entry fresh.new.book) }
{
    let before = fresh.disk.moment();
    fresh.put_all(alloc, swarm, 64, false)
        && fresh.counts() == (64, 0)
        && fresh.disk.moment() == before
}

// Whether two epochs end while they are committed.
fn commits_many(fresh: &mut Fresh) -> bool
    requires same { fresh.old.store.descriptor ≡ fresh.old.descriptor }
    requires rooted { IsRooted fresh.old.descriptor (entry fresh.old.book) }
{
    let before = fresh.disk.moment();
    fresh.commits()
        && fresh.counts() == (0, 64)
        && fresh.disk.moment().checked_sub(before) == Some(2)
}

fn commits_at_once(alloc: Global, swarm: &Swarm) -> Result<bool, Fail> {
    let mut fresh = Fresh::of(alloc, swarm.descriptor, u32::MAX)?;
    Ok(puts_many(alloc, swarm, &mut fresh) && commits_many(&mut fresh))
}

#[test]
fn two_syncs_commit_many(rt: HostRuntime) -> Result<(), Fail> {
    let swarm = small_chunks(rt.alloc(), 17_920)?;
    assert!(rt; commits_at_once(rt.alloc(), &swarm)?);
    Ok(())
}
