//! Openings of a fresh store of two chunks.
ghost use Rattle.std.specs.Prelude.{◌≡◌};

use crate::examples::{behind, is_made_of};
use crate::fresh::Fresh;
use crate::stopping::StoppingDisk;
use crate::swarm::prepared;
use pp_outside::Disk;
use pp_store::{ReadFault, Store};
use pp_tree::{Descriptor, Digest, Method};
use std::alloc::Global;
use std::test::Fail;

// Chunks of 256 bytes and of one.
fn two_chunks() -> Result<Descriptor, Fail> {
    Ok(Descriptor::new(Digest::new([9; 32]), 256, 257, Method::Range32)?)
}

// The name, the chunk size, the content size and the root.
const HEADER: [&[u8]; 4] = [
    b"PPSTORE2",
    &[0, 0, 1, 0],
    &[0, 0, 0, 0, 0, 0, 1, 1],
    &[9; 32],
];

// Zeros stand behind them, and in two slots of 256 + 65 bytes.
const SLOTS: [u8; 654] = [0; 654];

const WANTED: [&[u8]; 5] = [
    b"PPSTORE2",
    &[0, 0, 1, 0],
    &[0, 0, 0, 0, 0, 0, 1, 1],
    &[9; 32],
    &SLOTS,
];

// Whether the second chunk is told to be absent where it is read, as none is committed.
fn is_absent(fresh: &mut Fresh) -> bool
    requires { fresh.old.store.descriptor ≡ fresh.old.descriptor }
{
    let descriptor = fresh.descriptor;
    if descriptor.chunks() != 2 || descriptor.chunk_len(1) > 256 {
        return false;
    }
    if fresh.store.committed().first_from(0).is_some() {
        return false;
    }
    let mut out = [0; 256];
    let read = fresh.store.read(1, &mut out, &fresh.book, &mut fresh.disk);
    read == Err(ReadFault::Absent)
}

fn is_fresh(fresh: &mut Fresh) -> bool
    requires { fresh.old.store.descriptor ≡ fresh.old.descriptor }
{
    is_made_of(fresh.bytes(), &WANTED) && fresh.counts() == (0, 0) && is_absent(fresh)
}

#[test]
fn a_fresh_store_gets_its_header_and_length(rt: HostRuntime) -> Result<(), Fail> {
    let mut fresh = Fresh::of(rt.alloc(), two_chunks()?, u32::MAX)?;
    assert!(rt; is_fresh(&mut fresh));
    Ok(())
}

// Opens the store on a disk that may refuse calls. Whether that went well.
fn opens<D: Disk>(alloc: Global, disk: &mut D) -> Result<bool, Fail> {
    let descriptor = two_chunks()?;
    let mut book = prepared(alloc, &descriptor)?;
    Ok(Store::open(alloc, &descriptor, disk, &mut book).is_ok())
}

// Whether an opening is refused by a disk that takes so many calls, or goes well where these are eight; and a crash leaves the store
// then, or none where it isn't done.
fn survives(alloc: Global, left: u32, pick: u64) -> Result<bool, Fail> {
    let mut disk = StoppingDisk::new(alloc, left)?;
    let is_done = left >= 8;
    let is_right = opens(alloc, &mut disk)? == is_done;
    disk.inner.crash(pick);
    let image = disk.inner.bytes();
    let is_none = !is_done && behind(image, &HEADER).is_none();
    Ok(is_right && (is_none || is_made_of(image, &WANTED)))
}

// A fresh opening makes eight calls: of the length and a sync, and a write and a sync each of zeros, of the last byte and of
// the header.
#[test]
fn a_crash_leaves_a_fresh_store_or_none(rt: HostRuntime) -> Result<(), Fail> {
    for left in 0..9 {
        for pick in 0..6 {
            let is_right = survives(rt.alloc(), left, pick)?;
            assert!(rt; is_right, "after {left} calls, by pick {pick}");
        }
    }
    Ok(())
}
