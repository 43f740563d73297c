//! Upgrades of a store of `abc` at a chunk of 1,024 bytes.

use crate::examples::{FIELDS, GAP, HEADER, REST, STORE, abc, behind, is_made_of, joined};
use crate::stopping::StoppingDisk;
use pp_outside::{Disk, MemoryDisk, MemorySource};
use pp_store::{UpgradeFault, upgrade};
use pp_tree::Book;
use std::alloc::Global;
use std::test::Fail;

// The store of `abc` in version 1, whose file ends with the content.
const OLD: [&[u8]; 4] = [b"PPSTORE1", &FIELDS, &GAP, b"abc"];

// Upgrades a file to the store of `abc`. How many chunks are held afterwards.
fn upgrade_from<D: Disk>(
    alloc: Global,
    file: &[u8],
    disk: &mut D,
) -> Result<Result<u32, UpgradeFault>, Fail> {
    let descriptor = abc()?;
    let mut book = Book::empty(alloc);
    let mut source = MemorySource::new(file);
    Ok(
        match upgrade(alloc, &descriptor, &mut source, disk, &mut book) {
            Ok(set) => Ok(set.count()),
            Err(fault) => Err(fault),
        },
    )
}

// The parts of a file, the bytes of the disk before, how many chunks are held then, and the parts of what is on the disk.
type Case = (
    &'static [&'static [u8]],
    &'static [u8],
    Result<u32, UpgradeFault>,
    &'static [&'static [u8]],
);

// Whether an upgrade comes to what is wanted.
fn upgrades_as(alloc: Global, (parts, before, want, after): &Case) -> Result<bool, Fail> {
    let file = joined(alloc, parts)?;
    let mut disk = MemoryDisk::new(alloc, before)?;
    let is_wanted = upgrade_from(alloc, &file, &mut disk)? == *want;
    Ok(is_wanted && is_made_of(disk.bytes(), after))
}

// A chunk whose bytes have changed is copied, and its gate stays closed. A new store is no old one, and a disk of one byte stays.
const CASES: [Case; 4] = [
    (&OLD, &[], Ok(1), &STORE),
    (
        &[b"PPSTORE1", &FIELDS, &GAP, b"bbc"],
        &[],
        Ok(0),
        &[b"PPSTORE2", &FIELDS, &GAP, b"bbc", &REST, &[0]],
    ),
    (
        &[b"PPSTORE2", &FIELDS, &GAP, b"abc"],
        &[],
        Err(UpgradeFault::NotAStore {
            at: 7,
            found: 50,
            want: 49,
        }),
        &[],
    ),
    (&OLD, &[9], Err(UpgradeFault::NotEmpty { len: 1 }), &[&[9]]),
];

#[test]
fn an_old_store_becomes_a_new_one(rt: HostRuntime) -> Result<(), Fail> {
    for (k, case) in CASES.iter().enumerate() {
        assert!(rt; upgrades_as(rt.alloc(), case)?, "case {k}");
    }
    Ok(())
}

// Whether an upgrade is refused by a disk that takes so many calls, or done where these are thirteen; and a crash leaves the store then,
// or none where it isn't done.
fn survives(alloc: Global, left: u32, pick: u64) -> Result<bool, Fail> {
    let file = joined(alloc, &OLD)?;
    let mut disk = StoppingDisk::new(alloc, left)?;
    let is_done = left >= 13;
    let is_right = upgrade_from(alloc, &file, &mut disk)?.is_ok() == is_done;
    disk.inner.crash(pick);
    let image = disk.inner.bytes();
    let is_none = !is_done && behind(image, &HEADER).is_none();
    Ok(is_right && (is_none || is_made_of(image, &STORE)))
}

// An upgrade of one chunk makes thirteen calls: of the length and a sync; a write and a sync of zeros; of the slot, the last
// byte and a sync; of the length and the chunk; of the gate and a sync; and of the header and a sync.
#[test]
fn a_crash_leaves_no_other_store(rt: HostRuntime) -> Result<(), Fail> {
    for left in 0..14 {
        for pick in 0..6 {
            let is_right = survives(rt.alloc(), left, pick)?;
            assert!(rt; is_right, "after {left} calls, by pick {pick}");
        }
    }
    Ok(())
}
