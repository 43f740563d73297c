//! Imports at chunks of 1,024 bytes.

use crate::examples::{HEADER, STORE, behind, is_made_of};
use crate::fresh::Fresh;
use crate::stopping::StoppingDisk;
use crate::swarm::content_of_seven;
use pp_outside::{Disk, MemoryDisk, MemorySource, Source};
use pp_store::{ImportFault, import};
use pp_tree::{Descriptor, Digest, leaf};
use std::alloc::Global;
use std::test::Fail;

// The digest of `abc` is that of FIPS 180-4's examples.
const ABC_TEXT: &[u8] =
    b"ppspp1:ba7816bf8f01cfea414140de5dae2223b00361a396177a9cb410ff61f20015ad:1024:3:2";

fn import_from<D: Disk>(
    source: &mut MemorySource,
    disk: &mut D,
) -> Result<Descriptor, ImportFault> {
    import(1024, source, disk)
}

// Whether a swarm's name is this text.
fn is_named(descriptor: &Descriptor, want: &[u8]) -> bool {
    let mut text = [0; 128];
    let len = descriptor.write(&mut text);
    text.get(..len) == Some(want)
}

// Whether the name and the store that come of `abc` are what is wanted.
fn imports_abc(alloc: Global) -> Result<bool, Fail> {
    let mut disk = MemoryDisk::new(alloc, &[])?;
    let descriptor = import_from(&mut MemorySource::new(b"abc"), &mut disk)?;
    Ok(is_named(&descriptor, ABC_TEXT) && is_made_of(disk.bytes(), &STORE))
}

#[test]
fn abc_becomes_a_store(rt: HostRuntime) -> Result<(), Fail> {
    assert!(rt; imports_abc(rt.alloc())?);
    Ok(())
}

// The digest of the store of 7,000 bytes was made elsewhere.
const SEVEN_CHUNKS: [u8; 32] = [
    0x8e, 0x25, 0xbb, 0xe2, 0xcb, 0x91, 0x8a, 0x10, 0x31, 0xac, 0x21, 0x5a, 0xef, 0x9b, 0x12, 0x67,
    0x42, 0x2a, 0x73, 0x1a, 0xab, 0x42, 0x00, 0x0b, 0x17, 0x17, 0x46, 0x5c, 0x24, 0x3c, 0x15, 0x61,
];

// The store of 7,000 bytes.
pub(crate) fn imported(alloc: Global, left: u32) -> Result<Fresh, Fail> {
    let mut disk = MemoryDisk::new(alloc, &[])?;
    let descriptor = import_from(&mut MemorySource::new(&content_of_seven()), &mut disk)?;
    Fresh::on(alloc, descriptor, disk, left)
}

// Whether it has its length and its digest, and all chunks are committed.
fn is_whole(fresh: &Fresh) -> bool {
    fresh.bytes().len() == 8776
        && leaf(fresh.bytes()) == Digest::new(SEVEN_CHUNKS)
        && fresh.counts() == (0, 7)
        && fresh.store.is_live()
}

#[test]
fn seven_chunks_become_a_store(rt: HostRuntime) -> Result<(), Fail> {
    let fresh = imported(rt.alloc(), 0)?;
    assert!(rt; is_whole(&fresh));
    Ok(())
}

// Whether an import from a source fails in this way, and leaves these bytes where there were others.
fn fails(
    alloc: Global,
    source: &mut MemorySource,
    before: &[u8],
    fault: ImportFault,
    after: &[u8],
) -> Result<bool, Fail> {
    let mut disk = MemoryDisk::new(alloc, before)?;
    Ok(import_from(source, &mut disk) == Err(fault) && disk.bytes() == after)
}

// No content and a source that fails leave a front that was cleared.
#[test]
fn what_is_not_imported_leaves_no_store(rt: HostRuntime) -> Result<(), Fail> {
    let mut none = MemorySource::new(&[]);
    let fault = ImportFault::ContentSize { count: 0 };
    assert!(rt; fails(rt.alloc(), &mut none, &[], fault, &[0; 8])?);
    let mut failing = MemorySource::failing(b"ab");
    let fault = ImportFault::Source;
    assert!(rt; fails(rt.alloc(), &mut failing, &[], fault, &[0; 8])?);
    Ok(())
}

// Whether the next byte of a source is the first of `abc`.
fn is_untouched(source: &mut MemorySource) -> bool {
    let mut first = [0];
    source.read(&mut first) == Ok(1) && first == *b"a"
}

// A disk of one byte stays, and so does its source.
#[test]
fn what_is_there_is_left(rt: HostRuntime) -> Result<(), Fail> {
    let mut source = MemorySource::new(b"abc");
    let fault = ImportFault::NotEmpty { len: 1 };
    assert!(rt; fails(rt.alloc(), &mut source, &[9], fault, &[9])?);
    assert!(rt; is_untouched(&mut source));
    Ok(())
}

// Whether an import is done, or the disk refused it.
fn ends_as(answer: Result<Descriptor, ImportFault>, is_done: bool) -> bool {
    match answer {
        Ok(_) => is_done,
        Err(fault) => !is_done && fault == ImportFault::Disk,
    }
}

// Whether an import is refused by a disk that takes so many calls, or done where these are nine; and a crash leaves the store then, or
// none where it isn't done.
fn survives(alloc: Global, left: u32, pick: u64) -> Result<bool, Fail> {
    let mut disk = StoppingDisk::new(alloc, left)?;
    let answer = import_from(&mut MemorySource::new(b"abc"), &mut disk);
    disk.inner.crash(pick);
    let image = disk.inner.bytes();
    let is_done = left >= 9;
    let is_none = !is_done && behind(image, &HEADER).is_none();
    let is_right = is_none || is_made_of(image, &STORE);
    Ok(is_right && ends_as(answer, is_done))
}

// An import makes nine calls: of the length and a sync; a write and a sync of zeros; of the chunk and its gate, and a sync;
// and of the header and a sync.
#[test]
fn a_crash_leaves_no_other_store(rt: HostRuntime) -> Result<(), Fail> {
    for left in 0..10 {
        for pick in 0..6 {
            let is_right = survives(rt.alloc(), left, pick)?;
            assert!(rt; is_right, "after {left} calls, by pick {pick}");
        }
    }
    Ok(())
}
