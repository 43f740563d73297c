//! Exports over devices that lie and refuse. The store is that of 7,000 bytes in seven chunks of 1,024.

use crate::commands::{DESCRIPTOR_OF_SEVEN, generated, words_of};
use pp_node::{Status, run};
use pp_outside::{
    Call, Disk, DiskFault, LyingDisk, MemoryDisk, MemoryLink, MemorySink, MemorySource, Sink,
    SinkFault,
};
use pp_store::{ImportFault, import};
use pp_tree::{Book, Descriptor};
use std::alloc::{AllocError, Global};
use std::test::Fail;

// A place in chunk 2.
const IN_CHUNK_2: u64 = 64 + 2 * 1089 + 500;

// Makes the content a store on an empty disk.
fn store_on(disk: &mut MemoryDisk) -> Result<Descriptor, ImportFault> {
    let content = generated();
    import(1024, &mut MemorySource::new(&content), disk)
}

// What an export left, and what it answered.
#[derive(Drop)]
struct Exported {
    status: u8,
    sink: MemorySink,
}

fn export_to<D: Disk, K: Sink>(
    alloc: Global,
    disk: &mut D,
    sink: &mut K,
) -> Result<u8, AllocError> {
    Ok(run(
        alloc,
        &words_of(alloc, &["export", "s", DESCRIPTOR_OF_SEVEN])?,
        [0; 32],
        disk,
        &mut MemoryLink::new(alloc)?,
        &mut MemorySource::new(&[]),
        sink,
        &mut Book::empty(alloc),
    ))
}

fn export_from<D: Disk>(alloc: Global, disk: &mut D) -> Result<Exported, AllocError> {
    let mut sink = MemorySink::new(alloc);
    let status = export_to(alloc, disk, &mut sink)?;
    Ok(Exported { status, sink })
}

#[test]
fn a_whole_store_gives_its_content(rt: HostRuntime) -> Result<(), Fail> {
    let alloc = rt.alloc();
    let mut disk = MemoryDisk::new(alloc, &[])?;
    store_on(&mut disk)?;
    let exported = export_from(alloc, &mut disk)?;
    assert_eq!(rt; exported.status, Status::Done as u8);
    assert_eq!(rt; exported.sink.bytes(), generated().as_slice());
    Ok(())
}

#[test]
fn an_empty_disk_is_incomplete(rt: HostRuntime) -> Result<(), Fail> {
    let alloc = rt.alloc();
    let mut disk = MemoryDisk::new(alloc, &[])?;
    let exported = export_from(alloc, &mut disk)?;
    assert_eq!(rt; exported.status, Status::Incomplete as u8);
    assert_eq!(rt; exported.sink.bytes().len(), 0);
    assert_eq!(rt; disk.bytes().len(), 0);
    Ok(())
}

// The scan reads no chunk. If the one reading of chunk 2 is false, that is found out.
#[test]
fn a_lie_about_chunk_2_is_found_out(rt: HostRuntime) -> Result<(), Fail> {
    let alloc = rt.alloc();
    for (passed, status, len) in [(0, Status::Damaged, 2048), (1, Status::Done, 7000)] {
        let mut inner = MemoryDisk::new(alloc, &[])?;
        store_on(&mut inner)?;
        let mut disk = LyingDisk::new(inner, IN_CHUNK_2, 1, passed);
        let exported = export_from(alloc, &mut disk)?;
        assert_eq!(rt; exported.status, status as u8, "with {passed}");
        assert_eq!(rt; exported.sink.bytes(), &generated()[..len], "with {passed}");
    }
    Ok(())
}

// A chunk that was changed behind its open gate is found by the scan, and not given.
#[test]
fn a_changed_chunk_is_not_given(rt: HostRuntime) -> Result<(), Fail> {
    let alloc = rt.alloc();
    let mut disk = MemoryDisk::new(alloc, &[])?;
    store_on(&mut disk)?;
    assert_eq!(rt; disk.write_at(64, b"b"), Ok(()));
    let exported = export_from(alloc, &mut disk)?;
    assert_eq!(rt; exported.status, Status::Damaged as u8);
    assert_eq!(rt; exported.sink.bytes().len(), 0);
    Ok(())
}

#[test]
fn another_file_gives_nothing(rt: HostRuntime) -> Result<(), Fail> {
    let alloc = rt.alloc();
    let mut disk = MemoryDisk::new(alloc, &[])?;
    store_on(&mut disk)?;
    assert_eq!(rt; disk.write_at(7, b"3"), Ok(()));
    let exported = export_from(alloc, &mut disk)?;
    assert_eq!(rt; exported.status, Status::NotAStore as u8);
    assert_eq!(rt; exported.sink.bytes().len(), 0);
    Ok(())
}

// A sink that takes at most 1,000 bytes at once, and refuses each write after `left` of them.
#[derive(Drop)]
struct NarrowSink {
    inner: MemorySink,
    left: u32,
}

impl Sink for NarrowSink {
    ghost use Rattle.pp_outside.specs.MemorySink.{state_of};

    ghost state = { λ sink. state_of sink.inner };

    fn write(&mut self, bytes: &[u8]) -> Result<usize, SinkFault> {
        if self.left == 0 {
            self.inner.fail_next();
        } else {
            self.left -= 1;
        }
        let len = bytes.len().min(1000);
        self.inner.write(&bytes[..len])
    }
}

// All chunks are right, and are written in one piece, which takes seven writes.
#[test]
fn a_sink_that_refuses_has_what_it_took(rt: HostRuntime) -> Result<(), Fail> {
    let alloc = rt.alloc();
    for (left, status, len) in [
        (0, Status::SinkFault, 0),
        (1, Status::SinkFault, 1000),
        (2, Status::SinkFault, 2000),
        (5, Status::SinkFault, 5000),
        (6, Status::SinkFault, 6000),
        (7, Status::Done, 7000),
    ] {
        let mut disk = MemoryDisk::new(alloc, &[])?;
        store_on(&mut disk)?;
        let mut sink = NarrowSink {
            inner: MemorySink::new(alloc),
            left,
        };
        let answer = export_to(alloc, &mut disk, &mut sink)?;
        assert_eq!(rt; answer, status as u8, "after {left} writes");
        assert_eq!(rt;
            sink.inner.bytes(),
            &generated()[..len],
            "after {left} writes"
        );
    }
    Ok(())
}

// A disk that takes `left` calls more and refuses each after them.
#[derive(Drop)]
struct StoppingDisk {
    inner: MemoryDisk,
    left: u32,
}

impl StoppingDisk {
    ghost use Rattle.std.specs.Prelude.{◌≡◌};
    ghost use Rattle.pp_outside.specs.MemoryDisk.{state_of};

    // Counts a call, and orders the inner disk to refuse it if none is left.
    fn count(&mut self, call: Call)
        ensures { state_of self.new.inner ≡ state_of self.old.inner }
    {
        if self.left == 0 {
            self.inner.fail_next(call);
        } else {
            self.left -= 1;
        }
    }
}

impl Disk for StoppingDisk {
    ghost use Rattle.pp_outside.specs.MemoryDisk.{state_of};
    ghost use Rattle.pp_outside.specs.Whole.{reads_are_image};

    ghost state = { λ disk. state_of disk.inner };

    ghost whole = { λ disk known. reads_are_image disk.inner.log };

    fn attach(&mut self, name: &str) -> Result<(), DiskFault> {
        self.count(Call::Attach);
        self.inner.attach(name)
    }

    fn len(&mut self) -> Result<u64, DiskFault> {
        self.count(Call::Len);
        self.inner.len()
    }

    fn read_at(&mut self, place: u64, into: &mut [u8]) -> Result<(), DiskFault> {
        self.count(Call::Read);
        self.inner.read_at(place, into)
    }

    fn write_at(&mut self, place: u64, bytes: &[u8]) -> Result<(), DiskFault> {
        self.count(Call::Write);
        self.inner.write_at(place, bytes)
    }

    fn sync(&mut self) -> Result<(), DiskFault> {
        self.count(Call::Sync);
        self.inner.sync()
    }

    fn moment(&self) -> u64 {
        self.inner.moment()
    }
}

// The fourteenth call reads all chunks.
#[test]
fn a_disk_that_refuses_gives_nothing(rt: HostRuntime) -> Result<(), Fail> {
    let alloc = rt.alloc();
    for (left, status, len) in [
        (0, Status::DiskFault, 0),
        (1, Status::DiskFault, 0),
        (13, Status::DiskFault, 0),
        (14, Status::Done, 7000),
        (40, Status::Done, 7000),
    ] {
        let mut inner = MemoryDisk::new(alloc, &[])?;
        store_on(&mut inner)?;
        let exported = export_from(alloc, &mut StoppingDisk { inner, left })?;
        assert_eq!(rt; exported.status, status as u8, "after {left} calls");
        assert_eq!(rt;
            exported.sink.bytes(),
            &generated()[..len],
            "after {left} calls"
        );
    }
    Ok(())
}

// A disk that refuses each reading of one byte.
#[derive(Drop)]
struct BrokenDisk {
    inner: MemoryDisk,
    byte: u64,
}

impl Disk for BrokenDisk {
    ghost use Rattle.pp_outside.specs.MemoryDisk.{state_of};
    ghost use Rattle.pp_outside.specs.Whole.{reads_are_image};

    ghost state = { λ disk. state_of disk.inner };

    ghost whole = { λ disk known. reads_are_image disk.inner.log };

    fn attach(&mut self, name: &str) -> Result<(), DiskFault> {
        self.inner.attach(name)
    }

    fn len(&mut self) -> Result<u64, DiskFault> {
        self.inner.len()
    }

    fn read_at(&mut self, place: u64, into: &mut [u8]) -> Result<(), DiskFault> {
        if place <= self.byte && self.byte - place < into.len() as u64 {
            self.inner.fail_next(Call::Read);
        }
        self.inner.read_at(place, into)
    }

    fn write_at(&mut self, place: u64, bytes: &[u8]) -> Result<(), DiskFault> {
        self.inner.write_at(place, bytes)
    }

    fn sync(&mut self) -> Result<(), DiskFault> {
        self.inner.sync()
    }

    fn moment(&self) -> u64 {
        self.inner.moment()
    }
}

// The chunks before the one that can't be read are given.
#[test]
fn a_broken_place_leaves_whole_chunks(rt: HostRuntime) -> Result<(), Fail> {
    let alloc = rt.alloc();
    for chunk in [0, 1, 2, 3, 4, 5, 6] {
        let mut inner = MemoryDisk::new(alloc, &[])?;
        store_on(&mut inner)?;
        let byte = 64 + 1089 * chunk as u64 + 500;
        let exported = export_from(alloc, &mut BrokenDisk { inner, byte })?;
        assert_eq!(rt;
            exported.status,
            Status::DiskFault as u8,
            "in chunk {chunk}"
        );
        assert_eq!(rt;
            exported.sink.bytes(),
            &generated()[..1024 * chunk],
            "in chunk {chunk}"
        );
    }
    Ok(())
}
