//! What `run` does with a store: importing, checking, exporting, upgrading; and words that are no command.

use pp_node::run;
use pp_outside::{
    Call, MemoryDisk, MemoryLink, MemorySink, MemorySource, NullDisk, Source, ZeroSource,
};
use pp_tree::Book;
use std::alloc::{AllocError, Global};
use std::test::Fail;

// What a run left, and what it answered.
#[derive(Drop)]
struct Ran {
    status: u8,
    disk: MemoryDisk,
    sink: MemorySink,
}

pub(crate) fn words_of(alloc: Global, line: &[&str]) -> Result<Vec<String>, AllocError> {
    let mut words = Vec::new(alloc);
    for word in line {
        words.push(String::from_str(alloc, word)?)?;
    }
    Ok(words)
}

fn import_over(
    alloc: Global,
    line: &[&str],
    mut disk: MemoryDisk,
    mut sink: MemorySink,
    source: &mut MemorySource<'_>,
) -> Result<Ran, AllocError> {
    let words = words_of(alloc, line)?;
    let mut link = MemoryLink::new(alloc)?;
    let mut book = Book::empty(alloc);
    let status = run(
        alloc, &words, [0; 32], &mut disk, &mut link, source, &mut sink, &mut book,
    );
    Ok(Ran { status, disk, sink })
}

fn import_of(alloc: Global, content: &[u8], disk: MemoryDisk) -> Result<Ran, AllocError> {
    import_over(
        alloc,
        &["import", "s", "1024"],
        disk,
        MemorySink::new(alloc),
        &mut MemorySource::new(content),
    )
}

// What stands in the store of `abc` in front of the zeros behind the chunk.
const FRONT: [u8; 67] = [
    0x50, 0x50, 0x53, 0x54, 0x4f, 0x52, 0x45, 0x32, 0x00, 0x00, 0x04, 0x00, 0x00, 0x00, 0x00, 0x00,
    0x00, 0x00, 0x00, 0x03, 0xba, 0x78, 0x16, 0xbf, 0x8f, 0x01, 0xcf, 0xea, 0x41, 0x41, 0x40, 0xde,
    0x5d, 0xae, 0x22, 0x23, 0xb0, 0x03, 0x61, 0xa3, 0x96, 0x17, 0x7a, 0x9c, 0xb4, 0x10, 0xff, 0x61,
    0xf2, 0x00, 0x15, 0xad, 0x00, 0x00, 0x00, 0x00, 0x00, 0x00, 0x00, 0x00, 0x00, 0x00, 0x00, 0x00,
    0x61, 0x62, 0x63,
];

// The store of `abc`: zeros stand behind the chunk, and then an open gate.
pub(crate) fn store_of_abc() -> [u8; 1153] {
    let mut image = [0u8; 1153];
    image[..67].copy_from_slice(&FRONT);
    image[1152] = 0x4f;
    image
}

#[test]
fn imports_one_chunk(rt: HostRuntime) -> Result<(), Fail> {
    let alloc = rt.alloc();
    let ran = import_of(alloc, b"abc", MemoryDisk::new(alloc, &[])?)?;
    assert_eq!(rt; ran.status, 0);
    let line =
        b"ppspp1:ba7816bf8f01cfea414140de5dae2223b00361a396177a9cb410ff61f20015ad:1024:3:2\n";
    assert_eq!(rt; ran.sink.bytes(), line.as_slice());
    assert_eq!(rt; ran.disk.bytes(), store_of_abc().as_slice());
    Ok(())
}

#[test]
fn says_why_a_content_is_none(rt: HostRuntime) -> Result<(), Fail> {
    let alloc = rt.alloc();
    let ran = import_of(alloc, &[], MemoryDisk::new(alloc, &[])?)?;
    assert_eq!(rt; ran.status, 9);
    assert_eq!(rt; ran.sink.bytes(), b"content size: 0 bytes\n".as_slice());
    assert_eq!(rt; ran.disk.bytes(), [0; 8].as_slice());
    Ok(())
}

// 2^20 chunks of 256 bytes are a content, and a byte more is none.
#[test]
fn measures_the_greatest_content(rt: HostRuntime) -> Result<(), Fail> {
    let alloc = rt.alloc();
    for (size, status) in [(268_435_456, 0), (268_435_457, 9)] {
        let mut sink = MemorySink::new(alloc);
        let answer = run(
            alloc,
            &words_of(alloc, &["import", "s", "256"])?,
            [0; 32],
            &mut NullDisk::new(),
            &mut MemoryLink::new(alloc)?,
            &mut ZeroSource::new(size),
            &mut sink,
            &mut Book::empty(alloc),
        );
        assert_eq!(rt; answer, status);
        if status == 9 {
            assert_eq!(rt; sink.bytes(), b"content size: 268435457 bytes\n".as_slice());
        }
    }
    Ok(())
}

pub(crate) const DESCRIPTOR_OF_ABC: &str =
    "ppspp1:ba7816bf8f01cfea414140de5dae2223b00361a396177a9cb410ff61f20015ad:1024:3:2";

fn check_of(alloc: Global, descriptor: &str, image: &[u8]) -> Result<Ran, AllocError> {
    import_over(
        alloc,
        &["check", "s", descriptor],
        MemoryDisk::new(alloc, image)?,
        MemorySink::new(alloc),
        &mut MemorySource::new(&[]),
    )
}

#[test]
fn says_what_a_store_holds(rt: HostRuntime) -> Result<(), Fail> {
    let alloc = rt.alloc();
    let ran = check_of(alloc, DESCRIPTOR_OF_ABC, &store_of_abc())?;
    assert_eq!(rt; ran.status, 0);
    assert_eq!(rt; ran.sink.bytes(), b"held 1 of 1 0-0\n".as_slice());
    assert_eq!(rt; ran.disk.bytes(), store_of_abc().as_slice());
    let ran = check_of(alloc, DESCRIPTOR_OF_ABC, &[])?;
    assert_eq!(rt; ran.status, 0);
    assert_eq!(rt; ran.sink.bytes(), b"held 0 of 1 none\n".as_slice());
    assert_eq!(rt; ran.disk.bytes().len(), 0);
    Ok(())
}

// A swarm that is named without its size, which the store's header tells.
pub(crate) const NAME_OF_ABC: &str =
    "ppspp1:ba7816bf8f01cfea414140de5dae2223b00361a396177a9cb410ff61f20015ad:1024:auto:2";

// Whether a check by that name answers this status and says this line.
fn says_by_name(alloc: Global, image: &[u8], status: u8, line: &[u8]) -> Result<bool, AllocError> {
    let ran = check_of(alloc, NAME_OF_ABC, image)?;
    Ok(ran.status == status && ran.sink.bytes() == line)
}

#[test]
fn takes_the_size_from_the_header(rt: HostRuntime) -> Result<(), Fail> {
    let mut store = store_of_abc();
    assert!(rt; says_by_name(rt.alloc(), &store, 0, b"held 1 of 1 0-0\n")?);
    store[19] = 0;
    assert!(rt; says_by_name(rt.alloc(), &store, 9, b"content size: 0 bytes\n")?);
    Ok(())
}

#[test]
fn takes_no_size_from_an_empty_file(rt: HostRuntime) -> Result<(), Fail> {
    assert!(rt; says_by_name(rt.alloc(), &[], 2, b"not a store: byte 0 is 0, wanted 80\n")?);
    Ok(())
}

// The gates of two chunks of seven are closed.
#[test]
fn says_the_ranges_that_are_held(rt: HostRuntime) -> Result<(), Fail> {
    let alloc = rt.alloc();
    let stored = import_of(alloc, &[7; 7000], MemoryDisk::new(alloc, &[])?)?;
    let mut image = [0; 8776];
    for (byte, was) in image.iter_mut().zip(stored.disk.bytes()) {
        *byte = *was;
    }
    image[64 + 2 * 1089 + 1088] = 0;
    image[64 + 5 * 1089 + 1088] = 0;
    let descriptor =
        "ppspp1:ef7be05f2b9aa01d2c5cd485d52043ff5ff814525fb3f33dbf8da4b03d81befe:1024:7000:2";
    let ran = check_of(alloc, descriptor, &image)?;
    assert_eq!(rt; ran.status, 0);
    assert_eq!(rt; ran.sink.bytes(), b"held 5 of 7 0-1,3-4,6-6\n".as_slice());
    Ok(())
}

// 5, 12, 19 .., with a step more at each 256th.
pub(crate) fn generated() -> [u8; 7000] {
    let mut bytes = [0u8; 7000];
    for (j, byte) in bytes.iter_mut().enumerate() {
        *byte = ((5 + 7 * j + j / 256 + j / 65_536) % 256) as u8;
    }
    bytes
}

pub(crate) const DESCRIPTOR_OF_SEVEN: &str =
    "ppspp1:b42effe6efb1b60e3199b18182c63d9577f6cdfeaaa0acb3399ac8d87b4d8f73:1024:7000:2";

// Seven chunks are made a store, looked at, and written out again.
#[test]
fn gives_a_content_back(rt: HostRuntime) -> Result<(), Fail> {
    let alloc = rt.alloc();
    let content = generated();
    let stored = import_of(alloc, &content, MemoryDisk::new(alloc, &[])?)?;
    assert_eq!(rt; stored.status, 0);
    assert_eq!(rt; stored.disk.bytes().len(), 8776);
    let checked = check_of(alloc, DESCRIPTOR_OF_SEVEN, stored.disk.bytes())?;
    assert_eq!(rt; checked.status, 0);
    assert_eq!(rt; checked.sink.bytes(), b"held 7 of 7 0-6\n".as_slice());
    let exported = import_over(
        alloc,
        &["export", "s", DESCRIPTOR_OF_SEVEN],
        MemoryDisk::new(alloc, stored.disk.bytes())?,
        MemorySink::new(alloc),
        &mut MemorySource::new(&[]),
    )?;
    assert_eq!(rt; exported.status, 0);
    assert_eq!(rt; exported.sink.bytes(), content.as_slice());
    Ok(())
}

pub(crate) const NAME_OF_SEVEN: &str =
    "ppspp1:b42effe6efb1b60e3199b18182c63d9577f6cdfeaaa0acb3399ac8d87b4d8f73:1024:auto:2";

// The store of seven chunks, with this size in its header.
pub(crate) fn seven_saying(alloc: Global, size: u16) -> Result<[u8; 8776], AllocError> {
    let stored = import_of(alloc, &generated(), MemoryDisk::new(alloc, &[])?)?;
    let mut image = [0; 8776];
    for (byte, was) in image.iter_mut().zip(stored.disk.bytes()) {
        *byte = *was;
    }
    [image[18], image[19]] = size.to_be_bytes();
    Ok(image)
}

fn says_six(alloc: Global) -> Result<Ran, AllocError> {
    check_of(alloc, NAME_OF_SEVEN, &seven_saying(alloc, 6000)?)
}

#[test]
fn names_a_node_of_another_size(rt: HostRuntime) -> Result<(), Fail> {
    let ran = says_six(rt.alloc())?;
    assert_eq!(rt; ran.status, 13);
    assert_eq!(rt; ran.sink.bytes(), b"shape: node 0 6\n".as_slice());
    Ok(())
}

// What is written of the store of seven chunks that says this size, by the name of its swarm.
fn export_by_name(alloc: Global, size: u16) -> Result<Ran, AllocError> {
    import_over(
        alloc,
        &["export", "s", NAME_OF_SEVEN],
        MemoryDisk::new(alloc, &seven_saying(alloc, size)?)?,
        MemorySink::new(alloc),
        &mut MemorySource::new(&[]),
    )
}

#[test]
fn gives_a_content_back_by_name(rt: HostRuntime) -> Result<(), Fail> {
    let ran = export_by_name(rt.alloc(), 7000)?;
    assert_eq!(rt; ran.status, 0);
    assert_eq!(rt; ran.sink.bytes(), generated().as_slice());
    Ok(())
}

#[test]
fn gives_nothing_of_another_size(rt: HostRuntime) -> Result<(), Fail> {
    let ran = export_by_name(rt.alloc(), 6000)?;
    assert_eq!(rt; ran.status, 13);
    assert_eq!(rt; ran.sink.bytes(), b"".as_slice());
    Ok(())
}

// The most chunks, on an empty file.
#[test]
fn says_that_nothing_is_held_of_a_million_chunks(rt: HostRuntime) -> Result<(), Fail> {
    let alloc = rt.alloc();
    let descriptor =
        "ppspp1:ba7816bf8f01cfea414140de5dae2223b00361a396177a9cb410ff61f20015ad:256:268435456:2";
    let checked = check_of(alloc, descriptor, &[])?;
    assert_eq!(rt; checked.status, 0);
    assert_eq!(rt;
        checked.sink.bytes(),
        b"held 0 of 1048576 none\n".as_slice()
    );
    let exported = import_over(
        alloc,
        &["export", "s", descriptor],
        MemoryDisk::new(alloc, &[])?,
        MemorySink::new(alloc),
        &mut MemorySource::new(&[]),
    )?;
    assert_eq!(rt; exported.status, 3);
    assert_eq!(rt; exported.sink.bytes().len(), 0);
    assert_eq!(rt; exported.disk.bytes().len(), 0);
    Ok(())
}

#[test]
fn names_the_first_byte_of_another_file(rt: HostRuntime) -> Result<(), Fail> {
    let alloc = rt.alloc();
    let mut image = store_of_abc();
    image[11] = 1;
    let ran = check_of(alloc, DESCRIPTOR_OF_ABC, &image)?;
    assert_eq!(rt; ran.status, 2);
    assert_eq!(rt;
        ran.sink.bytes(),
        b"not a store: byte 11 is 1, wanted 0\n".as_slice()
    );
    Ok(())
}

#[test]
fn refuses_a_disk_that_is_not_empty(rt: HostRuntime) -> Result<(), Fail> {
    let alloc = rt.alloc();
    let mut source = MemorySource::new(b"abc");
    let ran = import_over(
        alloc,
        &["import", "s", "1024"],
        MemoryDisk::new(alloc, &[5])?,
        MemorySink::new(alloc),
        &mut source,
    )?;
    assert_eq!(rt; ran.status, 8);
    assert_eq!(rt; ran.sink.bytes(), b"not empty: 1 bytes\n".as_slice());
    assert_eq!(rt; ran.disk.bytes(), [5].as_slice());
    let mut rest = [0; 4];
    assert_eq!(rt; source.read(&mut rest), Ok(3));
    Ok(())
}

#[test]
fn says_which_device_failed(rt: HostRuntime) -> Result<(), Fail> {
    let alloc = rt.alloc();
    for call in [Call::Attach, Call::Len, Call::Write, Call::Sync] {
        let mut disk = MemoryDisk::new(alloc, &[])?;
        disk.fail_next(call);
        let ran = import_of(alloc, b"abc", disk)?;
        assert_eq!(rt; ran.status, 4, "at {call:?}");
        assert_eq!(rt; ran.sink.bytes(), b"disk fault\n".as_slice(), "at {call:?}");
    }

    let mut source = MemorySource::failing(b"ab");
    let disk = MemoryDisk::new(alloc, &[])?;
    let ran = import_over(
        alloc,
        &["import", "s", "1024"],
        disk,
        MemorySink::new(alloc),
        &mut source,
    )?;
    assert_eq!(rt; ran.status, 6);
    assert_eq!(rt; ran.sink.bytes(), b"source fault\n".as_slice());

    let mut sink = MemorySink::new(alloc);
    sink.fail_next();
    let mut source = MemorySource::new(b"abc");
    let disk = MemoryDisk::new(alloc, &[])?;
    let ran = import_over(alloc, &["import", "s", "1024"], disk, sink, &mut source)?;
    assert_eq!(rt; ran.status, 7);
    assert_eq!(rt; ran.disk.bytes(), store_of_abc().as_slice());
    Ok(())
}

#[test]
fn names_the_first_wrong_word(rt: HostRuntime) -> Result<(), Fail> {
    let alloc = rt.alloc();
    let lines: [(&[&str], &[u8]); 9] = [
        (&[], b"usage: word 0: missing\n"),
        (&["import"], b"usage: word 1: missing\n"),
        (&["import", "", "1024"], b"usage: word 1: store\n"),
        (&["import", "s"], b"usage: word 2: missing\n"),
        (&["import", "s", "1000"], b"usage: word 2: chunk\n"),
        (&["import", "s", "01024"], b"usage: word 2: chunk\n"),
        (&["import", "s", "1024", "x"], b"usage: word 3: extra\n"),
        (&["imports", "s", "1024"], b"usage: word 0: command\n"),
        (&["rehearse"], b"usage: word 1: missing\n"),
    ];
    for (line, want) in lines {
        let ran = import_over(
            alloc,
            line,
            MemoryDisk::new(alloc, &[])?,
            MemorySink::new(alloc),
            &mut MemorySource::new(b"abc"),
        )?;
        assert_eq!(rt; ran.status, 1, "at {line:?}");
        assert_eq!(rt; ran.sink.bytes(), want, "at {line:?}");
        assert_eq!(rt; ran.disk.bytes().len(), 0);
    }
    Ok(())
}

// The root stands at byte 7 of a descriptor, and is 64 digits long.
#[test]
fn names_the_place_of_a_descriptors_fault(rt: HostRuntime) -> Result<(), Fail> {
    let alloc = rt.alloc();
    let lines: [(&str, &[u8]); 4] = [
        (
            "ppspp1:ba78g6bf8f01cfea414140de5dae2223b00361a396177a9cb410ff61f20015ad:1024:3:2",
            b"usage: word 2: descriptor form at 11\n",
        ),
        (
            "ppspp1:ba7816bf8f01cfea414140de5dae2223b00361a396177a9cb410ff61f20015ad:1000:3:2",
            b"usage: word 2: descriptor chunk at 72\n",
        ),
        (
            "ppspp1:ba7816bf8f01cfea414140de5dae2223b00361a396177a9cb410ff61f20015ad:256:0:2",
            b"usage: word 2: descriptor size at 76\n",
        ),
        (
            "ppspp1:ba7816bf8f01cfea414140de5dae2223b00361a396177a9cb410ff61f20015ad:256:268435456:7",
            b"usage: word 2: descriptor method at 86\n",
        ),
    ];
    for (descriptor, want) in lines {
        let ran = check_of(alloc, descriptor, &[])?;
        assert_eq!(rt; ran.status, 1, "at {descriptor}");
        assert_eq!(rt; ran.sink.bytes(), want, "at {descriptor}");
    }
    Ok(())
}

fn upgrade_of(alloc: Global, file: &[u8]) -> Result<Ran, AllocError> {
    import_over(
        alloc,
        &["upgrade", "s", DESCRIPTOR_OF_ABC],
        MemoryDisk::new(alloc, &[])?,
        MemorySink::new(alloc),
        &mut MemorySource::new(file),
    )
}

// In version 1 the store of `abc` has no gate, and ends with the content.
#[test]
fn upgrades_one_chunk(rt: HostRuntime) -> Result<(), Fail> {
    let mut file = FRONT;
    file[7] = b'1';
    let ran = upgrade_of(rt.alloc(), &file)?;
    assert_eq!(rt; ran.status, 0);
    assert_eq!(rt; ran.sink.bytes(), b"held 1 of 1 0-0\n".as_slice());
    assert_eq!(rt; ran.disk.bytes(), store_of_abc().as_slice());
    Ok(())
}

#[test]
fn upgrades_no_new_store(rt: HostRuntime) -> Result<(), Fail> {
    let ran = upgrade_of(rt.alloc(), &FRONT)?;
    assert_eq!(rt; ran.status, 2);
    let line = b"not a store: byte 7 is 50, wanted 49\n";
    assert_eq!(rt; ran.sink.bytes(), line.as_slice());
    assert_eq!(rt; ran.disk.bytes().len(), 0);
    Ok(())
}
