// A peer that fetches, by the words of a command line.
use super::*;
use crate::commands::{DESCRIPTOR_OF_SEVEN, NAME_OF_ABC};

// Of channels whose numbers are drawn from zeros but for a first byte of 1: the first, by OpenSSL's chacha20.
const OTHERS: [u8; 4] = [0x7c, 0x0a, 0xd3, 0xc5];

// A run over a disk and a link that stays quiet.
fn ran_over<D: Disk>(alloc: Global, line: &[&str], disk: &mut D) -> Result<Ran, Fail> {
    ran_with(alloc, line, disk, MemoryLink::new(alloc)?)
}

// A run over a disk and a link.
fn ran_with<D: Disk>(
    alloc: Global,
    line: &[&str],
    disk: &mut D,
    mut link: MemoryLink,
) -> Result<Ran, Fail> {
    let mut sink = MemorySink::new(alloc);
    let mut book = Book::empty(alloc);
    let status = run(
        alloc,
        &words_of(alloc, line)?,
        [0; 32],
        disk,
        &mut link,
        &mut MemorySource::new(&[]),
        &mut sink,
        &mut book,
    );
    Ok(Ran {
        alloc,
        status,
        link,
        sink,
        serves: None,
    })
}

// How many lines the sink has.
fn lines(bytes: &[u8]) -> usize {
    let mut count = 0usize;
    for byte in bytes {
        if *byte == b'\n' {
            count = count.saturating_add(1);
        }
    }
    count
}

// Seven chunks are wanted, and the peer that is dialled stays quiet.
#[test]
fn names_the_first_missing_chunk(rt: HostRuntime) -> Result<(), Fail> {
    let alloc = rt.alloc();
    let line = [
        "fetch",
        "s",
        DESCRIPTOR_OF_SEVEN,
        "0.0.0.0:7000",
        "3",
        "rarest",
        "127.0.0.1:7001",
    ];
    let ran = ran_over(alloc, &line, &mut MemoryDisk::new(alloc, &[])?)?;
    assert_eq!(rt; ran.status, 3);
    assert_eq!(rt; ran.link.sent(), 1);
    let mut peers = 0u32;
    for k in 0..ran.link.marks() {
        if let Mark::Sent { to, .. } = ran.link.mark(k) {
            assert!(rt; to == Address::V4([127, 0, 0, 1], 7001));
            assert_eq!(rt;
                ran.link.mark_bytes(k).get(..5),
                Some([0, 0, 0, 0, 0].as_slice())
            );
            peers = peers.saturating_add(1);
        }
    }
    assert_eq!(rt; peers, 1);
    assert_eq!(rt; lines(ran.sink.bytes()), 24);
    assert!(rt; ran.sink.bytes().starts_with(b"held 0 of 7 none\nturns 3\n"));
    assert!(rt; ran.has_said("incomplete: first missing chunk 0\n")?);

    let line = ["seed", "s", DESCRIPTOR_OF_SEVEN, "0.0.0.0:7000", "3"];
    let ran = ran_over(alloc, &line, &mut MemoryDisk::new(alloc, &[])?)?;
    assert_eq!(rt; ran.status, 0);
    assert_eq!(rt; ran.link.sent(), 0);
    assert_eq!(rt; lines(ran.sink.bytes()), 23);
    Ok(())
}

// All is there, so no turn is taken.
#[test]
fn ends_at_once_where_all_is_there(rt: HostRuntime) -> Result<(), Fail> {
    let alloc = rt.alloc();
    let line = [
        "fetch",
        "s",
        DESCRIPTOR_OF_ABC,
        "0.0.0.0:7000",
        "3",
        "sequential",
        "127.0.0.1:7001",
    ];
    let ran = ran_over(alloc, &line, &mut MemoryDisk::new(alloc, &store_of_abc())?)?;
    assert_eq!(rt; ran.status, 0);
    assert_eq!(rt; ran.link.sent(), 0);
    assert!(rt; ran.sink.bytes().starts_with(b"held 1 of 1 0-0\nturns 0\n"));
    assert_eq!(rt; lines(ran.sink.bytes()), 23);
    Ok(())
}

#[test]
fn names_the_first_wrong_word_of_a_fetch(rt: HostRuntime) -> Result<(), Fail> {
    let alloc = rt.alloc();
    let head = ["fetch", "s", DESCRIPTOR_OF_ABC, "0.0.0.0:7000"];
    let [command, store, described, listen] = head;
    let wrong: [(&[&str], &[u8]); 4] = [
        (
            &[command, store, described, listen, "3", "any", "127.0.0.1:1"],
            b"usage: word 5: order\n",
        ),
        (
            &[
                command,
                store,
                described,
                listen,
                "3",
                "rarest",
                "127.0.0.1",
            ],
            b"usage: word 6: address\n",
        ),
        (
            &[command, store, described, listen, "3", "rarest"],
            b"usage: word 6: missing\n",
        ),
        (
            &[
                command,
                store,
                described,
                listen,
                "0",
                "rarest",
                "127.0.0.1:1",
            ],
            b"usage: word 4: number\n",
        ),
    ];
    for (line, want) in wrong {
        let ran = ran_over(alloc, line, &mut MemoryDisk::new(alloc, &[])?)?;
        assert_eq!(rt; ran.status, 1, "at {line:?}");
        assert_eq!(rt; ran.sink.bytes(), want, "at {line:?}");
    }
    Ok(())
}

// The dialled peer answers to this number, offers chunk 0 and brings it behind its hash.
fn bring(coming: &mut Coming, number: [u8; 4]) -> Result<(), Fail> {
    coming.wait()?;
    coming.add(&[&number, &[0], &THEIRS, &OPTIONS, &HAVE])?;
    coming.add(&[&number, &INTEGRITY, &ROOT, &DATA, &[0; 8], b"abc"])
}

const BY_NAME: [&str; 7] = [
    "fetch",
    "s",
    NAME_OF_ABC,
    "127.0.0.1:7001",
    "9",
    "rarest",
    "127.0.0.1:7000",
];

// The chunk tells the size, and its channel is closed; a peer dials anew, from a number of its own, and is given the chunk again. Of the
// nine turns three are left then.
#[test]
fn learns_the_size_and_fetches(rt: HostRuntime) -> Result<(), Fail> {
    let alloc = rt.alloc();
    let mut coming = Coming::none(alloc)?;
    bring(&mut coming, OURS)?;
    bring(&mut coming, OTHERS)?;
    let mut disk = MemoryDisk::new(alloc, &[])?;
    let ran = ran_with(alloc, &BY_NAME, &mut disk, coming.link)?;
    assert_eq!(rt; ran.status, 0);
    assert!(rt; ran.has_sent(0, &[&[0, 0, 0, 0, 0], &OURS, &OPTIONS])?);
    assert!(rt; ran.has_sent(1, &[&THEIRS, &REQUEST])?);
    assert!(rt; ran.has_closed(2)?);
    assert!(rt; ran.has_sent(3, &[&[0, 0, 0, 0, 0], &OTHERS, &OPTIONS])?);
    assert!(rt;
        ran.sink
            .bytes()
            .starts_with(b"held 1 of 1 0-0\nturns 6\ndatagrams 4\n")
    );
    assert!(rt; ran.has_said("stored 1\n")?);
    Ok(())
}

// The peer that is dialled stays quiet, so there is no size.
#[test]
fn learns_nothing(rt: HostRuntime) -> Result<(), Fail> {
    let alloc = rt.alloc();
    let ran = ran_over(alloc, &BY_NAME, &mut MemoryDisk::new(alloc, &[])?)?;
    assert_eq!(rt; ran.status, 3);
    assert_eq!(rt; ran.link.sent(), 1);
    assert!(rt; ran.sink.bytes().starts_with(b"held 0 of 0 none\nturns 9\n"));
    assert!(rt; ran.has_said("incomplete: first missing chunk 0\n")?);
    assert_eq!(rt; lines(ran.sink.bytes()), 24);
    Ok(())
}

// The store's header tells the size, and all is there.
#[test]
fn fetches_by_the_stores_header(rt: HostRuntime) -> Result<(), Fail> {
    let alloc = rt.alloc();
    let ran = ran_over(
        alloc,
        &BY_NAME,
        &mut MemoryDisk::new(alloc, &store_of_abc())?,
    )?;
    assert_eq!(rt; ran.status, 0);
    assert_eq!(rt; ran.link.sent(), 0);
    assert!(rt; ran.sink.bytes().starts_with(b"held 1 of 1 0-0\nturns 0\n"));
    Ok(())
}
