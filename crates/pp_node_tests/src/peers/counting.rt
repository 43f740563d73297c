// What is counted, as the report prints it.
use super::*;
use pp_outside::LyingDisk;

// What a run counts.
#[derive(Clone, Copy)]
struct Counted {
    turns: u64,
    datagrams: u64,
    sent: u64,
    keepalives: u64,
    short: u64,
    refused_handshakes: u64,
    damaged: u64,
}

const NOTHING: Counted = Counted {
    turns: 0,
    datagrams: 0,
    sent: 0,
    keepalives: 0,
    short: 0,
    refused_handshakes: 0,
    damaged: 0,
};

// The report of a run that holds the chunk, with these counts and no others.
fn report(alloc: Global, counted: Counted) -> Result<String, Fail> {
    let Counted {
        turns,
        datagrams,
        sent,
        keepalives,
        short,
        refused_handshakes,
        damaged,
    } = counted;
    let text = format!(in alloc;
        "held 1 of 1 0-0\nturns {turns}\ndatagrams {datagrams}\nsent {sent}\nstored 0\nkeepalives {keepalives}\n\
short {short}\nstranger 0\nrefused_handshakes {refused_handshakes}\nno_seat 0\ncut 0\noutside 0\nnot_a_node 0\nfull 0\n\
choked 0\nunheld 0\nmissing 0\nwrong 0\nrepeats 0\ndamaged {damaged}\nread_faults 0\nsend_faults 0\nreceive_faults 0\n"
    )?;
    Ok(text)
}

#[test]
fn reports_what_was_served(rt: HostRuntime) -> Result<(), Fail> {
    let alloc = rt.alloc();
    let mut coming = Coming::greeting(alloc)?;
    coming.add(&[&OURS, &REQUEST])?;
    let ran = coming.seed(&mut MemoryDisk::new(alloc, &store_of_abc())?)?;
    let want = report(
        alloc,
        Counted {
            turns: 3,
            datagrams: 2,
            sent: 3,
            ..NOTHING
        },
    )?;
    assert_eq!(rt; ran.status, 0);
    assert_eq!(rt; ran.sink.bytes(), want.as_bytes());
    assert_eq!(rt; ran.serves, Some(true));
    Ok(())
}

// A run of the greeting and one datagram behind it, which isn't answered. A proven channel is closed.
fn drops(rt: &impl Abort, alloc: Global, datagram: &[u8], want: Counted) -> Result<(), Fail> {
    let mut coming = Coming::greeting(alloc)?;
    coming.add(&[datagram])?;
    let ran = coming.seed(&mut MemoryDisk::new(alloc, &store_of_abc())?)?;
    assert_eq!(rt; ran.status, 0);
    assert_eq!(rt; ran.link.sent() as u64, want.sent);
    assert!(rt; ran.has_replied(0)?);
    assert_eq!(rt; ran.sink.bytes(), report(alloc, want)?.as_bytes());
    assert_eq!(rt; ran.serves, Some(true));
    Ok(())
}

#[test]
fn counts_short_datagrams(rt: HostRuntime) -> Result<(), Fail> {
    let alloc = rt.alloc();
    drops(
        &rt,
        alloc,
        &OURS,
        Counted {
            turns: 3,
            datagrams: 2,
            sent: 2,
            keepalives: 1,
            ..NOTHING
        },
    )?;
    drops(
        &rt,
        alloc,
        &[1, 2, 3],
        Counted {
            turns: 3,
            datagrams: 2,
            sent: 1,
            short: 1,
            ..NOTHING
        },
    )?;

    // with nothing before it
    let mut coming = Coming::none(alloc)?;
    coming.add(&[&[1, 2, 3]])?;
    let ran = coming.seed(&mut MemoryDisk::new(alloc, &store_of_abc())?)?;
    let want = report(
        alloc,
        Counted {
            turns: 2,
            datagrams: 1,
            short: 1,
            ..NOTHING
        },
    )?;
    assert_eq!(rt; ran.status, 0);
    assert_eq!(rt; ran.link.sent(), 0);
    assert_eq!(rt; ran.sink.bytes(), want.as_bytes());
    assert_eq!(rt; ran.serves, Some(true));
    Ok(())
}

// The options of the handshake from the last to the first.
#[test]
fn takes_options_in_any_order(rt: HostRuntime) -> Result<(), Fail> {
    let alloc = rt.alloc();
    let mut coming = Coming::none(alloc)?;
    coming.add(&[
        &GREETING,
        &[9, 0, 0, 4, 0],
        &[8, 2, 0xfe, 0xf8],
        &[6, 2],
        &[4, 2],
        &[3, 1],
        &[2, 0, 0x20],
        &ROOT,
        &[1, 1],
        &[0, 1],
        &[0xff],
    ])?;
    coming.add(&[&OURS, &REQUEST])?;
    let ran = coming.seed(&mut MemoryDisk::new(alloc, &store_of_abc())?)?;
    assert_eq!(rt; ran.status, 0);
    assert_eq!(rt; ran.link.sent(), 3);
    assert!(rt; ran.has_replied(0)?);
    assert!(rt; ran.has_served(1, BEGIN + 1)?);
    assert_eq!(rt; ran.serves, Some(true));
    Ok(())
}

// Another hash function, and the root twice.
#[test]
fn refuses_other_options(rt: HostRuntime) -> Result<(), Fail> {
    let alloc = rt.alloc();
    let root: [&[u8]; 2] = [&[2, 0, 0x20], &ROOT];
    for (hash, again) in [(0, false), (2, true)] {
        let root = joined(alloc, &root)?;
        let repeated: &[u8] = if again { &root } else { &[] };
        let mut coming = Coming::none(alloc)?;
        coming.add(&[
            &GREETING,
            &[0, 1, 1, 1],
            &root,
            &[3, 1, 4, hash, 6, 2, 8, 2, 0xfe, 0xf8, 9, 0, 0, 4, 0],
            repeated,
            &[0xff],
        ])?;
        let ran = coming.seed(&mut MemoryDisk::new(alloc, &store_of_abc())?)?;
        let want = report(
            alloc,
            Counted {
                turns: 2,
                datagrams: 1,
                refused_handshakes: 1,
                ..NOTHING
            },
        )?;
        assert_eq!(rt; ran.status, 0);
        assert_eq!(rt; ran.link.sent(), 0, "hash {hash}");
        assert_eq!(rt; ran.sink.bytes(), want.as_bytes(), "hash {hash}");
        assert_eq!(rt; ran.serves, Some(true));
    }
    Ok(())
}

// The scan reads no chunk, and the store has another byte.
#[test]
fn sends_no_forged_byte(rt: HostRuntime) -> Result<(), Fail> {
    let alloc = rt.alloc();
    for place in 64..67 {
        let mut disk = LyingDisk::new(MemoryDisk::new(alloc, &store_of_abc())?, place, 1, 0);
        let mut coming = Coming::greeting(alloc)?;
        coming.add(&[&OURS, &REQUEST])?;
        let ran = coming.seed(&mut disk)?;
        let want = report(
            alloc,
            Counted {
                turns: 3,
                datagrams: 2,
                sent: 2,
                damaged: 1,
                ..NOTHING
            },
        )?;
        assert_eq!(rt; ran.status, 0);
        assert_eq!(rt; ran.link.sent(), 2, "place {place}");
        assert!(rt; ran.has_replied(0)?);
        assert_eq!(rt; ran.sink.bytes(), want.as_bytes(), "place {place}");
        assert_eq!(rt; ran.serves, Some(true));
    }
    Ok(())
}
