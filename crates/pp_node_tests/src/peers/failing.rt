// One call of a device fails while a store of seven chunks is seeded, of which one is lacked. It comes on a channel that is opened last.
use super::trees::{BEFORE, BEHIND, SEVEN, named, store_on};
use super::*;
use crate::commands::{DESCRIPTOR_OF_SEVEN, generated};
use pp_outside::Call;

const OTHER: Address = Address::V4([127, 0, 0, 1], 7002);

// The channel that the other peer is given: the second word of the key stream of zeros (RFC 8439, appendix A.1).
const SECOND: [u8; 4] = [0x90, 0x3d, 0xf1, 0xa0];

// Where the gate of chunk 6 stands: behind six slots of 1,089 bytes and its own 1,088.
const GATE: usize = 64 + 6 * 1089 + 1088;

// A call that fails after so many of its kind.
#[derive(Clone, Copy)]
struct Failure {
    call: Call,
    passed: u32,
}

// A store of all chunks but the last.
fn disk_of_six(alloc: Global) -> Result<MemoryDisk, Fail> {
    let mut whole = MemoryDisk::new(alloc, &[])?;
    let _ = store_on(&mut whole)?;
    let mut image = joined(alloc, &[whole.bytes()])?;
    let Some(gate) = image.get_mut(GATE) else {
        return Err("too short".into());
    };
    *gate = 0;
    Ok(MemoryDisk::new(alloc, &image)?)
}

// One peer opens a channel and asks for three chunks; another opens one then, and brings the chunk that is lacked.
fn coming(alloc: Global) -> Result<Coming, Fail> {
    let content = generated();
    let mut coming = Coming::none(alloc)?;
    let greeting: [&[u8]; 4] = [&GREETING, &BEFORE, &SEVEN, &BEHIND];
    coming.add(&greeting)?;
    coming.add(&[&OURS, &named(8, 0, 0)])?;
    coming.add(&[&OURS, &named(2, 0, 0), &[0; 8], &named(8, 1, 1)])?;
    coming.add(&[&OURS, &named(2, 1, 1), &[0; 8], &named(8, 2, 2)])?;
    coming.add_from(OTHER, &greeting)?;
    coming.add_from(
        OTHER,
        &[&SECOND, &named(1, 6, 6), &[0; 8], &content[6144..]],
    )?;
    Ok(coming)
}

// The run over both, with turns to spare.
fn ran(alloc: Global, failure: Option<Failure>) -> Result<Ran, Fail> {
    let mut disk = disk_of_six(alloc)?;
    let Coming { mut link, .. } = coming(alloc)?;
    if let Some(Failure { call, passed }) = failure {
        disk.fail_after(call, passed);
        link.fail_after(call, passed);
    }
    let mut sink = MemorySink::new(alloc);
    let line = ["seed", "s", DESCRIPTOR_OF_SEVEN, "127.0.0.1:7001", "12"];
    let status = run(
        alloc,
        &words_of(alloc, &line)?,
        [0; 32],
        &mut disk,
        &mut link,
        &mut MemorySource::new(&[]),
        &mut sink,
        &mut Book::empty(alloc),
    );
    Ok(Ran {
        alloc,
        status,
        link,
        sink,
        serves: None,
    })
}

// Whether a datagram with this part went to the other peer.
fn has_told(link: &MemoryLink, part: &[u8]) -> bool {
    for n in 0..link.marks() {
        if let Mark::Sent { to, .. } = link.mark(n)
            && to == OTHER
            && has_part(link.mark_bytes(n), part)
        {
            return true;
        }
    }
    false
}

// Whether the chunk that came last was acknowledged where it came, and told there.
fn is_announced(ran: &Ran) -> bool {
    has_told(&ran.link, &named(2, 6, 6)) && has_told(&ran.link, &named(3, 6, 6))
}

fn failing(alloc: Global, call: Call, passed: u32) -> Result<Ran, Fail> {
    ran(alloc, Some(Failure { call, passed }))
}

#[test]
fn takes_a_chunk_on_a_later_channel(rt: HostRuntime) -> Result<(), Fail> {
    let ran = ran(rt.alloc(), None)?;
    assert_eq!(rt; ran.status, 0);
    assert!(rt; ran.sink.bytes().starts_with(b"held 7 of 7 0-6\n"));
    assert!(rt; is_announced(&ran));
    Ok(())
}

// The calls of an opening, each at its first; of reads and syncs the third too, the one in the opening and the other as the chunk is
// committed.
#[test]
fn ends_where_the_opening_fails(rt: HostRuntime) -> Result<(), Fail> {
    for call in [Call::Attach, Call::Len, Call::Read, Call::Sync] {
        let ran = failing(rt.alloc(), call, 0)?;
        assert_eq!(rt; ran.status, 4, "{call:?}");
        assert_eq!(rt; ran.sink.bytes(), b"disk fault\n".as_slice(), "{call:?}");
        assert_eq!(rt; ran.link.marks(), 0, "{call:?}");
    }
    let ran = failing(rt.alloc(), Call::Bind, 0)?;
    assert_eq!(rt; ran.status, 5);
    assert_eq!(rt; ran.sink.bytes(), b"link fault\n".as_slice());
    assert_eq!(rt; ran.link.marks(), 0);
    Ok(())
}

// The chunk isn't announced then. It is written, and later its gate, and no more is: the pairs of its path are there.
#[test]
fn ends_where_a_write_or_a_later_sync_fails(rt: HostRuntime) -> Result<(), Fail> {
    for (call, passed) in [(Call::Write, 0), (Call::Write, 1), (Call::Sync, 2)] {
        let ran = failing(rt.alloc(), call, passed)?;
        assert_eq!(rt; ran.status, 4, "{call:?} {passed}");
        assert_eq!(rt;
            ran.sink.bytes(),
            b"disk fault\n".as_slice(),
            "{call:?} {passed}"
        );
        assert!(rt; !is_announced(&ran), "{call:?} {passed}");
    }
    Ok(())
}

// A wait or a sending that fails is counted, and the run goes on.
#[test]
fn goes_on_where_the_link_fails(rt: HostRuntime) -> Result<(), Fail> {
    for (call, passed, line) in [
        (Call::Next, 0, "receive_faults 1\n"),
        (Call::Next, 2, "receive_faults 1\n"),
        (Call::Send, 0, "send_faults 1\n"),
        (Call::Send, 2, "send_faults 1\n"),
    ] {
        let ran = failing(rt.alloc(), call, passed)?;
        assert_eq!(rt; ran.status, 0, "{call:?} {passed}");
        assert!(rt; ran.has_said(line)?, "{call:?} {passed}");
        assert!(rt; is_announced(&ran), "{call:?} {passed}");
    }
    Ok(())
}

// Each reading fails in turn: the run ends in the opening, and behind it the reading is counted and the run goes on. The numbers of the
// runs of both kinds, of which the second are the readings of three chunks.
fn reading(rt: &impl Abort, alloc: Global) -> Result<(u32, u32), Fail> {
    let mut ended = 0u32;
    let mut gone_on = 0u32;
    for passed in 0..40 {
        let ran = failing(alloc, Call::Read, passed)?;
        if ran.status == 4 {
            assert_eq!(rt; ran.link.marks(), 0, "{passed}");
            ended = ended.saturating_add(1);
        } else {
            assert_eq!(rt; ran.status, 0, "{passed}");
            assert!(rt; is_announced(&ran), "{passed}");
            if ran.has_said("read_faults 1\n")? {
                gone_on = gone_on.saturating_add(1);
            }
        }
    }
    Ok((ended, gone_on))
}

#[test]
fn goes_on_where_a_later_reading_fails(rt: HostRuntime) -> Result<(), Fail> {
    let (ended, gone_on) = reading(&rt, rt.alloc())?;
    assert!(rt; ended >= 3);
    assert_eq!(rt; gone_on, 3);
    Ok(())
}
