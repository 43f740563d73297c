// Messages that are cut at each of their bytes. The number of a channel alone is tested elsewhere.
use super::*;

// A time, or a delay.
const EIGHT: [u8; 8] = [0, 0, 0, 0, 0, 0, 0, 8];

// The message is cut at each byte but its first. The peer goes on, and serves the chunk behind each cut.
fn serves_behind_cuts(
    rt: &impl Abort,
    alloc: Global,
    parts: &[&[u8]],
    cut: u64,
) -> Result<(), Fail> {
    let message = joined(alloc, parts)?;
    let mut coming = Coming::greeting(alloc)?;
    for end in 1..message.len() {
        coming.add(&[&OURS, front(&message, end)])?;
        coming.add(&[&OURS, &ACK, &EIGHT, &REQUEST])?;
    }
    let ran = coming.seed(&mut MemoryDisk::new(alloc, &store_of_abc())?)?;
    assert_eq!(rt; ran.status, 0, "{parts:?}");
    assert!(rt; ran.has_replied(0)?);
    let mut time = BEGIN;
    let mut n = 1usize;
    for end in 1..message.len() {
        time = time.saturating_add(2);
        if end as u64 > cut {
            // a chunk that came again is acknowledged
            n = n.saturating_add(1);
        }
        assert!(rt; ran.has_served_again(n, time)?, "cut at {end}: {parts:?}");
        n = n.saturating_add(1);
    }
    assert!(rt; ran.has_closed(n)?, "{parts:?}");
    assert_eq!(rt; ran.link.sent(), n.saturating_add(1), "{parts:?}");
    let line = format!(in alloc; "cut {cut}\n")?;
    assert!(rt; ran.has_said(&line)?, "{parts:?}");
    assert_eq!(rt; ran.serves, Some(true), "{parts:?}");
    Ok(())
}

#[test]
fn serves_behind_cut_messages(rt: HostRuntime) -> Result<(), Fail> {
    let alloc = rt.alloc();
    serves_behind_cuts(&rt, alloc, &[&ACK, &EIGHT], 16)?;
    serves_behind_cuts(&rt, alloc, &[&HAVE], 8)?;
    serves_behind_cuts(&rt, alloc, &[&INTEGRITY, &ROOT], 40)?;
    serves_behind_cuts(&rt, alloc, &[&REQUEST], 8)?;
    // CANCEL, and two addresses of peers
    serves_behind_cuts(&rt, alloc, &[&[9, 0, 0, 0, 0, 0, 0, 0, 0]], 8)?;
    serves_behind_cuts(&rt, alloc, &[&[5, 127, 0, 0, 1, 0x1b, 0x59]], 6)?;
    serves_behind_cuts(
        &rt,
        alloc,
        &[&[
            12, 0, 0, 0, 0, 0, 0, 0, 0, 0, 0, 0, 0, 0, 0, 0, 1, 0x1b, 0x59,
        ]],
        18,
    )?;
    // A DATA of fewer bytes than a chunk is whole.
    serves_behind_cuts(&rt, alloc, &[&DATA, &EIGHT, b"abc"], 17)
}

#[test]
fn serves_behind_cut_handshakes(rt: HostRuntime) -> Result<(), Fail> {
    let alloc = rt.alloc();
    serves_behind_cuts(&rt, alloc, &[&[0, 0x0a, 0x0b, 0x0c, 0x0d], &OPTIONS], 59)?;

    // those to channel 0, before the whole one
    let greeting = joined(alloc, &[&GREETING, &OPTIONS])?;
    let mut coming = Coming::none(alloc)?;
    for end in 0..greeting.len() {
        coming.add(&[front(&greeting, end)])?;
    }
    coming.add(&[&greeting])?;
    coming.add(&[&OURS, &REQUEST])?;
    let ran = coming.seed(&mut MemoryDisk::new(alloc, &store_of_abc())?)?;
    assert_eq!(rt; ran.status, 0);
    assert_eq!(rt; ran.link.sent(), 3);
    assert!(rt; ran.has_replied(0)?);
    assert!(rt; ran.has_served(1, BEGIN + 65)?);
    for line in [
        "short 4\n",
        "stranger 5\n",
        "refused_handshakes 55\n",
        "cut 0\n",
    ] {
        assert!(rt; ran.has_said(line)?, "{line}");
    }
    assert_eq!(rt; ran.serves, Some(true));
    Ok(())
}
