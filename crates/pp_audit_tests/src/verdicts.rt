// Recordings that were made by hand, and what their audit says. The content is `abc`, one chunk of at most 256 bytes: its digest, that of the
// root, is SHA-256's first example (FIPS 180-4).
use pp_recording::read;
use pp_verdict::{Answer, Part, audit};
use std::alloc::Global;
use std::test::Fail;

// The first two lines.
const FRONT: &str =
    "ppspp-recording 1\nppspp1:ba7816bf8f01cfea414140de5dae2223b00361a396177a9cb410ff61f20015ad:256:3:2\n";

// The book knows the root.
const ROOT: &str = "node 0 0 ba7816bf8f01cfea414140de5dae2223b00361a396177a9cb410ff61f20015ad";

// The other peer opens a channel, by a handshake for channel 0 from 0a0b0c0d.
const HELLO: &str =
    "received 0 10.0.0.2:7000 00000000000a0b0c0d00010101020020ba7816bf8f01cfea414140de5dae2223b00361a396177a9cb410ff61f20015ad0301040206020802fef80900000100ff";

// It asks for the chunk behind its handshake.
const HELLO_ASKING: &str =
    "received 0 10.0.0.2:7000 00000000000a0b0c0d00010101020020ba7816bf8f01cfea414140de5dae2223b00361a396177a9cb410ff61f20015ad0301040206020802fef80900000100ff080000000000000000";

// This peer replies, from 01020304; or from a greater number.
const REPLY: &str =
    "sent 0 10.0.0.2:7000 0a0b0c0d000102030400010101020020ba7816bf8f01cfea414140de5dae2223b00361a396177a9cb410ff61f20015ad0301040206020802fef80900000100ff";

const SECOND_REPLY: &str =
    "sent 0 10.0.0.2:7000 0a0b0c0d000506070800010101020020ba7816bf8f01cfea414140de5dae2223b00361a396177a9cb410ff61f20015ad0301040206020802fef80900000100ff";

// The chunk is asked for on the first channel; the request is withdrawn there, or on the second one.
const ASK: &str = "received 0 10.0.0.2:7000 01020304080000000000000000";

const CANCEL: &str = "received 0 10.0.0.2:7000 01020304090000000000000000";

const SECOND_CANCEL: &str = "received 0 10.0.0.2:7000 05060708090000000000000000";

// The chunk behind the root's digest; with another last byte; behind another digest; and alone.
const DATA: &str =
    "sent 0 10.0.0.2:7000 0a0b0c0d040000000000000000ba7816bf8f01cfea414140de5dae2223b00361a396177a9cb410ff61f20015ad0100000000000000000000000000000000616263";

const CHANGED: &str =
    "sent 0 10.0.0.2:7000 0a0b0c0d040000000000000000ba7816bf8f01cfea414140de5dae2223b00361a396177a9cb410ff61f20015ad0100000000000000000000000000000000616264";

const OTHER_DIGEST: &str =
    "sent 0 10.0.0.2:7000 0a0b0c0d040000000000000000ca7816bf8f01cfea414140de5dae2223b00361a396177a9cb410ff61f20015ad0100000000000000000000000000000000616263";

const ALONE: &str = "sent 0 10.0.0.2:7000 0a0b0c0d0100000000000000000000000000000000616263";

// A chunk of 256 bytes, and a HAVE behind it.
const BEFORE_HAVE: &str =
    "sent 0 10.0.0.2:7000 0a0b0c0d010000000000000000000000000000000000000000000000000000000000000000000000000000000000000000000000000000000000000000000000000000000000000000000000000000000000000000000000000000000000000000000000000000000000000000000000000000000000000000000000000000000000000000000000000000000000000000000000000000000000000000000000000000000000000000000000000000000000000000000000000000000000000000000000000000000000000000000000000000000000000000000000000000000000000000000000000000000000000000000000000000000000000000000000000000000000000000000000000000000000000000030000000000000000";

// The audit of a recording with these lines between the first two and the last.
fn answer_to(alloc: Global, lines: &[&str]) -> Result<Answer, Fail> {
    let mut text = Vec::new(alloc);
    text.extend_from_slice(FRONT.as_bytes())?;
    for line in lines {
        text.extend_from_slice(line.as_bytes())?;
        text.push(b'\n')?;
    }
    text.extend_from_slice(b"end\n")?;
    let recording = read(alloc, text.as_slice()).ok().ok_or("no recording")?;
    Ok(audit(alloc, &recording)?)
}

#[test]
fn what_was_served_is_answered_yes(rt: HostRuntime) -> Result<(), Fail> {
    for (lines, records, chunks) in [
        ([ROOT].as_slice(), 0, 0),
        ([ROOT, HELLO, REPLY, ASK, DATA, "quiet 1"].as_slice(), 5, 1),
        ([ROOT, HELLO, REPLY, ASK, DATA, ASK, DATA].as_slice(), 6, 2),
        // on the first of two channels
        ([ROOT, HELLO, REPLY, ASK, HELLO, DATA].as_slice(), 5, 1),
    ] {
        let answer = answer_to(rt.alloc(), lines)?;
        assert_eq!(rt; answer, Answer::Yes { records, chunks });
    }
    Ok(())
}

#[test]
fn the_first_part_that_fails_is_named(rt: HostRuntime) -> Result<(), Fail> {
    for (lines, at, part) in [
        (
            [ROOT, HELLO, REPLY, ASK, BEFORE_HAVE].as_slice(),
            3,
            Part::Tail,
        ),
        (
            [ROOT, HELLO, REPLY, ASK, CHANGED].as_slice(),
            3,
            Part::Backed,
        ),
        // the book doesn't know the root
        ([HELLO, REPLY, ASK, DATA].as_slice(), 3, Part::Backed),
        ([ROOT, HELLO, ASK, DATA].as_slice(), 2, Part::Life),
        ([ROOT, HELLO, REPLY, DATA].as_slice(), 2, Part::Asked),
        (
            [ROOT, HELLO, REPLY, ASK, CANCEL, DATA].as_slice(),
            4,
            Part::Asked,
        ),
        // no datagram came to this peer's number
        (
            [ROOT, HELLO_ASKING, REPLY, DATA].as_slice(),
            2,
            Part::Unchoked,
        ),
        ([ROOT, HELLO, REPLY, ASK, ALONE].as_slice(), 3, Part::Hashes),
        (
            [ROOT, HELLO, REPLY, ASK, OTHER_DIGEST].as_slice(),
            3,
            Part::Hashes,
        ),
        // a new window lets two chunks fly
        (
            [ROOT, HELLO, REPLY, ASK, DATA, ASK, DATA, ASK, DATA].as_slice(),
            7,
            Part::Window,
        ),
        // a later record fails too
        (
            [ROOT, HELLO, REPLY, DATA, ASK, CHANGED].as_slice(),
            2,
            Part::Asked,
        ),
    ] {
        let answer = answer_to(rt.alloc(), lines)?;
        assert_eq!(rt; answer, Answer::No { at, part });
    }
    Ok(())
}

#[test]
fn the_latest_channel_names_the_part(rt: HostRuntime) -> Result<(), Fail> {
    for (lines, at, part) in [
        // the greater number is asked and not heard from, the smaller one heard from and not asked
        (
            [ROOT, HELLO_ASKING, REPLY, SECOND_REPLY, CANCEL, DATA].as_slice(),
            4,
            Part::Unchoked,
        ),
        (
            [ROOT, HELLO_ASKING, SECOND_REPLY, REPLY, CANCEL, DATA].as_slice(),
            4,
            Part::Unchoked,
        ),
        (
            [ROOT, HELLO_ASKING, REPLY, SECOND_REPLY, SECOND_CANCEL, DATA].as_slice(),
            4,
            Part::Asked,
        ),
        // the reply and a handshake that comes behind it open a channel of their own
        (
            [ROOT, HELLO_ASKING, REPLY, HELLO, DATA].as_slice(),
            3,
            Part::Asked,
        ),
    ] {
        let answer = answer_to(rt.alloc(), lines)?;
        assert_eq!(rt; answer, Answer::No { at, part });
    }
    Ok(())
}
