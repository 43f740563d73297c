//! Lives of channels, by the datagrams that come. With a seed of zeros the first channels have the numbers ade0b876 and 903df1a0, by
//! the first test vector of ChaCha20 (RFC 8439, appendix A.1).
use crate::channels::{OPTIONS, TURNED, swarm};
use pp_lives::{Arrival, Far, Lives};
use pp_outside::Address;
use std::alloc::Global;
use std::test::Fail;

const OURS: u32 = 0xade0_b876;

const NEXT: u32 = 0x903d_f1a0;

const THEIRS: u32 = 0x0a0b_0c0d;

const PEER: Address = Address::V4([10, 0, 0, 2], 7000);

const OTHER: Address = Address::V4([10, 0, 0, 3], 7000);

// A handshake of 64 bytes, for a channel and from one.
fn handshake(channel: u32, source: u32, options: &[u8; 55]) -> [u8; 64] {
    let mut bytes = [0; 64];
    bytes[..4].copy_from_slice(&channel.to_be_bytes());
    bytes[5..9].copy_from_slice(&source.to_be_bytes());
    bytes[9..].copy_from_slice(options);
    bytes
}

fn numbered(number: u8) -> Address {
    Address::V4([10, 0, 1, number], 7000)
}

#[test]
fn a_handshake_that_fits_opens_a_channel(rt: HostRuntime) -> Result<(), Fail> {
    let swarm = swarm()?;
    for options in [OPTIONS, TURNED] {
        let mut lives = Lives::new(rt.alloc(), [0; 32])?;
        let bytes = handshake(0, THEIRS, &options);
        assert_eq!(rt;
            lives.arrive(&swarm, &PEER, &bytes, 5),
            Arrival::Opened { seat: 0, next: 64 }
        );
        assert_eq!(rt;
            lives.far(0),
            Some(Far {
                address: PEER,
                number: THEIRS,
                proven: false,
                begun: false,
            })
        );
        assert_eq!(rt; lives.used(), 1);
        assert!(rt; lives.has_address(&PEER));
    }
    Ok(())
}

// At each place the options have another value: version, least version, root, integrity, hash, addressing, chunk size.
#[test]
fn one_that_differs_opens_none(rt: HostRuntime) -> Result<(), Fail> {
    let swarm = swarm()?;
    let mut lives = Lives::new(rt.alloc(), [0; 32])?;
    for (at, byte) in [(1, 0), (3, 2), (7, 9), (40, 0), (42, 0), (44, 3), (52, 8)] {
        let mut options = OPTIONS;
        options[at] = byte;
        let bytes = handshake(0, THEIRS, &options);
        assert_eq!(rt;
            lives.arrive(&swarm, &PEER, &bytes, 5),
            Arrival::Unwelcome,
            "{at}"
        );
    }
    let closing = handshake(0, 0, &OPTIONS);
    let whole = handshake(0, THEIRS, &OPTIONS);
    let rows: [(&[u8], Arrival); 5] = [
        (&closing, Arrival::Unwelcome),
        (&[0, 0, 0, 0, 10], Arrival::NoGreeting),
        (&[0, 0, 0, 0], Arrival::NoGreeting),
        (&whole[..30], Arrival::Unwelcome),
        (&whole[..3], Arrival::Short),
    ];
    for (bytes, want) in rows {
        assert_eq!(rt; lives.arrive(&swarm, &PEER, bytes, 5), want);
    }
    assert_eq!(rt; lives.used(), 0);
    Ok(())
}

// A stranger doesn't prove the channel, nor does its own peer with another number.
#[test]
fn the_same_again_opens_no_second_seat(rt: HostRuntime) -> Result<(), Fail> {
    let swarm = swarm()?;
    let mut lives = Lives::new(rt.alloc(), [0; 32])?;
    let bytes = handshake(0, THEIRS, &OPTIONS);
    let opened = lives.arrive(&swarm, &PEER, &bytes, 5);
    assert_eq!(rt; opened, Arrival::Opened { seat: 0, next: 64 });
    if lives.far(0).is_some() {
        assert!(rt; lives.handshake_due(0, 5));
        lives.sent(0, true, 6);
    }
    let (ours, next) = (OURS.to_be_bytes(), NEXT.to_be_bytes());
    let rows: [(Address, &[u8], Arrival); 5] = [
        (PEER, &bytes, Arrival::Again { seat: 0 }),
        (OTHER, &ours, Arrival::NoChannel),
        (PEER, &next, Arrival::NoChannel),
        (PEER, &ours, Arrival::Heard { seat: 0 }),
        (PEER, &bytes, Arrival::Late { seat: 0 }),
    ];
    for (from, bytes, want) in rows {
        assert_eq!(rt; lives.arrive(&swarm, &from, bytes, 7), want);
    }
    let far = Far {
        address: PEER,
        number: THEIRS,
        proven: true,
        begun: true,
    };
    assert_eq!(rt; (lives.far(0), lives.used()), (Some(far), 1));
    Ok(())
}

#[test]
fn there_are_64_seats(rt: HostRuntime) -> Result<(), Fail> {
    let swarm = swarm()?;
    let mut lives = Lives::new(rt.alloc(), [0; 32])?;
    let bytes = handshake(0, THEIRS, &OPTIONS);
    for seat in 0..64u8 {
        assert_eq!(rt;
            lives.arrive(&swarm, &numbered(seat), &bytes, 5),
            Arrival::Opened { seat, next: 64 }
        );
    }
    assert_eq!(rt;
        lives.arrive(&swarm, &numbered(64), &bytes, 5),
        Arrival::Unseated
    );
    assert_eq!(rt; lives.dial(&PEER, 5), None);
    assert_eq!(rt; lives.used(), 64);
    Ok(())
}

// A peer that dialled, and sent its first handshake.
fn dialled(alloc: Global, now: u64) -> Result<Lives, Fail> {
    let mut lives = Lives::new(alloc, [0; 32])?;
    if let Some(seat) = lives.dial(&PEER, now) {
        lives.sent(seat, true, now);
    }
    Ok(lives)
}

// A CHOKE in front of the reply has it not read.
#[test]
fn a_dial_waits_for_its_reply(rt: HostRuntime) -> Result<(), Fail> {
    let swarm = swarm()?;
    let mut lives = dialled(rt.alloc(), 5)?;
    let reply = handshake(OURS, THEIRS, &OPTIONS);
    let mut behind = [0; 65];
    behind[..4].copy_from_slice(&reply[..4]);
    behind[4] = 10;
    behind[5..].copy_from_slice(&reply[4..]);
    let rows: [(Address, &[u8], Arrival); 4] = [
        (
            PEER,
            &[0xad, 0xe0, 0xb8, 0x76, 10],
            Arrival::NoReply { seat: 0 },
        ),
        (PEER, &reply[..20], Arrival::Cut { seat: 0 }),
        (OTHER, &reply, Arrival::NoChannel),
        (PEER, &behind, Arrival::NoReply { seat: 0 }),
    ];
    for (from, bytes, want) in rows {
        assert_eq!(rt; lives.far(0), None);
        assert_eq!(rt; lives.arrive(&swarm, &from, bytes, 6), want);
    }
    let replied = lives.arrive(&swarm, &PEER, &reply, 7);
    assert_eq!(rt; replied, Arrival::Replied { seat: 0 });
    let far = Far {
        address: PEER,
        number: THEIRS,
        proven: true,
        begun: true,
    };
    assert_eq!(rt; lives.far(0), Some(far));
    Ok(())
}

#[test]
fn a_reply_that_differs_or_closes_drops_the_dial(rt: HostRuntime) -> Result<(), Fail> {
    let swarm = swarm()?;
    let mut options = OPTIONS;
    options[42] = 0;
    for (source, options, want) in [
        (THEIRS, options, Arrival::Differs { seat: 0 }),
        (0, OPTIONS, Arrival::Given { seat: 0 }),
    ] {
        let mut lives = dialled(rt.alloc(), 5)?;
        let reply = handshake(OURS, source, &options);
        assert_eq!(rt; lives.arrive(&swarm, &PEER, &reply, 6), want);
        assert_eq!(rt; lives.used(), 0);
        // No channel has the number now.
        assert_eq!(rt; lives.arrive(&swarm, &PEER, &reply, 7), Arrival::NoChannel);
    }
    Ok(())
}

// While the dial waits, its peer opens a channel too. With the same number that channel is there, or was dropped.
#[test]
fn a_number_that_was_used_gives_up_the_dial(rt: HostRuntime) -> Result<(), Fail> {
    let swarm = swarm()?;
    for (is_dropped, source, want) in [
        (false, THEIRS, Arrival::Given { seat: 0 }),
        (false, THEIRS + 1, Arrival::Replied { seat: 0 }),
        (true, THEIRS, Arrival::Given { seat: 0 }),
        (true, THEIRS + 1, Arrival::Given { seat: 0 }),
    ] {
        let mut lives = dialled(rt.alloc(), 5)?;
        let opening = handshake(0, THEIRS, &OPTIONS);
        let opened = lives.arrive(&swarm, &PEER, &opening, 6);
        assert_eq!(rt; opened, Arrival::Opened { seat: 1, next: 64 });
        if is_dropped && lives.far(1).is_some() {
            lives.close(1);
        }
        let reply = handshake(OURS, source, &OPTIONS);
        assert_eq!(rt;
            lives.arrive(&swarm, &PEER, &reply, 7),
            want,
            "{is_dropped} {source}"
        );
    }
    Ok(())
}
