//! Channels: whether the options of a handshake fit a swarm, which messages a peer takes, and the seats with their numbers, states and
//! timers.
use pp_channels::{Channels, Mismatch, State, check, takes};
use pp_options::read;
use pp_outside::Address;
use pp_tree::{Descriptor, Digest, Method};
use std::alloc::AllocError;
use std::test::Fail;

const SECOND: u64 = 1_000_000;

// A handshake's options: version 1, least version 1, the root 1, 2, .. 32, integrity method 1, hash function 2, addressing method 2,
// the supported messages, chunk size 1024, and the end.
pub(crate) const OPTIONS: [u8; 55] = [
    0, 1, 1, 1, 2, 0, 32, 1, 2, 3, 4, 5, 6, 7, 8, 9, 10, 11, 12, 13, 14, 15, 16, 17, 18, 19, 20,
    21, 22, 23, 24, 25, 26, 27, 28, 29, 30, 31, 32, 3, 1, 4, 2, 6, 2, 8, 2, 0xfe, 0xf8, 9, 0, 0, 4,
    0, 255,
];

// The same options from the last to the first.
pub(crate) const TURNED: [u8; 55] = [
    9, 0, 0, 4, 0, 8, 2, 0xfe, 0xf8, 6, 2, 4, 2, 3, 1, 2, 0, 32, 1, 2, 3, 4, 5, 6, 7, 8, 9, 10, 11,
    12, 13, 14, 15, 16, 17, 18, 19, 20, 21, 22, 23, 24, 25, 26, 27, 28, 29, 30, 31, 32, 1, 1, 0, 1,
    255,
];

// The swarm of these options.
pub(crate) fn swarm() -> Result<Descriptor, Fail> {
    let mut root = [0; 32];
    root.copy_from_slice(&OPTIONS[7..39]);
    Ok(Descriptor::new(Digest::new(root), 1024, 3, Method::Range32)?)
}

// At each place the options have another value.
#[test]
fn names_what_differs(rt: HostRuntime) -> Result<(), Fail> {
    let swarm = swarm()?;
    for (at, byte, want) in [
        (1, 1, Ok(())),
        (1, 2, Ok(())),
        (1, 0, Err(Mismatch::Version(0))),
        (3, 2, Err(Mismatch::Minimum(2))),
        (7, 9, Err(Mismatch::Swarm)),
        (40, 2, Err(Mismatch::Integrity(2))),
        (42, 0, Err(Mismatch::Hash(0))),
        (44, 3, Err(Mismatch::Addressing(3))),
        (52, 2, Err(Mismatch::Chunk(512))),
    ] {
        let mut bytes = OPTIONS;
        bytes[at] = byte;
        let (options, _) = read(&bytes)?;
        assert_eq!(rt; check(&options, &swarm, false), want, "{at} {byte}");
    }
    Ok(())
}

// Options from the last to the first, none, the root alone, another one, and options of which two differ.
#[test]
fn names_the_first_that_differs(rt: HostRuntime) -> Result<(), Fail> {
    let swarm = swarm()?;
    let mut root = [2; 36];
    root[1..35].copy_from_slice(&OPTIONS[5..39]);
    root[35] = 255;
    let mut other = root;
    other[3..35].copy_from_slice(&OPTIONS[..32]);
    let mut early = OPTIONS;
    early[1] = 0;
    early[42] = 0;
    let mut late = OPTIONS;
    late[44] = 3;
    late[52] = 2;
    let rows: [(&[u8], bool, Result<(), Mismatch>); 7] = [
        (&TURNED, false, Ok(())),
        (&[255], true, Ok(())),
        (&[255], false, Err(Mismatch::Swarm)),
        (&root, false, Ok(())),
        (&other, true, Err(Mismatch::Swarm)),
        (&early, false, Err(Mismatch::Version(0))),
        (&late, false, Err(Mismatch::Addressing(3))),
    ];
    for (bytes, reply, want) in rows {
        let (options, _) = read(bytes)?;
        assert_eq!(rt; check(&options, &swarm, reply), want, "{options:?}");
    }
    Ok(())
}

// No option 8; that of this peer, which takes all of types 0 to 6 and 8 to 12; without 6 and 12; a bitmap of one byte.
#[test]
fn withholds_what_isnt_taken(rt: HostRuntime) -> Result<(), Fail> {
    let rows: [(&[u8], bool, bool, bool); 4] = [
        (&[255], true, true, true),
        (&[8, 2, 0xfe, 0xf8, 255], true, false, true),
        (&[8, 2, 0xfc, 0xf0, 255], false, false, false),
        (&[8, 1, 0x02, 255], true, false, false),
    ];
    for (bytes, six, seven, twelve) in rows {
        let (options, _) = read(bytes)?;
        assert_eq!(rt; takes(&options, 6), six);
        assert_eq!(rt; takes(&options, 7), seven);
        assert_eq!(rt; takes(&options, 12), twelve);
    }
    let (without, _) = read(&[8, 2, 0xfc, 0xf0, 255])?;
    assert!(rt; takes(&without, 11));
    assert!(rt; !takes(&without, 255));
    Ok(())
}

// The first words of ChaCha20 with the key of zeros (RFC 8439, appendix A.1, the first test vector).
const WORDS_OF_ZEROS: [u32; 5] = [0xade0b876, 0x903df1a0, 0xe56a5d40, 0x28bd8653, 0xb819d2bd];

const RISING: [u8; 32] = [
    0, 1, 2, 3, 4, 5, 6, 7, 8, 9, 10, 11, 12, 13, 14, 15, 16, 17, 18, 19, 20, 21, 22, 23, 24, 25,
    26, 27, 28, 29, 30, 31,
];

// The first words with the key 00, 01, .. 1f, block 0 and nonce 0: by a plain computation apart from this program, which gives
// the block of RFC 8439, section 2.3.2 too.
const WORDS_OF_RISING: [u32; 5] = [0x7d2bfd39, 0x6a19c5d9, 0x7703bd8d, 0x494adcb8, 0x6fd8358a];

fn numbered(number: u8) -> Address {
    Address::V4([10, 0, 0, number], 7000)
}

#[test]
fn has_64_seats(rt: HostRuntime) -> Result<(), AllocError> {
    let mut channels = Channels::new(rt.alloc(), [7; 32])?;
    for number in 0..64u8 {
        assert_eq!(rt; channels.dial(&numbered(number), 0), Some(number));
    }
    assert_eq!(rt; channels.dial(&numbered(64), 0), None);
    assert_eq!(rt; channels.answer(&numbered(64), 9, 0), None);
    assert_eq!(rt; channels.used(), 64);
    assert!(rt; !channels.has_address(&numbered(64)));
    if channels.state(40).is_some() {
        channels.close(40);
    }
    if channels.state(7).is_some() {
        channels.close(7);
    }
    assert_eq!(rt; channels.state(7), None);
    assert_eq!(rt; channels.used(), 62);
    assert!(rt; !channels.has_address(&numbered(7)));
    assert_eq!(rt; channels.answer(&numbered(64), 9, 0), Some(7));
    assert!(rt; channels.has_address(&numbered(64)));
    assert_eq!(rt; channels.dial(&numbered(65), 0), Some(40));
    assert_eq!(rt; channels.dial(&numbered(66), 0), None);
    assert_eq!(rt; channels.state(63), Some(State::Greeted));
    assert_eq!(rt; channels.state(64), None);
    Ok(())
}

#[test]
fn draws_numbers_from_chacha(rt: HostRuntime) -> Result<(), AllocError> {
    for (seed, words) in [([0; 32], WORDS_OF_ZEROS), (RISING, WORDS_OF_RISING)] {
        let mut channels = Channels::new(rt.alloc(), seed)?;
        for (number, word) in (0..5u8).zip(words.iter()) {
            let seat = channels.dial(&numbered(number), 0);
            assert_eq!(rt; seat, Some(number));
            if channels.state(number).is_some() {
                assert_eq!(rt; channels.local(number), *word);
            }
            assert_eq!(rt; channels.find(*word, &numbered(number)), Some(number));
            assert_eq!(rt; channels.find(*word, &numbered(number + 1)), None);
        }
    }
    Ok(())
}

#[test]
fn dials_at_0_3_and_6_seconds(rt: HostRuntime) -> Result<(), AllocError> {
    let mut channels = Channels::new(rt.alloc(), [7; 32])?;
    assert_eq!(rt; channels.dial(&numbered(1), 5 * SECOND), Some(0));
    assert!(rt; channels.is_dialled(0));
    assert_eq!(rt; channels.remote(0), 0);
    assert!(rt; channels.handshake_due(0, 5 * SECOND));
    channels.handshake_sent(0);
    assert!(rt; !channels.handshake_due(0, 8 * SECOND - 1));
    assert!(rt; channels.handshake_due(0, 8 * SECOND));
    channels.handshake_sent(0);
    channels.again(0);
    assert!(rt; !channels.handshake_due(0, 11 * SECOND - 1));
    assert!(rt; channels.handshake_due(0, 11 * SECOND));
    channels.handshake_sent(0);
    assert!(rt; !channels.handshake_due(0, 14 * SECOND));
    Ok(())
}

#[test]
fn replies_until_it_is_sent(rt: HostRuntime) -> Result<(), AllocError> {
    let mut channels = Channels::new(rt.alloc(), [7; 32])?;
    assert_eq!(rt; channels.answer(&numbered(1), 99, 0), Some(0));
    assert!(rt; !channels.is_dialled(0));
    assert_eq!(rt; channels.remote(0), 99);
    assert!(rt; channels.address(0) == numbered(1));
    assert!(rt; channels.handshake_due(0, 0));
    channels.again(0);
    assert!(rt; !channels.is_begun(0));
    channels.handshake_sent(0);
    assert!(rt; !channels.handshake_due(0, 9 * SECOND));
    channels.again(0);
    assert!(rt; channels.handshake_due(0, 9 * SECOND));
    assert!(rt; channels.is_begun(0));
    channels.prove(0);
    assert!(rt; !channels.handshake_due(0, 9 * SECOND));
    assert_eq!(rt; channels.state(0), Some(State::Proven));
    Ok(())
}

#[test]
fn drops_after_10_and_180_seconds(rt: HostRuntime) -> Result<(), AllocError> {
    let mut channels = Channels::new(rt.alloc(), [7; 32])?;
    assert_eq!(rt; channels.dial(&numbered(1), SECOND), Some(0));
    assert_eq!(rt; channels.answer(&numbered(2), 9, 2 * SECOND), Some(1));
    assert_eq!(rt; channels.expired(11 * SECOND - 1), None);
    assert_eq!(rt; channels.expired(11 * SECOND), Some(0));
    channels.complete(0, 77);
    channels.heard(0, 3 * SECOND);
    assert_eq!(rt; channels.remote(0), 77);
    assert_eq!(rt; channels.state(0), Some(State::Proven));
    assert_eq!(rt; channels.expired(12 * SECOND), Some(1));
    channels.prove(1);
    channels.heard(1, 4 * SECOND);
    assert_eq!(rt; channels.expired(183 * SECOND - 1), None);
    assert_eq!(rt; channels.expired(183 * SECOND), Some(0));
    channels.heard(0, 100 * SECOND);
    assert_eq!(rt; channels.expired(184 * SECOND), Some(1));
    Ok(())
}

// A channel that a handshake opened is silent after 120 seconds, and a dialled one that is younger than 15 after 3.
#[test]
fn is_silent_after_120_seconds(rt: HostRuntime) -> Result<(), AllocError> {
    let mut channels = Channels::new(rt.alloc(), [7; 32])?;
    assert_eq!(rt; channels.answer(&numbered(1), 9, SECOND), Some(0));
    assert!(rt; !channels.is_silent(0, 121 * SECOND - 1));
    assert!(rt; channels.is_silent(0, 121 * SECOND));
    channels.wrote(0, 50 * SECOND);
    assert!(rt; !channels.is_silent(0, 170 * SECOND - 1));
    assert!(rt; channels.is_silent(0, 170 * SECOND));
    let mut channels = Channels::new(rt.alloc(), [7; 32])?;
    assert_eq!(rt; channels.dial(&numbered(1), SECOND), Some(0));
    assert!(rt; !channels.is_silent(0, 4 * SECOND - 1));
    assert!(rt; channels.is_silent(0, 4 * SECOND));
    channels.wrote(0, 12 * SECOND);
    assert!(rt; !channels.is_silent(0, 15 * SECOND - 1));
    assert!(rt; channels.is_silent(0, 16 * SECOND - 1));
    assert!(rt; !channels.is_silent(0, 16 * SECOND));
    assert!(rt; channels.is_silent(0, 132 * SECOND));
    Ok(())
}

#[test]
fn shadows_a_dial_when_its_address_loses_another(rt: HostRuntime) -> Result<(), AllocError> {
    let mut channels = Channels::new(rt.alloc(), [7; 32])?;
    assert_eq!(rt; channels.dial(&numbered(1), 0), Some(0));
    assert_eq!(rt; channels.dial(&numbered(2), 0), Some(1));
    assert_eq!(rt; channels.answer(&numbered(1), 9, 0), Some(2));
    assert_eq!(rt; channels.answer(&numbered(1), 9, 0), Some(3));
    assert_eq!(rt; channels.by_remote(&numbered(1), 9), Some(2));
    assert_eq!(rt; channels.by_remote(&numbered(2), 9), None);
    assert_eq!(rt; channels.by_remote(&numbered(1), 0), None);
    assert!(rt; channels.state(0).is_some());
    assert!(rt; !channels.is_shadowed(0));
    channels.close(2);
    assert!(rt; channels.state(0).is_some() && channels.state(1).is_some());
    assert!(rt; channels.is_shadowed(0));
    assert!(rt; !channels.is_shadowed(1));
    assert_eq!(rt; channels.by_remote(&numbered(1), 9), Some(3));
    assert_eq!(rt; channels.answer(&numbered(1), 9, 0), Some(2));
    assert!(rt; channels.state(2).is_some());
    assert!(rt; !channels.is_shadowed(2));
    Ok(())
}
