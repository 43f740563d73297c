use crate::traffic::{handshake, swarm};
use pp_audit::*;
use pp_outside::Address;
use pp_tree::{Descriptor, Digest, Method};
use std::alloc::{AllocError, Global};
use std::test::Fail;

// Lives that the links of three peers of another implementation carried: one that has seven chunks, and two that fetch. Each
// chunk is cut to one byte, and each hash to one digest.
const SEEDER: Address = Address::V4([10, 0, 0, 0], 7000);

const FIRST: Address = Address::V4([10, 0, 0, 1], 7000);

const SECOND: Address = Address::V4([10, 0, 0, 2], 7000);

// The numbers of the first fetcher and of the seeder for their channel, and of the second and the first for theirs.
const FIRST_NUMBER: u32 = 558_079_869;

const SEEDER_NUMBER: u32 = 3_048_797_134;

const SECOND_NUMBER: u32 = 3_903_392_962;

const OTHER_NUMBER: u32 = 2_351_099_360;

/// A message that follows others.
#[derive(Clone, Copy)]
enum Part {
    Hash(u32, u32),
    Have(u32, u32),
    Request(u32, u32),
    /// One chunk, with the delay sample.
    Ack(u32, u64),
    /// One chunk, with the moment at which it was sent.
    Data(u32, u64),
    PexRequest,
    /// The address of the seeder.
    Pex,
}

fn put_span(bytes: &mut Vec<u8>, kind: u8, first: u32, last: u32) -> Result<(), AllocError> {
    bytes.push(kind)?;
    bytes.extend_from_slice(&first.to_be_bytes())?;
    bytes.extend_from_slice(&last.to_be_bytes())
}

fn put_long(bytes: &mut Vec<u8>, kind: u8, chunk: u32, number: u64) -> Result<(), AllocError> {
    put_span(bytes, kind, chunk, chunk)?;
    bytes.extend_from_slice(&number.to_be_bytes())
}

fn put_part(bytes: &mut Vec<u8>, part: Part) -> Result<(), AllocError> {
    match part {
        Part::Hash(first, last) => {
            put_span(bytes, 4, first, last)?;
            bytes.extend_from_slice(&[1; 32])
        }
        Part::Have(first, last) => put_span(bytes, 3, first, last),
        Part::Request(first, last) => put_span(bytes, 8, first, last),
        Part::Ack(chunk, delay) => put_long(bytes, 2, chunk, delay),
        Part::Data(chunk, sent_at) => {
            put_long(bytes, 1, chunk, sent_at)?;
            bytes.push(5)?;
            Ok(())
        }
        Part::PexRequest => {
            bytes.push(6)?;
            Ok(())
        }
        Part::Pex => bytes.extend_from_slice(&[5, 10, 0, 0, 0, 0x1b, 0x58]),
    }
}

fn put_parts(bytes: &mut Vec<u8>, parts: &[Part]) -> Result<(), AllocError> {
    for part in parts {
        put_part(bytes, *part)?;
    }
    Ok(())
}

/// A datagram for a channel.
fn datagram(alloc: Global, channel: u32, parts: &[Part]) -> Result<Vec<u8>, AllocError> {
    let mut bytes = Vec::from_slice(alloc, &channel.to_be_bytes())?;
    put_parts(&mut bytes, parts)?;
    Ok(bytes)
}

/// A handshake for a channel, from a source channel, with messages behind it.
fn shake(
    alloc: Global,
    root: &Digest,
    channel: u32,
    source: u32,
    parts: &[Part],
) -> Result<Vec<u8>, AllocError> {
    let mut bytes = Vec::from_slice(alloc, &handshake(channel, source, root))?;
    put_parts(&mut bytes, parts)?;
    Ok(bytes)
}

fn came<'m>(at: u64, from: Address, bytes: &'m [u8]) -> Entry<'m> {
    Entry::Received { at, from, bytes }
}

fn went<'m>(to: Address, bytes: &'m [u8]) -> Entry<'m> {
    Entry::Sent {
        moment: 7,
        to,
        bytes,
    }
}

// Whether all that a fetcher promises of turns is kept but for so many, where it holds the first two chunks.
fn keeps_all<'m>(refusals: u64, d: &Descriptor, list: &'m [Entry<'m>]) -> bool {
    serves_but(refusals, d, &[], list)
        && tells_all(d, &[], list)
        && lets_in_but(refusals, d, list)
        && chokes_none(refusals, d, list)
        && keeps_up_but(refusals, d, list)
        && dials_but(refusals, d, &[SEEDER], list)
        && asks_but(refusals, d, &[true, true], list)
        && are_whole(d, list)
        && closes_last(d, list)
}

// The hashes of the first two chunks' paths.
const FIRST_PATH: [Part; 5] = [
    Part::Hash(0, 3),
    Part::Hash(4, 5),
    Part::Hash(6, 6),
    Part::Hash(2, 3),
    Part::Hash(1, 1),
];

const SECOND_PATH: [Part; 5] = [
    Part::Hash(0, 3),
    Part::Hash(4, 5),
    Part::Hash(6, 6),
    Part::Hash(2, 3),
    Part::Hash(0, 0),
];

/// A chunk behind the hashes of its path.
fn delivery(
    alloc: Global,
    channel: u32,
    path: &[Part],
    chunk: u32,
    at: u64,
) -> Result<Vec<u8>, AllocError> {
    let mut bytes = datagram(alloc, channel, path)?;
    put_part(&mut bytes, Part::Data(chunk, at))?;
    Ok(bytes)
}

/// The datagrams of a fetcher.
#[derive(Drop)]
struct Fetch {
    dial: Vec<u8>,
    hello: Vec<u8>,
    reply: Vec<u8>,
    taken: Vec<u8>,
    asks: Vec<u8>,
    wants: Vec<u8>,
    names: Vec<u8>,
    first: Vec<u8>,
    second: Vec<u8>,
    acks: Vec<u8>,
    has: Vec<u8>,
    told: Vec<u8>,
    third: Vec<u8>,
}

fn fetch_datagrams(alloc: Global, root: &Digest) -> Result<Fetch, AllocError> {
    let acks = [
        Part::Ack(0, 100_000),
        Part::Ack(1, 200_000),
        Part::Have(0, 1),
    ];
    Ok(Fetch {
        dial: shake(alloc, root, 0, FIRST_NUMBER, &[])?,
        hello: shake(alloc, root, 0, SECOND_NUMBER, &[])?,
        reply: shake(alloc, root, SECOND_NUMBER, OTHER_NUMBER, &[])?,
        taken: shake(
            alloc,
            root,
            FIRST_NUMBER,
            SEEDER_NUMBER,
            &[Part::Have(0, 6)],
        )?,
        asks: datagram(
            alloc,
            SEEDER_NUMBER,
            &[Part::Request(0, 6), Part::PexRequest],
        )?,
        wants: datagram(alloc, OTHER_NUMBER, &[Part::PexRequest])?,
        names: datagram(alloc, SECOND_NUMBER, &[Part::PexRequest, Part::Pex])?,
        first: delivery(alloc, FIRST_NUMBER, &FIRST_PATH, 0, 400_000)?,
        second: delivery(alloc, FIRST_NUMBER, &SECOND_PATH, 1, 400_000)?,
        acks: datagram(alloc, SEEDER_NUMBER, &acks)?,
        has: datagram(alloc, SECOND_NUMBER, &[Part::Have(0, 1)])?,
        told: datagram(alloc, OTHER_NUMBER, &[Part::Pex])?,
        third: delivery(alloc, FIRST_NUMBER, &[Part::Hash(3, 3)], 2, 700_000)?,
    })
}

/// The life of the first fetcher.
fn life_of<'m>(f: &'m Fetch) -> [Entry<'m>; 14] {
    [
        Entry::Quiet { at: 100_000 },
        went(SEEDER, &f.dial),
        came(200_000, SECOND, &f.hello),
        went(SECOND, &f.reply),
        came(300_000, SEEDER, &f.taken),
        went(SEEDER, &f.asks),
        came(400_000, SECOND, &f.wants),
        went(SECOND, &f.names),
        came(500_000, SEEDER, &f.first),
        came(600_000, SEEDER, &f.second),
        went(SEEDER, &f.acks),
        went(SECOND, &f.has),
        came(700_000, SECOND, &f.told),
        came(800_000, SEEDER, &f.third),
    ]
}

// An empty datagram to the seeder, and to the second fetcher.
const TO_SEEDER: [u8; 4] = [0xb5, 0xb8, 0xf3, 0xce];

const TO_SECOND: [u8; 4] = [0xe8, 0xa9, 0x0c, 0xc2];

#[test]
fn decides_a_fetch(rt: HostRuntime) -> Result<(), Fail> {
    let d = swarm(rt.alloc())?;
    let datagrams = fetch_datagrams(rt.alloc(), &d.root())?;
    let list = life_of(&datagrams);
    assert!(rt; keeps_all(0, &d, &list));
    // a peer that was given isn't dialled
    assert!(rt; !dials_but(0, &d, &[SEEDER, FIRST], &list));
    assert!(rt; dials_but(1, &d, &[SEEDER, FIRST, FIRST], &list));
    // what it has isn't held at the end
    assert!(rt; asks_but(0, &d, &[], &list));
    Ok(())
}

#[test]
fn decides_what_a_fetch_lacks(rt: HostRuntime) -> Result<(), Fail> {
    let d = swarm(rt.alloc())?;
    let datagrams = fetch_datagrams(rt.alloc(), &d.root())?;
    let list = life_of(&datagrams);
    // nothing is asked for; all is held
    let mut unasked = list;
    unasked[5] = went(SEEDER, &TO_SEEDER);
    assert!(rt; !asks_but(0, &d, &[true, true], &unasked));
    assert!(rt; !asks_but(5, &d, &[true, true], &unasked));
    assert!(rt; asks_but(6, &d, &[true, true], &unasked));
    assert!(rt; asks_but(0, &d, &[true, true, true, true, true, true, true], &unasked));
    // what was acknowledged on one channel isn't told of on the other
    let mut untold = list;
    untold[11] = went(SECOND, &TO_SECOND);
    assert!(rt; !tells_all(&d, &[], &untold));
    // what stood from the start isn't told of
    assert!(rt; !tells_all(&d, &[false, false, false, true], &list));
    // a newcomer isn't let in, or a call was refused
    let mut unanswered = list;
    unanswered[3] = went(SECOND, &TO_SECOND);
    assert!(rt; !lets_in_but(0, &d, &unanswered));
    assert!(rt; lets_in_but(1, &d, &unanswered));
    // a datagram is cut, and a channel closed before the last turn
    let mut torn = list;
    torn[7] = went(SECOND, &[0, 0, 0, 9, 13]);
    assert!(rt; !are_whole(&d, &torn));
    let mut closed = list;
    closed[7] = went(SECOND, &[0, 0, 0, 9, 0, 0, 0, 0, 0, 0xff]);
    assert!(rt; !closes_last(&d, &closed));
    // a choke, and a silence of 120 seconds
    let mut choked = list;
    choked[7] = went(SECOND, &[0, 0, 0, 9, 10]);
    assert!(rt; !chokes_none(0, &d, &choked));
    assert!(rt; !chokes_none(6, &d, &choked));
    assert!(rt; chokes_none(7, &d, &choked));
    let mut silent = list;
    silent[13] = Entry::Quiet { at: 120_600_000 };
    assert!(rt; !keeps_up_but(0, &d, &silent));
    silent[13] = Entry::Quiet { at: 120_599_999 };
    assert!(rt; keeps_up_but(0, &d, &silent));
    Ok(())
}

// The second fetcher's number for the seeder's channel, and the seeder's.
const THIRD_NUMBER: u32 = 525_187_107;

const FOURTH_NUMBER: u32 = 1_520_377_066;

/// The datagrams of the seeder.
#[derive(Drop)]
struct Seed {
    first_hello: Vec<u8>,
    first_reply: Vec<u8>,
    second_hello: Vec<u8>,
    second_reply: Vec<u8>,
    first_asks: Vec<u8>,
    first: Vec<u8>,
    second: Vec<u8>,
    second_asks: Vec<u8>,
    names: Vec<u8>,
    third: Vec<u8>,
    fourth: Vec<u8>,
}

// What the replies have behind their handshakes is given.
fn seed_datagrams(alloc: Global, root: &Digest, told: &[Part]) -> Result<Seed, AllocError> {
    let asks = [Part::Request(0, 6), Part::PexRequest];
    Ok(Seed {
        first_hello: shake(alloc, root, 0, FIRST_NUMBER, &[])?,
        first_reply: shake(alloc, root, FIRST_NUMBER, SEEDER_NUMBER, told)?,
        second_hello: shake(alloc, root, 0, THIRD_NUMBER, &[])?,
        second_reply: shake(alloc, root, THIRD_NUMBER, FOURTH_NUMBER, told)?,
        first_asks: datagram(alloc, SEEDER_NUMBER, &asks)?,
        first: delivery(alloc, FIRST_NUMBER, &FIRST_PATH, 0, 400_000)?,
        second: delivery(alloc, FIRST_NUMBER, &SECOND_PATH, 1, 400_000)?,
        second_asks: datagram(alloc, FOURTH_NUMBER, &asks)?,
        names: datagram(alloc, THIRD_NUMBER, &[Part::Pex])?,
        third: delivery(alloc, THIRD_NUMBER, &FIRST_PATH, 0, 500_000)?,
        fourth: delivery(alloc, THIRD_NUMBER, &SECOND_PATH, 1, 500_000)?,
    })
}

/// The seeder's first turns.
fn turns_of<'m>(s: &'m Seed) -> [Entry<'m>; 12] {
    [
        Entry::Quiet { at: 100_000 },
        came(200_000, FIRST, &s.first_hello),
        went(FIRST, &s.first_reply),
        came(300_000, SECOND, &s.second_hello),
        went(SECOND, &s.second_reply),
        came(400_000, FIRST, &s.first_asks),
        went(FIRST, &s.first),
        went(FIRST, &s.second),
        came(500_000, SECOND, &s.second_asks),
        went(SECOND, &s.names),
        went(SECOND, &s.third),
        went(SECOND, &s.fourth),
    ]
}

const ALL: [bool; 7] = [true; 7];

#[test]
fn decides_a_seeding(rt: HostRuntime) -> Result<(), Fail> {
    let d = swarm(rt.alloc())?;
    let datagrams = seed_datagrams(rt.alloc(), &d.root(), &[Part::Have(0, 6)])?;
    let list = turns_of(&datagrams);
    assert!(rt; serves_but(0, &d, &ALL, &list));
    assert!(rt; tells_all(&d, &ALL, &list));
    assert!(rt; lets_in_but(0, &d, &list));
    assert!(rt; keeps_up_but(0, &d, &list));
    assert!(rt; requests_none(&d, &list));
    assert!(rt; are_whole(&d, &list));
    // the last chunk is kept back, though the window has room
    let mut less = list;
    less[11] = went(SECOND, &[0, 0, 0, 9]);
    assert!(rt; !serves_but(0, &d, &[], &less));
    assert!(rt; serves_but(1, &d, &[], &less));
    Ok(())
}

#[test]
fn decides_what_is_owed(rt: HostRuntime) -> Result<(), Fail> {
    let d = swarm(rt.alloc())?;
    let datagrams = seed_datagrams(rt.alloc(), &d.root(), &[])?;
    let tells = datagram(rt.alloc(), THIRD_NUMBER, &[Part::Have(0, 6)])?;
    let mut list = turns_of(&datagrams);
    // what was asked for before it was announced isn't owed, unless it stood from the start
    list[6] = went(FIRST, &[0, 0, 0, 9]);
    list[7] = went(FIRST, &[0, 0, 0, 9]);
    list[10] = went(SECOND, &tells);
    list[11] = went(SECOND, &[0, 0, 0, 9]);
    assert!(rt; serves_but(0, &d, &[], &list));
    assert!(rt; !serves_but(0, &d, &ALL, &list));
    assert!(rt; !serves_but(1, &d, &[true, true, true], &list));
    assert!(rt; serves_but(3, &d, &[true, true, true], &list));
    Ok(())
}

#[test]
fn decides_batches(rt: HostRuntime) -> Result<(), Fail> {
    let none = Batch {
        committed: &[false, false, true],
        pending: &[],
    };
    let first = Pending {
        chunk: 0,
        put_at: 500_000,
    };
    let one = Batch {
        committed: &[false, false, true],
        pending: &[first],
    };
    let done = Batch {
        committed: &[true, false, true],
        pending: &[],
    };
    // a chunk is stored and waits; it is committed at once; or a wait was quiet, and it is left pending
    assert!(rt; commits_in_time(false, &[0], 500_000, &none, &one));
    assert!(rt; !commits_in_time(false, &[0], 500_000, &none, &done));
    assert!(rt; commits_in_time(true, &[], 550_000, &one, &done));
    assert!(rt; !commits_in_time(true, &[], 550_000, &one, &one));
    // it waits for a tenth of a second at most
    assert!(rt; commits_in_time(false, &[], 599_999, &one, &one));
    assert!(rt; !commits_in_time(false, &[], 600_000, &one, &one));
    assert!(rt; commits_in_time(false, &[], 600_000, &one, &done));
    // the last chunk that is missing comes, and both are left pending, or committed
    let second = Pending {
        chunk: 1,
        put_at: 550_000,
    };
    let both = Batch {
        committed: &[false, false, true],
        pending: &[second, first],
    };
    let whole = Batch {
        committed: &[true, true, true],
        pending: &[],
    };
    assert!(rt; !commits_in_time(false, &[1], 550_000, &one, &both));
    assert!(rt; commits_in_time(false, &[1], 550_000, &one, &whole));
    Ok(())
}

// What is stored is neither lost nor forgotten, nothing else comes in, and a pending chunk keeps its moment.
#[test]
fn decides_what_is_kept(rt: HostRuntime) {
    let none = Batch {
        committed: &[false, false, true],
        pending: &[],
    };
    let forgotten = Batch {
        committed: &[false, false, false],
        pending: &[],
    };
    let first = Pending {
        chunk: 0,
        put_at: 500_000,
    };
    let one = Batch {
        committed: &[false, false, true],
        pending: &[first],
    };
    assert!(rt; commits_in_time(false, &[], 500_000, &none, &none));
    assert!(rt; !commits_in_time(false, &[0], 500_000, &none, &none));
    assert!(rt; !commits_in_time(true, &[], 500_000, &none, &forgotten));
    assert!(rt; !commits_in_time(false, &[1], 500_000, &none, &one));
    // the chunk's moment becomes that of a later event, which stored it again, or didn't
    let later = Pending {
        chunk: 0,
        put_at: 550_000,
    };
    let reset = Batch {
        committed: &[false, false, true],
        pending: &[later],
    };
    assert!(rt; commits_in_time(false, &[0], 550_000, &one, &reset));
    assert!(rt; !commits_in_time(false, &[], 550_000, &one, &reset));
}

// The life of the first fetcher, whose link refused its first datagram with requests; they are sent in the next turn.
fn life_with_refusal<'m>(f: &'m Fetch) -> [Entry<'m>; 14] {
    let mut list = life_of(f);
    list[5] = came(400_000, SECOND, &f.wants);
    list[6] = went(SECOND, &f.names);
    list[7] = went(SEEDER, &f.asks);
    list
}

#[test]
fn decides_a_fetch_with_a_refusal(rt: HostRuntime) -> Result<(), Fail> {
    let d = swarm(rt.alloc())?;
    let datagrams = fetch_datagrams(rt.alloc(), &d.root())?;
    let list = life_with_refusal(&datagrams);
    assert!(rt; !asks_but(0, &d, &[true, true], &list));
    assert!(rt; asks_but(1, &d, &[true, true], &list));
    Ok(())
}

#[test]
fn keeps_the_rest_with_a_refusal(rt: HostRuntime) -> Result<(), Fail> {
    let d = swarm(rt.alloc())?;
    let datagrams = fetch_datagrams(rt.alloc(), &d.root())?;
    let list = life_with_refusal(&datagrams);
    assert!(rt; !keeps_all(0, &d, &list));
    assert!(rt; keeps_all(1, &d, &list));
    Ok(())
}
