// The words of a command line.
use arrayvec::ArrayVec;
use pp_outside::Address;
use pp_targets::{SwarmName, Target};
use pp_tree::{Descriptor, DescriptorFault, Method};
use pp_words::{Command, Order, Usage, UsageKind, read_address, read_words};
use std::alloc::{AllocError, Global};
use std::test::*;

// The descriptor of `abc`.
const D: &str = "ppspp1:ba7816bf8f01cfea414140de5dae2223b00361a396177a9cb410ff61f20015ad:1024:3:2";

// The same swarm, named without its size.
const NAME: &str =
    "ppspp1:ba7816bf8f01cfea414140de5dae2223b00361a396177a9cb410ff61f20015ad:1024:auto:2";

// One of 268,435,457 bytes in chunks of 256, which are too many chunks.
const TOO_LONG: &str =
    "ppspp1:ba7816bf8f01cfea414140de5dae2223b00361a396177a9cb410ff61f20015ad:256:268435457:2";

fn strings(alloc: Global, line: &[&str]) -> Result<Vec<String>, AllocError> {
    let mut words = Vec::new(alloc);
    for word in line {
        words.push(String::from_str(alloc, word)?)?;
    }
    Ok(words)
}

// Addresses that are read.
const ADDRESSES: [(&str, Address); 8] = [
    ("0.0.0.0:1", Address::V4([0; 4], 1)),
    ("127.0.0.1:7000", Address::V4([127, 0, 0, 1], 7000)),
    ("255.255.255.255:65535", Address::V4([255; 4], 65535)),
    ("[::]:7000", Address::V6([0; 16], 7000)),
    (
        "[::1]:7000",
        Address::V6([0, 0, 0, 0, 0, 0, 0, 0, 0, 0, 0, 0, 0, 0, 0, 1], 7000),
    ),
    (
        "[1:2:3:4:5:6:7:8]:9",
        Address::V6([0, 1, 0, 2, 0, 3, 0, 4, 0, 5, 0, 6, 0, 7, 0, 8], 9),
    ),
    (
        "[1:2:3:4:5:6:7::]:9",
        Address::V6([0, 1, 0, 2, 0, 3, 0, 4, 0, 5, 0, 6, 0, 7, 0, 0], 9),
    ),
    (
        "[fE80:0001::CdEf]:65535",
        Address::V6(
            [0xfe, 0x80, 0, 1, 0, 0, 0, 0, 0, 0, 0, 0, 0, 0, 0xcd, 0xef],
            65535,
        ),
    ),
];

// How many of these are read, before one that isn't.
fn addresses_read(rows: &[(&str, Address)]) -> u8 {
    let mut right: u8 = 0;
    for (text, want) in rows {
        if read_address(text.as_bytes()) != Some(*want) {
            return right;
        }
        right = right.saturating_add(1);
    }
    right
}

#[test]
fn reads_addresses(rt: HostRuntime) {
    assert_eq!(rt; addresses_read(&ADDRESSES), 8);
}

// Texts that are none.
const NO_ADDRESSES: [&str; 29] = [
    "",
    "127.0.0.1",
    "127.0.0.1:",
    "127.0.0.1:0",
    "127.0.0.1:65536",
    "127.0.0.1:01",
    "127.0.0.1:+1",
    "127.0.0.1:1 ",
    "127.0.0.01:1",
    "256.0.0.1:1",
    "1.2.3:1",
    "1.2.3.4.5:1",
    "::1:7000",
    "[::1]",
    "[::1]7000",
    "[::1:7000",
    "::1]:7000",
    "[::1]:0",
    "[]:1",
    "[:::]:1",
    "[1::2::3]:1",
    "[1:2:3:4:5:6:7]:1",
    "[1:2:3:4:5:6:7:8::]:1",
    "[1:2:3:4:5:6:7:8:9]:1",
    "[12345::]:1",
    "[g::]:1",
    "[::1.2.3.4]:1",
    "[fe80::1%1]:1",
    "localhost:1",
];

// How many of these are refused, before one that isn't.
fn addresses_refused(texts: &[&str]) -> u8 {
    let mut right: u8 = 0;
    for text in texts {
        if read_address(text.as_bytes()).is_some() {
            return right;
        }
        right = right.saturating_add(1);
    }
    right
}

#[test]
fn refuses_other_addresses(rt: HostRuntime) {
    assert_eq!(rt; addresses_refused(&NO_ADDRESSES), 29);
}

const WRONG: [(&[&str], usize, UsageKind); 36] = [
    (&[], 0, UsageKind::Missing),
    (&["serve"], 0, UsageKind::Command),
    (&["import"], 1, UsageKind::Missing),
    (&["import", "", "1000"], 1, UsageKind::Store),
    (&["import", "s"], 2, UsageKind::Missing),
    (&["import", "s", "1000"], 2, UsageKind::Chunk),
    (&["import", "s", "01024", "x"], 2, UsageKind::Chunk),
    (&["import", "s", "1024", "x"], 3, UsageKind::Extra),
    (
        &["check", "s", TOO_LONG],
        2,
        UsageKind::Descriptor(DescriptorFault::Size { at: 76 }),
    ),
    (
        &["export", "s", "ppspp2:"],
        2,
        UsageKind::Descriptor(DescriptorFault::Form { at: 5 }),
    ),
    (&["seed", "s", D, "127.0.0.1:0", "x"], 3, UsageKind::Address),
    (&["seed", "s", D, "127.0.0.1:1", "x"], 4, UsageKind::Number),
    (&["seed", "s", D, "127.0.0.1:1", "0"], 4, UsageKind::Number),
    (
        &["seed", "s", D, "127.0.0.1:1", "4294967296"],
        4,
        UsageKind::Number,
    ),
    (
        &["fetch", "s", D, "127.0.0.1:1", "9", "Rarest"],
        5,
        UsageKind::Order,
    ),
    (
        &["fetch", "s", D, "127.0.0.1:1", "9", "rarest"],
        6,
        UsageKind::Missing,
    ),
    (&["replay", "x"], 1, UsageKind::Extra),
    (&["rehearse", "01"], 1, UsageKind::Number),
    (&["rehearse", "18446744073709551616"], 1, UsageKind::Number),
    (&["rehearse", "100000000000000000000"], 1, UsageKind::Number),
    (
        &["play", "s", D, "127.0.0.1:1", "0", "0"],
        4,
        UsageKind::Number,
    ),
    (&["play", "s", D, "127.0.0.1:1", "9"], 5, UsageKind::Missing),
    (
        &["play", "s", D, "127.0.0.1:1", "9", "0"],
        5,
        UsageKind::Number,
    ),
    (
        &["play", "s", D, "127.0.0.1:1", "9", "4097", "x"],
        5,
        UsageKind::Number,
    ),
    (
        &["play", "s", D, "127.0.0.1:1", "9", "rarest"],
        5,
        UsageKind::Number,
    ),
    (
        &["play", "s", D, "127.0.0.1:1", "9", "4096"],
        6,
        UsageKind::Missing,
    ),
    (
        &["play", "s", D, "127.0.0.1:1", "9", "4096", "127.0.0.1:0"],
        6,
        UsageKind::Address,
    ),
    (&["record"], 1, UsageKind::Missing),
    (&["record", "16", "0"], 1, UsageKind::Number),
    (&["record", "015", "1"], 1, UsageKind::Number),
    (&["record", "15"], 2, UsageKind::Missing),
    (&["record", "15", "0"], 2, UsageKind::Number),
    (&["record", "15", "4294967296"], 2, UsageKind::Number),
    (&["record", "15", "1", "1"], 3, UsageKind::Extra),
    (&["audit", ""], 1, UsageKind::Extra),
    (&["audits"], 0, UsageKind::Command),
];

// Whether words are refused so.
fn are_refused(words: &[String], want: Usage) -> bool {
    match read_words(words) {
        Ok(_) => false,
        Err(usage) => usage == want,
    }
}

fn is_refused(alloc: Global, line: &[&str], want: Usage) -> bool {
    match strings(alloc, line) {
        Ok(words) => are_refused(&words, want),
        Err(_) => false,
    }
}

// How many of these lines are refused so, before one that isn't.
fn lines_refused(alloc: Global, lines: &[(&[&str], usize, UsageKind)]) -> u8 {
    let mut right: u8 = 0;
    for (line, word, kind) in lines {
        let (word, kind) = (*word, *kind);
        if !is_refused(alloc, line, Usage { word, kind }) {
            return right;
        }
        right = right.saturating_add(1);
    }
    right
}

#[test]
fn names_the_first_wrong_word(rt: HostRuntime) {
    assert_eq!(rt; lines_refused(rt.alloc(), &WRONG), 36);
}

fn are_read(words: &[String], want: &Command<'_>) -> bool {
    match read_words(words) {
        Ok(command) => command == *want,
        Err(_) => false,
    }
}

// Whether this command is read of a line.
fn is_read(alloc: Global, line: &[&str], want: &Command<'_>) -> bool {
    match strings(alloc, line) {
        Ok(words) => are_read(&words, want),
        Err(_) => false,
    }
}

const LISTEN: Address = Address::V4([127, 0, 0, 1], 7000);

const STORE: &str = "s";

fn reads_import(alloc: Global) -> bool {
    let import = Command::Import {
        store: STORE,
        chunk: 8192,
    };
    is_read(alloc, &["import", "s", "8192"], &import)
}

// Whether a seed of this target is read.
fn reads_seed(alloc: Global, target: Target, described: &str) -> bool {
    let seed = Command::Seed {
        store: STORE,
        target,
        listen: LISTEN,
        turns: 4294967295,
    };
    let line = ["seed", "s", described, "127.0.0.1:7000", "4294967295"];
    is_read(alloc, &line, &seed)
}

// Whether a check of this target is read.
fn reads_check(alloc: Global, target: Target, described: &str) -> bool {
    let check = Command::Check {
        store: STORE,
        target,
    };
    is_read(alloc, &["check", "s", described], &check)
}

fn reads_export(alloc: Global, target: Target, described: &str) -> bool {
    let export = Command::Export {
        store: STORE,
        target,
    };
    is_read(alloc, &["export", "s", described], &export)
}

// The descriptor's swarm, named without its size.
fn named(descriptor: Descriptor) -> Target {
    Target::Auto(SwarmName {
        root: descriptor.root(),
        chunk: 1024,
        method: Method::Range32,
    })
}

// Whether the commands on a target are read, of a descriptor, and of a name.
fn reads_sized(alloc: Global, descriptor: Descriptor) -> bool {
    reads_seed(alloc, Target::Sized(descriptor), D)
        && reads_check(alloc, Target::Sized(descriptor), D)
        && reads_export(alloc, Target::Sized(descriptor), D)
}

fn reads_named(alloc: Global, descriptor: Descriptor) -> bool {
    reads_seed(alloc, named(descriptor), NAME)
        && reads_check(alloc, named(descriptor), NAME)
        && reads_export(alloc, named(descriptor), NAME)
}

fn reads_upgrade(alloc: Global, descriptor: Descriptor) -> bool {
    let upgrade = Command::Upgrade {
        store: STORE,
        descriptor,
    };
    is_read(alloc, &["upgrade", "s", D], &upgrade)
}

fn one_peer() -> ArrayVec<Address, 16> {
    let mut peers = ArrayVec::new();
    peers.push(LISTEN);
    peers
}

// Whether a line of `play` is read, with these words for the number of turns and the window.
fn reads_play(
    alloc: Global,
    descriptor: Descriptor,
    (turns, window): (u32, u32),
    words: [&str; 2],
) -> bool {
    let play = Command::Play {
        store: STORE,
        descriptor,
        listen: LISTEN,
        turns,
        window,
        peers: one_peer(),
    };
    let [first, second] = words;
    let line = [
        "play",
        "s",
        D,
        "127.0.0.1:7000",
        first,
        second,
        "127.0.0.1:7000",
    ];
    is_read(alloc, &line, &play)
}

fn reads_all_of_swarms(alloc: Global, descriptor: Descriptor) -> bool {
    reads_sized(alloc, descriptor)
        && reads_named(alloc, descriptor)
        && reads_upgrade(alloc, descriptor)
        && reads_play(alloc, descriptor, (1, 4096), ["1", "4096"])
        && reads_play(alloc, descriptor, (4294967295, 1), ["4294967295", "1"])
}

#[test]
fn reads_commands_of_swarms(rt: HostRuntime) {
    assert!(rt; reads_import(rt.alloc()));
    match Descriptor::read(D) {
        Ok(descriptor) => assert!(rt; reads_all_of_swarms(rt.alloc(), descriptor)),
        Err(_) => assert!(rt; false),
    }
}

fn reads_rehearse(alloc: Global) -> bool {
    let rehearse = Command::Rehearse {
        number: 18446744073709551615,
    };
    is_read(alloc, &["rehearse", "18446744073709551615"], &rehearse)
}

// Whether the least and the greatest words of `record` are read.
fn reads_record(alloc: Global) -> bool {
    let least = Command::Record { peer: 0, life: 1 };
    let most = Command::Record {
        peer: 15,
        life: 4294967295,
    };
    is_read(alloc, &["record", "0", "1"], &least)
        && is_read(alloc, &["record", "15", "4294967295"], &most)
}

#[test]
fn reads_commands_of_no_swarm(rt: HostRuntime) {
    assert!(rt; is_read(rt.alloc(), &["replay"], &Command::Replay));
    assert!(rt; is_read(rt.alloc(), &["audit"], &Command::Audit));
    assert!(rt; reads_rehearse(rt.alloc()));
    assert!(rt; reads_record(rt.alloc()));
}

// A line of `fetch` with so many peers.
fn fetch_of(alloc: Global, peers: u8) -> Result<Vec<String>, AllocError> {
    let line = ["fetch", "s", D, "127.0.0.1:7000", "1", "sequential"];
    let mut words = strings(alloc, &line)?;
    for _ in 0..peers {
        words.push(String::from_str(alloc, "127.0.0.1:7000")?)?;
    }
    Ok(words)
}

fn are_of_sixteen(words: &[String]) -> bool {
    match Descriptor::read(D) {
        Ok(descriptor) => {
            let fetch = Command::Fetch {
                store: STORE,
                target: Target::Sized(descriptor),
                listen: LISTEN,
                turns: 1,
                order: Order::Sequential,
                peers: ArrayVec::from([LISTEN; 16]),
            };
            are_read(words, &fetch)
        }
        Err(_) => false,
    }
}

fn reads_sixteen(alloc: Global) -> bool {
    match fetch_of(alloc, 16) {
        Ok(words) => are_of_sixteen(&words),
        Err(_) => false,
    }
}

fn refuses_seventeen(alloc: Global) -> bool {
    let want = Usage {
        word: 22,
        kind: UsageKind::Extra,
    };
    match fetch_of(alloc, 17) {
        Ok(words) => are_refused(&words, want),
        Err(_) => false,
    }
}

#[test]
fn reads_up_to_sixteen_peers(rt: HostRuntime) {
    assert!(rt; reads_sixteen(rt.alloc()));
    assert!(rt; refuses_seventeen(rt.alloc()));
}
