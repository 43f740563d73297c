// The options of a handshake, read and written.
ghost use Rattle.std.specs.Prelude.{◌<◌, ◌^◌, length};
ghost use Rattle.pp_options.specs.Views.{options_of, HasSpelling};

use pp_options::{NoRoom, OptionFault, Options, read, write};
use std::test::*;

// A handshake's options, with the root 1, 2, .. 32.
const BYTES: [u8; 55] = [
    0, 1, 1, 1, 2, 0, 32, 1, 2, 3, 4, 5, 6, 7, 8, 9, 10, 11, 12, 13, 14, 15, 16, 17, 18, 19, 20,
    21, 22, 23, 24, 25, 26, 27, 28, 29, 30, 31, 32, 3, 1, 4, 2, 6, 2, 8, 2, 0xfe, 0xf8, 9, 0, 0, 4,
    0, 255,
];

// The same options from the last to the first.
const TURNED: [u8; 55] = [
    9, 0, 0, 4, 0, 8, 2, 0xfe, 0xf8, 6, 2, 4, 2, 3, 1, 2, 0, 32, 1, 2, 3, 4, 5, 6, 7, 8, 9, 10, 11,
    12, 13, 14, 15, 16, 17, 18, 19, 20, 21, 22, 23, 24, 25, 26, 27, 28, 29, 30, 31, 32, 1, 1, 0, 1,
    255,
];

const BITMAP: [u8; 2] = [0xfe, 0xf8];

pub(crate) fn sent(root: &[u8]) -> Options<'_>
    requires { length root.now < 2 ^ 16 }
    ensures { HasSpelling (options_of result) }
{
    Options {
        version: Some(1),
        minimum: Some(1),
        swarm: Some(root),
        integrity: Some(1),
        hash: Some(2),
        addressing: Some(2),
        messages: Some(&BITMAP),
        chunk: Some(1024),
    }
}

// Whether these options are read of bytes, and all 55 of them.
fn reads(bytes: &[u8]) -> bool {
    read(bytes) == Ok((sent(&BYTES[7..39]), 55))
}

#[test]
fn reads_in_both_orders(rt: HostRuntime) {
    assert!(rt; reads(&BYTES));
    assert!(rt; reads(&TURNED));
}

// Bytes, and their first fault.
const FAULTS: [(&[u8], OptionFault); 5] = [
    (
        &[2, 0, 1, 9, 2, 0, 1, 9, 255],
        OptionFault::Twice { at: 4, code: 2 },
    ),
    (&[8, 33, 0, 0], OptionFault::BadLength { at: 0, length: 33 }),
    (&[0, 1, 5], OptionFault::Unknown { at: 2, code: 5 }),
    (&[10, 255], OptionFault::Unknown { at: 0, code: 10 }),
    (&[254, 255], OptionFault::Unknown { at: 0, code: 254 }),
];

fn has_fault(bytes: &[u8], want: OptionFault) -> bool {
    match read(bytes) {
        Ok(_) => false,
        Err(fault) => fault == want,
    }
}

// How many of these have their fault, before one that hasn't.
fn faults(rows: &[(&[u8], OptionFault)]) -> u8 {
    let mut count: u8 = 0;
    for (bytes, want) in rows {
        if !has_fault(bytes, *want) {
            return count;
        }
        count = count.saturating_add(1);
    }
    count
}

#[test]
fn names_the_first_fault(rt: HostRuntime) {
    assert!(rt; has_fault(&BYTES[..54], OptionFault::Short { at: 54 }));
    assert!(rt; has_fault(&BYTES[..53], OptionFault::Short { at: 49 }));
    assert_eq!(rt; faults(&FAULTS), 5);
}

// Writes the options at place 2.
fn puts(out: &mut [u8]) -> Result<usize, NoRoom> {
    if out.len() < 2 {
        return Err(NoRoom);
    }
    write(&sent(&BYTES[7..39]), out, 2)
}

#[test]
fn writes_by_rising_codes(rt: HostRuntime) {
    let mut out = [7; 58];
    assert!(rt; puts(&mut out) == Ok(57));
    assert!(rt; out.starts_with(&[7, 7]) && out[2..].starts_with(&BYTES) && out[57] == 7);
    let mut short = [7; 56];
    assert!(rt; puts(&mut short) == Err(NoRoom) && short == [7; 56]);
}
