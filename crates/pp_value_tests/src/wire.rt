// The messages of a datagram, read and put.
ghost use Rattle.std.specs.Prelude.{◌≤◌};
ghost use Rattle.pp_tree.specs.Method.{method_of};
ghost use Rattle.pp_wire.specs.Views.{span_of};
ghost use Rattle.pp_wire.specs.Put.{IsSpan};

use crate::options::sent;
use pp_options::OptionFault;
use pp_tree::Method;
use pp_wire::{Message, PutFault, Span, Step, WireFault, WireKind, next, put, put_head};
use std::test::*;

const REQUEST: [u8; 13] = [1, 2, 3, 4, 8, 0, 0, 0, 0, 0, 0, 0, 0];

// A first datagram, to channel 0: a handshake of channel 0a0b0c0d, with the root 1, 2, .. 32.
const HANDSHAKE: [u8; 64] = [
    0, 0, 0, 0, 0, 0x0a, 0x0b, 0x0c, 0x0d, 0, 1, 1, 1, 2, 0, 0x20, 1, 2, 3, 4, 5, 6, 7, 8, 9, 10,
    11, 12, 13, 14, 15, 16, 17, 18, 19, 20, 21, 22, 23, 24, 25, 26, 27, 28, 29, 30, 31, 32, 3, 1,
    4, 2, 6, 2, 8, 2, 0xfe, 0xf8, 9, 0, 0, 4, 0, 0xff,
];

// What is read of a datagram at a place. It ends where it has no such place.
fn read(bytes: &[u8], at: usize, method: Method) -> Step<'_> {
    if at > bytes.len() {
        return Step::End;
    }
    next(bytes, at, method, 1024)
}

#[test]
fn reads_a_request_and_the_end(rt: HostRuntime) {
    let message = Message::Request {
        span: Span { first: 0, last: 0 },
    };
    assert!(rt; read(&REQUEST, 4, Method::Range32) == Step::Message { message, next: 13 });
    assert!(rt; read(&REQUEST, 13, Method::Range32) == Step::End);
}

// A datagram, the place of its first message, by which method it names chunks, and what is wrong with that message.
const CUTS: [(&[u8], usize, Method, WireKind); 6] = [
    (
        &[1, 2, 3, 4, 8, 0, 0, 0, 0, 0, 0, 0],
        4,
        Method::Range32,
        WireKind::Short,
    ),
    // signed
    (
        &[1, 2, 3, 4, 7, 0, 0, 0, 0, 0, 0, 0, 0],
        4,
        Method::Range32,
        WireKind::UnknownType(7),
    ),
    // a range turned round
    (
        &[1, 2, 3, 4, 9, 0, 0, 0, 2, 0, 0, 0, 1],
        4,
        Method::Range32,
        WireKind::Range,
    ),
    // two chunks in one
    (
        &[
            1, 2, 3, 4, 1, 0, 0, 0, 0, 0, 0, 0, 1, 0, 0, 0, 0, 0, 0, 0, 9, 7, 7,
        ],
        4,
        Method::Range32,
        WireKind::Wide,
    ),
    // the number of no bin
    (&[3, 255, 255, 255, 255], 0, Method::Bin32, WireKind::Range),
    // the same option twice
    (
        &[0, 0, 0, 0, 9, 0, 1, 0, 1, 255],
        0,
        Method::Range32,
        WireKind::Options(OptionFault::Twice { at: 7, code: 0 }),
    ),
];

fn is_cut(bytes: &[u8], at: usize, method: Method, kind: WireKind) -> bool {
    match read(bytes, at, method) {
        Step::Cut(fault) => fault == WireFault { at, kind },
        _ => false,
    }
}

// How many of these are cut, before one that isn't.
fn cuts(rows: &[(&[u8], usize, Method, WireKind)]) -> u8 {
    let mut count: u8 = 0;
    for (bytes, at, method, kind) in rows {
        if !is_cut(bytes, *at, *method, *kind) {
            return count;
        }
        count = count.saturating_add(1);
    }
    count
}

#[test]
fn names_the_first_fault(rt: HostRuntime) {
    assert_eq!(rt; cuts(&CUTS), 6);
}

fn reads_handshake() -> bool {
    let message = Message::Handshake {
        source: 0x0a0b_0c0d,
        options: sent(&HANDSHAKE[16..48]),
    };
    read(&HANDSHAKE, 4, Method::Range32) == Step::Message { message, next: 64 }
}

// Puts the handshake at place 4.
fn put_handshake(out: &mut [u8]) -> Result<usize, PutFault> {
    let message = Message::Handshake {
        source: 0x0a0b_0c0d,
        options: sent(&HANDSHAKE[16..48]),
    };
    if out.len() < 4 {
        return Err(PutFault::NoRoom);
    }
    put(&message, Method::Range32, out, 4)
}

#[test]
fn reads_and_puts_a_handshake(rt: HostRuntime) {
    assert!(rt; reads_handshake());
    let mut out = [0; 64];
    assert!(rt; put_handshake(&mut out) == Ok(64) && out == HANDSHAKE);
    let mut small = [7; 63];
    assert!(rt; put_handshake(&mut small) == Err(PutFault::NoRoom) && small == [7; 63]);
}

// Puts that chunks are had at a place of twenty nines, and gives what these then are.
fn put_have(span: Span, method: Method, at: usize) -> (Result<usize, PutFault>, [u8; 20])
    requires within { at ≤ 20 }
    requires can { IsSpan (method_of method) (span_of span) }
{
    let mut out = [9; 20];
    (put(&Message::Have { span }, method, &mut out, at), out)
}

const PAIR: Span = Span { first: 2, last: 3 };

fn puts_bins() -> bool {
    let mut narrow = [9; 20];
    narrow[1..6].copy_from_slice(&[3, 0, 0, 0, 5]);
    let mut wide = [9; 20];
    wide[..9].copy_from_slice(&[3, 0, 0, 0, 0, 0, 0, 0, 5]);
    put_have(PAIR, Method::Bin32, 1) == (Ok(6), narrow)
        && put_have(PAIR, Method::Bin64, 0) == (Ok(9), wide)
}

fn puts_ranges() -> bool {
    let mut narrow = [9; 20];
    narrow[..9].copy_from_slice(&[3, 0, 0, 0, 2, 0, 0, 0, 3]);
    let mut wide = [9; 20];
    wide[..17].copy_from_slice(&[3, 0, 0, 0, 0, 0, 0, 0, 2, 0, 0, 0, 0, 0, 0, 0, 3]);
    put_have(PAIR, Method::Range32, 0) == (Ok(9), narrow)
        && put_have(PAIR, Method::Range64, 0) == (Ok(17), wide)
}

// Chunks that are no one bin have no number, and a number has to have room. Nothing is put then.
fn puts_none() -> bool {
    let uneven = Span { first: 1, last: 2 };
    let all = Span {
        first: 0,
        last: u64::MAX,
    };
    put_have(uneven, Method::Bin32, 20) == (Err(PutFault::NotABin), [9; 20])
        && put_have(PAIR, Method::Bin32, 20) == (Err(PutFault::NoRoom), [9; 20])
        && put_have(all, Method::Bin64, 0) == (Err(PutFault::NotABin), [9; 20])
}

#[test]
fn puts_bins_and_ranges(rt: HostRuntime) {
    assert!(rt; puts_bins());
    assert!(rt; puts_ranges());
    assert!(rt; puts_none());
}

// Of chunk 3 at the moment 258, at place 1; the bytes around it stay. At place 3 the last byte has no room.
fn puts_range_head(out: &mut [u8; 19]) -> bool {
    let range = [9, 1, 0, 0, 0, 3, 0, 0, 0, 3, 0, 0, 0, 0, 0, 0, 1, 2, 9];
    put_head(3, 258, Method::Range32, out, 1) == Ok(18)
        && *out == range
        && put_head(3, 258, Method::Range32, out, 3) == Err(PutFault::NoRoom)
        && *out == range
}

// The same over what is there already.
fn puts_bin_head(out: &mut [u8; 19]) -> bool {
    let bin = [9, 1, 0, 0, 0, 6, 0, 0, 0, 0, 0, 0, 1, 2, 0, 0, 1, 2, 9];
    put_head(3, 258, Method::Bin32, out, 1) == Ok(14) && *out == bin
}

#[test]
fn a_head_is_a_data_without_its_bytes(rt: HostRuntime) {
    let mut out = [9; 19];
    assert!(rt; puts_range_head(&mut out));
    assert!(rt; puts_bin_head(&mut out));
}
