// Bins of 32 and of 64 bits, and their numbers.
use pp_bins::{Bin32, Bin64};
use std::test::*;

// A layer, an offset, and the number of the bin there.
const SMALL: [(u8, u32, u32); 5] = [
    (0, 1, 2),
    (1, 1, 5),
    (1, 2, 9),
    (0, 6, 12),
    (31, 0, 2147483647),
];

// What stands for the number of no bin, in the tests. It is the number of none.
const NONE_32: u32 = 4294967295;

const NONE_64: u64 = 18446744073709551615;

fn number_32(bin: Option<Bin32>) -> u32 {
    match bin {
        Some(bin) => bin.number(),
        None => NONE_32,
    }
}

fn number_64(bin: Option<Bin64>) -> u64 {
    match bin {
        Some(bin) => bin.number(),
        None => NONE_64,
    }
}

// Whether a bin of 32 bits with this number is read, and stands there.
fn stands_32(number: u32, layer: u8, offset: u32) -> bool {
    match Bin32::read(number) {
        Some(bin) => bin.layer() == layer && bin.offset() == offset,
        None => false,
    }
}

fn stands_64(number: u64, layer: u8, offset: u64) -> bool {
    match Bin64::read(number) {
        Some(bin) => bin.layer() == layer && bin.offset() == offset,
        None => false,
    }
}

fn is_numbered_32(layer: u8, offset: u32, number: u32) -> bool {
    number_32(Bin32::of(layer, offset)) == number && stands_32(number, layer, offset)
}

fn is_numbered_64(layer: u8, offset: u64, number: u64) -> bool {
    number_64(Bin64::of(layer, offset)) == number && stands_64(number, layer, offset)
}

fn is_numbered(layer: u8, offset: u32, number: u32) -> bool {
    is_numbered_32(layer, offset, number)
        && is_numbered_64(layer, u64::from(offset), u64::from(number))
}

// How many of these have their numbers, before one that hasn't.
fn numbered() -> u8 {
    let mut right: u8 = 0;
    for (layer, offset, number) in SMALL {
        if !is_numbered(layer, offset, number) {
            return right;
        }
        right = right.saturating_add(1);
    }
    right
}

#[test]
fn numbers_of_small_bins(rt: HostRuntime) {
    assert_eq!(rt; numbered(), 5);
}

// Numbers and places past the greatest bin.
fn beyond_32_bits() -> [bool; 5] {
    [
        Bin32::read(4294967295).is_none(),
        Bin32::of(32, 0).is_none(),
        Bin32::of(255, 4294967295).is_none(),
        Bin32::of(31, 1).is_none(),
        Bin32::of(0, 2147483648).is_none(),
    ]
}

fn beyond_64_bits() -> [bool; 4] {
    [
        Bin64::read(18446744073709551615).is_none(),
        Bin64::of(64, 0).is_none(),
        Bin64::of(63, 1).is_none(),
        Bin64::of(0, 9223372036854775808).is_none(),
    ]
}

// The first leaf and the last of a bin, and the numbers of its parent and of its sibling.
fn family_32(number: u32) -> [u32; 4] {
    match Bin32::read(number) {
        Some(bin) => [
            bin.first(),
            bin.last(),
            number_32(bin.parent()),
            number_32(bin.sibling()),
        ],
        None => [NONE_32; 4],
    }
}

fn family_64(number: u64) -> [u64; 4] {
    match Bin64::read(number) {
        Some(bin) => [
            bin.first(),
            bin.last(),
            number_64(bin.parent()),
            number_64(bin.sibling()),
        ],
        None => [NONE_64; 4],
    }
}

#[test]
fn edges_of_32_bits(rt: HostRuntime) {
    assert!(rt; beyond_32_bits() == [true; 5]);
    assert!(rt; family_32(2147483647) == [0, 2147483647, NONE_32, NONE_32]);
    assert!(rt; family_32(5) == [2, 3, 3, 1]);
    assert!(rt; stands_32(4294967294, 0, 2147483647));
    assert!(rt; family_32(4294967294).starts_with(&[2147483647, 2147483647]));
}

#[test]
fn edges_of_64_bits(rt: HostRuntime) {
    assert!(rt; beyond_64_bits() == [true; 4]);
    assert!(rt; family_64(9223372036854775807) == [0, 9223372036854775807, NONE_64, NONE_64]);
    assert!(rt; stands_64(4294967295, 32, 0));
}
