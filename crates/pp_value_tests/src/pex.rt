// What a peer that asks is told, and what is dialled.
use pp_outside::Address;
use pp_pex::Pex;
use std::test::*;

const SECOND: u64 = 1_000_000;

const ASKER: Address = Address::V4([127, 0, 0, 1], 7001);

// What number 5 is told when 64 has come to the place of 2.
const TOLD: [u8; 16] = [0, 1, 64, 3, 4, 6, 7, 8, 9, 10, 11, 12, 13, 14, 15, 16];

// Who was heard, and at which second.
const HEARD: [(Address, u64); 4] = [
    (Address::V4([127, 0, 0, 1], 6999), 40),
    (PLAIN, 95),
    (ASKER, 95),
    (WIDE, 95),
];

const PLAIN: Address = Address::V4([127, 0, 0, 1], 7000);

const WIDE: Address = Address::V6([0, 0, 0, 0, 0, 0, 0, 0, 0, 0, 0, 0, 0, 0, 0, 1], 7000);

fn numbered(number: u8) -> Address {
    Address::V4([10, 0, 0, number], 7000)
}

fn hear_four(pex: &mut Pex) {
    for (address, second) in HEARD {
        pex.heard(&address, second.saturating_mul(SECOND));
    }
}

// How many addresses the asker is told.
fn told(pex: &Pex, now: u64) -> usize {
    pex.answer(&ASKER, now).len()
}

// Whether it is told these.
fn tells(pex: &Pex, now: u64, want: &[Address]) -> bool {
    &pex.answer(&ASKER, now)[..] == want
}

#[test]
fn tells_those_heard_lately(rt: HostRuntime) {
    let mut pex = Pex::new();
    assert!(rt; told(&pex, 0) == 0);
    hear_four(&mut pex);
    assert!(rt; tells(&pex, 100 * SECOND, &[PLAIN, WIDE]));
    assert!(rt; told(&pex, 100 * SECOND - 1) == 3 && told(&pex, 155 * SECOND) == 0);
}

// Those heard longest ago are numbers 2 and 3, when number 64 comes.
fn hear_65(pex: &mut Pex) {
    for number in 0..64u8 {
        pex.heard(&numbered(number), u64::from(number / 2 + 5));
    }
    pex.heard(&numbered(0), 60);
    pex.heard(&numbered(1), 60);
    pex.heard(&numbered(64), 61);
}

// Whether these addresses have the numbers that are to be told.
fn are_told(addresses: &[Address]) -> bool {
    for i in 0..16 {
        match addresses.get(i) {
            Some(address) if *address == numbered(TOLD[i]) => {}
            _ => return false,
        }
    }
    addresses.len() == 16
}

#[test]
fn hears_65_addresses(rt: HostRuntime) {
    let mut pex = Pex::new();
    hear_65(&mut pex);
    assert!(rt; are_told(&pex.answer(&numbered(5), 62)));
}

// 65 addresses are suggested, most of them twice or more, and one without a port.
fn suggest_65(pex: &mut Pex) {
    pex.suggest(&Address::V6([9; 16], 0));
    for number in 0..65u8 {
        pex.suggest(&numbered(number));
        pex.suggest(&numbered(number / 2));
    }
}

fn dials(pex: &mut Pex, number: u8) -> bool {
    pex.next_dial() == Some(numbered(number))
}

// Whether 64 are dialled in turn, and one that is suggested again.
fn dials_64(pex: &mut Pex) -> bool {
    for number in 0..64u8 {
        if !dials(pex, number) {
            return false;
        }
    }
    let dials_all = pex.next_dial().is_none();
    pex.suggest(&numbered(7));
    dials_all && dials(pex, 7)
}

#[test]
fn dials_each_suggestion_once(rt: HostRuntime) {
    let mut pex = Pex::new();
    assert!(rt; pex.next_dial().is_none());
    suggest_65(&mut pex);
    assert!(rt; dials_64(&mut pex));
}
