// The texts of rehearsals.
use pp_replay::rehearsal;
use sha2::{Digest, Sha256};
use std::alloc::Global;
use std::test::*;

const BEGINNING_OF_1: &[u8] = b"ppspp-schedule 1\n\
    content 1024 252037 187\n\
    peer 0 seed\n\
    peer 1 fetch rarest 0\n\
    peer 2 fetch rarest 0 1\n\
    peer 3 fetch rarest 0 1 2\n\
    run 1 20000\n";

const BEGINNING_OF_2_TO_63_AND_5: &[u8] = b"ppspp-schedule 1\n\
    content 1024 158044 84\n\
    peer 0 seed\n\
    peer 1 fetch rarest 0\n\
    peer 2 fetch rarest 0 1\n\
    peer 3 fetch rarest 0 1 2\n\
    run 1 20000\n\
    lose 1\n\
    run 1 20000\n\
    run 1 20000\n\
    repeat 1\n";

// The SHA-256 of a text, in hexadecimal digits.
fn digits_of(text: &[u8]) -> [u8; 64] {
    let mut digits = [0; 64];
    hex::encode_to_slice(&Sha256::digest(text), &mut digits).unwrap();
    digits
}

// Whether the text of a rehearsal begins so, has so many bytes, and has this SHA-256.
fn is_text(alloc: Global, number: u64, beginning: &[u8], length: usize, digits: &[u8; 64]) -> bool {
    match rehearsal(alloc, number) {
        Ok(text) => {
            text.starts_with(beginning) && text.len() == length && digits_of(&text) == *digits
        }
        Err(_) => false,
    }
}

const DIGITS_OF_1: &[u8; 64] = b"67a53ab7d83b75393be20f6ba91a3ea70c541cd72b114b3b7578204604882159";

const DIGITS_OF_2_TO_63_AND_5: &[u8; 64] =
    b"608a8e6e14781f530bc2d0f9bc0e1b15ba6ba2b3bcb48b6c54d6881d10c30a2c";

// Expected is what a program in Python makes, whose ChaCha gives the block of RFC 8439 at 20 rounds.
#[test]
fn rehearses_as_another_program(rt: HostRuntime) {
    let (beginning, digits) = (BEGINNING_OF_2_TO_63_AND_5, DIGITS_OF_2_TO_63_AND_5);
    assert!(rt; is_text(rt.alloc(), 1, BEGINNING_OF_1, 27_510, DIGITS_OF_1));
    assert!(rt; is_text(rt.alloc(), (1 << 63) + 5, beginning, 27_611, digits));
}
