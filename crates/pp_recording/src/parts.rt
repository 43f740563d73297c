// The words of a recording's line.
ghost use Rattle.std.specs.Prelude.{◌≡◌, ◌≢◌, ◌↔◌, List, ℕ, ◌∷◌, ◌++◌, ◌≤◌, true, All, length, MatchOption, IfSome, IfOk, IsTrue};
ghost use Rattle.std.specs.List.{list_all};
ghost use Rattle.hex.specs.Hex.{encode_lower, IsBytes};
ghost use Rattle.pp_terms.specs.format.DescriptorRead.{is_lower_hex};
ghost use Rattle.pp_outside.specs.Outside.{address_of};
ghost use Rattle.pp_terms.specs.format.Traffic as terms;
ghost use Rattle.pp_recording.specs.Spelling.{address_text};
ghost use Rattle.pp_recording.specs.Recording.{IsPort, IsPeerAddress};
ghost use Rattle.pp_recording.specs.Lines.{IsHex};

use crate::spelling::add_address;
use pp_outside::Address;
use pp_tree::Digest;
use pp_words::read_address;
use std::alloc::AllocError;

// How many hexadecimal digits the longest datagram has.
const MOST_DIGITS: usize = 131_072;

/// What stands before the first such byte and behind it.
pub(crate) fn split_at_byte(text: &[u8], byte: u8) -> Option<(&[u8], &[u8])>
    ensures { MatchOption result (All (λ b. b ≢ byte) text.now)
        (λ parts. (text.now ≡ parts.0.now ++ byte ∷ parts.1.now) × All (λ b. b ≢ byte) parts.0.now) }
{
    match text.iter().position(|b| *b == byte) {
        Some(at) => Some((&text[..at], &text[at + 1..])),
        None => None,
    }
}

fn is_lower_hex(byte: u8) -> bool
    ensures { result ≡ is_lower_hex byte }
{
    byte.is_ascii_digit() || (b'a'..=b'f').contains(&byte)
}

fn are_digits(word: &[u8]) -> bool
    ensures { result ≡ list_all is_lower_hex word.now }
{
    word.iter().all(|byte| is_lower_hex(*byte))
}

/// The digest that 64 hexadecimal digits in lower case write.
pub(crate) fn digest_in(word: &[u8]) -> Option<Digest>
    ensures { MatchOption result ((bytes : List ℕ) → length bytes ≡ 32 → IsBytes bytes → word.now ≡ encode_lower bytes → ⊥)
        (λ digest. (word.now ≡ encode_lower digest) × (length digest ≡ 32) × IsBytes digest) }
{
    if word.len() != 64 || !are_digits(word) {
        return None;
    }
    Some(digest_of(word))
}

// The digest that such digits write.
fn digest_of(digits: &[u8]) -> Digest
    requires len { length digits.now ≡ 64 }
    requires lower { list_all is_lower_hex digits.now ≡ true }
    ensures text { encode_lower result ≡ digits.now }
    ensures all { IsBytes result }
    ensures size { length result ≡ 32 }
{
    let mut bytes = [0; 32];
    hex::decode_to_slice(digits, &mut bytes).unwrap();
    Digest::new(bytes)
}

/// Whether the word is that of some bytes: `-`, or pairs of hexadecimal digits in lower case.
#[tactic(auto, using(crate::proofs::HexWords::hex_pairs, crate::proofs::HexWords::no_bytes))]
pub(crate) fn is_hex(word: &[u8]) -> bool
    ensures { IsTrue result ↔ IsHex word.now }
{
    if word == b"-".as_slice() {
        return true;
    }
    if word.is_empty() || word.len() % 2 == 1 || word.len() > MOST_DIGITS {
        return false;
    }
    are_digits(word)
}

/// The address that the word writes in the one spelling. The scratch holds its text; it keeps nothing.
pub(crate) fn address_in(word: &[u8], scratch: &mut Vec<u8>) -> Result<Option<Address>, AllocError>
    ensures { IfOk result (λ found. MatchOption found ((a : terms.Address) → IsPeerAddress a → word.now ≡ address_text a → ⊥)
        (λ a. (word.now ≡ address_text (address_of a)) × IsPeerAddress (address_of a))) }
{
    let Some(address) = read_address(word) else {
        return Ok(None);
    };
    if !has_port(&address) {
        return Ok(None);
    }
    scratch.clear();
    add_address(scratch, &address)?;
    if scratch.as_slice() == word {
        Ok(Some(address))
    } else {
        Ok(None)
    }
}

/// Whether it is a peer's.
pub(crate) fn has_port(address: &Address) -> bool
    ensures { IsTrue result ↔ IsPeerAddress (address_of address.now) }
{
    match address {
        Address::V4(bytes, port) => is_peer_v4(bytes, *port),
        Address::V6(bytes, port) => is_peer_v6(bytes, *port),
    }
}

fn is_peer_v4(bytes: &[u8; 4], port: u16) -> bool
    ensures { IsTrue result ↔ IsPeerAddress (terms.V4 bytes.now port) }
{
    let _octets = *bytes;
    is_port(bytes.as_slice(), port)
}

fn is_peer_v6(bytes: &[u8; 16], port: u16) -> bool
    ensures { IsTrue result ↔ IsPeerAddress (terms.V6 bytes.now port) }
{
    let _octets = *bytes;
    is_port(bytes.as_slice(), port)
}

// Whether the port is a peer's; what stands before it are bytes in any case.
fn is_port(_bytes: &[u8], port: u16) -> bool
    ensures port { IsTrue result ↔ IsPort port }
    ensures bytes { IsBytes _bytes.now }
{
    port > 0
}
