//! Options read from the bytes of a datagram.

ghost use Rattle.std.specs.Prelude.{◌≡◌, ℕ, ◌≤◌, List, ◌++◌, length, take, slice_index, option_map, IfOk, IsTrue, Ok};
ghost use Rattle.pp_terms.specs.format.Options.{Options as PlainOptions, IsSpelling, is_known, is_given, value_length, option_of, with_option, fault_at, read_options};
ghost use Rattle.pp_options.specs.Views.{options_of, fault_of, read_of, IsSpelledBy};

use crate::value::{OptionFault, Options};

const NONE: Options<'static> = Options {
    version: None,
    minimum: None,
    swarm: None,
    integrity: None,
    hash: None,
    addressing: None,
    messages: None,
    chunk: None,
};

const END: u8 = 255;

const MOST_BITMAP: u8 = 32;

fn byte_at(bytes: &[u8], i: usize) -> u8
    ensures { result ≡ slice_index bytes.now i }
{
    if i < bytes.len() { bytes[i] } else { 0 }
}

fn is_known(code: u8) -> bool
    ensures { result ≡ is_known code }
{
    code <= 4 || code == 6 || code == 8 || code == 9
}

fn is_given(seen: &Options, code: u8) -> bool
    ensures { result ≡ is_given (options_of seen.now) code }
{
    match code {
        0 => seen.version.is_some(),
        1 => seen.minimum.is_some(),
        2 => seen.swarm.is_some(),
        3 => seen.integrity.is_some(),
        4 => seen.hash.is_some(),
        6 => seen.addressing.is_some(),
        8 => seen.messages.is_some(),
        9 => seen.chunk.is_some(),
        _ => false,
    }
}

fn value_length(code: u8, rest: &[u8]) -> usize
    ensures { result ≡ value_length code rest.now }
{
    match code {
        2 => 2 + usize::from(u16::from_be_bytes([byte_at(rest, 0), byte_at(rest, 1)])),
        8 => 1 + usize::from(byte_at(rest, 0)),
        9 => 4,
        _ => 1,
    }
}

#[tactic(auto, unfolding(pp_terms::specs::format::Options::fault_at))]
fn fault_at(seen: &Options, at: usize, code: u8, rest: &[u8]) -> Option<OptionFault>
    ensures { option_map fault_of result ≡ fault_at (options_of seen.now) at code rest.now }
{
    if !is_known(code) {
        return Some(OptionFault::Unknown { at, code });
    }
    if is_given(seen, code) {
        return Some(OptionFault::Twice { at, code });
    }
    let length = byte_at(rest, 0);
    if code == 8 && length > MOST_BITMAP {
        return Some(OptionFault::BadLength { at, length });
    }
    if rest.len() < value_length(code, rest) {
        return Some(OptionFault::Short { at });
    }
    None
}

fn with_option<'a>(seen: Options<'a>, code: u8, rest: &'a [u8]) -> Options<'a>
    requires known { IsTrue (is_known code) }
    requires whole { value_length code rest.now ≤ length rest.now }
    ensures { options_of result ≡ with_option (option_of code rest.now) (options_of seen.entry) }
{
    match code {
        0 => Options {
            version: Some(rest[0]),
            ..seen
        },
        1 => Options {
            minimum: Some(rest[0]),
            ..seen
        },
        2 => {
            let length = usize::from(u16::from_be_bytes([rest[0], rest[1]]));
            Options {
                swarm: Some(&rest[2..2 + length]),
                ..seen
            }
        }
        3 => Options {
            integrity: Some(rest[0]),
            ..seen
        },
        4 => Options {
            hash: Some(rest[0]),
            ..seen
        },
        6 => Options {
            addressing: Some(rest[0]),
            ..seen
        },
        8 => Options {
            messages: Some(&rest[1..1 + usize::from(rest[0])]),
            ..seen
        },
        _ => Options {
            chunk: Some(u32::from_be_bytes([rest[0], rest[1], rest[2], rest[3]])),
            ..seen
        },
    }
}

fn scan<'a>(bytes: &'a [u8]) -> Result<(Options<'a>, usize), OptionFault>
    ensures { read_of result ≡ read_options bytes.now }
{
    let mut seen = NONE;
    let mut at = 0;
    while at < bytes.len() {
        let code = bytes[at];
        if code == END {
            return Ok((seen, at + 1));
        }
        let (_, rest) = bytes.split_at(at + 1);
        match fault_at(&seen, at, code, rest) {
            Some(fault) => return Err(fault),
            None => {}
        }
        seen = with_option(seen, code, rest);
        at += 1 + value_length(code, rest);
    }
    Err(OptionFault::Short { at })
}

/// The options that the bytes begin with, in any order, and how many bytes they take, code 255 included (RFC 7574,
/// section 7). Bytes may follow. At each code a fault is looked for in the order Unknown, Twice, BadLength, Short.
pub fn read<'a>(bytes: &'a [u8]) -> Result<(Options<'a>, usize), OptionFault>
    // What is read is spelled so, by so many bytes.
    ensures found { IfOk result (λ x. IsSpelledBy (options_of x.0) x.1 bytes.now) }
    // What is spelled so is read, whatever follows.
    ensures only { (o : PlainOptions) (text rest : List ℕ) → IsSpelling o text → bytes.now ≡ text ++ rest → read_of result ≡ Ok (o, length text) }
    // Which fault it is.
    ensures exact { read_of result ≡ read_options bytes.now }
{
    scan(bytes)
}
