// The lines of a recording behind its second one.
ghost use Rattle.std.specs.Prelude.{◌≡◌, ◌<◌, ◌^◌, ◌++◌, codes, decimal, MatchOption, IfOk};
ghost use Rattle.pp_outside.specs.Outside.{address_of};
ghost use Rattle.pp_recording.specs.Spelling.{address_text};
ghost use Rattle.pp_recording.specs.Lines.{IsHex, NoNode, NoDatagram, Says};
ghost use Rattle.pp_recording.specs.Recording.{IsPeerAddress};

use crate::parts::{address_in, digest_in, is_hex, split_at_byte};
use pp_outside::Address;
use pp_tree::{Digest, Node};
use pp_words::number::number;
use std::alloc::AllocError;

/// What a line says; `digits` are those of a datagram, or `-`.
#[derive(Clone, Copy)]
pub(crate) enum Line<'a> {
    Node {
        node: Node,
        digest: Digest,
    },
    Received {
        at: u64,
        from: Address,
        digits: &'a [u8],
    },
    Quiet {
        at: u64,
    },
    Sent {
        moment: u64,
        to: Address,
        digits: &'a [u8],
    },
    Wrong,
}

// A number, an address and the digits of a datagram.
#[derive(Drop)]
struct Datagram<'a> {
    number: u64,
    address: Address,
    digits: &'a [u8],
}

// The line of a node.
#[tactic(auto, unfolding(crate::specs::Spelling::node_line))]
fn node_in(words: &[u8]) -> Option<Line<'_>>
    ensures { MatchOption result (NoNode words.now) (Says (codes "node " ++ words.now)) }
{
    let (layer, words) = split_at_byte(words, b' ')?;
    let (offset, digits) = split_at_byte(words, b' ')?;
    let layer = number(layer, 20)? as u8;
    let offset = number(offset, 1_048_575)? as u32;
    let digest = digest_in(digits)?;
    Some(Line::Node {
        node: Node { layer, offset },
        digest,
    })
}

// The words of a datagram's line behind the first.
fn datagram_in<'a>(
    words: &'a [u8],
    scratch: &mut Vec<u8>,
) -> Result<Option<Datagram<'a>>, AllocError>
    ensures { IfOk result (λ found. MatchOption found (NoDatagram words.now) (λ d.
        (words.now ≡ decimal d.number ++ codes " " ++ address_text (address_of d.address) ++ codes " " ++ d.digits.now)
        × IsPeerAddress (address_of d.address) × IsHex d.digits.now × (d.number < 2 ^ 64))) }
{
    let Some((first, words)) = split_at_byte(words, b' ') else {
        return Ok(None);
    };
    let Some((second, digits)) = split_at_byte(words, b' ') else {
        return Ok(None);
    };
    let Some(number) = number(first, u64::MAX) else {
        return Ok(None);
    };
    if !is_hex(digits) {
        return Ok(None);
    }
    match address_in(second, scratch)? {
        Some(address) => Ok(Some(Datagram {
            number,
            address,
            digits,
        })),
        None => Ok(None),
    }
}

/// What a line says, by its first word.
#[tactic(auto, unfolding(crate::specs::Spelling::record_line))]
pub(crate) fn line_in<'a>(row: &'a [u8], scratch: &mut Vec<u8>) -> Result<Line<'a>, AllocError>
    ensures { IfOk result (Says row.now) }
{
    let Some((name, words)) = split_at_byte(row, b' ') else {
        return Ok(Line::Wrong);
    };
    if name == b"node".as_slice() {
        return Ok(match node_in(words) {
            Some(line) => line,
            None => Line::Wrong,
        });
    }
    if name == b"quiet".as_slice() {
        return Ok(match number(words, u64::MAX) {
            Some(at) => Line::Quiet { at },
            None => Line::Wrong,
        });
    }
    if name == b"received".as_slice() {
        return Ok(match datagram_in(words, scratch)? {
            Some(d) => Line::Received {
                at: d.number,
                from: d.address,
                digits: d.digits,
            },
            None => Line::Wrong,
        });
    }
    if name == b"sent".as_slice() {
        return Ok(match datagram_in(words, scratch)? {
            Some(d) => Line::Sent {
                moment: d.number,
                to: d.address,
                digits: d.digits,
            },
            None => Line::Wrong,
        });
    }
    Ok(Line::Wrong)
}
