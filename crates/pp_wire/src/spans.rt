//! Chunk specifications: bins and ranges (RFC 7574, sections 4 and 7.8).

ghost use Rattle.std.specs.Prelude.{◌≡◌, ℕ, ◌+◌, ◌^◌, ◌<◌, ◌≤◌, length};
ghost use Rattle.std.specs.Int.{w32, w64, from_be_bytes};
ghost use Rattle.pp_terms.specs.format.Messages.{span_length, leaves_of, span_of_bin, span_of_range, span_in};
ghost use Rattle.pp_tree.specs.Method.{method_of};
ghost use Rattle.pp_wire.specs.Views.{span_of, Gives};

use crate::message::{Span, WireKind};
use pp_tree::Method;

/// How many bytes a chunk specification has.
pub fn span_length(method: Method) -> usize
    ensures { result ≡ span_length (method_of method) }
{
    match method {
        Method::Bin32 => 4,
        Method::Range32 | Method::Bin64 => 8,
        Method::Range64 => 16,
    }
}

/// The leaves of a bin.
#[tactic(auto, using(pp_terms::proofs::BinSpans::leaves_of_even, pp_terms::proofs::BinSpans::leaves_of_odd))]
fn leaves_of(bin: u64) -> Span
    ensures leaves { (bits : ℕ) → bin < 2 ^ bits → span_of result ≡ leaves_of bits bin }
    ensures order { result.first ≤ result.last }
    ensures low { result.last ≤ bin }
{
    if bin % 2 == 0 {
        return Span {
            first: bin / 2,
            last: bin / 2,
        };
    }
    let half = leaves_of(bin / 2);
    Span {
        first: 2 * half.first,
        last: 2 * half.last + 1,
    }
}

fn span_of_range(first: u64, last: u64) -> Result<Span, WireKind>
    ensures { Gives span_of result (span_of_range first last) }
{
    if last < first {
        return Err(WireKind::Range);
    }
    Ok(Span { first, last })
}

fn span_of_bin32(bin: u32) -> Result<Span, WireKind>
    ensures { Gives span_of result (span_of_bin 32 bin) }
{
    if bin == u32::MAX {
        return Err(WireKind::Range);
    }
    Ok(leaves_of(u64::from(bin)))
}

fn span_of_bin64(bin: u64) -> Result<Span, WireKind>
    ensures { Gives span_of result (span_of_bin 64 bin) }
{
    if bin == u64::MAX {
        return Err(WireKind::Range);
    }
    Ok(leaves_of(bin))
}

fn u32_of(bytes: &[u8]) -> u32
    requires { length bytes.now ≡ 4 }
    ensures { result ≡ from_be_bytes w32 bytes.now }
{
    u32::from_be_bytes([bytes[0], bytes[1], bytes[2], bytes[3]])
}

fn u64_of(bytes: &[u8]) -> u64
    requires { length bytes.now ≡ 8 }
    ensures { result ≡ from_be_bytes w64 bytes.now }
{
    u64::from_be_bytes([
        bytes[0], bytes[1], bytes[2], bytes[3], bytes[4], bytes[5], bytes[6], bytes[7],
    ])
}

/// The chunks that a specification names.
#[tactic(auto, unfolding(pp_terms::specs::format::Messages::span_in))]
pub fn span_in(method: Method, bytes: &[u8]) -> Result<Span, WireKind>
    requires { length bytes.now ≡ span_length (method_of method) }
    ensures { Gives span_of result (span_in (method_of method) bytes.now) }
{
    match method {
        Method::Bin32 => span_of_bin32(u32_of(bytes)),
        Method::Range32 => {
            let (first, last) = bytes.split_at(4);
            span_of_range(u64::from(u32_of(first)), u64::from(u32_of(last)))
        }
        Method::Bin64 => span_of_bin64(u64_of(bytes)),
        Method::Range64 => {
            let (first, last) = bytes.split_at(8);
            span_of_range(u64_of(first), u64_of(last))
        }
    }
}
