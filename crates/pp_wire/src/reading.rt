//! Messages read from the bytes of a datagram.

ghost use Rattle.std.specs.Prelude.{◌≡◌, ◌↔◌, ℕ, ◌+◌, ◌^◌, ◌≤◌, ◌<◌, List, length, take, drop, IfOk, Ok};
ghost use Rattle.std.specs.Int.{w16, w32, w64};
ghost use Rattle.pp_terms.specs.format.Messages.{Message as PlainMessage, Read, End, BeginsWith, bytes_at, number_at, chunk_bytes_at, one_chunk, handshake_at, data_at, ack_at, integrity_at, span_at, address_at, message_at, next_message, moved, later, place_of, options_in};
ghost use Rattle.pp_terms.specs.format.Options.{read_options};
ghost use Rattle.pp_options.specs.Views.{options_of, fault_of};
ghost use Rattle.pp_tree.specs.Method.{method_of};
ghost use Rattle.pp_wire.specs.Views.{span_of, message_of, step_of, Gives};

use crate::message::{Message, Span, Step, WireFault, WireKind};
use crate::spans::{span_in, span_length};
use crate::types;
use pp_options::{OptionFault, Options, read};
use pp_tree::{Digest, Method};

/// Where the options of a handshake begin: behind its type and its source channel.
const OPTIONS: usize = 5;

fn bytes_at(bytes: &[u8], size: usize) -> Result<(&[u8], &[u8]), WireKind>
    ensures gives { Gives (λ x. (x.0.now, x.1.now)) result (bytes_at size bytes.now) }
    ensures size { IfOk result (λ x. length x.0.now ≡ size) }
    ensures rest { IfOk result (λ x. length x.1.now ≤ length bytes.now) }
{
    if bytes.len() < size {
        return Err(WireKind::Short);
    }
    Ok(bytes.split_at(size))
}

fn u16_at(bytes: &[u8]) -> Result<(u16, &[u8]), WireKind>
    ensures gives { Gives (λ x. (x.0, x.1.now)) result (number_at w16 bytes.now) }
    ensures rest { IfOk result (λ x. length x.1.now ≤ length bytes.now) }
{
    if bytes.len() < 2 {
        return Err(WireKind::Short);
    }
    let (front, rest) = bytes.split_at(2);
    Ok((u16::from_be_bytes([front[0], front[1]]), rest))
}

fn u64_at(bytes: &[u8]) -> Result<(u64, &[u8]), WireKind>
    ensures gives { Gives (λ x. (x.0, x.1.now)) result (number_at w64 bytes.now) }
    ensures rest { IfOk result (λ x. length x.1.now ≤ length bytes.now) }
{
    if bytes.len() < 8 {
        return Err(WireKind::Short);
    }
    let (front, rest) = bytes.split_at(8);
    let number = u64::from_be_bytes([
        front[0], front[1], front[2], front[3], front[4], front[5], front[6], front[7],
    ]);
    Ok((number, rest))
}

fn chunk_bytes_at(bytes: &[u8], chunk: u32) -> Result<(&[u8], &[u8]), WireKind>
    ensures gives { Gives (λ x. (x.0.now, x.1.now)) result (chunk_bytes_at chunk bytes.now) }
    ensures rest { IfOk result (λ x. length x.1.now ≤ length bytes.now) }
{
    if bytes.is_empty() {
        return Err(WireKind::Short);
    }
    let size = bytes.len().min(chunk as usize);
    Ok(bytes.split_at(size))
}

fn one_chunk(span: Span) -> Result<u64, WireKind>
    ensures { Gives (λ x. x) result (one_chunk (span_of span)) }
{
    if span.first == span.last {
        Ok(span.first)
    } else {
        Err(WireKind::Wide)
    }
}

#[tactic(auto, unfolding(pp_terms::specs::format::Messages::data_at))]
fn data_at(bytes: &[u8], method: Method, chunk: u32) -> Result<(Message<'_>, &[u8]), WireKind>
    ensures gives { Gives (λ x. (message_of x.0, x.1.now)) result (data_at (method_of method) chunk bytes.now) }
    ensures rest { IfOk result (λ x. length x.1.now ≤ length bytes.now) }
{
    let (place, rest) = bytes_at(bytes, span_length(method))?;
    let (sent_at, rest) = u64_at(rest)?;
    let (bytes, rest) = chunk_bytes_at(rest, chunk)?;
    let chunk = one_chunk(span_in(method, place)?)?;
    Ok((
        Message::Data {
            chunk,
            sent_at,
            bytes,
        },
        rest,
    ))
}

#[tactic(auto, unfolding(pp_terms::specs::format::Messages::ack_at))]
fn ack_at(bytes: &[u8], method: Method) -> Result<(Message<'_>, &[u8]), WireKind>
    ensures gives { Gives (λ x. (message_of x.0, x.1.now)) result (ack_at (method_of method) bytes.now) }
    ensures rest { IfOk result (λ x. length x.1.now ≤ length bytes.now) }
{
    let (place, rest) = bytes_at(bytes, span_length(method))?;
    let (delay, rest) = u64_at(rest)?;
    let span = span_in(method, place)?;
    Ok((Message::Ack { span, delay }, rest))
}

#[tactic(auto, unfolding(pp_terms::specs::format::Messages::span_at))]
fn span_at(bytes: &[u8], method: Method) -> Result<(Span, &[u8]), WireKind>
    ensures gives { Gives (λ x. (span_of x.0, x.1.now)) result (span_at (method_of method) bytes.now) }
    ensures rest { IfOk result (λ x. length x.1.now ≤ length bytes.now) }
{
    let (place, rest) = bytes_at(bytes, span_length(method))?;
    let span = span_in(method, place)?;
    Ok((span, rest))
}

#[tactic(auto, unfolding(pp_terms::specs::format::Messages::integrity_at))]
fn integrity_at(bytes: &[u8], method: Method) -> Result<(Message<'_>, &[u8]), WireKind>
    ensures gives { Gives (λ x. (message_of x.0, x.1.now)) result (integrity_at (method_of method) bytes.now) }
    ensures rest { IfOk result (λ x. length x.1.now ≤ length bytes.now) }
{
    let (place, rest) = bytes_at(bytes, span_length(method))?;
    let (front, rest) = bytes_at(rest, 32)?;
    let span = span_in(method, place)?;
    let mut digest = [0; 32];
    digest.copy_from_slice(front);
    Ok((
        Message::Integrity {
            span,
            digest: Digest::new(digest),
        },
        rest,
    ))
}

#[tactic(auto, unfolding(pp_terms::specs::format::Messages::address_at))]
fn address4_at(bytes: &[u8]) -> Result<([u8; 4], u16, &[u8]), WireKind>
    ensures gives { Gives (λ x. (x.0, x.1, x.2.now)) result (address_at 4 bytes.now) }
    ensures rest { IfOk result (λ x. length x.2.now ≤ length bytes.now) }
{
    let (front, rest) = bytes_at(bytes, 4)?;
    let (port, rest) = u16_at(rest)?;
    let mut address = [0; 4];
    address.copy_from_slice(front);
    Ok((address, port, rest))
}

#[tactic(auto, unfolding(pp_terms::specs::format::Messages::address_at))]
fn address6_at(bytes: &[u8]) -> Result<([u8; 16], u16, &[u8]), WireKind>
    ensures gives { Gives (λ x. (x.0, x.1, x.2.now)) result (address_at 16 bytes.now) }
    ensures rest { IfOk result (λ x. length x.2.now ≤ length bytes.now) }
{
    let (front, rest) = bytes_at(bytes, 16)?;
    let (port, rest) = u16_at(rest)?;
    let mut address = [0; 16];
    address.copy_from_slice(front);
    Ok((address, port, rest))
}

fn u32_at(bytes: &[u8]) -> Result<(u32, &[u8]), WireKind>
    ensures gives { Gives (λ x. (x.0, x.1.now)) result (number_at w32 bytes.now) }
    ensures rest { IfOk result (λ x. length x.1.now + 4 ≤ length bytes.now) }
{
    if bytes.len() < 4 {
        return Err(WireKind::Short);
    }
    let (front, rest) = bytes.split_at(4);
    Ok((
        u32::from_be_bytes([front[0], front[1], front[2], front[3]]),
        rest,
    ))
}

/// The fault, whose place is counted from `OPTIONS` bytes before.
fn later(fault: OptionFault) -> OptionFault
    requires { place_of (fault_of fault) + 5 < 2 ^ 64 }
    ensures { fault_of result ≡ later 5 (fault_of fault) }
{
    match fault {
        OptionFault::Short { at } => OptionFault::Short { at: OPTIONS + at },
        OptionFault::Unknown { at, code } => OptionFault::Unknown {
            at: OPTIONS + at,
            code,
        },
        OptionFault::Twice { at, code } => OptionFault::Twice {
            at: OPTIONS + at,
            code,
        },
        OptionFault::BadLength { at, length } => OptionFault::BadLength {
            at: OPTIONS + at,
            length,
        },
    }
}

#[tactic(auto, using(pp_terms::proofs::Grammar::fault_within))]
fn options_at(bytes: &[u8]) -> Result<(Options<'_>, &[u8]), WireKind>
    requires { length bytes.now + 5 < 2 ^ 64 }
    ensures gives { Gives (λ x. (options_of x.0, x.1.now)) result (options_in bytes.now (read_options bytes.now)) }
    ensures rest { IfOk result (λ x. length x.1.now ≤ length bytes.now) }
{
    match read(bytes) {
        Ok((options, size)) => {
            let (_, rest) = bytes.split_at(size);
            Ok((options, rest))
        }
        Err(fault) => Err(WireKind::Options(later(fault))),
    }
}

#[tactic(auto, unfolding(pp_terms::specs::format::Messages::handshake_at))]
fn handshake_at(bytes: &[u8]) -> Result<(Message<'_>, &[u8]), WireKind>
    requires { length bytes.now + 1 < 2 ^ 64 }
    ensures gives { Gives (λ x. (message_of x.0, x.1.now)) result (handshake_at bytes.now) }
    ensures rest { IfOk result (λ x. length x.1.now ≤ length bytes.now) }
{
    let (source, rest) = u32_at(bytes)?;
    let (options, rest) = options_at(rest)?;
    Ok((Message::Handshake { source, options }, rest))
}

/// The message behind its type, and the bytes after it.
#[tactic(auto, unfolding(pp_terms::specs::format::Messages::message_at))]
fn message_at(
    kind: u8,
    bytes: &[u8],
    method: Method,
    chunk: u32,
) -> Result<(Message<'_>, &[u8]), WireKind>
    requires { length bytes.now + 1 < 2 ^ 64 }
    ensures gives { Gives (λ x. (message_of x.0, x.1.now)) result (message_at (method_of method) chunk kind bytes.now) }
    ensures rest { IfOk result (λ x. length x.1.now ≤ length bytes.now) }
{
    match kind {
        types::HANDSHAKE => handshake_at(bytes),
        types::DATA => data_at(bytes, method, chunk),
        types::ACK => ack_at(bytes, method),
        types::HAVE => {
            let (span, rest) = span_at(bytes, method)?;
            Ok((Message::Have { span }, rest))
        }
        types::INTEGRITY => integrity_at(bytes, method),
        types::PEX_RES_4 => {
            let (address, port, rest) = address4_at(bytes)?;
            Ok((Message::Pex4 { address, port }, rest))
        }
        types::PEX_REQ => Ok((Message::PexReq, bytes)),
        types::REQUEST => {
            let (span, rest) = span_at(bytes, method)?;
            Ok((Message::Request { span }, rest))
        }
        types::CANCEL => {
            let (span, rest) = span_at(bytes, method)?;
            Ok((Message::Cancel { span }, rest))
        }
        types::CHOKE => Ok((Message::Choke, bytes)),
        types::UNCHOKE => Ok((Message::Unchoke, bytes)),
        types::PEX_RES_6 => {
            let (address, port, rest) = address6_at(bytes)?;
            Ok((Message::Pex6 { address, port }, rest))
        }
        _ => Err(WireKind::UnknownType(kind)),
    }
}

#[tactic(auto, unfolding(pp_terms::specs::format::Messages::next_message))]
fn step<'a>(bytes: &'a [u8], at: usize, method: Method, chunk: u32) -> Step<'a>
    requires { at ≤ length bytes.now }
    ensures { step_of result ≡ moved at (next_message (method_of method) chunk (drop at bytes.now)) }
{
    let (_, tail) = bytes.split_at(at);
    match tail {
        [] => Step::End,
        [kind, rest @ ..] => match message_at(*kind, rest, method, chunk) {
            Ok((message, left)) => Step::Message {
                message,
                next: bytes.len() - left.len(),
            },
            Err(kind) => Step::Cut(WireFault { at, kind }),
        },
    }
}

/// What stands at the place `at` of a datagram, which is at most its length. `method` and `chunk`, at least 1, are the
/// swarm's chunk addressing method and its chunk size in bytes. A DATA has the next `chunk` bytes, or the rest of the
/// datagram where less is left.
pub fn next<'a>(bytes: &'a [u8], at: usize, method: Method, chunk: u32) -> Step<'a>
    requires within { at ≤ length bytes.now }
    requires some { 0 < chunk }
    // A message is read exactly where the bytes begin with a spelling of it.
    ensures message { (m : PlainMessage) (count : ℕ) → (step_of result ≡ Read m (at + count)) ↔ BeginsWith (method_of method) chunk m count (drop at bytes.now) }
    // The end is where the datagram ends.
    ensures end { (step_of result ≡ End) ↔ (at ≡ length bytes.now) }
    // Which fault it is, elsewhere, and all of this as one function.
    ensures exact { step_of result ≡ moved at (next_message (method_of method) chunk (drop at bytes.now)) }
{
    step(bytes, at, method, chunk)
}
