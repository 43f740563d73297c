//! Messages written into a datagram.

ghost use Rattle.std.specs.Prelude.{◌≡◌, ℕ, ◌+◌, ◌^◌, ◌≤◌, ◌<◌, List, ◌∷◌, ◌++◌, length, IfOk};
ghost use Rattle.std.specs.Int.{w16, w32, to_be_bytes};
ghost use Rattle.pp_terms.specs.Place.{placed};
ghost use Rattle.pp_terms.specs.format.Messages.{Data, IsNamed, IsSpelt, only, spell_span, spell};
ghost use Rattle.pp_terms.specs.format.Options.{spelling_of};
ghost use Rattle.pp_options.specs.Views.{options_of, HasSpelling};
ghost use Rattle.pp_tree.specs.Method.{method_of};
ghost use Rattle.pp_wire.specs.Views.{span_of, naming, message_of};
ghost use Rattle.pp_wire.specs.Put.{IsSpan, IsHandshake, CanPut, NamesChunks, data_head, IsPut};

use crate::bins::bin_number;
use crate::message::{ChunkKind, Message, PutFault, Span};
use crate::types;
use pp_options::{Options, write};
use pp_tree::Method;

fn put_bytes(out: &mut [u8], at: usize, text: &[u8]) -> usize
    requires { at + length text.now ≤ length out.old }
    ensures after { out.new ≡ placed out.old at text.now }
    ensures end { result ≡ at + length text.now }
{
    let end = at + text.len();
    out[at..end].copy_from_slice(text);
    end
}

/// A type and three fields, all or none of them.
#[tactic(auto, using(crate::proofs::Puts::four_put))]
fn put_fields(
    out: &mut [u8],
    at: usize,
    kind: u8,
    place: &[u8],
    number: &[u8],
    tail: &[u8],
) -> Result<usize, PutFault>
    requires within { at ≤ length out.old }
    requires place { length place.now ≤ 16 }
    requires number { length number.now ≤ 32 }
    ensures { IsPut (Unit {0}) (kind ∷ (place.now ++ (number.now ++ tail.now))) out.old at result out.new }
{
    let room = out.len() - at;
    let fixed = 1 + place.len() + number.len();
    if room < fixed || room - fixed < tail.len() {
        return Err(PutFault::NoRoom);
    }
    let end = put_bytes(out, at, &[kind]);
    let end = put_bytes(out, end, place);
    let end = put_bytes(out, end, number);
    Ok(put_bytes(out, end, tail))
}

/// The ends of a range in 32 bits each.
fn range32(span: Span) -> [u8; 8]
    requires { (span.first < 2 ^ 32) × (span.last < 2 ^ 32) }
    ensures { result ≡ spell_span (method_of Method.Range32) (span_of span) }
{
    let first = (span.first as u32).to_be_bytes();
    let last = (span.last as u32).to_be_bytes();
    [
        first[0], first[1], first[2], first[3], last[0], last[1], last[2], last[3],
    ]
}

/// The ends of a range in 64 bits each.
fn range64(span: Span) -> [u8; 16]
    ensures { result ≡ spell_span (method_of Method.Range64) (span_of span) }
{
    let mut range = [0; 16];
    range[..8].copy_from_slice(&span.first.to_be_bytes());
    range[8..].copy_from_slice(&span.last.to_be_bytes());
    range
}

/// A type, chunks and two fields behind them.
fn put_chunks(
    out: &mut [u8],
    at: usize,
    kind: u8,
    span: Span,
    method: Method,
    number: &[u8],
    tail: &[u8],
) -> Result<usize, PutFault>
    requires within { at ≤ length out.old }
    requires span { IsSpan (method_of method) (span_of span) }
    requires number { length number.now ≤ 32 }
    ensures { IsPut (IsNamed (method_of method) (span_of span)) (kind ∷ (spell_span (method_of method) (span_of span) ++ (number.now ++ tail.now))) out.old at result out.new }
{
    match method {
        Method::Bin32 => match bin_number(span, u64::from(u32::MAX)) {
            Some(bin) => put_fields(out, at, kind, &(bin as u32).to_be_bytes(), number, tail),
            None => Err(PutFault::NotABin),
        },
        Method::Range32 => put_fields(out, at, kind, &range32(span), number, tail),
        Method::Bin64 => match bin_number(span, u64::MAX) {
            Some(bin) => put_fields(out, at, kind, &bin.to_be_bytes(), number, tail),
            None => Err(PutFault::NotABin),
        },
        Method::Range64 => put_fields(out, at, kind, &range64(span), number, tail),
    }
}

fn put_address4(out: &mut [u8], at: usize, address: [u8; 4], port: u16) -> Result<usize, PutFault>
    requires within { at ≤ length out.old }
    ensures fit { (length address ≡ 4) × (port < 2 ^ 16) }
    ensures exact { IsPut (Unit {0}) (5 ∷ (address ++ to_be_bytes w16 port)) out.old at result out.new }
{
    put_fields(
        out,
        at,
        types::PEX_RES_4,
        &address,
        &port.to_be_bytes(),
        &[],
    )
}

fn put_address6(out: &mut [u8], at: usize, address: [u8; 16], port: u16) -> Result<usize, PutFault>
    requires within { at ≤ length out.old }
    ensures fit { (length address ≡ 16) × (port < 2 ^ 16) }
    ensures exact { IsPut (Unit {0}) (12 ∷ (address ++ to_be_bytes w16 port)) out.old at result out.new }
{
    put_fields(
        out,
        at,
        types::PEX_RES_6,
        &address,
        &port.to_be_bytes(),
        &[],
    )
}

/// The options first, so that nothing is written where they have no room.
fn put_handshake(
    out: &mut [u8],
    at: usize,
    source: u32,
    options: &Options,
) -> Result<usize, PutFault>
    requires within { at ≤ length out.old }
    requires fit { HasSpelling (options_of options.now) }
    ensures spelt { IfOk result (λ end. IsHandshake source (options_of options.now) (spelling_of (options_of options.now))) }
    ensures exact { IsPut (Unit {0}) (0 ∷ (to_be_bytes w32 source ++ spelling_of (options_of options.now))) out.old at result out.new }
{
    if out.len() - at < 5 {
        return Err(PutFault::NoRoom);
    }
    match write(options, out, at + 5) {
        Ok(end) => {
            let source = source.to_be_bytes();
            put_bytes(
                out,
                at,
                &[types::HANDSHAKE, source[0], source[1], source[2], source[3]],
            );
            Ok(end)
        }
        Err(_) => Err(PutFault::NoRoom),
    }
}

/// A type and a range in 32 bits, without a buffer between.
#[tactic(auto, using(crate::proofs::Puts::two_put))]
fn put_range32(out: &mut [u8], at: usize, kind: u8, range: [u8; 8]) -> Result<usize, PutFault>
    requires within { at ≤ length out.old }
    ensures { IsPut (Unit {0}) (kind ∷ range) out.old at result out.new }
{
    if out.len() - at < 9 {
        return Err(PutFault::NoRoom);
    }
    let end = put_bytes(out, at, &[kind]);
    Ok(put_bytes(out, end, &range))
}

/// A type and chunks.
fn put_ends(
    out: &mut [u8],
    at: usize,
    kind: u8,
    span: Span,
    method: Method,
) -> Result<usize, PutFault>
    requires within { at ≤ length out.old }
    requires span { IsSpan (method_of method) (span_of span) }
    ensures { IsPut (IsNamed (method_of method) (span_of span)) (kind ∷ spell_span (method_of method) (span_of span)) out.old at result out.new }
{
    match method {
        Method::Range32 => put_range32(out, at, kind, range32(span)),
        Method::Bin32 | Method::Bin64 | Method::Range64 => {
            put_chunks(out, at, kind, span, method, &[], &[])
        }
    }
}

/// Puts a message that names chunks alone, as `put` does, in less time.
#[tactic(auto, unfolding(pp_terms::specs::format::Messages::spell))]
pub fn put_named(
    kind: ChunkKind,
    span: Span,
    method: Method,
    out: &mut [u8],
    at: usize,
) -> Result<usize, PutFault>
    requires within { at ≤ length out.old }
    requires can { CanPut (method_of method) (naming kind (span_of span)) }
    ensures spelt { IfOk result (λ end. IsSpelt (method_of method) (naming kind (span_of span)) (spell (method_of method) (naming kind (span_of span)))) }
    ensures exact { IsPut (NamesChunks (method_of method) (naming kind (span_of span))) (spell (method_of method) (naming kind (span_of span))) out.old at result out.new }
{
    match kind {
        ChunkKind::Have => put_ends(out, at, types::HAVE, span, method),
        ChunkKind::Request => put_ends(out, at, types::REQUEST, span, method),
        ChunkKind::Cancel => put_ends(out, at, types::CANCEL, span, method),
    }
}

/// Puts a DATA at the place `at` of the output, but for the chunk's bytes, and answers the place behind it, where they are to
/// stand (RFC 7574, section 8.6). The moment is in microseconds.
pub fn put_head(
    chunk: u64,
    sent_at: u64,
    method: Method,
    out: &mut [u8],
    at: usize,
) -> Result<usize, PutFault>
    requires within { at ≤ length out.old }
    requires can { IsSpan (method_of method) (only chunk) }
    // With any bytes of the chunk behind it there stands a DATA.
    ensures spelt { IfOk result (λ end. (bytes : List ℕ) → 0 < length bytes
        → IsSpelt (method_of method) (Data chunk sent_at bytes) (data_head (method_of method) chunk sent_at ++ bytes)) }
    ensures exact { IsPut (IsNamed (method_of method) (only chunk)) (data_head (method_of method) chunk sent_at) out.old at result out.new }
{
    let span = Span {
        first: chunk,
        last: chunk,
    };
    let moment = sent_at.to_be_bytes();
    put_chunks(out, at, types::DATA, span, method, &moment, &[])
}

/// Puts the message at the place `at` of the output, which is at most its length, and answers the place behind it. The
/// options of a handshake go by rising codes. What is put is read again by `next`, whatever follows, but for a DATA of
/// fewer bytes than a chunk, which has to be the last.
#[tactic(auto, unfolding(pp_terms::specs::format::Messages::spell))]
pub fn put<'m>(
    message: &'m Message<'m>,
    method: Method,
    out: &mut [u8],
    at: usize,
) -> Result<usize, PutFault>
    requires within { at ≤ length out.old }
    requires can { CanPut (method_of method) (message_of message.now) }
    // It is a spelling, so `next` gives the message again.
    ensures spelt { IfOk result (λ end. IsSpelt (method_of method) (message_of message.now) (spell (method_of method) (message_of message.now))) }
    ensures exact { IsPut (NamesChunks (method_of method) (message_of message.now)) (spell (method_of method) (message_of message.now)) out.old at result out.new }
{
    match *message {
        Message::Handshake { source, options } => put_handshake(out, at, source, &options),
        Message::Data {
            chunk,
            sent_at,
            bytes,
        } => {
            let span = Span {
                first: chunk,
                last: chunk,
            };
            put_chunks(
                out,
                at,
                types::DATA,
                span,
                method,
                &sent_at.to_be_bytes(),
                bytes,
            )
        }
        Message::Ack { span, delay } => {
            put_chunks(out, at, types::ACK, span, method, &delay.to_be_bytes(), &[])
        }
        Message::Have { span } => put_chunks(out, at, types::HAVE, span, method, &[], &[]),
        Message::Integrity { span, digest } => {
            put_chunks(out, at, types::INTEGRITY, span, method, digest.bytes(), &[])
        }
        Message::Pex4 { address, port } => { put_address4(out, at, address, port) }
        Message::PexReq => put_fields(out, at, types::PEX_REQ, &[], &[], &[]),
        Message::Request { span } => put_chunks(out, at, types::REQUEST, span, method, &[], &[]),
        Message::Cancel { span } => put_chunks(out, at, types::CANCEL, span, method, &[], &[]),
        Message::Choke => put_fields(out, at, types::CHOKE, &[], &[], &[]),
        Message::Unchoke => put_fields(out, at, types::UNCHOKE, &[], &[], &[]),
        Message::Pex6 { address, port } => { put_address6(out, at, address, port) }
    }
}
