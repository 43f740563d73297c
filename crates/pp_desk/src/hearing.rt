//! What comes on a channel is heard by its seat.

ghost use Rattle.std.specs.Prelude.{◌≡◌, ◌<◌, ℕ};
ghost use Rattle.pp_terms.specs.format.Messages.{Ack, Have, Integrity, Request, Cancel, Choke, Unchoke};
ghost use Rattle.pp_terms.specs.tree.Range as terms;
ghost use Rattle.pp_traffic.specs.Story.{Heard};
ghost use Rattle.pp_wire.specs.Views.{span_of, message_of};
ghost use Rattle.pp_seat.specs.Lines.{inside};
ghost use Rattle.pp_seat.specs.Awaited.{KeepsAwaited};
ghost use Rattle.pp_seat.specs.Follows.{Goes, Always, IsCut};
ghost use Rattle.pp_desk.specs.Hearing.{IsNoData, HearsRequest, HearsCancel, HearsIntegrity, Hears};

use pp_counts::Note;
use pp_ranges::ChunkRange;
use pp_requests::Cancelled;
use pp_seat::{Claimed, Listed, Seat};
use pp_tree::Digest;
use pp_wire::{Message, Span};

/// What of a span lies in a content of so many chunks.
pub fn inside(span: Span, chunks: u32) -> Option<ChunkRange>
    ensures { result ≡ inside chunks (span_of span) }
{
    let end = u64::from(chunks);
    if span.first < end && span.first <= span.last {
        let last = span.last.min(end - 1);
        ChunkRange::new(span.first as u32, last as u32)
    } else {
        None
    }
}

fn hear_have(seat: &mut Seat, span: Span) -> Option<Note>
    ensures hears { (now : ℕ) → Hears now (Have (span_of span)) result seat.old seat.new }
    ensures goes { (now : ℕ) → Goes Always (Heard now (Have (span_of span))) seat.old seat.new }
    ensures awaits { (now : ℕ) → KeepsAwaited (Heard now (Have (span_of span))) seat.old.own seat.new.own }
    ensures content { seat.new.told.chunks ≡ seat.old.told.chunks }
{
    match inside(span, seat.chunks()) {
        Some(range) => {
            seat.heard_have(range);
            None
        }
        None => Some(Note::Outside),
    }
}

fn hear_ack(seat: &mut Seat, span: Span, delay: u64, now: u64) -> Option<Note>
    ensures hears { Hears now (Ack (span_of span) delay) result seat.old seat.new }
    ensures goes { Goes Always (Heard now (Ack (span_of span) delay)) seat.old seat.new }
    ensures awaits { KeepsAwaited (Heard now (Ack (span_of span) delay)) seat.old.own seat.new.own }
    ensures content { seat.new.told.chunks ≡ seat.old.told.chunks }
{
    match inside(span, seat.chunks()) {
        Some(range) => {
            seat.heard_ack(range, delay, now);
            None
        }
        None => Some(Note::Outside),
    }
}

// A REQUEST of this range of the content came.
fn enlist(seat: &mut Seat, range: ChunkRange) -> Option<Note>
    ensures hears { HearsRequest range result seat.old seat.new }
    ensures goes { (now : ℕ) (span : terms.Span) → Goes (IsCut range span) (Heard now (Request span)) seat.old seat.new }
    ensures own { seat.new.own ≡ seat.old.own }
    ensures content { seat.new.told.chunks ≡ seat.old.told.chunks }
{
    match seat.heard_request(range) {
        Listed::Yes => None,
        Listed::Full => Some(Note::Full),
        Listed::Choked => Some(Note::Choked),
    }
}

fn hear_request(seat: &mut Seat, span: Span) -> Option<Note>
    ensures hears { (now : ℕ) → Hears now (Request (span_of span)) result seat.old seat.new }
    ensures goes { (now : ℕ) → Goes Always (Heard now (Request (span_of span))) seat.old seat.new }
    ensures awaits { (now : ℕ) → KeepsAwaited (Heard now (Request (span_of span))) seat.old.own seat.new.own }
    ensures content { seat.new.told.chunks ≡ seat.old.told.chunks }
{
    match inside(span, seat.chunks()) {
        Some(range) => enlist(seat, range),
        None => Some(Note::Outside),
    }
}

// A CANCEL of this range of the content came.
fn cancel(seat: &mut Seat, range: ChunkRange) -> Option<Note>
    ensures hears { HearsCancel range result seat.old seat.new }
    ensures goes { (now : ℕ) (span : terms.Span) → Goes (IsCut range span) (Heard now (Cancel span)) seat.old seat.new }
    ensures own { seat.new.own ≡ seat.old.own }
    ensures content { seat.new.told.chunks ≡ seat.old.told.chunks }
{
    match seat.heard_cancel(range) {
        Cancelled::Exact => None,
        Cancelled::Wide => Some(Note::Full),
    }
}

fn hear_cancel(seat: &mut Seat, span: Span) -> Option<Note>
    ensures hears { (now : ℕ) → Hears now (Cancel (span_of span)) result seat.old seat.new }
    ensures goes { (now : ℕ) → Goes Always (Heard now (Cancel (span_of span))) seat.old seat.new }
    ensures awaits { (now : ℕ) → KeepsAwaited (Heard now (Cancel (span_of span))) seat.old.own seat.new.own }
    ensures content { seat.new.told.chunks ≡ seat.old.told.chunks }
{
    match inside(span, seat.chunks()) {
        Some(range) => cancel(seat, range),
        None => Some(Note::Outside),
    }
}

// An INTEGRITY of this range of the content came.
fn claim(seat: &mut Seat, range: ChunkRange, digest: Digest) -> Option<Note>
    requires { range.last < seat.old.told.chunks }
    ensures hears { HearsIntegrity range digest result seat.old seat.new }
    ensures goes { (now : ℕ) (span : terms.Span) → Goes (IsCut range span) (Heard now (Integrity span digest)) seat.old seat.new }
    ensures own { seat.new.own ≡ seat.old.own }
    ensures content { seat.new.told.chunks ≡ seat.old.told.chunks }
{
    match seat.heard_integrity(range, digest) {
        Claimed::Yes => None,
        Claimed::NotANode => Some(Note::NotANode),
        Claimed::Unproven => None,
    }
}

fn hear_integrity(seat: &mut Seat, span: Span, digest: Digest) -> Option<Note>
    ensures hears { (now : ℕ) → Hears now (Integrity (span_of span) digest) result seat.old seat.new }
    ensures goes { (now : ℕ) → Goes Always (Heard now (Integrity (span_of span) digest)) seat.old seat.new }
    ensures awaits { (now : ℕ) → KeepsAwaited (Heard now (Integrity (span_of span) digest)) seat.old.own seat.new.own }
    ensures content { seat.new.told.chunks ≡ seat.old.told.chunks }
{
    match inside(span, seat.chunks()) {
        Some(range) => claim(seat, range, digest),
        None => Some(Note::Outside),
    }
}

fn hear_choke(seat: &mut Seat) -> Option<Note>
    ensures hears { (now : ℕ) → Hears now Choke result seat.old seat.new }
    ensures goes { (now : ℕ) → Goes Always (Heard now Choke) seat.old seat.new }
    ensures awaits { (now : ℕ) → KeepsAwaited (Heard now Choke) seat.old.own seat.new.own }
    ensures content { seat.new.told.chunks ≡ seat.old.told.chunks }
{
    seat.heard_choke();
    None
}

fn hear_unchoke(seat: &mut Seat) -> Option<Note>
    ensures hears { (now : ℕ) → Hears now Unchoke result seat.old seat.new }
    ensures goes { (now : ℕ) → Goes Always (Heard now Unchoke) seat.old seat.new }
    ensures awaits { (now : ℕ) → KeepsAwaited (Heard now Unchoke) seat.old.own seat.new.own }
    ensures content { seat.new.told.chunks ≡ seat.old.told.chunks }
{
    seat.heard_unchoke();
    None
}

/// Hears one message that came on a channel, at a moment in microseconds, and answers what is to be counted. Of the chunks that a
/// HAVE, ACK, INTEGRITY, REQUEST or CANCEL names (RFC 7574, sections 3.2, 3.3, 3.5, 3.7 and 3.8) only those of the content count; where
/// there are none, the message is passed over as `Outside`. A REQUEST of a channel without a slot is `Choked`, and one for which the
/// list has no room `Full`, as is a CANCEL for which more leaves the list than it names. An INTEGRITY of a channel that isn't proven
/// does nothing; on a proven one it is `NotANode` where its chunks aren't the leaves of one node. A CHOKE ends this peer's own
/// requests, and an UNCHOKE lets it ask again (section 3.9). A handshake, PEX_REQ or PEX address does nothing to a seat. A DATA is
/// not heard so.
pub fn hear<'m>(seat: &mut Seat, message: &'m Message<'m>, now: u64) -> Option<Note>
    requires other { IsNoData (message_of message.now) }
    ensures hears { Hears now (message_of message.now) result seat.old seat.new }
    ensures goes { Goes Always (Heard now (message_of message.now)) seat.old seat.new }
    ensures awaits { KeepsAwaited (Heard now (message_of message.now)) seat.old.own seat.new.own }
    ensures content { seat.new.told.chunks ≡ seat.old.told.chunks }
{
    match *message {
        Message::Ack { span, delay } => hear_ack(seat, span, delay, now),
        Message::Have { span } => hear_have(seat, span),
        Message::Integrity { span, digest } => hear_integrity(seat, span, digest),
        Message::Request { span } => hear_request(seat, span),
        Message::Cancel { span } => hear_cancel(seat, span),
        Message::Choke => hear_choke(seat),
        Message::Unchoke => hear_unchoke(seat),
        Message::Handshake { .. }
        | Message::Data { .. }
        | Message::Pex4 { .. }
        | Message::PexReq
        | Message::Pex6 { .. } => None,
    }
}
