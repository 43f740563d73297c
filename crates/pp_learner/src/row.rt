//! What is kept of the messages of one channel.

ghost use Rattle.std.specs.Prelude.{◌≡◌, ◌^◌, ◌<◌, ◌≤◌, IfOk, IfSome, Some, length};
ghost use Rattle.pp_terms.specs.tree.Content.{IsChunkSize};
ghost use Rattle.pp_terms.specs.format.Descriptor.{Descriptor, chunks_of};
ghost use Rattle.pp_draft.specs.Notes.{IsInside};
ghost use Rattle.pp_traffic.specs.Claims.{named};
ghost use Rattle.pp_seat.specs.Lines.{inside};
ghost use Rattle.pp_wire.specs.Views.{message_of, span_of};
ghost use Rattle.pp_desk.specs.Hearing.{IsNoData};
ghost use Rattle.pp_targets.specs.Names.{name_of};
ghost use Rattle.pp_learner.specs.Rows.{blank, begun, greater, with_offer, with_claim, heard, weighed, outside_or, not_a_node_or, noted_other, IsLow};
ghost use Rattle.pp_learner.specs.Reading.{IsProof};
ghost use Rattle.pp_learner.specs.Sending.{was_asked, asks, speaks, row_said};

use pp_counts::Note as Count;
use pp_desk::inside;
use pp_draft::Note;
use pp_paths::Claims;
use pp_ranges::ChunkRange;
use pp_targets::{Learned, SwarmName, learn};
use pp_tree::Digest;
use pp_wire::{Message, Span};
use std::alloc::{AllocError, Global};
use std::marker::Model;

// How long a channel isn't asked again, in microseconds.
const PAUSE: u64 = 10_000_000;

// How many chunks a content has at most.
const CHUNKS: u32 = 1 << 20;

/// What is kept of one channel's messages.
#[derive(Drop)]
pub struct Row {
    claims: Claims,
    // The greatest chunk that the other peer offers.
    offer: Option<u32>,
    // The other peer chokes.
    chokes: bool,
    // When it was last asked, in microseconds.
    asked: Option<u64>,
    // A datagram is owed, by which the other peer learns that this one is at its address.
    owes: bool,
}

impl Model for Row {
    ghost use Rattle.pp_learner.specs.Rows.{RowState, IsLow};

    ghost Value = { RowState };

    ghost view = { λ r. record {
      claims = r.claims;
      offer = r.offer;
      chokes = r.chokes;
      asked = r.asked;
      owes = r.owes;
    } };

    ghost invariant = { λ r. IsLow r.offer };
}

// The greater of an earlier offer and a chunk.
fn greater(offer: Option<u32>, chunk: u32) -> u32
    ensures { result ≡ greater offer chunk }
{
    match offer {
        Some(offer) => offer.max(chunk),
        None => chunk,
    }
}

// Whether the other peer was asked in the last 10 seconds.
fn was_asked(asked: Option<u64>, now: u64) -> bool
    ensures { result ≡ was_asked now asked }
{
    match asked {
        Some(moment) => now.saturating_sub(moment) < PAUSE,
        None => false,
    }
}

impl Row {
    /// A row of no channel, with the memory for all that it will keep.
    pub fn new(alloc: Global) -> Result<Row, AllocError>
        ensures { IfOk result (λ r. r ≡ blank) }
    {
        Ok(Row {
            claims: Claims::new(alloc)?,
            offer: None,
            chokes: false,
            asked: None,
            owes: false,
        })
    }

    /// The row becomes that of a channel whose reply came.
    pub fn begin(&mut self)
        ensures { self.new ≡ begun }
    {
        self.claims.forget();
        self.offer = None;
        self.chokes = false;
        self.asked = None;
        self.owes = true;
    }

    // A HAVE came (RFC 7574, section 3.2).
    fn hear_have(&mut self, span: Span) -> Option<Count>
        ensures row { self.new ≡ with_offer (inside (2 ^ 20) (span_of span)) self.old }
        ensures noted { result ≡ outside_or (inside (2 ^ 20) (span_of span)) None }
    {
        let Some(range) = inside(span, CHUNKS) else {
            return Some(Count::Outside);
        };
        self.offer = Some(greater(self.offer, range.last()));
        None
    }

    // An INTEGRITY came (RFC 7574, section 3.5).
    fn hear_integrity(&mut self, span: Span, digest: Digest) -> Option<Count>
        ensures row { self.new ≡ with_claim (named (2 ^ 20) (span_of span)) digest self.old }
        ensures noted { result
            ≡ outside_or (inside (2 ^ 20) (span_of span)) (not_a_node_or (named (2 ^ 20) (span_of span)) None) }
    {
        let Some(range) = inside(span, CHUNKS) else {
            return Some(Count::Outside);
        };
        match range.as_node() {
            Some(node) => {
                self.claims.add(node, digest);
                None
            }
            None => Some(Count::NotANode),
        }
    }

    /// A message came that is no DATA. Answers what is to be counted: a HAVE or INTEGRITY of chunks past the greatest content, or an
    /// INTEGRITY of chunks that aren't the leaves of one node.
    pub fn hear<'m>(&mut self, message: &'m Message<'m>) -> Option<Count>
        requires { IsNoData (message_of message.now) }
        ensures row { self.new ≡ heard (message_of message.now) self.old }
        ensures noted { result ≡ noted_other (message_of message.now) }
    {
        match *message {
            Message::Have { span } => self.hear_have(span),
            Message::Integrity { span, digest } => self.hear_integrity(span, digest),
            Message::Choke => {
                self.chokes = true;
                None
            }
            Message::Unchoke => {
                self.chokes = false;
                None
            }
            Message::Handshake { .. }
            | Message::Data { .. }
            | Message::Ack { .. }
            | Message::Request { .. }
            | Message::Cancel { .. }
            | Message::Pex4 { .. }
            | Message::PexReq
            | Message::Pex6 { .. } => None,
        }
    }

    /// What the bytes of a chunk, at least one and at most a chunk of them, tell of the size. None where no content has such a chunk.
    pub fn weigh(&self, name: &SwarmName, chunk: u64, bytes: &[u8]) -> Option<Learned>
        requires size { IsChunkSize name.now.chunk }
        requires some { 0 < length bytes.now }
        requires most { length bytes.now ≤ name.now.chunk }
        ensures exact { result ≡ weighed (name_of name.now) self.now.claims chunk bytes.now }
        ensures proof { (e : Descriptor) → result ≡ Some (Learned.Size e)
            → IsProof (name_of name.now) self.now.claims chunk bytes.now e }
    {
        if chunk < u64::from(CHUNKS) {
            Some(learn(&self.claims, name, chunk as u32, bytes))
        } else {
            None
        }
    }

    // The chunk to ask for: the greatest that is offered, where the other peer doesn't choke and wasn't asked in the last 10 seconds.
    fn asks(&self, now: u64) -> Option<u32>
        ensures exact { result ≡ asks now self.now }
        ensures low { IsLow result }
    {
        if self.chokes || was_asked(self.asked, now) {
            return None;
        }
        self.offer
    }

    /// What is due on the channel: a REQUEST, or a keep-alive where one is owed or nothing went for long, as `silent` says.
    pub fn note(&self, silent: bool, now: u64) -> Option<Note>
        ensures exact { result ≡ speaks silent now self.now }
        ensures inside { IfSome result (λ note. (d : Descriptor) → chunks_of d ≡ 2 ^ 20 → IsInside d note) }
    {
        match self.asks(now) {
            Some(chunk) => {
                let range = ChunkRange::new(chunk, chunk)?;
                Some(Note::Request { range })
            }
            None if self.owes || silent => Some(Note::KeepAlive),
            None => None,
        }
    }

    /// A note was sent on the channel.
    pub fn said(&mut self, note: &Note, now: u64)
        ensures { self.new ≡ row_said note.now now self.old }
    {
        match *note {
            Note::Handshake { .. } => {}
            Note::Request { .. } => {
                self.asked = Some(now);
                self.owes = false;
            }
            Note::KeepAlive
            | Note::Close
            | Note::Choke
            | Note::Unchoke
            | Note::Ack { .. }
            | Note::Have { .. }
            | Note::Cancel { .. }
            | Note::PexReq
            | Note::Pex4 { .. }
            | Note::Pex6 { .. } => self.owes = false,
        }
    }
}
