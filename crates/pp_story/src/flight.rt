//! The chunks that fly on a channel, the oldest first.

ghost use Rattle.std.specs.Prelude.{◌≡◌, ◌+◌, ◌≤◌, ◌∷◌, [], ◌++◌, nat_le, take, length, map, IfOk, OnOk, OnErr};
ghost use Rattle.pp_traffic.specs.Meter as meters;
ghost use Rattle.pp_story.specs.Flights.{flown_of};

use pp_wire::Span;
use std::alloc::{AllocError, Global};
use std::marker::Model;

// How many later chunks have to be acknowledged before one counts as lost.
const OVERTAKEN: usize = 3;

/// A chunk on its way: its number, how many that were sent after it were acknowledged while it flew, and when it was
/// sent.
#[derive(Clone, Copy)]
pub(crate) struct InFlight {
    pub(crate) chunk: u64,
    pub(crate) overtaken: u32,
    pub(crate) sent_at: u64,
}

/// What flies, in the order in which it was sent.
#[derive(Drop)]
pub(crate) struct Flight {
    entries: Vec<InFlight>,
}

impl Model for Flight {
    ghost use Rattle.std.specs.Prelude.{List, map};
    ghost use Rattle.pp_traffic.specs.declared.entries.Entry as flown;
    ghost use Rattle.pp_story.specs.Flights.{flown_of};

    ghost Value = { List flown.Entry };

    ghost view = { λ f. map flown_of f.entries.items };
}

// Whether the entry's chunk lies in the span.
fn covers(span: Span, entry: InFlight) -> bool
    ensures { result ≡ meters.covers span.first span.last (flown_of entry) }
{
    span.first <= entry.chunk && entry.chunk <= span.last
}

// Whether an entry is lost, which so many newer ones overtake.
fn is_lost(entry: InFlight, newer: usize) -> bool
    ensures { result ≡ nat_le 3 ((flown_of entry).overtaken + newer) }
{
    let overtaken = entry.overtaken as usize;
    overtaken >= OVERTAKEN || newer >= OVERTAKEN - overtaken
}

// How many entries of the span there are.
fn hits(entries: &[InFlight], span: Span) -> usize
    ensures { result ≡ meters.hits span.first span.last (map flown_of entries.now) }
{
    let mut count = 0;
    for entry in entries {
        if covers(span, *entry) {
            count += 1;
        }
    }
    count
}

// When the oldest entry of the span was sent.
fn oldest(entries: &[InFlight], span: Span) -> Option<u64>
    ensures { result ≡ meters.oldest span.first span.last (map flown_of entries.now) }
{
    for entry in entries {
        if covers(span, *entry) {
            return Some(entry.sent_at);
        }
    }
    None
}

// What is left in flight, at the front, and whether something was lost.
#[derive(Clone, Copy)]
struct Settled {
    kept: usize,
    has_lost: bool,
}

// Takes the entries of a span, so many, out of flight, and those that three newer ones have overtaken with it: what flies
// on is at the front then.
fn settle(entries: &mut [InFlight], span: Span, count: usize) -> Settled
    requires { count ≡ meters.hits span.first span.last (map flown_of entries.old) }
    ensures kept { map flown_of (take result.kept entries.new)
        ≡ meters.flying span.first span.last (map flown_of entries.old) }
    ensures lost { result.has_lost ≡ meters.loses span.first span.last (map flown_of entries.old) }
    ensures within { result.kept ≤ length entries.old }
    ensures length { length entries.new ≡ length entries.old }
{
    let mut newer = count;
    let mut kept = 0;
    let mut has_lost = false;
    for i in 0..entries.len() {
        let entry = entries[i];
        if covers(span, entry) {
            newer -= 1;
        } else if is_lost(entry, newer) {
            has_lost = true;
        } else {
            entries[kept] = InFlight {
                overtaken: entry.overtaken + newer as u32,
                ..entry
            };
            kept += 1;
        }
    }
    Settled { kept, has_lost }
}

impl Flight {
    /// Nothing flies.
    pub(crate) fn new(alloc: Global) -> Flight
        ensures { result ≡ [] }
    {
        Flight {
            entries: Vec::new(alloc),
        }
    }

    pub(crate) fn len(&self) -> usize
        ensures { result ≡ length self.now }
    {
        self.entries.len()
    }

    /// How many entries of the span fly.
    pub(crate) fn hits(&self, span: Span) -> usize
        ensures { result ≡ meters.hits span.first span.last self.now }
    {
        hits(&self.entries, span)
    }

    /// When the oldest entry of the span was sent.
    pub(crate) fn oldest(&self, span: Span) -> Option<u64>
        ensures { result ≡ meters.oldest span.first span.last self.now }
    {
        oldest(&self.entries, span)
    }

    /// A chunk is sent.
    pub(crate) fn send(&mut self, chunk: u64, now: u64) -> Result<(), AllocError>
        ensures ok { OnOk result (self.new ≡ self.old ++ record { chunk = chunk; overtaken = 0; sent_at = now } ∷ []) }
        ensures err { OnErr result (self.new ≡ self.old) }
    {
        self.entries.push(InFlight {
            chunk,
            overtaken: 0,
            sent_at: now,
        })?;
        Ok(())
    }

    /// The chunks of a span are acknowledged, so many of those that fly. Whether something is lost with it.
    pub(crate) fn acknowledge(&mut self, span: Span, count: usize) -> bool
        requires { count ≡ meters.hits span.first span.last self.old }
        ensures left { self.new ≡ meters.flying span.first span.last self.old }
        ensures lost { result ≡ meters.loses span.first span.last self.old }
    {
        let settled = settle(&mut self.entries, span, count);
        self.entries.truncate(settled.kept);
        settled.has_lost
    }

    /// What flew is written off.
    pub(crate) fn clear(&mut self)
        ensures { self.new ≡ [] }
    {
        self.entries.clear();
    }
}
