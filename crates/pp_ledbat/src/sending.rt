//! The congestion window of one channel.

ghost use Rattle.std.specs.Prelude.{◌≡◌, ◌+◌, ◌*◌, ◌<◌, ◌≤◌, if◌then◌else◌, Some, IsTrue, length};
ghost use Rattle.pp_traffic.specs.Gain as gains;
ghost use Rattle.pp_traffic.specs.Meter as terms;

use crate::delays::DelayHistory;
use crate::gain::gained;
use crate::settling::{alone_of, hits, settle_counted};
use crate::trips::RoundTrips;
use arrayvec::ArrayVec;
use pp_ranges::ChunkRange;
use pp_traffic::Entry;
use std::marker::Model;

/// What flies on a channel, and how many bytes may (RFC 6817, section 2.4, with the timers of RFC 6298). Moments and delays are
/// in microseconds; each chunk counts as one of full size.
#[derive(Drop)]
pub struct Window {
    chunk: u32,
    window: u64,
    entries: ArrayVec<Entry, 512>,
    delays: DelayHistory,
    trips: RoundTrips,
    halved: Option<u64>,
    timer: u64,
}

impl Model for Window {
    ghost use Rattle.std.specs.Prelude.{◌*◌, ◌<◌, ◌≤◌};
    ghost use Rattle.pp_traffic.specs.Meter.{Meter};

    ghost Value = { Meter };

    ghost view = { λ w. record {
      chunk = w.chunk;
      window = w.window;
      entries = w.entries.items;
      delays = w.delays;
      trips = w.trips;
      halved = w.halved;
      timer = w.timer;
    } };

    ghost invariant = { λ w. (0 < w.chunk) × (w.chunk ≤ 8192) × (0 < w.window) × (w.window ≤ 512 * w.chunk) };
}

// The bytes in flight.
fn flight_of(entries: &ArrayVec<Entry, 512>, chunk: u32) -> u64
    requires { chunk ≤ 8192 }
    ensures value { result ≡ length entries.now.items * chunk }
    ensures most { result ≤ 512 * chunk }
{
    entries.len() as u64 * u64::from(chunk)
}

// The window, where the delay counts.
fn grown(counts: bool, window: u64, acked: u64, queuing: u64, chunk: u32, flight: u64) -> u64
    requires positive { 0 < chunk }
    requires chunk { chunk ≤ 8192 }
    requires some { 0 < window }
    requires window { window ≤ 512 * chunk }
    requires acked { acked ≤ 512 * chunk }
    requires flight { flight ≤ 512 * chunk }
    ensures value { result ≡ (if counts then gains.gained window acked queuing chunk flight else window) }
    ensures least { 0 < result }
    ensures most { result ≤ 512 * chunk }
{
    if counts {
        gained(window, acked, queuing, chunk, flight)
    } else {
        window
    }
}

// The window, where it is halved.
fn shrunk(halves: bool, chunk: u32, window: u64) -> u64
    requires positive { 0 < chunk }
    requires some { 0 < window }
    requires window { window ≤ 512 * chunk }
    ensures value { result ≡ (if halves then terms.half_of chunk window else window) }
    ensures least { 0 < result }
    ensures most { result ≤ 512 * chunk }
{
    if halves {
        window.min((window / 2).max(2 * u64::from(chunk)))
    } else {
        window
    }
}

// Whether the last halving was long ago.
fn is_rested(now: u64, trips: &RoundTrips, halved: Option<u64>) -> bool
    ensures { result ≡ terms.is_rested now trips.now halved }
{
    match halved {
        None => true,
        Some(halved) => trips.halving_time() <= now.saturating_sub(halved),
    }
}

// The moment of the last halving.
fn halved_at(halves: bool, now: u64, halved: Option<u64>) -> Option<u64>
    ensures { result ≡ (if halves then Some now else halved) }
{
    if halves { Some(now) } else { halved }
}

// The moment from which a timeout counts, once something is sent.
fn timer_at(is_flying: bool, now: u64, timer: u64) -> u64
    ensures { result ≡ (if is_flying then timer else now) }
{
    if is_flying { timer } else { now }
}

// Takes the entries of a range, so many, out of flight, and what is lost with them, and says whether something is.
fn fly(entries: &mut ArrayVec<Entry, 512>, range: ChunkRange, count: usize) -> bool
    requires { count ≡ terms.hits range.first range.last entries.old.items }
    ensures left { entries.new.items ≡ terms.flying range.first range.last entries.old.items }
    ensures lost { result ≡ terms.loses range.first range.last entries.old.items }
{
    let settled = settle_counted(entries.as_mut_slice(), range, count);
    entries.truncate(settled.kept);
    settled.has_lost
}

impl Window {
    /// A window of two chunks, of a size from 1 to 8192 bytes, with nothing in flight.
    pub fn new(chunk: u32) -> Window
        requires positive { 0 < chunk }
        requires chunk { chunk ≤ 8192 }
        ensures { result ≡ terms.new_meter chunk }
    {
        Window {
            chunk,
            window: 2 * u64::from(chunk),
            entries: ArrayVec::new(),
            delays: DelayHistory::new(),
            trips: RoundTrips::new(),
            halved: None,
            timer: 0,
        }
    }

    /// How many bytes may fly.
    pub fn window(&self) -> u64
        ensures { result ≡ self.now.window }
    {
        self.window
    }

    /// How many do.
    pub fn flight(&self) -> u64
        ensures { result ≡ terms.flight self.now }
    {
        flight_of(&self.entries, self.chunk)
    }

    /// The timeout, in microseconds (RFC 6298, section 2).
    pub fn timeout_us(&self) -> u64
        ensures { result ≡ self.now.trips.timeout }
    {
        self.trips.timeout()
    }

    /// Whether there is room for one chunk more.
    pub fn may_send(&self) -> bool
        ensures { result ≡ terms.has_room self.now }
    {
        flight_of(&self.entries, self.chunk) + u64::from(self.chunk) <= self.window
    }

    /// Chunk `i` is sent.
    pub fn sent(&mut self, i: u32, now: u64)
        requires { IsTrue (terms.has_room self.old) }
        ensures { self.new ≡ terms.sent i now self.old }
    {
        self.timer = timer_at(!self.entries.is_empty(), now, self.timer);
        self.entries.push(Entry {
            chunk: i,
            overtaken: 0,
            sent_at: now,
        });
    }

    /// An ACK of a range came, with its delay (RFC 7574, section 8.16). It answers the bytes that it acknowledges of those in flight.
    pub fn acked(&mut self, range: ChunkRange, delay: u64, now: u64) -> u64
        ensures bytes { result ≡ terms.hits range.first range.last self.old.entries * self.old.chunk }
        ensures after { self.new ≡ terms.acked range.first range.last delay now self.old }
    {
        let count = hits(self.entries.as_slice(), range);
        if count == 0 {
            return 0;
        }
        let chunk = self.chunk;
        let bytes = count as u64 * u64::from(chunk);
        let flight = flight_of(&self.entries, chunk);
        let counts = self.delays.note(delay, now);
        let queuing = self.delays.queuing();
        let window = grown(counts, self.window, bytes, queuing, chunk, flight);
        let sent_at = alone_of(self.entries.as_slice(), range, count);
        self.trips.note(now, sent_at);
        let has_lost = fly(&mut self.entries, range, count);
        let halves = has_lost && is_rested(now, &self.trips, self.halved);
        self.window = shrunk(halves, chunk, window);
        self.halved = halved_at(halves, now, self.halved);
        self.timer = now;
        bytes
    }

    /// Whether a timeout has passed: something flies, and nothing was acknowledged for so long (RFC 6298, section 5).
    pub fn timeout_due(&self, now: u64) -> bool
        ensures { result ≡ terms.is_due now self.now }
    {
        !self.entries.is_empty() && self.trips.timeout() <= now.saturating_sub(self.timer)
    }

    /// One has: the window is one chunk, what flew is written off, and the next timeout is longer.
    pub fn timed_out(&mut self, now: u64)
        ensures { self.new ≡ terms.timed_out now self.old }
    {
        self.window = u64::from(self.chunk);
        self.entries.clear();
        self.trips.back_off();
        self.timer = now;
    }
}
