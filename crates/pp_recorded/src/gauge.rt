//! What a channel's window remembers, but for what flies: how many bytes may (RFC 6817, section 2.4, with the timers of RFC 6298).

ghost use Rattle.std.specs.Prelude.{◌≡◌, ◌<◌, ◌≤◌, ◌+◌, ◌*◌, ◌^◌, ◌&&◌, nat_le, if◌then◌else◌, Some, min, pos, ◌+ℤ◌};
ghost use Rattle.pp_traffic.specs.Gain as gains;
ghost use Rattle.pp_traffic.specs.Meter as meters;
ghost use Rattle.pp_recorded.specs.Gauges as terms;

use crate::flying::Flown;
use pp_ledbat::{DelayHistory, RoundTrips};
use std::marker::Model;

// The queuing delay to which the window is steered, in microseconds.
const TARGET: u64 = 100_000;

// So many chunks that are acknowledged at once move a window as far as any more do.
const MANY: u128 = 1 << 36;

/// The window of a channel, its delays and round trips, the moment of its last halving, and that from which a timeout counts.
#[derive(Drop)]
pub struct Gauge {
    chunk: u32,
    window: u64,
    delays: DelayHistory,
    trips: RoundTrips,
    halved: Option<u64>,
    timer: u64,
}

impl Model for Gauge {
    ghost use Rattle.std.specs.Prelude.{◌*◌, ◌<◌, ◌≤◌, []};
    ghost use Rattle.pp_traffic.specs.Meter.{Meter};

    ghost Value = { Meter };

    ghost view = { λ g. record {
      chunk = g.chunk;
      window = g.window;
      entries = [];
      delays = g.delays;
      trips = g.trips;
      halved = g.halved;
      timer = g.timer;
    } };

    ghost invariant = { λ g. (0 < g.chunk) × (g.chunk ≤ 8192) × (0 < g.window) × (g.window ≤ 512 * g.chunk) };
}

// The window and what it gains, 0 where it would lose all.
fn moved(window: u64, acked: u64, queuing: u64, chunk: u64) -> u128
    requires chunk { chunk ≤ 8192 }
    requires positive { 0 < window }
    requires window { window ≤ 512 * 8192 }
    requires acked { acked ≤ 2 ^ 49 }
    ensures { result ≡ gains.natural (pos window +ℤ gains.gain window acked queuing chunk) }
{
    let divisor = u128::from(TARGET * window);
    if queuing <= TARGET {
        let rise = u128::from(TARGET - queuing) * u128::from(acked) * u128::from(chunk) / divisor;
        return u128::from(window) + rise;
    }
    let excess = u128::from(queuing - TARGET) * u128::from(acked) * u128::from(chunk);
    if excess == 0 {
        return u128::from(window);
    }
    let fall = (excess - 1) / divisor + 1;
    u128::from(window).saturating_sub(fall)
}

// The window after so many chunks of those that fly are acknowledged, where neither are more than tell.
fn gained(window: u64, hits: u64, queuing: u64, chunk: u32, total: u64) -> u64
    requires chunk { chunk ≤ 8192 }
    requires positive { 0 < window }
    requires window { window ≤ 512 * chunk }
    requires hits { hits ≤ 2 ^ 36 }
    requires total { total ≤ 2 ^ 36 }
    ensures { result ≡ gains.gained window (hits * chunk) queuing chunk (total * chunk) }
{
    let chunk = u64::from(chunk);
    let moved = moved(window, hits * chunk, queuing, chunk);
    let most = u128::from(total * chunk + chunk);
    moved
        .min(most)
        .max(u128::from(2 * chunk))
        .min(u128::from(512 * chunk)) as u64
}

// The window, where the delay counts.
#[tactic(auto, using(crate::proofs::Gains::gained_capped))]
fn grown(counts: bool, window: u64, flight: Flown, queuing: u64, chunk: u32) -> u64
    requires some { 0 < chunk }
    requires chunk { chunk ≤ 8192 }
    requires positive { 0 < window }
    requires window { window ≤ 512 * chunk }
    ensures value { result ≡ (if counts then gains.gained window (flight.hits * chunk) queuing chunk (flight.total * chunk) else window) }
    ensures least { 0 < result }
    ensures most { result ≤ 512 * chunk }
{
    if counts {
        let hits = flight.hits.min(MANY) as u64;
        let total = flight.total.min(MANY) as u64;
        gained(window, hits, queuing, chunk, total)
    } else {
        window
    }
}

// The window, where it is halved.
fn shrunk(halves: bool, chunk: u32, window: u64) -> u64
    requires positive { 0 < chunk }
    requires some { 0 < window }
    requires window { window ≤ 512 * chunk }
    ensures value { result ≡ (if halves then meters.half_of chunk window else window) }
    ensures least { 0 < result }
    ensures most { result ≤ 512 * chunk }
{
    if halves {
        window.min((window / 2).max(2 * u64::from(chunk)))
    } else {
        window
    }
}

// Whether the last halving was long ago.
fn is_rested(now: u64, trips: &RoundTrips, halved: Option<u64>) -> bool
    ensures { result ≡ meters.is_rested now trips.now halved }
{
    match halved {
        None => true,
        Some(halved) => trips.halving_time() <= now.saturating_sub(halved),
    }
}

// The moment of the last halving.
fn halved_at(halves: bool, now: u64, halved: Option<u64>) -> Option<u64>
    ensures { result ≡ (if halves then Some now else halved) }
{
    if halves { Some(now) } else { halved }
}

// The moment from which a timeout counts, once something is sent.
fn timer_at(is_flying: bool, now: u64, timer: u64) -> u64
    ensures { result ≡ (if is_flying then timer else now) }
{
    if is_flying { timer } else { now }
}

// When the only chunk of those that were acknowledged was sent.
fn alone(flight: Flown) -> Option<u64>
    ensures { result ≡ terms.alone flight.hits flight.sent_at }
{
    if flight.hits == 1 {
        flight.sent_at
    } else {
        None
    }
}

impl Gauge {
    /// A window of two chunks, of a size from 1 to 8192 bytes.
    pub fn new(chunk: u32) -> Gauge
        requires positive { 0 < chunk }
        requires chunk { chunk ≤ 8192 }
        ensures { result ≡ meters.new_meter chunk }
    {
        Gauge {
            chunk,
            window: 2 * u64::from(chunk),
            delays: DelayHistory::new(),
            trips: RoundTrips::new(),
            halved: None,
            timer: 0,
        }
    }

    /// Whether there is room for one chunk more than so many.
    pub fn has_room(&self, total: u128) -> bool
        ensures { result ≡ nat_le (total * self.now.chunk + self.now.chunk) self.now.window }
    {
        total < u128::from(self.window / u64::from(self.chunk))
    }

    /// A chunk is sent.
    pub fn sent(&mut self, is_flying: bool, now: u64)
        ensures { self.new ≡ terms.departed is_flying now self.old }
    {
        self.timer = timer_at(is_flying, now, self.timer);
    }

    /// Chunks of those that fly are acknowledged, and something is lost or not.
    pub fn acked(&mut self, flight: Flown, has_lost: bool, delay: u64, now: u64)
        ensures { self.new ≡ terms.answered flight.total flight.hits flight.sent_at has_lost delay now self.old }
    {
        let chunk = self.chunk;
        let counts = self.delays.note(delay, now);
        let queuing = self.delays.queuing();
        let window = grown(counts, self.window, flight, queuing, chunk);
        self.trips.note(now, alone(flight));
        let halves = has_lost && is_rested(now, &self.trips, self.halved);
        self.window = shrunk(halves, chunk, window);
        self.halved = halved_at(halves, now, self.halved);
        self.timer = now;
    }

    /// Whether a timeout has passed, if something flies.
    pub fn is_overdue(&self, now: u64) -> bool
        ensures { result ≡ terms.is_overdue now self.now }
    {
        self.trips.timeout() <= now.saturating_sub(self.timer)
    }

    /// One has: the window is one chunk, and the next timeout is longer.
    pub fn timed_out(&mut self, now: u64)
        ensures { self.new ≡ meters.timed_out now self.old }
    {
        self.window = u64::from(self.chunk);
        self.trips.back_off();
        self.timer = now;
    }
}
