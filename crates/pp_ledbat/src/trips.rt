//! Round trips, and the timeout that follows from them.

ghost use Rattle.std.specs.Prelude.{◌≡◌, ◌≤◌, IfSome};
ghost use Rattle.pp_traffic.specs.Trips as terms;

use std::marker::Model;

// The least timeout and the greatest; a round trip counts as no longer than the latter.
const LEAST: u64 = 1_000_000;

const GREATEST: u64 = 60_000_000;

/// The round trips of a channel, smoothed, and its timeout, in microseconds (RFC 6298, section 2).
#[derive(Drop)]
pub struct RoundTrips {
    smoothed: Option<u64>,
    variation: u64,
    timeout: u64,
}

impl Model for RoundTrips {
    ghost use Rattle.std.specs.Prelude.{◌≤◌, IfSome};
    ghost use Rattle.pp_traffic.specs.Trips.{Trips};

    ghost Value = { Trips };

    ghost view = { λ t. record { smoothed = t.smoothed; variation = t.variation; timeout = t.timeout } };

    ghost invariant = { λ t. IfSome t.smoothed (λ n. n ≤ 60000000) × (t.variation ≤ 60000000) × (t.timeout ≤ 60000000) };
}

// The smoothed round trip with one more.
fn smoothed_by(trip: u64, smoothed: Option<u64>) -> u64
    requires trip { trip ≤ 60000000 }
    requires smoothed { IfSome smoothed (λ n. n ≤ 60000000) }
    ensures value { result ≡ terms.smoothed_by trip smoothed }
    ensures most { result ≤ 60000000 }
{
    match smoothed {
        None => trip,
        Some(smoothed) => (7 * smoothed + trip) / 8,
    }
}

// Its variation.
fn varied_by(trip: u64, smoothed: Option<u64>, variation: u64) -> u64
    requires trip { trip ≤ 60000000 }
    requires smoothed { IfSome smoothed (λ n. n ≤ 60000000) }
    requires variation { variation ≤ 60000000 }
    ensures value { result ≡ terms.varied_by trip smoothed variation }
    ensures most { result ≤ 60000000 }
{
    match smoothed {
        None => trip / 2,
        Some(smoothed) => {
            let apart = smoothed.saturating_sub(trip) + trip.saturating_sub(smoothed);
            (3 * variation + apart) / 4
        }
    }
}

impl RoundTrips {
    /// None yet: the timeout is one second.
    pub fn new() -> RoundTrips
        ensures { result ≡ terms.no_trips }
    {
        RoundTrips {
            smoothed: None,
            variation: 0,
            timeout: LEAST,
        }
    }

    /// One more, of what was sent at that moment and acknowledged now, if anything was.
    pub fn note(&mut self, now: u64, sent_at: Option<u64>)
        ensures { self.new ≡ terms.timed_by now sent_at self.old }
    {
        let Some(sent_at) = sent_at else { return };
        let trip = GREATEST.min(now.saturating_sub(sent_at));
        let smoothed = smoothed_by(trip, self.smoothed);
        let variation = varied_by(trip, self.smoothed, self.variation);
        self.smoothed = Some(smoothed);
        self.variation = variation;
        self.timeout = GREATEST.min(LEAST.max(smoothed + 4 * variation));
    }

    /// A timeout passed: the next one is twice as long, up to sixty seconds (RFC 6298, section 5).
    pub fn back_off(&mut self)
        ensures { self.new ≡ terms.backed_off self.old }
    {
        self.timeout = GREATEST.min(2 * self.timeout);
    }

    pub fn timeout(&self) -> u64
        ensures { result ≡ self.now.timeout }
    {
        self.timeout
    }

    /// How long a halving of the window stands before another one.
    pub fn halving_time(&self) -> u64
        ensures { result ≡ terms.halving_time self.now.smoothed }
    {
        match self.smoothed {
            None => LEAST,
            Some(smoothed) => smoothed,
        }
    }
}
