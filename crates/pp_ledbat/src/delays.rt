//! One-way delays, and the queuing delay that follows from them.

ghost use Rattle.std.specs.Prelude.{◌≡◌, ◌-◌, map};
ghost use Rattle.pp_traffic.specs.Delays as terms;

use arrayvec::ArrayVec;
use pp_traffic::Minute;
use std::marker::Model;

// A sample is kept with this added, and is ignored where it is farther from zero.
const FARTHEST: u64 = 1 << 40;

const MINUTE: u64 = 60_000_000;

/// The delays of a channel, each relative to the first, in microseconds: the last four, and the least of each of the last ten
/// minutes that have one (RFC 6817, section 3.4.2).
#[derive(Drop)]
pub struct DelayHistory {
    first: Option<u64>,
    samples: ArrayVec<u64, 4>,
    minutes: ArrayVec<Minute, 10>,
}

impl Model for DelayHistory {
    ghost use Rattle.pp_traffic.specs.Delays.{Delays};

    ghost Value = { Delays };

    ghost view = { λ d. record { first = d.first; samples = d.samples.items; minutes = d.minutes.items } };
}

// How far a delay is above the first one, modulo 2 ^ 64, with 2 ^ 40 added.
fn sample_of(first: Option<u64>, delay: u64) -> u64
    ensures { result ≡ terms.sample_of first delay }
{
    match first {
        None => FARTHEST,
        Some(first) => delay.wrapping_sub(first).wrapping_add(FARTHEST),
    }
}

fn first_delay(delay: u64, first: Option<u64>) -> u64
    ensures { result ≡ terms.first_delay delay first }
{
    match first {
        None => delay,
        Some(first) => first,
    }
}

// A minute's sample more.
fn note(minutes: &mut ArrayVec<Minute, 10>, number: u64, sample: u64)
    ensures { minutes.new.items ≡ terms.noted number sample minutes.old.items }
{
    if let Some(newest) = minutes.as_slice().first() {
        if newest.number == number {
            let least = newest.least.min(sample);
            minutes.as_mut_slice()[0] = Minute { number, least };
            return;
        }
    }
    minutes.truncate(9);
    minutes.insert(
        0,
        Minute {
            number,
            least: sample,
        },
    );
}

// The least of some numbers, 0 of none.
fn least(xs: &[u64]) -> u64
    ensures { result ≡ terms.least xs.now }
{
    let Some((first, rest)) = xs.split_first() else {
        return 0;
    };
    let mut least = *first;
    for x in rest {
        least = least.min(*x);
    }
    least
}

// Of some minutes.
fn least_of(minutes: &[Minute]) -> u64
    ensures { result ≡ terms.least (map (λ minute. minute.least) minutes.now) }
{
    let Some((first, rest)) = minutes.split_first() else {
        return 0;
    };
    let mut least = first.least;
    for minute in rest {
        least = least.min(minute.least);
    }
    least
}

impl DelayHistory {
    /// None yet.
    pub fn new() -> DelayHistory
        ensures { result ≡ terms.no_delays }
    {
        DelayHistory {
            first: None,
            samples: ArrayVec::new(),
            minutes: ArrayVec::new(),
        }
    }

    /// A delay more, and whether it is one that counts: at most 2^40 microseconds away from the first.
    pub fn note(&mut self, delay: u64, now: u64) -> bool
        ensures near { result ≡ terms.is_near (terms.sample_of self.old.first delay) }
        ensures after { self.new ≡ terms.sampled delay now self.old }
    {
        let sample = sample_of(self.first, delay);
        self.first = Some(first_delay(delay, self.first));
        if sample > 2 * FARTHEST {
            return false;
        }
        self.samples.truncate(3);
        self.samples.insert(0, sample);
        note(&mut self.minutes, now / MINUTE, sample);
        true
    }

    /// How far the least of the last samples is above the least of the last minutes.
    pub fn queuing(&self) -> u64
        ensures { result ≡ terms.queuing self.now }
    {
        least(self.samples.as_slice()).saturating_sub(least_of(self.minutes.as_slice()))
    }
}
