// This peer's own requests on one channel.
ghost use Rattle.std.specs.Prelude.{◌≡◌, ℕ, ◌+◌, ◌==◌, ◌<◌, ◌≤◌, None, Some, is_some, [], length, MatchOption, if◌then◌else◌, position, nat_le, ◌-◌, map};
ghost use Rattle.std.specs.List.{list_any};
ghost use Rattle.pp_requests.specs.Moments.{asked_at, entry_of, IsRisingFrom, Changes, ChangesEntry, IsLeastExpired, NoneExpired, is_lost, is_timely, overtaken_by, Answers, IsLeastLost, NoneLost};

use arrayvec::ArrayVec;
use std::marker::Model;

// How many requests may be open on a channel.
const MOST_ASKED: usize = 32;

// How long an answer may take, in microseconds.
const PATIENCE: u64 = 10_000_000;

// How many requests have to overtake one to show that it, or its answer, was lost.
const LOSING: u8 = 3;

/// A chunk that was asked for, the moment in microseconds, and how many requests of greater chunks that were sent no earlier were
/// answered since: 0 to 3, where 3 may be more.
#[derive(Clone, Copy, Default)]
pub struct Asking {
    pub chunk: u32,
    pub moment: u64,
    pub overtaken: u8,
}

impl Asking {
    // whether an answer that comes now counts: it is asked for since less than 10 seconds, and not taken for lost
    fn is_timely(&self, now: u64) -> bool
        ensures { result ≡ is_timely now self.now }
    {
        now.saturating_sub(self.moment) < PATIENCE && self.overtaken < LOSING
    }

    // with one more that overtook it, if the answered one did
    fn overtaken_by(self, answered: &Asking) -> Asking
        ensures { result ≡ overtaken_by answered.now self }
    {
        if self.chunk < answered.chunk && self.moment <= answered.moment {
            let overtaken = self.overtaken.saturating_add(1).min(LOSING);
            return Asking { overtaken, ..self };
        }
        self
    }
}

/// At most 32 chunks that this peer asked for on a channel and that have not come yet, each with the moment of asking,
/// in microseconds.
#[derive(Drop)]
pub struct Asked {
    // by rising chunk
    entries: ArrayVec<Asking, MOST_ASKED>,
}

impl Model for Asked {
    ghost use Rattle.std.specs.Prelude.{List};
    ghost use Rattle.pp_requests.specs.declared.asking.Asking.{Asking};
    ghost use Rattle.pp_requests.specs.Moments.{IsRisingFrom};

    ghost Value = { List Asking };

    ghost view = { λ a. a.entries.items };

    ghost invariant = { λ a. IsRisingFrom 0 a.entries.items };
}

impl Asked {
    /// No chunk was asked for.
    pub fn new() -> Asked
        ensures { result ≡ [] }
    {
        Asked {
            entries: ArrayVec::new(),
        }
    }

    /// The chunks that were asked for and haven't come, by rising number.
    pub fn entries(&self) -> &[Asking]
        ensures same { result.now ≡ self.now }
        ensures rising { IsRisingFrom 0 self.now }
        ensures few { length self.now ≤ 32 }
    {
        self.entries.as_slice()
    }

    /// How many more may be asked for.
    pub fn room(&self) -> u32
        ensures room { result + length self.now ≡ 32 }
        ensures rising { IsRisingFrom 0 self.now }
    {
        (MOST_ASKED - self.entries.len()) as u32
    }

    /// Notes that a chunk was asked for.
    pub fn ask(&mut self, i: u32, now: u64)
        requires room { length self.old < 32 }
        requires absent { asked_at self.old i ≡ None }
        ensures asked { Changes i (Some now) self.old self.new }
        ensures entered { ChangesEntry i (Some (record { chunk = i; moment = now; overtaken = 0 })) self.old self.new }
        ensures len { length self.new ≡ length self.old + 1 }
    {
        let at = not_below(&self.entries, i).unwrap_or(self.entries.len());
        self.entries.insert(
            at,
            Asking {
                chunk: i,
                moment: now,
                overtaken: 0,
            },
        );
    }

    /// Whether the chunk was asked for and hasn't come.
    pub fn contains(&self, i: u32) -> bool
        ensures { result ≡ is_some (asked_at self.now i) }
    {
        holds(&self.entries, i)
    }

    // Takes out a chunk, and answers its entry, if it was asked for. No number above the greatest chunk's ever was.
    fn take_out(&mut self, i: u64) -> Option<Asking>
        ensures entry { result ≡ entry_of self.old i }
        ensures taken { ChangesEntry i None self.old self.new }
        ensures len { length self.new + (if is_some result then 1 else 0) ≡ length self.old }
    {
        let at = find(&self.entries, i)?;
        Some(self.entries.remove(at))
    }

    /// Takes out a chunk that is not asked for any more, and says whether it was.
    pub fn withdraw(&mut self, i: u64) -> bool
        ensures was { result ≡ is_some (asked_at self.old i) }
        ensures taken { Changes i None self.old self.new }
        ensures entries { ChangesEntry i None self.old self.new }
        ensures len { length self.new + (if result then 1 else 0) ≡ length self.old }
    {
        self.take_out(i).is_some()
    }

    /// Takes out a chunk that came, and says whether it was asked for. Where its request was in time, it overtook those of lesser
    /// chunks that were sent no later.
    pub fn came(&mut self, i: u64, now: u64) -> bool
        ensures was { result ≡ is_some (asked_at self.old i) }
        ensures taken { Changes i None self.old self.new }
        ensures answers { Answers now i self.old self.new }
        ensures len { length self.new + (if result then 1 else 0) ≡ length self.old }
    {
        let Some(answered) = self.take_out(i) else {
            return false;
        };
        if answered.is_timely(now) {
            overtake(&mut self.entries, &answered);
        }
        true
    }

    /// Takes out the least chunk whose request, or its answer, was lost: three others overtook it.
    pub fn lost(&mut self) -> Option<u32>
        ensures least { MatchOption result (NoneLost self.old) (IsLeastLost self.old) }
        ensures taken { MatchOption result (self.new ≡ self.old) (λ i. Changes i None self.old self.new) }
        ensures entries { MatchOption result (self.new ≡ self.old) (λ i. ChangesEntry i None self.old self.new) }
        ensures len { length self.new + (if is_some result then 1 else 0) ≡ length self.old }
    {
        let at = first_lost(&self.entries)?;
        Some(self.entries.remove(at).chunk)
    }

    /// Takes out the least chunk that was asked for 10 seconds ago or longer.
    pub fn expired(&mut self, now: u64) -> Option<u32>
        ensures least { MatchOption result (NoneExpired self.old now) (IsLeastExpired self.old now) }
        ensures taken { MatchOption result (self.new ≡ self.old) (λ i. Changes i None self.old self.new) }
        ensures entries { MatchOption result (self.new ≡ self.old) (λ i. ChangesEntry i None self.old self.new) }
        ensures len { length self.new + (if is_some result then 1 else 0) ≡ length self.old }
    {
        let at = first_expired(&self.entries, now)?;
        Some(self.entries.remove(at).chunk)
    }

    /// Takes out all chunks.
    pub fn clear(&mut self)
        ensures { self.new ≡ [] }
    {
        self.entries.clear();
    }
}

// the first entry that isn't below a chunk
fn not_below(entries: &[Asking], i: u32) -> Option<usize>
    ensures { result ≡ position (λ x. nat_le i x.chunk) entries.now }
{
    entries.iter().position(|x| i <= x.chunk)
}

fn holds(entries: &[Asking], i: u32) -> bool
    ensures { result ≡ list_any (λ x. x.chunk == i) entries.now }
{
    entries.iter().any(|x| x.chunk == i)
}

fn find(entries: &[Asking], i: u64) -> Option<usize>
    ensures { result ≡ position (λ x. x.chunk == i) entries.now }
{
    entries.iter().position(|x| u64::from(x.chunk) == i)
}

// the first that was asked for 10 seconds ago or longer
fn first_expired(entries: &[Asking], now: u64) -> Option<usize>
    ensures { result ≡ position (λ x. nat_le 10_000_000 (now - x.moment)) entries.now }
{
    entries
        .iter()
        .position(|x| PATIENCE <= now.saturating_sub(x.moment))
}

// the first that three others overtook
fn first_lost(entries: &[Asking]) -> Option<usize>
    ensures { result ≡ position is_lost entries.now }
{
    entries.iter().position(|x| LOSING <= x.overtaken)
}

// An answered one overtook others.
fn overtake(entries: &mut [Asking], answered: &Asking)
    ensures { entries.new ≡ map (overtaken_by answered.now) entries.old }
{
    for entry in entries.iter_mut() {
        *entry = entry.overtaken_by(answered);
    }
}
