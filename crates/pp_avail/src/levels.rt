// Words by the number of copies that a chunk of them has.
ghost use Rattle.std.specs.Prelude.{◌≡◌, ◌≢◌, ℕ, ◌+◌, ◌<◌, ◌≤◌, [], length, slice_index_or};
ghost use Rattle.std.specs.Int.{bit_at};
ghost use Rattle.pp_avail.specs.Planes.{number_at};
ghost use Rattle.pp_avail.specs.Levels.{is_in, IsLevelAt};
ghost use Rattle.pp_avail.specs.Steps.{number_before, HasStepped, HaveStepped};
ghost use Rattle.pp_avail.specs.declared.planes.Planes.{Planes};

use crate::planes::Planes;
use crate::row::Row;
use pp_tree::words::lowest;

/// Which way numbers change by one.
#[derive(Clone, Copy, Debug)]
pub(crate) enum Step {
    Up,
    Down,
}

impl Step {
    // What a number was before it.
    fn before(self, number: u32) -> u32
        requires stepped { HasStepped self number }
        requires most { number ≤ 64 }
        ensures value { result ≡ number_before self number }
        ensures most { result ≤ 64 }
    {
        match self {
            Step::Up => number - 1,
            Step::Down => number + 1,
        }
    }
}

/// Brings the levels to the numbers of one word, of which those at some places have changed by one.
pub(crate) fn refresh(levels: &mut [Row], w: usize, planes: &Planes, changed: u64, step: Step)
    requires width { length levels.old ≡ 64 }
    requires sizes { (k : ℕ) → k < 64 → w < length (slice_index_or levels.old k []) }
    requires most { (k : ℕ) → k < 64 → number_at planes.now k ≤ 64 }
    requires steps { (k : ℕ) → bit_at changed k ≡ 1 → HasStepped step (number_at planes.now k) }
    ensures width { length levels.new ≡ 64 }
    ensures sizes { (k : ℕ) → length (slice_index_or levels.new k []) ≡ length (slice_index_or levels.old k []) }
    ensures others { (k v : ℕ) → v ≢ w → is_in levels.new k v ≡ is_in levels.old k v }
    ensures here { (old : Planes) → HaveStepped step changed old planes.now
        → ((fewer : ℕ) → fewer < 64 → IsLevelAt levels.old w old fewer) → (fewer : ℕ) → fewer < 64 → IsLevelAt levels.new w planes.now fewer }
{
    if changed == 0 {
        return;
    }
    if let Some(number) = planes.same() {
        mark(levels, w, number, true);
        mark(levels, w, step.before(number), false);
        return;
    }
    refresh_each(levels, w, planes, changed, step);
}

// The same, number by number.
fn refresh_each(levels: &mut [Row], w: usize, planes: &Planes, changed: u64, step: Step)
    requires width { length levels.old ≡ 64 }
    requires sizes { (k : ℕ) → k < 64 → w < length (slice_index_or levels.old k []) }
    requires most { (k : ℕ) → k < 64 → number_at planes.now k ≤ 64 }
    requires steps { (k : ℕ) → bit_at changed k ≡ 1 → HasStepped step (number_at planes.now k) }
    ensures width { length levels.new ≡ 64 }
    ensures sizes { (k : ℕ) → length (slice_index_or levels.new k []) ≡ length (slice_index_or levels.old k []) }
    ensures others { (k v : ℕ) → v ≢ w → is_in levels.new k v ≡ is_in levels.old k v }
    ensures here { (old : Planes) → HaveStepped step changed old planes.now
        → ((fewer : ℕ) → fewer < 64 → IsLevelAt levels.old w old fewer) → (fewer : ℕ) → fewer < 64 → IsLevelAt levels.new w planes.now fewer }
{
    let mut rest = changed;
    while rest != 0 {
        let number = planes.at(lowest(rest));
        let before = step.before(number);
        mark(levels, w, number, true);
        mark(levels, w, before, planes.places_of(before) != 0);
        rest &= !planes.places_of(number);
    }
}

// Writes whether a word has a chunk of so many copies. None is kept of those with 0.
fn mark(levels: &mut [Row], w: usize, copies: u32, some: bool)
    requires width { length levels.old ≡ 64 }
    requires sizes { (k : ℕ) → k < 64 → w < length (slice_index_or levels.old k []) }
    requires most { copies ≤ 64 }
    ensures width { length levels.new ≡ 64 }
    ensures sizes { (k : ℕ) → length (slice_index_or levels.new k []) ≡ length (slice_index_or levels.old k []) }
    ensures others { (k v : ℕ) → v ≢ w → is_in levels.new k v ≡ is_in levels.old k v }
    ensures levels { (k : ℕ) → k + 1 ≢ copies → is_in levels.new k w ≡ is_in levels.old k w }
    ensures here { (k : ℕ) → k + 1 ≡ copies → is_in levels.new k w ≡ some }
{
    if copies > 0 {
        let level = &mut levels[copies as usize - 1];
        level.write(w, some);
    }
}
