// Ranges of a window's bytes, sorted and apart.
ghost use Rattle.std.specs.Prelude.{◌≡◌, ℕ, ◌+◌, ◌<◌, ◌≤◌, ◌||◌, true, false, length, take, drop, vec_len, vec_capacity, ◌++◌, ◌∷◌, IsTrue};
ghost use Rattle.std.specs.Bool.{OnTrue, OnFalse};
ghost use Rattle.pp_adapt.specs.Extents.{AreApart, is_covered, is_in, ended_before, hull, whole_of, rest_of, joined_at};

/// How many bytes a window has.
pub(crate) const WINDOW: usize = 262_144;

/// How many extents there may be.
pub(crate) const MOST: usize = 32;

/// The offsets from `start` on that are below `end`.
#[derive(Clone, Copy)]
pub(crate) struct Extent {
    pub(crate) start: usize,
    pub(crate) end: usize,
}

impl Extent {
    fn hull(self, other: Extent) -> Extent
        ensures { result ≡ hull self other }
    {
        Extent {
            start: self.start.min(other.start),
            end: self.end.max(other.end),
        }
    }
}

// How many extents end before an offset.
fn ended_before(extents: &[Extent], start: usize) -> usize
    ensures value { result ≡ ended_before start extents.now }
    ensures bound { result ≤ length extents.now }
{
    for (i, extent) in extents.iter().enumerate() {
        if start <= extent.end {
            return i;
        }
    }
    extents.len()
}

// Whether a new extent meets or touches the one at a place, or one after it.
fn is_met(extents: &[Extent], at: usize, new: Extent) -> bool
    ensures { OnTrue result (at + length (rest_of (drop at extents.now) new) < length extents.now) }
{
    at < extents.len() && extents[at].start <= new.end
}

// Takes out the extents from `at` on that a new one meets or touches, and answers what it and they cover.
fn take_met(extents: &mut Vec<Extent>, at: usize, new: Extent) -> Extent
    requires { at ≤ vec_len extents.old }
    ensures rest { extents.new.items ≡ take at extents.old.items ++ rest_of (drop at extents.old.items) new }
    ensures whole { result ≡ whole_of (drop at extents.old.items) new }
    ensures capacity { vec_capacity extents.new ≡ vec_capacity extents.old }
{
    let mut whole = new;
    while at < extents.len() && extents[at].start <= whole.end {
        whole = whole.hull(extents.remove(at));
    }
    whole
}

// Puts a new extent at a place, merged with those from there on that it meets or touches.
fn merge_at(extents: &mut Vec<Extent>, at: usize, new: Extent)
    requires within { at ≤ vec_len extents.old }
    requires few { at + length (rest_of (drop at extents.old.items) new) < MOST }
    requires room { MOST ≤ vec_capacity extents.old }
    ensures few { vec_len extents.new ≤ MOST }
    ensures items { extents.new.items ≡ joined_at at extents.old.items new }
    ensures capacity { vec_capacity extents.new ≡ vec_capacity extents.old }
{
    let whole = take_met(extents, at, new);
    let _ = extents.insert(at, whole);
}

/// Adds an extent, merged with those that it meets or touches, or answers that there is no room for one more.
pub(crate) fn add(extents: &mut Vec<Extent>, new: Extent) -> bool
    requires some { new.start < new.end }
    requires within { new.end ≤ WINDOW }
    requires apart { AreApart 0 extents.old.items }
    requires room { MOST ≤ vec_capacity extents.old }
    requires few { vec_len extents.old ≤ MOST }
    ensures apart { AreApart 0 extents.new.items }
    ensures few { vec_len extents.new ≤ MOST }
    ensures some { OnTrue result (0 < vec_len extents.new) }
    ensures covered { OnTrue result ((k : ℕ) → is_covered extents.new.items k ≡ (is_in new k || is_covered extents.old.items k)) }
    ensures full { OnFalse result (extents.new ≡ extents.old) }
    ensures why { OnFalse result (vec_len extents.old ≡ MOST) }
    ensures capacity { vec_capacity extents.new ≡ vec_capacity extents.old }
{
    let at = ended_before(extents, new.start);
    if extents.len() == MOST && !is_met(extents, at, new) {
        return false;
    }
    merge_at(extents, at, new);
    true
}

/// Whether an offset from `start` on, but below `end`, lies in an extent.
pub(crate) fn meets(extents: &[Extent], start: usize, end: usize) -> bool
    ensures free { OnFalse result ((k : ℕ) → start ≤ k → k < end → is_covered extents.now k ≡ false) }
    ensures met { OnTrue result ((k : ℕ) × (start ≤ k) × (k < end) × (is_covered extents.now k ≡ true)) }
{
    for extent in extents {
        if extent.start.max(start) < extent.end.min(end) {
            return true;
        }
    }
    false
}
