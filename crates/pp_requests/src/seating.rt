// The slots of the channels that are not choked, and the seats that wait for one.
ghost use Rattle.std.specs.Prelude.{◌≡◌, ◌↔◌, ℕ, ◌<◌, ◌≤◌, ◌^◌, None, Some, is_some, IsTrue, IsSome, IfSome, MatchOption, nat_le, nat_lt, slice_set, replicate, if◌then◌else◌};
ghost use Rattle.std.specs.Bool.{OnTrue, OnFalse};
ghost use Rattle.pp_requests.specs.Seats.{since, seat_count, IsLongest, IsNone, IsDue};

use std::marker::Model;

// How many slots there are, and how many seats.
const SLOTS: usize = 8;

const SEATS: usize = 64;

// How long slots stay before they are turned, in microseconds.
const TURNING: u64 = 30_000_000;

/// The eight slots, with the seats that have one, and the line of those that wait. A seat is below 64; moments are in
/// microseconds.
#[derive(Drop)]
pub struct Slots {
    slots: [Option<u64>; SEATS],
    waiting: [Option<u64>; SEATS],
    turned: u64,
}

impl Model for Slots {
    ghost use Rattle.std.specs.Prelude.{◌≤◌};
    ghost use Rattle.pp_requests.specs.Seats.{Seating, seat_count};

    ghost Value = { Seating };

    ghost view = { λ s. record { slots = s.slots; waiting = s.waiting; turned = s.turned } };

    ghost invariant = { λ s. seat_count s.slots ≤ 8 };
}

impl Slots {
    /// No seat has a slot or waits, and the slots were last turned at moment 0.
    pub fn new() -> Slots
        ensures { result ≡ record { slots = replicate 64 None; waiting = replicate 64 None; turned = 0 } }
    {
        Slots {
            slots: [None; SEATS],
            waiting: [None; SEATS],
            turned: 0,
        }
    }

    /// Gives a slot to a seat that has none, where one is free. The seat then waits no longer.
    pub fn grant(&mut self, seat: u8, now: u64) -> bool
        requires seat { seat < 64 }
        requires without { since self.old.slots seat ≡ None }
        ensures free { IsTrue result ↔ (seat_count self.old.slots < 8) }
        ensures granted { OnTrue result (self.new ≡ record {
          slots = slice_set self.old.slots seat (Some now);
          waiting = slice_set self.old.waiting seat None;
          turned = self.old.turned;
        }) }
        ensures refused { OnFalse result (self.new ≡ self.old) }
    {
        if count(&self.slots) >= SLOTS {
            return false;
        }
        self.slots[seat as usize] = Some(now);
        self.waiting[seat as usize] = None;
        true
    }

    /// Whether a slot is free.
    pub fn is_free(&self) -> bool
        ensures { result ≡ nat_lt (seat_count self.now.slots) 8 }
    {
        count(&self.slots) < SLOTS
    }

    /// Puts a seat that has no slot into the line, where it keeps its place if it waits already.
    pub fn wait(&mut self, seat: u8, now: u64)
        requires seat { seat < 64 }
        requires without { since self.old.slots seat ≡ None }
        ensures { self.new ≡ record self.old {
          waiting =
              (if is_some (since self.old.waiting seat) then self.old.waiting else slice_set self.old.waiting seat (Some now));
        } }
    {
        if self.waiting[seat as usize].is_none() {
            self.waiting[seat as usize] = Some(now);
        }
    }

    /// Whether the seat has a slot.
    pub fn has(&self, seat: u8) -> bool
        requires { seat < 64 }
        ensures { result ≡ is_some (since self.now.slots seat) }
    {
        self.slots[seat as usize].is_some()
    }

    /// Takes a seat out of the slots and the line.
    pub fn release(&mut self, seat: u8)
        requires { seat < 64 }
        ensures { self.new ≡ record {
          slots = slice_set self.old.slots seat None;
          waiting = slice_set self.old.waiting seat None;
          turned = self.old.turned;
        } }
    {
        self.slots[seat as usize] = None;
        self.waiting[seat as usize] = None;
    }

    /// The seat that waits longest; of those that came at one moment it is the least.
    pub fn first_waiting(&self) -> Option<u8>
        ensures { MatchOption result (IsNone self.now.waiting) (IsLongest self.now.waiting) }
    {
        longest(&self.waiting)
    }

    /// The seat that has its slot longest and the one that waits longest, where they are to change places: all slots are
    /// taken, a seat waits, and the slots were last turned 30 seconds ago or longer.
    pub fn due(&self, now: u64) -> Option<(u8, u8)>
        ensures due { IsSome result ↔ IsDue self.now now }
        ensures seats { IfSome result (λ pair. IsLongest self.now.slots pair.0 × IsLongest self.now.waiting pair.1) }
    {
        if count(&self.slots) < SLOTS || now.saturating_sub(self.turned) < TURNING {
            return None;
        }
        let waiting = longest(&self.waiting)?;
        let served = longest(&self.slots)?;
        Some((served, waiting))
    }

    /// Notes that the slots were turned.
    pub fn turned(&mut self, now: u64)
        ensures { self.new ≡ record self.old { turned = now } }
    {
        self.turned = now;
    }
}

// how many seats are there
fn count(seats: &[Option<u64>; SEATS]) -> usize
    ensures { result ≡ seat_count seats.now }
{
    seats.iter().filter(|since| since.is_some()).count()
}

// the seat that is there longest
fn longest(seats: &[Option<u64>; SEATS]) -> Option<u8>
    ensures { MatchOption result (IsNone seats.now) (IsLongest seats.now) }
{
    let mut best = None;
    for seat in 0..64u8 {
        if let Some(moment) = seats[seat as usize] {
            best = earlier(best, seat, moment);
        }
    }
    let (seat, _) = best?;
    Some(seat)
}

// The one that came earlier, the first of two that came at one moment.
fn earlier(best: Option<(u8, u64)>, seat: u8, moment: u64) -> Option<(u8, u64)>
    ensures { MatchOption best (result ≡ Some (seat, moment)) (λ b.
        result ≡ (if nat_le b.1 moment then best else Some (seat, moment))) }
{
    match best {
        Some((_, least)) if least <= moment => best,
        _ => Some((seat, moment)),
    }
}
