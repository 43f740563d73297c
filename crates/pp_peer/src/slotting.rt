//! Who may be sent chunks: eight seats that have a slot, and a line of those that wait (RFC 7574, section 3.9).

ghost use Rattle.std.specs.Prelude.{◌≡◌, ◌⊎◌, ◌<◌, MatchBool};
ghost use Rattle.pp_requests.specs.Seats.{seat_count};
ghost use Rattle.pp_peer.specs.Slotting.{KeepsButSlots, GrantsOne, HasNoneToGrant, GrantsAll, TurnsLongest, TurnsNone, TurnsSlots, GivesUpSlot};

use crate::parts::Parts;

// How many seats there are.
const SEATS: u8 = 64;

impl Parts {
    // A free slot goes to the seat that waits longest, and an UNCHOKE becomes due there. Answers whether there was one.
    fn give_free_slot(&mut self) -> bool
        ensures grants { MatchBool result
            ((seat_count self.new.slots.waiting < seat_count self.old.slots.waiting) × GrantsOne self.old self.new)
            ((self.new ≡ self.old) × HasNoneToGrant self.old) }
        ensures keeps { KeepsButSlots self.old self.new }
    {
        if !self.slots.is_free() {
            return false;
        }
        let Some(first) = self.slots.first_waiting() else {
            return false;
        };
        // No other seat waits.
        if first >= SEATS {
            return false;
        }
        let now = self.seats.moment();
        self.slots.release(first);
        self.slots.grant(first, now);
        self.seats.turn(first);
        true
    }

    // Free slots go to the seats that wait longest, one after the other.
    pub(crate) fn give_free_slots(&mut self)
        ensures grants { GrantsAll self.old self.new }
        ensures all { HasNoneToGrant self.new }
        ensures keeps { KeepsButSlots self.old self.new }
    {
        'slots: while self.give_free_slot() {}
    }

    // Where the slots are to be turned, a CHOKE becomes due on the seat that has its slot longest.
    fn turn_longest(&mut self)
        ensures turned { TurnsLongest self.old self.new ⊎ TurnsNone self.old self.new }
        ensures keeps { KeepsButSlots self.old self.new }
    {
        let now = self.seats.moment();
        let Some((served, _)) = self.slots.due(now) else {
            return;
        };
        // No other seat has a slot.
        if served >= SEATS {
            return;
        }
        self.seats.turn(served);
        self.slots.turned(now);
    }

    /// Where all slots are taken, a seat waits, and the slots were last turned 30 seconds ago or longer, a CHOKE
    /// becomes due on the seat that has its slot longest. Free slots go to those that wait longest (RFC 7574, section
    /// 3.9). Nothing is sent.
    pub fn turn_slots(&mut self)
        ensures turned { TurnsSlots self.old self.new }
        ensures all { HasNoneToGrant self.new }
        ensures keeps { KeepsButSlots self.old self.new }
    {
        self.turn_longest();
        self.give_free_slots();
    }

    // A CHOKE was sent on a seat: it goes to the end of the line, and its slot to the one that waits longest.
    pub(crate) fn give_up_slot(&mut self, seat: u8)
        requires { seat < 64 }
        ensures gives_up { GivesUpSlot seat self.old self.new }
        ensures all { HasNoneToGrant self.new }
        ensures keeps { KeepsButSlots self.old self.new }
    {
        let now = self.seats.moment();
        self.slots.release(seat);
        self.slots.wait(seat, now);
        self.give_free_slots();
    }
}
