//! When addresses of other peers are exchanged (RFC 7574, section 3.10; the times are this profile's).

ghost use Rattle.std.specs.Prelude.{◌≡◌, ◌↔◌, ℕ, List, Some, IsTrue};
ghost use Rattle.pp_terms.specs.format.Messages.{Message, PexReq};
ghost use Rattle.pp_traffic.specs.Story.{Said};
ghost use Rattle.pp_seat.specs.Own.{AreAddresses, IsSince, IsRested};
ghost use Rattle.pp_seat.specs.Follows.{Goes, Says, Always};

use crate::seat::Seat;

// How long no second answer is given, and how long addresses count that come after a question.
const ANSWERING: u64 = 10_000_000;

// How long no second question is asked.
const ASKING: u64 = 60_000_000;

// Whether a moment was so long ago, or there was none.
fn is_rested(last: Option<u64>, now: u64, time: u64) -> bool
    ensures { IsTrue result ↔ IsRested last now time }
{
    match last {
        None => true,
        Some(moment) => time <= now.saturating_sub(moment),
    }
}

impl Seat {
    /// Whether addresses may be sent to a peer that asks: none were sent within the last 10 seconds.
    pub fn may_answer(&self, now: u64) -> bool
        ensures { IsTrue result ↔ IsRested self.now.answer now 10_000_000 }
    {
        is_rested(self.answer, now, ANSWERING)
    }

    /// Addresses were sent, each in one message.
    pub fn said_addresses(&mut self, now: u64)
        ensures exact { self.new ≡ record self.old { answer = Some now } }
        ensures says { (ms : List Message) → AreAddresses ms → Says Always now ms self.old self.new }
    {
        self.answer = Some(now);
    }

    /// Whether to ask for addresses: none were asked for within the last 60 seconds.
    pub fn may_question(&self, now: u64) -> bool
        ensures { IsTrue result ↔ IsRested self.now.question now 60_000_000 }
    {
        is_rested(self.question, now, ASKING)
    }

    /// A PEX_REQ was sent.
    pub fn said_question(&mut self, now: u64)
        ensures exact { self.new ≡ record self.old { question = Some now } }
        ensures goes { Goes Always (Said now PexReq) self.old self.new }
    {
        self.question = Some(now);
    }

    /// Whether an address that comes is one that was asked for: within the last 10 seconds.
    pub fn is_awaited(&self, now: u64) -> bool
        ensures { IsTrue result ↔ IsSince self.now.question now 10_000_000 }
    {
        match self.question {
            None => false,
            Some(moment) => now.saturating_sub(moment) <= ANSWERING,
        }
    }
}
