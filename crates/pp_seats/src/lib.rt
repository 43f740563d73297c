//! The seats of all channels of a peer, with what is kept of the messages of each: what a datagram does to them, and what follows
//! of the traffic (RFC 7574, sections 3 and 8). Only `Seats::new` takes memory.
#![tactic(auto)]

ghost use Rattle.pp_seats.specs.Laws.{HearingComposes, NothingYet, KnownChanges};

mod greeting;
mod reading;
mod seats;
mod sending;
mod serving;
mod turning;

pub use seats::Seats;
pub use serving::Served;

/// What is heard message by message is heard together; what seats stand for when nothing came or went yet; and that the other peers may
/// be to know of more. It does nothing.
pub fn laws_of_standing()
    ensures composes { HearingComposes }
    ensures first { NothingYet }
    ensures known { KnownChanges }
{}
