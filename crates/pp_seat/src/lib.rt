//! What a peer keeps of one channel's messages: what it may send there, what the other peer told, claimed and asked for, and
//! what it asks for itself (RFC 7574, sections 3, 5 and 8). Moments are in microseconds. Only a new seat takes memory.
#![tactic(auto)]

ghost use Rattle.pp_seat.specs.Frames.{SameTales, TalesGrow, NoneBegins, OwedIsKept, OwedIsGiven, FramesGrow, ReadsComeToNow, NewsAreCounted};
ghost use Rattle.pp_seat.specs.Awaited.{LinesKeepAwaited, NoneAwaited, OwnIsAsking, StopsAreTold};
ghost use Rattle.pp_seat.specs.Laws.{IdleStays, IdleSays, CutsNameAlike, OffersGrow, AnnouncedStays, KnownStays, NoneLeft, ChokesAreDue};

mod cursor;
mod exchange;
mod hashes;
mod own;
mod seat;
mod service;

pub use hashes::Claimed;
pub use seat::Seat;
pub use service::{Listed, Turn};

/// What stays of a seat while nothing is called, and what follows from the story that it follows. It does nothing.
pub fn laws_of_seats()
    ensures idle { IdleStays }
    ensures says { IdleSays }
    ensures cuts { CutsNameAlike }
    ensures offers { OffersGrow }
    ensures announced { AnnouncedStays }
    ensures known { KnownStays }
    ensures none_left { NoneLeft }
    ensures chokes { ChokesAreDue }
{}

/// The frame and the tale of a channel's seat, by what the link carried. It does nothing.
pub fn laws_of_frames()
    ensures owed { OwedIsKept }
    ensures given { OwedIsGiven }
    ensures frames { FramesGrow }
    ensures same { SameTales }
    ensures tales { TalesGrow }
    ensures begins { NoneBegins }
    ensures clocks { ReadsComeToNow }
    ensures news { NewsAreCounted }
{}

/// How the own requests of a seat go with its story, and which requests are outstanding. It does nothing.
pub fn laws_of_own()
    ensures lines { LinesKeepAwaited }
    ensures begins { NoneAwaited }
    ensures own { OwnIsAsking }
    ensures stops { StopsAreTold }
{}
