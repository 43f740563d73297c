//! What is to be said on one channel is sent, and then its seat is told what was (RFC 7574, section 3). Nothing here takes memory.
#![tactic(auto)]

ghost use Rattle.pp_desk.specs.Laws.{LinkCarries, EachCounts, AllIsSaid, SeatFollows, RecordsAreRead, TaleGrows, DeliveriesCompose};

mod chunk;
mod delivery;
mod greeting;
mod hearing;
mod steps;
mod stored;

pub use chunk::{Service, deliver_chunk};
pub use delivery::{Outgoing, deliver};
pub use greeting::{close, greet};
pub use hearing::{hear, inside};
pub use steps::Delivered;
pub use stored::CommittedChunks;

/// What follows from a delivery for the link, the counts, the seat's story and what is read of the records. It does nothing.
pub fn laws_of_deliveries()
    ensures link { LinkCarries }
    ensures counts { EachCounts }
    ensures whole { AllIsSaid }
    ensures seat { SeatFollows }
    ensures reads { RecordsAreRead }
    ensures tale { TaleGrows }
    ensures compose { DeliveriesCompose }
{}
