//! Who may be sent what: the chunks that a peer asked for, this peer's own requests, and the slots of those that are not
//! choked (RFC 7574, sections 3.7 to 3.9). Moments are in microseconds. Nothing here takes memory.
#![tactic(auto)]

mod asking;
mod laws;
mod listing;
mod seating;

pub use asking::{Asked, Asking};
pub use laws::laws_of_requests;
pub use listing::{Cancelled, Requests};
pub use seating::Slots;
