//! What a peer holds: its open store, the store's book, the chunks that are pending, and whom to acknowledge once they are committed
//! (RFC 7574, sections 3.2 and 5.3). Only `open` takes memory.
#![tactic(auto)]

mod holding;
mod laws;
mod queue;

pub use holding::{Holding, Parcel};
pub use laws::laws_of_holdings;
pub use queue::{MOST_TICKETS, Ticket};
