//! What a replay answers of a peer at its end: how many lives it had, how many chunks it announced, and which chunks
//! its disk holds behind open gates.
#![tactic(auto)]

mod announced;
mod held;
mod outcome;

pub use outcome::{PeerEnd, end_of};
