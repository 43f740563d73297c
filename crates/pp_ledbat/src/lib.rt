//! The congestion window of a channel, LEDBAT (RFC 6817, with the timers of RFC 6298): how many bytes may fly. Moments and
//! delays are in microseconds. Nothing here takes memory.
#![tactic(auto)]

mod delays;
mod gain;
mod laws;
mod sending;
mod settling;
mod trips;

pub use delays::DelayHistory;
pub use gain::gained;
pub use laws::{examples_of_windows, laws_of_windows};
pub use sending::Window;
pub use settling::{Settled, alone, covers, hits, oldest, settle};
pub use trips::RoundTrips;
