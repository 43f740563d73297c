//! Channels to other peers (RFC 7574, sections 3.1.1 and 8): whether a handshake fits a swarm, and the 64 seats with their
//! numbers, states and timers. Moments are in microseconds. Only `Channels::new` takes memory.
#![tactic(auto)]

mod agreeing;
mod channel;
mod channels;
mod numbers;
mod places;
mod supporting;
mod timing;

pub use agreeing::{Mismatch, check};
pub use channel::State;
pub use channels::Channels;
pub use supporting::takes;
