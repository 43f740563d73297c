//! One peer of a swarm, turn by turn: what comes is absorbed, and what is due is sent (RFC 7574). Only `Peer::open` takes memory.
#![tactic(auto)]

mod opening;
mod peer;

pub use peer::Peer;
