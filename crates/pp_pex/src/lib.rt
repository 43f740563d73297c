//! Peer exchange: which addresses to tell to a peer that asks, and which suggested ones to dial (RFC 7574, sections 3.10
//! and 8.10). Moments are in microseconds. Nothing here takes memory.
#![tactic(auto)]

mod pex;
mod queue;
mod table;

pub use pex::Pex;
