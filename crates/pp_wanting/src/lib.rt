//! Which chunks are still to be asked for, over all channels of a peer (RFC 7574, section 3.7). Only `new` takes memory.
#![tactic(auto)]

mod wanting;

pub use wanting::Wanting;
