//! Which chunks are asked for, of whom, over all channels of a peer (RFC 7574, section 3.7). Only `new` takes memory.
#![tactic(auto)]

mod fetching;
mod laws;

pub use fetching::Fetching;
pub use laws::laws_of_fetching;
