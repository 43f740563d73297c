//! What a channel's story comes to, kept as it goes: whether a choke stands, which chunks are asked for, what the peer has
//! told that it knows, and what flies.
#![tactic(auto)]

mod asked;
mod flight;
mod record;
mod story;
mod told;
mod window;

pub use record::follow;
pub use story::Story;
