//! Turns of a peer whose content is written to a sink while it comes (RFC 7574). Takes no memory.
#![tactic(auto)]

mod playing;

pub use playing::{PlayStop, Show, play_turn, play_turns};
