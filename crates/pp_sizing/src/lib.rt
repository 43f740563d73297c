//! The turns in which the size of a swarm's content is learned: each waits once for a datagram, takes what came, and sends what is due;
//! where the size is told, and behind the last turn, the channels are closed (RFC 7574, section 8.4).
#![tactic(auto)]

mod sizing;

pub use sizing::{Lesson, learn_size};
