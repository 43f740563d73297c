//! The datagrams that are on their way to the peers of a replay: what waits for each of them, the oldest first, and what a
//! network does to that.
#![tactic(auto)]

mod addresses;
mod queues;

pub use queues::Mail;
