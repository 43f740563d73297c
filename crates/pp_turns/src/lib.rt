//! The turns of a peer, one after the other: each waits once for a datagram, takes what came, and sends what is due (RFC 7574). What a
//! peer promises of its turns is said of the records that its link gains, and of its disk.
#![tactic(auto)]

mod turning;

pub use turning::{WAIT_US, finish_turn, hear, take_turn, take_turns};
