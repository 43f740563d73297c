//! Several swarms on one socket: each datagram goes to the swarm that it is for, and each swarm takes its turn as if it were alone
//! (RFC 7574, sections 3.1.1 and 8.2). What happens to one of them leaves the others as they are.
#![tactic(auto)]

mod closing;
mod flushing;
mod hearing;
mod hub;
mod routing;

pub use hub::Hub;
