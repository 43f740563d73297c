//! Tests of several swarms on one socket, over devices in memory: to which of them a datagram goes, and that what happens to one leaves
//! the others as they are.
#![tactic(auto)]

#[cfg(test)]
mod routing;
#[cfg(test)]
mod shared;
#[cfg(test)]
mod stopping;
