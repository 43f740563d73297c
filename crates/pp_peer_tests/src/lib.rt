//! Tests of a peer over devices in memory: what it keeps, by the events that come; what it sends, byte by byte; its turns. They stand in a
//! crate of their own, since the tests of a crate have all of it proved once more.
#![tactic(auto)]

#[cfg(test)]
mod by_chunks;
#[cfg(test)]
mod by_counts;
#[cfg(test)]
mod by_datagrams;
#[cfg(test)]
mod by_loss;
#[cfg(test)]
mod by_rows;
#[cfg(test)]
mod dials;
#[cfg(test)]
mod side;
#[cfg(test)]
mod turns;
