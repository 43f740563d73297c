//! Tests of the devices in memory. They stand in a crate of their own, since the tests of a crate have all of it proved once more.
#![tactic(auto)]

#[cfg(test)]
mod disks;
#[cfg(test)]
mod links;
#[cfg(test)]
mod streams;
