//! Tests of `run` over devices in memory: its commands on stores, and peers that seed and fetch. They stand in a crate of their own, since
//! the tests of a crate have all of it proved once more.
#![tactic(auto)]

#[cfg(test)]
mod commands;
#[cfg(test)]
mod exports;
#[cfg(test)]
mod peers;
