//! Tests of a store over a disk in memory: its scans, openings, puts, imports, upgrades and runs; what is held of it, and what is told
//! of that. They stand in a crate of their own, since the tests of a crate have all of it proved once more.
#![tactic(auto)]

#[cfg(test)]
mod examples;
#[cfg(test)]
mod fresh;
#[cfg(test)]
mod holdings;
#[cfg(test)]
mod imports;
#[cfg(test)]
mod news;
#[cfg(test)]
mod openings;
#[cfg(test)]
mod puts;
#[cfg(test)]
mod runs;
#[cfg(test)]
mod scans;
#[cfg(test)]
mod stopping;
#[cfg(test)]
mod swarm;
#[cfg(test)]
mod upgrades;
