//! Tests of the plain program that decides the promises of a peer: on lists of records made by hand, and on lives that the links of another
//! implementation's peers carried. They stand in a crate of their own, since the tests of a crate have all of it proved once more.
#![tactic(auto)]

#[cfg(test)]
mod chunks;
#[cfg(test)]
mod lives;
#[cfg(test)]
mod reports;
#[cfg(test)]
mod stories;
#[cfg(test)]
mod traffic;
#[cfg(test)]
mod verdicts;
#[cfg(test)]
mod windows;
