//! Tests of the values that the peer is made of. They stand in a crate of their own, since the tests of a crate have all of it proved
//! once more.
#![tactic(auto)]

#[cfg(test)]
mod avail;
#[cfg(test)]
mod bins;
#[cfg(test)]
mod counts;
#[cfg(test)]
mod lanes;
#[cfg(test)]
mod ledbat;
#[cfg(test)]
mod options;
#[cfg(test)]
mod paths;
#[cfg(test)]
mod pex;
#[cfg(test)]
mod plan;
#[cfg(test)]
mod ranges;
#[cfg(test)]
mod requests;
#[cfg(test)]
mod tree;
#[cfg(test)]
mod wanting;
#[cfg(test)]
mod wire;
