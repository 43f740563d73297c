//! Tests of the texts that are read: command lines, schedules, recordings and names of swarms; and of
//! learning the size of a swarm that is named without it.
#![tactic(auto)]

#[cfg(test)]
mod learner;
#[cfg(test)]
mod recordings;
#[cfg(test)]
mod replay;
#[cfg(test)]
mod targets;
#[cfg(test)]
mod words;
