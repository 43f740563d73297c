//! Tests of replays: schedules of several peers, and what is left of them.
#![tactic(auto)]

#[cfg(test)]
mod commands;
#[cfg(test)]
mod ends;
#[cfg(test)]
mod lives;
#[cfg(test)]
mod recordings;
