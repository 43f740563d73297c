//! The peers of a replay, each with its disk and its lives: what a schedule does to one of them.
#![tactic(auto)]

mod actor;
mod life;
mod memory;
mod starting;

pub use actor::Actor;
pub use life::{Life, Remains};
