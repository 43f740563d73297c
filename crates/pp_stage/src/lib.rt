//! Openings and turns of a peer over devices in memory, as a replay makes them: what comes is handed in, and the devices are watched, so that
//! each is one of a peer of a world.
#![tactic(auto)]

mod acting;
mod filling;
mod memory;
mod opening;
mod turning;

pub use filling::fill;
pub use opening::{Opened, Start, open};
pub use turning::{Cue, Running, Turned, take_turn};
