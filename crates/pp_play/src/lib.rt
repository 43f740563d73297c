//! Replays of schedules: several peers over devices in memory, move by move as a schedule says; and recordings of them.
#![tactic(auto)]

mod acts;
mod delivering;
mod first;
mod playing;
mod recording;
mod replaying;
mod stage;
mod turns;

pub use recording::{RecordFault, record_life};
pub use replaying::{Outcome, ReplayFault, replay};
use stage::Stage;
