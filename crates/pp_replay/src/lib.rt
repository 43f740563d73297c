//! Schedules of several peers that share a content: how their texts are read, with no memory taken; and rehearsals, which are
//! schedules with troubles that a number draws.
#![tactic(auto)]

mod arity;
mod content;
mod datagram;
mod fault;
mod head;
mod lines;
mod names;
mod numbers;
mod reading;
mod rehearsing;
mod roles;
mod schedule;
mod steps;
mod types;

pub use datagram::Hex;
pub use fault::{ScheduleFault, ScheduleKind};
pub use reading::read_schedule;
pub use rehearsing::rehearsal;
pub use schedule::{Schedule, Steps};
pub use types::{Act, Device, Order, Role, Step};
