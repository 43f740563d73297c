//! The parts of a learner.

use crate::dials::Dials;
use crate::outbox::Outbox;
use crate::rows::Rows;
use pp_counts::Counts;
use pp_lives::Lives;
use pp_targets::SwarmName;

/// All that a learner keeps.
#[derive(Drop)]
pub struct Parts {
    pub name: SwarmName,
    pub outbox: Outbox,
    /// The channels.
    pub lives: Lives,
    /// What is kept of the messages of each.
    pub rows: Rows,
    /// The addresses that it was told to dial.
    pub dials: Dials,
    /// The greatest moment that was handed in, in microseconds.
    pub moment: u64,
    pub counts: Counts,
}
