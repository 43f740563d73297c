//! A swarm that is named without the size of its content, and learning the size from its last chunk.
#![tactic(auto)]

mod form;
mod laws;
mod learning;
mod target;

pub use laws::laws_of_targets;
pub use learning::{Learned, learn};
pub use target::{SwarmName, Target};
