//! A store whose size isn't known: what its header tells of it, and the nodes of a book that no content's tree has.
#![tactic(auto)]

mod front;
mod probing;
mod shape;

pub use probing::{NameFault, probe_name};
pub use shape::first_misshapen;
