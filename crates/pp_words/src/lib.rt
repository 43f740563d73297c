//! The words of a command line: reads the command that they spell, or names the first wrong word. Takes no memory.
#![tactic(auto)]

mod address;
mod commands;
mod laws;
pub mod number;
mod reading;
mod slots;
mod types;

pub use address::read_address;
pub use laws::examples_of_words;
pub use reading::read_words;
pub use types::{Command, Order, Usage, UsageKind};
