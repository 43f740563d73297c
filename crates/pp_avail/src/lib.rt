//! What each seat offers, and which chunk to ask of it next.
#![tactic(auto)]

mod avail;
mod choice;
mod copies;
mod levels;
mod picks;
mod planes;
mod ranker;
mod row;

pub use avail::Avail;
pub use picks::pick;
pub use ranker::{Rank, Ranker, Rule, by_blocks};
