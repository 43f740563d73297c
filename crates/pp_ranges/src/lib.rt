//! Ranges of chunks, sets of chunks as lists of few ranges, and the nodes of the tree that cover a range. Nothing here
//! takes memory.
#![tactic(auto)]

mod examples;
mod list;
mod nodes;
mod range;

pub use examples::examples_of_ranges;
pub use list::{Full, RangeList};
pub use nodes::cover;
pub use range::ChunkRange;
