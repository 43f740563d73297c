//! All that a peer keeps of its channels, its store and its requests, and what an event does to it (RFC 7574, sections
//! 3 and 8). Nothing here takes memory.
#![tactic(auto)]

mod arriving;
mod dialling;
mod flushing;
mod greeting;
mod hearing;
mod laws;
mod parts;
mod serving;
mod slotting;
mod speaking;
mod supporting;

pub use dialling::Dials;
pub use laws::laws_of_parts;
pub use parts::Parts;
pub use speaking::Speaker;
pub use supporting::{Supports, supported};
