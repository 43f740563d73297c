//! A peer of a swarm that is named without the size of its content, which it learns from the last chunk (RFC 7574, sections 3 and 5).
//! It serves nothing, keeps no store, and asks for last chunks alone. Only `Learner::open` takes memory.
#![tactic(auto)]

mod arriving;
mod dialling;
mod dials;
mod due;
mod flushing;
mod laws;
mod learner;
mod outbox;
mod parts;
mod reading;
mod row;
mod rows;
mod sending;

pub use laws::laws_of_learning;
pub use learner::Learner;
