//! Whether each chunk that was sent in a recording was served by the rules; else the first record that was not, and the
//! part of the rule that fails there.
#![tactic(auto)]

mod answer;
mod chunk;
mod course;
mod entries;
mod findings;
mod judgement;
mod laws;
mod lives;
mod path;
mod reaches;
mod rooted;
mod shakes;
mod signs;
mod verdict;

pub use answer::{Answer, Part};
pub use laws::laws_of_answers;
pub use verdict::audit;
