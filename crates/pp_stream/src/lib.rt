//! A content is written to a sink in order while its peer still fetches it: each chunk once, as soon as it and all before it
//! are committed. Takes no memory.
#![tactic(auto)]

mod pieces;
mod player;

pub use pieces::put_all;
pub use player::{PlayFault, Player};
