//! The plain, slow program that decides the promises of a peer on a recorded list of its traffic. It is the reference for
//! whatever decides them faster. Nothing here takes memory.
#![tactic(auto)]

mod acking;
mod announced;
mod answered;
mod asked;
mod asks;
mod batches;
mod channels;
mod clauses;
mod datagrams;
mod debts;
mod dialling;
mod digests;
mod duties;
mod ends;
mod laws;
mod missing;
mod newcomers;
mod offers;
mod reports;
mod runs;
mod served;
mod stored;
mod storing;
mod tallies;
mod telling;
mod turns;

pub use announced::{acknowledges_all, tells_all};
pub use answered::{chokes_none, keeps_up_but, lets_in_but};
pub use asked::asks_but;
pub use batches::{Batch, Pending, commits_in_time};
pub use datagrams::{are_whole, closes_last, requests_none};
pub use dialling::dials_but;
pub use laws::kept_turns;
pub use missing::{is_complete, is_first_missing};
pub use pp_recorded::asking::{is_asked, is_choked, is_heard, is_told};
pub use pp_recorded::entry::{Entry, Life};
pub use pp_recorded::lives::is_life;
pub use pp_recorded::path::completes;
pub use pp_recorded::plain::is_plain;
pub use pp_recorded::plans::plans_all;
pub use pp_recorded::searching::answers_peer;
pub use pp_recorded::serving::serves;
pub use pp_recorded::windows::lets_send;
pub use reports::{is_held_line, is_incomplete_report, is_report};
pub use served::serves_but;
pub use stored::stores_all;
pub use tallies::{LinkCounts, is_tallied, took_turns};
