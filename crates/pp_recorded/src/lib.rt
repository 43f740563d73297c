//! What a recorded list of traffic says of one channel: what was asked, told, claimed and sent on it, and whether what was sent
//! serves. `pp_audit` decides the promises by it. Nothing here takes memory.
#![tactic(auto)]

pub mod acts;
pub mod asking;
pub mod carrying;
pub mod claims;
pub mod contradictions;
pub mod entry;
pub mod flying;
pub mod gauge;
pub mod hashes;
pub mod lives;
pub mod marks;
pub mod nodes;
pub mod owing;
pub mod path;
pub mod plain;
pub mod plans;
pub mod proving;
pub mod reading;
pub mod records;
pub mod said;
pub mod searching;
pub mod serving;
pub mod silence;
pub mod sorts;
pub mod standing;
pub mod timing;
pub mod unread;
pub mod windows;
