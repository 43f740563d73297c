//! What is told of chunks that were committed: HAVE to all channels, an ACK to each sender (RFC 7574, sections 3.2 and 3.3).
//! Only `News::new` takes memory.
#![tactic(auto)]

mod acknowledgement;
mod laws;
mod news;
mod runs;
mod stretches;
mod tickets;

pub use acknowledgement::Acknowledgement;
pub use laws::laws_of_news;
pub use news::News;
