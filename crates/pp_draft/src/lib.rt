//! The messages of one channel, put into datagrams in their order (RFC 7574, section 3). Nothing here takes memory.
#![tactic(auto)]

mod chunk;
mod message;
mod note;
mod packing;
mod posting;
mod ranges;

pub use chunk::{ChunkReader, Delivery, Unread, post_chunk};
pub use note::{Note, Reply};
pub use posting::{Posted, Receiver, post, post_reply};
