//! The messages of a datagram (RFC 7574, sections 3 and 8), read and written. Nothing here takes memory.
#![tactic(auto)]

mod bins;
mod laws;
mod message;
mod reading;
mod spans;
mod types;
mod writing;

pub use laws::{one_datagram, one_message, worked_messages};
pub use message::{ChunkKind, Message, PutFault, Span, Step, WireFault, WireKind};
pub use reading::next;
pub use writing::{put, put_head, put_named};
