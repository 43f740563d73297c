//! What the peer asks of the outside, a disk, a link, a source and a sink, and such things in memory.
//!
//! Each trait has one meaning, plain data of `pp_terms`, and says of each call what it does to that meaning. A call
//! answers its fault only where the object's count of faults rose in it; a count that stands at the greatest `u64`
//! stays there.
#![tactic(auto)]

mod bytes;
mod call;
mod disk;
mod events;
mod fuse_disk;
mod link;
mod log;
mod lying_disk;
mod memory_disk;
mod memory_link;
mod memory_sink;
mod memory_source;
mod null_disk;
mod orders;
mod records;
mod stream;
mod zero_source;

pub use call::Call;
pub use disk::{Disk, DiskFault};
pub use fuse_disk::FuseDisk;
pub use link::{Address, Event, Link, LinkFault};
pub use lying_disk::LyingDisk;
pub use memory_disk::MemoryDisk;
pub use memory_link::MemoryLink;
pub use memory_sink::MemorySink;
pub use memory_source::MemorySource;
pub use null_disk::NullDisk;
pub use records::Mark;
pub use stream::{Sink, SinkFault, Source, SourceFault};
pub use zero_source::ZeroSource;
