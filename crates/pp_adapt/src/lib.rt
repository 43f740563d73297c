//! The real devices: a disk over a file, a link over a UDP socket, a source over standard input, a sink over standard
//! output.
//!
//! Each counts the calls that it refused and tells nothing of its contents, since no contract says what a file, a
//! socket or a stream holds. That the system does as its manual says is trusted.
#![tactic(auto)]

mod cause;
mod extents;
mod file_disk;
mod gathering;
mod limit;
mod meter;
mod metered;
mod stdin_source;
mod stdout_sink;
mod udp_link;
mod whole_lines;

pub use cause::{Cause, Step};
pub use file_disk::FileDisk;
pub use limit::{Limited, output_room};
pub use meter::{Stream, clear_line, is_terminal};
pub use metered::Metered;
pub use stdin_source::StdinSource;
pub use stdout_sink::StdoutSink;
pub use udp_link::UdpLink;
pub use whole_lines::WholeLines;
