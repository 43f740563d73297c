//! Devices in memory that are watched: code that knows a disk or a link by its trait alone may do with it what that trait allows, and
//! afterwards it is known what was done: which calls changed the disk, and that none failed but on order.
#![tactic(auto)]

mod before;
mod disk;
mod link;
mod waiting;

pub use before::Before;
pub use disk::WatchedDisk;
pub use link::WatchedLink;
pub use waiting::wait;
