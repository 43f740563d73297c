// What a disk's file may be found to be.
use thiserror::Error;

/// What a file is for a descriptor.
#[derive(Clone, Copy, Debug, PartialEq, Eq)]
pub enum Probe {
    /// It is empty.
    Fresh,
    /// It begins with the descriptor's header.
    Ours,
}

/// Why a file is neither empty nor the descriptor's.
#[derive(Clone, Copy, Debug, PartialEq, Eq, Error)]
pub enum ProbeFault {
    /// Byte `at`, below 64, is the first that differs from the header.
    #[error("not a store: byte {at} is {found}, wanted {want}")]
    NotAStore { at: u8, found: u8, want: u8 },
    /// The disk refused a call.
    #[error("the disk refused a call")]
    Disk,
}
