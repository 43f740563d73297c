// Chunks that are acknowledged together.

use pp_ranges::ChunkRange;

/// Chunks that came on a channel and are acknowledged together, with a sample of the one-way delay in microseconds.
#[derive(Clone, Copy, PartialEq, Eq, Debug)]
pub struct Acknowledgement {
    pub range: ChunkRange,
    pub delay: u64,
}
