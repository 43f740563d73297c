//! What a congestion window remembers of what is on its way, and of how long it took.

/// A chunk on its way: its number, when it was sent, in microseconds, and how many chunks that were sent after it were
/// acknowledged while it flew (RFC 6817, section 3.2).
#[derive(Clone, Copy, Debug, Default, PartialEq, Eq)]
pub struct Entry {
    pub chunk: u32,
    pub overtaken: u32,
    pub sent_at: u64,
}

/// A minute that has samples, by its number, and the least of them (RFC 6817, section 3.4.2).
#[derive(Clone, Copy, Debug, Default, PartialEq, Eq)]
pub struct Minute {
    pub number: u64,
    pub least: u64,
}
