//! What a peer notes as it happens.

/// Something that a peer counts; each has a count of its own.
#[derive(Clone, Copy, Debug, PartialEq, Eq)]
pub enum Note {
    /// A wait for a datagram, a refused one too.
    Turn,
    /// A datagram that came.
    Datagram,
    /// A datagram that was sent.
    Sent,
    /// A chunk that was stored.
    Stored,
    /// A datagram of a channel number alone.
    KeepAlive,
    /// A datagram of fewer than four bytes.
    Short,
    /// A datagram for a channel that isn't the sender's, or for channel 0 with no handshake first.
    Stranger,
    /// A handshake with faulty or other options, of source channel 0, or of a channel that is open already.
    RefusedHandshake,
    /// A handshake for which there was no room.
    NoSeat,
    /// A datagram with a faulty message, behind which nothing is read.
    Cut,
    /// A message that names chunks, but none of the content.
    Outside,
    /// A hash that is that of no node.
    NotANode,
    /// A request for which a list had no room.
    Full,
    /// A request of a choked peer.
    Choked,
    /// A request for chunks that weren't there.
    Unheld,
    /// A chunk whose hashes were missing.
    Missing,
    /// A chunk with a wrong hash or length.
    Wrong,
    /// A chunk that came again.
    Repeat,
    /// A chunk that was read back with another digest.
    Damaged,
    /// A reading that the disk refused.
    ReadFault,
    /// A datagram that the link refused to send.
    SendFault,
    /// A wait that the link refused.
    ReceiveFault,
}
