//! Messages without a chunk, as they are kept until they are sent.

use pp_ranges::ChunkRange;

/// What is to be said on a channel.
#[derive(Clone, Copy, PartialEq, Eq, Debug)]
pub enum Note {
    /// Nothing: a datagram without a message keeps a channel open.
    KeepAlive,
    /// A handshake with this peer's options, from this channel of the peer.
    Handshake { source: u32 },
    /// A handshake from channel 0, which closes the channel.
    Close,
    Choke,
    Unchoke,
    /// Chunks that came, and a sample of the one-way delay in microseconds.
    Ack { range: ChunkRange, delay: u64 },
    /// Chunks that this peer has.
    Have { range: ChunkRange },
    /// Chunks that this peer asks for.
    Request { range: ChunkRange },
    /// Chunks that this peer no longer asks for.
    Cancel { range: ChunkRange },
    /// Asks for addresses of other peers.
    PexReq,
    /// The IPv4 address of another peer.
    Pex4 { address: [u8; 4], port: u16 },
    /// The IPv6 address of another peer.
    Pex6 { address: [u8; 16], port: u16 },
}

/// A handshake with this peer's options from this channel of the peer, and what is to be said behind it.
#[derive(Clone, Copy)]
pub struct Reply<'a> {
    pub source: u32,
    pub notes: &'a [Note],
}
