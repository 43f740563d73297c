//! Messages, and what can be wrong with their bytes.

use pp_options::{OptionFault, Options};
use pp_tree::Digest;

/// The chunks from `first` to `last`, both included.
#[derive(Clone, Copy, Debug, PartialEq, Eq)]
pub struct Span {
    pub first: u64,
    pub last: u64,
}

/// A message of a datagram, whose longer fields lie in the datagram (RFC 7574, section 8). Moments and delays are in
/// microseconds.
#[derive(Clone, Copy, Debug, PartialEq, Eq)]
pub enum Message<'a> {
    /// The sender's channel, 0 where it closes the channel, and its options.
    Handshake {
        source: u32,
        options: Options<'a>,
    },
    /// The bytes of one chunk, and the sender's moment.
    Data {
        chunk: u64,
        sent_at: u64,
        bytes: &'a [u8],
    },
    /// Chunks that came, and a sample of the one-way delay.
    Ack {
        span: Span,
        delay: u64,
    },
    /// Chunks that the sender has.
    Have {
        span: Span,
    },
    /// The hash of the node over the chunks.
    Integrity {
        span: Span,
        digest: Digest,
    },
    /// The IPv4 address of another peer.
    Pex4 {
        address: [u8; 4],
        port: u16,
    },
    /// Asks for addresses of other peers.
    PexReq,
    /// Asks for chunks.
    Request {
        span: Span,
    },
    /// Takes back what was asked for.
    Cancel {
        span: Span,
    },
    /// Requests are not answered from now on.
    Choke,
    /// Requests are answered again.
    Unchoke,
    /// The IPv6 address of another peer.
    Pex6 {
        address: [u8; 16],
        port: u16,
    },
}

/// What a message says that names chunks and has no other field.
#[derive(Clone, Copy, Debug, PartialEq, Eq)]
pub enum ChunkKind {
    Have,
    Request,
    Cancel,
}

/// Why bytes don't begin with a message: where several apply, the first of them in the order UnknownType, Short, Range,
/// Wide, Options.
#[derive(Clone, Copy, Debug, PartialEq, Eq)]
pub enum WireKind {
    /// The fields end too early, or a DATA has no byte.
    Short,
    /// The type is 7, or 13 or above.
    UnknownType(u8),
    /// The start of a range is above its end, or a bin has one bits alone.
    Range,
    /// A DATA names more than one chunk.
    Wide,
    /// A fault of a handshake's options, at a place counted from the message's first byte.
    Options(OptionFault),
}

/// A fault, and the place of the first byte of its message.
#[derive(Clone, Copy, Debug, PartialEq, Eq)]
pub struct WireFault {
    pub at: usize,
    pub kind: WireKind,
}

/// What stands at a place of a datagram.
#[derive(Clone, Copy, Debug, PartialEq, Eq)]
pub enum Step<'a> {
    /// A message, and the place behind it.
    Message { message: Message<'a>, next: usize },
    /// Nothing: the datagram ends here.
    End,
    /// A message that has a fault.
    Cut(WireFault),
}

/// Why a message isn't put.
#[derive(Clone, Copy, Debug, PartialEq, Eq)]
pub enum PutFault {
    /// The output ends too early.
    NoRoom,
    /// The swarm names chunks by bins, and the chunks aren't the leaves of one bin that has a number.
    NotABin,
}
