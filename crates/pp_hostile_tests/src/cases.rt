//! The table of messages, by the formats of RFC 7574, section 8, in a swarm that names chunks by ranges of 32 bits.

use crate::trial::To::{self, Channel, LastOfChannel, NoneOfPeer};
use std::alloc::{AllocError, Global};

/// Some messages that make up a datagram, given so many times, of which the first 65,532 bytes go.
#[derive(Clone, Copy)]
pub(crate) struct Case {
    pub(crate) name: &'static str,
    pub(crate) to: To,
    pub(crate) messages: &'static [u8],
    pub(crate) times: usize,
}

impl Case {
    /// The bytes behind the number of the channel.
    pub(crate) fn bytes(&self, alloc: Global) -> Result<Vec<u8>, AllocError> {
        let mut bytes = Vec::new(alloc);
        for _ in 0..self.times {
            bytes.extend_from_slice(self.messages)?;
        }
        bytes.truncate(65532);
        Ok(bytes)
    }
}

// As many as make up a datagram of 65,536 bytes, each of one byte or more.
const FULL: usize = 65532;

/// Spans whose first chunk is above the last. A closing handshake stands behind each, and isn't read.
pub(crate) const REVERSED: [Case; 7] = [
    Case {
        name: "a DATA whose span is reversed",
        to: Channel,
        messages: &[
            1, 0, 0, 0, 6, 0, 0, 0, 0, 0, 0, 0, 0, 0, 0, 0, 0, 1, 0, 0, 0, 0, 0, 255,
        ],
        times: 1,
    },
    Case {
        name: "an ACK whose span is reversed",
        to: Channel,
        messages: &[
            2, 0, 0, 0, 6, 0, 0, 0, 0, 0, 0, 0, 0, 0, 0, 0, 0, 0, 0, 0, 0, 0, 255,
        ],
        times: 1,
    },
    Case {
        name: "a HAVE whose span is reversed",
        to: Channel,
        messages: &[3, 0, 0, 0, 6, 0, 0, 0, 0, 0, 0, 0, 0, 0, 255],
        times: 1,
    },
    Case {
        name: "an INTEGRITY whose span is reversed",
        to: Channel,
        messages: &[
            4, 0, 0, 0, 6, 0, 0, 0, 0, 0, 0, 0, 0, 0, 0, 0, 0, 0, 0, 0, 0, 0, 0, 0, 0, 0, 0, 0, 0,
            0, 0, 0, 0, 0, 0, 0, 0, 0, 0, 0, 0, 0, 0, 0, 0, 0, 255,
        ],
        times: 1,
    },
    Case {
        name: "a REQUEST whose span is reversed",
        to: Channel,
        messages: &[8, 0, 0, 0, 6, 0, 0, 0, 5, 0, 0, 0, 0, 0, 255],
        times: 1,
    },
    Case {
        name: "a CANCEL whose span is reversed",
        to: Channel,
        messages: &[9, 0, 0, 0, 1, 0, 0, 0, 0, 0, 0, 0, 0, 0, 255],
        times: 1,
    },
    Case {
        name: "a REQUEST from the greatest number down to 0",
        to: Channel,
        messages: &[8, 255, 255, 255, 255, 0, 0, 0, 0, 0, 0, 0, 0, 0, 255],
        times: 1,
    },
];

/// Spans that don't lie in the content, or partly, and DATA that is none of its chunks.
pub(crate) const OUTSIDE: [Case; 15] = [
    Case {
        name: "a DATA of the chunk behind the last",
        to: Channel,
        messages: &[1, 0, 0, 0, 7, 0, 0, 0, 7, 0, 0, 0, 0, 0, 0, 0, 0, 1],
        times: 1,
    },
    Case {
        name: "a DATA of the greatest chunk number",
        to: Channel,
        messages: &[
            1, 255, 255, 255, 255, 255, 255, 255, 255, 0, 0, 0, 0, 0, 0, 0, 0, 1,
        ],
        times: 1,
    },
    Case {
        name: "a DATA of two chunks",
        to: Channel,
        messages: &[
            1, 0, 0, 0, 0, 0, 0, 0, 1, 0, 0, 0, 0, 0, 0, 0, 0, 1, 0, 0, 0, 0, 0, 255,
        ],
        times: 1,
    },
    Case {
        name: "a DATA of one wrong byte, from the end of time",
        to: Channel,
        messages: &[
            1, 0, 0, 0, 0, 0, 0, 0, 0, 255, 255, 255, 255, 255, 255, 255, 255, 1,
        ],
        times: 1,
    },
    Case {
        name: "an ACK of the chunk behind the last",
        to: Channel,
        messages: &[2, 0, 0, 0, 7, 0, 0, 0, 7, 0, 0, 0, 0, 0, 0, 0, 0],
        times: 1,
    },
    Case {
        name: "an ACK of all numbers",
        to: Channel,
        messages: &[2, 0, 0, 0, 0, 255, 255, 255, 255, 0, 0, 0, 0, 0, 0, 0, 0],
        times: 1,
    },
    Case {
        name: "a HAVE of the chunk behind the last",
        to: Channel,
        messages: &[3, 0, 0, 0, 7, 0, 0, 0, 7],
        times: 1,
    },
    Case {
        name: "a HAVE of all numbers",
        to: Channel,
        messages: &[3, 0, 0, 0, 0, 255, 255, 255, 255],
        times: 1,
    },
    Case {
        name: "an INTEGRITY of the greatest chunk number",
        to: Channel,
        messages: &[
            4, 255, 255, 255, 255, 255, 255, 255, 255, 0, 0, 0, 0, 0, 0, 0, 0, 0, 0, 0, 0, 0, 0, 0,
            0, 0, 0, 0, 0, 0, 0, 0, 0, 0, 0, 0, 0, 0, 0, 0, 0,
        ],
        times: 1,
    },
    Case {
        name: "an INTEGRITY of all numbers",
        to: Channel,
        messages: &[
            4, 0, 0, 0, 0, 255, 255, 255, 255, 0, 0, 0, 0, 0, 0, 0, 0, 0, 0, 0, 0, 0, 0, 0, 0, 0,
            0, 0, 0, 0, 0, 0, 0, 0, 0, 0, 0, 0, 0, 0, 0,
        ],
        times: 1,
    },
    Case {
        name: "a REQUEST of the chunk behind the last",
        to: Channel,
        messages: &[8, 0, 0, 0, 7, 0, 0, 0, 7],
        times: 1,
    },
    Case {
        name: "a REQUEST of the greatest chunk number",
        to: Channel,
        messages: &[8, 255, 255, 255, 255, 255, 255, 255, 255],
        times: 1,
    },
    Case {
        name: "a REQUEST of all numbers",
        to: Channel,
        messages: &[8, 0, 0, 0, 0, 255, 255, 255, 255],
        times: 1,
    },
    Case {
        name: "a CANCEL of the chunk behind the last",
        to: Channel,
        messages: &[9, 0, 0, 0, 7, 0, 0, 0, 7],
        times: 1,
    },
    Case {
        name: "a CANCEL of all numbers",
        to: Channel,
        messages: &[9, 0, 0, 0, 0, 255, 255, 255, 255],
        times: 1,
    },
];

/// Delays of 0, 2^63 and 2^64 - 1, and handshakes that close a channel or none.
pub(crate) const EXTREME: [Case; 11] = [
    Case {
        name: "a keep-alive",
        to: Channel,
        messages: &[],
        times: 1,
    },
    Case {
        name: "an ACK with a delay of 0",
        to: Channel,
        messages: &[2, 0, 0, 0, 0, 0, 0, 0, 0, 0, 0, 0, 0, 0, 0, 0, 0],
        times: 1,
    },
    Case {
        name: "an ACK with a delay of 2^63",
        to: Channel,
        messages: &[2, 0, 0, 0, 0, 0, 0, 0, 0, 128, 0, 0, 0, 0, 0, 0, 0],
        times: 1,
    },
    Case {
        name: "an ACK with a delay of 2^64 - 1",
        to: Channel,
        messages: &[
            2, 0, 0, 0, 0, 0, 0, 0, 0, 255, 255, 255, 255, 255, 255, 255, 255,
        ],
        times: 1,
    },
    Case {
        name: "ACKs with delays of 0 and then 2^63",
        to: Channel,
        messages: &[
            2, 0, 0, 0, 0, 0, 0, 0, 0, 0, 0, 0, 0, 0, 0, 0, 0, 2, 0, 0, 0, 1, 0, 0, 0, 1, 128, 0,
            0, 0, 0, 0, 0, 0,
        ],
        times: 1,
    },
    Case {
        name: "ACKs with delays of 2^63 and then 0",
        to: Channel,
        messages: &[
            2, 0, 0, 0, 0, 0, 0, 0, 0, 128, 0, 0, 0, 0, 0, 0, 0, 2, 0, 0, 0, 1, 0, 0, 0, 1, 0, 0,
            0, 0, 0, 0, 0, 0,
        ],
        times: 1,
    },
    Case {
        name: "ACKs with delays of 0 and then 2^64 - 1",
        to: Channel,
        messages: &[
            2, 0, 0, 0, 0, 0, 0, 0, 0, 0, 0, 0, 0, 0, 0, 0, 0, 2, 0, 0, 0, 1, 0, 0, 0, 1, 255, 255,
            255, 255, 255, 255, 255, 255,
        ],
        times: 1,
    },
    Case {
        name: "a closing handshake",
        to: LastOfChannel,
        messages: &[0, 0, 0, 0, 0, 255],
        times: 1,
    },
    Case {
        name: "a REQUEST, a closing handshake and a REQUEST",
        to: LastOfChannel,
        messages: &[
            8, 0, 0, 0, 0, 0, 0, 0, 6, 0, 0, 0, 0, 0, 255, 8, 0, 0, 0, 0, 0, 0, 0, 6,
        ],
        times: 1,
    },
    Case {
        name: "a closing handshake for no channel",
        to: NoneOfPeer,
        messages: &[0, 0, 0, 0, 0, 255],
        times: 1,
    },
    Case {
        name: "a REQUEST for no channel",
        to: NoneOfPeer,
        messages: &[8, 0, 0, 0, 0, 0, 0, 0, 6],
        times: 1,
    },
];

/// Datagrams of 65,536 bytes, each message one byte.
pub(crate) const CHOKES: [Case; 2] = [
    Case {
        name: "CHOKEs",
        to: Channel,
        messages: &[10],
        times: FULL,
    },
    Case {
        name: "UNCHOKEs",
        to: Channel,
        messages: &[11],
        times: FULL,
    },
];

/// More of these.
pub(crate) const BYTES: [Case; 2] = [
    Case {
        name: "CHOKEs and UNCHOKEs in turn",
        to: Channel,
        messages: &[10, 11],
        times: FULL,
    },
    Case {
        name: "PEX_REQs",
        to: Channel,
        messages: &[6],
        times: FULL,
    },
];

/// Datagrams with many messages, most of 65,536 bytes.
pub(crate) const MANY: [Case; 11] = [
    Case {
        name: "HAVEs of all chunks",
        to: Channel,
        messages: &[3, 0, 0, 0, 0, 0, 0, 0, 6],
        times: 7282,
    },
    Case {
        name: "HAVEs of all numbers",
        to: Channel,
        messages: &[3, 0, 0, 0, 0, 255, 255, 255, 255],
        times: 7282,
    },
    Case {
        name: "REQUESTs of all chunks",
        to: Channel,
        messages: &[8, 0, 0, 0, 0, 0, 0, 0, 6],
        times: 7282,
    },
    Case {
        name: "REQUESTs of chunks that don't touch",
        to: Channel,
        messages: &[
            8, 0, 0, 0, 0, 0, 0, 0, 0, 8, 0, 0, 0, 2, 0, 0, 0, 2, 8, 0, 0, 0, 4, 0, 0, 0, 4, 8, 0,
            0, 0, 6, 0, 0, 0, 6,
        ],
        times: 1821,
    },
    Case {
        name: "REQUESTs and CANCELs in turn",
        to: Channel,
        messages: &[8, 0, 0, 0, 0, 0, 0, 0, 6, 9, 0, 0, 0, 0, 0, 0, 0, 6],
        times: 3641,
    },
    Case {
        name: "100 ACKs of a chunk",
        to: Channel,
        messages: &[2, 0, 0, 0, 0, 0, 0, 0, 0, 0, 0, 0, 0, 0, 0, 0, 0],
        times: 100,
    },
    Case {
        name: "129 INTEGRITYs of a chunk",
        to: Channel,
        messages: &[
            4, 0, 0, 0, 0, 0, 0, 0, 0, 0, 0, 0, 0, 0, 0, 0, 0, 0, 0, 0, 0, 0, 0, 0, 0, 0, 0, 0, 0,
            0, 0, 0, 0, 0, 0, 0, 0, 0, 0, 0, 0,
        ],
        times: 129,
    },
    Case {
        name: "INTEGRITYs of a chunk",
        to: Channel,
        messages: &[
            4, 0, 0, 0, 0, 0, 0, 0, 0, 0, 0, 0, 0, 0, 0, 0, 0, 0, 0, 0, 0, 0, 0, 0, 0, 0, 0, 0, 0,
            0, 0, 0, 0, 0, 0, 0, 0, 0, 0, 0, 0,
        ],
        times: 1599,
    },
    Case {
        name: "IPv4 addresses",
        to: Channel,
        messages: &[5, 10, 0, 0, 9, 27, 88],
        times: 9362,
    },
    Case {
        name: "IPv6 addresses",
        to: Channel,
        messages: &[12, 0, 0, 0, 0, 0, 0, 0, 0, 0, 0, 0, 0, 0, 0, 0, 1, 0, 0],
        times: 3450,
    },
    Case {
        name: "handshakes that change nothing",
        to: Channel,
        messages: &[0, 10, 11, 12, 13, 255],
        times: 10922,
    },
];
