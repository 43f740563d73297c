//! Options and what can be wrong with their bytes.

/// The options that a handshake has. Numbers are as they stand in the bytes.
#[derive(Clone, Copy, Debug, PartialEq, Eq)]
pub struct Options<'a> {
    /// The version of the protocol, 1 for RFC 7574.
    pub version: Option<u8>,
    /// The least version that is understood.
    pub minimum: Option<u8>,
    /// The swarm identifier: the root hash.
    pub swarm: Option<&'a [u8]>,
    /// The content integrity protection method, 1 for a Merkle hash tree.
    pub integrity: Option<u8>,
    /// The Merkle hash function, 2 for SHA-256.
    pub hash: Option<u8>,
    /// The chunk addressing method.
    pub addressing: Option<u8>,
    /// The types of the messages that are understood: type 0 is the highest bit of the first byte.
    pub messages: Option<&'a [u8]>,
    /// The chunk size in bytes.
    pub chunk: Option<u32>,
}

/// Why bytes don't begin with options. `at` is the place of the code of which it speaks; for a missing code it is the
/// number of the bytes.
#[derive(Clone, Copy, Debug, PartialEq, Eq)]
pub enum OptionFault {
    /// The bytes end before the option does, or before code 255.
    Short { at: usize },
    /// The code is none of 0 to 4, 6, 8, 9 and 255.
    Unknown { at: usize, code: u8 },
    /// An option of this code came before.
    Twice { at: usize, code: u8 },
    /// The bitmap of the messages has more than 32 bytes.
    BadLength { at: usize, length: u8 },
}

/// The output ends too early.
#[derive(Clone, Copy, Debug, PartialEq, Eq)]
pub struct NoRoom;
