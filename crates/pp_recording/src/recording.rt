// A recording in memory.
ghost use Rattle.std.specs.Prelude.{◌≡◌, ◌<◌, length, slice_index_or};
ghost use Rattle.pp_recording.specs.State.{RecordingState, IsWhole};

use pp_outside::Address;
use pp_tree::{Book, Descriptor};
use std::marker::Model;

/// One record of a link: a datagram that came, a wait in which none came, both at a moment of the link in microseconds, or a
/// datagram that was sent, with the disk's moment then. The datagram has `len` bytes from `start` on in the recording's.
#[derive(Clone, Copy, Debug, PartialEq, Eq)]
pub enum Entry {
    Received {
        at: u64,
        from: Address,
        start: usize,
        len: usize,
    },
    Quiet {
        at: u64,
    },
    Sent {
        moment: u64,
        to: Address,
        start: usize,
        len: usize,
    },
}

/// The traffic of one session, the oldest record first, with the swarm's descriptor and the book at the session's end. The
/// datagrams stand one after the other.
#[derive(Drop)]
pub struct Recording {
    descriptor: Descriptor,
    book: Book,
    entries: Vec<Entry>,
    bytes: Vec<u8>,
}

impl Model for Recording {
    ghost use Rattle.pp_recording.specs.State.{RecordingState, IsWhole};

    ghost Value = { RecordingState };

    ghost view = { λ r. record { descriptor = r.descriptor; book = r.book; entries = r.entries.items; bytes = r.bytes.items } };

    ghost invariant = { λ r.
        IsWhole (record { descriptor = r.descriptor; book = r.book; entries = r.entries.items; bytes = r.bytes.items }) };
}

impl Recording {
    /// A recording of these parts. It takes no memory.
    pub fn new(descriptor: Descriptor, book: Book, entries: Vec<Entry>, bytes: Vec<u8>) -> Recording
        requires { IsWhole (record { descriptor = descriptor; book = book; entries = entries.items; bytes = bytes.items }) }
        ensures is { result ≡ record { descriptor = descriptor; book = book; entries = entries.items; bytes = bytes.items } }
        ensures whole { IsWhole result }
    {
        Recording {
            descriptor,
            book,
            entries,
            bytes,
        }
    }

    pub fn descriptor(&self) -> &Descriptor
        ensures { result.now ≡ self.now.descriptor }
    {
        &self.descriptor
    }

    /// What the session knew of the content's tree at its end.
    pub fn book(&self) -> &Book
        ensures { result.now ≡ self.now.book }
    {
        &self.book
    }

    /// How many records there are, at most 16,384.
    pub fn count(&self) -> usize
        ensures count { result ≡ length self.now.entries }
        ensures whole { IsWhole self.now }
    {
        self.entries.len()
    }

    /// A record by its number, 0 for the oldest.
    pub fn entry(&self, n: usize) -> &Entry
        requires { n < length self.now.entries }
        ensures { result.now ≡ slice_index_or self.now.entries n result.now }
    {
        &self.entries[n]
    }

    /// The records, the oldest first.
    pub fn entries(&self) -> &[Entry]
        ensures { result.now ≡ self.now.entries }
    {
        self.entries.as_slice()
    }

    /// The bytes of all datagrams, one after the other, the oldest first.
    pub fn bytes(&self) -> &[u8]
        ensures { result.now ≡ self.now.bytes }
    {
        self.bytes.as_slice()
    }
}
