// A content that is written while it comes.
ghost use Rattle.std.specs.Prelude.{◌≡◌, ◌+◌, ◌<◌, ◌≤◌, min};
ghost use Rattle.pp_terms.specs.format.Descriptor.{chunks_of};
ghost use Rattle.pp_stream.specs.Player.{feed, limit_of};
ghost use Rattle.pp_stream.specs.Steps.{TakesStep, PutsOne, unread_as};

use crate::pieces::put_all;
use pp_core::Peer;
use pp_outside::{Disk, Sink};
use pp_store::ReadFault;
use pp_tree::Digest;
use std::marker::Model;

// The most bytes in a chunk.
const MOST_BYTES: usize = 8192;

/// Why no more chunks are written.
#[derive(Clone, Copy, Debug, PartialEq, Eq)]
pub enum PlayFault {
    /// The disk refused a reading.
    Disk,
    /// The sink refused a piece.
    Sink,
    /// What was read of a chunk has the digest `found`, and the book has `kept`.
    Damaged {
        chunk: u32,
        found: Digest,
        kept: Digest,
    },
}

/// How far a content of so many chunks is written. It has a buffer of one chunk.
#[derive(Drop)]
pub struct Player {
    chunks: u32,
    window: u32,
    base: u32,
    buffer: [u8; MOST_BYTES],
}

impl Model for Player {
    ghost use Rattle.std.specs.Prelude.{◌≤◌};
    ghost use Rattle.pp_stream.specs.Player.{PlayerState};

    ghost Value = { PlayerState };

    ghost view = { λ p. record { chunks = p.chunks; window = p.window; base = p.base } };

    ghost invariant = { λ p. p.base ≤ p.chunks };
}

impl Player {
    /// Nothing of a content of so many chunks is written. `window` chunks from the first unwritten one on are to be asked for.
    pub fn new(chunks: u32, window: u32) -> Player
        ensures { result ≡ record { chunks = chunks; window = window; base = 0 } }
    {
        Player {
            chunks,
            window,
            base: 0,
            buffer: [0; MOST_BYTES],
        }
    }

    /// The first chunk that isn't written, and the number of chunks once all are.
    pub fn base(&self) -> u32
        ensures base { result ≡ self.now.base }
        ensures within { self.now.base ≤ self.now.chunks }
    {
        self.base
    }

    /// Chunks below this number are to be asked for: the window's, and none past the last.
    pub fn limit(&self) -> u32
        ensures { result ≡ limit_of self.now }
    {
        self.base.saturating_add(self.window).min(self.chunks)
    }

    /// Writes the committed chunks from the base on, in order, until one isn't committed or all are written. Each is read again,
    /// and its digest compared with the book's, before it goes to the sink in one piece. After a fault of the sink the chunk at
    /// the base may be written in part, and the next step begins it again. The disk is only read.
    pub fn step<D: Disk, K: Sink>(
        &mut self,
        peer: &Peer,
        disk: &mut D,
        sink: &mut K,
    ) -> Result<(), PlayFault>
        requires { self.old.chunks ≡ chunks_of peer.now.parts.holding.store.descriptor }
        ensures { TakesStep peer.now.parts.holding (feed self.old (D.state disk.old) (K.state sink.old))
            (feed self.new (D.state disk.new) (K.state sink.new)) result }
    {
        // Their contracts tell that the base lies in the content, and that a chunk has bytes.
        let _ = self.base();
        let _ = peer.descriptor().chunk();
        while self.base < self.chunks {
            if !self.put_next(peer, disk, sink)? {
                return Ok(());
            }
        }
        Ok(())
    }

    // Writes the chunk at the base, if it is committed, and says whether it was.
    fn put_next<D: Disk, K: Sink>(
        &mut self,
        peer: &Peer,
        disk: &mut D,
        sink: &mut K,
    ) -> Result<bool, PlayFault>
        requires of { self.old.chunks ≡ chunks_of peer.now.parts.holding.store.descriptor }
        requires within { self.old.base < self.old.chunks }
        ensures { PutsOne peer.now.parts.holding (feed self.old (D.state disk.old) (K.state sink.old))
            (feed self.new (D.state disk.new) (K.state sink.new)) result }
    {
        // Their contracts tell how many bytes a chunk has at the most, and that the book is the store's.
        let _ = peer.descriptor().chunk();
        let _ = peer.book();
        match peer.read(self.base, &mut self.buffer, disk) {
            Ok(len) => match put_all(sink, &self.buffer[..len]) {
                Ok(()) => {
                    self.base += 1;
                    Ok(true)
                }
                Err(_) => Err(PlayFault::Sink),
            },
            Err(fault) => unread(self.base, fault),
        }
    }
}

// What is answered of a chunk that wasn't read.
fn unread(chunk: u32, fault: ReadFault) -> Result<bool, PlayFault>
    ensures { result ≡ unread_as chunk fault }
{
    match fault {
        ReadFault::Absent => Ok(false),
        ReadFault::Disk => Err(PlayFault::Disk),
        ReadFault::Damaged { found, kept } => Err(PlayFault::Damaged { chunk, found, kept }),
    }
}
