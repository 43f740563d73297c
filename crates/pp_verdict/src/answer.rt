//! What an audit comes to.

ghost use Rattle.std.specs.Prelude.{◌≡◌};
ghost use Rattle.pp_verdict.specs.Faults.{number_of};

/// A part of the rule on chunks that are sent, in the order in which they are looked at.
#[derive(Clone, Copy, PartialEq, Eq, Debug)]
pub enum Part {
    /// The chunk is its datagram's last message.
    Tail,
    /// Its bytes are the book's, which leads up to the root (RFC 7574, section 5.2).
    Backed,
    /// The datagram lies on an open channel (RFC 7574, sections 3.1.1 and 8.2 to 8.4).
    Life,
    /// The peer asked for the chunk (RFC 7574, sections 3.7 and 3.8).
    Asked,
    /// The peer isn't choked, and was heard from (RFC 7574, section 3.9).
    Unchoked,
    /// The hashes before it are the book's, and complete its path for the peer (RFC 7574, section 5.3).
    Hashes,
    /// The channel's window has room for it (RFC 7574, section 8.16).
    Window,
}

impl Part {
    /// Its number, from 1 for the first.
    pub fn number(self) -> u8
        ensures { result ≡ number_of self }
    {
        match self {
            Part::Tail => 1,
            Part::Backed => 2,
            Part::Life => 3,
            Part::Asked => 4,
            Part::Unchoked => 5,
            Part::Hashes => 6,
            Part::Window => 7,
        }
    }
}

/// Whether all chunks of a recording were served: then with how many records it has, and how many of them are datagrams
/// with a chunk that were sent. Else with the first record that wasn't, counted from 0 for the oldest, and the part that
/// fails there.
#[derive(Clone, Copy, PartialEq, Eq, Debug)]
pub enum Answer {
    Yes { records: u32, chunks: u32 },
    No { at: u32, part: Part },
}
