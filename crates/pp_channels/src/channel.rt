//! One channel.

ghost use Rattle.std.specs.Prelude.{◌≡◌};
ghost use Rattle.pp_channels.specs.Seats.{answered, dialled, is_dialled, is_sent, is_begun, with_handshake, due_again, unreplied};
ghost use Rattle.pp_channels.specs.Timing.{is_due};

use pp_outside::Address;

/// How far a channel has come (RFC 7574, section 8.4).
#[derive(Clone, Copy, Debug, PartialEq, Eq)]
pub enum State {
    /// A handshake was sent or came, and nothing yet shows that the other peer is where it says.
    Greeted,
    /// A datagram came to the number, which only a peer at that address was told.
    Proven,
}

/// Who opened a channel.
#[derive(Clone, Copy)]
pub enum Opening {
    /// This peer did; so many of its handshakes were sent, at most 255.
    Dialled { handshakes: u8 },
    /// The other peer did.
    Answered { reply: Reply },
}

/// How far the reply to the handshake of another peer has come.
#[derive(Clone, Copy)]
pub enum Reply {
    /// It is due, and none was sent yet.
    Due,
    /// It was sent.
    Sent,
    /// It was sent, and is due again.
    DueAgain,
}

/// A channel to another peer.
#[derive(Clone, Copy)]
pub struct Channel {
    /// Where the other peer is.
    pub address: Address,
    /// The number to which it sends.
    pub local: u32,
    /// The number to which it is sent, once it is known.
    pub remote: Option<u32>,
    pub state: State,
    pub opening: Opening,
    /// When the channel was made.
    pub made: u64,
    /// When a datagram last came, and last went; when the channel was made where none did.
    pub heard: u64,
    pub wrote: u64,
    /// Another channel of that address was dropped since.
    pub shadowed: bool,
}

impl Reply {
    pub(crate) fn is_due(self) -> bool
        ensures { result ≡ is_due self }
    {
        match self {
            Reply::Due | Reply::DueAgain => true,
            Reply::Sent => false,
        }
    }

    fn is_sent(self) -> bool
        ensures { result ≡ is_sent self }
    {
        match self {
            Reply::Due => false,
            Reply::Sent | Reply::DueAgain => true,
        }
    }

    /// It is to be sent, once more where it was sent.
    fn again(self) -> Reply
        ensures { result ≡ due_again self }
    {
        match self {
            Reply::Due => Reply::Due,
            Reply::Sent | Reply::DueAgain => Reply::DueAgain,
        }
    }
}

impl Opening {
    pub(crate) fn is_dialled(self) -> bool
        ensures { result ≡ is_dialled self }
    {
        match self {
            Opening::Dialled { .. } => true,
            Opening::Answered { .. } => false,
        }
    }

    /// One more handshake was sent.
    pub(crate) fn with_handshake(self) -> Opening
        ensures { result ≡ with_handshake self }
    {
        match self {
            Opening::Dialled { handshakes } => Opening::Dialled {
                handshakes: handshakes.saturating_add(1),
            },
            Opening::Answered { .. } => Opening::Answered { reply: Reply::Sent },
        }
    }

    /// Whether a handshake was sent.
    pub(crate) fn is_begun(self) -> bool
        ensures { result ≡ is_begun self }
    {
        match self {
            Opening::Dialled { handshakes } => handshakes > 0,
            Opening::Answered { reply } => reply.is_sent(),
        }
    }

    /// A reply is to be sent again.
    pub(crate) fn unreplied(self) -> Opening
        ensures { result ≡ unreplied self }
    {
        match self {
            Opening::Dialled { handshakes } => Opening::Dialled { handshakes },
            Opening::Answered { reply } => Opening::Answered {
                reply: reply.again(),
            },
        }
    }
}

impl Channel {
    /// A channel that a handshake from an address opened, with the number of its source.
    pub(crate) fn answered(from: Address, source: u32, now: u64, local: u32) -> Channel
        ensures { result ≡ answered from source now local }
    {
        Channel {
            address: from,
            local,
            remote: Some(source),
            state: State::Greeted,
            opening: Opening::Answered { reply: Reply::Due },
            made: now,
            heard: now,
            wrote: now,
            shadowed: false,
        }
    }

    /// A channel that this peer opens to an address.
    pub(crate) fn dialled(to: Address, now: u64, local: u32) -> Channel
        ensures { result ≡ dialled to now local }
    {
        Channel {
            address: to,
            local,
            remote: None,
            state: State::Greeted,
            opening: Opening::Dialled { handshakes: 0 },
            made: now,
            heard: now,
            wrote: now,
            shadowed: false,
        }
    }
}
