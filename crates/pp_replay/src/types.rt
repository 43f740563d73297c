// What a schedule has.
use crate::datagram::Hex;
use arrayvec::ArrayVec;

/// The order in which a peer asks for the chunks that it lacks: by rising number, or those first that the fewest peers have.
#[derive(Clone, Copy, Debug, PartialEq, Eq)]
pub enum Order {
    Sequential,
    Rarest,
}

/// What a peer does: it seeds the content, or fetches it, in an order, and dials 1 to 15 other peers.
#[derive(Debug, Drop)]
pub enum Role {
    Seeds,
    Fetches {
        order: Order,
        dialled: ArrayVec<u8, 15>,
    },
}

impl Default for Role {
    fn default() -> Role {
        Role::Seeds
    }
}

/// The kinds of calls of a device that can be ordered to fail.
#[derive(Clone, Copy, Debug, PartialEq, Eq)]
pub enum Device {
    Read,
    Write,
    Sync,
    Send,
    Receive,
}

/// What happens to one peer. Peers are numbered from 0.
#[derive(Debug, Drop)]
pub enum Act<'a> {
    /// The peer takes a turn.
    Turn(u8),
    /// The datagram that waits first is lost.
    Lose(u8),
    /// The datagram that waits first comes once more.
    Repeat(u8),
    /// The datagram that waits first comes behind the others.
    Later(u8),
    /// A datagram comes that the sender never sent.
    Forge {
        peer: u8,
        sender: u8,
        datagram: Hex<'a>,
    },
    /// The next call of that kind fails.
    Fail {
        peer: u8,
        call: Device,
    },
    /// The peer crashes; the pick says which of the writes that weren't synced are kept.
    Crash {
        peer: u8,
        pick: u64,
    },
    Stop(u8),
    Start(u8),
}

/// One act; or 1 to 10,000 rounds, in each of which the clock gains so many microseconds, at most 600,000,000, and then each
/// running peer takes a turn.
#[derive(Debug, Drop)]
pub enum Step<'a> {
    Once(Act<'a>),
    Run { rounds: u32, gain: u64 },
}
