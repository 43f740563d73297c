//! The parts of a peer.

use crate::supporting::Supports;
use pp_counts::Counts;
use pp_fetching::Fetching;
use pp_holding::Holding;
use pp_pex::Pex;
use pp_requests::Slots;
use pp_seats::Seats;

/// All that a peer keeps.
#[derive(Drop)]
pub struct Parts {
    /// The channels, and what is kept of the messages of each.
    pub seats: Seats,
    /// The store, and what waits for its next commit.
    pub holding: Holding,
    /// What is asked for, of a peer that fetches.
    pub fetching: Option<Fetching>,
    /// Who may be sent chunks.
    pub slots: Slots,
    /// Addresses of other peers.
    pub pex: Pex,
    /// Of each seat, whether its peer asked for such addresses since the last turn.
    pub questions: [bool; 64],
    /// Of each seat, whether this peer dialled, its reply came, and nothing was sent since: a datagram is due, by which the other peer
    /// learns that this one is at its address.
    pub to_prove: [bool; 64],
    /// Of each seat, which messages of peer exchange its peer takes.
    pub supports: [Supports; 64],
    /// How often each of what a peer counts happened since it began: what came, what went, and what was refused. A count
    /// stands still at the greatest number.
    pub counts: Counts,
}
