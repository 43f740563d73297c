//! The counts of a peer.

ghost use Rattle.std.specs.Prelude.{◌≡◌, ◌+◌};
ghost use Rattle.pp_terms.specs.Count.{capped};

use super::Note;

/// How often each of these happened. A count stands still at the greatest number.
#[derive(Clone, Copy, Debug, PartialEq, Eq)]
pub struct Counts {
    /// Waits for a datagram, refused ones too.
    pub turns: u64,
    /// Datagrams that came.
    pub datagrams: u64,
    /// Datagrams that were sent.
    pub sent: u64,
    /// Chunks that were stored.
    pub stored: u64,
    /// Datagrams of a channel number alone.
    pub keepalives: u64,
    /// Datagrams of fewer than four bytes.
    pub short: u64,
    /// Datagrams for a channel that isn't the sender's, or for channel 0 with no handshake first.
    pub stranger: u64,
    /// Handshakes with faulty or other options, of source channel 0, or of a channel that is open already.
    pub refused_handshakes: u64,
    /// Handshakes for which there was no room.
    pub no_seat: u64,
    /// Datagrams with a faulty message, behind which nothing is read.
    pub cut: u64,
    /// Messages that name chunks, but none of the content.
    pub outside: u64,
    /// Hashes that are those of no node.
    pub not_a_node: u64,
    /// Requests for which a list had no room.
    pub full: u64,
    /// Requests of a choked peer.
    pub choked: u64,
    /// Requests for chunks that weren't there.
    pub unheld: u64,
    /// Chunks whose hashes were missing.
    pub missing: u64,
    /// Chunks with a wrong hash or length.
    pub wrong: u64,
    /// Chunks that came again.
    pub repeats: u64,
    /// Chunks that were read back with another digest.
    pub damaged: u64,
    /// Readings that the disk refused.
    pub read_faults: u64,
    /// Datagrams that the link refused to send.
    pub send_faults: u64,
    /// Waits that the link refused.
    pub receive_faults: u64,
}

impl Counts {
    ghost use Rattle.pp_counts.specs.Counts.{no_counts, after_note, after_notes, tally_of, RaisesOnly};

    /// Nothing counted yet.
    pub fn new() -> Counts
        ensures { result ≡ no_counts }
    {
        Counts {
            turns: 0,
            datagrams: 0,
            sent: 0,
            stored: 0,
            keepalives: 0,
            short: 0,
            stranger: 0,
            refused_handshakes: 0,
            no_seat: 0,
            cut: 0,
            outside: 0,
            not_a_node: 0,
            full: 0,
            choked: 0,
            unheld: 0,
            missing: 0,
            wrong: 0,
            repeats: 0,
            damaged: 0,
            read_faults: 0,
            send_faults: 0,
            receive_faults: 0,
        }
    }

    /// Raises the count of this note by one, and no other.
    pub fn note(&mut self, note: Note)
        ensures counts { self.new ≡ after_note note self.old }
        ensures tally { RaisesOnly (tally_of self.old) (tally_of self.new) note 1 }
    {
        self.note_all(note, 1);
    }

    /// Raises the count of this note by so many, and no other.
    pub fn note_all(&mut self, note: Note, times: u32)
        ensures counts { self.new ≡ after_notes note times self.old }
        ensures tally { RaisesOnly (tally_of self.old) (tally_of self.new) note times }
    {
        match note {
            Note::Turn => raise(&mut self.turns, times),
            Note::Datagram => raise(&mut self.datagrams, times),
            Note::Sent => raise(&mut self.sent, times),
            Note::Stored => raise(&mut self.stored, times),
            Note::KeepAlive => raise(&mut self.keepalives, times),
            Note::Short => raise(&mut self.short, times),
            Note::Stranger => raise(&mut self.stranger, times),
            Note::RefusedHandshake => raise(&mut self.refused_handshakes, times),
            Note::NoSeat => raise(&mut self.no_seat, times),
            Note::Cut => raise(&mut self.cut, times),
            Note::Outside => raise(&mut self.outside, times),
            Note::NotANode => raise(&mut self.not_a_node, times),
            Note::Full => raise(&mut self.full, times),
            Note::Choked => raise(&mut self.choked, times),
            Note::Unheld => raise(&mut self.unheld, times),
            Note::Missing => raise(&mut self.missing, times),
            Note::Wrong => raise(&mut self.wrong, times),
            Note::Repeat => raise(&mut self.repeats, times),
            Note::Damaged => raise(&mut self.damaged, times),
            Note::ReadFault => raise(&mut self.read_faults, times),
            Note::SendFault => raise(&mut self.send_faults, times),
            Note::ReceiveFault => raise(&mut self.receive_faults, times),
        }
    }
}

impl Default for Counts {
    ghost use Rattle.pp_counts.specs.Counts.{no_counts};

    ghost is_default = { λ counts. counts ≡ no_counts };

    fn default() -> Counts {
        Counts::new()
    }
}

/// Raises a count by so many; at the greatest number it stands still.
fn raise(count: &mut u64, times: u32)
    ensures { count.new ≡ capped (count.old + times) }
{
    *count = count.saturating_add(u64::from(times));
}
