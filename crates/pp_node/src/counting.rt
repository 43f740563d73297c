// The lines of a peer's counts, and the sum of two.
ghost use Rattle.std.specs.Prelude.{◌≡◌, ◌++◌, OnOk};
ghost use Rattle.pp_terms.specs.Count.{HasCause};
ghost use Rattle.pp_terms.specs.command.Stream.{Gains};
ghost use Rattle.pp_counts.specs.Counts.{tally_of};
ghost use Rattle.pp_terms.specs.command.Tally.{first_lines, other_lines, tally_text};
ghost use Rattle.pp_node.specs.Tallies.{total_of};

use crate::printing::put_counted;
use pp_counts::Counts;
use pp_outside::{Sink, SinkFault};

/// Prints a line for each count.
pub(crate) fn put_counts<K: Sink>(counts: &Counts, sink: &mut K) -> Result<(), SinkFault>
    ensures gained { OnOk result (Gains (K.state sink.old).taken (tally_text (tally_of counts.now)) (K.state sink.new).taken) }
    ensures cause { HasCause (K.state sink.old).faults (K.state sink.new).faults result }
{
    put_first(counts, sink)?;
    put_others(counts, sink)
}

// What came and went.
fn put_first<K: Sink>(counts: &Counts, sink: &mut K) -> Result<(), SinkFault>
    ensures gained { OnOk result (Gains (K.state sink.old).taken (first_lines (tally_of counts.now)) (K.state sink.new).taken) }
    ensures cause { HasCause (K.state sink.old).faults (K.state sink.new).faults result }
{
    put_counted(sink, b"turns ", counts.turns, b"\n")?;
    put_counted(sink, b"datagrams ", counts.datagrams, b"\n")?;
    put_counted(sink, b"sent ", counts.sent, b"\n")?;
    put_counted(sink, b"stored ", counts.stored, b"\n")?;
    put_counted(sink, b"keepalives ", counts.keepalives, b"\n")?;
    put_counted(sink, b"short ", counts.short, b"\n")?;
    put_counted(sink, b"stranger ", counts.stranger, b"\n")?;
    put_counted(
        sink,
        b"refused_handshakes ",
        counts.refused_handshakes,
        b"\n",
    )?;
    put_counted(sink, b"no_seat ", counts.no_seat, b"\n")?;
    put_counted(sink, b"cut ", counts.cut, b"\n")?;
    put_counted(sink, b"outside ", counts.outside, b"\n")
}

// What came to nothing.
fn put_others<K: Sink>(counts: &Counts, sink: &mut K) -> Result<(), SinkFault>
    ensures gained { OnOk result (Gains (K.state sink.old).taken (other_lines (tally_of counts.now)) (K.state sink.new).taken) }
    ensures cause { HasCause (K.state sink.old).faults (K.state sink.new).faults result }
{
    put_counted(sink, b"not_a_node ", counts.not_a_node, b"\n")?;
    put_counted(sink, b"full ", counts.full, b"\n")?;
    put_counted(sink, b"choked ", counts.choked, b"\n")?;
    put_counted(sink, b"unheld ", counts.unheld, b"\n")?;
    put_counted(sink, b"missing ", counts.missing, b"\n")?;
    put_counted(sink, b"wrong ", counts.wrong, b"\n")?;
    put_counted(sink, b"repeats ", counts.repeats, b"\n")?;
    put_counted(sink, b"damaged ", counts.damaged, b"\n")?;
    put_counted(sink, b"read_faults ", counts.read_faults, b"\n")?;
    put_counted(sink, b"send_faults ", counts.send_faults, b"\n")?;
    put_counted(sink, b"receive_faults ", counts.receive_faults, b"\n")
}

/// The counts of two parts of a run together; a sum stands still at the greatest number of 64 bits.
pub(crate) fn total(one: &Counts, two: &Counts) -> Counts
    ensures { tally_of result ≡ total_of (tally_of one.now) (tally_of two.now) }
{
    Counts {
        turns: one.turns.saturating_add(two.turns),
        datagrams: one.datagrams.saturating_add(two.datagrams),
        sent: one.sent.saturating_add(two.sent),
        stored: one.stored.saturating_add(two.stored),
        keepalives: one.keepalives.saturating_add(two.keepalives),
        short: one.short.saturating_add(two.short),
        stranger: one.stranger.saturating_add(two.stranger),
        refused_handshakes: one
            .refused_handshakes
            .saturating_add(two.refused_handshakes),
        no_seat: one.no_seat.saturating_add(two.no_seat),
        cut: one.cut.saturating_add(two.cut),
        outside: one.outside.saturating_add(two.outside),
        not_a_node: one.not_a_node.saturating_add(two.not_a_node),
        full: one.full.saturating_add(two.full),
        choked: one.choked.saturating_add(two.choked),
        unheld: one.unheld.saturating_add(two.unheld),
        missing: one.missing.saturating_add(two.missing),
        wrong: one.wrong.saturating_add(two.wrong),
        repeats: one.repeats.saturating_add(two.repeats),
        damaged: one.damaged.saturating_add(two.damaged),
        read_faults: one.read_faults.saturating_add(two.read_faults),
        send_faults: one.send_faults.saturating_add(two.send_faults),
        receive_faults: one.receive_faults.saturating_add(two.receive_faults),
    }
}
