// The commands `replay` and `rehearse NUMBER`.
ghost use Rattle.std.specs.Prelude.{◌≡◌, ◌+◌, ◌<◌, length, OnOk};
ghost use Rattle.std.specs.List.{AllByRecursion};
ghost use Rattle.pp_terms.specs.Count.{HasCause};
ghost use Rattle.pp_terms.specs.command.Stream.{Gains};
ghost use Rattle.pp_world.specs.Rehearsal.{first_words, rehearsal_key, rehearsal_text};
ghost use Rattle.pp_world.specs.Schedule.{most_text};
ghost use Rattle.pp_world.specs.ScheduleFault.{kind_text, schedule_line};
ghost use Rattle.pp_replay.specs.Views.{as_fault, as_kind};
ghost use Rattle.pp_store.specs.Import.{TakesAtMost};
ghost use Rattle.pp_node.specs.Replaying.{PlaysText, ReplaysIn};
ghost use Rattle.pp_node.specs.Shown.{HasLine, HasLines};

use crate::printing::put_counted;
use crate::ranges::put_ranges;
use crate::status::Status;
use crate::taking::take;
use pp_outcome::PeerEnd;
use pp_outside::{Sink, SinkFault, Source};
use pp_play::ReplayFault;
use pp_replay::{ScheduleFault, ScheduleKind, rehearsal};
use pp_stream::put_all;
use std::alloc::Global;

// One byte more than a text may have.
const ROOM: usize = 1_048_577;

/// Replays the schedule that the source gives, and prints a line for each peer.
pub(crate) fn replay<S: Source, K: Sink>(alloc: Global, source: &mut S, sink: &mut K) -> Status
    ensures ends { ReplaysIn result (S.state source.old) (S.state source.new) (K.state sink.old) (K.state sink.new) }
    ensures takes { TakesAtMost (most_text + 1) (S.state source.old) (S.state source.new) }
{
    let Ok(mut room) = vec![in alloc; 0; ROOM] else {
        return Status::Memory;
    };
    replay_from(alloc, source, &mut room, sink)
}

// Does that with room for the text.
fn replay_from<S: Source, K: Sink>(
    alloc: Global,
    source: &mut S,
    room: &mut [u8],
    sink: &mut K,
) -> Status
    requires { length room.old ≡ most_text + 1 }
    ensures ends { ReplaysIn result (S.state source.old) (S.state source.new) (K.state sink.old) (K.state sink.new) }
    ensures takes { TakesAtMost (most_text + 1) (S.state source.old) (S.state source.new) }
{
    match take(source, room) {
        Ok(count) => play_text(alloc, &room[..count], sink),
        Err(_) => {
            let _ = put_all(sink, b"source fault\n");
            Status::SourceFault
        }
    }
}

/// Replays the schedule of a rehearsal, and prints a line for each peer.
pub(crate) fn rehearse<K: Sink>(alloc: Global, number: u64, sink: &mut K) -> Status
    ensures { PlaysText (rehearsal_text (first_words 2002 (rehearsal_key number))) result (K.state sink.old) (K.state sink.new) }
{
    match rehearsal(alloc, number) {
        Ok(text) => play_text(alloc, &text, sink),
        Err(_) => Status::Memory,
    }
}

// Replays a schedule's text.
fn play_text<K: Sink>(alloc: Global, text: &[u8], sink: &mut K) -> Status
    ensures { PlaysText text.now result (K.state sink.old) (K.state sink.new) }
{
    match pp_play::replay(alloc, text) {
        Ok(outcome) => match put_ends(&outcome.ends, outcome.chunks, sink) {
            Ok(()) => Status::Done,
            Err(_) => Status::SinkFault,
        },
        Err(ReplayFault::Schedule(fault)) => {
            let _ = put_fault(&fault, sink);
            Status::Schedule
        }
        Err(ReplayFault::Memory) => Status::Memory,
    }
}

// The name of what is wrong with a line.
fn kind_text(kind: ScheduleKind) -> &'static [u8]
    ensures { result.now ≡ kind_text (as_kind kind) }
{
    match kind {
        ScheduleKind::Long => b"long",
        ScheduleKind::Header => b"header",
        ScheduleKind::Content => b"content",
        ScheduleKind::Line => b"line",
        ScheduleKind::Number => b"number",
        ScheduleKind::Peer => b"peer",
        ScheduleKind::Hex => b"hex",
    }
}

/// Says which line is the first faulty one, and what is wrong with it.
pub(crate) fn put_fault<K: Sink>(fault: &ScheduleFault, sink: &mut K) -> Result<(), SinkFault>
    ensures said { OnOk result (Gains (K.state sink.old).taken (schedule_line (as_fault fault.now)) (K.state sink.new).taken) }
    ensures cause { HasCause (K.state sink.old).faults (K.state sink.new).faults result }
{
    put_counted(sink, b"schedule: line ", u64::from(fault.line), b": ")?;
    put_all(sink, kind_text(fault.kind))?;
    put_all(sink, b"\n")
}

// Prints the line of a peer.
fn put_end<K: Sink>(peer: usize, end: &PeerEnd, chunks: u32, sink: &mut K) -> Result<(), SinkFault>
    requires { chunks ≡ length end.now.held }
    ensures said { OnOk result (HasLine peer end.now (K.state sink.old) (K.state sink.new)) }
    ensures cause { HasCause (K.state sink.old).faults (K.state sink.new).faults result }
{
    put_counted(sink, b"peer ", peer as u64, b" lives ")?;
    put_counted(sink, b"", end.life_count() as u64, b" announced ")?;
    put_counted(sink, b"", u64::from(end.announced()), b" held ")?;
    put_ranges(end.held(), chunks, sink)?;
    put_all(sink, b"\n")
}

// Prints a line for each peer.
fn put_ends<K: Sink>(ends: &[PeerEnd], chunks: u32, sink: &mut K) -> Result<(), SinkFault>
    requires { AllByRecursion (λ end. length end.held ≡ chunks) ends.now }
    ensures said { OnOk result (HasLines ends.now (K.state sink.old) (K.state sink.new)) }
    ensures cause { HasCause (K.state sink.old).faults (K.state sink.new).faults result }
{
    for peer in 0..ends.len() {
        put_end(peer, &ends[peer], chunks, sink)?;
    }
    Ok(())
}
