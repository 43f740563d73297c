// The command `record PEER LIFE`.
ghost use Rattle.std.specs.Prelude.{◌≡◌, ◌+◌, length, OnOk};
ghost use Rattle.pp_terms.specs.Count.{HasCause};
ghost use Rattle.pp_terms.specs.command.Stream.{Gains};
ghost use Rattle.pp_world.specs.Schedule.{most_text};
ghost use Rattle.pp_store.specs.Import.{TakesAtMost};
ghost use Rattle.pp_node.specs.Recordings.{PutsLife, RecordsIn, TapesText, no_life_line, streams};
ghost use Rattle.pp_node.specs.Text.{Says};

use crate::printing::put_counted;
use crate::replaying::put_fault;
use crate::status::Status;
use crate::taking::take;
use pp_outside::{Sink, SinkFault, Source};
use pp_play::{Outcome, RecordFault, ReplayFault, record_life, replay};
use pp_recording::write;
use pp_stream::put_all;
use std::alloc::Global;

// One byte more than a schedule's text may have.
const ROOM: usize = 1_048_577;

/// Replays the schedule that the source gives, and writes the recording of a peer's life, the first of which is number 1.
pub(crate) fn record<S: Source, K: Sink>(
    alloc: Global,
    peer: u8,
    life: u32,
    source: &mut S,
    sink: &mut K,
) -> Status
    ensures ends { RecordsIn result peer life (streams (S.state source.old) (K.state sink.old)) (streams (S.state source.new) (K.state sink.new)) }
    ensures takes { TakesAtMost (most_text + 1) (S.state source.old) (S.state source.new) }
{
    let Ok(mut room) = vec![in alloc; 0; ROOM] else {
        return Status::Memory;
    };
    record_from(alloc, peer, life, source, &mut room, sink)
}

// Does that with room for the text.
fn record_from<S: Source, K: Sink>(
    alloc: Global,
    peer: u8,
    life: u32,
    source: &mut S,
    room: &mut [u8],
    sink: &mut K,
) -> Status
    requires { length room.old ≡ most_text + 1 }
    ensures ends { RecordsIn result peer life (streams (S.state source.old) (K.state sink.old)) (streams (S.state source.new) (K.state sink.new)) }
    ensures takes { TakesAtMost (most_text + 1) (S.state source.old) (S.state source.new) }
{
    match take(source, room) {
        Ok(count) => record_text(alloc, peer, life, &room[..count], sink),
        Err(_) => {
            let _ = put_all(sink, b"source fault\n");
            Status::SourceFault
        }
    }
}

// Replays a schedule's text, and writes the recording of a peer's life.
fn record_text<K: Sink>(alloc: Global, peer: u8, life: u32, text: &[u8], sink: &mut K) -> Status
    ensures { TapesText text.now peer life result (K.state sink.old) (K.state sink.new) }
{
    match replay(alloc, text) {
        Ok(outcome) => put_life(alloc, &outcome, peer, life, sink),
        Err(ReplayFault::Schedule(fault)) => {
            let _ = put_fault(&fault, sink);
            Status::Schedule
        }
        Err(ReplayFault::Memory) => Status::Memory,
    }
}

// Writes the recording of a peer's life.
fn put_life<K: Sink>(alloc: Global, outcome: &Outcome, peer: u8, life: u32, sink: &mut K) -> Status
    ensures { PutsLife outcome.now peer life result (K.state sink.old) (K.state sink.new) }
{
    match record_life(alloc, outcome, peer, life) {
        Ok(recording) => match write(alloc, &recording) {
            Ok(text) => match put_all(sink, &text) {
                Ok(()) => Status::Done,
                Err(_) => Status::SinkFault,
            },
            Err(_) => Status::Memory,
        },
        Err(RecordFault::NoLife { .. }) => {
            say_no_life(peer, life, sink);
            Status::NoLife
        }
        Err(RecordFault::Limit { .. }) => {
            let _ = put_all(sink, b"recording: too large\n");
            Status::TooLarge
        }
        Err(RecordFault::Memory) => Status::Memory,
    }
}

// Says which life there isn't. A line that the sink refuses is given up.
fn say_no_life<K: Sink>(peer: u8, life: u32, sink: &mut K)
    ensures { Says (no_life_line peer life) (K.state sink.old) (K.state sink.new) }
{
    let _ = put_no_life(peer, life, sink);
}

fn put_no_life<K: Sink>(peer: u8, life: u32, sink: &mut K) -> Result<(), SinkFault>
    ensures said { OnOk result (Gains (K.state sink.old).taken (no_life_line peer life) (K.state sink.new).taken) }
    ensures cause { HasCause (K.state sink.old).faults (K.state sink.new).faults result }
{
    put_counted(sink, b"no life: peer ", u64::from(peer), b" life ")?;
    put_counted(sink, b"", u64::from(life), b"\n")
}
