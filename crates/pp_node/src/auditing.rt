// The command `audit`.
ghost use Rattle.std.specs.Prelude.{◌≡◌, ◌+◌, length, OnOk};
ghost use Rattle.pp_terms.specs.Count.{HasCause};
ghost use Rattle.pp_terms.specs.command.Stream.{Gains};
ghost use Rattle.pp_recording.specs.Recording.{most_text};
ghost use Rattle.pp_store.specs.Import.{TakesAtMost};
ghost use Rattle.pp_node.specs.Auditing.{AnswersIn, AuditsIn, AuditsText, audit_no_line, audit_yes_line, recording_fault_line};
ghost use Rattle.pp_node.specs.Recordings.{streams};
ghost use Rattle.pp_node.specs.Text.{Says};

use crate::printing::put_counted;
use crate::status::Status;
use crate::taking::take;
use pp_outside::{Sink, SinkFault, Source};
use pp_recording::{ReadFault, Recording, read};
use pp_stream::put_all;
use pp_verdict::{Answer, Part};
use std::alloc::Global;

// One byte more than a recording's text may have.
const ROOM: usize = 16_777_217;

/// Says of the recording that the source gives whether each chunk that was sent was served by the rules.
pub(crate) fn audit<S: Source, K: Sink>(alloc: Global, source: &mut S, sink: &mut K) -> Status
    ensures ends { AuditsIn result (streams (S.state source.old) (K.state sink.old)) (streams (S.state source.new) (K.state sink.new)) }
    ensures takes { TakesAtMost (most_text + 1) (S.state source.old) (S.state source.new) }
{
    let Ok(mut room) = vec![in alloc; 0; ROOM] else {
        return Status::Memory;
    };
    audit_from(alloc, source, &mut room, sink)
}

// Does that with room for the text.
fn audit_from<S: Source, K: Sink>(
    alloc: Global,
    source: &mut S,
    room: &mut [u8],
    sink: &mut K,
) -> Status
    requires { length room.old ≡ most_text + 1 }
    ensures ends { AuditsIn result (streams (S.state source.old) (K.state sink.old)) (streams (S.state source.new) (K.state sink.new)) }
    ensures takes { TakesAtMost (most_text + 1) (S.state source.old) (S.state source.new) }
{
    match take(source, room) {
        Ok(count) => audit_text(alloc, &room[..count], sink),
        Err(_) => {
            let _ = put_all(sink, b"source fault\n");
            Status::SourceFault
        }
    }
}

// Says that of the recording whose text it is.
fn audit_text<K: Sink>(alloc: Global, text: &[u8], sink: &mut K) -> Status
    ensures { AuditsText text.now result (K.state sink.old) (K.state sink.new) }
{
    match read(alloc, text) {
        Ok(recording) => answer(alloc, &recording, sink),
        Err(ReadFault::Recording { line }) => {
            say_line(line, sink);
            Status::Recording
        }
        Err(ReadFault::Memory) => Status::Memory,
    }
}

// Says that of a recording.
fn answer<K: Sink>(alloc: Global, recording: &Recording, sink: &mut K) -> Status
    ensures { AnswersIn recording.now result (K.state sink.old) (K.state sink.new) }
{
    match pp_verdict::audit(alloc, recording) {
        Ok(Answer::Yes { records, chunks }) => match put_yes(records, chunks, sink) {
            Ok(()) => Status::Done,
            Err(_) => Status::SinkFault,
        },
        Ok(Answer::No { at, part }) => {
            say_no(at, part, sink);
            Status::AuditNo
        }
        Err(_) => Status::Memory,
    }
}

// Prints how many records there are, and how many datagrams with a chunk were sent.
fn put_yes<K: Sink>(records: u32, chunks: u32, sink: &mut K) -> Result<(), SinkFault>
    ensures said { OnOk result (Gains (K.state sink.old).taken (audit_yes_line records chunks) (K.state sink.new).taken) }
    ensures cause { HasCause (K.state sink.old).faults (K.state sink.new).faults result }
{
    put_counted(sink, b"audit yes ", u64::from(records), b" records ")?;
    put_counted(sink, b"", u64::from(chunks), b" data\n")
}

// Says which record is the first that isn't served, and which part of the rule fails. A line that the sink refuses is given up.
fn say_no<K: Sink>(at: u32, part: Part, sink: &mut K)
    ensures { Says (audit_no_line at part) (K.state sink.old) (K.state sink.new) }
{
    let _ = put_no(at, part, sink);
}

fn put_no<K: Sink>(at: u32, part: Part, sink: &mut K) -> Result<(), SinkFault>
    ensures said { OnOk result (Gains (K.state sink.old).taken (audit_no_line at part) (K.state sink.new).taken) }
    ensures cause { HasCause (K.state sink.old).faults (K.state sink.new).faults result }
{
    put_counted(sink, b"audit no record ", u64::from(at), b" part ")?;
    put_counted(sink, b"", u64::from(part.number()), b"\n")
}

// Says which line of the text is the first faulty one.
fn say_line<K: Sink>(line: u32, sink: &mut K)
    ensures { Says (recording_fault_line line) (K.state sink.old) (K.state sink.new) }
{
    let _ = put_counted(sink, b"recording: line ", u64::from(line), b"\n");
}
