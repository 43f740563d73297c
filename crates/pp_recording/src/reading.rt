// Reading a recording's text.
ghost use Rattle.std.specs.Prelude.{◌≡◌, ◌≤◌, ◌++◌, length, codes, IfOk, IfErr};
ghost use Rattle.pp_recording.specs.Recording.{recording_text, most_text};
ghost use Rattle.pp_recording.specs.State.{recorded};
ghost use Rattle.pp_recording.specs.Reading.{IsFaultOf, IsReading};

use crate::draft::Draft;
use crate::parts::split_at_byte;
use crate::recording::Recording;
use pp_tree::Descriptor;
use std::alloc::{AllocError, Global};

const MOST_TEXT: usize = 16_777_216;

// How many bytes an address's text has at most.
const MOST_ADDRESS: usize = 48;

/// Why a text gives no recording: the first line with which it is none, counted from 1, 0 for a text of more than 16,777,216
/// bytes; or there is no memory.
#[derive(Clone, Copy, PartialEq, Eq, Debug)]
pub enum ReadFault {
    Recording { line: u32 },
    Memory,
}

/// Reads a recording's text, each line once.
pub fn read(alloc: Global, text: &[u8]) -> Result<Recording, ReadFault>
    ensures ok { IfOk result (λ r. text.now ≡ recording_text (recorded r)) }
    ensures fault { IfErr result (IsFaultOf text.now) }
{
    if text.len() > MOST_TEXT {
        return Err(ReadFault::Recording { line: 0 });
    }
    let Some((row, rest)) = split_at_byte(text, b'\n') else {
        return Err(ReadFault::Recording { line: 1 });
    };
    if row != b"ppspp-recording 1".as_slice() {
        return Err(ReadFault::Recording { line: 1 });
    }
    read_second(alloc, text, rest)
}

// Reads from the second line on.
fn read_second(alloc: Global, text: &[u8], rest: &[u8]) -> Result<Recording, ReadFault>
    requires short { length text.now ≤ most_text }
    requires first { text.now ≡ codes "ppspp-recording 1\n" ++ rest.now }
    ensures ok { IfOk result (λ r. text.now ≡ recording_text (recorded r)) }
    ensures fault { IfErr result (IsFaultOf text.now) }
{
    let Some((row, rest)) = split_at_byte(rest, b'\n') else {
        return Err(ReadFault::Recording { line: 2 });
    };
    let Ok(descriptor) = Descriptor::read_bytes(row) else {
        return Err(ReadFault::Recording { line: 2 });
    };
    let lines = text.iter().filter(|byte| **byte == b'\n').count();
    match Draft::new(alloc, descriptor, text.len(), lines) {
        Ok(draft) => read_lines(alloc, draft, text, rest),
        Err(AllocError) => Err(ReadFault::Memory),
    }
}

// Reads the lines of the nodes and the records, and the last one.
fn read_lines(
    alloc: Global,
    draft: Draft,
    text: &[u8],
    behind: &[u8],
) -> Result<Recording, ReadFault>
    requires short { length text.now ≤ most_text }
    requires reading { IsReading text.now draft behind.now 3 }
    ensures ok { IfOk result (λ r. text.now ≡ recording_text (recorded r)) }
    ensures fault { IfErr result (IsFaultOf text.now) }
{
    let Ok(mut scratch) = Vec::with_capacity(alloc, MOST_ADDRESS) else {
        return Err(ReadFault::Memory);
    };
    let mut draft = draft;
    let mut line = 3;
    let mut rest = behind;
    while let Some((row, behind)) = split_at_byte(rest, b'\n') {
        if row == b"end".as_slice() {
            if behind.is_empty() {
                return Ok(draft.recording());
            }
            return Err(ReadFault::Recording { line: line + 1 });
        }
        match draft.take(&mut scratch, row) {
            Ok(true) => {}
            Ok(false) => return Err(ReadFault::Recording { line }),
            Err(AllocError) => return Err(ReadFault::Memory),
        }
        line += 1;
        rest = behind;
    }
    Err(ReadFault::Recording { line })
}
