// The line of a content.
ghost use Rattle.std.specs.Prelude.{◌≡◌, codes};
ghost use Rattle.pp_world.specs.ScheduleRead.{words_of, content_in, content_with, content_at, is_chunk_size};
ghost use Rattle.pp_replay.specs.Begun.{as_begun, chunk_in};
ghost use Rattle.pp_replay.specs.Lines.{as_row};
ghost use Rattle.pp_replay.specs.Views.{viewed, same, as_kind};

use crate::arity::three_words;
use crate::fault::ScheduleKind;
use crate::lines::{Row, first_word};
use crate::numbers::number_in;

// The most bytes that a content has.
const MOST_SIZE: u64 = 1_048_576;

/// Sizes in bytes, and the first byte.
#[derive(Clone, Copy, Debug)]
pub(crate) struct Content {
    pub chunk: u32,
    pub size: u32,
    pub shift: u8,
}

/// The content on a line.
pub(crate) fn content_at(row: &Row<'_>) -> Result<Content, ScheduleKind>
    ensures { viewed as_begun as_kind result ≡ content_at (as_row row.now) }
{
    let content = content_in(row.text)?;
    if row.is_ended {
        Ok(content)
    } else {
        Err(ScheduleKind::Line)
    }
}

fn content_in(line: &[u8]) -> Result<Content, ScheduleKind>
    ensures { viewed as_begun as_kind result ≡ content_in (words_of line.now) }
{
    let (name, rest) = first_word(line);
    let Ok((chunk, size, shift)) = three_words(rest) else {
        return Err(ScheduleKind::Content);
    };
    if name != b"content".as_slice() {
        return Err(ScheduleKind::Content);
    }
    content_with(chunk, size, shift)
}

fn content_with(chunk: &[u8], size: &[u8], shift: &[u8]) -> Result<Content, ScheduleKind>
    ensures { viewed as_begun as_kind result ≡ content_with (codes "content") chunk.now size.now shift.now }
{
    let Ok(chunk) = chunk_in(chunk) else {
        return Err(ScheduleKind::Content);
    };
    let Ok(size) = number_in(1, MOST_SIZE, size) else {
        return Err(ScheduleKind::Content);
    };
    let Ok(shift) = number_in(0, 255, shift) else {
        return Err(ScheduleKind::Content);
    };
    Ok(Content {
        chunk,
        size: size as u32,
        shift: shift as u8,
    })
}

fn chunk_in(word: &[u8]) -> Result<u32, ScheduleKind>
    ensures { viewed same as_kind result ≡ chunk_in word.now }
{
    let size = number_in(0, 8_192, word)?;
    if is_chunk_size(size) {
        Ok(size as u32)
    } else {
        Err(ScheduleKind::Number)
    }
}

fn is_chunk_size(size: u64) -> bool
    ensures { result ≡ is_chunk_size size }
{
    [256, 512, 1_024, 2_048, 4_096, 8_192].contains(&size)
}
