//! The audit of a recording.

ghost use Rattle.std.specs.Prelude.{◌≡◌, ◌↔◌, ◌<◌, ◌≤◌, ◌^◌, Some, List, length, true, IfOk, IsTrue, MatchOption, MatchResult};
ghost use Rattle.pp_terms.specs.format.Traffic.{Record};
ghost use Rattle.pp_terms.specs.tree.Book.{IsRooted, IsBacked};
ghost use Rattle.pp_traffic.specs.Life as channels;
ghost use Rattle.pp_traffic.specs.Serving.{window_of, Serves, ServesAll};
ghost use Rattle.pp_tree.specs.Book as books;
ghost use Rattle.pp_tree.specs.Book.{entry};
ghost use Rattle.pp_recorded.specs.Entries.{past, record_of};
ghost use Rattle.pp_recording.specs.State.{recorded};
ghost use Rattle.pp_verdict.specs.Chunks as terms;
ghost use Rattle.pp_verdict.specs.Chunks.{shown};
ghost use Rattle.pp_verdict.specs.Faults.{Fails};
ghost use Rattle.pp_verdict.specs.Findings.{AreAll, AreFound, IsSettled, case_of};
ghost use Rattle.pp_verdict.specs.Answers.{IsAnswer, IsYes};

use crate::answer::{Answer, Part};
use crate::chunk::{SentChunk, chunk_of, is_last};
use crate::entries::entries_of;
use crate::findings::{Finding, findings_of};
use crate::rooted::is_rooted;
use pp_recorded::carrying::is_backed;
use pp_recorded::entry::Entry;
use pp_recording::Recording;
use pp_tree::{Book, Descriptor};
use std::alloc::{AllocError, Global};

// Whether the chunk's bytes are those of the book, where that leads up to the root.
fn is_backed_by<'a>(
    descriptor: &Descriptor,
    book: &Book,
    is_rooted: bool,
    chunk: SentChunk<'a>,
) -> bool
    requires { IsTrue is_rooted ↔ IsRooted descriptor.now (entry book.now) }
    ensures { IsTrue result ↔ IsBacked descriptor.now (entry book.now) chunk.entry.number chunk.entry.bytes.now }
{
    is_rooted && is_backed(descriptor, book, chunk.number, chunk.bytes)
}

// The first part that fails for a chunk, by what was found of its record.
fn part_of<'a>(
    descriptor: &Descriptor,
    book: &Book,
    is_rooted: bool,
    finding: Finding,
    chunk: SentChunk<'a>,
) -> Option<Part>
    requires rooted { IsTrue is_rooted ↔ IsRooted descriptor.now (entry book.now) }
    requires within { chunk.next ≤ length chunk.datagram.now }
    ensures { (past : List Record) (here : Record)
        → terms.chunk_of descriptor.now here ≡ Some (shown descriptor.now chunk.entry)
        → (IsTrue is_rooted → IsSettled (case_of descriptor.now (entry book.now) past here) finding)
        → MatchOption result (Serves descriptor.now (entry book.now) (window_of descriptor.now) past here)
        (Fails descriptor.now (entry book.now) past here) }
{
    if !is_last(descriptor, chunk) {
        return Some(Part::Tail);
    }
    if !is_backed_by(descriptor, book, is_rooted, chunk) {
        return Some(Part::Backed);
    }
    match finding {
        Finding::Unseen => Some(Part::Life),
        Finding::Passed => None,
        Finding::Failed { part, .. } => Some(part),
    }
}

// Whether the entry is a chunk that was sent, where no part fails for it; else the first that does.
fn check<'m>(
    descriptor: &Descriptor,
    book: &Book,
    is_rooted: bool,
    finding: Finding,
    entry: &'m Entry<'m>,
) -> Result<bool, Part>
    requires { IsTrue is_rooted ↔ IsRooted descriptor.now (books.entry book.now) }
    ensures { (past : List Record)
        → (IsTrue is_rooted
        → IsSettled (case_of descriptor.now (books.entry book.now) past (record_of entry.now)) finding)
        → MatchResult result
        (λ has. Serves descriptor.now (books.entry book.now) (window_of descriptor.now) past (record_of entry.now)
        × (has ≡ terms.has_chunk descriptor.now (record_of entry.now)))
        (Fails descriptor.now (books.entry book.now) past (record_of entry.now)) }
{
    match chunk_of(descriptor, entry) {
        Some(chunk) => match part_of(descriptor, book, is_rooted, finding, chunk) {
            Some(part) => Err(part),
            None => Ok(true),
        },
        None => Ok(false),
    }
}

// The answer, by what was found of each entry.
fn answer<'m>(
    descriptor: &Descriptor,
    book: &Book,
    is_rooted: bool,
    entries: &'m [Entry<'m>],
    findings: &[Finding],
) -> Answer
    requires rooted { IsTrue is_rooted ↔ IsRooted descriptor.now (entry book.now) }
    requires room { length findings.now ≡ length entries.now }
    requires few { length entries.now < 2 ^ 32 }
    requires found { IsTrue is_rooted → (lives : List channels.Life) × AreAll descriptor.now entries.now lives
        × AreFound descriptor.now (entry book.now) entries.now lives findings.now }
    ensures { IsAnswer descriptor.now (entry book.now) (past entries.now) result }
{
    let mut chunks = 0;
    for (place, entry) in entries.iter().enumerate() {
        match check(descriptor, book, is_rooted, findings[place], entry) {
            Ok(has_chunk) => chunks += u32::from(has_chunk),
            Err(part) => {
                return Answer::No {
                    at: place as u32,
                    part,
                };
            }
        }
    }
    Answer::Yes {
        records: entries.len() as u32,
        chunks,
    }
}

/// Whether each chunk that was sent was served (RFC 7574, sections 3.5 to 3.9, 5.3 and 8.16); else the first record that
/// wasn't, and the first part of the rule that fails there, where no channel passes on the latest of those that it lies on.
/// Err only where memory runs out.
pub fn audit(alloc: Global, recording: &Recording) -> Result<Answer, AllocError>
    ensures answer { IfOk result
        (IsAnswer recording.now.descriptor (entry recording.now.book) (recorded recording.now).records) }
    ensures yes { ServesAll recording.now.descriptor (entry recording.now.book) (window_of recording.now.descriptor)
        (recorded recording.now).records → IfOk result IsYes }
{
    let entries = entries_of(alloc, recording)?;
    let descriptor = recording.descriptor();
    let book = recording.book();
    let is_rooted = is_rooted(descriptor, book);
    let findings = findings_of(alloc, descriptor, book, is_rooted, &entries)?;
    Ok(answer(descriptor, book, is_rooted, &entries, &findings))
}
