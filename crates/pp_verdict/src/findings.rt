//! What was found of each record, channel by channel.

ghost use Rattle.std.specs.Prelude.{◌≡◌, ◌⊎◌, ◌<◌, ◌≤◌, [], List, length, map, replicate, false, IfOk, OnOk, IsTrue};
ghost use Rattle.pp_terms.specs.tree.Book.{IsRooted};
ghost use Rattle.pp_traffic.specs.Life as channels;
ghost use Rattle.pp_tree.specs.Book.{entry};
ghost use Rattle.pp_terms.specs.format.Traffic.{Record};
ghost use Rattle.pp_recorded.specs.Entries.{life_of, record_of};
ghost use Rattle.pp_verdict.specs.Courses.{Follows, IsSome};
ghost use Rattle.pp_verdict.specs.declared.findings.Finding.TheVariants as variants;
ghost use Rattle.pp_verdict.specs.declared.judgement.Judgement.TheVariants as judged;
ghost use Rattle.pp_verdict.specs.Findings.{Case, case_of, Judges, Notes, AreFound, AreNoted, AreAll};
ghost use Rattle.pp_verdict.specs.Reaches.{reached, IsCovered, AreCovered};

use crate::answer::Part;
use crate::course::Course;
use crate::judgement::Judgement;
use crate::reaches::{Reach, reaches_of};
use pp_recorded::entry::{Entry, Life};
use pp_tree::{Book, Descriptor};
use std::alloc::{AllocError, Global};

/// On the channels so far: the record lies on none as a chunk of the content; it passes on one; or it fails on all, by
/// the part on the latest of them, with its opening and this peer's number there.
#[derive(Clone, Copy)]
pub(crate) enum Finding {
    Unseen,
    Passed,
    Failed {
        opening: usize,
        local: u32,
        part: Part,
    },
}

// Whether a channel opened behind that place, or there and has no smaller number.
fn is_no_earlier(life: Life, opening: usize, local: u32) -> bool
    ensures yes { IsTrue result → (opening < life.opening) ⊎ ((opening ≡ life.opening) × (local ≤ life.local)) }
    ensures no { result ≡ false → (life.opening < opening) ⊎ ((life.opening ≡ opening) × (life.local ≤ local)) }
{
    life.opening > opening || life.opening == opening && life.local >= local
}

// What is found where a channel more is looked at, on which the part fails.
fn with_fault(finding: Finding, life: Life, part: Part) -> Finding
    ensures { (c : Case) → Judges c (life_of life) (judged.Fails part) → Notes c (life_of life) finding result }
{
    let failed = Finding::Failed {
        opening: life.opening,
        local: life.local,
        part,
    };
    match finding {
        Finding::Unseen => failed,
        Finding::Passed => Finding::Passed,
        Finding::Failed { opening, local, .. } => {
            if is_no_earlier(life, opening, local) {
                failed
            } else {
                finding
            }
        }
    }
}

// What is found where a channel more is looked at.
fn with_judgement(finding: Finding, life: Life, judgement: Judgement) -> Finding
    ensures { (c : Case) → Judges c (life_of life) judgement → Notes c (life_of life) finding result }
{
    match judgement {
        Judgement::Elsewhere => finding,
        Judgement::Passes => Finding::Passed,
        Judgement::Fails(part) => with_fault(finding, life, part),
    }
}

// What is found of an entry where a channel more is looked at, which has come that far.
fn look<'m>(
    descriptor: &Descriptor,
    book: &Book,
    life: Life,
    course: &Course,
    newest: &'m Entry<'m>,
    finding: Finding,
) -> Finding
    requires { IsRooted descriptor.now (entry book.now) }
    ensures { (past : List Record) → Follows course.now descriptor.now (life_of life) past
        → Notes (case_of descriptor.now (entry book.now) past (record_of newest.now)) (life_of life) finding result }
{
    if let Finding::Passed = finding {
        return finding;
    }
    let judgement = course.judge(descriptor, book, life, newest);
    with_judgement(finding, life, judgement)
}

// Looks at one channel more.
fn note_life<'m>(
    descriptor: &Descriptor,
    book: &Book,
    entries: &'m [Entry<'m>],
    reach: Reach,
    course: &mut Course,
    findings: &mut [Finding],
) -> Result<(), AllocError>
    requires rooted { IsRooted descriptor.now (entry book.now) }
    requires room { length findings.old ≡ length entries.now }
    requires course { IsSome course.old descriptor.now }
    requires covered { IsCovered descriptor.now entries.now reach }
    ensures room { length findings.new ≡ length findings.old }
    ensures course { OnOk result (IsSome course.new descriptor.now) }
    ensures noted { OnOk result
        (AreNoted descriptor.now (entry book.now) entries.now (reached reach) findings.old findings.new) }
{
    course.begin();
    for place in 0..reach.end.min(entries.len()) {
        let entry = &entries[place];
        findings[place] = look(descriptor, book, reach.life, course, entry, findings[place]);
        course.follow(descriptor, reach.life, place, entry)?;
    }
    Ok(())
}

// Looks at the channels, one after the other.
fn note_lives<'m>(
    descriptor: &Descriptor,
    book: &Book,
    entries: &'m [Entry<'m>],
    reaches: &[Reach],
    course: &mut Course,
    findings: &mut [Finding],
) -> Result<(), AllocError>
    requires rooted { IsRooted descriptor.now (entry book.now) }
    requires room { length findings.old ≡ length entries.now }
    requires course { IsSome course.old descriptor.now }
    requires covered { AreCovered descriptor.now entries.now reaches.now }
    requires first { AreFound descriptor.now (entry book.now) entries.now [] findings.old }
    ensures room { length findings.new ≡ length findings.old }
    ensures found { OnOk result
        (AreFound descriptor.now (entry book.now) entries.now (map reached reaches.now) findings.new) }
{
    for reach in reaches {
        note_life(descriptor, book, entries, *reach, course, findings)?;
    }
    Ok(())
}

// Nothing is found yet.
fn unseen(alloc: Global, count: usize) -> Result<Vec<Finding>, AllocError>
    ensures { IfOk result (λ findings. findings.items ≡ replicate count variants.Unseen) }
{
    let mut findings = Vec::with_capacity(alloc, count)?;
    for _ in 0..count {
        findings.push(Finding::Unseen)?;
    }
    Ok(findings)
}

// What is found of each entry on all channels.
fn noted<'m>(
    alloc: Global,
    descriptor: &Descriptor,
    book: &Book,
    entries: &'m [Entry<'m>],
) -> Result<Vec<Finding>, AllocError>
    requires { IsRooted descriptor.now (entry book.now) }
    ensures room { IfOk result (λ findings. length findings.items ≡ length entries.now) }
    ensures found { IfOk result (λ findings. (lives : List channels.Life) × AreAll descriptor.now entries.now lives
        × AreFound descriptor.now (entry book.now) entries.now lives findings.items) }
{
    let reaches = reaches_of(alloc, descriptor, entries)?;
    let mut course = Course::new(alloc, descriptor)?;
    let mut findings = unseen(alloc, entries.len())?;
    note_lives(
        descriptor,
        book,
        entries,
        &reaches,
        &mut course,
        &mut findings,
    )?;
    Ok(findings)
}

/// What is found of each entry on all channels; nothing where the book isn't rooted.
pub(crate) fn findings_of<'m>(
    alloc: Global,
    descriptor: &Descriptor,
    book: &Book,
    is_rooted: bool,
    entries: &'m [Entry<'m>],
) -> Result<Vec<Finding>, AllocError>
    requires { IsTrue is_rooted → IsRooted descriptor.now (entry book.now) }
    ensures room { IfOk result (λ findings. length findings.items ≡ length entries.now) }
    ensures found { IfOk result (λ findings. IsTrue is_rooted
        → (lives : List channels.Life) × AreAll descriptor.now entries.now lives
        × AreFound descriptor.now (entry book.now) entries.now lives findings.items) }
{
    if is_rooted {
        noted(alloc, descriptor, book, entries)
    } else {
        unseen(alloc, entries.len())
    }
}
