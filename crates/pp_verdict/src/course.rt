//! One channel on the way through the traffic.

ghost use Rattle.std.specs.Prelude.{◌≡◌, ◌↔◌, ◌∷◌, [], List, length, IfOk, OnOk, IsTrue};
ghost use Rattle.pp_terms.specs.format.Traffic.{Record};
ghost use Rattle.pp_terms.specs.tree.Book.{IsRooted};
ghost use Rattle.pp_traffic.specs.Past as traffic;
ghost use Rattle.pp_traffic.specs.Life as lives;
ghost use Rattle.pp_tree.specs.Book as books;
ghost use Rattle.pp_recorded.specs.Entries.{life_of, record_of};
ghost use Rattle.pp_verdict.specs.Courses.{Follows, IsSentOn, IsSome};
ghost use Rattle.pp_terms.specs.format.Descriptor as descriptors;
ghost use Rattle.pp_verdict.specs.Chunks.{shown};
ghost use Rattle.pp_verdict.specs.Findings.{Judges, JudgesChunk, case_of};

use crate::chunk::{SentChunk, chunk_of};
use crate::judgement::{Judgement, failing};
use crate::signs::Signs;
use pp_recorded::entry::{Entry, Life, bytes_of, goes_to};
use pp_recorded::records::is_for;
use pp_story::{Story, follow};
use pp_tree::{Book, Descriptor};
use std::alloc::{AllocError, Global};

/// A channel's signs and story so far, and the moment now.
#[derive(Drop)]
pub(crate) struct Course {
    clock: u64,
    signs: Signs,
    story: Story,
}

// The moment now, behind an entry.
fn now_after<'m>(now: u64, entry: &'m Entry<'m>) -> u64
    ensures { (past : List Record) → now ≡ traffic.now past → result ≡ traffic.now (record_of entry.now ∷ past) }
{
    match *entry {
        Entry::Received { at, .. } | Entry::Quiet { at } => at.max(now),
        Entry::Sent { .. } => now,
    }
}

impl Course {
    /// A channel before all traffic.
    pub(crate) fn new(alloc: Global, descriptor: &Descriptor) -> Result<Course, AllocError>
        ensures { IfOk result (λ course. IsSome course descriptor.now) }
    {
        let story = Story::new(alloc, descriptor)?;
        Ok(Course {
            clock: 0,
            signs: Signs::none(),
            story,
        })
    }

    /// Another channel before all traffic. It takes no memory.
    pub(crate) fn begin(&mut self)
        ensures { (d : descriptors.Descriptor) (life : lives.Life) → IsSome self.old d → Follows self.new d life [] }
    {
        self.clock = 0;
        self.signs = Signs::none();
        self.story.begin();
    }

    /// Goes on behind the entry at a place.
    pub(crate) fn follow<'m>(
        &mut self,
        descriptor: &Descriptor,
        life: Life,
        place: usize,
        entry: &'m Entry<'m>,
    ) -> Result<(), AllocError>
        ensures { OnOk result ((past : List Record) → length past ≡ place
            → Follows self.old descriptor.now (life_of life) past
            → Follows self.new descriptor.now (life_of life) (record_of entry.now ∷ past)) }
    {
        self.clock = now_after(self.clock, entry);
        self.signs = self.signs.after(descriptor, life, place, entry);
        if life.opening <= place {
            let is_opening = life.opening == place;
            follow(
                &mut self.story,
                descriptor,
                life,
                is_opening,
                self.clock,
                entry,
            )?;
        }
        Ok(())
    }

    /// Whether the entry is a chunk that was sent on the channel, and how it stands to the rule.
    pub(crate) fn judge<'m>(
        &self,
        descriptor: &Descriptor,
        book: &Book,
        life: Life,
        entry: &'m Entry<'m>,
    ) -> Judgement
        requires { IsRooted descriptor.now (books.entry book.now) }
        ensures { (past : List Record) → Follows self.now descriptor.now (life_of life) past
            → Judges (case_of descriptor.now (books.entry book.now) past (record_of entry.now)) (life_of life) result }
    {
        if !self.is_sent_on(life, entry) {
            return Judgement::Elsewhere;
        }
        match chunk_of(descriptor, entry) {
            Some(chunk) => self.judge_chunk(descriptor, book, chunk),
            None => Judgement::Elsewhere,
        }
    }

    // Whether the channel is open, and the entry was sent to its address and the other peer's number.
    fn is_sent_on<'m>(&self, life: Life, entry: &'m Entry<'m>) -> bool
        ensures { (d : descriptors.Descriptor) (past : List Record) → Follows self.now d (life_of life) past
            → IsTrue result ↔ IsSentOn d (life_of life) past (record_of entry.now) }
    {
        self.signs.is_open(life)
            && goes_to(life.address, entry)
            && is_for(life.remote, bytes_of(entry))
    }

    // How a chunk that was sent on the channel stands to the rule.
    fn judge_chunk<'a>(
        &self,
        descriptor: &Descriptor,
        book: &Book,
        chunk: SentChunk<'a>,
    ) -> Judgement
        requires { IsRooted descriptor.now (books.entry book.now) }
        ensures { (life : lives.Life) (past : List Record) → Follows self.now descriptor.now life past
            → JudgesChunk descriptor.now (books.entry book.now) past (shown descriptor.now chunk.entry) life result }
    {
        if chunk.number >= u64::from(descriptor.chunks()) {
            return Judgement::Elsewhere;
        }
        match failing(descriptor, book, &self.story, self.signs.heard, chunk) {
            Some(part) => Judgement::Fails(part),
            None => Judgement::Passes,
        }
    }
}
