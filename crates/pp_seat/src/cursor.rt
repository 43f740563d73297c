//! How far this peer has told what it has.

ghost use Rattle.std.specs.Prelude.{◌≡◌, ◌+◌, ◌<◌, ◌≤◌, ℕ, List, true, false, map, max, min, length, slice_index_or, MatchOption, IfSome};
ghost use Rattle.pp_terms.specs.tree.Range.{Span, within};
ghost use Rattle.pp_terms.specs.format.Messages.{Have};
ghost use Rattle.pp_seat.specs.Lines.{Tale};
ghost use Rattle.pp_seat.specs.Own.{IsSplit, IsNextRow};
ghost use Rattle.pp_seat.specs.Follows.{Frame, Lost, Follows, Stays, Says, SetsBack, IsUnproven, IsPassed};

use crate::seat::Seat;
use pp_ranges::ChunkRange;
use pp_tree::ChunkSet;

impl Seat {
    pub fn cursor(&self) -> u32
        ensures { result ≡ self.now.cursor }
    {
        self.cursor
    }

    /// The next range of committed chunks from the cursor on. Where no HAVE was refused, none of them was told of since the channel
    /// was proven.
    #[tactic(auto, using(crate::proofs::Answering::rows_are_fresh))]
    pub fn next_have(&self, committed: &ChunkSet) -> Option<ChunkRange>
        requires { length committed.now ≡ self.now.told.chunks }
        ensures next { MatchOption result ((i : ℕ) → self.now.cursor ≤ i → slice_index_or committed.now i false ≡ false)
            (IsNextRow self.now.cursor committed.now) }
        ensures fresh { (f : Frame) (lost : Lost) (t : Tale) → Follows f lost self.now t → lost.haves ≡ 0
            → IfSome result (λ range. (i : ℕ) → within range i ≡ true → t.told i ≡ false) }
    {
        let first = committed.first_from(self.cursor)?;
        let end = committed
            .first_absent_from(first)
            .unwrap_or(self.told.chunks());
        ChunkRange::new(first, end - 1)
    }

    /// HAVE messages of a range were sent. The cursor is behind it from now on.
    pub fn said_have(&mut self, range: ChunkRange)
        requires { range.last < self.old.told.chunks }
        ensures exact { self.new ≡ record self.old { cursor = max self.old.cursor (range.last + 1) } }
        ensures says { (now : ℕ) (spans : List Span) → IsSplit range spans → Says (IsPassed self.old.cursor range.first) now (map Have spans) self.old self.new }
    {
        // Its contract tells how large a content can be.
        let _ = self.told.chunks();
        self.cursor = self.cursor.max(range.last() + 1);
    }

    /// A HAVE was refused, or a chunk below the cursor was committed before the channel was proven: chunks from this one on are
    /// told of once more.
    pub fn rewind(&mut self, to: u32)
        ensures exact { self.new ≡ record self.old { cursor = min self.old.cursor to } }
        ensures stays { Stays IsUnproven self.old self.new }
        ensures back { SetsBack self.old self.new }
    {
        self.cursor = self.cursor.min(to);
    }
}
