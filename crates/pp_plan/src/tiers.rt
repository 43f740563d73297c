// Which chunks were told of, and which runs of chunks have one of them.
ghost use Rattle.std.specs.Prelude.{◌≡◌, ℕ, ◌*◌, ◌/◌, ◌^◌, ◌<◌, ◌≤◌, ◌&&◌, ◌||◌, nat_le, false, length, IfOk};
ghost use Rattle.pp_tree.specs.Bits.{bit_of};
ghost use Rattle.pp_plan.specs.Told.{some_among};

use crate::tier::Tier;
use std::alloc::{AllocError, Global};
use std::marker::Model;

/// A set of chunks, a bit for each. Each of three tiers above has a bit for each word of the tier below, which is set where
/// that word has some bit: so it stands for 64, 64^2 or 64^3 chunks.
#[derive(Drop)]
pub(crate) struct Tiers {
    lowest: Tier,
    second: Tier,
    third: Tier,
    highest: Tier,
}

impl Model for Tiers {
    ghost use Rattle.std.specs.Prelude.{◌≡◌, ℕ, ◌*◌, ◌≤◌, List, length};
    ghost use Rattle.pp_plan.specs.Tiers.{AreTiers};

    ghost Value = { List ℕ };

    ghost view = { λ t. t.lowest };

    ghost invariant = { λ t. AreTiers t.lowest t.second t.third t.highest };
}

impl Tiers {
    /// No chunk, of so many.
    pub(crate) fn none(alloc: Global, chunks: u32) -> Result<Tiers, AllocError>
        requires some { 0 < chunks }
        requires most { chunks ≤ 2 ^ 20 }
        ensures size { IfOk result (λ tiers. chunks ≤ 64 * length tiers) }
        ensures none { IfOk result (λ tiers. (i : ℕ) → bit_of tiers i ≡ false) }
    {
        let size = (chunks as usize).div_ceil(64);
        let over = size.div_ceil(64);
        Ok(Tiers {
            lowest: Tier::none(alloc, size)?,
            second: Tier::none(alloc, over)?,
            third: Tier::none(alloc, over.div_ceil(64))?,
            highest: Tier::none(alloc, 1)?,
        })
    }

    /// Adds the chunks from one to another.
    pub(crate) fn fill(&mut self, first: u32, last: u32)
        requires order { first ≤ last }
        requires inside { last < 64 * length self.old }
        ensures len { length self.new ≡ length self.old }
        ensures chunks { (i : ℕ) → bit_of self.new i ≡ (bit_of self.old i || (nat_le first i && nat_le i last)) }
    {
        let first = first as usize;
        let last = last as usize;
        if self.lowest.fill(first, last) {
            return;
        }
        if self.second.fill(first / 64, last / 64) {
            return;
        }
        if self.third.fill(first / 4_096, last / 4_096) {
            return;
        }
        self.highest.fill(first / 262_144, last / 262_144);
    }

    /// Whether some chunk lies under the node of that layer and offset.
    pub(crate) fn has_under(&self, layer: u8, offset: u32) -> bool
        requires { layer < 24 }
        ensures { result ≡ some_among (bit_of self.now) (offset * 2 ^ layer) (2 ^ layer) }
    {
        if layer < 6 {
            return self.lowest.has_run(offset, layer);
        }
        if layer < 12 {
            return self.second.has_run(offset, layer - 6);
        }
        if layer < 18 {
            return self.third.has_run(offset, layer - 12);
        }
        self.highest.has_run(offset, layer - 18)
    }

    /// Takes all chunks out. Where 64 words have none, they are passed over.
    pub(crate) fn clear(&mut self)
        ensures len { length self.new ≡ length self.old }
        ensures none { (i : ℕ) → bit_of self.new i ≡ false }
    {
        self.lowest.clear(&self.second);
        self.second.clear(&self.third);
        self.third.clear(&self.highest);
        self.highest.clear_one();
    }
}
