//! Bins whose numbers have 64 bits.

ghost use Rattle.std.specs.Prelude.{◌≡◌, ◌-◌, ◌^◌, ◌<◌, MatchOption, IfSome};
ghost use Rattle.pp_terms.specs.tree.Tree.{Node};
ghost use Rattle.pp_terms.specs.tree.Bins.{bin_number, first_leaf, last_leaf, parent_of, sibling_of};
ghost use Rattle.pp_bins.specs.Answers.{Gives, IsOfWidth, node};

use std::marker::Model;

/// A bin whose number has 64 bits and isn't of one bits alone. Its contracts see it as its layer and its offset there.
#[derive(Clone, Copy, Debug, PartialEq, Eq)]
pub struct Bin64 {
    layer: u8,
    offset: u64,
}

impl Model for Bin64 {
    ghost use Rattle.pp_terms.specs.tree.Tree.{Node};
    ghost use Rattle.pp_terms.specs.tree.Bins.{IsBin};

    ghost Value = { Node };

    ghost view = { λ b. record { layer = b.layer; offset = b.offset } };

    ghost invariant = { λ b. IsBin 64 (record { layer = b.layer; offset = b.offset }) };

    ghost inverse = { λ n. record { layer = n.layer; offset = n.offset } };
}

impl Bin64 {
    /// The bin of a number; None exactly for the greatest number.
    pub fn read(number: u64) -> Option<Bin64>
        ensures number { MatchOption result (number ≡ 2 ^ 64 - 1) (λ b. bin_number b ≡ number) }
        ensures width { IfSome result (λ b. IsOfWidth 64 b) }
    {
        if number == u64::MAX {
            return None;
        }
        let layer = number.trailing_ones();
        let offset = (number >> layer) / 2;
        Some(Bin64 {
            layer: layer as u8,
            offset,
        })
    }

    /// The bin at a layer and an offset in it; None exactly where its number has more bits, or one bits alone.
    pub fn of(layer: u8, offset: u64) -> Option<Bin64>
        ensures { Gives 64 (node layer offset) result }
    {
        if layer > 63 || offset >> (63 - layer) != 0 {
            return None;
        }
        Some(Bin64 { layer, offset })
    }

    /// Its number.
    pub fn number(self) -> u64
        ensures number { result ≡ bin_number self }
        ensures low { result < 2 ^ 64 - 1 }
    {
        ((2 * self.offset + 1) << self.layer) - 1
    }

    /// Its layer: 0 for the bin of one chunk.
    pub fn layer(self) -> u8
        ensures { result ≡ self.layer }
    {
        self.layer
    }

    /// Its offset in its layer, from the left.
    pub fn offset(self) -> u64
        ensures { result ≡ self.offset }
    {
        self.offset
    }

    /// The bin above it; None exactly where that one's number has more bits, or one bits alone.
    pub fn parent(self) -> Option<Bin64>
        ensures { Gives 64 (parent_of self) result }
    {
        Bin64::of(self.layer + 1, self.offset / 2)
    }

    /// The other bin below its parent; None exactly where that one's number has more bits, or one bits alone.
    pub fn sibling(self) -> Option<Bin64>
        ensures { Gives 64 (sibling_of self) result }
    {
        let offset = if self.offset % 2 == 0 {
            self.offset + 1
        } else {
            self.offset - 1
        };
        Bin64::of(self.layer, offset)
    }

    /// Its least leaf.
    pub fn first(self) -> u64
        ensures { result ≡ first_leaf self }
    {
        self.offset << self.layer
    }

    /// Its greatest leaf.
    pub fn last(self) -> u64
        ensures { result ≡ last_leaf self }
    {
        self.first() + ((1 << self.layer) - 1)
    }
}
