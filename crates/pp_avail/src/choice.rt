// The best of several chunks.
ghost use Rattle.std.specs.Prelude.{◌≡◌, ◌⊎◌, MatchOption};
ghost use Rattle.pp_avail.specs.Choices.{ComesFirst};

/// A chunk and its rank.
#[derive(Clone, Copy, Debug, Drop)]
pub(crate) struct Choice {
    pub(crate) rank: u32,
    pub(crate) chunk: u32,
}

impl Choice {
    /// The one of the least rank and number.
    pub(crate) fn lesser(self, best: Option<Choice>) -> Choice
        ensures { MatchOption best (result ≡ self)
            (λ b. ((result ≡ self) ⊎ (result ≡ b)) × ComesFirst result self × ComesFirst result b) }
    {
        match best {
            None => self,
            Some(best) => self.least(best),
        }
    }

    fn least(self, best: Choice) -> Choice
        ensures one { (result ≡ self) ⊎ (result ≡ best) }
        ensures first { ComesFirst result self }
        ensures before { ComesFirst result best }
    {
        if self.rank < best.rank || self.rank == best.rank && self.chunk < best.chunk {
            self
        } else {
            best
        }
    }
}
