// Rules by which a chunk is chosen.
ghost use Rattle.std.specs.Prelude.{◌≡◌, ℕ, ◌^◌, ◌<◌, ◌≤◌};
ghost use Rattle.pp_avail.specs.Ranks.{rank_of, Follows};
ghost use Rattle.pp_avail.specs.declared.ranker.Rank.TheVariants.{Blocks};

/// The kinds of rules.
#[derive(Clone, Copy, PartialEq, Eq, Debug, Drop)]
pub enum Rank {
    /// All chunks have the rank 0, so they come in the order of their numbers.
    Sequential,
    /// A chunk's rank is the number of seats that have it.
    Rarest,
    /// Blocks of 1,024 chunks come in the order of their numbers, and in a block those chunks come first that the fewest seats
    /// have, 63 and more counted alike. A rank is at most 65,535.
    Blocks,
}

/// What ranks chunks, by the number of a chunk and of the seats that have it.
pub type Rule = fn(u32, u32) -> u32;

/// A function that ranks chunks, kept beside its kind and the fact that it may be called at each chunk below 2^20 and each
/// number of seats up to 64, and gives the rank of its kind there. A plain value: one of a kind serves every opening.
#[derive(Clone, Copy)]
pub struct Ranker {
    pub kind: Rank,
    rule: Rule,
    ghost follows: { Follows kind (Rule.pre rule) (Rule.post rule) },
}

fn ask(rule: Rule, i: u32, copies: u32) -> u32
    requires { Rule.pre rule i copies }
    ensures { Rule.post rule i copies result }
{
    rule(i, copies)
}

/// The rule of `Rank::Blocks`. Of a chunk below 2^20 it gives at most 65,535.
pub fn by_blocks(i: u32, copies: u32) -> u32
    ensures value { result ≡ rank_of Blocks i copies }
    ensures range { i < 2 ^ 20 → result < 2 ^ 16 }
{
    i / 1024 * 64 + copies.min(63)
}

impl Ranker {
    /// Keeps a rule of a kind.
    pub fn new(kind: Rank, rule: Rule) -> Ranker
        requires { Follows kind (Rule.pre rule) (Rule.post rule) }
        ensures { result.kind ≡ kind }
    {
        Ranker { kind, rule }
    }

    /// The rank of a chunk that so many seats have.
    pub fn rank(&self, i: u32, copies: u32) -> u32
        requires chunk { i < 2 ^ 20 }
        requires seats { copies ≤ 64 }
        ensures { result ≡ rank_of self.now.kind i copies }
    {
        ask(self.rule, i, copies)
    }
}
