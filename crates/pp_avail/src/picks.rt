// The pick of a chunk.
ghost use Rattle.std.specs.Prelude.{◌≡◌, ◌+◌, ◌<◌, ◌≤◌, length};
ghost use Rattle.pp_avail.specs.Choices.{IsBest};
ghost use Rattle.pp_avail.specs.Offers.{copies};
ghost use Rattle.pp_avail.specs.Picks.{IsPick};

use crate::avail::Avail;
use crate::choice::Choice;
use crate::ranker::Ranker;
use pp_tree::ChunkSet;

/// The chunk to ask of a seat: the one of those that are wanted and that the seat has with the least rank and number, none
/// where there is no such chunk.
pub fn pick(avail: &Avail, seat: u8, wanted: &ChunkSet, ranker: &Ranker) -> Option<u32>
    requires seat { seat < 64 }
    requires wanted { length wanted.now ≡ avail.now.chunks }
    ensures { IsPick ranker.now.kind avail.now seat wanted.now result }
{
    // A kind's rank never falls with the number among chunks of as many copies, so the first of them decides.
    let mut best = None;
    for fewer in 0..avail.most_copies() {
        best = considered(avail, seat, wanted, ranker, fewer, best);
    }
    match best {
        None => None,
        Some(choice) => Some(choice.chunk),
    }
}

// The best of the chunks of up to one copy more, by that of those of fewer.
fn considered(
    avail: &Avail,
    seat: u8,
    wanted: &ChunkSet,
    ranker: &Ranker,
    fewer: u32,
    best: Option<Choice>,
) -> Option<Choice>
    requires seat { seat < 64 }
    requires wanted { length wanted.now ≡ avail.now.chunks }
    requires fewer { fewer < 64 }
    requires best { IsBest ranker.now.kind avail.now seat wanted.now (λ j. (0 < copies avail.now j) × (copies avail.now j ≤ fewer)) best }
    ensures { IsBest ranker.now.kind avail.now seat wanted.now (λ j. (0 < copies avail.now j) × (copies avail.now j ≤ fewer + 1)) result }
{
    let copies = fewer + 1;
    if let Some(best) = best
        && best.rank < ranker.rank(0, copies)
    {
        return Some(best);
    }
    let Some(chunk) = avail.first_of(seat, wanted, copies) else {
        return best;
    };
    let rank = ranker.rank(chunk, copies);
    let choice = Choice { rank, chunk };
    Some(choice.lesser(best))
}
