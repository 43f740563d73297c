// What follows of a learner's traffic from what its calls do.
ghost use Rattle.pp_learner.specs.Laws.{AbsorbIdles, AbsorbMisses, AbsorbNames, AbsorbStands, CloseParts, EventsTally, FlushEnds, LearnsFrom, OpenStands, RefusalStands, RefusalTallies};

/// A learner stands for what its link carried, from the opening on, whatever comes and is sent, until a size is learned; and what it
/// learns came on a channel that it dialled, with the claims that prove it. It does nothing.
pub fn laws_of_learning()
    ensures open { OpenStands }
    ensures absorb { AbsorbStands }
    ensures flush { FlushEnds }
    ensures close { CloseParts }
    ensures names { AbsorbNames }
    ensures idle { AbsorbIdles }
    ensures learns { LearnsFrom }
    ensures misses { AbsorbMisses }
    ensures events { EventsTally }
    ensures refusal { RefusalStands }
    ensures refusals { RefusalTallies }
{}
