// What follows from the definitions.
ghost use Rattle.pp_paths.specs.Law.{ProvenIsSettled, ProvenFits, ProvenOrClash};
ghost use Rattle.pp_paths.specs.Datagram.{SentIsEnough};

/// Claims that prove a chunk are enough: by them the peaks are settled, and then the chunk fits, where the book contradicts
/// no digest that their climbs meet; and where it contradicts one, two different texts have one digest. And what a peer
/// sends with a chunk of its own book, completing its path for what the receiver is known to have, is enough for the receiver's
/// book where both books agree. It does nothing.
pub fn laws_of_judging()
    ensures settled { ProvenIsSettled }
    ensures fits { ProvenFits }
    ensures clash { ProvenOrClash }
    ensures sent { SentIsEnough }
{}
