// What follows from the definitions.
ghost use Rattle.pp_targets.specs.Law.{BackedIsChunkOfTarget, BackedIsContentOfName, ClimbIsBacked, LastTellsSize, SizedClashIsClash};

/// A book of any descriptor of a target backs the chunks of the target's contents alone, and a proved last chunk tells
/// the size of the name's contents, where no two different texts have one digest and no node that covers a chunk has the
/// digest of one that covers none; so bytes that are backed from the first to the last are the name's contents. What a
/// proof's climbs meet is a book that backs the chunk. It does nothing.
pub fn laws_of_targets()
    ensures backed { BackedIsChunkOfTarget }
    ensures climb { ClimbIsBacked }
    ensures size { LastTellsSize }
    ensures content { BackedIsContentOfName }
    ensures clash { SizedClashIsClash }
{}
