//! Laws of what a peer keeps.

ghost use Rattle.pp_peer.specs.Standing.{WholeStays};

/// All parts of a peer stay of one content where the swarm of the channels, the size of what is fetched, and the swarm of the store
/// stay.
pub fn laws_of_parts()
    ensures { WholeStays }
{}
