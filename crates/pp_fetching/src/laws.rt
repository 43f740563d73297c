// How what is noted over all channels is tied to the own requests of each.
ghost use Rattle.pp_fetching.specs.Laws.{TieStays, NotElsewhere, AwaitedIsAsked, OnOneSeat, PicksFit};

/// The chunks that are asked for are the own requests of all seats together, each of one seat alone: how that comes about and
/// stays with each call, and what follows. It does nothing.
pub fn laws_of_fetching()
    ensures stays { TieStays }
    ensures not_elsewhere { NotElsewhere }
    ensures awaited { AwaitedIsAsked }
    ensures one_seat { OnOneSeat }
    ensures fit { PicksFit }
{}
