// What follows from the definitions of a holding.
ghost use Rattle.pp_holding.specs.Laws.{AdvancesCompose, KeptIsSound, CommittedStays, PutsCompose, EventsAreInTime, TicketsFit};

use pp_promises::laws_of_promises;

/// What the calls of a holding come to over many calls: what is kept of the disk, and that chunks are committed in time. It does nothing.
pub fn laws_of_holdings()
    ensures compose { AdvancesCompose }
    ensures sound { KeptIsSound }
    ensures stays { CommittedStays }
    ensures puts { PutsCompose }
    ensures events { EventsAreInTime }
    ensures tickets { TicketsFit }
{
    // Batches are in time.
    laws_of_promises();
}
