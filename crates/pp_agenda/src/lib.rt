//! What is due on one seat's channel, as notes in the order in which they are sent (RFC 7574, section 3).
//! Only `Agenda::new` takes memory.
#![tactic(auto)]

ghost use Rattle.pp_agenda.specs.Laws.{AllMayGo, MayBeSaid, CoversNews, CoversRows, KnowsNoMore, ExchangesAll, CancelsAll, ChokesWhereDue, IsNeverSilent};

mod agenda;
mod ranges;

pub use agenda::{Agenda, Due};
pub use ranges::awaited_ranges;

/// The notes that are due may be said, tell of committed chunks alone and leave nothing out. It does nothing.
pub fn laws_of_agendas()
    ensures goes { AllMayGo }
    ensures said { MayBeSaid }
    ensures news { CoversNews }
    ensures rows { CoversRows }
    ensures known { KnowsNoMore }
    ensures exchanges { ExchangesAll }
    ensures cancels { CancelsAll }
    ensures turns { ChokesWhereDue }
    ensures silence { IsNeverSilent }
{}
