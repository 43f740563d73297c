//! Which channel a datagram is for, and what it does to it: the layer between datagrams and what a channel does with its
//! messages (RFC 7574, sections 3.1.1 and 8). Only `Lives::new` takes memory.
#![tactic(auto)]

mod arriving;
mod lives;

ghost use Rattle.pp_lives.specs.Laws.{StandsAtFirst, QuietStays, ExpiredStays, SaidStays, SeatsLive, DialsStay, DialledStays, RedialledStays, SteadyStays, SeatsRead, DialKeeps, SentKeeps, FirstKeeps, AgainKeeps, RefusedKeeps, BegunKept, SeatsOpened};

pub use arriving::{Arrival, First, begin};
pub use lives::{Far, Greeting, Lives, number_of};

/// The seats stand for the traffic, whatever is received, sent or waited for: by what each call changes of them.
pub fn laws_of_lives()
    ensures first { StandsAtFirst }
    ensures quiet { QuietStays }
    ensures expired { ExpiredStays }
    ensures said { SaidStays }
    ensures dials { DialsStay }
    ensures dialled { DialledStays }
    ensures redialled { RedialledStays }
    ensures steady { SteadyStays }
    ensures live { SeatsLive }
    ensures read { SeatsRead }
{}

/// The seats as `dial`, `sent` and `close` leave them stand for the traffic.
pub fn laws_of_calls()
    ensures dial { DialKeeps }
    ensures sent { SentKeeps }
    ensures first { FirstKeeps }
    ensures again { AgainKeeps }
    ensures refused { RefusedKeeps }
    ensures begun { BegunKept }
    ensures opened { SeatsOpened }
{}
