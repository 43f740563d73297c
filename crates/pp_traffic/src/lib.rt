//! The words on whole traffic, on which the promises of this peer stand: what a datagram means to a channel, what its peer asked
//! for, knows and may be sent, and what was announced.
//!
//! Its functions do nothing. Their contracts are laws on those words, and worked examples of them.
#![tactic(auto)]

mod entries;

ghost use Rattle.pp_traffic.specs.Places.{LivesByPlaces, AskedByPlaces, ChokedByPlaces, HeardByPlaces, PathsByPlaces, PlainByPlaces, MomentsByPlaces};
ghost use Rattle.pp_traffic.specs.Awaiting.{PlainGrows};
ghost use Rattle.pp_traffic.specs.Laws.{LivesStay, LivesBegan, StoriesGrow, ToldStays, PathsGrow, PlansComplete, PlansAreInBooks, ServedStays, ChokesEndAsking, SentIsSaid};
ghost use Rattle.pp_traffic.specs.Example.{TurnExamples, CountExamples, WindowExamples, ClaimedExamples, KeepExamples};
ghost use Rattle.pp_traffic.specs.FatesLaws.{FatesAreOfAll, FatesAreFinal, AcksDecide, TimeoutsDecide, MetersFly, MetersTimeOut, StoriesNeverFall, ClocksAreNow, MetersMeasure};
ghost use Rattle.pp_traffic.specs.FatesExamples.{FatesExamples};

pub use entries::{Entry, Minute};

/// The definitions in words by places, which say the same.
pub fn words_by_places()
    ensures lives { LivesByPlaces }
    ensures asked { AskedByPlaces }
    ensures choked { ChokedByPlaces }
    ensures heard { HeardByPlaces }
    ensures paths { PathsByPlaces }
    ensures plain { PlainByPlaces }
    ensures moments { MomentsByPlaces }
{}

/// What one record more does, and what stays.
pub fn laws_of_traffic()
    ensures lives_stay { LivesStay }
    ensures lives_began { LivesBegan }
    ensures stories { StoriesGrow }
    ensures told { ToldStays }
    ensures paths { PathsGrow }
    ensures plans { PlansComplete }
    ensures books { PlansAreInBooks }
    ensures served { ServedStays }
    ensures plain { PlainGrows }
    ensures chokes { ChokesEndAsking }
    ensures sent { SentIsSaid }
{}

/// The definitions on small traffic that was worked out by hand.
pub fn worked_examples()
    ensures turns { TurnExamples }
    ensures counts { CountExamples }
    ensures windows { WindowExamples }
    ensures claims { ClaimedExamples }
    ensures keeping { KeepExamples }
{}

/// What becomes of each DATA that was sent, and that the meter of a story, which drops and counts, is a summary of it: what
/// flies, what is lost, when a timeout is due, and the delays (RFC 6817, sections 2.4 and 3.4.2; RFC 6298, section 5).
pub fn laws_of_fates()
    ensures all { FatesAreOfAll }
    ensures stay { FatesAreFinal }
    ensures acks { AcksDecide }
    ensures timeouts { TimeoutsDecide }
    ensures flight { MetersFly }
    ensures timer { MetersTimeOut }
    ensures moments { StoriesNeverFall }
    ensures clocks { ClocksAreNow }
    ensures delays { MetersMeasure }
{}

/// Fates and samples in examples that were worked out by hand.
pub fn examples_of_fates()
    ensures { FatesExamples }
{}
