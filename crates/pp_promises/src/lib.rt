//! What a run of a peer promises of the records that its link gained: what is stored, served, announced, answered and asked for,
//! of its datagrams, and of its report.
//!
//! Its functions do nothing. Their contracts are laws of these definitions, and worked examples of them.
#![tactic(auto)]

ghost use Rattle.pp_promises.specs.BrokenRuns.{BrokenPromises};
ghost use Rattle.pp_promises.specs.Example.{NameExamples, BookExamples};
ghost use Rattle.pp_promises.specs.KeptRuns.{KeptPromises};
ghost use Rattle.pp_promises.specs.Laws.{AnswersAreRead, PlainsAreRead, ChokesAreRead, ReadTells, ReadAsks, OwedIsAsked, MetersAgree, BatchesAreInTime, ReadsGrow, ContradictionsStay, AcknowledgedStays};
ghost use Rattle.pp_promises.specs.RunExample.{ServingExamples, PlanExamples, AnsweringExamples, TellingExamples, StoringExamples, FetchingExamples, OwnExamples, ReportExamples, BatchExamples};

/// How what is read of a channel stands to its whole story, and that chunks are committed in time.
pub fn laws_of_promises()
    ensures answers { AnswersAreRead }
    ensures plains { PlainsAreRead }
    ensures chokes { ChokesAreRead }
    ensures told { ReadTells }
    ensures asked { ReadAsks }
    ensures owed { OwedIsAsked }
    ensures meters { MetersAgree }
    ensures batches { BatchesAreInTime }
{}

/// What one record more does, and a larger book.
pub fn laws_of_turns()
    ensures reads { ReadsGrow }
    ensures contradictions { ContradictionsStay }
    ensures acknowledged { AcknowledgedStays }
{}

/// What the definitions say of small runs that were worked out by hand, and of runs that differ in one thing.
pub fn worked_runs()
    ensures serving { ServingExamples }
    ensures plans { PlanExamples }
    ensures answering { AnsweringExamples }
    ensures telling { TellingExamples }
    ensures storing { StoringExamples }
    ensures fetching { FetchingExamples }
    ensures own { OwnExamples }
    ensures reports { ReportExamples }
    ensures batches { BatchExamples }
{}

/// Promises that small runs keep.
pub fn kept_promises()
    ensures { KeptPromises }
{}

/// Each promise is broken by some run on which its premises hold.
pub fn broken_promises()
    ensures { BrokenPromises }
{}

/// Names of stores and addresses, and books of a descriptor, computed.
pub fn worked_examples()
    ensures names { NameExamples }
    ensures books { BookExamples }
{}
