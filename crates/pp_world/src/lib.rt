//! What is to happen to several peers that share a content: schedules, how they are written and read, and rehearsals,
//! which are schedules made of random words. And what then happens: the worlds that a schedule and its peers make, and
//! the promises on all of them.
//!
//! Its functions do nothing. Their contracts are laws of the definitions, and worked examples of them.
#![tactic(auto)]

ghost use Rattle.pp_world.specs.BrokenWorlds.{BrokenWorlds};
ghost use Rattle.pp_world.specs.MarkLaws.{MarkLaws};
ghost use Rattle.pp_world.specs.OutcomeExample.{OutcomeExamples};
ghost use Rattle.pp_world.specs.Rehearsal.{RehearsalsRead};
ghost use Rattle.pp_world.specs.ScheduleExamples.{SchedulesThatRead, SchedulesThatDont, Rehearses};
ghost use Rattle.pp_world.specs.ScheduleRead.{SchedulesRead};
ghost use Rattle.pp_world.specs.WorldExamples.{SmallWorlds, ActExamples, KeptExamples};

/// A text is read as a schedule exactly where it is the text of that schedule, which keeps the limits.
pub fn laws_of_schedules()
    ensures { SchedulesRead }
{}

/// Each rehearsal is a schedule, and its text is read as that.
pub fn laws_of_rehearsals()
    ensures { RehearsalsRead }
{}

/// What was at a mark stays, and where a disk was attached changes nothing of what stands on it.
pub fn laws_of_marks()
    ensures { MarkLaws }
{}

/// Texts of schedules: those that are read, those that aren't, each with its first faulty line and what is wrong there;
/// and a rehearsal.
pub fn worked_schedules()
    ensures read { SchedulesThatRead }
    ensures refused { SchedulesThatDont }
    ensures rehearsal { Rehearses }
{}

/// A small world of two peers, with its moves; single acts; a peer that keeps what it announced; and a whole outcome.
pub fn worked_worlds()
    ensures small { SmallWorlds }
    ensures acts { ActExamples }
    ensures kept { KeptExamples }
    ensures outcome { OutcomeExamples }
{}

/// Moves that no peer makes, and worlds that break a promise.
pub fn broken_worlds()
    ensures { BrokenWorlds }
{}
