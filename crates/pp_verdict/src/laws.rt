//! What follows from the definitions.

ghost use Rattle.pp_verdict.specs.Answers.{AnswersAreOne, ServedAreYes};
ghost use Rattle.pp_verdict.specs.Faults.{FaultsAreOne, FaultsDoNotServe};

/// A record at which a part of the rule fails doesn't serve, and no other part is named there; so each recording has one
/// answer; and one with the text of a session, each of whose chunks was served, has yes. It does nothing.
pub fn laws_of_answers()
    ensures fault { FaultsDoNotServe }
    ensures part { FaultsAreOne }
    ensures answer { AnswersAreOne }
    ensures served { ServedAreYes }
{}
