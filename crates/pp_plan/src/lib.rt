//! The hashes of a content's tree that a peer has told it knows, and those to send it before a chunk (RFC 7574, sections
//! 5.2 to 5.5).
#![tactic(auto)]

ghost use Rattle.pp_plan.specs.Examples.{PlanExamples};
ghost use Rattle.pp_plan.specs.Law.{PlansAreLeast, StoriesTell, StoriesAreRanges, CutsTellAlike};

mod planning;
mod tier;
mod tiers;
mod told;

pub use planning::plan;
pub use told::Told;

/// What a plan is for, and what is told.
pub fn laws_of_plans()
    ensures least { PlansAreLeast }
    ensures stories { StoriesTell }
    ensures ranges { StoriesAreRanges }
    ensures cuts { CutsTellAlike }
{}

/// Plans, and what is told, in examples that were worked out elsewhere. It does nothing.
pub fn examples_of_plans()
    ensures { PlanExamples }
{}
