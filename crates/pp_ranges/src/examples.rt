// Ranges and covers in examples.
ghost use Rattle.pp_terms.specs.tree.RangeExample.{RangeExamples};

/// Ranges, lists of them and covers in examples that were worked out elsewhere. It does nothing.
pub fn examples_of_ranges()
    ensures { RangeExamples }
{}
