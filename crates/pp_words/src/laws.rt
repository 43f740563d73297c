// Examples of the words of a command line.
ghost use Rattle.pp_words.specs.Example.{WordExamples};

/// Words, addresses and lines in examples that were worked out elsewhere. It does nothing.
pub fn examples_of_words()
    ensures { WordExamples }
{}
