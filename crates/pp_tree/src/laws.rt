// What follows from the definitions of rooted books, and examples of the text of a descriptor.
ghost use Rattle.pp_terms.specs.format.ReadExample.{ReadExamples};
ghost use Rattle.pp_tree.specs.Law.{RootedBooksAgree, BackedIsChunk};

/// Two rooted books agree, and what a book backs is the content's, where no two different texts have one digest. It
/// does nothing.
pub fn laws_of_books()
    ensures agree { RootedBooksAgree }
    ensures backed { BackedIsChunk }
{}

/// The text of a descriptor in examples that were worked out elsewhere. It does nothing.
pub fn examples_of_reading()
    ensures { ReadExamples }
{}
