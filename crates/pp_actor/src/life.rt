//! What a peer leaves: its lives, each from an opening of its store until it stopped, and its disk.
ghost use Rattle.std.specs.Prelude.{◌≡◌};

use pp_outside::{MemoryDisk, MemoryLink};
use pp_tree::Book;

/// A life of a peer that is over: the link that it had, and the digests that it knew at the end.
#[derive(Drop)]
pub struct Life {
    pub(crate) link: MemoryLink,
    pub(crate) book: Book,
}

impl Life {
    /// The link, with all that it carried.
    pub fn link(&self) -> &MemoryLink
        ensures { result.now ≡ self.now.link }
    {
        &self.link
    }

    /// The digests that the peer knew at the end.
    pub fn book(&self) -> &Book
        ensures { result.now ≡ self.now.book }
    {
        &self.book
    }
}

/// What is left of a peer: its disk, and its lives, the oldest first.
#[derive(Drop)]
pub struct Remains {
    pub disk: MemoryDisk,
    pub lives: Vec<Life>,
}
