//! The committed chunks of a store, read straight into datagrams.

use pp_draft::{ChunkReader, Unread};
use pp_outside::Disk;
use pp_store::{ReadFault, Store};
use pp_tree::Book;

/// The committed chunks of a store, and the book that it was opened with. A chunk is read into a buffer of its length and digested
/// there: Absent comes exactly where it isn't committed, and then nothing is read; Damaged where its digest isn't the book's.
#[derive(Clone, Copy)]
pub struct CommittedChunks<'a> {
    pub store: &'a Store,
    pub book: &'a Book,
}

impl<'a, D: Disk> ChunkReader<D> for CommittedChunks<'a> {
    ghost use Rattle.pp_tree.specs.Book.{entry};
    ghost use Rattle.pp_desk.specs.Stored.{CanRead, Reads};

    ghost can_read = { λ chunks i n. CanRead chunks.store.now (entry chunks.book.now) i n };

    ghost reads = { λ chunks i answer bytes old new. Reads chunks.store.now (entry chunks.book.now) i answer bytes old new };

    fn read(&self, chunk: u32, into: &mut [u8], disk: &mut D) -> Result<(), Unread> {
        match self.store.read(chunk, into, self.book, disk) {
            Ok(_) => Ok(()),
            Err(ReadFault::Absent) => Err(Unread::Absent),
            Err(ReadFault::Disk) => Err(Unread::Disk),
            Err(ReadFault::Damaged { .. }) => Err(Unread::Damaged),
        }
    }
}
