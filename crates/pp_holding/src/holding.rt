//! An open store with what waits for its next commit.

ghost use Rattle.std.specs.Prelude.{◌≡◌, ℕ, ◌+◌, ◌<◌, ◌≤◌, ◌⊎◌, ◌==◌, true, false, [], ◌∷◌, Some, Ok, Err, length, slice_index_or, replicate, nat_le, if◌then◌else◌, IfOk, IfErr, OnOk, OnErr, IsOk, IsErr};
ghost use Rattle.pp_terms.specs.Count.{HasCause, HasRisen};
ghost use Rattle.pp_terms.specs.tree.Book.{LookUp, IsRooted};
ghost use Rattle.pp_terms.specs.format.Descriptor.{chunks_of};
ghost use Rattle.pp_terms.specs.tree.Claims.{latest};
ghost use Rattle.pp_tree.specs.Book.{entry, HasRootAlone, IsBookOf};
ghost use Rattle.pp_terms.specs.disk.Disk.{IsKnown, Throughout, moment_of};
ghost use Rattle.pp_terms.specs.disk.Image.{StandsIn};
ghost use Rattle.pp_terms.specs.disk.Sound.{IsSound};
ghost use Rattle.pp_scan.specs.Look.{SyncsAtMost};
ghost use Rattle.pp_scan.specs.Scan.{IsScanned};
ghost use Rattle.pp_store.specs.Keep.{KeepsDisk};
ghost use Rattle.pp_store.specs.Sound.{StaysSound};
ghost use Rattle.pp_store.specs.Store.{is_committed, is_held, KnowsHeld, IsOpened, GoesOn};
ghost use Rattle.pp_holding.specs.Opening.{HasBegun, IsOpenFault};
ghost use Rattle.pp_promises.specs.Batches.{most_pending, is_full, is_due, is_all_in, after_commit, after_puts, after_read};
ghost use Rattle.pp_holding.specs.Queue.{empty_queue, waiting_at, released, with_waiting, HasRoom, GrowsByOne};
ghost use Rattle.pp_holding.specs.Stock.{IsKept, Advances};
ghost use Rattle.pp_holding.specs.Holding.{batch_from, batch_of, stock_of, HasWaiting, AreCommitted, AreTied, IsLeft};
ghost use Rattle.pp_holding.specs.Answers.{answer_to, learned_from, stored_by, waiting_with, is_filled_by, queue_after, queue_settled, FitsUnheld};

use crate::queue::{MOST_WAITING, Queue, Ticket};
use pp_outside::{Disk, DiskFault};
use pp_paths::Claims;
use pp_scan::ScanFault;
use pp_store::{Put, Store};
use pp_tree::{Book, ChunkSet, Descriptor};
use std::alloc::{AllocError, Global};
use std::marker::Model;

/// What came as a chunk: the bytes, whom from and when, in microseconds.
#[derive(Clone, Copy)]
pub struct Parcel<'a> {
    pub ticket: Ticket,
    pub bytes: &'a [u8],
    pub at: u64,
}

/// What a peer holds: its open store and the store's book, the chunks that are pending, and the tickets of what was committed, or came
/// again, since they were last taken.
#[derive(Drop)]
pub struct Holding {
    store: Store,
    book: Book,
    queue: Queue,
    chunks: u32,
}

impl Model for Holding {
    ghost use Rattle.std.specs.Prelude.{◌≡◌};
    ghost use Rattle.pp_terms.specs.format.Descriptor.{chunks_of};
    ghost use Rattle.pp_holding.specs.Holding.{HoldingState, AreTied};

    ghost Value = { HoldingState };

    ghost view = { λ h. record { store = h.store; book = h.book; queue = h.queue } };

    ghost invariant = { λ h.
        (h.chunks ≡ chunks_of h.store.descriptor) × AreTied (record { store = h.store; book = h.book; queue = h.queue }) };
}

// Commits all that is pending, where that is due.
fn commit_if<D: Disk>(
    is_due: bool,
    store: &mut Store,
    queue: &mut Queue,
    disk: &mut D,
) -> Result<(), DiskFault>
    requires live { store.old.live ≡ true }
    requires waits { HasWaiting store.old queue.old.waiting }

    ensures idle { is_due ≡ false → (result ≡ Ok tt) × (store.new ≡ store.old) × (D.state disk.new ≡ D.state disk.old) }
    ensures nothing { queue.old.waiting ≡ [] → (result ≡ Ok tt) × (store.new ≡ store.old) × (D.state disk.new ≡ D.state disk.old) }
    ensures queue { OnOk result (queue.new ≡ (if is_due then released queue.old else queue.old)) }
    ensures batch { OnOk result (batch_from store.new queue.new.waiting
        ≡ (if is_due then after_commit (batch_from store.old queue.old.waiting) else batch_from store.old queue.old.waiting)) }
    ensures waits { HasWaiting store.new queue.new.waiting }
    ensures live { OnOk result (store.new.live ≡ true) }
    ensures dead { OnErr result ((store.new ≡ record store.old { live = false }) × (queue.new ≡ queue.old)) }
    ensures descriptor { store.new.descriptor ≡ store.old.descriptor }
    ensures hard { HasCause (D.state disk.old).hard (D.state disk.new).hard result }
    ensures cause { HasCause (D.state disk.old).faults (D.state disk.new).faults result }
    ensures knows { (book : LookUp) → KnowsHeld store.old book → KnowsHeld store.new book }
    ensures came { AreCommitted store.old queue.old.tickets → AreCommitted store.new queue.new.tickets }
    ensures again { AreCommitted store.old queue.old.repeats → AreCommitted store.new queue.new.repeats }
    ensures advances { (book : LookUp) → IsRooted store.old.descriptor book → Advances
        (record { store = store.old; book = book; disk = D.state disk.old })
        (record { store = store.new; book = book; disk = D.state disk.new }) }
{
    if !is_due {
        return Ok(());
    }
    match store.commit(disk) {
        Ok(()) => {
            queue.release();
            Ok(())
        }
        Err(fault) => Err(fault),
    }
}

// What an answer of the store leads to: a chunk that was stored waits, or is committed with the others at once where they are so many;
// the sender of one that is committed already is to be acknowledged again.
fn heed<D: Disk>(
    put: Put,
    parcel: &Parcel<'_>,
    store: &mut Store,
    queue: &mut Queue,
    disk: &mut D,
) -> Result<Put, DiskFault>
    requires live { store.old.live ≡ true }
    requires waits { HasWaiting store.old (waiting_with put parcel.now.ticket parcel.now.at queue.old.waiting) }
    requires few { length queue.old.waiting < most_pending }
    requires within { parcel.now.ticket.chunk < length store.old.committed }

    ensures same { IfOk result (λ answer. answer ≡ put) }
    ensures idle { is_filled_by put queue.old.waiting ≡ false
        → IsOk result × (store.new ≡ store.old) × (D.state disk.new ≡ D.state disk.old) }
    ensures queue { OnOk result (queue.new
        ≡ queue_after put (is_committed store.old parcel.now.ticket.chunk) parcel.now.ticket parcel.now.at queue.old) }
    ensures batch { OnOk result (let more = batch_from store.old (waiting_with put parcel.now.ticket parcel.now.at queue.old.waiting) in
        batch_from store.new queue.new.waiting ≡ (if is_filled_by put queue.old.waiting then after_commit more else more)) }
    ensures waits { HasWaiting store.new queue.new.waiting }
    ensures few { OnOk result (length queue.new.waiting < most_pending) }
    ensures live { OnOk result (store.new.live ≡ true) }
    ensures dead { OnErr result ((store.new ≡ record store.old { live = false })
        × (queue.new ≡ with_waiting (waiting_at parcel.now.ticket parcel.now.at) queue.old)) }
    ensures descriptor { store.new.descriptor ≡ store.old.descriptor }
    ensures hard { HasCause (D.state disk.old).hard (D.state disk.new).hard result }
    ensures cause { HasCause (D.state disk.old).faults (D.state disk.new).faults result }
    ensures knows { (book : LookUp) → KnowsHeld store.old book → KnowsHeld store.new book }
    ensures came { AreCommitted store.old queue.old.tickets → AreCommitted store.new queue.new.tickets }
    ensures again { AreCommitted store.old queue.old.repeats → AreCommitted store.new queue.new.repeats }
    ensures advances { (book : LookUp) → IsRooted store.old.descriptor book → Advances
        (record { store = store.old; book = book; disk = D.state disk.old })
        (record { store = store.new; book = book; disk = D.state disk.new }) }
{
    let ticket = parcel.ticket;
    match put {
        Put::Stored => {
            queue.wait(ticket, parcel.at);
            let is_full = queue.len() >= MOST_WAITING;
            match commit_if(is_full, store, queue, disk) {
                Ok(()) => Ok(Put::Stored),
                Err(fault) => Err(fault),
            }
        }
        Put::Held => {
            if store.committed().contains(ticket.chunk) {
                queue.acknowledge(ticket);
            }
            Ok(Put::Held)
        }
        Put::Missing(node) => Ok(Put::Missing(node)),
        Put::Wrong { node, found, kept } => Ok(Put::Wrong { node, found, kept }),
        Put::Length { found, want } => Ok(Put::Length { found, want }),
    }
}

// All memory but the store's, and the book is prepared.
fn make_room(alloc: Global, descriptor: &Descriptor) -> Result<(Book, Queue), AllocError>
    ensures alone { IfOk result (λ room. HasRootAlone descriptor.now (entry room.0)) }
    ensures descriptor { IfOk result (λ room. room.0.descriptor ≡ Some descriptor.now) }
    ensures queue { IfOk result (λ room. room.1 ≡ empty_queue) }
{
    let mut book = Book::empty(alloc);
    book.prepare(alloc, descriptor)?;
    let queue = Queue::new(alloc)?;
    Ok((book, queue))
}

impl Holding {
    /// Opens the descriptor's store on the disk. All memory that is ever needed is taken first; an empty file becomes a store that holds
    /// no chunk, any other is synced and scanned.
    pub fn open<D: Disk>(
        alloc: Global,
        descriptor: &Descriptor,
        disk: &mut D,
    ) -> Result<Holding, ScanFault>
        ensures begun { IfOk result (HasBegun descriptor.now) }
        // Exactly those chunks are committed, and those digests known, that an opening finds in what reads gave.
        ensures scanned { IfOk result (λ h. IsScanned descriptor.now (D.state disk.old) (entry h.book) h.store.committed) }
        ensures fault { IfErr result (IsOpenFault descriptor.now (D.state disk.old) (D.state disk.new)) }
        ensures opened { IsKnown (D.state disk.old)
            → OnOk result (IsOpened descriptor.now (D.state disk.old).history (D.state disk.new).history) }
        // Whatever it answers, a file that isn't empty is not written to, and synced once at the most.
        ensures unwritten { IsKnown (D.state disk.old) → 0 < length (D.state disk.old).history.reads
            → SyncsAtMost (D.state disk.old).history (D.state disk.new).history }
        // Where what reads gave was sound, what holds between calls does from now on.
        ensures kept { IsKnown (D.state disk.old) → IsSound descriptor.now (D.state disk.old).history.reads
            → IfOk result (λ h. IsKept (moment_of (D.state disk.new).history) (stock_of h (D.state disk.new))) }
        // A chunk that stood in every image is committed.
        ensures taken { IsKnown (D.state disk.old) → IfOk result (λ h. (i : ℕ)
            → Throughout (D.state disk.old).history (moment_of (D.state disk.old).history) (λ image. StandsIn descriptor.now image i)
            → is_committed h.store i ≡ true) }
        // Whatever it answers, images that were sound stay so, and what stood in every image goes on standing.
        ensures sound { IsKnown (D.state disk.old) → StaysSound descriptor.now (D.state disk.old).history (D.state disk.new).history }
        ensures goes_on { IsKnown (D.state disk.old) → GoesOn descriptor.now (D.state disk.old).history (D.state disk.new).history }
        ensures disk { KeepsDisk (D.state disk.old) (D.state disk.new) }
    {
        let Ok((mut book, queue)) = make_room(alloc, descriptor) else {
            return Err(ScanFault::Memory);
        };
        match Store::open(alloc, descriptor, disk, &mut book) {
            Ok(store) => Ok(Holding {
                store,
                book,
                queue,
                chunks: descriptor.chunks(),
            }),
            Err(fault) => Err(fault),
        }
    }

    /// Takes bytes that came as a chunk. The store judges them by its book and by what is claimed; where they are the
    /// chunk they are written, and the chunk is pending. With 64 chunks pending all are committed at once, and then
    /// each sender has a ticket. The sender of a chunk that is committed already has one among the repeats at once; for
    /// one that is pending nothing is done. After a fault the store isn't live, and the fault is answered without a
    /// call of the disk.
    pub fn put<D: Disk>(
        &mut self,
        parcel: &Parcel<'_>,
        claims: &Claims,
        disk: &mut D,
    ) -> Result<Put, DiskFault>
        requires { parcel.now.ticket.chunk < chunks_of self.old.store.descriptor }

        // The answer, which a refused call alone takes the place of.
        ensures answer { IfOk result (λ put. put ≡ answer_to self.old (latest claims.now) parcel.now.ticket.chunk parcel.now.bytes.now) }
        ensures refused { OnErr result (self.old.store.live ≡ true
            → answer_to self.old (latest claims.now) parcel.now.ticket.chunk parcel.now.bytes.now ≡ Put.Stored) }
        ensures hard { self.old.store.live ≡ true → HasCause (D.state disk.old).hard (D.state disk.new).hard result }
        ensures cause { self.old.store.live ≡ true → HasCause (D.state disk.old).faults (D.state disk.new).faults result }
        ensures dead { self.old.store.live ≡ false → IsErr result × (self.new ≡ self.old) × (D.state disk.new ≡ D.state disk.old) }

        // What is committed and pending afterwards, and who is to be acknowledged.
        ensures batch { IfOk result (λ put. batch_of self.new
            ≡ after_puts (stored_by put parcel.now.ticket.chunk) parcel.now.at (batch_of self.old)) }
        ensures queue { IfOk result (λ put. self.new.queue
            ≡ queue_after put (is_committed self.old.store parcel.now.ticket.chunk) parcel.now.ticket parcel.now.at self.old.queue) }
        ensures failed { OnErr result ((self.new.store.live ≡ false) × (self.new.store.committed ≡ self.old.store.committed)
            × (self.new.queue.tickets ≡ self.old.queue.tickets) × (self.new.queue.repeats ≡ self.old.queue.repeats)) }
        ensures live { OnOk result (self.new.store.live ≡ true) }
        ensures untouched { (result ≡ Ok Put.Stored → ⊥) → IsOk result
            → (self.new.store ≡ self.old.store) × (D.state disk.new ≡ D.state disk.old) }
        // A chunk that fits and wasn't held is held, unless the disk refused a call that wasn't a reading.
        ensures held { self.old.store.live ≡ true → FitsUnheld self.old (latest claims.now) parcel.now.ticket.chunk parcel.now.bytes.now
            → (is_held self.new.store parcel.now.ticket.chunk ≡ true) ⊎ HasRisen (D.state disk.old).hard (D.state disk.new).hard }
        ensures learned { self.old.store.live ≡ true → (k j : ℕ)
            → entry self.new.book k j ≡ learned_from self.old (latest claims.now) parcel.now.ticket.chunk parcel.now.bytes.now k j }
        ensures room { GrowsByOne self.old.queue self.new.queue }

        ensures descriptor { self.new.store.descriptor ≡ self.old.store.descriptor }
        ensures advances { Advances (stock_of self.old (D.state disk.old)) (stock_of self.new (D.state disk.new)) }
    {
        if !self.store.is_live() {
            return Err(DiskFault);
        }
        let put = self.store.put(
            parcel.ticket.chunk,
            parcel.bytes,
            claims,
            &mut self.book,
            disk,
        )?;
        heed(put, parcel, &mut self.store, &mut self.queue, disk)
    }
    // Whether what is pending is to be committed at the end of an event.
    fn is_due(&self, is_quiet: bool, now: u64) -> bool
        ensures { result ≡ is_due is_quiet now (batch_of self.now) }
    {
        is_quiet || self.left() == 0 || self.queue.is_late(now)
    }

    /// An event was read, at this moment in microseconds. All chunks that are pending are committed together where nothing came, or no
    /// chunk is left that is neither committed nor pending, or some chunk was put a tenth of a second ago or earlier; and then each
    /// sender has a ticket. With nothing pending, or in no such case, it makes no call of the disk. After a fault the store isn't live,
    /// and the fault is answered without a call of the disk.
    pub fn settle<D: Disk>(
        &mut self,
        is_quiet: bool,
        now: u64,
        disk: &mut D,
    ) -> Result<(), DiskFault>
        ensures idle { self.old.store.live ≡ true → is_due is_quiet now (batch_of self.old) ≡ false
            → (result ≡ Ok tt) × (self.new ≡ self.old) × (D.state disk.new ≡ D.state disk.old) }
        ensures nothing { self.old.store.live ≡ true → self.old.queue.waiting ≡ []
            → (result ≡ Ok tt) × (self.new ≡ self.old) × (D.state disk.new ≡ D.state disk.old) }
        ensures dead { self.old.store.live ≡ false → IsErr result × (self.new ≡ self.old) × (D.state disk.new ≡ D.state disk.old) }
        ensures hard { self.old.store.live ≡ true → HasCause (D.state disk.old).hard (D.state disk.new).hard result }
        ensures cause { self.old.store.live ≡ true → HasCause (D.state disk.old).faults (D.state disk.new).faults result }

        // What is committed and pending afterwards, and who is to be acknowledged.
        ensures batch { OnOk result (batch_of self.new ≡ after_read is_quiet now (batch_of self.old)) }
        ensures queue { OnOk result (self.new.queue ≡ queue_settled (is_due is_quiet now (batch_of self.old)) self.old.queue) }
        ensures failed { OnErr result (self.new ≡ record self.old { store = record self.old.store { live = false } }) }
        ensures live { OnOk result (self.new.store.live ≡ true) }
        ensures book { self.new.book ≡ self.old.book }

        ensures descriptor { self.new.store.descriptor ≡ self.old.store.descriptor }
        ensures advances { Advances (stock_of self.old (D.state disk.old)) (stock_of self.new (D.state disk.new)) }
    {
        if !self.store.is_live() {
            return Err(DiskFault);
        }
        let is_due = self.is_due(is_quiet, now);
        commit_if(is_due, &mut self.store, &mut self.queue, disk)
    }

    /// The tickets of chunks that were just committed, the oldest first: news for each channel, and whom to acknowledge. One datagram,
    /// after which they are taken, needs no more room than there is.
    pub fn tickets(&self) -> &[Ticket]
        ensures same { result.now ≡ self.now.queue.tickets }
        ensures committed { AreCommitted self.now.store result.now }
        ensures few { HasRoom self.now.queue }
    {
        self.queue.tickets()
    }

    /// The tickets of chunks that came again when they were committed already, the oldest first: whom to acknowledge, and no news.
    pub fn repeats(&self) -> &[Ticket]
        ensures same { result.now ≡ self.now.queue.repeats }
        ensures committed { AreCommitted self.now.store result.now }
        ensures few { HasRoom self.now.queue }
    {
        self.queue.repeats()
    }

    /// All tickets were taken, those of repeats too.
    pub fn forget_tickets(&mut self)
        ensures { self.new ≡ record self.old { queue = record self.old.queue { tickets = []; repeats = [] } } }
    {
        self.queue.forget_tickets();
    }

    /// The chunks that are on the disk for good.
    pub fn committed(&self) -> &ChunkSet
        ensures { result.now ≡ self.now.store.committed }
    {
        self.store.committed()
    }

    /// How many chunks the content has.
    pub fn chunks(&self) -> u32
        ensures { result ≡ chunks_of self.now.store.descriptor }
    {
        self.chunks
    }

    /// How many chunks are stored and not yet committed.
    pub fn pending(&self) -> u32
        ensures same { result ≡ length self.now.queue.waiting }
        ensures few { self.now.store.live ≡ true → result < most_pending }
    {
        self.store.pending()
    }

    /// How many chunks are neither committed nor pending.
    pub fn left(&self) -> u32
        ensures left { IsLeft self.now result }
        ensures none { (result == 0) ≡ is_all_in (batch_of self.now) }
    {
        self.chunks - self.store.committed().count() - self.store.pending()
    }

    /// Whether more may be stored: not after a fault.
    pub fn is_live(&self) -> bool
        ensures { result ≡ self.now.store.live }
    {
        self.store.is_live()
    }

    /// The store, to read from.
    pub fn store(&self) -> &Store
        ensures same { result.now ≡ self.now.store }
        ensures tied { AreTied self.now }
    {
        &self.store
    }

    /// The store's book.
    pub fn book(&self) -> &Book
        ensures same { result.now ≡ self.now.book }
        ensures tied { AreTied self.now }
    {
        &self.book
    }

    /// The book is given away, and the rest is dropped.
    pub fn into_book(self) -> Book
        ensures same { result ≡ self.book }
        ensures book { IsBookOf self.store.descriptor result }
    {
        self.book
    }
}
