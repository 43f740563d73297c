// A store that is open.
ghost use Rattle.std.specs.Prelude.{◌≡◌, ◌↔◌, ℕ, ◌^◌, ◌<◌, ◌≤◌, true, false, None, Some, Ok, Err, List, [], length, replicate, drop, count_by, is_some, slice_index_or, IsOk, OnOk, OnErr, IfOk, IfErr};
ghost use Rattle.std.specs.Result.{result_map_both};
ghost use Rattle.pp_terms.specs.Count.{HasCause, HasRisen};
ghost use Rattle.pp_terms.specs.tree.Content.{chunk_length};
ghost use Rattle.pp_terms.specs.tree.Book.{LookUp, IsRooted, IsBacked};
ghost use Rattle.pp_terms.specs.format.Descriptor.{chunks_of, IsDescriptor};
ghost use Rattle.pp_terms.specs.disk.Disk.{IsKnown, MayLeave, Throughout, moment_of};
ghost use Rattle.pp_terms.specs.disk.Image.{StandsIn};
ghost use Rattle.pp_terms.specs.tree.Proves.{first_absent};
ghost use Rattle.pp_tree.specs.Book.{entry, IsBookOf, HasRootAlone};
ghost use Rattle.pp_terms.specs.tree.Claims.{latest};
ghost use Rattle.pp_terms.specs.disk.Store.{HasHeader};
ghost use Rattle.pp_paths.specs.Judge.{KeepsEntries};
ghost use Rattle.pp_scan.specs.Look.{KeepsAll, SyncsAtMost, synced};
ghost use Rattle.pp_scan.specs.Layers.{HasOnlyKnown};
ghost use Rattle.pp_scan.specs.Holding.{is_there};
ghost use Rattle.pp_scan.specs.Scan.{HasFound};
ghost use Rattle.pp_store.specs.Keep.{KeepsDisk};
ghost use Rattle.pp_store.specs.Gates.{made_durable, IsRefusedCommit};
ghost use Rattle.pp_store.specs.Behind.{KeepsBehind, DoesBehind};
ghost use Rattle.pp_store.specs.ReadChunk.{HasRead};
ghost use Rattle.pp_store.specs.Answer.{put_answer, put_learned};
ghost use Rattle.pp_store.specs.Pairs.{HasItsPairs, HasMarked, GoesOnSince};
ghost use Rattle.pp_store.specs.Writes.{after_writes, put_writes};
ghost use Rattle.pp_terms.specs.disk.Sound.{IsSound};
ghost use Rattle.pp_store.specs.Sound.{IsGated, StaysGated, StaysSound};
ghost use Rattle.pp_store.specs.Store.{made, IsOpened, AllStand, GoesOn, in_either, is_committed, is_held, AgreesWith, HoldsAll, KnowsHeld, HasCommitted, after_put};

use crate::admitting::{Put, admit};
use crate::durable::make_file;
use crate::gates::make_durable;
use crate::pairing::{find_pairs, put_pieces};
use crate::reading::{ReadFault, read_chunk};
use pp_outside::{Disk, DiskFault};
use pp_paths::Claims;
use pp_scan::{ScanFault, scan_into};
use pp_tree::{Bits, Book, ChunkSet, Descriptor};
use std::alloc::Global;
use std::marker::Model;

// What an open file's set of held chunks is.
pub(crate) fn open_file<D: Disk>(
    descriptor: &Descriptor,
    disk: &mut D,
    book: &mut Book,
    set: ChunkSet,
) -> Result<ChunkSet, ScanFault>
    requires alone { HasRootAlone descriptor.now (entry book.old) }
    requires descriptor { book.old.descriptor ≡ Some descriptor.now }
    requires none { set ≡ replicate (chunks_of descriptor.now) false }
    requires valid { IsDescriptor descriptor.now }

    ensures found { HasFound ⊥ descriptor.now (D.state disk.old) (D.state disk.new) (entry book.new) result }
    ensures opened { IsKnown (D.state disk.old)
        → OnOk result (IsOpened descriptor.now (D.state disk.old).history (D.state disk.new).history) }
    ensures unwritten { IsKnown (D.state disk.old) → 0 < length (D.state disk.old).history.reads
        → SyncsAtMost (D.state disk.old).history (D.state disk.new).history }
    ensures sound { IsKnown (D.state disk.old) → StaysSound descriptor.now (D.state disk.old).history (D.state disk.new).history }
    ensures goes_on { IsKnown (D.state disk.old) → GoesOn descriptor.now (D.state disk.old).history (D.state disk.new).history }
    ensures disk { KeepsDisk (D.state disk.old) (D.state disk.new) }
    ensures book { IsBookOf descriptor.now book.new }
    ensures only { IsKnown (D.state disk.old) → HasOnlyKnown descriptor.now (D.state disk.old).history.reads (entry book.new) }
{
    match disk.len() {
        Ok(0) => begin(descriptor, disk, set),
        Ok(_) => scan_into(descriptor, disk, book, set),
        Err(_) => Err(ScanFault::Disk),
    }
}

// An empty file becomes a store that holds no chunk.
fn begin<D: Disk>(
    descriptor: &Descriptor,
    disk: &mut D,
    set: ChunkSet,
) -> Result<ChunkSet, ScanFault>
    ensures same { IfOk result (λ committed. committed ≡ set) }
    ensures fault { IfErr result (λ fault. (fault ≡ ScanFault.Disk) × HasRisen (D.state disk.old).faults (D.state disk.new).faults) }
    ensures written { IsKnown (D.state disk.old)
        → OnOk result ((D.state disk.new).history ≡ made descriptor.now (D.state disk.old).history) }
    ensures sound { IsDescriptor descriptor.now → IsKnown (D.state disk.old) → (D.state disk.old).history.reads ≡ []
        → StaysSound descriptor.now (D.state disk.old).history (D.state disk.new).history }
    ensures disk { KeepsDisk (D.state disk.old) (D.state disk.new) }
{
    match make_file(descriptor, disk) {
        Ok(()) => Ok(set),
        Err(_) => Err(ScanFault::Disk),
    }
}

// Moves each chunk of the second set to the first.
fn commit_all(committed: &mut ChunkSet, pending: &mut ChunkSet)
    requires same { length pending.old ≡ length committed.old }
    requires few { length pending.old ≤ 2 ^ 20 }
    ensures size { length committed.new ≡ length committed.old }
    ensures none { pending.new ≡ replicate (length committed.old) false }
    ensures each { (i : ℕ) → slice_index_or committed.new i false ≡ in_either committed.old pending.old i }
{
    let mut from = 0;
    while let Some(i) = pending.first_from(from) {
        committed.insert(i);
        pending.remove(i);
        from = i + 1;
    }
}

/// A store that is open: which chunks of the content it holds. Its book is the one that it was opened with.
#[derive(Drop)]
pub struct Store {
    descriptor: Descriptor,
    committed: ChunkSet,
    pending: ChunkSet,
    // by their slots, the pairs of digests that are stored
    pairs: Bits,
    live: bool,
}

impl Model for Store {
    ghost use Rattle.pp_store.specs.Store.{StoreState};

    ghost Value = { StoreState };

    ghost view = { λ s. record { descriptor = s.descriptor; committed = s.committed; pending = s.pending; pairs = s.pairs; live = s.live } };

    ghost use Rattle.pp_store.specs.Store.{IsSized};

    ghost invariant = { λ s. IsSized s.descriptor s.committed s.pending s.pairs };
}

impl Store {
    /// Opens the descriptor's store on the disk. The book is prepared and has the root alone; afterwards it has the nodes
    /// that the file lets be known. All memory is taken first. An empty file is made a store that holds no chunk; any other
    /// is scanned.
    pub fn open<D: Disk>(
        alloc: Global,
        descriptor: &Descriptor,
        disk: &mut D,
        book: &mut Book,
    ) -> Result<Store, ScanFault>
        requires alone { HasRootAlone descriptor.now (entry book.old) }
        requires descriptor { book.old.descriptor ≡ Some descriptor.now }

        // The book has leaf and peaks of each held chunk; the pairs that it has the digests of are stored.
        ensures knows { IfOk result (λ s. KnowsHeld s (entry book.new)) }
        ensures marked { IfOk result (λ s. HasMarked descriptor.now (entry book.new) s.pairs) }
        ensures begun { IfOk result (λ s. (s.descriptor ≡ descriptor.now) × (s.live ≡ true) × (s.pending ≡ replicate (chunks_of descriptor.now) false)) }
        ensures found { HasFound ((D.state disk.new ≡ D.state disk.old) × (book.new ≡ book.old)) descriptor.now
            (D.state disk.old) (D.state disk.new) (entry book.new) (result_map_both (λ s. s.committed) (λ fault. fault) result) }
        ensures opened { IsKnown (D.state disk.old)
            → OnOk result (IsOpened descriptor.now (D.state disk.old).history (D.state disk.new).history) }
        // Whatever it answers, a file that isn't empty is not written to, and synced once at the most.
        ensures unwritten { IsKnown (D.state disk.old) → 0 < length (D.state disk.old).history.reads
            → SyncsAtMost (D.state disk.old).history (D.state disk.new).history }
        // Each image begins with the header, and each committed chunk stands in it where what reads gave is sound.
        ensures begins { IsKnown (D.state disk.old)
            → OnOk result (Throughout (D.state disk.new).history (moment_of (D.state disk.new).history) (HasHeader descriptor.now)) }
        ensures stands { IsKnown (D.state disk.old) → IsSound descriptor.now (D.state disk.old).history.reads
            → IfOk result (λ s. AllStand descriptor.now s.committed (D.state disk.new).history) }
        // What reads give is the one image, and agrees with the store where it was sound.
        ensures one { IsKnown (D.state disk.old) → OnOk result ((image : List ℕ)
            → MayLeave (D.state disk.new).history image → image ≡ (D.state disk.new).history.reads) }
        ensures agrees { IsKnown (D.state disk.old) → IsSound descriptor.now (D.state disk.old).history.reads
            → IfOk result (λ s. AgreesWith s (entry book.new) (D.state disk.new).history.reads) }
        // Where what reads gave is sound, each image is, and no gate but a committed chunk's is open.
        ensures gated { IsKnown (D.state disk.old) → IsSound descriptor.now (D.state disk.old).history.reads → IfOk result (λ s.
            Throughout (D.state disk.new).history (moment_of (D.state disk.new).history) (IsGated descriptor.now (is_committed s))) }
        // A chunk that stood in every image is committed.
        ensures taken { IsKnown (D.state disk.old) → IfOk result (λ s. (i : ℕ)
            → Throughout (D.state disk.old).history (moment_of (D.state disk.old).history) (λ image. StandsIn descriptor.now image i)
            → slice_index_or s.committed i false ≡ true) }
        // Whatever it answers, images that were sound stay so, and what stood in every image goes on standing.
        ensures sound { IsKnown (D.state disk.old) → StaysSound descriptor.now (D.state disk.old).history (D.state disk.new).history }
        ensures goes_on { IsKnown (D.state disk.old) → GoesOn descriptor.now (D.state disk.old).history (D.state disk.new).history }

        ensures disk { KeepsDisk (D.state disk.old) (D.state disk.new) }
        ensures book { IsBookOf descriptor.now book.new }
        ensures only { IsKnown (D.state disk.old) → HasOnlyKnown descriptor.now (D.state disk.old).history.reads (entry book.new) }
    {
        let pending = match ChunkSet::none(alloc, descriptor.chunks()) {
            Ok(set) => set,
            Err(_) => return Err(ScanFault::Memory),
        };
        let none = match ChunkSet::none(alloc, descriptor.chunks()) {
            Ok(set) => set,
            Err(_) => return Err(ScanFault::Memory),
        };
        let mut pairs = match Bits::new(alloc, 2 * descriptor.chunks() as usize) {
            Ok(bits) => bits,
            Err(_) => return Err(ScanFault::Memory),
        };
        match open_file(descriptor, disk, book, none) {
            Ok(committed) => {
                find_pairs(descriptor, book, &mut pairs);
                Ok(Store {
                    descriptor: *descriptor,
                    committed,
                    pending,
                    pairs,
                    live: true,
                })
            }
            Err(fault) => Err(fault),
        }
    }

    /// Takes bytes that came as chunk `i`. They are judged by the book and by what is claimed; where they are the chunk they
    /// are written, and then the pairs of digests that the chunk needs and that aren't stored, one write each. They are
    /// pending until `commit`. The book is the one that `open` was given, which only the store's calls have changed.
    pub fn put<D: Disk>(
        &mut self,
        i: u32,
        chunk: &[u8],
        claims: &Claims,
        book: &mut Book,
        disk: &mut D,
    ) -> Result<Put, DiskFault>
        requires live { self.old.live ≡ true }
        requires within { i < chunks_of self.old.descriptor }
        requires rooted { IsRooted self.old.descriptor (entry book.old) }

        // The answer, which a refused write alone takes the place of.
        ensures answer { IfOk result (λ put. put ≡ put_answer (is_held self.old i) self.old.descriptor (entry book.old) (latest claims.now) i chunk.now) }
        ensures refused { OnErr result (put_answer (is_held self.old i) self.old.descriptor (entry book.old) (latest claims.now) i chunk.now ≡ Put.Stored) }
        ensures hard { HasCause (D.state disk.old).hard (D.state disk.new).hard result }
        ensures cause { HasCause (D.state disk.old).faults (D.state disk.new).faults result }

        // What becomes of the store, the disk and the book.
        ensures store { IfOk result (λ put. self.new ≡ after_put put i self.old) }
        ensures dead { OnErr result (self.new ≡ record self.old { pairs = self.new.pairs; live = false }) }
        ensures descriptor { self.new.descriptor ≡ self.old.descriptor }
        ensures untouched { (result ≡ Ok Put.Stored → ⊥) → IsOk result → (self.new ≡ self.old) × (D.state disk.new ≡ D.state disk.old) }
        ensures learned { (k j : ℕ) → entry book.new k j ≡ put_learned (is_held self.old i) self.old.descriptor (entry book.old) (latest claims.now) i chunk.now k j }
        ensures backed { result ≡ Ok Put.Stored → IsBacked self.old.descriptor (entry book.new) i chunk.now }
        ensures kept { KeepsEntries (entry book.old) (entry book.new) }
        ensures rooted { IsRooted self.old.descriptor (entry book.new) }
        ensures book { book.new.descriptor ≡ book.old.descriptor }
        ensures knows { KnowsHeld self.old (entry book.old) → KnowsHeld self.new (entry book.new) }

        // Over a disk that is honest and tells a chunk that is stored is written, and each pair that it needs and that wasn't
        // stored, once each.
        ensures wrote { IsKnown (D.state disk.old) → result ≡ Ok Put.Stored → (D.state disk.new).history
            ≡ after_writes (D.state disk.old).history (put_writes self.old.descriptor self.old.pairs (entry book.new) i chunk.now) }
        // Over such a disk, refused or not: nothing is synced, and each committed chunk goes on standing.
        ensures behind { KeepsBehind (D.state disk.old) (D.state disk.new) }
        ensures goes_on { IsKnown (D.state disk.old) → (l : ℕ) → slice_index_or self.old.committed l false ≡ true
            → GoesOnSince self.old.descriptor l (D.state disk.old).history (D.state disk.new).history }
        // Images stay sound, and no gate but a committed chunk's is open.
        ensures gated { IsKnown (D.state disk.old) → StaysGated self.old.descriptor (is_committed self.old) (is_committed self.old)
            (D.state disk.old).history (D.state disk.new).history }
        ensures agrees { IsKnown (D.state disk.old) → AgreesWith self.old (entry book.old) (D.state disk.old).history.reads
            → AgreesWith self.new (entry book.new) (D.state disk.new).history.reads }
        ensures holds { IsKnown (D.state disk.old) → AgreesWith self.old (entry book.old) (D.state disk.old).history.reads
            → HoldsAll self.new (D.state disk.new).history.reads }
    {
        if self.has(i) {
            return Ok(Put::Held);
        }
        match admit(&self.descriptor, i, chunk, claims, book) {
            Put::Stored => self.write(i, chunk, book, disk),
            other => Ok(other),
        }
    }

    /// Makes all chunks that are pending durable and commits them: the disk is synced, then their gates are opened by rising
    /// number, and these are synced. With nothing pending it makes no call of the disk.
    pub fn commit<D: Disk>(&mut self, disk: &mut D) -> Result<(), DiskFault>
        requires live { self.old.live ≡ true }

        ensures nothing { count_by (λ b. b) self.old.pending ≡ 0
            → (result ≡ Ok tt) × (self.new ≡ self.old) × (D.state disk.new ≡ D.state disk.old) }
        ensures committed { OnOk result (HasCommitted self.old self.new) }
        ensures dead { OnErr result (self.new ≡ record self.old { live = false }) }
        ensures descriptor { self.new.descriptor ≡ self.old.descriptor }
        ensures knows { (book : LookUp) → KnowsHeld self.old book → KnowsHeld self.new book }
        ensures hard { HasCause (D.state disk.old).hard (D.state disk.new).hard result }
        ensures cause { HasCause (D.state disk.old).faults (D.state disk.new).faults result }

        // Over a disk that is honest and tells: exactly those calls, the last of which may be refused, and each chunk that isn't
        // pending goes on standing.
        ensures durable { IsKnown (D.state disk.old) → 0 < count_by (λ b. b) self.old.pending
            → OnOk result ((D.state disk.new).history ≡ made_durable self.old.descriptor self.old.pending (D.state disk.old).history) }
        ensures refused { IsKnown (D.state disk.old) → OnErr result (IsRefusedCommit self.old.descriptor self.old.pending
            (D.state disk.old).history (D.state disk.new).history) }
        ensures disk { KeepsDisk (D.state disk.old) (D.state disk.new) }
        ensures goes_on { IsKnown (D.state disk.old) → (l : ℕ) → slice_index_or self.old.pending l false ≡ false
            → GoesOnSince self.old.descriptor l (D.state disk.old).history (D.state disk.new).history }
        ensures agrees { IsKnown (D.state disk.old) → (book : LookUp) → IsRooted self.old.descriptor book
            → AgreesWith self.old book (D.state disk.old).history.reads → AgreesWith self.new book (D.state disk.new).history.reads }
        // Images stay sound, and no gate is open but that of a chunk that was committed or pending.
        ensures gated { IsKnown (D.state disk.old) → HoldsAll self.old (D.state disk.old).history.reads
            → StaysGated self.old.descriptor (is_committed self.old) (is_held self.old) (D.state disk.old).history (D.state disk.new).history }
        // Each chunk that was pending now stands in every image.
        ensures stands { IsKnown (D.state disk.old) → HoldsAll self.old (D.state disk.old).history.reads
            → AllStand self.old.descriptor self.old.committed (D.state disk.old).history
            → OnOk result (AllStand self.old.descriptor self.new.committed (D.state disk.new).history) }
    {
        if self.pending.count() == 0 {
            return Ok(());
        }
        // Its contract tells how many chunks there are at the most.
        let _ = self.descriptor.chunks();
        match make_durable(&self.descriptor, &self.pending, disk) {
            Ok(()) => {
                commit_all(&mut self.committed, &mut self.pending);
                Ok(())
            }
            Err(fault) => {
                self.live = false; // What was written may be lost.
                Err(fault)
            }
        }
    }

    // Writes a chunk that the book has, with the pairs that it needs. Refused, it leaves the store dead.
    fn write<D: Disk>(
        &mut self,
        i: u32,
        chunk: &[u8],
        book: &Book,
        disk: &mut D,
    ) -> Result<Put, DiskFault>
        requires backed { IsBacked self.old.descriptor (entry book.now) i chunk.now }
        requires peaks { first_absent (entry book.now) (chunks_of self.old.descriptor) ≡ None }
        requires absent { is_held self.old i ≡ false }

        ensures stored { IfOk result (λ put. put ≡ Put.Stored) }
        ensures store { OnOk result (self.new ≡ after_put Put.Stored i self.old) }
        ensures wrote { IsKnown (D.state disk.old) → OnOk result ((D.state disk.new).history
            ≡ after_writes (D.state disk.old).history (put_writes self.old.descriptor self.old.pairs (entry book.now) i chunk.now)) }
        ensures dead { OnErr result (self.new ≡ record self.old { pairs = self.new.pairs; live = false }) }
        ensures knows { KnowsHeld self.old (entry book.now) → KnowsHeld self.new (entry book.now) }
        ensures does { DoesBehind (D.state disk.old) result (D.state disk.new) }
        ensures goes_on { IsKnown (D.state disk.old) → (l : ℕ) → slice_index_or self.old.committed l false ≡ true
            → GoesOnSince self.old.descriptor l (D.state disk.old).history (D.state disk.new).history }
        ensures gated { IsKnown (D.state disk.old) → StaysGated self.old.descriptor (is_committed self.old) (is_committed self.old)
            (D.state disk.old).history (D.state disk.new).history }
        ensures agrees { IsKnown (D.state disk.old) → AgreesWith self.old (entry book.now) (D.state disk.old).history.reads
            → AgreesWith self.new (entry book.now) (D.state disk.new).history.reads }
        ensures descriptor { self.new.descriptor ≡ self.old.descriptor }
        ensures valid { IsDescriptor self.new.descriptor }
        ensures supported { (l : ℕ) → is_held self.new l ≡ true → HasItsPairs self.new.descriptor self.new.pairs l }
        ensures sized { (l : ℕ) → is_held self.new l ≡ true → l < chunks_of self.new.descriptor }
    {
        match put_pieces(&self.descriptor, i, chunk, book, &mut self.pairs, disk) {
            Ok(()) => {
                self.pending.insert(i);
                Ok(Put::Stored)
            }
            Err(fault) => {
                self.live = false;
                Err(fault)
            }
        }
    }

    // whether a chunk is committed or pending
    fn has(&self, i: u32) -> bool
        requires { i < chunks_of self.now.descriptor }
        ensures held { result ≡ is_held self.now i }
        ensures supported { (l : ℕ) → is_held self.now l ≡ true → HasItsPairs self.now.descriptor self.now.pairs l }
        ensures sized { (l : ℕ) → is_held self.now l ≡ true → l < chunks_of self.now.descriptor }
        ensures valid { IsDescriptor self.now.descriptor }
    {
        // Its contract tells that the descriptor is one of a swarm's.
        let _ = self.descriptor.chunks();
        self.committed.contains(i) || self.pending.contains(i)
    }

    /// Reads a committed chunk to the front of `out`, which has room for it, and answers its length in bytes. Absent comes
    /// exactly where the chunk isn't committed, and Damaged exactly where what was read has another digest than the book's.
    /// The book is the one that `open` was given, which only the store's calls have changed.
    pub fn read<D: Disk>(
        &self,
        i: u32,
        out: &mut [u8],
        book: &Book,
        disk: &mut D,
    ) -> Result<usize, ReadFault>
        requires within { i < chunks_of self.now.descriptor }
        requires room { chunk_length self.now.descriptor.size self.now.descriptor.chunk i ≤ length out.old }
        requires leaf { slice_index_or self.now.committed i false ≡ true → is_some (entry book.now 0 i) ≡ true }

        ensures absent { (result ≡ Err ReadFault.Absent) ↔ (slice_index_or self.now.committed i false ≡ false) }
        ensures read { HasRead ((D.state disk.new ≡ D.state disk.old) × (out.new ≡ out.old)) self.now.descriptor i
            (entry book.now) (D.state disk.old) (D.state disk.new) out.new result }
        ensures sound { IsKnown (D.state disk.old) → is_there self.now.descriptor (D.state disk.old).history.reads (entry book.now) i ≡ true
            → (found kept : List ℕ) → result ≡ Err (ReadFault.Damaged found kept) → ⊥ }
        ensures rest { drop (chunk_length self.now.descriptor.size self.now.descriptor.chunk i) out.new
            ≡ drop (chunk_length self.now.descriptor.size self.now.descriptor.chunk i) out.old }
        ensures looks { KeepsAll (D.state disk.old) (D.state disk.new) }
        ensures hard { (D.state disk.new).hard ≡ (D.state disk.old).hard }
    {
        if !self.committed.contains(i) {
            return Err(ReadFault::Absent);
        }
        read_chunk(&self.descriptor, i, out, book, disk)
    }

    /// The chunks that are on the disk for good.
    pub fn committed(&self) -> &ChunkSet
        ensures { result.now ≡ self.now.committed }
    {
        &self.committed
    }

    /// How many chunks are written and not yet committed.
    pub fn pending(&self) -> u32
        ensures { result ≡ count_by (λ b. b) self.now.pending }
    {
        self.pending.count()
    }

    /// Whether it may be written to. After a refused write it may not, and is opened again.
    pub fn is_live(&self) -> bool
        ensures { result ≡ self.now.live }
    {
        self.live
    }
}
