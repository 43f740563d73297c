//! A peer of one swarm.

ghost use Rattle.std.specs.Prelude.{◌≡◌, ◌↔◌, Err, ◌<◌, ◌≤◌, [], ◌∷◌, ℕ, Bool, List, length, true, false, IfOk, IfErr, OnOk, OnErr, is_some, position};
ghost use Rattle.pp_terms.specs.Count.{HasCause};
ghost use Rattle.pp_terms.specs.disk.Disk.{IsKnown, Throughout, moment_of};
ghost use Rattle.pp_terms.specs.disk.Image.{StandsIn};
ghost use Rattle.pp_terms.specs.disk.Sound.{IsSound};
ghost use Rattle.pp_terms.specs.format.Traffic.{Record};
ghost use Rattle.pp_tree.specs.Book.{entry, IsBookOf};
ghost use Rattle.pp_outside.specs.Arrivals.{IsEvent};
ghost use Rattle.pp_outside.specs.Outside.{record_of};
ghost use Rattle.pp_scan.specs.Look.{KeepsAll, SyncsAtMost};
ghost use Rattle.pp_scan.specs.Scan.{IsScanned};
ghost use Rattle.pp_terms.specs.tree.Content.{chunk_length};
ghost use Rattle.pp_store.specs.Keep.{KeepsDisk};
ghost use Rattle.pp_store.specs.ReadChunk.{HasRead};
ghost use Rattle.pp_store.specs.Sound.{StaysSound};
ghost use Rattle.pp_store.specs.Store.{is_committed, is_held, HoldsAll, IsOpened, GoesOn};
ghost use Rattle.pp_terms.specs.format.Descriptor.{chunks_of};
ghost use Rattle.pp_holding.specs.Holding.{stock_of, AreTied};
ghost use Rattle.pp_holding.specs.Opening.{IsOpenFault};
ghost use Rattle.pp_holding.specs.Stock.{IsKept};
ghost use Rattle.pp_peer.specs.Absorbing.{with_event, Advanced, InTime, is_quiet};
ghost use Rattle.pp_peer.specs.Events.{Absorbs};
ghost use Rattle.pp_paths.specs.Judge.{KeepsEntries};
ghost use Rattle.pp_complete.specs.Shipped.{StoresShipped};
ghost use Rattle.pp_terms.specs.tree.Book.{LookUp};
ghost use Rattle.pp_peer.specs.Standing.{Beginning, Ledger, StandsFor};
ghost use Rattle.pp_channels.specs.Seats.{is_found};
ghost use Rattle.pp_core.specs.Asking.{Asks};
ghost use Rattle.pp_core.specs.Having.{HasHeld};
ghost use Rattle.pp_core.specs.Keeping.{IsKeeping};
ghost use Rattle.pp_core.specs.Leaving.{LeavesNone};
ghost use Rattle.pp_core.specs.Listing.{ListsRequests};
ghost use Rattle.pp_core.specs.Offering.{KeepsOffers};
ghost use Rattle.pp_core.specs.Opening.{HasBegun, beginning};
ghost use Rattle.pp_core.specs.Promising.{Promises};
ghost use Rattle.pp_core.specs.Reaching.{Reaches};
ghost use Rattle.pp_core.specs.Remembering.{KeepsWrote, StaysUnchoked, KeepsTold, HasNoTicket, KeepsAcks, HasNoRepeat};
ghost use Rattle.pp_core.specs.Slots.{KeepsSlots};
ghost use Rattle.pp_core.specs.Storing.{StoresWhatFits, StoresIn, CommitsTold};
ghost use Rattle.pp_core.specs.Telling.{Acknowledges, Announces, Greets, Cancels, Exchanges, TakesTurns};
ghost use Rattle.pp_core.specs.Turning.{after_refusal, limited, with_limit, scene, Sends, Closes};

use crate::opening::{Room, begin};
use arrayvec::ArrayVec;
use pp_avail::Rank;
use pp_counts::{Counts, Note};
use pp_fetching::Fetching;
use pp_holding::Holding;
use pp_outside::{Address, Disk, DiskFault, Event, Link};
use pp_peer::{Dials, Parts, Speaker};
use pp_scan::ScanFault;
use pp_store::ReadFault;
use pp_tree::{Book, ChunkSet, Descriptor};
use std::alloc::Global;
use std::marker::Model;

/// A peer of one swarm: it serves what it holds to up to 64 others, and may fetch what it lacks.
#[derive(Drop)]
pub struct Peer {
    pub(crate) parts: Parts,
    pub(crate) speaker: Speaker,
    pub(crate) dials: Dials,
}

impl Model for Peer {
    ghost use Rattle.pp_core.specs.Peers.{PeerState};
    ghost use Rattle.pp_peer.specs.Standing.{IsWhole};

    ghost Value = { PeerState };

    ghost view = { λ p. record { parts = p.parts; speaker = p.speaker; dials = p.dials } };

    ghost invariant = { λ p. IsWhole p.parts };
}

// Chunks below this number alone are asked for from now on.
fn want_below(fetching: &mut Option<Fetching>, limit: u32)
    ensures { fetching.new ≡ limited limit fetching.old }
{
    match fetching {
        Some(fetching) => fetching.want_below(limit),
        None => {}
    }
}

impl Peer {
    /// Opens the descriptor's store on the disk, for a peer without a channel. All memory that is ever needed is taken first; an empty
    /// file becomes a store that holds no chunk, any other is synced and scanned. With an order the peer asks for the chunks that it
    /// lacks, and dials these addresses; channel numbers are drawn from `random`, 32 bytes that nobody can guess.
    pub fn open<D: Disk>(
        alloc: Global,
        descriptor: &Descriptor,
        random: [u8; 32],
        asks: Option<Rank>,
        dial: &ArrayVec<Address, 16>,
        disk: &mut D,
    ) -> Result<Peer, ScanFault>
        ensures begun { IfOk result (HasBegun descriptor.now random asks dial.now.items) }
        ensures stands { IfOk result (λ p. StandsFor (beginning p (moment_of (D.state disk.new).history)) 0 p.parts []) }
        // Exactly those chunks are committed, and those digests known, that an opening finds in what reads gave.
        ensures scanned { IfOk result (λ p. IsScanned descriptor.now (D.state disk.old) (entry p.parts.holding.book) p.parts.holding.store.committed) }
        ensures fault { IfErr result (IsOpenFault descriptor.now (D.state disk.old) (D.state disk.new)) }
        ensures opened { IsKnown (D.state disk.old)
            → OnOk result (IsOpened descriptor.now (D.state disk.old).history (D.state disk.new).history) }
        // Whatever it answers, a file that isn't empty is not written to, and synced once at the most.
        ensures unwritten { IsKnown (D.state disk.old) → 0 < length (D.state disk.old).history.reads
            → SyncsAtMost (D.state disk.old).history (D.state disk.new).history }
        // Where what reads gave was sound, the peer keeps its disk from now on.
        ensures kept { IsKnown (D.state disk.old) → IsSound descriptor.now (D.state disk.old).history.reads
            → IfOk result (λ p. IsKeeping (moment_of (D.state disk.new).history) p (D.state disk.new) []) }
        // A chunk that stood in every image is committed.
        ensures taken { IsKnown (D.state disk.old) → IfOk result (λ p. (i : ℕ)
            → Throughout (D.state disk.old).history (moment_of (D.state disk.old).history) (λ image. StandsIn descriptor.now image i)
            → is_committed p.parts.holding.store i ≡ true) }
        // Whatever it answers, images that were sound stay so, and what stood in every image goes on standing.
        ensures sound { IsKnown (D.state disk.old) → StaysSound descriptor.now (D.state disk.old).history (D.state disk.new).history }
        ensures goes_on { IsKnown (D.state disk.old) → GoesOn descriptor.now (D.state disk.old).history (D.state disk.new).history }
        ensures disk { KeepsDisk (D.state disk.old) (D.state disk.new) }
        // What a peer that fetches has is what it holds.
        ensures had { IfOk result (λ p. HasHeld p.parts) }
    {
        let Ok(room) = Room::new(alloc, descriptor, random, asks, dial) else {
            return Err(ScanFault::Memory);
        };
        let holding = Holding::open(alloc, descriptor, disk)?;
        // Its contract tells of how many chunks it is.
        let _ = holding.store();
        Ok(begin(room, holding))
    }

    /// Takes one event: `bytes` are the datagram, empty for a quiet wait. Its messages are heard, chunks that fit are stored and
    /// committed in groups of up to 64. Nothing is sent. After a fault of the disk the peer isn't live.
    pub fn absorb<D: Disk>(
        &mut self,
        event: &Event,
        bytes: &[u8],
        disk: &mut D,
    ) -> Result<(), DiskFault>
        requires { IsEvent event.now bytes.now }
        ensures exact { OnOk result (Absorbs event.now bytes.now self.old.parts self.new.parts) }
        // A chunk that comes on a proven channel, and by the book and the channel's claims fits, is held. What a channel with a slot asks
        // for is on its list, unless it is cancelled, or finds no room, or the channel is closed.
        ensures stores { OnOk result (StoresWhatFits event.now bytes.now self.old.parts self.new.parts) }
        ensures lists { OnOk result (ListsRequests event.now bytes.now self.old.parts self.new.parts) }
        ensures rest { self.new ≡ record self.old { parts = self.new.parts } }
        ensures advanced { Advanced (with_event event.now bytes.now self.old.parts.counts)
            self.old.parts self.new.parts (D.state disk.old) (D.state disk.new) }
        ensures in_time { self.old.parts.holding.store.live ≡ true
            → OnOk result (InTime (is_quiet event.now) self.old.parts self.new.parts) }
        // Whatever it answers, what went stays accounted for, and what was announced stays on the disk; where it answers Ok, the peer
        // stands for what came.
        ensures ledger { (b : Beginning) (past : List Record) → Ledger b self.old.parts past
            → Ledger b self.new.parts (record_of event.now bytes.now ∷ past) }
        ensures keeps { (since : ℕ) (past : List Record) → IsKeeping since self.old (D.state disk.old) past
            → IsKeeping since self.new (D.state disk.new) (record_of event.now bytes.now ∷ past) }
        // Each chunk that is held, committed or not, is in what the disk reads.
        ensures reads { (since : ℕ) (past : List Record) → IsKeeping since self.old (D.state disk.old) past
            → OnOk result (HoldsAll self.new.parts.holding.store (D.state disk.new).history.reads) }
        ensures stands { OnOk result ((b : Beginning) (most : ℕ) (past : List Record) → StandsFor b most self.old.parts past
            → StandsFor b most self.new.parts (record_of event.now bytes.now ∷ past)) }
        ensures cause { self.old.parts.holding.store.live ≡ true
            → HasCause (D.state disk.old).hard (D.state disk.new).hard result }
        ensures live { self.old.parts.holding.store.live ≡ true → OnOk result (self.new.parts.holding.store.live ≡ true) }
        ensures dead { OnErr result (self.new.parts.holding.store.live ≡ false) }
        // What a peer that fetches has goes on being what it holds.
        ensures had { OnOk result (HasHeld self.old.parts → HasHeld self.new.parts) }
        // Of each channel it stays known when a datagram last went there.
        ensures wrote { OnOk result ((b : Beginning) (most : ℕ) (past : List Record) → StandsFor b most self.old.parts past
            → KeepsWrote b.d self.old.parts past → KeepsWrote b.d self.new.parts (record_of event.now bytes.now ∷ past)) }
        // While at most eight datagrams opened a channel each has its slot, and no CHOKE went; and what was told stays known.
        ensures unchoked { OnOk result ((b : Beginning) (most : ℕ) (past : List Record) → StandsFor b most self.old.parts past
            → StaysUnchoked b.d self.old.parts past → StaysUnchoked b.d self.new.parts (record_of event.now bytes.now ∷ past)) }
        ensures told { OnOk result ((b : Beginning) (most : ℕ) (past : List Record) → StandsFor b most self.old.parts past
            → HasNoTicket self.old.parts → KeepsTold b.d self.old.parts past → KeepsTold b.d self.new.parts (record_of event.now bytes.now ∷ past)) }
        // What is to be acknowledged stays known, of any book that keeps the entries of this one.
        ensures acks { OnOk result ((b : Beginning) (most : ℕ) (past : List Record) → StandsFor b most self.old.parts past
            → HasNoTicket self.old.parts → HasNoRepeat self.old.parts → KeepsTold b.d self.old.parts past
            → (book : LookUp) → KeepsEntries (entry self.new.parts.holding.book) book → KeepsAcks b.d book self.old.parts past
            → KeepsAcks b.d book self.new.parts (record_of event.now bytes.now ∷ past)) }
        // A fetch goes on asking for all that it lacks, and what others offer stays noted.
        ensures offers { OnOk result ((b : Beginning) (most : ℕ) (past : List Record) → StandsFor b most self.old.parts past
            → KeepsOffers b.d self.old.parts past → KeepsOffers b.d self.new.parts (record_of event.now bytes.now ∷ past)) }
        // What came on a plain channel and is proved by what its peer claims is held, or the book contradicts it.
        ensures proves { OnOk result ((b : Beginning) (most : ℕ) (past : List Record) → StandsFor b most self.old.parts past
            → StoresIn b.d (entry self.new.parts.holding.book) self.new.parts.holding.store past (record_of event.now bytes.now)) }
        // What comes on a plain channel is held, where the hashes with it complete the path for what this peer had or announced, or a book is
        // at fault.
        ensures ships { OnOk result ((b : Beginning) (most : ℕ) (past : List Record) → StandsFor b most self.old.parts past
            → self.old.parts.holding.store.live ≡ true → (had : ℕ → Bool) → CommitsTold b.d had past self.old.parts.holding.store
            → StoresShipped b.d had (entry self.new.parts.holding.book) (is_held self.new.parts.holding.store) past
            (record_of event.now bytes.now)) }
    {
        // Their contracts tell of the swarm, of how many chunks a seat is, and that the book is the store's.
        let _ = self.descriptor().chunk();
        let _ = self.parts.seats.far(0);
        let _ = self.parts.holding.store();
        self.parts.absorb(event, bytes, disk)
    }

    /// Counts a wait that the link refused.
    pub fn refused(&mut self)
        ensures exact { self.new ≡ after_refusal self.old }
        ensures stands { (b : Beginning) (most : ℕ) (past : List Record) → StandsFor b most self.old.parts past
            → StandsFor b most self.new.parts past }
        ensures had { HasHeld self.old.parts → HasHeld self.new.parts }
    {
        self.parts.counts.note(Note::Turn);
        self.parts.counts.note(Note::ReceiveFault);
    }

    /// Sends what is due, at most 512 chunks on a channel. What the link or the disk refuses is counted.
    pub fn flush<D: Disk, L: Link>(&mut self, disk: &mut D, link: &mut L)
        // What goes, step by step; and what that leaves, in the words of what a peer promises of its turns.
        ensures exact { (refused : ℕ)
            × (course : Sends refused self.old self.new (L.seen link.old) (L.seen link.new) (D.state disk.old) (D.state disk.new))
            × Promises refused self.old self.new (L.seen link.old) (L.seen link.new) (D.state disk.old) (D.state disk.new) course.flushes.added }
        // On each channel whose time isn't over what came is acknowledged, what was committed told of, what isn't awaited any more cancelled;
        // handshakes, CHOKEs and UNCHOKEs that are due go, and addresses are exchanged; unless the link refused a datagram.
        ensures acknowledged { Acknowledges (scene self.old.parts (L.seen link.old) (D.state disk.old)) (L.seen link.new) }
        ensures announced { Announces (scene self.old.parts (L.seen link.old) (D.state disk.old)) (L.seen link.new) }
        ensures greeted { Greets (scene self.old.parts (L.seen link.old) (D.state disk.old)) (L.seen link.new) }
        ensures cancelled { Cancels (scene self.old.parts (L.seen link.old) (D.state disk.old)) (L.seen link.new) }
        ensures exchanged { Exchanges (scene self.old.parts (L.seen link.old) (D.state disk.old)) (L.seen link.new) }
        ensures turned { TakesTurns (scene self.old.parts (L.seen link.old) (D.state disk.old)) (L.seen link.new) }
        // No seat loses its upload slot on whose channel no CHOKE was due, but the one that has it longest, once slots are to be turned.
        ensures slots { KeepsSlots self.old.parts self.new.parts }
        ensures had { HasHeld self.old.parts → HasHeld self.new.parts }
        // Each address that it was told to dial has a channel, or rests, or no seat is free.
        ensures reaches { Reaches self.old self.new
            (L.seen link.old) (L.seen link.new) (D.state disk.old) (D.state disk.new) }
        // On a channel on which more may be asked for all that it offers was asked for.
        ensures asks { HasHeld self.old.parts
            → (b : Beginning) (most : ℕ) (past : List Record) → StandsFor b most self.old.parts past
            → Asks self.old self.new (L.seen link.old) (L.seen link.new) (D.state disk.old) (D.state disk.new) }
        // No chunk is left that could be sent.
        ensures leaves { (b : Beginning) (most : ℕ) (past : List Record) → b.since ≤ moment_of (D.state disk.old).history
            → StandsFor b most self.old.parts past → LeavesNone self.new.parts }
    {
        // Their contracts tell that a chunk has bytes, and of how many chunks the store is.
        let _ = self.descriptor().chunk();
        let _ = self.parts.holding.store();
        self.parts
            .flush(&mut self.dials, &mut self.speaker, disk, link);
        self.parts.holding.forget_tickets();
    }

    /// Sends a closing handshake on each proven channel, by rising seat.
    pub fn close<D: Disk, L: Link>(&mut self, disk: &D, link: &mut L)
        ensures exact { Closes self.old self.new (L.seen link.old) (L.seen link.new) (D.state disk.now) }
        ensures had { HasHeld self.old.parts → HasHeld self.new.parts }
    {
        self.parts.part(disk, link);
    }

    /// What was counted.
    pub fn counts(&self) -> &Counts
        ensures { result.now ≡ self.now.parts.counts }
    {
        &self.parts.counts
    }

    /// The chunks that are committed.
    pub fn committed(&self) -> &ChunkSet
        ensures { result.now ≡ self.now.parts.holding.store.committed }
    {
        self.parts.holding.committed()
    }

    /// How many chunks are stored and not yet committed.
    pub fn pending(&self) -> u32
        ensures { result ≡ length self.now.parts.holding.queue.waiting }
    {
        self.parts.holding.pending()
    }

    /// Whether more may be stored: not after a fault of the disk.
    pub fn is_live(&self) -> bool
        ensures { result ≡ self.now.parts.holding.store.live }
    {
        self.parts.holding.is_live()
    }

    /// Whether a channel has that number, of this peer's, and that address.
    pub fn owns(&self, local: u32, from: &Address) -> bool
        ensures { result ≡ is_some (position (is_found local from.now) self.now.parts.seats.table.channels) }
    {
        self.parts.seats.owns(local, from)
    }

    /// The swarm.
    pub fn descriptor(&self) -> Descriptor
        ensures { result ≡ self.now.parts.holding.store.descriptor }
    {
        self.parts.seats.descriptor()
    }

    /// From now on only chunks below this number are asked for. A peer that doesn't fetch asks for none.
    pub fn want_below(&mut self, limit: u32)
        ensures exact { self.new ≡ record self.old { parts = with_limit limit self.old.parts } }
        ensures stands { (b : Beginning) (most : ℕ) (past : List Record) → StandsFor b most self.old.parts past
            → StandsFor b most self.new.parts past }
        ensures had { HasHeld self.old.parts → HasHeld self.new.parts }
    {
        want_below(&mut self.parts.fetching, limit);
    }

    /// Reads a committed chunk to the front of `out`, which has room for it, and answers its length in bytes. Absent comes exactly where
    /// the chunk isn't committed, and Damaged exactly where what was read has another digest than the book's.
    pub fn read<D: Disk>(&self, i: u32, out: &mut [u8], disk: &mut D) -> Result<usize, ReadFault>
        requires within { i < chunks_of self.now.parts.holding.store.descriptor }
        requires room { chunk_length self.now.parts.holding.store.descriptor.size self.now.parts.holding.store.descriptor.chunk i ≤ length out.old }
        ensures absent { (result ≡ Err ReadFault.Absent) ↔ (is_committed self.now.parts.holding.store i ≡ false) }
        ensures read { HasRead ((D.state disk.new ≡ D.state disk.old) × (out.new ≡ out.old)) self.now.parts.holding.store.descriptor i
            (entry self.now.parts.holding.book) (D.state disk.old) (D.state disk.new) out.new result }
        ensures looks { KeepsAll (D.state disk.old) (D.state disk.new) }
        ensures hard { (D.state disk.new).hard ≡ (D.state disk.old).hard }
    {
        let book = self.parts.holding.book();
        self.parts.holding.store().read(i, out, book, disk)
    }

    /// The peer ends, and its book is given away.
    pub fn into_book(self) -> Book
        ensures same { result ≡ self.parts.holding.book }
        ensures book { IsBookOf self.parts.holding.store.descriptor result }
    {
        self.parts.holding.into_book()
    }

    /// The digests that are known.
    pub fn book(&self) -> &Book
        ensures same { result.now ≡ self.now.parts.holding.book }
        ensures tied { AreTied self.now.parts.holding }
    {
        self.parts.holding.book()
    }
}
