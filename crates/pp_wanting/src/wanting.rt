// The chunks that are wanted.
ghost use Rattle.std.specs.Prelude.{◌≡◌, ℕ, ◌+◌, ◌^◌, ◌<◌, ◌≤◌, nat_lt, true, false, not, ◌&&◌, length, replicate, count_by, slice_set, slice_index_or, IfOk};
ghost use Rattle.pp_wanting.specs.Wants.{is_wanted, again, IsNext};

use pp_avail::{Avail, Ranker, pick};
use pp_tree::ChunkSet;
use std::alloc::{AllocError, Global};
use std::marker::Model;

/// The chunks of a content that a peer still wants: those below a limit that it neither has nor asked for on some channel.
#[derive(Drop)]
pub struct Wanting {
    chunks: u32,
    had: ChunkSet,
    asked: ChunkSet,
    wanted: ChunkSet,
    limit: u32,
}

impl Model for Wanting {
    ghost use Rattle.std.specs.Prelude.{◌≡◌, length};
    ghost use Rattle.pp_wanting.specs.Wants.{WantState};

    ghost Value = { WantState };

    ghost view = { λ w. record { had = w.had; asked = w.asked; limit = w.limit } };

    ghost use Rattle.pp_wanting.specs.Wants.{AreWanted};

    ghost invariant = { λ w. (w.chunks ≡ length w.had) × AreWanted (record { had = w.had; asked = w.asked; limit = w.limit }) w.wanted };
}

// Notes of each chunk whether it is held, and that it is wanted where it isn't.
fn sort_out(chunks: u32, held: &ChunkSet, had: &mut ChunkSet, wanted: &mut ChunkSet)
    requires held { length held.now ≡ chunks }
    requires had { had.old ≡ replicate chunks false }
    requires wanted { wanted.old ≡ replicate chunks false }
    ensures had_size { length had.new ≡ chunks }
    ensures wanted_size { length wanted.new ≡ chunks }
    ensures had { (i : ℕ) → slice_index_or had.new i false ≡ slice_index_or held.now i false }
    ensures wanted { (i : ℕ) → slice_index_or wanted.new i false ≡ (nat_lt i chunks && not (slice_index_or held.now i false)) }
{
    for i in 0..chunks {
        if held.contains(i) {
            had.insert(i);
        } else {
            wanted.insert(i);
        }
    }
}

// Wants those of some chunks, or none of them, that the peer neither has nor asked for.
fn want_again(
    had: &ChunkSet,
    asked: &ChunkSet,
    wanted: &mut ChunkSet,
    from: u32,
    to: u32,
    is_below: bool,
)
    requires order { from ≤ to }
    requires inside { to ≤ length had.now }
    requires asked { length asked.now ≡ length had.now }
    requires wanted { length wanted.old ≡ length had.now }
    ensures size { length wanted.new ≡ length wanted.old }
    ensures each { (i : ℕ) → slice_index_or wanted.new i false ≡ again had.now asked.now wanted.old from to is_below i }
{
    for i in from..to {
        let is_wanted = is_below & !had.contains(i) & !asked.contains(i);
        if is_wanted {
            wanted.insert(i);
        } else {
            wanted.remove(i);
        }
    }
}

impl Wanting {
    /// All chunks are wanted that aren't held; none was asked for, and the limit is the content's end. `held` are the chunks of a
    /// content of so many that are committed or pending.
    pub fn new(alloc: Global, chunks: u32, held: &ChunkSet) -> Result<Wanting, AllocError>
        requires { length held.now ≡ chunks }
        ensures size { IfOk result (λ w. length w.had ≡ chunks) }
        ensures had { IfOk result (λ w. (i : ℕ) → slice_index_or w.had i false ≡ slice_index_or held.now i false) }
        ensures rest { IfOk result (λ w. (w.asked ≡ replicate chunks false) × (w.limit ≡ chunks)) }
    {
        let mut had = ChunkSet::none(alloc, chunks)?;
        let mut wanted = ChunkSet::none(alloc, chunks)?;
        let asked = ChunkSet::none(alloc, chunks)?;
        sort_out(chunks, held, &mut had, &mut wanted);
        Ok(Wanting {
            chunks,
            had,
            asked,
            wanted,
            limit: chunks,
        })
    }

    /// Whether a chunk is wanted.
    pub fn wants(&self, i: u32) -> bool
        requires { i < length self.now.had }
        ensures { result ≡ is_wanted self.now i }
    {
        self.wanted.contains(i)
    }

    /// Whether a chunk was asked for on some channel, and neither came nor was given back since.
    pub fn is_asked(&self, i: u32) -> bool
        requires { i < length self.now.had }
        ensures { result ≡ slice_index_or self.now.asked i false }
    {
        self.asked.contains(i)
    }

    /// How many chunks the peer doesn't have.
    pub fn left(&self) -> u32
        ensures { result + count_by (λ b. b) self.now.had ≡ length self.now.had }
    {
        self.chunks - self.had.count()
    }

    /// The chunk to ask of a seat: the wanted one that it offers with the least rank and number, none where there is no such one.
    pub fn next(&self, avail: &Avail, seat: u8, ranker: &Ranker) -> Option<u32>
        requires seat { seat < 64 }
        requires chunks { avail.now.chunks ≡ length self.now.had }
        ensures { IsNext ranker.now.kind self.now avail.now seat result }
    {
        pick(avail, seat, &self.wanted, ranker)
    }

    /// A chunk is asked for on a channel.
    pub fn ask(&mut self, i: u32)
        requires { i < length self.old.had }
        ensures { self.new ≡ record self.old { asked = slice_set self.old.asked i true } }
    {
        self.asked.insert(i);
        self.wanted.remove(i);
    }

    /// A chunk is asked for on no channel any more: it came, expired, was cancelled or choked, or its channel was dropped.
    pub fn give_back(&mut self, i: u32)
        requires { i < length self.old.had }
        ensures { self.new ≡ record self.old { asked = slice_set self.old.asked i false } }
    {
        self.asked.remove(i);
        if i < self.limit && !self.had.contains(i) {
            self.wanted.insert(i);
        }
    }

    /// The peer has a chunk: it was stored.
    pub fn got(&mut self, i: u32)
        requires { i < length self.old.had }
        ensures { self.new ≡ record self.old { had = slice_set self.old.had i true } }
    {
        self.had.insert(i);
        self.wanted.remove(i);
    }

    /// From now on chunks below this number are asked for, of the content's.
    pub fn want_below(&mut self, limit: u32)
        ensures { self.new ≡ record self.old { limit = limit } }
    {
        let old = self.limit.min(self.chunks);
        let new = limit.min(self.chunks);
        let is_higher = old < new;
        want_again(
            &self.had,
            &self.asked,
            &mut self.wanted,
            old.min(new),
            old.max(new),
            is_higher,
        );
        self.limit = limit;
    }
}
