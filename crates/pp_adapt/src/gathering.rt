// A buffer that gathers writes to a file.
ghost use Rattle.std.specs.Prelude.{◌≡◌, ◌⊎◌, ℕ, ◌+◌, ◌^◌, ◌<◌, ◌≤◌, List, [], ◌∷◌, ◌++◌, length, take, slice_index, Option, IfOk, OnOk, OnErr, IfSome, IfNone, IsTrue, IsSome, ◌↔◌};
ghost use Rattle.std.specs.Bool.{OnTrue, OnFalse};
ghost use Rattle.pp_terms.specs.disk.Store.{IsWithin};
ghost use Rattle.pp_terms.specs.disk.Disk.{Write};
ghost use Rattle.pp_adapt.specs.Gathered.{byte_at, IsFree, IsGatheredOver, HasNoRoom, with_taken, pieces_of, piece_of};

use crate::extents::{self, Extent, MOST, WINDOW};
use std::alloc::{AllocError, Global};
use std::io;
use std::marker::Model;

/// What gathered writes go out to.
pub(crate) trait Outlet {
    /// The writes that it took, the first first, where it tells them.
    ghost taken: { Self → Option (List Write) };

    /// Writes all the bytes at `place`. Of a refused write a part may have been written.
    fn write_at(&mut self, place: u64, bytes: &[u8]) -> io::Result<()>
        ensures ok { OnOk result (taken self.new ≡ with_taken (taken self.old) (record { place = place; bytes = bytes.now } ∷ [])) }
        ensures err { OnErr result (taken self.new ≡ taken self.old) };
}

/// Keeps writes back that lie in a window of 256 KiB of a file, so that those that meet or touch go out in one.
#[derive(Drop)]
pub(crate) struct Gathering {
    // where the window begins in the file
    base: u64,
    // the window's bytes, of which those in no extent mean nothing
    bytes: Vec<u8>,
    extents: Vec<Extent>,
}

impl Model for Gathering {
    ghost use Rattle.std.specs.Prelude.{vec_capacity};
    ghost use Rattle.pp_adapt.specs.Gathered.{Gathered, pieces_of, IsGathering};

    ghost Value = { Gathered };

    ghost view = { λ g. record { base = g.base; pieces = pieces_of g.base g.bytes.items g.extents.items } };

    ghost invariant = { λ g. IsGathering g.base g.bytes.items g.extents.items (vec_capacity g.extents) };
}

// Where in a window a write begins, if the window has room for all of it.
fn start_in(base: u64, place: u64, len: usize) -> Option<usize>
    requires low { base ≤ 2 ^ 40 }
    requires within { place + len ≤ 2 ^ 40 }
    ensures some { IfSome result (λ start. (base + start ≡ place) × (start + len ≤ WINDOW)) }
    ensures none { IfNone result ((place < base) ⊎ (base + WINDOW < place + len)) }
{
    if place < base || base + (WINDOW as u64) < place + len as u64 {
        return None;
    }
    Some((place - base) as usize)
}

// Writes over a part of the bytes.
fn overwrite(bytes: &mut [u8], start: usize, new: &[u8])
    requires { start + length new.now ≤ length bytes.old }
    ensures inside { (k : ℕ) → k < length new.now → slice_index bytes.new (start + k) ≡ slice_index new.now k }
    ensures outside { (k : ℕ) → (k < start) ⊎ (start + length new.now ≤ k) → slice_index bytes.new k ≡ slice_index bytes.old k }
{
    bytes[start..start + new.len()].copy_from_slice(new);
}

// Writes the bytes of one extent of a window.
fn send_piece<O: Outlet>(outlet: &mut O, base: u64, bytes: &[u8], extent: Extent) -> io::Result<()>
    requires low { base ≤ 2 ^ 40 }
    requires some { extent.start < extent.end }
    requires within { extent.end ≤ WINDOW }
    requires long { length bytes.now ≡ WINDOW }
    ensures ok { OnOk result (O.taken outlet.new ≡ with_taken (O.taken outlet.old) (piece_of base bytes.now extent ∷ [])) }
    ensures err { OnErr result (O.taken outlet.new ≡ O.taken outlet.old) }
{
    outlet.write_at(base + extent.start as u64, &bytes[extent.start..extent.end])
}

impl Gathering {
    /// Takes all the memory that it will use.
    pub(crate) fn new(alloc: Global) -> Result<Self, AllocError>
        ensures { IfOk result (λ g. g.pieces ≡ []) }
    {
        Ok(Gathering {
            base: 0,
            bytes: vec![in alloc; 0; WINDOW]?,
            extents: Vec::with_capacity(alloc, MOST)?,
        })
    }

    /// Whether nothing is kept back.
    pub(crate) fn is_empty(&self) -> bool
        ensures { IsTrue result ↔ (self.now.pieces ≡ []) }
    {
        self.extents.is_empty()
    }

    /// Keeps a write back, over what it had there, or answers that it can't. The window begins with the first write.
    pub(crate) fn put(&mut self, place: u64, bytes: &[u8]) -> bool
        requires some { 0 < length bytes.now }
        requires within { place + length bytes.now ≤ 2 ^ 40 }
        ensures put { OnTrue result (IsGatheredOver self.old.pieces place bytes.now self.new.pieces) }
        ensures full { OnFalse result (self.new ≡ self.old) }
        ensures why { OnFalse result (HasNoRoom self.old place (length bytes.now)) }
    {
        let base = if self.extents.is_empty() {
            place
        } else {
            self.base
        };
        let Some(start) = start_in(base, place, bytes.len()) else {
            return false;
        };
        let end = start + bytes.len();
        if !extents::add(&mut self.extents, Extent { start, end }) {
            return false;
        }
        self.base = base;
        overwrite(&mut self.bytes, start, bytes);
        true
    }

    /// Whether a byte of a range is kept back.
    pub(crate) fn meets(&self, place: u64, len: usize) -> bool
        requires { place + len ≤ 2 ^ 40 }
        ensures free { OnFalse result (IsFree self.now.pieces place len) }
        ensures met { OnTrue result ((k : ℕ) × IsWithin place len k × IsSome (byte_at self.now.pieces k)) }
    {
        let start = place.saturating_sub(self.base) as usize;
        let end = (place + len as u64).saturating_sub(self.base) as usize;
        extents::meets(&self.extents, start, end)
    }

    /// Whether a range lies before the window.
    pub(crate) fn has_passed(&self, place: u64, len: usize) -> bool
        requires { place + len ≤ 2 ^ 40 }
        ensures passed { IsTrue result ↔ (place + len ≤ self.now.base) }
        ensures free { OnTrue result (IsFree self.now.pieces place len) }
    {
        place + len as u64 <= self.base
    }

    // Writes each piece, and keeps them all.
    fn send<O: Outlet>(&self, outlet: &mut O) -> io::Result<()>
        ensures ok { OnOk result (O.taken outlet.new ≡ with_taken (O.taken outlet.old) self.now.pieces) }
        ensures err { OnErr result ((n : ℕ) × (n < length self.now.pieces) × (O.taken outlet.new ≡ with_taken (O.taken outlet.old) (take n self.now.pieces))) }
    {
        for extent in &self.extents {
            send_piece(outlet, self.base, &self.bytes, *extent)?;
        }
        Ok(())
    }

    /// Writes each piece, in rising order, and then keeps none back. Where one is refused it keeps them all.
    pub(crate) fn write_out<O: Outlet>(&mut self, outlet: &mut O) -> io::Result<()>
        ensures ok { OnOk result ((self.new.pieces ≡ []) × (O.taken outlet.new ≡ with_taken (O.taken outlet.old) self.old.pieces)) }
        ensures err { OnErr result ((self.new ≡ self.old)
            × ((n : ℕ) × (n < length self.old.pieces) × (O.taken outlet.new ≡ with_taken (O.taken outlet.old) (take n self.old.pieces)))) }
    {
        self.send(outlet)?;
        self.extents.clear();
        Ok(())
    }
}
