//! What is kept of the messages of all channels.

ghost use Rattle.std.specs.Prelude.{◌≡◌, ◌<◌, ◌≤◌, length, replicate, slice_get, slice_set, IfOk, Some};
ghost use Rattle.pp_terms.specs.tree.Content.{IsChunkSize};
ghost use Rattle.pp_terms.specs.format.Descriptor.{Descriptor};
ghost use Rattle.pp_targets.specs.Names.{name_of};
ghost use Rattle.pp_learner.specs.Rows.{blank, begun};
ghost use Rattle.pp_learner.specs.Reading.{Tells, messages_from, read_at, row_at};
ghost use Rattle.pp_learner.specs.Sending.{row_said};

use crate::reading::{Ending, read};
use crate::row::Row;
use pp_counts::Counts;
use pp_draft::Note;
use pp_targets::SwarmName;
use std::alloc::{AllocError, Global};
use std::marker::Model;

// How many seats there are.
const SEATS: usize = 64;

/// A row for each of the 64 seats.
#[derive(Drop)]
pub struct Rows {
    rows: Vec<Row>,
}

impl Model for Rows {
    ghost use Rattle.std.specs.Prelude.{◌≡◌, List, length};
    ghost use Rattle.pp_learner.specs.Rows.{RowState};

    ghost Value = { List RowState };

    ghost view = { λ r. r.rows.items };

    ghost invariant = { λ r. length r.rows.items ≡ 64 };
}

impl Rows {
    /// Rows of no channel, with the memory for all that they will keep.
    pub fn new(alloc: Global) -> Result<Rows, AllocError>
        ensures { IfOk result (λ r. r ≡ replicate 64 blank) }
    {
        let mut rows = Vec::with_capacity(alloc, SEATS)?;
        for _ in 0..SEATS {
            rows.push(Row::new(alloc)?)?;
        }
        Ok(Rows { rows })
    }

    /// The row of a seat.
    pub fn row(&self, seat: u8) -> &Row
        requires { seat < 64 }
        ensures { slice_get self.now seat ≡ Some result.now }
    {
        &self.rows[seat as usize]
    }

    /// The row of a seat becomes that of a channel whose reply came.
    pub fn begin(&mut self, seat: u8)
        requires { seat < 64 }
        ensures { self.new ≡ slice_set self.old seat begun }
    {
        self.rows[seat as usize].begin();
    }

    /// The messages of a datagram are read on a seat's channel.
    pub fn read(&mut self, seat: u8, counts: &mut Counts, name: &SwarmName, bytes: &[u8]) -> Ending
        requires seat { seat < 64 }
        requires size { IsChunkSize name.now.chunk }
        requires within { 4 ≤ length bytes.now }
        ensures exact { read_at (name_of name.now) bytes.now seat self.old counts.old
            ≡ record { rows = self.new; counts = counts.new; ending = result } }
        ensures tells { (e : Descriptor) → result ≡ Ending.Learned e
            → Tells (name_of name.now) e (messages_from (name_of name.now) bytes.now 4).read (row_at self.old seat) }
    {
        read(&mut self.rows[seat as usize], counts, name, bytes)
    }

    /// A note was sent on a seat's channel.
    pub fn said(&mut self, seat: u8, note: &Note, now: u64)
        requires { seat < 64 }
        ensures { self.new ≡ slice_set self.old seat (row_said note.now now (row_at self.old seat)) }
    {
        self.rows[seat as usize].said(note, now);
    }
}
