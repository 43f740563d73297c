// A schedule that was read, and its steps.
ghost use Rattle.std.specs.Prelude.{◌≡◌, ◌+◌, ◌^◌, ◌<◌, ◌≤◌, [], ◌∷◌, length, map, MatchOption};
ghost use Rattle.pp_world.specs.Schedule.{byte_at, content_from};
ghost use Rattle.pp_replay.specs.Views.{as_role, as_step};

use crate::content::Content;
use crate::lines::first_row;
use crate::steps::step_at;
use crate::types::{Role, Step};
use arrayvec::ArrayVec;
use std::marker::Model;

/// A content, the peers that share it, and what happens to them. Made by `read_schedule`, whose text it borrows.
#[derive(Debug, Drop)]
pub struct Schedule<'a> {
    pub(crate) content: Content,
    pub(crate) roles: ArrayVec<Role, 16>,
    pub(crate) steps: &'a [u8],
}

impl<'a> Model for Schedule<'a> {
    ghost use Rattle.std.specs.Prelude.{length};
    ghost use Rattle.pp_world.specs.Schedule as terms;

    ghost Value = { terms.Schedule };

    ghost use Rattle.pp_replay.specs.Left.{schedule_with, IsReadable};

    ghost view = { λ s. schedule_with s.content s.roles.items s.steps.now };

    ghost invariant = { λ s. IsReadable (length s.roles.items) s.steps.now };
}

/// The steps of a schedule that are left.
#[derive(Debug, Drop)]
pub struct Steps<'a> {
    peers: u8,
    text: &'a [u8],
}

impl<'a> Model for Steps<'a> {
    ghost use Rattle.std.specs.Prelude.{List};
    ghost use Rattle.pp_world.specs.Schedule as terms;

    ghost Value = { List terms.Step };

    ghost use Rattle.pp_replay.specs.Left.{steps_left, IsReadable};

    ghost view = { λ s. steps_left s.peers s.text.now };

    ghost invariant = { λ s. IsReadable s.peers s.text.now };
}

impl<'a> Schedule<'a> {
    /// The size of a chunk in bytes: a power of two from 256 to 8,192.
    pub fn chunk(&self) -> u32
        ensures { result ≡ self.now.chunk }
    {
        self.content.chunk
    }

    /// The size of the content in bytes, from 1 to 1,048,576.
    pub fn size(&self) -> u32
        ensures { result ≡ self.now.size }
    {
        self.content.size
    }

    /// The first byte of the content.
    pub fn shift(&self) -> u8
        ensures { result ≡ self.now.shift }
    {
        self.content.shift
    }

    /// What each of the 1 to 16 peers does.
    pub fn roles(&self) -> &[Role]
        ensures { map as_role result.now ≡ self.now.roles }
    {
        self.roles.as_slice()
    }

    /// How many peers there are.
    pub fn peers(&self) -> u8
        ensures { result ≡ length self.now.roles }
    {
        self.roles.len() as u8
    }

    pub fn steps(&self) -> Steps<'a>
        ensures { result ≡ self.now.steps }
    {
        Steps {
            peers: self.roles.len() as u8,
            text: self.steps,
        }
    }

    /// A byte of the content, by its place from 0 on.
    pub fn byte_at(&self, place: u32) -> u8
        requires { place < 2 ^ 20 }
        ensures { result ≡ byte_at self.now.shift place }
    {
        let sum = u32::from(self.content.shift) + 7 * place + place / 256 + place / 65_536;
        (sum % 256) as u8
    }

    /// Writes bytes of the content, as many as there is room for, from a place on.
    pub fn write_content(&self, from: u32, into: &mut [u8])
        requires { from + length into.old ≤ 2 ^ 20 }
        ensures { into.new ≡ content_from self.now.shift from (length into.old) }
    {
        let mut place = from;
        for byte in into.iter_mut() {
            *byte = self.byte_at(place);
            place += 1;
        }
    }
}

impl<'a> Steps<'a> {
    /// Takes the first step.
    pub fn next_step(&mut self) -> Option<Step<'a>>
        ensures { MatchOption result ((self.old ≡ []) × (self.new ≡ [])) (λ step. self.old ≡ as_step step ∷ self.new) }
    {
        let (row, behind) = first_row(self.text)?;
        match step_at(self.peers, 0, &row) {
            Ok(step) => {
                self.text = behind;
                Some(step)
            }
            Err(_) => unreachable!(),
        }
    }
}
