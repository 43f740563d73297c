//! What puts messages into datagrams and sends them.

ghost use Rattle.std.specs.Prelude.{◌≡◌, ◌*◌, IfOk};
ghost use Rattle.pp_terms.specs.disk.Disk.{moment_of};
ghost use Rattle.pp_terms.specs.tree.Content.{IsChunkSize};
ghost use Rattle.pp_targets.specs.Names.{name_of};
ghost use Rattle.pp_draft.specs.Notes.{IsInside};
ghost use Rattle.pp_learner.specs.Standing.{stand_in};
ghost use Rattle.pp_learner.specs.Sending.{SendsDue};

use crate::due::Due;
use pp_draft::post;
use pp_outside::{Disk, Link};
use pp_targets::SwarmName;
use pp_tree::Descriptor;
use std::alloc::{AllocError, Global};
use std::marker::Model;

// How many bytes a datagram has at most.
const MOST: usize = 16_384;

/// A swarm's descriptor, by which datagrams are read and written, and where they are written.
#[derive(Drop)]
pub struct Outbox {
    descriptor: Descriptor,
    out: Vec<u8>,
}

impl Model for Outbox {
    ghost use Rattle.std.specs.Prelude.{◌≡◌, length};
    ghost use Rattle.pp_terms.specs.format.Descriptor.{Descriptor};

    ghost Value = { Descriptor };

    ghost view = { λ s. s.descriptor };

    ghost invariant = { λ s. length s.out.items ≡ 16384 };
}

// The descriptor that stands for a swarm's: the size of its content is unknown, and in no message.
fn stand_in(name: &SwarmName) -> Descriptor
    requires { IsChunkSize name.now.chunk }
    ensures { result ≡ stand_in (name_of name.now) }
{
    let size = (1 << 20) * u64::from(name.chunk);
    Descriptor::new(name.root, name.chunk, size, name.method).unwrap()
}

impl Outbox {
    /// For a swarm of that name, with the memory for a datagram.
    pub fn new(alloc: Global, name: &SwarmName) -> Result<Outbox, AllocError>
        requires { IsChunkSize name.now.chunk }
        ensures { IfOk result (λ s. s ≡ stand_in (name_of name.now)) }
    {
        Ok(Outbox {
            descriptor: stand_in(name),
            out: vec![in alloc; 0; MOST]?,
        })
    }

    /// The descriptor that stands for the swarm's.
    pub fn descriptor(&self) -> Descriptor
        ensures { result ≡ self.now }
    {
        self.descriptor
    }

    /// Sends a datagram of a note's messages. Answers whether the link took it.
    pub fn send<D: Disk, L: Link>(&mut self, due: &Due, disk: &D, link: &mut L) -> bool
        requires { IsInside self.old due.now.note }
        ensures same { self.new ≡ self.old }
        ensures sends { SendsDue self.old due.now (moment_of (D.state disk.now).history) result
            (L.seen link.old) (L.seen link.new) }
    {
        let notes = [due.note];
        post(&notes, &self.descriptor, &due.to, &mut self.out, disk, link).sent
    }
}
