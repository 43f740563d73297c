//! The peers of a replay.
ghost use Rattle.std.specs.Prelude.{◌≡◌, ◌<◌, length};
ghost use Rattle.pp_play.specs.Stage.{runs_at};

use pp_actor::Actor;
use pp_mail::Mail;
use pp_tree::Descriptor;
use std::marker::Model;

/// The peers of a replay, numbered from 0, what is on its way to them, and the clock in microseconds.
///
/// Where memory is missing a call answers an error, and what is left of the peers may be any.
#[derive(Drop)]
pub struct Stage {
    pub(crate) descriptor: Descriptor,
    pub(crate) clock: u64,
    pub(crate) actors: Vec<Actor>,
    pub(crate) mail: Mail,
    // What a wait brings: 65,536 bytes.
    pub(crate) buffer: Vec<u8>,
}

impl Model for Stage {
    ghost use Rattle.std.specs.Prelude.{◌≡◌, length};
    ghost use Rattle.pp_play.specs.Stage.{StageState, IsSet};

    ghost Value = { StageState };

    ghost view = { λ a. record { descriptor = a.descriptor; clock = a.clock; actors = a.actors.items; mail = a.mail } };

    ghost invariant = { λ a. IsSet a.actors.items a.mail × (length a.buffer.items ≡ 65536) };
}

impl Stage {
    /// How many peers there are.
    pub fn peers(&self) -> usize
        ensures { result ≡ length self.now.actors }
    {
        self.actors.len()
    }

    /// Whether the peer runs.
    pub fn is_running(&self, peer: u8) -> bool
        requires { peer < length self.now.actors }
        ensures { result ≡ runs_at peer self.now.actors }
    {
        self.actors[usize::from(peer)].is_running()
    }
}
