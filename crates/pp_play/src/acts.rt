// What happens to one peer, but for its turns.
ghost use Rattle.std.specs.Prelude.{◌≡◌, ◌<◌, length, OnOk};
ghost use Rattle.pp_world.specs.Move.{Wait, Make};
ghost use Rattle.pp_world.specs.Schedule as acts;
ghost use Rattle.pp_replay.specs.Views.{as_device};
ghost use Rattle.pp_play.specs.Stage.{HasStarted, MovesAs};

use crate::Stage;
use pp_replay::Device;
use std::alloc::AllocError;

impl Stage {
    /// Time passes, in microseconds. No schedule lasts longer than a clock counts.
    pub(crate) fn wait(&mut self, gain: u64) -> Result<(), AllocError>
        ensures { OnOk result (MovesAs (Wait gain) self.old self.new) }
    {
        let Some(clock) = self.clock.checked_add(gain) else {
            return Err(AllocError);
        };
        self.clock = clock;
        Ok(())
    }

    /// The datagram that waits first for a peer that runs is lost.
    pub(crate) fn lose(&mut self, peer: u8)
        requires { peer < length self.old.actors }
        ensures { MovesAs (Make (acts.Lose peer)) self.old self.new }
    {
        if self.is_running(peer) {
            self.mail.lose(peer);
        }
    }

    /// The datagram that waits first for a peer that runs comes once more.
    pub(crate) fn repeat(&mut self, peer: u8) -> Result<(), AllocError>
        requires { peer < length self.old.actors }
        ensures { OnOk result (MovesAs (Make (acts.Repeat peer)) self.old self.new) }
    {
        if self.is_running(peer) {
            self.mail.repeat(peer)?;
        }
        Ok(())
    }

    /// The datagram that waits first for a peer that runs comes behind the others.
    pub(crate) fn delay(&mut self, peer: u8)
        requires { peer < length self.old.actors }
        ensures { MovesAs (Make (acts.Later peer)) self.old self.new }
    {
        if self.is_running(peer) {
            self.mail.delay(peer);
        }
    }

    /// A datagram waits for a peer that runs which says to come from another.
    pub(crate) fn forge(&mut self, peer: u8, sender: u8, bytes: Vec<u8>) -> Result<(), AllocError>
        requires { peer < length self.old.actors }
        ensures { OnOk result (MovesAs (Make (acts.Forge peer sender bytes.items)) self.old self.new) }
    {
        if self.is_running(peer) {
            self.mail.forge(peer, sender, bytes)?;
        }
        Ok(())
    }

    /// The next call of that kind fails, of a device of a peer that runs.
    pub(crate) fn fail(&mut self, peer: u8, call: Device)
        requires { peer < length self.old.actors }
        ensures { MovesAs (Make (acts.Fail peer (as_device call))) self.old self.new }
    {
        self.actors[usize::from(peer)].fail(call);
    }

    /// A peer stops, and its disk crashes with the pick.
    pub(crate) fn crash(&mut self, peer: u8, pick: u64) -> Result<(), AllocError>
        requires { peer < length self.old.actors }
        ensures { OnOk result (MovesAs (Make (acts.Crash peer pick)) self.old self.new) }
    {
        self.actors[usize::from(peer)].crash(pick)
    }

    /// A peer stops, and its disk keeps what is pending.
    pub(crate) fn stop(&mut self, peer: u8) -> Result<(), AllocError>
        requires { peer < length self.old.actors }
        ensures { OnOk result (MovesAs (Make (acts.Stop peer)) self.old self.new) }
    {
        self.actors[usize::from(peer)].stop()
    }

    /// A peer that doesn't run opens its store, by its role, for its next life.
    pub(crate) fn start(&mut self, peer: u8) -> Result<(), AllocError>
        requires { peer < length self.old.actors }
        ensures moves { OnOk result (MovesAs (Make (acts.Start peer)) self.old self.new) }
        ensures started { OnOk result (HasStarted peer self.old self.new) }
    {
        self.actors[usize::from(peer)].start(&self.descriptor)
    }
}
