// A schedule, move by move.
ghost use Rattle.std.specs.Prelude.{◌≡◌, ◌<◌, ◌≤◌, length, IfOk, OnOk};
ghost use Rattle.std.specs.List.{AllByRecursion};
ghost use Rattle.pp_world.specs.Move.{Make, for_each, rounds_of, moves_of_step, moves_of_steps, moves_of};
ghost use Rattle.pp_world.specs.Schedule as terms;
ghost use Rattle.pp_world.specs.Schedule.{IsAct, IsStep, IsSchedule, Turn, Start};
ghost use Rattle.pp_replay.specs.Views.{as_act, as_step};
ghost use Rattle.pp_play.specs.Stage.{MovesAs};
ghost use Rattle.pp_play.specs.Playing.{PlaysAs};

use crate::Stage;
use pp_replay::{Act, Hex, Schedule, Step};
use std::alloc::{AllocError, Global};

// The bytes that digits write.
fn bytes_of(alloc: Global, digits: &Hex<'_>) -> Result<Vec<u8>, AllocError>
    ensures { IfOk result (λ bytes. bytes.items ≡ digits.now) }
{
    let mut bytes = vec![in alloc; 0; digits.len()]?;
    digits.decode(&mut bytes);
    Ok(bytes)
}

impl Stage {
    // Lets something happen to one peer.
    fn act(&mut self, alloc: Global, act: Act<'_>) -> Result<(), AllocError>
        requires { IsAct (length self.old.actors) (as_act act) }
        ensures { OnOk result (MovesAs (Make (as_act act.entry)) self.old self.new) }
    {
        match act {
            Act::Turn(peer) => self.turn(peer),
            Act::Lose(peer) => {
                self.lose(peer);
                Ok(())
            }
            Act::Repeat(peer) => self.repeat(peer),
            Act::Later(peer) => {
                self.delay(peer);
                Ok(())
            }
            Act::Forge {
                peer,
                sender,
                datagram,
            } => self.forge(peer, sender, bytes_of(alloc, &datagram)?),
            Act::Fail { peer, call } => {
                self.fail(peer, call);
                Ok(())
            }
            Act::Crash { peer, pick } => self.crash(peer, pick),
            Act::Stop(peer) => self.stop(peer),
            Act::Start(peer) => self.start(peer),
        }
    }

    // Each peer that runs takes a turn, by rising number.
    fn turn_each(&mut self) -> Result<(), AllocError>
        requires { length self.old.actors ≤ 16 }
        ensures { OnOk result (PlaysAs (for_each Turn 0 (length self.old.actors)) self.old self.new) }
    {
        for peer in 0..self.peers() as u8 {
            self.turn(peer)?;
        }
        Ok(())
    }

    // So many rounds, in each of which time passes and each peer that runs takes a turn.
    fn run(&mut self, rounds: u32, gain: u64) -> Result<(), AllocError>
        requires { length self.old.actors ≤ 16 }
        ensures { OnOk result (PlaysAs (rounds_of (length self.old.actors) gain rounds) self.old self.new) }
    {
        for _ in 0..rounds {
            self.wait(gain)?;
            self.turn_each()?;
        }
        Ok(())
    }

    fn step(&mut self, alloc: Global, step: Step<'_>) -> Result<(), AllocError>
        requires few { length self.old.actors ≤ 16 }
        requires is_step { IsStep (length self.old.actors) (as_step step) }
        ensures { OnOk result (PlaysAs (moves_of_step (length self.old.actors) (as_step step.entry)) self.old self.new) }
    {
        match step {
            Step::Once(act) => self.act(alloc, act),
            Step::Run { rounds, gain } => self.run(rounds, gain),
        }
    }

    // Opens the store of each peer, by rising number.
    fn start_each(&mut self) -> Result<(), AllocError>
        requires { length self.old.actors ≤ 16 }
        ensures { OnOk result (PlaysAs (for_each Start 0 (length self.old.actors)) self.old self.new) }
    {
        for peer in 0..self.peers() as u8 {
            self.start(peer)?;
        }
        Ok(())
    }

    /// Starts every peer of a schedule, and does what its steps say.
    pub(crate) fn play(&mut self, alloc: Global, schedule: &Schedule<'_>) -> Result<(), AllocError>
        requires is { IsSchedule schedule.now }
        requires peers { length self.old.actors ≡ length schedule.now.roles }
        ensures { OnOk result (PlaysAs (moves_of schedule.now) self.old self.new) }
    {
        self.start_each()?;
        let mut steps = schedule.steps();
        while let Some(step) = steps.next_step() {
            self.step(alloc, step)?;
        }
        Ok(())
    }
}
