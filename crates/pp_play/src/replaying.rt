//! A replay of a schedule's text.
ghost use Rattle.std.specs.Prelude.{◌≡◌, length, IfOk};
ghost use Rattle.pp_world.specs.Schedule.{IsSchedule};
ghost use Rattle.pp_play.specs.Playing.{EndAs};
ghost use Rattle.pp_play.specs.Replaying.{HasReplayed, IsPlayed};

use crate::Stage;
use pp_actor::Actor;
use pp_outcome::{PeerEnd, end_of};
use pp_replay::{Schedule, ScheduleFault, read_schedule};
use pp_tree::Descriptor;
use std::alloc::{AllocError, Global};
use thiserror::Error;

/// Why a text wasn't replayed.
#[derive(Clone, Copy, Debug, PartialEq, Eq, Error)]
pub enum ReplayFault {
    /// The text is no schedule.
    #[error("{0}")]
    Schedule(ScheduleFault),
    /// Memory is missing.
    #[error("no memory")]
    Memory,
}

/// The peers of a schedule at its end, by their numbers, the swarm that they share, and how many chunks its content has.
#[derive(Drop)]
pub struct Outcome {
    pub ends: Vec<PeerEnd>,
    pub descriptor: Descriptor,
    pub chunks: u32,
}

// Ends all peers.
fn end_all(
    alloc: Global,
    descriptor: &Descriptor,
    actors: Vec<Actor>,
) -> Result<Vec<PeerEnd>, AllocError>
    ensures { IfOk result (λ ends. EndAs descriptor.now actors.items ends.items) }
{
    let mut ends = Vec::with_capacity(alloc, actors.len())?;
    for actor in actors {
        ends.push(end_of(alloc, descriptor, actor.into_remains()?)?)?;
    }
    Ok(ends)
}

// Plays a schedule.
fn play(alloc: Global, schedule: &Schedule<'_>) -> Result<Outcome, AllocError>
    requires { IsSchedule schedule.now }
    ensures { IfOk result (IsPlayed schedule.now) }
{
    let mut stage = Stage::new(alloc, schedule)?;
    stage.play(alloc, schedule)?;
    let Stage {
        descriptor,
        actors,
        ..
    } = stage;
    Ok(Outcome {
        ends: end_all(alloc, &descriptor, actors)?,
        descriptor,
        chunks: descriptor.chunks(),
    })
}

/// Replays a schedule over devices in memory: the peers that it names share its content, each with a disk and a link of its own, and what it
/// says happens to them, step by step. A content has at most 1,048,576 bytes, and a text at most 1,048,576 bytes.
///
/// The fault `Schedule` names the first faulty line of a text that is no schedule. `Memory` comes where memory is missing.
pub fn replay(alloc: Global, text: &[u8]) -> Result<Outcome, ReplayFault>
    ensures { HasReplayed text.now result }
{
    let schedule = match read_schedule(text) {
        Ok(schedule) => schedule,
        Err(fault) => return Err(ReplayFault::Schedule(fault)),
    };
    match play(alloc, &schedule) {
        Ok(outcome) => Ok(outcome),
        Err(_) => Err(ReplayFault::Memory),
    }
}
