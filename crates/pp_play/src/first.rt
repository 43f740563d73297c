// The peers of a schedule before its first move.
ghost use Rattle.std.specs.Prelude.{◌≡◌, ◌≤◌, length, IfOk};
ghost use Rattle.pp_terms.specs.tree.Content.{IsChunkSize};
ghost use Rattle.pp_world.specs.Schedule.{IsSchedule, content_of};
ghost use Rattle.pp_store.specs.Growing.{IsContent};
ghost use Rattle.pp_store.specs.Imported.{imported};
ghost use Rattle.pp_play.specs.First.{BeginAs, BeginsAs, IsReadied};

use crate::Stage;
use pp_actor::Actor;
use pp_mail::Mail;
use pp_outside::{MemoryDisk, MemorySource, NullDisk};
use pp_replay::{Role, Schedule};
use pp_stage::fill;
use pp_store::import;
use pp_tree::Descriptor;
use std::alloc::{AllocError, Global};

// How many bytes a wait brings at most.
const ROOM: usize = 65_536;

// The descriptor of a content.
fn describe(chunk: u32, content: &[u8]) -> Result<Descriptor, AllocError>
    requires { IsChunkSize chunk }
    ensures { IfOk result (λ d. d ≡ imported content.now chunk) }
{
    import(chunk, &mut MemorySource::new(content), &mut NullDisk::new()).map_err(|_| AllocError)
}

// The disk with which a peer of that role begins.
fn disk_of(alloc: Global, chunk: u32, content: &[u8], role: &Role) -> Result<MemoryDisk, AllocError>
    requires { IsChunkSize chunk }
    ensures { IfOk result (BeginsAs (imported content.now chunk) content.now role.now) }
{
    match role {
        Role::Seeds => fill(alloc, chunk, content),
        Role::Fetches { .. } => MemoryDisk::new(alloc, &[]),
    }
}

// The bytes of a schedule's content.
fn content_of(alloc: Global, schedule: &Schedule<'_>) -> Result<Vec<u8>, AllocError>
    requires { IsSchedule schedule.now }
    ensures { IfOk result (λ content. content.items ≡ content_of schedule.now) }
{
    let mut content = vec![in alloc; 0; schedule.size() as usize]?;
    schedule.write_content(0, &mut content);
    Ok(content)
}

// The peers of these roles, none of which was started.
fn actors_of(
    alloc: Global,
    chunk: u32,
    content: &[u8],
    roles: &[Role],
) -> Result<Vec<Actor>, AllocError>
    requires content { IsContent chunk content.now }
    requires few { length roles.now ≤ 16 }
    ensures { IfOk result (λ actors. BeginAs (imported content.now chunk) content.now roles.now actors.items) }
{
    let mut actors = Vec::with_capacity(alloc, roles.len())?;
    for role in roles {
        let disk = disk_of(alloc, chunk, content, role)?;
        actors.push(Actor::new(alloc, actors.len() as u8, role, disk))?;
    }
    Ok(actors)
}

impl Stage {
    /// The peers of a schedule, none of which was started: those that seed have the whole content, and the others nothing.
    pub(crate) fn new(alloc: Global, schedule: &Schedule<'_>) -> Result<Stage, AllocError>
        requires { IsSchedule schedule.now }
        ensures { IfOk result (IsReadied schedule.now) }
    {
        let content = content_of(alloc, schedule)?;
        Ok(Stage {
            descriptor: describe(schedule.chunk(), &content)?,
            clock: 0,
            actors: actors_of(alloc, schedule.chunk(), &content, schedule.roles())?,
            mail: Mail::new(alloc, schedule.peers())?,
            buffer: vec![in alloc; 0; ROOM]?,
        })
    }
}
