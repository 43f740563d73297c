// Reading the text of a schedule.
ghost use Rattle.std.specs.Prelude.{◌≡◌, ◌+◌, ◌≤◌, Err, IsOk, IfOk, MatchResult};
ghost use Rattle.pp_world.specs.Schedule.{IsSchedule};
ghost use Rattle.pp_world.specs.ScheduleRead.{rows_of, steps_in, read_rest, read_schedule};
ghost use Rattle.pp_replay.specs.Begun.{as_begun};
ghost use Rattle.pp_replay.specs.Views.{viewed, same, as_fault};

use crate::content::Content;
use crate::fault::{ScheduleFault, ScheduleKind};
use crate::head::{all_declared, fault, peers_end, read_first, read_roles, read_second};
use crate::lines::first_row;
use crate::schedule::Schedule;
use crate::steps::step_at;

// The most bytes of a text.
const MOST_TEXT: usize = 1_048_576;

/// Reads the text of a schedule: its first line, the line of its content, a line for each peer, and one for each step. Each
/// line is looked at once, and nothing is kept but the roles.
pub fn read_schedule(text: &[u8]) -> Result<Schedule<'_>, ScheduleFault>
    ensures read { viewed same as_fault result ≡ read_schedule text.now }
    // What was read is a schedule that keeps the limits.
    ensures schedule { IfOk result IsSchedule }
{
    if text.len() > MOST_TEXT {
        return Err(fault(0, ScheduleKind::Long));
    }
    let text = read_first(text)?;
    let (content, text) = read_second(text)?;
    read_rest(content, text)
}

// Reads the peers and the steps.
fn read_rest(content: Content, text: &[u8]) -> Result<Schedule<'_>, ScheduleFault>
    ensures { viewed same as_fault result ≡ read_rest (as_begun content) (rows_of text.now) }
{
    let (roles, steps) = read_roles(text);
    all_declared(roles.as_slice())?;
    let peers = roles.len() as u8;
    peers_end(peers, steps)?;
    check_steps(peers, steps)?;
    Ok(Schedule {
        content,
        roles,
        steps,
    })
}

// Says which is the first line that is no step. The first line stands behind those of so many peers.
fn check_steps(peers: u8, text: &[u8]) -> Result<(), ScheduleFault>
    requires { peers ≤ 16 }
    ensures { MatchResult result (λ _. IsOk (steps_in peers (peers + 3) (rows_of text.now)))
        (λ f. steps_in peers (peers + 3) (rows_of text.now) ≡ Err (as_fault f)) }
{
    let mut line = u32::from(peers) + 3;
    let mut rest = text;
    while let Some((row, behind)) = first_row(rest) {
        if let Err(kind) = step_at(peers, line, &row) {
            return Err(fault(line, kind));
        }
        line += 1;
        rest = behind;
    }
    Ok(())
}
