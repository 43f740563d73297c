// The words of a step.
ghost use Rattle.std.specs.Prelude.{◌≡◌, ◌≤◌, OnOk};
ghost use Rattle.pp_world.specs.ScheduleRead.{words_of, step_in, run_in, forge_in, fail_in, crash_in, step_at};
ghost use Rattle.pp_replay.specs.Arity.{only_peer};
ghost use Rattle.pp_replay.specs.Lines.{as_row, words_left};
ghost use Rattle.pp_replay.specs.StepNames.{step_for};
ghost use Rattle.pp_replay.specs.Views.{viewed, same, as_kind, as_step};

use crate::arity::{one_word, three_words, two_words};
use crate::datagram::datagram_in;
use crate::fault::ScheduleKind;
use crate::lines::{Row, Words, first_word};
use crate::names::{StepName, device_of, step_named};
use crate::numbers::{number_in, one_of, peer_in};
use crate::types::{Act, Step};

// The greatest number of a line.
const MOST_LINES: u32 = 65_536;

/// The step on a line of this number, in a schedule of so many peers.
pub(crate) fn step_at<'a>(peers: u8, line: u32, row: &Row<'a>) -> Result<Step<'a>, ScheduleKind>
    ensures step { viewed as_step as_kind result ≡ step_at peers line (as_row row.now) }
    ensures low { OnOk result (line ≤ 65536) }
{
    if line > MOST_LINES {
        return Err(ScheduleKind::Long);
    }
    if !row.is_ended {
        return Err(ScheduleKind::Line);
    }
    step_in(peers, row.text)
}

fn step_in(peers: u8, line: &[u8]) -> Result<Step<'_>, ScheduleKind>
    ensures { viewed as_step as_kind result ≡ step_in peers (words_of line.now) }
{
    let (name, rest) = first_word(line);
    match step_named(name) {
        Some(name) => step_for(name, peers, rest),
        None => Err(ScheduleKind::Line),
    }
}

fn step_for(name: StepName, peers: u8, rest: Words<'_>) -> Result<Step<'_>, ScheduleKind>
    ensures { viewed as_step as_kind result ≡ step_for name peers (words_left rest.entry) }
{
    match name {
        StepName::Turn => Ok(Step::Once(Act::Turn(one_peer(peers, rest)?))),
        StepName::Run => run_in(rest),
        StepName::Lose => Ok(Step::Once(Act::Lose(one_peer(peers, rest)?))),
        StepName::Repeat => Ok(Step::Once(Act::Repeat(one_peer(peers, rest)?))),
        StepName::Later => Ok(Step::Once(Act::Later(one_peer(peers, rest)?))),
        StepName::Forge => forge_in(peers, rest),
        StepName::Fail => fail_in(peers, rest),
        StepName::Crash => crash_in(peers, rest),
        StepName::Stop => Ok(Step::Once(Act::Stop(one_peer(peers, rest)?))),
        StepName::Start => Ok(Step::Once(Act::Start(one_peer(peers, rest)?))),
    }
}

fn one_peer(peers: u8, words: Words<'_>) -> Result<u8, ScheduleKind>
    ensures { viewed same as_kind result ≡ only_peer peers (words_left words.entry) }
{
    let word = one_word(words)?;
    let peer = peer_in(word)?;
    one_of(peers, peer)
}

fn run_in(words: Words<'_>) -> Result<Step<'_>, ScheduleKind>
    ensures { viewed as_step as_kind result ≡ run_in (words_left words.entry) }
{
    let (rounds, gain) = two_words(words)?;
    let rounds = number_in(1, 10_000, rounds)?;
    let gain = number_in(0, 600_000_000, gain)?;
    Ok(Step::Run {
        rounds: rounds as u32,
        gain,
    })
}

fn forge_in(peers: u8, words: Words<'_>) -> Result<Step<'_>, ScheduleKind>
    ensures { viewed as_step as_kind result ≡ forge_in peers (words_left words.entry) }
{
    let (peer, sender, datagram) = three_words(words)?;
    let peer = peer_in(peer)?;
    let sender = peer_in(sender)?;
    let peer = one_of(peers, peer)?;
    let sender = one_of(peers, sender)?;
    match datagram_in(datagram) {
        Ok(datagram) => Ok(Step::Once(Act::Forge {
            peer,
            sender,
            datagram,
        })),
        Err(kind) => Err(kind),
    }
}

fn fail_in(peers: u8, words: Words<'_>) -> Result<Step<'_>, ScheduleKind>
    ensures { viewed as_step as_kind result ≡ fail_in peers (words_left words.entry) }
{
    let (peer, call) = two_words(words)?;
    let call = device_of(call)?;
    let peer = peer_in(peer)?;
    let peer = one_of(peers, peer)?;
    Ok(Step::Once(Act::Fail { peer, call }))
}

fn crash_in(peers: u8, words: Words<'_>) -> Result<Step<'_>, ScheduleKind>
    ensures { viewed as_step as_kind result ≡ crash_in peers (words_left words.entry) }
{
    let (peer, pick) = two_words(words)?;
    let peer = peer_in(peer)?;
    let pick = number_in(0, u64::MAX, pick)?;
    let peer = one_of(peers, peer)?;
    Ok(Step::Once(Act::Crash { peer, pick }))
}
