//! The recording of a session of a replay.
ghost use Rattle.std.specs.Prelude.{◌≡◌, reverse, length, IfOk, IfErr};
ghost use Rattle.pp_tree.specs.Book.{entry};
ghost use Rattle.pp_outside.specs.MemoryLink.{in_order};
ghost use Rattle.pp_play.specs.Recording.{lives_of, IsLifeRecorded, IsRecordFault};

use crate::replaying::Outcome;
use pp_actor::Life;
use pp_recording::{Recording, SessionFault, of_session};
use std::alloc::Global;
use thiserror::Error;

/// Why a life of a replay has no recording.
#[derive(Clone, Copy, Debug, PartialEq, Eq, Error)]
pub enum RecordFault {
    /// There is no such life; so many the peer has, 0 where there is no such peer.
    #[error("no such life of {lives}")]
    NoLife {
        lives: u32,
    },
    /// The recording would pass a limit: 16,384 records, 65,536 nodes or 16,777,216 bytes.
    #[error("too large: {records} records, {nodes} nodes, {bytes} bytes")]
    Limit {
        records: usize,
        nodes: usize,
        bytes: u64,
    },
    /// Memory is missing.
    #[error("no memory")]
    Memory,
}

// The lives of a peer, the oldest first; none where there is no such peer.
fn lives_of(outcome: &Outcome, peer: u8) -> &[Life]
    ensures { result.now ≡ lives_of outcome.now peer }
{
    match outcome.ends.get(usize::from(peer)) {
        Some(end) => end.lives(),
        None => &[],
    }
}

/// The recording of a peer's life, the first of which has the number 1: the traffic of its link, and what its book knew at
/// its end.
pub fn record_life(
    alloc: Global,
    outcome: &Outcome,
    peer: u8,
    life: u32,
) -> Result<Recording, RecordFault>
    ensures ok { IfOk result (IsLifeRecorded outcome.now peer life) }
    ensures fault { IfErr result (IsRecordFault outcome.now peer life) }
{
    let lives = lives_of(outcome, peer);
    if life == 0 || lives.len() < life as usize {
        return Err(RecordFault::NoLife {
            lives: lives.len().min(u32::MAX as usize) as u32,
        });
    }
    let it = &lives[life as usize - 1];
    match of_session(alloc, &outcome.descriptor, it.book(), it.link()) {
        Ok(recording) => Ok(recording),
        Err(
            SessionFault::Limit {
                records,
                nodes,
                bytes,
            },
        ) => Err(RecordFault::Limit {
            records,
            nodes,
            bytes,
        }),
        Err(SessionFault::Memory) => Err(RecordFault::Memory),
    }
}
