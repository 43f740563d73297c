// The words of a peer's line.
ghost use Rattle.std.specs.Prelude.{◌≡◌, ◌<◌, ◌≤◌, length, OnOk, MatchResult, Ok, Err};
ghost use Rattle.pp_world.specs.ScheduleRead.{words_of, role_at, role_in, role_of, seed_in, fetch_in, peers_in, next_peer};
ghost use Rattle.pp_replay.specs.Lines.{as_row, words_left};
ghost use Rattle.pp_replay.specs.Views.{viewed, as_kind, as_role};

use crate::fault::ScheduleKind;
use crate::lines::{Row, Words, first_word};
use crate::names::order_of;
use crate::numbers::peer_in;
use crate::types::Role;
use arrayvec::ArrayVec;

/// The role on a line, where peers below `next` are declared already.
pub(crate) fn role_at(next: u8, row: &Row<'_>) -> Result<Role, ScheduleKind>
    ensures role { viewed as_role as_kind result ≡ role_at next (as_row row.now) }
    ensures low { OnOk result (next ≤ 15) }
{
    if row.is_ended {
        role_in(next, row.text)
    } else {
        Err(ScheduleKind::Line)
    }
}

fn role_in(next: u8, line: &[u8]) -> Result<Role, ScheduleKind>
    ensures role { viewed as_role as_kind result ≡ role_in next (words_of line.now) }
    ensures low { OnOk result (next ≤ 15) }
{
    let (name, rest) = first_word(line);
    if name == b"peer".as_slice() {
        role_of(next, rest)
    } else {
        Err(ScheduleKind::Line)
    }
}

fn role_of(next: u8, mut words: Words<'_>) -> Result<Role, ScheduleKind>
    ensures role { viewed as_role as_kind result ≡ role_of next (words_left words.entry) }
    ensures low { OnOk result (next ≤ 15) }
{
    let Some(number) = words.next_word() else {
        return Err(ScheduleKind::Line);
    };
    let Some(kind) = words.next_word() else {
        return Err(ScheduleKind::Line);
    };
    match words.next_word() {
        None => seed_in(next, number, kind),
        Some(_) if words.is_empty() => Err(ScheduleKind::Line),
        Some(how) => fetch_in(next, number, kind, how, words),
    }
}

fn seed_in(next: u8, number: &[u8], kind: &[u8]) -> Result<Role, ScheduleKind>
    ensures role { viewed as_role as_kind result ≡ seed_in next number.now kind.now }
    ensures low { OnOk result (next ≤ 15) }
{
    if kind != b"seed".as_slice() {
        return Err(ScheduleKind::Line);
    }
    let peer = peer_in(number)?;
    next_peer(next, peer, &[])?;
    Ok(Role::Seeds)
}

fn fetch_in(
    next: u8,
    number: &[u8],
    kind: &[u8],
    how: &[u8],
    others: Words<'_>,
) -> Result<Role, ScheduleKind>
    ensures role { viewed as_role as_kind result ≡ fetch_in next number.now kind.now how.now (words_left others.entry) }
    ensures low { OnOk result (next ≤ 15) }
{
    if kind != b"fetch".as_slice() || !others.are_few() {
        return Err(ScheduleKind::Line);
    }
    let order = order_of(how)?;
    let peer = peer_in(number)?;
    let dialled = peers_in(others)?;
    next_peer(next, peer, dialled.as_slice())?;
    Ok(Role::Fetches { order, dialled })
}

// The numbers of peers that words write.
fn peers_in(mut words: Words<'_>) -> Result<ArrayVec<u8, 15>, ScheduleKind>
    requires { length (words_left words) ≤ 15 }
    ensures { viewed (λ peers. peers.items) as_kind result ≡ peers_in (words_left words.entry) }
{
    let mut peers = ArrayVec::new();
    while let Some(word) = words.next_word() {
        peers.push(peer_in(word)?);
    }
    Ok(peers)
}

// Says whether the peer is the next one and none of the others.
fn next_peer(next: u8, peer: u8, others: &[u8]) -> Result<(), ScheduleKind>
    ensures next { MatchResult result (λ _. next_peer next peer others.now ≡ Ok peer)
        (λ kind. next_peer next peer others.now ≡ Err (as_kind kind)) }
    ensures same { OnOk result (peer ≡ next) }
{
    if peer == next && !others.contains(&peer) {
        Ok(())
    } else {
        Err(ScheduleKind::Peer)
    }
}
