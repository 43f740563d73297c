// What stands in front of the steps. Each function answers the text behind what it read.
ghost use Rattle.std.specs.Prelude.{◌≡◌, ◌+◌, ◌≤◌, length, map, nat_lt, Err, MatchResult};
ghost use Rattle.std.specs.List.{list_all};
ghost use Rattle.pp_world.specs.ScheduleFault.{fault};
ghost use Rattle.pp_world.specs.ScheduleRead.{Declared, rows_of, words_of, names_peer, dials_declared, all_declared, peers_declared, peers_end, read_first, read_second, read_rest};
ghost use Rattle.pp_replay.specs.Begun.{as_begun};
ghost use Rattle.pp_replay.specs.Roles.{declared};
ghost use Rattle.pp_replay.specs.Views.{viewed, same, as_kind, as_fault, as_role};

use crate::content::{Content, content_at};
use crate::fault::{ScheduleFault, ScheduleKind};
use crate::lines::{first_row, first_word};
use crate::roles::role_at;
use crate::types::Role;
use arrayvec::ArrayVec;

/// A fault on a line.
pub(crate) fn fault(line: u32, kind: ScheduleKind) -> ScheduleFault
    ensures { as_fault result ≡ fault line (as_kind kind) }
{
    ScheduleFault { line, kind }
}

/// Reads the first line.
pub(crate) fn read_first(text: &[u8]) -> Result<&[u8], ScheduleFault>
    ensures { MatchResult result (λ behind. read_first (rows_of text.now) ≡ read_second (rows_of behind.now))
        (λ f. read_first (rows_of text.now) ≡ Err (as_fault f)) }
{
    let Some((row, behind)) = first_row(text) else {
        return Err(fault(1, ScheduleKind::Header));
    };
    if row.text != b"ppspp-schedule 1".as_slice() {
        return Err(fault(1, ScheduleKind::Header));
    }
    if !row.is_ended {
        return Err(fault(1, ScheduleKind::Line));
    }
    Ok(behind)
}

/// Reads the second line, with which the text begins.
pub(crate) fn read_second(text: &[u8]) -> Result<(Content, &[u8]), ScheduleFault>
    ensures { MatchResult result (λ r. read_second (rows_of text.now) ≡ read_rest (as_begun r.0) (rows_of r.1.now))
        (λ f. read_second (rows_of text.now) ≡ Err (as_fault f)) }
{
    let Some((row, behind)) = first_row(text) else {
        return Err(fault(2, ScheduleKind::Content));
    };
    match content_at(&row) {
        Ok(content) => Ok((content, behind)),
        Err(kind) => Err(fault(2, kind)),
    }
}

/// Reads the lines of peers that have no fault of their own, with which the text begins.
pub(crate) fn read_roles(text: &[u8]) -> (ArrayVec<Role, 16>, &[u8])
    ensures { peers_declared 0 (rows_of text.now) ≡ declared (map as_role result.0.items) (rows_of result.1.now) }
{
    let mut roles = ArrayVec::new();
    let mut rest = text;
    while let Some((row, behind)) = first_row(rest) {
        let Ok(role) = role_at(roles.len() as u8, &row) else {
            return (roles, rest);
        };
        roles.push(role);
        rest = behind;
    }
    (roles, rest)
}

/// Says which is the first role that dials a peer which isn't declared. The first of them stands on line 3.
pub(crate) fn all_declared(roles: &[Role]) -> Result<(), ScheduleFault>
    requires { length roles.now ≤ 16 }
    ensures { viewed same as_fault result ≡ all_declared (length roles.now) 3 (map as_role roles.now) }
{
    let peers = roles.len() as u8;
    let mut line = 3;
    for role in roles {
        if !dials_declared(peers, role) {
            return Err(fault(line, ScheduleKind::Peer));
        }
        line += 1;
    }
    Ok(())
}

fn dials_declared(peers: u8, role: &Role) -> bool
    ensures { result ≡ dials_declared peers (as_role role.now) }
{
    match role {
        Role::Seeds => true,
        Role::Fetches { dialled, .. } => are_below(peers, dialled.as_slice()),
    }
}

fn are_below(peers: u8, dialled: &[u8]) -> bool
    ensures { result ≡ list_all (λ q. nat_lt q peers) dialled.now }
{
    dialled.iter().all(|peer| *peer < peers)
}

/// Says what is wrong where the lines of peers end, behind so many of them.
pub(crate) fn peers_end(peers: u8, text: &[u8]) -> Result<(), ScheduleFault>
    ensures { viewed same as_fault result ≡ peers_end peers (rows_of text.now) }
{
    if let Some((row, _)) = first_row(text)
        && names_peer(row.text)
    {
        return match role_at(peers, &row) {
            Ok(_) => Ok(()),
            Err(kind) => Err(fault(u32::from(peers) + 3, kind)),
        };
    }
    if peers == 0 {
        return Err(fault(3, ScheduleKind::Line));
    }
    Ok(())
}

fn names_peer(line: &[u8]) -> bool
    ensures { result ≡ names_peer (words_of line.now) }
{
    let (name, _) = first_word(line);
    name == b"peer".as_slice()
}
