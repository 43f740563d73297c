//! A peer by what it counts: each count is raised by an event of its own, which raises no other.

use crate::by_chunks::{fetcher, opened, seeder};
use crate::by_datagrams::{
    FRONT, NONE, OURS, PEER, REST, THEIRS, counts, counts_told, noted, opens, proves, request,
};
use crate::by_rows::have;
use crate::side::{ROOT, Side};
use pp_counts::Note;
use pp_outside::Call;
use std::test::*;

// Whether a datagram of these parts is counted, once, as this and as nothing else.
fn counts_parts(side: &mut Side, note: Note, parts: &[&[u8]]) -> bool {
    counts(side, PEER, 9, note, parts)
}

// Whether a handshake with other options is refused: another version is the least.
fn refuses_version(side: &mut Side) -> bool {
    let options: [&[u8]; 6] = [&NONE, &[0], &THEIRS, &[0, 2, 1, 2, 2, 0, 32], &ROOT, &REST];
    counts_parts(side, Note::RefusedHandshake, &options)
}

// The same for a handshake of another swarm.
fn refuses_root(side: &mut Side) -> bool {
    let options: [&[u8]; 6] = [&NONE, &[0], &THEIRS, &FRONT, &[0; 32], &REST];
    counts_parts(side, Note::RefusedHandshake, &options)
}

// Whether nothing is due.
fn answers_none(side: &mut Side) -> bool {
    side.flush();
    side.is_silent()
}

#[test]
fn what_names_no_channel_is_counted(rt: HostRuntime) -> Result<(), Fail> {
    let mut side = Side::full(rt.alloc())?;
    assert!(rt; counts_parts(&mut side, Note::Short, &[&[1, 2, 3]]));
    assert!(rt; counts_parts(&mut side, Note::Stranger, &[&THEIRS]));
    assert!(rt; refuses_version(&mut side) && refuses_root(&mut side));
    assert!(rt; answers_none(&mut side));
    Ok(())
}

// Whether a message on the first channel is counted, once, as this and as nothing else.
fn counts_message(side: &mut Side, note: Note, message: &[u8]) -> bool {
    counts_parts(side, note, &[&OURS, message])
}

// Whether messages of types that there aren't are counted, and what stands behind one isn't read: that the channel ends.
fn cuts(side: &mut Side) -> bool {
    counts_message(side, Note::Cut, &[99])
        && counts_message(side, Note::Cut, &[7, 0, 0, 0, 0, 0, 255])
}

// Whether a chunk of which the other tells, and one that it asks for, are counted as none of the content's.
fn knows_no_chunk(side: &mut Side) -> bool {
    counts_message(side, Note::Outside, &have(7, 7))
        && counts_message(side, Note::Outside, &request(7, 7))
}

// Whether a hash is counted as that of no node: chunks 1 and 2 are those of none.
fn knows_no_node(side: &mut Side) -> bool {
    let hash: [&[u8]; 3] = [&OURS, &[4, 0, 0, 0, 1, 0, 0, 0, 2], &ROOT];
    counts_parts(side, Note::NotANode, &hash)
}

#[test]
fn what_is_read_on_a_channel_is_counted(rt: HostRuntime) -> Result<(), Fail> {
    let mut side = Side::full(rt.alloc())?;
    assert!(rt; proves(&mut side, PEER, &OURS, 5));
    assert!(rt; counts_message(&mut side, Note::KeepAlive, &[]));
    assert!(rt; cuts(&mut side));
    assert!(rt; knows_no_chunk(&mut side) && knows_no_node(&mut side));
    Ok(())
}

#[test]
fn what_is_asked_of_a_peer_without_it_is_counted(rt: HostRuntime) -> Result<(), Fail> {
    let mut side = fetcher(rt.alloc())?;
    assert!(rt; counts_told(&mut side, 9, Note::Unheld, &request(3, 3)));
    Ok(())
}

// Whether it is counted that the link refuses to send a reply.
fn counts_send_fault(side: &mut Side) -> bool {
    let before = *side.peer.counts();
    side.link.fail_next(Call::Send);
    opens(side, PEER, 5) && *side.peer.counts() == noted(&before, Note::SendFault)
}

// Whether it is counted that the disk refuses to read a chunk.
fn counts_read_fault(side: &mut Side) -> bool {
    side.disk.fail_next(Call::Read);
    counts_told(side, 7, Note::ReadFault, &request(0, 0))
}

// Whether it is counted that the link refused a wait.
fn counts_receive_fault(side: &mut Side) -> bool {
    let mut wanted = *side.peer.counts();
    wanted.note(Note::Turn);
    wanted.note(Note::ReceiveFault);
    side.peer.refused();
    *side.peer.counts() == wanted
}

#[test]
fn what_devices_refuse_is_counted(rt: HostRuntime) -> Result<(), Fail> {
    let mut side = Side::full(rt.alloc())?;
    assert!(rt; counts_send_fault(&mut side));
    assert!(rt; proves(&mut side, PEER, &OURS, 6) && counts_read_fault(&mut side));
    assert!(rt; counts_receive_fault(&mut side));
    Ok(())
}

// So many chunks are asked for, no two of which touch.
fn many_asked(side: &mut Side, count: u8) -> bool {
    for n in 0..count {
        let chunk = n.saturating_mul(2);
        if !side.takes(PEER, 4, &[&OURS, &request(chunk, chunk)]) {
            return false;
        }
    }
    true
}

// A list has room for 64 ranges that don't touch.
#[test]
fn a_request_too_many_is_counted(rt: HostRuntime) -> Result<(), Fail> {
    let mut side = seeder(rt.alloc(), 51_200)?;
    assert!(rt; opened(&mut side, &THEIRS) && many_asked(&mut side, 64));
    assert!(rt; counts_message(&mut side, Note::Full, &request(128, 128)));
    Ok(())
}
