// Counts of notes.
use pp_counts::{Counts, Note};
use std::test::*;

const EACH: [Note; 22] = [
    Note::Turn,
    Note::Datagram,
    Note::Sent,
    Note::Stored,
    Note::KeepAlive,
    Note::Short,
    Note::Stranger,
    Note::RefusedHandshake,
    Note::NoSeat,
    Note::Cut,
    Note::Outside,
    Note::NotANode,
    Note::Full,
    Note::Choked,
    Note::Unheld,
    Note::Missing,
    Note::Wrong,
    Note::Repeat,
    Note::Damaged,
    Note::ReadFault,
    Note::SendFault,
    Note::ReceiveFault,
];

fn one_to_twenty_two() -> Counts {
    Counts {
        turns: 1,
        datagrams: 2,
        sent: 3,
        stored: 4,
        keepalives: 5,
        short: 6,
        stranger: 7,
        refused_handshakes: 8,
        no_seat: 9,
        cut: 10,
        outside: 11,
        not_a_node: 12,
        full: 13,
        choked: 14,
        unheld: 15,
        missing: 16,
        wrong: 17,
        repeats: 18,
        damaged: 19,
        read_faults: 20,
        send_faults: 21,
        receive_faults: 22,
    }
}

// A note is counted three times.
fn counts_repeats(counts: &mut Counts) -> bool {
    for _ in 0..3 {
        counts.note(Note::Repeat);
    }
    *counts
        == (Counts {
            repeats: 3,
            ..Counts::new()
        })
}

// A count goes to the greatest number and stands still there.
fn stands_still(counts: &mut Counts) -> bool {
    counts.sent = 18446744073709551614;
    counts.note(Note::Sent);
    let reached = counts.sent == 18446744073709551615;
    counts.note(Note::Sent);
    counts.note_all(Note::Sent, 4294967295);
    reached && counts.sent == 18446744073709551615
}

// Each note is counted, the first once, the second twice, and so on.
fn counts_each(counts: &mut Counts) -> bool {
    let mut times: u32 = 0;
    for note in EACH {
        times = times.saturating_add(1);
        counts.note_all(note, times);
    }
    *counts == one_to_twenty_two()
}

#[test]
fn counts_of_some_notes(rt: HostRuntime) {
    let mut counts = Counts::default();
    assert!(rt; counts == Counts::new());
    assert!(rt; counts_repeats(&mut counts));
    assert!(rt; stands_still(&mut counts));
    assert!(rt; counts_each(&mut Counts::new()));
}
