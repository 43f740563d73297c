use crate::traffic::swarm;
use pp_audit::*;
use pp_counts::Counts;
use pp_outside::Address;
use std::test::Fail;

const PEER: Address = Address::V4([10, 0, 0, 2], 7000);

// Four turns: a wait that brought nothing, a datagram of three bytes, one of four, and a wait that was refused. An answer
// was sent.
const LIST: [Entry<'static>; 4] = [
    Entry::Quiet { at: 0 },
    Entry::Received {
        at: 1,
        from: PEER,
        bytes: &[0, 0, 0],
    },
    Entry::Received {
        at: 2,
        from: PEER,
        bytes: &[0, 0, 0, 9],
    },
    Entry::Sent {
        moment: 0,
        to: PEER,
        bytes: &[0, 0, 0, 7],
    },
];

fn counted() -> Counts {
    Counts {
        turns: 4,
        datagrams: 2,
        sent: 1,
        short: 1,
        receive_faults: 1,
        ..Counts::new()
    }
}

#[test]
fn decides_a_tally(rt: HostRuntime) {
    assert!(rt; is_tallied(4, &LIST, &counted()));
    // what isn't in the list is left open
    let kept = Counts {
        stored: 9,
        ..counted()
    };
    assert!(rt; is_tallied(4, &LIST, &kept));
    assert!(rt; !is_tallied(3, &LIST, &counted()));
    assert!(rt; !is_tallied(4, &LIST[..3], &counted()));
}

#[test]
fn decides_no_other_tally(rt: HostRuntime) {
    let none_refused = Counts {
        receive_faults: 0,
        ..counted()
    };
    assert!(rt; !is_tallied(4, &LIST, &none_refused));
    let none_short = Counts {
        short: 0,
        ..counted()
    };
    assert!(rt; !is_tallied(4, &LIST, &none_short));
}

#[test]
fn decides_turns(rt: HostRuntime) {
    let before = LinkCounts {
        faults: 2,
        nexts: 10,
    };
    // one of four waits was refused, and the count of faults rose or didn't
    let refused = LinkCounts {
        faults: 3,
        nexts: 14,
    };
    let hidden = LinkCounts {
        faults: 2,
        nexts: 14,
    };
    assert!(rt; took_turns(4, before, refused, &LIST));
    assert!(rt; !took_turns(4, before, hidden, &LIST));
    assert!(rt; !took_turns(3, before, refused, &LIST));
    // none was
    let last = LinkCounts {
        faults: 2,
        nexts: 13,
    };
    assert!(rt; took_turns(3, before, last, &LIST));
    assert!(rt; !took_turns(2, before, last, &LIST));
}

#[test]
fn decides_what_is_missing(rt: HostRuntime) -> Result<(), Fail> {
    let d = swarm(rt.alloc())?;
    assert!(rt; is_complete(&d, &[true; 7]));
    assert!(rt; !is_complete(&d, &[true; 6]));
    assert!(rt; is_first_missing(&d, &[true; 6], 6));
    assert!(rt; !is_first_missing(&d, &[true; 7], 7));
    assert!(rt; is_first_missing(&d, &SET, 2));
    assert!(rt; !is_first_missing(&d, &[false, true, false], 2));
    Ok(())
}

const SET: [bool; 4] = [true, true, false, true];

#[test]
fn decides_held_lines(rt: HostRuntime) {
    assert!(rt; is_held_line(&SET, b"held 3 of 4 0-1,3-3\n"));
    assert!(rt; !is_held_line(&SET, b"held 3 of 4 0-0,1-1,3-3\n"));
    assert!(rt; !is_held_line(&SET, b"held 3 of 4 0-1,3-3"));
    assert!(rt; is_held_line(&[false, false], b"held 0 of 2 none\n"));
    assert!(rt; is_held_line(&[false, true, true], b"held 2 of 3 1-2\n"));
}

const REPORT: &[u8] = b"held 3 of 4 0-1,3-3
turns 4
datagrams 2
sent 1
stored 0
keepalives 0
short 1
stranger 0
refused_handshakes 0
no_seat 0
cut 0
outside 0
not_a_node 0
full 0
choked 0
unheld 0
missing 0
wrong 0
repeats 0
damaged 0
read_faults 0
send_faults 0
receive_faults 1
";

#[test]
fn decides_reports(rt: HostRuntime) {
    assert!(rt; is_report(&SET, &counted(), REPORT));
    assert!(rt; !is_report(&[true, true, true, true], &counted(), REPORT));
    assert!(rt; !is_report(&SET, &Counts::new(), REPORT));
    assert!(rt; !is_report(&SET, &counted(), b"held 3 of 4 0-1,3-3\n"));
}

#[test]
fn decides_reports_of_less(rt: HostRuntime) -> Result<(), Fail> {
    let mut text = Vec::from_slice(rt.alloc(), REPORT)?;
    text.extend_from_slice(b"incomplete: first missing chunk 2\n")?;
    assert!(rt; is_incomplete_report(&SET, &counted(), 2, &text));
    assert!(rt; !is_incomplete_report(&SET, &counted(), 3, &text));
    assert!(rt; !is_incomplete_report(&SET, &counted(), 2, REPORT));
    assert!(rt; !is_report(&SET, &counted(), &text));
    Ok(())
}
