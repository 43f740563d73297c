// The texts of schedules.
use ScheduleKind::{Content, Header, Hex, Line, Number, Peer};
use pp_replay::{
    Act, Device, Order, Role, Schedule, ScheduleFault, ScheduleKind, Step, Steps, read_schedule,
};
use std::alloc::{AllocError, Global};
use std::test::*;

const THREE_PEERS: &[u8] = b"ppspp-schedule 1\n\
    content 1024 7000 5\n\
    peer 0 seed\n\
    peer 1 fetch sequential 0\n\
    peer 2 fetch rarest 0 1\n\
    run 8 100000\n\
    lose 2\n\
    repeat 1\n\
    crash 1 2\n\
    start 1\n\
    run 600 100000\n";

const OTHER_STEPS: &[u8] = b"ppspp-schedule 1\n\
    content 8192 1048576 255\n\
    peer 0 seed\n\
    forge 0 0 00ff1e\n\
    fail 0 receive\n\
    turn 0\n\
    later 0\n\
    stop 0\n\
    crash 0 18446744073709551615\n";

// Up to a step, of one peer.
const SEEDED: &[u8] = b"ppspp-schedule 1\ncontent 1024 1 0\npeer 0 seed\n";

fn has_fault(text: &[u8], line: u32, kind: ScheduleKind) -> bool {
    match read_schedule(text) {
        Ok(_) => false,
        Err(fault) => fault == ScheduleFault { line, kind },
    }
}

const FAULTY: [(&[u8], u32, ScheduleKind); 20] = [
    (b"", 1, Header),
    (b"ppspp-schedule 2\n", 1, Header),
    (b"ppspp-schedule 1", 1, Line),
    (b"ppspp-schedule 1\n", 2, Content),
    (b"ppspp-schedule 1\ncontent 1024 1 0", 2, Line),
    (
        b"ppspp-schedule 1\ncontent 1024 1048577 0\npeer 0 seed\n",
        2,
        Content,
    ),
    (
        b"ppspp-schedule 1\ncontent 2-6 8266 60\npeer 0 seed\n",
        2,
        Content,
    ),
    (b"ppspp-schedule 1\ncontent 1024 1 0\n", 3, Line),
    (b"ppspp-schedule 1\ncontent 1024 1 0\nturn 0\n", 3, Line),
    (
        b"ppspp-schedule 1\ncontent 1024 1 0\npeer 0 fetch rarest 1\npeer 1 fetch rarest 1\n",
        3,
        Peer,
    ),
    (
        b"ppspp-schedule 1\ncontent 1024 1 0\npeer 0 seed\npeer 1 fetch rarest 0 1\n",
        4,
        Peer,
    ),
    (
        b"ppspp-schedule 1\ncontent 1024 1 0\npeer 0 seed\nturn 0\npeer 1 seed\n",
        5,
        Line,
    ),
    (
        b"ppspp-schedule 1\ncontent 1024 7000 5\npeer 0 seed\nturn 3\n",
        4,
        Peer,
    ),
    (
        b"ppspp-schedule 1\ncontent 1024 1 0\npeer 0 seed\nturn 16\n",
        4,
        Number,
    ),
    (
        b"ppspp-schedule 1\ncontent 1024 1 0\npeer 0 seed\nrun 01 5\n",
        4,
        Number,
    ),
    (
        b"ppspp-schedule 1\ncontent 1024 1 0\npeer 0 seed\ncrash 9 18446744073709551616\n",
        4,
        Number,
    ),
    (
        b"ppspp-schedule 1\ncontent 1024 1 0\npeer 0 seed\nforge 0 1 0A\n",
        4,
        Peer,
    ),
    (
        b"ppspp-schedule 1\ncontent 1024 1 0\npeer 0 seed\nforge 0 0 0A\n",
        4,
        Hex,
    ),
    (
        b"ppspp-schedule 1\ncontent 1024 1 0\npeer 0 seed\nfail 99 len\n",
        4,
        Line,
    ),
    (
        b"ppspp-schedule 1\ncontent 1024 1 0\npeer 0 seed\nturn 99",
        4,
        Line,
    ),
];

// How many of these are refused so, before one that isn't. Expected is what a program in Python answers.
fn refused(texts: &[(&[u8], u32, ScheduleKind)]) -> u8 {
    let mut right: u8 = 0;
    for (text, line, kind) in texts {
        if !has_fault(text, *line, *kind) {
            return right;
        }
        right = right.saturating_add(1);
    }
    right
}

#[test]
fn refuses_by_first_faulty_line(rt: HostRuntime) {
    assert_eq!(rt; refused(&FAULTY), 20);
}

// As many lines of a step behind one peer's.
fn turns(alloc: Global, count: u32) -> Result<Vec<u8>, AllocError> {
    let mut text = Vec::from_slice(alloc, SEEDED)?;
    for _ in 0..count {
        text.extend_from_slice(b"turn 0\n")?;
    }
    Ok(text)
}

fn turns_are_read(alloc: Global, count: u32) -> bool {
    match turns(alloc, count) {
        Ok(text) => read_schedule(&text).is_ok(),
        Err(_) => false,
    }
}

fn turns_are_long(alloc: Global, count: u32, line: u32) -> bool {
    match turns(alloc, count) {
        Ok(text) => has_fault(&text, line, ScheduleKind::Long),
        Err(_) => false,
    }
}

#[test]
fn refuses_long_texts(rt: HostRuntime) {
    assert!(rt; turns_are_read(rt.alloc(), 65_533));
    assert!(rt; turns_are_long(rt.alloc(), 65_534, 65_537));
    match vec![in rt.alloc(); 0; 1_048_577] {
        Ok(zeros) => assert!(rt; has_fault(&zeros, 0, ScheduleKind::Long)),
        Err(_) => assert!(rt; false),
    }
}

// Whether the next step is that many rounds.
fn is_run(steps: &mut Steps<'_>, rounds: u32, gain: u64) -> bool {
    match steps.next_step() {
        Some(
            Step::Run {
                rounds: found,
                gain: each,
            },
        ) => found == rounds && each == gain,
        _ => false,
    }
}

// What an act is called, its peer, and a crash's pick.
fn told(act: &Act<'_>) -> (&'static str, u8, u64) {
    match *act {
        Act::Turn(peer) => ("turn", peer, 0),
        Act::Lose(peer) => ("lose", peer, 0),
        Act::Repeat(peer) => ("repeat", peer, 0),
        Act::Later(peer) => ("later", peer, 0),
        Act::Stop(peer) => ("stop", peer, 0),
        Act::Start(peer) => ("start", peer, 0),
        Act::Crash { peer, pick } => ("crash", peer, pick),
        Act::Fail {
            peer,
            call: Device::Receive,
        } => ("fail to receive", peer, 0),
        _ => ("another", 0, 0),
    }
}

// Whether the next step is an act of this name, by this peer, with this pick.
fn is_act(steps: &mut Steps<'_>, name: &str, peer: u8, pick: u64) -> bool {
    match steps.next_step() {
        Some(Step::Once(act)) => told(&act) == (name, peer, pick),
        _ => false,
    }
}

fn are_steps_of_three(steps: &mut Steps<'_>) -> bool {
    is_run(steps, 8, 100_000)
        && is_act(steps, "lose", 2, 0)
        && is_act(steps, "repeat", 1, 0)
        && is_act(steps, "crash", 1, 2)
        && is_act(steps, "start", 1, 0)
        && is_run(steps, 600, 100_000)
        && steps.next_step().is_none()
}

fn are_roles_of_three(roles: &[Role]) -> bool {
    match roles {
        [
            Role::Seeds,
            Role::Fetches {
                order: Order::Sequential,
                dialled: first,
            },
            Role::Fetches {
                order: Order::Rarest,
                dialled: second,
            },
        ] => first.as_slice() == [0].as_slice() && second.as_slice() == [0, 1].as_slice(),
        _ => false,
    }
}

// Of 7,000 bytes in chunks of 1,024: 5, 12, 19 .., with a step more at the 256th.
fn is_content_of_three(schedule: &Schedule<'_>) -> bool {
    let mut first = [0; 4];
    schedule.write_content(0, &mut first);
    (schedule.chunk(), schedule.size(), schedule.shift()) == (1_024, 7_000, 5)
        && first == [5, 12, 19, 26]
        && schedule.byte_at(256) == 6
}

fn is_of_three(schedule: &Schedule<'_>) -> bool {
    schedule.peers() == 3
        && is_content_of_three(schedule)
        && are_roles_of_three(schedule.roles())
        && are_steps_of_three(&mut schedule.steps())
}

#[test]
fn reads_three_peers(rt: HostRuntime) {
    match read_schedule(THREE_PEERS) {
        Ok(schedule) => assert!(rt; is_of_three(&schedule)),
        Err(_) => assert!(rt; false),
    }
}

// The bytes of a datagram of three.
fn three_bytes(step: Option<Step<'_>>) -> Option<[u8; 3]> {
    let Some(
        Step::Once(
            Act::Forge {
                peer: 0,
                sender: 0,
                datagram,
            },
        ),
    ) = step
    else {
        return None;
    };
    if datagram.len() != 3 {
        return None;
    }
    let mut bytes = [0; 3];
    datagram.decode(&mut bytes);
    Some(bytes)
}

fn are_other_steps(steps: &mut Steps<'_>) -> bool {
    three_bytes(steps.next_step()) == Some([0x00, 0xff, 0x1e])
        && is_act(steps, "fail to receive", 0, 0)
        && is_act(steps, "turn", 0, 0)
        && is_act(steps, "later", 0, 0)
        && is_act(steps, "stop", 0, 0)
        && is_act(steps, "crash", 0, u64::MAX)
        && steps.next_step().is_none()
}

#[test]
fn reads_other_steps(rt: HostRuntime) {
    match read_schedule(OTHER_STEPS) {
        Ok(schedule) => assert!(rt; are_other_steps(&mut schedule.steps())),
        Err(_) => assert!(rt; false),
    }
}

#[test]
fn prints_faults(rt: HostRuntime) {
    let fault = ScheduleFault {
        line: 4,
        kind: ScheduleKind::Peer,
    };
    match format!(in rt.alloc(); "{fault}") {
        Ok(said) => assert_eq!(rt; said.as_str(), "schedule: line 4: peer"),
        Err(_) => assert!(rt; false),
    }
}
