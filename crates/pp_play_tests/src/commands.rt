//! What `run` prints of schedules and rehearsals.

use crate::ends::{CRASHED, FOURTH, OTHER};
use pp_node::run;
use pp_outside::{MemoryDisk, MemoryLink, MemorySink, MemorySource};
use pp_replay::rehearsal;
use pp_tree::Book;
use std::alloc::{AllocError, Global};
use std::test::Fail;

// What a run answered, and its sink.
#[derive(Drop)]
pub(crate) struct Ran {
    pub(crate) status: u8,
    pub(crate) sink: MemorySink,
}

pub(crate) fn run_over(
    alloc: Global,
    line: &[&str],
    source: &mut MemorySource<'_>,
    mut sink: MemorySink,
) -> Result<Ran, AllocError> {
    let mut words = Vec::new(alloc);
    for word in line {
        words.push(String::from_str(alloc, word)?)?;
    }
    let mut disk = MemoryDisk::new(alloc, &[])?;
    let mut link = MemoryLink::new(alloc)?;
    let mut book = Book::empty(alloc);
    let status = run(
        alloc, &words, [0; 32], &mut disk, &mut link, source, &mut sink, &mut book,
    );
    Ok(Ran { status, sink })
}

fn replay_of(alloc: Global, text: &[u8]) -> Result<Ran, AllocError> {
    run_over(
        alloc,
        &["replay"],
        &mut MemorySource::new(text),
        MemorySink::new(alloc),
    )
}

const LINES: &[u8] = b"peer 0 lives 1 announced 7 held 0-6
peer 1 lives 2 announced 7 held 0-6
peer 2 lives 1 announced 7 held 0-6
";

#[test]
fn prints_a_line_for_each_peer(rt: HostRuntime) -> Result<(), Fail> {
    let ran = replay_of(rt.alloc(), CRASHED)?;
    assert_eq!(rt; (ran.status, ran.sink.bytes()), (0, LINES));
    Ok(())
}

// One text for each kind of fault but `long`, whose texts are long.
#[test]
fn names_the_first_faulty_line(rt: HostRuntime) -> Result<(), Fail> {
    let faults: [(&[u8], &[u8]); 7] = [
        (OTHER, b"schedule: line 1: header\n"),
        (FOURTH, b"schedule: line 4: peer\n"),
        (
            b"ppspp-schedule 1\ncontent 1000 7000 5\n",
            b"schedule: line 2: content\n",
        ),
        (
            b"ppspp-schedule 1\ncontent 1024 7000 5\npeer 1 seed\n",
            b"schedule: line 3: peer\n",
        ),
        (
            b"ppspp-schedule 1\ncontent 1024 7000 5\npeer 0 seed\nturns 0\n",
            b"schedule: line 4: line\n",
        ),
        (
            b"ppspp-schedule 1\ncontent 1024 7000 5\npeer 0 seed\nrun 0 1\n",
            b"schedule: line 4: number\n",
        ),
        (
            b"ppspp-schedule 1\ncontent 1024 7000 5\npeer 0 seed\nforge 0 0 A0\n",
            b"schedule: line 4: hex\n",
        ),
    ];
    for (text, want) in faults {
        let ran = replay_of(rt.alloc(), text)?;
        assert_eq!(rt; (ran.status, ran.sink.bytes()), (10, want));
    }
    Ok(())
}

#[test]
fn says_which_device_failed(rt: HostRuntime) -> Result<(), Fail> {
    let alloc = rt.alloc();
    let mut source = MemorySource::failing(CRASHED);
    let sink = MemorySink::new(alloc);
    let ran = run_over(alloc, &["replay"], &mut source, sink)?;
    assert_eq!(rt; ran.status, 6);
    assert_eq!(rt; ran.sink.bytes(), b"source fault\n".as_slice());

    let mut sink = MemorySink::new(alloc);
    sink.fail_next();
    let mut source = MemorySource::new(CRASHED);
    let ran = run_over(alloc, &["replay"], &mut source, sink)?;
    assert_eq!(rt; ran.status, 7);
    assert_eq!(rt; ran.sink.bytes().len(), 0);
    Ok(())
}

fn rehearse_one(alloc: Global) -> Result<Ran, AllocError> {
    run_over(
        alloc,
        &["rehearse", "1"],
        &mut MemorySource::new(&[]),
        MemorySink::new(alloc),
    )
}

// A rehearsal prints the same at each time, which is what a replay of its text prints.
#[test]
fn rehearses_the_same_each_time(rt: HostRuntime) -> Result<(), Fail> {
    let alloc = rt.alloc();
    let first = rehearse_one(alloc)?;
    let second = rehearse_one(alloc)?;
    let replayed = replay_of(alloc, &rehearsal(alloc, 1)?)?;
    let lines = first.sink.bytes().iter().filter(|c| **c == b'\n').count();
    assert_eq!(rt;
        (first.status, second.status, replayed.status, lines),
        (0, 0, 0, 4)
    );
    assert_eq!(rt; first.sink.bytes(), second.sink.bytes());
    assert_eq!(rt; first.sink.bytes(), replayed.sink.bytes());
    Ok(())
}
