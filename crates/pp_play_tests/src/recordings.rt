//! What `run` writes of a schedule's life, and what it says of recordings.

use crate::commands::{Ran, run_over};
use crate::ends::{CRASHED, OTHER};
use pp_outside::{MemorySink, MemorySource};
use std::alloc::{AllocError, Global};
use std::test::Fail;

fn record_of(alloc: Global, peer: &str, life: &str, text: &[u8]) -> Result<Ran, AllocError> {
    run_over(
        alloc,
        &["record", peer, life],
        &mut MemorySource::new(text),
        MemorySink::new(alloc),
    )
}

fn audit_of(alloc: Global, text: &[u8]) -> Result<Ran, AllocError> {
    run_over(
        alloc,
        &["audit"],
        &mut MemorySource::new(text),
        MemorySink::new(alloc),
    )
}

// Whether the line is a record's.
fn is_record(line: &[u8]) -> bool {
    line.starts_with(b"received ") || line.starts_with(b"quiet ") || line.starts_with(b"sent ")
}

// Where the line of a record begins, by its number from 0, or the text's end.
fn place_of(text: &[u8], number: usize) -> usize {
    let mut left = number;
    let mut place = 0usize;
    for line in text.split(|byte| *byte == b'\n') {
        if is_record(line) {
            if left == 0 {
                return place.min(text.len());
            }
            left -= 1;
        }
        place = place.saturating_add(line.len()).saturating_add(1);
    }
    text.len()
}

// Whether a run answered that status, and its sink gained just this.
fn says(ran: &Ran, status: u8, line: &[u8]) -> bool {
    ran.status == status && ran.sink.bytes() == line
}

// The recording of the seeder of the three peers.
fn recorded(alloc: Global) -> Result<Ran, AllocError> {
    record_of(alloc, "0", "1", CRASHED)
}

// The counts are those of another program that reads the recording.
#[test]
fn answers_yes_for_what_was_recorded(rt: HostRuntime) -> Result<(), Fail> {
    let alloc = rt.alloc();
    let taken = recorded(alloc)?;
    let audited = audit_of(alloc, taken.sink.bytes())?;
    assert_eq!(rt; taken.status, 0);
    assert_eq!(rt; place_of(taken.sink.bytes(), 0) > 0, true);
    assert!(rt; says(&audited, 0, b"audit yes 634 records 20 data\n"));
    Ok(())
}

// Record 6 is the first with a chunk, whose last digit is changed.
#[test]
fn names_the_record_of_a_changed_chunk(rt: HostRuntime) -> Result<(), Fail> {
    let alloc = rt.alloc();
    let taken = recorded(alloc)?;
    let whole = taken.sink.bytes();
    let behind = place_of(whole, 7).min(whole.len());
    let mut text = Vec::new(alloc);
    text.extend_from_slice(&whole[..behind])?;
    let _ = text.pop();
    let digit = if text.pop() == Some(b'0') { b'1' } else { b'0' };
    text.push(digit)?;
    text.push(b'\n')?;
    text.extend_from_slice(&whole[behind..])?;
    let audited = audit_of(alloc, &text)?;
    assert!(rt; says(&audited, 14, b"audit no record 6 part 2\n"));
    Ok(())
}

// Record 5 is the first with a request, and is left out.
#[test]
fn names_the_record_that_was_not_asked_for(rt: HostRuntime) -> Result<(), Fail> {
    let alloc = rt.alloc();
    let taken = recorded(alloc)?;
    let whole = taken.sink.bytes();
    let mut text = Vec::new(alloc);
    let before = place_of(whole, 5).min(whole.len());
    let behind = place_of(whole, 6).min(whole.len());
    text.extend_from_slice(&whole[..before])?;
    text.extend_from_slice(&whole[behind..])?;
    let audited = audit_of(alloc, &text)?;
    assert!(rt; says(&audited, 14, b"audit no record 5 part 4\n"));
    Ok(())
}

#[test]
fn says_which_life_there_is_not(rt: HostRuntime) -> Result<(), Fail> {
    let alloc = rt.alloc();
    let third = record_of(alloc, "1", "3", CRASHED)?;
    let fourth = record_of(alloc, "3", "1", CRASHED)?;
    let other = record_of(alloc, "0", "1", OTHER)?;
    assert!(rt; says(&third, 16, b"no life: peer 1 life 3\n"));
    assert!(rt; says(&fourth, 16, b"no life: peer 3 life 1\n"));
    assert!(rt; says(&other, 10, b"schedule: line 1: header\n"));
    Ok(())
}

// Each turn of a seeder to which nobody comes adds a record.
const MOST: &[u8] = b"ppspp-schedule 1
content 256 1 5
peer 0 seed
run 10000 100000
run 6384 100000
";

const ONE_MORE: &[u8] = b"ppspp-schedule 1
content 256 1 5
peer 0 seed
run 10000 100000
run 6385 100000
";

#[test]
fn a_recording_has_at_most_so_many_records(rt: HostRuntime) -> Result<(), Fail> {
    let alloc = rt.alloc();
    let most = record_of(alloc, "0", "1", MOST)?;
    let more = record_of(alloc, "0", "1", ONE_MORE)?;
    assert_eq!(rt; most.status, 0);
    assert!(rt; says(&more, 17, b"recording: too large\n"));
    Ok(())
}

#[test]
fn names_the_first_line_that_is_no_recordings(rt: HostRuntime) -> Result<(), Fail> {
    let faults: [(&[u8], &[u8]); 4] = [
        (b"ppspp-recording 2\n", b"recording: line 1\n"),
        (b"", b"recording: line 1\n"),
        (b"ppspp-recording 1\nppspp1:00\n", b"recording: line 2\n"),
        (CRASHED, b"recording: line 1\n"),
    ];
    for (text, want) in faults {
        let ran = audit_of(rt.alloc(), text)?;
        assert!(rt; says(&ran, 15, want));
    }
    Ok(())
}

#[test]
fn says_which_device_failed_of_a_recording(rt: HostRuntime) -> Result<(), Fail> {
    let alloc = rt.alloc();
    let mut source = MemorySource::failing(CRASHED);
    let ran = run_over(alloc, &["audit"], &mut source, MemorySink::new(alloc))?;
    assert!(rt; says(&ran, 6, b"source fault\n"));
    let mut sink = MemorySink::new(alloc);
    sink.fail_next();
    let mut source = MemorySource::new(CRASHED);
    let ran = run_over(alloc, &["record", "0", "1"], &mut source, sink)?;
    assert_eq!(rt; (ran.status, ran.sink.bytes().len()), (7, 0));
    Ok(())
}
