// Sources and a sink in memory.
use pp_outside::{MemorySink, MemorySource, Sink, Source, ZeroSource};
use std::test::*;

// A reading of a source: what it answers, and what two bytes of sevens then are.
fn two(source: &mut impl Source) -> (Option<usize>, [u8; 2]) {
    let mut into = [7; 2];
    (source.read(&mut into).ok(), into)
}

fn gives(source: &mut impl Source) -> bool {
    two(source) == (Some(2), [1, 2])
        && source.read(&mut []) == Ok(0)
        && two(source) == (Some(1), [3, 7])
        && two(source) == (Some(0), [7, 7])
}

fn gives_and_fails(source: &mut impl Source) -> bool {
    two(source) == (Some(1), [1, 7])
        && two(source) == (None, [7, 7])
        && two(source) == (None, [7, 7])
        && source.read(&mut []) == Ok(0)
}

#[test]
fn gives_its_bytes_in_pieces(rt: HostRuntime) {
    assert!(rt; gives(&mut MemorySource::new(&[1, 2, 3])));
    assert!(rt; gives_and_fails(&mut MemorySource::failing(&[1])));
}

fn gives_zeros(source: &mut impl Source) -> bool {
    two(source) == (Some(2), [0, 0])
        && source.read(&mut []) == Ok(0)
        && two(source) == (Some(1), [0, 7])
        && two(source) == (Some(0), [7, 7])
}

#[test]
fn gives_zeros_and_ends(rt: HostRuntime) {
    assert!(rt; gives_zeros(&mut ZeroSource::new(3)));
}

fn refuses_once(sink: &mut MemorySink) -> bool {
    let takes_two = sink.write(&[1, 2]) == Ok(2);
    sink.fail_next();
    takes_two
        && sink.write(&[3]).is_err()
        && sink.write(&[4]) == Ok(1)
        && sink.bytes() == [1, 2, 4].as_slice()
}

#[test]
fn refuses_once_on_order(rt: HostRuntime) {
    assert!(rt; refuses_once(&mut MemorySink::new(rt.alloc())));
}
