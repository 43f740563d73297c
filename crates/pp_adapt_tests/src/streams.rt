// A source over a reader that is interrupted and fails, and a sink over a writer without room.
use crate::causes::is_told;
use pp_adapt::{Limited, StdinSource, StdoutSink};
use pp_outside::{Sink, SinkFault, Source, SourceFault};
use std::alloc::AllocError;
use std::io::{self, ErrorKind, Read};
use std::process::Abort;

// It is interrupted, gives a byte, fails, and then ends.
#[derive(Drop)]
struct Rough {
    turn: u8,
}

impl Read for Rough {
    fn read(&mut self, buf: &mut [u8]) -> io::Result<usize> {
        self.turn = self.turn.saturating_add(1);
        match self.turn {
            1 => Err(ErrorKind::Interrupted.into()),
            2 if !buf.is_empty() => {
                buf[0] = b'x';
                Ok(1)
            }
            3 => Err(ErrorKind::TimedOut.into()),
            _ => Ok(0),
        }
    }
}

// It gives the byte, refuses a reading, and then ends.
fn readings(rt: &impl Abort, source: &mut impl Source) {
    let mut into = [0; 4];
    assert!(rt; source.read(&mut into) == Ok(1));
    assert!(rt; into[0] == b'x');
    assert!(rt; source.read(&mut into) == Err(SourceFault));
    assert!(rt; source.read(&mut into) == Ok(0));
}

#[test]
fn reads_again_where_interrupted(rt: HostRuntime) -> Result<(), AllocError> {
    let mut source = StdinSource::new(rt.alloc(), Rough { turn: 0 })?;
    readings(&rt, &mut source);
    is_told(&rt, rt.alloc(), source.cause(), "timed out");
    Ok(())
}

// There is room for three bytes.
fn writings(rt: &impl Abort, sink: &mut impl Sink) {
    assert!(rt; sink.write(b"ab") == Ok(2));
    assert!(rt; sink.write(b"cd") == Err(SinkFault));
}

#[test]
fn writes_what_there_is_room_for(rt: HostRuntime) {
    let mut sink = StdoutSink::new(Limited::new(io::sink(), 3));
    writings(&rt, &mut sink);
    is_told(
        &rt,
        rt.alloc(),
        sink.cause(),
        "past the limit on the size of a file",
    );
}
