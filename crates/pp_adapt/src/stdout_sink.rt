// A sink over a writer.
ghost use Rattle.std.specs.Prelude.{◌≡◌, ◌^◌, ◌<◌, length, IfOk, OnOk, OnErr};
ghost use Rattle.std.specs.Io.{WritesAtMost};
ghost use Rattle.std.specs.Io.KnownBytes.{WriteAppends};
ghost use Rattle.pp_terms.specs.command.Stream.{SinkState, DoesGive};
ghost use Rattle.pp_adapt.specs.Counts.{raised, silent_sink};

use pp_outside::{Sink, SinkFault};
use std::io::{self, ErrorKind, Write};
use std::marker::Model;

/// A sink over a writer, such as standard output, which it writes to at once. What the writer itself keeps back goes out at
/// a call of `flush`.
///
/// Contracts see the bytes that the writer took, where it tells them. As a sink it tells none.
#[derive(Drop)]
pub struct StdoutSink<W: Write> {
    writer: W,
    faults: u64,
    // why a write was first refused, which contracts don't see
    cause: Option<io::Error>,
}

impl<W: Write> Model for StdoutSink<W> {
    ghost Value = { SinkState };

    ghost view = { λ s. record { taken = W.contents s.writer; faults = s.faults } };
}

impl<W: Write> StdoutSink<W> {
    pub fn new(writer: W) -> Self
        ensures taken { result.taken ≡ W.contents writer }
        ensures faults { result.faults ≡ 0 }
    {
        StdoutSink {
            writer,
            faults: 0,
            cause: None,
        }
    }

    /// How many writes it refused, up to the greatest `u64`.
    pub fn faults(&self) -> u64
        ensures { result ≡ self.now.faults }
    {
        self.faults
    }

    /// Why it first refused a write.
    pub fn cause(&self) -> Option<io::Error> {
        self.cause
    }

    /// Has the writer write what it keeps back.
    pub fn flush(&mut self) -> Result<(), SinkFault>
        ensures ok { OnOk result (self.new.faults ≡ self.old.faults) }
        ensures err { OnErr result (self.new.faults ≡ raised self.old.faults) }
    {
        match self.writer.flush() {
            Ok(()) => Ok(()),
            Err(error) => Err(self.refuse(error)),
        }
    }

    fn refuse(&mut self, error: io::Error) -> SinkFault
        ensures state { self.new ≡ record self.old { faults = raised self.old.faults } }
        ensures fits { self.old.faults < 2 ^ 64 }
    {
        self.faults = self.faults.saturating_add(1);
        if self.cause.is_none() {
            self.cause = Some(error);
        }
        SinkFault
    }
}

// One write of at least one byte of a nonempty piece, again where the system interrupted it.
fn write_some<W: Write>(writer: &mut W, piece: &[u8]) -> io::Result<usize>
    ensures bound { WritesAtMost result piece.now }
    ensures some { IfOk result (λ n. 0 < length piece.now → 0 < n) }
    ensures bytes { WriteAppends (W.contents writer.old) (W.contents writer.new) result piece.now }
{
    for _ in 0..u64::MAX {
        match writer.write(piece) {
            Ok(0) if !piece.is_empty() => return Err(ErrorKind::WriteZero.into()),
            Ok(n) => return Ok(n),
            Err(e) if e.kind() == ErrorKind::Interrupted => {}
            Err(e) => return Err(e),
        }
    }
    Err(ErrorKind::TimedOut.into())
}

impl<W: Write> Sink for StdoutSink<W> {
    ghost state = { silent_sink };

    fn write(&mut self, bytes: &[u8]) -> Result<usize, SinkFault>
        ensures does { DoesGive (silent_sink self.old) bytes.now result (silent_sink self.new) }
        ensures bytes { WriteAppends self.old.taken self.new.taken result bytes.now }
        ensures ok { OnOk result (self.new.faults ≡ self.old.faults) }
        ensures err { OnErr result (self.new.faults ≡ raised self.old.faults) }
    {
        match write_some(&mut self.writer, bytes) {
            Ok(n) => Ok(n),
            Err(error) => Err(self.refuse(error)),
        }
    }
}
