// Where bytes come from, and where they go.
ghost use Rattle.std.specs.Prelude.{◌≡◌};
ghost use Rattle.pp_terms.specs.command.Stream.{SourceState, SinkState, DoesTake, DoesGive};

/// A read of a source was refused.
#[derive(Clone, Copy, Debug, PartialEq, Eq)]
pub struct SourceFault;

/// A write to a sink was refused.
#[derive(Clone, Copy, Debug, PartialEq, Eq)]
pub struct SinkFault;

/// A source of bytes that ends.
pub trait Source {
    /// The bytes still to come, where it tells them, and how often it refused a read.
    ghost state: { Self → SourceState };

    /// Takes bytes to the front of `into` and answers how many: for a nonempty `into` at least one, or 0 at the end.
    fn read(&mut self, into: &mut [u8]) -> Result<usize, SourceFault>
        ensures { DoesTake (state self.old) into.new result (state self.new) };
}

/// A sink for bytes.
pub trait Sink {
    /// The bytes that it took, where it tells them, and how often it refused a write.
    ghost state: { Self → SinkState };

    /// Takes bytes from the front of the piece and answers how many, of a nonempty piece at least one.
    fn write(&mut self, bytes: &[u8]) -> Result<usize, SinkFault>
        ensures { DoesGive (state self.old) bytes.now result (state self.new) };
}
