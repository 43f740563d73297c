// A source over a reader.
ghost use Rattle.std.specs.Prelude.{◌≡◌, IfOk, OnOk, OnErr};
ghost use Rattle.std.specs.Io.{ReadsAtMost};
ghost use Rattle.std.specs.Io.KnownBytes.{ReadConsumes};
ghost use Rattle.std.specs.Io.Buffered.{reader_remaining};
ghost use Rattle.pp_terms.specs.command.Stream.{SourceState, DoesTake};
ghost use Rattle.pp_adapt.specs.Counts.{raised, silent_source};

use pp_outside::{Source, SourceFault};
use std::alloc::{AllocError, Global};
use std::io::{self, BufReader, ErrorKind, Read};
use std::marker::Model;

// How many bytes a source asks its reader for.
const PIECE: usize = 65536;

/// A source over a reader, such as standard input, which it reads ahead in pieces of 64 KiB.
///
/// Contracts see the bytes that are left, where the reader tells them. As a source it tells none.
#[derive(Drop)]
pub struct StdinSource<R: Read> {
    reader: BufReader<R>,
    faults: u64,
    // why a read was first refused, which contracts don't see
    cause: Option<io::Error>,
}

impl<R: Read> Model for StdinSource<R> {
    ghost Value = { SourceState };

    ghost view = { λ s. record { left = reader_remaining R.remaining s.reader; faults = s.faults } };
}

impl<R: Read + Drop> StdinSource<R> {
    /// It reads nothing yet, and takes memory for one piece, without which it drops the reader.
    pub fn new(alloc: Global, reader: R) -> Result<Self, AllocError>
        ensures left { IfOk result (λ source. source.left ≡ R.remaining reader) }
        ensures faults { IfOk result (λ source. source.faults ≡ 0) }
    {
        match BufReader::with_capacity(alloc, PIECE, reader) {
            Ok(reader) => Ok(StdinSource {
                reader,
                faults: 0,
                cause: None,
            }),
            Err(_) => Err(AllocError),
        }
    }

    /// A source that doesn't read ahead. It takes no memory.
    pub fn unbuffered(alloc: Global, reader: R) -> Self
        ensures { result.faults ≡ 0 }
    {
        let reader = BufReader::with_capacity(alloc, 0, reader).unwrap();
        StdinSource {
            reader,
            faults: 0,
            cause: None,
        }
    }

    /// How many reads it refused, up to the greatest `u64`.
    pub fn faults(&self) -> u64
        ensures { result ≡ self.now.faults }
    {
        self.faults
    }

    /// Why it first refused a read.
    pub fn cause(&self) -> Option<io::Error> {
        self.cause
    }
}

// One read, again where the system interrupted it.
fn read_some<R: Read>(reader: &mut R, into: &mut [u8]) -> io::Result<usize>
    ensures bound { ReadsAtMost result into.new }
    ensures bytes { ReadConsumes (R.remaining reader.old) (R.remaining reader.new) result into.new }
{
    for _ in 0..u64::MAX {
        match reader.read(into) {
            Ok(n) => return Ok(n),
            Err(e) if e.kind() == ErrorKind::Interrupted => {}
            Err(e) => return Err(e),
        }
    }
    Err(ErrorKind::TimedOut.into())
}

impl<R: Read> Source for StdinSource<R> {
    ghost state = { silent_source };

    fn read(&mut self, into: &mut [u8]) -> Result<usize, SourceFault>
        ensures does { DoesTake (silent_source self.old) into.new result (silent_source self.new) }
        ensures bytes { ReadConsumes self.old.left self.new.left result into.new }
        ensures ok { OnOk result (self.new.faults ≡ self.old.faults) }
        ensures err { OnErr result (self.new.faults ≡ raised self.old.faults) }
    {
        match read_some(&mut self.reader, into) {
            Ok(n) => Ok(n),
            Err(error) => {
                self.faults = self.faults.saturating_add(1);
                if self.cause.is_none() {
                    self.cause = Some(error);
                }
                Err(SourceFault)
            }
        }
    }
}
