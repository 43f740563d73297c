// A writer that keeps lines back.
ghost use Rattle.std.specs.Prelude.{◌≡◌, IfOk, IsOk};
ghost use Rattle.std.specs.Io.Buffered.{writer_contents, writer_buffer};
ghost use Rattle.std.specs.Io.KnownBytes.{Keeps};

use std::alloc::Global;
use std::io::{self, BufWriter, Write};

// How many bytes are kept back at most.
const PIECE: usize = 65536;

/// A writer that keeps up to 64 KiB back, so that a short report goes out in one piece, and no piece of a longer one ends within
/// a line of less than 32 KiB. What is still kept back goes out at a call of `flush`, or when it is dropped.
#[derive(Drop)]
pub struct WholeLines<W: Write + Drop> {
    kept: BufWriter<W>,
}

impl<W: Write + Drop> WholeLines<W> {
    ghost use Rattle.pp_adapt.specs.Lines.{contents_of};

    /// It takes memory for what it keeps back, without which it drops the writer.
    pub fn new(alloc: Global, writer: W) -> io::Result<Self>
        ensures { IfOk result (λ lines. contents_of W.contents lines ≡ W.contents writer) }
    {
        Ok(WholeLines {
            kept: BufWriter::with_capacity(alloc, PIECE, writer)?,
        })
    }

    /// A writer that keeps nothing back. It takes no memory.
    pub fn unbuffered(alloc: Global, writer: W) -> Self
        ensures { contents_of W.contents result ≡ W.contents writer }
    {
        WholeLines {
            kept: BufWriter::with_capacity(alloc, 0, writer).unwrap(),
        }
    }
}

impl<W: Write + Drop> Write for WholeLines<W> {
    ghost use Rattle.pp_adapt.specs.Lines.{contents_of};

    ghost contents = { contents_of W.contents };

    fn write(&mut self, buf: &[u8]) -> io::Result<usize> {
        let kept = self.kept.buffer();
        if kept.len() >= PIECE / 2 && kept.ends_with(b"\n") {
            self.kept.flush()?;
        }
        self.kept.write(buf)
    }

    fn flush(&mut self) -> io::Result<()>
        ensures { Keeps (contents_of W.contents self.old) (contents_of W.contents self.new) }
    {
        self.kept.flush()
    }
}
