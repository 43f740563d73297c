// A stream of which a person sees how much passed.
use crate::meter::{StreamMeter, micros_since};
use std::io::{self, Read, Write};
use std::time::{Clock, Instant};

/// A reader or a writer. Where it is to be shown, a line on standard error tells how much passed through it, and how fast.
#[derive(Drop)]
pub struct Metered<R: Clock + Eprint, T> {
    system: R,
    inner: T,
    // when it was made, where it is to be shown and the clock told
    made: Option<Instant>,
    meter: StreamMeter,
}

impl<R: Clock + Eprint, T> Metered<R, T> {
    ghost use Rattle.std.specs.Prelude.{◌≡◌};

    /// The verb, as `read`, says in the line what is done with the bytes.
    pub fn new(system: R, inner: T, verb: &'static str, is_shown: bool) -> Self
        ensures { result.inner ≡ inner }
    {
        let made = if is_shown {
            Instant::now(&system).ok()
        } else {
            None
        };
        Metered {
            system,
            inner,
            made,
            meter: StreamMeter::new(verb),
        }
    }

    fn pass(&mut self, len: usize)
        ensures { self.new.inner ≡ self.old.inner }
    {
        if self.made.is_none() {
            return;
        }
        self.meter.add(len);
        if let Ok(now) = micros_since(&self.system, &self.made) {
            self.meter.show(now, &self.system);
        }
    }
}

impl<R: Clock + Eprint, T: Read> Read for Metered<R, T> {
    ghost remaining = { λ m. T.remaining m.inner };

    fn read(&mut self, buf: &mut [u8]) -> io::Result<usize> {
        let len = self.inner.read(buf)?;
        self.pass(len);
        Ok(len)
    }
}

impl<R: Clock + Eprint, T: Write> Write for Metered<R, T> {
    ghost contents = { λ m. T.contents m.inner };

    fn write(&mut self, buf: &[u8]) -> io::Result<usize> {
        let len = self.inner.write(buf)?;
        self.pass(len);
        Ok(len)
    }

    fn flush(&mut self) -> io::Result<()> {
        self.inner.flush()
    }
}
