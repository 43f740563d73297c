// The limit on the size of a file, past which the system ends the program by a signal.
use libc::types::rlimit;
use std::fs::{self, File};
use std::io::{self, ErrorKind, Write};
use std::rt::Files;

// The number by which the system names the limit.
const RLIMIT_FSIZE: i32 = 1;

/// The greatest size that this process may give a file.
pub(crate) fn size_limit() -> u64 {
    let mut limit = rlimit {
        rlim_cur: u64::MAX,
        rlim_max: u64::MAX,
    };
    if libc::getrlimit(RLIMIT_FSIZE, &mut limit) < 0 {
        return u64::MAX;
    }
    limit.rlim_cur
}

pub(crate) fn past_limit() -> io::Error {
    io::Error::new(
        ErrorKind::FileTooLarge,
        "past the limit on the size of a file",
    )
}

/// How many bytes standard output may be given: where it is a file, as many as that may still grow.
pub fn output_room(files: &impl Files<File = File>) -> u64 {
    match fs::metadata(files, "/dev/stdout") {
        Ok(found) if found.is_file() => size_limit().saturating_sub(found.len()),
        _ => u64::MAX,
    }
}

/// A writer that refuses each write for which it has no room.
#[derive(Drop)]
pub struct Limited<W> {
    inner: W,
    room: u64,
}

impl<W> Limited<W> {
    ghost use Rattle.std.specs.Prelude.{◌≡◌};

    pub fn new(inner: W, room: u64) -> Self
        ensures { result ≡ record { inner = inner; room = room } }
    {
        Limited { inner, room }
    }
}

impl<W: Write> Write for Limited<W> {
    ghost use Rattle.std.specs.Prelude.{◌≡◌, ◌-◌, ◌<◌, length, IfOk, IsErr};
    ghost use Rattle.std.specs.Io.{WritesAtMost};
    ghost use Rattle.std.specs.Io.KnownBytes.{WriteAppends};

    ghost contents = { λ w. W.contents w.inner };

    fn write(&mut self, buf: &[u8]) -> io::Result<usize>
        ensures bound { WritesAtMost result buf.now }
        ensures bytes { WriteAppends (W.contents self.old.inner) (W.contents self.new.inner) result buf.now }
        ensures past { self.old.room < length buf.now → IsErr result }
        ensures room { IfOk result (λ n. self.new.room ≡ self.old.room - n) }
    {
        if self.room < buf.len() as u64 {
            return Err(past_limit());
        }
        let taken = self.inner.write(buf)?;
        self.room -= taken as u64;
        Ok(taken)
    }

    fn flush(&mut self) -> io::Result<()> {
        self.inner.flush()
    }
}
