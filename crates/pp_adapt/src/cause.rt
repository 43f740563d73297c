// Why a device refused a call.
ghost use Rattle.std.specs.Prelude.{◌≡◌, IfOk, IfErr};

use std::{fmt, io};

/// What a device was at when it refused a call.
#[derive(Clone, Copy, Debug, PartialEq, Eq)]
pub enum Step {
    /// It opened and locked the file, or the socket.
    Open,
    /// It made the name of an empty file durable in its folder.
    Name,
    Length,
    Read,
    Write,
    Sync,
    Receive,
    Send,
}

impl fmt::Display for Step {
    fn fmt<W: fmt::Write>(&self, f: &mut fmt::Formatter<W>) -> fmt::Result {
        f.write_str(match self {
            Step::Open => "",
            Step::Name => "its folder: ",
            Step::Length => "its length: ",
            Step::Read => "read: ",
            Step::Write => "write: ",
            Step::Sync => "sync: ",
            Step::Receive => "receive: ",
            Step::Send => "send: ",
        })
    }
}

/// Why a device refused a call: what it was at, and what the system said, or the device itself.
#[derive(Clone, Copy, Debug)]
pub struct Cause {
    step: Step,
    error: io::Error,
}

impl Cause {
    pub(crate) fn new(step: Step, error: io::Error) -> Cause
        ensures { result ≡ record { step = step; error = error } }
    {
        Cause { step, error }
    }
}

impl fmt::Display for Cause {
    fn fmt<W: fmt::Write>(&self, f: &mut fmt::Formatter<W>) -> fmt::Result {
        let step = self.step;
        let error = self.error;
        write!(f, "{step}{error}")
    }
}

/// Says what a refused call was at.
pub(crate) fn during<T>(step: Step, answer: io::Result<T>) -> Result<T, Cause>
    ensures ok { IfOk answer (λ value. result ≡ Ok value) }
    ensures err { IfErr answer (λ error. result ≡ Err (record { step = step; error = error })) }
{
    match answer {
        Ok(value) => Ok(value),
        Err(error) => Err(Cause::new(step, error)),
    }
}
