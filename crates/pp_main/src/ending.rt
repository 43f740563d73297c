// What a person is told on standard error once a command ended.
ghost use Rattle.std.specs.Prelude.{◌≡◌, IfSome};
ghost use Rattle.pp_node.specs.Status.{number_of};

use pp_adapt::Cause;
use pp_node::Status;
use std::{fmt, io};

/// How a command ended, and what the devices say of it. It is printed as a line without its end.
#[derive(Drop)]
pub(crate) struct Ending<'a> {
    pub(crate) words: &'a [String],
    pub(crate) status: Status,
    pub(crate) disk: Option<Cause>,
    pub(crate) link: Option<Cause>,
    pub(crate) source: Option<io::Error>,
    pub(crate) sink: Option<io::Error>,
    /// Nothing had the store's name.
    pub(crate) has_made: bool,
    pub(crate) has_written: bool,
}

/// The status of a number, if there is one.
pub(crate) fn status_of(number: u8) -> Option<Status>
    ensures { IfSome result (λ status. number_of status ≡ number) }
{
    Some(match number {
        0 => Status::Done,
        1 => Status::Usage,
        2 => Status::NotAStore,
        3 => Status::Incomplete,
        4 => Status::DiskFault,
        5 => Status::LinkFault,
        6 => Status::SourceFault,
        7 => Status::SinkFault,
        8 => Status::NotEmpty,
        9 => Status::ContentSize,
        10 => Status::Schedule,
        11 => Status::Memory,
        12 => Status::Damaged,
        13 => Status::Shape,
        14 => Status::AuditNo,
        15 => Status::Recording,
        16 => Status::NoLife,
        17 => Status::TooLarge,
        _ => return None,
    })
}

// A name, and why a call for what it names was refused, where that is known.
fn put_refused<W: fmt::Write, C: fmt::Display>(
    f: &mut fmt::Formatter<W>,
    name: &str,
    why: &Option<C>,
) -> fmt::Result {
    match why {
        Some(why) => write!(f, "{name}: {why}"),
        None => write!(f, "{name}: refused"),
    }
}

impl Ending<'_> {
    fn word(&self, n: usize) -> &str {
        match self.words.get(n) {
            Some(word) => word.as_str(),
            None => "",
        }
    }

    fn is_of(&self, command: &str) -> bool {
        self.word(0) == command
    }

    // It makes a store of what it reads.
    fn makes_a_store(&self) -> bool {
        self.is_of("import") || self.is_of("upgrade")
    }

    // It was to read a store, and nothing had its name.
    fn lacks_its_store(&self) -> bool {
        self.has_made && (self.is_of("check") || self.is_of("export") || self.is_of("seed"))
    }

    /// Whether something is to be told. That a file is no store `check`, `seed` and `fetch` tell on standard output, and `check` and
    /// `seed` what its header and its tree come to.
    pub(crate) fn is_told(&self) -> bool {
        match self.status {
            Status::Done => self.lacks_its_store(),
            Status::NotAStore => self.is_of("export")
                || self.is_of("upgrade")
                || self.is_of("play")
                || self.lacks_its_store(),
            Status::ContentSize => self.is_of("import") || self.is_of("export"),
            Status::Shape => self.is_of("export"),
            _ => true,
        }
    }

    // What the status was due to.
    fn put_why<W: fmt::Write>(&self, f: &mut fmt::Formatter<W>) -> fmt::Result {
        let store = self.word(1);
        match self.status {
            Status::Done => Ok(()),
            Status::Usage => {
                f.write_str("no such command, or wrong words for it; see ppspp --help")
            }
            Status::NotAStore => self.put_no_store(f),
            Status::Incomplete => self.put_incomplete(f),
            Status::DiskFault => put_refused(f, store, &self.disk),
            Status::LinkFault => put_refused(f, self.word(3), &self.link),
            Status::SourceFault => put_refused(f, "standard input", &self.source),
            Status::SinkFault => put_refused(f, "standard output", &self.sink),
            Status::NotEmpty => write!(f, "{store}: not empty, and left as it is"),
            Status::ContentSize => self.put_size(f),
            Status::Schedule => f.write_str("standard input: no schedule"),
            Status::Memory => f.write_str("memory ran out"),
            Status::Damaged => write!(f, "{store}: a chunk is damaged"),
            Status::Shape => write!(f, "{store}: no content's tree"),
            Status::AuditNo => f.write_str("standard input: a chunk wasn't served by the rules"),
            Status::Recording => f.write_str("standard input: no recording"),
            Status::NoLife => f.write_str("standard input: no such peer, or fewer lives"),
            Status::TooLarge => f.write_str("standard output: the recording would be too large"),
        }
    }

    // An upgrade reads the store from standard input.
    fn put_no_store<W: fmt::Write>(&self, f: &mut fmt::Formatter<W>) -> fmt::Result {
        let read = if self.is_of("upgrade") {
            "standard input"
        } else {
            self.word(1)
        };
        write!(f, "{read}: not a store of this descriptor")
    }

    // A store that is exported by its swarm's name tells the size.
    fn put_size<W: fmt::Write>(&self, f: &mut fmt::Formatter<W>) -> fmt::Result {
        if self.is_of("export") {
            write!(f, "{}: no content of this name has its size", self.word(1))
        } else {
            f.write_str("standard input: empty, or longer than 2^20 chunks")
        }
    }

    // With what the link refused, where it was in use.
    fn put_incomplete<W: fmt::Write>(&self, f: &mut fmt::Formatter<W>) -> fmt::Result {
        let store = self.word(1);
        write!(f, "{store}: some chunk isn't held")?;
        if self.link.is_some() {
            f.write_str("; ")?;
            put_refused(f, self.word(3), &self.link)?;
        }
        Ok(())
    }

    // What became of a store that the command was to make.
    fn put_made<W: fmt::Write>(&self, f: &mut fmt::Formatter<W>) -> fmt::Result {
        let store = self.word(1);
        match self.status {
            Status::SinkFault => write!(f, "; {store} is finished"),
            _ if self.has_made || self.has_written => {
                write!(f, "; {store} is unfinished and may be removed")
            }
            _ => Ok(()),
        }
    }
}

impl fmt::Display for Ending<'_> {
    fn fmt<W: fmt::Write>(&self, f: &mut fmt::Formatter<W>) -> fmt::Result {
        f.write_str("ppspp: ")?;
        if self.lacks_its_store() {
            let store = self.word(1);
            return write!(f, "{store}: no such store; an empty one was made");
        }
        self.put_why(f)?;
        if self.makes_a_store() {
            self.put_made(f)?;
        }
        Ok(())
    }
}

#[cfg(test)]
mod tests;
