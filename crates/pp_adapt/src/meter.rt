// How much passed, for a person at a terminal.
use pp_outside::Address;
use std::fmt;
use std::io::{self, ErrorKind};
use std::time::{Clock, Instant};

// How long a line stands at least, in microseconds.
const LINE_US: u64 = 250_000;

// For how long a peer is one that was heard lately, in microseconds, at least, and at most twice that.
const LATELY_US: u64 = 2_000_000;

// How many peers are told apart.
const PEERS: usize = 64;

// To the line's beginning, and away with what stands there.
const CLEAR: &str = "\r\x1b[K";

/// A standard stream of the process.
#[derive(Clone, Copy, Debug, PartialEq, Eq)]
pub enum Stream {
    Input,
    Output,
    Error,
}

/// Whether a standard stream is a terminal.
pub fn is_terminal(stream: Stream) -> bool {
    let number = match stream {
        Stream::Input => libc::STDIN_FILENO,
        Stream::Output => libc::STDOUT_FILENO,
        Stream::Error => libc::STDERR_FILENO,
    };
    libc::isatty(number) == 1
}

/// Takes the line on standard error away that tells how much passed. Where none stands, nothing is seen.
pub fn clear_line(system: &impl Eprint) {
    let _ = system.eprint(CLEAR);
}

/// How long ago that was, in microseconds.
pub(crate) fn micros_since(clock: &impl Clock, made: &Option<Instant>) -> io::Result<u64> {
    match made {
        Some(made) => Ok(u64::try_from(made.elapsed(clock)?.as_micros()).unwrap_or(u64::MAX)),
        None => Err(ErrorKind::Unsupported.into()),
    }
}

// A number of bytes.
#[derive(Clone, Copy)]
struct Size(u64);

impl fmt::Display for Size {
    fn fmt<W: fmt::Write>(&self, f: &mut fmt::Formatter<W>) -> fmt::Result {
        let bytes = self.0;
        if bytes < 1000 {
            return write!(f, "{bytes} B");
        }
        let (tenth, unit) = if bytes < 1_000_000 {
            (100, "kB")
        } else if bytes < 1_000_000_000 {
            (100_000, "MB")
        } else {
            (100_000_000, "GB")
        };
        let whole = bytes / tenth / 10;
        let part = bytes / tenth % 10;
        write!(f, "{whole}.{part} {unit}")
    }
}

// The bytes that passed one way, and how many of them before the last line.
#[derive(Clone, Copy)]
struct Flow {
    bytes: u64,
    before: u64,
}

impl Flow {
    const NONE: Flow = Flow {
        bytes: 0,
        before: 0,
    };

    fn add(&mut self, len: usize) {
        self.bytes = self.bytes.saturating_add(len as u64);
    }

    // The bytes a second since the last line, so many microseconds ago.
    fn rate(&self, micros: u64) -> Size {
        let since = self.bytes.saturating_sub(self.before);
        Size(since.saturating_mul(1_000_000) / micros.max(1))
    }
}

// A line on what passed one way.
#[derive(Drop)]
struct StreamLine {
    verb: &'static str,
    flow: Flow,
    micros: u64,
}

impl fmt::Display for StreamLine {
    fn fmt<W: fmt::Write>(&self, f: &mut fmt::Formatter<W>) -> fmt::Result {
        let verb = self.verb;
        let bytes = Size(self.flow.bytes);
        let rate = self.flow.rate(self.micros);
        write!(f, "{CLEAR}{verb} {bytes}, {rate}/s")
    }
}

/// What passed through a stream, for a line on standard error.
#[derive(Drop)]
pub(crate) struct StreamMeter {
    verb: &'static str,
    flow: Flow,
    shown_at: u64,
}

impl StreamMeter {
    pub(crate) fn new(verb: &'static str) -> StreamMeter {
        StreamMeter {
            verb,
            flow: Flow::NONE,
            shown_at: 0,
        }
    }

    pub(crate) fn add(&mut self, len: usize) {
        self.flow.add(len);
    }

    /// Shows the line, if the last one has stood for long enough.
    pub(crate) fn show(&mut self, now: u64, system: &impl Eprint) {
        let micros = now.saturating_sub(self.shown_at);
        if micros < LINE_US {
            return;
        }
        let _ = system.eprint(StreamLine {
            verb: self.verb,
            flow: self.flow,
            micros,
        });
        self.flow.before = self.flow.bytes;
        self.shown_at = now;
    }
}

// The peers that were heard since a moment, and how many were before.
#[derive(Drop)]
struct Heard {
    peers: [Address; PEERS],
    count: usize,
    before: usize,
    since: u64,
}

impl Heard {
    fn new() -> Heard {
        Heard {
            peers: [Address::V4([0; 4], 0); PEERS],
            count: 0,
            before: 0,
            since: 0,
        }
    }

    fn note(&mut self, peer: Address) {
        let is_known = self
            .peers
            .iter()
            .take(self.count)
            .any(|known| *known == peer);
        if !is_known && self.count < PEERS {
            self.peers[self.count] = peer;
            self.count += 1;
        }
    }

    fn lately(&mut self, now: u64) -> usize {
        if now.saturating_sub(self.since) >= LATELY_US {
            self.before = self.count;
            self.count = 0;
            self.since = now;
        }
        self.count.max(self.before)
    }
}

// A line on what passed through a link.
#[derive(Drop)]
struct LinkLine {
    received: Flow,
    sent: Flow,
    micros: u64,
    peers: usize,
}

impl fmt::Display for LinkLine {
    fn fmt<W: fmt::Write>(&self, f: &mut fmt::Formatter<W>) -> fmt::Result {
        let received = Size(self.received.bytes);
        let receives = self.received.rate(self.micros);
        let sent = Size(self.sent.bytes);
        let sends = self.sent.rate(self.micros);
        let peers = self.peers;
        write!(f, "{CLEAR}received {received}, {receives}/s; ")?;
        write!(f, "sent {sent}, {sends}/s; peers {peers}")
    }
}

/// What passed through a link, for a line on standard error.
#[derive(Drop)]
pub(crate) struct LinkMeter {
    received: Flow,
    sent: Flow,
    heard: Heard,
    shown_at: u64,
}

impl LinkMeter {
    pub(crate) fn new() -> LinkMeter {
        LinkMeter {
            received: Flow::NONE,
            sent: Flow::NONE,
            heard: Heard::new(),
            shown_at: 0,
        }
    }

    pub(crate) fn note_received(&mut self, peer: Address, len: usize) {
        self.received.add(len);
        self.heard.note(peer);
    }

    pub(crate) fn note_sent(&mut self, len: usize) {
        self.sent.add(len);
    }

    /// Shows the line, if the last one has stood for long enough.
    pub(crate) fn show(&mut self, now: u64, system: &impl Eprint) {
        let micros = now.saturating_sub(self.shown_at);
        if micros < LINE_US {
            return;
        }
        let _ = system.eprint(LinkLine {
            received: self.received,
            sent: self.sent,
            micros,
            peers: self.heard.lately(now),
        });
        self.received.before = self.received.bytes;
        self.sent.before = self.sent.bytes;
        self.shown_at = now;
    }
}
