// How a command ended.
ghost use Rattle.std.specs.Prelude.{◌≡◌};

/// The exit status of the program, by its number.
#[derive(Clone, Copy, Debug, PartialEq, Eq)]
pub enum Status {
    /// The command was done to its end.
    Done = 0,
    /// The words are no command.
    Usage = 1,
    /// The file is no store of the descriptor's.
    NotAStore = 2,
    /// Some chunk isn't held.
    Incomplete = 3,
    /// The disk refused a call.
    DiskFault = 4,
    /// The link refused to listen.
    LinkFault = 5,
    /// The source refused a read.
    SourceFault = 6,
    /// The sink refused a write.
    SinkFault = 7,
    /// The disk wasn't empty.
    NotEmpty = 8,
    /// The content is none of a swarm.
    ContentSize = 9,
    /// The text is no schedule.
    Schedule = 10,
    /// There was no memory.
    Memory = 11,
    /// A chunk was read back with another digest than the book's.
    Damaged = 12,
    /// The book has a node that covers no chunk and isn't 32 zero bytes.
    Shape = 13,
    /// A chunk of the recording wasn't served by the rules.
    AuditNo = 14,
    /// The text is no recording.
    Recording = 15,
    /// The peer has no such life.
    NoLife = 16,
    /// The recording would pass a limit.
    TooLarge = 17,
}

impl Status {
    ghost use Rattle.pp_node.specs.Status.{number_of};

    pub(crate) fn number(self) -> u8
        ensures { result ≡ number_of self }
    {
        self as u8
    }
}
