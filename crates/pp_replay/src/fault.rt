// What is wrong with the text of a schedule.
use thiserror::Error;

/// What is wrong with a line.
#[derive(Clone, Copy, Debug, PartialEq, Eq, Error)]
pub enum ScheduleKind {
    /// The text has more than 1,048,576 bytes, or the line's number is above 65,536.
    #[error("long")]
    Long,
    /// The first line isn't that of a schedule.
    #[error("header")]
    Header,
    /// The second line names no content of chunks of 256 to 8,192 bytes, with 1 to 1,048,576 bytes.
    #[error("content")]
    Content,
    /// The line has no form that its place lets it have, or no line feed ends it.
    #[error("line")]
    Line,
    /// A word is no number, or its number is out of range.
    #[error("number")]
    Number,
    /// A peer isn't declared, isn't the next one, or dials itself.
    #[error("peer")]
    Peer,
    /// A datagram isn't 1 to 16,384 bytes in hexadecimal digits of lower case.
    #[error("hex")]
    Hex,
}

/// The first faulty line, counted from 1, and what is wrong with it. A text with too many bytes has line 0.
#[derive(Clone, Copy, Debug, PartialEq, Eq, Error)]
#[error("schedule: line {line}: {kind}")]
pub struct ScheduleFault {
    pub line: u32,
    pub kind: ScheduleKind,
}
