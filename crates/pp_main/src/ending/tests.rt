use super::{Ending, status_of};
use pp_node::Status;
use std::alloc::{AllocError, Global};
use std::io::{self, ErrorKind};
use std::test::Fail;

// The words of a command line.
fn words(alloc: Global, line: &str) -> Result<Vec<String>, AllocError> {
    let mut words = Vec::new(alloc);
    for word in line.split(' ') {
        words.push(String::from_str(alloc, word)?)?;
    }
    Ok(words)
}

// A command that ended, whose devices said nothing and made nothing.
fn ended(words: &[String], status: Status) -> Ending<'_> {
    Ending {
        words,
        status,
        disk: None,
        link: None,
        source: None,
        sink: None,
        has_made: false,
        has_written: false,
    }
}

// Commands, how they ended, whether the store's file was made, and what is told.
const ENDINGS: [(&str, Status, bool, &str); 18] = [
    (
        "export s d",
        Status::NotAStore,
        false,
        "ppspp: s: not a store of this descriptor",
    ),
    (
        "export s d",
        Status::Incomplete,
        false,
        "ppspp: s: some chunk isn't held",
    ),
    (
        "check s d",
        Status::Done,
        true,
        "ppspp: s: no such store; an empty one was made",
    ),
    (
        "check s d",
        Status::NotAStore,
        true,
        "ppspp: s: no such store; an empty one was made",
    ),
    (
        "seed s d 127.0.0.1:7001 9",
        Status::LinkFault,
        false,
        "ppspp: 127.0.0.1:7001: refused",
    ),
    (
        "import s 1024",
        Status::NotEmpty,
        false,
        "ppspp: s: not empty, and left as it is",
    ),
    (
        "import s 1024",
        Status::ContentSize,
        true,
        "ppspp: standard input: empty, or longer than 2^20 chunks; s is unfinished and may be removed",
    ),
    (
        "upgrade s d",
        Status::NotAStore,
        true,
        "ppspp: standard input: not a store of this descriptor; s is unfinished and may be removed",
    ),
    (
        "upgrade s d",
        Status::SinkFault,
        true,
        "ppspp: standard output: refused; s is finished",
    ),
    ("fetch s d", Status::Memory, true, "ppspp: memory ran out"),
    (
        "export s d",
        Status::Damaged,
        false,
        "ppspp: s: a chunk is damaged",
    ),
    (
        "export s d",
        Status::ContentSize,
        false,
        "ppspp: s: no content of this name has its size",
    ),
    (
        "export s d",
        Status::Shape,
        false,
        "ppspp: s: no content's tree",
    ),
    (
        "replay",
        Status::Schedule,
        false,
        "ppspp: standard input: no schedule",
    ),
    (
        "audit",
        Status::AuditNo,
        false,
        "ppspp: standard input: a chunk wasn't served by the rules",
    ),
    (
        "audit",
        Status::Recording,
        false,
        "ppspp: standard input: no recording",
    ),
    (
        "record 1 3",
        Status::NoLife,
        false,
        "ppspp: standard input: no such peer, or fewer lives",
    ),
    (
        "record 0 1",
        Status::TooLarge,
        false,
        "ppspp: standard output: the recording would be too large",
    ),
];

#[test]
fn tells_what_was_wrong(rt: HostRuntime) -> Result<(), Fail> {
    for (line, status, has_made, want) in ENDINGS {
        let words = words(rt.alloc(), line)?;
        let mut ending = ended(&words, status);
        ending.has_made = has_made;
        let told = format!(in rt.alloc(); "{ending}")?;
        assert_eq!(rt; (ending.is_told(), told.as_str()), (true, want));
    }
    Ok(())
}

#[test]
fn tells_what_a_device_said(rt: HostRuntime) -> Result<(), Fail> {
    let words = words(rt.alloc(), "import s 1024")?;
    let mut ending = ended(&words, Status::SourceFault);
    ending.source = Some(io::Error::from(ErrorKind::TimedOut));
    ending.has_written = true;
    let told = format!(in rt.alloc(); "{ending}")?;
    let want = "ppspp: standard input: timed out; s is unfinished and may be removed";
    assert_eq!(rt; told.as_str(), want);
    Ok(())
}

#[test]
fn tells_nothing_more(rt: HostRuntime) -> Result<(), Fail> {
    let words = words(rt.alloc(), "check s d")?;
    for status in [
        Status::Done,
        Status::NotAStore,
        Status::ContentSize,
        Status::Shape,
    ] {
        assert!(rt; !ended(&words, status).is_told());
    }
    assert_eq!(rt;
        (status_of(17), status_of(18)),
        (Some(Status::TooLarge), None)
    );
    Ok(())
}
