//! What a peer asks for in a life, against what it announced in the one before.

use crate::ends::{CRASHED, played};
use pp_outside::{Mark, MemoryLink};
use pp_play::Outcome;
use pp_recorded::reading::{first_place, message_at};
use pp_tree::Descriptor;
use pp_wire::{Message, Span};
use std::alloc::{AllocError, Global};
use std::test::Fail;

// The content's descriptor: bytes 5, 12, 19 .., with a step more at each 256th.
const CONTENT: &str =
    "ppspp1:b42effe6efb1b60e3199b18182c63d9577f6cdfeaaa0acb3399ac8d87b4d8f73:1024:7000:2";

// The chunks that a peer announced, and those that it asked for.
#[derive(Drop)]
struct Said {
    announced: Vec<Span>,
    asked: Vec<Span>,
}

fn add_message(message: &Message<'_>, said: &mut Said) -> Result<(), AllocError> {
    match *message {
        Message::Ack { span, .. } => said.announced.push(span)?,
        Message::Have { span } => said.announced.push(span)?,
        Message::Request { span } => said.asked.push(span)?,
        _ => {}
    }
    Ok(())
}

fn add_datagram(descriptor: &Descriptor, bytes: &[u8], said: &mut Said) -> Result<(), AllocError> {
    let mut at = first_place(bytes);
    for _ in 0..bytes.len() {
        if at > bytes.len() {
            break;
        }
        let Some((message, next)) = message_at(descriptor, bytes, at) else {
            break;
        };
        add_message(&message, said)?;
        at = next;
    }
    Ok(())
}

fn said_over(
    alloc: Global,
    descriptor: &Descriptor,
    link: &MemoryLink,
) -> Result<Said, AllocError> {
    let mut said = Said {
        announced: Vec::new(alloc),
        asked: Vec::new(alloc),
    };
    for n in 0..link.marks() {
        if let Mark::Sent { .. } = link.mark(n) {
            add_datagram(descriptor, link.mark_bytes(n), &mut said)?;
        }
    }
    Ok(said)
}

fn has_common(a: &[Span], b: &[Span]) -> bool {
    a.iter().any(|x| b.iter().any(|y| x.first <= y.last && y.first <= x.last))
}

// What peer 1 said in one of its lives.
fn said_in(alloc: Global, outcome: &Outcome, life: usize) -> Result<Said, Fail> {
    let Ok(descriptor) = Descriptor::read(CONTENT) else {
        return Err("no descriptor".into());
    };
    let Some(end) = outcome.ends.get(1) else {
        return Err("no peer".into());
    };
    let Some(life) = end.lives().get(life) else {
        return Err("no life".into());
    };
    Ok(said_over(alloc, &descriptor, life.link())?)
}

// The peer crashed, and asks for no chunk again that it had announced.
#[test]
fn asks_for_nothing_that_was_announced(rt: HostRuntime) -> Result<(), Fail> {
    let alloc = rt.alloc();
    let outcome = played(alloc, CRASHED)?;
    let first = said_in(alloc, &outcome, 0)?;
    let second = said_in(alloc, &outcome, 1)?;
    assert!(rt; !first.announced.is_empty() && !second.asked.is_empty());
    assert!(rt; !has_common(&second.asked, &first.announced));
    Ok(())
}
