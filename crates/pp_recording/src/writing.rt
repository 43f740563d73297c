// Writing a recording's text.
ghost use Rattle.std.specs.Prelude.{◌≡◌, suc, ◌++◌, ◌≤◌, [], length, OnOk, IfOk};
ghost use Rattle.pp_tree.specs.Book.{entry};
ghost use Rattle.pp_outside.specs.Outside.{address_of};
ghost use Rattle.pp_recording.specs.Spelling.{record_line, datagram_line};
ghost use Rattle.pp_recording.specs.Recording.{node_with, nodes_text, records_text, first_nodes, lowest_nodes, nodes_of, recording_text};
ghost use Rattle.pp_recording.specs.State.{Fill, LiesIn, record_of, records_of, recorded};

use crate::recording::{Entry, Recording};
use crate::spelling::{add_address, add_hex, add_node, add_number};
use pp_outside::Address;
use pp_tree::{Book, Descriptor, Node};
use std::alloc::{AllocError, Global};

// Adds the line of a node where the book knows it.
fn add_known(text: &mut Vec<u8>, book: &Book, node: Node) -> Result<(), AllocError>
    ensures { OnOk result (text.new.items ≡ text.old.items
        ++ nodes_text (node_with node.layer node.offset (entry book.now node.layer node.offset))) }
{
    match book.get(node) {
        Some(digest) => add_node(text, node, &digest),
        None => Ok(()),
    }
}

// Adds the lines of the first nodes of a layer.
fn add_layer(text: &mut Vec<u8>, book: &Book, layer: u8, count: u32) -> Result<(), AllocError>
    ensures { OnOk result (text.new.items ≡ text.old.items ++ nodes_text (first_nodes (entry book.now) layer count)) }
{
    for offset in 0..count {
        add_known(text, book, Node { layer, offset })?;
    }
    Ok(())
}

// Adds the lines of all nodes of a tree so high.
fn add_nodes(text: &mut Vec<u8>, book: &Book, height: u8) -> Result<(), AllocError>
    requires { height ≤ 20 }
    ensures { OnOk result (text.new.items ≡ text.old.items ++ nodes_text (lowest_nodes (entry book.now) height (suc height))) }
{
    for layer in 0..height + 1 {
        add_layer(text, book, layer, 1 << (height - layer))?;
    }
    Ok(())
}

// Adds the rest of the line of a datagram, behind its first word.
fn add_datagram(
    alloc: Global,
    text: &mut Vec<u8>,
    number: u64,
    address: &Address,
    bytes: &[u8],
) -> Result<(), AllocError>
    ensures { OnOk result (text.new.items ≡ text.old.items
        ++ datagram_line [] number (address_of address.now) bytes.now) }
{
    add_number(text, number)?;
    text.extend_from_slice(b" ")?;
    add_address(text, address)?;
    text.extend_from_slice(b" ")?;
    add_hex(alloc, text, bytes)?;
    text.extend_from_slice(b"\n")?;
    Ok(())
}

// Adds the line of a record.
#[tactic(auto, unfolding(crate::specs::Spelling::record_line))]
fn add_entry(
    alloc: Global,
    text: &mut Vec<u8>,
    entry: &Entry,
    bytes: &[u8],
) -> Result<(), AllocError>
    requires { LiesIn entry.now (length bytes.now) }
    ensures { OnOk result (text.new.items ≡ text.old.items ++ record_line (record_of bytes.now entry.now)) }
{
    match entry {
        Entry::Received {
            at,
            from,
            start,
            len,
        } => {
            text.extend_from_slice(b"received ")?;
            add_datagram(alloc, text, *at, from, &bytes[*start..*start + *len])?;
            Ok(())
        }
        Entry::Quiet { at } => {
            text.extend_from_slice(b"quiet ")?;
            add_number(text, *at)?;
            text.extend_from_slice(b"\n")?;
            Ok(())
        }
        Entry::Sent {
            moment,
            to,
            start,
            len,
        } => {
            text.extend_from_slice(b"sent ")?;
            add_datagram(alloc, text, *moment, to, &bytes[*start..*start + *len])?;
            Ok(())
        }
    }
}

// Adds the lines of the records, the oldest first.
fn add_entries(
    alloc: Global,
    text: &mut Vec<u8>,
    entries: &[Entry],
    bytes: &[u8],
) -> Result<(), AllocError>
    requires { Fill 0 entries.now (length bytes.now) }
    ensures { OnOk result (text.new.items ≡ text.old.items ++ records_text (records_of bytes.now entries.now)) }
{
    for n in 0..entries.len() {
        add_entry(alloc, text, &entries[n], bytes)?;
    }
    Ok(())
}

/// The text of a recording of these parts, whatever its size. Fails where there is no memory.
#[tactic(auto, unfolding(crate::specs::Recording::recording_text, crate::specs::Recording::front_text))]
pub(crate) fn text_of(
    alloc: Global,
    descriptor: &Descriptor,
    book: &Book,
    entries: &[Entry],
    bytes: &[u8],
) -> Result<Vec<u8>, AllocError>
    requires { Fill 0 entries.now (length bytes.now) }
    ensures { IfOk result (λ text. text.items ≡ recording_text (record {
      descriptor = descriptor.now;
      nodes = nodes_of descriptor.now (entry book.now);
      records = records_of bytes.now entries.now;
    })) }
{
    let mut buffer = [0u8; 128];
    let len = descriptor.write(&mut buffer);
    let mut text = Vec::new(alloc);
    text.extend_from_slice(b"ppspp-recording 1\n")?;
    text.extend_from_slice(&buffer[..len])?;
    text.extend_from_slice(b"\n")?;
    add_nodes(&mut text, book, descriptor.height())?;
    add_entries(alloc, &mut text, entries, bytes)?;
    text.extend_from_slice(b"end\n")?;
    Ok(text)
}

/// The text of a recording. Fails where there is no memory.
pub fn write(alloc: Global, recording: &Recording) -> Result<Vec<u8>, AllocError>
    ensures { IfOk result (λ text. text.items ≡ recording_text (recorded recording.now)) }
{
    // Its contract tells that the datagrams fill the bytes.
    let _ = recording.count();
    text_of(
        alloc,
        recording.descriptor(),
        recording.book(),
        recording.entries(),
        recording.bytes(),
    )
}
