// A recording as far as its lines were read.
ghost use Rattle.std.specs.Prelude.{◌≡◌, ◌≢◌, ◌↔◌, ◌∷◌, [], All, List, ℕ, ◌+◌, ◌<◌, ◌≤◌, ◌++◌, length, codes, OnOk, IfOk, IsTrue};
ghost use Rattle.hex.specs.Hex.{IsBytes};
ghost use Rattle.pp_terms.specs.format.Descriptor.{descriptor_text, IsDescriptor};
ghost use Rattle.pp_terms.specs.format.Traffic as terms;
ghost use Rattle.pp_tree.specs.Book.{IsInTree};
ghost use Rattle.pp_recording.specs.Spelling.{hex_text};
ghost use Rattle.pp_recording.specs.Recording.{front_text, recording_text, most_text, IsPeerAddress, IsKeptRecord};
ghost use Rattle.pp_recording.specs.State.{recorded, record_of, Fill};
ghost use Rattle.pp_outside.specs.Outside.{address_of};
ghost use Rattle.pp_recording.specs.Lines.{IsHex, Says};
ghost use Rattle.pp_recording.specs.Drafts.{drafted, IsDraft, MayCome, TakesNode, TakesRecord, Takes};

use crate::lines::{Line, line_in};
use crate::recording::{Entry, Recording};
use pp_outside::Address;
use pp_tree::{Book, Descriptor, Digest, Node};
use std::alloc::{AllocError, Global};

const MOST_NODES: u32 = 65_536;

const MOST_RECORDS: usize = 16_384;

/// What was read. The next node may be the one at `layer` and `offset`, or one behind it.
#[derive(Drop)]
pub(crate) struct Draft {
    descriptor: Descriptor,
    book: Book,
    nodes: u32,
    layer: u8,
    offset: u32,
    entries: Vec<Entry>,
    bytes: Vec<u8>,
}

impl Draft {
    /// A draft without nodes and records, of a text of so many bytes and lines. All memory is taken here.
    pub(crate) fn new(
        alloc: Global,
        descriptor: Descriptor,
        bytes: usize,
        lines: usize,
    ) -> Result<Draft, AllocError>
        requires valid { IsDescriptor descriptor }
        requires root { IsBytes descriptor.root }
        ensures draft { IfOk result IsDraft }
        ensures text { IfOk result (λ d. front_text (drafted d) ≡ codes "ppspp-recording 1\n" ++ descriptor_text descriptor ++ codes "\n") }
    {
        let mut book = Book::empty(alloc);
        book.blank(alloc, &descriptor)?;
        let entries = Vec::with_capacity(alloc, lines.min(MOST_RECORDS))?;
        let bytes = Vec::with_capacity(alloc, bytes / 2)?;
        Ok(Draft {
            descriptor,
            book,
            nodes: 0,
            layer: 0,
            offset: 0,
            entries,
            bytes,
        })
    }

    pub(crate) fn recording(self) -> Recording
        requires draft { IsDraft self }
        requires short { length (recording_text (drafted self)) ≤ most_text }
        ensures { recorded result ≡ drafted self }
    {
        Recording::new(self.descriptor, self.book, self.entries, self.bytes)
    }

    /// Takes a line, not the last one; false where it can't stand there.
    pub(crate) fn take(&mut self, scratch: &mut Vec<u8>, row: &[u8]) -> Result<bool, AllocError>
        requires draft { IsDraft self.old }
        requires clean { All (λ byte. byte ≢ 10) row.now }
        requires other { row.now ≢ codes "end" }
        ensures { IfOk result (λ taken. Takes self.old row.now taken self.new) }
    {
        match line_in(row, scratch) {
            Ok(line) => self.take_line(row, line),
            Err(AllocError) => Err(AllocError),
        }
    }

    // Takes what the line says.
    fn take_line(&mut self, _row: &[u8], line: Line<'_>) -> Result<bool, AllocError>
        requires draft { IsDraft self.old }
        requires clean { All (λ byte. byte ≢ 10) _row.now }
        requires other { _row.now ≢ codes "end" }
        requires says { Says _row.now line }
        ensures { IfOk result (λ taken. Takes self.old _row.now taken self.new) }
    {
        match line {
            Line::Node { node, digest } => Ok(self.take_node(node, &digest)),
            Line::Quiet { at } => self.take_quiet(at),
            Line::Received { at, from, digits } => self.take_received(at, from, digits),
            Line::Sent { moment, to, digits } => self.take_sent(moment, to, digits),
            Line::Wrong => Ok(false),
        }
    }

    fn take_received(&mut self, at: u64, from: Address, digits: &[u8]) -> Result<bool, AllocError>
        requires draft { IsDraft self.old }
        requires peer { IsPeerAddress (address_of from) }
        requires digits { IsHex digits.now }
        ensures { IfOk result (λ taken. (bytes : List ℕ) → IsBytes bytes → digits.now ≡ hex_text bytes
            → TakesRecord self.old (terms.Received at (address_of from) bytes) taken self.new) }
    {
        let start = self.bytes.len();
        let len = count_in(digits);
        let entry = Entry::Received {
            at,
            from,
            start,
            len,
        };
        self.take_datagram(entry, digits)
    }

    fn take_sent(&mut self, moment: u64, to: Address, digits: &[u8]) -> Result<bool, AllocError>
        requires draft { IsDraft self.old }
        requires peer { IsPeerAddress (address_of to) }
        requires digits { IsHex digits.now }
        ensures { IfOk result (λ taken. (bytes : List ℕ) → IsBytes bytes → digits.now ≡ hex_text bytes
            → TakesRecord self.old (terms.Sent moment (address_of to) bytes) taken self.new) }
    {
        let start = self.bytes.len();
        let len = count_in(digits);
        let entry = Entry::Sent {
            moment,
            to,
            start,
            len,
        };
        self.take_datagram(entry, digits)
    }

    // Whether a node lies in the tree.
    fn is_in_tree(&self, node: Node) -> bool
        ensures { IsTrue result ↔ IsInTree self.now.descriptor node.layer node.offset }
    {
        let height = self.descriptor.height();
        node.layer <= height && node.offset < 1 << (height - node.layer)
    }

    // Whether a node may come next.
    fn may_come(&self, node: Node) -> bool
        ensures { IsTrue result ↔ MayCome self.now node }
    {
        self.entries.is_empty()
            && self.nodes < MOST_NODES
            && self.is_in_tree(node)
            && (node.layer > self.layer || node.layer == self.layer && node.offset >= self.offset)
    }

    fn take_node(&mut self, node: Node, digest: &Digest) -> bool
        requires draft { IsDraft self.old }
        requires size { length digest.now ≡ 32 }
        requires bytes { IsBytes digest.now }
        ensures { TakesNode self.old (record { layer = node.layer; offset = node.offset; digest = digest.now }) result self.new }
    {
        if !self.may_come(node) {
            return false;
        }
        self.book.set(node, digest);
        self.nodes += 1;
        self.layer = node.layer;
        self.offset = node.offset + 1;
        true
    }

    fn take_quiet(&mut self, at: u64) -> Result<bool, AllocError>
        requires { IsDraft self.old }
        ensures { IfOk result (λ taken. TakesRecord self.old (terms.Quiet at) taken self.new) }
    {
        if self.entries.len() >= MOST_RECORDS {
            return Ok(false);
        }
        self.entries.push(Entry::Quiet { at })?;
        Ok(true)
    }

    // Takes the entry of a datagram, and the bytes that digits write.
    fn take_datagram(&mut self, entry: Entry, digits: &[u8]) -> Result<bool, AllocError>
        requires draft { IsDraft self.old }
        requires digits { IsHex digits.now }
        requires fills { (bytes : List ℕ) → IsBytes bytes → digits.now ≡ hex_text bytes
            → Fill (length self.old.bytes.items) (entry ∷ []) (length self.old.bytes.items + length bytes) }
        requires kept { (bytes : List ℕ) → IsBytes bytes → digits.now ≡ hex_text bytes
            → IsKeptRecord (record_of (self.old.bytes.items ++ bytes) entry) }
        ensures { IfOk result (λ taken. (bytes : List ℕ) → IsBytes bytes → digits.now ≡ hex_text bytes
            → TakesRecord self.old (record_of (self.old.bytes.items ++ bytes) entry) taken self.new) }
    {
        if self.entries.len() >= MOST_RECORDS {
            return Ok(false);
        }
        add_digits(&mut self.bytes, digits)?;
        self.entries.push(entry)?;
        Ok(true)
    }
}

// How many bytes digits write.
fn count_in(digits: &[u8]) -> usize
    requires { IsHex digits.now }
    ensures { (bytes : List ℕ) → IsBytes bytes → digits.now ≡ hex_text bytes → result ≡ length bytes }
{
    if digits == b"-".as_slice() {
        0
    } else {
        digits.len() / 2
    }
}

// Adds the bytes that digits write.
fn add_digits(bytes: &mut Vec<u8>, digits: &[u8]) -> Result<(), AllocError>
    requires { IsHex digits.now }
    ensures { OnOk result ((more : List ℕ) → IsBytes more → digits.now ≡ hex_text more → bytes.new.items ≡ bytes.old.items ++ more) }
{
    if digits == b"-".as_slice() {
        return Ok(());
    }
    let start = bytes.len();
    bytes.resize(start + digits.len() / 2, 0)?;
    hex::decode_to_slice(digits, &mut bytes.as_mut_slice()[start..]).unwrap();
    Ok(())
}
