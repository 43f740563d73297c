// What names a swarm.
ghost use Rattle.std.specs.Prelude.{◌≡◌, ◌↔◌, ◌+◌, ◌^◌, ◌<◌, ◌≤◌, length, take, drop, IsOk, IfOk, IfErr, IsTrue, MatchOption};
ghost use Rattle.hex.specs.Hex.{IsBytes};
ghost use Rattle.pp_terms.specs.tree.Content.{chunk_length, IsChunkSize, IsContentSize};
ghost use Rattle.pp_terms.specs.format.Descriptor.{chunks_of, height_of, descriptor_text, IsDescriptor};
ghost use Rattle.pp_terms.specs.tree.Tree.{IsHeight};
ghost use Rattle.pp_tree.specs.Faults.{IsFaultOf};
ghost use Rattle.pp_tree.specs.Method.{method_of};

use crate::digest::Digest;
use crate::form::read_words;
use crate::node;
use crate::text::{put, put_decimal, put_hex};
use std::marker::Model;

/// How the messages of a swarm name its chunks: by bins or by ranges, in numbers of 32 or 64 bits
/// (RFC 7574, section 7.8).
#[derive(Clone, Copy, PartialEq, Eq, Debug)]
pub enum Method {
    Bin32,
    Range32,
    Bin64,
    Range64,
}

impl Method {
    ghost use Rattle.pp_terms.specs.format.Descriptor as terms;
    ghost use Rattle.pp_terms.specs.format.Descriptor.{method_number};

    /// Its number on the wire and in a descriptor's text.
    pub fn number(self) -> u8
        ensures { result ≡ method_number (method_of self) }
    {
        match self {
            Method::Bin32 => 0,
            Method::Range32 => 2,
            Method::Bin64 => 3,
            Method::Range64 => 4,
        }
    }

    // The method of that number.
    fn of_number(number: u128) -> Option<Method>
        ensures { MatchOption result ((m : terms.Method) → number ≡ method_number m → ⊥)
            (λ m. number ≡ method_number (method_of m)) }
    {
        if number == 0 {
            Some(Method::Bin32)
        } else if number == 2 {
            Some(Method::Range32)
        } else if number == 3 {
            Some(Method::Bin64)
        } else if number == 4 {
            Some(Method::Range64)
        } else {
            None
        }
    }
}

/// A field of a descriptor that no swarm can have: the size of its chunks, or that of its content.
#[derive(Clone, Copy, PartialEq, Eq, Debug)]
pub enum FieldFault {
    Chunk,
    Size,
}

/// What is wrong with a text that isn't a descriptor's, and the byte of the text where it shows. The faults are looked
/// for in this order.
#[derive(Clone, Copy, PartialEq, Eq, Debug)]
pub enum DescriptorFault {
    /// The form: `at` bytes begin some text of the form, and one more don't.
    Form { at: usize },
    /// The word that begins there is no chunk size.
    Chunk { at: usize },
    /// The word that begins there is no size of a content.
    Size { at: usize },
    /// The word that begins there is no method's number.
    Method { at: usize },
}

/// What names a swarm: the root hash, the chunk size and the content size in bytes, and the method.
#[derive(Clone, Copy, PartialEq, Eq, Debug)]
pub struct Descriptor {
    root: Digest,
    chunk: u32,
    size: u64,
    method: Method,
}

impl Model for Descriptor {
    ghost use Rattle.pp_terms.specs.format.Descriptor as terms;

    ghost Value = { terms.Descriptor };

    ghost use Rattle.pp_tree.specs.Fields.{descriptor_from, fields_from};

    ghost view = { descriptor_from };

    ghost invariant = { λ d. terms.IsDescriptor (descriptor_from d) };

    ghost inverse = { fields_from };
}

impl Descriptor {
    ghost use Rattle.pp_terms.specs.format.Descriptor.{Descriptor};

    /// A swarm's descriptor. The chunk size is a power of two from 256 to 8192, and a content has at least one byte and
    /// at most 2^20 chunks; the chunk size is judged first.
    pub fn new(
        root: Digest,
        chunk: u32,
        size: u64,
        method: Method,
    ) -> Result<Descriptor, FieldFault>
        ensures chunk { (result ≡ Err FieldFault.Chunk) ↔ ¬ IsChunkSize chunk }
        ensures size { (result ≡ Err FieldFault.Size) ↔ (IsChunkSize chunk × ¬ IsContentSize chunk size) }
        ensures ok { IsOk result ↔ (IsChunkSize chunk × IsContentSize chunk size) }
        ensures value { IfOk result (λ d.
            d ≡ record { root = root; chunk = chunk; size = size; method = method_of method }) }
        ensures valid { IfOk result IsDescriptor }
    {
        if !is_chunk_size(chunk) {
            return Err(FieldFault::Chunk);
        }
        if !is_content_size(chunk, size) {
            return Err(FieldFault::Size);
        }
        // Its contract tells that the root has 32 bytes.
        let _ = root.bytes();
        Ok(Descriptor {
            root,
            chunk,
            size,
            method,
        })
    }

    /// Reads the text that `write` writes: `ppspp1:ROOT:CHUNK:SIZE:METHOD` with 64 hexadecimal digits in lower case and
    /// three decimal numbers without leading zeros, of at most 20 digits.
    pub fn read(text: &str) -> Result<Descriptor, DescriptorFault>
        ensures ok { IfOk result (λ d. text.now ≡ descriptor_text d) }
        ensures valid { IfOk result IsDescriptor }
        ensures bytes { IfOk result (λ d. IsBytes d.root) }
        ensures each { (d : Descriptor) → IsDescriptor d → IsBytes d.root → text.now ≡ descriptor_text d → result ≡ Ok d }
        ensures fault { IfErr result (IsFaultOf text.now) }
    {
        Descriptor::read_bytes(text.as_bytes())
    }

    /// Reads the same text, given as bytes.
    pub fn read_bytes(text: &[u8]) -> Result<Descriptor, DescriptorFault>
        ensures ok { IfOk result (λ d. text.now ≡ descriptor_text d) }
        ensures valid { IfOk result IsDescriptor }
        ensures bytes { IfOk result (λ d. IsBytes d.root) }
        ensures each { (d : Descriptor) → IsDescriptor d → IsBytes d.root → text.now ≡ descriptor_text d → result ≡ Ok d }
        ensures fault { IfErr result (IsFaultOf text.now) }
    {
        Descriptor::from_words(text)
    }

    // reads its words from left to right
    fn from_words(text: &[u8]) -> Result<Descriptor, DescriptorFault>
        ensures ok { IfOk result (λ d. text.now ≡ descriptor_text d) }
        ensures valid { IfOk result IsDescriptor }
        ensures bytes { IfOk result (λ d. IsBytes d.root) }
        ensures fault { IfErr result (IsFaultOf text.now) }
    {
        let words = match read_words(text) {
            Ok(words) => words,
            Err(at) => return Err(DescriptorFault::Form { at }),
        };
        if words.chunk > MOST_IN_CHUNK || !is_chunk_size(words.chunk as u32) {
            let at = words.chunk_at;
            return Err(DescriptorFault::Chunk { at });
        }
        if words.size > MOST_IN_CONTENT || !is_content_size(words.chunk as u32, words.size as u64) {
            let at = words.size_at;
            return Err(DescriptorFault::Size { at });
        }
        match Method::of_number(words.method) {
            Some(method) => Ok(Descriptor {
                root: Digest::new(words.root),
                chunk: words.chunk as u32,
                size: words.size as u64,
                method,
            }),
            None => {
                let at = words.method_at;
                Err(DescriptorFault::Method { at })
            }
        }
    }

    /// Its text, `ppspp1:ROOT:CHUNK:SIZE:METHOD`, the root in lower-case hexadecimal digits and the others in decimal, at
    /// the front of the buffer; answers how many bytes it has.
    pub fn write(&self, out: &mut [u8; 128]) -> usize
        ensures len { result ≡ length (descriptor_text self.now) }
        ensures within { result ≤ 128 }
        ensures text { take result out.new ≡ descriptor_text self.now }
        ensures rest { drop result out.new ≡ drop result out.old }
    {
        let at = put(out, 0, b"ppspp1:");
        let at = put_hex(out, at, self.root.bytes());
        let at = put(out, at, b":");
        let at = put_decimal(out, at, u64::from(self.chunk));
        let at = put(out, at, b":");
        let at = put_decimal(out, at, self.size);
        let at = put(out, at, b":");
        put_decimal(out, at, u64::from(self.method.number()))
    }

    /// The root hash of the content's tree, which is the swarm's identifier.
    pub fn root(&self) -> Digest
        ensures root { result ≡ self.now.root }
        ensures valid { IsDescriptor self.now }
    {
        self.root
    }

    /// The chunk size in bytes.
    pub fn chunk(&self) -> u32
        ensures chunk { result ≡ self.now.chunk }
        ensures range { (256 ≤ result) × (result ≤ 8192) }
        ensures valid { IsDescriptor self.now }
    {
        self.chunk
    }

    /// The content's size in bytes.
    pub fn size(&self) -> u64
        ensures size { result ≡ self.now.size }
        ensures range { (0 < result) × (result ≤ 2 ^ 33) }
        ensures valid { IsDescriptor self.now }
    {
        self.size
    }

    /// How the swarm's messages name chunks.
    pub fn method(&self) -> Method
        ensures method { method_of result ≡ self.now.method }
        ensures valid { IsDescriptor self.now }
    {
        self.method
    }

    /// How many chunks the content has.
    pub fn chunks(&self) -> u32
        ensures chunks { result ≡ chunks_of self.now }
        ensures range { (0 < result) × (result ≤ 2 ^ 20) }
        ensures valid { IsDescriptor self.now }
    {
        self.size.div_ceil(u64::from(self.chunk)) as u32
    }

    /// The layer of the root: the least h with 2^h at least the number of chunks.
    pub fn height(&self) -> u8
        ensures height { result ≡ height_of self.now }
        ensures least { IsHeight (chunks_of self.now) result }
        ensures range { result ≤ 20 }
        ensures valid { IsDescriptor self.now }
    {
        node::height(self.chunks())
    }

    /// The length of chunk i in bytes, the chunk size but for the last one.
    pub fn chunk_len(&self, i: u32) -> u32
        requires { i < chunks_of self.now }
        ensures len { result ≡ chunk_length self.now.size self.now.chunk i }
        ensures range { (0 < result) × (result ≤ self.now.chunk) }
        ensures valid { IsDescriptor self.now }
    {
        let chunk = u64::from(self.chunk);
        chunk.min(self.size - u64::from(i) * chunk) as u32
    }
}

// How many chunks a content may have, and the most bytes in a chunk and in a content.
const MOST_CHUNKS: u64 = 1 << 20;

const MOST_IN_CHUNK: u128 = 1 << 13;

const MOST_IN_CONTENT: u128 = 1 << 33;

fn is_chunk_size(chunk: u32) -> bool
    ensures { IsTrue result ↔ IsChunkSize chunk }
{
    [256, 512, 1024, 2048, 4096, 8192].contains(&chunk)
}

fn is_content_size(chunk: u32, size: u64) -> bool
    ensures { IsTrue result ↔ IsContentSize chunk size }
{
    size > 0 && size <= u64::from(chunk) * MOST_CHUNKS
}
