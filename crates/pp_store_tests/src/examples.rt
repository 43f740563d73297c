//! The store of `abc`, a content of one chunk, by its parts.

use pp_tree::{Descriptor, Digest, Method};
use std::alloc::{AllocError, Global};
use std::test::Fail;

// The chunk size, the content size and the root.
pub(crate) const FIELDS: [u8; 44] = [
    0x00, 0x00, 0x04, 0x00, // 1,024
    0x00, 0x00, 0x00, 0x00, 0x00, 0x00, 0x00, 0x03, // 3
    0xba, 0x78, 0x16, 0xbf, 0x8f, 0x01, 0xcf, 0xea, 0x41, 0x41, 0x40, 0xde, 0x5d, 0xae, 0x22, 0x23,
    0xb0, 0x03, 0x61, 0xa3, 0x96, 0x17, 0x7a, 0x9c, 0xb4, 0x10, 0xff, 0x61, 0xf2, 0x00, 0x15, 0xad,
];

// What stands between the header and the chunk, and behind the chunk.
pub(crate) const GAP: [u8; 12] = [0; 12];

pub(crate) const REST: [u8; 1085] = [0; 1085];

// The header has two parts, and the last one is an open gate.
pub(crate) const HEADER: [&[u8]; 2] = [b"PPSTORE2", &FIELDS];

pub(crate) const STORE: [&[u8]; 6] = [b"PPSTORE2", &FIELDS, &GAP, b"abc", &REST, &[0x4f]];

// The swarm of `abc`.
pub(crate) fn abc() -> Result<Descriptor, Fail> {
    let mut root = [0; 32];
    root.copy_from_slice(&FIELDS[12..]);
    Ok(Descriptor::new(Digest::new(root), 1024, 3, Method::Range32)?)
}

// A file of these parts.
pub(crate) fn joined(alloc: Global, parts: &[&[u8]]) -> Result<Vec<u8>, AllocError> {
    let mut bytes = Vec::new(alloc);
    for part in parts {
        bytes.extend_from_slice(part)?;
    }
    Ok(bytes)
}

// What stands in a file behind these parts, where it begins with them.
pub(crate) fn behind<'f>(file: &'f [u8], parts: &[&[u8]]) -> Option<&'f [u8]> {
    let mut rest = file;
    for part in parts {
        rest = rest.strip_prefix(*part)?;
    }
    Some(rest)
}

// Whether a file has these parts and no more.
pub(crate) fn is_made_of(file: &[u8], parts: &[&[u8]]) -> bool {
    behind(file, parts) == Some(&[])
}
