//! A content, and the book of a store of all of it: what proves its chunks.
ghost use Rattle.std.specs.Prelude.{◌≡◌, Some, IfOk};
ghost use Rattle.pp_terms.specs.tree.Content.{IsChunkSize};
ghost use Rattle.pp_terms.specs.tree.Book.{IsRooted};
ghost use Rattle.pp_tree.specs.Book.{entry, HasRootAlone};

use pp_outside::{Disk, MemoryDisk, MemorySource};
use pp_paths::Claims;
use pp_store::{ImportFault, Store, import};
use pp_tree::{Book, Descriptor, Node, peaks};
use std::alloc::{AllocError, Global};
use std::test::Fail;

// A content and the book of a store of all of it.
#[derive(Drop)]
pub(crate) struct Swarm {
    pub(crate) descriptor: Descriptor,
    known: Book,
}

// byte j of each content: 5, 12, 19 .., with a step more at each 256th
fn byte(j: u32) -> u8 {
    let [_, high, middle, low] = j.to_be_bytes();
    low.wrapping_mul(7)
        .wrapping_add(5)
        .wrapping_add(middle)
        .wrapping_add(high)
}

// Writes the first bytes of the content, as many as there is room for.
pub(crate) fn fill(content: &mut [u8]) {
    let mut j = 0u32;
    for byte_j in content.iter_mut() {
        *byte_j = byte(j);
        j = j.wrapping_add(1);
    }
}

// Seven chunks of 1,024 bytes at most.
pub(crate) fn content_of_seven() -> [u8; 7000] {
    let mut content = [0; 7000];
    fill(&mut content);
    content
}

fn content() -> [u8; 17_920] {
    let mut content = [0u8; 17_920];
    fill(&mut content);
    content
}

pub(crate) fn prepared(alloc: Global, descriptor: &Descriptor) -> Result<Book, Fail>
    ensures alone { IfOk result (λ book. HasRootAlone descriptor.now (entry book)) }
    ensures descriptor { IfOk result (λ book. book.descriptor ≡ Some descriptor.now) }
{
    let mut book = Book::empty(alloc);
    book.prepare(alloc, descriptor)?;
    Ok(book)
}

// Opens the store; what the tests need of it is little, and a longer context costs the prover minutes.
pub(crate) fn opened<D: Disk>(
    alloc: Global,
    descriptor: &Descriptor,
    disk: &mut D,
    book: &mut Book,
) -> Result<Store, Fail>
    requires alone { HasRootAlone descriptor.now (entry book.old) }
    requires descriptor { book.old.descriptor ≡ Some descriptor.now }
    ensures same { IfOk result (λ store. store.descriptor ≡ descriptor.now) }
    ensures rooted { IsRooted descriptor.now (entry book.new) }
{
    Ok(Store::open(alloc, descriptor, disk, book)?)
}

fn import_content(chunk: u32, size: usize, disk: &mut MemoryDisk) -> Result<Descriptor, ImportFault>
    requires { IsChunkSize chunk }
{
    let content = content();
    let size = size.min(content.len());
    import(chunk, &mut MemorySource::new(&content[..size]), disk)
}

// The swarm of the store on a disk.
fn known(alloc: Global, descriptor: Descriptor, disk: &mut MemoryDisk) -> Result<Swarm, Fail> {
    let mut known = prepared(alloc, &descriptor)?;
    opened(alloc, &descriptor, disk, &mut known)?;
    Ok(Swarm { descriptor, known })
}

fn make_swarm(alloc: Global, chunk: u32, size: usize) -> Result<Swarm, Fail>
    requires { IsChunkSize chunk }
{
    let mut disk = MemoryDisk::new(alloc, &[])?;
    let descriptor = import_content(chunk, size, &mut disk)?;
    known(alloc, descriptor, &mut disk)
}

// 7,000 bytes in chunks of 1,024
pub(crate) fn seven_chunks(alloc: Global) -> Result<Swarm, Fail> {
    make_swarm(alloc, 1024, 7000)
}

// So many bytes in chunks of 256, of which there are seventy at most
pub(crate) fn small_chunks(alloc: Global, size: usize) -> Result<Swarm, Fail> {
    make_swarm(alloc, 256, size)
}

// What proves a chunk: the peaks, and the siblings on its way.
pub(crate) fn claims_of(alloc: Global, swarm: &Swarm, i: u32) -> Result<Claims, AllocError> {
    let mut claims = Claims::new(alloc)?;
    claim(&mut claims, swarm, &peaks(swarm.descriptor.chunks()));
    for layer in 0..swarm.descriptor.height() {
        let offset = (i >> layer) ^ 1;
        claim(&mut claims, swarm, &[Node { layer, offset }]);
    }
    Ok(claims)
}

fn claim(claims: &mut Claims, swarm: &Swarm, nodes: &[Node]) {
    for node in nodes {
        if let Some(digest) = swarm.known.get(*node) {
            claims.add(*node, digest);
        }
    }
}

// The bytes of chunk i, and more of the same kind where a chunk is shorter.
pub(crate) fn bytes_of(chunk: u32, i: u32) -> [u8; 1024] {
    let mut bytes = [0u8; 1024];
    let first = i % 100 * (chunk % 10_000);
    for (at, byte_at) in bytes.iter_mut().enumerate() {
        *byte_at = byte(first + at as u32);
    }
    bytes
}
