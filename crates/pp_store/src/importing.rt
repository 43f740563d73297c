// A content becomes a store.
ghost use Rattle.std.specs.Prelude.{◌≡◌, ◌↔◌, ℕ, ◌+◌, ◌*◌, ◌^◌, ◌<◌, ◌≤◌, min, Some, [], List, length, drop, IsTrue, OnOk, IfOk, IfErr};
ghost use Rattle.pp_terms.specs.Count.{HasCause};
ghost use Rattle.pp_terms.specs.tree.Content.{chunk_count, IsChunkSize, IsContentSize};
ghost use Rattle.pp_terms.specs.tree.Tree.{root_of};
ghost use Rattle.pp_terms.specs.disk.Store.{IsNoStore, IsStoreOf};
ghost use Rattle.pp_terms.specs.disk.Disk.{IsKnown, Throughout, moment_of};
ghost use Rattle.pp_store.specs.Keep.{KeepsDisk};
ghost use Rattle.pp_store.specs.Behind.{KeepsBehind, DoesBehind};
ghost use Rattle.pp_store.specs.Imported.{imported};
ghost use Rattle.pp_store.specs.Growing.{IsContent, IsPartial, IsBuilt, IsWhole};
ghost use Rattle.pp_store.specs.Sound.{StaysSound};
ghost use Rattle.pp_store.specs.Import.{most_bytes, HasAnswer, HasFault, IsDiskFault, IsLeft, LeavesWholeStores, IsUntouched, TakesAtMost, DoesImport};

use crate::durable::keep_front;
use crate::filling::fill;
use crate::growing::GrowingTree;
use pp_outside::{Disk, DiskFault, Source, SourceFault};
use pp_scan::{file_size, header_of};
use pp_tree::{Descriptor, Digest, Method};
use thiserror::Error;

// How many bytes are read and stored at once. It is a multiple of each chunk size.
const PIECE: usize = 65_536;

// How many chunks a content has at the most.
const MOST_CHUNKS: u64 = 1 << 20;

/// Why a content became no store.
#[derive(Clone, Copy, Debug, PartialEq, Eq, Error)]
pub enum ImportFault {
    /// The disk has `len` bytes already.
    #[error("the store has {len} bytes already")]
    NotEmpty { len: u64 },
    /// The content has no byte, or more than 2^20 chunks; `count` is how many bytes of it were read.
    #[error("the content is empty or too long: {count} bytes were read")]
    ContentSize { count: u64 },
    /// The source refused a read.
    #[error("the source refused a read")]
    Source,
    /// The disk refused a call.
    #[error("the disk refused a call")]
    Disk,
}

/// Reads a content from the source, of at most 2^20 chunks, and makes it a store on the disk, which is empty. `chunk` is
/// the chunk size in bytes. It reads at most 64 KiB at once, writes each chunk as it comes, and takes no memory.
pub fn import<D: Disk, S: Source>(
    chunk: u32,
    source: &mut S,
    disk: &mut D,
) -> Result<Descriptor, ImportFault>
    requires { IsChunkSize chunk }

    ensures answer { HasAnswer chunk (S.state source.old) (S.state source.new) (D.state disk.old) (D.state disk.new) result }
    ensures whole { IsKnown (D.state disk.old) → (content : List ℕ) → (S.state source.old).left ≡ Some content
        → LeavesWholeStores chunk content (D.state disk.old).history (D.state disk.new).history }
    // Images that were sound stay so.
    ensures sound { IsKnown (D.state disk.old) → (content : List ℕ) → (S.state source.old).left ≡ Some content → IsContent chunk content
        → StaysSound (imported content chunk) (D.state disk.old).history (D.state disk.new).history }

    // Before the first sync what reads give is no store, if the disk was empty.
    ensures no_store { IsKnown (D.state disk.old) → (D.state disk.old).history.reads ≡ []
        → moment_of (D.state disk.new).history ≡ moment_of (D.state disk.old).history → IsNoStore (D.state disk.new).history.reads }
    ensures untouched { IsKnown (D.state disk.old) → 0 < length (D.state disk.old).history.reads
        → IsUntouched (S.state source.old) (S.state source.new) (D.state disk.old) (D.state disk.new) }

    ensures takes { TakesAtMost (most_bytes chunk + 1) (S.state source.old) (S.state source.new) }
    ensures source { (S.state source.old).faults ≤ (S.state source.new).faults }
    ensures disk { KeepsDisk (D.state disk.old) (D.state disk.new) }
{
    match disk.len() {
        Ok(0) => {
            let mut buffer = [0u8; PIECE];
            import_to_empty(chunk, source, &mut buffer, disk)
        }
        Ok(len) => Err(ImportFault::NotEmpty { len }),
        Err(_) => Err(ImportFault::Disk),
    }
}

// The content is read into the buffer, a piece after the other. The file begins with zeros until all is there, so that no
// crash leaves a header before that.
fn import_to_empty<D: Disk, S: Source>(
    chunk: u32,
    source: &mut S,
    buffer: &mut [u8; PIECE],
    disk: &mut D,
) -> Result<Descriptor, ImportFault>
    requires size { IsChunkSize chunk }
    requires empty { IsKnown (D.state disk.old) → (D.state disk.old).history.reads ≡ [] }
    ensures { DoesImport chunk (S.state source.old) (S.state source.new) (D.state disk.old) (D.state disk.new) result }
{
    match keep_front(disk, &[0; 8]) {
        Ok(()) => {}
        Err(_) => return Err(ImportFault::Disk),
    }
    let mut tree = GrowingTree::new();
    let size = match store_chunks(chunk, source, buffer, &mut tree, disk) {
        Ok(size) => size,
        Err(fault) => return Err(fault),
    };
    match is_over(chunk, size, source) {
        Ok(true) => Err(ImportFault::ContentSize { count: size + 1 }),
        Ok(false) if size == 0 => Err(ImportFault::ContentSize { count: 0 }),
        Ok(false) => finish_store(chunk, size, &tree, disk),
        Err(_) => Err(ImportFault::Source),
    }
}

// Stores what the source gives, up to 2^20 chunks, and answers how many bytes that is.
fn store_chunks<D: Disk, S: Source>(
    chunk: u32,
    source: &mut S,
    buffer: &mut [u8; PIECE],
    tree: &mut GrowingTree,
    disk: &mut D,
) -> Result<u64, ImportFault>
    requires size { IsChunkSize chunk }
    requires fresh { tree.old.count ≡ 0 }

    ensures most { IfOk result (λ size. size ≤ most_bytes chunk) }
    ensures counted { IfOk result (λ size. tree.new.count ≡ chunk_count size chunk) }
    ensures read { (content : List ℕ) → (S.state source.old).left ≡ Some content
        → IfOk result (λ size. (size ≡ min (length content) (most_bytes chunk)) × ((S.state source.new).left ≡ Some (drop size content))) }
    ensures put { (content : List ℕ) → (S.state source.old).left ≡ Some content
        → IsPartial chunk content 0 tree.old.peaks (D.state disk.old)
        → OnOk result (IsPartial chunk content tree.new.count tree.new.peaks (D.state disk.new)) }
    ensures fault { IfErr result (λ fault. HasFault fault (S.state source.old) (S.state source.new) (D.state disk.old) (D.state disk.new)) }

    ensures takes { TakesAtMost (most_bytes chunk) (S.state source.old) (S.state source.new) }
    ensures source { (S.state source.old).faults ≤ (S.state source.new).faults }
    ensures disk { KeepsBehind (D.state disk.old) (D.state disk.new) }
{
    let mut size = 0;
    'pieces: for _ in 0..16 * chunk {
        match store_piece(chunk, source, buffer, tree, disk) {
            Ok(count) => {
                size += count as u64;
                if count < PIECE {
                    return Ok(size);
                }
            }
            Err(fault) => return Err(fault),
        }
    }
    Ok(size)
}

// Fills the buffer, stores the chunks in it and answers how many bytes they have.
fn store_piece<D: Disk, S: Source>(
    chunk: u32,
    source: &mut S,
    buffer: &mut [u8; PIECE],
    tree: &mut GrowingTree,
    disk: &mut D,
) -> Result<usize, ImportFault>
    requires size { IsChunkSize chunk }
    requires room { tree.old.count * chunk + 65536 ≤ most_bytes chunk }

    ensures few { IfOk result (λ count. count ≤ 65536) }
    ensures counted { IfOk result (λ count. tree.new.count ≡ tree.old.count + chunk_count count chunk) }
    ensures read { (left : List ℕ) → (S.state source.old).left ≡ Some left
        → IfOk result (λ count. (count ≡ min (length left) 65536) × ((S.state source.new).left ≡ Some (drop count left))) }
    ensures put { (content : List ℕ) → (S.state source.old).left ≡ Some (drop (tree.old.count * chunk) content)
        → tree.old.count * chunk ≤ length content → IsPartial chunk content tree.old.count tree.old.peaks (D.state disk.old)
        → OnOk result (IsPartial chunk content tree.new.count tree.new.peaks (D.state disk.new)) }
    ensures fault { IfErr result (λ fault. HasFault fault (S.state source.old) (S.state source.new) (D.state disk.old) (D.state disk.new)) }

    ensures takes { TakesAtMost 65536 (S.state source.old) (S.state source.new) }
    ensures source { (S.state source.old).faults ≤ (S.state source.new).faults }
    ensures disk { KeepsBehind (D.state disk.old) (D.state disk.new) }
{
    match fill(source, buffer) {
        Ok(count) => match tree.put_chunks(chunk, &buffer[..count], disk) {
            Ok(()) => Ok(count),
            Err(_) => Err(ImportFault::Disk),
        },
        Err(_) => Err(ImportFault::Source),
    }
}

// Whether the source goes on behind the greatest content. Where less was read it has ended.
fn is_over<S: Source>(chunk: u32, size: u64, source: &mut S) -> Result<bool, SourceFault>
    requires size { IsChunkSize chunk }
    ensures full { IfOk result (λ over. IsTrue over → size ≡ most_bytes chunk) }
    ensures over { (left : List ℕ) → (S.state source.old).left ≡ Some left
        → IfOk result (λ over. IsTrue over ↔ ((size ≡ most_bytes chunk) × (0 < length left))) }
    ensures takes { TakesAtMost 1 (S.state source.old) (S.state source.new) }
    ensures cause { HasCause (S.state source.old).faults (S.state source.new).faults result }
{
    if size != MOST_CHUNKS * u64::from(chunk) {
        return Ok(false);
    }
    let mut byte = [0];
    match source.read(&mut byte) {
        Ok(count) => Ok(count > 0),
        Err(fault) => Err(fault),
    }
}

// Makes the chunks that are stored a store.
fn finish_store<D: Disk>(
    chunk: u32,
    size: u64,
    tree: &GrowingTree,
    disk: &mut D,
) -> Result<Descriptor, ImportFault>
    requires chunk { IsChunkSize chunk }
    requires size { IsContentSize chunk size }
    requires counted { tree.now.count ≡ chunk_count size chunk }

    ensures described { (content : List ℕ) → length content ≡ size → IsPartial chunk content tree.now.count tree.now.peaks (D.state disk.old)
        → IfOk result (λ d. d ≡ imported content chunk) }
    ensures stored { (content : List ℕ) → length content ≡ size → IsPartial chunk content tree.now.count tree.now.peaks (D.state disk.old)
        → IsKnown (D.state disk.old) → OnOk result (Throughout (D.state disk.new).history
        (moment_of (D.state disk.new).history) (IsStoreOf (imported content chunk) content)) }
    ensures left { IsKnown (D.state disk.old) → IsLeft chunk size tree.now.count tree.now.peaks (D.state disk.old) (D.state disk.new).history }
    ensures fault { IfErr result (λ fault. (fault ≡ ImportFault.Disk) × IsDiskFault (D.state disk.old) (D.state disk.new)) }
    ensures disk { KeepsDisk (D.state disk.old) (D.state disk.new) }
{
    match tree.finish(chunk, disk) {
        Ok(root) => {
            let descriptor = describe(root, chunk, size);
            match stretch(&descriptor, disk) {
                Ok(()) => match keep_front(disk, &header_of(&descriptor)) {
                    Ok(()) => Ok(descriptor),
                    Err(_) => Err(ImportFault::Disk),
                },
                Err(_) => Err(ImportFault::Disk),
            }
        }
        Err(_) => Err(ImportFault::Disk),
    }
}

// Writes a zero byte at the store's last place, unless the gate of the last slot stands there.
fn stretch<D: Disk>(descriptor: &Descriptor, disk: &mut D) -> Result<(), DiskFault>
    ensures does { DoesBehind (D.state disk.old) result (D.state disk.new) }
    ensures whole { (chunk : ℕ) (content : List ℕ) → descriptor.now ≡ imported content chunk → IsKnown (D.state disk.old)
        → IsBuilt chunk content (D.state disk.old).history.reads → OnOk result (IsWhole chunk content (D.state disk.new).history.reads) }
{
    if descriptor.chunks() == 1 << descriptor.height() {
        return Ok(());
    }
    disk.write_at(file_size(descriptor) - 1, &[0])
}

// The descriptor of an import.
fn describe(root: Digest, chunk: u32, size: u64) -> Descriptor
    requires chunk { IsChunkSize chunk }
    requires size { IsContentSize chunk size }
    ensures { (content : List ℕ) → length content ≡ size → root ≡ root_of content chunk → result ≡ imported content chunk }
{
    Descriptor::new(root, chunk, size, Method::Range32).unwrap()
}
