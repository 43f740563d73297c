//! A disk in memory that has the store of a content.
ghost use Rattle.std.specs.Prelude.{◌≡◌, true, IfOk};
ghost use Rattle.pp_terms.specs.tree.Content.{IsChunkSize};
ghost use Rattle.pp_outside.specs.MemoryDisk.{state_of};
ghost use Rattle.pp_store.specs.Imported.{imported};
ghost use Rattle.pp_watch.specs.Done.{IsSince, as_before};
ghost use Rattle.pp_stage.specs.Filling.{HasStore, ShowsFilled};

use crate::memory::enough;
use pp_outside::{Disk, MemoryDisk, MemorySource};
use pp_store::import;
use pp_watch::{Before, WatchedDisk};
use std::alloc::{AllocError, Global};
use std::marker::Brand;

// A disk after an import, and whether nothing was refused.
#[derive(Drop)]
pub(crate) struct Filled {
    pub disk: MemoryDisk,
    pub is_done: bool,
}

// Imports a content while the disk is watched, and syncs it once more. The disk is what `B` says of it.
pub(crate) fn fill_watched<B: Before>(chunk: u32, content: &[u8], disk: MemoryDisk) -> Filled
    requires disk { B.disk ≡ as_before disk }
    requires chunk { IsChunkSize chunk }
    ensures since { IsSince (as_before disk) result.disk }
    ensures store { result.is_done ≡ true → HasStore (imported content.now chunk) content.now (state_of result.disk).history }
{
    let mut disk = WatchedDisk::<B>::new(disk);
    let imported = import(chunk, &mut MemorySource::new(content), &mut disk).is_ok();
    let is_done = imported && disk.sync().is_ok();
    Filled {
        disk: disk.into_inner(),
        is_done,
    }
}

/// A disk with the whole store of a content, nothing of it pending; `chunk` is the chunk size in bytes. The error comes where memory is
/// missing, and where the content has no byte or more than 2^20 chunks.
pub fn fill(alloc: Global, chunk: u32, content: &[u8]) -> Result<MemoryDisk, AllocError>
    requires { IsChunkSize chunk }
    ensures { IfOk result (λ disk. ShowsFilled (imported content.now chunk) content.now disk) }
{
    let disk = MemoryDisk::new(alloc, &[])?;
    let Filled { disk, is_done } = fill_watched::<Brand>(chunk, content, disk);
    enough(disk.short())?;
    if !is_done {
        return Err(AllocError);
    }
    Ok(disk)
}
