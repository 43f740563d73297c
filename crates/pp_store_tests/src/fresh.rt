//! A store that was opened on a disk, and what is put there.
ghost use Rattle.std.specs.Prelude.{◌≡◌, IfOk};
ghost use Rattle.pp_terms.specs.tree.Book.{IsRooted};
ghost use Rattle.pp_tree.specs.Book.{entry};

use crate::stopping::StoppingDisk;
use crate::swarm::{Swarm, bytes_of, claims_of, opened, prepared};
use pp_outside::MemoryDisk;
use pp_paths::Claims;
use pp_store::{Put, Store};
use pp_tree::{Book, Descriptor};
use std::alloc::Global;
use std::test::Fail;

// A store, its book, and a disk that takes so many calls once it is open.
#[derive(Drop)]
pub(crate) struct Fresh {
    pub(crate) descriptor: Descriptor,
    pub(crate) disk: StoppingDisk,
    pub(crate) store: Store,
    pub(crate) book: Book,
}

impl Fresh {
    pub(crate) fn on(
        alloc: Global,
        descriptor: Descriptor,
        mut inner: MemoryDisk,
        left: u32,
    ) -> Result<Fresh, Fail>
        ensures same { IfOk result (λ fresh. fresh.store.descriptor ≡ fresh.descriptor) }
        ensures rooted { IfOk result (λ fresh. IsRooted fresh.descriptor (entry fresh.book)) }
    {
        let mut book = prepared(alloc, &descriptor)?;
        let store = opened(alloc, &descriptor, &mut inner, &mut book)?;
        Ok(Fresh {
            descriptor,
            disk: StoppingDisk { inner, left },
            store,
            book,
        })
    }

    // On a new disk.
    pub(crate) fn of(alloc: Global, descriptor: Descriptor, left: u32) -> Result<Fresh, Fail>
        ensures same { IfOk result (λ fresh. fresh.store.descriptor ≡ fresh.descriptor) }
        ensures rooted { IfOk result (λ fresh. IsRooted fresh.descriptor (entry fresh.book)) }
    {
        let inner = MemoryDisk::new(alloc, &[])?;
        Fresh::on(alloc, descriptor, inner, left)
    }

    // What stands on the disk.
    pub(crate) fn bytes(&self) -> &[u8] {
        self.disk.inner.bytes()
    }

    // How many chunks are pending and committed.
    pub(crate) fn counts(&self) -> (u32, u32) {
        (self.store.pending(), self.store.committed().count())
    }

    // Commits. Whether the store is live and the disk refused no call.
    pub(crate) fn commits(&mut self) -> bool
        requires same { self.old.store.descriptor ≡ self.old.descriptor }
        requires rooted { IsRooted self.old.descriptor (entry self.old.book) }
        ensures same { self.new.store.descriptor ≡ self.new.descriptor }
        ensures rooted { IsRooted self.new.descriptor (entry self.new.book) }
    {
        self.store.is_live() && self.store.commit(&mut self.disk).is_ok()
    }

    // Puts bytes as chunk i; None where the disk refused a call.
    fn put(&mut self, i: u32, bytes: &[u8], claims: &Claims) -> Option<Put>
        requires same { self.old.store.descriptor ≡ self.old.descriptor }
        requires rooted { IsRooted self.old.descriptor (entry self.old.book) }
        ensures same { self.new.store.descriptor ≡ self.new.descriptor }
        ensures rooted { IsRooted self.new.descriptor (entry self.new.book) }
    {
        if !self.store.is_live() || i >= self.descriptor.chunks() {
            return None;
        }
        self.store
            .put(i, bytes, claims, &mut self.book, &mut self.disk)
            .ok()
    }

    // Puts bytes as chunk i behind no hashes.
    pub(crate) fn put_alone(&mut self, alloc: Global, i: u32, bytes: &[u8]) -> Option<Put>
        requires same { self.old.store.descriptor ≡ self.old.descriptor }
        requires rooted { IsRooted self.old.descriptor (entry self.old.book) }
    {
        match Claims::new(alloc) {
            Ok(none) => self.put(i, bytes, &none),
            Err(_) => None,
        }
    }

    // Puts bytes as chunk i behind what proves it.
    pub(crate) fn put_other(
        &mut self,
        alloc: Global,
        swarm: &Swarm,
        i: u32,
        bytes: &[u8],
    ) -> Option<Put>
        requires same { self.old.store.descriptor ≡ self.old.descriptor }
        requires rooted { IsRooted self.old.descriptor (entry self.old.book) }
        ensures same { self.new.store.descriptor ≡ self.new.descriptor }
        ensures rooted { IsRooted self.new.descriptor (entry self.new.book) }
    {
        match claims_of(alloc, swarm, i) {
            Ok(claims) => self.put(i, bytes, &claims),
            Err(_) => None,
        }
    }

    // Puts chunk i with what proves it.
    pub(crate) fn put_chunk(&mut self, alloc: Global, swarm: &Swarm, i: u32) -> Option<Put>
        requires same { self.old.store.descriptor ≡ self.old.descriptor }
        requires rooted { IsRooted self.old.descriptor (entry self.old.book) }
        ensures same { self.new.store.descriptor ≡ self.new.descriptor }
        ensures rooted { IsRooted self.new.descriptor (entry self.new.book) }
    {
        if i >= self.descriptor.chunks() {
            return None;
        }
        let bytes = bytes_of(self.descriptor.chunk(), i);
        let len = (self.descriptor.chunk_len(i) as usize).min(1024);
        self.put_other(alloc, swarm, i, &bytes[..len])
    }

    // Puts the first chunks in falling order, so many of them, and commits after every second one where it is to. Answers
    // whether the disk refused no call.
    pub(crate) fn put_all(
        &mut self,
        alloc: Global,
        swarm: &Swarm,
        count: u32,
        committing: bool,
    ) -> bool
        requires same { self.old.store.descriptor ≡ self.old.descriptor }
        requires rooted { IsRooted self.old.descriptor (entry self.old.book) }
        ensures same { self.new.store.descriptor ≡ self.new.descriptor }
        ensures rooted { IsRooted self.new.descriptor (entry self.new.book) }
    {
        let mut i = count;
        while i > 0 {
            i -= 1;
            if self.put_chunk(alloc, swarm, i).is_none() {
                return false;
            }
            if committing && i % 2 == 0 && !self.commits() {
                return false;
            }
        }
        true
    }
}
