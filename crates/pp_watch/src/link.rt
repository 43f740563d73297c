//! A link in memory that is watched.
ghost use Rattle.std.specs.Prelude.{◌≡◌, ◌≤◌, length};
ghost use Rattle.pp_terms.specs.disk.Disk.{moment_of};
ghost use Rattle.pp_outside.specs.Outside.{DoesBind, DoesNext, DoesSend};
ghost use Rattle.pp_outside.specs.MemoryLink.{state_of};
ghost use Rattle.pp_watch.specs.Sent.{IsSince, as_before};

use crate::Before;
use pp_outside::{Address, Disk, Event, Link, LinkFault, MemoryLink};
use std::marker::{Model, PhantomData};

/// A link in memory that is watched since it was `B.link`: as long as it lasts, only its calls change it.
#[derive(Drop)]
pub struct WatchedLink<B: Before> {
    inner: MemoryLink,
    of: PhantomData<B>,
}

impl<B: Before> Model for WatchedLink<B> {
    ghost use Rattle.pp_outside.specs.declared.memory_link.MemoryLink.{MemoryLink};
    ghost use Rattle.pp_watch.specs.Sent.{IsSince};

    ghost Value = { MemoryLink };

    ghost view = { λ w. w.inner };

    ghost invariant = { λ w. IsSince B.link w.inner };
}

impl<B: Before> WatchedLink<B> {
    /// Watches a link from now on.
    pub fn new(inner: MemoryLink) -> WatchedLink<B>
        requires { B.link ≡ as_before inner }
        ensures { result ≡ inner }
    {
        WatchedLink {
            inner,
            of: PhantomData,
        }
    }

    /// The link, with what was done over it.
    pub fn into_inner(self) -> MemoryLink
        ensures is { result ≡ self }
        ensures since { IsSince B.link result }
    {
        self.inner
    }
}

impl<B: Before> Link for WatchedLink<B> {
    ghost use Rattle.pp_outside.specs.MemoryLink.{state_of};

    ghost seen = { state_of };

    fn bind(&mut self, listen: &Address) -> Result<(), LinkFault>
        ensures does { DoesBind (state_of self.old) listen.now result (state_of self.new) }
    {
        self.inner.bind(listen)
    }

    fn next(&mut self, limit_us: u64, buffer: &mut [u8]) -> Result<Event, LinkFault>
        requires { 65536 ≤ length buffer.old }
        ensures does { DoesNext (state_of self.old) buffer.new result (state_of self.new) }
    {
        self.inner.next(limit_us, buffer)
    }

    fn send<D: Disk>(&mut self, disk: &D, to: &Address, bytes: &[u8]) -> Result<(), LinkFault>
        ensures does { DoesSend (state_of self.old) (moment_of (D.state disk.now).history) to.now bytes.now result (state_of self.new) }
    {
        self.inner.send(disk, to, bytes)
    }
}
