//! One peer of a replay: its disk, its lives, and itself while it runs.
ghost use Rattle.std.specs.Prelude.{◌≡◌, ℕ, ◌+◌, ◌^◌, ◌<◌, true, length, is_some, IfOk, IfSome, IfNone, OnOk, Some, None, List};
ghost use Rattle.pp_terms.specs.disk.Calls.{Calls, history_of};
ghost use Rattle.pp_terms.specs.format.Descriptor.{Descriptor};
ghost use Rattle.pp_holding.specs.Holding.{AreTied};
ghost use Rattle.pp_world.specs.Change.{while_running, with_crash, with_failing, with_stop};
ghost use Rattle.pp_world.specs.Survival.{KeepsAnnounced};
ghost use Rattle.pp_world.specs.World.{PeerState};
ghost use Rattle.pp_world.specs.Worlds.{idle};
ghost use Rattle.pp_replay.specs.Views.{as_device};
ghost use Rattle.pp_watch.specs.Shown.{ShowsDisk};
ghost use Rattle.pp_watch.specs.Waiting.{FitsBuffer};
ghost use Rattle.pp_stage.specs.Shown.{IsReady};
ghost use Rattle.pp_actor.specs.declared.life.Life.{Life};
ghost use Rattle.pp_actor.specs.Lasting.{IsSoundNow};
ghost use Rattle.pp_actor.specs.Actor.{ActorOpens, ActorTurns, BeginsBy, HasPart, Hears, ShowsActor, ShowsRemains, link_in, is_deaf, part_of};
ghost use Rattle.pp_actor.specs.Keeping.{AllKeep};

use crate::life::{Life, Remains};
use crate::memory::enough;
use crate::starting::{life_after, random_of, start_of};
use pp_outside::{Call, MemoryDisk, MemoryLink};
use pp_replay::{Device, Role};
use pp_stage::{Cue, Opened, Running, Start, Turned, open, take_turn};
use pp_tree::Descriptor;
use std::alloc::{AllocError, Global};
use std::marker::Model;
use std::mem::replace;

/// A peer of a replay: its disk, the lives that are over, and what it is while it runs.
///
/// Where memory is missing a call answers an error, and what is left of the peer may be any.
#[derive(Drop)]
pub struct Actor {
    alloc: Global,
    number: u8,
    // What it is opened with; the bytes are those of its newest life.
    start: Start,
    disk: MemoryDisk,
    lives: Vec<Life>,
    running: Option<Running>,
}

impl Model for Actor {
    ghost use Rattle.std.specs.Prelude.{◌≤◌, length};
    ghost use Rattle.pp_actor.specs.Actor.{ActorState, IsAwake};

    ghost Value = { ActorState };

    ghost view = { λ a. record { number = a.number; start = a.start; disk = a.disk; lives = a.lives.items; running = a.running } };

    ghost invariant = { λ a. IsAwake a.running × (length a.start.dialled.items ≤ 16) };
}

// Ends a life.
fn ended(running: Running) -> Life
    ensures link { result.link ≡ running.link }
    ensures book { result.book ≡ running.peer.parts.holding.book }
{
    Life {
        link: running.link,
        book: running.peer.into_book(),
    }
}

// Does nothing. Its contract tells that the book of a peer that runs is its store's.
fn tell_book(running: &Option<Running>)
    ensures { IfSome running.now (λ r. AreTied r.peer.parts.holding) }
{
    if let Some(running) = running {
        let _ = running.peer.book();
    }
}

// Orders that the next call of this kind fails, of the devices of a peer that runs.
fn order(disk: &mut MemoryDisk, running: &mut Running, call: Device)
    ensures fails { (d : Descriptor) (most number : ℕ) (start : Start) (lives : List Life) (x : PeerState)
        → ShowsActor d most (record { number = number; start = start; disk = disk.old; lives = lives; running = Some running.old }) x
        → ShowsActor d most (record { number = number; start = start; disk = disk.new; lives = lives; running = Some running.new })
        (while_running (with_failing (as_device call)) x) }
    ensures ready { IsReady running.old → IsReady running.new }
{
    match call {
        Device::Read => disk.fail_next(Call::Read),
        Device::Write => disk.fail_next(Call::Write),
        Device::Sync => disk.fail_next(Call::Sync),
        Device::Send => running.link.fail_next(Call::Send),
        Device::Receive => {
            running.is_deaf = true;
            running.link.fail_next(Call::Next);
        }
    }
}

impl Actor {
    /// The peer of that number and role, with this disk, that was never started.
    pub fn new(alloc: Global, number: u8, role: &Role, disk: MemoryDisk) -> Actor
        ensures is { HasPart number role.now result }
        ensures shows { (d : Descriptor) (most : ℕ) (calls : Calls) → ShowsDisk most disk (idle calls) → IsSoundNow d (history_of calls)
            → ShowsActor d most result (idle calls) }
    {
        Actor {
            alloc,
            number,
            start: start_of(number, role),
            disk,
            lives: Vec::new(alloc),
            running: None,
        }
    }

    /// The disk.
    pub fn disk(&self) -> &MemoryDisk
        ensures { result.now ≡ self.now.disk }
    {
        &self.disk
    }

    /// The lives that are over, the oldest first.
    pub fn lives(&self) -> &[Life]
        ensures { result.now ≡ self.now.lives }
    {
        self.lives.as_slice()
    }

    /// Whether the peer runs.
    pub fn is_running(&self) -> bool
        ensures { result ≡ is_some self.now.running }
    {
        self.running.is_some()
    }

    /// The link of a peer that runs.
    pub fn link(&self) -> Option<&MemoryLink>
        ensures some { IfSome result (λ link. link_in self.now.running ≡ Some link.now) }
        ensures none { IfNone result (link_in self.now.running ≡ None) }
    {
        match &self.running {
            Some(running) => Some(&running.link),
            None => None,
        }
    }

    /// Whether the next wait of a peer that runs is ordered to fail.
    pub fn is_deaf(&self) -> bool
        ensures { result ≡ is_deaf self.now.running }
    {
        match &self.running {
            Some(running) => running.is_deaf,
            None => false,
        }
    }

    /// Orders that the next call of this kind fails, of the devices of a peer that runs.
    pub fn fail(&mut self, call: Device)
        ensures shows { (d : Descriptor) (most : ℕ) (x : PeerState) → ShowsActor d most self.old x
            → ShowsActor d most self.new (while_running (with_failing (as_device call)) x) }
        ensures part { part_of self.new ≡ part_of self.old }
    {
        let Some(mut running) = self.running.take() else {
            return;
        };
        order(&mut self.disk, &mut running, call);
        self.running = Some(running);
    }

    /// Ends the life of a peer that runs. Its disk keeps what is pending.
    pub fn stop(&mut self) -> Result<(), AllocError>
        ensures shows { OnOk result ((d : Descriptor) (most : ℕ) (x : PeerState) → ShowsActor d most self.old x
            → ShowsActor d most self.new (with_stop x)) }
        ensures part { OnOk result (part_of self.new ≡ part_of self.old) }
    {
        if let Some(running) = self.running.take() {
            self.lives.push(ended(running))?;
        }
        Ok(())
    }

    /// Stops the peer, and crashes its disk: the pick tells which of the writes that are pending are done.
    pub fn crash(&mut self, pick: u64) -> Result<(), AllocError>
        ensures shows { OnOk result ((d : Descriptor) (most : ℕ) (x : PeerState) → ShowsActor d most self.old x
            → ShowsActor d most self.new (with_crash pick x)) }
        ensures part { OnOk result (part_of self.new ≡ part_of self.old) }
    {
        self.stop()?;
        self.disk.crash(pick);
        enough(self.disk.short())
    }

    /// Opens the store of a peer that doesn't run, which begins a life, if the store can be opened.
    pub fn start(&mut self, descriptor: &Descriptor) -> Result<(), AllocError>
        ensures opens { OnOk result ((most : ℕ) (x : PeerState) → most + 4 < 2 ^ 64 → ShowsActor descriptor.now most self.old x
            → ActorOpens descriptor.now most x self.new) }
        ensures begins { OnOk result (BeginsBy descriptor.now self.old self.new) }
        ensures part { OnOk result (part_of self.new ≡ part_of self.old) }
    {
        if self.running.is_some() {
            return Ok(());
        }
        let Ok(blank) = MemoryDisk::new(self.alloc, &[]) else {
            return Err(AllocError);
        };
        let disk = replace(&mut self.disk, blank);
        self.start.random = random_of(self.number, life_after(self.lives.len()));
        let Opened { disk, running } = open(self.alloc, descriptor, &self.start, disk)?;
        tell_book(&running);
        self.disk = disk;
        self.running = running;
        Ok(())
    }

    /// Lets a peer that runs take a turn: it waits for what comes, takes it, and sends what is due. The buffer has 65,536 bytes.
    pub fn turn(&mut self, cue: Cue<'_>, buffer: &mut [u8]) -> Result<(), AllocError>
        requires fits { FitsBuffer cue.came }
        requires room { length buffer.old ≡ 65536 }
        ensures turns { OnOk result ((d : Descriptor) (most : ℕ) (x : PeerState) → most + 4 < 2 ^ 64 → ShowsActor d most self.old x → Hears cue.entry x
            → ActorTurns d cue.entry.clock most x self.new) }
        ensures part { OnOk result (part_of self.new ≡ part_of self.old) }
    {
        let Some(running) = self.running.take() else {
            return Ok(());
        };
        let Ok(blank) = MemoryDisk::new(self.alloc, &[]) else {
            return Err(AllocError);
        };
        let disk = replace(&mut self.disk, blank);
        let Turned {
            disk,
            running,
            goes_on,
        } = take_turn(running, disk, cue, buffer)?;
        // Its contract tells that the book is the store's.
        let _ = running.peer.book();
        self.disk = disk;
        if goes_on {
            self.running = Some(running);
            return Ok(());
        }
        self.lives.push(ended(running))?;
        Ok(())
    }

    /// The peer ends, and what is left of it is given away.
    pub fn into_remains(mut self) -> Result<Remains, AllocError>
        ensures remains { IfOk result (λ r. (d : Descriptor) (most : ℕ) (x : PeerState) → ShowsActor d most self x → ShowsRemains r x) }
        // What it announced in any life is held at each later opening, and stands in each image that a crash leaves.
        // And each life kept the promise of a run.
        ensures runs { OnOk result ((d : Descriptor) (most : ℕ) (x : PeerState) → ShowsActor d most self x
            → AllKeep d (part_of self) x.disk x.sessions) }
        ensures survives { OnOk result ((d : Descriptor) (most : ℕ) (x : PeerState) → ShowsActor d most self x → KeepsAnnounced d x) }
    {
        self.stop()?;
        let Actor { disk, lives, .. } = self;
        Ok(Remains { disk, lives })
    }
}
