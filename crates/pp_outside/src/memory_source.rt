// A source of bytes in memory.
ghost use Rattle.std.specs.Prelude.{◌≡◌, ◌<◌, ◌↔◌, min, true, false, [], Some, length, drop, IsTrue, IsErr, IfOk, OnErr};
ghost use Rattle.pp_terms.specs.command.Stream.{DoesTake};

use crate::{Source, SourceFault};

/// A source that gives some bytes, and then ends or fails.
#[derive(Drop)]
pub struct MemorySource<'a> {
    left: &'a [u8],
    fails: bool,
    faults: u64,
}

impl<'a> MemorySource<'a> {
    ghost use Rattle.pp_outside.specs.MemorySource.{state_of, fails_at_end};

    /// A source that ends after these bytes.
    pub fn new(bytes: &'a [u8]) -> MemorySource<'a>
        ensures state { state_of result ≡ record { left = Some bytes.now; faults = 0 } }
        ensures ends { fails_at_end result ≡ false }
    {
        MemorySource {
            left: bytes,
            fails: false,
            faults: 0,
        }
    }

    /// A source that gives these bytes, and then fails at each read.
    pub fn failing(bytes: &'a [u8]) -> MemorySource<'a>
        ensures state { state_of result ≡ record { left = Some bytes.now; faults = 0 } }
        ensures fails { fails_at_end result ≡ true }
    {
        MemorySource {
            left: bytes,
            fails: true,
            faults: 0,
        }
    }
}

impl<'a> Source for MemorySource<'a> {
    ghost use Rattle.pp_outside.specs.MemorySource.{state_of, left_of, fails_at_end};
    ghost use Rattle.pp_outside.specs.Faults.{counted};

    ghost state = { state_of };

    /// It gives as many bytes as fit. A read into no room answers 0.
    fn read(&mut self, into: &mut [u8]) -> Result<usize, SourceFault>
        ensures does { DoesTake (state_of self.old) into.new result (state_of self.new) }
        ensures count { IfOk result (λ n. n ≡ min (length into.old) (length (left_of self.old))) }
        ensures exact { IsErr result ↔ (IsTrue (fails_at_end self.old) × (left_of self.old ≡ []) × (0 < length into.old)) }
        ensures others { IfOk result (λ n. drop n into.new ≡ drop n into.old) }
        ensures refused { OnErr result (into.new ≡ into.old) }
        ensures end { fails_at_end self.new ≡ fails_at_end self.old }
        ensures counts { (state_of self.new).faults ≡ counted (state_of self.old).faults result }
    {
        if self.fails && self.left.is_empty() && !into.is_empty() {
            self.faults = self.faults.saturating_add(1);
            return Err(SourceFault);
        }
        let count = self.left.len().min(into.len());
        into[..count].copy_from_slice(&self.left[..count]);
        self.left = &self.left[count..];
        Ok(count)
    }
}
