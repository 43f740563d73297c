// A sink for bytes in memory.
ghost use Rattle.std.specs.Prelude.{◌≡◌, true, false, [], Some, length, IsTrue, IsErr, IfOk};
ghost use Rattle.pp_terms.specs.command.Stream.{DoesGive};

use crate::{Sink, SinkFault};
use std::alloc::Global;

/// A sink that keeps what it took.
#[derive(Drop)]
pub struct MemorySink {
    bytes: Vec<u8>,
    refuses: bool,
    faults: u64,
}

impl MemorySink {
    ghost use Rattle.pp_outside.specs.MemorySink.{state_of, is_ordered};

    /// A sink that took nothing yet.
    pub fn new(alloc: Global) -> MemorySink
        ensures state { state_of result ≡ record { taken = Some []; faults = 0 } }
        ensures nothing_ordered { is_ordered result ≡ false }
    {
        MemorySink {
            bytes: Vec::new(alloc),
            refuses: false,
            faults: 0,
        }
    }

    /// The bytes that it took.
    pub fn bytes(&self) -> &[u8]
        ensures { (state_of self.now).taken ≡ Some result.now }
    {
        &self.bytes
    }

    /// Orders that the next write fails.
    pub fn fail_next(&mut self)
        ensures state { state_of self.new ≡ state_of self.old }
        ensures ordered { is_ordered self.new ≡ true }
    {
        self.refuses = true;
    }
}

impl Sink for MemorySink {
    ghost use Rattle.pp_outside.specs.MemorySink.{state_of, is_ordered};
    ghost use Rattle.pp_outside.specs.Faults.{counted};

    ghost state = { state_of };

    /// It takes the whole piece, or refuses it on order or where it finds no memory.
    fn write(&mut self, bytes: &[u8]) -> Result<usize, SinkFault>
        ensures does { DoesGive (state_of self.old) bytes.now result (state_of self.new) }
        ensures whole { IfOk result (λ n. n ≡ length bytes.now) }
        ensures refused { IsTrue (is_ordered self.old) → IsErr result }
        ensures spent { is_ordered self.new ≡ false }
        ensures counts { (state_of self.new).faults ≡ counted (state_of self.old).faults result }
    {
        let refused = self.refuses;
        self.refuses = false;
        if refused || self.bytes.extend_from_slice(bytes).is_err() {
            self.faults = self.faults.saturating_add(1);
            return Err(SinkFault);
        }
        Ok(bytes.len())
    }
}
