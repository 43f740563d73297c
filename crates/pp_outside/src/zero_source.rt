// A source of zeros.
ghost use Rattle.std.specs.Prelude.{◌≡◌, ◌-◌, min, Some, length, drop, replicate, ◌++◌, Ok};
ghost use Rattle.pp_terms.specs.command.Stream.{DoesTake};

use crate::{Source, SourceFault};

/// A source that gives some zeros and then ends. It never fails.
#[derive(Drop)]
pub struct ZeroSource {
    left: u64,
}

impl ZeroSource {
    ghost use Rattle.pp_outside.specs.ZeroSource.{state_of, count_of, zeros};

    /// A source of `left` zeros.
    pub fn new(left: u64) -> ZeroSource
        ensures state { state_of result ≡ record { left = Some (zeros left); faults = 0 } }
        ensures count { count_of result ≡ left }
    {
        ZeroSource { left }
    }
}

impl Source for ZeroSource {
    ghost use Rattle.pp_outside.specs.ZeroSource.{state_of, count_of};

    ghost state = { state_of };

    /// It gives as many zeros as fit. A read into no room answers 0.
    fn read(&mut self, into: &mut [u8]) -> Result<usize, SourceFault>
        ensures does { DoesTake (state_of self.old) into.new result (state_of self.new) }
        ensures exact { result ≡ Ok (min (length into.old) (count_of self.old)) }
        ensures left { count_of self.new ≡ count_of self.old - length into.old }
        ensures zeros { into.new ≡ replicate (min (length into.old) (count_of self.old)) 0 ++ drop (count_of self.old) into.old }
    {
        let count = self.left.min(into.len() as u64) as usize;
        into[..count].fill(0);
        self.left -= count as u64;
        Ok(count)
    }
}
