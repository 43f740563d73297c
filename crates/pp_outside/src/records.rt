// The records of a link in memory.
ghost use Rattle.std.specs.Prelude.{◌≡◌, ◌<◌, ◌++◌, ◌∷◌, [], Some, length, map, slice_get, OnOk, OnErr};
ghost use Rattle.pp_outside.specs.Records.{marked, told_of, bytes_of, sent_of};

use crate::Address;
use std::alloc::{AllocError, Global};

/// What a link did, without the bytes: a datagram that came and a wait in which none came, both at a moment of the
/// link in microseconds, or a datagram that was sent, with the disk's moment then.
#[derive(Clone, Copy, Debug, PartialEq, Eq)]
pub enum Mark {
    Received { at: u64, from: Address },
    Quiet { at: u64 },
    Sent { moment: u64, to: Address },
}

// A mark with the bytes of its datagram.
#[derive(Drop)]
struct Passed {
    mark: Mark,
    bytes: Vec<u8>,
}

impl Passed {
    ghost use Rattle.pp_outside.specs.Records.{record_of};

    fn datagram(&self) -> &[u8]
        ensures { result.now ≡ bytes_of (record_of self.now) }
    {
        match self.mark {
            Mark::Quiet { .. } => &[],
            Mark::Received { .. } | Mark::Sent { .. } => &self.bytes,
        }
    }
}

#[derive(Drop)]
pub(crate) struct Records {
    alloc: Global,
    passed: Vec<Passed>,
}

impl Records {
    pub(crate) fn new(alloc: Global) -> Records
        ensures { told_of result ≡ [] }
    {
        Records {
            alloc,
            passed: Vec::new(alloc),
        }
    }

    pub(crate) fn keep(&mut self, mark: Mark, bytes: &[u8]) -> Result<(), AllocError>
        ensures ok { OnOk result (told_of self.new ≡ told_of self.old ++ marked mark bytes.now ∷ []) }
        ensures err { OnErr result (told_of self.new ≡ told_of self.old) }
    {
        let bytes = bytes.to_vec(self.alloc)?;
        self.passed.push(Passed { mark, bytes })?;
        Ok(())
    }

    pub(crate) fn count(&self) -> usize
        ensures { result ≡ length (told_of self.now) }
    {
        self.passed.len()
    }

    pub(crate) fn mark(&self, n: usize) -> Mark
        requires { n < length (told_of self.now) }
        ensures { (bytes : _) × (slice_get (told_of self.now) n ≡ Some (marked result bytes)) }
    {
        self.passed[n].mark
    }

    pub(crate) fn bytes(&self, n: usize) -> &[u8]
        requires { n < length (told_of self.now) }
        ensures { slice_get (map bytes_of (told_of self.now)) n ≡ Some result.now }
    {
        self.passed[n].datagram()
    }

    pub(crate) fn sent(&self) -> usize
        ensures { result ≡ length (sent_of (told_of self.now)) }
    {
        let mut count = 0;
        for passed in &self.passed {
            if let Mark::Sent { .. } = passed.mark {
                count += 1;
            }
        }
        count
    }

    pub(crate) fn sent_bytes(&self, n: usize) -> &[u8]
        requires { n < length (sent_of (told_of self.now)) }
        ensures { slice_get (sent_of (told_of self.now)) n ≡ Some result.now }
    {
        let mut before = n;
        for passed in &self.passed {
            if let Mark::Sent { .. } = passed.mark {
                if before == 0 {
                    return &passed.bytes;
                }
                before -= 1;
            }
        }
        &[]
    }
}
