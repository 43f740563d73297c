//! The addresses that a learner dials.

ghost use Rattle.std.specs.Prelude.{◌≡◌, ◌<◌, ◌≤◌, length, map, slice_get, slice_set, Some};
ghost use Rattle.pp_learner.specs.Dials.{undialled};

use arrayvec::ArrayVec;
use pp_outside::Address;
use std::marker::Model;

// How many addresses a learner is told to dial at most.
const MOST_TOLD: usize = 16;

/// An address that a learner was told to dial.
#[derive(Clone, Copy, Debug, Default, PartialEq, Eq)]
pub struct Dial {
    pub address: Address,
    /// The moment from which it may be dialled, in microseconds; None while a channel has it.
    pub from: Option<u64>,
}

/// The addresses, at most 16, in order.
#[derive(Drop)]
pub struct Dials {
    entries: ArrayVec<Dial, MOST_TOLD>,
}

impl Model for Dials {
    ghost use Rattle.std.specs.Prelude.{List};
    ghost use Rattle.pp_learner.specs.declared.dials.Dial.{Dial};

    ghost Value = { List Dial };

    ghost view = { λ d. d.entries.items };
}

impl Dials {
    /// All of these may be dialled at once.
    pub fn new(addresses: &[Address]) -> Dials
        requires { length addresses.now ≤ 16 }
        ensures { result ≡ map undialled addresses.now }
    {
        let mut entries = ArrayVec::new();
        for address in addresses {
            entries.push(Dial {
                address: *address,
                from: Some(0),
            });
        }
        Dials { entries }
    }

    /// How many addresses there are.
    pub fn count(&self) -> usize
        ensures exact { result ≡ length self.now }
        ensures few { result ≤ 16 }
    {
        self.entries.len()
    }

    /// One of the addresses.
    pub fn dial(&self, i: usize) -> Dial
        requires { i < length self.now }
        ensures { slice_get self.now i ≡ Some result }
    {
        self.entries[i]
    }

    /// Puts what is known of an address now in place of what was known.
    pub fn set(&mut self, i: usize, dial: Dial)
        requires { i < length self.old }
        ensures { self.new ≡ slice_set self.old i dial }
    {
        self.entries[i] = dial;
    }
}
