// The addresses that peers exchange.
ghost use Rattle.std.specs.Prelude.{◌≡◌, ◌<◌, [], ◌∷◌, false, IfSome, MatchOption};
ghost use Rattle.pp_pex.specs.Exchange.{Hears, IsOnce, answers, is_in, port_of, suggested};

use crate::queue::{self, MOST_SUGGESTED};
use crate::table::{self, Contact, MOST_HEARD};
use arrayvec::ArrayVec;
use pp_outside::Address;
use std::marker::Model;

/// At most 64 addresses that were heard, each with the moment when it was last heard, in microseconds; and a queue of at
/// most 64 addresses that peers suggested (RFC 7574, section 3.10).
#[derive(Drop)]
pub struct Pex {
    table: ArrayVec<Contact, MOST_HEARD>,
    queue: ArrayVec<Address, MOST_SUGGESTED>,
}

impl Model for Pex {
    ghost use Rattle.pp_pex.specs.Exchange.{Exchange, IsOnce, HavePorts, addresses};

    ghost Value = { Exchange };

    ghost view = { λ p. record { table = p.table.items; queue = p.queue.items } };

    ghost invariant = { λ p. IsOnce (addresses p.table.items) × IsOnce p.queue.items × HavePorts p.queue.items };
}

impl Pex {
    /// No address was heard, and none was suggested.
    pub fn new() -> Pex
        ensures { result ≡ record { table = []; queue = [] } }
    {
        Pex {
            table: ArrayVec::new(),
            queue: ArrayVec::new(),
        }
    }

    /// Notes that an address was heard. One that is in the table keeps its place; a new one comes behind the others, and
    /// in a full table to the place of the one that was heard longest ago.
    pub fn heard(&mut self, address: &Address, now: u64)
        ensures table { Hears self.old.table address.now now self.new.table }
        ensures queue { self.new.queue ≡ self.old.queue }
    {
        table::hear(&mut self.table, *address, now);
    }

    /// What to tell a peer that asks: at most 16 addresses that were heard in the last 60 seconds, but its own, in the
    /// table's order (RFC 7574, section 8.10).
    pub fn answer(&self, except: &Address, now: u64) -> ArrayVec<Address, 16>
        ensures told { result.items ≡ answers self.now.table except.now now }
        ensures once { IsOnce result.items }
    {
        table::answer(&self.table, *except, now)
    }

    /// Puts an address that a peer suggested behind the others. One with port 0 and one that is in the queue already are
    /// ignored, and a full queue takes no more.
    pub fn suggest(&mut self, address: &Address)
        ensures queue { self.new.queue ≡ suggested self.old.queue address.now }
        ensures table { self.new.table ≡ self.old.table }
    {
        queue::suggest(&mut self.queue, *address);
    }

    /// Takes out the address that was suggested first.
    pub fn next_dial(&mut self) -> Option<Address>
        ensures queue { MatchOption result ((self.old.queue ≡ []) × (self.new.queue ≡ []))
            (λ address. self.old.queue ≡ address ∷ self.new.queue) }
        ensures once { IfSome result (λ address. is_in self.new.queue address ≡ false) }
        ensures port { IfSome result (λ address. 0 < port_of address) }
        ensures table { self.new.table ≡ self.old.table }
    {
        queue::next(&mut self.queue)
    }
}
