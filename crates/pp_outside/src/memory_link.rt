// A link in memory.
ghost use Rattle.std.specs.Prelude.{◌≡◌, ◌≢◌, ◌+◌, ◌-◌, ◌^◌, ◌<◌, ◌≤◌, ◌++◌, ◌↔◌, min, true, false, if◌then◌else◌, [], ◌∷◌, None, Some, length, drop, map, slice_get, IsTrue, IsOk, IsErr, IfOk, OnOk, OnErr};
ghost use Rattle.pp_terms.specs.disk.Disk.{moment_of};

use crate::events::Events;
use crate::orders::Orders;
use crate::records::Records;
use crate::{Address, Call, Disk, Event, Link, LinkFault, Mark};
use std::alloc::{AllocError, Global};

/// A link in memory. It hands out the events that were added, in order, and then answers that none came, at the last
/// moment that it handed out, or 0. It tells its records, and not the addresses to which it was bound.
#[derive(Drop)]
pub struct MemoryLink {
    events: Events,
    records: Records,
    orders: Orders,
    faults: u64,
    nexts: u64,
    short: bool,
}

impl MemoryLink {
    ghost use Rattle.pp_outside.specs.Outside.{record_of};
    ghost use Rattle.pp_outside.specs.Orders.{is_link_call};
    ghost use Rattle.pp_outside.specs.Arrivals.{IsEvent};
    ghost use Rattle.pp_outside.specs.Records.{marked, bytes_of, sent_of};
    ghost use Rattle.pp_outside.specs.MemoryLink.{state_of, in_order, arrivals_of, order_of, is_short};
    ghost use Rattle.pp_outside.specs.Faults.{one_more, counted};

    /// A link with no events and no records. It takes no memory yet.
    pub fn new(alloc: Global) -> Result<MemoryLink, AllocError>
        ensures ok { IsOk result }
        ensures state { IfOk result (λ link. state_of link ≡ record { traffic = Some []; faults = 0; nexts = 0; bound = None }) }
        ensures no_events { IfOk result (λ link. arrivals_of link ≡ record { coming = []; last = 0 }) }
        ensures nothing_ordered { IfOk result (λ link. (call : _) → order_of link call ≡ None) }
        ensures not_short { IfOk result (λ link. is_short link ≡ false) }
    {
        Ok(MemoryLink {
            events: Events::new(alloc),
            records: Records::new(alloc),
            orders: Orders::none(),
            faults: 0,
            nexts: 0,
            short: false,
        })
    }

    /// Adds an event to hand out, the last of all. A datagram's `len` is that of `bytes`, at most 65,536; a quiet wait
    /// has no bytes. Where there is no memory, nothing is added, and that counts as a fault.
    pub fn add(&mut self, event: Event, bytes: &[u8]) -> Result<(), AllocError>
        requires { IsEvent event bytes.now }
        ensures added { OnOk result (arrivals_of self.new ≡ record (arrivals_of self.old) {
          coming = (arrivals_of self.old).coming ++ record_of event bytes.now ∷ [];
        }) }
        ensures ok { OnOk result (is_short self.new ≡ is_short self.old) }
        ensures refused { OnErr result ((arrivals_of self.new ≡ arrivals_of self.old) × IsTrue (is_short self.new)) }
        ensures state { state_of self.new ≡ record (state_of self.old) { faults = counted (state_of self.old).faults result } }
        ensures orders { (call : _) → order_of self.new call ≡ order_of self.old call }
    {
        if let Err(none) = self.events.add(event, bytes) {
            self.run_short();
            return Err(none);
        }
        Ok(())
    }

    /// Orders that the next call of this kind fails. A call of another device is not ordered.
    pub fn fail_next(&mut self, call: Call)
        ensures state { state_of self.new ≡ state_of self.old }
        ensures events { arrivals_of self.new ≡ arrivals_of self.old }
        ensures short { is_short self.new ≡ is_short self.old }
        ensures ordered { order_of self.new call ≡ (if is_link_call call then Some 0 else None) }
        ensures others { (other : _) → other ≢ call → order_of self.new other ≡ order_of self.old other }
    {
        self.fail_after(call, 0);
    }

    /// Orders that the next `passed` calls of this kind pass and the one after them fails, in place of what was
    /// ordered of this kind before. A call of another device is not ordered.
    pub fn fail_after(&mut self, call: Call, passed: u32)
        ensures state { state_of self.new ≡ state_of self.old }
        ensures events { arrivals_of self.new ≡ arrivals_of self.old }
        ensures short { is_short self.new ≡ is_short self.old }
        ensures ordered { order_of self.new call ≡ (if is_link_call call then Some passed else None) }
        ensures others { (other : _) → other ≢ call → order_of self.new other ≡ order_of self.old other }
    {
        if !call.is_of_disk() {
            self.orders.set(call, Some(passed));
        }
    }

    /// How many datagrams were sent.
    pub fn sent(&self) -> usize
        ensures { result ≡ length (sent_of (in_order self.now)) }
    {
        self.records.sent()
    }

    /// The datagram that was sent as number `n`, from 0.
    pub fn sent_bytes(&self, n: usize) -> &[u8]
        requires { n < length (sent_of (in_order self.now)) }
        ensures { slice_get (sent_of (in_order self.now)) n ≡ Some result.now }
    {
        self.records.sent_bytes(n)
    }

    /// How many records there are.
    pub fn marks(&self) -> usize
        ensures { result ≡ length (in_order self.now) }
    {
        self.records.count()
    }

    /// The record of number `n`, from 0, without its bytes.
    pub fn mark(&self, n: usize) -> Mark
        requires { n < length (in_order self.now) }
        ensures { (bytes : _) × (slice_get (in_order self.now) n ≡ Some (marked result bytes)) }
    {
        self.records.mark(n)
    }

    /// The datagram of the record of number `n`, from 0; no bytes where none came.
    pub fn mark_bytes(&self, n: usize) -> &[u8]
        requires { n < length (in_order self.now) }
        ensures { slice_get (map bytes_of (in_order self.now)) n ≡ Some result.now }
    {
        self.records.bytes(n)
    }

    /// Whether a call found no memory for what it was to keep.
    pub fn short(&self) -> bool
        ensures { result ≡ is_short self.now }
    {
        self.short
    }

    fn fault(&mut self) -> LinkFault
        ensures counted { self.new ≡ record self.old { faults = one_more self.old.faults } }
        ensures fits { self.old.faults < 2 ^ 64 }
    {
        self.faults = self.faults.saturating_add(1);
        LinkFault
    }

    fn run_short(&mut self) -> LinkFault
        ensures counted { self.new ≡ record self.old { faults = one_more self.old.faults; short = true } }
        ensures fits { self.old.faults < 2 ^ 64 }
    {
        self.short = true;
        self.fault()
    }
}

impl Link for MemoryLink {
    ghost use Rattle.pp_outside.specs.Outside.{DoesBind, DoesNext, DoesSend, record_of, size_of};
    ghost use Rattle.pp_outside.specs.Arrivals.{next_of, after_next};
    ghost use Rattle.pp_outside.specs.MemoryLink.{state_of, arrivals_of, is_ordered, is_short, Spends, MayRunShort};
    ghost use Rattle.pp_outside.specs.Faults.{counted};

    ghost seen = { state_of };

    fn bind(&mut self, _listen: &Address) -> Result<(), LinkFault>
        ensures does { DoesBind (state_of self.old) _listen.now result (state_of self.new) }
        ensures exact { IsErr result ↔ IsTrue (is_ordered self.old Call.Bind) }
        ensures events { arrivals_of self.new ≡ arrivals_of self.old }
        ensures short { is_short self.new ≡ is_short self.old }
        ensures spends { Spends self.old Call.Bind result self.new }
    {
        if self.orders.take(Call::Bind) {
            return Err(self.fault());
        }
        Ok(())
    }

    /// A refused call takes no event, and leaves the buffer.
    fn next(&mut self, _limit_us: u64, buffer: &mut [u8]) -> Result<Event, LinkFault>
        requires { 65536 ≤ length buffer.old }
        ensures does { DoesNext (state_of self.old) buffer.new result (state_of self.new) }
        ensures event { IfOk result (λ event. record_of event buffer.new ≡ next_of (arrivals_of self.old)) }
        ensures taken { OnOk result (arrivals_of self.new ≡ after_next (arrivals_of self.old)) }
        ensures others { IfOk result (λ event. drop (size_of event) buffer.new ≡ drop (size_of event) buffer.old) }
        ensures refused { OnErr result ((arrivals_of self.new ≡ arrivals_of self.old) × (buffer.new ≡ buffer.old)) }
        ensures cause { MayRunShort self.old Call.Next result self.new }
        ensures spends { Spends self.old Call.Next result self.new }
    {
        self.nexts = self.nexts.saturating_add(1);
        if self.orders.take(Call::Next) {
            return Err(self.fault());
        }
        let arrival = self.events.front();
        let mark = arrival.event.mark();
        if self.records.keep(mark, arrival.bytes).is_err() {
            return Err(self.run_short());
        }
        buffer[..arrival.bytes.len()].copy_from_slice(arrival.bytes);
        let event = arrival.event;
        self.events.advance();
        Ok(event)
    }

    fn send<D: Disk>(&mut self, disk: &D, to: &Address, bytes: &[u8]) -> Result<(), LinkFault>
        ensures does { DoesSend (state_of self.old) (moment_of (D.state disk.now).history) to.now bytes.now result (state_of self.new) }
        ensures events { arrivals_of self.new ≡ arrivals_of self.old }
        ensures cause { MayRunShort self.old Call.Send result self.new }
        ensures spends { Spends self.old Call.Send result self.new }
    {
        if self.orders.take(Call::Send) {
            return Err(self.fault());
        }
        let mark = Mark::Sent {
            moment: disk.moment(),
            to: *to,
        };
        if self.records.keep(mark, bytes).is_err() {
            return Err(self.run_short());
        }
        Ok(())
    }
}
