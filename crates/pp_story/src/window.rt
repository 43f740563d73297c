//! The window of a channel, with what flies.

ghost use Rattle.std.specs.Prelude.{◌≡◌, ◌<◌, ◌≤◌, OnOk, OnErr};
ghost use Rattle.pp_traffic.specs.Meter as meters;

use crate::flight::Flight;
use pp_recorded::flying::Flown;
use pp_recorded::gauge::Gauge;
use pp_wire::Span;
use std::alloc::{AllocError, Global};
use std::marker::Model;

/// How many bytes may fly, and the chunks that do.
#[derive(Drop)]
pub(crate) struct Window {
    chunk: u32,
    gauge: Gauge,
    flight: Flight,
}

impl Model for Window {
    ghost use Rattle.std.specs.Prelude.{◌≡◌, ◌<◌, ◌≤◌};
    ghost use Rattle.pp_traffic.specs.Meter.{Meter};
    ghost use Rattle.pp_recorded.specs.Gauges.{with_flight};

    ghost Value = { Meter };

    ghost view = { λ w. with_flight w.gauge w.flight };

    ghost invariant = { λ w. (0 < w.chunk) × (w.chunk ≤ 8192) × (w.gauge.chunk ≡ w.chunk) };
}

impl Window {
    /// A window of two chunks, of a size from 1 to 8192 bytes, with nothing in flight.
    pub(crate) fn new(alloc: Global, chunk: u32) -> Window
        requires positive { 0 < chunk }
        requires chunk { chunk ≤ 8192 }
        ensures { result ≡ meters.new_meter chunk }
    {
        Window {
            chunk,
            gauge: Gauge::new(chunk),
            flight: Flight::new(alloc),
        }
    }

    /// The same window as a new one.
    pub(crate) fn begin(&mut self)
        ensures { self.new ≡ meters.new_meter self.old.chunk }
    {
        self.gauge = Gauge::new(self.chunk);
        self.flight.clear();
    }

    /// Whether there is room for one chunk more.
    pub(crate) fn has_room(&self) -> bool
        ensures { result ≡ meters.has_room self.now }
    {
        self.gauge.has_room(self.flight.len() as u128)
    }

    /// A chunk is sent.
    pub(crate) fn send(&mut self, chunk: u64, now: u64) -> Result<(), AllocError>
        ensures sent { OnOk result (self.new ≡ meters.sent chunk now self.old) }
        ensures refused { OnErr result (self.new ≡ self.old) }
    {
        let is_flying = self.flight.len() > 0;
        self.flight.send(chunk, now)?;
        self.gauge.sent(is_flying, now);
        Ok(())
    }

    /// An ACK of a span came, with its delay.
    pub(crate) fn acknowledge(&mut self, span: Span, delay: u64, now: u64)
        ensures { self.new ≡ meters.acked span.first span.last delay now self.old }
    {
        let hits = self.flight.hits(span);
        if hits == 0 {
            return;
        }
        let flown = Flown {
            total: self.flight.len() as u128,
            hits: hits as u128,
            sent_at: self.flight.oldest(span),
        };
        let has_lost = self.flight.acknowledge(span, hits);
        self.gauge.acked(flown, has_lost, delay, now);
    }

    /// A wait ended: where a timeout has passed, what flew is written off.
    pub(crate) fn end_wait(&mut self, now: u64)
        ensures { self.new ≡ meters.ended now self.old }
    {
        if self.flight.len() > 0 && self.gauge.is_overdue(now) {
            self.gauge.timed_out(now);
            self.flight.clear();
        }
    }
}
