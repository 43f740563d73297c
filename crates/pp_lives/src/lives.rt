//! The seats of channels, and what each datagram does to them.

ghost use Rattle.std.specs.Prelude.{◌≡◌, ◌+◌, ◌<◌, ◌≤◌, length, IfOk, IfSome, IsSome, position, replicate, take, None, Some, is_some, option_map};
ghost use Rattle.std.specs.Int.{w32, from_be_bytes};
ghost use Rattle.std.specs.List.{list_any};
ghost use Rattle.rand_chacha.specs.ChaCha.{of_seed};
ghost use Rattle.pp_channels.specs.Seats.{Seats, AreSeats, channel_at, IsUsed, IsUsedSeat, used_of, changed, closed, free_seat, with_channel, dialled, has_address, is_found};
ghost use Rattle.pp_channels.specs.Timing.{handshake_due, is_silent, is_over};
ghost use Rattle.pp_channels.specs.declared.channel.State.TheVariants.{Proven};
ghost use Rattle.pp_lives.specs.Arrived.{KeepsStanding};
ghost use Rattle.pp_lives.specs.Arriving.{Welcomes, Meets, Greets, is_proven_at, is_given_up, Answers, Awaited, is_waiting_at, Comes, Numbered, Arrives, IsSeated, Proves, IsBehind};
ghost use Rattle.pp_lives.specs.Fars.{far_of, greeting_of};
ghost use Rattle.pp_lives.specs.Sending.{with_datagram};

use crate::arriving::{Arrival, First, begin, fits};
use pp_channels::{Channels, State};
use pp_outside::Address;
use pp_tree::Descriptor;
use std::alloc::{AllocError, Global};
use std::marker::Model;

/// Where a channel's datagrams go, and how far it has come.
#[derive(Clone, Copy, Debug, PartialEq, Eq)]
pub struct Far {
    pub address: Address,
    /// The other peer's number, to which it is sent.
    pub number: u32,
    /// A datagram came to this peer's number, which only a peer at that address was told.
    pub proven: bool,
    /// A handshake of this peer was sent. Before that nothing else is to be sent.
    pub begun: bool,
}

/// A handshake of this peer: from which of its numbers it comes, and where it goes.
#[derive(Clone, Copy, Debug, PartialEq, Eq)]
pub struct Greeting {
    pub source: u32,
    pub address: Address,
    /// The other peer's number, 0 while its reply to a dial is awaited.
    pub number: u32,
}

/// The channels, each at one of 64 seats, numbered from 0.
#[derive(Drop)]
pub struct Lives {
    channels: Channels,
}

impl Model for Lives {
    ghost Value = { Seats };

    ghost view = { λ l. l.channels };
}

/// The channel number of a datagram: that of the channel at this peer for which it is, 0 for none that is open yet.
pub fn number_of(bytes: &[u8]) -> u32
    requires { 4 ≤ length bytes.now }
    ensures { result ≡ from_be_bytes w32 (take 4 bytes.now) }
{
    let (front, _) = bytes.split_at(4);
    u32::from_be_bytes([front[0], front[1], front[2], front[3]])
}

impl Lives {
    /// No channel yet. `seed` are 32 bytes that nobody can guess, from which the channels' numbers are drawn.
    pub fn new(alloc: Global, seed: [u8; 32]) -> Result<Lives, AllocError>
        ensures { IfOk result (λ l. l ≡ record { channels = replicate 64 None; numbers = of_seed seed }) }
    {
        let channels = Channels::new(alloc, seed)?;
        Ok(Lives { channels })
    }

    // The seats have numbers of their own.
    fn are_seats(&self)
        ensures { AreSeats self.now.channels }
    {
        let _state = self.channels.state(0);
    }

    // A handshake for channel 0 that fits.
    fn welcome(&mut self, from: &Address, source: u32, next: usize, now: u64) -> Arrival
        ensures { Welcomes self.old from.now source next now result self.new }
    {
        if let Some(seat) = self.channels.by_remote(from, source) {
            return self.meet(seat);
        }
        match self.channels.answer(from, source, now) {
            Some(seat) => Arrival::Opened { seat, next },
            None => Arrival::Unseated,
        }
    }

    // A handshake for channel 0 that fits came again, of a channel that is there.
    fn meet(&mut self, seat: u8) -> Arrival
        requires { IsUsed self.old seat }
        ensures { Meets self.old seat result self.new }
    {
        match self.channels.state(seat) {
            Some(State::Greeted) => {
                self.channels.again(seat);
                Arrival::Again { seat }
            }
            _ => Arrival::Late { seat },
        }
    }

    // A datagram for channel 0.
    fn greet(&mut self, descriptor: &Descriptor, from: &Address, bytes: &[u8], now: u64) -> Arrival
        requires { 4 ≤ length bytes.now }
        ensures { Greets descriptor.now self.old from.now now bytes.now result self.new }
    {
        match begin(descriptor, bytes) {
            First::Handshake {
                source,
                options,
                next,
            } => {
                if !fits(&options, descriptor, false) || source == 0 {
                    return Arrival::Unwelcome;
                }
                self.welcome(from, source, next, now)
            }
            First::Faulty => Arrival::Unwelcome,
            First::Other => Arrival::NoGreeting,
        }
    }

    // Whether a reply is given up.
    fn is_given_up(&self, seat: u8, from: &Address, source: u32) -> bool
        requires { IsUsed self.now seat }
        ensures { result ≡ is_given_up self.now seat from.now source }
    {
        source == 0
            || self.channels.by_remote(from, source).is_some()
            || self.channels.is_shadowed(seat)
    }

    // The reply to a dial came.
    fn complete(&mut self, seat: u8, source: u32, now: u64)
        requires { IsUsed self.old seat }
        ensures { self.new ≡ changed (changed self.old seat (λ c. record c { remote = Some source; state = Proven })) seat (λ c. record c { heard = now }) }
    {
        self.channels.complete(seat, source);
        self.channels.heard(seat, now);
    }

    // A handshake came back on a channel that waits; its options fit the swarm or don't.
    fn answer(&mut self, seat: u8, from: &Address, source: u32, fit: bool, now: u64) -> Arrival
        requires { IsUsed self.old seat }
        ensures { Answers self.old seat from.now now source fit result self.new }
    {
        if !fit {
            self.close(seat);
            return Arrival::Differs { seat };
        }
        if self.is_given_up(seat, from, source) {
            self.close(seat);
            return Arrival::Given { seat };
        }
        self.complete(seat, source, now);
        Arrival::Replied { seat }
    }

    // A datagram for a channel that waits.
    fn await_reply(
        &mut self,
        seat: u8,
        descriptor: &Descriptor,
        from: &Address,
        bytes: &[u8],
        now: u64,
    ) -> Arrival
        requires long { 4 ≤ length bytes.now }
        requires used { IsUsed self.old seat }
        ensures { Awaited descriptor.now self.old seat from.now now bytes.now result self.new }
    {
        match begin(descriptor, bytes) {
            First::Handshake {
                source,
                options,
                ..
            } => {
                let fit = fits(&options, descriptor, true);
                self.answer(seat, from, source, fit, now)
            }
            First::Faulty => Arrival::Cut { seat },
            First::Other => Arrival::NoReply { seat },
        }
    }

    // Whether a channel that this peer dialled awaits its reply.
    fn is_waiting(&self, seat: u8) -> bool
        requires { IsUsed self.now seat }
        ensures { result ≡ is_waiting_at (channel_at self.now seat) }
    {
        self.channels.is_dialled(seat) && self.channels.state(seat) == Some(State::Greeted)
    }

    // Whether a datagram came to the channel's number.
    fn is_proven(&self, seat: u8) -> bool
        requires { IsUsed self.now seat }
        ensures { result ≡ is_proven_at (channel_at self.now seat) }
    {
        self.channels.state(seat) == Some(State::Proven)
    }

    // A datagram for a seat.
    fn come(
        &mut self,
        seat: u8,
        descriptor: &Descriptor,
        from: &Address,
        bytes: &[u8],
        now: u64,
    ) -> Arrival
        requires long { 4 ≤ length bytes.now }
        requires used { IsUsed self.old seat }
        ensures { Comes descriptor.now self.old seat from.now now bytes.now result self.new }
    {
        if self.is_waiting(seat) {
            self.await_reply(seat, descriptor, from, bytes, now)
        } else {
            self.hear(seat, now);
            Arrival::Heard { seat }
        }
    }

    // A datagram for a number.
    fn number(
        &mut self,
        number: u32,
        descriptor: &Descriptor,
        from: &Address,
        bytes: &[u8],
        now: u64,
    ) -> Arrival
        requires { 4 ≤ length bytes.now }
        ensures { Numbered descriptor.now self.old number from.now now bytes.now result self.new }
    {
        match self.channels.find(number, from) {
            Some(seat) => self.come(seat, descriptor, from, bytes, now),
            None => Arrival::NoChannel,
        }
    }

    /// A datagram from an address: for which seat it is, and from which byte on its messages are read. Where these close the
    /// channel, the seat is to be dropped by `close`.
    pub fn arrive(
        &mut self,
        descriptor: &Descriptor,
        from: &Address,
        bytes: &[u8],
        now: u64,
    ) -> Arrival
        ensures exact { Arrives descriptor.now self.old from.now now bytes.now result self.new }
        ensures seated { IsSeated result self.new }
        ensures proven { Proves result self.new }
        ensures behind { IsBehind descriptor.now bytes.now result }
        ensures stands { KeepsStanding descriptor.now self.old from.now now bytes.now result self.new }
    {
        self.are_seats();
        self.take(descriptor, from, bytes, now)
    }

    fn take(&mut self, descriptor: &Descriptor, from: &Address, bytes: &[u8], now: u64) -> Arrival
        ensures { Arrives descriptor.now self.old from.now now bytes.now result self.new }
    {
        if bytes.len() < 4 {
            return Arrival::Short;
        }
        let number = number_of(bytes);
        if number == 0 {
            self.greet(descriptor, from, bytes, now)
        } else {
            self.number(number, descriptor, from, bytes, now)
        }
    }

    // Something was heard on a channel.
    fn hear(&mut self, seat: u8, now: u64)
        requires { IsUsed self.old seat }
        ensures { self.new ≡ changed (changed self.old seat (λ c. record c { state = Proven })) seat (λ c. record c { heard = now }) }
    {
        self.channels.prove(seat);
        self.channels.heard(seat, now);
    }

    /// Where the datagrams of a channel go: None where the seat is free, or a reply is awaited, so that the peer's number isn't
    /// known yet.
    pub fn far(&self, seat: u8) -> Option<Far>
        ensures exact { result ≡ far_of (channel_at self.now seat) }
        ensures used { IsSome result → IsUsedSeat self.now seat }
    {
        match self.channels.state(seat) {
            Some(_) => self.far_of(seat),
            None => None,
        }
    }

    fn far_of(&self, seat: u8) -> Option<Far>
        requires { IsUsed self.now seat }
        ensures { result ≡ far_of (channel_at self.now seat) }
    {
        if self.is_waiting(seat) {
            return None;
        }
        Some(Far {
            address: self.channels.address(seat),
            number: self.channels.remote(seat),
            proven: self.is_proven(seat),
            begun: self.channels.is_begun(seat),
        })
    }

    /// What this peer's handshake on a channel is to be: None where the seat is free.
    pub fn greeting(&self, seat: u8) -> Option<Greeting>
        ensures exact { result ≡ greeting_of (channel_at self.now seat) }
        ensures used { IsSome result → IsUsedSeat self.now seat }
    {
        match self.channels.state(seat) {
            Some(_) => Some(self.greeting_of(seat)),
            None => None,
        }
    }

    fn greeting_of(&self, seat: u8) -> Greeting
        requires { IsUsed self.now seat }
        ensures { Some result ≡ greeting_of (channel_at self.now seat) }
    {
        let number = if self.is_waiting(seat) {
            0
        } else {
            self.channels.remote(seat)
        };
        Greeting {
            source: self.channels.local(seat),
            address: self.channels.address(seat),
            number,
        }
    }

    /// How many seats are in use.
    pub fn used(&self) -> u8
        ensures { result ≡ used_of self.now }
    {
        self.channels.used()
    }

    /// Whether some channel has that address.
    pub fn has_address(&self, address: &Address) -> bool
        ensures { result ≡ list_any (has_address address.now) self.now.channels }
    {
        self.channels.has_address(address)
    }

    /// Whether a channel has that number and that address.
    pub fn owns(&self, number: u32, address: &Address) -> bool
        ensures { result ≡ is_some (position (is_found number address.now) self.now.channels) }
    {
        self.channels.find(number, address).is_some()
    }

    /// The number to which the channel's peer sends, and that stands in this peer's handshakes.
    pub fn local(&self, seat: u8) -> u32
        requires { IsUsed self.now seat }
        ensures { Some result ≡ option_map (λ c. c.local) (channel_at self.now seat) }
    {
        self.channels.local(seat)
    }

    /// Makes a channel to an address that is dialled, at the least free seat; no channel is to have that address. Its first
    /// handshake is due. None where all seats are in use.
    pub fn dial(&mut self, to: &Address, now: u64) -> Option<u8>
        ensures seat { result ≡ free_seat self.old }
        ensures exact { self.new ≡ with_channel (dialled to.now now) self.old }
        ensures used { IfSome result (IsUsedSeat self.new) }
    {
        self.channels.dial(to, now)
    }

    /// Whether a handshake is due on the channel: on a dial the first at once, the second 3 seconds after it was made and the
    /// third 6 seconds after; on one that the other peer opened the reply, until it is sent.
    pub fn handshake_due(&self, seat: u8, now: u64) -> bool
        requires { IsUsed self.now seat }
        ensures { Some result ≡ option_map (handshake_due now) (channel_at self.now seat) }
    {
        self.channels.handshake_due(seat, now)
    }

    /// Whether nothing was sent for 120 seconds, so that a keep-alive is due.
    pub fn is_silent(&self, seat: u8, now: u64) -> bool
        requires { IsUsed self.now seat }
        ensures { Some result ≡ option_map (is_silent now) (channel_at self.now seat) }
    {
        self.channels.is_silent(seat, now)
    }

    /// Notes that a datagram was sent on a channel, and whether it began with this peer's handshake.
    pub fn sent(&mut self, seat: u8, handshake: bool, now: u64)
        requires { IsUsed self.old seat }
        ensures { self.new ≡ with_datagram self.old seat handshake now }
    {
        self.channels.wrote(seat, now);
        if handshake {
            self.channels.handshake_sent(seat);
        }
    }

    /// The least seat whose time is over: 10 seconds after the channel was made where it isn't proven, and 180 seconds after
    /// something last came where it is. None where there is none. It is to be dropped by `close`.
    pub fn expired(&self, now: u64) -> Option<u8>
        ensures seat { result ≡ position (is_over now) self.now.channels }
        ensures used { IfSome result (IsUsedSeat self.now) }
    {
        self.channels.expired(now)
    }

    /// Drops a channel: its seat is free, and the other channels of its address are shadowed.
    pub fn close(&mut self, seat: u8)
        requires { IsUsed self.old seat }
        ensures { self.new ≡ closed self.old seat }
    {
        self.channels.close(seat);
    }
}
