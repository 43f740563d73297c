//! The channels of a peer.

ghost use Rattle.std.specs.Prelude.{◌≡◌, ◌≢◌, ◌↔◌, ℕ, ◌+◌, ◌<◌, false, None, Some, map, position, replicate, slice_set, unwrap_or, option_map, IfOk, IfSome, IsNone, IsSome};
ghost use Rattle.std.specs.List.{list_any};
ghost use Rattle.std.specs.Option.{ForSome};
ghost use Rattle.rand_chacha.specs.ChaCha.{of_seed, next_word};
ghost use Rattle.pp_channels.specs.Seats.{Seats, AreSeats, channel_at, IsUsed, IsUsedSeat, used_of, IsFull, HasNewNumber, number_from, has_local, has_address, is_found, is_source, is_dialled, is_begun, answered, dialled, free_seat, with_channel, changed, with_handshake, unreplied, after_drop, closed};
ghost use Rattle.pp_channels.specs.Timing.{handshake_due, is_silent, is_over};
ghost use Rattle.pp_channels.specs.declared.channel.State.TheVariants.{Proven};

use crate::channel::{Channel, State};
use crate::numbers::draw;
use crate::places::{
    first_found, first_free, first_over, first_source, has_address_in, seat_of, used_in,
};
use crate::timing::{handshake_due, is_over, is_silent};
use pp_outside::Address;
use rand_chacha::ChaCha20Rng;
use rand_core::SeedableRng;
use std::alloc::{AllocError, Global};
use std::marker::Model;

// How many seats there are.
const SEATS: usize = 64;

/// The channels to other peers (RFC 7574, sections 3.1.1 and 8), each at one of 64 seats, numbered from 0. Each has a number
/// of its own, to which its peer sends.
#[derive(Drop)]
pub struct Channels {
    seats: Vec<Option<Channel>>,
    numbers: ChaCha20Rng,
}

impl Model for Channels {
    ghost Value = { Seats };

    ghost view = { λ c. record { channels = c.seats.items; numbers = c.numbers } };

    ghost invariant = { λ c. AreSeats c.seats.items };
}

fn free_seats(alloc: Global) -> Result<Vec<Option<Channel>>, AllocError>
    ensures { IfOk result (λ seats. seats.items ≡ replicate 64 None) }
{
    let mut seats = Vec::with_capacity(alloc, SEATS)?;
    for _ in 0..SEATS {
        seats.push(None)?;
    }
    Ok(seats)
}

fn after_drop(channel: Option<Channel>, dropped: Channel) -> Option<Channel>
    ensures { result ≡ after_drop (Some dropped) channel }
{
    match channel {
        Some(channel) => Some(Channel {
            shadowed: channel.shadowed || dropped.address.is_same(channel.address),
            ..channel
        }),
        None => None,
    }
}

// A channel was dropped.
fn note_drop(channels: &mut [Option<Channel>], dropped: Channel)
    ensures { channels.new ≡ map (after_drop (Some dropped)) channels.old }
{
    for channel in channels.iter_mut() {
        *channel = after_drop(*channel, dropped);
    }
}

impl Channels {
    /// No channel yet. `seed` are 32 bytes that nobody can guess: they are the key of ChaCha20, whose words are the numbers of
    /// the channels to come. A word that is 0 or in use gives way to the least number from 1 on that isn't.
    pub fn new(alloc: Global, seed: [u8; 32]) -> Result<Channels, AllocError>
        ensures { IfOk result (λ c. c ≡ record { channels = replicate 64 None; numbers = of_seed seed }) }
    {
        let seats = free_seats(alloc)?;
        Ok(Channels {
            seats,
            numbers: ChaCha20Rng::from_seed(seed),
        })
    }

    // The channel at a seat, if it is in use.
    fn at(&self, seat: u8) -> Option<Channel>
        ensures is { result ≡ channel_at self.now seat }
        ensures within { IsSome result → seat < 64 }
        ensures seats { AreSeats self.now.channels }
    {
        match self.seats.get(seat as usize) {
            Some(channel) => *channel,
            None => None,
        }
    }

    // The channel at a seat.
    fn channel(&self, seat: u8) -> Channel
        requires { IsUsed self.now seat }
        ensures is { channel_at self.now seat ≡ Some result }
        ensures seat { seat < 64 }
        ensures some { 0 < result.local }
        ensures alone { (other : ℕ) → other ≢ seat → has_local result.local (channel_at self.now other) ≡ false }
    {
        self.seats[seat as usize].unwrap()
    }

    // Puts a channel at a seat. No other has its number.
    fn put(&mut self, seat: u8, channel: Channel)
        requires seat { seat < 64 }
        requires some { 0 < channel.local }
        requires alone { (other : ℕ) → other ≢ seat → has_local channel.local (channel_at self.old other) ≡ false }
        ensures { self.new ≡ record self.old { channels = slice_set self.old.channels seat (Some channel) } }
    {
        self.seats[seat as usize] = Some(channel);
    }

    fn free_seat(&self) -> Option<u8>
        ensures seat { result ≡ free_seat self.now }
        ensures full { IsNone result ↔ IsFull self.now }
        ensures within { ForSome result (λ seat. seat < 64) }
    {
        seat_of(first_free(&self.seats))
    }

    // The number of a new channel, where a seat is free.
    fn draw(&mut self) -> u32
        requires { IsSome (free_seat self.old) }
        ensures number { result ≡ number_from self.old.channels (next_word 10 self.old.numbers).0 }
        ensures some { 0 < result }
        ensures alone { (seat : ℕ) → has_local result (channel_at self.old seat) ≡ false }
        ensures words { self.new ≡ record self.old { numbers = (next_word 10 self.old.numbers).1 } }
    {
        draw(&self.seats, &mut self.numbers)
    }

    /// Makes a channel that a handshake opened, with its address and the number of its source, at the least free seat. Its
    /// reply is due. None where all seats are in use, and then no word is drawn.
    pub fn answer(&mut self, from: &Address, source: u32, now: u64) -> Option<u8>
        ensures seat { result ≡ free_seat self.old }
        ensures full { IsNone result ↔ IsFull self.old }
        ensures exact { self.new ≡ with_channel (answered from.now source now) self.old }
        ensures used { IfSome result (IsUsedSeat self.new) }
        ensures number { IfSome result (HasNewNumber self.old self.new) }
        ensures one_more { IfSome result (λ seat. used_of self.new ≡ used_of self.old + 1) }
    {
        let seat = self.free_seat()?;
        let local = self.draw();
        self.put(seat, Channel::answered(*from, source, now, local));
        Some(seat)
    }

    /// Makes a channel to an address that is dialled, at the least free seat. Its first handshake is due. None where all seats
    /// are in use, and then no word is drawn.
    pub fn dial(&mut self, to: &Address, now: u64) -> Option<u8>
        ensures seat { result ≡ free_seat self.old }
        ensures full { IsNone result ↔ IsFull self.old }
        ensures exact { self.new ≡ with_channel (dialled to.now now) self.old }
        ensures used { IfSome result (IsUsedSeat self.new) }
        ensures number { IfSome result (HasNewNumber self.old self.new) }
        ensures one_more { IfSome result (λ seat. used_of self.new ≡ used_of self.old + 1) }
    {
        let seat = self.free_seat()?;
        let local = self.draw();
        self.put(seat, Channel::dialled(*to, now, local));
        Some(seat)
    }

    /// How many seats are in use.
    pub fn used(&self) -> u8
        ensures { result ≡ used_of self.now }
    {
        used_in(&self.seats) as u8
    }

    /// Whether some channel has that address.
    pub fn has_address(&self, address: &Address) -> bool
        ensures { result ≡ list_any (has_address address.now) self.now.channels }
    {
        has_address_in(&self.seats, *address)
    }

    /// The seat of the channel with a number and an address; None where there is no such channel. No other has that number.
    pub fn find(&self, local: u32, from: &Address) -> Option<u8>
        ensures seat { result ≡ position (is_found local from.now) self.now.channels }
        ensures used { IfSome result (IsUsedSeat self.now) }
        ensures seats { AreSeats self.now.channels }
        ensures alone { IfSome result (λ seat. (other : ℕ) → other ≢ seat → has_local local (channel_at self.now other) ≡ false) }
    {
        seat_of(first_found(&self.seats, local, *from))
    }

    /// The least seat of a channel to an address whose peer has a number; None where there is none.
    pub fn by_remote(&self, from: &Address, source: u32) -> Option<u8>
        ensures seat { result ≡ position (is_source from.now source) self.now.channels }
        ensures used { IfSome result (IsUsedSeat self.now) }
    {
        seat_of(first_source(&self.seats, *from, source))
    }

    /// The reply to a dialled channel came: its peer has that number, and the channel is proven.
    pub fn complete(&mut self, seat: u8, source: u32)
        requires { IsUsed self.old seat }
        ensures { self.new ≡ changed self.old seat (λ c. record c { remote = Some source; state = Proven }) }
    {
        let channel = self.channel(seat);
        self.put(
            seat,
            Channel {
                remote: Some(source),
                state: State::Proven,
                ..channel
            },
        );
    }

    /// A datagram came to the channel's number: the channel is proven.
    pub fn prove(&mut self, seat: u8)
        requires { IsUsed self.old seat }
        ensures { self.new ≡ changed self.old seat (λ c. record c { state = Proven }) }
    {
        let channel = self.channel(seat);
        self.put(
            seat,
            Channel {
                state: State::Proven,
                ..channel
            },
        );
    }

    /// How far the channel has come; None where the seat is free.
    pub fn state(&self, seat: u8) -> Option<State>
        ensures state { result ≡ option_map (λ c. c.state) (channel_at self.now seat) }
        ensures used { IsSome result → IsUsedSeat self.now seat }
        ensures seats { AreSeats self.now.channels }
    {
        match self.at(seat) {
            Some(channel) => Some(channel.state),
            None => None,
        }
    }

    /// The number to which the channel's peer sends. It is not 0, and no other channel has it.
    pub fn local(&self, seat: u8) -> u32
        requires { IsUsed self.now seat }
        ensures number { Some result ≡ option_map (λ c. c.local) (channel_at self.now seat) }
        ensures some { 0 < result }
        ensures alone { (other : ℕ) → other ≢ seat → has_local result (channel_at self.now other) ≡ false }
    {
        self.channel(seat).local
    }

    /// The number to which the channel's peer is sent, 0 while it isn't known: a first handshake goes there.
    pub fn remote(&self, seat: u8) -> u32
        requires { IsUsed self.now seat }
        ensures { Some result ≡ option_map (λ c. unwrap_or c.remote 0) (channel_at self.now seat) }
    {
        self.channel(seat).remote.unwrap_or(0)
    }

    /// Where the channel's peer is.
    pub fn address(&self, seat: u8) -> Address
        requires { IsUsed self.now seat }
        ensures { Some result ≡ option_map (λ c. c.address) (channel_at self.now seat) }
    {
        self.channel(seat).address
    }

    /// Whether this peer opened the channel.
    pub fn is_dialled(&self, seat: u8) -> bool
        requires { IsUsed self.now seat }
        ensures { Some result ≡ option_map (λ c. is_dialled c.opening) (channel_at self.now seat) }
    {
        self.channel(seat).opening.is_dialled()
    }

    /// Whether another channel of that address was dropped since the channel was made. A dial whose reply comes then is given up,
    /// since what its peer says may have been said on the other channel.
    pub fn is_shadowed(&self, seat: u8) -> bool
        requires { IsUsed self.now seat }
        ensures { Some result ≡ option_map (λ c. c.shadowed) (channel_at self.now seat) }
    {
        self.channel(seat).shadowed
    }

    /// Notes the moment of a datagram that came.
    pub fn heard(&mut self, seat: u8, now: u64)
        requires { IsUsed self.old seat }
        ensures { self.new ≡ changed self.old seat (λ c. record c { heard = now }) }
    {
        let channel = self.channel(seat);
        self.put(
            seat,
            Channel {
                heard: now,
                ..channel
            },
        );
    }

    /// Notes the moment of a datagram that went.
    pub fn wrote(&mut self, seat: u8, now: u64)
        requires { IsUsed self.old seat }
        ensures { self.new ≡ changed self.old seat (λ c. record c { wrote = now }) }
    {
        let channel = self.channel(seat);
        self.put(
            seat,
            Channel {
                wrote: now,
                ..channel
            },
        );
    }

    /// Whether a handshake is due: on a greeted channel that was dialled the first at once, the second 3 seconds after it was
    /// made and the third 6 seconds after; on one that was answered the reply, until it is sent, and again after `again`.
    pub fn handshake_due(&self, seat: u8, now: u64) -> bool
        requires { IsUsed self.now seat }
        ensures { Some result ≡ option_map (handshake_due now) (channel_at self.now seat) }
    {
        handshake_due(self.channel(seat), now)
    }

    /// Notes that a handshake was sent.
    pub fn handshake_sent(&mut self, seat: u8)
        requires { IsUsed self.old seat }
        ensures { self.new ≡ changed self.old seat (λ c. record c { opening = with_handshake c.opening }) }
    {
        let channel = self.channel(seat);
        let opening = channel.opening.with_handshake();
        self.put(seat, Channel { opening, ..channel });
    }

    /// Whether this peer sent a handshake on the channel. It did so too where its reply is due again. Before that nothing else is
    /// to be sent there.
    pub fn is_begun(&self, seat: u8) -> bool
        requires { IsUsed self.now seat }
        ensures { Some result ≡ option_map (λ c. is_begun c.opening) (channel_at self.now seat) }
    {
        self.channel(seat).opening.is_begun()
    }

    /// The handshake of an answered channel came again, so that its reply is due again. A dialled channel stays as it is.
    pub fn again(&mut self, seat: u8)
        requires { IsUsed self.old seat }
        ensures { self.new ≡ changed self.old seat (λ c. record c { opening = unreplied c.opening }) }
    {
        let channel = self.channel(seat);
        let opening = channel.opening.unreplied();
        self.put(seat, Channel { opening, ..channel });
    }

    /// Whether nothing was written for 120 seconds, so that a keep-alive is due. On a dialled channel that was made less than 15 seconds
    /// ago 3 seconds do: the other peer drops it unless a datagram behind the reply reaches it.
    pub fn is_silent(&self, seat: u8, now: u64) -> bool
        requires { IsUsed self.now seat }
        ensures { Some result ≡ option_map (is_silent now) (channel_at self.now seat) }
    {
        is_silent(self.channel(seat), now)
    }

    /// The least seat whose time is over: 10 seconds after the channel was made where it is greeted, and 180 seconds after
    /// something last came where it is proven. None where there is none.
    pub fn expired(&self, now: u64) -> Option<u8>
        ensures seat { result ≡ position (is_over now) self.now.channels }
        ensures used { IfSome result (IsUsedSeat self.now) }
    {
        seat_of(first_over(&self.seats, now))
    }

    /// Drops a channel: its seat is free, and the other channels of its address are shadowed.
    pub fn close(&mut self, seat: u8)
        requires { IsUsed self.old seat }
        ensures exact { self.new ≡ closed self.old seat }
        ensures free { channel_at self.new seat ≡ None }
        ensures one_less { used_of self.new + 1 ≡ used_of self.old }
    {
        let dropped = self.channel(seat);
        self.seats[seat as usize] = None;
        note_drop(&mut self.seats, dropped);
    }
}
