//! The least seat whose channel passes a test.

ghost use Rattle.std.specs.Prelude.{◌≡◌, ℕ, ◌<◌, ◌≤◌, is_none, is_some, length, position};
ghost use Rattle.std.specs.List.{count_by, list_any};
ghost use Rattle.std.specs.Option.{ForSome};
ghost use Rattle.pp_channels.specs.Seats.{has_address, is_found, is_source};
ghost use Rattle.pp_channels.specs.Timing.{is_over};

use crate::channel::Channel;
use crate::timing::is_over;
use pp_outside::Address;

/// A place below 64 as a seat.
pub(crate) fn seat_of(place: Option<usize>) -> Option<u8>
    requires { ForSome place (λ p. p < 64) }
    ensures { result ≡ place }
{
    match place {
        Some(place) => Some(place as u8),
        None => None,
    }
}

fn has_address(channel: Option<Channel>, address: Address) -> bool
    ensures { result ≡ has_address address channel }
{
    match channel {
        Some(channel) => channel.address.is_same(address),
        None => false,
    }
}

fn is_found(channel: Option<Channel>, local: u32, from: Address) -> bool
    ensures { result ≡ is_found local from channel }
{
    match channel {
        Some(channel) => channel.local == local && channel.address.is_same(from),
        None => false,
    }
}

fn is_source(channel: Option<Channel>, from: Address, source: u32) -> bool
    ensures { result ≡ is_source from source channel }
{
    match channel {
        Some(channel) => channel.remote == Some(source) && channel.address.is_same(from),
        None => false,
    }
}

/// How many are there.
pub(crate) fn used_in(channels: &[Option<Channel>]) -> usize
    ensures used { result ≡ count_by is_some channels.now }
    ensures within { result ≤ length channels.now }
{
    channels.iter().filter(|channel| channel.is_some()).count()
}

/// Whether one of them has that address.
pub(crate) fn has_address_in(channels: &[Option<Channel>], address: Address) -> bool
    ensures { result ≡ list_any (has_address address) channels.now }
{
    channels
        .iter()
        .any(|channel| has_address(*channel, address))
}

/// The least free seat.
pub(crate) fn first_free(channels: &[Option<Channel>]) -> Option<usize>
    ensures place { result ≡ position is_none channels.now }
    ensures within { ForSome result (λ p. p < length channels.now) }
{
    channels.iter().position(|channel| channel.is_none())
}

/// The least with a channel of that number and that address.
pub(crate) fn first_found(channels: &[Option<Channel>], local: u32, from: Address) -> Option<usize>
    ensures place { result ≡ position (is_found local from) channels.now }
    ensures within { ForSome result (λ p. p < length channels.now) }
{
    channels
        .iter()
        .position(|channel| is_found(*channel, local, from))
}

/// The least with a channel of that address whose peer has that number.
pub(crate) fn first_source(
    channels: &[Option<Channel>],
    from: Address,
    source: u32,
) -> Option<usize>
    ensures place { result ≡ position (is_source from source) channels.now }
    ensures within { ForSome result (λ p. p < length channels.now) }
{
    channels
        .iter()
        .position(|channel| is_source(*channel, from, source))
}

/// The least whose time is over.
pub(crate) fn first_over(channels: &[Option<Channel>], now: u64) -> Option<usize>
    ensures place { result ≡ position (is_over now) channels.now }
    ensures within { ForSome result (λ p. p < length channels.now) }
{
    channels.iter().position(|channel| is_over(*channel, now))
}
