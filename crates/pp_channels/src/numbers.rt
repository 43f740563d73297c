//! The numbers of channels.

ghost use Rattle.std.specs.Prelude.{◌≡◌, ℕ, ◌<◌, ◌≤◌, false, is_none, length, position, IsSome};
ghost use Rattle.rand_chacha.specs.ChaCha.{next_word};
ghost use Rattle.pp_channels.specs.Seats.{at_seat, has_local, is_used, least_unused, number_from};

use crate::channel::Channel;
use rand_chacha::ChaCha20Rng;
use rand_core::utils::NextWord;

/// Whether a channel has a number.
pub(crate) fn has_local(number: u32, channel: Option<Channel>) -> bool
    ensures { result ≡ has_local number channel }
{
    match channel {
        Some(channel) => channel.local == number,
        None => false,
    }
}

fn is_used(channels: &[Option<Channel>], number: u32) -> bool
    ensures { result ≡ is_used channels.now number }
{
    channels.iter().any(|channel| has_local(number, *channel))
}

// The least number from 1 on that no channel has.
fn least_unused(channels: &[Option<Channel>]) -> Option<u32>
    requires { length channels.now ≤ 64 }
    ensures { result ≡ least_unused channels.now }
{
    let count = channels.len() as u32;
    (1..count + 1).find(|number| !is_used(channels, *number))
}

/// The number of a new channel: the next word, or where that is 0 or in use the least number from 1 on that isn't.
pub(crate) fn draw(channels: &[Option<Channel>], numbers: &mut ChaCha20Rng) -> u32
    requires seats { length channels.now ≤ 64 }
    requires free { IsSome (position is_none channels.now) }
    ensures number { result ≡ number_from channels.now (next_word 10 numbers.old).0 }
    ensures some { 0 < result }
    ensures alone { (seat : ℕ) → has_local result (at_seat channels.now seat) ≡ false }
    ensures words { numbers.new ≡ (next_word 10 numbers.old).1 }
{
    let word = numbers.next_word();
    if word == 0 || is_used(channels, word) {
        least_unused(channels).unwrap()
    } else {
        word
    }
}
