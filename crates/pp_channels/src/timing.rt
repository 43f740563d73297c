//! The timers of a channel.

ghost use Rattle.std.specs.Prelude.{◌≡◌};
ghost use Rattle.pp_channels.specs.Timing.{handshake_due, is_opening_due, is_young, is_silent, is_over};

use crate::channel::{Channel, Opening, State};

const SECOND: u64 = 1_000_000;

// How long after it was made a dialled channel sends its second and its third handshake.
const SECOND_HANDSHAKE: u64 = 3 * SECOND;

const THIRD_HANDSHAKE: u64 = 6 * SECOND;

// How long a channel lasts that isn't proven, and one that is and from which nothing comes.
const GREETED_LASTS: u64 = 10 * SECOND;

const PROVEN_LASTS: u64 = 180 * SECOND;

// After how long a channel is silent.
const SILENCE: u64 = 120 * SECOND;

// How long a dialled channel is young, and after how long such a one is silent.
const YOUTH: u64 = 15 * SECOND;

const YOUNG_SILENCE: u64 = 3 * SECOND;

fn is_opening_due(opening: Opening, age: u64) -> bool
    ensures { result ≡ is_opening_due opening age }
{
    match opening {
        Opening::Dialled { handshakes } => match handshakes {
            0 => true,
            1 => age >= SECOND_HANDSHAKE,
            2 => age >= THIRD_HANDSHAKE,
            _ => false,
        },
        Opening::Answered { reply } => reply.is_due(),
    }
}

/// Whether a handshake is due.
pub(crate) fn handshake_due(channel: Channel, now: u64) -> bool
    ensures { result ≡ handshake_due now channel }
{
    match channel.state {
        State::Greeted => is_opening_due(channel.opening, now.saturating_sub(channel.made)),
        State::Proven => false,
    }
}

// Whether its peer may still drop a dialled channel, since nothing came there behind the reply.
fn is_young(channel: Channel, now: u64) -> bool
    ensures { result ≡ is_young now channel }
{
    channel.opening.is_dialled() && now.saturating_sub(channel.made) < YOUTH
}

/// Whether nothing went for so long that a keep-alive is due.
pub(crate) fn is_silent(channel: Channel, now: u64) -> bool
    ensures { result ≡ is_silent now channel }
{
    let silence = now.saturating_sub(channel.wrote);
    silence >= SILENCE || (is_young(channel, now) && silence >= YOUNG_SILENCE)
}

/// Whether the time of a channel is over.
pub(crate) fn is_over(channel: Option<Channel>, now: u64) -> bool
    ensures { result ≡ is_over now channel }
{
    let Some(channel) = channel else {
        return false;
    };
    match channel.state {
        State::Greeted => now.saturating_sub(channel.made) >= GREETED_LASTS,
        State::Proven => now.saturating_sub(channel.heard) >= PROVEN_LASTS,
    }
}
