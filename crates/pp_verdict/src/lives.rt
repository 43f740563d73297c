//! The channels that can have been open at some time.

ghost use Rattle.std.specs.Prelude.{◌≡◌, ◌<◌, ℕ, length, map, slice_index_or, Contains, MatchOption, IsTrue, IfOk, OnOk};
ghost use Rattle.pp_traffic.specs.Life as channels;
ghost use Rattle.pp_recorded.specs.Entries.{life_of};
ghost use Rattle.pp_verdict.specs.Findings.{AreAll};
ghost use Rattle.pp_verdict.specs.declared.shakes.Shake as table;
ghost use Rattle.pp_verdict.specs.Shakes.{IsGreeting, IsReply, Opens};

use crate::shakes::{Shake, shakes_of};
use pp_recorded::entry::{Entry, Life};
use pp_tree::Descriptor;
use std::alloc::{AllocError, Global};

// The channel that opens at a place with these handshakes, the other peer's and this peer's.
fn life_between(greeting: Shake, reply: Shake, opening: usize) -> Option<Life>
    ensures { (life : channels.Life) → IsGreeting life greeting → IsReply life reply → 0 < life.local → 0 < life.remote
        → life.opening ≡ opening → MatchOption result ⊥ (λ found. life_of found ≡ life) }
{
    let is_dialled = reply.channel == 0;
    let life = Life {
        address: greeting.address,
        local: reply.source,
        remote: greeting.source,
        is_dialled,
        opening,
    };
    let (to_this, to_other) = if is_dialled {
        (life.local, 0)
    } else {
        (0, life.remote)
    };
    if greeting.channel == to_this && reply.channel == to_other {
        Some(life)
    } else {
        None
    }
}

// The channel that opens with the first of two handshakes.
fn life_opened(first: Shake, second: Shake) -> Option<Life>
    ensures { (life : channels.Life) → Opens life first second → MatchOption result ⊥ (λ found. life_of found ≡ life) }
{
    if first.place > second.place
        || first.is_sent == second.is_sent
        || !first.address.is_same(second.address)
    {
        return None;
    }
    if first.is_sent {
        life_between(second, first, first.place)
    } else {
        life_between(first, second, first.place)
    }
}

fn is_same(life: Life, other: Life) -> bool
    ensures { IsTrue result → life_of life ≡ life_of other }
{
    life.address.is_same(other.address)
        && life.local == other.local
        && life.remote == other.remote
        && life.is_dialled == other.is_dialled
        && life.opening == other.opening
}

// Whether the channel is the last one.
fn is_last(lives: &[Life], life: Life) -> bool
    ensures { IsTrue result → Contains (map life_of lives.now) (life_of life) }
{
    let count = lives.len();
    count > 0 && is_same(lives[count - 1], life)
}

// Adds a channel, where it isn't the last one already.
fn add_life(lives: &mut Vec<Life>, life: Life) -> Result<(), AllocError>
    ensures here { OnOk result (Contains (map life_of lives.new.items) (life_of life)) }
    ensures kept { OnOk result ((l : channels.Life) → Contains (map life_of lives.old.items) l
        → Contains (map life_of lives.new.items) l) }
{
    if !is_last(lives, life) {
        lives.push(life)?;
    }
    Ok(())
}

// Adds a channel, where one was found.
fn add_found(lives: &mut Vec<Life>, found: Option<Life>) -> Result<(), AllocError>
    ensures here { OnOk result ((life : channels.Life) → MatchOption found ⊥ (λ l. life_of l ≡ life)
        → Contains (map life_of lives.new.items) life) }
    ensures kept { OnOk result ((l : channels.Life) → Contains (map life_of lives.old.items) l
        → Contains (map life_of lives.new.items) l) }
{
    match found {
        Some(life) => add_life(lives, life),
        None => Ok(()),
    }
}

// Adds the channels that open with a handshake and one of the others.
fn add_lives(lives: &mut Vec<Life>, first: Shake, shakes: &[Shake]) -> Result<(), AllocError>
    ensures here { OnOk result ((life : channels.Life) (second : table.Shake) → Contains shakes.now second
        → Opens life first second
        → Contains (map life_of lives.new.items) life) }
    ensures kept { OnOk result ((l : channels.Life) → Contains (map life_of lives.old.items) l
        → Contains (map life_of lives.new.items) l) }
{
    for second in shakes {
        add_found(lives, life_opened(first, *second))?;
    }
    Ok(())
}

// The channels that open with two of the handshakes.
fn lives_among(alloc: Global, shakes: &[Shake]) -> Result<Vec<Life>, AllocError>
    ensures { IfOk result (λ lives. (life : channels.Life) (a b : table.Shake) → Contains shakes.now a
        → Contains shakes.now b → Opens life a b → Contains (map life_of lives.items) life) }
{
    let mut lives = Vec::new(alloc);
    for first in shakes {
        add_lives(&mut lives, *first, shakes)?;
    }
    Ok(lives)
}

/// Each channel that is open behind some entry, by the handshakes with which it can have opened; others too.
pub(crate) fn lives_of<'m>(
    alloc: Global,
    descriptor: &Descriptor,
    entries: &'m [Entry<'m>],
) -> Result<Vec<Life>, AllocError>
    ensures { IfOk result (λ lives. AreAll descriptor.now entries.now (map life_of lives.items)) }
{
    let shakes = shakes_of(alloc, descriptor, entries)?;
    lives_among(alloc, &shakes)
}
