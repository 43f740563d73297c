//! What one entry is to a channel.

ghost use Rattle.std.specs.Prelude.{◌≡◌, ◌≤◌, length, drop};
ghost use Rattle.pp_terms.specs.format.Descriptor as descriptors;
ghost use Rattle.pp_terms.specs.format.Messages as messages;
ghost use Rattle.pp_traffic.specs.Past as terms;
ghost use Rattle.pp_traffic.specs.Life as lives;
ghost use Rattle.pp_traffic.specs.Plain as plain;
ghost use Rattle.pp_outside.specs.Outside.{address_of};
ghost use Rattle.pp_options.specs.Views.{options_of};
ghost use Rattle.pp_recorded.specs.Entries.{record_of, life_of};
ghost use Rattle.pp_recorded.specs.Parts.{all, rest};
ghost use Rattle.pp_recorded.specs.Tests.{test_of};

use crate::entry::{Entry, Life, bytes_of, comes_from, goes_to};
use crate::reading::{channel_of, closes, first_place, first_shake, has_handshake, message_at};
use pp_channels::check;
use pp_options::Options;
use pp_tree::Descriptor;

/// What an entry can be to a channel.
#[derive(Clone, Copy)]
pub enum Kind {
    /// A datagram from the peer's address.
    ComesFrom,
    /// One to it.
    GoesTo,
    /// The peer's handshake that opens the channel or replies.
    Greets,
    /// This peer's one.
    Answers,
    /// A datagram from the peer to this peer's number.
    ComesOn,
    /// One that begins with a handshake.
    ShakesOn,
    /// One that has a closing handshake.
    ClosesOn,
    /// A datagram from or to the peer's address.
    Concerns,
    /// The peer's handshake, and no other in its datagram.
    GreetsOnce,
    /// A handshake for channel 0 from the peer's address.
    AsksAnew,
}

/// Whether the datagram is for the channel number.
pub fn is_for(number: u32, bytes: &[u8]) -> bool
    ensures { (d : descriptors.Descriptor) → result ≡ terms.is_number number (messages.datagram d.method d.chunk bytes.now).channel }
{
    match channel_of(bytes) {
        Some(channel) => channel == number,
        None => false,
    }
}

/// Whether its first message is a handshake.
#[tactic(auto, using(crate::proofs::Shakes::begins_shake))]
pub fn begins(descriptor: &Descriptor, bytes: &[u8]) -> bool
    ensures { result ≡ lives.begins (all descriptor.now bytes.now) }
{
    first_shake(descriptor, bytes).is_some()
}

// Whether it is one of that source channel.
#[tactic(auto, using(crate::proofs::Shakes::begins_as_shake))]
fn begins_as(descriptor: &Descriptor, bytes: &[u8], number: u32) -> bool
    ensures { result ≡ lives.begins_as number (all descriptor.now bytes.now) }
{
    match first_shake(descriptor, bytes) {
        Some((source, _)) => source == number,
        None => false,
    }
}

/// Whether the options of a handshake fit the swarm.
pub fn is_fitting(descriptor: &Descriptor, is_reply: bool, options: &Options) -> bool
    ensures { result ≡ lives.fits descriptor.now is_reply (options_of options.now) }
{
    check(options, descriptor, is_reply).is_ok()
}

// And its options fit the swarm.
#[tactic(auto, using(crate::proofs::Shakes::begins_fitting_shake))]
fn begins_fitting(descriptor: &Descriptor, bytes: &[u8], is_reply: bool, number: u32) -> bool
    ensures { result ≡ lives.begins_fitting descriptor.now is_reply number (all descriptor.now bytes.now) }
{
    match first_shake(descriptor, bytes) {
        Some((source, options)) => source == number && is_fitting(descriptor, is_reply, &options),
        None => false,
    }
}

pub fn greets<'m>(descriptor: &Descriptor, life: Life, entry: &'m Entry<'m>) -> bool
    ensures { result ≡ lives.greets descriptor.now (life_of life) (record_of entry.now) }
{
    let bytes = bytes_of(entry);
    let number = if life.is_dialled { life.local } else { 0 };
    comes_from(life.address, entry)
        && is_for(number, bytes)
        && begins_fitting(descriptor, bytes, life.is_dialled, life.remote)
}

pub fn answers<'m>(descriptor: &Descriptor, life: Life, entry: &'m Entry<'m>) -> bool
    ensures { result ≡ lives.answers descriptor.now (life_of life) (record_of entry.now) }
{
    let bytes = bytes_of(entry);
    let number = if life.is_dialled { 0 } else { life.remote };
    goes_to(life.address, entry)
        && is_for(number, bytes)
        && begins_as(descriptor, bytes, life.local)
}

pub fn comes_on<'m>(descriptor: &Descriptor, life: Life, entry: &'m Entry<'m>) -> bool
    ensures { result ≡ lives.comes_on descriptor.now (life_of life) (record_of entry.now) }
{
    comes_from(life.address, entry) && is_for(life.local, bytes_of(entry))
}

fn shakes_on<'m>(descriptor: &Descriptor, life: Life, entry: &'m Entry<'m>) -> bool
    ensures { result ≡ lives.shakes_on descriptor.now (life_of life) (record_of entry.now) }
{
    comes_on(descriptor, life, entry) && begins(descriptor, bytes_of(entry))
}

fn closes_on<'m>(descriptor: &Descriptor, life: Life, entry: &'m Entry<'m>) -> bool
    ensures { result ≡ lives.closes_on descriptor.now (life_of life) (record_of entry.now) }
{
    comes_on(descriptor, life, entry) && closes(descriptor, bytes_of(entry))
}

/// The place behind the first message, or the end.
pub fn second_place(descriptor: &Descriptor, bytes: &[u8]) -> usize
    ensures within { result ≤ length bytes.now }
    ensures rest { rest descriptor.now bytes.now result ≡ drop 1 (all descriptor.now bytes.now) }
{
    match message_at(descriptor, bytes, first_place(bytes)) {
        Some((_, next)) => next,
        None => bytes.len(),
    }
}

fn greets_once<'m>(descriptor: &Descriptor, life: Life, entry: &'m Entry<'m>) -> bool
    ensures { result ≡ plain.greets_once descriptor.now (life_of life) (record_of entry.now) }
{
    let bytes = bytes_of(entry);
    greets(descriptor, life, entry)
        && !has_handshake(descriptor, bytes, second_place(descriptor, bytes))
}

fn asks_anew<'m>(descriptor: &Descriptor, life: Life, entry: &'m Entry<'m>) -> bool
    ensures { result ≡ plain.asks_anew descriptor.now (life_of life) (record_of entry.now) }
{
    let bytes = bytes_of(entry);
    comes_from(life.address, entry)
        && is_for(0, bytes)
        && has_handshake(descriptor, bytes, first_place(bytes))
}

/// Whether the entry is one of that kind to the channel.
pub fn is_kind<'m>(kind: Kind, descriptor: &Descriptor, life: Life, entry: &'m Entry<'m>) -> bool
    ensures { result ≡ test_of kind descriptor.now (life_of life) (record_of entry.now) }
{
    match kind {
        Kind::ComesFrom => comes_from(life.address, entry),
        Kind::GoesTo => goes_to(life.address, entry),
        Kind::Greets => greets(descriptor, life, entry),
        Kind::Answers => answers(descriptor, life, entry),
        Kind::ComesOn => comes_on(descriptor, life, entry),
        Kind::ShakesOn => shakes_on(descriptor, life, entry),
        Kind::ClosesOn => closes_on(descriptor, life, entry),
        Kind::Concerns => comes_from(life.address, entry) || goes_to(life.address, entry),
        Kind::GreetsOnce => greets_once(descriptor, life, entry),
        Kind::AsksAnew => asks_anew(descriptor, life, entry),
    }
}
