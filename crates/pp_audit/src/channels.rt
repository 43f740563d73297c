//! The search for plain channels: each handshake opens one, with each handshake as the reply to it (RFC 7574, section 3.1.1).

ghost use Rattle.std.specs.Prelude.{◌≡◌, option_map};
ghost use Rattle.pp_recorded.specs.Entries.{past, life_of, record_of};
ghost use Rattle.pp_outside.specs.Outside.{address_of};
ghost use Rattle.pp_audit.specs.Channels as terms;
ghost use Rattle.pp_audit.specs.Duties.{is_done};

use crate::duties::{Duty, is_done};
use pp_outside::Address;
use pp_recorded::entry::{Entry, Life, bytes_of};
use pp_recorded::reading::first_shake;
use pp_tree::Descriptor;

// The channel that a handshake of a source opens at a place, before its reply.
fn answered_at(address: Address, source: u32, place: usize) -> Life
    ensures { life_of result ≡ terms.answered_at (address_of address) source place }
{
    Life {
        address,
        local: 0,
        remote: source,
        is_dialled: false,
        opening: place,
    }
}

// And where this peer sent it.
fn dialled_at(address: Address, source: u32, place: usize) -> Life
    ensures { life_of result ≡ terms.dialled_at (address_of address) source place }
{
    Life {
        address,
        local: source,
        remote: 0,
        is_dialled: true,
        opening: place,
    }
}

// The channel that the entry opens at a place.
fn opened_by<'m>(descriptor: &Descriptor, place: usize, entry: &'m Entry<'m>) -> Option<Life>
    ensures { option_map life_of result ≡ terms.opened_by descriptor.now place (record_of entry.now) }
{
    match *entry {
        Entry::Received { from, bytes, .. } => match first_shake(descriptor, bytes) {
            Some((source, _)) => Some(answered_at(from, source, place)),
            None => None,
        },
        Entry::Quiet { .. } => None,
        Entry::Sent { to, bytes, .. } => match first_shake(descriptor, bytes) {
            Some((source, _)) => Some(dialled_at(to, source, place)),
            None => None,
        },
    }
}

// The channel with the number of its reply.
fn replied_by(life: Life, number: u32) -> Life
    ensures { life_of result ≡ terms.replied_by (life_of life) number }
{
    if life.is_dialled {
        Life {
            remote: number,
            ..life
        }
    } else {
        Life {
            local: number,
            ..life
        }
    }
}

// Whether it is so of the channel to whose opening the entry replies.
fn passes_reply<'d, 'm>(
    duty: Duty<'d>,
    descriptor: &Descriptor,
    life: Life,
    entries: &'m [Entry<'m>],
    entry: &'m Entry<'m>,
) -> bool
    ensures { result ≡ terms.passes_reply (is_done duty.entry descriptor.now (past entries.now)) descriptor.now (life_of life) (record_of entry.now) }
{
    match first_shake(descriptor, bytes_of(entry)) {
        Some((source, _)) => is_done(duty, descriptor, replied_by(life, source), entries),
        None => true,
    }
}

// Whether it is whichever entry replies.
fn passes_replies<'d, 'm>(
    duty: Duty<'d>,
    descriptor: &Descriptor,
    life: Life,
    entries: &'m [Entry<'m>],
) -> bool
    ensures { result ≡ terms.passes_replies (is_done duty.entry descriptor.now (past entries.now)) descriptor.now (life_of life) (past entries.now) }
{
    let mut all = true;
    for entry in entries {
        all = passes_reply(duty, descriptor, life, entries, entry) & all;
    }
    all
}

// Whether it is of each channel that the entry at a place opens.
fn passes_opening<'d, 'm>(
    duty: Duty<'d>,
    descriptor: &Descriptor,
    entries: &'m [Entry<'m>],
    place: usize,
    entry: &'m Entry<'m>,
) -> bool
    ensures { result ≡ terms.passes_opening (is_done duty.entry descriptor.now (past entries.now)) descriptor.now (past entries.now) place (record_of entry.now) }
{
    match opened_by(descriptor, place, entry) {
        Some(life) => passes_replies(duty, descriptor, life, entries),
        None => true,
    }
}

/// Whether it is so of each channel to which the duty is owed.
pub(crate) fn each_plain<'d, 'm>(
    duty: Duty<'d>,
    descriptor: &Descriptor,
    entries: &'m [Entry<'m>],
) -> bool
    ensures { result ≡ terms.passes_openings (is_done duty.entry descriptor.now (past entries.now)) descriptor.now (past entries.now) (past entries.now) }
{
    let mut all = true;
    for (place, entry) in entries.iter().enumerate() {
        all = passes_opening(duty, descriptor, entries, place, entry) & all;
    }
    all
}
