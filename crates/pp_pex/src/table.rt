// The table of the addresses that were heard.
ghost use Rattle.std.specs.Prelude.{◌≡◌, ℕ, ◌<◌, ◌++◌, [], ◌∷◌, length, take, if◌then◌else◌};
ghost use Rattle.pp_pex.specs.Exchange.{place_of, IsOldest, Hears, is_told, answers};

use arrayvec::ArrayVec;
use pp_outside::Address;

/// How many addresses the table has room for.
pub(crate) const MOST_HEARD: usize = 64;

/// How many addresses an answer has room for.
const MOST_TOLD: usize = 16;

// How long an address is told after it was heard, in microseconds.
const LATELY: u64 = 60_000_000;

/// An address, and the moment in microseconds when it was last heard.
#[derive(Clone, Copy, Default)]
pub struct Contact {
    pub address: Address,
    pub moment: u64,
}

/// The place of an address.
pub(crate) fn place_of(table: &[Contact], address: Address) -> Option<usize>
    ensures { result ≡ place_of table.now address }
{
    table
        .iter()
        .position(|contact| contact.address.is_same(address))
}

/// The place of the one that was heard longest ago, the earliest of those that were heard at one moment.
pub(crate) fn oldest(table: &[Contact]) -> usize
    requires { 0 < length table.now }
    ensures { IsOldest table.now result }
{
    let mut best = 0;
    for place in 1..table.len() {
        if table[place].moment < table[best].moment {
            best = place;
        }
    }
    best
}

/// Notes that an address was heard.
pub(crate) fn hear(table: &mut ArrayVec<Contact, MOST_HEARD>, address: Address, now: u64)
    ensures { Hears table.old.items address now table.new.items }
{
    let contact = Contact {
        address,
        moment: now,
    };
    if let Some(place) = place_of(table, address) {
        table.as_mut_slice()[place] = contact;
        return;
    }
    if table.is_full() {
        let place = oldest(table);
        table.as_mut_slice()[place] = contact;
        return;
    }
    table.push(contact);
}

fn is_told(contact: Contact, asker: Address, now: u64) -> bool
    ensures { result ≡ is_told asker now contact }
{
    now.saturating_sub(contact.moment) < LATELY && !contact.address.is_same(asker)
}

// Tells a contact too, where it is to be told and there is room.
fn tell(told: &mut ArrayVec<Address, MOST_TOLD>, contact: Contact, asker: Address, now: u64)
    ensures { told.new.items ≡ (if is_told asker now contact then take 16 (told.old.items ++ contact.address ∷ []) else told.old.items) }
{
    if !is_told(contact, asker, now) {
        return;
    }
    if told.is_full() {
        return;
    }
    told.push(contact.address);
}

/// The first 16 addresses that were heard in the last 60 seconds, but the asker's, in the table's order.
pub(crate) fn answer(table: &[Contact], asker: Address, now: u64) -> ArrayVec<Address, MOST_TOLD>
    ensures { result.items ≡ answers table.now asker now }
{
    let mut told = ArrayVec::new();
    for contact in table {
        tell(&mut told, *contact, asker, now);
    }
    told
}
