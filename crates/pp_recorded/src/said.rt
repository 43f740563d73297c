//! Whether a message of a sort was sent on a channel.

ghost use Rattle.std.specs.Prelude.{◌≡◌, ◌&&◌, nat_le};
ghost use Rattle.std.specs.List.{list_any};
ghost use Rattle.pp_traffic.specs.Past.{some_since};
ghost use Rattle.pp_recorded.specs.Entries.{past, life_of, record_of};
ghost use Rattle.pp_recorded.specs.Said as terms;

use crate::entry::{Entry, Life, bytes_of};
use crate::sorts::{Sort, has_sort};
use crate::standing::said_from;
use pp_tree::Descriptor;

/// Whether the entry says one.
pub fn says<'m>(sort: Sort, descriptor: &Descriptor, life: Life, entry: &'m Entry<'m>) -> bool
    ensures { result ≡ terms.says sort descriptor.now (life_of life) (record_of entry.now) }
{
    let start = said_from(descriptor, life, entry);
    has_sort(sort, descriptor, bytes_of(entry), start)
}

// Whether the entry at a place does, where that isn't before the opening.
fn says_at<'m>(
    sort: Sort,
    descriptor: &Descriptor,
    life: Life,
    place: usize,
    entry: &'m Entry<'m>,
) -> bool
    ensures { result ≡ (nat_le life.opening place && terms.says sort descriptor.now (life_of life) (record_of entry.now)) }
{
    life.opening <= place && says(sort, descriptor, life, entry)
}

/// Whether one was sent since the opening.
pub fn has_said<'m>(
    sort: Sort,
    descriptor: &Descriptor,
    life: Life,
    entries: &'m [Entry<'m>],
) -> bool
    ensures { result ≡ terms.has_said sort descriptor.now (past entries.now) (life_of life) }
{
    let mut found = false;
    for (place, entry) in entries.iter().enumerate() {
        found = says_at(sort, descriptor, life, place, entry) | found;
    }
    found
}
