//! Recorded hashes have 32 bytes. Nothing here computes anything.

ghost use Rattle.std.specs.Prelude.{◌≡◌, true};
ghost use Rattle.std.specs.List.{list_all};
ghost use Rattle.pp_wire.specs.Views.{message_of};
ghost use Rattle.pp_recorded.specs.Entries.{past, record_of};
ghost use Rattle.pp_recorded.specs.Parts.{all};
ghost use Rattle.pp_audit.specs.Digests as terms;

use pp_options::Options;
use pp_recorded::entry::{Entry, bytes_of};
use pp_recorded::reading::{first_place, message_at};
use pp_tree::Descriptor;
use pp_wire::{Message, Span};

// The hash of a message has.
fn is_long<'m>(message: &'m Message<'m>)
    ensures { terms.is_long (message_of message.now) ≡ true }
{
    match *message {
        Message::Integrity { digest, .. } => {
            let _ = digest.bytes();
        }
        _ => {}
    }
}

// Those of a datagram have.
fn are_long(descriptor: &Descriptor, bytes: &[u8])
    ensures { list_all terms.is_long (all descriptor.now bytes.now) ≡ true }
{
    let mut at = first_place(bytes);
    'messages: while let Some((message, next)) = message_at(descriptor, bytes, at) {
        is_long(&message);
        at = next;
    }
}

// Those of an entry have.
fn entry_is_long<'m>(descriptor: &Descriptor, entry: &'m Entry<'m>)
    ensures { terms.AreLong descriptor.now (record_of entry.now) }
{
    are_long(descriptor, bytes_of(entry));
}

/// Those of all entries have.
pub(crate) fn all_are_long<'m>(descriptor: &Descriptor, entries: &'m [Entry<'m>])
    ensures { terms.AllAreLong descriptor.now (past entries.now) }
{
    for entry in entries {
        entry_is_long(descriptor, entry);
    }
}
