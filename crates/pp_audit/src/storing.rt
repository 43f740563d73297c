//! Whether each chunk that a datagram brings is stored, where claims prove it (RFC 7574, sections 3.4, 3.5 and 5.6).

ghost use Rattle.std.specs.Prelude.{◌≡◌, ◌||◌, not, false, [], slice_index_or};
ghost use Rattle.pp_tree.specs.Book.{entry};
ghost use Rattle.pp_wire.specs.Views.{message_of};
ghost use Rattle.pp_recorded.specs.Claims.{known_of};
ghost use Rattle.pp_recorded.specs.Contradictions as contradictions;
ghost use Rattle.pp_recorded.specs.Entries.{past, life_of, record_of};
ghost use Rattle.pp_recorded.specs.Parts.{all};
ghost use Rattle.pp_recorded.specs.Provings as provings;
ghost use Rattle.pp_audit.specs.Storings as terms;

use crate::debts::stands;
use pp_options::Options;
use pp_recorded::claims::Claims;
use pp_recorded::contradictions::contradicts;
use pp_recorded::entry::{Entry, Life, bytes_of};
use pp_recorded::proving::proves;
use pp_recorded::reading::{first_place, is_from, message_at};
use pp_recorded::records::comes_on;
use pp_tree::{Book, Descriptor};
use pp_wire::{Message, Span};

// Whether the bytes aren't proved as the chunk, or it is held, or they contradict the book.
fn is_kept<'d, 'm>(
    claims: &Claims<'d, 'm>,
    book: &Book,
    held: &[bool],
    chunk: u64,
    content: &[u8],
) -> bool
    ensures { result ≡ (not (provings.proves claims.now.descriptor.now (known_of claims.now) chunk content.now)
        || (slice_index_or held.now chunk false
        || contradictions.contradicts claims.now.descriptor.now (entry book.now) (known_of claims.now) chunk content.now)) }
{
    let _chunks = claims.descriptor.chunks();
    if !proves(claims, chunk, content) {
        return true;
    }
    if stands(held, chunk) {
        return true;
    }
    contradicts(claims, book, chunk as u32, content)
}

// Whether a message is no chunk, or one of which that is so.
fn is_stored<'d, 'e, 'm>(
    claims: &Claims<'d, 'e>,
    book: &Book,
    held: &[bool],
    message: &'m Message<'m>,
) -> bool
    ensures { result ≡ terms.is_stored claims.now.descriptor.now (entry book.now) held.now (known_of claims.now) (message_of message.now) }
{
    match *message {
        Message::Data {
            chunk,
            bytes: content,
            ..
        } => is_kept(claims, book, held, chunk, content),
        _ => true,
    }
}

// Whether it is so of each message of a datagram that stands before a closing handshake.
fn each_stored<'d, 'm>(
    descriptor: &'d Descriptor,
    book: &Book,
    held: &[bool],
    life: Life,
    before: &'m [Entry<'m>],
    bytes: &'m [u8],
) -> bool
    ensures { result ≡ terms.each_stored (λ front m. terms.is_stored descriptor.now (entry book.now) held.now
        (terms.known_behind descriptor.now (life_of life) (past before.now) front) m) [] (all descriptor.now bytes.now) }
{
    let mut at = first_place(bytes);
    let mut count = 0;
    'messages: while let Some((message, next)) = message_at(descriptor, bytes, at) {
        if is_from(0, &message) {
            return true;
        }
        let claims = Claims {
            descriptor,
            life,
            entries: before,
            bytes,
            count,
        };
        if !is_stored(&claims, book, held, &message) {
            return false;
        }
        at = next;
        count += 1;
    }
    true
}

// Whether the entry, behind some others, brings only such chunks on the channel.
fn stores_on<'m>(
    descriptor: &Descriptor,
    book: &Book,
    held: &[bool],
    life: Life,
    before: &'m [Entry<'m>],
    newest: &'m Entry<'m>,
) -> bool
    ensures { result ≡ terms.stores_on descriptor.now (entry book.now) held.now (life_of life) (past before.now) (record_of newest.now) }
{
    if !comes_on(descriptor, life, newest) {
        return true;
    }
    each_stored(descriptor, book, held, life, before, bytes_of(newest))
}

/// Whether the newest entry does.
pub(crate) fn stores_newest<'m>(
    descriptor: &Descriptor,
    book: &Book,
    held: &[bool],
    life: Life,
    entries: &'m [Entry<'m>],
) -> bool
    ensures { result ≡ terms.stores_newest descriptor.now (entry book.now) held.now (past entries.now) (life_of life) }
{
    let count = entries.len();
    if count == 0 {
        return true;
    }
    stores_on(
        descriptor,
        book,
        held,
        life,
        &entries[..count - 1],
        &entries[count - 1],
    )
}
