//! Whether each chunk that came first is acknowledged by a quiet turn (RFC 7574, section 3.3).

ghost use Rattle.std.specs.Prelude.{◌≡◌, ◌||◌, [], take};
ghost use Rattle.pp_traffic.specs.Story.{story};
ghost use Rattle.pp_promises.specs.Announced as announced;
ghost use Rattle.pp_promises.specs.LastTurn.{last_event, is_quiet};
ghost use Rattle.pp_tree.specs.Book.{entry};
ghost use Rattle.pp_wire.specs.Views.{message_of};
ghost use Rattle.pp_recorded.specs.Claims.{known_of};
ghost use Rattle.pp_recorded.specs.Entries.{past, life_of, record_of};
ghost use Rattle.pp_recorded.specs.Parts.{all};
ghost use Rattle.pp_audit.specs.Storings.{known_behind, each_stored};
ghost use Rattle.pp_audit.specs.Acknowledgements as terms;

use crate::turns::earlier;
use pp_options::Options;
use pp_recorded::claims::Claims;
use pp_recorded::contradictions::contradicts;
use pp_recorded::entry::{Entry, Life, bytes_of};
use pp_recorded::marks::{Mark, some_marked};
use pp_recorded::plain::is_plain_newest;
use pp_recorded::proving::proves;
use pp_recorded::reading::{first_place, is_from, message_at};
use pp_recorded::records::comes_on;
use pp_recorded::said::has_said;
use pp_recorded::sorts::{Sort, has_sort_in_front};
use pp_tree::{Book, Descriptor};
use pp_wire::{Message, Span};

// Whether an ACK of the chunk was sent on the channel.
#[tactic(auto, using(pp_recorded::proofs::Sayings::acknowledged_said))]
fn is_acknowledged<'m>(
    descriptor: &Descriptor,
    life: Life,
    entries: &'m [Entry<'m>],
    chunk: u64,
) -> bool
    ensures { result ≡ announced.is_acknowledged chunk (story descriptor.now (life_of life) (past entries.now)) }
{
    has_said(Sort::AckOf(chunk), descriptor, life, entries)
}

// Whether the bytes aren't proved as the chunk, or contradict the book, or it came before.
fn is_excused<'d, 'm>(claims: &Claims<'d, 'm>, book: &Book, chunk: u64, content: &[u8]) -> bool
    ensures { result ≡ terms.is_excused claims.now.descriptor.now (entry book.now) (past claims.now.entries.now) (known_of claims.now)
        (take claims.now.count (all claims.now.descriptor.now claims.now.bytes.now)) chunk content.now }
{
    let _chunks = claims.descriptor.chunks();
    if !proves(claims, chunk, content) {
        return true;
    }
    if contradicts(claims, book, chunk as u32, content) {
        return true;
    }
    some_marked(Mark::Brings(chunk), claims.descriptor, claims.entries)
        || has_sort_in_front(
            Sort::DataOf(chunk),
            claims.descriptor,
            claims.bytes,
            claims.count,
        )
}

// Whether it is so, or the chunk is acknowledged by the end of the entries.
fn is_settled<'d, 'e>(
    claims: &Claims<'d, 'e>,
    book: &Book,
    entries: &'e [Entry<'e>],
    chunk: u64,
    content: &[u8],
) -> bool
    ensures { result ≡ (terms.is_excused claims.now.descriptor.now (entry book.now) (past claims.now.entries.now) (known_of claims.now)
        (take claims.now.count (all claims.now.descriptor.now claims.now.bytes.now)) chunk content.now
        || announced.is_acknowledged chunk (story claims.now.descriptor.now (life_of claims.now.life) (past entries.now))) }
{
    is_excused(claims, book, chunk, content)
        || is_acknowledged(claims.descriptor, claims.life, entries, chunk)
}

// Whether a message is no chunk, or one of which that is so.
fn is_acked<'d, 'e, 'm>(
    claims: &Claims<'d, 'e>,
    book: &Book,
    entries: &'e [Entry<'e>],
    message: &'m Message<'m>,
) -> bool
    ensures { result ≡ terms.is_acked claims.now.descriptor.now (entry book.now)
        (λ i. announced.is_acknowledged i (story claims.now.descriptor.now (life_of claims.now.life) (past entries.now)))
        (past claims.now.entries.now) (known_of claims.now) (take claims.now.count (all claims.now.descriptor.now claims.now.bytes.now)) (message_of message.now) }
{
    match *message {
        Message::Data {
            chunk,
            bytes: content,
            ..
        } => is_settled(claims, book, entries, chunk, content),
        _ => true,
    }
}

// Whether it is so of each message of a datagram that stands before a closing handshake.
fn each_acked<'d, 'm>(
    descriptor: &'d Descriptor,
    book: &Book,
    life: Life,
    before: &'m [Entry<'m>],
    bytes: &'m [u8],
    entries: &'m [Entry<'m>],
) -> bool
    ensures { result ≡ each_stored (λ front m. terms.is_acked descriptor.now (entry book.now)
        (λ i. announced.is_acknowledged i (story descriptor.now (life_of life) (past entries.now))) (past before.now)
        (known_behind descriptor.now (life_of life) (past before.now) front) front m) [] (all descriptor.now bytes.now) }
{
    let mut at = first_place(bytes);
    let mut count = 0;
    'messages: while let Some((message, next)) = message_at(descriptor, bytes, at) {
        if is_from(0, &message) {
            return true;
        }
        let claims = Claims {
            descriptor,
            life,
            entries: before,
            bytes,
            count,
        };
        if !is_acked(&claims, book, entries, &message) {
            return false;
        }
        at = next;
        count += 1;
    }
    true
}

// Whether the entry, behind some others, brings only such chunks on the channel.
fn acks_on<'m>(
    descriptor: &Descriptor,
    book: &Book,
    life: Life,
    before: &'m [Entry<'m>],
    newest: &'m Entry<'m>,
    entries: &'m [Entry<'m>],
) -> bool
    ensures { result ≡ terms.acks_on descriptor.now (entry book.now)
        (λ i. announced.is_acknowledged i (story descriptor.now (life_of life) (past entries.now))) (life_of life) (past before.now) (record_of newest.now) }
{
    if !comes_on(descriptor, life, newest) {
        return true;
    }
    each_acked(descriptor, book, life, before, bytes_of(newest), entries)
}

// Whether the newest of some entries does, where the channel is plain up to it.
fn acks_newest<'m>(
    descriptor: &Descriptor,
    book: &Book,
    life: Life,
    reach: &'m [Entry<'m>],
    entries: &'m [Entry<'m>],
) -> bool
    ensures { result ≡ terms.acks_newest descriptor.now (entry book.now)
        (λ i. announced.is_acknowledged i (story descriptor.now (life_of life) (past entries.now))) (life_of life) (past reach.now) }
{
    let count = reach.len();
    if count == 0 {
        return true;
    }
    let newest = &reach[count - 1];
    let before = &reach[..count - 1];
    !is_plain_newest(descriptor, life, reach)
        || acks_on(descriptor, book, life, before, newest, entries)
}

// Whether each of some entries does.
fn acks_each<'m>(
    descriptor: &Descriptor,
    book: &Book,
    life: Life,
    some: &'m [Entry<'m>],
    entries: &'m [Entry<'m>],
) -> bool
    ensures { result ≡ terms.acks_each descriptor.now (entry book.now)
        (λ i. announced.is_acknowledged i (story descriptor.now (life_of life) (past entries.now))) (life_of life) (past some.now) }
{
    let mut all = true;
    for place in 0..some.len() {
        all = acks_newest(descriptor, book, life, &some[..place + 1], entries) & all;
    }
    all
}

// Whether the last turn is quiet behind the entry.
fn quiet_by<'m>(entry: &'m Entry<'m>, quiet: bool) -> bool
    ensures { result ≡ terms.quiet_by (record_of entry.now) quiet }
{
    match *entry {
        Entry::Received { .. } => false,
        Entry::Quiet { .. } => true,
        Entry::Sent { .. } => quiet,
    }
}

// Whether the last turn began with a wait in which nothing came.
fn is_quiet<'m>(entries: &'m [Entry<'m>]) -> bool
    ensures { result ≡ is_quiet (last_event (past entries.now)) }
{
    let mut quiet = false;
    for entry in entries {
        quiet = quiet_by(entry, quiet);
    }
    quiet
}

/// Whether at the end of a quiet turn each chunk that came first on the channel in an earlier turn, while that was plain, is
/// acknowledged, if claims prove it and it doesn't contradict the book.
pub(crate) fn acknowledges<'m>(
    descriptor: &Descriptor,
    book: &Book,
    life: Life,
    entries: &'m [Entry<'m>],
) -> bool
    ensures { result ≡ terms.acknowledges descriptor.now (entry book.now) (past entries.now) (life_of life) }
{
    !is_quiet(entries) || acks_each(descriptor, book, life, earlier(entries), entries)
}
