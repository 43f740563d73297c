//! What is to be so of each plain channel.

ghost use Rattle.std.specs.Prelude.{◌≡◌, ◌||◌, not, nat_le};
ghost use Rattle.pp_traffic.specs.Asking as asking;
ghost use Rattle.pp_promises.specs.Announced as announced;
ghost use Rattle.pp_recorded.specs.Entries.{past, life_of};
ghost use Rattle.pp_audit.specs.Asks.{may_be_served};
ghost use Rattle.pp_audit.specs.Debts as terms;
ghost use Rattle.pp_recorded.specs.Offers.{may_be_asked, asks_offered};
ghost use Rattle.pp_audit.specs.declared.debts.Debt.TheVariants as debts;
ghost use Rattle.pp_audit.specs.Duties.{is_due, duty_of, is_done};

use crate::acking::acknowledges;
use crate::asks::may_be_served;
use crate::debts::{Debt, leaves_few};
use crate::offers::{asks_offered, may_be_asked};
use crate::storing::stores_newest;
use crate::telling::tells_many;
use pp_recorded::asking::is_heard;
use pp_recorded::entry::{Entry, Life};
use pp_recorded::plain::{is_plain, is_plain_newest};
use pp_recorded::silence::keeps_up;
use pp_tree::{Book, Descriptor};

/// What is asked of a channel.
#[derive(Clone, Copy)]
pub(crate) enum Duty<'a> {
    /// It was written to lately.
    KeepsUp,
    /// Where it may be served, at most so many chunks are owed. Which chunks stood from the start.
    Serves(u64, &'a [bool]),
    /// Its peer, once it has written, was told of all that was announced in earlier turns and all that stood from the start, or
    /// of many new chunks in the last turn.
    Tells(&'a [bool]),
    /// Where it may be asked, each chunk that it offers was asked for, or is held. Which chunks are.
    Asks(&'a [bool]),
    /// Each chunk that the newest datagram brings and that claims prove is held, or contradicts the book. Which chunks are held.
    Stores(&'a Book, &'a [bool]),
    /// At the end of a quiet turn each chunk that came first in an earlier one, and that claims prove, is acknowledged, or
    /// contradicts the book.
    Acknowledges(&'a Book),
}

// Whether at most so many chunks are owed, where the channel may be served.
fn serves<'m>(
    refusals: u64,
    stood: &[bool],
    descriptor: &Descriptor,
    life: Life,
    entries: &'m [Entry<'m>],
) -> bool
    ensures { result ≡ (not (may_be_served descriptor.now (past entries.now) (life_of life))
        || terms.leaves_few refusals debts.Owed stood.now descriptor.now (past entries.now) (life_of life)) }
{
    !may_be_served(descriptor, life, entries)
        || leaves_few(refusals, Debt::Owed, stood, descriptor, life, entries)
}

// Whether the peer was told of all, or of many new chunks, once it has written.
fn tells<'m>(stood: &[bool], descriptor: &Descriptor, life: Life, entries: &'m [Entry<'m>]) -> bool
    ensures { result ≡ (not (asking.is_heard descriptor.now (life_of life) (past entries.now))
        || (terms.leaves_few 0 debts.Untold stood.now descriptor.now (past entries.now) (life_of life)
        || nat_le announced.fewest_new (announced.new_count descriptor.now (life_of life) (past entries.now)))) }
{
    !is_heard(descriptor, life, entries)
        || leaves_few(0, Debt::Untold, stood, descriptor, life, entries)
        || tells_many(descriptor, life, entries)
}

// Whether each chunk that is offered was asked for or is held, where the channel may be asked.
fn asks<'m>(held: &[bool], descriptor: &Descriptor, life: Life, entries: &'m [Entry<'m>]) -> bool
    ensures { result ≡ (not (may_be_asked descriptor.now (past entries.now) (life_of life))
        || asks_offered held.now descriptor.now (past entries.now) (life_of life)) }
{
    !may_be_asked(descriptor, life, entries) || asks_offered(held, descriptor, life, entries)
}

fn does<'d, 'm>(
    duty: Duty<'d>,
    descriptor: &Descriptor,
    life: Life,
    entries: &'m [Entry<'m>],
) -> bool
    ensures { result ≡ duty_of duty.entry descriptor.now (past entries.now) (life_of life) }
{
    match duty {
        Duty::KeepsUp => keeps_up(descriptor, life, entries),
        Duty::Serves(refusals, stood) => serves(refusals, stood, descriptor, life, entries),
        Duty::Tells(stood) => tells(stood, descriptor, life, entries),
        Duty::Asks(held) => asks(held, descriptor, life, entries),
        Duty::Stores(book, held) => stores_newest(descriptor, book, held, life, entries),
        Duty::Acknowledges(book) => acknowledges(descriptor, book, life, entries),
    }
}

// Whether the duty is owed to the channel.
fn is_due<'d, 'm>(
    duty: Duty<'d>,
    descriptor: &Descriptor,
    life: Life,
    entries: &'m [Entry<'m>],
) -> bool
    ensures { result ≡ is_due duty.entry descriptor.now (past entries.now) (life_of life) }
{
    match duty {
        Duty::Stores(_, _) => is_plain_newest(descriptor, life, entries),
        Duty::KeepsUp
        | Duty::Serves(_, _)
        | Duty::Tells(_)
        | Duty::Asks(_)
        | Duty::Acknowledges(_) => is_plain(descriptor, life, entries),
    }
}

/// Whether it is so of the channel, where it is owed to that.
pub(crate) fn is_done<'d, 'm>(
    duty: Duty<'d>,
    descriptor: &Descriptor,
    life: Life,
    entries: &'m [Entry<'m>],
) -> bool
    ensures { result ≡ is_done duty.entry descriptor.now (past entries.now) (life_of life) }
{
    !is_due(duty, descriptor, life, entries) || does(duty, descriptor, life, entries)
}
