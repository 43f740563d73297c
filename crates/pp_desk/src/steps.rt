//! What a seat makes of notes that were sent or refused.

ghost use Rattle.std.specs.Prelude.{◌≡◌, ◌+◌, ◌^◌, ◌<◌, ℕ, None, [], ◌∷◌, if◌then◌else◌};
ghost use Rattle.std.specs.List.{AllByRecursion};
ghost use Rattle.pp_terms.specs.tree.Range.{within};
ghost use Rattle.pp_requests.specs.Moments.{entry_of};
ghost use Rattle.pp_draft.specs.declared.note.Note.TheVariants.{Have};
ghost use Rattle.pp_desk.specs.Steps.{IsPlain, IsBelow, is_have, has_have, cursor_refused, AreSaid, AreRefused, Follow};
ghost use Rattle.pp_desk.specs.Delivers.{counted};

use pp_draft::Note;
use pp_ranges::ChunkRange;
use pp_seat::Seat;

/// How many datagrams were sent and how many refused, and whether a HAVE was in a refused one: then the cursor isn't behind its
/// first chunk.
#[derive(Clone, Copy, PartialEq, Eq, Debug)]
pub struct Delivered {
    pub sent: u32,
    pub refused: u32,
    pub set_back: bool,
}

// CANCELs of a range were sent.
fn said_cancel(seat: &mut Seat, range: ChunkRange)
    ensures rest { seat.new ≡ record seat.old { own = seat.new.own } }
    ensures gone { (i : ℕ) → entry_of seat.new.own i ≡ (if within range i then None else entry_of seat.old.own i) }
{
    for i in u64::from(range.first())..u64::from(range.last()) + 1 {
        seat.said_cancel(i as u32);
    }
}

// HAVEs of a range were sent.
fn said_have(seat: &mut Seat, range: ChunkRange, set_back: bool)
    requires { range.last < seat.old.told.chunks }
    ensures { (now : ℕ) → AreSaid now set_back (Have range ∷ []) seat.old seat.new }
{
    if set_back {
        return;
    }
    seat.said_have(range);
}

// A note was sent.
fn said(seat: &mut Seat, note: &Note, now: u64, set_back: bool)
    requires plain { IsPlain note.now }
    requires below { IsBelow seat.old.told.chunks note.now }
    ensures { AreSaid now set_back (note.now ∷ []) seat.old seat.new }
{
    match *note {
        Note::Choke => seat.said_choke(),
        Note::Unchoke => seat.said_unchoke(),
        Note::Have { range } => said_have(seat, range, set_back),
        Note::Request { range } => seat.said_request(range, now),
        Note::Cancel { range } => said_cancel(seat, range),
        Note::PexReq => seat.said_question(now),
        Note::Pex4 { .. } => seat.said_addresses(now),
        Note::Pex6 { .. } => seat.said_addresses(now),
        Note::KeepAlive => {}
        Note::Ack { .. } => {}
        Note::Handshake { .. } => {}
        Note::Close => {}
    }
}

/// These were sent, one after the other.
pub(crate) fn said_all(seat: &mut Seat, notes: &[Note], now: u64, set_back: bool)
    requires plain { AllByRecursion IsPlain notes.now }
    requires below { AllByRecursion (IsBelow seat.old.told.chunks) notes.now }
    ensures { AreSaid now set_back notes.now seat.old seat.new }
{
    for note in notes {
        said(seat, note, now, set_back);
    }
}

fn is_have(note: Note) -> bool
    ensures { result ≡ is_have note }
{
    matches!(note, Note::Have { .. })
}

fn has_have(notes: &[Note]) -> bool
    ensures { result ≡ has_have notes.now }
{
    notes.iter().any(|note| is_have(*note))
}

// A note was refused.
fn unsaid(seat: &mut Seat, note: &Note)
    ensures { seat.new ≡ record seat.old { cursor = cursor_refused seat.old.cursor note.now } }
{
    match *note {
        Note::Have { range } => seat.rewind(range.first()),
        _ => {}
    }
}

// These were refused.
fn unsaid_all(seat: &mut Seat, notes: &[Note])
    ensures { AreRefused notes.now seat.old seat.new }
{
    for note in notes {
        unsaid(seat, note);
    }
}

/// The seat follows what became of a datagram with these notes.
pub(crate) fn follow(
    seat: &mut Seat,
    notes: &[Note],
    now: u64,
    sent: bool,
    so_far: Delivered,
) -> Delivered
    requires plain { AllByRecursion IsPlain notes.now }
    requires below { AllByRecursion (IsBelow seat.old.told.chunks) notes.now }
    requires fits { so_far.sent + so_far.refused + 1 < 2 ^ 32 }
    ensures follows { Follow now so_far.set_back sent notes.now seat.old seat.new }
    ensures counted { result ≡ counted sent notes.now so_far }
{
    if sent {
        said_all(seat, notes, now, so_far.set_back);
        return Delivered {
            sent: so_far.sent + 1,
            ..so_far
        };
    }
    unsaid_all(seat, notes);
    Delivered {
        sent: so_far.sent,
        refused: so_far.refused + 1,
        set_back: has_have(notes) || so_far.set_back,
    }
}
