//! Messages at a seat of four chunks. What is wanted of each was worked out by hand from RFC 7574, sections 3.2 to 3.9 and 5.3.
ghost use Rattle.pp_wire.specs.Views.{message_of};
ghost use Rattle.pp_desk.specs.Hearing.{IsNoData};

use pp_counts::Note;
use pp_desk::{hear, inside};
use pp_seat::Seat;
use pp_tree::{Digest, Node};
use pp_wire::{Message, Span};
use std::process::Abort;
use std::test::Fail;

// A message that names the chunks from `first` to `last`.
#[derive(Clone, Copy, Debug, PartialEq, Eq)]
enum Kind {
    Have,
    Ack,
    Integrity,
    Request,
    Cancel,
}

// Hears a message at moment 20. The tests need little of what this call does.
fn heard<'m>(seat: &mut Seat, message: &'m Message<'m>) -> Option<Note>
    requires { IsNoData (message_of message.now) }
{
    hear(seat, message, 20)
}

// Hears such a message, with a delay of 100 and a digest of sevens.
fn hears(seat: &mut Seat, kind: Kind, first: u64, last: u64) -> Option<Note> {
    let span = Span { first, last };
    let digest = Digest::new([7; 32]);
    match kind {
        Kind::Have => heard(seat, &Message::Have { span }),
        Kind::Ack => heard(seat, &Message::Ack { span, delay: 100 }),
        Kind::Integrity => heard(seat, &Message::Integrity { span, digest }),
        Kind::Request => heard(seat, &Message::Request { span }),
        Kind::Cancel => heard(seat, &Message::Cancel { span }),
    }
}

fn keeps_to(rt: &impl Abort, seat: &mut Seat, steps: &[(Kind, u64, u64, Option<Note>)]) {
    for (kind, first, last, want) in steps {
        assert_eq!(rt;
            hears(seat, *kind, *first, *last),
            *want,
            "{kind:?} {first} {last}"
        );
    }
}

#[test]
fn notes_what_is_not_of_the_content(rt: HostRuntime) -> Result<(), Fail> {
    let mut seat = Seat::new(rt.alloc(), 4, 1024)?;
    seat.begin(1024, true);
    let steps = [
        (Kind::Have, 4, 9, Some(Note::Outside)),
        (Kind::Ack, 4, 9, Some(Note::Outside)),
        (Kind::Integrity, 4, 9, Some(Note::Outside)),
        (Kind::Request, 4, 9, Some(Note::Outside)),
        (Kind::Cancel, 4, 9, Some(Note::Outside)),
        (Kind::Have, 3, 9, None),
        (Kind::Request, 1 << 40, 1 << 41, Some(Note::Outside)),
    ];
    keeps_to(&rt, &mut seat, &steps);
    assert_eq!(rt; seat.next(), None);
    // Claims count once the channel is proven.
    assert_eq!(rt; hears(&mut seat, Kind::Integrity, 0, 2), None);
    seat.prove();
    let steps = [
        (Kind::Integrity, 0, 1, None),
        (Kind::Integrity, 0, 2, Some(Note::NotANode)),
        (Kind::Integrity, 0, 9, None),
    ];
    keeps_to(&rt, &mut seat, &steps);
    Ok(())
}

// Whether these are the nodes that go before a chunk.
fn plans(seat: &Seat, chunk: u32, want: &[Node]) -> bool {
    chunk < seat.chunks() && seat.plan(chunk).as_slice() == want
}

// Who has chunk 0 knows the hashes of chunk 1 and of the node over chunks 2 and 3: of chunk 2 only its sibling's is lacking.
#[test]
fn a_have_and_an_ack_tell_of_hashes(rt: HostRuntime) -> Result<(), Fail> {
    for kind in [Kind::Have, Kind::Ack] {
        let mut seat = Seat::new(rt.alloc(), 4, 1024)?;
        assert!(rt; !plans(&seat, 2, &[Node::leaf(3)]));
        assert_eq!(rt; hears(&mut seat, kind, 0, 0), None);
        assert!(rt; plans(&seat, 2, &[Node::leaf(3)]));
        assert!(rt; plans(&seat, 1, &[]));
    }
    Ok(())
}

#[test]
fn lists_requests_with_a_slot(rt: HostRuntime) -> Result<(), Fail> {
    let mut seat = Seat::new(rt.alloc(), 4, 1024)?;
    assert_eq!(rt; hears(&mut seat, Kind::Request, 1, 9), Some(Note::Choked));
    seat.begin(1024, true);
    assert_eq!(rt; seat.next(), None);
    assert_eq!(rt; hears(&mut seat, Kind::Request, 1, 9), None);
    assert_eq!(rt; hears(&mut seat, Kind::Cancel, 1, 1), None);
    assert_eq!(rt; seat.next(), Some(2));
    Ok(())
}

// Every second chunk is a range of its own, and the list has room for 64.
#[test]
fn a_full_list_is_noted(rt: HostRuntime) -> Result<(), Fail> {
    let mut seat = Seat::new(rt.alloc(), 1 << 20, 1024)?;
    seat.begin(1024, true);
    for i in 0..64u64 {
        assert_eq!(rt; hears(&mut seat, Kind::Request, 2 * i, 2 * i), None, "{i}");
    }
    assert_eq!(rt; hears(&mut seat, Kind::Request, 128, 128), Some(Note::Full));
    assert_eq!(rt; hears(&mut seat, Kind::Request, 127, 130), None);
    // Two ranges would be left of the last one, and 65 in all: all of it goes.
    assert_eq!(rt; hears(&mut seat, Kind::Cancel, 128, 128), Some(Note::Full));
    assert_eq!(rt; hears(&mut seat, Kind::Request, 128, 128), None);
    Ok(())
}

// Asks for chunks 0 and 1.
fn ask(seat: &mut Seat) -> bool {
    match inside(Span { first: 0, last: 1 }, seat.chunks()) {
        Some(range) => {
            seat.said_request(range, 5);
            true
        }
        None => false,
    }
}

// Asks for chunks 0 and 1, and hears a message. Answers whether the seat may ask, and how many chunks more.
fn asks<'m>(seat: &mut Seat, message: &'m Message<'m>) -> Option<(bool, u32)>
    requires { IsNoData (message_of message.now) }
{
    if !ask(seat) {
        return None;
    }
    heard(seat, message);
    Some((seat.may_ask(), seat.room()))
}

#[test]
fn a_choke_ends_the_own_requests(rt: HostRuntime) -> Result<(), Fail> {
    let mut seat = Seat::new(rt.alloc(), 4, 1024)?;
    assert_eq!(rt; asks(&mut seat, &Message::PexReq), Some((true, 30)));
    assert_eq!(rt; asks(&mut seat, &Message::Choke), Some((false, 32)));
    assert_eq!(rt; asks(&mut seat, &Message::Unchoke), Some((true, 30)));
    Ok(())
}
