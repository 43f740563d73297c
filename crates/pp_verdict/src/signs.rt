//! What has come to pass on a channel.

ghost use Rattle.std.specs.Prelude.{◌≡◌, ◌↔◌, ◌∷◌, [], List, length, IsTrue};
ghost use Rattle.pp_terms.specs.format.Descriptor as descriptors;
ghost use Rattle.pp_terms.specs.format.Traffic.{Record};
ghost use Rattle.pp_traffic.specs.Life as lives;
ghost use Rattle.pp_traffic.specs.Life.{IsLife};
ghost use Rattle.pp_recorded.specs.Entries.{life_of, record_of};
ghost use Rattle.pp_verdict.specs.Courses.{Shows};

use pp_recorded::entry::{Entry, Life};
use pp_recorded::lives::{is_closing, is_opening, is_since};
use pp_recorded::records::Kind;
use pp_tree::Descriptor;

/// Whether each of the two handshakes was seen since the channel's opening and one of them there, whether a datagram came
/// from the peer to this peer's number, one with a handshake in front, and whether one closed the channel (RFC 7574,
/// sections 3.1.1 and 8.2 to 8.4).
#[derive(Clone, Copy)]
pub(crate) struct Signs {
    greeted: bool,
    answered: bool,
    opened: bool,
    pub(crate) heard: bool,
    shaken: bool,
    closed: bool,
}

impl Signs {
    /// Nothing has.
    pub(crate) fn none() -> Signs
        ensures { (d : descriptors.Descriptor) (life : lives.Life) → Shows result d life [] }
    {
        Signs {
            greeted: false,
            answered: false,
            opened: false,
            heard: false,
            shaken: false,
            closed: false,
        }
    }

    /// Behind the entry at a place.
    pub(crate) fn after<'m>(
        self,
        descriptor: &Descriptor,
        life: Life,
        place: usize,
        entry: &'m Entry<'m>,
    ) -> Signs
        ensures { (past : List Record) → length past ≡ place → Shows self descriptor.now (life_of life) past
            → Shows result descriptor.now (life_of life) (record_of entry.now ∷ past) }
    {
        let opening = life.opening;
        Signs {
            greeted: is_since(Kind::Greets, descriptor, life, opening, place, entry) | self.greeted,
            answered: is_since(Kind::Answers, descriptor, life, opening, place, entry)
                | self.answered,
            opened: is_opening(descriptor, life, place, entry) | self.opened,
            heard: is_since(Kind::ComesOn, descriptor, life, opening, place, entry) | self.heard,
            shaken: is_since(Kind::ShakesOn, descriptor, life, opening, place, entry) | self.shaken,
            closed: is_closing(descriptor, life, place, entry, self.shaken) | self.closed,
        }
    }

    /// Whether the channel is open.
    pub(crate) fn is_open(self, life: Life) -> bool
        ensures { (d : descriptors.Descriptor) (past : List Record) → Shows self d (life_of life) past
            → IsTrue result ↔ IsLife d (life_of life) past }
    {
        life.local > 0
            && life.remote > 0
            && self.greeted
            && self.answered
            && self.opened
            && !self.closed
    }
}
