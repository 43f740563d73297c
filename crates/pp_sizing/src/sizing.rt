//! The turns of a learner.

ghost use Rattle.std.specs.Prelude.{◌≡◌, ◌≤◌, length, IfOk, List, ℕ};
ghost use Rattle.pp_terms.specs.disk.Disk.{moment_of};
ghost use Rattle.pp_terms.specs.format.Traffic.{LinkState};
ghost use Rattle.pp_outside.specs.Outside.{size_of, FitsIn, DoesNext};
ghost use Rattle.pp_outside.specs.declared.link.Address.{Address};
ghost use Rattle.pp_targets.specs.declared.target.SwarmName.{SwarmName};
ghost use Rattle.pp_learner.specs.Flushing.{Closes};
ghost use Rattle.pp_learner.specs.Learners.{opened};
ghost use Rattle.pp_sizing.specs.Sizing.{LearnsSize, scene};
ghost use Rattle.pp_sizing.specs.Turning.{Hears, TakesTurn};

use pp_learner::Learner;
use pp_outside::{Disk, Event, Link, LinkFault};
use pp_tree::Descriptor;

/// What was learned: the descriptor of the content, and how many of the turns are left.
#[derive(Clone, Copy, Debug, PartialEq, Eq)]
pub struct Lesson {
    pub descriptor: Descriptor,
    pub left: u32,
}

/// Takes turns, each of which waits at most `limit_us` microseconds, until a datagram tells the size of the content, or so many were
/// taken; then closes the channels. In the turn in which the size is told nothing else is sent. A wait that the link refuses is counted,
/// and what is due is sent then too. The buffer has 65,536 bytes, room for any datagram. Answers None where no size was told.
pub fn learn_size<D: Disk, L: Link>(
    learner: &mut Learner,
    turns: u32,
    limit_us: u64,
    buffer: &mut [u8],
    disk: &D,
    link: &mut L,
) -> Option<Lesson>
    requires room { length buffer.old ≡ 65536 }
    ensures { (name : SwarmName) (seed : List ℕ) (dial : List Address) → learner.old ≡ opened name seed dial → length dial ≤ 16
        → LearnsSize turns dial (scene learner.old (L.seen link.old)) (scene learner.new (L.seen link.new)) result }
{
    let mut taken = 0;
    while taken < turns {
        taken += 1;
        if let Some(descriptor) = take_turn(learner, limit_us, buffer, disk, link) {
            learner.close(disk, link);
            return Some(Lesson {
                descriptor,
                left: turns - taken,
            });
        }
    }
    learner.close(disk, link);
    None
}

// Waits once and takes what came; unless that told the size, sends what is due.
fn take_turn<D: Disk, L: Link>(
    learner: &mut Learner,
    limit_us: u64,
    buffer: &mut [u8],
    disk: &D,
    link: &mut L,
) -> Option<Descriptor>
    requires room { length buffer.old ≡ 65536 }
    ensures { TakesTurn (moment_of (D.state disk.now).history) (scene learner.old (L.seen link.old)) (scene learner.new (L.seen link.new)) result }
{
    let came = link.next(limit_us, buffer);
    let told = hear(learner, came, buffer);
    if told.is_none() {
        learner.flush(disk, link);
    }
    told
}

// Takes what a wait came to: the event, whose bytes are at the front of the buffer; a wait that the link refused is counted.
fn hear(learner: &mut Learner, came: Result<Event, LinkFault>, buffer: &[u8]) -> Option<Descriptor>
    requires room { length buffer.now ≡ 65536 }
    requires fits { IfOk came (λ event. FitsIn event buffer.now) }
    // Over each link on which that was what a wait came to it is the first half of a turn.
    ensures { (old new : LinkState) → DoesNext old buffer.now came new → Hears (scene learner.old old) (scene learner.new new) result }
{
    match came {
        Ok(event) => learner.absorb(&event, &buffer[..size(&event)]),
        Err(_) => {
            learner.refused();
            None
        }
    }
}

// How many bytes of the buffer are the event's.
fn size(event: &Event) -> usize
    ensures { result ≡ size_of event.now }
{
    match *event {
        Event::Datagram { len, .. } => len,
        Event::Quiet { .. } => 0,
    }
}
