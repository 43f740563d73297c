//! A wait over a link in memory, for what is to come.
ghost use Rattle.std.specs.Prelude.{◌≡◌, ◌≤◌, ◌↔◌, [], length, IfOk, OnOk, OnErr, IsErr, IsTrue};
ghost use Rattle.pp_outside.specs.MemoryLink.{arrivals_of, is_ordered, is_short};
ghost use Rattle.pp_watch.specs.Waiting.{FitsBuffer, HasExpected, HasWaited};

use pp_outside::{Address, Call, Event, Link, LinkFault, MemoryLink};
use std::alloc::AllocError;

// How long a wait lasts, in microseconds.
const LIMIT_US: u64 = 100_000;

// What is to come next over a link.
fn expect(link: &mut MemoryLink, at: u64, came: Option<(Address, &[u8])>) -> Result<(), AllocError>
    requires { FitsBuffer came }
    ensures ok { OnOk result (HasExpected at came.entry link.old link.new) }
    ensures err { OnErr result (IsTrue (is_short link.new)) }
{
    match came {
        Some((from, bytes)) => {
            let len = bytes.len();
            link.add(Event::Datagram { from, len, at }, bytes)
        }
        None => link.add(Event::Quiet { at }, &[]),
    }
}

/// Waits once over a link over which nothing is to come, at a moment of its clock in microseconds: what comes is a datagram with its
/// sender, or nothing. Where the next wait is ordered to fail, as `is_deaf` says, it does, and nothing comes.
pub fn wait(
    link: &mut MemoryLink,
    is_deaf: bool,
    clock: u64,
    came: Option<(Address, &[u8])>,
    buffer: &mut [u8],
) -> Result<Result<Event, LinkFault>, AllocError>
    requires idle { (arrivals_of link.old).coming ≡ [] }
    requires deaf { is_ordered link.old Call.Next ≡ is_deaf }
    requires fits { FitsBuffer came }
    requires room { 65536 ≤ length buffer.old }
    ensures waited { IfOk result (HasWaited is_deaf clock came.entry link.old link.new buffer.new) }
    // The error comes exactly where a call of the link found no memory, now or before.
    ensures short { IsErr result ↔ IsTrue (is_short link.new) }
{
    if !is_deaf {
        expect(link, clock, came)?;
    }
    let event = link.next(LIMIT_US, buffer);
    if link.short() {
        return Err(AllocError);
    }
    Ok(event)
}
