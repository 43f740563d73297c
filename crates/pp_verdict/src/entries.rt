//! The records of a recording with their datagrams.

ghost use Rattle.std.specs.Prelude.{◌≡◌, length, map, IfOk};
ghost use Rattle.pp_recorded.specs.Entries.{record_of, past};
ghost use Rattle.pp_recording.specs.State as terms;
ghost use Rattle.pp_recording.specs.State.{LiesIn, IsWhole, records_of};

use pp_recorded::entry::Entry;
use pp_recording::Recording;
use std::alloc::{AllocError, Global};

// A record with its datagram.
fn entry_in<'m>(bytes: &'m [u8], entry: &pp_recording::Entry) -> Entry<'m>
    requires { LiesIn entry.now (length bytes.now) }
    ensures { record_of result ≡ terms.record_of bytes.now entry.now }
{
    match *entry {
        pp_recording::Entry::Received {
            at,
            from,
            start,
            len,
        } => Entry::Received {
            at,
            from,
            bytes: &bytes[start..start + len],
        },
        pp_recording::Entry::Quiet { at } => Entry::Quiet { at },
        pp_recording::Entry::Sent {
            moment,
            to,
            start,
            len,
        } => Entry::Sent {
            moment,
            to,
            bytes: &bytes[start..start + len],
        },
    }
}

/// The records, the oldest first.
pub(crate) fn entries_of<'m>(
    alloc: Global,
    recording: &'m Recording,
) -> Result<Vec<Entry<'m>>, AllocError>
    ensures records { IfOk result (λ entries.
        past entries.items ≡ records_of recording.now.bytes recording.now.entries) }
    ensures whole { IsWhole recording.now }
{
    let count = recording.count();
    let bytes = recording.bytes();
    let mut entries = Vec::with_capacity(alloc, count)?;
    for n in 0..count {
        entries.push(entry_in(bytes, recording.entry(n)))?;
    }
    Ok(entries)
}
