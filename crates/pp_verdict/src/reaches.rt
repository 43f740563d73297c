//! How far into the traffic a channel is to be looked at.

ghost use Rattle.std.specs.Prelude.{◌≡◌, ◌≤◌, ◌++◌, ℕ, Some, map, option_to_list, Contains, MatchOption, IfOk, OnOk};
ghost use Rattle.pp_outside.specs.Outside.{address_of};
ghost use Rattle.pp_recorded.specs.Entries.{record_of};
ghost use Rattle.pp_verdict.specs.declared.reaches.SentTo as table;
ghost use Rattle.pp_verdict.specs.Chunks.{SentChunk, chunk_of};
ghost use Rattle.pp_verdict.specs.Findings.{AreAll};
ghost use Rattle.pp_verdict.specs.Reaches.{IsSentAs, HasSent, reached, AreCovered};

use crate::chunk::chunk_of;
use crate::lives::lives_of;
use pp_outside::Address;
use pp_recorded::entry::{Entry, Life};
use pp_recorded::reading::channel_of;
use pp_tree::Descriptor;
use std::alloc::{AllocError, Global};

/// A channel, and the number of entries behind which no chunk is sent to its address and number.
#[derive(Clone, Copy)]
pub(crate) struct Reach {
    pub(crate) life: Life,
    pub(crate) end: usize,
}

// A chunk that was sent: the receiver's address and channel number, and how many entries there are up to it.
#[derive(Clone, Copy)]
struct SentTo {
    address: Address,
    channel: u32,
    end: usize,
}

// The chunk that was sent by the last of so many entries.
fn sent_by<'m>(descriptor: &Descriptor, end: usize, entry: &'m Entry<'m>) -> Option<SentTo>
    ensures { (c : SentChunk) (number : ℕ) → chunk_of descriptor.now (record_of entry.now) ≡ Some c
        → c.channel ≡ Some number → MatchOption result ⊥ (λ s. IsSentAs c end s) }
{
    let chunk = chunk_of(descriptor, entry)?;
    let channel = channel_of(chunk.datagram)?;
    Some(SentTo {
        address: chunk.to,
        channel,
        end,
    })
}

// Adds an entry, where one was found.
fn add_sent(sent: &mut Vec<SentTo>, found: Option<SentTo>) -> Result<(), AllocError>
    ensures { OnOk result (sent.new.items ≡ sent.old.items ++ option_to_list found) }
{
    if let Some(one) = found {
        sent.push(one)?;
    }
    Ok(())
}

// All chunks that were sent.
fn sent_of<'m>(
    alloc: Global,
    descriptor: &Descriptor,
    entries: &'m [Entry<'m>],
) -> Result<Vec<SentTo>, AllocError>
    ensures { IfOk result (λ sent. HasSent descriptor.now entries.now sent.items) }
{
    let mut sent = Vec::new(alloc);
    for (place, entry) in entries.iter().enumerate() {
        add_sent(&mut sent, sent_by(descriptor, place + 1, entry))?;
    }
    Ok(sent)
}

// The greater one of an end and that of a chunk, where this was sent to the channel's address and number.
fn end_with(end: usize, one: SentTo, life: Life) -> usize
    ensures kept { end ≤ result }
    ensures here { address_of one.address ≡ address_of life.address → one.channel ≡ life.remote → one.end ≤ result }
{
    if one.end > end && one.channel == life.remote && one.address.is_same(life.address) {
        one.end
    } else {
        end
    }
}

// How many entries there are up to the last chunk that was sent to the channel's address and number.
fn end_of(sent: &[SentTo], life: Life) -> usize
    ensures { (s : table.SentTo) → Contains sent.now s → address_of s.address ≡ address_of life.address
        → s.channel ≡ life.remote → s.end ≤ result }
{
    let mut end = 0;
    for one in sent {
        end = end_with(end, *one, life);
    }
    end
}

/// Each channel that is open behind some entry, and others, and how far they are to be looked at.
pub(crate) fn reaches_of<'m>(
    alloc: Global,
    descriptor: &Descriptor,
    entries: &'m [Entry<'m>],
) -> Result<Vec<Reach>, AllocError>
    ensures all { IfOk result (λ reaches. AreAll descriptor.now entries.now (map reached reaches.items)) }
    ensures covered { IfOk result (λ reaches. AreCovered descriptor.now entries.now reaches.items) }
{
    let lives = lives_of(alloc, descriptor, entries)?;
    let sent = sent_of(alloc, descriptor, entries)?;
    let mut reaches = Vec::with_capacity(alloc, lives.len())?;
    for life in &lives {
        let end = end_of(&sent, *life);
        reaches.push(Reach { life: *life, end })?;
    }
    Ok(reaches)
}
