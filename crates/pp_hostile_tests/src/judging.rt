//! Whether what a link carried is as it should be, by the programs that decide the definitions.

use crate::side::Side;
use pp_audit::{
    Entry, acknowledges_all, are_whole, chokes_none, keeps_up_but, lets_in_but, plans_all, serves,
    serves_but, stores_all, tells_all,
};
use pp_outside::{Mark, MemoryLink};
use std::alloc::{AllocError, Global};

// What the link carried.
fn entries_of<'m>(alloc: Global, link: &'m MemoryLink) -> Result<Vec<Entry<'m>>, AllocError> {
    let mut entries = Vec::new(alloc);
    for n in 0..link.marks() {
        let bytes = link.mark_bytes(n);
        entries.push(match link.mark(n) {
            Mark::Received { at, from } => Entry::Received { at, from, bytes },
            Mark::Quiet { at } => Entry::Quiet { at },
            Mark::Sent { moment, to } => Entry::Sent { moment, to, bytes },
        })?;
    }
    Ok(entries)
}

/// Whether each chunk that was sent was served, by the book, behind its plan, in datagrams that are whole.
pub(crate) fn is_served(side: &Side) -> Result<bool, AllocError> {
    let entries = entries_of(side.alloc, &side.link)?;
    let swarm = side.peer.descriptor();
    let book = side.peer.book();
    Ok(serves(&swarm, book, &entries) && plans_all(&swarm, &entries) && are_whole(&swarm, &entries))
}

/// Whether what came was stored, acknowledged and told. All chunks stood at the start, or none; these are held now.
pub(crate) fn is_told(side: &Side, stood: bool, held: &[bool; 7]) -> Result<bool, AllocError> {
    let entries = entries_of(side.alloc, &side.link)?;
    let swarm = side.peer.descriptor();
    let book = side.peer.book();
    Ok(
        acknowledges_all(&swarm, book, &entries)
            && stores_all(&swarm, book, held, &entries)
            && tells_all(&swarm, &[stood; 7], &entries),
    )
}

/// Whether newcomers were let in and not choked, channels were kept up, and nothing that could be sent was left.
pub(crate) fn is_kept(side: &Side, stood: bool) -> Result<bool, AllocError> {
    let entries = entries_of(side.alloc, &side.link)?;
    let swarm = side.peer.descriptor();
    Ok(
        lets_in_but(0, &swarm, &entries)
            && chokes_none(0, &swarm, &entries)
            && keeps_up_but(0, &swarm, &entries)
            && serves_but(0, &swarm, &[stood; 7], &entries),
    )
}
