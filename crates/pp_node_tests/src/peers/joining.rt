// A seeder and a fetcher whose links are joined: what one sends comes to the other. What each link carried is audited at the end.
use super::*;
use arrayvec::ArrayVec;
use pp_audit::{
    acknowledges_all, are_whole, asks_but, chokes_none, dials_but, keeps_up_but, lets_in_but,
    plans_all, serves_but, stores_all, tells_all,
};
use pp_avail::Rank;
use pp_core::Peer;
use pp_outside::ZeroSource;
use pp_store::import;
use pp_turns::take_turns;
use std::mem::replace;

const SEEDER: Address = Address::V4([10, 0, 0, 1], 7000);

const FETCHER: Address = Address::V4([10, 0, 0, 2], 7000);

// A peer with its devices, and how many of the datagrams that it sent went on to the other.
struct End {
    alloc: Global,
    address: Address,
    peer: Peer,
    disk: MemoryDisk,
    link: MemoryLink,
    buffer: Vec<u8>,
    passed: usize,
}

// It is let go by a function of its own: a test then has to show of one call, and not of all that a peer owns, that it is safe.
impl Drop for End {
    fn drop(self) {
        let End {
            alloc: _,
            address: _,
            peer,
            disk,
            link,
            buffer: _,
            passed: _,
        } = self;
        drop_book(peer.into_book());
        drop_devices(disk, link);
    }
}

fn drop_book(_book: Book) {}

fn drop_devices(_disk: MemoryDisk, _link: MemoryLink) {}

impl End {
    fn new(
        alloc: Global,
        swarm: &Descriptor,
        address: Address,
        dial: Option<Address>,
        mut disk: MemoryDisk,
    ) -> Result<End, Fail> {
        let mut dialled = ArrayVec::new();
        let mut asks = None;
        if let Some(other) = dial {
            dialled.try_push(other)?;
            asks = Some(Rank::Sequential);
        }
        let peer = Peer::open(alloc, swarm, [0; 32], asks, &dialled, &mut disk)?;
        Ok(End {
            alloc,
            address,
            peer,
            disk,
            link: MemoryLink::new(alloc)?,
            buffer: vec![in alloc; 0; 65536]?,
            passed: 0,
        })
    }

    // Takes so many turns.
    fn turns(&mut self, count: u32) -> bool {
        if self.buffer.len() != 65536 {
            return false;
        }
        take_turns(
            &mut self.peer,
            count,
            false,
            &mut self.buffer,
            &mut self.disk,
            &mut self.link,
        )
        .is_ok()
    }

    // A datagram is to come at a moment.
    fn expects(&mut self, from: Address, at: u64, bytes: &[u8]) -> bool {
        if bytes.len() > 65536 {
            return false;
        }
        let event = Event::Datagram {
            from,
            len: bytes.len(),
            at,
        };
        self.link.add(event, bytes).is_ok()
    }

    // Nothing is to come up to a moment.
    fn expects_nothing(&mut self, at: u64) -> bool {
        self.link.add(Event::Quiet { at }, &[]).is_ok()
    }
}

// Which datagrams of an end are lost, by their numbers from 0.
#[derive(Clone, Copy)]
enum Loss {
    Nothing,
    EachFifth,
    Only(usize),
}

impl Loss {
    fn takes(self, n: usize) -> bool {
        match self {
            Loss::Nothing => false,
            Loss::EachFifth => n % 5 == 4,
            Loss::Only(lost) => n == lost,
        }
    }
}

// What one sent comes to the other, but for what is lost: how many turns it takes to hear that, and that nothing comes then.
fn passes(from: &mut End, to: &mut End, at: u64, loss: Loss) -> u32 {
    let sent = from.link.sent();
    let mut turns = 1u32;
    for n in from.passed..sent {
        if !loss.takes(n) && to.expects(from.address, at, from.link.sent_bytes(n)) {
            turns = turns.saturating_add(1);
        }
    }
    from.passed = sent;
    turns
}

// What one sent comes to the other, which takes its turns.
fn meets(from: &mut End, to: &mut End, at: u64, loss: Loss) -> bool {
    let turns = passes(from, to, at, loss);
    to.expects_nothing(at) && to.turns(turns)
}

// A store of zeros, and its swarm.
fn store_of_zeros(alloc: Global, size: u64) -> Result<(Descriptor, MemoryDisk), Fail> {
    let mut disk = MemoryDisk::new(alloc, &[])?;
    let swarm = import(1024, &mut ZeroSource::new(size), &mut disk)?;
    Ok((swarm, disk))
}

// Whether the traffic of an end is as it should be, of one where all chunks stood at the start, or none.
fn is_right(end: &End, stood: bool) -> Result<bool, Fail> {
    let entries = entries_of(end.alloc, &end.link)?;
    let swarm = end.peer.descriptor();
    let book = end.peer.book();
    Ok(
        serves(&swarm, book, &entries)
            && plans_all(&swarm, &entries)
            && are_whole(&swarm, &entries)
            && acknowledges_all(&swarm, book, &entries)
            && stores_all(&swarm, book, &[true; 7], &entries)
            && tells_all(&swarm, &[stood; 7], &entries),
    )
}

// Whether an end did what is promised where nothing is refused.
fn is_kept(end: &End, stood: bool, dialled: &[Address]) -> Result<bool, Fail> {
    let entries = entries_of(end.alloc, &end.link)?;
    let swarm = end.peer.descriptor();
    Ok(
        dials_but(0, &swarm, dialled, &entries)
            && lets_in_but(0, &swarm, &entries)
            && chokes_none(0, &swarm, &entries)
            && keeps_up_but(0, &swarm, &entries)
            && serves_but(0, &swarm, &[stood; 7], &entries)
            && asks_but(0, &swarm, &[true; 7], &entries),
    )
}

// A seeder of seven chunks, and one that fetches them from it.
#[derive(Drop)]
struct Pair {
    seeder: End,
    fetcher: End,
}

impl Pair {
    fn new(alloc: Global) -> Result<Pair, Fail> {
        let (swarm, disk) = store_of_zeros(alloc, 7000)?;
        Pair::over(alloc, &swarm, disk)
    }

    // The seeder has this disk, with a store of the swarm.
    fn over(alloc: Global, swarm: &Descriptor, disk: MemoryDisk) -> Result<Pair, Fail> {
        let seeder = End::new(alloc, swarm, SEEDER, None, disk)?;
        let empty = MemoryDisk::new(alloc, &[])?;
        let fetcher = End::new(alloc, swarm, FETCHER, Some(SEEDER), empty)?;
        Ok(Pair { seeder, fetcher })
    }

    // What each sent comes to the other, in each of some rounds, so many microseconds apart; of the seeder's datagrams and of the
    // fetcher's these are lost.
    fn meets(&mut self, rounds: u64, apart: u64, seeders: Loss, fetchers: Loss) -> bool {
        for round in 0..rounds {
            let at = round.saturating_mul(apart);
            if !meets(&mut self.seeder, &mut self.fetcher, at, seeders) {
                return false;
            }
            if !meets(&mut self.fetcher, &mut self.seeder, at, fetchers) {
                return false;
            }
        }
        true
    }

    // The fetcher has the content.
    fn has_all(&self) -> bool {
        self.fetcher.peer.committed().first_absent().is_none()
    }

    fn is_right(&self) -> Result<bool, Fail> {
        Ok(is_right(&self.seeder, true)? && is_right(&self.fetcher, false)?)
    }

    fn is_kept(&self) -> Result<bool, Fail> {
        let nobody: [Address; 0] = [];
        let seeder: [Address; 1] = [SEEDER];
        Ok(is_kept(&self.seeder, true, &nobody)? && is_kept(&self.fetcher, false, &seeder)?)
    }
}

// The link of a fetcher that fetched all of a store, and heard in each of a few rounds what the seeder had sent.
pub(super) fn whole_fetch(
    alloc: Global,
    swarm: &Descriptor,
    disk: MemoryDisk,
) -> Result<MemoryLink, Fail> {
    let mut pair = Pair::over(alloc, swarm, disk)?;
    let has_met = pair.meets(8, 100_000, Loss::Nothing, Loss::Nothing);
    if !has_met || !pair.has_all() {
        return Err("the fetch didn't end".into());
    }
    Ok(replace(&mut pair.fetcher.link, MemoryLink::new(alloc)?))
}

// What a pair showed. Whether it kept what is promised is asked of a few rounds only: to decide it over many turns takes minutes.
#[derive(Drop)]
struct Shown {
    has_all: bool,
    is_right: bool,
    is_kept: bool,
}

impl Pair {
    fn shows(&mut self, rounds: u64, apart: u64, loss: Loss) -> Result<Shown, Fail> {
        let has_met = self.meets(rounds, apart, loss, loss);
        Ok(Shown {
            has_all: has_met && self.has_all(),
            is_right: self.is_right()?,
            is_kept: rounds > 8 || self.is_kept()?,
        })
    }
}

// What a pair shows after so many rounds, so many microseconds apart.
fn meeting(alloc: Global, rounds: u64, apart: u64, loss: Loss) -> Result<Shown, Fail> {
    let mut pair = Pair::new(alloc)?;
    pair.shows(rounds, apart, loss)
}

#[test]
fn a_fetch_and_a_seeding_meet(rt: HostRuntime) -> Result<(), Fail> {
    let shown = meeting(rt.alloc(), 8, 100_000, Loss::Nothing)?;
    assert!(rt; shown.has_all);
    assert!(rt; shown.is_right);
    assert!(rt; shown.is_kept);
    Ok(())
}

#[test]
fn a_fetch_ends_where_each_fifth_datagram_is_lost(rt: HostRuntime) -> Result<(), Fail> {
    let shown = meeting(rt.alloc(), 64, 4_500_000, Loss::EachFifth)?;
    assert!(rt; shown.has_all);
    assert!(rt; shown.is_right);
    Ok(())
}

#[test]
fn all_is_kept_where_each_fifth_datagram_is_lost(rt: HostRuntime) -> Result<(), Fail> {
    let shown = meeting(rt.alloc(), 8, 4_500_000, Loss::EachFifth)?;
    assert!(rt; shown.is_right);
    assert!(rt; shown.is_kept);
    Ok(())
}

// Whether a fetch ends within 15 seconds where these datagrams are lost.
fn ends(alloc: Global, seeders: Loss, fetchers: Loss) -> Result<bool, Fail> {
    let mut pair = Pair::new(alloc)?;
    Ok(pair.meets(150, 100_000, seeders, fetchers) && pair.has_all())
}

// How many of the first datagrams of each end may be lost, one at a time: those of the seeder, and those of the fetcher.
fn may_be_lost(alloc: Global, below: usize) -> Result<(usize, usize), Fail> {
    let mut of_seeder: usize = 0;
    let mut of_fetcher: usize = 0;
    for n in 0..below {
        let seeder_ends = ends(alloc, Loss::Only(n), Loss::Nothing)?;
        of_seeder = of_seeder.saturating_add(usize::from(seeder_ends));
        let fetcher_ends = ends(alloc, Loss::Nothing, Loss::Only(n))?;
        of_fetcher = of_fetcher.saturating_add(usize::from(fetcher_ends));
    }
    Ok((of_seeder, of_fetcher))
}

// Any one of them, that behind the reply too, which shows the fetcher's address: a keep-alive goes after three seconds more.
#[test]
fn a_fetch_ends_whichever_datagram_is_lost(rt: HostRuntime) -> Result<(), Fail> {
    assert_eq!(rt; may_be_lost(rt.alloc(), 16)?, (16, 16));
    Ok(())
}
