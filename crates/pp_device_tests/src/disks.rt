// Disks: in memory, one that lies, one that fails from some call on, and one that keeps nothing.
use pp_outside::{Call, Disk, FuseDisk, LyingDisk, MemoryDisk, NullDisk};
use std::alloc::Global;
use std::test::*;

const PLACES: u64 = 1 << 40;

fn attaches(disk: &mut impl Disk) -> bool {
    disk.attach("store").is_ok()
}

// Whether it is so long.
fn has_len(disk: &mut impl Disk, want: u64) -> bool {
    match disk.len() {
        Ok(len) => len == want,
        Err(_) => false,
    }
}

// Whether these bytes are written at a place.
fn writes(disk: &mut impl Disk, place: u64, bytes: &[u8]) -> bool {
    place < PLACES && (bytes.len() as u64) < PLACES - place && disk.write_at(place, bytes).is_ok()
}

// Whether a reading of four bytes from a place on is not refused, and gives these.
fn reads(disk: &mut impl Disk, place: u64, want: [u8; 4]) -> bool {
    let mut into = [0xee; 4];
    place < PLACES - 4 && disk.read_at(place, &mut into).is_ok() && into == want
}

// Whether a reading is refused, and leaves the buffer.
fn refuses_reading(disk: &mut impl Disk) -> bool {
    let mut into = [0xee; 4];
    disk.read_at(0, &mut into).is_err() && into == [0xee; 4]
}

fn syncs(disk: &mut impl Disk) -> bool {
    disk.sync().is_ok()
}

// Whether a call of some kind is not refused.
fn succeeds(disk: &mut impl Disk, call: Call) -> bool {
    match call {
        Call::Attach => attaches(disk),
        Call::Len => disk.len().is_ok(),
        Call::Read => !refuses_reading(disk),
        Call::Write => writes(disk, 0, &[1]),
        Call::Sync => syncs(disk),
        Call::Bind | Call::Next | Call::Send => true,
    }
}

// Whether a check holds of a disk in memory that begins with these bytes.
fn holds(alloc: Global, image: &[u8], check: fn(&mut MemoryDisk) -> bool) -> bool
    requires { IsAlwaysCallable check }
{
    match MemoryDisk::new(alloc, image) {
        Ok(mut disk) => check(&mut disk),
        Err(_) => false,
    }
}

// Six bytes are settled.
fn settle_six(disk: &mut MemoryDisk) -> bool {
    writes(disk, 0, &[10, 11, 12, 13, 14, 15]) && syncs(disk)
}

// Three writes are pending that overlap; the second is refused.
fn write_three(disk: &mut MemoryDisk) -> bool {
    let first = writes(disk, 1, &[1, 2, 3]);
    disk.fail_next(Call::Write);
    first && !writes(disk, 3, &[4, 5, 6, 7]) && writes(disk, 2, &[8, 9])
}

// Whether it has these bytes, at this moment, after so many calls that changed what is on it, and never ran short of memory.
fn has(disk: &MemoryDisk, bytes: &[u8], moment: u64, calls: usize) -> bool {
    disk.bytes() == bytes && disk.moment() == moment && disk.calls() == calls && !disk.short()
}

// Whether a crash leaves this image, which is then the only one.
fn leaves(disk: &mut MemoryDisk, pick: u64, image: &[u8]) -> bool {
    disk.crash(pick);
    let left = disk.bytes() == image;
    disk.crash(2);
    left && has(disk, image, 3, 7)
}

// Whether the pick of a crash leaves this image of the six bytes and the three writes.
fn leaves_by_pick(disk: &mut MemoryDisk, pick: u64, image: &[u8]) -> bool {
    settle_six(disk)
        && write_three(disk)
        && has(disk, &[10, 1, 8, 9, 14, 15], 1, 5)
        && leaves(disk, pick, image)
}

// The bytes that each pick leaves.
const LEFT: [(u64, &[u8]); 6] = [
    (0, &[10, 11, 12, 13, 14, 15]),
    (1, &[10, 1, 8, 9, 5, 6, 7]),
    (2, &[10, 0xa5, 8, 9, 14, 15]),
    (3, &[10, 11, 0xa5, 0xa5, 5, 6, 7]),
    (4, &[10, 1, 2, 0xa5, 0xa5, 0xa5, 0xa5]),
    (5, &[10, 0xa5, 8, 9, 14, 15]),
];

fn leaves_of_new(alloc: Global, pick: u64, image: &[u8]) -> bool {
    match MemoryDisk::new(alloc, &[9, 9, 9]) {
        Ok(mut disk) => leaves_by_pick(&mut disk, pick, image),
        Err(_) => false,
    }
}

// How many picks leave these, before one that doesn't.
fn picks_left(alloc: Global) -> u8 {
    let mut right: u8 = 0;
    for (pick, image) in LEFT {
        if !leaves_of_new(alloc, pick, image) {
            return right;
        }
        right = right.saturating_add(1);
    }
    right
}

#[test]
fn crashes_leave_what_the_pick_says(rt: HostRuntime) {
    assert_eq!(rt; picks_left(rt.alloc()), 6);
}

fn has_a_gap(disk: &mut MemoryDisk) -> bool {
    writes(disk, 3, &[7, 8])
        && disk.bytes() == [5, 0, 0, 7, 8].as_slice()
        && has_len(disk, 5)
        && reads(disk, 2, [0, 7, 8, 0])
        && reads(disk, 100, [0; 4])
}

#[test]
fn a_gap_is_zeros(rt: HostRuntime) {
    assert!(rt; holds(rt.alloc(), &[5], has_a_gap));
}

const CALLS: [Call; 5] = [Call::Attach, Call::Len, Call::Read, Call::Write, Call::Sync];

// Does one call of each kind: whether that of the kind named passes or not, as it says, and all others pass.
fn one_of_each(disk: &mut impl Disk, kind: Call, passes: bool) -> bool {
    for call in CALLS {
        if succeeds(disk, call) != (passes || call != kind) {
            return false;
        }
    }
    true
}

fn fails_once(disk: &mut MemoryDisk, ordered: Call) -> bool {
    disk.fail_next(ordered);
    disk.fail_next(Call::Send);
    one_of_each(disk, ordered, false) && succeeds(disk, ordered)
}

fn each_fails_once(disk: &mut MemoryDisk) -> bool {
    for ordered in CALLS {
        if !fails_once(disk, ordered) {
            return false;
        }
    }
    true
}

#[test]
fn each_ordered_call_fails_once(rt: HostRuntime) {
    assert!(rt; holds(rt.alloc(), &[1], each_fails_once));
}

fn fails_third_write(disk: &mut MemoryDisk) -> bool {
    disk.fail_after(Call::Write, 2);
    disk.fail_after(Call::Send, 0);
    for passes in [true, true, false, true, true] {
        if !one_of_each(disk, Call::Write, passes) {
            return false;
        }
    }
    !disk.short()
}

#[test]
fn the_third_write_fails(rt: HostRuntime) {
    assert!(rt; holds(rt.alloc(), &[1], fails_third_write));
}

// Whether calls of a kind pass or not, as it says of each.
fn passes_as(disk: &mut impl Disk, kind: Call, passes: [bool; 6]) -> bool {
    for pass in passes {
        if succeeds(disk, kind) != pass {
            return false;
        }
    }
    true
}

// The later order is in place of the one that waits, and those of two kinds wait apart.
fn waits_apart(disk: &mut MemoryDisk) -> bool {
    disk.fail_after(Call::Len, 5);
    disk.fail_after(Call::Len, 1);
    disk.fail_next(Call::Read);
    refuses_reading(disk)
        && passes_as(disk, Call::Len, [true, false, true, true, true, true])
        && !disk.short()
}

#[test]
fn two_kinds_wait_apart(rt: HostRuntime) {
    assert!(rt; holds(rt.alloc(), &[1], waits_apart));
}

// Whether a write and a sync pass, which are the two calls that may.
fn passes_two(disk: &mut FuseDisk) -> bool {
    disk.calls_left() == 2 && writes(disk, 1, &[7]) && syncs(disk) && disk.calls_left() == 0
}

// Whether each call is refused.
fn refuses_all(disk: &mut impl Disk) -> bool {
    let is_refused = !writes(disk, 0, &[8, 8]) && refuses_reading(disk) && !syncs(disk);
    is_refused && !succeeds(disk, Call::Len) && !attaches(disk) && disk.moment() == 1
}

// Whether it has what the two calls left, and no write is pending that a crash might do.
fn is_left(inner: &mut MemoryDisk) -> bool {
    let left = has(inner, &[10, 7, 12], 1, 2);
    inner.crash(1);
    left && inner.bytes() == [10, 7, 12].as_slice() && has_len(inner, 3)
}

fn burns_after_two(disk: &mut FuseDisk) -> bool {
    passes_two(disk) && refuses_all(disk)
}

// Whether it burns over a new disk, which then has what the first two calls left.
fn burns_of_new(alloc: Global) -> bool {
    match MemoryDisk::new(alloc, &[10, 11, 12]) {
        Ok(inner) => {
            let mut disk = FuseDisk::new(inner, 2);
            let burns = burns_after_two(&mut disk);
            let mut inner = disk.into_inner();
            burns && is_left(&mut inner)
        }
        Err(_) => false,
    }
}

#[test]
fn burns_after_two_calls(rt: HostRuntime) {
    assert!(rt; burns_of_new(rt.alloc()));
}

// Whether it answers that it is one byte long, and so many calls are left then.
fn passes_len(disk: &mut FuseDisk, left: u32) -> bool {
    has_len(disk, 1) && disk.calls_left() == left
}

// Whether it refuses to tell its length, and so many calls are left then.
fn refuses_len(disk: &mut FuseDisk, left: u32) -> bool {
    disk.len().is_err() && disk.calls_left() == left
}

// Asks four times for the length, of which three may pass; the second time the disk behind it refuses.
fn burns_through(disk: &mut FuseDisk) -> bool {
    passes_len(disk, 2) && refuses_len(disk, 1) && passes_len(disk, 0) && refuses_len(disk, 0)
}

fn burns_through_new(alloc: Global) -> bool {
    match MemoryDisk::new(alloc, &[1]) {
        Ok(mut inner) => {
            inner.fail_after(Call::Len, 1);
            let mut disk = FuseDisk::new(inner, 3);
            burns_through(&mut disk)
        }
        Err(_) => false,
    }
}

#[test]
fn burns_through_a_refusal(rt: HostRuntime) {
    assert!(rt; burns_through_new(rt.alloc()));
}

// The first reading is refused. The next one of place 1 and the one after that tell the truth.
fn tells_the_truth(disk: &mut impl Disk) -> bool {
    refuses_reading(disk)
        && reads(disk, 0, [10, 11, 12, 0])
        && reads(disk, 2, [12, 0, 0, 0])
        && reads(disk, 1, [11, 12, 0, 0])
}

// From then on the byte at place 1 has another bit.
fn lies(disk: &mut impl Disk) -> bool {
    reads(disk, 1, [0x8b, 12, 0, 0])
        && reads(disk, 0, [10, 0x8b, 12, 0])
        && reads(disk, 2, [12, 0, 0, 0])
}

// Whether it lies about what is written there, too.
fn lies_again(disk: &mut impl Disk) -> bool {
    writes(disk, 1, &[0]) && syncs(disk) && reads(disk, 1, [0x80, 12, 0, 0]) && disk.moment() == 0
}

fn goes_bad(disk: &mut impl Disk) -> bool {
    attaches(disk) && has_len(disk, 3) && tells_the_truth(disk) && lies(disk) && lies_again(disk)
}

fn goes_bad_over_new(alloc: Global) -> bool {
    match MemoryDisk::new(alloc, &[10, 11, 12]) {
        Ok(mut inner) => {
            inner.fail_next(Call::Read);
            let mut disk = LyingDisk::new(inner, 1, 0x80, 2);
            goes_bad(&mut disk)
        }
        Err(_) => false,
    }
}

#[test]
fn lies_after_the_true_readings(rt: HostRuntime) {
    assert!(rt; goes_bad_over_new(rt.alloc()));
}

// Whether it is as long as a write made it, though a later one ends before.
fn keeps_its_end(disk: &mut impl Disk) -> bool {
    let is_long = attaches(disk) && has_len(disk, 0) && writes(disk, 10, &[1, 2, 3]);
    is_long && writes(disk, 1, &[4]) && has_len(disk, 13)
}

fn keeps_nothing(disk: &mut impl Disk) -> bool {
    reads(disk, 9, [0; 4]) && syncs(disk) && disk.moment() == 0
}

#[test]
fn keeps_its_greatest_end(rt: HostRuntime) {
    let mut disk = NullDisk::new();
    assert!(rt; keeps_its_end(&mut disk) && keeps_nothing(&mut disk));
}
