// The congestion window of a channel.
use pp_ledbat::{RoundTrips, Settled, Window, alone, gained, hits, oldest, settle};
use pp_ranges::ChunkRange;
use pp_traffic::Entry;
use std::test::*;

// One call of a window.
#[derive(Clone, Copy)]
enum Call {
    // the chunk and the moment
    Sent(u32, u64),
    // the first chunk and the last, the delay and the moment
    Acked(u32, u32, u64, u64),
    // the moment at which a timeout is looked for
    Ended(u64),
}

use Call::{Acked, Ended, Sent};

// What it answers: the bytes, or whether a timeout was due. None where a chunk has no room.
fn made(window: &mut Window, call: Call) -> Option<u64> {
    match call {
        Sent(i, now) => {
            if !window.may_send() {
                return None;
            }
            window.sent(i, now);
            Some(0)
        }
        Acked(first, last, delay, now) => {
            let range = ChunkRange::new(first, last)?;
            Some(window.acked(range, delay, now))
        }
        Ended(now) => {
            if !window.timeout_due(now) {
                return Some(0);
            }
            window.timed_out(now);
            Some(1)
        }
    }
}

// Calls in turn, each with what it answers, and the window, the flight and the timeout then. The values are of a plain program
// that keeps every chunk that was ever sent, and looks through them all.
type Row = (Call, u64, u64, u64, u64);

// The window, the flight and the timeout.
fn seen(window: &Window) -> [u64; 3] {
    [window.window(), window.flight(), window.timeout_us()]
}

// How many calls answer and leave what their rows say, before one that doesn't.
fn kept(window: &mut Window, rows: &[Row]) -> usize {
    let mut count: usize = 0;
    for (call, answer, bytes, flight, timeout) in rows {
        if made(window, *call) != Some(*answer) || seen(window) != [*bytes, *flight, *timeout] {
            return count;
        }
        count = count.saturating_add(1);
    }
    count
}

const FIFTY: [Row; 50] = [
    (Sent(0, 1_000_000), 0, 2048, 1024, 1_000_000),
    (Sent(1, 1_001_000), 0, 2048, 2048, 1_000_000),
    (
        Acked(0, 1, 18_446_744_073_709_531_616, 1_100_000),
        2048,
        3072,
        0,
        1_000_000,
    ),
    (Sent(2, 1_112_000), 0, 3072, 1024, 1_000_000),
    (Sent(3, 1_113_000), 0, 3072, 2048, 1_000_000),
    (Sent(4, 1_114_000), 0, 3072, 3072, 1_000_000),
    (
        Acked(2, 4, 18_446_744_073_709_541_616, 1_250_000),
        3072,
        4096,
        0,
        1_000_000,
    ),
    (Sent(5, 1_265_000), 0, 4096, 1024, 1_000_000),
    (Sent(6, 1_266_000), 0, 4096, 2048, 1_000_000),
    (Sent(7, 1_267_000), 0, 4096, 3072, 1_000_000),
    (Sent(8, 1_268_000), 0, 4096, 4096, 1_000_000),
    (
        Acked(5, 8, 18_446_744_073_709_536_616, 1_400_000),
        4096,
        5120,
        0,
        1_000_000,
    ),
    (Sent(9, 1_419_000), 0, 5120, 1024, 1_000_000),
    (Sent(10, 1_420_000), 0, 5120, 2048, 1_000_000),
    (Sent(11, 1_421_000), 0, 5120, 3072, 1_000_000),
    (Sent(12, 1_422_000), 0, 5120, 4096, 1_000_000),
    (Sent(13, 1_423_000), 0, 5120, 5120, 1_000_000),
    (Acked(9, 13, 0, 1_550_000), 5120, 6144, 0, 1_000_000),
    (Sent(14, 1_574_000), 0, 6144, 1024, 1_000_000),
    (Sent(15, 1_575_000), 0, 6144, 2048, 1_000_000),
    (Sent(16, 1_576_000), 0, 6144, 3072, 1_000_000),
    (Sent(17, 1_577_000), 0, 6144, 4096, 1_000_000),
    (Sent(18, 1_578_000), 0, 6144, 5120, 1_000_000),
    (Sent(19, 1_579_000), 0, 6144, 6144, 1_000_000),
    (Acked(15, 15, 10000, 1_700_000), 1024, 6306, 5120, 1_000_000),
    (Acked(16, 16, 20000, 1_705_000), 1024, 6144, 4096, 1_000_000),
    (
        Acked(17, 17, 130_000, 1_710_000),
        1024,
        2560,
        2048,
        1_000_000,
    ),
    (
        Acked(19, 19, 140_000, 1_720_000),
        1024,
        2846,
        1024,
        1_000_000,
    ),
    (Sent(20, 1_721_000), 0, 2846, 2048, 1_000_000),
    (
        Acked(20, 20, 150_000, 1_722_000),
        1024,
        3067,
        1024,
        1_000_000,
    ),
    (Sent(21, 1_723_000), 0, 3067, 2048, 1_000_000),
    (Acked(21, 21, 160_000, 1_730_000), 1024, 2896, 0, 1_000_000),
    (Ended(1_800_000), 0, 2896, 0, 1_000_000),
    (
        Acked(200, 300, 18_446_744_073_709_531_616, 1_802_000),
        0,
        2896,
        0,
        1_000_000,
    ),
    (Sent(22, 5_000_000), 0, 2896, 1024, 1_000_000),
    (Ended(5_999_999), 0, 2896, 1024, 1_000_000),
    (Ended(6_000_000), 1, 1024, 0, 2_000_000),
    (Sent(23, 6_100_000), 0, 1024, 1024, 2_000_000),
    (
        Acked(23, 23, 1_099_511_607_777, 6_300_000),
        1024,
        1024,
        0,
        1_000_000,
    ),
    (Sent(24, 6_400_000), 0, 1024, 1024, 1_000_000),
    (
        Acked(24, 24, 1_099_511_607_776, 6_500_000),
        1024,
        2048,
        0,
        1_000_000,
    ),
    (Sent(25, 6_600_000), 0, 2048, 1024, 1_000_000),
    (Sent(25, 6_610_000), 0, 2048, 2048, 1_000_000),
    (
        Acked(0, 4_294_967_295, 0, 6_700_000),
        2048,
        2867,
        0,
        1_000_000,
    ),
    (Sent(26, 7_000_000), 0, 2867, 1024, 1_000_000),
    (Ended(14_000_000), 1, 1024, 0, 2_000_000),
    (Sent(27, 20_000_000), 0, 1024, 1024, 2_000_000),
    (Ended(40_000_000), 1, 1024, 0, 4_000_000),
    (Sent(28, 50_000_000), 0, 1024, 1024, 4_000_000),
    (
        Acked(28, 28, 18_446_744_073_709_546_616, 600_000_000),
        1024,
        2048,
        0,
        60_000_000,
    ),
];

// Two losses, of which the second comes too soon to halve the window; samples that wrap, one too far and one just near;
// timeouts, the first at the microsecond; a chunk in flight twice; and a round trip of more than a minute.
#[test]
fn keeps_to_fifty_calls(rt: HostRuntime) {
    assert_eq!(rt; kept(&mut Window::new(1024), &FIFTY), 50);
}

const MINUTES: [Row; 41] = [
    (Sent(0, 1_000_000), 0, 2048, 1024, 1_000_000),
    (Sent(1, 1_000_001), 0, 2048, 2048, 1_000_000),
    (
        Acked(0, 1, 18_446_744_073_709_531_616, 1_100_000),
        2048,
        3072,
        0,
        1_000_000,
    ),
    (Sent(2, 1_200_002), 0, 3072, 1024, 1_000_000),
    (Sent(3, 1_200_003), 0, 3072, 2048, 1_000_000),
    (Sent(4, 1_200_004), 0, 3072, 3072, 1_000_000),
    (
        Acked(2, 4, 18_446_744_073_709_531_616, 1_300_000),
        3072,
        4096,
        0,
        1_000_000,
    ),
    (Sent(5, 1_400_005), 0, 4096, 1024, 1_000_000),
    (Sent(6, 1_400_006), 0, 4096, 2048, 1_000_000),
    (Sent(7, 1_400_007), 0, 4096, 3072, 1_000_000),
    (Sent(8, 1_400_008), 0, 4096, 4096, 1_000_000),
    (
        Acked(5, 8, 18_446_744_073_709_531_616, 1_500_000),
        4096,
        5120,
        0,
        1_000_000,
    ),
    (Sent(9, 1_600_009), 0, 5120, 1024, 1_000_000),
    (Sent(10, 1_600_010), 0, 5120, 2048, 1_000_000),
    (Sent(11, 1_600_011), 0, 5120, 3072, 1_000_000),
    (Sent(12, 1_600_012), 0, 5120, 4096, 1_000_000),
    (Sent(13, 1_600_013), 0, 5120, 5120, 1_000_000),
    (Acked(9, 9, 40000, 61_000_000), 1024, 5324, 4096, 60_000_000),
    (Sent(14, 61_000_500), 0, 5324, 5120, 60_000_000),
    (
        Acked(10, 10, 120_000, 122_000_000),
        1024,
        5520,
        4096,
        60_000_000,
    ),
    (Sent(15, 122_000_500), 0, 5520, 5120, 60_000_000),
    (
        Acked(11, 11, 150_000, 183_000_000),
        1024,
        5709,
        4096,
        60_000_000,
    ),
    (Sent(16, 183_000_500), 0, 5709, 5120, 60_000_000),
    (
        Acked(12, 12, 130_000, 244_000_000),
        1024,
        5782,
        4096,
        60_000_000,
    ),
    (Sent(17, 244_000_500), 0, 5782, 5120, 60_000_000),
    (
        Acked(13, 13, 170_000, 305_000_000),
        1024,
        5709,
        4096,
        60_000_000,
    ),
    (Sent(18, 305_000_500), 0, 5709, 5120, 60_000_000),
    (
        Acked(14, 14, 140_000, 366_000_000),
        1024,
        5617,
        4096,
        60_000_000,
    ),
    (Sent(19, 366_000_500), 0, 5617, 5120, 60_000_000),
    (
        Acked(15, 15, 90000, 427_000_000),
        1024,
        5598,
        4096,
        60_000_000,
    ),
    (Sent(20, 427_000_500), 0, 5598, 5120, 60_000_000),
    (
        Acked(16, 16, 110_000, 488_000_000),
        1024,
        5579,
        4096,
        60_000_000,
    ),
    (Sent(21, 488_000_500), 0, 5579, 5120, 60_000_000),
    (
        Acked(17, 17, 160_000, 549_000_000),
        1024,
        5560,
        4096,
        60_000_000,
    ),
    (Sent(22, 549_000_500), 0, 5560, 5120, 60_000_000),
    (
        Acked(18, 18, 100_000, 610_000_000),
        1024,
        5654,
        4096,
        60_000_000,
    ),
    (Sent(23, 610_000_500), 0, 5654, 5120, 60_000_000),
    (
        Acked(19, 19, 130_000, 671_000_000),
        1024,
        5820,
        4096,
        60_000_000,
    ),
    (Sent(24, 671_000_500), 0, 5820, 5120, 60_000_000),
    (
        Acked(20, 20, 100_000, 732_000_000),
        1024,
        5982,
        4096,
        60_000_000,
    ),
    (Sent(25, 732_000_500), 0, 5982, 5120, 60_000_000),
];

// A sample a minute, for twelve minutes: the least one, of the first minute, is out of the base at the tenth minute behind it.
#[test]
fn forgets_old_minutes(rt: HostRuntime) {
    assert_eq!(rt; kept(&mut Window::new(1024), &MINUTES), 41);
}

// A window, the time that a chunk of it waited in queues, and the window that its acknowledgement leaves. At the greatest window
// the fall is 1024 * 1024 / 524288 * 1/2 = 1 at 150 milliseconds, and rounds up from there.
const GAINS: [(u64, u64, u64); 8] = [
    (2048, 0, 2560),
    (2048, 50_000, 2304),
    (2048, 100_000, 2048),
    (2048, 200_000, 2048),
    (524_288, 0, 524_288),
    (524_288, 150_000, 524_287),
    (524_288, 150_001, 524_286),
    (524_288, u64::MAX, 2048),
];

// What the acknowledgement of one chunk makes of a window that is full.
fn after_one(window: u64, queuing: u64) -> u64 {
    if window == 0 || window > 524_288 {
        return 0;
    }
    gained(window, 1024, queuing, 1024, window)
}

// How many of these are left, before one that isn't.
fn gains() -> u8 {
    let mut right: u8 = 0;
    for (window, queuing, want) in GAINS {
        if after_one(window, queuing) != want {
            return right;
        }
        right = right.saturating_add(1);
    }
    right
}

#[test]
fn gains_by_the_delay(rt: HostRuntime) {
    assert_eq!(rt; gains(), 8);
}

// The timeout after a round trip.
fn noted(trips: &mut RoundTrips, now: u64, sent_at: Option<u64>) -> u64 {
    trips.note(now, sent_at);
    trips.timeout()
}

// The timeouts at first, after a trip of 200 milliseconds, after one of a second, and after one that isn't known.
fn timeouts(trips: &mut RoundTrips) -> [u64; 4] {
    [
        trips.timeout(),
        noted(trips, 300_000, Some(100_000)),
        noted(trips, 1_300_000, Some(300_000)),
        noted(trips, 1_300_000, None),
    ]
}

fn backs_off(trips: &mut RoundTrips) -> bool {
    trips.back_off();
    trips.timeout() == 2_800_000 && trips.halving_time() == 300_000
}

#[test]
fn times_round_trips(rt: HostRuntime) {
    let mut trips = RoundTrips::new();
    assert!(rt; timeouts(&mut trips) == [1_000_000, 1_000_000, 1_400_000, 1_400_000]);
    assert!(rt; backs_off(&mut trips));
}

fn entry(chunk: u32, overtaken: u32) -> Entry {
    Entry {
        chunk,
        overtaken,
        sent_at: u64::from(chunk),
    }
}

fn six() -> [Entry; 6] {
    [
        entry(4, 0),
        entry(5, 1),
        entry(6, 2),
        entry(7, 0),
        entry(8, 0),
        entry(9, 0),
    ]
}

// How many entries a range covers, and the earliest moment of these, if it isn't the only one.
fn covered(entries: &[Entry], range: ChunkRange) -> bool {
    hits(entries, range) == 2
        && oldest(entries, range) == Some(7)
        && alone(entries, range).is_none()
}

// Whether two entries are kept, one of which the others have overtaken, and one is lost.
fn settles(entries: &mut [Entry; 6], range: ChunkRange) -> bool {
    let settled = settle(entries, range);
    settled
        == (Settled {
            kept: 2,
            has_lost: true,
        })
        && entries.starts_with(&[entry(4, 2), entry(9, 0)])
}

fn settles_six() -> bool {
    let mut entries = six();
    match ChunkRange::new(7, 8) {
        Some(range) => covered(&entries, range) && settles(&mut entries, range),
        None => false,
    }
}

#[test]
fn settles_slices(rt: HostRuntime) {
    assert!(rt; settles_six());
}
