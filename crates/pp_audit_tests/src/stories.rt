// What a channel's story comes to, line by line.
use pp_outside::Address;
use pp_recorded::entry::{Entry, Life};
use pp_story::{Story, follow};
use pp_tree::{Descriptor, Method, Node, leaf};
use pp_wire::{Message, Span};
use std::alloc::AllocError;
use std::process::Abort;
use std::test::*;

// One line of a story.
#[derive(Clone, Copy, Debug, PartialEq, Eq)]
enum Line {
    // a first chunk and a last
    Have(u64, u64),
    Request(u64, u64),
    Cancel(u64, u64),
    // and a delay
    Ack(u64, u64, u64),
    // the chunk
    Data(u64),
    Choke,
    Unchoke,
    Wait,
}

use Line::{Ack, Cancel, Choke, Data, Have, Request, Unchoke, Wait};

fn span_of(first: u64, last: u64) -> Span {
    Span { first, last }
}

fn add(story: &mut Story, now: u64, line: Line) -> Result<(), AllocError> {
    match line {
        Have(first, last) => {
            let span = span_of(first, last);
            story.hear(now, &Message::Have { span });
        }
        Request(first, last) => {
            let span = span_of(first, last);
            story.hear(now, &Message::Request { span });
        }
        Cancel(first, last) => {
            let span = span_of(first, last);
            story.hear(now, &Message::Cancel { span });
        }
        Ack(first, last, delay) => {
            let span = span_of(first, last);
            story.hear(now, &Message::Ack { span, delay });
        }
        Data(chunk) => {
            let bytes: &[u8] = &[];
            let sent_at = now;
            story.say(
                now,
                &Message::Data {
                    chunk,
                    sent_at,
                    bytes,
                },
            )?;
        }
        Choke => story.say(now, &Message::Choke)?,
        Unchoke => story.say(now, &Message::Unchoke)?,
        Wait => story.end_wait(now),
    }
    Ok(())
}

// The nodes that are asked about, of a content of 100 chunks.
const NODES: [(u8, u32); 16] = [
    (6, 0),
    (5, 2),
    (2, 24),
    (0, 96),
    (0, 99),
    (0, 5),
    (1, 0),
    (3, 6),
    (5, 1),
    (4, 4),
    (0, 100),
    (7, 0),
    (6, 1),
    (5, 3),
    (0, 63),
    (2, 15),
];

fn asked(story: &Story) -> u128 {
    let mut bits = 0;
    for i in 0..100 {
        if story.is_asked(i) {
            bits |= 1 << i;
        }
    }
    bits
}

fn told(story: &Story) -> u32 {
    let mut bits = 0;
    for i in 0..16 {
        let (layer, offset) = NODES[i];
        if story.is_told(Node { layer, offset }) {
            bits |= 1 << i;
        }
    }
    bits
}

// A moment and a line, and what is so then: whether a choke stands, the chunks that are asked for, the nodes that are told, and
// whether there is room. The values are of a plain program that keeps every line, and looks through them all for each question.
type Row = (u64, Line, bool, u128, u32, bool);

fn keeps_to(rt: &impl Abort, story: &mut Story, rows: &[Row]) -> Result<(), AllocError> {
    for (now, line, choked, chunks, nodes, room) in rows {
        add(story, *now, *line)?;
        assert_eq!(rt; story.is_choked(), *choked, "the choke at {now}");
        assert_eq!(rt; asked(story), *chunks, "what is asked for at {now}");
        assert_eq!(rt; told(story), *nodes, "what is told at {now}");
        assert_eq!(rt; story.has_room(), *room, "the room at {now}");
    }
    Ok(())
}

const ROWS: [Row; 54] = [
    (10, Request(0, 3), false, 0xf, 0x0, true),
    (20, Request(70, 66), false, 0xf, 0x0, true),
    (
        30,
        Request(60, 70),
        false,
        0x7f_f0000000_0000000f,
        0x0,
        true,
    ),
    (
        40,
        Request(98, 1_099_511_627_776),
        false,
        0xc_0000007f_f0000000_0000000f,
        0x0,
        true,
    ),
    (
        50,
        Cancel(62, 65),
        false,
        0xc_0000007c_30000000_0000000f,
        0x0,
        true,
    ),
    (
        60,
        Cancel(9, 3),
        false,
        0xc_0000007c_30000000_0000000f,
        0x0,
        true,
    ),
    (
        70,
        Data(0),
        false,
        0xc_0000007c_30000000_0000000e,
        0x0,
        true,
    ),
    (
        80,
        Data(98),
        false,
        0x8_0000007c_30000000_0000000e,
        0x0,
        false,
    ),
    (
        90,
        Data(4_294_967_297),
        false,
        0x8_0000007c_30000000_0000000e,
        0x0,
        false,
    ),
    (
        1_000,
        Ack(0, 0, 50_000),
        false,
        0x8_0000007c_30000000_0000000e,
        0x1147,
        false,
    ),
    (
        1_100,
        Have(100, 120),
        false,
        0x8_0000007c_30000000_0000000e,
        0x1147,
        false,
    ),
    (
        1_200,
        Have(97, 8_589_934_592),
        false,
        0x8_0000007c_30000000_0000000e,
        0x315f,
        false,
    ),
    (
        1_300,
        Have(7, 5),
        false,
        0x8_0000007c_30000000_0000000e,
        0x315f,
        false,
    ),
    (
        1_400,
        Data(1),
        false,
        0x8_0000007c_30000000_0000000c,
        0x315f,
        false,
    ),
    (
        1_500,
        Data(2),
        false,
        0x8_0000007c_30000000_00000008,
        0x315f,
        false,
    ),
    (1_600, Choke, true, 0x0, 0x315f, false),
    (1_700, Request(0, 99), true, 0x0, 0x315f, false),
    (1_800, Data(3), true, 0x0, 0x315f, false),
    (1_900, Unchoke, false, 0x0, 0x315f, false),
    (
        2_000,
        Request(63, 64),
        false,
        0x1_80000000_00000000,
        0x315f,
        false,
    ),
    (2_100, Choke, true, 0x0, 0x315f, false),
    (2_150, Unchoke, false, 0x0, 0x315f, false),
    (2_200, Request(5, 5), false, 0x20, 0x315f, false),
    (2_300, Data(5), false, 0x0, 0x315f, false),
    (60_000, Ack(3, 3, 50_010), false, 0x0, 0x315f, false),
    (61_000, Ack(2, 2, 50_020), false, 0x0, 0x315f, false),
    (62_000, Data(6), false, 0x0, 0x315f, false),
    (63_000, Data(7), false, 0x0, 0x315f, false),
    (64_000, Ack(5, 6, 50_000), false, 0x0, 0x317f, true),
    (65_000, Ack(40, 50, 50_000), false, 0x0, 0x31ff, true),
    (
        66_000,
        Request(0, 99),
        false,
        0xf_ffffffff_ffffffff_ffffffff,
        0x31ff,
        true,
    ),
    (
        67_000,
        Data(8),
        false,
        0xf_ffffffff_ffffffff_fffffeff,
        0x31ff,
        false,
    ),
    (
        68_000,
        Data(9),
        false,
        0xf_ffffffff_ffffffff_fffffcff,
        0x31ff,
        false,
    ),
    (
        69_000,
        Data(10),
        false,
        0xf_ffffffff_ffffffff_fffff8ff,
        0x31ff,
        false,
    ),
    (
        70_000,
        Cancel(0, 18_446_744_073_709_551_615),
        false,
        0x0,
        0x31ff,
        false,
    ),
    (500_000, Wait, false, 0x0, 0x31ff, false),
    (600_000, Ack(9, 9, 55_000), false, 0x0, 0x31ff, false),
    (700_000, Ack(8, 10, 140_000), false, 0x0, 0x31ff, true),
    (710_000, Data(11), false, 0x0, 0x31ff, true),
    (711_000, Data(4_294_967_301), false, 0x0, 0x31ff, false),
    (712_000, Ack(5, 5, 50_000), false, 0x0, 0x31ff, false),
    (
        720_000,
        Ack(4_294_967_296, 8_589_934_592, 140_000),
        false,
        0x0,
        0x31ff,
        true,
    ),
    (800_000, Data(12), false, 0x0, 0x31ff, false),
    (900_000, Have(0, 0), false, 0x0, 0x31ff, false),
    (1_000_000, Wait, false, 0x0, 0x31ff, false),
    (1_719_999, Wait, false, 0x0, 0x31ff, false),
    (1_720_000, Wait, false, 0x0, 0x31ff, true),
    (1_730_000, Data(13), false, 0x0, 0x31ff, false),
    (2_800_000, Wait, false, 0x0, 0x31ff, false),
    (3_730_000, Wait, false, 0x0, 0x31ff, true),
    (4_000_000, Data(14), false, 0x0, 0x31ff, false),
    (4_100_000, Ack(13, 14, 50_000), false, 0x0, 0x31ff, true),
    (4_200_000, Data(15), false, 0x0, 0x31ff, true),
    (4_300_000, Data(16), false, 0x0, 0x31ff, false),
];

#[test]
fn follows_a_story_and_the_next(rt: HostRuntime) -> Result<(), Fail> {
    let descriptor = Descriptor::new(leaf(b"abc"), 1024, 102_395, Method::Range64)?;
    let mut story = Story::new(rt.alloc(), &descriptor)?;
    keeps_to(&rt, &mut story, &ROWS)?;
    story.begin();
    assert_eq!(rt; (asked(&story), told(&story)), (0, 0));
    keeps_to(&rt, &mut story, &ROWS)?;
    Ok(())
}

const PEER: Address = Address::V4([10, 0, 0, 1], 4000);

// To the numbers 5 and 7: a REQUEST of the chunks 1 to 2 with a HAVE of chunk 3, and a CHOKE.
const REQUEST: [u8; 22] = [
    0, 0, 0, 5, 8, 0, 0, 0, 1, 0, 0, 0, 2, 3, 0, 0, 0, 3, 0, 0, 0, 3,
];

const CHOKE: [u8; 5] = [0, 0, 0, 7, 10];

#[test]
fn follows_the_entries_of_a_channel(rt: HostRuntime) -> Result<(), Fail> {
    let descriptor = Descriptor::new(leaf(b"abc"), 1024, 102_395, Method::Range32)?;
    let mut story = Story::new(rt.alloc(), &descriptor)?;
    let life = Life {
        address: PEER,
        local: 5,
        remote: 7,
        is_dialled: true,
        opening: 0,
    };
    let other = Life { local: 6, ..life };
    let came = Entry::Received {
        at: 10,
        from: PEER,
        bytes: &REQUEST,
    };
    let sent = Entry::Sent {
        moment: 0,
        to: PEER,
        bytes: &CHOKE,
    };
    follow(&mut story, &descriptor, other, false, 10, &came)?;
    assert_eq!(rt; (asked(&story), story.is_choked()), (0, false));
    follow(&mut story, &descriptor, life, false, 10, &came)?;
    assert_eq!(rt; (asked(&story), story.is_choked()), (6, false));
    assert!(rt;
        story.is_told(Node {
            layer: 0,
            offset: 2
        })
    );
    assert!(rt;
        !story.is_told(Node {
            layer: 0,
            offset: 0
        })
    );
    follow(&mut story, &descriptor, life, false, 10, &sent)?;
    assert_eq!(rt; (asked(&story), story.is_choked()), (0, true));
    Ok(())
}
