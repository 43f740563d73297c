// Ranges of chunks, the nodes that cover them, and lists of ranges.
use pp_ranges::{ChunkRange, RangeList, cover};
use pp_tree::Node;
use std::test::*;

fn node(layer: u8, offset: u32) -> Node {
    Node { layer, offset }
}

// The first chunk and the last of a range, and by how many nodes it is covered.
const COVERED: [(u32, u32, usize); 6] = [
    (1, 6, 4),
    (0, (1 << 20) - 1, 1),
    (1, (1 << 20) - 2, 38),
    (5, 5, 1),
    (0, u32::MAX, 1),
    (1, u32::MAX - 1, 62),
];

fn is_covered_by(first: u32, last: u32, count: usize) -> bool {
    match ChunkRange::new(first, last) {
        Some(range) => cover(range).len() == count,
        None => false,
    }
}

// How many of these are covered so, before one that isn't.
fn covered() -> u8 {
    let mut right: u8 = 0;
    for (first, last, count) in COVERED {
        if !is_covered_by(first, last, count) {
            return right;
        }
        right = right.saturating_add(1);
    }
    right
}

// Whether the nodes come from the left to the right.
fn is_covered_in_order() -> bool {
    let want = [node(0, 1), node(1, 1), node(1, 2), node(0, 6)];
    match ChunkRange::new(1, 6) {
        Some(range) => &cover(range)[..] == want.as_slice(),
        None => false,
    }
}

#[test]
fn covers_ranges(rt: HostRuntime) {
    assert_eq!(rt; covered(), 6);
    assert!(rt; is_covered_in_order());
}

// Whether a range is of just the leaves of a node.
fn is_of_node(first: u32, last: u32, node: Node) -> bool {
    match ChunkRange::new(first, last) {
        Some(range) => { range.as_node() == Some(node) && ChunkRange::of_node(node) == Some(range) }
        None => false,
    }
}

// Whether there is such a range, and it is of no node.
fn is_of_none(first: u32, last: u32) -> bool {
    match ChunkRange::new(first, last) {
        Some(range) => range.as_node().is_none(),
        None => false,
    }
}

#[test]
fn tells_nodes(rt: HostRuntime) {
    assert!(rt; is_of_node(0, 0, node(0, 0)));
    assert!(rt; is_of_node(4, 7, node(2, 1)));
    assert!(rt; is_of_node(0, u32::MAX, node(32, 0)));
    assert!(rt; is_of_none(2, 5) && is_of_none(0, 2));
}

#[test]
fn tells_what_is_no_range(rt: HostRuntime) {
    assert!(rt; ChunkRange::new(3, 2).is_none());
    assert!(rt; ChunkRange::of_node(node(32, 1)).is_none());
    assert!(rt; ChunkRange::of_node(node(40, 0)).is_none());
}

// Whether there is room for a range.
fn insert(list: &mut RangeList, first: u32, last: u32) -> bool {
    match ChunkRange::new(first, last) {
        Some(range) => list.insert(range).is_ok(),
        None => false,
    }
}

// Whether there is room for what is left without a range.
fn remove(list: &mut RangeList, first: u32, last: u32) -> bool {
    match ChunkRange::new(first, last) {
        Some(range) => list.remove(range).is_ok(),
        None => false,
    }
}

fn remove_wide(list: &mut RangeList, first: u32, last: u32) {
    if let Some(range) = ChunkRange::new(first, last) {
        list.remove_wide(range);
    }
}

// Whether a list has this range as one of a number.
fn has_range(list: &RangeList, n: usize, first: u32, last: u32) -> bool {
    n < list.count() && ChunkRange::new(first, last) == Some(list.range(n))
}

// The even numbers from 0 to 126.
fn insert_evens(list: &mut RangeList) -> bool {
    for i in 0..64u32 {
        if !insert(list, 2 * i, 2 * i) {
            return false;
        }
    }
    list.count() == 64 && list.first() == Some(0)
}

// Whether there is no room for another, and the list stays.
fn takes_no_more(list: &mut RangeList) -> bool {
    !insert(list, 128, 128) && list.count() == 64 && !list.contains(128) && list.contains(126)
}

// Whether the number 1 joins two ranges.
fn joins_two(list: &mut RangeList) -> bool {
    insert(list, 1, 1) && list.count() == 63 && has_range(list, 0, 0, 2)
}

#[test]
fn takes_no_65th_range(rt: HostRuntime) {
    let mut list = RangeList::new();
    assert!(rt; insert_evens(&mut list));
    assert!(rt; takes_no_more(&mut list));
    assert!(rt; joins_two(&mut list));
}

// Whether a range without its middle is two.
fn takes_out_the_middle(list: &mut RangeList) -> bool {
    list.first().is_none()
        && insert(list, 5, 20)
        && remove(list, 8, 9)
        && list.count() == 2
        && has_range(list, 0, 5, 7)
        && has_range(list, 1, 10, 20)
}

#[test]
fn takes_ranges_out(rt: HostRuntime) {
    let mut list = RangeList::new();
    assert!(rt; takes_out_the_middle(&mut list));
    remove_wide(&mut list, 20, 30);
    assert!(rt; list.count() == 1 && list.contains(7) && !list.contains(10));
}

// Of the even numbers from 0 to 126 and the odd ones from 1 to 9: 0 to 10, and each even one above.
fn takes_from_the_front(list: &mut RangeList) -> bool {
    insert_evens(list)
        && insert(list, 0, 10)
        && list.take_first() == Some(0)
        && list.take_first() == Some(1)
        && list.remove_below(5) == 3
        && list.first() == Some(5)
        && list.count() == 59
}

fn takes_more(list: &mut RangeList) -> bool {
    list.remove_below(5) == 0
        && list.remove_below(17) == 9
        && list.take_first() == Some(18)
        && list.first() == Some(20)
}

fn takes_the_rest(list: &mut RangeList) -> bool {
    list.remove_below(u32::MAX) == 54 && list.take_first().is_none() && list.count() == 0
}

#[test]
fn takes_numbers_from_the_front(rt: HostRuntime) {
    let mut list = RangeList::new();
    assert!(rt; takes_from_the_front(&mut list));
    assert!(rt; takes_more(&mut list));
    assert!(rt; takes_the_rest(&mut list));
}
