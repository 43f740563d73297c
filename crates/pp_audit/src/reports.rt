//! Whether a text is what a peer reports: which chunks it holds, and what it counted.

ghost use Rattle.std.specs.Prelude.{◌≡◌, ◌↔◌, ◌++◌, IsTrue, Some, List, [], length, count_by, codes, decimal};
ghost use Rattle.pp_terms.specs.command.Report.{SaysHeld, SaysReport, held_line, ranges_text, span_text};
ghost use Rattle.pp_terms.specs.command.Tally.{counter, first_lines, other_lines, tally_text};
ghost use Rattle.pp_terms.specs.tree.Range.{Span};
ghost use Rattle.pp_promises.specs.Missing.{SaysIncomplete, incomplete_line};
ghost use Rattle.pp_counts.specs.Counts.{tally_of};
ghost use Rattle.pp_audit.specs.Reports.{took, left_of, Reads, ended, begun_after, ranges_of, comma, left_behind};

use itoa::Buffer;
use pp_counts::Counts;

// What is left of a text behind a piece, where it goes on with that.
fn read<'m>(left: Option<&'m [u8]>, piece: &[u8]) -> Option<&'m [u8]>
    ensures { Reads piece.now (left_of left.entry) (left_of result) }
{
    match left {
        Some(text) => text.strip_prefix(piece),
        None => None,
    }
}

// The same of a number, in decimal digits.
fn read_number<'m>(left: Option<&'m [u8]>, number: u64) -> Option<&'m [u8]>
    ensures { Reads (decimal number) (left_of left.entry) (left_of result) }
{
    let mut digits = Buffer::new();
    read(left, digits.format(number).as_bytes())
}

// Of a text with a number behind it.
fn read_counted<'m>(left: Option<&'m [u8]>, before: &[u8], number: u64) -> Option<&'m [u8]>
    ensures { Reads (before.now ++ decimal number) (left_of left.entry) (left_of result) }
{
    let left = read(left, before);
    read_number(left, number)
}

// Of the line of a count.
fn read_line<'m>(left: Option<&'m [u8]>, name: &[u8], number: u64) -> Option<&'m [u8]>
    ensures { Reads (counter name.now number) (left_of left.entry) (left_of result) }
{
    let left = read_counted(left, name, number);
    read(left, b"\n")
}

// The comma behind the ranges before, if any.
fn comma(is_more: bool) -> &'static [u8]
    ensures { result.now ≡ comma is_more }
{
    if is_more { b"," } else { b"" }
}

// Of a range, both ends included, with a comma before it where others stood before.
fn read_range<'m>(left: Option<&'m [u8]>, is_more: bool, first: u64, last: u64) -> Option<&'m [u8]>
    ensures { Reads (comma is_more ++ span_text (record { first = first; last = last }))
        (left_of left.entry) (left_of result) }
{
    let left = read(left, comma(is_more));
    let left = read_number(left, first);
    let left = read(left, b"-");
    read_number(left, last)
}

// A text whose ranges were read up to a number.
#[derive(Clone, Copy)]
struct Walk<'m> {
    /// What is left of the text.
    left: Option<&'m [u8]>,
    /// The first number of the range that is begun.
    begun: Option<u64>,
    /// A range was read.
    is_more: bool,
}

// The walk behind one number more, where a range that is begun is read if the number isn't in the set.
fn after_number<'m>(walk: &Walk<'m>, number: u64, is_in: bool) -> Walk<'m>
    ensures begun { result.begun ≡ begun_after walk.now.begun number is_in }
    ensures text { (more : List Span) → left_behind result more
        ≡ left_behind walk.now (ended walk.now.begun number is_in ++ more) }
{
    match walk.begun {
        None => Walk {
            left: walk.left,
            begun: is_in.then_some(number),
            is_more: walk.is_more,
        },
        Some(first) => {
            if is_in {
                return *walk;
            }
            Walk {
                left: read_range(walk.left, walk.is_more, first, number.saturating_sub(1)),
                begun: None,
                is_more: true,
            }
        }
    }
}

// What is left of a text behind the ranges of a set, or `none`.
fn read_ranges<'m>(left: Option<&'m [u8]>, set: &[bool]) -> Option<&'m [u8]>
    ensures { Reads (ranges_text (ranges_of set.now)) (left_of left.entry) (left_of result) }
{
    let mut walk = Walk {
        left,
        begun: None,
        is_more: false,
    };
    for number in 0..set.len() {
        walk = after_number(&walk, number as u64, set[number]);
    }
    let last = after_number(&walk, set.len() as u64, false);
    if last.is_more {
        last.left
    } else {
        read(last.left, b"none")
    }
}

// How many numbers are in the set.
fn count_in(set: &[bool]) -> usize
    ensures { result ≡ count_by (λ b. b) set.now }
{
    set.iter().filter(|is_in| **is_in).count()
}

// What is left of a text behind the line of the chunks that are held.
fn read_held<'m>(left: Option<&'m [u8]>, set: &[bool]) -> Option<&'m [u8]>
    ensures { Reads (held_line (count_by (λ b. b) set.now) (length set.now) (ranges_of set.now))
        (left_of left.entry) (left_of result) }
{
    let left = read_counted(left, b"held ", count_in(set) as u64);
    let left = read(left, b" of ");
    let left = read_number(left, set.len() as u64);
    let left = read(left, b" ");
    let left = read_ranges(left, set);
    read(left, b"\n")
}

// Behind the lines of what came and went.
fn read_first<'m>(left: Option<&'m [u8]>, counts: &Counts) -> Option<&'m [u8]>
    ensures { Reads (first_lines (tally_of counts.now)) (left_of left.entry) (left_of result) }
{
    let left = read_line(left, b"turns ", counts.turns);
    let left = read_line(left, b"datagrams ", counts.datagrams);
    let left = read_line(left, b"sent ", counts.sent);
    let left = read_line(left, b"stored ", counts.stored);
    let left = read_line(left, b"keepalives ", counts.keepalives);
    let left = read_line(left, b"short ", counts.short);
    let left = read_line(left, b"stranger ", counts.stranger);
    let left = read_line(left, b"refused_handshakes ", counts.refused_handshakes);
    let left = read_line(left, b"no_seat ", counts.no_seat);
    let left = read_line(left, b"cut ", counts.cut);
    read_line(left, b"outside ", counts.outside)
}

// Behind the lines of what came to nothing.
fn read_others<'m>(left: Option<&'m [u8]>, counts: &Counts) -> Option<&'m [u8]>
    ensures { Reads (other_lines (tally_of counts.now)) (left_of left.entry) (left_of result) }
{
    let left = read_line(left, b"not_a_node ", counts.not_a_node);
    let left = read_line(left, b"full ", counts.full);
    let left = read_line(left, b"choked ", counts.choked);
    let left = read_line(left, b"unheld ", counts.unheld);
    let left = read_line(left, b"missing ", counts.missing);
    let left = read_line(left, b"wrong ", counts.wrong);
    let left = read_line(left, b"repeats ", counts.repeats);
    let left = read_line(left, b"damaged ", counts.damaged);
    let left = read_line(left, b"read_faults ", counts.read_faults);
    let left = read_line(left, b"send_faults ", counts.send_faults);
    read_line(left, b"receive_faults ", counts.receive_faults)
}

// Behind a report.
fn read_report<'m>(left: Option<&'m [u8]>, set: &[bool], counts: &Counts) -> Option<&'m [u8]>
    ensures { Reads (held_line (count_by (λ b. b) set.now) (length set.now) (ranges_of set.now) ++ tally_text (tally_of counts.now))
        (left_of left.entry) (left_of result) }
{
    let left = read_held(left, set);
    let left = read_first(left, counts);
    read_others(left, counts)
}

// Behind the line of the first chunk that is missing.
fn read_incomplete<'m>(left: Option<&'m [u8]>, chunk: u64) -> Option<&'m [u8]>
    ensures { Reads (incomplete_line chunk) (left_of left.entry) (left_of result) }
{
    read_line(left, b"incomplete: first missing chunk ", chunk)
}

// Whether the text went on up to here, and ends here.
fn ends_here(left: Option<&[u8]>) -> bool
    ensures { IsTrue result ↔ (left_of left.entry ≡ Some []) }
{
    match left {
        Some(text) => text.is_empty(),
        None => false,
    }
}

/// Whether a text is the line of the chunks that are held: how many, of how many, and which, by the ranges of the set in
/// rising order with a number left out between two.
pub fn is_held_line(set: &[bool], text: &[u8]) -> bool
    ensures { IsTrue result ↔ SaysHeld set.now (took []) (took text.now) }
{
    ends_here(read_held(Some(text), set))
}

/// Whether a text is a report: the line of the chunks that are held, and a line for each count.
pub fn is_report(set: &[bool], counts: &Counts, text: &[u8]) -> bool
    ensures { IsTrue result ↔ SaysReport set.now (tally_of counts.now) (took []) (took text.now) }
{
    ends_here(read_report(Some(text), set, counts))
}

/// Whether a text is the report of a fetch that ended without the whole content: a report, and the line of a chunk that is
/// missing.
pub fn is_incomplete_report(set: &[bool], counts: &Counts, chunk: u64, text: &[u8]) -> bool
    ensures { IsTrue result ↔ SaysIncomplete set.now (tally_of counts.now) chunk (took []) (took text.now) }
{
    let left = read_report(Some(text), set, counts);
    ends_here(read_incomplete(left, chunk))
}
