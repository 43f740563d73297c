//! Which chunks are the leaves of one bin (RFC 7574, section 4.2).

ghost use Rattle.std.specs.Prelude.{◌≡◌, ◌↔◌, ◌+◌, ◌<◌, ◌≤◌, IsTrue, IfSome, IfNone};
ghost use Rattle.pp_terms.specs.format.Messages.{IsBinSpan, bin_number_of};
ghost use Rattle.pp_wire.specs.Views.{span_of};

use crate::message::Span;

/// The chunks are the leaves of one bin: of two halves, the first of which begins at an even one.
fn is_bin(first: u64, last: u64) -> bool
    requires { first ≤ last }
    ensures { IsTrue result ↔ IsBinSpan (record { first = first; last = last }) }
{
    if first == last {
        return true;
    }
    if first % 2 == 1 || last % 2 == 0 {
        return false;
    }
    is_bin(first / 2, last / 2)
}

/// The number of the bin that has these leaves, if it is below `limit`.
pub fn bin_number(span: Span, limit: u64) -> Option<u64>
    requires { span.first ≤ span.last }
    ensures found { IfSome result (λ n. IsBinSpan (span_of span) × (n ≡ bin_number_of (span_of span)) × (n < limit)) }
    ensures none { IfNone result (IsBinSpan (span_of span) × (bin_number_of (span_of span) < limit) → ⊥) }
{
    if !is_bin(span.first, span.last) {
        return None;
    }
    let number = span.first.checked_add(span.last)?;
    if number < limit { Some(number) } else { None }
}
