//! Messages of a range of chunks: one for each name that the method has for a part of it.

ghost use Rattle.std.specs.Prelude.{◌≡◌, ◌⊎◌, ◌^◌, ◌<◌, ◌≤◌, map, length};
ghost use Rattle.std.specs.List.{AllByRecursion};
ghost use Rattle.pp_terms.specs.tree.Range.{IsLeastCover, leaves_of};
ghost use Rattle.pp_terms.specs.format.Descriptor.{Bin32, Bin64};
ghost use Rattle.pp_tree.specs.Node.{node_of};
ghost use Rattle.pp_wire.specs.Put.{CanPut, NamesChunks};
ghost use Rattle.pp_wire.specs.Views.{naming, span_of};
ghost use Rattle.pp_draft.specs.Notes.{NamesRange};
ghost use Rattle.pp_draft.specs.Puts.{Puts, PutsOne, message_for, message_at, IsLow};

use crate::message::put_message;
use arrayvec::ArrayVec;
use pp_ranges::{ChunkRange, cover};
use pp_tree::{Descriptor, Method, Node};
use pp_wire::{ChunkKind, Message, Span, put_named};

/// What is said of chunks.
#[derive(Clone, Copy)]
pub(crate) enum Kind {
    Ack { delay: u64 },
    Have,
    Request,
    Cancel,
}

// Puts a message that names chunks alone.
fn put_alone(
    kind: ChunkKind,
    span: Span,
    descriptor: &Descriptor,
    out: &mut [u8],
    at: usize,
) -> Option<usize>
    requires within { at ≤ length out.old }
    requires can { CanPut descriptor.now.method (naming kind (span_of span)) }
    requires named { NamesChunks descriptor.now.method (naming kind (span_of span)) }
    ensures { PutsOne descriptor.now (naming kind (span_of span)) out.old at result out.new }
{
    match put_named(kind, span, descriptor.method(), out, at) {
        Ok(end) => Some(end),
        Err(_) => None,
    }
}

// Puts what is said of chunks.
fn put_kind(
    kind: Kind,
    span: Span,
    descriptor: &Descriptor,
    out: &mut [u8],
    at: usize,
) -> Option<usize>
    requires within { at ≤ length out.old }
    requires can { CanPut descriptor.now.method (message_for kind (span_of span)) }
    requires named { NamesChunks descriptor.now.method (message_for kind (span_of span)) }
    ensures { PutsOne descriptor.now (message_for kind (span_of span)) out.old at result out.new }
{
    match kind {
        Kind::Ack { delay } => put_message(&Message::Ack { span, delay }, descriptor, out, at),
        Kind::Have => put_alone(ChunkKind::Have, span, descriptor, out, at),
        Kind::Request => put_alone(ChunkKind::Request, span, descriptor, out, at),
        Kind::Cancel => put_alone(ChunkKind::Cancel, span, descriptor, out, at),
    }
}

fn span(range: ChunkRange) -> Span
    ensures span { span_of result ≡ range }
    ensures order { range.first ≤ range.last }
{
    Span {
        first: u64::from(range.first()),
        last: u64::from(range.last()),
    }
}

/// The chunks under a node.
pub(crate) fn leaves(node: Node) -> Span
    requires { IsLow node }
    ensures { span_of result ≡ leaves_of (node_of node) }
{
    span(ChunkRange::of_node(node).unwrap())
}

// Puts a message for each node.
fn put_cover(
    kind: Kind,
    nodes: &[Node],
    descriptor: &Descriptor,
    out: &mut [u8],
    at: usize,
) -> Option<usize>
    requires within { at ≤ length out.old }
    requires low { AllByRecursion IsLow nodes.now }
    requires few { length nodes.now ≤ 64 }
    ensures { Puts descriptor.now (λ ms. ms ≡ map (message_at kind) nodes.now) out.old at result out.new }
{
    let mut end = at;
    for node in nodes {
        match put_kind(kind, leaves(*node), descriptor, out, end) {
            Some(next) => end = next,
            None => return None,
        }
    }
    Some(end)
}

// The nodes by which bins name a range.
#[tactic(auto, using(crate::proofs::Names::cover_low))]
fn bins(range: ChunkRange) -> ArrayVec<Node, 64>
    requires { range.last < 2 ^ 20 }
    ensures cover { IsLeastCover range (map node_of result.items) }
    ensures low { AllByRecursion IsLow result.items }
{
    cover(range)
}

// The messages of a range by bins. It is apart since it needs a large frame, and ranges none.
#[inline(never)]
fn put_bins(
    kind: Kind,
    range: ChunkRange,
    descriptor: &Descriptor,
    out: &mut [u8],
    at: usize,
) -> Option<usize>
    requires within { at ≤ length out.old }
    requires inside { range.last < 2 ^ 20 }
    requires method { (descriptor.now.method ≡ Bin32) ⊎ (descriptor.now.method ≡ Bin64) }
    ensures { Puts descriptor.now (λ ms. NamesRange descriptor.now.method range (message_for kind) ms) out.old at result out.new }
{
    put_cover(kind, &bins(range), descriptor, out, at)
}

/// Puts the messages of a range, where they have room together, and answers the place behind them.
pub(crate) fn put_range(
    kind: Kind,
    range: ChunkRange,
    descriptor: &Descriptor,
    out: &mut [u8],
    at: usize,
) -> Option<usize>
    requires within { at ≤ length out.old }
    requires inside { range.last < 2 ^ 20 }
    ensures { Puts descriptor.now (λ ms. NamesRange descriptor.now.method range (message_for kind) ms) out.old at result out.new }
{
    match descriptor.method() {
        Method::Range32 | Method::Range64 => { put_kind(kind, span(range), descriptor, out, at) }
        Method::Bin32 | Method::Bin64 => put_bins(kind, range, descriptor, out, at),
    }
}
