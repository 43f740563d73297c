//! Notes put into a datagram.

ghost use Rattle.std.specs.Prelude.{◌≡◌, ◌<◌, ◌≤◌, [], length, take};
ghost use Rattle.std.specs.List.{AllByRecursion};
ghost use Rattle.pp_draft.specs.Notes.{Says, IsInside};
ghost use Rattle.pp_draft.specs.Puts.{Puts, IsFront};
ghost use Rattle.pp_draft.specs.Posts.{Fills, Packs, PacksBehind};

use crate::message::{put_address4, put_address6, put_close, put_handshake, put_message};
use crate::note::{Note, Reply};
use crate::ranges::{Kind, put_range};
use pp_tree::Descriptor;
use pp_wire::Message;

/// Begins a datagram to a channel, and answers the place behind its number.
pub(crate) fn begin(channel: u32, out: &mut [u8]) -> usize
    requires { 4 ≤ length out.old }
    ensures ends { result ≡ 4 }
    ensures front { (d : _) → IsFront d channel [] result out.new }
{
    out[..4].copy_from_slice(&channel.to_be_bytes());
    4
}

// Puts a note's messages behind the others, where they have room together.
fn put_note(note: &Note, descriptor: &Descriptor, out: &mut [u8], at: usize) -> Option<usize>
    requires within { at ≤ length out.old }
    requires inside { IsInside descriptor.now note.now }
    ensures { Puts descriptor.now (Says descriptor.now note.now) out.old at result out.new }
{
    let _chunks = descriptor.chunks();
    match *note {
        Note::KeepAlive => Some(at),
        Note::Handshake { source } => put_handshake(source, descriptor, out, at),
        Note::Close => put_close(descriptor, out, at),
        Note::Choke => put_message(&Message::Choke, descriptor, out, at),
        Note::Unchoke => put_message(&Message::Unchoke, descriptor, out, at),
        Note::Ack { range, delay } => put_range(Kind::Ack { delay }, range, descriptor, out, at),
        Note::Have { range } => put_range(Kind::Have, range, descriptor, out, at),
        Note::Request { range } => put_range(Kind::Request, range, descriptor, out, at),
        Note::Cancel { range } => put_range(Kind::Cancel, range, descriptor, out, at),
        Note::PexReq => put_message(&Message::PexReq, descriptor, out, at),
        Note::Pex4 { address, port } => put_address4(address, port, descriptor, out, at),
        Note::Pex6 { address, port } => put_address6(address, port, descriptor, out, at),
    }
}

/// How far a datagram was filled, and with how many notes.
#[derive(Clone, Copy)]
pub(crate) struct Packed {
    pub(crate) end: usize,
    pub(crate) count: usize,
}

// Puts the first of the notes behind the others, as many as have room.
fn fill(notes: &[Note], descriptor: &Descriptor, from: usize, out: &mut [u8]) -> Packed
    requires within { from ≤ length out.old }
    requires inside { AllByRecursion (IsInside descriptor.now) notes.now }
    requires room { length out.old ≡ 16384 }
    ensures { Fills descriptor.now notes.now from out.old result.count result.end out.new }
{
    let mut end = from;
    let mut count = 0;
    for note in notes {
        match put_note(note, descriptor, out, end) {
            Some(next) => {
                end = next;
                count += 1;
            }
            None => return Packed { end, count },
        }
    }
    Packed { end, count }
}

/// Fills a datagram with the first of the notes, as many as have room.
pub(crate) fn pack(notes: &[Note], descriptor: &Descriptor, channel: u32, out: &mut [u8]) -> Packed
    requires some { 0 < length notes.now }
    requires inside { AllByRecursion (IsInside descriptor.now) notes.now }
    requires room { length out.old ≡ 16384 }
    ensures within { result.end ≤ 16384 }
    ensures packs { Packs descriptor.now channel notes.now result.count (take result.end out.new) }
{
    let _chunk = descriptor.chunk();
    let begun = begin(channel, out);
    fill(notes, descriptor, begun, out)
}

/// Fills a datagram with a handshake, and behind it with the first of the notes, as many as have room.
pub(crate) fn pack_reply(
    reply: &Reply,
    descriptor: &Descriptor,
    channel: u32,
    out: &mut [u8],
) -> Packed
    requires inside { AllByRecursion (IsInside descriptor.now) reply.now.notes.now }
    requires room { length out.old ≡ 16384 }
    ensures within { result.end ≤ 16384 }
    ensures packs { PacksBehind descriptor.now channel reply.now.source reply.now.notes.now result.count (take result.end out.new) }
{
    let _chunk = descriptor.chunk();
    let begun = begin(channel, out);
    let Some(greeted) = put_handshake(reply.source, descriptor, out, begun) else {
        // A handshake has room in every datagram.
        return Packed {
            end: begun,
            count: 0,
        };
    };
    fill(reply.notes, descriptor, greeted, out)
}
