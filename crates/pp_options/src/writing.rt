//! Options written into a datagram.

ghost use Rattle.std.specs.Prelude.{◌≡◌, ◌+◌, ◌≤◌, ◌<◌, ◌^◌, ◌↔◌, List, length, option_copied, IfSome, IfOk, OnErr, IsErr};
ghost use Rattle.pp_terms.specs.Place.{placed};
ghost use Rattle.pp_terms.specs.format.Options.{Swarm, Messages, Chunk, FitOptions, IsSpelling, spelled_if, spelling_of};
ghost use Rattle.pp_options.specs.Views.{options_of, number_field, HasSpelling, HasWritten};

use crate::value::{NoRoom, Options};

fn put(out: &mut [u8], at: usize, text: &[u8]) -> usize
    requires { at + length text.now ≤ length out.old }
    ensures after { out.new ≡ placed out.old at text.now }
    ensures end { result ≡ at + length text.now }
{
    let end = at + text.len();
    out[at..end].copy_from_slice(text);
    end
}

#[tactic(auto, using(crate::proofs::Writes::by_name))]
fn put_number(out: &mut [u8], at: usize, code: u8, number: Option<u8>) -> usize
    requires { at + length (number_field code number) ≤ length out.old }
    ensures after { out.new ≡ placed out.old at (number_field code number) }
    ensures end { result ≡ at + length (number_field code number) }
{
    match number {
        Some(number) => put(out, at, &[code, number]),
        None => at,
    }
}

#[tactic(auto, using(crate::proofs::Writes::by_name))]
fn put_swarm(out: &mut [u8], at: usize, swarm: Option<&[u8]>) -> usize
    requires short { IfSome swarm (λ s. length s.now < 2 ^ 16) }
    requires room { at + length (spelled_if Swarm (option_copied swarm)) ≤ length out.old }
    ensures after { out.new ≡ placed out.old at (spelled_if Swarm (option_copied swarm.entry)) }
    ensures end { result ≡ at + length (spelled_if Swarm (option_copied swarm.entry)) }
{
    match swarm {
        Some(swarm) => {
            let [high, low] = (swarm.len() as u16).to_be_bytes();
            let place = put(out, at, &[2, high, low]);
            put(out, place, swarm)
        }
        None => at,
    }
}

#[tactic(auto, using(crate::proofs::Writes::by_name))]
fn put_messages(out: &mut [u8], at: usize, bitmap: Option<&[u8]>) -> usize
    requires short { IfSome bitmap (λ b. length b.now ≤ 32) }
    requires room { at + length (spelled_if Messages (option_copied bitmap)) ≤ length out.old }
    ensures after { out.new ≡ placed out.old at (spelled_if Messages (option_copied bitmap.entry)) }
    ensures end { result ≡ at + length (spelled_if Messages (option_copied bitmap.entry)) }
{
    match bitmap {
        Some(bitmap) => {
            let place = put(out, at, &[8, bitmap.len() as u8]);
            put(out, place, bitmap)
        }
        None => at,
    }
}

#[tactic(auto, using(crate::proofs::Writes::by_name))]
fn put_chunk(out: &mut [u8], at: usize, chunk: Option<u32>) -> usize
    requires { at + length (spelled_if Chunk chunk) ≤ length out.old }
    ensures after { out.new ≡ placed out.old at (spelled_if Chunk chunk) }
    ensures end { result ≡ at + length (spelled_if Chunk chunk) }
{
    match chunk {
        Some(chunk) => {
            let [a, b, c, d] = chunk.to_be_bytes();
            put(out, at, &[9, a, b, c, d])
        }
        None => at,
    }
}

fn number_length(number: Option<u8>) -> usize
    ensures length { result ≡ length (number_field 0 number) }
    ensures fits { IfSome number (λ n. n < 256) }
{
    match number {
        Some(_) => 2,
        None => 0,
    }
}

fn swarm_length(swarm: Option<&[u8]>) -> usize
    requires { IfSome swarm (λ s. length s.now < 2 ^ 16) }
    ensures { result ≡ length (spelled_if Swarm (option_copied swarm.entry)) }
{
    match swarm {
        Some(swarm) => 3 + swarm.len(),
        None => 0,
    }
}

fn messages_length(bitmap: Option<&[u8]>) -> usize
    requires { IfSome bitmap (λ b. length b.now ≤ 32) }
    ensures { result ≡ length (spelled_if Messages (option_copied bitmap.entry)) }
{
    match bitmap {
        Some(bitmap) => 2 + bitmap.len(),
        None => 0,
    }
}

fn chunk_length(chunk: Option<u32>) -> usize
    ensures length { result ≡ length (spelled_if Chunk chunk) }
    ensures fits { IfSome chunk (λ n. n < 2 ^ 32) }
{
    match chunk {
        Some(_) => 5,
        None => 0,
    }
}

#[tactic(auto, using(crate::proofs::Writes::length_of_fields))]
fn length_of(options: &Options) -> usize
    requires { HasSpelling (options_of options.now) }
    ensures length { result ≡ length (spelling_of (options_of options.now)) }
    ensures fits { FitOptions (options_of options.now) }
{
    let numbers = number_length(options.version)
        + number_length(options.minimum)
        + number_length(options.integrity)
        + number_length(options.hash)
        + number_length(options.addressing);
    numbers
        + swarm_length(options.swarm)
        + messages_length(options.messages)
        + chunk_length(options.chunk)
        + 1
}

#[tactic(auto, using(crate::proofs::Writes::length_by_field))]
fn put_all(options: &Options, out: &mut [u8], at: usize) -> usize
    requires fit { HasSpelling (options_of options.now) }
    requires room { at + length (spelling_of (options_of options.now)) ≤ length out.old }
    ensures after { out.new ≡ placed out.old at (spelling_of (options_of options.now)) }
    ensures end { result ≡ at + length (spelling_of (options_of options.now)) }
{
    let place = put_number(out, at, 0, options.version);
    let place = put_number(out, place, 1, options.minimum);
    let place = put_swarm(out, place, options.swarm);
    let place = put_number(out, place, 3, options.integrity);
    let place = put_number(out, place, 4, options.hash);
    let place = put_number(out, place, 6, options.addressing);
    let place = put_messages(out, place, options.messages);
    let place = put_chunk(out, place, options.chunk);
    put(out, place, &[255])
}

/// Writes the options by rising codes, code 255 last (RFC 7574, section 7), and answers the place behind them. What is
/// written is read again by `read`.
#[tactic(auto, using(pp_terms::proofs::Spellings::writer_spells))]
pub fn write(options: &Options, out: &mut [u8], at: usize) -> Result<usize, NoRoom>
    requires within { at ≤ length out.old }
    requires fit { HasSpelling (options_of options.now) }
    // The output has the options at this place and is as it was elsewhere.
    ensures written { IfOk result (λ end. HasWritten out.old at (spelling_of (options_of options.now)) out.new end) }
    // They are a spelling, so `read` gives these options again, whatever follows.
    ensures spelled { IsSpelling (options_of options.now) (spelling_of (options_of options.now)) }
    // It is as it was where it ends too early, and only there.
    ensures no_room { IsErr result ↔ (length out.old < at + length (spelling_of (options_of options.now))) }
    ensures unchanged { OnErr result (out.new ≡ out.old) }
{
    let length = length_of(options);
    if out.len() - at < length {
        return Err(NoRoom);
    }
    Ok(put_all(options, out, at))
}
