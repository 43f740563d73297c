// What a peer is told to fetch or to serve.
ghost use Rattle.std.specs.Prelude.{◌≡◌, ◌↔◌, ℕ, IfOk, IfErr, IsTrue, MatchOption};
ghost use Rattle.hex.specs.Hex.{IsBytes};
ghost use Rattle.pp_terms.specs.tree.Content.{IsChunkSize};
ghost use Rattle.pp_terms.specs.format.Descriptor as terms;
ghost use Rattle.pp_terms.specs.format.Descriptor.{method_number};
ghost use Rattle.pp_terms.specs.format.DescriptorRead as sized;
ghost use Rattle.pp_tree.specs.Method.{method_of};
ghost use Rattle.pp_targets.specs.Names.{target_of};
ghost use Rattle.pp_targets.specs.TargetText.{IsTarget, root_in, target_text};
ghost use Rattle.pp_targets.specs.TargetRead.{HasFault};

use crate::form::read_words;
use pp_tree::{Descriptor, DescriptorFault, Digest, Method};

/// What names a swarm to those who don't know the size of its content: the root hash, the chunk size in bytes and the
/// method.
#[derive(Clone, Copy, PartialEq, Eq, Debug)]
pub struct SwarmName {
    pub root: Digest,
    pub chunk: u32,
    pub method: Method,
}

/// A swarm that is named with its size or without.
#[derive(Clone, Copy, PartialEq, Eq, Debug)]
pub enum Target {
    Sized(Descriptor),
    Auto(SwarmName),
}

impl Target {
    /// Reads the text of a descriptor, or one with `auto` where the size stands: `ppspp1:ROOT:CHUNK:auto:METHOD`.
    pub fn read(text: &str) -> Result<Target, DescriptorFault>
        ensures ok { IfOk result (λ t. text.now ≡ target_text (target_of t)) }
        ensures valid { IfOk result (λ t. IsTarget (target_of t)) }
        ensures bytes { IfOk result (λ t. IsBytes (root_in (target_of t))) }
        ensures each { (t : Target) → IsTarget (target_of t) → IsBytes (root_in (target_of t))
            → text.now ≡ target_text (target_of t) → result ≡ Ok t }
        ensures fault { IfErr result (HasFault text.now) }
    {
        read_either(text)
    }
}

// reads a descriptor's text first
fn read_either(text: &str) -> Result<Target, DescriptorFault>
    ensures ok { IfOk result (λ t. text.now ≡ target_text (target_of t)) }
    ensures valid { IfOk result (λ t. IsTarget (target_of t)) }
    ensures bytes { IfOk result (λ t. IsBytes (root_in (target_of t))) }
    ensures fault { IfErr result (HasFault text.now) }
{
    match Descriptor::read(text) {
        Ok(descriptor) => Ok(Target::Sized(descriptor)),
        Err(DescriptorFault::Form { at }) => read_name(text.as_bytes(), at),
        Err(fault) => Err(fault),
    }
}

// reads a name's text, of which so many bytes begin some descriptor's
fn read_name(text: &[u8], begun: usize) -> Result<Target, DescriptorFault>
    requires { sized.IsFormFault text.now begun }
    ensures ok { IfOk result (λ t. text.now ≡ target_text (target_of t)) }
    ensures valid { IfOk result (λ t. IsTarget (target_of t)) }
    ensures bytes { IfOk result (λ t. IsBytes (root_in (target_of t))) }
    ensures fault { IfErr result (HasFault text.now) }
{
    let words = match read_words(text) {
        Ok(words) => words,
        Err(place) => {
            let at = place.max(begun);
            return Err(DescriptorFault::Form { at });
        }
    };
    if words.chunk > MOST_IN_CHUNK || !is_chunk_size(words.chunk as u32) {
        let at = words.chunk_at;
        return Err(DescriptorFault::Chunk { at });
    }
    match method_by_number(words.method) {
        Some(method) => Ok(Target::Auto(SwarmName {
            root: Digest::new(words.root),
            chunk: words.chunk as u32,
            method,
        })),
        None => {
            let at = words.method_at;
            Err(DescriptorFault::Method { at })
        }
    }
}

const MOST_IN_CHUNK: u128 = 1 << 13;

fn is_chunk_size(chunk: u32) -> bool
    ensures { IsTrue result ↔ IsChunkSize chunk }
{
    [256, 512, 1024, 2048, 4096, 8192].contains(&chunk)
}

// the method of that number
fn method_by_number(number: u128) -> Option<Method>
    ensures { MatchOption result ((m : terms.Method) → number ≡ method_number m → ⊥)
        (λ m. number ≡ method_number (method_of m)) }
{
    if number == 0 {
        Some(Method::Bin32)
    } else if number == 2 {
        Some(Method::Range32)
    } else if number == 3 {
        Some(Method::Bin64)
    } else if number == 4 {
        Some(Method::Range64)
    } else {
        None
    }
}
