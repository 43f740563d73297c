//! Whether a handshake's options are those of a swarm.

ghost use Rattle.std.specs.Prelude.{◌≡◌, ◌↔◌, MatchResult, None, Some, option_copied};
ghost use Rattle.pp_terms.specs.format.Mismatch.{mismatch_of, is_swarm};
ghost use Rattle.pp_options.specs.Views.{options_of};
ghost use Rattle.pp_channels.specs.Views.{mismatch_from};

use pp_options::Options;
use pp_tree::Descriptor;

/// In what the options of a handshake differ from a swarm, with the number that the option has, or is taken as where it
/// is absent (RFC 7574, sections 7.2 to 7.10).
#[derive(Clone, Copy, Debug, PartialEq, Eq)]
pub enum Mismatch {
    /// A version of the protocol other than those from 1 on.
    Version(u8),
    /// A least version above 1.
    Minimum(u8),
    /// Another swarm's identifier, or none where one is wanted.
    Swarm,
    /// A content integrity method other than 1, the Merkle tree.
    Integrity(u8),
    /// A Merkle hash function other than 2, SHA-256.
    Hash(u8),
    /// Another chunk addressing method.
    Addressing(u8),
    /// Another chunk size, in bytes.
    Chunk(u32),
}

/// Compares a handshake's options with a swarm's and answers the first that differs, in the order of `Mismatch`. An absent
/// option is taken as version 1, least version 1, integrity method 1, hash function 2, addressing method 2 and chunk size
/// 1024; a reply may leave out the swarm's identifier.
#[tactic(auto, unfolding(pp_terms::specs::format::Mismatch::mismatch_of))]
pub fn check(options: &Options, descriptor: &Descriptor, reply: bool) -> Result<(), Mismatch>
    ensures exact { MatchResult result
        (λ _. mismatch_of descriptor.now reply (options_of options.now) ≡ None)
        (λ m. mismatch_of descriptor.now reply (options_of options.now) ≡ Some (mismatch_from m)) }
{
    let version = options.version.unwrap_or(1);
    let minimum = options.minimum.unwrap_or(1);
    let integrity = options.integrity.unwrap_or(1);
    let hash = options.hash.unwrap_or(2);
    let addressing = options.addressing.unwrap_or(2);
    let chunk = options.chunk.unwrap_or(1024);
    if version == 0 {
        Err(Mismatch::Version(version))
    } else if minimum > 1 {
        Err(Mismatch::Minimum(minimum))
    } else if !names_swarm(options.swarm, descriptor, reply) {
        Err(Mismatch::Swarm)
    } else if integrity != 1 {
        Err(Mismatch::Integrity(integrity))
    } else if hash != 2 {
        Err(Mismatch::Hash(hash))
    } else if addressing != descriptor.method().number() {
        Err(Mismatch::Addressing(addressing))
    } else if chunk != descriptor.chunk() {
        Err(Mismatch::Chunk(chunk))
    } else {
        Ok(())
    }
}

// Whether the identifier is the swarm's root; a reply may have none.
fn names_swarm(swarm: Option<&[u8]>, descriptor: &Descriptor, reply: bool) -> bool
    ensures { result ≡ is_swarm descriptor.now reply (option_copied swarm.entry) }
{
    match swarm {
        Some(bytes) => bytes == descriptor.root().bytes().as_slice(),
        None => reply,
    }
}
