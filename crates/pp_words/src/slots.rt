// One word of a command line after the other, each for its place. `at` counts the words from 0.
ghost use Rattle.std.specs.Prelude.{◌≡◌, ℕ, ◌+◌, ◌^◌, ◌<◌, ◌≤◌, List, [], ◌∷◌, length, map, drop, decimal, MatchOption, IfOk, IfErr, OnOk};
ghost use Rattle.std.specs.List.{AllZip};
ghost use Rattle.pp_terms.specs.format.Addresses.{IsAddress};
ghost use Rattle.pp_terms.specs.command.Order.{order_text};
ghost use Rattle.pp_terms.specs.tree.Content.{IsChunkSize};
ghost use Rattle.pp_words.specs.CommandLine.{AStore, AChunk, ANumber, ADescriptor, ATarget, AnAddress, AnOrder, IsStore, IsDescriptorText, IsTargetText, IsWrongFrom};
ghost use Rattle.pp_words.specs.Usage.{usage, Missing};
ghost use Rattle.pp_outside.specs.Outside.{address_of};
ghost use Rattle.pp_targets.specs.Names.{target_of};
ghost use Rattle.pp_words.specs.Views.{texts, order_of, usage_of};
ghost use Rattle.pp_words.specs.Slots.{Takes, Stops};

use crate::address::read_address;
use crate::number::number;
use crate::types::{Order, Usage, UsageKind};
use arrayvec::ArrayVec;
use pp_outside::Address;
use pp_targets::Target;
use pp_tree::Descriptor;

/// The word at a place.
pub(crate) fn word(words: &[String], at: usize) -> Result<&str, Usage>
    ensures ok { IfOk result (λ text. Takes words.now at text.now) }
    ensures err { IfErr result (λ u. (drop at (texts words.now) ≡ []) × (usage_of u ≡ usage at Missing)) }
{
    match words.get(at) {
        Some(word) => Ok(word.as_str()),
        None => Err(wrong(at, UsageKind::Missing)),
    }
}

fn wrong(word: usize, kind: UsageKind) -> Usage
    ensures word { result.word ≡ word }
    ensures kind { result.kind ≡ kind }
{
    Usage { word, kind }
}

pub(crate) fn store(words: &[String], at: usize) -> Result<&str, Usage>
    ensures ok { IfOk result (λ store. Takes words.now at store.now × IsStore store.now) }
    ensures err { IfErr result (Stops AStore words.now at) }
{
    let store = word(words, at)?;
    if store.is_empty() {
        return Err(wrong(at, UsageKind::Store));
    }
    Ok(store)
}

pub(crate) fn chunk(words: &[String], at: usize) -> Result<u32, Usage>
    ensures ok { IfOk result (λ chunk. Takes words.now at (decimal chunk) × IsChunkSize chunk) }
    ensures err { IfErr result (Stops AChunk words.now at) }
{
    let word = word(words, at)?;
    match chunk_size(word) {
        Some(chunk) => Ok(chunk),
        None => Err(wrong(at, UsageKind::Chunk)),
    }
}

fn chunk_size(word: &str) -> Option<u32>
    ensures { MatchOption result
        ((chunk : ℕ) → IsChunkSize chunk → word.now ≡ decimal chunk → ⊥)
        (λ chunk. IsChunkSize chunk × (word.now ≡ decimal chunk)) }
{
    match word {
        "256" => Some(256),
        "512" => Some(512),
        "1024" => Some(1024),
        "2048" => Some(2048),
        "4096" => Some(4096),
        "8192" => Some(8192),
        _ => None,
    }
}

/// A number from 1 on and below a limit.
pub(crate) fn some_number(words: &[String], at: usize, limit: u64) -> Result<u32, Usage>
    requires some { 0 < limit }
    requires low { limit ≤ 2 ^ 32 }
    ensures ok { IfOk result (λ n. Takes words.now at (decimal n) × (1 ≤ n) × (n < limit)) }
    ensures err { IfErr result (Stops (ANumber 1 limit) words.now at) }
{
    let word = word(words, at)?;
    match number(word.as_bytes(), limit - 1) {
        Some(0) => Err(wrong(at, UsageKind::Number)),
        Some(number) => Ok(number as u32),
        None => Err(wrong(at, UsageKind::Number)),
    }
}

pub(crate) fn peer(words: &[String], at: usize) -> Result<u8, Usage>
    ensures ok { IfOk result (λ peer. Takes words.now at (decimal peer) × (peer < 16)) }
    ensures err { IfErr result (Stops (ANumber 0 16) words.now at) }
{
    let word = word(words, at)?;
    match number(word.as_bytes(), 15) {
        Some(peer) => Ok(peer as u8),
        None => Err(wrong(at, UsageKind::Number)),
    }
}

pub(crate) fn rehearsal(words: &[String], at: usize) -> Result<u64, Usage>
    ensures ok { IfOk result (λ n. Takes words.now at (decimal n) × (n < 2 ^ 64)) }
    ensures err { IfErr result (Stops (ANumber 0 (2 ^ 64)) words.now at) }
{
    let word = word(words, at)?;
    match number(word.as_bytes(), u64::MAX) {
        Some(number) => Ok(number),
        None => Err(wrong(at, UsageKind::Number)),
    }
}

pub(crate) fn descriptor(words: &[String], at: usize) -> Result<Descriptor, Usage>
    ensures ok { IfOk result (λ descriptor.
        (text : List ℕ) × Takes words.now at text × IsDescriptorText text descriptor) }
    ensures err { IfErr result (Stops ADescriptor words.now at) }
{
    let word = word(words, at)?;
    match Descriptor::read(word) {
        Ok(descriptor) => Ok(descriptor),
        Err(fault) => Err(wrong(at, UsageKind::Descriptor(fault))),
    }
}

/// A descriptor, or a name without the size.
pub(crate) fn target(words: &[String], at: usize) -> Result<Target, Usage>
    ensures ok { IfOk result (λ target.
        (text : List ℕ) × Takes words.now at text × IsTargetText text (target_of target)) }
    ensures err { IfErr result (Stops ATarget words.now at) }
{
    let word = word(words, at)?;
    match Target::read(word) {
        Ok(target) => Ok(target),
        Err(fault) => Err(wrong(at, UsageKind::Descriptor(fault))),
    }
}

pub(crate) fn address(words: &[String], at: usize) -> Result<Address, Usage>
    ensures ok { IfOk result (λ address.
        (text : List ℕ) × Takes words.now at text × IsAddress text (address_of address)) }
    ensures err { IfErr result (Stops AnAddress words.now at) }
{
    let word = word(words, at)?;
    match read_address(word.as_bytes()) {
        Some(address) => Ok(address),
        None => Err(wrong(at, UsageKind::Address)),
    }
}

pub(crate) fn order(words: &[String], at: usize) -> Result<Order, Usage>
    ensures ok { IfOk result (λ order. Takes words.now at (order_text (order_of order))) }
    ensures err { IfErr result (Stops AnOrder words.now at) }
{
    match word(words, at)? {
        "sequential" => Ok(Order::Sequential),
        "rarest" => Ok(Order::Rarest),
        _ => Err(wrong(at, UsageKind::Order)),
    }
}

/// The 1 to 16 peers that end the words.
pub(crate) fn peers(words: &[String], first: usize) -> Result<ArrayVec<Address, 16>, Usage>
    requires { first < 8 }
    ensures ok { IfOk result (λ peers. AllZip IsAddress (drop first (texts words.now)) (map address_of peers.items)
        × (0 < length peers.items) × (length peers.items < 17)) }
    ensures err { IfErr result (λ u. IsWrongFrom (AnAddress ∷ []) 15 first (drop first (texts words.now)) (usage_of u)) }
{
    let mut peers = ArrayVec::new();
    let peer = address(words, first)?;
    peers.push(peer);
    for at in first + 1..words.len() {
        if peers.is_full() {
            return Err(wrong(at, UsageKind::Extra));
        }
        let peer = address(words, at)?;
        peers.push(peer);
    }
    Ok(peers)
}

/// Says whether the words end there.
pub(crate) fn end(words: &[String], at: usize) -> Result<(), Usage>
    ensures ok { OnOk result (drop at (texts words.now) ≡ []) }
    ensures err { IfErr result (λ u. IsWrongFrom [] 0 at (drop at (texts words.now)) (usage_of u)) }
{
    if at < words.len() {
        return Err(wrong(at, UsageKind::Extra));
    }
    Ok(())
}
