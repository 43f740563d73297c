// Addresses in text.
ghost use Rattle.std.specs.Prelude.{◌≡◌, ◌≢◌, ℕ, ◌^◌, ◌<◌, List, ◌∷◌, ◌++◌, All, codes, decimal, option_map, Some, IfSome, MatchOption};
ghost use Rattle.std.specs.Net.Addr.{octets_of};
ghost use Rattle.std.specs.Net.Grammar.{IsDotted};
ghost use Rattle.pp_terms.specs.format.Addresses.{AreEightGroups, IsAddress};
ghost use Rattle.pp_terms.specs.format.Traffic as terms;
ghost use Rattle.pp_outside.specs.Outside.{address_of};

use crate::number::number;
use pp_outside::Address;
use std::net::{Ipv4Addr, Ipv6Addr};

/// The address that a text writes: `A.B.C.D:PORT`, or `[G:G:G:G:G:G:G:G]:PORT` with groups of one to four hexadecimal
/// digits of either case, where one `::` may stand for one group of zeros or more (RFC 4291, section 2.2). The port is from
/// 1 to 65535, and neither it nor A to D have leading zeros. None for any other text.
pub fn read_address(text: &[u8]) -> Option<Address>
    ensures ok { IfSome result (λ address. IsAddress text.now (address_of address)) }
    ensures each { (address : terms.Address) → IsAddress text.now address → option_map address_of result ≡ Some address }
{
    spelled_address(text)
}

fn spelled_address(text: &[u8]) -> Option<Address>
    ensures { MatchOption result ((address : terms.Address) → IsAddress text.now address → ⊥)
        (λ address. IsAddress text.now (address_of address)) }
{
    let (host, port) = split_port(text)?;
    let port = port_number(port)?;
    match inside_brackets(host) {
        Some(inner) => {
            let bytes = ipv6_bytes(inner)?;
            Some(Address::V6(bytes, port))
        }
        None => {
            let bytes = ipv4_bytes(host)?;
            Some(Address::V4(bytes, port))
        }
    }
}

// What stands before the last colon and behind it.
fn split_port(text: &[u8]) -> Option<(&[u8], &[u8])>
    ensures { MatchOption result (All (λ byte. byte ≢ 58) text.now)
        (λ parts. (text.now ≡ parts.0.now ++ 58 ∷ parts.1.now) × All (λ byte. byte ≢ 58) parts.1.now) }
{
    match text.iter().rposition(|byte| *byte == b':') {
        Some(at) => Some((&text[..at], &text[at + 1..])),
        None => None,
    }
}

fn port_number(text: &[u8]) -> Option<u16>
    ensures { MatchOption result ((port : ℕ) → 0 < port → port < 2 ^ 16 → text.now ≡ decimal port → ⊥)
        (λ port. (0 < port) × (text.now ≡ decimal port)) }
{
    let port = number(text, 65535)?;
    if port == 0 { None } else { Some(port as u16) }
}

fn inside_brackets(host: &[u8]) -> Option<&[u8]>
    ensures { MatchOption result ((inner : List ℕ) → host.now ≡ codes "[" ++ inner ++ codes "]" → ⊥)
        (λ inner. host.now ≡ codes "[" ++ inner.now ++ codes "]") }
{
    match host {
        [b'[', inner @ .., b']'] => Some(inner),
        _ => None,
    }
}

fn ipv4_bytes(host: &[u8]) -> Option<[u8; 4]>
    ensures { MatchOption result ((bytes : List ℕ) → IsDotted host.now bytes → ⊥) (λ bytes. IsDotted host.now bytes) }
{
    match Ipv4Addr::parse_ascii(host) {
        Ok(address) => Some(address.octets()),
        Err(_) => None,
    }
}

// The library also takes an IPv4 address for the last two groups; only that has points.
fn ipv6_bytes(inner: &[u8]) -> Option<[u8; 16]>
    ensures { MatchOption result ((groups : List ℕ) → AreEightGroups inner.now groups → ⊥)
        (λ bytes. (groups : List ℕ) × AreEightGroups inner.now groups × (bytes ≡ octets_of groups)) }
{
    if inner.contains(&b'.') {
        return None;
    }
    match Ipv6Addr::parse_ascii(inner) {
        Ok(address) => Some(address.octets()),
        Err(_) => None,
    }
}
