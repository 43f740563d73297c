// The texts of what stands in a recording, each added to a text.
ghost use Rattle.std.specs.Prelude.{◌≡◌, ◌<◌, ◌≤◌, ◌++◌, decimal, OnOk};
ghost use Rattle.std.specs.Char.{digit_char};
ghost use Rattle.std.specs.Net.Addr.{segments_of};
ghost use Rattle.std.specs.Net.Text as net;
ghost use Rattle.std.specs.Net.Text.{ipv4_text, groups_text, leading_zero_digits};
ghost use Rattle.hex.specs.Hex.{encode_lower};
ghost use Rattle.pp_recording.specs.Groups.{first_groups};
ghost use Rattle.pp_outside.specs.Outside.{address_of};
ghost use Rattle.pp_recording.specs.Spelling.{address_text, hex_text, node_line};

use itoa::Buffer;
use pp_outside::Address;
use pp_tree::{Digest, Node};
use std::alloc::{AllocError, Global};

/// Adds a number.
pub(crate) fn add_number(text: &mut Vec<u8>, number: u64) -> Result<(), AllocError>
    ensures { OnOk result (text.new.items ≡ text.old.items ++ decimal number) }
{
    let mut digits = Buffer::new();
    text.extend_from_slice(digits.format(number).as_bytes())
}

// The hexadecimal digit of a number below 16.
fn digit(number: u16) -> u8
    requires { number < 16 }
    ensures { result ≡ digit_char number }
{
    if number < 10 {
        b'0' + number as u8
    } else {
        b'a' + (number as u8 - 10)
    }
}

// How many of a group's four digits are leading zeros, the last one apart.
fn leading(group: u16) -> usize
    ensures zeros { result ≡ leading_zero_digits group }
    ensures few { result ≤ 3 }
{
    if group >= 4096 {
        0
    } else if group >= 256 {
        1
    } else if group >= 16 {
        2
    } else {
        3
    }
}

// Adds a group of an IPv6 address, without leading zeros.
#[tactic(auto, unfolding(std::specs::Net::Text::hex))]
fn add_group(text: &mut Vec<u8>, group: u16) -> Result<(), AllocError>
    ensures { OnOk result (text.new.items ≡ text.old.items ++ net.hex group) }
{
    let digits = [
        digit(group / 4096),
        digit(group / 256 % 16),
        digit(group / 16 % 16),
        digit(group % 16),
    ];
    text.extend_from_slice(&digits[leading(group)..])
}

// Adds the bytes of an IPv4 address with points between them.
fn add_bytes(text: &mut Vec<u8>, bytes: &[u8; 4]) -> Result<(), AllocError>
    ensures { OnOk result (text.new.items ≡ text.old.items ++ ipv4_text bytes.now) }
{
    add_number(text, u64::from(bytes[0]))?;
    text.extend_from_slice(b".")?;
    add_number(text, u64::from(bytes[1]))?;
    text.extend_from_slice(b".")?;
    add_number(text, u64::from(bytes[2]))?;
    text.extend_from_slice(b".")?;
    add_number(text, u64::from(bytes[3]))
}

// Adds the groups of an IPv6 address with colons between them.
fn add_groups(text: &mut Vec<u8>, bytes: &[u8; 16]) -> Result<(), AllocError>
    ensures { OnOk result (text.new.items ≡ text.old.items ++ groups_text (segments_of bytes.now)) }
{
    for at in 0..8 {
        if at > 0 {
            text.extend_from_slice(b":")?;
        }
        add_group(
            text,
            u16::from(bytes[2 * at]) * 256 + u16::from(bytes[2 * at + 1]),
        )?;
    }
    Ok(())
}

/// Adds an address in its one spelling.
#[tactic(auto, unfolding(crate::specs::Spelling::address_text))]
pub(crate) fn add_address(text: &mut Vec<u8>, address: &Address) -> Result<(), AllocError>
    ensures { OnOk result (text.new.items ≡ text.old.items ++ address_text (address_of address.now)) }
{
    match address {
        Address::V4(bytes, port) => {
            add_bytes(text, bytes)?;
            text.extend_from_slice(b":")?;
            add_number(text, u64::from(*port))?;
            Ok(())
        }
        Address::V6(bytes, port) => {
            text.extend_from_slice(b"[")?;
            add_groups(text, bytes)?;
            text.extend_from_slice(b"]:")?;
            add_number(text, u64::from(*port))?;
            Ok(())
        }
    }
}

/// Adds bytes in hexadecimal digits, `-` for none.
pub(crate) fn add_hex(alloc: Global, text: &mut Vec<u8>, bytes: &[u8]) -> Result<(), AllocError>
    ensures { OnOk result (text.new.items ≡ text.old.items ++ hex_text bytes.now) }
{
    if bytes.is_empty() {
        return text.extend_from_slice(b"-");
    }
    let digits = hex::encode(alloc, bytes)?;
    text.extend_from_slice(digits.as_str().as_bytes())
}

// Adds the digits of a digest.
fn add_digest(text: &mut Vec<u8>, digest: &Digest) -> Result<(), AllocError>
    ensures { OnOk result (text.new.items ≡ text.old.items ++ encode_lower digest.now) }
{
    let mut digits = [0u8; 64];
    hex::encode_to_slice(digest.bytes(), &mut digits).unwrap();
    text.extend_from_slice(&digits)
}

/// Adds the line of a node and its digest.
#[tactic(auto, unfolding(crate::specs::Spelling::node_line))]
pub(crate) fn add_node(text: &mut Vec<u8>, node: Node, digest: &Digest) -> Result<(), AllocError>
    ensures { OnOk result (text.new.items ≡ text.old.items
        ++ node_line (record { layer = node.layer; offset = node.offset; digest = digest.now })) }
{
    text.extend_from_slice(b"node ")?;
    add_number(text, u64::from(node.layer))?;
    text.extend_from_slice(b" ")?;
    add_number(text, u64::from(node.offset))?;
    text.extend_from_slice(b" ")?;
    add_digest(text, digest)?;
    text.extend_from_slice(b"\n")?;
    Ok(())
}
