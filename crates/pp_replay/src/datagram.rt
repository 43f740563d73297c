// Datagrams written in hexadecimal digits.
ghost use Rattle.std.specs.Prelude.{◌≡◌, ◌*◌, length, is_some};
ghost use Rattle.std.specs.List.{list_all};
ghost use Rattle.pp_terms.specs.format.DescriptorRead.{is_lower_hex};
ghost use Rattle.pp_world.specs.ScheduleRead.{bytes_of, datagram_in};
ghost use Rattle.pp_replay.specs.Views.{viewed, same, as_kind};

use crate::fault::ScheduleKind;
use std::marker::Model;

// How many digits the longest datagram has.
const MOST_DIGITS: usize = 32_768;

/// Bytes, kept as the pairs of hexadecimal digits in lower case that write them.
#[derive(Debug, Drop)]
pub struct Hex<'a> {
    digits: &'a [u8],
}

impl<'a> Model for Hex<'a> {
    ghost use Rattle.std.specs.Prelude.{◌≡◌, ℕ, List, is_some, true};
    ghost use Rattle.pp_world.specs.ScheduleRead.{bytes_of};
    ghost use Rattle.pp_replay.specs.Written.{bytes_in};

    ghost Value = { List ℕ };

    ghost view = { λ h. bytes_in h.digits.now };

    ghost invariant = { λ h. is_some (bytes_of h.digits.now) ≡ true };
}

impl<'a> Hex<'a> {
    /// How many bytes there are.
    pub fn len(&self) -> usize
        ensures { result ≡ length self.now }
    {
        self.digits.len() / 2
    }

    /// Writes the bytes.
    pub fn decode(&self, into: &mut [u8])
        requires { length into.old ≡ length self.now }
        ensures { into.new ≡ self.now }
    {
        hex::decode_to_slice(self.digits, into).unwrap();
    }
}

/// The datagram that a word writes.
pub(crate) fn datagram_in(word: &[u8]) -> Result<Hex<'_>, ScheduleKind>
    ensures { viewed same as_kind result ≡ datagram_in word.now }
{
    if word.is_empty() || word.len() > MOST_DIGITS {
        return Err(ScheduleKind::Hex);
    }
    if !are_pairs(word) {
        return Err(ScheduleKind::Hex);
    }
    Ok(Hex { digits: word })
}

// Whether the word is pairs of hexadecimal digits in lower case.
fn are_pairs(word: &[u8]) -> bool
    ensures { result ≡ is_some (bytes_of word.now) }
{
    word.len() % 2 == 0 && are_digits(word)
}

fn are_digits(word: &[u8]) -> bool
    ensures { result ≡ list_all is_lower_hex word.now }
{
    word.iter().all(|byte| is_lower_hex(*byte))
}

fn is_lower_hex(byte: u8) -> bool
    ensures { result ≡ is_lower_hex byte }
{
    byte.is_ascii_digit() || (b'a'..=b'f').contains(&byte)
}
