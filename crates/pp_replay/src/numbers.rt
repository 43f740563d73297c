// Numbers in decimal digits.
ghost use Rattle.std.specs.Prelude.{◌≡◌, ◌^◌, ◌<◌, ◌≤◌, true, false, length, MatchOption, IfOk, IsTrue};
ghost use Rattle.std.specs.List.{list_all};
ghost use Rattle.pp_terms.specs.format.DescriptorRead.{is_digit, number_of};
ghost use Rattle.pp_world.specs.ScheduleRead.{is_number, number_in, peer_in, one_of};
ghost use Rattle.pp_replay.specs.Views.{viewed, as_kind, same};
ghost use Rattle.pp_replay.specs.Numbers.{may_be_number};

use crate::fault::ScheduleKind;

// How many digits the greatest number of 64 bits has.
const MOST_DIGITS: usize = 20;

/// The number that a word writes, if it is from `least` to `most`.
pub(crate) fn number_in(least: u64, most: u64, word: &[u8]) -> Result<u64, ScheduleKind>
    ensures { viewed same as_kind result ≡ number_in least most word.now }
{
    match number(word) {
        Some(value) if u128::from(least) <= value && value <= u128::from(most) => Ok(value as u64),
        _ => Err(ScheduleKind::Number),
    }
}

/// The number that a peer can have.
pub(crate) fn peer_in(word: &[u8]) -> Result<u8, ScheduleKind>
    ensures number { viewed same as_kind result ≡ peer_in word.now }
    ensures low { IfOk result (λ peer. peer ≤ 15) }
{
    match number_in(0, 15, word) {
        Ok(peer) => Ok(peer as u8),
        Err(kind) => Err(kind),
    }
}

/// The number of one of so many peers.
pub(crate) fn one_of(peers: u8, peer: u8) -> Result<u8, ScheduleKind>
    ensures { viewed same as_kind result ≡ one_of peers peer }
{
    if peer < peers {
        Ok(peer)
    } else {
        Err(ScheduleKind::Peer)
    }
}

// The number that the word writes.
fn number(word: &[u8]) -> Option<u128>
    ensures { MatchOption result (is_number word.now ≡ false) (λ n. (is_number word.now ≡ true) × (n ≡ number_of word.now)) }
{
    if may_be_number(word) {
        digits(word)
    } else {
        None
    }
}

// Whether the word is as long as a number may be, and has no leading zero.
fn may_be_number(word: &[u8]) -> bool
    ensures number { result ≡ may_be_number word.now }
    ensures short { IsTrue result → length word.now ≤ 20 }
{
    match word {
        [] => false,
        [_] => true,
        [first, ..] => *first != b'0' && word.len() <= MOST_DIGITS,
    }
}

// The number that digits write.
fn digits(word: &[u8]) -> Option<u128>
    requires { length word.now ≤ 20 }
    ensures { MatchOption result (list_all is_digit word.now ≡ false)
        (λ n. (list_all is_digit word.now ≡ true) × (n ≡ number_of word.now)) }
{
    let mut value = 0;
    for byte in word {
        if !byte.is_ascii_digit() {
            return None;
        }
        value = value * 10 + u128::from(*byte - b'0');
    }
    Some(value)
}
