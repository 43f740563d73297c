// Numbers in decimal digits.
ghost use Rattle.std.specs.Prelude.{◌≡◌, ◌↔◌, ℕ, ◌<◌, ◌≤◌, length, slice_index, decimal, MatchOption, IsTrue};
ghost use Rattle.pp_terms.specs.format.DescriptorRead.{number_of};
ghost use Rattle.pp_words.specs.Digits.{AreDigits};

// How many digits the greatest number of 64 bits has.
const MOST_DIGITS: usize = 20;

/// The number that the text writes in decimal digits without a leading zero, if it is at most `most`.
pub fn number(text: &[u8], most: u64) -> Option<u64>
    ensures { MatchOption result ((n : ℕ) → n ≤ most → text.now ≡ decimal n → ⊥)
        (λ n. (n ≤ most) × (text.now ≡ decimal n)) }
{
    if !may_be_number(text) {
        return None;
    }
    let value = digits(text)?;
    if value > u128::from(most) {
        return None;
    }
    Some(value as u64)
}

// Whether the text is as long as a number may be, and has no leading zero.
fn may_be_number(text: &[u8]) -> bool
    ensures { IsTrue result ↔ ((0 < length text.now) × (length text.now ≤ 20) × (slice_index text.now 0 ≡ 48 → length text.now ≡ 1)) }
{
    match text {
        [] => false,
        [b'0'] => true,
        [first, ..] => *first != b'0' && text.len() <= MOST_DIGITS,
    }
}

// The number that digits write.
fn digits(text: &[u8]) -> Option<u128>
    requires { length text.now ≤ 20 }
    ensures { MatchOption result (AreDigits text.now → ⊥) (λ n. AreDigits text.now × (n ≡ number_of text.now)) }
{
    let mut value = 0;
    for byte in text {
        if !byte.is_ascii_digit() {
            return None;
        }
        value = value * 10 + u128::from(*byte - b'0');
    }
    Some(value)
}
