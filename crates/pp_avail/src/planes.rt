// Numbers in bit planes.
ghost use Rattle.std.specs.Prelude.{◌≡◌, ℕ, ◌+◌, ◌*◌, ◌/◌, ◌%◌, ◌^◌, ◌<◌, ◌≤◌, ◌==◌, IfSome};
ghost use Rattle.std.specs.Int.{bit_at};
ghost use Rattle.pp_avail.specs.Planes.{number_at};

/// 64 numbers below 128, a binary digit of all of them in one word: the number at a place has its digits at that place of
/// the words. So a change of many numbers by one takes a few steps.
#[derive(Clone, Copy, Debug)]
pub(crate) struct Planes {
    ones: u64,
    twos: u64,
    fours: u64,
    eights: u64,
    sixteens: u64,
    thirty_twos: u64,
    sixty_fours: u64,
}

// Adds one digit at each place, and gives what is carried on.
fn carried(plane: &mut u64, digits: u64) -> u64
    ensures { (k : ℕ) → bit_at plane.new k + 2 * bit_at result k ≡ bit_at plane.old k + bit_at digits k }
{
    let carry = *plane & digits;
    *plane ^= digits;
    carry
}

// Takes one digit off at each place, and gives what is borrowed.
fn borrowed(plane: &mut u64, digits: u64) -> u64
    ensures { (k : ℕ) → bit_at plane.new k + bit_at digits k ≡ bit_at plane.old k + 2 * bit_at result k }
{
    *plane ^= digits;
    *plane & digits
}

// The digit at a place.
fn digit(plane: u64, k: usize) -> u32
    requires { k < 64 }
    ensures { result ≡ bit_at plane k }
{
    ((plane >> k) & 1) as u32
}

// The places whose digit is that of a number.
fn alike(plane: u64, number: u32, place: u32) -> u64
    requires { place < 32 }
    ensures { (k : ℕ) → k < 64 → (bit_at result k == 1) ≡ (bit_at plane k == bit_at number place) }
{
    if (number >> place) & 1 == 1 {
        plane
    } else {
        !plane
    }
}

// The digit that all places have, where they have the same. No caller rests on it that `None` comes only where they differ.
fn shared(plane: u64) -> Option<u32>
    ensures { IfSome result (λ digit. (digit < 2) × ((k : ℕ) → k < 64 → bit_at plane k ≡ digit)) }
{
    if plane == 0 {
        Some(0)
    } else if plane == u64::MAX {
        Some(1)
    } else {
        None
    }
}

impl Planes {
    /// All numbers are 0.
    pub(crate) const ZERO: Planes = Planes {
        ones: 0,
        twos: 0,
        fours: 0,
        eights: 0,
        sixteens: 0,
        thirty_twos: 0,
        sixty_fours: 0,
    };

    /// The number at a place.
    pub(crate) fn at(&self, k: usize) -> u32
        requires { k < 64 }
        ensures value { result ≡ number_at self.now k }
        ensures range { result < 128 }
    {
        digit(self.ones, k)
            + 2 * digit(self.twos, k)
            + 4 * digit(self.fours, k)
            + 8 * digit(self.eights, k)
            + 16 * digit(self.sixteens, k)
            + 32 * digit(self.thirty_twos, k)
            + 64 * digit(self.sixty_fours, k)
    }

    /// The number that all places have, where they have the same. No caller rests on it that `None` comes only where they differ.
    pub(crate) fn same(&self) -> Option<u32>
        ensures { IfSome result (λ number. (number < 128) × ((k : ℕ) → k < 64 → number_at self.now k ≡ number)) }
    {
        Some(
            shared(self.ones)?
                + 2 * shared(self.twos)?
                + 4 * shared(self.fours)?
                + 8 * shared(self.eights)?
                + 16 * shared(self.sixteens)?
                + 32 * shared(self.thirty_twos)?
                + 64 * shared(self.sixty_fours)?,
        )
    }

    /// The places that have a number.
    pub(crate) fn places_of(&self, number: u32) -> u64
        requires { number < 128 }
        ensures { (k : ℕ) → k < 64 → (bit_at result k == 1) ≡ (number_at self.now k == number) }
    {
        alike(self.ones, number, 0)
            & alike(self.twos, number, 1)
            & alike(self.fours, number, 2)
            & alike(self.eights, number, 3)
            & alike(self.sixteens, number, 4)
            & alike(self.thirty_twos, number, 5)
            & alike(self.sixty_fours, number, 6)
    }

    /// Raises the numbers at some places by one, each of which has room.
    pub(crate) fn raise(&mut self, places: u64)
        requires { (k : ℕ) → number_at self.old k + bit_at places k < 128 }
        ensures { (k : ℕ) → number_at self.new k ≡ number_at self.old k + bit_at places k }
    {
        let carry = carried(&mut self.ones, places);
        let carry = carried(&mut self.twos, carry);
        let carry = carried(&mut self.fours, carry);
        let carry = carried(&mut self.eights, carry);
        let carry = carried(&mut self.sixteens, carry);
        let carry = carried(&mut self.thirty_twos, carry);
        carried(&mut self.sixty_fours, carry);
    }

    /// Lowers the numbers at some places by one, none of which is 0.
    pub(crate) fn lower(&mut self, places: u64)
        requires { (k : ℕ) → bit_at places k ≤ number_at self.old k }
        ensures { (k : ℕ) → number_at self.new k + bit_at places k ≡ number_at self.old k }
    {
        let borrow = borrowed(&mut self.ones, places);
        let borrow = borrowed(&mut self.twos, borrow);
        let borrow = borrowed(&mut self.fours, borrow);
        let borrow = borrowed(&mut self.eights, borrow);
        let borrow = borrowed(&mut self.sixteens, borrow);
        let borrow = borrowed(&mut self.thirty_twos, borrow);
        borrowed(&mut self.sixty_fours, borrow);
    }
}
