// Text put piece by piece into a buffer.
ghost use Rattle.std.specs.Prelude.{◌≡◌, ℕ, ◌+◌, ◌≤◌, ◌++◌, length, take, drop, decimal};
ghost use Rattle.hex.specs.Hex.{encode_lower};

use itoa::Buffer;

/// Puts the bytes at a place of the buffer, and answers where they end.
pub fn put(out: &mut [u8], at: usize, bytes: &[u8]) -> usize
    requires { at + length bytes.now ≤ length out.old }
    ensures end { result ≡ at + length bytes.now }
    ensures front { take result out.new ≡ take at out.old ++ bytes.now }
    ensures back { (k : ℕ) → result ≤ k → drop k out.new ≡ drop k out.old }
{
    let end = at + bytes.len();
    out[at..end].copy_from_slice(bytes);
    end
}

/// Puts the bytes' hexadecimal digits at a place of the buffer, and answers where they end.
pub fn put_hex(out: &mut [u8], at: usize, bytes: &[u8; 32]) -> usize
    requires { at + 64 ≤ length out.old }
    ensures end { result ≡ at + 64 }
    ensures front { take result out.new ≡ take at out.old ++ encode_lower bytes.now }
    ensures back { (k : ℕ) → result ≤ k → drop k out.new ≡ drop k out.old }
{
    let mut digits = [0u8; 64];
    hex::encode_to_slice(bytes, &mut digits).unwrap();
    put(out, at, &digits)
}

/// Puts the number's decimal digits at a place of the buffer, and answers where they end.
pub fn put_decimal(out: &mut [u8], at: usize, number: u64) -> usize
    requires { at + length (decimal number) ≤ length out.old }
    ensures end { result ≡ at + length (decimal number) }
    ensures front { take result out.new ≡ take at out.old ++ decimal number }
    ensures back { (k : ℕ) → result ≤ k → drop k out.new ≡ drop k out.old }
{
    let mut buffer = Buffer::new();
    put(out, at, buffer.format(number).as_bytes())
}
