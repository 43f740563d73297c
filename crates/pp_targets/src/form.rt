// The words of a name's text, found from left to right. Where a word isn't as it must be, the answer is the place of the
// first byte that no text of the form could have there.
ghost use Rattle.std.specs.Prelude.{◌≡◌, ℕ, ◌<◌, ◌≤◌, true, length, slice_index, IfOk, IfErr};
ghost use Rattle.hex.specs.Hex.{encode_lower, IsBytes};
ghost use Rattle.pp_terms.specs.format.DescriptorRead.{is_lower_hex};
ghost use Rattle.pp_tree.specs.Scan.{as_word, as_hex, IsRead, IsStopped, IsNumberRead, IsNoNumber};
ghost use Rattle.pp_targets.specs.NameWords.{AreNameWords, IsNameFault};

/// The words of a name's text, as numbers, and where the last two begin.
#[derive(Clone, Copy)]
pub struct Words {
    pub root: [u8; 32],
    pub chunk: u128,
    pub chunk_at: usize,
    pub method: u128,
    pub method_at: usize,
}

/// The words of a name's text, or its form's fault.
pub fn read_words(bytes: &[u8]) -> Result<Words, usize>
    ensures ok { IfOk result (AreNameWords bytes.now) }
    ensures err { IfErr result (IsNameFault bytes.now) }
{
    let root_at = skip(bytes, 0, b"ppspp1:")?;
    let root_end = skip_root(bytes, root_at)?;
    let chunk_at = skip(bytes, root_end, b":")?;
    let (chunk, chunk_end) = number(bytes, chunk_at)?;
    let method_at = skip(bytes, chunk_end, b":auto:")?;
    let (method, end) = number(bytes, method_at)?;
    if end < bytes.len() {
        return Err(end);
    }
    let root = root_bytes(&bytes[root_at..root_end]);
    Ok(Words {
        root,
        chunk,
        chunk_at,
        method,
        method_at,
    })
}

// The bytes of 64 digits.
fn root_bytes(digits: &[u8]) -> [u8; 32]
    requires len { length digits.now ≡ 64 }
    requires lower { (k : ℕ) → k < 64 → is_lower_hex (slice_index digits.now k) ≡ true }
    ensures text { encode_lower result ≡ digits.now }
    ensures all { IsBytes result }
    ensures size { length result ≡ 32 }
{
    let mut root = [0; 32];
    hex::decode_to_slice(digits, &mut root).unwrap();
    root
}

// Passes over a given word, and answers where it ends.
fn skip(bytes: &[u8], at: usize, word: &[u8]) -> Result<usize, usize>
    requires { at ≤ length bytes.now }
    ensures ok { IfOk result (IsRead (as_word word.now) (length word.now) bytes.now at) }
    ensures err { IfErr result (IsStopped (as_word word.now) (length word.now) bytes.now at) }
{
    for (i, want) in word.iter().enumerate() {
        if at + i >= bytes.len() || bytes[at + i] != *want {
            return Err(at + i);
        }
    }
    Ok(at + word.len())
}

// Passes over 64 hexadecimal digits in lower case, and answers where they end.
fn skip_root(bytes: &[u8], at: usize) -> Result<usize, usize>
    requires { at ≤ length bytes.now }
    ensures ok { IfOk result (IsRead as_hex 64 bytes.now at) }
    ensures err { IfErr result (IsStopped as_hex 64 bytes.now at) }
{
    for i in 0..64 {
        if at + i >= bytes.len() || !matches!(bytes[at + i], b'0'..=b'9' | b'a'..=b'f') {
            return Err(at + i);
        }
    }
    Ok(at + 64)
}

// Reads the number that begins there, and answers it and where it ends.
fn number(bytes: &[u8], at: usize) -> Result<(u128, usize), usize>
    requires { at ≤ length bytes.now }
    ensures ok { IfOk result (λ found. IsNumberRead bytes.now at found.0 found.1) }
    ensures err { IfErr result (IsNoNumber bytes.now at) }
{
    if at < bytes.len() && bytes[at] == b'0' {
        return Ok((0, at + 1));
    }
    let mut value = 0;
    let mut end = at;
    while end < bytes.len() && end - at < 20 && bytes[end].is_ascii_digit() {
        value = value * 10 + u128::from(bytes[end] - b'0');
        end += 1;
    }
    if end == at { Err(at) } else { Ok((value, end)) }
}
