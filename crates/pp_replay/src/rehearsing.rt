//! The texts of rehearsals.

ghost use Rattle.std.specs.Prelude.{◌≡◌, List, [], ◌∷◌, ◌++◌, decimal, IfOk, OnOk};
ghost use Rattle.pp_terms.specs.command.Report.{line};
ghost use Rattle.pp_world.specs.Schedule.{words, step_lines};
ghost use Rattle.pp_world.specs.Rehearsal.{first_words, rehearsal_key, rehearsal_text, trouble};
ghost use Rattle.pp_replay.specs.DrawnLines.{beginning, rounds, drawn_lines};

use itoa::Buffer;
use rand_chacha::ChaCha8Rng;
use rand_core::SeedableRng;
use rand_core::utils::NextWord;
use std::alloc::{AllocError, Global};

// The key of a rehearsal's generator.
fn rehearsal_key(number: u64) -> [u8; 32]
    ensures { result ≡ rehearsal_key number }
{
    let mut key = [0; 32];
    key[..8].copy_from_slice(&number.to_be_bytes());
    key
}

// A number behind a space.
fn add_number(text: &mut Vec<u8>, number: u32) -> Result<(), AllocError>
    ensures { OnOk result (text.new.items ≡ text.old.items ++ 32 ∷ decimal number) }
{
    text.push(b' ')?;
    let mut digits = Buffer::new();
    text.extend_from_slice(digits.format(number).as_bytes())
}

// A line of a word and a number.
fn add_line(text: &mut Vec<u8>, word: &[u8], number: u32) -> Result<(), AllocError>
    ensures { OnOk result (text.new.items ≡ text.old.items ++ line (words (word.now ∷ decimal number ∷ []))) }
{
    text.extend_from_slice(word)?;
    add_number(text, number)?;
    text.extend_from_slice(b"\n")
}

// A line of a word and two numbers.
fn add_longer_line(
    text: &mut Vec<u8>,
    word: &[u8],
    first: u32,
    second: u32,
) -> Result<(), AllocError>
    ensures { OnOk result
        (text.new.items ≡ text.old.items ++ line (words (word.now ∷ decimal first ∷ decimal second ∷ []))) }
{
    text.extend_from_slice(word)?;
    add_number(text, first)?;
    add_number(text, second)?;
    text.extend_from_slice(b"\n")
}

// The lines of the content and of the peers, behind the first line.
fn add_beginning(text: &mut Vec<u8>, size: u32, shift: u32) -> Result<(), AllocError>
    ensures { OnOk result (text.new.items ≡ text.old.items ++ beginning size shift) }
{
    text.extend_from_slice(b"ppspp-schedule 1\n")?;
    add_longer_line(text, b"content 1024", size, shift)?;
    text.extend_from_slice(b"peer 0 seed\n")?;
    text.extend_from_slice(b"peer 1 fetch rarest 0\n")?;
    text.extend_from_slice(b"peer 2 fetch rarest 0 1\n")?;
    text.extend_from_slice(b"peer 3 fetch rarest 0 1 2\n")?;
    Ok(())
}

// What a word does to one of the peers that fetch.
fn add_trouble(text: &mut Vec<u8>, word: u32) -> Result<(), AllocError>
    ensures { OnOk result (text.new.items ≡ text.old.items ++ step_lines (trouble word)) }
{
    let peer = 1 + word / 256 % 3;
    match word % 16 {
        0 => add_line(text, b"lose", peer),
        1 => add_line(text, b"repeat", peer),
        2 => add_line(text, b"later", peer),
        3 if word / 16 % 8 == 0 => {
            add_longer_line(text, b"crash", peer, word / 65_536 % 16)?;
            add_line(text, b"start", peer)
        }
        _ => Ok(()),
    }
}

// A line of rounds of 20 milliseconds.
fn add_rounds(text: &mut Vec<u8>, count: u32) -> Result<(), AllocError>
    ensures { OnOk result (text.new.items ≡ text.old.items ++ rounds count) }
{
    add_longer_line(text, b"run", count, 20_000)
}

// What a word does, and a round behind it.
fn add_word(text: &mut Vec<u8>, word: u32) -> Result<(), AllocError>
    ensures { OnOk result (text.new.items ≡ text.old.items ++ step_lines (trouble word) ++ rounds 1) }
{
    add_trouble(text, word)?;
    add_rounds(text, 1)
}

// The steps that the next words make, as many as `count`, and many rounds at last.
fn add_steps(text: &mut Vec<u8>, words: &mut ChaCha8Rng, count: u32) -> Result<(), AllocError>
    ensures { OnOk result (text.new.items ≡ text.old.items ++ drawn_lines count words.old) }
{
    for _ in 0..count {
        add_word(text, words.next_word())?;
    }
    add_rounds(text, 4_000)?;
    Ok(())
}

/// The text of the rehearsal of this number: a schedule of a content that one peer seeds and three peers fetch, with troubles
/// drawn by ChaCha8. The generator's key is the number as eight bytes, the most significant first, then 24 zeros, and 2,002
/// words of stream 0 are taken, from the first on.
///
/// - The first word makes the content's size: 131,072 bytes, and as many more as the word is modulo 131,072. The second
///   makes its first byte, modulo 256.
/// - Each later word w makes a round of 20 milliseconds, and in front of it maybe trouble for peer 1 + w / 256 % 3:
///   `lose`, `repeat` or `later` where w % 16 is 0, 1 or 2; and where it is 3 and w / 16 % 8 is 0, a crash with the pick
///   w / 65,536 % 16 and a new start.
/// - 4,000 such rounds are the last step.
///
/// Fails where there is no memory.
pub fn rehearsal(alloc: Global, number: u64) -> Result<Vec<u8>, AllocError>
    ensures { IfOk result (λ text. text.items ≡ rehearsal_text (first_words 2002 (rehearsal_key number))) }
{
    let mut words = ChaCha8Rng::from_seed(rehearsal_key(number));
    let first = words.next_word();
    let second = words.next_word();
    let mut text = Vec::new(alloc);
    add_beginning(&mut text, 131_072 + first % 131_072, second % 256)?;
    add_steps(&mut text, &mut words, 2_000)?;
    Ok(text)
}
