// Lines of a text, and words of a line.
ghost use Rattle.std.specs.Prelude.{◌≡◌, ◌≢◌, ◌<◌, [], ◌∷◌, ◌++◌, All, length, nat_le, ◌==◌, count_by, MatchOption};
ghost use Rattle.pp_world.specs.ScheduleRead.{rows_of, words_of};
ghost use Rattle.pp_replay.specs.Arity.{are_none};
ghost use Rattle.pp_replay.specs.Lines.{as_row, words_left};

/// A line, without the line feed that ends it.
#[derive(Clone, Copy)]
pub(crate) struct Row<'a> {
    pub text: &'a [u8],
    pub is_ended: bool,
}

/// The words of a line that are left. Each space ends one.
#[derive(Clone, Copy)]
pub(crate) struct Words<'a> {
    pub rest: Option<&'a [u8]>,
}

// What stands before the first such byte and behind it.
fn split_at_byte(text: &[u8], byte: u8) -> Option<(&[u8], &[u8])>
    ensures { MatchOption result (All (λ b. b ≢ byte) text.now)
        (λ parts. (text.now ≡ parts.0.now ++ byte ∷ parts.1.now) × All (λ b. b ≢ byte) parts.0.now) }
{
    match text.iter().position(|b| *b == byte) {
        Some(at) => Some((&text[..at], &text[at + 1..])),
        None => None,
    }
}

/// The first line, and the text behind it. A text of no bytes has no line.
pub(crate) fn first_row(text: &[u8]) -> Option<(Row<'_>, &[u8])>
    ensures { MatchOption result (text.now ≡ [])
        (λ r. (rows_of text.now ≡ as_row r.0 ∷ rows_of r.1.now) × (length r.1.now < length text.now)) }
{
    if text.is_empty() {
        return None;
    }
    match split_at_byte(text, b'\n') {
        Some((line, behind)) => Some((
            Row {
                text: line,
                is_ended: true,
            },
            behind,
        )),
        None => Some((
            Row {
                text,
                is_ended: false,
            },
            &text[text.len()..],
        )),
    }
}

/// The first word of a line, and those behind it.
pub(crate) fn first_word(line: &[u8]) -> (&[u8], Words<'_>)
    ensures { words_of line.now ≡ result.0.now ∷ words_left result.1 }
{
    match split_at_byte(line, b' ') {
        Some((word, behind)) => (word, Words { rest: Some(behind) }),
        None => (line, Words { rest: None }),
    }
}

// How many bytes are spaces.
fn spaces(line: &[u8]) -> usize
    ensures { result ≡ count_by (λ b. b == 32) line.now }
{
    line.iter().filter(|b| **b == b' ').count()
}

impl<'a> Words<'a> {
    pub(crate) fn next_word(&mut self) -> Option<&'a [u8]>
        ensures { MatchOption result ((words_left self.old ≡ []) × (words_left self.new ≡ []))
            (λ word. words_left self.old ≡ word.now ∷ words_left self.new) }
    {
        let line = self.rest?;
        let (word, behind) = first_word(line);
        self.rest = behind.rest;
        Some(word)
    }

    pub(crate) fn is_empty(&self) -> bool
        ensures { result ≡ are_none (words_left self.now) }
    {
        self.rest.is_none()
    }

    /// Whether there are at most 15.
    pub(crate) fn are_few(&self) -> bool
        ensures { result ≡ nat_le (length (words_left self.now)) 15 }
    {
        match self.rest {
            Some(line) => spaces(line) < 15,
            None => true,
        }
    }
}
