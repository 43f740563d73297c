// So many words and no more.
ghost use Rattle.std.specs.Prelude.{◌≡◌};
ghost use Rattle.pp_replay.specs.Arity.{only_one, only_two, only_three};
ghost use Rattle.pp_replay.specs.Lines.{words_left};
ghost use Rattle.pp_replay.specs.Views.{viewed, as_kind};

use crate::fault::ScheduleKind;
use crate::lines::Words;

pub(crate) fn one_word(mut words: Words<'_>) -> Result<&[u8], ScheduleKind>
    ensures { viewed (λ word. word.now) as_kind result ≡ only_one (words_left words.entry) }
{
    match words.next_word() {
        Some(word) if words.is_empty() => Ok(word),
        _ => Err(ScheduleKind::Line),
    }
}

pub(crate) fn two_words(mut words: Words<'_>) -> Result<(&[u8], &[u8]), ScheduleKind>
    ensures { viewed (λ pair. (pair.0.now, pair.1.now)) as_kind result ≡ only_two (words_left words.entry) }
{
    match words.next_word() {
        Some(first) => match one_word(words) {
            Ok(second) => Ok((first, second)),
            Err(kind) => Err(kind),
        },
        None => Err(ScheduleKind::Line),
    }
}

pub(crate) fn three_words(mut words: Words<'_>) -> Result<(&[u8], &[u8], &[u8]), ScheduleKind>
    ensures { viewed (λ all. (all.0.now, all.1.now, all.2.now)) as_kind result ≡ only_three (words_left words.entry) }
{
    match words.next_word() {
        Some(first) => match two_words(words) {
            Ok((second, third)) => Ok((first, second, third)),
            Err(kind) => Err(kind),
        },
        None => Err(ScheduleKind::Line),
    }
}
