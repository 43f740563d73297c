// The command that words spell.
ghost use Rattle.std.specs.Prelude.{◌≡◌, IfOk, IfErr, IsOkAnd, IsErrAnd};
ghost use Rattle.pp_words.specs.Commands as terms;
ghost use Rattle.pp_words.specs.CommandLine.{Spells, IsFirstWrong, commands};
ghost use Rattle.pp_words.specs.Usage as wrong;
ghost use Rattle.pp_words.specs.Views.{texts, command_of, usage_of};

use crate::commands::{
    audit, check, export, fetch, import, play, record_life, rehearse, replay, seed, upgrade,
};
use crate::slots::word;
use crate::types::{Command, Usage, UsageKind};

/// The command that the words spell, without the program's name, or the first wrong word from the left. Each word is
/// judged before the next one, and a word is missing only where all before it are right. `check`, `export` and `seed` take a
/// descriptor or a name without the size, with `auto` where the size stands; the other commands take a descriptor alone.
pub fn read_words(words: &[String]) -> Result<Command<'_>, Usage>
    // A command is answered exactly where the words spell it.
    ensures ok { IfOk result (λ c. Spells (texts words.now) (command_of c)) }
    ensures each { (c : terms.Command) → Spells (texts words.now) c → IsOkAnd result (λ r. command_of r ≡ c) }

    // A wrong word is named exactly where it is the first one.
    ensures err { IfErr result (λ u. IsFirstWrong commands (texts words.now) (usage_of u)) }
    ensures each_err { (u : wrong.Usage) → IsFirstWrong commands (texts words.now) u → IsErrAnd result (λ r. usage_of r ≡ u) }
{
    read_named(words)
}

// Reads the words of the command that the first one names.
fn read_named(words: &[String]) -> Result<Command<'_>, Usage>
    ensures ok { IfOk result (λ c. Spells (texts words.now) (command_of c)) }
    ensures err { IfErr result (λ u. IsFirstWrong commands (texts words.now) (usage_of u)) }
{
    match word(words, 0)? {
        "import" => import(words),
        "seed" => seed(words),
        "fetch" => fetch(words),
        "check" => check(words),
        "export" => export(words),
        "upgrade" => upgrade(words),
        "replay" => replay(words),
        "rehearse" => rehearse(words),
        "play" => play(words),
        "record" => record_life(words),
        "audit" => audit(words),
        _ => Err(Usage {
            word: 0,
            kind: UsageKind::Command,
        }),
    }
}
