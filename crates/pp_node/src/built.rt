// The commands that are built. Each is one name here, one line in specs/Built.antt, a module, and an arm of `run`.
ghost use Rattle.std.specs.Prelude.{◌≡◌, None, IfOk, IfErr, MatchBool};
ghost use Rattle.pp_words.specs.CommandLine.{Spells, IsOneOf, IsFirstWrong, commands, named};
ghost use Rattle.pp_words.specs.Views.{texts, command_of, usage_of};
ghost use Rattle.pp_node.specs.Built.{built};

use pp_words::{Command, Usage, UsageKind, read_words};

fn is_built(name: &str) -> bool
    ensures { MatchBool result (named name.now built ≡ named name.now commands) (named name.now built ≡ None) }
{
    matches!(
        name,
        "import"
            | "seed"
            | "fetch"
            | "check"
            | "export"
            | "upgrade"
            | "replay"
            | "rehearse"
            | "play"
            | "record"
            | "audit"
    )
}

/// The command that the words spell, if it is built, or the first wrong word. The name of a command that isn't built is no
/// command's.
pub(crate) fn read_built(words: &[String]) -> Result<Command<'_>, Usage>
    ensures ok { IfOk result (λ c. Spells (texts words.now) (command_of c) × IsOneOf built (command_of c)) }
    ensures err { IfErr result (λ u. IsFirstWrong built (texts words.now) (usage_of u)) }
{
    match words {
        [name, ..] if !is_built(name.as_str()) => Err(Usage {
            word: 0,
            kind: UsageKind::Command,
        }),
        _ => read_words(words),
    }
}
