// The words of each command, behind its name.
ghost use Rattle.std.specs.Prelude.{codes, drop, IfOk, IfErr};
ghost use Rattle.pp_words.specs.CommandLine.{Spells, IsWrongFrom, import_shape, seed_shape, fetch_shape, check_shape, export_shape, upgrade_shape, replay_shape, rehearse_shape, play_shape, record_shape, audit_shape};
ghost use Rattle.pp_words.specs.Views.{texts, command_of, usage_of};
ghost use Rattle.pp_words.specs.Slots.{Takes};

use crate::slots;
use crate::types::{Command, Usage};

pub(crate) fn import(words: &[String]) -> Result<Command<'_>, Usage>
    requires { Takes words.now 0 (codes "import") }
    ensures ok { IfOk result (λ c. Spells (texts words.now) (command_of c)) }
    ensures err { IfErr result (λ u.
        IsWrongFrom import_shape.slots import_shape.peers 1 (drop 1 (texts words.now)) (usage_of u)) }
{
    let store = slots::store(words, 1)?;
    let chunk = slots::chunk(words, 2)?;
    slots::end(words, 3)?;
    Ok(Command::Import { store, chunk })
}

pub(crate) fn seed(words: &[String]) -> Result<Command<'_>, Usage>
    requires { Takes words.now 0 (codes "seed") }
    ensures ok { IfOk result (λ c. Spells (texts words.now) (command_of c)) }
    ensures err { IfErr result (λ u.
        IsWrongFrom seed_shape.slots seed_shape.peers 1 (drop 1 (texts words.now)) (usage_of u)) }
{
    let store = slots::store(words, 1)?;
    let target = slots::target(words, 2)?;
    let listen = slots::address(words, 3)?;
    let turns = slots::some_number(words, 4, 1 << 32)?;
    slots::end(words, 5)?;
    Ok(Command::Seed {
        store,
        target,
        listen,
        turns,
    })
}

pub(crate) fn fetch(words: &[String]) -> Result<Command<'_>, Usage>
    requires { Takes words.now 0 (codes "fetch") }
    ensures ok { IfOk result (λ c. Spells (texts words.now) (command_of c)) }
    ensures err { IfErr result (λ u.
        IsWrongFrom fetch_shape.slots fetch_shape.peers 1 (drop 1 (texts words.now)) (usage_of u)) }
{
    let store = slots::store(words, 1)?;
    let target = slots::target(words, 2)?;
    let listen = slots::address(words, 3)?;
    let turns = slots::some_number(words, 4, 1 << 32)?;
    let order = slots::order(words, 5)?;
    let peers = slots::peers(words, 6)?;
    Ok(Command::Fetch {
        store,
        target,
        listen,
        turns,
        order,
        peers,
    })
}

pub(crate) fn check(words: &[String]) -> Result<Command<'_>, Usage>
    requires { Takes words.now 0 (codes "check") }
    ensures ok { IfOk result (λ c. Spells (texts words.now) (command_of c)) }
    ensures err { IfErr result (λ u.
        IsWrongFrom check_shape.slots check_shape.peers 1 (drop 1 (texts words.now)) (usage_of u)) }
{
    let store = slots::store(words, 1)?;
    let target = slots::target(words, 2)?;
    slots::end(words, 3)?;
    Ok(Command::Check { store, target })
}

pub(crate) fn export(words: &[String]) -> Result<Command<'_>, Usage>
    requires { Takes words.now 0 (codes "export") }
    ensures ok { IfOk result (λ c. Spells (texts words.now) (command_of c)) }
    ensures err { IfErr result (λ u.
        IsWrongFrom export_shape.slots export_shape.peers 1 (drop 1 (texts words.now)) (usage_of u)) }
{
    let store = slots::store(words, 1)?;
    let target = slots::target(words, 2)?;
    slots::end(words, 3)?;
    Ok(Command::Export { store, target })
}

pub(crate) fn upgrade(words: &[String]) -> Result<Command<'_>, Usage>
    requires { Takes words.now 0 (codes "upgrade") }
    ensures ok { IfOk result (λ c. Spells (texts words.now) (command_of c)) }
    ensures err { IfErr result (λ u.
        IsWrongFrom upgrade_shape.slots upgrade_shape.peers 1 (drop 1 (texts words.now)) (usage_of u)) }
{
    let store = slots::store(words, 1)?;
    let descriptor = slots::descriptor(words, 2)?;
    slots::end(words, 3)?;
    Ok(Command::Upgrade { store, descriptor })
}

pub(crate) fn replay(words: &[String]) -> Result<Command<'_>, Usage>
    requires { Takes words.now 0 (codes "replay") }
    ensures ok { IfOk result (λ c. Spells (texts words.now) (command_of c)) }
    ensures err { IfErr result (λ u.
        IsWrongFrom replay_shape.slots replay_shape.peers 1 (drop 1 (texts words.now)) (usage_of u)) }
{
    slots::end(words, 1)?;
    Ok(Command::Replay)
}

pub(crate) fn rehearse(words: &[String]) -> Result<Command<'_>, Usage>
    requires { Takes words.now 0 (codes "rehearse") }
    ensures ok { IfOk result (λ c. Spells (texts words.now) (command_of c)) }
    ensures err { IfErr result (λ u.
        IsWrongFrom rehearse_shape.slots rehearse_shape.peers 1 (drop 1 (texts words.now)) (usage_of u)) }
{
    let number = slots::rehearsal(words, 1)?;
    slots::end(words, 2)?;
    Ok(Command::Rehearse { number })
}

pub(crate) fn play(words: &[String]) -> Result<Command<'_>, Usage>
    requires { Takes words.now 0 (codes "play") }
    ensures ok { IfOk result (λ c. Spells (texts words.now) (command_of c)) }
    ensures err { IfErr result (λ u.
        IsWrongFrom play_shape.slots play_shape.peers 1 (drop 1 (texts words.now)) (usage_of u)) }
{
    let store = slots::store(words, 1)?;
    let descriptor = slots::descriptor(words, 2)?;
    let listen = slots::address(words, 3)?;
    let turns = slots::some_number(words, 4, 1 << 32)?;
    let window = slots::some_number(words, 5, 4097)?;
    let peers = slots::peers(words, 6)?;
    Ok(Command::Play {
        store,
        descriptor,
        listen,
        turns,
        window,
        peers,
    })
}

pub(crate) fn record_life(words: &[String]) -> Result<Command<'_>, Usage>
    requires { Takes words.now 0 (codes "record") }
    ensures ok { IfOk result (λ c. Spells (texts words.now) (command_of c)) }
    ensures err { IfErr result (λ u.
        IsWrongFrom record_shape.slots record_shape.peers 1 (drop 1 (texts words.now)) (usage_of u)) }
{
    let peer = slots::peer(words, 1)?;
    let life = slots::some_number(words, 2, 1 << 32)?;
    slots::end(words, 3)?;
    Ok(Command::Record { peer, life })
}

pub(crate) fn audit(words: &[String]) -> Result<Command<'_>, Usage>
    requires { Takes words.now 0 (codes "audit") }
    ensures ok { IfOk result (λ c. Spells (texts words.now) (command_of c)) }
    ensures err { IfErr result (λ u.
        IsWrongFrom audit_shape.slots audit_shape.peers 1 (drop 1 (texts words.now)) (usage_of u)) }
{
    slots::end(words, 1)?;
    Ok(Command::Audit)
}
