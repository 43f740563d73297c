// The top call.
ghost use Rattle.std.specs.Prelude.{◌≡◌, ◌↔◌, ℕ, List, [], ◌∷◌, codes};
ghost use Rattle.pp_terms.specs.command.Order as orders;
ghost use Rattle.pp_words.specs.CommandLine.{Spells, IsImport, IsSeed, IsFetch, IsPlay, IsOnStore, IsOnTarget, IsRehearse, IsRecord, IsOneOf, IsFirstWrong};
ghost use Rattle.pp_terms.specs.format.Descriptor.{Descriptor};
ghost use Rattle.pp_terms.specs.format.Traffic.{Address};
ghost use Rattle.pp_words.specs.Usage as wrong;
ghost use Rattle.pp_words.specs.Usage.{usage_line};
ghost use Rattle.pp_tree.specs.Book.{empty_book};
ghost use Rattle.pp_words.specs.Commands as terms;
ghost use Rattle.pp_words.specs.Views.{texts, command_of};
ghost use Rattle.pp_node.specs.Built.{built};
ghost use Rattle.pp_node.specs.Auditing.{AuditEnds};
ghost use Rattle.pp_node.specs.Recordings.{RecordEnds};
ghost use Rattle.pp_node.specs.Replaying.{ReplayEnds, RehearseEnds};
ghost use Rattle.pp_node.specs.Text.{Says};
ghost use Rattle.pp_node.specs.Run.{ImportEnds};
ghost use Rattle.pp_targets.specs.Target.{SwarmName, Sized, Auto};
ghost use Rattle.pp_node.specs.Checking.{CheckEnds};
ghost use Rattle.pp_node.specs.Naming.{NamedCheckEnds};
ghost use Rattle.pp_node.specs.Exporting.{ExportEnds};
ghost use Rattle.pp_node.specs.NamedExporting.{NamedExportEnds};
ghost use Rattle.pp_node.specs.NamedFetching.{NamedFetchEnds};
ghost use Rattle.pp_node.specs.NamedSeeding.{NamedWords, NamedSeedEnds};
ghost use Rattle.pp_node.specs.Upgrading.{UpgradeEnds};
ghost use Rattle.pp_node.specs.Playing.{PlayEnds};
ghost use Rattle.pp_node.specs.Promising.{PeerWords, SeedEnds, FetchEnds};
ghost use Rattle.pp_node.specs.Outside.{outside};
ghost use Rattle.pp_node.specs.Status.{number_of};
ghost use Rattle.pp_node.specs.Commanding.{FillsBook, UsesLink, HasEnded};
ghost use Rattle.pp_node.specs.Untroubled.{IsUntroubled, AnswersWell};

use crate::auditing::audit;
use crate::built::read_built;
use crate::importing::import;
use crate::named_exporting::export_target;
use crate::named_fetching::{Fetching, fetch_target};
use crate::named_seeding::{Sharing, seed_target};
use crate::naming::check_target;
use crate::playing::play;
use crate::preparing::Peering;
use crate::recording::record;
use crate::refusing::refuse;
use crate::replaying::{rehearse, replay};
use crate::status::Status;
use crate::upgrading::upgrade;
use pp_avail::Rank;
use pp_outside::{Disk, Link, Sink, Source};
use pp_tree::Book;
use pp_words::{Command, Order};
use std::alloc::Global;

/// Does what the words of a command line say, without the program's name, and answers the exit status: 0 done, 1 for
/// words that are no command, 2 for a file that is no store of the descriptor, 3 where some chunk isn't held, 4 where the
/// disk refused a call, 5 where the link refused to listen, 6 where the source refused a read, 7 where the sink refused a
/// write, 8 for a store that isn't empty, 9 for a content of no swarm, 10 for a text that is no schedule, 11 where memory
/// ran out, 12 where a chunk was read back with another digest, 13 for a store whose size its header tells with a node that
/// covers no chunk and isn't 32 zero bytes, 14 for a recording in which a chunk wasn't served by the rules, 15 for a text
/// that is no recording, 16 for a life that a peer doesn't have, 17 for one whose recording is too large. The book is
/// empty at entry, and `random` are 32 bytes that nobody can guess, from which channel numbers are drawn.
pub fn run<D: Disk, L: Link, S: Source, K: Sink>(
    alloc: Global,
    words: &[String],
    random: [u8; 32],
    disk: &mut D,
    link: &mut L,
    source: &mut S,
    sink: &mut K,
    book: &mut Book,
) -> u8
    requires { book.old ≡ empty_book }

    // Status 1 comes exactly where the words spell no command that is built.
    ensures usage { (result ≡ 1) ↔ ((c : terms.Command) → IsOneOf built c → Spells (texts words.now) c → ⊥) }

    // Then the first wrong word is named, and nothing else is touched.
    ensures line { result ≡ 1 → (u : wrong.Usage) × IsFirstWrong built (texts words.now) u
        × Says (usage_line u) (K.state sink.old) (K.state sink.new) }
    ensures disk { result ≡ 1 → D.state disk.new ≡ D.state disk.old }
    ensures source { result ≡ 1 → S.state source.new ≡ S.state source.old }

    ensures import { (store : List ℕ) (chunk : ℕ) → IsImport (texts words.now) store chunk
        → ImportEnds result store chunk (outside (D.state disk.old) (L.seen link.old) (S.state source.old) (K.state sink.old) book.old)
        (outside (D.state disk.new) (L.seen link.new) (S.state source.new) (K.state sink.new) book.new) }

    ensures seed { (w : PeerWords) → IsSeed (texts words.now) w.store (Sized w.descriptor) w.listen w.turns
        → SeedEnds result w (outside (D.state disk.old) (L.seen link.old) (S.state source.old) (K.state sink.old) book.old)
        (outside (D.state disk.new) (L.seen link.new) (S.state source.new) (K.state sink.new) book.new) }

    ensures named_seed { (w : NamedWords) → IsSeed (texts words.now) w.store (Auto w.name) w.listen w.turns
        → NamedSeedEnds result w (outside (D.state disk.old) (L.seen link.old) (S.state source.old) (K.state sink.old) book.old)
        (outside (D.state disk.new) (L.seen link.new) (S.state source.new) (K.state sink.new) book.new) }

    ensures fetch { (w : PeerWords) (order : orders.Order) (peers : List Address)
        → IsFetch (texts words.now) w.store (Sized w.descriptor) w.listen w.turns order peers
        → FetchEnds result w peers (outside (D.state disk.old) (L.seen link.old) (S.state source.old) (K.state sink.old) book.old)
        (outside (D.state disk.new) (L.seen link.new) (S.state source.new) (K.state sink.new) book.new) }

    ensures named_fetch { (w : NamedWords) (order : orders.Order) (peers : List Address)
        → IsFetch (texts words.now) w.store (Auto w.name) w.listen w.turns order peers
        → NamedFetchEnds result w peers (outside (D.state disk.old) (L.seen link.old) (S.state source.old) (K.state sink.old) book.old)
        (outside (D.state disk.new) (L.seen link.new) (S.state source.new) (K.state sink.new) book.new) }

    ensures play { (w : PeerWords) (window : ℕ) (peers : List Address)
        → IsPlay (texts words.now) w.store w.descriptor w.listen w.turns window peers
        → PlayEnds result w window peers (outside (D.state disk.old) (L.seen link.old) (S.state source.old) (K.state sink.old) book.old)
        (outside (D.state disk.new) (L.seen link.new) (S.state source.new) (K.state sink.new) book.new) }

    ensures check { (store : List ℕ) (descriptor : Descriptor) → IsOnTarget (codes "check") (texts words.now) store (Sized descriptor)
        → CheckEnds result store descriptor (outside (D.state disk.old) (L.seen link.old) (S.state source.old) (K.state sink.old) book.old)
        (outside (D.state disk.new) (L.seen link.new) (S.state source.new) (K.state sink.new) book.new) }

    ensures named_check { (store : List ℕ) (name : SwarmName) → IsOnTarget (codes "check") (texts words.now) store (Auto name)
        → NamedCheckEnds result store name (outside (D.state disk.old) (L.seen link.old) (S.state source.old) (K.state sink.old) book.old)
        (outside (D.state disk.new) (L.seen link.new) (S.state source.new) (K.state sink.new) book.new) }

    ensures export { (store : List ℕ) (descriptor : Descriptor) → IsOnTarget (codes "export") (texts words.now) store (Sized descriptor)
        → ExportEnds result store descriptor (outside (D.state disk.old) (L.seen link.old) (S.state source.old) (K.state sink.old) book.old)
        (outside (D.state disk.new) (L.seen link.new) (S.state source.new) (K.state sink.new) book.new) }

    ensures named_export { (store : List ℕ) (name : SwarmName) → IsOnTarget (codes "export") (texts words.now) store (Auto name)
        → NamedExportEnds result store name (outside (D.state disk.old) (L.seen link.old) (S.state source.old) (K.state sink.old) book.old)
        (outside (D.state disk.new) (L.seen link.new) (S.state source.new) (K.state sink.new) book.new) }

    ensures upgrade { (store : List ℕ) (descriptor : Descriptor) → IsOnStore (codes "upgrade") (texts words.now) store descriptor
        → UpgradeEnds result store descriptor (outside (D.state disk.old) (L.seen link.old) (S.state source.old) (K.state sink.old) book.old)
        (outside (D.state disk.new) (L.seen link.new) (S.state source.new) (K.state sink.new) book.new) }

    ensures replay { texts words.now ≡ codes "replay" ∷ []
        → ReplayEnds result (outside (D.state disk.old) (L.seen link.old) (S.state source.old) (K.state sink.old) book.old)
        (outside (D.state disk.new) (L.seen link.new) (S.state source.new) (K.state sink.new) book.new) }

    ensures rehearse { (number : ℕ) → IsRehearse (texts words.now) number
        → RehearseEnds result number (outside (D.state disk.old) (L.seen link.old) (S.state source.old) (K.state sink.old) book.old)
        (outside (D.state disk.new) (L.seen link.new) (S.state source.new) (K.state sink.new) book.new) }

    ensures record { (peer life : ℕ) → IsRecord (texts words.now) peer life
        → RecordEnds result peer life (outside (D.state disk.old) (L.seen link.old) (S.state source.old) (K.state sink.old) book.old)
        (outside (D.state disk.new) (L.seen link.new) (S.state source.new) (K.state sink.new) book.new) }

    ensures audit { texts words.now ≡ codes "audit" ∷ []
        → AuditEnds result (outside (D.state disk.old) (L.seen link.old) (S.state source.old) (K.state sink.old) book.old)
        (outside (D.state disk.new) (L.seen link.new) (S.state source.new) (K.state sink.new) book.new) }

    // Where no device refused a call, a command that has what it is for is done, but for want of memory and chunks that are missing.
    ensures untroubled { (c : terms.Command) → Spells (texts words.now) c
        → IsUntroubled (outside (D.state disk.old) (L.seen link.old) (S.state source.old) (K.state sink.old) book.old)
        (outside (D.state disk.new) (L.seen link.new) (S.state source.new) (K.state sink.new) book.new)
        → IsOneOf built c → AnswersWell c result (outside (D.state disk.old) (L.seen link.old) (S.state source.old) (K.state sink.old) book.old)
        (outside (D.state disk.new) (L.seen link.new) (S.state source.new) (K.state sink.new) book.new) }

    // Only `seed`, `fetch` and `play` use the link, and only they, `check`, `export` and `upgrade` fill the book.
    ensures link { ((c : terms.Command) → Spells (texts words.now) c → UsesLink c → ⊥) → L.seen link.new ≡ L.seen link.old }
    ensures book { ((c : terms.Command) → Spells (texts words.now) c → FillsBook c → ⊥) → book.new ≡ book.old }
{
    match read_built(words) {
        Ok(command) => obey(alloc, &command, random, disk, link, source, sink, book).number(),
        Err(usage) => refuse(usage, sink).number(),
    }
}

// Does what a command says.
fn obey<D: Disk, L: Link, S: Source, K: Sink>(
    alloc: Global,
    command: &Command<'_>,
    random: [u8; 32],
    disk: &mut D,
    link: &mut L,
    source: &mut S,
    sink: &mut K,
    book: &mut Book,
) -> Status
    requires empty { book.old ≡ empty_book }
    requires spelled { (words : List (List ℕ)) × Spells words (command_of command.now) }
    requires built { IsOneOf built (command_of command.now) }
    ensures ended { HasEnded (command_of command.now) (number_of result)
        (outside (D.state disk.old) (L.seen link.old) (S.state source.old) (K.state sink.old) book.old)
        (outside (D.state disk.new) (L.seen link.new) (S.state source.new) (K.state sink.new) book.new) }
    ensures link { (UsesLink (command_of command.now) → ⊥) → L.seen link.new ≡ L.seen link.old }
    ensures book { (FillsBook (command_of command.now) → ⊥) → book.new ≡ book.old }
{
    match command {
        Command::Import { store, chunk } => import(store, *chunk, disk, source, sink),
        Command::Seed {
            store,
            target,
            listen,
            turns,
        } => {
            let words = Sharing {
                store,
                target,
                listen,
                turns: *turns,
                random,
            };
            seed_target(alloc, &words, disk, link, sink, book)
        }
        Command::Fetch {
            store,
            target,
            listen,
            turns,
            order,
            peers,
        } => {
            let words = Fetching {
                store,
                target,
                listen,
                turns: *turns,
                rank: rank_of(*order),
                dial: peers,
                random,
            };
            fetch_target(alloc, &words, disk, link, sink, book)
        }
        Command::Check { store, target } => check_target(alloc, store, target, disk, sink, book),
        Command::Export { store, target } => export_target(alloc, store, target, disk, sink, book),
        Command::Upgrade { store, descriptor } => {
            upgrade(alloc, store, descriptor, disk, source, sink, book)
        }
        Command::Replay => replay(alloc, source, sink),
        Command::Rehearse { number } => rehearse(alloc, *number, sink),
        Command::Play {
            store,
            descriptor,
            listen,
            turns,
            window,
            peers,
        } => {
            let words = Peering {
                store,
                descriptor,
                listen,
                turns: *turns,
                asks: Some(Rank::Blocks),
                dial: peers,
                random,
                earlier: None,
            };
            play(alloc, &words, *window, disk, link, sink, book)
        }
        Command::Record { peer, life } => record(alloc, *peer, *life, source, sink),
        Command::Audit => audit(alloc, source, sink),
    }
}

// The order in which a fetch asks for chunks.
fn rank_of(order: Order) -> Rank {
    match order {
        Order::Sequential => Rank::Sequential,
        Order::Rarest => Rank::Rarest,
    }
}
