// The queues of all peers.
ghost use Rattle.std.specs.Prelude.{◌≡◌, ◌<◌, ◌==◌, [], ◌∷◌, ◌++◌, length, take, drop, replicate, option_map, slice_get, IfOk, OnOk, OnErr};
ghost use Rattle.pp_outside.specs.Outside as outside;
ghost use Rattle.pp_world.specs.World.{address_of};
ghost use Rattle.pp_mail.specs.Mail.{queue_of, with_queue, delivered};

use crate::addresses::{address_of, peer_at};
use pp_outside::Address;
use slab::Slab;
use std::alloc::{AllocError, Global};
use std::collections::VecDeque;
use std::marker::Model;

// How many datagrams wait for a peer when one more that is sent to it is lost.
const MOST_QUEUED: usize = 1_024;

#[derive(Drop)]
struct Letter {
    sender: Address,
    bytes: Vec<u8>,
}

/// The datagrams on their way to some peers, which are numbered from 0: for each peer those that wait for it, the oldest
/// first, each with the address that it says to come from. Peer number p has the address 10.0.0.p:7000.
///
/// Where memory is missing, a call changes nothing.
#[derive(Drop)]
pub struct Mail {
    alloc: Global,
    letters: Slab<Letter>,
    // The keys of each peer's letters, the oldest first. Each letter is in one queue, once.
    queues: Vec<VecDeque<usize>>,
}

impl Model for Mail {
    ghost use Rattle.std.specs.Prelude.{List};
    ghost use Rattle.pp_world.specs.World.{Queued};

    ghost Value = { List (List Queued) };

    ghost use Rattle.pp_mail.specs.Letters.{keys_of, mail_of, StandOnce};

    ghost view = { λ a. mail_of a.letters (keys_of a) };

    ghost invariant = { λ a. StandOnce a.letters (keys_of a) };
}

impl Mail {
    ghost use Rattle.pp_mail.specs.Letters.{queued};

    /// Nothing waits for any of so many peers.
    pub fn new(alloc: Global, peers: u8) -> Result<Mail, AllocError>
        ensures { IfOk result (λ mail. mail ≡ replicate peers []) }
    {
        let mut queues = Vec::with_capacity(alloc, usize::from(peers))?;
        for _ in 0..peers {
            queues.push(VecDeque::new(alloc))?;
        }
        Ok(Mail {
            alloc,
            letters: Slab::new(alloc),
            queues,
        })
    }

    /// How many peers there are.
    pub fn peers(&self) -> usize
        ensures { result ≡ length self.now }
    {
        self.queues.len()
    }

    /// Whether nothing waits for the peer.
    pub fn is_empty(&self, peer: u8) -> bool
        requires { peer < length self.now }
        ensures { result ≡ (length (queue_of peer self.now) == 0) }
    {
        self.queues[usize::from(peer)].is_empty()
    }

    /// The datagram that waits first for the peer: the address that it says to come from, and its bytes.
    pub fn oldest(&self, peer: u8) -> Option<(Address, &[u8])>
        requires { peer < length self.now }
        ensures { option_map (λ datagram. record { sender = outside.address_of datagram.0; bytes = datagram.1.now }) result
            ≡ slice_get (queue_of peer self.now) 0 }
    {
        let key = self.queues[usize::from(peer)].front()?;
        let letter = &self.letters[*key];
        Some((letter.sender, letter.bytes.as_slice()))
    }

    /// Takes away the datagram that waits first for the peer, if one does.
    pub fn lose(&mut self, peer: u8)
        requires { peer < length self.old }
        ensures { self.new ≡ with_queue peer (drop 1) self.old }
    {
        if let Some(key) = self.queues[usize::from(peer)].pop_front() {
            self.letters.remove(key);
        }
    }

    /// Lets the datagram that waits first for the peer, if one does, come once more, behind all others.
    pub fn repeat(&mut self, peer: u8) -> Result<(), AllocError>
        requires { peer < length self.old }
        ensures ok { OnOk result (self.new ≡ with_queue peer (λ queue. queue ++ take 1 queue) self.old) }
        ensures err { OnErr result (self.new ≡ self.old) }
    {
        let Some(key) = self.queues[usize::from(peer)].front() else {
            return Ok(());
        };
        let letter = &self.letters[*key];
        let sender = letter.sender;
        let bytes = Vec::from_slice(self.alloc, letter.bytes.as_slice())?;
        self.put(peer, Letter { sender, bytes })
    }

    /// Lets the datagram that waits first for the peer, if one does, come behind all others.
    pub fn delay(&mut self, peer: u8)
        requires { peer < length self.old }
        ensures { self.new ≡ with_queue peer (λ queue. drop 1 queue ++ take 1 queue) self.old }
    {
        let queue = &mut self.queues[usize::from(peer)];
        if queue.is_empty() {
            return;
        }
        queue.rotate_left(1);
    }

    /// Lets a datagram wait for the peer, behind all others, that says to come from the peer numbered `sender`. There may be no
    /// such peer.
    pub fn forge(&mut self, peer: u8, sender: u8, bytes: Vec<u8>) -> Result<(), AllocError>
        requires { peer < length self.old }
        ensures ok { OnOk result (self.new
            ≡ with_queue peer (λ queue. queue ++ record { sender = address_of sender; bytes = bytes.items } ∷ []) self.old) }
        ensures err { OnErr result (self.new ≡ self.old) }
    {
        self.put(
            peer,
            Letter {
                sender: address_of(sender),
                bytes,
            },
        )
    }

    /// Takes what the peer numbered `sender` sends to an address. The datagram is lost where no peer has that address, and where
    /// 1,024 datagrams wait already.
    pub fn deliver(&mut self, sender: u8, to: &Address, bytes: &[u8]) -> Result<(), AllocError>
        ensures ok { OnOk result (self.new ≡ delivered sender (outside.address_of to.now) bytes.now self.old) }
        ensures err { OnErr result (self.new ≡ self.old) }
    {
        let Some(peer) = peer_at(to, self.queues.len()) else {
            return Ok(());
        };
        if self.queues[usize::from(peer)].len() >= MOST_QUEUED {
            return Ok(());
        }
        let sender = address_of(sender);
        let bytes = Vec::from_slice(self.alloc, bytes)?;
        self.put(peer, Letter { sender, bytes })
    }

    // Lets a letter wait behind all others.
    fn put(&mut self, peer: u8, letter: Letter) -> Result<(), AllocError>
        requires { peer < length self.old }
        ensures ok { OnOk result (self.new ≡ with_queue peer (λ queue. queue ++ queued letter ∷ []) self.old) }
        ensures err { OnErr result (self.new ≡ self.old) }
    {
        self.letters.reserve(1)?;
        let key = self.letters.vacant_key();
        self.queues[usize::from(peer)].push_back(key)?;
        self.letters.insert_reserved(letter);
        Ok(())
    }
}
