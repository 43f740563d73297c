//! One channel's story, as it goes on.

ghost use Rattle.std.specs.Prelude.{true, ◌≡◌, ℕ, ◌+◌, ◌<◌, ◌≤◌, ◌∷◌, [], List, IfOk, OnOk, OnErr};
ghost use Rattle.pp_terms.specs.format.Descriptor as descriptors;
ghost use Rattle.pp_terms.specs.format.Descriptor.{chunks_of};
ghost use Rattle.pp_terms.specs.format.Messages as terms;
ghost use Rattle.pp_traffic.specs.Story.{Line, Heard, Said, Taken};
ghost use Rattle.pp_traffic.specs.Asking.{choked, asked};
ghost use Rattle.pp_traffic.specs.Hashes.{is_told};
ghost use Rattle.pp_traffic.specs.Meter as meters;
ghost use Rattle.pp_promises.specs.Laws.{is_any_data};
ghost use Rattle.pp_tree.specs.Node.{node_of};
ghost use Rattle.pp_wire.specs.Views.{span_of, message_of};
ghost use Rattle.pp_story.specs.Stories.{StandsFor, Hears, Says};

use crate::asked::Asked;
use crate::told::tell;
use crate::window::Window;
use pp_plan::Told;
use pp_tree::{Descriptor, Node};
use pp_wire::{Message, Span};
use std::alloc::{AllocError, Global};
use std::marker::Model;

/// What a channel's story comes to so far: whether a choke stands, the chunks that are asked for, the nodes that the peer
/// has told it knows, and the window with what flies. Each line of the story is added by one call, the oldest first.
#[derive(Drop)]
pub struct Story {
    is_choked: bool,
    asked: Asked,
    told: Told,
    window: Window,
}

impl Model for Story {
    ghost use Rattle.std.specs.Prelude.{ℕ, ◌*◌, ◌<◌, ◌≤◌, length};
    ghost use Rattle.pp_story.specs.Stories.{StoryState};

    ghost Value = { StoryState };

    ghost view = { λ s. record { is_choked = s.is_choked; requests = s.asked; told = s.told; window = s.window } };

    ghost invariant = { λ s. s.told.chunks ≤ 64 * length s.asked };
}

impl Story {
    /// The empty story of a channel of the swarm.
    pub fn new(alloc: Global, descriptor: &Descriptor) -> Result<Story, AllocError>
        ensures { IfOk result (λ story. StandsFor story descriptor.now []) }
    {
        let chunks = descriptor.chunks();
        let asked = Asked::none(alloc, chunks)?;
        let told = Told::none(alloc, chunks)?;
        let window = Window::new(alloc, descriptor.chunk());
        Ok(Story {
            is_choked: false,
            asked,
            told,
            window,
        })
    }

    /// The empty story again. It takes no memory.
    pub fn begin(&mut self)
        ensures { (d : descriptors.Descriptor) (s : List Line) → StandsFor self.old d s → StandsFor self.new d [] }
    {
        self.is_choked = false;
        self.asked.forget();
        self.told.forget();
        self.window.begin();
    }

    /// A message came.
    pub fn hear<'m>(&mut self, now: u64, message: &'m Message<'m>)
        ensures { (d : descriptors.Descriptor) (s : List Line) → StandsFor self.old d s
            → StandsFor self.new d (Heard now (message_of message.now) ∷ s) }
    {
        match *message {
            Message::Request { span } => self.hear_request(span),
            Message::Cancel { span } => self.hear_cancel(span),
            Message::Have { span } => self.hear_have(span),
            Message::Ack { span, delay } => self.hear_ack(now, span, delay),
            _ => {}
        }
    }

    /// A message was sent. Only a chunk takes memory, and where that runs out, the story stays as it was.
    pub fn say<'m>(&mut self, now: u64, message: &'m Message<'m>) -> Result<(), AllocError>
        ensures said { OnOk result ((d : descriptors.Descriptor) (s : List Line) → StandsFor self.old d s
            → StandsFor self.new d (Said now (message_of message.now) ∷ s)) }
        ensures refused { OnErr result (self.new ≡ self.old) }
        ensures only { OnErr result (is_any_data (message_of message.now) ≡ true) }
    {
        match *message {
            Message::Data { chunk, .. } => return self.say_data(now, chunk),
            Message::Choke => self.say_choke(),
            Message::Unchoke => self.say_unchoke(),
            _ => {}
        }
        Ok(())
    }

    /// A wait ended, and what it brought is heard.
    pub fn end_wait(&mut self, now: u64)
        ensures { (d : descriptors.Descriptor) (s : List Line) → StandsFor self.old d s
            → StandsFor self.new d (Taken now ∷ s) }
    {
        self.window.end_wait(now);
    }

    /// Whether a CHOKE was sent, and no UNCHOKE since (RFC 7574, section 3.9).
    pub fn is_choked(&self) -> bool
        ensures { (d : descriptors.Descriptor) (s : List Line) → StandsFor self.now d s → result ≡ choked s }
    {
        self.is_choked
    }

    /// Whether the peer has an outstanding request of a chunk of the content (RFC 7574, sections 3.7 to 3.9).
    pub fn is_asked(&self, chunk: u32) -> bool
        ensures { (d : descriptors.Descriptor) (s : List Line) → StandsFor self.now d s
            → chunk < chunks_of d → result ≡ asked chunk s }
    {
        self.asked.has(chunk)
    }

    /// Whether the peer has told, by HAVE or ACK, that it knows the node (RFC 7574, section 5.3).
    pub fn is_told(&self, node: Node) -> bool
        ensures { (d : descriptors.Descriptor) (s : List Line) → StandsFor self.now d s
            → result ≡ is_told (chunks_of d) s (node_of node) }
    {
        self.told.has(node)
    }

    /// Whether the window lets one more chunk be sent (RFC 7574, section 8.16).
    pub fn has_room(&self) -> bool
        ensures { (d : descriptors.Descriptor) (s : List Line) → StandsFor self.now d s
            → result ≡ meters.lets_send d.chunk s }
    {
        self.window.has_room()
    }

    // A REQUEST came: a peer that is choked asks for nothing.
    fn hear_request(&mut self, span: Span)
        ensures { (now : ℕ) → Hears now (terms.Request (span_of span)) self.old self.new }
    {
        if !self.is_choked {
            self.asked.ask(span);
        }
    }

    // A CANCEL came.
    fn hear_cancel(&mut self, span: Span)
        ensures { (now : ℕ) → Hears now (terms.Cancel (span_of span)) self.old self.new }
    {
        self.asked.withdraw(span);
    }

    // A HAVE came.
    fn hear_have(&mut self, span: Span)
        ensures { (now : ℕ) → Hears now (terms.Have (span_of span)) self.old self.new }
    {
        tell(&mut self.told, span);
    }

    // An ACK came.
    fn hear_ack(&mut self, now: u64, span: Span, delay: u64)
        ensures { Hears now (terms.Ack (span_of span) delay) self.old self.new }
    {
        tell(&mut self.told, span);
        self.window.acknowledge(span, delay, now);
    }

    // A chunk was sent, which ends its request.
    fn say_data(&mut self, now: u64, chunk: u64) -> Result<(), AllocError>
        ensures said { OnOk result ((sent_at : ℕ) (bytes : List ℕ)
            → Says now (terms.Data chunk sent_at bytes) self.old self.new) }
        ensures refused { OnErr result (self.new ≡ self.old) }
    {
        self.window.send(chunk, now)?;
        self.asked.withdraw(Span {
            first: chunk,
            last: chunk,
        });
        Ok(())
    }

    // A CHOKE was sent, which ends all requests.
    fn say_choke(&mut self)
        ensures { (now : ℕ) → Says now terms.Choke self.old self.new }
    {
        self.is_choked = true;
        self.asked.forget();
    }

    // An UNCHOKE was sent.
    fn say_unchoke(&mut self)
        ensures { (now : ℕ) → Says now terms.Unchoke self.old self.new }
    {
        self.is_choked = false;
    }
}
