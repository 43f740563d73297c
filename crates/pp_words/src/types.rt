// What words spell, and what is wrong with them.
use arrayvec::ArrayVec;
use pp_outside::Address;
use pp_targets::Target;
use pp_tree::{Descriptor, DescriptorFault};

/// The order in which missing chunks are asked for: by rising number, or those first that the fewest peers have.
#[derive(Clone, Copy, Debug, PartialEq, Eq)]
pub enum Order {
    Sequential,
    Rarest,
}

/// A command. `store` is the name of the store's file, `chunk` the chunk size in bytes, `listen` the address at which
/// the peer listens, `turns` how often it waits for a datagram, `number` the number of a rehearsal, `window` how many
/// chunks from the first unwritten one on are asked for, `peer` the number of a peer, and `life` that of one of its lives.
#[derive(Clone, Debug, Drop, PartialEq, Eq)]
pub enum Command<'a> {
    /// `import STORE CHUNK`
    Import {
        store: &'a str,
        chunk: u32,
    },
    /// `seed STORE TARGET LISTEN TURNS`, with a descriptor or a name without the size for the target
    Seed {
        store: &'a str,
        target: Target,
        listen: Address,
        turns: u32,
    },
    /// `fetch STORE TARGET LISTEN TURNS ORDER PEER..`, with 1 to 16 peers
    Fetch {
        store: &'a str,
        target: Target,
        listen: Address,
        turns: u32,
        order: Order,
        peers: ArrayVec<Address, 16>,
    },
    /// `check STORE TARGET`
    Check {
        store: &'a str,
        target: Target,
    },
    /// `export STORE TARGET`
    Export {
        store: &'a str,
        target: Target,
    },
    /// `upgrade STORE DESCRIPTOR`
    Upgrade {
        store: &'a str,
        descriptor: Descriptor,
    },
    /// `replay`
    Replay,
    /// `rehearse NUMBER`
    Rehearse {
        number: u64,
    },
    /// `play STORE DESCRIPTOR LISTEN TURNS WINDOW PEER..`, with a window of 1 to 4096 and 1 to 16 peers
    Play {
        store: &'a str,
        descriptor: Descriptor,
        listen: Address,
        turns: u32,
        window: u32,
        peers: ArrayVec<Address, 16>,
    },
    /// `record PEER LIFE`, with a peer below 16 and a life from 1 on
    Record {
        peer: u8,
        life: u32,
    },
    /// `audit`
    Audit,
}

/// What is wrong with a word.
#[derive(Clone, Copy, Debug, PartialEq, Eq)]
pub enum UsageKind {
    /// The words end where a word has to come.
    Missing,
    /// The word is one too many.
    Extra,
    /// It is no command's name.
    Command,
    /// It is no store's name: it is empty.
    Store,
    /// It is no chunk size: no power of two from 256 to 8192.
    Chunk,
    /// It is no number, or too small or too large.
    Number,
    /// It is no descriptor's text, or no target's where a target may stand; the fault has its place in the word.
    Descriptor(DescriptorFault),
    /// It is no address.
    Address,
    /// It is no order.
    Order,
}

/// The first wrong word, counted from 0, and what is wrong with it. A missing word has the count of words as its number.
#[derive(Clone, Copy, Debug, PartialEq, Eq)]
pub struct Usage {
    pub word: usize,
    pub kind: UsageKind,
}
