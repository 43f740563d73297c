//! The store of one content on a disk: a header, the chunks, and the inner digests of their hash tree.
#![tactic(auto)]

mod admitting;
mod copying;
mod durable;
mod filling;
mod findings;
mod finishing;
mod gates;
mod growing;
mod importing;
mod keeping;
mod laws;
mod leaves;
mod pairing;
mod probing;
mod reading;
mod runs;
mod upgrading;

pub use admitting::Put;
pub use findings::{Probe, ProbeFault};
pub use importing::{ImportFault, import};
pub use keeping::Store;
pub use laws::laws_of_stores;
pub use probing::probe;
pub use reading::{ReadFault, read_chunk};
pub use runs::{Run, read_run};
pub use upgrading::{UpgradeFault, upgrade};
