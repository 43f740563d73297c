//! Reads a store from the root of its hash tree down, believing nothing that isn't the root's: which nodes are known in it,
//! which chunks' gates are open, and which chunks it holds.
#![tactic(auto)]

mod gates;
mod layers;
mod layout;
mod scanning;
mod verifying;

pub use layout::{
    Difference, OPEN_GATE, file_size, first_difference, gate_place, header_difference, header_of,
    slot_place,
};
pub use scanning::{ScanFault, scan, scan_into};
pub use verifying::verify;
