//! Chunks on their way from one peer of a world to another: each that arrives is stored.
//!
//! Its function does nothing. Its contract is a law of these definitions.
#![tactic(auto)]

ghost use Rattle.pp_shipments.specs.Laws.{ShipmentsAreStored};

/// Between two worlds whose peers are trusty each shipment that is taken in is stored.
pub fn laws_of_shipments()
    ensures { ShipmentsAreStored }
{}
