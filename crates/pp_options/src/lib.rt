//! The options of a handshake (RFC 7574, section 7), read and written. Nothing here takes memory.
#![tactic(auto)]

ghost use Rattle.pp_terms.specs.format.Mismatch.{NoneDiffers};
ghost use Rattle.pp_terms.specs.format.OptionLaw.{ReadsSpellings, OneSpelling, WrittenIsRead};
ghost use Rattle.pp_terms.specs.format.HandshakeExample.{OptionExamples};

mod reading;
mod value;
mod writing;

pub use reading::read;
pub use value::{NoRoom, OptionFault, Options};
pub use writing::write;

/// Options and their spellings.
pub fn laws_of_options()
    ensures read { ReadsSpellings }
    ensures one { OneSpelling }
    ensures written { WrittenIsRead }
{}

/// When the options of a handshake are those of a swarm.
pub fn agreement()
    ensures { NoneDiffers }
{}

/// Options at bytes that were worked out by hand.
pub fn worked_options()
    ensures { OptionExamples }
{}
