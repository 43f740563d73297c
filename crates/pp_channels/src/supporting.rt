//! Which messages a peer takes.

ghost use Rattle.std.specs.Prelude.{◌≡◌};
ghost use Rattle.pp_options.specs.Views.{options_of};
ghost use Rattle.pp_channels.specs.Supporting.{takes, is_set};

use pp_options::Options;

/// Whether the peer that sent these options takes messages of a type, 6 for PEX_REQ and 12 for PEX_RESv6: its option of the
/// supported messages is absent, or has the type's bit (RFC 7574, section 7.10).
pub fn takes(options: &Options, kind: u8) -> bool
    ensures { result ≡ takes (options_of options.now) kind }
{
    match options.messages {
        Some(bitmap) => is_set(bitmap, kind),
        None => true,
    }
}

// Whether a type's bit is set, counted from the left of the first byte.
fn is_set(bitmap: &[u8], kind: u8) -> bool
    ensures { result ≡ is_set bitmap.now kind }
{
    let place = usize::from(kind / 8);
    place < bitmap.len() && (bitmap[place] >> (7 - kind % 8)) & 1 == 1
}
