//! Whether memory was found.
ghost use Rattle.std.specs.Prelude.{◌≡◌, ◌↔◌, false, IsOk};

use std::alloc::AllocError;

// Answers an error where a device found no memory.
pub(crate) fn enough(is_short: bool) -> Result<(), AllocError>
    ensures { IsOk result ↔ (is_short ≡ false) }
{
    if is_short { Err(AllocError) } else { Ok(()) }
}
