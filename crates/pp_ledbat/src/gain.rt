//! How far one acknowledgement moves the window.

ghost use Rattle.std.specs.Prelude.{◌≡◌, ◌+◌, ◌*◌, ◌<◌, ◌≤◌, pos, ◌+ℤ◌};
ghost use Rattle.pp_traffic.specs.Gain as terms;

// The queuing delay to which the window is steered.
const TARGET: u64 = 100_000;

// The window and what it gains, 0 where it would lose all.
fn moved(window: u64, acked: u64, queuing: u64, chunk: u64) -> u64
    requires chunk { chunk ≤ 8192 }
    requires positive { 0 < window }
    requires window { window ≤ 512 * chunk }
    requires acked { acked ≤ 16384 * chunk }
    ensures { result ≡ terms.natural (pos window +ℤ terms.gain window acked queuing chunk) }
{
    if queuing <= TARGET {
        return window + (TARGET - queuing) * acked * chunk / (TARGET * window);
    }
    let excess = u128::from(queuing - TARGET) * u128::from(acked) * u128::from(chunk);
    if excess == 0 {
        return window;
    }
    let fall = (excess - 1) / u128::from(TARGET * window) + 1;
    u128::from(window).saturating_sub(fall) as u64
}

/// The window after `acked` bytes are acknowledged while `flight` bytes fly, at a queuing delay in microseconds, for a chunk
/// size from 1 to 8192: it moves in proportion to how far the delay is below or above 100 milliseconds, up to one chunk above the
/// flight, and stays from 2 to 512 chunks (RFC 6817, section 2.4.2). At most 16,384 chunks are acknowledged or fly.
pub fn gained(window: u64, acked: u64, queuing: u64, chunk: u32, flight: u64) -> u64
    requires chunk { chunk ≤ 8192 }
    requires positive { 0 < window }
    requires window { window ≤ 512 * chunk }
    requires acked { acked ≤ 16384 * chunk }
    requires flight { flight ≤ 16384 * chunk }
    ensures { result ≡ terms.gained window acked queuing chunk flight }
{
    let chunk = u64::from(chunk);
    let moved = moved(window, acked, queuing, chunk);
    moved.min(flight + chunk).max(2 * chunk).min(512 * chunk)
}
