// Lines for the sink.
ghost use Rattle.std.specs.Prelude.{◌≡◌, ℕ, ◌++◌, ◌≤◌, decimal, OnOk, OnErr};
ghost use Rattle.pp_terms.specs.Count.{HasCause};
ghost use Rattle.pp_terms.specs.command.Stream.{Gains};

use itoa::Buffer;
use pp_outside::{Sink, SinkFault};
use pp_stream::put_all;

/// Writes a number between two texts, in decimal digits.
pub(crate) fn put_counted<K: Sink>(
    sink: &mut K,
    before: &[u8],
    count: u64,
    after: &[u8],
) -> Result<(), SinkFault>
    ensures gained { OnOk result (Gains (K.state sink.old).taken (before.now ++ decimal count ++ after.now) (K.state sink.new).taken) }
    ensures cause { HasCause (K.state sink.old).faults (K.state sink.new).faults result }
{
    let mut digits = Buffer::new();
    put_all(sink, before)?;
    put_all(sink, digits.format(count).as_bytes())?;
    put_all(sink, after)
}
