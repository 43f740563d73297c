// Whole pieces for the sink.
ghost use Rattle.pp_terms.specs.Count.{HasCause};
ghost use Rattle.pp_terms.specs.command.Stream.{Gains};
ghost use Rattle.std.specs.Prelude.{OnOk, OnErr};
ghost use Rattle.pp_stream.specs.Pieces.{GainsPart};

use pp_outside::{Sink, SinkFault};

/// Writes all the bytes. Where the sink refuses a piece, it took some of those before it, and never all.
pub fn put_all<K: Sink>(sink: &mut K, bytes: &[u8]) -> Result<(), SinkFault>
    ensures gained { OnOk result (Gains (K.state sink.old).taken bytes.now (K.state sink.new).taken) }
    ensures part { OnErr result (GainsPart bytes.now (K.state sink.old) (K.state sink.new)) }
    ensures cause { HasCause (K.state sink.old).faults (K.state sink.new).faults result }
{
    let mut written = 0;
    while written < bytes.len() {
        match sink.write(&bytes[written..]) {
            Ok(count) => written += count,
            Err(fault) => return Err(fault),
        }
    }
    Ok(())
}
