// Words that are no command.
ghost use Rattle.std.specs.Prelude.{◌≡◌, [], ◌∷◌, ◌++◌, OnOk};
ghost use Rattle.pp_terms.specs.Count.{HasCause};
ghost use Rattle.pp_terms.specs.command.Stream.{Gains};
ghost use Rattle.pp_words.specs.Usage.{kind_text, usage_line};
ghost use Rattle.pp_words.specs.Views.{kind_of, usage_of};
ghost use Rattle.pp_node.specs.Text.{Says};

use crate::printing::put_counted;
use crate::status::Status;
use pp_outside::{Sink, SinkFault};
use pp_stream::put_all;
use pp_tree::DescriptorFault;
use pp_words::{Usage, UsageKind};

/// Says which word is wrong. A line that the sink refuses is given up.
pub(crate) fn refuse<K: Sink>(usage: Usage, sink: &mut K) -> Status
    ensures status { result ≡ Status.Usage }
    ensures said { Says (usage_line (usage_of usage)) (K.state sink.old) (K.state sink.new) }
{
    let _ = put_usage(usage, sink);
    Status::Usage
}

fn put_usage<K: Sink>(usage: Usage, sink: &mut K) -> Result<(), SinkFault>
    ensures gained { OnOk result (Gains (K.state sink.old).taken (usage_line (usage_of usage)) (K.state sink.new).taken) }
    ensures cause { HasCause (K.state sink.old).faults (K.state sink.new).faults result }
{
    put_counted(sink, b"usage: word ", usage.word as u64, b": ")?;
    put_kind(usage.kind, sink)
}

fn put_kind<K: Sink>(kind: UsageKind, sink: &mut K) -> Result<(), SinkFault>
    ensures gained { OnOk result
        (Gains (K.state sink.old).taken (kind_text (kind_of kind) ++ 10 ∷ []) (K.state sink.new).taken) }
    ensures cause { HasCause (K.state sink.old).faults (K.state sink.new).faults result }
{
    match kind {
        UsageKind::Missing => put_all(sink, b"missing\n"),
        UsageKind::Extra => put_all(sink, b"extra\n"),
        UsageKind::Command => put_all(sink, b"command\n"),
        UsageKind::Store => put_all(sink, b"store\n"),
        UsageKind::Chunk => put_all(sink, b"chunk\n"),
        UsageKind::Number => put_all(sink, b"number\n"),
        UsageKind::Descriptor(fault) => put_fault(fault, sink),
        UsageKind::Address => put_all(sink, b"address\n"),
        UsageKind::Order => put_all(sink, b"order\n"),
    }
}

fn put_fault<K: Sink>(fault: DescriptorFault, sink: &mut K) -> Result<(), SinkFault>
    ensures gained { OnOk result (Gains (K.state sink.old).taken
        (kind_text (kind_of (UsageKind.Descriptor fault)) ++ 10 ∷ []) (K.state sink.new).taken) }
    ensures cause { HasCause (K.state sink.old).faults (K.state sink.new).faults result }
{
    match fault {
        DescriptorFault::Form { at } => put_counted(sink, b"descriptor form at ", at as u64, b"\n"),
        DescriptorFault::Chunk { at } => {
            put_counted(sink, b"descriptor chunk at ", at as u64, b"\n")
        }
        DescriptorFault::Size { at } => put_counted(sink, b"descriptor size at ", at as u64, b"\n"),
        DescriptorFault::Method { at } => {
            put_counted(sink, b"descriptor method at ", at as u64, b"\n")
        }
    }
}
