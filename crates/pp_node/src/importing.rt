// The command `import STORE CHUNK`.
ghost use Rattle.std.specs.Prelude.{◌≡◌, ◌⊎◌, OnOk};
ghost use Rattle.pp_terms.specs.tree.Content.{IsChunkSize};
ghost use Rattle.pp_terms.specs.disk.Disk.{IsKnown, GainsName};
ghost use Rattle.pp_terms.specs.command.Report.{descriptor_line};
ghost use Rattle.pp_terms.specs.command.Stream.{Gains};
ghost use Rattle.pp_terms.specs.format.Traffic.{LinkState};
ghost use Rattle.pp_tree.specs.Book.{BookState};
ghost use Rattle.pp_node.specs.Outside.{outside};
ghost use Rattle.pp_terms.specs.Count.{HasCause, HasRisen};
ghost use Rattle.pp_terms.specs.disk.Untouched.{IsFreshlyAttached};
ghost use Rattle.pp_node.specs.Run.{ImportsIn, IsImportRun, Reports};

use crate::printing::put_counted;
use crate::status::Status;
use pp_outside::{Disk, Sink, SinkFault, Source};
use pp_store::ImportFault;
use pp_stream::put_all;
use pp_tree::Descriptor;

/// Makes what the source gives the named store, and prints its descriptor.
pub(crate) fn import<D: Disk, S: Source, K: Sink>(
    store: &str,
    chunk: u32,
    disk: &mut D,
    source: &mut S,
    sink: &mut K,
) -> Status
    requires { IsChunkSize chunk }
    ensures ends { (link : LinkState) (book : BookState)
        → ImportsIn result chunk (outside (D.state disk.old) link (S.state source.old) (K.state sink.old) book)
        (outside (D.state disk.new) link (S.state source.new) (K.state sink.new) book) }
    ensures run { IsImportRun result chunk (S.state source.old) (S.state source.new) (D.state disk.old) (D.state disk.new) }
    ensures named { IsKnown (D.state disk.old)
        → GainsName (D.state disk.old).history.names store.now (D.state disk.new).history.names }
{
    match disk.attach(store) {
        Ok(()) => import_attached(chunk, disk, source, sink),
        Err(_) => report(ImportFault::Disk, sink),
    }
}

fn import_attached<D: Disk, S: Source, K: Sink>(
    chunk: u32,
    disk: &mut D,
    source: &mut S,
    sink: &mut K,
) -> Status
    requires size { IsChunkSize chunk }
    requires attached { IsKnown (D.state disk.old) → IsFreshlyAttached (D.state disk.old).history }
    ensures ends { (link : LinkState) (book : BookState)
        → ImportsIn result chunk (outside (D.state disk.old) link (S.state source.old) (K.state sink.old) book)
        (outside (D.state disk.new) link (S.state source.new) (K.state sink.new) book) }
    ensures run { IsImportRun result chunk (S.state source.old) (S.state source.new) (D.state disk.old) (D.state disk.new) }
    ensures names { IsKnown (D.state disk.old) → (D.state disk.new).history.names ≡ (D.state disk.old).history.names }
{
    match pp_store::import(chunk, source, disk) {
        Ok(descriptor) => match print(&descriptor, sink) {
            Ok(()) => Status::Done,
            Err(_) => Status::SinkFault,
        },
        Err(fault) => report(fault, sink),
    }
}

// Prints a descriptor's line.
fn print<K: Sink>(descriptor: &Descriptor, sink: &mut K) -> Result<(), SinkFault>
    ensures gained { OnOk result (Gains (K.state sink.old).taken (descriptor_line descriptor.now) (K.state sink.new).taken) }
    ensures cause { HasCause (K.state sink.old).faults (K.state sink.new).faults result }
{
    let mut text = [0u8; 128];
    let len = descriptor.write(&mut text);
    put_all(sink, &text[..len])?;
    put_all(sink, b"\n")
}

// Says what was at fault. A line that the sink refuses is given up.
fn report<K: Sink>(fault: ImportFault, sink: &mut K) -> Status
    ensures { Reports fault result (K.state sink.old) (K.state sink.new) }
{
    match fault {
        ImportFault::NotEmpty { len } => {
            let _ = put_counted(sink, b"not empty: ", len, b" bytes\n");
            Status::NotEmpty
        }
        ImportFault::ContentSize { count } => {
            let _ = put_counted(sink, b"content size: ", count, b" bytes\n");
            Status::ContentSize
        }
        ImportFault::Source => {
            let _ = put_all(sink, b"source fault\n");
            Status::SourceFault
        }
        ImportFault::Disk => {
            let _ = put_all(sink, b"disk fault\n");
            Status::DiskFault
        }
    }
}
