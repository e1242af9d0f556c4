//! All lines of a source.

ghost use Rattle.std.specs.Prelude.{◌≡◌, List, ℕ, Some, true, IsTrue};
ghost use Rattle.std.specs.Io.KnownBytes.{IsAtEnd};
ghost use Rattle.dbn_model.specs.Content.{SameTold};
ghost use Rattle.dbn_keeper.specs.Keeping.{Keeps};
ghost use Rattle.dbn_engine.specs.AllLines.{Serves, Takes, HasCountOf, HasCountsOf, is_between};
ghost use Rattle.dbn_engine.specs.declared.run_end.RunEnd.{RunEnd};

use crate::fault::ServeFault;
use crate::run_end::RunEnd;
use crate::serving::Serve;
use dbn_io::{Line, Lines, ReadStop, Sink, Source};
use std::alloc::Global;

/// Serves each line of a source, of which at most `most` bytes are taken, and one more where there are more.
///
/// The first trouble ends the run, and a front of the replies was written then. A crash behind the run leaves a folder
/// that stands for a front of the lines that holds every line whose reply was written whole. `ReadFault`, `WriteFault`
/// and `DiskFault` come only where a count of faults rose. After `Done`, `ReadFault` and `InputLimit` the engine is
/// live.
pub fn serve_lines<E: Serve, C: Source, K: Sink>(
    alloc: Global,
    engine: &mut E,
    commands: &mut C,
    out: &mut K,
    most: u64,
) -> RunEnd
    requires { IsTrue (E.state engine.old).live }
    ensures serves { (all : List ℕ) → C.left commands.old ≡ Some all
        → Serves result most all (E.state engine.old) (E.state engine.new) (C.left commands.old) (C.left commands.new) (K.taken out.old) (K.taken out.new) }
    ensures takes { Takes result most (C.left commands.old) (C.left commands.new) }
    ensures end { result ≡ RunEnd.Done → IsAtEnd (C.left commands.new) }
    ensures live { is_between result ≡ true → IsTrue (E.state engine.new).live }
    ensures terms { (E.state engine.new).terms ≡ (E.state engine.old).terms }
    ensures keeps { Keeps (E.state engine.old).keeper (E.state engine.new).keeper }
    ensures told { SameTold (C.left commands.old) (C.left commands.new) × SameTold (K.taken out.old) (K.taken out.new) }
    ensures source_count { HasCountOf RunEnd.ReadFault result (C.faults commands.old) (C.faults commands.new) }
    ensures sink_count { HasCountOf RunEnd.WriteFault result (K.faults out.old) (K.faults out.new) }
    ensures disk_counts { HasCountsOf result (E.state engine.old).keeper.faults (E.state engine.new).keeper.faults }
{
    let Ok(mut lines) = Lines::new(alloc, most) else {
        return RunEnd::Memory;
    };
    'lines: loop {
        let line = match lines.next(alloc, commands) {
            Ok(Line::End) => return RunEnd::Done,
            Ok(line) => line,
            Err(ReadStop::Failed) => return RunEnd::ReadFault,
            Err(ReadStop::Over) => return RunEnd::InputLimit,
            Err(ReadStop::Memory) => return RunEnd::Memory,
        };
        match engine.serve_one(alloc, &line, out) {
            Ok(()) => {}
            Err(ServeFault::Write) => return RunEnd::WriteFault,
            Err(ServeFault::Disk) => return RunEnd::DiskFault,
            Err(ServeFault::Memory) => return RunEnd::Memory,
        }
    }
}
