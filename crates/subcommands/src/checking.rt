ghost use Rattle.std.specs.Prelude.{◌≡◌};
ghost use Rattle.console.specs.Console.{Leaves, LeavesOutput};
ghost use Rattle.subcommands.specs.Jobs.{JobChecksTo};
ghost use Rattle.subcommands.specs.Mapfiles.{LeavesFile, WritesSummary};

use crate::folder::Folder;
use crate::job::Job;
use crate::map_summary::summary;
use crate::reading::{read_explained, report_warnings};
use crate::unread::FileReader;
use console::{Console, Failure, Terminal, Writes, flush};
use mapdefs::Map;
use std::alloc::Global;
use streams::{Sink, Source};

/// Writes the line of a map, and flushes it.
pub fn write_summary<O: Sink>(map: &Map, output: &mut O) -> Result<(), Failure>
    ensures sums { WritesSummary result map.now (O.held output.old) (O.held output.new) }
    ensures leaves { LeavesOutput result (⟦<O as Writes>⟧.state output.old) (⟦<O as Writes>⟧.state output.new) }
{
    match summary(map, output) {
        Ok(()) => flush(output),
        Err(_) => Err(Failure::OutputFailed),
    }
}

/// Reads a mapfile up to its end, and writes the line of its map to the output, or reports its fault, or its name if it
/// can't be read. Where the job has `explains`, a fault is reported with a message, or the cause why the file can't be
/// read. The warnings on the map are reported after its line. A message or warnings for which memory is refused are
/// left out.
pub fn check<F: Folder, I: FileReader, J: Source, O: Sink, E: Sink>(
    alloc: Global,
    job: &mut Job<'_, F, I>,
    console: &mut Console<J, O, E>,
) -> Result<(), Failure>
    ensures checks { JobChecksTo ⟦<F as Folder>⟧ ⟦<I as FileReader>⟧ result job.old job.new
        (⟦<Console<J, O, E> as Terminal>⟧.streams console.old) (⟦<Console<J, O, E> as Terminal>⟧.streams console.new) }
    ensures input { console.new.input ≡ console.old.input }
    ensures file { LeavesFile result
        (I.state job.old.mapfile.reader) (I.state job.new.mapfile.reader) }
    ensures leaves { Leaves result
        (⟦<Console<J, O, E> as Terminal>⟧.streams console.old) (⟦<Console<J, O, E> as Terminal>⟧.streams console.new) }
{
    let read = read_explained(alloc, job, &mut console.errors)?;
    write_summary(&read.map, &mut console.output)?;
    report_warnings(alloc, job, &read.map, &mut console.errors);
    Ok(())
}
