ghost use Rattle.std.specs.Prelude.{◌≡◌, IfErr};
ghost use Rattle.console.specs.Console.{Leaves};
ghost use Rattle.console.specs.declared.failure.Failure.TheVariants.{FileFailed, MapfileFault};
ghost use Rattle.subcommands.specs.Jobs.{JobReportsUnread, JobRunsTo, readers_of};
ghost use Rattle.subcommands.specs.Mapfiles.{LeavesFiles};

use crate::folder::Folder;
use crate::job::{Job, NamedFile};
use crate::playing::play_on;
use crate::reading::{read_file, read_map};
use crate::unread::FileReader;
use console::{Console, Failure, Terminal, Writes};
use std::alloc::Global;
use streams::{Sink, Source};

/// Reads a mapfile up to its end, and then a script, and plays it: the transcript goes to the output. Or it reports the
/// fault of the mapfile, or the name of the first file that can't be read. Where the mapfile gives no map, the script
/// isn't read. Where the job has `explains`, a fault is reported with a message, or the cause why a file can't be read.
/// The warnings on the map are reported before the script is read. A message or warnings for which memory is refused
/// are left out.
pub fn run<F: Folder, I: FileReader, S: FileReader, J: Source, O: Sink, E: Sink>(
    alloc: Global,
    job: &mut Job<'_, F, I>,
    script: &mut NamedFile<'_, S>,
    console: &mut Console<J, O, E>,
) -> Result<(), Failure>
    ensures runs { JobRunsTo ⟦<F as Folder>⟧ ⟦<I as FileReader>⟧ ⟦<S as FileReader>⟧ result
        (job.old, script.old) (job.new, script.new)
        (⟦<Console<J, O, E> as Terminal>⟧.streams console.old) (⟦<Console<J, O, E> as Terminal>⟧.streams console.new) }
    ensures input { console.new.input ≡ console.old.input }
    ensures unread { IfErr result (λ failure. failure ≡ FileFailed
        → JobReportsUnread ⟦<I as FileReader>⟧ ⟦<S as FileReader>⟧ (job.old, script.old) (job.new, script.new)
        (⟦<E as Writes>⟧.state console.old.errors) (⟦<E as Writes>⟧.state console.new.errors)) }
    ensures untouched { IfErr result (λ failure. failure ≡ MapfileFault → script.new ≡ script.old) }
    ensures files { LeavesFiles result (readers_of ⟦<I as FileReader>⟧ ⟦<S as FileReader>⟧
        (job.old, script.old) (job.new, script.new)) }
    ensures leaves { Leaves result
        (⟦<Console<J, O, E> as Terminal>⟧.streams console.old) (⟦<Console<J, O, E> as Terminal>⟧.streams console.new) }
{
    let explains = job.explains;
    let read = read_map(alloc, job, &mut console.errors)?;
    let commands = read_file(alloc, explains, script, &mut console.errors)?;
    play_on(alloc, read.map, &commands, &mut console.output)
}
