ghost use Rattle.std.specs.Prelude.{◌≡◌, ◌⊎◌, IfOk, IfErr, IfSome, None, OnOk, Ok, false, true};
ghost use Rattle.subcommands.specs.Explained.{IsMapFault, has_missing};
ghost use Rattle.subcommands.specs.Folder.{ComesTo};
ghost use Rattle.subcommands.specs.Jobs.{JobGivesNoMap, read_file};
ghost use Rattle.subcommands.specs.Mapfiles.{HasReadFile, HasReadMap, HasReadMapfile, IsUnread, LeavesFile, ReportsWarnings, TouchesNeither};

use crate::folder::{Folder, files_of};
use crate::job::{Job, NamedFile};
use crate::map_fault::MapFault;
use crate::places::file_message;
use crate::reports::{report_explained, report_file};
use crate::unread::{FileFault, FileReader};
use console::{Failure, Writes, report};
use mapdefs::{Map, Text};
use mapfaults::{MapfileAtHand, message_on_source};
use mapparse::{Files, Mapfile, ParseFault, ParseKind};
use mapwarnings::warning_lines;
use std::alloc::Global;
use streams::Sink;

// The message on a fault of the text of a mapfile, where it is requested.
fn source_message(alloc: Global, explains: bool, source: &[u8], fault: &ParseFault) -> Option<Text>
    ensures unasked { explains ≡ false → result ≡ None }
    ensures unnamed { has_missing fault.now ≡ true → result ≡ None }
{
    match fault {
        // only a file has such a fault
        ParseFault::At {
            kind: ParseKind::MissingFile,
            ..
        } => None,
        ParseFault::At { .. } if explains => message_on_source(alloc, source),
        _ => None,
    }
}

/// The map of a mapfile with the files of its folder, or its first fault, with the message on it where that is requested. A source without a fault of
/// its own is parsed once, and each file is read from the folder once. The files are returned with the map.
pub fn read_map_of<F: Folder>(
    alloc: Global,
    folder: &F,
    explains: bool,
    source: &[u8],
) -> Result<(Map, Files), MapFault>
    ensures map { IfOk result
        (λ read. (comes : ComesTo (F.gives folder.now) source.now (Ok read.0)) × (comes.files ≡ read.1)) }
    ensures fault { IfErr result (IsMapFault (F.gives folder.now) explains source.now) }
{
    let mapfile = match Mapfile::read(alloc, source) {
        Ok(mapfile) => mapfile,
        Err(fault) => {
            let message = source_message(alloc, explains, source, &fault);
            return Err(MapFault::new(fault, message));
        }
    };
    let files = files_of(alloc, folder, &mapfile)?;
    let at_hand = MapfileAtHand {
        source,
        mapfile: &mapfile,
        files: &files,
    };
    let message = file_message(alloc, explains, folder, at_hand);
    match mapfile.into_map(alloc, &files) {
        Ok(map) => Ok((map, files)),
        Err(fault) => Err(MapFault::new(fault, message)),
    }
}

/// A map that was read.
#[derive(Drop)]
pub struct ReadMap {
    /// The map.
    pub map: Map,
    /// The bytes of its mapfile.
    pub source: Vec<u8>,
    /// The files that the mapfile uses.
    pub files: Files,
}

/// The bytes of a file. One that can't be read is reported by its name, and, where that is requested, with the cause.
pub fn read_file<I: FileReader, E: Sink>(
    alloc: Global,
    explains: bool,
    file: &mut NamedFile<'_, I>,
    errors: &mut E,
) -> Result<Vec<u8>, Failure>
    ensures bytes { IfOk result (λ bytes. HasReadFile (I.state file.old.reader).left (I.state file.new.reader).left bytes.items) }
    ensures name { file.new.name.now ≡ file.old.name.now }
    ensures same { OnOk result (errors.new ≡ errors.old) }
    ensures unread { IfErr result
        (λ failure. IsUnread explains failure (read_file ⟦<I as FileReader>⟧ file.old)
        (⟦<E as Writes>⟧.state errors.old) (⟦<E as Writes>⟧.state errors.new)) }
    ensures neither { IfErr result TouchesNeither }
    ensures leaves { LeavesFile result (I.state file.old.reader) (I.state file.new.reader) }
{
    match file.reader.read_rest(alloc) {
        Ok(bytes) => Ok(bytes),
        Err(FileFault::Unread(cause)) => {
            report_file(errors, explains, file.name, cause);
            Err(Failure::FileFailed)
        }
        Err(FileFault::NoMemory) => Err(Failure::NoMemory),
    }
}

/// The map of a mapfile, with its bytes and its files. Its fault is reported, or that it can't be read; where the job has `explains`, a second line
/// has the message on it, unless memory is refused for that.
pub fn read_explained<F: Folder, I: FileReader, E: Sink>(
    alloc: Global,
    job: &mut Job<'_, F, I>,
    errors: &mut E,
) -> Result<ReadMap, Failure>
    ensures map { IfOk result
        (λ read. HasReadMap (F.gives job.old.folder.now)
        (I.state job.old.mapfile.reader).left (I.state job.new.mapfile.reader).left read.map) }
    ensures mapfile { IfOk result
        (λ read. HasReadMapfile (F.gives job.old.folder.now) (I.state job.old.mapfile.reader).left
        (I.state job.new.mapfile.reader).left read.source.items read.files read.map) }
    ensures job { (job.new.mapfile.name.now ≡ job.old.mapfile.name.now) × (job.new.explains ≡ job.old.explains) }
    ensures same { OnOk result (errors.new ≡ errors.old) }
    ensures without { IfErr result (λ failure. JobGivesNoMap ⟦<F as Folder>⟧ ⟦<I as FileReader>⟧ job.old job.new failure
        (⟦<E as Writes>⟧.state errors.old) (⟦<E as Writes>⟧.state errors.new)) }
    ensures neither { IfErr result TouchesNeither }
    ensures leaves { LeavesFile result
        (I.state job.old.mapfile.reader) (I.state job.new.mapfile.reader) }
{
    let source = read_file(alloc, job.explains, &mut job.mapfile, errors)?;
    match read_map_of(alloc, job.folder, job.explains, &source) {
        Ok((map, files)) => Ok(ReadMap { map, source, files }),
        Err(MapFault::Faulty { fault, message }) => {
            report_explained(errors, job.mapfile.name, fault, &message);
            Err(Failure::MapfileFault)
        }
        Err(MapFault::NoMemory) => Err(Failure::NoMemory),
    }
}

/// Reports the warnings on the map of a job, with the mapfile's name, where the job has `explains`. Where memory is refused for them nothing is
/// reported.
pub fn report_warnings<F, I, E: Sink>(alloc: Global, job: &Job<'_, F, I>, map: &Map, errors: &mut E)
    ensures reports { ReportsWarnings job.now.explains job.now.mapfile.name.now map.now
        (⟦<E as Writes>⟧.state errors.old)
        (⟦<E as Writes>⟧.state errors.new) }
    ensures same { job.now.explains ≡ false → errors.new ≡ errors.old }
{
    if !job.explains {
        return;
    }
    match warning_lines(alloc, job.mapfile.name, map) {
        Ok(lines) => report(errors, &[lines.as_slice()]),
        Err(_) => {}
    }
}

/// The map of a mapfile, with its bytes and its files. A fault is reported. Where the job has `explains`, the report of a fault has a message, and
/// the warnings on a map are reported, unless memory is refused for these.
pub fn read_map<F: Folder, I: FileReader, E: Sink>(
    alloc: Global,
    job: &mut Job<'_, F, I>,
    errors: &mut E,
) -> Result<ReadMap, Failure>
    ensures map { IfOk result
        (λ read. HasReadMap (F.gives job.old.folder.now)
        (I.state job.old.mapfile.reader).left (I.state job.new.mapfile.reader).left read.map) }
    ensures mapfile { IfOk result
        (λ read. HasReadMapfile (F.gives job.old.folder.now) (I.state job.old.mapfile.reader).left
        (I.state job.new.mapfile.reader).left read.source.items read.files read.map) }
    ensures warnings { IfOk result
        (λ read. ReportsWarnings job.old.explains job.old.mapfile.name.now read.map
        (⟦<E as Writes>⟧.state errors.old) (⟦<E as Writes>⟧.state errors.new)) }
    ensures same { OnOk result (job.old.explains ≡ false → errors.new ≡ errors.old) }
    ensures without { IfErr result (λ failure. JobGivesNoMap ⟦<F as Folder>⟧ ⟦<I as FileReader>⟧ job.old job.new failure
        (⟦<E as Writes>⟧.state errors.old) (⟦<E as Writes>⟧.state errors.new)) }
    ensures neither { IfErr result TouchesNeither }
    ensures leaves { LeavesFile result
        (I.state job.old.mapfile.reader) (I.state job.new.mapfile.reader) }
{
    let read = read_explained(alloc, job, errors)?;
    report_warnings(alloc, job, &read.map, errors);
    Ok(read)
}
