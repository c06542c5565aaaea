ghost use Rattle.std.specs.Prelude.{◌≡◌, IfOk, IfErr, OnOk, Ok, Err, false};
ghost use Rattle.console.specs.Console.{Leaves, LeavesOutput, is_input_failed};
ghost use Rattle.subcommands.specs.Folder.{ComesTo};
ghost use Rattle.subcommands.specs.Mapfiles.{TouchesNeither};
ghost use Rattle.subcommands.specs.Session.{Ends, EndsOn, IsWithoutMap, PlaysTo};

use crate::folder::Folder;
use crate::map_fault::MapFault;
use crate::parts::split_session;
use crate::reading::read_map_of;
use crate::reports::report_mapfile_fault;
use console::{Console, Failure, ReadFault, Terminal, Writes, flush, read_all};
use mapdefs::Map;
use mapmachine::Machine;
use scripts::play_script;
use std::alloc::Global;
use streams::{Sink, Source};

/// Reads a session from the input up to its end, and plays it: the transcript goes to the output, or the fault of the
/// mapfile is reported. The result says which bytes the writers got.
pub fn session<F: Folder, I: Source, O: Sink, E: Sink>(
    alloc: Global,
    folder: &F,
    console: &mut Console<I, O, E>,
) -> Result<(), Failure>
    ensures plays { PlaysTo (F.gives folder.now) result (⟦<Console<I, O, E> as Terminal>⟧.streams console.old)
        (⟦<Console<I, O, E> as Terminal>⟧.streams console.new) }
    ensures leaves { Leaves result
        (⟦<Console<I, O, E> as Terminal>⟧.streams console.old) (⟦<Console<I, O, E> as Terminal>⟧.streams console.new) }
{
    let session = match read_all(alloc, &mut console.input) {
        Ok(session) => session,
        Err(ReadFault::Input) => return Err(Failure::InputFailed),
        Err(ReadFault::NoMemory) => return Err(Failure::NoMemory),
    };
    let (mapfile, script) = split_session(&session);
    let map = open_map(alloc, folder, mapfile, &mut console.errors)?;
    play_on(alloc, map, script, &mut console.output)
}

/// The map of a mapfile. The mapfile's fault is reported.
pub fn open_map<F: Folder, E: Sink>(
    alloc: Global,
    folder: &F,
    mapfile: &[u8],
    errors: &mut E,
) -> Result<Map, Failure>
    ensures map { IfOk result (λ map. ComesTo (F.gives folder.now) mapfile.now (Ok map)) }
    ensures same { OnOk result (errors.new ≡ errors.old) }
    ensures neither { IfErr result TouchesNeither }
    ensures without { IfErr result
        (λ failure. IsWithoutMap (F.gives folder.now) failure mapfile.now
        (⟦<E as Writes>⟧.state errors.old) (⟦<E as Writes>⟧.state errors.new)) }
{
    match read_map_of(alloc, folder, false, mapfile) {
        Ok((map, _files)) => Ok(map),
        Err(MapFault::Faulty { fault, .. }) => {
            report_mapfile_fault(errors, fault.line, fault.kind.number());
            Err(Failure::MapfileFault)
        }
        Err(MapFault::NoMemory) => Err(Failure::NoMemory),
    }
}

/// Plays a script on the machine as it begins with a map, and flushes what it wrote.
pub fn play_on<O: Sink>(
    alloc: Global,
    map: Map,
    script: &[u8],
    output: &mut O,
) -> Result<(), Failure>
    ensures ends { EndsOn map result script.now (O.held output.old) (O.held output.new) }
    ensures leaves { LeavesOutput result (⟦<O as Writes>⟧.state output.old) (⟦<O as Writes>⟧.state output.new) }
    ensures read { is_input_failed result ≡ false }
{
    match Machine::open(alloc, map) {
        Ok(mut machine) => play_out(&mut machine, script, output),
        Err(_) => Err(Failure::NoMemory),
    }
}

/// Plays a script, and flushes what it wrote.
pub fn play_out<O: Sink>(
    machine: &mut Machine,
    script: &[u8],
    output: &mut O,
) -> Result<(), Failure>
    ensures ends { Ends result machine.old script.now machine.new (O.held output.old) (O.held output.new) }
    ensures leaves { LeavesOutput result (⟦<O as Writes>⟧.state output.old) (⟦<O as Writes>⟧.state output.new) }
    ensures read { is_input_failed result ≡ false }
{
    match play_script(machine, script, output) {
        Ok(()) => flush(output),
        Err(_) => Err(Failure::OutputFailed),
    }
}
