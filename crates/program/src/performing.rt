ghost use Rattle.std.specs.Prelude.{◌≡◌, ◌≢◌, []};
ghost use Rattle.commandline.specs.declared.subcommand.Command.TheVariants.{Session};
ghost use Rattle.console.specs.Console.{Leaves};
ghost use Rattle.program.specs.Hosts.{gives_in, left_of};
ghost use Rattle.program.specs.Performing.{Performs, PerformsCheck, PerformsRun, PerformsServe, ServesMap};
ghost use Rattle.program.specs.Requests.{fingerprinted, paths_of, requested_by, written_by};
ghost use Rattle.subcommands.specs.Session.{PlaysTo};

use crate::ending::Ending;
use crate::files::{HostFile, HostFolder};
use crate::host::{Files, Host};
use crate::known::Known;
use crate::program::Program;
use crate::serving::JournaledService;
use commandline::{Command, Service};
use console::{Console, Failure, Terminal, Writes};
use network::Network;
use service::Runtime;
use streams::{Sink, Source};
use subcommands::{Job, NamedFile, ReadMap, check, read_map, run, session};

// The mapfile of a map, and the script that is to be played on it.
#[derive(Clone, Copy)]
struct ScriptedMap<'a> {
    file: &'a str,
    script: &'a str,
}

// How a map is to be served, and the path of its journal, if batches are to be kept.
#[derive(Clone, Copy)]
struct RequestedService<'a> {
    service: Service,
    journal: Option<&'a str>,
    // What is found is explained.
    explains: bool,
}

// The file of a path, whose name is that path.
fn named_file<'a, H: Files>(host: &'a H, path: &'a str) -> NamedFile<'a, HostFile<'a, H>>
    ensures name { result.name.now ≡ path.now }
    ensures left { left_of (H.file host.now path.now) H.File.remaining result.reader.file ≡ H.file host.now path.now }
    ensures host { result.reader.host.now ≡ host.now }
    ensures path { result.reader.path.now ≡ path.now }
{
    NamedFile {
        name: path,
        reader: HostFile::new(host, path),
    }
}

impl<R: Runtime, H: Host> Program<'_, R, H> {
    // Plays a session, whose mapfiles have the files of the current folder.
    fn session<I: Source, O: Sink, E: Sink>(
        &self,
        console: &mut Console<I, O, E>,
    ) -> Result<(), Failure>
        ensures plays { PlaysTo (gives_in (H.Files.file self.now.host.now) []) result
            (⟦<Console<I, O, E> as Terminal>⟧.streams console.old) (⟦<Console<I, O, E> as Terminal>⟧.streams console.new) }
        ensures leaves { Leaves result (⟦<Console<I, O, E> as Terminal>⟧.streams console.old) (⟦<Console<I, O, E> as Terminal>⟧.streams console.new) }
    {
        let folder = HostFolder::current(self.host);
        session(self.rt.alloc(), &folder, console)
    }

    // Checks a mapfile.
    fn check<I: Source, O: Sink, E: Sink>(
        &self,
        file: &str,
        explains: bool,
        console: &mut Console<I, O, E>,
    ) -> Result<(), Failure>
        ensures checks { PerformsCheck (⟦<H as Known<R>>⟧.view self.now.host.now) file.now explains result
            (⟦<Console<I, O, E> as Terminal>⟧.streams console.old) (⟦<Console<I, O, E> as Terminal>⟧.streams console.new) }
        ensures input { console.new.input ≡ console.old.input }
        ensures leaves { Leaves result (⟦<Console<I, O, E> as Terminal>⟧.streams console.old) (⟦<Console<I, O, E> as Terminal>⟧.streams console.new) }
    {
        let folder = HostFolder::of(self.host, file);
        let mut job = Job {
            folder: &folder,
            mapfile: named_file(self.host, file),
            explains,
        };
        check(self.rt.alloc(), &mut job, console)
    }

    // Plays a script on the map of a mapfile.
    fn run<I: Source, O: Sink, E: Sink>(
        &self,
        scripted: ScriptedMap<'_>,
        explains: bool,
        console: &mut Console<I, O, E>,
    ) -> Result<(), Failure>
        ensures runs { PerformsRun (⟦<H as Known<R>>⟧.view self.now.host.now) (paths_of scripted.entry) explains result
            (⟦<Console<I, O, E> as Terminal>⟧.streams console.old) (⟦<Console<I, O, E> as Terminal>⟧.streams console.new) }
        ensures input { console.new.input ≡ console.old.input }
        ensures leaves { Leaves result (⟦<Console<I, O, E> as Terminal>⟧.streams console.old) (⟦<Console<I, O, E> as Terminal>⟧.streams console.new) }
    {
        let folder = HostFolder::of(self.host, scripted.file);
        let mut job = Job {
            folder: &folder,
            mapfile: named_file(self.host, scripted.file),
            explains,
        };
        let mut commands = named_file(self.host, scripted.script);
        run(self.rt.alloc(), &mut job, &mut commands, console)
    }

    // Serves the map of a mapfile, with the journal of a path or without.
    fn serve<I: Source, O: Sink, E: Sink>(
        &self,
        file: &str,
        requested: RequestedService<'_>,
        console: &mut Console<I, O, E>,
    ) -> Ending<H::Port, H::Log>
        ensures serves { PerformsServe (⟦<H as Known<R>>⟧.view self.now.host.now) file.now (requested_by requested.entry) result
            (⟦<Console<I, O, E> as Terminal>⟧.streams console.old) (⟦<Console<I, O, E> as Terminal>⟧.streams console.new) }
        ensures input { console.new.input ≡ console.old.input }
        ensures leaves { Leaves result.outcome (⟦<Console<I, O, E> as Terminal>⟧.streams console.old) (⟦<Console<I, O, E> as Terminal>⟧.streams console.new) }
    {
        let folder = HostFolder::of(self.host, file);
        let mut job = Job {
            folder: &folder,
            mapfile: named_file(self.host, file),
            explains: requested.explains,
        };
        match read_map(self.rt.alloc(), &mut job, &mut console.errors) {
            Ok(read) => self.serve_read(read, requested, console),
            Err(failure) => Ending::after(Err(failure)),
        }
    }

    // Serves a map that was read.
    fn serve_read<I: Source, O: Sink, E: Sink>(
        &self,
        read: ReadMap,
        requested: RequestedService<'_>,
        console: &mut Console<I, O, E>,
    ) -> Ending<H::Port, H::Log>
        ensures serves { ServesMap (⟦<H as Known<R>>⟧.view self.now.host.now) (requested_by requested.entry) (fingerprinted read) result
            (written_by ⟦<O as Writes>⟧.state ⟦<E as Writes>⟧.state console.old console.new) }
        ensures input { console.new.input ≡ console.old.input }
        ensures leaves { Leaves result.outcome (⟦<Console<I, O, E> as Terminal>⟧.streams console.old) (⟦<Console<I, O, E> as Terminal>⟧.streams console.new) }
    {
        let RequestedService {
            service,
            journal,
            explains,
        } = requested;
        match journal {
            Some(path) => {
                let journaled = JournaledService {
                    service,
                    path,
                    explains,
                };
                self.serve_kept(read, journaled, console)
            }
            None => self.serve_map(read.map, service, &mut console.output),
        }
    }

    /// Performs a command, with the files and the ports of the host. Only a session is read from the input.
    pub fn perform<I: Source, O: Sink, E: Sink>(
        &self,
        command: Command,
        console: &mut Console<I, O, E>,
    ) -> Ending<H::Port, H::Log>
        ensures performs { Performs (⟦<H as Known<R>>⟧.view self.now.host.now) command.entry result
            (⟦<Console<I, O, E> as Terminal>⟧.streams console.old) (⟦<Console<I, O, E> as Terminal>⟧.streams console.new) }
        ensures input { command.entry ≢ Session → console.new.input ≡ console.old.input }
        ensures leaves { Leaves result.outcome (⟦<Console<I, O, E> as Terminal>⟧.streams console.old) (⟦<Console<I, O, E> as Terminal>⟧.streams console.new) }
    {
        match command {
            Command::Session => Ending::after(self.session(console)),
            Command::Check { file, explains } => Ending::after(self.check(file, explains, console)),
            Command::Run {
                file,
                script,
                explains,
            } => Ending::after(self.run(ScriptedMap { file, script }, explains, console)),
            Command::Serve {
                file,
                explains,
                service,
                journal,
            } => {
                let requested = RequestedService {
                    service,
                    journal,
                    explains,
                };
                self.serve(file, requested, console)
            }
        }
    }
}
