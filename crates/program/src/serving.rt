ghost use Rattle.std.specs.Prelude.{◌≡◌, ◌||◌, ℕ, List, IfErr, IfOk, OnErr, OnOk, None, is_some, true, false, vec_len};
ghost use Rattle.console.specs.Console.{LeavesOutput, is_input_failed};
ghost use Rattle.journal.specs.Name.{IsBounded};
ghost use Rattle.journalfile.specs.Settled.{GarblesNoRecord, IsSettled};
ghost use Rattle.program.specs.Journals.{IsOpened, IsUnopened, checkpoint_of, map_fingerprint};
ghost use Rattle.program.specs.Performing.{IsServed, NamesItsPort, NamesPort, ServesCompacted, ServesJournal, ServesMachine, ServesMap, by_compacted, by_journal};
ghost use Rattle.program.specs.Requests.{begun_by, fingerprinted, requested_with, written_by};
ghost use Rattle.subcommands.specs.Session.{opened};
ghost use Rattle.service.specs.Failures.{is_resource_failure};
ghost use Rattle.subcommands.specs.Mapfiles.{TouchesNeither};

use crate::ending::Ending;
use crate::host::{Host, ListenFailed, OpenFault};
use crate::keeping::{
    JournalFault, JournalPlace, OpenedJournal, fingerprint_of_map, open_journal, report_cut,
    report_end, report_journal_fault,
};
use crate::known::Known;
use crate::program::Program;
use commandline::Service;
use console::{Console, Failure, Writes};
use journalfile::{Checkpoint, CompactedJournal, Journal, Log, LogFailure};
use keepers::Keeps;
use mapdefs::Map;
use mapmachine::Machine;
use network::{Network, PortFor, Ports, Until};
use service::{Kept, Runtime, Served, serve_by_threads};
use std::alloc::Global;
use streams::Sink;
use subcommands::ReadMap;

/// How a map is to be served whose batches are kept, and the path of their journal.
#[derive(Clone, Copy)]
pub struct JournaledService<'a> {
    /// The options.
    pub service: Service,
    /// The path.
    pub path: &'a str,
    /// What is found is explained.
    pub explains: bool,
}

// Whether a cut of the journal is reported, and that it isn't compacted: what is found is explained, or a log is kept.
fn is_told(explains: bool, service: Service) -> bool
    ensures { result ≡ (explains || service.logs) }
{
    explains || service.logs
}

// When a journal is compacted as it is served: from this many megabytes on.
fn checkpoint_of(megabytes: u32) -> Checkpoint
    ensures { result ≡ checkpoint_of megabytes }
{
    let bytes = u64::from(megabytes) * 1_000_000;
    Checkpoint {
        least: bytes,
        due: bytes,
    }
}

// A port of a host by its number.
fn listen_on<H: Host>(host: &H, port: u16) -> Result<H::Port, Failure>
    ensures listens { IfOk result (λ p. H.listens host.now port p) }
    ensures named { IfErr result (NamesPort (λ named cause. (named ≡ port) × H.refuses host.now port cause)) }
{
    match host.listen(port) {
        Ok(listened) => Ok(listened),
        Err(ListenFailed { cause }) => Err(Failure::ListenFailed { port, cause }),
    }
}

// A poller for each of so many workers.
fn pollers_of<H: Host>(alloc: Global, host: &H, workers: u16) -> Result<Vec<H::Poller>, Failure>
    ensures number { IfOk result (λ pollers. vec_len pollers ≡ workers) }
    ensures failed { IfErr result (λ failure. is_resource_failure failure ≡ true) }
{
    let mut pollers = Vec::new(alloc);
    for _ in 0..workers {
        let Some(poller) = host.poller() else {
            return Err(Failure::SocketFailed);
        };
        if pollers.push(poller).is_err() {
            return Err(Failure::NoMemory);
        }
    }
    Ok(pollers)
}

// The input whose end ends a service, if that is requested.
fn until_of<H: Host>(
    host: &H,
    service: Service,
    clients: &H::Port,
) -> Result<Option<Until<H::Waker, H::Input>>, Failure>
    ensures asked { IfOk result (λ until. is_some until ≡ service.until_input_ends) }
    ensures failed { IfErr result (λ failure. is_resource_failure failure ≡ true) }
{
    if !service.until_input_ends {
        return Ok(None);
    }
    match (host.waker(clients), host.input()) {
        (Some(waker), Ok(input)) => Ok(Some(Until { waker, input })),
        _ => Err(Failure::SocketFailed),
    }
}

// The two ports of a service, its pollers, and the input whose end ends it.
fn listen<H: Host>(
    alloc: Global,
    host: &H,
    service: Service,
) -> Result<Ports<H::Port, H::Waker, H::Poller, H::Input>, Failure>
    ensures clients { IfOk result (λ ports. H.listens host.now service.port ports.clients.port) }
    ensures administration { IfOk result (λ ports. H.listens host.now service.admin_port ports.administration.port) }
    ensures service { IfOk result (λ ports. ports.service ≡ service) }
    ensures pollers { IfOk result (λ ports. vec_len ports.pollers ≡ service.workers) }
    ensures until { IfOk result (λ ports. is_some ports.until ≡ service.until_input_ends) }
    ensures named { IfErr result (NamesItsPort (H.refuses host.now) service) }
{
    let clients = listen_on(host, service.port)?;
    let administration = listen_on(host, service.admin_port)?;
    let waker = host.waker(&administration);
    let clients_waker = host.waker(&clients);
    let pollers = pollers_of(alloc, host, service.workers)?;
    let until = until_of(host, service, &clients)?;
    Ok(Ports {
        clients: PortFor::new(clients),
        administration: PortFor::new(administration),
        waker,
        clients_waker,
        pollers,
        until,
        service,
    })
}

impl<R: Runtime, H: Host> Program<'_, R, H> {
    // Listens on two ports, and serves a machine there, as it begins, whose batches are kept. The error is that a port can't be listened on, or that
    // memory was refused.
    fn serve_machine<K: Keeps + Drop, O: Sink>(
        &self,
        kept: Kept<K>,
        service: Service,
        output: &mut O,
    ) -> Result<Served<H::Port, K>, Failure>
        requires ready { (batches : List (List ℕ)) × K.keeps kept.keeper batches }
        ensures served { IfOk result (λ served. IsServed (⟦<H as Known<R>>⟧.view self.now.host.now) ⟦<K as Keeps>⟧
            (begun_by kept service) served
            (⟦<O as Writes>⟧.state output.old) (⟦<O as Writes>⟧.state output.new)) }
        ensures unwritten { OnErr result (⟦<O as Writes>⟧.state output.new ≡ ⟦<O as Writes>⟧.state output.old) }
        ensures neither { IfErr result TouchesNeither }
        ensures named { IfErr result (NamesItsPort (H.refuses self.now.host.now) service) }
    {
        let ports = listen(self.rt.alloc(), self.host, service)?;
        Ok(serve_by_threads::<R, H, K, O>(&self.rt, kept, ports, output))
    }

    // The same with a journal that keeps all batches, or with none.
    fn serve_whole<O: Sink>(
        &self,
        kept: Kept<Option<Journal<H::Log>>>,
        service: Service,
        output: &mut O,
    ) -> Ending<H::Port, H::Log>
        requires ready { (batches : List (List ℕ)) × ⟦<Option<Journal<H::Log>> as Keeps>⟧.keeps kept.keeper batches }
        ensures serves { ServesMachine (⟦<H as Known<R>>⟧.view self.now.host.now) by_journal (begun_by kept service) result
            (⟦<O as Writes>⟧.state output.old) (⟦<O as Writes>⟧.state output.new) }
        ensures leaves { LeavesOutput result.outcome (⟦<O as Writes>⟧.state output.old) (⟦<O as Writes>⟧.state output.new) }
        ensures reads { is_input_failed result.outcome ≡ false }
    {
        match self.serve_machine(kept, service, output) {
            Ok(served) => Ending::of_service(served),
            Err(failure) => Ending::after(Err(failure)),
        }
    }

    // The same with a journal that is compacted.
    fn serve_compacted<O: Sink>(
        &self,
        kept: Kept<CompactedJournal<H::Log>>,
        service: Service,
        output: &mut O,
    ) -> Ending<H::Port, H::Log>
        requires ready { (batches : List (List ℕ)) × ⟦<CompactedJournal<H::Log> as Keeps>⟧.keeps kept.keeper batches }
        ensures serves { ServesMachine (⟦<H as Known<R>>⟧.view self.now.host.now) by_compacted (begun_by kept service) result
            (⟦<O as Writes>⟧.state output.old) (⟦<O as Writes>⟧.state output.new) }
        ensures leaves { LeavesOutput result.outcome (⟦<O as Writes>⟧.state output.old) (⟦<O as Writes>⟧.state output.new) }
        ensures reads { is_input_failed result.outcome ≡ false }
    {
        match self.serve_machine(kept, service, output) {
            Ok(served) => Ending::of_compacted(served),
            Err(failure) => Ending::after(Err(failure)),
        }
    }

    // The same, where the journal is compacted first, if it is due.
    fn serve_compacting<O: Sink>(
        &self,
        mut kept: Kept<CompactedJournal<H::Log>>,
        service: Service,
        output: &mut O,
    ) -> Ending<H::Port, H::Log>
        requires ready { (batches : List (List ℕ)) × ⟦<CompactedJournal<H::Log> as Keeps>⟧.keeps kept.keeper batches }
        ensures serves { ServesCompacted (⟦<H as Known<R>>⟧.view self.now.host.now) (begun_by kept service) result
            (⟦<O as Writes>⟧.state output.old) (⟦<O as Writes>⟧.state output.new) }
        ensures leaves { LeavesOutput result.outcome (⟦<O as Writes>⟧.state output.old) (⟦<O as Writes>⟧.state output.new) }
        ensures reads { is_input_failed result.outcome ≡ false }
    {
        match kept.keeper.compact_where_due() {
            Ok(()) => self.serve_compacted(kept, service, output),
            Err(failure) => Ending::of_journal(failure.cause()),
        }
    }

    // Serves a machine with its journal, which is compacted where the options say so.
    fn serve_journal<O: Sink>(
        &self,
        kept: Kept<Journal<H::Log>>,
        journaled: JournaledService<'_>,
        output: &mut O,
    ) -> Ending<H::Port, H::Log>
        requires recognised { H.Log.reliable → (name : List ℕ) → GarblesNoRecord H.Log.garbled name }
        requires settled { (own : List (List ℕ)) × (H.Log.reliable → IsSettled H.Log.content H.Log.may_leave kept.keeper own) }
        requires bounded { IsBounded kept.keeper.name.compaction }
        ensures serves { ServesJournal (⟦<H as Known<R>>⟧.view self.now.host.now) (journaled.entry.explains || journaled.entry.service.logs)
            (begun_by kept journaled.entry.service) result
            (⟦<O as Writes>⟧.state output.old) (⟦<O as Writes>⟧.state output.new) }
        ensures leaves { LeavesOutput result.outcome (⟦<O as Writes>⟧.state output.old) (⟦<O as Writes>⟧.state output.new) }
        ensures reads { is_input_failed result.outcome ≡ false }
    {
        let Kept {
            machine,
            keeper: journal,
        } = kept;
        let service = journaled.service;
        if service.checkpoint == 0 {
            let keeper = Some(journal);
            return self.serve_whole(Kept { machine, keeper }, service, output);
        }
        let checkpoint = checkpoint_of(service.checkpoint);
        let keeper = CompactedJournal {
            journal,
            checkpoint,
            is_reported: is_told(journaled.explains, service),
        };
        self.serve_compacting(Kept { machine, keeper }, service, output)
    }

    /// Listens on two ports, and serves a map there, as it begins. Its batches end with the program.
    pub fn serve_map<O: Sink>(
        &self,
        map: Map,
        service: Service,
        output: &mut O,
    ) -> Ending<H::Port, H::Log>
        ensures serves { ServesMachine (⟦<H as Known<R>>⟧.view self.now.host.now) by_journal (record { machine = opened map; keeper = None; service = service }) result
            (⟦<O as Writes>⟧.state output.old) (⟦<O as Writes>⟧.state output.new) }
        ensures leaves { LeavesOutput result.outcome (⟦<O as Writes>⟧.state output.old) (⟦<O as Writes>⟧.state output.new) }
        ensures reads { is_input_failed result.outcome ≡ false }
    {
        let Ok(machine) = Machine::open(self.rt.alloc(), map) else {
            return Ending::after(Err(Failure::NoMemory));
        };
        let kept = Kept {
            machine,
            keeper: None,
        };
        self.serve_whole(kept, service, output)
    }

    // The machine of a map that was read, after the batches of its journal, and that journal.
    fn open_kept(&self, read: ReadMap, path: &str) -> Result<OpenedJournal<H::Log>, JournalFault>
        ensures opened { IfOk result (λ found. IsOpened (⟦<H as Known<R>>⟧.journals self.now.host.now) path.now
            (map_fingerprint read.source.items read.files) (opened read.map) found.machine found.journal found.cut) }
        ensures recognised { OnOk result (H.Log.reliable → (name : List ℕ) → GarblesNoRecord H.Log.garbled name) }
        ensures fault { IfErr result (IsUnopened (⟦<H as Known<R>>⟧.journals self.now.host.now) path.now
            (map_fingerprint read.source.items read.files) (opened read.map)) }
    {
        let alloc = self.rt.alloc();
        let Ok(fingerprint) = fingerprint_of_map(alloc, &read) else {
            return Err(JournalFault::Log(OpenFault::NoMemory));
        };
        let ReadMap { map, .. } = read;
        let place = JournalPlace {
            host: self.host,
            path,
        };
        open_journal(alloc, place, fingerprint, map)
    }

    /// Serves a map that was read in the state after the batches of its journal. The journal keeps those that follow; where it is
    /// compacted, it keeps the state that they lead to. It listens on two ports for that. It reports why the journal can't be opened, or
    /// that the journal failed; and that a torn tail was cut off, where that is requested or a log is kept.
    pub fn serve_kept<I, O: Sink, E: Sink>(
        &self,
        read: ReadMap,
        journaled: JournaledService<'_>,
        console: &mut Console<I, O, E>,
    ) -> Ending<H::Port, H::Log>
        ensures serves { ServesMap (⟦<H as Known<R>>⟧.view self.now.host.now) (requested_with journaled.entry) (fingerprinted read) result
            (written_by ⟦<O as Writes>⟧.state ⟦<E as Writes>⟧.state console.old console.new) }
        ensures input { console.new.input ≡ console.old.input }
        ensures leaves { LeavesOutput result.outcome (⟦<O as Writes>⟧.state console.old.output) (⟦<O as Writes>⟧.state console.new.output) }
        ensures reads { is_input_failed result.outcome ≡ false }
    {
        let JournaledService { service, path, .. } = journaled;
        let opened = match self.open_kept(read, path) {
            Ok(opened) => opened,
            Err(fault) => {
                report_journal_fault(&mut console.errors, path, journaled.explains, fault);
                return Ending::after(Err(fault.failure()));
            }
        };
        let OpenedJournal {
            machine,
            journal: keeper,
            cut,
        } = opened;
        let tells = is_told(journaled.explains, service);
        report_cut(&mut console.errors, path, tells, cut);
        let kept = Kept { machine, keeper };
        let ending = self.serve_journal(kept, journaled, &mut console.output);
        report_end(&mut console.errors, path, ending.outcome(), ending.cause());
        ending
    }
}
