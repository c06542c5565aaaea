//! A service by threads: clients in other threads, administrators in the calling one.

ghost use Rattle.std.specs.Prelude.{◌≡◌, ◌++◌, ℕ, List, IsErr, IsSome, MatchResult, None, Some, Ok, Err};
ghost use Rattle.batches.specs.Batch.{accepted};
ghost use Rattle.sharing.specs.Sharing.{after};
ghost use Rattle.administration.specs.Keeping.{IsKeptSince, NoneLost};
ghost use Rattle.service.specs.Announcing.{HasAnnounced, GoesOnAfter};
ghost use Rattle.service.specs.Serving.{IsServiceOf, LosesNone, NamesCause, WereServed};
ghost use Rattle.service.specs.declared.logging.LoggedPoller.{LoggedPoller};

use crate::administering::administer_all;
use crate::announcing::Addresses;
use crate::logging::{Logs, start_log};
use crate::runtime::Runtime;
use crate::served::{Served, ServiceEnd};
use crate::starting::{Started, start_sides};
use accesslog::LoggedTransport;
use console::{Failure, Writes};
use history::Blank;
use keepers::Keeps;
use mapmachine::Machine;
use mapshare::{Admin, KeepFailed, Reader, ShareFault, Sharing, open};
use network::{Network, Ports};
use std::marker::Brand;
use streams::Sink;
use turns::Transport;

// How a service ended whose threads have ended: the keeper of batches failed, or the input with whose end it ends, or as the thread of clients did.
fn end_of(kept: Result<(), KeepFailed>, has_failed: bool, served: Result<(), Failure>) -> ServiceEnd
    ensures ends { GoesOnAfter (Ok tt) result.outcome }
    ensures kept { IsErr kept → result.outcome ≡ Err Failure.JournalFailed }
    ensures journal { result.outcome ≡ Err Failure.JournalFailed → IsErr kept }
    ensures cause { MatchResult kept (λ _. result.cause ≡ None) (λ failed. result.cause ≡ Some failed.cause) }
    ensures well { result.outcome ≡ Ok tt → served ≡ Ok tt }
{
    if let Err(KeepFailed { cause }) = kept {
        return ServiceEnd {
            outcome: Err(Failure::JournalFailed),
            cause: Some(cause),
        };
    }
    ServiceEnd::after(match served {
        Ok(()) if has_failed => Err(Failure::WatchFailed),
        Ok(()) => Ok(()),
        Err(Failure::NoMemory) => Err(Failure::NoMemory),
        Err(_) => Err(Failure::SocketFailed),
    })
}

// Serves clients in other threads and administrators in this one.
fn serve_started<S, R, N, K>(
    rt: &R,
    admin: Admin<S, K>,
    keeper: &mut K,
    started: Started<S, R, N>,
) -> (Admin<S, K>, ServiceEnd)
where
    S: Sharing + Send + Sync + 'static,
    R: Runtime,
    N: Network,
    K: Keeps,
    requires ready { (kept : List (List ℕ)) × K.keeps keeper.old kept }
    ensures ends { GoesOnAfter (Ok tt) result.1.outcome }
    ensures kept { (kept : List (List ℕ)) → K.keeps keeper.old kept → (result.1.outcome ≡ Err Failure.JournalFailed → ⊥)
        → IsKeptSince K.keeps admin kept result.0 keeper.new }
    ensures crash { NoneLost ⟦<K as Keeps>⟧ S.opening admin keeper.old result.0 keeper.new }
    ensures cause { NamesCause K.fails result.1.outcome result.1.cause }
    ensures clients { WereServed (LoggedPoller N.Poller) ⟦<LoggedTransport<N::Transport, R> as Transport>⟧ S.opening started.clients.promise.service
        result.1.outcome }
{
    let Started {
        clients,
        administering,
        stop,
        has_failed,
    } = started;
    let (admin, kept) = administer_all::<S, K, R, N::Connection, N::Port>(
        rt,
        admin,
        keeper,
        administering,
    );
    if kept.is_err() {
        stop.give();
    }
    let served = clients.join(rt);
    let end = end_of(kept, has_failed.is_set(), served.outcome);
    (admin, end)
}

// A map that is shared, the ports at which it is served, and the logs of that.
struct Opened<S: Sharing, K, R, N: Network> {
    admin: Admin<S, K>,
    readers: Vec<Reader<S>>,
    ports: Ports<N::Port, N::Waker, N::Poller, N::Input>,
    logs: Logs<R>,
}

impl<S: Sharing, K, R: Drop, N: Network> Opened<S, K, R, N> {
    // A shared map at these ports, without a log.
    fn unlogged(
        admin: Admin<S, K>,
        readers: Vec<Reader<S>>,
        ports: Ports<N::Port, N::Waker, N::Poller, N::Input>,
    ) -> Self
        ensures { (result.admin ≡ admin) × (result.ports ≡ ports) }
    {
        Opened {
            admin,
            readers,
            ports,
            logs: Logs::none(),
        }
    }

    // The same map with these logs.
    fn logged(self, logs: Logs<R>) -> Self
        ensures { (result.admin ≡ self.admin) × (result.ports ≡ self.ports) }
    {
        let Opened {
            admin,
            readers,
            ports,
            logs: _none,
        } = self;
        Opened {
            admin,
            readers,
            ports,
            logs,
        }
    }

    // The administrator of a map that isn't served.
    fn into_admin(self) -> Admin<S, K>
        ensures { result ≡ self.admin }
    {
        let Opened {
            admin,
            readers: _readers,
            ports: _ports,
            logs: _logs,
        } = self;
        admin
    }
}

// Starts the threads, writes the addresses of the ports, and serves.
fn serve_both<S, R, N, K, O>(
    rt: &R,
    opened: Opened<S, K, R, N>,
    keeper: &mut K,
    output: &mut O,
) -> (Admin<S, K>, ServiceEnd)
where
    S: Sharing + Send + Sync + 'static,
    R: Runtime,
    N: Network,
    K: Keeps,
    O: Sink,
    requires ready { (kept : List (List ℕ)) × K.keeps keeper.old kept }
    ensures announced { HasAnnounced (N.Port.address opened.ports.clients.port) (N.Port.address opened.ports.administration.port) result.1.outcome
        (⟦<O as Writes>⟧.state output.old) (⟦<O as Writes>⟧.state output.new) }
    ensures kept { (kept : List (List ℕ)) → K.keeps keeper.old kept → (result.1.outcome ≡ Err Failure.JournalFailed → ⊥)
        → IsKeptSince K.keeps opened.admin kept result.0 keeper.new }
    ensures crash { NoneLost ⟦<K as Keeps>⟧ S.opening opened.admin keeper.old result.0 keeper.new }
    ensures cause { NamesCause K.fails result.1.outcome result.1.cause }
    ensures clients { WereServed (LoggedPoller N.Poller) ⟦<LoggedTransport<N::Transport, R> as Transport>⟧ S.opening opened.ports.service result.1.outcome }
{
    let Opened {
        admin,
        readers,
        ports,
        logs,
    } = opened;
    let addresses = match Addresses::of(rt.alloc(), &ports) {
        Ok(addresses) => addresses,
        Err(failure) => return (admin, ServiceEnd::after(Err(failure))),
    };
    let started = match start_sides::<S, R, N>(rt, readers, ports, logs) {
        Ok(started) => started,
        Err(failure) => return (admin, ServiceEnd::after(Err(failure))),
    };
    match addresses.write(output) {
        Ok(()) => serve_started::<S, R, N, K>(rt, admin, keeper, started),
        Err(failure) => {
            started.end(rt);
            (admin, ServiceEnd::after(Err(failure)))
        }
    }
}

// Serves a shared map, and logs the events of clients and administrators, if the service has a log.
fn serve_logged<S, R, N, K, O>(
    rt: &R,
    opened: Opened<S, K, R, N>,
    keeper: &mut K,
    output: &mut O,
) -> (Admin<S, K>, ServiceEnd)
where
    S: Sharing + Send + Sync + 'static,
    R: Runtime,
    N: Network,
    K: Keeps,
    O: Sink,
    requires ready { (kept : List (List ℕ)) × K.keeps keeper.old kept }
    ensures announced { HasAnnounced (N.Port.address opened.ports.clients.port) (N.Port.address opened.ports.administration.port) result.1.outcome
        (⟦<O as Writes>⟧.state output.old) (⟦<O as Writes>⟧.state output.new) }
    ensures kept { (kept : List (List ℕ)) → K.keeps keeper.old kept → (result.1.outcome ≡ Err Failure.JournalFailed → ⊥)
        → IsKeptSince K.keeps opened.admin kept result.0 keeper.new }
    ensures crash { NoneLost ⟦<K as Keeps>⟧ S.opening opened.admin keeper.old result.0 keeper.new }
    ensures cause { NamesCause K.fails result.1.outcome result.1.cause }
    ensures clients { WereServed (LoggedPoller N.Poller) ⟦<LoggedTransport<N::Transport, R> as Transport>⟧ S.opening opened.ports.service result.1.outcome }
{
    if !opened.ports.service.logs {
        return serve_both::<S, R, N, K, O>(rt, opened, keeper, output);
    }
    let (log, logs) = match start_log(rt) {
        Ok(started) => started,
        Err(failure) => return (opened.into_admin(), ServiceEnd::after(Err(failure))),
    };
    let served = serve_both::<S, R, N, K, O>(rt, opened.logged(logs), keeper, output);
    log.end(rt);
    served
}

/// The map of a machine, and the keeper of its batches, for a service.
#[derive(Drop)]
pub struct Kept<K> {
    /// The machine.
    pub machine: Machine,
    /// What keeps its batches.
    pub keeper: K,
}

// A map that isn't shared yet: its machine and the keeper of its batches, and the history of what will be published, which is empty.
struct UnsharedMap<K> {
    kept: Kept<K>,
    blank: Blank,
}

// Shares the map of a machine under the name S, and serves it.
fn serve_named<S, R, N, K, O>(
    rt: &R,
    map: UnsharedMap<K>,
    ports: Ports<N::Port, N::Waker, N::Poller, N::Input>,
    output: &mut O,
) -> Served<N::Port, K>
where
    S: Sharing + Send + Sync + 'static,
    R: Runtime,
    N: Network,
    K: Keeps + Drop,
    O: Sink,
    requires history { map.blank.seen.book ≡ S.book }
    requires opening { map.kept.machine ≡ S.opening }
    requires ready { (batches : List (List ℕ)) × K.keeps map.kept.keeper batches }
    ensures served { IsServiceOf S.opening map.kept.keeper ports.clients.port ports.administration.port ports.service result }
    ensures announced { HasAnnounced (N.Port.address ports.clients.port) (N.Port.address ports.administration.port) result.outcome
        (⟦<O as Writes>⟧.state output.old) (⟦<O as Writes>⟧.state output.new) }
    ensures kept { (batches : List (List ℕ)) → K.keeps map.kept.keeper batches → (result.outcome ≡ Err Failure.JournalFailed → ⊥)
        → K.keeps result.last (batches ++ result.accepted) }
    ensures accepted { IsSome (after accepted S.opening result.accepted) }
    ensures crash { LosesNone ⟦<K as Keeps>⟧ S.opening map.kept.keeper result.last }
    ensures cause { NamesCause K.fails result.outcome result.cause }
    ensures clients { WereServed (LoggedPoller N.Poller) ⟦<LoggedTransport<N::Transport, R> as Transport>⟧ S.opening ports.service result.outcome }
{
    let UnsharedMap { kept, blank } = map;
    let Kept {
        machine,
        mut keeper,
    } = kept;
    let served = Served::begin(&machine, &keeper, &ports);
    let workers = usize::from(ports.service.workers);
    match open::<S, K, R>(rt, blank, &machine, workers) {
        Ok((admin, readers)) => {
            // Its features would stay in memory when a batch has emptied their layer.
            drop(machine);
            let opened = Opened::<S, K, R, N>::unlogged(admin, readers, ports);
            let (admin, end) = serve_logged::<S, R, N, K, O>(rt, opened, &mut keeper, output);
            let served = served.ended(end, &keeper, &admin);
            admin.close(rt);
            served
        }
        // A service has 1 to 32 workers.
        Err(ShareFault::Count) | Err(ShareFault::NoMemory) => { served.unshared() }
    }
}

/// Serves the map of a machine and keeps its accepted batches, by threads. One thread accepts the connections of clients, one for each worker serves
/// its connections in turns, and the calling one serves administrators. Once the map is shared and the threads are started, it writes the
/// addresses of the ports to the output. So the user or script that started the program knows when to connect.
pub fn serve_by_threads<R: Runtime, N: Network, K: Keeps + Drop, O: Sink>(
    rt: &R,
    kept: Kept<K>,
    ports: Ports<N::Port, N::Waker, N::Poller, N::Input>,
    output: &mut O,
) -> Served<N::Port, K>
    requires ready { (batches : List (List ℕ)) × K.keeps kept.keeper batches }
    ensures served { IsServiceOf kept.machine kept.keeper ports.clients.port ports.administration.port ports.service result }
    ensures announced { HasAnnounced (N.Port.address ports.clients.port) (N.Port.address ports.administration.port) result.outcome
        (⟦<O as Writes>⟧.state output.old) (⟦<O as Writes>⟧.state output.new) }
    ensures kept { (batches : List (List ℕ)) → K.keeps kept.keeper batches → (result.outcome ≡ Err Failure.JournalFailed → ⊥)
        → K.keeps result.last (batches ++ result.accepted) }
    ensures accepted { IsSome (after accepted kept.machine result.accepted) }

    // Whatever a crash leaves stands for the batches that were kept, and some that are accepted after them.
    ensures crash { LosesNone ⟦<K as Keeps>⟧ kept.machine kept.keeper result.last }

    // It ends because its journal failed just where a call of the keeper did, or the history has other batches; and names the cause then.
    ensures cause { NamesCause K.fails result.outcome result.cause }

    // All workers answered their clients, as readers of this map.
    ensures clients { WereServed (LoggedPoller N.Poller) ⟦<LoggedTransport<N::Transport, R> as Transport>⟧ kept.machine ports.service result.outcome }
{
    let map = UnsharedMap {
        kept,
        blank: Blank::new(),
    };
    serve_named::<Brand, R, N, K, O>(rt, map, ports, output)
}
