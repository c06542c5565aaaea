//! The threads of a service: that of clients and that of the input with whose end it ends.

ghost use Rattle.std.specs.Prelude.{◌≡◌, IfErr, IfOk, IsErr, IsSome, true};
ghost use Rattle.network.specs.Ports.{requested};
ghost use Rattle.service.specs.Failures.{is_resource_failure};
ghost use Rattle.service.specs.Serving.{WereServed};
ghost use Rattle.service.specs.declared.logging.LoggedPoller.{LoggedPoller};

use crate::administering::Administering;
use crate::clients::{ClientFlags, ClientSide, ClientsEnd, ServesClients, serve_clients};
use crate::flags::{Flag, Stopped, Unread};
use crate::logging::Logs;
use crate::runtime::Runtime;
use crate::signals::{ClientSignals, StopSignal, Wakers, signals_of};
use crate::started::Starting;
use accesslog::{LogQueue, LoggedTransport};
use console::Failure;
use eventloop::{Poller, Wakes};
use mapshare::{Reader, Sharing};
use network::{Accepting, Administrators, IntoTransport, Network, Port, PortFor, Ports};
use std::alloc::Global;
use std::marker::PhantomData;
use std::sync::Arc;
use std::thread::{self, PromisedHandle};
use turns::Transport;

/// The thread of clients, which promises how it ends.
pub(crate) type ClientsThread<S, R, T, Q> = PromisedHandle<ClientsEnd, ServesClients<S, R, T, Q>>;

// Answers the connections of clients, up to the last. The thread of administrators is told then that their port isn't served any more, and, where that
// fails or has to stop, that the service ends.
fn serve_all<S, R, C, T, P, Q, W>(
    rt: &R,
    readers: Vec<Reader<S>>,
    side: ClientSide<P, Q, R>,
    signals: &ClientSignals<W>,
) -> ClientsEnd
where
    S: Sharing + Send + Sync + 'static,
    R: Runtime,
    C: IntoTransport<T> + Send + Drop + 'static,
    T: Transport + Send + Drop + 'static,
    P: Port<C> + Drop,
    Q: Poller<T> + Send + Drop + 'static,
    W: Wakes,
    ensures failed { IfErr result.outcome (λ failure. is_resource_failure failure ≡ true) }

    // Without that the thread of administrators would wait for a connection, and the service wouldn't end.
    ensures told { IsErr result.outcome → IsSome result.over }

    ensures clients { WereServed (LoggedPoller Q) ⟦<LoggedTransport<T, R> as Transport>⟧ S.opening side.service result.outcome }
{
    let flags = ClientFlags {
        starting: &signals.starting,
        is_stopped: &signals.is_stopped,
    };
    let outcome = serve_clients::<S, R, C, T, P, Q>(rt, readers, side, flags);
    let left = signals.is_left.set();
    let over = if outcome.is_err() || signals.is_stopped.is_set() {
        Some(signals.is_over.give())
    } else {
        None
    };
    ClientsEnd {
        outcome,
        left,
        over,
    }
}

// Starts the thread that accepts the connections of clients.
fn start_clients<S, R, C, T, P, Q, W>(
    rt: &R,
    readers: Vec<Reader<S>>,
    side: ClientSide<P, Q, R>,
    signals: ClientSignals<W>,
) -> Result<ClientsThread<S, R, T, Q>, Failure>
where
    S: Sharing + Send + Sync + 'static,
    R: Runtime,
    C: IntoTransport<T> + Send + Drop + 'static,
    T: Transport + Send + Drop + 'static,
    P: Port<C> + Send + Drop + 'static,
    Q: Poller<T> + Send + Drop + 'static,
    W: Wakes + Send + Drop + 'static,
    ensures failed { IfErr result (λ failure. is_resource_failure failure ≡ true) }
    ensures promised { IfOk result (λ thread. thread.promise.service ≡ side.service) }
{
    let handle = *rt;
    let promise = ServesClients {
        service: side.service,
        of: PhantomData,
    };
    match thread::spawn_with(rt, promise, move || {
        serve_all::<S, R, C, T, P, Q, W>(&handle, readers, side, &signals)
    }) {
        Ok(child) => Ok(child),
        Err(_) => Err(Failure::SocketFailed),
    }
}

/// A service whose threads are started.
#[derive(Drop)]
pub(crate) struct Started<S: Sharing, R: Runtime, N: Network> {
    /// The thread that accepts clients.
    pub clients: ClientsThread<S, R, N::Transport, N::Poller>,
    /// The side of administrators.
    pub administering: Administering<N::Port, R>,
    /// Has the thread of clients stop.
    pub stop: StopSignal<Stopped, N::Waker>,
    /// The input with whose end the service ends could not be read.
    pub has_failed: Arc<Flag<Unread>, Global>,
}

impl<S: Sharing, R: Runtime, N: Network> Started<S, R, N> {
    /// Ends the service, of which nobody was told.
    pub fn end(self, rt: &R) {
        let Started { clients, stop, .. } = self;
        stop.give();
        let _ = clients.join(rt);
    }
}

// The ports of a service as its sides: its wakers, the side of clients with their log, and the connections of administrators.
fn sides_of<N: Network, R>(
    ports: Ports<N::Port, N::Waker, N::Poller, N::Input>,
    log: Option<LogQueue<R>>,
) -> (
    Wakers<N::Waker, N::Input>,
    ClientSide<N::Port, N::Poller, R>,
    Accepting<PortFor<Administrators, N::Port>>,
)
    ensures wakers { (result.0.administration ≡ ports.waker) × (result.0.clients ≡ ports.clients_waker) × (result.0.until ≡ ports.until) }
    ensures clients { (result.1.port.port ≡ ports.clients) × (result.1.pollers ≡ ports.pollers) × (result.1.service ≡ ports.service) }
    ensures connections { (result.1.port.remaining ≡ requested ports.service.connections)
        × (result.2.remaining ≡ requested ports.service.connections) }
    ensures reserve { N.Port.keeps_reserve result.2.port.port ≡ true }
{
    let connections = ports.service.connections;
    let wakers = Wakers {
        administration: ports.waker,
        clients: ports.clients_waker,
        until: ports.until,
    };
    let side = ClientSide {
        port: Accepting::new(ports.clients, connections),
        pollers: ports.pollers,
        service: ports.service,
        log,
    };
    let mut administration = ports.administration;
    administration.keep_reserve();
    let administration = Accepting::new(administration, connections);
    (wakers, side, administration)
}

// Waits until the workers of clients are started. Where one can't be, it waits for the end of their thread.
fn started_clients<S: Sharing, R: Runtime, T: Transport + Drop, Q: Drop>(
    rt: &R,
    starting: &Starting,
    clients: ClientsThread<S, R, T, Q>,
) -> Result<ClientsThread<S, R, T, Q>, Failure>
    ensures failed { IfErr result (λ failure. is_resource_failure failure ≡ true) }
    ensures same { IfOk result (λ thread. thread ≡ clients) }
{
    if starting.wait(rt) {
        return Ok(clients);
    }
    let end = clients.join(rt);
    match end.outcome {
        Err(Failure::NoMemory) => Err(Failure::NoMemory),
        _ => Err(Failure::SocketFailed),
    }
}

/// Starts the threads of clients and of the input's end.
pub(crate) fn start_sides<S: Sharing + Send + Sync + 'static, R: Runtime, N: Network>(
    rt: &R,
    readers: Vec<Reader<S>>,
    ports: Ports<N::Port, N::Waker, N::Poller, N::Input>,
    logs: Logs<R>,
) -> Result<Started<S, R, N>, Failure>
    ensures failed { IfErr result (λ failure. is_resource_failure failure ≡ true) }
    ensures promised { IfOk result (λ started. started.clients.promise.service ≡ ports.service) }
{
    let (wakers, side, port) = sides_of::<N, R>(ports, logs.clients);
    let signals = signals_of(rt, wakers)?;
    let clients = start_clients::<S, R, N::Connection, N::Transport, N::Port, N::Poller, N::Waker>(
        rt,
        readers,
        side,
        signals.clients,
    )?;
    Ok(Started {
        clients: started_clients(rt, &signals.starting, clients)?,
        administering: Administering {
            port,
            is_over: signals.is_over,
            is_left: signals.is_left,
            log: logs.administration,
        },
        stop: signals.stop,
        has_failed: signals.has_failed,
    })
}
