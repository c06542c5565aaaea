ghost use Rattle.std.specs.Prelude.{◌≡◌};

use crate::opening::Opens;
use crate::port::{AcceptFailed, AddressFault, Port};
use commandline::Service;
use eventloop::{Poller, Wakes};
use mapdefs::Text;
use std::alloc::Global;
use std::io::Read;
use std::marker::PhantomData;
use turns::Transport;

/// A connection whose calls can be made such that none waits.
pub trait IntoTransport<T> {
    /// The same connection by calls that never wait. It is closed where there are none.
    fn into_transport(self) -> Option<T>;
}

/// The types of a network: its connections, its ports, and the wakers of a wait at one.
pub trait Network {
    /// A connection of a client, by calls that never wait.
    type Transport: Transport + Send + Drop + 'static;

    /// What reports which connections may go on.
    type Poller: Poller<Self::Transport> + Send + Drop + 'static;

    /// A connection that comes at a port.
    type Connection: IntoTransport<Self::Transport> + Opens + Send + Drop + 'static;

    /// A port that is listened on.
    type Port: Port<Self::Connection> + Send + Drop + 'static;

    /// A waker: it ends a wait at a port.
    type Waker: Wakes + Send + Drop + 'static;

    /// An input with whose end a service may end.
    type Input: Read + Send + Drop + 'static;
}

/// The input whose end ends a service, and the waker for the wait for a client then.
#[derive(Drop)]
pub struct Until<W, I> {
    /// The waker of the port of clients.
    pub waker: W,
    /// The input.
    pub input: I,
}

/// The purpose of a port: the connections of clients.
pub struct Clients;

/// The purpose of a port: the connections of administrators.
pub struct Administrators;

/// A port for the purpose K alone, so that no call takes one for the other.
#[derive(Drop)]
pub struct PortFor<K, P> {
    port: P,
    purpose: PhantomData<K>,
}

impl<K, P> PortFor<K, P> {
    /// This port.
    pub fn new(port: P) -> Self
        ensures { result.port ≡ port }
    {
        PortFor {
            port,
            purpose: PhantomData,
        }
    }

    /// The port itself.
    pub fn get(&self) -> &P
        ensures { result.now ≡ self.now.port }
    {
        &self.port
    }
}

impl<C, K, P: Port<C>> Port<C> for PortFor<K, P> {
    ghost log = { λ p. P.log p.port };

    ghost keeps_reserve = { λ p. P.keeps_reserve p.port };

    ghost address = { λ p. P.address p.port };

    fn address(&self, alloc: Global) -> Result<Text, AddressFault> {
        self.port.address(alloc)
    }

    fn keep_reserve(&mut self) {
        self.port.keep_reserve();
    }

    fn accept(&mut self) -> Result<C, AcceptFailed> {
        self.port.accept()
    }
}

/// The ports of a service, and its options.
#[derive(Drop)]
pub struct Ports<P, W, Q, I> {
    /// The port of clients.
    pub clients: PortFor<Clients, P>,
    /// The port of administrators.
    pub administration: PortFor<Administrators, P>,
    /// The waker of a wait for an administrator, if that port knows its address.
    pub waker: Option<W>,
    /// The waker of a wait for a client, if that port knows its address.
    pub clients_waker: Option<W>,
    /// The pollers of the workers, one for each.
    pub pollers: Vec<Q>,
    /// The input whose end ends the service, if there is one.
    pub until: Option<Until<W, I>>,
    /// How many connections come at each, and how many workers answer clients.
    pub service: Service,
}
