//! Ports, their connections, and the times of these, whatever is served on them.
//!
//! Proved: `Accepting::accept` gives connections up to the last that is requested, and `Acceptor::follow` states what follows on each call.
//! `hang_up` closes the sending side of a connection after its answer and reads what still comes, up to a limit. `timeouts_of` states how
//! long a client may take; an administrator's time is a `TimeLimit`, which `TimedReader` and `TimedWriter` keep.
//!
//! Terms: a *port* gives connections. Its *events* are the calls for a connection that failed, and the connections that were opened.
//! A connection is *evicted* that is closed so that a further one has its descriptor.
#![tactic(auto)]

mod accepting;
mod acceptor;
mod closing;
mod limits;
mod opening;
mod port;
mod ports;
mod shared_stream;
mod socket_poller;
mod socket_transport;
mod sockets;
mod timed;

pub use accepting::Accepting;
pub use acceptor::{Acceptor, Eviction, Plan};
pub use closing::{Closing, MAX_DRAINED_BYTES, drain, hang_up};
pub use limits::{
    ADMINISTRATION_SECONDS, ANSWER_TIMEOUTS, CALL_SECONDS, DRAIN_SECONDS, FAILURE_MILLISECONDS,
    FULL_MILLISECONDS, MAX_CONNECTIONS, MIN_BYTES_PER_MILLI, SILENT_SECONDS, TimeLimit, Waits,
    slots_of, timeouts_of,
};
pub use opening::{NothingLeft, Opens, Sides};
pub use port::{AcceptFailed, AddressFault, Port};
pub use ports::{Administrators, Clients, IntoTransport, Network, PortFor, Ports, Until};
pub use socket_poller::{PollWaker, SocketPoller};
pub use socket_transport::SocketTransport;
pub use sockets::{SocketConnection, SocketPort, SocketWaker};
pub use timed::{AnswerWritten, TimedReader, TimedWriter};
