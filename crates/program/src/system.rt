ghost use Rattle.std.specs.Prelude.{None};

use crate::arguments::ArgumentsUnread;
use crate::host::{Files, Host, ListenFailed, OpenFault};
use crate::journal_file::JournalFile;
use console::ListenCause;
use network::{Network, SocketConnection, SocketPoller, SocketPort, SocketTransport, SocketWaker};
use std::fs::{self, File};
use std::io::Read;
use std::net::{Ipv4Addr, SocketAddr, TcpListener};
use std::os::fd::OwnedFd;
use std::{env, io};

/// The machine that the program runs on: its files, and the ports of 127.0.0.1.
#[derive(Drop)]
pub struct SystemHost {
    rt: HostRuntime,
}

impl SystemHost {
    /// The machine of a runtime.
    pub fn new(rt: &HostRuntime) -> Self {
        SystemHost { rt: *rt }
    }
}

impl Network for SystemHost {
    type Transport = SocketTransport;

    type Poller = SocketPoller;

    type Connection = SocketConnection;

    type Port = SocketPort;

    type Waker = SocketWaker;

    type Input = File;
}

impl Files for SystemHost {
    type File = File;

    ghost file = { λ _ _. None };

    ghost withholds = { λ _ _ _. Unit {0} };

    fn open(&self, path: &str) -> io::Result<File> {
        fs::open(&self.rt, path)
    }

    fn read_on(&self, _path: &str, opened: &mut File, room: &mut [u8]) -> io::Result<usize> {
        opened.read(room)
    }
}

impl Host for SystemHost {
    type Log = JournalFile;

    ghost journal = { λ _ _ _. Unit {0} };

    ghost unopened = { λ _ _ _. Unit {0} };

    ghost listens = { λ _ _ _. Unit {0} };

    ghost refuses = { λ _ _ _. Unit {0} };

    fn listen(&self, number: u16) -> Result<SocketPort, ListenFailed> {
        match listener_on(&self.rt, number) {
            Ok(listener) => match SocketPort::new(&self.rt, listener) {
                Ok(port) => Ok(port),
                Err(_) => Err(ListenFailed {
                    cause: ListenCause::Other,
                }),
            },
            Err(error) => Err(ListenFailed {
                cause: cause_of(error.kind()),
            }),
        }
    }

    fn open_log(&self, path: &str, bytes: &[u8]) -> Result<JournalFile, OpenFault> {
        JournalFile::open(&self.rt, path, bytes)
    }

    fn waker(&self, port: &SocketPort) -> Option<SocketWaker> {
        port.waker()
    }

    fn poller(&self) -> Option<SocketPoller> {
        SocketPoller::new(&self.rt).ok()
    }

    // Standard input, by its name, so that a thread of its own can read it.
    fn input(&self) -> io::Result<File> {
        fs::open(&self.rt, "/dev/stdin")
    }
}

// Listens on a port of 127.0.0.1, with the longest queue of connections that the system allows.
fn listener_on(rt: &HostRuntime, number: u16) -> io::Result<TcpListener> {
    let address = SocketAddr::from((Ipv4Addr::LOCALHOST, number));
    let listener = TcpListener::from(OwnedFd::from(mio::net::TcpListener::bind(rt, address)?));
    // its calls wait
    listener.set_nonblocking(false)?;
    Ok(listener)
}

// Why a port can't be listened on, by the error of the system.
fn cause_of(kind: io::ErrorKind) -> ListenCause {
    match kind {
        io::ErrorKind::AddrInUse => ListenCause::Taken,
        io::ErrorKind::PermissionDenied => ListenCause::NotAllowed,
        _ => ListenCause::Other,
    }
}

/// The arguments after the program's name.
pub fn read_arguments(rt: &HostRuntime) -> Result<Vec<String>, ArgumentsUnread> {
    match env::args(rt) {
        Ok(arguments) => match arguments.skip(1).collect(rt.alloc()) {
            Ok(arguments) => Ok(arguments),
            Err(_) => Err(ArgumentsUnread::NoMemory),
        },
        Err(error) if error.kind() == io::ErrorKind::InvalidData => Err(ArgumentsUnread::NoText),
        Err(_) => Err(ArgumentsUnread::NoMemory),
    }
}
