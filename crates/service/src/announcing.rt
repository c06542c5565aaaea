ghost use Rattle.std.specs.Prelude.{◌≡◌, IfErr, IfOk, IfSome, true};
ghost use Rattle.console.specs.Console.{IsWritten};
ghost use Rattle.service.specs.Announcing.{AreAddresses, addresses_line};
ghost use Rattle.service.specs.Failures.{is_resource_failure};

use console::{Failure, Writes, finish};
use mapdefs::Text;
use network::{AddressFault, Port, Ports};
use std::alloc::Global;
use streams::Sink;

// The address of a port.
fn address_of<C, P: Port<C>>(alloc: Global, port: &P) -> Result<Text, Failure>
    ensures address { IfOk result (λ text. IfSome (P.address port.now) (λ known. text ≡ known)) }
    ensures failed { IfErr result (λ failure. is_resource_failure failure ≡ true) }
{
    match port.address(alloc) {
        Ok(address) => Ok(address),
        Err(AddressFault::Unknown) => Err(Failure::SocketFailed),
        Err(AddressFault::NoMemory) => Err(Failure::NoMemory),
    }
}

/// The addresses of the two ports of a service.
#[derive(Drop)]
pub(crate) struct Addresses {
    /// That of the port of clients.
    pub clients: Text,
    /// That of the port of administrators.
    pub administration: Text,
}

impl Addresses {
    /// Those of these ports.
    pub fn of<C, P: Port<C>, W, Q, I>(
        alloc: Global,
        ports: &Ports<P, W, Q, I>,
    ) -> Result<Self, Failure>
        ensures addresses { IfOk result
            (λ addresses. AreAddresses (P.address ports.now.clients.port)
            (P.address ports.now.administration.port) addresses.clients addresses.administration) }
        ensures failed { IfErr result (λ failure. is_resource_failure failure ≡ true) }
    {
        Ok(Addresses {
            clients: address_of(alloc, &ports.clients)?,
            administration: address_of(alloc, &ports.administration)?,
        })
    }

    /// Writes them to the output, in one line, and flushes it: that of clients first.
    pub fn write<O: Sink>(&self, output: &mut O) -> Result<(), Failure>
        ensures { IsWritten result (⟦<O as Writes>⟧.state output.old) (⟦<O as Writes>⟧.state output.new)
            (addresses_line self.now.clients self.now.administration) }
    {
        let (clients, administration) = (self.clients.as_str(), self.administration.as_str());
        finish(
            output,
            &[
                b"listening ",
                clients.as_bytes(),
                b" ",
                administration.as_bytes(),
                b"\n",
            ],
        )
    }
}
