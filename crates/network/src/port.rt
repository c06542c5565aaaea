ghost use Rattle.std.specs.Prelude.{◌≡◌, [], ◌∷◌, IfOk, IfSome, OnErr, OnOk, true};
ghost use Rattle.network.specs.Ports.{Failed, Opened, Notes};

use mapdefs::Text;
use std::alloc::Global;
use thiserror::Error;

/// A call for a connection of a port failed.
#[derive(Clone, Copy, Debug, Error)]
#[error("no connection came")]
pub struct AcceptFailed;

/// Why the address of a port is missing.
#[derive(Clone, Copy, Debug, Error)]
pub enum AddressFault {
    /// The port doesn't know it.
    #[error("the port has no address")]
    Unknown,
    /// Memory was refused for its text.
    #[error("out of memory")]
    NoMemory,
}

/// A port that gives connections of the type C.
pub trait Port<C> {
    ghost use Rattle.std.specs.Prelude.{ℕ, List, Option, Bool};
    ghost use Rattle.network.specs.Ports.{PortEvent};

    // The events so far, where they are known.
    ghost log: { Self → Option (List PortEvent) };

    // Whether it keeps a descriptor for the connections that it opens.
    ghost keeps_reserve: { Self → Bool };

    // The text of the address, where it is known.
    ghost address: { Self → Option (List ℕ) };

    /// The address of the port.
    fn address(&self, alloc: Global) -> Result<Text, AddressFault>
        ensures { IfOk result (λ text. IfSome (address self.now) (λ known. text ≡ known)) };

    /// From now on the port keeps a descriptor for the connections that it opens, so that one is served where the system has none left.
    fn keep_reserve(&mut self)
        ensures log { log self.new ≡ log self.old }
        ensures kept { keeps_reserve self.new ≡ true };

    /// Waits for the next connection.
    fn accept(&mut self) -> Result<C, AcceptFailed>
        ensures opened { OnOk result (Notes (log self.old) (log self.new) (Opened ∷ [])) }
        ensures failed { OnErr result (Notes (log self.old) (log self.new) (Failed ∷ [])) };
}
