ghost use Rattle.std.specs.Prelude.{◌≡◌, ◌-◌, option_map};
ghost use Rattle.network.specs.Ports.{HasCalled, requested};

use crate::port::{AcceptFailed, Port};

// How many connections remain after one has come.
fn one_less(remaining: Option<u32>) -> Option<u32>
    ensures { result ≡ option_map (λ n. n - 1) remaining }
{
    match remaining {
        Some(remaining) => Some(remaining.saturating_sub(1)),
        None => None,
    }
}

/// The connections of a port, up to the last that is requested.
#[derive(Drop)]
pub struct Accepting<P> {
    port: P,
    // How many connections remain, where there is an end.
    remaining: Option<u32>,
}

impl<P> Accepting<P> {
    /// So many connections of a port, or all that come where that is 0.
    pub fn new(port: P, connections: u32) -> Self
        ensures port { result.port ≡ port }
        ensures remaining { result.remaining ≡ requested connections }
    {
        Accepting {
            port,
            remaining: if connections == 0 {
                None
            } else {
                Some(connections)
            },
        }
    }

    /// The next connection, by one call. After the last that is requested there is none, and no call is made.
    pub fn accept<C>(&mut self) -> Result<Option<C>, AcceptFailed>
    where
        P: Port<C>,
        ensures { HasCalled (P.log self.old.port) (P.log self.new.port) self.old.remaining self.new.remaining result }
    {
        if self.remaining == Some(0) {
            return Ok(None);
        }
        let connection = self.port.accept()?;
        self.remaining = one_less(self.remaining);
        Ok(Some(connection))
    }
}
