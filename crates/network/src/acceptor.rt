//! What follows on a call for a connection.

ghost use Rattle.std.specs.Prelude.{◌≡◌};

use crate::port::AcceptFailed;

// How many calls for a connection fail one after the other, until the port may be given up.
const MAX_FAILURES: u32 = 100;

/// That a connection is to be evicted, if one may be, as a further one lacks a descriptor. It can't be let go.
pub struct Eviction {
    // So many calls have failed one after the other that the port is given up, unless a client is served.
    is_last: bool,
}

impl Eviction {
    /// After a connection was evicted, if one might be: whether the port is given up, unless a client is served.
    pub fn after_eviction(self) -> bool
        ensures { result ≡ self.is_last }
    {
        let Eviction { is_last } = self;
        is_last
    }

    /// Where no connection is evicted, as at the port of administrators: whether the port is given up, unless a client is served.
    pub fn without_eviction(self) -> bool
        ensures { result ≡ self.is_last }
    {
        let Eviction { is_last } = self;
        is_last
    }
}

/// What the thread that accepts connections does next.
pub enum Plan<C> {
    /// It makes the next call.
    Wait,
    /// No further connection is requested.
    End,
    /// It hands over a connection, the one of this number.
    HandOver {
        /// The connection.
        connection: C,
        /// Its number, counted from 1.
        number: u64,
    },
    /// A connection is to be evicted.
    Evict(Eviction),
}

/// How many connections came, and how many calls for one have failed since.
#[derive(Drop)]
pub struct Acceptor {
    count: u64,
    failures: u32,
}

impl Acceptor {
    ghost use Rattle.network.specs.Accepting.{Follows};

    /// None came, and no call failed.
    pub fn new() -> Self
        ensures { (result.count ≡ 0) × (result.failures ≡ 0) }
    {
        Acceptor {
            count: 0,
            failures: 0,
        }
    }

    /// What follows on a call for a connection, if one was made.
    pub fn follow<C>(&mut self, accepted: Option<Result<Option<C>, AcceptFailed>>) -> Plan<C>
        ensures { Follows self.old accepted result self.new }
    {
        match accepted {
            None => Plan::Wait,
            Some(Ok(None)) => Plan::End,
            Some(Ok(Some(connection))) => {
                self.count = self.count.saturating_add(1);
                self.failures = 0;
                Plan::HandOver {
                    connection,
                    number: self.count,
                }
            }
            Some(Err(_)) => {
                self.failures = self.failures.saturating_add(1);
                Plan::Evict(Eviction {
                    is_last: self.failures >= MAX_FAILURES,
                })
            }
        }
    }
}
