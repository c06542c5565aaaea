//! A published replica: a map machine, and the prefix of the history that led to it. There are two copies of it.

ghost use Rattle.mapshare.specs.Replica.{applied, shape_of};

use history::{Naming, Prefix};
use left_right::Absorb;
use mapmachine::Machine;
use std::alloc::AllocError;

/// What clauses see of a replica. No value of it is made.
pub struct ReplicaValue {
    /// The machine.
    pub machine: Machine,
    /// The batches that led to it.
    pub batches: [[u8; 0]; 0],
}

/// A replica, which is published or waits for that: the machine, and the batches that led to it.
#[derive(Drop)]
pub struct Replica<J: Naming> {
    /// The machine.
    pub machine: Machine,
    /// The prefix of the history.
    pub prefix: Prefix<J>,
}

/// A replica takes in a later one by becoming equal to it. The batch was applied once, when it was accepted. The first of the two replicas that readers
/// may have takes a copy of the later one, since the second gets that one itself.
impl<J: Naming> Absorb<Replica<J>> for Replica<J> {
    type State = ReplicaValue;

    ghost state = { shape_of };

    ghost applied = { applied };

    fn absorb_first(&mut self, later: &Replica<J>, _other: &Replica<J>) -> Result<(), AllocError> {
        self.machine = later.machine.copy()?;
        self.prefix = later.prefix.copy();
        Ok(())
    }

    fn absorb_second(&mut self, later: Replica<J>, _other: &Replica<J>) -> Result<(), Replica<J>> {
        *self = later;
        Ok(())
    }
}
