//! What the accepting thread and a worker share, as one thread sees it.

ghost use Rattle.std.specs.Prelude.{◌≡◌, ◌==◌, ◌||◌, ◌∷◌, ◌++◌, [], length, false, not, true, IfErr, IfOk, IfSome, OnErr, OnOk};
ghost use Rattle.std.specs.Option.{IfNone};
ghost use Rattle.eventloop.specs.HandingOver.{after_ending};

use crate::orders::Orders;
use std::alloc::{AllocError, Global};
use std::collections::VecDeque;

// For how many connections there is memory from the start.
const FIRST_CAPACITY: usize = 16;

/// Whether a worker ends, and how.
#[derive(Clone, Copy, Debug, PartialEq, Eq)]
pub enum Ending {
    /// It goes on.
    GoesOn,
    /// It ends with the last of its connections.
    Finishes,
    /// It ends once those that are being answered have their answers.
    Stops,
}

/// The connections on their way to a worker, in order, and what the worker is to do.
#[derive(Drop)]
pub(crate) struct HandedOver<T> {
    transports: VecDeque<T>,
    ending: Ending,
    // A further connection needs a descriptor.
    is_pressed: bool,
    // The worker has connections.
    is_serving: bool,
}

impl<T> HandedOver<T> {
    /// No connection, and no orders. Its error is that memory was refused.
    pub fn new(alloc: Global) -> Result<Self, AllocError>
        ensures empty { IfOk result (λ handed. handed.transports.items ≡ []) }
        ensures goes_on { IfOk result
            (λ handed. (handed.ending ≡ Ending.GoesOn) × (handed.is_pressed ≡ false) × (handed.is_serving ≡ false)) }
    {
        Ok(HandedOver {
            transports: VecDeque::with_capacity(alloc, FIRST_CAPACITY)?,
            ending: Ending::GoesOn,
            is_pressed: false,
            is_serving: false,
        })
    }

    /// A connection comes behind those that wait. It is returned where memory is refused.
    pub fn put(&mut self, transport: T) -> Result<(), T>
        ensures last { OnOk result (self.new.transports.items ≡ self.old.transports.items ++ transport ∷ []) }
        ensures back { IfErr result (λ back. (back ≡ transport) × (self.new.transports.items ≡ self.old.transports.items)) }
        ensures serving { OnOk result (self.new.is_serving ≡ true) }
        ensures stays { OnErr result (self.new.is_serving ≡ self.old.is_serving) }
        ensures orders { (self.new.ending ≡ self.old.ending) × (self.new.is_pressed ≡ self.old.is_pressed) }
    {
        match self.transports.push_back(transport) {
            Ok(()) => {
                self.is_serving = true;
                Ok(())
            }
            Err(failed) => Err(failed.value),
        }
    }

    /// The connection that has waited longest, if one waits.
    pub fn take(&mut self) -> Option<T>
        ensures first { IfSome result (λ transport. self.old.transports.items ≡ transport ∷ self.new.transports.items) }
        ensures none { IfNone result ((self.old.transports.items ≡ []) × (self.new.transports.items ≡ [])) }
        ensures orders { (self.new.ending ≡ self.old.ending)
            × (self.new.is_pressed ≡ self.old.is_pressed)
            × (self.new.is_serving ≡ self.old.is_serving) }
    {
        self.transports.pop_front()
    }

    /// How many connections wait.
    pub fn waiting(&self) -> usize
        ensures { result ≡ length self.now.transports.items }
    {
        self.transports.len()
    }

    /// The worker ends, in one way or the other. A worker that stops never goes back to finishing.
    pub fn end(&mut self, ending: Ending)
        ensures ending { self.new.ending ≡ after_ending self.old.ending ending }
        ensures others { (self.new.transports ≡ self.old.transports) × (self.new.is_pressed ≡ self.old.is_pressed)
            × (self.new.is_serving ≡ self.old.is_serving) }
    {
        if self.ending != Ending::Stops {
            self.ending = ending;
        }
    }

    /// A further connection needs a descriptor.
    pub fn press(&mut self)
        ensures { self.new ≡ record self.old { is_pressed = true } }
    {
        self.is_pressed = true;
    }

    /// What the worker is to do now. The call resets the need for a descriptor.
    pub fn orders(&mut self) -> Orders
        ensures orders { (result.ending ≡ self.old.ending) × (result.is_pressed ≡ self.old.is_pressed) }
        ensures resets { self.new ≡ record self.old { is_pressed = false } }
    {
        let is_pressed = self.is_pressed;
        self.is_pressed = false;
        Orders::new(self.ending, is_pressed)
    }

    /// Whether the worker has connections, or some wait for it.
    pub fn is_serving(&self) -> bool
        ensures { result ≡ self.now.is_serving }
    {
        self.is_serving
    }

    /// Notes that the worker has connections, or none.
    pub fn note_serving(&mut self, has_connections: bool)
        ensures { self.new ≡ record self.old { is_serving = has_connections || not (length self.old.transports.items == 0) } }
    {
        self.is_serving = has_connections || !self.transports.is_empty();
    }
}
