//! Flags between the threads of a service, a type for each.

use std::marker::PhantomData;
use std::sync::atomic::{AtomicBool, Ordering};

/// The purpose of a flag: the service ends.
pub(crate) struct Over;

/// The purpose of a flag: the port of clients isn't served any more.
pub(crate) struct Left;

/// The purpose of a flag: the thread of clients has to stop.
pub(crate) struct Stopped;

/// The purpose of a flag: the input with whose end the service ends could not be read.
pub(crate) struct Unread;

/// That the flag of the purpose K was set. Nothing but `Flag::set` gives one.
#[derive(Drop)]
pub(crate) struct IsSet<K> {
    purpose: PhantomData<K>,
}

/// A flag for the purpose K alone, so that no thread takes one for another.
#[derive(Drop)]
pub(crate) struct Flag<K> {
    is_set: AtomicBool,
    purpose: PhantomData<K>,
}

impl<K> Flag<K> {
    // One that isn't set.
    pub(crate) fn new() -> Self {
        Flag {
            is_set: AtomicBool::new(false),
            purpose: PhantomData,
        }
    }

    /// Sets it.
    pub fn set(&self) -> IsSet<K> {
        self.is_set.store(true, Ordering::SeqCst);
        IsSet {
            purpose: PhantomData,
        }
    }

    /// Whether it is set.
    pub fn is_set(&self) -> bool {
        self.is_set.load(Ordering::SeqCst)
    }
}
