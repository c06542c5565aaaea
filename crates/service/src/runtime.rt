use std::io::Eprint;
use std::rt::Clock;
use std::sync::Wait;
use std::thread::Threads;

/// The runtime of a service: it takes memory, has a clock, writes a log, waits, and starts threads.
pub trait Runtime: AllocGlobal + Clock + Eprint + Wait + Threads + Send + Copy + Drop + 'static {}

impl<R: AllocGlobal + Clock + Eprint + Wait + Threads + Send + Copy + Drop + 'static> Runtime
    for R {}
