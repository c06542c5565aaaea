use crate::calls::{Call, Calls, HEAD};
use crate::maps::machine;
use blocking::{Gate, Streams, work};
use mapmachine::Machine;
use std::alloc::{AllocError, Global};
use std::sync::atomic::{AtomicU64, Ordering};
use std::sync::{Arc, Wait};
use std::thread::{self, Threads};
use std::time::Duration;
use test_tables::{TableFault, check_rows};

// A gate that holds each connection until all have come, for ten seconds at most.
#[derive(Drop)]
struct Held {
    rt: HostRuntime,
    asked: AtomicU64,
    over: AtomicU64,
}

// Waits until a number is at least this one, for ten seconds at most.
fn wait_for(rt: &HostRuntime, number: &AtomicU64, least: u64) {
    for _ in 0..10_000 {
        if number.load(Ordering::SeqCst) >= least {
            return;
        }
        thread::sleep(rt, Duration::from_millis(1));
    }
}

impl Gate for Held {
    fn asked(&self, _number: u64) {
        self.asked.fetch_add(1, Ordering::SeqCst);
        wait_for(&self.rt, &self.over, 1);
    }

    fn answered(&self, _number: u64) {}
}

// Connections of which the first four come at once, and the others once all of these are held.
#[derive(Drop)]
struct Crowd {
    rt: HostRuntime,
    calls: Calls,
    left: usize,
    gate: Arc<Held, Global>,
}

impl Streams<Call> for Crowd {
    ghost use Rattle.std.specs.Prelude.{◌≡◌, []};

    ghost ended = { λ c. c.calls.waiting.items ≡ [] };

    fn next(&mut self) -> Option<Call> {
        if self.calls.waiting() == self.left {
            wait_for(&self.rt, &self.gate.asked, 4);
        }
        let call = self.calls.next();
        if call.is_none() {
            self.gate.over.store(1, Ordering::SeqCst);
        }
        call
    }
}

// So many connections of a head.
fn calls_of(alloc: Global, count: usize) -> Result<Calls, AllocError> {
    let mut calls = Calls::new(alloc);
    for _ in 0..count {
        calls.add(HEAD, 1_000, false, usize::MAX)?;
    }
    Ok(calls)
}

// Four machines.
fn machines(alloc: Global) -> Result<Vec<Machine>, AllocError> {
    let mut machines = Vec::new(alloc);
    for _ in 0..4 {
        machines.push(machine(alloc)?)?;
    }
    Ok(machines)
}

const BUSY: &str = "HTTP/1.1 503 Service Unavailable^~Content-Length: 0^~Connection: close^~^~";

// How many of so many connections were answered, and the numbers of those whose answer is that the server is busy.
fn ends_of(alloc: Global, calls: &Calls, count: usize) -> Result<String, AllocError> {
    let mut kept = 0_usize;
    let mut busy = String::new(alloc);
    for number in 1..=count {
        let end = calls.end_of(number)?;
        if end.as_str() == "kept" {
            kept = kept.saturating_add(1);
        } else if end.as_str() == BUSY {
            busy = format!(in alloc; "{busy} {number}")?;
        }
    }
    format!(in alloc; "{kept} kept, busy:{busy}")
}

// The ends of so many connections, of which the first four are held by four workers until all have come.
fn outcome_of_crowd<R>(rt: &R, system: &HostRuntime, row: &str) -> Result<String, AllocError>
where
    R: AllocGlobal + Wait + Threads + Send + Copy + Drop + 'static,
{
    let alloc = rt.alloc();
    let count = row.parse().unwrap_or(0).clamp(4, 1_000);
    let held = Held {
        rt: *system,
        asked: AtomicU64::new(0),
        over: AtomicU64::new(0),
    };
    let gate = Arc::new(alloc, held)?;
    let mut crowd = Crowd {
        rt: *system,
        calls: calls_of(alloc, count)?,
        left: count - 4,
        gate: Arc::try_clone(&gate)?,
    };
    let done = work(rt, machines(alloc)?, &mut crowd, &gate);
    let ends = ends_of(alloc, &crowd.calls, count)?;
    format!(in alloc; "{} {ends}", done.is_ok())
}

// Waiting connections are answered, however many there are.
const CROWDS: &str = "\
true 4 kept, busy:|4
true 9 kept, busy:|9
true 700 kept, busy:|700";

#[test]
fn each_connection_waits_until_its_worker_answers_it(rt: HostRuntime) -> Result<(), TableFault> {
    check_rows(rt.alloc(), CROWDS, '|', 3, |_, row| {
        outcome_of_crowd(&rt, &rt, row)
    })
}
