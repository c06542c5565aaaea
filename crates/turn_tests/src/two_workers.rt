//! Two workers: what is counted over both of them, and what comes to each in turn.

use crate::clients::{NoWaker, TIMEOUTS};
use crate::fakes::{Notes, Noting, Reporting};
use accesslog::{Cause, EndsEarly};
use eventloop::{Capacity, Ending, Worker, WorkerThreads, start_worker};
use std::rt::Clock;
use std::sync::{Arc, Mutex, Wait};
use std::test::Fail;
use std::thread::{self, Threads};
use std::time::Duration;
use turns::{ReadOutcome, Timeouts, Transport, WriteOutcome};

// A client that sends nothing, and notes a byte where it gives way.
#[derive(Drop)]
struct Silent<R: Wait + Drop> {
    rt: R,
    gave_way: Notes,
}

impl<R: Wait + Drop> Transport for Silent<R> {
    ghost use Rattle.std.specs.Prelude.{None};

    ghost delivered = { λ _. None };

    ghost accepted = { λ _. None };

    ghost reads = { λ _ _ _. Unit {0} };

    ghost writes = { λ _ _ _. Unit {0} };

    ghost shuts = { λ _ _. Unit {0} };

    fn read(&mut self, _room: &mut [u8]) -> ReadOutcome {
        ReadOutcome::WouldBlock
    }

    fn write(&mut self, _first: &[u8], _second: &[u8]) -> WriteOutcome {
        WriteOutcome::WouldBlock
    }

    fn shut_down(&mut self) {}
}

impl<R: Wait + Drop> EndsEarly for Silent<R> {
    fn note_end(&mut self, cause: Cause) {
        if matches!(cause, Cause::GaveWay) {
            let _ = self.gave_way.lock(&self.rt).push(b'g');
        }
    }
}

type TwoWorkers<R> = WorkerThreads<Noting<R>, Silent<R>, Reporting, NoWaker>;

// Two workers with so many slots each. A silent client isn't dropped within a minute.
fn two_workers<R: AllocGlobal + Clock + Wait + Threads + Send + Copy + Drop + 'static>(
    rt: &R,
    system: &HostRuntime,
    slots: usize,
) -> Result<TwoWorkers<R>, Fail> {
    let alloc = rt.alloc();
    let mut workers = WorkerThreads::new(alloc, 2)?;
    for _ in 0..2 {
        let noting = Noting {
            rt: *rt,
            alloc,
            queries: Arc::new(alloc, Mutex::new(Vec::new(alloc)))?,
        };
        let poller = Reporting {
            rt: *system,
            slots: 0,
        };
        let capacity = Capacity {
            slots,
            timeouts: Timeouts {
                timeout: 60_000,
                ..TIMEOUTS
            },
        };
        let worker = Worker::new(alloc, noting, poller, capacity)?;
        start_worker(rt, alloc, &mut workers, worker)?;
    }
    Ok(workers)
}

// How many silent clients are handed over until there is no place for a further one.
fn clients_with_a_place<R: AllocGlobal + Clock + Wait + Threads + Send + Copy + Drop + 'static>(
    rt: &R,
    system: &HostRuntime,
) -> Result<usize, Fail> {
    let gave_way = Arc::new(rt.alloc(), Mutex::new(Vec::new(rt.alloc())))?;
    let mut workers = two_workers(rt, system, 64)?;
    let mut count = 0_usize;
    for _ in 0..4_000 {
        if !workers.has_place(rt) {
            break;
        }
        let gave_way = Arc::try_clone(&gave_way)?;
        workers.hand_over(rt, Some(Silent { rt: *rt, gave_way }));
        count = count.saturating_add(1);
    }
    workers.end(rt, Ending::Stops);
    Ok(count)
}

// 1,024 wait, up to 128 have slots, and some more where these give way after a second. With 1,024 for each worker it would be 2,047 at least.
#[test]
fn those_that_wait_for_both_workers_are_counted(rt: HostRuntime) -> Result<(), Fail> {
    let count = clients_with_a_place(&rt, &rt)?;
    assert!(rt; count >= 1_024);
    assert!(rt; count < 2_000);
    Ok(())
}

// Whether two bytes are noted within ten seconds.
fn are_two_noted<R: Wait>(rt: &R, system: &HostRuntime, notes: &Notes) -> bool {
    for _ in 0..1_000 {
        if notes.lock(rt).len() == 2 {
            return true;
        }
        thread::sleep(system, Duration::from_millis(10));
    }
    false
}

// Whether two workers have no connection within ten seconds.
fn are_soon_idle<R: Wait + Drop>(rt: &R, system: &HostRuntime, workers: &TwoWorkers<R>) -> bool {
    for _ in 0..1_000 {
        if !workers.is_serving(rt) {
            return true;
        }
        thread::sleep(system, Duration::from_millis(10));
    }
    false
}

// Two clients of two workers: whether they are noted as served; whether both gave way where two connections needed a descriptor; and
// whether they are noted as gone.
fn pressed_in_turn<R: AllocGlobal + Clock + Wait + Threads + Send + Copy + Drop + 'static>(
    rt: &R,
    system: &HostRuntime,
) -> Result<(bool, bool, bool), Fail> {
    let alloc = rt.alloc();
    let gave_way = Arc::new(alloc, Mutex::new(Vec::new(alloc)))?;
    let mut workers = two_workers(rt, system, 4)?;
    for _ in 0..2 {
        let gave_way = Arc::try_clone(&gave_way)?;
        workers.hand_over(rt, Some(Silent { rt: *rt, gave_way }));
    }
    // nobody gives way within a second, and after a tenth of it a worker notes whether it serves
    thread::sleep(system, Duration::from_millis(1_300));
    let are_served = workers.is_serving(rt);
    workers.press(rt);
    workers.press(rt);
    let both_gave_way = are_two_noted(rt, system, &gave_way);
    let are_gone = are_soon_idle(rt, system, &workers);
    workers.end(rt, Ending::Stops);
    Ok((are_served, both_gave_way, are_gone))
}

#[test]
fn each_worker_is_pressed_in_turn_and_notes_whether_it_serves(rt: HostRuntime) -> Result<(), Fail> {
    let (are_served, both_gave_way, are_gone) = pressed_in_turn(&rt, &rt)?;
    assert!(rt; are_served);
    assert!(rt; both_gave_way);
    assert!(rt; are_gone);
    Ok(())
}
