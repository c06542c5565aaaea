//! Workers that serve connections in memory.

use crate::clients::{Client, NoWaker, TIMEOUTS};
use crate::fakes::{Notes, Noting, Reporting};
use accesslog::{Cause, EndsEarly};
use eventloop::{
    Capacity, Ending, MAX_EVENTS, MAX_OWED_BYTES, MAX_WAITING, Worker, WorkerThreads, start_worker,
    turn_away,
};
use std::alloc::{AllocError, Global};
use std::rt::Clock;
use std::str;
use std::sync::{Arc, Mutex, Wait};
use std::test::Fail;
use std::thread::Threads;
use turns::{ReadOutcome, Transport, WriteOutcome};

// Clients in memory never have to wait: there is nothing to report.
fn unreported(system: &HostRuntime) -> Reporting {
    Reporting {
        rt: *system,
        slots: 0,
    }
}

// So many workers with so many slots each, and the queries of each.
fn workers_of<R: AllocGlobal + Clock + Wait + Threads + Send + Copy + Drop + 'static>(
    rt: &R,
    system: &HostRuntime,
    count: usize,
    slots: usize,
) -> Result<
    (
        WorkerThreads<Noting<R>, Client, Reporting, NoWaker>,
        Vec<Notes>,
    ),
    Fail,
> {
    let alloc = rt.alloc();
    let mut workers = WorkerThreads::new(alloc, count)?;
    let mut all = Vec::new(alloc);
    for _ in 0..count {
        let queries = Arc::new(alloc, Mutex::new(Vec::new(alloc)))?;
        let noting = Noting {
            rt: *rt,
            alloc,
            queries: Arc::try_clone(&queries)?,
        };
        let worker = Worker::new(
            alloc,
            noting,
            unreported(system),
            Capacity {
                slots,
                timeouts: TIMEOUTS,
            },
        )?;
        start_worker(rt, alloc, &mut workers, worker)?;
        all.push(queries)?;
    }
    Ok((workers, all))
}

// A client that sends a query with this number, and no more.
fn asking(alloc: Global, number: u64) -> Result<Client, AllocError> {
    let head = format!(in alloc; "GET /?{number} HTTP/1.1\r\n\r\n")?;
    Client::new(alloc, head.as_str().as_bytes(), true)
}

// The queries of each, with bars after them.
fn queries_text<R: AllocGlobal + Wait>(rt: &R, all: &[Notes]) -> Result<String, AllocError> {
    let mut text = String::new(rt.alloc());
    for queries in all {
        let queries = queries.lock(rt);
        text = format!(in rt.alloc(); "{text}{}|", str::from_utf8(&queries).unwrap_or("?"))?;
    }
    Ok(text)
}

// The queries that seven connections have for so many workers with so many slots, which finish behind the last.
fn queries_of<R: AllocGlobal + Clock + Wait + Threads + Send + Copy + Drop + 'static>(
    rt: &R,
    system: &HostRuntime,
    count: usize,
    slots: usize,
) -> Result<String, Fail> {
    let (mut workers, all) = workers_of(rt, system, count, slots)?;
    for number in 1..8 {
        let client = asking(rt.alloc(), number)?;
        workers.hand_over(rt, Some(client));
    }
    workers.end(rt, Ending::Finishes);
    Ok(queries_text(rt, &all)?)
}

#[test]
fn connections_go_to_their_workers(rt: HostRuntime) -> Result<(), Fail> {
    let text = queries_of(&rt, &rt, 3, 4)?;
    assert_eq!(rt; text.as_str(), "36|147|25|");
    Ok(())
}

#[test]
fn connections_that_wait_are_served_before_a_worker_finishes(rt: HostRuntime) -> Result<(), Fail> {
    let text = queries_of(&rt, &rt, 1, 2)?;
    assert_eq!(rt; text.as_str(), "1234567|");
    Ok(())
}

const BUSY: &[u8] =
    b"HTTP/1.1 503 Service Unavailable\r\nContent-Length: 0\r\nConnection: close\r\n\r\n";

#[test]
fn a_client_is_turned_away_as_far_as_it_takes_that_at_once(rt: HostRuntime) -> Result<(), Fail> {
    let alloc = rt.alloc();
    let mut client = Client::new(alloc, b"", false)?.paced(&[0], &[7, 70]);
    turn_away(&mut client);
    assert_eq!(rt; client.out.as_slice(), BUSY);
    let mut slow = Client::new(alloc, b"", false)?.paced(&[0], &[7, 5, 0]);
    turn_away(&mut slow);
    assert_eq!(rt; slow.out.as_slice(), b"HTTP/1.1 503".as_slice());
    Ok(())
}

// A client that notes the kinds of calls on it, each as it follows on another kind.
#[derive(Drop)]
struct Calls {
    kinds: String,
}

impl Calls {
    fn note(&mut self, kind: char) {
        if !self.kinds.as_str().ends_with(kind) {
            let _ = self.kinds.push(kind);
        }
    }
}

impl Transport for Calls {
    ghost use Rattle.std.specs.Prelude.{None};

    ghost delivered = { λ _. None };

    ghost accepted = { λ _. None };

    ghost reads = { λ _ _ _. Unit {0} };

    ghost writes = { λ _ _ _. Unit {0} };

    ghost shuts = { λ _ _. Unit {0} };

    fn read(&mut self, _room: &mut [u8]) -> ReadOutcome {
        self.note('r');
        ReadOutcome::WouldBlock
    }

    fn write(&mut self, first: &[u8], second: &[u8]) -> WriteOutcome {
        self.note('w');
        let part = if first.is_empty() { second } else { first };
        match part.len() {
            0 => WriteOutcome::WouldBlock,
            count => WriteOutcome::Bytes(count),
        }
    }

    fn shut_down(&mut self) {
        self.note('s');
    }
}

impl EndsEarly for Calls {
    fn note_end(&mut self, _cause: Cause) {
        self.note('e');
    }
}

// A client whose bytes are dropped first would wait for the end of what it is sent.
#[test]
fn a_client_is_told_the_end_before_its_bytes_are_dropped(rt: HostRuntime) -> Result<(), Fail> {
    let mut client = Calls {
        kinds: String::new(rt.alloc()),
    };
    turn_away(&mut client);
    assert_eq!(rt; client.kinds.as_str(), "wsre");
    Ok(())
}

#[test]
fn limits_are_these(rt: HostRuntime) -> Result<(), Fail> {
    assert!(rt; MAX_OWED_BYTES == 67_108_864);
    // one for each of 1,024 slots, and the waker
    assert!(rt; MAX_EVENTS == 1_025);
    assert!(rt; MAX_WAITING == 1_024);
    Ok(())
}
