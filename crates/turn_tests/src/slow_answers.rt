//! A worker whose answers take longer than its connections may.

use crate::clients::Client;
use crate::fakes::{Noting, Reporting, Slow};
use eventloop::{Capacity, Ending, Worker, WorkerThreads, start_worker};
use std::rt::Clock;
use std::str;
use std::sync::{Arc, Mutex, Wait};
use std::test::Fail;
use std::thread::Threads;
use turns::Timeouts;

const TIMEOUTS: Timeouts = Timeouts {
    idle: 100_000,
    timeout: 100_001,
    grace: 100_002,
    rate: 1,
    drain: 100_003,
    ahead: 0,
};

const ONE: &[u8] = b"GET /?b HTTP/1.1\r\n\r\n";

// All bytes come at once, or behind a call that would wait.
const AT_ONCE: &[usize] = &[4_096];

const LATER: &[usize] = &[0, 4_096];

// The queries of one worker whose answers take 120 milliseconds each, and whose clients send these bytes at this pace.
fn asked_of<R: AllocGlobal + Clock + Wait + Threads + Send + Copy + Drop + 'static>(
    rt: &R,
    system: &HostRuntime,
    capacity: Capacity,
    clients: &[(&[u8], &'static [usize])],
) -> Result<String, Fail> {
    let alloc = rt.alloc();
    let queries = Arc::new(alloc, Mutex::new(Vec::new(alloc)))?;
    let asks = Slow {
        system: *system,
        noting: Noting {
            rt: *rt,
            alloc,
            queries: Arc::try_clone(&queries)?,
        },
    };
    let mut workers = WorkerThreads::new(alloc, 1)?;
    let poller = Reporting {
        rt: *system,
        slots: capacity.slots,
    };
    let worker = Worker::new(alloc, asks, poller, capacity)?;
    start_worker(rt, alloc, &mut workers, worker)?;
    for (sends, pace) in clients {
        let client = Client::new(alloc, sends, true)?.paced(pace, &[10_000]);
        workers.hand_over(rt, Some(client));
    }
    workers.end(rt, Ending::Finishes);
    let mut text = String::new(alloc);
    let asked = queries.lock(rt);
    text.push_str(str::from_utf8(&asked).unwrap_or("?"))?;
    Ok(text)
}

// Their requests are there from the start, and the answers before the last one take 840 milliseconds.
#[test]
fn each_of_eight_clients_is_answered_though_answers_take_long(rt: HostRuntime) -> Result<(), Fail> {
    let capacity = Capacity {
        slots: 8,
        timeouts: Timeouts {
            timeout: 50,
            ..TIMEOUTS
        },
    };
    let text = asked_of(&rt, &rt, capacity, &[(ONE, AT_ONCE); 8])?;
    assert_eq!(rt; text.as_str(), "bbbbbbbb");
    Ok(())
}

// Its own answer takes longer than it may be idle. Its second request comes behind that answer, and a call before it would wait.
#[test]
fn a_client_may_ask_again_after_an_answer_that_took_long(rt: HostRuntime) -> Result<(), Fail> {
    let capacity = Capacity {
        slots: 1,
        timeouts: Timeouts {
            idle: 100,
            ..TIMEOUTS
        },
    };
    let twice = b"GET /?b HTTP/1.1\r\n\r\nGET /?c HTTP/1.1\r\n\r\n";
    let text = asked_of(&rt, &rt, capacity, &[(twice, &[20, 0, 20])])?;
    assert_eq!(rt; text.as_str(), "bc");
    Ok(())
}

// Twelve connections for two slots: no young one gives way, and each waits until a slot is free.
#[test]
fn a_connection_waits_until_a_slot_is_free(rt: HostRuntime) -> Result<(), Fail> {
    let capacity = Capacity {
        slots: 2,
        timeouts: TIMEOUTS,
    };
    let text = asked_of(&rt, &rt, capacity, &[(ONE, LATER); 12])?;
    assert_eq!(rt; text.as_str(), "bbbbbbbbbbbb");
    Ok(())
}
