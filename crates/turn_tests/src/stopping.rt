//! A worker that stops while an answer is sent.

use crate::clients::{Client, Echo, TIMEOUTS};
use crate::fakes::{Notes, Reporting, Watched};
use eventloop::{Capacity, Ending, Worker, WorkerThreads, start_worker};
use std::rt::Clock;
use std::sync::{Arc, Mutex, Wait};
use std::test::Fail;
use std::thread::{self, Threads};
use std::time::Duration;

const HEAD: &[u8] = b"GET /wms?q HTTP/1.1\r\n\r\n";

// A client with this pace takes seven bytes of its answer, and the others in its 51st call.
const RELUCTANT: &[usize] = &[
    7, 0, 0, 0, 0, 0, 0, 0, 0, 0, 0, 0, 0, 0, 0, 0, 0, 0, 0, 0, 0, 0, 0, 0, 0, 0, 0, 0, 0, 0, 0, 0,
    0, 0, 0, 0, 0, 0, 0, 0, 0, 0, 0, 0, 0, 0, 0, 0, 0, 0, 1_000,
];

// Waits until the client has some bytes.
fn wait_for_bytes<R: Wait>(rt: &R, system: &HostRuntime, taken: &Notes) {
    for _ in 0..10_000 {
        if !taken.lock(rt).is_empty() {
            return;
        }
        thread::sleep(system, Duration::from_millis(1));
    }
}

// The bytes that the client has once its worker has stopped. The worker gets the request to stop when the first bytes
// are there.
fn taken_of<R: AllocGlobal + Clock + Wait + Threads + Send + Copy + Drop + 'static>(
    rt: &R,
    system: &HostRuntime,
) -> Result<Vec<u8>, Fail> {
    let alloc = rt.alloc();
    let taken = Arc::new(alloc, Mutex::new(Vec::new(alloc)))?;
    let client = Watched {
        rt: *rt,
        client: Client::new(alloc, HEAD, false)?.paced(&[4_096], RELUCTANT),
        queries: Arc::new(alloc, Mutex::new(Vec::new(alloc)))?,
        after: 0,
        got: Arc::try_clone(&taken)?,
    };
    let mut workers = WorkerThreads::new(alloc, 1)?;
    let asks = Echo { alloc, dots: 3 };
    let poller = Reporting {
        rt: *system,
        slots: 1,
    };
    let worker = Worker::new(
        alloc,
        asks,
        poller,
        Capacity {
            slots: 1,
            timeouts: TIMEOUTS,
        },
    )?;
    start_worker(rt, alloc, &mut workers, worker)?;
    workers.hand_over(rt, Some(client));
    wait_for_bytes(rt, system, &taken);
    workers.end(rt, Ending::Stops);
    let bytes = taken.lock(rt);
    Ok(Vec::from_slice(alloc, &bytes)?)
}

#[test]
fn an_answer_on_its_way_goes_out_whole_where_its_worker_stops(rt: HostRuntime) -> Result<(), Fail> {
    let taken = taken_of(&rt, &rt)?;
    assert_eq!(rt;
        taken.as_slice(),
        b"HTTP/1.1 200 OK\r\nContent-Type: text/plain\r\nContent-Length: 4\r\n\r\nq...".as_slice()
    );
    Ok(())
}
