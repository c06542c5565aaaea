//! How a worker shares its time among its connections.

use crate::clients::Client;
use crate::fakes::{Noting, Reporting, Watched};
use eventloop::{Capacity, Ending, Worker, WorkerThreads, start_worker};
use std::rt::Clock;
use std::str;
use std::sync::{Arc, Mutex, Wait};
use std::test::Fail;
use std::thread::Threads;
use turns::Timeouts;

const TIMEOUTS: Timeouts = Timeouts {
    idle: 100_000,
    timeout: 100_000,
    grace: 100_000,
    rate: 1,
    drain: 100_000,
    ahead: 0,
};

const AHEAD: &[u8] =
    b"GET /?a HTTP/1.1\r\n\r\nGET /?a HTTP/1.1\r\n\r\nGET /?a HTTP/1.1\r\n\r\nGET /?a HTTP/1.1\r\n\r\nGET /?a HTTP/1.1\r\n\r\n";

const ONE: &[u8] = b"GET /?b HTTP/1.1\r\n\r\n";

// The queries of a worker, whose clients send these bytes after so many queries.
fn asked_of<R: AllocGlobal + Clock + Wait + Threads + Send + Copy + Drop + 'static>(
    rt: &R,
    system: &HostRuntime,
    slots: usize,
    clients: &[(&[u8], usize)],
) -> Result<String, Fail> {
    let alloc = rt.alloc();
    let queries = Arc::new(alloc, Mutex::new(Vec::new(alloc)))?;
    let asks = Noting {
        rt: *rt,
        alloc,
        queries: Arc::try_clone(&queries)?,
    };
    let mut workers = WorkerThreads::new(alloc, 1)?;
    let poller = Reporting {
        rt: *system,
        slots: 2,
    };
    let worker = Worker::new(
        alloc,
        asks,
        poller,
        Capacity {
            slots,
            timeouts: TIMEOUTS,
        },
    )?;
    start_worker(rt, alloc, &mut workers, worker)?;
    for (sends, after) in clients {
        let client = Watched {
            rt: *rt,
            client: Client::new(alloc, sends, true)?,
            queries: Arc::try_clone(&queries)?,
            after: *after,
            got: Arc::new(alloc, Mutex::new(Vec::new(alloc)))?,
        };
        workers.hand_over(rt, Some(client));
    }
    workers.end(rt, Ending::Finishes);
    let mut text = String::new(alloc);
    let asked = queries.lock(rt);
    text.push_str(str::from_utf8(&asked).unwrap_or("?"))?;
    Ok(text)
}

// The bytes of one client come while the first answer is made to another one, which has sent five requests ahead.
#[test]
fn at_most_two_answers_lie_before_another_client(rt: HostRuntime) -> Result<(), Fail> {
    let text = asked_of(&rt, &rt, 2, &[(ONE, 1), (AHEAD, 0)])?;
    assert!(rt; text.as_str() == "aabaaa" || text.as_str() == "abaaaa");
    Ok(())
}

// Forty connections for one worker of two slots: each is answered, and handing one over waits for none.
#[test]
fn many_connections_wait_for_one_worker(rt: HostRuntime) -> Result<(), Fail> {
    let text = asked_of(&rt, &rt, 2, &[(ONE, 0); 40])?;
    assert_eq!(rt; text.len(), 40);
    Ok(())
}
