use crate::calls::{Calls, HEAD};
use crate::maps::machine;
use blocking::{OpenGate, work};
use httpedge::{Asks, Busy};
use mapmachine::{Answer, Machine};
use std::alloc::{AllocError, Global};
use std::str;
use std::sync::{Arc, Mutex, Wait};
use std::thread::Threads;
use test_tables::{TableFault, check_rows};

// Queries in brackets, in the order in which they came.
type Queries = Arc<Mutex<String>, Global>;

// A worker: a machine that notes its queries.
#[derive(Drop)]
struct Worker<R: Wait + Drop> {
    rt: R,
    machine: Machine,
    queries: Queries,
}

// Notes a query.
fn note(queries: &mut String, query: &[u8]) -> Result<(), AllocError> {
    queries.push('[')?;
    queries.push_str(str::from_utf8(query).unwrap_or("?"))?;
    queries.push(']')?;
    Ok(())
}

impl<R: Wait + Drop> Asks for Worker<R> {
    ghost answers = { λ _ _ _ _. Unit {0} };

    fn answer(&mut self, query: &[u8]) -> Result<Answer, Busy> {
        let mut queries = self.queries.lock(&self.rt);
        if note(&mut queries, query).is_err() {
            return Err(Busy);
        }
        drop(queries);
        self.machine.answer(query)
    }
}

// Workers, and the queries of each.
#[derive(Drop)]
struct Workers<R: Wait + Drop> {
    list: Vec<Worker<R>>,
    queries: Vec<Queries>,
}

// Three workers.
fn three_workers<R: AllocGlobal + Wait + Copy + Drop>(rt: &R) -> Result<Workers<R>, AllocError> {
    let alloc = rt.alloc();
    let mut three = Workers {
        list: Vec::new(alloc),
        queries: Vec::new(alloc),
    };
    for _ in 0..3 {
        let queries = Arc::new(alloc, Mutex::new(String::new(alloc)))?;
        let theirs = Arc::try_clone(&queries)?;
        three.queries.push(queries)?;
        three.list.push(Worker {
            rt: *rt,
            machine: machine(alloc)?,
            queries: theirs,
        })?;
    }
    Ok(three)
}

// The queries of each, with spaces between them.
fn queries_text<R: AllocGlobal + Wait>(rt: &R, all: &[Queries]) -> Result<String, AllocError> {
    let mut text = String::new(rt.alloc());
    for queries in all {
        let queries = queries.lock(rt);
        text = format!(in rt.alloc(); "{text} {}", queries.as_str())?;
    }
    Ok(text)
}

// The first six connections of a round, of which the first has this head. Its bytes come so many at once.
fn add_six(calls: &mut Calls, head: &[u8], long: &[u8], at_once: usize) -> Result<(), AllocError> {
    calls.add(head, at_once, false, usize::MAX)?;
    calls.add(long, 4_096, false, usize::MAX)?;
    calls.add(
        b"GET /wms HTTP/1.1\r\nHost: x\r\n\r",
        at_once,
        false,
        usize::MAX,
    )?;
    calls.add(b"", at_once, false, usize::MAX)?;
    calls.add(b"POST /wms HTTP/1.1\r\n\r\n", at_once, false, usize::MAX)?;
    calls.add(b"GET /x HTTP/1.1\r\n\r\n", at_once, false, usize::MAX)
}

// Six connections, one whose reader fails, one whose writer does, and six again.
fn fourteen(alloc: Global, at_once: usize) -> Result<Calls, AllocError> {
    let long = "a".repeat(alloc, 16_385)?;
    let long = long.as_str().as_bytes();
    let mut calls = Calls::new(alloc);
    add_six(&mut calls, HEAD, long, at_once)?;
    calls.add(b"", at_once, true, usize::MAX)?;
    calls.add(
        b"GET /wms?8 HTTP/1.1\r\nHost: x\r\n\r\n",
        at_once,
        false,
        10,
    )?;
    let head = b"GET /wms?9 HTTP/1.1\r\nHost: x\r\n\r\n";
    add_six(&mut calls, head, long, at_once)?;
    Ok(calls)
}

// The ends of so many connections, a line each, and the queries of the workers.
fn worked<R>(rt: &R, mut calls: Calls, count: usize) -> Result<String, AllocError>
where
    R: AllocGlobal + Wait + Threads + Send + Copy + Drop + 'static,
{
    let alloc = rt.alloc();
    let Workers { list, queries } = three_workers(rt)?;
    let gate = Arc::new(alloc, OpenGate)?;
    let done = work(rt, list, &mut calls, &gate);
    let mut text = format!(in alloc; "{}:{}", done.is_ok(), queries_text(rt, &queries)?)?;
    for number in 1..=count {
        text = format!(in alloc; "{text}\n{number} {}", calls.end_of(number)?)?;
    }
    Ok(text)
}

const NONE: &str = "true:   ";

// Worker 1 answers the first connection, worker 2 the eighth, and worker 0 the ninth.
const FOURTEEN: &str = "true: [9] [] [8]
1 kept
2 HTTP/1.1 400 Bad Request^~Content-Length: 0^~Connection: close^~^~
3 HTTP/1.1 400 Bad Request^~Content-Length: 0^~Connection: close^~^~
4 \n\
5 HTTP/1.1 405 Method Not Allowed^~Allow: GET^~Content-Length: 0^~^~
6 HTTP/1.1 404 Not Found^~Content-Length: 0^~^~
7 , the reader failed after 0 bytes were written
8 HTTP/1.1 2, the writer failed after 10 bytes
9 kept
10 HTTP/1.1 400 Bad Request^~Content-Length: 0^~Connection: close^~^~
11 HTTP/1.1 400 Bad Request^~Content-Length: 0^~Connection: close^~^~
12 \n\
13 HTTP/1.1 405 Method Not Allowed^~Allow: GET^~Content-Length: 0^~^~
14 HTTP/1.1 404 Not Found^~Content-Length: 0^~^~";

// The ends of fourteen connections whose bytes come so many at once, up to a number, if they aren't the expected ones.
fn result_of_rounds<R>(rt: &R, alloc: Global, row: &str) -> Result<String, AllocError>
where
    R: AllocGlobal + Wait + Threads + Send + Copy + Drop + 'static,
{
    let last = row.parse().unwrap_or(0);
    for at_once in 1..=last {
        let found = worked(rt, fourteen(alloc, at_once)?, 14)?;
        if found.as_str() != FOURTEEN {
            return Ok(found);
        }
    }
    let found = worked(rt, Calls::new(alloc), 0)?;
    format!(in alloc; "right up to {last}, {}", found.as_str() == NONE)
}

#[test]
fn connections_go_to_their_workers(rt: HostRuntime) -> Result<(), TableFault> {
    check_rows(
        rt.alloc(),
        "right up to 30, true|30",
        '|',
        1,
        |alloc, row| { result_of_rounds(&rt, alloc, row) },
    )
}

// Whether a call without workers is refused, and how many of two connections still wait then.
fn result_without_workers<R>(rt: &R) -> Result<String, AllocError>
where
    R: AllocGlobal + Wait + Threads + Send + Copy + Drop + 'static,
{
    let alloc = rt.alloc();
    let mut calls = Calls::new(alloc);
    calls.add(HEAD, 7, false, usize::MAX)?;
    calls.add(HEAD, 7, false, usize::MAX)?;
    let none: Vec<Machine> = Vec::new(alloc);
    let gate = Arc::new(alloc, OpenGate)?;
    let done = work(rt, none, &mut calls, &gate);
    format!(in alloc; "{} {}", done.is_err(), calls.waiting())
}

#[test]
fn connections_stay_where_there_are_no_workers(rt: HostRuntime) -> Result<(), TableFault> {
    check_rows(
        rt.alloc(),
        "true 2|",
        '|',
        1,
        |_, _| result_without_workers(&rt),
    )
}
