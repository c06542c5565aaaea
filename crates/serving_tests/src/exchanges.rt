use crate::narrow::{Cut, holding_nothing};
use httpedge::{Asks, Conn, EdgeFault, Outcome, exchange, respond};
use mapdefs::{Items, Map};
use mapmachine::{Answer, Machine, Mime};
use std::alloc::{AllocError, Global};
use streams::Flagged;
use test_maps::map_fields;
use test_tables::{TableFault, check_rows};

// The machine of a map without layers.
fn machine(alloc: Global) -> Result<Machine, AllocError> {
    Machine::open(alloc, Map::new(map_fields(alloc, Items::new(alloc))))
}

/// How a stream is read and its response written.
#[derive(Clone, Copy)]
pub struct Way {
    reads: usize,
    failing_read: usize,
    writes: usize,
    written: usize,
}

/// Nothing fails.
pub const WHOLE: Way = Way {
    reads: 7,
    failing_read: 0,
    writes: 11,
    written: 1_000_000,
};

/// The result of an exchange: the bytes that were sent, in how many calls, and whether reading and writing failed.
#[derive(Drop)]
pub struct Done {
    pub result: Result<(), EdgeFault>,
    pub held: Vec<u8>,
    calls: usize,
    pub take_failed: bool,
    pub put_failed: bool,
}

/// Exchanges a stream in a way.
pub fn exchanged<A: Asks>(
    alloc: Global,
    stream: &[u8],
    way: Way,
    asks: &mut A,
) -> Result<Done, AllocError> {
    let mut conn = Conn::new(alloc)?;
    // no call has the number 0, so that none fails then
    let calls = way.failing_read.wrapping_sub(1);
    let mut inner = holding_nothing(alloc, stream, way.reads, calls);
    inner.calls_after = usize::MAX;
    let mut reader = Flagged::new(inner);
    let mut inner = holding_nothing(alloc, b"", way.writes, usize::MAX);
    inner.room = way.written;
    let mut writer = Flagged::new(inner);
    let result = exchange(&mut conn, &mut reader, &mut writer, asks);
    Ok(Done {
        result,
        take_failed: reader.take_failed(),
        put_failed: writer.put_failed(),
        calls: usize::MAX.wrapping_sub(writer.inner().calls),
        held: writer.into_inner().held,
    })
}

// A head without a query, of 30 bytes, and one of 40 that ends the connection.
const HEAD: &[u8] = b"GET /wms HTTP/1.1\r\nHost: x\r\n\r\n";

const LAST: &[u8] = b"GET /wms HTTP/1.1\r\nConnection: close\r\n\r\n";

// The response to the first, of 279 bytes: 64 of a head, and the document of a query without REQUEST.
const KEPT: &[u8] = b"HTTP/1.1 200 OK\r\n\
Content-Type: text/xml\r\n\
Content-Length: 215\r\n\
\r\n\
<?xml version=\"1.0\" encoding=\"UTF-8\"?>\n\
<ServiceExceptionReport version=\"1.3.0\" xmlns=\"http://www.opengis.net/ogc\">\n\
<ServiceException code=\"MissingParameterValue\">REQUEST</ServiceException>\n\
</ServiceExceptionReport>\n";

// The response to the second, of 298 bytes.
const RESPONSE: &[u8] = b"HTTP/1.1 200 OK\r\n\
Content-Type: text/xml\r\n\
Content-Length: 215\r\n\
Connection: close\r\n\
\r\n\
<?xml version=\"1.0\" encoding=\"UTF-8\"?>\n\
<ServiceExceptionReport version=\"1.3.0\" xmlns=\"http://www.opengis.net/ogc\">\n\
<ServiceException code=\"MissingParameterValue\">REQUEST</ServiceException>\n\
</ServiceExceptionReport>\n";

// Texts, one after the other.
fn joined(alloc: Global, texts: &[&[u8]]) -> Result<Vec<u8>, AllocError> {
    let mut all = Vec::new(alloc);
    for text in texts {
        all.extend_from_slice(text)?;
    }
    Ok(all)
}

// Whether all of a response was sent, and nothing failed.
fn is_whole(done: &Done, response: &[u8]) -> bool {
    done.result == Ok(())
        && done.held.as_slice() == response
        && !done.take_failed
        && !done.put_failed
}

// Whether an exchange ended in a fault after these bytes, with its flag alone.
fn is_cut(done: &Done, fault: EdgeFault, held: &[u8]) -> bool {
    let is_unread = matches!(fault, EdgeFault::Read { .. });
    done.result == Err(fault)
        && (done.take_failed, done.put_failed) == (is_unread, !is_unread)
        && done.held.as_slice() == held
}

// How many exchanges answer a stream whole that comes and goes in pieces of many lengths.
fn whole_exchanges(alloc: Global, machine: &mut Machine) -> Result<usize, AllocError> {
    let mut count = 0_usize;
    for reads in 1..=41 {
        for writes in [1, 82, 83, 300] {
            let way = Way {
                reads,
                writes,
                ..WHOLE
            };
            let done = exchanged(alloc, LAST, way, machine)?;
            count = count.saturating_add(usize::from(is_whole(&done, RESPONSE)));
        }
    }
    Ok(count)
}

// The first read whose failure changes nothing, and whether the exchange is whole then.
fn first_read_too_late(alloc: Global, machine: &mut Machine) -> Result<(usize, bool), AllocError> {
    for failing_read in 1..=100 {
        let way = Way {
            reads: 1,
            failing_read,
            ..WHOLE
        };
        let done = exchanged(alloc, LAST, way, machine)?;
        if !is_cut(&done, EdgeFault::Read { written: 0 }, &[]) {
            return Ok((failing_read, is_whole(&done, RESPONSE)));
        }
    }
    Ok((0, false))
}

// How many bytes have to be sent for an exchange not to be cut there, and whether it is whole then.
fn first_room_enough(alloc: Global, machine: &mut Machine) -> Result<(usize, bool), AllocError> {
    for written in 0..=RESPONSE.len() {
        let way = Way { written, ..WHOLE };
        let done = exchanged(alloc, LAST, way, machine)?;
        let fault = EdgeFault::Write {
            written: written as u128,
        };
        if !is_cut(&done, fault, &RESPONSE[..written]) {
            return Ok((written, is_whole(&done, RESPONSE)));
        }
    }
    Ok((0, false))
}

// How many exchanges of two heads are whole that come in three pieces, for each pair of positions where they are cut.
fn whole_pairs(alloc: Global, machine: &mut Machine) -> Result<usize, AllocError> {
    let stream = joined(alloc, &[HEAD, LAST])?;
    let expected = joined(alloc, &[KEPT, RESPONSE])?;
    let mut count = 0_usize;
    for first in 0..=stream.len() {
        for second in first..=stream.len() {
            let mut conn = Conn::new(alloc)?;
            let mut reader = Flagged::new(Cut {
                bytes: &stream,
                at: 0,
                cuts: [first, second],
            });
            let mut writer = Flagged::new(Vec::new(alloc));
            let result = exchange(&mut conn, &mut reader, &mut writer, machine);
            let is_whole = result == Ok(())
                && writer.into_inner().as_slice() == expected.as_slice();
            count = count.saturating_add(usize::from(is_whole));
        }
    }
    Ok(count)
}

// How many of 1,001 requests are answered, and whether the last answer closes and no other.
fn answered_of_many(alloc: Global, machine: &mut Machine) -> Result<(usize, bool), AllocError> {
    let mut stream = Vec::new(alloc);
    for _ in 0..1_001 {
        stream.extend_from_slice(HEAD)?;
    }
    let done = exchanged(alloc, &stream, WHOLE, machine)?;
    let mut left = done.held.as_slice();
    let mut count = 0_usize;
    for _ in 0..1_001 {
        let Some(others) = left.strip_prefix(KEPT) else {
            break;
        };
        count = count.saturating_add(1);
        left = others;
    }
    let is_last = done.result == Ok(()) && left == RESPONSE;
    Ok((count.saturating_add(usize::from(is_last)), is_last))
}

// In how many calls of the writer two answers are sent, and one of 5,000 bytes with its head.
fn calls_of_writes(alloc: Global, machine: &mut Machine) -> Result<(usize, usize), AllocError> {
    let stream = joined(alloc, &[HEAD, LAST])?;
    let way = Way {
        reads: 100,
        writes: 100_000,
        ..WHOLE
    };
    let done = exchanged(alloc, &stream, way, machine)?;
    let mut writer = Flagged::new(holding_nothing(alloc, b"", 100_000, usize::MAX));
    let outcome = Outcome::Answered(Answer {
        mime: Mime::Xml,
        body: Items::of(vec![in alloc; b'x'; 5_000]?),
    });
    let _ = respond(&outcome, false, &mut writer);
    Ok((done.calls, usize::MAX.wrapping_sub(writer.inner().calls)))
}

// The text of the exchanges of a name.
fn result_of_cuts(alloc: Global, machine: &mut Machine, name: &str) -> Result<String, AllocError> {
    match name {
        "pieces" => {
            let count = whole_exchanges(alloc, machine)?;
            format!(in alloc; "{} {} {count}", LAST.len(), RESPONSE.len())
        }
        "failed reads" => format!(in alloc; "{:?}", first_read_too_late(alloc, machine)?),
        "failed writes" => format!(in alloc; "{:?}", first_room_enough(alloc, machine)?),
        "pairs of cuts" => format!(in alloc; "{}", whole_pairs(alloc, machine)?),
        "many" => format!(in alloc; "{:?}", answered_of_many(alloc, machine)?),
        "calls" => format!(in alloc; "{:?}", calls_of_writes(alloc, machine)?),
        _ => String::from_str(alloc, "malformed"),
    }
}

fn rows_of_cuts(alloc: Global, row: &str) -> Result<String, AllocError> {
    result_of_cuts(alloc, &mut machine(alloc)?, row)
}

// The text, `|` and the name of its exchanges.
const CUTS: &str = "\
# the bytes of the head and of the response, and how many of 41 by 4 exchanges are whole
40 298 164|pieces
# reads before this one leave nothing written; the head is whole after 40
(41, true)|failed reads
# with fewer bytes the fault says how many were written
(298, true)|failed writes
# two heads have 70 bytes: 71 positions, and 71 by 72 by half pairs of them
2556|pairs of cuts
(1000, true)|many
(2, 2)|calls";

#[test]
fn streams_are_answered_or_cut_where_they_fail(rt: HostRuntime) -> Result<(), TableFault> {
    check_rows(rt.alloc(), CUTS, '|', 6, rows_of_cuts)
}
