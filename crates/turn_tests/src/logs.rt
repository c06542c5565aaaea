//! The log of connections in memory.

use crate::clients::{Client, Echo, TIMEOUTS};
use crate::fakes::Reporting;
use accesslog::{
    Cause, EndsEarly, LogQueue, LoggedTransport, MAX_LINES, Record, command_line, end_line,
};
use eventloop::{Capacity, Ending, Worker, WorkerThreads, start_worker};
use std::alloc::{AllocError, Global};
use std::rt::Clock;
use std::str;
use std::sync::Wait;
use std::test::Fail;
use std::thread::Threads;
use turns::{Answered, Timeouts};

// A client whose early end isn't noted.
impl EndsEarly for Client {
    fn note_end(&mut self, _cause: Cause) {}
}

// Adds a line, where one was made.
fn add(text: &mut String, line: Option<Vec<u8>>) -> Result<(), AllocError> {
    match line {
        Some(line) => text.push_str(str::from_utf8(&line).unwrap_or("?")),
        None => Ok(()),
    }
}

// The line on a response of so many bytes, which was sent at once at this millisecond.
fn answered(record: &mut Record, facts: &Answered<'_>, bytes: u64, now: u64) -> Option<Vec<u8>> {
    if record.went(facts.is_followed, bytes, bytes as usize) {
        record.line(facts, now)
    } else {
        None
    }
}

// A head in two pieces, and another one behind its second piece: the log of their answers, and of one to a head that came later.
fn logged_of_pieces(alloc: Global) -> Result<String, AllocError> {
    let mut record = Record::new(alloc, 3);
    let mut text = String::new(alloc);
    let facts = Answered {
        target: b"/a",
        status: 200,
        is_followed: true,
    };
    record.came(5);
    record.came(2_000);
    add(&mut text, answered(&mut record, &facts, 19, 2_001))?;
    let facts = Answered {
        target: b"/b",
        status: 404,
        is_followed: false,
    };
    add(&mut text, answered(&mut record, &facts, 26, 2_010))?;
    record.came(3_000);
    add(&mut text, answered(&mut record, &facts, 26, 3_001))?;
    Ok(text)
}

#[test]
fn a_request_is_timed_from_its_own_first_byte(rt: HostRuntime) -> Result<(), Fail> {
    let text = logged_of_pieces(rt.alloc())?;
    assert_eq!(rt;
        text.as_str(),
        "answer 3 \"/a\" 200 19 1996\nanswer 3 \"/b\" 404 26 10\nanswer 3 \"/b\" 404 26 1\n"
    );
    Ok(())
}

// An answer of 23 bytes that is sent in two parts, in the twelfth millisecond after a request of the fifth.
#[test]
fn an_answer_has_its_line_once_it_was_sent_whole(rt: HostRuntime) -> Result<(), Fail> {
    let mut record = Record::new(rt.alloc(), 7);
    let facts = Answered {
        target: b"/a?b=\"1\\\x7f",
        status: 200,
        is_followed: false,
    };
    record.came(5);
    assert!(rt; !record.went(false, 23, 10));
    assert!(rt; record.went(false, 13, 13));
    let mut text = String::new(rt.alloc());
    add(&mut text, record.line(&facts, 12))?;
    assert_eq!(rt;
        text.as_str(),
        "answer 7 \"/a?b=\\x221\\x5c\\x7f\" 200 23 7\n"
    );
    Ok(())
}

// The lines on an early end by each cause, and on a command.
fn other_lines(alloc: Global) -> Result<String, AllocError> {
    let mut text = String::new(alloc);
    let causes = [
        Cause::Idle,
        Cause::Head,
        Cause::Answer,
        Cause::Rate,
        Cause::Fault,
        Cause::GaveWay,
        Cause::Busy,
        Cause::Stopped,
    ];
    for cause in causes {
        add(&mut text, end_line(alloc, 12, cause).ok())?;
    }
    add(&mut text, command_line(alloc, 3, b"HELD\n").ok())?;
    Ok(text)
}

#[test]
fn ends_and_commands_are_logged_by_their_words(rt: HostRuntime) -> Result<(), Fail> {
    let text = other_lines(rt.alloc())?;
    assert_eq!(rt;
        text.as_str(),
        "end 12 idle\nend 12 head\nend 12 answer\nend 12 rate\nend 12 fault\nend 12 evicted\nend 12 busy\nend 12 stopped\nbatch 3 HELD\n"
    );
    Ok(())
}

// How many lines a queue keeps where two more come than it has room for, after the line on the others.
fn kept_of_many<R: AllocGlobal + Clock + Wait + Copy + Drop>(
    rt: &R,
) -> Result<(String, usize), Fail> {
    let alloc = rt.alloc();
    let mut text = String::new(alloc);
    let Some(queue) = LogQueue::new(rt, alloc) else {
        return Ok((text, 0));
    };
    for _ in 0..MAX_LINES + 2 {
        queue.put(Some(Vec::from_slice(alloc, b"x\n")?));
    }
    add(&mut text, queue.take(alloc))?;
    for count in 0..MAX_LINES + 9 {
        if queue.take(alloc).is_none() {
            return Ok((text, count));
        }
    }
    Ok((text, 0))
}

#[test]
fn lines_without_room_are_dropped_and_counted(rt: HostRuntime) -> Result<(), Fail> {
    let (text, kept) = kept_of_many(&rt)?;
    assert_eq!(rt; text.as_str(), "dropped 2\n");
    assert_eq!(rt; kept, 4_096);
    Ok(())
}

// A connection is given up after a millisecond in each state but one: a whole answer has as long as its bytes.
const SHORT: Timeouts = Timeouts {
    idle: 1,
    timeout: 1,
    grace: 100_000,
    rate: 1,
    drain: 1,
    ahead: 0,
};

// The same, where a whole answer has a millisecond, and one that stands still as long as it takes.
const SLOW: Timeouts = Timeouts {
    idle: 1,
    timeout: 100_000,
    grace: 1,
    rate: 1_000_000,
    drain: 1,
    ahead: 0,
};

// The log of a client that one worker serves to its end.
fn logged_of<R: AllocGlobal + Clock + Wait + Threads + Send + Copy + Drop + 'static>(
    rt: &R,
    system: &HostRuntime,
    client: Client,
    timeouts: Timeouts,
) -> Result<String, Fail> {
    let alloc = rt.alloc();
    let mut text = String::new(alloc);
    let Some(queue) = LogQueue::new(rt, alloc) else {
        return Ok(text);
    };
    let mut workers = WorkerThreads::new(alloc, 1)?;
    let asks = Echo { alloc, dots: 5 };
    let poller = Reporting {
        rt: *system,
        slots: 0,
    };
    let worker = Worker::new(alloc, asks, poller, Capacity { slots: 1, timeouts })?;
    start_worker(rt, alloc, &mut workers, worker)?;
    let logged = LoggedTransport::new(alloc, client, 9, queue.share().ok());
    workers.hand_over(rt, Some(logged));
    workers.end(rt, Ending::Finishes);
    for _ in 0..4 {
        add(&mut text, queue.take(alloc))?;
    }
    Ok(text)
}

const HEAD: &[u8] = b"GET /wms?q HTTP/1.1\r\n\r\n";

#[test]
fn early_ends_are_logged_by_their_causes(rt: HostRuntime) -> Result<(), Fail> {
    let alloc = rt.alloc();
    let silent = Client::new(alloc, b"", false)?;
    let text = logged_of(&rt, &rt, silent, SHORT)?;
    assert_eq!(rt; text.as_str(), "end 9 idle\n");
    let begun = Client::new(alloc, b"GET /wms?q HTT", false)?;
    let text = logged_of(&rt, &rt, begun, SHORT)?;
    assert_eq!(rt; text.as_str(), "end 9 head\n");
    let unread = Client::new(alloc, HEAD, false)?.paced(&[4_096], &[1, 0]);
    let text = logged_of(&rt, &rt, unread, SHORT)?;
    assert_eq!(rt; text.as_str(), "end 9 answer\n");
    let slow = Client::new(alloc, HEAD, false)?.paced(&[4_096], &[1, 0]);
    let text = logged_of(&rt, &rt, slow, SLOW)?;
    assert_eq!(rt; text.as_str(), "end 9 rate\n");
    Ok(())
}

// The lines of a log without their milliseconds.
fn without_millis(alloc: Global, text: &str) -> Result<String, AllocError> {
    let mut lines = String::new(alloc);
    for line in text.lines() {
        let end = line.rfind(' ').unwrap_or(0);
        lines.push_str(line.get(..end).unwrap_or("?"))?;
        lines.push('\n')?;
    }
    Ok(lines)
}

#[test]
fn lines_have_the_targets_and_the_statuses_of_their_requests(rt: HostRuntime) -> Result<(), Fail> {
    let alloc = rt.alloc();
    let sends =
        b"\r\nGET /wms?b=\"1\\\xc3\xa9 HTTP/1.1\r\nHost: h\r\n\r\nGET /a?q HTTP/1.1\r\n\r\nBREW /c HTTP/1.0\n\n";
    let client = Client::new(alloc, sends, true)?.paced(&[7, 4_096], &[5, 1_000]);
    let text = logged_of(&rt, &rt, client, TIMEOUTS)?;
    let lines = without_millis(alloc, text.as_str())?;
    assert_eq!(rt;
        lines.as_str(),
        "answer 9 \"/wms?b=\\x221\\x5c\\xc3\\xa9\" 200 77\nanswer 9 \"/a?q\" 404 45\nanswer 9 \"/c\" 405 85\n"
    );
    let body = b"GET /wms?q HTTP/1.1\r\nContent-Length: 1\r\n\r\n";
    let text = logged_of(&rt, &rt, Client::new(alloc, body, true)?, TIMEOUTS)?;
    let lines = without_millis(alloc, text.as_str())?;
    assert_eq!(rt; lines.as_str(), "answer 9 \"/wms?q\" 400 66\n");
    let cut = b"GET /wms?q HTT";
    let text = logged_of(&rt, &rt, Client::new(alloc, cut, true)?, TIMEOUTS)?;
    let lines = without_millis(alloc, text.as_str())?;
    assert_eq!(rt; lines.as_str(), "answer 9 \"\" 400 66\n");
    Ok(())
}
