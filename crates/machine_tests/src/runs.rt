use crate::maps::{QUERY, SQUARE, machine_of};
use mapmachine::{Bytes, Event, Machine, Mime, Reply};
use std::alloc::{AllocError, Global};
use test_tables::{TableFault, check_rows};

// The body that answers the query: the square on white.
const PICTURE: &[u8] = b"P6\n4 4\n255\n\
\xff\xff\xff\xff\xff\xff\xff\xff\xff\xff\xff\xff\
\xff\xff\xff\x0a\x14\x1e\x0a\x14\x1e\xff\xff\xff\
\xff\xff\xff\x0a\x14\x1e\x0a\x14\x1e\xff\xff\xff\
\xff\xff\xff\xff\xff\xff\xff\xff\xff\xff\xff\xff";

// The body where the layer is switched off.
const REPORT: &[u8] = b"<?xml version=\"1.0\" encoding=\"UTF-8\"?>\n\
<ServiceExceptionReport version=\"1.3.0\" xmlns=\"http://www.opengis.net/ogc\">\n\
<ServiceException code=\"LayerNotDefined\">LAYERS</ServiceException>\n\
</ServiceExceptionReport>\n";

// What a reply is.
fn reply_text(alloc: Global, reply: &Reply) -> Result<String, AllocError> {
    match reply {
        Reply::Answered(answer) => {
            let body = answer.body.as_slice();
            match answer.mime {
                Mime::Pixmap if body == PICTURE => format!(in alloc; "picture, "),
                Mime::Xml if body == REPORT => format!(in alloc; "report, "),
                _ => format!(in alloc; "another answer, "),
            }
        }
        Reply::Published(sequence) => format!(in alloc; "published {sequence}, "),
        Reply::Refused(fault) => {
            format!(in alloc; "refused {} {}, ", fault.index, fault.kind.number())
        }
        Reply::NoMemory => Err(AllocError),
    }
}

// The replies of a machine to a query, a batch and the query again, and its sequence after them.
fn replies_text(alloc: Global, machine: &mut Machine, batch: &[u8]) -> Result<String, AllocError> {
    let events = [
        Event::Query(Bytes::new(QUERY)),
        Event::Batch(Bytes::new(batch)),
        Event::Query(Bytes::new(QUERY)),
    ];
    let replies = machine.run(&events)?;
    let mut text = String::new(alloc);
    for reply in replies.as_slice() {
        let reply = reply_text(alloc, reply)?;
        text.push_str(reply.as_str())?;
    }
    format!(in alloc; "{text}then {}", machine.sequence())
}

// The same of the machine of the square, and a batch with `~` for its line ends.
fn run_text(alloc: Global, row: &str) -> Result<String, AllocError> {
    let batch = row.replace(alloc, '~', "\n")?;
    let mut machine = machine_of(alloc, SQUARE)?;
    replies_text(alloc, &mut machine, batch.as_str().as_bytes())
}

// The replies of a run and the sequence after it, and the batch between its queries.
const RUNS: &str = "\
picture, refused 1 2, picture, then 0=ON zz~
picture, published 1, report, then 1=OFF a~
picture, refused 2 3, picture, then 0=OFF a~CLEAR a~
picture, published 1, picture, then 1=";

#[test]
fn a_batch_between_two_queries_has_its_reply(rt: HostRuntime) -> Result<(), TableFault> {
    check_rows(rt.alloc(), RUNS, '=', 4, run_text)
}
