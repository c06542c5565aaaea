use commandline::Service;
use console::{Failure, ListenCause, read_all};
use mapdefs::Map;
use mapparse::{Files, parse};
use program::{Files as HostFiles, Program, SystemHost};
use service::Runtime;
use std::io::{self, Read, Write};
use std::net::{Ipv4Addr, Shutdown, TcpListener, TcpStream};
use std::test::Fail;
use std::time::{Duration, Instant};
use std::{env, fs, str};
use streams::Flagged;

/// A head without a query that ends its connection, of 40 bytes.
pub const LAST: &str = "GET /wms HTTP/1.1\r\nConnection: close\r\n\r\n";

// A head that doesn't end its connection, of 30 bytes.
const HEAD: &str = "GET /wms HTTP/1.1\r\nHost: x\r\n\r\n";

/// The response to the first, of 298 bytes: 83 of a head, and the document of a query without REQUEST.
pub const RESPONSE: &[u8] = b"HTTP/1.1 200 OK\r\n\
Content-Type: text/xml\r\n\
Content-Length: 215\r\n\
Connection: close\r\n\
\r\n\
<?xml version=\"1.0\" encoding=\"UTF-8\"?>\n\
<ServiceExceptionReport version=\"1.3.0\" xmlns=\"http://www.opengis.net/ogc\">\n\
<ServiceException code=\"MissingParameterValue\">REQUEST</ServiceException>\n\
</ServiceExceptionReport>\n";

// A writer that gets the addresses of two ports. When it is flushed it opens a connection to each and closes them, and then one to
// each for each of some texts, of which that to the second closes at once. They wait until the ports answer them.
#[derive(Drop)]
struct Clients<'a> {
    rt: &'a HostRuntime,
    texts: &'a [&'a str],
    line: Vec<u8>,
    streams: Vec<TcpStream>,
}

/// The ports of the addresses that are all of a line after its first word.
pub fn ports_of(line: &[u8]) -> Option<(u16, u16)> {
    let line = str::from_utf8(line).ok()?;
    let addresses = line
        .strip_prefix("listening 127.0.0.1:")?
        .strip_suffix('\n')?;
    let (clients, administration) = addresses.split_once(" 127.0.0.1:")?;
    Some((clients.parse().ok()?, administration.parse().ok()?))
}

/// A connection to a port of this machine.
pub fn connected(rt: &HostRuntime, port: u16) -> io::Result<TcpStream> {
    TcpStream::connect(rt, (Ipv4Addr::LOCALHOST, port))
}

impl Clients<'_> {
    // Sends the pieces of a text, which bars separate. It closes its sending side, but not where the last piece is `stays`.
    fn ask(&mut self, port: u16, text: &str) -> io::Result<()> {
        let mut stream = connected(self.rt, port)?;
        let (text, stays) = match text.strip_suffix("|stays") {
            Some(text) => (text, true),
            None => (text, false),
        };
        for piece in text.split('|') {
            stream.write_all(piece.as_bytes())?;
        }
        if !stays {
            stream.shutdown(Shutdown::Write)?;
        }
        self.streams.push(stream)?;
        Ok(())
    }
}

impl Write for Clients<'_> {
    fn write(&mut self, bytes: &[u8]) -> io::Result<usize> {
        self.line.extend_from_slice(bytes)?;
        Ok(bytes.len())
    }

    fn flush(&mut self) -> io::Result<()> {
        let Some((clients, administration)) = ports_of(&self.line) else {
            return Err(io::Error::from(io::ErrorKind::InvalidData));
        };
        drop(connected(self.rt, clients)?);
        drop(connected(self.rt, administration)?);
        for text in self.texts {
            self.ask(clients, text)?;
            drop(connected(self.rt, administration)?);
        }
        Ok(())
    }
}

// A head of 4,096 bytes. So many are read at once, and the bytes after them are unread when the head is answered.
fn long_head(rt: &HostRuntime) -> io::Result<String> {
    let mut head = String::from_str(rt.alloc(), "GET /wms?")?;
    for _ in 0..4_055 {
        head.push('a')?;
    }
    head.push_str(" HTTP/1.1\r\nConnection: close\r\n\r\n")?;
    Ok(head)
}

/// The service on two ports by so many workers, for so many connections at each.
pub fn service(ports: (u16, u16), workers: u16, connections: u32) -> Service {
    Service {
        port: ports.0,
        connections,
        idle: 300,
        timeout: 30,
        admin_port: ports.1,
        workers,
        checkpoint: 0,
        until_input_ends: false,
        logs: false,
    }
}

/// Serves a map at ports of the machine, with that output, which is returned.
pub fn served<R: Runtime, W: Write + Drop>(
    rt: &R,
    system: &HostRuntime,
    map: Map,
    service: Service,
    output: W,
) -> (Result<(), Failure>, W) {
    let host = SystemHost::new(system);
    let program = Program {
        rt: *rt,
        host: &host,
    };
    let mut output = Flagged::new(output);
    let ending = program.serve_map(map, service, &mut output);
    (ending.outcome(), output.into_inner())
}

// How the connections of some texts are answered by one worker: whether all were, and all bytes that came back.
fn answered<R: Runtime>(
    rt: &R,
    system: &HostRuntime,
    texts: &[&str],
    connections: u32,
) -> Result<(Result<(), Failure>, Vec<u8>), Fail> {
    let alloc = rt.alloc();
    let map = parse(alloc, b"MAP END", &Files::new(alloc))?;
    let clients = Clients {
        rt: system,
        texts,
        line: Vec::new(alloc),
        streams: Vec::new(alloc),
    };
    let service = service((0, 0), 1, connections);
    let (outcome, clients) = served(rt, system, map, service, clients);
    let mut answers = Vec::new(alloc);
    for mut stream in clients.streams {
        stream.read_to_end(&mut answers)?;
    }
    Ok((outcome, answers))
}

#[test]
fn a_port_answers_its_connections_in_turn(rt: HostRuntime) -> Result<(), Fail> {
    let (outcome, answers) = answered(&rt, &rt, &[LAST, LAST], 3)?;
    let found = (outcome.is_ok(), answers.get(..298), answers.get(298..));
    assert_eq!(rt; found, (true, Some(RESPONSE), Some(RESPONSE)));
    Ok(())
}

#[test]
fn bytes_after_a_last_head_leave_its_answer_whole(rt: HostRuntime) -> Result<(), Fail> {
    let alloc = rt.alloc();
    let head = long_head(&rt)?;
    let body = format!(in alloc; "{head}|abc")?;
    let second = format!(in alloc; "{head}|{HEAD}")?;
    let (_, answers) = answered(&rt, &rt, &[body.as_str(), second.as_str()], 3)?;
    let found = (answers.get(..298), answers.get(298..));
    assert_eq!(rt; found, (Some(RESPONSE), Some(RESPONSE)));
    Ok(())
}

#[test]
fn a_connection_has_its_requests_answered(rt: HostRuntime) -> Result<(), Fail> {
    let texts = format!(in rt.alloc(); "{HEAD}|{HEAD}|{LAST}")?;
    let (_, answers) = answered(&rt, &rt, &[texts.as_str()], 2)?;
    // 279 bytes twice, which lack the line of the last
    assert_eq!(rt; (answers.len(), answers.get(558..)), (856, Some(RESPONSE)));
    Ok(())
}

// For how long two connections are answered, of which the first stays, and how many bytes come back.
fn waited<R: Runtime>(
    rt: &R,
    system: &HostRuntime,
    first: &str,
) -> Result<(Duration, usize), Fail> {
    let stays = format!(in rt.alloc(); "{first}|stays")?;
    let began = Instant::now(system)?;
    let (_, answers) = answered(rt, system, &[stays.as_str(), LAST], 3)?;
    Ok((began.elapsed(system)?, answers.len()))
}

#[test]
fn a_client_that_stays_is_left(rt: HostRuntime) -> Result<(), Fail> {
    // After the last answer it is left after 2 seconds, and not when the time of its head is over.
    let (left, count) = waited(&rt, &rt, LAST)?;
    assert_eq!(rt; (count, left.as_secs() < 20), (596, true));
    // After another it may be idle for 300 milliseconds.
    let (left, count) = waited(&rt, &rt, HEAD)?;
    let is_in_time = left.as_millis() >= 300 && left.as_millis() < 1_500;
    assert_eq!(rt; (count, is_in_time), (577, true));
    Ok(())
}

// Whether serving ended because a port is taken, which of the two, and how many bytes were written, where these ports are
// requested.
fn result_of_taken<R: Runtime>(
    rt: &R,
    system: &HostRuntime,
    ports: (u16, u16),
) -> Result<(Option<u16>, usize), Fail> {
    let alloc = rt.alloc();
    let map = parse(alloc, b"MAP END", &Files::new(alloc))?;
    let service = service(ports, 1, 1);
    let (outcome, written) = served(rt, system, map, service, Vec::new(alloc));
    let taken = match outcome {
        Err(
            Failure::ListenFailed {
                port,
                cause: ListenCause::Taken,
            },
        ) => Some(port),
        _ => None,
    };
    Ok((taken, written.len()))
}

#[test]
fn a_port_that_is_taken_is_reported(rt: HostRuntime) -> Result<(), Fail> {
    let listener = TcpListener::bind(&rt, (Ipv4Addr::LOCALHOST, 0))?;
    let port = listener.local_addr()?.port();
    for ports in [(port, 0), (0, port)] {
        assert_eq!(rt; result_of_taken(&rt, &rt, ports)?, (Some(port), 0));
    }
    drop(listener);
    Ok(())
}

// Whether a file of the system is read as the bytes that were written to it.
fn is_read_whole(rt: &HostRuntime, path: &str, bytes: &[u8]) -> Result<bool, Fail> {
    fs::write(rt, path, bytes)?;
    let file = SystemHost::new(rt).open(path)?;
    let found = read_all(rt.alloc(), &mut Flagged::new(file));
    Ok(matches!(found, Ok(found) if found.as_slice() == bytes))
}

#[test]
fn a_file_of_the_system_is_read_to_its_end(rt: HostRuntime) -> Result<(), Fail> {
    let alloc = rt.alloc();
    let mut bytes = Vec::new(alloc);
    for byte in 0..200_000_u32 {
        bytes.push((byte % 251) as u8)?;
    }
    let folder = env::temp_dir(&rt)?;
    let path = folder.join(alloc, "kesmoch_a_file_of_the_system")?;
    let path = path.to_str().unwrap_or("");
    let is_whole = is_read_whole(&rt, path, bytes.as_slice())?;
    fs::remove_file(&rt, path)?;
    assert!(rt; is_whole);
    Ok(())
}
