use crate::ports::{connected, ports_of, served, service};
use crate::texts::{QUERY, SQUARE_MAP};
use mapparse::{Files, parse};
use std::alloc::{AllocError, Global};
use std::io::{self, Read, Write};
use std::net::Shutdown;
use std::sync::{Arc, OnceLock};
use std::test::Fail;
use std::time::Duration;
use std::{str, thread};

// The two ports of a service, once they are known.
type Ports = Arc<OnceLock<(u16, u16)>, Global>;

// A writer that notes the ports in the addresses, when it is flushed.
#[derive(Drop)]
struct Line {
    written: Vec<u8>,
    ports: Ports,
}

impl Write for Line {
    fn write(&mut self, bytes: &[u8]) -> io::Result<usize> {
        self.written.extend_from_slice(bytes)?;
        Ok(bytes.len())
    }

    fn flush(&mut self) -> io::Result<()> {
        let Some(ports) = ports_of(&self.written) else {
            return Err(io::Error::from(io::ErrorKind::InvalidData));
        };
        let _ = self.ports.try_set(ports);
        Ok(())
    }
}

// Waits for the ports, ten seconds at most.
fn wait_for(rt: &HostRuntime, ports: &Ports) -> io::Result<(u16, u16)> {
    for _ in 0..10_000 {
        if let Some(ports) = ports.get() {
            return Ok(*ports);
        }
        thread::sleep(rt, Duration::from_millis(1));
    }
    Err(io::Error::from(io::ErrorKind::TimedOut))
}

// The answer to a GetMap of the square.
fn picture(rt: &HostRuntime, port: u16) -> io::Result<Vec<u8>> {
    let head = format!(in rt.alloc(); "GET /wms?{QUERY} HTTP/1.1\r\nConnection: close\r\n\r\n")?;
    let mut stream = connected(rt, port)?;
    stream.write_all(head.as_str().as_bytes())?;
    let mut answer = Vec::new(rt.alloc());
    stream.read_to_end(&mut answer)?;
    Ok(answer)
}

// The length of the first answer and the hexadecimal digits of its body, and the lines that the administrator gets before the second
// request. Then the answer to that, and the lines that the administrator gets then. The layer is switched off between the two answers.
fn converse(rt: &HostRuntime, ports: &Ports) -> io::Result<String> {
    let (clients, administration) = wait_for(rt, ports)?;
    let before = picture(rt, clients)?;
    let mut stream = connected(rt, administration)?;
    stream.write_all(b"BATCH 6\nOFF a\n")?;
    let mut published = [0; 12];
    stream.read_exact(&mut published)?;
    let after = picture(rt, clients)?;
    stream.write_all(b"RETRY\n")?;
    stream.shutdown(Shutdown::Write)?;
    let mut rest = Vec::new(rt.alloc());
    stream.read_to_end(&mut rest)?;
    // the second connection lets the service end
    drop(connected(rt, administration)?);
    let answers = format!(in rt.alloc();
        "{} {} {} {} {}",
        before.len(),
        hex::encode(rt.alloc(), before.get(97..).unwrap_or(b""))?.as_str(),
        str::from_utf8(&published).unwrap_or("?"),
        str::from_utf8(&after).unwrap_or("?"),
        str::from_utf8(&rest).unwrap_or("?")
    )?;
    Ok(answers)
}

// The first answer is the picture of 59 bytes after a head of 97, the second the exception, which has 187 bytes beside its code and the
// name of its parameter.
const CONVERSATION: &str = "\
156 50360a3420340a3235350affffffffffffffffffffffffffffff0a141e0a141e\
ffffffffffff0a141e0a141effffffffffffffffffffffffffffff PUBLISHED 1\n HTTP/1.1 200 OK\r\n\
Content-Type: text/xml\r\n\
Content-Length: 208\r\n\
Connection: close\r\n\
\r\n\
<?xml version=\"1.0\" encoding=\"UTF-8\"?>\n\
<ServiceExceptionReport version=\"1.3.0\" xmlns=\"http://www.opengis.net/ogc\">\n\
<ServiceException code=\"LayerNotDefined\">LAYERS</ServiceException>\n\
</ServiceExceptionReport>\n IDLE\n";

// Where the ports are noted, for two threads.
fn shared_ports(alloc: Global) -> Result<(Ports, Ports), AllocError> {
    let ports = Arc::new(alloc, OnceLock::new())?;
    let theirs = Arc::try_clone(&ports)?;
    Ok((ports, theirs))
}

#[test]
fn what_is_published_is_answered_by_each_worker(rt: HostRuntime) -> Result<(), Fail> {
    let alloc = rt.alloc();
    let map = parse(alloc, SQUARE_MAP.as_bytes(), &Files::new(alloc))?;
    let (ports, theirs) = shared_ports(alloc)?;
    let line = Line {
        written: Vec::new(alloc),
        ports,
    };
    let client = thread::spawn(&rt, move || match converse(&rt, &theirs) {
        Ok(answers) => answers,
        Err(_) => String::new(rt.alloc()),
    })?;
    let service = service((0, 0), 2, 2);
    let (outcome, _) = served(&rt, &rt, map, service, line);
    let answers = client.join(&rt);
    assert_eq!(rt; (outcome.is_ok(), answers.as_str()), (true, CONVERSATION));
    Ok(())
}
