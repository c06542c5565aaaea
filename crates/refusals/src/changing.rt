use crate::marks::{Call, begin, end, play_on};
use crate::reading::{plain_machine, plain_map};
use batches::{BatchError, Bytes};
use httpedge::{Conn, exchange};
use layers::{ChangeError, Layers};
use mapdefs::Map;
use mapmachine::{Event, Machine, Reply};
use scripts::play_script;
use std::alloc::{AllocError, Global};
use std::io;
use streams::Flagged;

const TABLE: &[u8] = b"n,x,y\nb,1,0\nc,0,1\n";

const BATCH: &[u8] = b"OFF a\nCLEAR p\nAPPEND 14 p\nx,y\n1,2\n3.5,4\n";

const SCRIPT: &[u8] = b"BATCH 6\nOFF a\nQUERY REQUEST=x\n";

const HEAD: &[u8] = b"GET /?REQUEST=x HTTP/1.0\r\n\r\n";

// For each layer whether it is on, and how many features it has.
fn layers_text(alloc: Global, map: &Map) -> Result<String, AllocError> {
    let mut text = String::new(alloc);
    for layer in map.get().layers.as_slice() {
        let layer = layer.get();
        let switched = if layer.on { "on" } else { "off" };
        write!(text, " {switched} {}", layer.features.len())?;
    }
    Ok(text)
}

// The capabilities' sequence and layers stand for a machine's state.
fn machine_text(alloc: Global, machine: &Machine) -> Result<String, AllocError> {
    let sequence = machine.sequence();
    match machine.reply(b"REQUEST=GetCapabilities") {
        Ok(answer) => format!(in alloc;
            "sequence {sequence}, a document of {} bytes",
            answer.body.len()
        ),
        Err(_) => format!(in alloc; "sequence {sequence}"),
    }
}

#[derive(Drop)]
struct Appending {
    layers: Layers,
}

impl Call for Appending {
    fn state(&self, rt: &HostRuntime) -> io::Result<String> {
        Ok(layers_text(rt.alloc(), self.layers.map())?)
    }

    fn call(&mut self, rt: &HostRuntime) -> io::Result<Option<String>> {
        let alloc = rt.alloc();
        let Ok(table) = csvpoints::read(alloc, TABLE, "x", "y", 9) else {
            return Ok(None);
        };
        begin(rt)?;
        let answer = self.layers.append(b"p", table);
        end(rt)?;
        match answer {
            Ok(()) => Ok(Some(String::from_str(alloc, "appended")?)),
            Err(ChangeError::NoMemory) => Ok(None),
            Err(_) => Ok(Some(String::from_str(alloc, "refused")?)),
        }
    }
}

/// Appends a table to a layer.
pub fn append_row(rt: &HostRuntime) -> io::Result<()> {
    let alloc = rt.alloc();
    let layers = Layers::of(alloc, plain_map(alloc)?)?;
    play_on(rt, &mut Appending { layers })
}

#[derive(Drop)]
struct Applying {
    machine: Machine,
}

impl Call for Applying {
    fn state(&self, rt: &HostRuntime) -> io::Result<String> {
        Ok(machine_text(rt.alloc(), &self.machine)?)
    }

    fn call(&mut self, rt: &HostRuntime) -> io::Result<Option<String>> {
        begin(rt)?;
        let answer = self.machine.batch(BATCH);
        end(rt)?;
        match answer {
            Ok(sequence) => Ok(Some(format!(in rt.alloc(); "published {sequence}")?)),
            Err(BatchError::NoMemory) => Ok(None),
            Err(BatchError::Fault(fault)) => Ok(Some(format!(in rt.alloc(); "{fault}")?)),
        }
    }
}

/// Applies a batch.
pub fn batch_row(rt: &HostRuntime) -> io::Result<()> {
    let machine = plain_machine(rt.alloc())?;
    play_on(rt, &mut Applying { machine })
}

#[derive(Drop)]
struct Running {
    machine: Machine,
}

// The kind of a reply, in a word.
fn reply_word(reply: &Reply) -> &'static str {
    match reply {
        Reply::Answered(_) => "answered ",
        Reply::Published(_) => "published ",
        Reply::Refused(_) => "refused ",
        Reply::NoMemory => "NoMemory ",
    }
}

impl Call for Running {
    fn state(&self, rt: &HostRuntime) -> io::Result<String> {
        Ok(machine_text(rt.alloc(), &self.machine)?)
    }

    fn call(&mut self, rt: &HostRuntime) -> io::Result<Option<String>> {
        let events = [
            Event::Batch(Bytes::new(b"OFF a\n")),
            Event::Query(Bytes::new(b"REQUEST=x")),
        ];
        begin(rt)?;
        let answer = self.machine.run(&events);
        end(rt)?;
        let Ok(replies) = answer else {
            return Ok(None);
        };
        let mut text = String::new(rt.alloc());
        for reply in replies.as_slice() {
            text.push_str(reply_word(reply))?;
        }
        Ok(Some(text))
    }
}

/// Runs a batch and a query.
pub fn run_row(rt: &HostRuntime) -> io::Result<()> {
    let machine = plain_machine(rt.alloc())?;
    play_on(rt, &mut Running { machine })
}

/// Plays a script, and prints its transcript.
pub fn script_row(rt: &HostRuntime) -> io::Result<()> {
    let alloc = rt.alloc();
    let mut machine = plain_machine(alloc)?;
    let mut output = Flagged::new(Vec::with_capacity(alloc, 4_096)?);
    begin(rt)?;
    let played = play_script(&mut machine, SCRIPT, &mut output);
    end(rt)?;
    let text = str::from_utf8(output.inner().as_slice()).unwrap_or("no text");
    println!(rt; "{text}{}", played.is_ok())
}

/// Answers a connection, and prints the response.
pub fn exchange_row(rt: &HostRuntime) -> io::Result<()> {
    let alloc = rt.alloc();
    let mut machine = plain_machine(alloc)?;
    let mut conn = Conn::new(alloc)?;
    let mut reader = Flagged::new(HEAD);
    let mut writer = Flagged::new(Vec::with_capacity(alloc, 4_096)?);
    begin(rt)?;
    let served = exchange(&mut conn, &mut reader, &mut writer, &mut machine);
    end(rt)?;
    let text = str::from_utf8(writer.inner().as_slice()).unwrap_or("no text");
    println!(rt; "{text}{}", served.is_ok())
}
