use crate::memory::{Memory, MemoryFile, SomeFiles, stream_of};
use crate::texts::{columns, spelt};
use console::{Console, Failure, ReadFault};
use std::alloc::{AllocError, Global};
use std::str;
use streams::Flagged;
use subcommands::{Job, NamedFile, check, run, session};
use test_tables::{TableFault, check_all, check_rows};

// A stream in memory.
type Stream<'a> = Flagged<Memory<'a>>;

// Performs a subcommand with its job and its script, or with the session that is the input.
fn performed(
    alloc: Global,
    subcommand: &str,
    job: &mut Job<'_, SomeFiles, MemoryFile<'_>>,
    script: &mut NamedFile<'_, MemoryFile<'_>>,
    console: &mut Console<Stream<'_>, Stream<'_>, Stream<'_>>,
) -> Result<(), Failure> {
    match subcommand {
        "session" => session(alloc, &SomeFiles, console),
        "check" | "explain" => check(alloc, job, console),
        _ => run(alloc, job, script, console),
    }
}

/// The exit status, and the failure.
pub fn end_of(alloc: Global, outcome: Result<(), Failure>) -> Result<String, AllocError> {
    match outcome {
        Ok(()) => String::from_str(alloc, "0 done"),
        Err(failure) => format!(in alloc; "{} {failure:?}", failure.status()),
    }
}

// The number of the call of a stream that fails.
fn call_of(failing: Option<(usize, usize)>, stream: usize) -> Option<usize> {
    match failing {
        Some((at, call)) if at == stream => Some(call),
        _ => None,
    }
}

/// The end of a subcommand over two texts, its mapfile or session and its script, with streams that move so many bytes at
/// once. It has the exit status with the failure, and the bytes that the two writers hold, with bars between them, and
/// how often its first input, its output and its errors were called. Of these three streams one call may fail, that of
/// this number.
pub fn ended(
    alloc: Global,
    subcommand: &str,
    texts: (&str, &str),
    at_once: usize,
    failing: Option<(usize, usize)>,
) -> Result<(String, [usize; 3]), AllocError> {
    let (subcommand, name) = subcommand.split_once(' ').unwrap_or((subcommand, "m.map"));
    let is_session = subcommand == "session";
    let mut job = Job {
        folder: &SomeFiles,
        mapfile: NamedFile {
            name,
            reader: MemoryFile {
                stream: stream_of(alloc, texts.0, at_once, call_of(failing, 0)),
            },
        },
        explains: subcommand == "explain" || subcommand == "run_explained",
    };
    let mut script = NamedFile {
        name: "s.txt",
        reader: MemoryFile {
            stream: stream_of(alloc, texts.1, at_once, None),
        },
    };
    let input = if is_session { texts.0 } else { "" };
    let mut console = Console {
        input: stream_of(alloc, input, at_once, call_of(failing, 0)),
        output: stream_of(alloc, "", at_once, call_of(failing, 1)),
        errors: stream_of(alloc, "", at_once, call_of(failing, 2)),
    };
    let outcome = performed(alloc, subcommand, &mut job, &mut script, &mut console);
    let (input, mapfile) = (
        console.input.into_inner(),
        job.mapfile.reader.stream.into_inner(),
    );
    let read = if is_session {
        input.calls
    } else {
        mapfile.calls
    };
    let (output, errors) = (console.output.into_inner(), console.errors.into_inner());
    let end = end_of(alloc, outcome)?;
    let text = format!(in alloc;
        "{end}|{}|{}",
        str::from_utf8(&output.held).unwrap_or("?"),
        str::from_utf8(&errors.held).unwrap_or("?")
    )?;
    Ok((text, [read, output.calls, errors.calls]))
}

/// Whether the text that is written of a script is this.
pub fn is_played(alloc: Global, map: &str, script: &str, text: &str) -> Result<bool, AllocError> {
    let (found, _) = ended(alloc, "run", (map, script), 100_000, None)?;
    let expected = format!(in alloc; "0 done|{text}|")?;
    Ok(found.as_str() == expected.as_str())
}

// Subcommands with their mapfile and their script, then the exit status with the failure, the output and the errors. `!` is a
// file that can't be read, `*` the map of 2 layers, `@` the exception of a query without parameters. Some mapfiles and
// scripts have several faults, of which the first is to be reported.
const SUBCOMMANDS: &str = "\
check|MAP END||0 done|ok 0 layers 0 features~|
check|*||0 done|ok 2 layers 3 features~|
check|*|!|0 done|ok 2 layers 3 features~|
check|MAP~~FOO END||1 MapfileFault||fault line 3 kind 2~
check|(||1 MapfileFault||fault line 1 kind 1~
check|||1 MapfileFault||fault line 1 kind 4~
check|!||1 FileFailed||fault file m.map~
explain|*||0 done|ok 2 layers 3 features~|m.map: warning: the service has no wms_onlineresource, and http://localhost/wms? has no port~m.map: warning: LAYER 1 has features and no CLASS~m.map: warning: LAYER 2 has features and no CLASS~
# Warnings: on the service, and on layers by their numbers. The title and the name of the last row have a form feed.
explain|MAP WEB METADATA wms_onlineresource 'http://h/?' END END END||0 done|ok 0 layers 0 features~|
check|MAP LAYER NAME 'a,b' TYPE LINE END END||0 done|ok 1 layers 0 features~|
explain|MAP WEB METADATA wms_onlineresource 'http://h/?' END END LAYER NAME a TYPE LINE END LAYER NAME 'a,b' TYPE LINE END END||0 done|ok 2 layers 0 features~|m.map: warning: LAYER 2 has a NAME with a comma, so that LAYERS can't ask for it~
explain|MAP WEB METADATA wms_title 'x\x0cy' END END LAYER NAME 'a\x0c' TYPE LINE END END||0 done|ok 1 layers 0 features~|m.map: warning: the service has no wms_onlineresource, and http://localhost/wms? has no port~m.map: warning: the service has a title with a character that XML forbids~m.map: warning: LAYER 1 has a NAME with a character that XML forbids~m.map: warning: LAYER 1 has a title with a character that XML forbids~
explain|MAP~~FOO END||1 MapfileFault||fault line 3 kind 2~m.map:3: FOO is no keyword of MAP~
explain|MAP~LAYER NAME a~~END~END||1 MapfileFault||fault line 4 kind 5~m.map:4: LAYER of line 2 has no TYPE~
explain|||1 MapfileFault||fault line 1 kind 4~m.map:1: the mapfile has no MAP~
explain|!||1 FileFailed||fault file m.map~m.map: the file may not be read~
run|MAP END|QUERY a~|0 done|@|
run_explained|MAP END|QUERY a~|0 done|@|m.map: warning: the service has no wms_onlineresource, and http://localhost/wms? has no port~
run_explained|MAP WEB METADATA wms_onlineresource 'http://h/?' END END END|QUERY a~|0 done|@|
run_explained|MAP~END~END|!|1 MapfileFault||fault line 3 kind 2~m.map:3: END stands after the END of MAP~
run_explained|MAP END|!|1 FileFailed||m.map: warning: the service has no wms_onlineresource, and http://localhost/wms? has no port~fault file s.txt~s.txt: the file may not be read~
run_explained|!|!|1 FileFailed||fault file m.map~m.map: the file may not be read~
run|*|QUERY a~QUERY b~|0 done|@@|
run|*||0 done||
run|MAP END|QUERY a~x~|0 done|fault script 2~|
run|MAP~END~END|!|1 MapfileFault||fault line 3 kind 2~
run|MAP END|!|1 FileFailed||fault file s.txt~
run|!|!|1 FileFailed||fault file m.map~
run|!|x~|1 FileFailed||fault file m.map~
# Scripts on the map of the square: an unreadable one plays nothing.
run|$||0 done||
run|$|QUERY ~|0 done|@|
run|$|QUERY a~QUERY b\r~|0 done|@@|
run|$|QUERY a~QUERY b|0 done|fault script 2~|
run|$|QUERY|0 done|fault script 1~|
run|$|QUERY~|0 done|fault script 1~|
run|$|query a~|0 done|fault script 1~|
run|$|~|0 done|fault script 1~|
run|$|QUERY a~BATCH 0~QUERY b~|0 done|@PUBLISHED 1~@|
run|$|BATCH 7~OFF zz~BATCH 0~BATCH 4~CLR~BATCH 0~|0 done|REFUSED 1 2~PUBLISHED 1~REFUSED 1 1~PUBLISHED 2~|
run|$|QUERY a~BATCH 8~OFF zz~|0 done|fault script 2~|
run|$|BATCH 0000000000~BATCH 00000000000~|0 done|fault script 2~|
run|$|BATCH x~|0 done|fault script 1~|
run|$|BATCH ~|0 done|fault script 1~|
run|$|BATCH 0|0 done|fault script 1~|
run|$|BATCH 0\r~|0 done|fault script 1~|
run|$|BATCH +0~|0 done|fault script 1~|
run|$|QUERY a~QUERY b~QUERY c~ QUERY d~|0 done|fault script 4~|
# Mapfiles with the symbol of a file. The pixmap has its corner a column to the left of the point's pixel.
session|<p.ppm>%%~QUERY ^~||0 done|ANSWER image/x-portable-pixmap 59~50360a3420340a3235350affffffffffffffffffffffffffffff0a141effffff~ffffffffffffffffffffffffffffffffffffffffffffffffffffff~|
session|<bad.ppm>%%~QUERY ^~||1 MapfileFault||fault line 4 kind 10~
session|<none.ppm>%%~QUERY ^~||1 MapfileFault||fault line 4 kind 7~
session|<P.ppm>%%~QUERY ^~||1 MapfileFault||fault line 4 kind 7~
explain maps/m.map|MAP SYMBOL NAME s~TYPE PIXMAP~IMAGE p.ppm~END END||0 done|ok 0 layers 0 features~|maps/m.map: warning: the service has no wms_onlineresource, and http://localhost/wms? has no port~
explain maps/m.map|MAP SYMBOL NAME s~TYPE PIXMAP~IMAGE bad.ppm~END END||1 MapfileFault||fault line 3 kind 10~maps/m.map:3: the file that IMAGE names is no pixmap in Netpbm's P6 format of at most 256 by 256 pixels~
explain maps/m.map|MAP SYMBOL NAME s~TYPE PIXMAP~IMAGE none.ppm~END END||1 MapfileFault||fault line 3 kind 7~maps/m.map:3: the file none.ppm, which IMAGE names, can't be read~
# Of several files that can't be read the first is named, after one that can be. A name with a control character isn't shown.
explain|MAP SYMBOL NAME s TYPE PIXMAP~IMAGE p.ppm END~SYMBOL NAME t TYPE PIXMAP IMAGE 'one two.ppm' END~SYMBOL NAME u TYPE PIXMAP IMAGE three.ppm END END||1 MapfileFault||fault line 3 kind 7~m.map:3: the file one two.ppm, which IMAGE names, can't be read~
explain|MAP SYMBOL NAME s TYPE PIXMAP IMAGE 'a\tb' END END||1 MapfileFault||fault line 1 kind 7~m.map:1: the file that IMAGE names can't be read~
explain|MAP SYMBOL NAME s TYPE PIXMAP IMAGE 'a\u{9f}b' END END||1 MapfileFault||fault line 1 kind 7~m.map:1: the file that IMAGE names can't be read~
explain|MAP SYMBOL NAME s TYPE PIXMAP IMAGE 'a\u{a0}b' END END||1 MapfileFault||fault line 1 kind 7~m.map:1: the file a\u{a0}b, which IMAGE names, can't be read~
explain|MAP SYMBOL NAME s TYPE PIXMAP~IMAGE bad.ppm END~SYMBOL NAME t TYPE PIXMAP IMAGE none.ppm END END||1 MapfileFault||fault line 2 kind 10~m.map:2: the file that IMAGE names is no pixmap in Netpbm's P6 format of at most 256 by 256 pixels~
check|MAP SYMBOL NAME s TYPE PIXMAP~IMAGE none.ppm END END||1 MapfileFault||fault line 2 kind 7~
# Mapfiles with the table of a file. Empty lines of a table are no rows.
explain maps/m.map|MAP LAYER NAME a TYPE POINT~DATA p.csv~END END||0 done|ok 1 layers 1 features~|maps/m.map: warning: the service has no wms_onlineresource, and http://localhost/wms? has no port~maps/m.map: warning: LAYER 1 has features and no CLASS~
explain maps/m.map|MAP LAYER NAME a TYPE POINT~DATA bad.csv~END END||1 MapfileFault||fault line 2 kind 10~maps/m.map:2: the file that DATA names is no table of points: row 3: a coordinate that can't be read, or beyond 1,000 degrees: y is \"z\"~
explain maps/m.map|MAP LAYER NAME a TYPE POINT~DATA p.csv PROCESSING CSV_Y=lat~END END||1 MapfileFault||fault line 2 kind 10~maps/m.map:2: the file that DATA names is no table of points: row 1: no column of the coordinates: x and lat are looked for in x,y~
explain maps/m.map|MAP LAYER NAME a TYPE POINT~DATA none.csv~END END||1 MapfileFault||fault line 2 kind 7~maps/m.map:2: the file none.csv, which DATA names, can't be read~
explain|MAP CONFIG LABELFONT f.bdf~END||1 MapfileFault||fault line 1 kind 7~m.map:1: the file f.bdf, which CONFIG names, can't be read~
explain maps/m.map|MAP LAYER NAME a TYPE LINE~DATA p.csv~END END||1 MapfileFault||fault line 2 kind 3~maps/m.map:2: DATA needs a LAYER of TYPE POINT~";

/// Sessions. The last has a fault in the mapfile and one in the script.
pub const SESSIONS: &str = "\
session|MAP END~%%~QUERY a~||0 done|@|
session|MAP END||0 done||
session|MAP END~%%~QUERY a~QUERY b~QUIT~||0 done|fault script 3~|
session|MAP~~~~FOO END~%%~QUERY a~||1 MapfileFault||fault line 5 kind 2~
session|MAP~ LAYER~ TYPE BLOB~%%~||1 MapfileFault||fault line 3 kind 3~
session|MAP~%%~QUIT~||1 MapfileFault||fault line 2 kind 4~";

// Whether a subcommand ends as its row says, however many bytes its streams move at once.
fn is_ended(alloc: Global, line: &str) -> Result<bool, AllocError> {
    let row = spelt(alloc, line)?;
    let (subcommand, mapfile, rest) = columns(row.as_str());
    let (script, expected) = rest.split_once('|').unwrap_or(("", "no row"));
    for at_once in [1, 7, 100_000] {
        let (found, _) = ended(alloc, subcommand, (mapfile, script), at_once, None)?;
        if found.as_str() != expected {
            return Ok(false);
        }
    }
    Ok(true)
}

#[test]
fn subcommands_end_as_they_should(rt: HostRuntime) -> Result<(), TableFault> {
    check_all(rt.alloc(), SUBCOMMANDS, 66, is_ended)
}

#[test]
fn sessions_end_as_they_should(rt: HostRuntime) -> Result<(), TableFault> {
    check_all(rt.alloc(), SESSIONS, 6, is_ended)
}

// The statuses of failures, and the messages of faults.
const FAILURES: &str = "\
SocketFailed 3, OutputFailed 3, FileFailed 1=some
MapfileFault 1, FileFailed 1, ArgumentsRefused 2=refusals
JournalFault 1, JournalFailed 3, WatchFailed 3=journals
InputFailed 3, OutputFailed 3, NoMemory 4=failures
the reader failed, out of memory=messages";

// The statuses of three failures.
fn statuses(alloc: Global, failures: [Failure; 3]) -> Result<String, AllocError> {
    let [one, two, three] = failures;
    format!(in alloc;
        "{one:?} {}, {two:?} {}, {three:?} {}",
        one.status(),
        two.status(),
        three.status()
    )
}

// The text of a row's failures or faults.
fn result_of_row(alloc: Global, row: &str) -> Result<String, AllocError> {
    match row {
        "some" => statuses(
            alloc,
            [
                Failure::SocketFailed,
                Failure::OutputFailed,
                Failure::FileFailed,
            ],
        ),
        "refusals" => statuses(
            alloc,
            [
                Failure::MapfileFault,
                Failure::FileFailed,
                Failure::ArgumentsRefused,
            ],
        ),
        "journals" => statuses(
            alloc,
            [
                Failure::JournalFault,
                Failure::JournalFailed,
                Failure::WatchFailed,
            ],
        ),
        "failures" => statuses(
            alloc,
            [
                Failure::InputFailed,
                Failure::OutputFailed,
                Failure::NoMemory,
            ],
        ),
        _ => format!(in alloc; "{}, {}", ReadFault::Input, ReadFault::NoMemory),
    }
}

#[test]
fn each_failure_has_its_exit_status(rt: HostRuntime) -> Result<(), TableFault> {
    check_rows(rt.alloc(), FAILURES, '=', 5, result_of_row)
}
