use crate::endings::end_of;
use crate::memory::stream_of;
use crate::shelf::{Counts, Shelf, no_counts};
use crate::texts::{columns, spelt};
use console::Console;
use program::{ArgumentsUnread, Host, Program};
use service::Runtime;
use std::alloc::{AllocError, Global};
use std::str;
use std::sync::Arc;
use std::sync::atomic::Ordering;
use test_tables::{TableFault, check_all, check_rows};

// Arguments with spaces between them, the letters of port 81 and of port 82, and how the program ends. The end has the exit status
// with the failure, the connections of clients that were answered and those that weren't read, and those of administrators that got
// the line that nothing is pending. Then it has how often the wait for an administrator was ended, and that for a client, the output, and the errors. `~` is a line feed, `@` the
// exception of a query without parameters. The session is `MAP END`.
const COMMAND_LINES: &str = "\
||0 done 0 0 0 0 0||
check a.map||0 done 0 0 0 0 0|ok 0 layers 0 features~|
check c.map||1 FileFailed 0 0 0 0 0||fault file c.map~
check s.map||1 MapfileFault 0 0 0 0 0||fault line 2 kind 7~
check --explain s.map||1 MapfileFault 0 0 0 0 0||fault line 2 kind 7~s.map:2: the file p.ppm, which IMAGE names, can't be read: p.ppm is missing~
check --explain maps/n.map||1 MapfileFault 0 0 0 0 0||fault line 3 kind 7~maps/n.map:3: the file q.ppm, which IMAGE names, can't be read: maps/q.ppm is missing~
check maps/n.map||1 MapfileFault 0 0 0 0 0||fault line 3 kind 7~
check --explain l.map||1 MapfileFault 0 0 0 0 0||fault line 2 kind 7~l.map:2: the file locked.map, which CONFIG names, can't be read: locked.map may not be read~
check --explain maps/f.map||1 MapfileFault 0 0 0 0 0||fault line 1 kind 7~maps/f.map:1: the file /maps, which IMAGE names, can't be read: /maps can't be read~
check --explain a.map||0 done 0 0 0 0 0|ok 0 layers 0 features~|a.map: warning: the service has no wms_onlineresource, and http://localhost/wms? has no port~
check maps/s.map||0 done 0 0 0 0 0|ok 0 layers 0 features~|
run a.map b.txt||0 done 0 0 0 0 0|@|
run b.txt a.map||1 MapfileFault 0 0 0 0 0||fault line 1 kind 2~
run --explain a.map b.txt||0 done 0 0 0 0 0|@|a.map: warning: the service has no wms_onlineresource, and http://localhost/wms? has no port~
run --explain b.txt a.map||1 MapfileFault 0 0 0 0 0||fault line 1 kind 2~b.txt:1: QUERY stands where MAP has to begin~
run a.map c.txt||1 FileFailed 0 0 0 0 0||fault file c.txt~
run a.map --explain c.txt||1 FileFailed 0 0 0 0 0||a.map: warning: the service has no wms_onlineresource, and http://localhost/wms? has no port~fault file c.txt~c.txt: the file is missing~
run c.map b.txt||1 FileFailed 0 0 0 0 0||fault file c.map~
run --explain c.map b.txt||1 FileFailed 0 0 0 0 0||fault file c.map~c.map: the file is missing~
check --explain c.map||1 FileFailed 0 0 0 0 0||fault file c.map~c.map: the file is missing~
check --explain locked.map||1 FileFailed 0 0 0 0 0||fault file locked.map~locked.map: the file may not be read~
check locked.map||1 FileFailed 0 0 0 0 0||fault file locked.map~
check --explain maps||1 FileFailed 0 0 0 0 0||fault file maps~maps: the file can't be read~
serve --explain c.map --port 81||1 FileFailed 0 0 0 0 0||fault file c.map~c.map: the file is missing~
run maps/s.map b.txt||0 done 0 0 0 0 0|@|
serve a.map||3 ListenFailed { port: 8080, cause: Taken } 0 0 0 0 0||
serve a.map --port 81||3 ListenFailed { port: 8081, cause: Other } 0 0 0 0 0||
serve a.map --admin-port 82||3 ListenFailed { port: 8080, cause: Taken } 0 0 0 0 0||
serve s.map --port 81 --admin-port 82||1 MapfileFault 0 0 0 0 0||fault line 2 kind 7~
serve --explain s.map --port 81 --admin-port 82||1 MapfileFault 0 0 0 0 0||fault line 2 kind 7~s.map:2: the file p.ppm, which IMAGE names, can't be read: p.ppm is missing~
serve a.map --port 81 --admin-port 82 --connections 1 --explain|c r|0 done 1 0 1 0 0|listening a port another port~|a.map: warning: the service has no wms_onlineresource, and http://localhost/wms? has no port~
serve --explain a.map||3 ListenFailed { port: 8080, cause: Taken } 0 0 0 0 0||a.map: warning: the service has no wms_onlineresource, and http://localhost/wms? has no port~error: port 8080 of 127.0.0.1 is taken~
serve --explain a.map --port 80||3 ListenFailed { port: 80, cause: NotAllowed } 0 0 0 0 0||a.map: warning: the service has no wms_onlineresource, and http://localhost/wms? has no port~error: port 80 of 127.0.0.1 may not be listened on~
serve --explain a.map --port 81||3 ListenFailed { port: 8081, cause: Other } 0 0 0 0 0||a.map: warning: the service has no wms_onlineresource, and http://localhost/wms? has no port~error: port 8081 of 127.0.0.1 can't be listened on~
serve --explain a.map --port 81 --admin-port 82|ccxc w|3 SocketFailed 3 1 0 1 0|listening a port another port~|a.map: warning: the service has no wms_onlineresource, and http://localhost/wms? has no port~error: a port gives no connections, or a thread can't be started~
serve maps/s.map --port 81 --admin-port 82 --connections 3|cfxffc rfxffr|0 done 2 1 2 0 0|listening a port another port~|
serve a.map --port 81 --admin-port 82 --connections 1|fffc r|0 done 1 0 1 0 0|listening a port another port~|
serve a.map --port 81 --admin-port 82 --connections 5 --workers 1|cxccc rrrrr|0 done 4 1 5 0 0|listening a port another port~|
serve a.map --port 81 --admin-port 82 --connections 5 --workers 32|cxccc rrrrr|0 done 4 1 5 0 0|listening a port another port~|
# a port of clients that is given up ends the wait for an administrator, too
serve a.map --port 81 --admin-port 82|ccxc w|3 SocketFailed 3 1 0 1 0|listening a port another port~|
serve a.map --port 81 --admin-port 82|ccxc rw|3 SocketFailed 3 1 1 1 0|listening a port another port~|
# one of administrators whose wait can't be ended: nothing is served
serve a.map --port 81 --admin-port 82|c -|3 SocketFailed 0 0 0 0 0||
# the end of the input ends the wait for a client, and then that for an administrator
serve a.map --port 81 --admin-port 82 --until-input-ends|w w|0 done 0 0 0 1 1|listening a port another port~|
# one of administrators that gives no connection is asked again, up to the end of the clients
serve a.map --port 81 --admin-port 82 --connections 2|cc rf|0 done 2 0 1 0 0|listening a port another port~|
serve a.map --port 81 --admin-port 82 --connections 2|cc|0 done 2 0 0 0 0|listening a port another port~|
serve a.map --port 81 --admin-port 82 --connections 2|cc rfr|0 done 2 0 2 0 0|listening a port another port~|
serve a.map --port 81 --admin-port 82 --connections 1|c ffffffr|0 done 1 0 1 0 0|listening a port another port~|";

/// The arguments of a line, as the program gets them.
pub fn arguments_of(alloc: Global, line: &str) -> Result<Vec<String>, AllocError> {
    let mut arguments = Vec::new(alloc);
    for argument in line.split_whitespace() {
        arguments.push(String::from_str(alloc, argument)?)?;
    }
    Ok(arguments)
}

// The five numbers.
fn result_of_counts(alloc: Global, counts: &Counts) -> Result<String, AllocError> {
    let (answered, unread) = (&counts.answered, &counts.unread);
    let (idle, woken) = (&counts.idle, &counts.woken);
    format!(in alloc;
        "{} {} {} {} {}",
        answered.load(Ordering::SeqCst),
        unread.load(Ordering::SeqCst),
        idle.load(Ordering::SeqCst),
        woken.load(Ordering::SeqCst),
        counts.stopped.load(Ordering::SeqCst)
    )
}

/// How the program ends on a host, and the output and the errors with `|` between them. The input is a mapfile without layers.
pub(crate) fn run_on<R: Runtime, H: Host>(
    rt: &R,
    host: &H,
    arguments: Result<Vec<String>, ArgumentsUnread>,
) -> Result<(String, String), AllocError> {
    let alloc = rt.alloc();
    let program = Program { rt: *rt, host };
    let mut console = Console {
        input: stream_of(alloc, "MAP END", 7, None),
        output: stream_of(alloc, "", 7, None),
        errors: stream_of(alloc, "", 7, None),
    };
    let ending = program.answer(arguments, &mut console);
    let end = end_of(alloc, ending.outcome())?;
    let (output, errors) = (console.output.into_inner(), console.errors.into_inner());
    let written = format!(in alloc;
        "{}|{}",
        str::from_utf8(&output.held).unwrap_or("?"),
        str::from_utf8(&errors.held).unwrap_or("?")
    )?;
    Ok((end, written))
}

/// How the program ends on a host whose ports have those letters, what the host counted, and the output and the errors
/// with `|` between them. The input is a mapfile without layers.
pub(crate) fn run_program<R: Runtime>(
    rt: &R,
    system: &HostRuntime,
    arguments: Result<Vec<String>, ArgumentsUnread>,
    letters: &str,
) -> Result<(String, Arc<Counts>, String), AllocError> {
    let alloc = rt.alloc();
    let counts = no_counts(alloc)?;
    let (clients, administration) = letters.split_once(' ').unwrap_or((letters, ""));
    let host = Shelf {
        rt: *system,
        alloc,
        clients,
        administration,
        counts: Arc::try_clone(&counts)?,
    };
    let (end, written) = run_on(rt, &host, arguments)?;
    Ok((end, counts, written))
}

// The same as one text.
fn ended<R: Runtime>(
    rt: &R,
    system: &HostRuntime,
    arguments: Result<Vec<String>, ArgumentsUnread>,
    letters: &str,
) -> Result<String, AllocError> {
    let (end, counts, written) = run_program(rt, system, arguments, letters)?;
    let counts = result_of_counts(rt.alloc(), &counts)?;
    format!(in rt.alloc(); "{end} {counts}|{written}")
}

// Whether the program ends as a row says.
fn is_ended<R: Runtime>(rt: &R, system: &HostRuntime, line: &str) -> Result<bool, AllocError> {
    let alloc = rt.alloc();
    let row = spelt(alloc, line)?;
    let (arguments, letters, expected) = columns(row.as_str());
    let arguments = arguments_of(alloc, arguments)?;
    let found = ended(rt, system, Ok(arguments), letters)?;
    Ok(found.as_str() == expected)
}

#[test]
fn arguments_are_answered_with_the_files_of_a_host(rt: HostRuntime) -> Result<(), TableFault> {
    check_all(
        rt.alloc(),
        COMMAND_LINES,
        47,
        |_, line| is_ended(&rt, &rt, line),
    )
}

// The end of a program whose arguments can't be read, and the message on them.
fn result_of_row<R: Runtime>(
    rt: &R,
    system: &HostRuntime,
    row: &str,
) -> Result<String, AllocError> {
    let unread = match row {
        "text" => ArgumentsUnread::NoText,
        _ => ArgumentsUnread::NoMemory,
    };
    let ended = ended(rt, system, Err(unread), "")?;
    let alloc = rt.alloc();
    format!(in alloc; "{unread}: {}", ended.replace(alloc, '\n', "~")?)
}

const UNREAD: &str = "\
an argument is not UTF-8: 2 ArgumentsRefused 0 0 0 0 0||error: an argument is not UTF-8~=text
out of memory: 4 NoMemory 0 0 0 0 0||=memory";

#[test]
fn arguments_that_cant_be_read_are_refused(rt: HostRuntime) -> Result<(), TableFault> {
    check_rows(
        rt.alloc(),
        UNREAD,
        '=',
        2,
        |_, row| result_of_row(&rt, &rt, row),
    )
}

// The message where the output fails at its first call.
fn message_on_output<R: Runtime>(
    rt: &R,
    system: &HostRuntime,
    line: &str,
) -> Result<String, AllocError> {
    let alloc = rt.alloc();
    let host = Shelf {
        rt: *system,
        alloc,
        clients: "w",
        administration: "",
        counts: no_counts(alloc)?,
    };
    let program = Program {
        rt: *rt,
        host: &host,
    };
    let mut console = Console {
        input: stream_of(alloc, "", 7, None),
        output: stream_of(alloc, "", 7, Some(0)),
        errors: stream_of(alloc, "", 7, None),
    };
    let ending = program.answer(Ok(arguments_of(alloc, line)?), &mut console);
    let end = end_of(alloc, ending.outcome())?;
    let errors = console.errors.into_inner();
    let errors = String::from_str(alloc, str::from_utf8(&errors.held).unwrap_or("?"))?;
    format!(in alloc; "{end}: {}", errors.replace(alloc, '\n', "~")?)
}

const FAILING: &str = "\
3 OutputFailed: =check a.map
3 OutputFailed: error: standard output can't be written~=check --explain a.map
3 OutputFailed: =serve a.map --port 81 --admin-port 82";

#[test]
fn an_output_that_fails_is_named(rt: HostRuntime) -> Result<(), TableFault> {
    check_rows(
        rt.alloc(),
        FAILING,
        '=',
        3,
        |_, line| message_on_output(&rt, &rt, line),
    )
}
