use crate::texts::columns;
use commandline::{Command, Service, WordsFault, command};
use std::alloc::{AllocError, Global};
use test_tables::{TableFault, check_all, check_rows};

// The text of a command's flag.
fn ending(explains: bool) -> &'static str {
    if explains { " explained" } else { "" }
}

// The text of a service's flags.
fn flags_of(service: Service) -> &'static str {
    match (service.until_input_ends, service.logs) {
        (true, true) => " until its input ends with a log",
        (true, false) => " until its input ends",
        (false, true) => " with a log",
        (false, false) => "",
    }
}

// From where on a journal is compacted, if it is.
fn compacted_at(alloc: Global, megabytes: u32) -> Result<String, AllocError> {
    match megabytes {
        0 => Ok(String::new(alloc)),
        _ => format!(in alloc; ", compacted at {megabytes} MB"),
    }
}

// The options of a service beside its port and its connections.
fn rest_of(alloc: Global, service: Service) -> Result<String, AllocError> {
    format!(in alloc;
        ", idle {}, timeout {}, batches on {} and {} workers{}{}",
        service.idle,
        service.timeout,
        service.admin_port,
        service.workers,
        compacted_at(alloc, service.checkpoint)?,
        flags_of(service)
    )
}

// The journal that keeps batches.
fn kept_in(alloc: Global, journal: Option<&str>) -> Result<String, AllocError> {
    match journal {
        Some(path) => format!(in alloc; " kept in {path}"),
        None => Ok(String::new(alloc)),
    }
}

// The command of some arguments, or why they were refused.
fn described(alloc: Global, arguments: &[&str]) -> Result<String, AllocError> {
    match command(alloc, arguments) {
        Ok(Command::Session) => String::from_str(alloc, "a session"),
        Ok(Command::Check { file, explains }) => {
            format!(in alloc; "check {file}{}", ending(explains))
        }
        Ok(
            Command::Run {
                file,
                script,
                explains,
            },
        ) => format!(in alloc; "run {file} and then {script}{}", ending(explains)),
        Ok(
            Command::Serve {
                file,
                explains,
                service,
                journal,
            },
        ) => format!(in alloc;
            "serve {file} on {} for {}{}{}{}",
            service.port,
            service.connections,
            rest_of(alloc, service)?,
            kept_in(alloc, journal)?,
            ending(explains)
        ),
        Err(WordsFault::Refused { text }) => Ok(text),
        Err(WordsFault::NoMemory) => Err(AllocError),
    }
}

// Arguments with spaces between them, and their command or the message on them, with `~` for a line feed.
const ARGUMENTS: &str = "\
|a session
check m.map|check m.map
run a b|run a and then b
run same same|run same and then same
check run|check run
check -- -m|check -m
check --explain m.map|check m.map explained
check m.map --explain|check m.map explained
check -- --explain|check --explain
check --explain|error: the following required arguments were not provided:~  <FILE>~~Usage: mapservd check --explain <FILE>~~For more information, try '--help'.~
check --explain=no m.map|error: unexpected value 'no' for '--explain' found; no more were expected~~Usage: mapservd check --explain <FILE>~~For more information, try '--help'.~
run --explain a b|run a and then b explained
run a --explain b|run a and then b explained
run a b --explain|run a and then b explained
run a -- --explain|run a and then --explain
run --explain a|error: the following required arguments were not provided:~  <SCRIPT>~~Usage: mapservd run --explain <FILE> <SCRIPT>~~For more information, try '--help'.~
run --verbose a b|error: unexpected argument '--verbose' found~~  tip: to pass '--verbose' as a value, use '-- --verbose'~~Usage: mapservd run [OPTIONS] <FILE> <SCRIPT>~~For more information, try '--help'.~
check|error: the following required arguments were not provided:~  <FILE>~~Usage: mapservd check <FILE>~~For more information, try '--help'.~
run a|error: the following required arguments were not provided:~  <SCRIPT>~~Usage: mapservd run <FILE> <SCRIPT>~~For more information, try '--help'.~
check a b|error: unexpected argument 'b' found~~Usage: mapservd check [OPTIONS] <FILE>~~For more information, try '--help'.~
run a b c|error: unexpected argument 'c' found~~Usage: mapservd run [OPTIONS] <FILE> <SCRIPT>~~For more information, try '--help'.~
m.map|error: unrecognized subcommand 'm.map'~~Usage: mapservd [COMMAND]~~For more information, try '--help'.~
serve m.map|serve m.map on 8080 for 0, idle 60000, timeout 30, batches on 8081 and 4 workers
serve m.map --port 0 --connections 4294967295|serve m.map on 0 for 4294967295, idle 60000, timeout 30, batches on 8081 and 4 workers
serve --connections 2 m.map --port 65535|serve m.map on 65535 for 2, idle 60000, timeout 30, batches on 8081 and 4 workers
serve m.map --timeout 3600 --idle 60000|serve m.map on 8080 for 0, idle 60000, timeout 3600, batches on 8081 and 4 workers
serve --idle 1 --timeout 1 m.map|serve m.map on 8080 for 0, idle 1, timeout 1, batches on 8081 and 4 workers
serve --explain m.map|serve m.map on 8080 for 0, idle 60000, timeout 30, batches on 8081 and 4 workers explained
serve m.map --port 0 --explain --idle 5|serve m.map on 0 for 0, idle 5, timeout 30, batches on 8081 and 4 workers explained
serve --explain --explain m.map|error: the argument '--explain' cannot be used multiple times~~Usage: mapservd serve [OPTIONS] <FILE>~~For more information, try '--help'.~
serve m.map --admin-port 0 --workers 32|serve m.map on 8080 for 0, idle 60000, timeout 30, batches on 0 and 32 workers
serve --workers 1 --admin-port 65535 m.map|serve m.map on 8080 for 0, idle 60000, timeout 30, batches on 65535 and 1 workers
serve m.map --until-input-ends|serve m.map on 8080 for 0, idle 60000, timeout 30, batches on 8081 and 4 workers until its input ends
serve m.map --log|serve m.map on 8080 for 0, idle 60000, timeout 30, batches on 8081 and 4 workers with a log
serve m.map --log --until-input-ends|serve m.map on 8080 for 0, idle 60000, timeout 30, batches on 8081 and 4 workers until its input ends with a log
serve m.map --journal a.journal|serve m.map on 8080 for 0, idle 60000, timeout 30, batches on 8081 and 4 workers kept in a.journal
serve --journal b.journal --explain m.map|serve m.map on 8080 for 0, idle 60000, timeout 30, batches on 8081 and 4 workers kept in b.journal explained
serve m.map --checkpoint 64 --journal a.journal|serve m.map on 8080 for 0, idle 60000, timeout 30, batches on 8081 and 4 workers, compacted at 64 MB kept in a.journal
serve m.map --checkpoint 1000001|error: invalid value '1000001' for '--checkpoint <MEGABYTES>': 1000001 is not in 0..=1000000~~For more information, try '--help'.~
serve m.map --journal|error: a value is required for '--journal <JOURNAL>' but none was supplied~~For more information, try '--help'.~
serve m.map --workers 0|error: invalid value '0' for '--workers <COUNT>': 0 is not in 1..=32~~For more information, try '--help'.~
serve m.map --workers 33|error: invalid value '33' for '--workers <COUNT>': 33 is not in 1..=32~~For more information, try '--help'.~
serve m.map --admin-port 65536|error: invalid value '65536' for '--admin-port <PORT>': 65536 is not in 0..=65535~~For more information, try '--help'.~
serve m.map --idle 0|error: invalid value '0' for '--idle <MILLISECONDS>': 0 is not in 1..=60000~~For more information, try '--help'.~
serve m.map --timeout 3601|error: invalid value '3601' for '--timeout <SECONDS>': 3601 is not in 1..=3600~~For more information, try '--help'.~
serve m.map --port 65536|error: invalid value '65536' for '--port <PORT>': 65536 is not in 0..=65535~~For more information, try '--help'.~
serve m.map --connections 4294967296|error: invalid value '4294967296' for '--connections <COUNT>': 4294967296 is not in 0..=4294967295~~For more information, try '--help'.~
draw m.map|error: unrecognized subcommand 'draw'~~Usage: mapservd [COMMAND]~~For more information, try '--help'.~
CHECK a|error: unrecognized subcommand 'CHECK'~~Usage: mapservd [COMMAND]~~For more information, try '--help'.~
--port 80|error: unexpected argument '--port' found~~Usage: mapservd [COMMAND]~~For more information, try '--help'.~
check --help|Check a mapfile, and count its layers and features~~Usage: mapservd check [OPTIONS] <FILE>~~Arguments:~  <FILE>  The mapfile~~Options:~      --explain  Explain the mapfile's first fault, or print warnings~  -h, --help     Print help~
run --help|Run a script against a map~~Usage: mapservd run [OPTIONS] <FILE> <SCRIPT>~~Arguments:~  <FILE>    The mapfile~  <SCRIPT>  The script: queries and batches~~Options:~      --explain  Explain the mapfile's first fault, or print warnings~  -h, --help     Print help~
serve --help|Serve the map over HTTP on 127.0.0.1~~Usage: mapservd serve [OPTIONS] <FILE>~~Arguments:~  <FILE>  The mapfile~~Options:~      --explain                 Explain the mapfile's first fault, or print warnings~      --port <PORT>             Port for clients, 0 for a free one [default: 8080]~      --connections <COUNT>     Stop after this many connections at each port, 0 for never [default: 0]~      --idle <MILLISECONDS>     How long a connection may be silent between requests [default: 60000]~      --timeout <SECONDS>       How long a request's head, or an answer that isn't read, may take [default: 30]~      --admin-port <PORT>       Port for batches, 0 for a free one [default: 8081]~      --workers <COUNT>         Threads that answer clients [default: 4]~      --checkpoint <MEGABYTES>  Compact the journal where it has grown to this size, 0 for never [default: 0]~      --until-input-ends        End when standard input does, once those being answered have their answers~      --log                     Log each answer and each batch in a line of standard error~      --journal <JOURNAL>       Journal that keeps batches, so that they outlive the program; made where it isn't there~  -h, --help                    Print help~
--help|Serve maps by WMS. Without a command, play a session from standard input~~Usage: mapservd [COMMAND]~~Commands:~  check  Check a mapfile, and count its layers and features~  run    Run a script against a map~  serve  Serve the map over HTTP on 127.0.0.1~  help   Print this message or the help of the given subcommand(s)~~Options:~  -h, --help     Print help~  -V, --version  Print version~
--version|mapservd 0.1.0, rules of 2026-12-01, proved by logic dac8208d650f15bf~
-V|mapservd 0.1.0, rules of 2026-12-01, proved by logic dac8208d650f15bf~
check --version|error: unexpected argument '--version' found~~  tip: to pass '--version' as a value, use '-- --version'~~Usage: mapservd check [OPTIONS] <FILE>~~For more information, try '--help'.~";

// Whether arguments give the command of their row.
fn is_command(alloc: Global, row: &str) -> Result<bool, AllocError> {
    let (line, expected, _) = columns(row);
    let expected = expected.replace(alloc, '~', "\n")?;
    let arguments: Vec<&str> = line.split_whitespace().collect(alloc)?;
    Ok(described(alloc, &arguments)?.as_str() == expected.as_str())
}

#[test]
fn arguments_mean_their_commands(rt: HostRuntime) -> Result<(), TableFault> {
    check_all(rt.alloc(), ARGUMENTS, 57, is_command)
}

// The messages on arguments that were refused with this text, and on those for which there was no memory.
fn refusals(alloc: Global, text: &str) -> Result<String, AllocError> {
    let text = String::from_str(alloc, text)?;
    let refused = WordsFault::Refused { text };
    let messages = format!(in alloc; "{refused}, {}", WordsFault::NoMemory);
    drop(refused);
    messages
}

#[test]
fn refusals_print_their_text(rt: HostRuntime) -> Result<(), TableFault> {
    let row = "no such command, out of memory=no such command";
    check_rows(rt.alloc(), row, '=', 1, refusals)
}
