//! Laws of the definitions that the contracts cite. A law is a function without arguments whose contract
//! states it.

ghost use Rattle.commandline.specs.Arguments.{ArgumentsAreTaken, CommandsAreWritten};

/// The commands of arguments: none are a session, `check a.map` is the check of its file, and `run a.map b.txt` the play
/// of the script `b.txt` on the mapfile `a.map`. `serve a.map` is its service with the numbers that follow its options.
/// The defaults are port 8080, 0 connections, which may be silent for 60 seconds, a timeout of 30 seconds, the
/// administration on port 8081, and 4 workers. Each of the three explains a fault where `--explain` is among them, and
/// else not.
pub fn commands_are_written()
    ensures { CommandsAreWritten }
{}

/// The arguments of each command are taken. Those that lack a file, begin with another argument, request help or the
/// version, or have a number beyond its range are refused.
pub fn arguments_are_taken()
    ensures { ArgumentsAreTaken }
{}
