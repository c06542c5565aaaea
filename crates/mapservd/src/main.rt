//! The program. Without arguments it plays a session from standard input: a mapfile, a line of two percent signs, and a
//! script, whose transcript it writes. `check FILE` reads a mapfile and counts the layers and features of its map. `run
//! FILE SCRIPT` plays a script on the map of a mapfile. `serve FILE` answers connections on a port, and takes batches on
//! another. With `--explain` each reports a fault of the mapfile with a message, and the warnings on its map.
//!
//! The proofs are in the crates below: `answer` of `program` performs the command of the arguments, with the files and the
//! ports of a host. It makes the `Ending` that `main` returns. Here the arguments, the streams and the host are those of
//! the machine that the program runs on. No proof covers the bytes that they had or got.
#![tactic(auto)]

use console::Console;
use network::SocketPort;
use program::{Ending, JournalFile, Program, SystemHost, read_arguments};
use std::io::{self, BufWriter};
use streams::Flagged;

fn main(rt: HostRuntime) -> Ending<SocketPort, JournalFile> {
    let Ok(output) = BufWriter::new(rt.alloc(), io::writer(&rt)) else {
        return Ending::without_memory();
    };
    let program = Program {
        rt,
        host: &SystemHost::new(&rt),
    };
    let mut console = Console {
        input: Flagged::new(rt.reader()),
        output: Flagged::new(output),
        errors: Flagged::new(rt.stderr()),
    };
    program.answer(read_arguments(&rt), &mut console)
}
