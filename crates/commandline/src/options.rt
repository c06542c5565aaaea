use crate::subcommand::{MAX_CHECKPOINT, MAX_IDLE, MAX_TIMEOUT, MAX_WORKERS};

/// An option of `serve`, which is a number.
pub(crate) struct NumberOption<'a> {
    /// Its name, which is after two hyphens.
    pub name: &'a str,
    /// The least that it may be.
    pub least: u32,
    /// The most that it may be.
    pub most: u32,
    /// The text of its default.
    pub default: &'a str,
    /// The name of its number in the help.
    pub value: &'a str,
    /// Its description in the help.
    pub help: &'a str,
}

/// The options of `serve`, in the order of its help.
pub(crate) const SERVE_OPTIONS: [NumberOption<'static>; 7] = [
    NumberOption {
        name: "port",
        least: 0,
        most: 65_535,
        default: "8080",
        value: "PORT",
        help: "Port for clients, 0 for a free one",
    },
    NumberOption {
        name: "connections",
        least: 0,
        most: 4_294_967_295,
        default: "0",
        value: "COUNT",
        help: "Stop after this many connections at each port, 0 for never",
    },
    NumberOption {
        name: "idle",
        least: 1,
        most: MAX_IDLE as u32,
        default: "60000",
        value: "MILLISECONDS",
        help: "How long a connection may be silent between requests",
    },
    NumberOption {
        name: "timeout",
        least: 1,
        most: MAX_TIMEOUT as u32,
        default: "30",
        value: "SECONDS",
        help: "How long a request's head, or an answer that isn't read, may take",
    },
    NumberOption {
        name: "admin-port",
        least: 0,
        most: 65_535,
        default: "8081",
        value: "PORT",
        help: "Port for batches, 0 for a free one",
    },
    NumberOption {
        name: "workers",
        least: 1,
        most: MAX_WORKERS as u32,
        default: "4",
        value: "COUNT",
        help: "Threads that answer clients",
    },
    NumberOption {
        name: "checkpoint",
        least: 0,
        most: MAX_CHECKPOINT,
        default: "0",
        value: "MEGABYTES",
        help: "Compact the journal where it has grown to this size, 0 for never",
    },
];
