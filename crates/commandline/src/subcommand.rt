/// The command of the program's arguments.
#[derive(Clone, Copy)]
pub enum Command<'a> {
    /// To play a session from standard input. There are no arguments.
    Session,
    /// To check a mapfile, and count its layers and features.
    Check {
        /// Its name.
        file: &'a str,
        /// Its fault is explained, or warnings on its map are printed.
        explains: bool,
    },
    /// To play a script on the map of a mapfile.
    Run {
        /// The name of the mapfile.
        file: &'a str,
        /// The name of the script.
        script: &'a str,
        /// The mapfile's fault is explained, or warnings on its map are printed.
        explains: bool,
    },
    /// To serve the map of a mapfile on a port.
    Serve {
        /// The name of the mapfile.
        file: &'a str,
        /// The mapfile's fault is explained, or warnings on its map are printed.
        explains: bool,
        /// The options of the service.
        service: Service,
        /// The name of the journal that keeps its batches, if they are kept.
        journal: Option<&'a str>,
    },
}

/// For how many milliseconds a connection may be idle at most.
pub const MAX_IDLE: u16 = 60_000;

/// How many seconds a head, or an answer, may take at most.
pub const MAX_TIMEOUT: u16 = 3_600;

/// How many workers answer connections at most.
pub const MAX_WORKERS: u16 = 32;

/// From how many megabytes on a journal is compacted at most.
pub const MAX_CHECKPOINT: u32 = 1_000_000;

/// The options of a service.
#[derive(Clone, Copy)]
pub struct Service {
    /// The port, 0 for one that is free.
    pub port: u16,
    /// How many connections are answered, 0 without an end.
    pub connections: u32,
    /// How many milliseconds a connection may be silent between requests, 1 to `MAX_IDLE`.
    pub idle: u16,
    /// How many seconds a head that has begun, and an answer, may take, 1 to `MAX_TIMEOUT`.
    pub timeout: u16,
    /// The port for batches, 0 for one that is free.
    pub admin_port: u16,
    /// How many workers answer the connections of clients, 1 to `MAX_WORKERS`.
    pub workers: u16,
    /// From how many megabytes on a journal is compacted, up to `MAX_CHECKPOINT`, 0 for never.
    pub checkpoint: u32,
    /// The service ends when standard input does.
    pub until_input_ends: bool,
    /// Each answer, each batch and each connection that is given up is logged in a line of standard error.
    pub logs: bool,
}
