use accesslog::{Cause, EndsEarly};
use httpedge::{Outcome, respond};
use std::io::{self, ErrorKind, Write};
use streams::Flagged;
use turns::{MAX_DRAINED_BYTES, READ_BYTES, ReadOutcome, Transport, WriteOutcome};

// A transport that is written to as long as it takes bytes at once.
#[derive(Drop)]
struct AtOnce<'a, T> {
    transport: &'a mut T,
}

impl<T: Transport> Write for AtOnce<'_, T> {
    fn write(&mut self, bytes: &[u8]) -> io::Result<usize> {
        match self.transport.write(bytes, &[]) {
            WriteOutcome::Bytes(count) => Ok(count),
            WriteOutcome::WouldBlock => Err(io::Error::from(ErrorKind::WouldBlock)),
            WriteOutcome::Failed => Err(io::Error::from(ErrorKind::Other)),
        }
    }

    fn flush(&mut self) -> io::Result<()> {
        Ok(())
    }
}

// Reads and drops what a client has sent, as far as it is there: with unread bytes the system would drop the answer.
fn drop_sent<T: Transport>(transport: &mut T) {
    let mut room = [0; READ_BYTES];
    for _ in 0..MAX_DRAINED_BYTES / READ_BYTES {
        if !matches!(transport.read(&mut room), ReadOutcome::Bytes(_)) {
            return;
        }
    }
}

/// Answers a client that the server is busy, as far as its connection takes that without a wait, and drops what it has sent. That is
/// logged.
pub fn turn_away<T: Transport + EndsEarly>(transport: &mut T) {
    let mut writer = Flagged::new(AtOnce { transport });
    if respond(&Outcome::Busy, true, &mut writer).is_ok() {
        transport.shut_down();
        drop_sent(transport);
    }
    transport.note_end(Cause::Busy);
}
