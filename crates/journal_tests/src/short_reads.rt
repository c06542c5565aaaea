ghost use Rattle.std.specs.Prelude.{[]};

use journalfile::Log;
use keepers::LogCause;
use std::io::Read;

/// A log in memory. Each read returns so many bytes at most, and the read of a number fails, counted from 0. Nothing is proved of it.
#[derive(Drop)]
pub struct ShortReads {
    pub bytes: Vec<u8>,
    pub most: usize,
    pub reads: usize,
    pub failing: Option<usize>,
}

impl Log for ShortReads {
    type Failure = LogCause;

    ghost reliable = { ⊥ };

    ghost content = { λ _. [] };

    ghost may_leave = { λ _ _. Unit {0} };

    ghost moment = { λ _. 0 };

    ghost left_since = { λ _ _ _. Unit {0} };

    ghost garbled = { λ _. Unit {0} };

    ghost counts_now = { λ reliable. absurd reliable };

    ghost only_now = { λ reliable. absurd reliable };

    fn read_at(&mut self, offset: usize, room: &mut [u8]) -> Result<usize, LogCause> {
        let is_failing = self.failing == Some(self.reads);
        self.reads = self.reads.saturating_add(1);
        if is_failing {
            return Err(LogCause::Other);
        }
        let most = self.most.min(room.len());
        let mut left = self.bytes.get(offset..).unwrap_or(&[]);
        left.read(&mut room[..most]).map_err(|_| LogCause::Other)
    }

    fn append(&mut self, bytes: &[u8]) -> Result<(), LogCause> {
        self.bytes
            .extend_from_slice(bytes)
            .map_err(|_| LogCause::Other)
    }

    fn cut(&mut self, end: usize) -> Result<(), LogCause> {
        self.bytes.truncate(end);
        Ok(())
    }

    fn sync(&mut self) -> Result<(), LogCause> {
        Ok(())
    }
}
