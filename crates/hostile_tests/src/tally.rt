use std::alloc::{AllocError, Global};

/// How many inputs have each outcome, and the sum of the lines of their faults.
#[derive(Drop)]
pub struct Tally {
    counts: [u64; 11],
    lines: u64,
}

impl Tally {
    /// The tally of no input.
    pub fn new() -> Self {
        Tally {
            counts: [0; 11],
            lines: 0,
        }
    }

    /// Counts an outcome with its line, which is 0 where it has none.
    pub fn add(&mut self, outcome: u8, line: u64) {
        if let Some(count) = self.counts.get_mut(outcome as usize) {
            *count = count.saturating_add(1);
        }
        self.lines = self.lines.saturating_add(line);
    }

    /// The counts from that of the outcome 0 on, and the sum of the lines.
    pub fn text(&self, alloc: Global) -> Result<String, AllocError> {
        let mut text = String::new(alloc);
        for (outcome, count) in self.counts.iter().enumerate() {
            if outcome > 0 {
                text.push(' ')?;
            }
            write!(text, "{count}")?;
        }
        write!(text, "; {}", self.lines)?;
        Ok(text)
    }
}
