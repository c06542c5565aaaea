use std::alloc::{AllocError, Global};
use std::sync::OnceLock;

/// What a tape had at a moment: its bytes, and how many of them a crash left at least.
#[derive(Drop)]
pub struct Moment {
    /// The bytes.
    pub bytes: Vec<u8>,
    /// How many of them each crash left.
    pub synced: usize,
}

/// The moments of a tape, for who has given it away, as to a journal that is served. No contract speaks of it.
#[derive(Drop)]
pub struct Recording {
    moments: Vec<OnceLock<Moment>>,
}

impl Recording {
    /// One with room for so many moments.
    pub fn new(alloc: Global, most: usize) -> Result<Self, AllocError> {
        let mut moments = Vec::new(alloc);
        for _ in 0..most {
            moments.push(OnceLock::new())?;
        }
        Ok(Recording { moments })
    }

    // Notes the moment of a number, if there is room for it and it isn't noted.
    pub(crate) fn note(&self, number: usize, moment: Moment) {
        if let Some(noted) = self.moments.get(number) {
            let _ = noted.try_set(moment);
        }
    }

    /// The moment of a number, counted from 0, if it is noted.
    pub fn moment(&self, number: usize) -> Option<&Moment> {
        self.moments.get(number)?.get()
    }
}
