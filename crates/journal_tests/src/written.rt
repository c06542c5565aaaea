//! Batches and journals as texts.

use journal::{JournalName, push_header, push_record};
use std::alloc::{AllocError, Global};

/// The batches of a text, one a line. An LF within one is written `~`.
pub fn batches_of(alloc: Global, text: &str) -> Result<Vec<Vec<u8>>, AllocError> {
    let mut batches = Vec::new(alloc);
    for line in text.split('\n') {
        let batch = line.replace(alloc, '~', "\n")?;
        batches.push(Vec::from_slice(alloc, batch.as_str().as_bytes())?)?;
    }
    Ok(batches)
}

/// The journal of this name and of the batches of a text.
pub fn journal_of(alloc: Global, name: &JournalName, text: &str) -> Result<Vec<u8>, AllocError> {
    let mut bytes = Vec::new(alloc);
    push_header(&mut bytes, name)?;
    for (at, batch) in batches_of(alloc, text)?.iter().enumerate() {
        push_record(&mut bytes, name, at as u64 + 1, batch.as_slice())?;
    }
    Ok(bytes)
}
