//! The batches of the records of a journal.

use journal::{JournalName, after_header, decode, first_frame};
use std::alloc::{AllocError, Global};

/// The batches of up to ten records that some bytes begin with, after the header of the journal of this name. There are none without
/// that header.
pub fn recorded_batches(
    alloc: Global,
    name: &JournalName,
    bytes: &[u8],
) -> Result<Vec<Vec<u8>>, AllocError> {
    let mut batches = Vec::new(alloc);
    let mut rest = match after_header(&name.fingerprint, bytes) {
        Ok((found, rest)) if found == *name => rest,
        _ => return Ok(batches),
    };
    for number in 1..=10 {
        let Some((&[], after)) = first_frame(rest) else {
            return Ok(batches);
        };
        let Some((frame, next)) = first_frame(after) else {
            return Ok(batches);
        };
        let Some(batch) = decode(alloc, name, number, frame)? else {
            return Ok(batches);
        };
        batches.push(batch)?;
        rest = next;
    }
    Ok(batches)
}
