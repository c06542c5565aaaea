// Batches near the limits.

use batches::MAX_BATCH;
use compaction::LastChanges;
use std::alloc::{AllocError, Global};

// A batch of as many bytes as one may have: an ON of a layer, whose name fills it.
fn longest(alloc: Global) -> Result<Vec<u8>, AllocError> {
    let mut batch = vec![in alloc; b'a'; MAX_BATCH]?;
    batch[0] = b'O';
    batch[1] = b'N';
    batch[2] = b' ';
    batch[MAX_BATCH - 1] = b'\n';
    Ok(batch)
}

#[test]
fn the_longest_batch_is_left_or_undone(rt: HostRuntime) -> Result<(), AllocError> {
    let alloc = rt.alloc();
    let batch = longest(alloc)?;
    let mut last = LastChanges::new(alloc);
    last.note(batch.as_slice())?;
    last.note(batch.as_slice())?;
    let mut left = Vec::new(alloc);
    assert_eq!(rt; last.add_left(0, batch.as_slice(), &mut left)?, 1);
    assert!(rt; left.is_empty());
    assert_eq!(rt; last.add_left(1, batch.as_slice(), &mut left)?, 2);
    assert!(rt; left.as_slice() == batch.as_slice());
    Ok(())
}

#[test]
fn commands_are_counted_up_to_the_last_number(rt: HostRuntime) -> Result<(), AllocError> {
    let last = LastChanges::new(rt.alloc());
    let mut left = Vec::new(rt.alloc());
    assert_eq!(rt;
        last.add_left(u64::MAX - 1, b"ON a\n", &mut left)?,
        u64::MAX
    );
    assert_eq!(rt; left.as_slice(), b"ON a\n".as_slice());
    assert_eq!(rt; last.add_left(u64::MAX, b"", &mut left)?, u64::MAX);
    assert!(rt; last.add_left(u64::MAX, b"ON a\n", &mut left).is_err());
    Ok(())
}
