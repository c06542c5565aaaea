//! What wakes a worker: nothing else reports it a connection that comes while it waits.

use eventloop::{Ending, Handover, Wakes};
use std::alloc::Global;
use std::sync::Arc;
use std::sync::atomic::{AtomicU32, Ordering};
use std::test::Fail;

// A waker that counts.
#[derive(Drop)]
struct Counting {
    count: Arc<AtomicU32, Global>,
}

impl Wakes for Counting {
    fn wake(&self) {
        self.count.fetch_add(1, Ordering::SeqCst);
    }
}

#[test]
fn a_worker_is_woken_for_each_connection_and_each_order(rt: HostRuntime) -> Result<(), Fail> {
    let alloc = rt.alloc();
    let count = Arc::new(alloc, AtomicU32::new(0))?;
    let waker = Counting {
        count: Arc::try_clone(&count)?,
    };
    let handover = Handover::new(alloc, waker)?;
    assert_eq!(rt; handover.put(&rt, 31_u8), Ok(()));
    assert_eq!(rt; count.load(Ordering::SeqCst), 1);
    assert_eq!(rt; handover.put(&rt, 32_u8), Ok(()));
    assert_eq!(rt; count.load(Ordering::SeqCst), 2);
    handover.press(&rt);
    assert_eq!(rt; count.load(Ordering::SeqCst), 3);
    handover.end(&rt, Ending::Finishes);
    assert_eq!(rt; count.load(Ordering::SeqCst), 4);
    // in their order, and nobody is woken to take them
    assert_eq!(rt; handover.take(&rt), Some(31));
    assert_eq!(rt; handover.take(&rt), Some(32));
    assert_eq!(rt; handover.take(&rt), None);
    assert_eq!(rt; count.load(Ordering::SeqCst), 4);
    Ok(())
}
