ghost use Rattle.std.specs.Prelude.{◌≡◌};

use crate::calls::{Calls, HEAD};
use crate::maps::machine;
use blocking::{Gate, work};
use history::Blank;
use keepers::Nowhere;
use mapmachine::Machine;
use mapshare::{Sharing, open};
use std::alloc::{AllocError, Global};
use std::marker::Brand;
use std::sync::atomic::{AtomicU64, Ordering};
use std::sync::{Arc, Wait};
use std::thread::{self, Threads};
use std::time::Duration;
use test_tables::{TableFault, check_rows};

// A gate that holds the first connection until the second is answered, for ten seconds at most.
#[derive(Drop)]
struct Meeting {
    rt: HostRuntime,
    answered: AtomicU64,
    met: AtomicU64,
}

impl Gate for Meeting {
    fn asked(&self, number: u64) {
        if number != 1 {
            return;
        }
        for _ in 0..10_000 {
            if self.answered.load(Ordering::SeqCst) > 0 {
                self.met.store(1, Ordering::SeqCst);
                return;
            }
            thread::sleep(&self.rt, Duration::from_millis(1));
        }
    }

    fn answered(&self, number: u64) {
        if number == 2 {
            self.answered.store(1, Ordering::SeqCst);
        }
    }
}

// Serves connections by two readers of the map of a machine, and returns whether that was possible.
fn served<S, R, G>(
    rt: &R,
    blank: Blank,
    machine: &Machine,
    calls: &mut Calls,
    gate: &Arc<G, Global>,
) -> bool
where
    S: Sharing + Send + Sync + 'static,
    R: AllocGlobal + Wait + Threads + Send + Copy + Drop + 'static,
    G: Gate + Send + Sync + Drop + 'static,
    requires history { blank.seen.book ≡ S.book }
    requires opening { machine.now ≡ S.opening }
{
    match open::<S, Nowhere, R>(rt, blank, machine, 2) {
        Ok((admin, readers)) => {
            let done = work(rt, readers, calls, gate);
            admin.close(rt);
            done.is_ok()
        }
        Err(_) => false,
    }
}

// The ends of two connections of two readers, of which the first is held at the gate: whether they were served, whether the
// first saw that the second was answered, and both.
fn result_of_meeting<R>(rt: &R, system: &HostRuntime) -> Result<String, AllocError>
where
    R: AllocGlobal + Wait + Threads + Send + Copy + Drop + 'static,
{
    let alloc = rt.alloc();
    let gate = Meeting {
        rt: *system,
        answered: AtomicU64::new(0),
        met: AtomicU64::new(0),
    };
    let gate = Arc::new(alloc, gate)?;
    let mut calls = Calls::new(alloc);
    calls.add(HEAD, 7, false, usize::MAX)?;
    calls.add(HEAD, 7, false, usize::MAX)?;
    let machine = machine(alloc)?;
    let done = served::<Brand, R, Meeting>(rt, Blank::new(), &machine, &mut calls, &gate);
    format!(in alloc;
        "{done} {} {} {}",
        gate.met.load(Ordering::SeqCst),
        calls.end_of(1)?,
        calls.end_of(2)?
    )
}

#[test]
fn two_readers_answer_at_once(rt: HostRuntime) -> Result<(), TableFault> {
    check_rows(rt.alloc(), "true 1 kept kept|", '|', 1, |_, _| {
        result_of_meeting(&rt, &rt)
    })
}
