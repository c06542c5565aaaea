ghost use Rattle.std.specs.Prelude.{◌≡◌};

use history::Blank;
use keepers::Nowhere;
use mapdefs::{Items, Map};
use mapmachine::Machine;
use mapshare::{Reader, Retried, Sharing, Submitted, open};
use std::alloc::Global;
use std::marker::Brand;
use std::process::Abort;
use std::sync::Wait;
use std::test::*;
use test_maps::map_fields;

// The sequence that an entry of the reader shows, or 99 where the sharing is closed.
fn entered<S: Sharing>(reader: &mut Reader<S>) -> u64 {
    match reader.enter() {
        Ok(entry) => {
            let sequence = entry.sequence();
            entry.leave();
            sequence
        }
        Err(_) => 99,
    }
}

// The sequence of a receipt, which the reader learns, or 0 where the batch was not published.
fn learned<S: Sharing>(reader: &mut Reader<S>, submitted: Submitted<S>) -> u64 {
    let Submitted::Published(receipt) = submitted else {
        return 0;
    };
    let sequence = receipt.sequence();
    reader.learn(receipt);
    sequence
}

// What two readers see or learn, as sequences.
fn play<S: Sharing, R: AllocGlobal + Wait>(
    rt: &R,
    blank: Blank,
    machine: &Machine,
) -> Option<[u64; 7]>
    requires history { blank.seen.book ≡ S.book }
    requires opening { machine.now ≡ S.opening }
{
    let (admin, mut readers) = open::<S, Nowhere, R>(rt, blank, machine, 2).ok()?;
    let (Some(mut first), Some(mut second)) = (readers.pop(), readers.pop()) else {
        admin.close(rt);
        return None;
    };
    let opened = entered(&mut first);
    let (admin, submitted) = admin.submit(rt, Vec::new(rt.alloc()));
    let receipt = learned(&mut first, submitted);
    let first_after = entered(&mut first);
    let (admin, retried) = admin.retry(rt);
    let idle = match retried {
        Retried::Idle => 1,
        Retried::Published(_) | Retried::Held => 0,
    };
    let second_after = entered(&mut second);
    admin.close(rt);
    let closed = entered(&mut first);
    Some([
        opened,
        receipt,
        first_after,
        idle,
        second_after,
        closed,
        entered(&mut second),
    ])
}

// A map that was opened after five batches gets one more, which the administrator publishes: the reader that learns of
// it sees it, and so does the other. Then nothing is pending, and after the end no reader enters.
#[test]
fn readers_see_what_is_published(rt: HostRuntime) -> Result<(), Fail> {
    let alloc: Global = rt.alloc();
    let machine = Machine::open_at(alloc, Map::new(map_fields(alloc, Items::new(alloc))), 5)?;
    let sequences = play::<Brand, _>(&rt, Blank::new(), &machine);
    assert!(rt; sequences == Some([5, 6, 6, 1, 6, 99, 99]));
    Ok(())
}
