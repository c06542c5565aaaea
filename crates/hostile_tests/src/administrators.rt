ghost use Rattle.std.specs.Prelude.{◌≡◌};

use crate::inputs::{ADMINISTRATOR, ADMINISTRATOR_ROWS};
use crate::made::tally_of;
use crate::maps::some_machine;
use crate::tally::Tally;
use administration::{Client, administer};
use history::Blank;
use keepers::Nowhere;
use mapmachine::Machine;
use mapshare::{Sharing, open};
use std::alloc::{AllocError, Global};
use std::marker::Brand;
use std::sync::Wait;
use streams::Flagged;
use test_tables::{TableFault, check_rows};

// The lines that answer an administrator of a machine who sends these bytes.
fn answered<S: Sharing, R: AllocGlobal + Wait>(
    rt: &R,
    alloc: Global,
    machine: &Machine,
    bytes: &[u8],
    blank: Blank,
) -> Result<Vec<u8>, AllocError>
    requires history { blank.seen.book ≡ S.book }
    requires opening { machine.now ≡ S.opening }
{
    let Ok((admin, _readers)) = open::<S, Nowhere, R>(rt, blank, machine, 1) else {
        return Err(AllocError);
    };
    let mut client = Client {
        reader: Flagged::new(bytes),
        writer: Flagged::new(Vec::new(alloc)),
    };
    let (admin, served) = administer(rt, admin, &mut client);
    admin.close(rt);
    match served {
        Ok(()) => Ok(client.writer.into_inner()),
        Err(_) => Err(AllocError),
    }
}

// The outcome that a line reports, and its command where it is refused.
fn add_line(line: &str, tally: &mut Tally) {
    let mut parts = line.split(' ');
    let first = parts.next();
    let number = parts.next().and_then(|part| part.parse::<u64>().ok());
    match first {
        Some("PUBLISHED") => tally.add(0, 0),
        Some("REFUSED") => tally.add(1, number.unwrap_or(0)),
        Some("IDLE") => tally.add(2, 0),
        Some("MALFORMED") => tally.add(3, 0),
        _ => tally.add(4, 0),
    }
}

fn add_answers<R: AllocGlobal + Wait>(
    rt: &R,
    alloc: Global,
    bytes: &[u8],
    tally: &mut Tally,
) -> Result<(), AllocError> {
    let machine = some_machine(alloc)?;
    let lines = answered::<Brand, R>(rt, alloc, &machine, bytes, Blank::new())?;
    for line in str::from_utf8(lines.as_slice()).unwrap_or("?").lines() {
        add_line(line, tally);
    }
    Ok(())
}

fn result_of_row<R: AllocGlobal + Wait>(
    rt: &R,
    alloc: Global,
    way: &str,
) -> Result<String, AllocError> {
    tally_of(alloc, ADMINISTRATOR, way, |alloc, bytes, tally| {
        add_answers(rt, alloc, bytes, tally)
    })
}

#[test]
fn administrators_have_their_lines(rt: HostRuntime) -> Result<(), TableFault> {
    check_rows(rt.alloc(), ADMINISTRATOR_ROWS, '=', 7, |alloc, way| {
        result_of_row(&rt, alloc, way)
    })
}
