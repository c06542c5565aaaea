ghost use Rattle.std.specs.Prelude.{◌≡◌};

use crate::maps::machine;
use history::Blank;
use httpedge::Asks;
use keepers::Nowhere;
use mapmachine::{Machine, Mime};
use mapshare::{Reader, ShareFault, Sharing, Submitted, open};
use std::alloc::{AllocError, Global};
use std::marker::Brand;
use std::sync::Wait;
use test_tables::{TableFault, check_rows};

// How many readers share a map, if it is shared, where so many are requested.
fn opened<S: Sharing, R: AllocGlobal + Wait>(
    rt: &R,
    blank: Blank,
    machine: &Machine,
    count: usize,
) -> Result<usize, ShareFault>
    requires history { blank.seen.book ≡ S.book }
    requires opening { machine.now ≡ S.opening }
{
    match open::<S, Nowhere, R>(rt, blank, machine, count) {
        Ok((admin, readers)) => {
            let count = readers.len();
            admin.close(rt);
            Ok(count)
        }
        Err(fault) => Err(fault),
    }
}

// How many readers a map has where so many are requested, or the error.
fn result_of_count<R: AllocGlobal + Wait>(
    rt: &R,
    alloc: Global,
    row: &str,
) -> Result<String, AllocError> {
    let machine = machine(alloc)?;
    let count = row.parse().unwrap_or(99);
    match opened::<Brand, R>(rt, Blank::new(), &machine, count) {
        Ok(count) => format!(in alloc; "{count}"),
        Err(fault) => format!(in alloc; "{fault}"),
    }
}

// How many readers there are, `|` and how many were requested.
const COUNTS: &str = "\
a map is shared by 1 to 32 readers|0
1|1
32|32
a map is shared by 1 to 32 readers|33";

#[test]
fn a_map_has_1_to_32_readers(rt: HostRuntime) -> Result<(), TableFault> {
    check_rows(rt.alloc(), COUNTS, '|', 4, |alloc, row| {
        result_of_count(&rt, alloc, row)
    })
}

const QUERY: &[u8] =
    b"VERSION=1.3.0&REQUEST=GetMap&LAYERS=a&STYLES=&CRS=CRS:84&BBOX=0,0,4,4&WIDTH=4&HEIGHT=4&FORMAT=image/x-portable-pixmap";

// The answer of a reader to the query: `p` is a picture, `n` that the layer isn't defined, and `b` that it is busy.
fn answered<S: Sharing>(reader: &mut Reader<S>) -> char {
    let Ok(answer) = reader.answer(QUERY) else {
        return 'b';
    };
    let body = str::from_utf8(answer.body.as_slice()).unwrap_or("");
    match answer.mime {
        Mime::Pixmap => 'p',
        Mime::Xml if body.contains("code=\"LayerNotDefined\">LAYERS<") => 'n',
        _ => '?',
    }
}

// The answers of two readers at the opening, after a batch, of which the first learns, and after the end.
fn switched<S: Sharing, R: AllocGlobal + Wait>(
    rt: &R,
    blank: Blank,
    machine: &Machine,
    batch: Vec<u8>,
) -> Option<[char; 6]>
    requires history { blank.seen.book ≡ S.book }
    requires opening { machine.now ≡ S.opening }
{
    let (admin, mut readers) = open::<S, Nowhere, R>(rt, blank, machine, 2).ok()?;
    let (Some(mut first), Some(mut second)) = (readers.pop(), readers.pop()) else {
        admin.close(rt);
        return None;
    };
    let opened = [answered(&mut first), answered(&mut second)];
    let (admin, submitted) = admin.submit(rt, batch);
    if let Submitted::Published(receipt) = submitted {
        first.learn(receipt);
    }
    let published = [answered(&mut first), answered(&mut second)];
    admin.close(rt);
    let closed = [answered(&mut first), answered(&mut second)];
    Some([
        opened[0],
        opened[1],
        published[0],
        published[1],
        closed[0],
        closed[1],
    ])
}

// Letters in pairs.
fn in_pairs(alloc: Global, [a, b, c, d, e, f]: [char; 6]) -> Result<String, AllocError> {
    format!(in alloc; "{a}{b} {c}{d} {e}{f}")
}

// The answers in one text, for a map with the layer, where this is the line of the batch.
fn result_of_switch<R: AllocGlobal + Wait>(
    rt: &R,
    alloc: Global,
    row: &str,
) -> Result<String, AllocError> {
    let machine = machine(alloc)?;
    let mut batch = Vec::from_slice(alloc, row.as_bytes())?;
    batch.push(b'\n')?;
    match switched::<Brand, R>(rt, Blank::new(), &machine, batch) {
        Some(letters) => in_pairs(alloc, letters),
        None => String::from_str(alloc, "not shared"),
    }
}

const SWITCHES: &str = "\
pp nn bb|OFF a
pp pp bb|OFF b
pp pp bb|ON a";

#[test]
fn readers_answer_by_what_is_published(rt: HostRuntime) -> Result<(), TableFault> {
    check_rows(rt.alloc(), SWITCHES, '|', 3, |alloc, row| {
        result_of_switch(&rt, alloc, row)
    })
}
