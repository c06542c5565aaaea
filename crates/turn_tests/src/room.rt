//! Who is answered first where answers fill their room.

use crate::clients::{Client, Echo, TIMEOUTS, enter, serve_all};
use httpedge::reckoned_bytes;
use std::alloc::Global;
use std::test::Fail;
use turns::{Closed, ConnectionTable, FEW_WAITING, LEAST_PATIENCE_MILLIS, SMALL_ANSWER_BYTES};

const SMALL: &[u8] = b"GET /?WIDTH=512&HEIGHT=512 HTTP/1.1\r\n\r\n";

const LARGE: &[u8] = b"GET /?WIDTH=512&HEIGHT=513 HTTP/1.1\r\n\r\n";

#[test]
fn limits_are_these(rt: HostRuntime) -> Result<(), Fail> {
    assert!(rt; SMALL_ANSWER_BYTES == 1_049_600);
    assert!(rt; FEW_WAITING == 8);
    assert!(rt; LEAST_PATIENCE_MILLIS == 100);
    Ok(())
}

// Texts of requests, and four bytes for each of their pixels, 1,024 for each of their features, and 1,024 more. A number that isn't known
// is 200,000.
const RECKONED: [(&[u8], u64); 13] = [
    (SMALL, 1_049_600),
    (LARGE, 1_051_648),
    (b"GET /wms?width=2048&x=1&Height=2048 HTTP/1.1", 16_778_240),
    (b"GET /wms?REQUEST=GetCapabilities HTTP/1.1", 1_024),
    (b"GET /?FEATURE_COUNT=9&WIDTH=2&HEIGHT=1 HTTP/1.1", 10_248),
    // the largest of two
    (b"GET /?WIDTH=3&WIDTH=5&HEIGHT=7&HEIGHT=2", 1_164),
    // an encoded letter of a name, an encoded digit, and a number of many digits
    (b"GET /?W%49DTH=9&HEIGHT=2 HTTP/1.1", 1_601_024),
    (b"GET /?WIDTH=1%39&HEIGHT=2 HTTP/1.1", 1_601_024),
    (b"GET /?WIDTH=99999999999999999999999&HEIGHT=2 ", 1_601_024),
    // other names, and no number
    (b"GET /?XWIDTH=9&HEIGHT=2 HTTP/1.1", 1_024),
    (b"GET /?WIDTHS=9&HEIGHT=2 HTTP/1.1", 1_024),
    (b"WIDTH=9&HEIGHT=2 HTTP/1.1", 1_024),
    (b"GET /?WIDTH=&HEIGHT=2 HTTP/1.1", 1_024),
];

#[test]
fn answers_are_reckoned_by_the_text_of_their_requests(rt: HostRuntime) -> Result<(), Fail> {
    for (text, bytes) in RECKONED {
        assert!(rt; reckoned_bytes(text) == bytes);
    }
    Ok(())
}

// Which slot was left.
fn slot_of(closed: Option<Closed<Client>>) -> Option<usize> {
    closed.map(|closed| closed.slot)
}

// A client that sends a head, and takes so many bytes at once of what answers it, comes to the first free slot.
fn ask(
    table: &mut ConnectionTable<Client>,
    alloc: Global,
    head: &[u8],
    takes: &'static [usize],
) -> Result<(), Fail> {
    let client = Client::new(alloc, head, false)?;
    enter(table, alloc, client.paced(&[100], takes), 10)?;
    Ok(())
}

// Whether the connection at a slot has something to do: else its time is over by far.
fn is_pending(table: &mut ConnectionTable<Client>, slot: usize) -> bool {
    table.close_overdue(slot, 100_000).is_none()
}

// Two large answers fill three quarters of the room, a third one waits, and a small one goes before it.
#[test]
fn a_small_answer_goes_before_a_large_one_that_waits(rt: HostRuntime) -> Result<(), Fail> {
    let alloc = rt.alloc();
    let mut table = ConnectionTable::new(alloc, 4, TIMEOUTS, 400_000)?;
    let mut echo = Echo {
        alloc,
        dots: 160_000,
    };
    for _ in 0..3 {
        ask(&mut table, alloc, LARGE, &[0])?;
    }
    serve_all(&mut table, &mut echo, 20, false);
    ask(&mut table, alloc, SMALL, &[0])?;
    serve_all(&mut table, &mut echo, 30, false);
    assert!(rt; is_pending(&mut table, 2));
    assert!(rt; !is_pending(&mut table, 3));
    Ok(())
}

// The last quarter of the room is kept: the first two have 150,089 bytes each, of which 69 are a head and 20 the query. That is all that large
// ones may fill of a room of 400,237 bytes.
#[test]
fn a_share_of_the_room_is_kept_for_small_answers(rt: HostRuntime) -> Result<(), Fail> {
    let alloc = rt.alloc();
    for (room, waits) in [(400_237, true), (400_238, false)] {
        let mut table = ConnectionTable::new(alloc, 3, TIMEOUTS, room)?;
        let mut echo = Echo {
            alloc,
            dots: 150_000,
        };
        for _ in 0..3 {
            ask(&mut table, alloc, LARGE, &[0])?;
        }
        serve_all(&mut table, &mut echo, 20, false);
        assert!(rt; is_pending(&mut table, 2) == waits);
    }
    Ok(())
}

// The first leaves where it stays too long; the third has its room, before one that came later to the slot of the first.
#[test]
fn large_answers_keep_their_order(rt: HostRuntime) -> Result<(), Fail> {
    let alloc = rt.alloc();
    let mut table = ConnectionTable::new(alloc, 4, TIMEOUTS, 400_000)?;
    let mut echo = Echo {
        alloc,
        dots: 160_000,
    };
    for _ in 0..4 {
        ask(&mut table, alloc, LARGE, &[0])?;
    }
    serve_all(&mut table, &mut echo, 20, false);
    assert!(rt; slot_of(table.close_for_room(1_021)) == Some(0));
    ask(&mut table, alloc, LARGE, &[0])?;
    serve_all(&mut table, &mut echo, 1_030, false);
    assert!(rt; slot_of(table.close_for_room(1_031)) == Some(1));
    serve_all(&mut table, &mut echo, 1_040, false);
    assert!(rt; is_pending(&mut table, 0));
    assert!(rt; !is_pending(&mut table, 2));
    assert!(rt; !is_pending(&mut table, 3));
    Ok(())
}

// Whether a reader that takes nothing of an answer gives way, by how many bytes that has, and where so many others wait.
fn gives_way_at(alloc: Global, dots: usize, waiting: usize, now: u64) -> Result<bool, Fail> {
    let mut table = ConnectionTable::new(alloc, 20, TIMEOUTS, 1_100_000)?;
    let mut echo = Echo { alloc, dots };
    for _ in 0..waiting.saturating_add(1) {
        ask(&mut table, alloc, LARGE, &[0])?;
    }
    serve_all(&mut table, &mut echo, 20, false);
    Ok(slot_of(table.close_for_room(now)) == Some(0))
}

// How many bytes an answer has besides its head and its query, how many wait, and how many milliseconds it may stay.
const STAYS: [(usize, usize, u64); 5] = [
    (1_100_000, 1, 1_000),
    (1_100_000, 7, 1_000),
    (1_100_000, 8, 500),
    (1_100_000, 16, 333),
    (1_000_000, 16, 1_000),
];

#[test]
fn an_answer_may_stay_less_long_where_many_wait(rt: HostRuntime) -> Result<(), Fail> {
    let alloc = rt.alloc();
    for (dots, waiting, stays) in STAYS {
        assert!(rt; !gives_way_at(alloc, dots, waiting, 20 + stays)?);
        assert!(rt; gives_way_at(alloc, dots, waiting, 21 + stays)?);
    }
    Ok(())
}
