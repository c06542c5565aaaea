use crate::clients::{Client, ClockAt, Echo, TIMEOUTS, enter, serve_all};
use std::alloc::Global;
use std::test::Fail;
use turns::{
    Closed, ConnectionTable, LONG_WAIT_MILLIS, MAX_DRAINED_BYTES, Next, PATIENCE_MILLIS, READ_BYTES,
};

const HEAD: &[u8] = b"GET /?a HTTP/1.1\r\n\r\n";

// Which slot was left.
fn slot_of(closed: Option<Closed<Client>>) -> Option<usize> {
    closed.map(|closed| closed.slot)
}

#[test]
fn limits_are_these(rt: HostRuntime) -> Result<(), Fail> {
    assert!(rt; MAX_DRAINED_BYTES == 1_048_576);
    assert!(rt; READ_BYTES == 4_096);
    assert!(rt; PATIENCE_MILLIS == 1_000);
    assert!(rt; LONG_WAIT_MILLIS == 10_000);
    Ok(())
}

#[test]
fn the_oldest_idle_connection_gives_way_where_no_slot_is_free(rt: HostRuntime) -> Result<(), Fail> {
    let alloc = rt.alloc();
    let mut table = ConnectionTable::new(alloc, 3, TIMEOUTS, 1_000_000)?;
    let mut echo = Echo { alloc, dots: 0 };
    let sending = Client::new(alloc, b"GET /?a", false)?;
    enter(&mut table, alloc, sending, 10)?;
    enter(&mut table, alloc, Client::new(alloc, b"", false)?, 30)?;
    serve_all(&mut table, &mut echo, 40, false);
    assert!(rt; slot_of(table.close_for_slot(50)).is_none());
    enter(&mut table, alloc, Client::new(alloc, b"", false)?, 20)?;
    serve_all(&mut table, &mut echo, 50, false);
    assert!(rt; slot_of(table.close_for_slot(1_019)).is_none());
    assert!(rt; slot_of(table.close_for_slot(1_030)) == Some(2));
    assert!(rt; slot_of(table.close_for_slot(1_030)).is_none());
    Ok(())
}

// When a connection was opened, when the first bytes of another's head came, and a moment; and which of both gives way then.
const ORDER: [(u64, u64, u64, Option<usize>); 9] = [
    (20_000, 20_000, 20_999, None),
    (20_000, 20_001, 21_000, Some(0)),
    (20_001, 20_000, 21_000, Some(1)),
    (20_000, 20_000, 21_000, Some(1)),
    (20_000, 28_999, 29_999, Some(1)),
    (20_000, 29_000, 29_999, Some(0)),
    (20_000, 29_000, 30_000, Some(0)),
    (20_000, 29_001, 30_000, Some(0)),
    (20_001, 20_000, 30_000, Some(1)),
];

#[test]
fn who_gives_way_first_is_worked_out_by_hand(rt: HostRuntime) -> Result<(), Fail> {
    let alloc = rt.alloc();
    let mut echo = Echo { alloc, dots: 0 };
    for (opened, begun, now, first) in ORDER {
        let mut table = ConnectionTable::new(alloc, 2, TIMEOUTS, 1_000_000)?;
        enter(&mut table, alloc, Client::new(alloc, b"", false)?, opened)?;
        enter(
            &mut table,
            alloc,
            Client::new(alloc, b"GET /", false)?,
            begun,
        )?;
        serve_all(&mut table, &mut echo, begun, false);
        assert!(rt; slot_of(table.close_for_slot(now)) == first);
    }
    Ok(())
}

// The first was opened at 100 and the second answered at 90: nobody gives way before that is a second ago, and the longer one first.
#[test]
fn connections_between_requests_give_way_as_those_that_were_opened(
    rt: HostRuntime,
) -> Result<(), Fail> {
    let alloc = rt.alloc();
    let mut table = ConnectionTable::new(alloc, 2, TIMEOUTS, 1_000_000)?;
    let mut echo = Echo { alloc, dots: 0 };
    enter(&mut table, alloc, Client::new(alloc, b"", false)?, 100)?;
    enter(&mut table, alloc, Client::new(alloc, HEAD, false)?, 80)?;
    serve_all(&mut table, &mut echo, 90, false);
    assert!(rt; slot_of(table.close_for_descriptor(1_089)).is_none());
    assert!(rt; slot_of(table.close_for_descriptor(1_099)) == Some(1));
    assert!(rt; slot_of(table.close_for_descriptor(1_099)).is_none());
    assert!(rt; slot_of(table.close_for_descriptor(1_100)) == Some(0));
    Ok(())
}

// The third was opened first, and has its first turn still to come.
#[test]
fn a_connection_that_has_a_turn_does_not_give_way(rt: HostRuntime) -> Result<(), Fail> {
    let alloc = rt.alloc();
    let mut table = ConnectionTable::new(alloc, 3, TIMEOUTS, 1_000_000)?;
    let mut echo = Echo { alloc, dots: 0 };
    enter(&mut table, alloc, Client::new(alloc, b"", false)?, 30)?;
    enter(&mut table, alloc, Client::new(alloc, b"", false)?, 25)?;
    serve_all(&mut table, &mut echo, 40, false);
    enter(&mut table, alloc, Client::new(alloc, HEAD, false)?, 20)?;
    assert!(rt; slot_of(table.close_for_descriptor(1_050)) == Some(1));
    table.wake(0);
    assert!(rt; slot_of(table.close_for_descriptor(1_050)).is_none());
    Ok(())
}

// The bytes of the first came at 40, those of the second at 40 and 900, those of the third at 1,000, and the fourth is silent since 960.
#[test]
fn a_head_of_a_second_gives_way_before_a_short_silence(rt: HostRuntime) -> Result<(), Fail> {
    let alloc = rt.alloc();
    let mut table = ConnectionTable::new(alloc, 4, TIMEOUTS, 1_000_000)?;
    let mut echo = Echo { alloc, dots: 0 };
    enter(&mut table, alloc, Client::new(alloc, b"GET /", false)?, 10)?;
    let slow = Client::new(alloc, b"GET /", false)?;
    enter(&mut table, alloc, slow.paced(&[2, 0, 3, 0], &[100]), 10)?;
    serve_all(&mut table, &mut echo, 40, false);
    table.wake(1);
    serve_all(&mut table, &mut echo, 900, false);
    enter(&mut table, alloc, Client::new(alloc, b"GET", false)?, 950)?;
    enter(&mut table, alloc, Client::new(alloc, b"", false)?, 960)?;
    serve_all(&mut table, &mut echo, 1_000, false);
    assert!(rt; slot_of(table.close_for_descriptor(1_039)).is_none());
    assert!(rt; slot_of(table.close_for_descriptor(1_999)) == Some(0));
    assert!(rt; slot_of(table.close_for_descriptor(1_999)) == Some(1));
    assert!(rt; slot_of(table.close_for_descriptor(1_999)) == Some(3));
    assert!(rt; slot_of(table.close_for_descriptor(1_999)).is_none());
    assert!(rt; slot_of(table.close_for_descriptor(2_000)) == Some(2));
    Ok(())
}

// Two readers are answered, and a third waits. The first has taken more bytes.
#[test]
fn the_slowest_reader_gives_way_where_answers_fill_their_room(rt: HostRuntime) -> Result<(), Fail> {
    let alloc = rt.alloc();
    let mut table = ConnectionTable::new(alloc, 3, TIMEOUTS, 150_000)?;
    let mut echo = Echo {
        alloc,
        dots: 99_999,
    };
    let reader = Client::new(alloc, HEAD, false)?;
    enter(
        &mut table,
        alloc,
        reader.paced(&[100], &[9_000, 9_000, 0]),
        10,
    )?;
    let slower = Client::new(alloc, HEAD, false)?;
    enter(&mut table, alloc, slower.paced(&[100], &[7_000, 1, 0]), 10)?;
    let waiting = Client::new(alloc, HEAD, false)?;
    enter(&mut table, alloc, waiting.paced(&[100], &[0]), 10)?;
    serve_all(&mut table, &mut echo, 40, false);
    assert!(rt; slot_of(table.close_for_room(1_040)).is_none());
    assert!(rt; slot_of(table.close_for_room(1_041)) == Some(1));
    // the third has room now: it has a turn, and is answered
    assert!(rt; slot_of(table.close_for_room(1_041)).is_none());
    assert!(rt; table.is_ready());
    assert!(rt; serve_all(&mut table, &mut echo, 1_050, false) == 1);
    assert!(rt; table.close_unanswered(2).is_none());
    Ok(())
}

// Both took bytes half a second ago: 18,069 bytes in 1,001 milliseconds are 18 each, 13,999 are 13, and 16 are asked.
#[test]
fn a_reader_at_the_least_rate_does_not_give_way(rt: HostRuntime) -> Result<(), Fail> {
    let alloc = rt.alloc();
    let mut table = ConnectionTable::new(alloc, 3, TIMEOUTS, 150_000)?;
    let mut echo = Echo {
        alloc,
        dots: 99_999,
    };
    let reader = Client::new(alloc, HEAD, false)?;
    let paces = &[9_000, 9_000, 0, 9_000, 0];
    enter(&mut table, alloc, reader.paced(&[100], paces), 10)?;
    let slower = Client::new(alloc, HEAD, false)?;
    let paces = &[7_000, 7_000, 0, 6_930, 0];
    enter(&mut table, alloc, slower.paced(&[100], paces), 10)?;
    let waiting = Client::new(alloc, HEAD, false)?;
    enter(&mut table, alloc, waiting.paced(&[100], &[0]), 10)?;
    serve_all(&mut table, &mut echo, 40, false);
    table.wake(0);
    table.wake(1);
    serve_all(&mut table, &mut echo, 600, false);
    assert!(rt; slot_of(table.close_for_room(1_041)) == Some(1));
    assert!(rt; table.is_ready());
    Ok(())
}

// 257 reads of 4,096 bytes are the first that pass 1,048,576 bytes. The first turn answers a refused head.
#[test]
fn what_comes_after_the_last_answer_is_dropped_up_to_a_limit(rt: HostRuntime) -> Result<(), Fail> {
    let alloc = rt.alloc();
    let mut table = ConnectionTable::new(alloc, 1, TIMEOUTS, 1_000_000)?;
    let mut echo = Echo { alloc, dots: 0 };
    let mut sends = Vec::from_slice(alloc, b"GET\r\n\r\n")?;
    sends.extend_from_slice(&Vec::from_elem(alloc, b'x', 2_000_000)?)?;
    let client = Client::new(alloc, &sends, false)?;
    enter(&mut table, alloc, client.paced(&[7, 4_096], &[100]), 10)?;
    for turn in 1..259 {
        let next = table
            .serve_next(&mut echo, 20, &ClockAt { moment: 20 })
            .and_then(|served| served.next);
        let last = if turn < 258 { Next::Turn } else { Next::Done };
        assert!(rt; next == Some(last));
    }
    assert!(rt; !table.is_ready());
    assert!(rt; table.close_overdue(0, 0).is_some());
    Ok(())
}
