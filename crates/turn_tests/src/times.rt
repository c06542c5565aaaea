use crate::clients::{Client, ClockAt, Echo, TIMEOUTS, enter, serve_all};
use std::alloc::Global;
use std::test::Fail;
use turns::{ConnectionTable, Next, Timeouts};

const HEAD: &[u8] = b"GET /?a HTTP/1.1\r\n\r\n";

// A table whose one connection was opened at 1,000, and the answerer: 100,000 bytes and a head.
fn opened(alloc: Global, client: Client) -> Result<(ConnectionTable<Client>, Echo), Fail> {
    opened_ahead(alloc, client, 0)
}

// The same, where the system may take so many bytes ahead of the client.
fn opened_ahead(
    alloc: Global,
    client: Client,
    ahead: u64,
) -> Result<(ConnectionTable<Client>, Echo), Fail> {
    let timeouts = Timeouts { ahead, ..TIMEOUTS };
    let mut table = ConnectionTable::new(alloc, 1, timeouts, 1_000_000)?;
    enter(&mut table, alloc, client, 1_000)?;
    Ok((
        table,
        Echo {
            alloc,
            dots: 99_999,
        },
    ))
}

// Its slot has turns at some moments.
fn pass(table: &mut ConnectionTable<Client>, echo: &mut Echo, moments: &[u64]) {
    for now in moments {
        table.wake(0);
        serve_all(table, echo, *now, false);
    }
}

// Whether its time is over at a moment, and not a millisecond before.
fn ends_at(table: &mut ConnectionTable<Client>, moment: u64) -> bool {
    table.close_overdue(0, moment.saturating_sub(1)).is_none()
        && table.close_overdue(0, moment).is_some()
}

#[test]
fn a_client_that_never_asks_has_the_time_of_a_head(rt: HostRuntime) -> Result<(), Fail> {
    let alloc = rt.alloc();
    let (mut table, mut echo) = opened(alloc, Client::new(alloc, b"", false)?)?;
    pass(&mut table, &mut echo, &[1_000, 1_100, 1_150]);
    assert!(rt; ends_at(&mut table, 4_000));
    Ok(())
}

#[test]
fn a_head_has_its_time_from_its_first_byte(rt: HostRuntime) -> Result<(), Fail> {
    let alloc = rt.alloc();
    let client = Client::new(alloc, HEAD, false)?;
    let (mut table, mut echo) = opened(alloc, client.paced(&[0, 1, 0, 3, 0], &[1]))?;
    pass(&mut table, &mut echo, &[1_000, 1_150, 3_900, 4_100]);
    assert!(rt; ends_at(&mut table, 4_150));
    Ok(())
}

#[test]
fn an_answer_of_which_nothing_is_taken_has_its_time(rt: HostRuntime) -> Result<(), Fail> {
    let alloc = rt.alloc();
    let client = Client::new(alloc, HEAD, false)?;
    let (mut table, mut echo) = opened(alloc, client.paced(&[100], &[0]))?;
    pass(&mut table, &mut echo, &[1_100, 2_000, 4_000]);
    assert!(rt; ends_at(&mut table, 4_100));
    Ok(())
}

#[test]
fn bytes_that_are_taken_prolong_an_answer(rt: HostRuntime) -> Result<(), Fail> {
    let alloc = rt.alloc();
    let client = Client::new(alloc, HEAD, false)?;
    let (mut table, mut echo) = opened(alloc, client.paced(&[100], &[0, 8, 0, 8, 0]))?;
    pass(&mut table, &mut echo, &[1_100, 2_000, 2_500]);
    assert!(rt; ends_at(&mut table, 5_500));
    Ok(())
}

// 70 bytes of the head were sent at 1,100, and 32,000 of the body at 4,000: 32,070 bytes are 2,004 milliseconds at 16
// bytes each, after the 5,000 of the grace.
#[test]
fn a_slow_reader_has_the_grace_and_the_time_of_its_bytes(rt: HostRuntime) -> Result<(), Fail> {
    let alloc = rt.alloc();
    let client = Client::new(alloc, HEAD, false)?;
    let paces = &[100_000, 0, 32_000, 0, 1, 0];
    let (mut table, mut echo) = opened(alloc, client.paced(&[100], paces))?;
    pass(&mut table, &mut echo, &[1_100, 4_000, 7_900]);
    assert!(rt; ends_at(&mut table, 8_104));
    Ok(())
}

// Some 32,000 bytes were taken at 1,100. To the 3,000 milliseconds come those of 8,000 bytes, at 16 each; or of half of them all.
#[test]
fn an_answer_has_the_time_of_bytes_that_may_be_ahead(rt: HostRuntime) -> Result<(), Fail> {
    let alloc = rt.alloc();
    let paces = &[100, 32_000, 0];
    let client = Client::new(alloc, HEAD, false)?.paced(&[100], paces);
    let (mut table, mut echo) = opened_ahead(alloc, client, 8_000)?;
    pass(&mut table, &mut echo, &[1_100, 4_000]);
    assert!(rt; ends_at(&mut table, 4_600));
    let client = Client::new(alloc, HEAD, false)?.paced(&[100], paces);
    let (mut table, mut echo) = opened_ahead(alloc, client, 20_000)?;
    pass(&mut table, &mut echo, &[1_100, 4_000]);
    assert!(rt; ends_at(&mut table, 5_102));
    Ok(())
}

#[test]
fn a_connection_is_idle_again_after_its_answer(rt: HostRuntime) -> Result<(), Fail> {
    let alloc = rt.alloc();
    let (mut table, mut echo) = opened(alloc, Client::new(alloc, HEAD, false)?)?;
    pass(&mut table, &mut echo, &[1_100]);
    assert!(rt; ends_at(&mut table, 1_300));
    Ok(())
}

#[test]
fn a_client_has_the_drain_time_after_its_last_answer(rt: HostRuntime) -> Result<(), Fail> {
    let alloc = rt.alloc();
    let client = Client::new(alloc, b"GET\r\n\r\n", false)?;
    let (mut table, mut echo) = opened(alloc, client)?;
    pass(&mut table, &mut echo, &[1_100, 3_000]);
    assert!(rt; ends_at(&mut table, 3_100));
    Ok(())
}

#[test]
fn a_client_that_has_sent_all_is_over_with_its_last_answer(rt: HostRuntime) -> Result<(), Fail> {
    let alloc = rt.alloc();
    let (mut table, mut echo) = opened(alloc, Client::new(alloc, b"GET\r\n\r\n", true)?)?;
    pass(&mut table, &mut echo, &[1_100]);
    assert!(rt; table.close_overdue(0, 1_100).is_some());
    assert!(rt; table.close_overdue(0, 9_000).is_none());
    Ok(())
}

// A turn that begins at 1,100 takes up to 4,700, as the clock shows behind its query, and further ones are at 4,750. Whether it waits
// for this after the first, and is closed at this moment and not before.
fn ends_after_a_long_query(
    alloc: Global,
    client: Client,
    next: Next,
    moment: u64,
) -> Result<bool, Fail> {
    let (mut table, mut echo) = opened(alloc, client)?;
    let clock = ClockAt { moment: 4_700 };
    let served = table.serve_next(&mut echo, 1_100, &clock);
    let waits = served.and_then(|served| served.next) == Some(next);
    serve_all(&mut table, &mut echo, 4_750, false);
    Ok(waits && ends_at(&mut table, moment))
}

// It may be idle for 200, drain for 2,000, and take no byte for 3,000. The body of the second answer goes out in its second turn.
#[test]
fn what_follows_a_query_begins_behind_it(rt: HostRuntime) -> Result<(), Fail> {
    let alloc = rt.alloc();
    let bodiless = Client::new(alloc, b"GET /a HTTP/1.1\r\n\r\n", false)?;
    assert!(rt; ends_after_a_long_query(alloc, bodiless, Next::Turn, 4_900)?);
    let whole = Client::new(alloc, HEAD, false)?;
    assert!(rt; ends_after_a_long_query(alloc, whole, Next::Turn, 4_950)?);
    let last = Client::new(alloc, b"GET\r\n\r\n", false)?;
    assert!(rt; ends_after_a_long_query(alloc, last, Next::Turn, 6_700)?);
    let unread = Client::new(alloc, HEAD, false)?.paced(&[100], &[0]);
    assert!(rt; ends_after_a_long_query(alloc, unread, Next::Writable, 7_700)?);
    Ok(())
}

// Where no query is asked the clock isn't read: a head has its time from 1,150 on.
#[test]
fn a_turn_without_a_query_ends_when_it_begins(rt: HostRuntime) -> Result<(), Fail> {
    let alloc = rt.alloc();
    let client = Client::new(alloc, HEAD, false)?.paced(&[3, 0], &[1]);
    let (mut table, mut echo) = opened(alloc, client)?;
    let clock = ClockAt { moment: 2_500 };
    let ended = table
        .serve_next(&mut echo, 1_150, &clock)
        .map(|served| served.ended);
    assert!(rt; ended == Some(1_150));
    table.serve_next(&mut echo, 1_160, &clock);
    assert!(rt; ends_at(&mut table, 4_150));
    Ok(())
}

// Its whole request is there, and others had their turns for 9 seconds. Its turn answers it, and it is idle then.
#[test]
fn the_time_of_a_connection_that_has_a_turn_is_not_over(rt: HostRuntime) -> Result<(), Fail> {
    let alloc = rt.alloc();
    let (mut table, mut echo) = opened(alloc, Client::new(alloc, HEAD, false)?)?;
    assert!(rt; table.close_overdue(0, 10_000).is_none());
    pass(&mut table, &mut echo, &[10_000]);
    assert!(rt; ends_at(&mut table, 10_200));
    Ok(())
}

// The second waits for room from 1,100 on, as the first takes no byte. Its head is late by 5,000 when it has room, and it is answered.
#[test]
fn the_time_of_a_connection_that_waits_for_room_is_not_over(rt: HostRuntime) -> Result<(), Fail> {
    let alloc = rt.alloc();
    let mut table = ConnectionTable::new(alloc, 2, TIMEOUTS, 1_000)?;
    let mut echo = Echo {
        alloc,
        dots: 99_999,
    };
    let unread = Client::new(alloc, HEAD, false)?.paced(&[100], &[0]);
    enter(&mut table, alloc, unread, 1_000)?;
    enter(&mut table, alloc, Client::new(alloc, HEAD, false)?, 1_000)?;
    serve_all(&mut table, &mut echo, 1_100, false);
    assert!(rt; table.close_overdue(1, 9_100).is_none());
    assert!(rt; table.close_overdue(0, 9_100).is_some());
    serve_all(&mut table, &mut echo, 9_100, false);
    assert!(rt; table.close_overdue(1, 9_299).is_none());
    let answered = table.close_overdue(1, 9_300);
    assert!(rt; answered.is_some_and(|connection| connection.transport.out.len() > 100_000));
    Ok(())
}
