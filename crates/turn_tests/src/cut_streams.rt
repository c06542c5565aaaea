use crate::clients::{Client, Echo, TIMEOUTS, enter, serve_all};
use std::alloc::Global;
use std::test::Fail;
use turns::ConnectionTable;

// Two requests, the second of which closes, and bytes after them.
const TWO: &[u8] = b"GET /?a HTTP/1.1\r\n\r\nGET /?b HTTP/1.1\r\nConnection: close\r\n\r\nmore";

const ANSWERS: &[u8] = b"HTTP/1.1 200 OK\r\nContent-Type: text/plain\r\nContent-Length: 1\r\n\r\na\
HTTP/1.1 200 OK\r\nContent-Type: text/plain\r\nContent-Length: 1\r\nConnection: close\r\n\r\nb";

const REFUSAL: &[u8] =
    b"HTTP/1.1 400 Bad Request\r\nContent-Length: 0\r\nConnection: close\r\n\r\n";

// Ways to cut: how many bytes a call moves, in turn. A 0 is a call that would wait.
const PACES: [&[usize]; 59] = [
    &[1],
    &[2],
    &[3],
    &[4],
    &[5],
    &[6],
    &[7],
    &[8],
    &[9],
    &[10],
    &[11],
    &[12],
    &[13],
    &[14],
    &[15],
    &[16],
    &[17],
    &[18],
    &[19],
    &[20],
    &[0, 1, 4, 0, 3, 1],
    &[0, 2, 5, 0, 5, 1],
    &[0, 3, 6, 0, 7, 1],
    &[0, 4, 7, 0, 9, 1],
    &[0, 5, 8, 0, 11, 1],
    &[0, 6, 9, 0, 13, 1],
    &[0, 7, 10, 0, 15, 1],
    &[0, 8, 11, 0, 17, 1],
    &[0, 9, 12, 0, 19, 1],
    &[0, 10, 13, 0, 21, 1],
    &[0, 11, 14, 0, 23, 1],
    &[0, 12, 15, 0, 25, 1],
    &[0, 13, 16, 0, 27, 1],
    &[0, 14, 17, 0, 29, 1],
    &[0, 15, 18, 0, 31, 1],
    &[0, 16, 19, 0, 33, 1],
    &[0, 17, 20, 0, 35, 1],
    &[0, 18, 21, 0, 37, 1],
    &[0, 19, 22, 0, 39, 1],
    &[0, 20, 23, 0, 41, 1],
    &[1, 0, 0, 18, 1, 5],
    &[2, 0, 0, 19, 1, 10],
    &[3, 0, 0, 20, 1, 15],
    &[4, 0, 0, 21, 1, 20],
    &[5, 0, 0, 22, 1, 25],
    &[6, 0, 0, 23, 1, 30],
    &[7, 0, 0, 24, 1, 35],
    &[8, 0, 0, 25, 1, 40],
    &[9, 0, 0, 26, 1, 45],
    &[10, 0, 0, 27, 1, 50],
    &[11, 0, 0, 28, 1, 55],
    &[12, 0, 0, 29, 1, 60],
    &[13, 0, 0, 30, 1, 65],
    &[14, 0, 0, 31, 1, 70],
    &[15, 0, 0, 32, 1, 75],
    &[16, 0, 0, 33, 1, 80],
    &[17, 0, 0, 34, 1, 85],
    &[18, 0, 0, 35, 1, 90],
    &[19, 0, 0, 36, 1, 95],
];

// The bytes that four clients got whose streams are cut in a way, one after the other. The clients are one that never
// ends its head, two that send a query, and one that leaves within its head.
fn got(alloc: Global, pace: &'static [usize], got: &mut Vec<u8>) -> Result<(), Fail> {
    let mut table = ConnectionTable::new(alloc, 4, TIMEOUTS, 1)?;
    let mut echo = Echo { alloc, dots: 0 };
    let silent = Client::new(alloc, b"GET /?x", false)?;
    enter(&mut table, alloc, silent.paced(pace, pace), 10)?;
    let asking = Client::new(alloc, TWO, false)?;
    enter(&mut table, alloc, asking.paced(pace, pace), 10)?;
    let slow = Client::new(alloc, TWO, false)?;
    enter(&mut table, alloc, slow.paced(&[1], &[1]), 10)?;
    let leaving = Client::new(alloc, b"GET ", true)?;
    enter(&mut table, alloc, leaving.paced(pace, pace), 10)?;
    for _ in 0..401 {
        for slot in 0..4 {
            table.wake(slot);
        }
        serve_all(&mut table, &mut echo, 20, true);
    }
    for slot in 0..4 {
        if let Some(connection) = table.close_overdue(slot, 100_000) {
            got.extend_from_slice(&connection.transport.out)?;
        }
        got.push(b'|')?;
    }
    Ok(())
}

#[test]
fn each_client_gets_its_own_answers_however_bytes_are_cut(rt: HostRuntime) -> Result<(), Fail> {
    let alloc = rt.alloc();
    let mut expected = Vec::new(alloc);
    for text in [b"|".as_slice(), ANSWERS, b"|", ANSWERS, b"|", REFUSAL, b"|"] {
        expected.extend_from_slice(text)?;
    }
    for pace in PACES {
        let mut out = Vec::new(alloc);
        got(alloc, pace, &mut out)?;
        assert!(rt; out.as_slice() == expected.as_slice());
    }
    Ok(())
}
