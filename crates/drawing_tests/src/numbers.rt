use geom::{COORDINATE_LIMIT, Micro, NUMBER_LIMIT, NumberFault};
use std::alloc::{AllocError, Global};
use test_tables::{TableFault, check_rows};

// The number that a text means in millionths, or its fault.
fn number_or_fault(alloc: Global, read: Result<Micro, NumberFault>) -> Result<String, AllocError> {
    match read {
        Ok(number) => format!(in alloc; "{}", number.millionths()),
        Err(fault) => format!(in alloc; "{fault:?}"),
    }
}

// What a text means as a coordinate.
fn coordinate(alloc: Global, text: &str) -> Result<String, AllocError> {
    number_or_fault(alloc, Micro::read(text.as_bytes(), COORDINATE_LIMIT))
}

// What a text means as another number.
fn other_number(alloc: Global, text: &str) -> Result<String, AllocError> {
    number_or_fault(alloc, Micro::read(text.as_bytes(), NUMBER_LIMIT))
}

// The number in millionths, or the fault, and the text.
const NUMBERS: &str = "\
500000=.5
-1=-.000001
12345678=+12.345678
7000000=7.
0=-0
0=0.0000000000000000
8000000=0000000000000000000000000000000000008
# The digit after the millionths decides alone, and a half goes away from zero.
-1=-0.0000005
0=0.0000004999999999999999999999
3141593=3.14159265358979323846
-2718285=-2.7182845904523536
10000000=9.9999995
# An exponent moves the point up or down.
125000000=12.5E1
325000000=+3.25e+2
-125000=-.00000125e5
4=4e-6
0=1e-7
1=5e-7
-1=-5e-7
123457=123456789e-9
60000000=0.0000000000000000000006e23
1500000=15e-00000000000000000000000001
0=0e99999999999
0=-0.00E99999999999999999999999
0=1e-99999999999999999999999
# The limit is 1,000, for what is left after the number is rounded.
1000000000=1000.0000004
-1000000000=-1000.0000004999
TooLarge=1000.0000005
TooLarge=-1000.000001
TooLarge=1.0000005e3
TooLarge=18446744073709551616
TooLarge=1844674407370955.1616e4
TooLarge=2e99999999999999999999999
# No numbers.
NotANumber=
NotANumber=.
NotANumber=+.
NotANumber=--1
NotANumber= 1
NotANumber=1\x20
NotANumber=1.2.3
NotANumber=1e
NotANumber=e5
NotANumber=.e1
NotANumber=1e+
NotANumber=1e5.0
NotANumber=1e5E5";

#[test]
fn texts_mean_their_numbers(rt: HostRuntime) -> Result<(), TableFault> {
    check_rows(rt.alloc(), NUMBERS, '=', 46, coordinate)
}

// Numbers among many zeros: `*` stands for a million of them.
const LONG: &str = "\
-6000000=-*6
0=0.*9
91000000=0.*91e1000002
7300000=73*e-1000001
10000000=1*e-999999
TooLarge=1*.";

#[test]
fn long_texts_mean_their_numbers(rt: HostRuntime) -> Result<(), TableFault> {
    let alloc = rt.alloc();
    let zeros = "0".repeat(alloc, 1_000_000)?;
    let rows = LONG.replace(alloc, '*', zeros.as_str())?;
    check_rows(alloc, rows.as_str(), '=', 6, coordinate)
}

// At the limit of other numbers, and one millionth above it.
const LARGE: &str = "\
-1000000000000000000=-1e12
TooLarge=1000000000000.000001
999999999999999999=999999999999.9999994";

#[test]
fn numbers_are_read_up_to_their_limit(rt: HostRuntime) -> Result<(), TableFault> {
    check_rows(rt.alloc(), LARGE, '=', 3, other_number)
}

// The text of a number, and its millionths.
const TEXTS: &str = "\
-0.000001=-1
0.000000=0
0.000010=10
0.500000=500000
1.000000=1000000
-1.000000=-1000000
12.345678=12345678
-180.000000=-180000000
1000.000001=1000000001
9223372036854.775807=9223372036854775807
-9223372036854.775808=-9223372036854775808";

// The text of so many millionths.
fn text(alloc: Global, row: &str) -> Result<String, AllocError> {
    let mut out = Vec::new(alloc);
    Micro::new(row.parse::<i64>().unwrap_or(7)).write(&mut out)?;
    match str::from_utf8(out.as_slice()) {
        Ok(text) => String::from_str(alloc, text),
        Err(_) => format!(in alloc; "not UTF-8"),
    }
}

#[test]
fn numbers_have_their_texts(rt: HostRuntime) -> Result<(), TableFault> {
    check_rows(rt.alloc(), TEXTS, '=', 11, text)
}

// The nearest whole number, and millionths.
const WHOLES: &str = "\
0=0
0=499999
1=500000
0=-499999
-1=-500000
3=2500000
-3=-2500000
255=255000000
-9223372036855=-9223372036854775808";

// The whole number that is nearest to so many millionths.
fn whole(alloc: Global, row: &str) -> Result<String, AllocError> {
    match row.parse::<i64>() {
        Ok(millionths) => format!(in alloc; "{}", Micro::new(millionths).whole()),
        Err(_) => format!(in alloc; "malformed"),
    }
}

#[test]
fn halves_are_rounded_away_from_zero(rt: HostRuntime) -> Result<(), TableFault> {
    check_rows(rt.alloc(), WHOLES, '=', 9, whole)
}

// A definition cites the same constant as the code, so only a test can find a wrong limit.
#[test]
fn limits_have_their_numbers(rt: HostRuntime) {
    let limits = [COORDINATE_LIMIT, NUMBER_LIMIT];
    assert_eq!(rt; limits, [1_000_000_000, 1_000_000_000_000_000_000]);
}

// What a number is to each of the six, from the smallest on: below it, equal to it or above it.
const ORDERED: &str = "\
=<<<<<|-1000001
>=<<<<|-1000000
>>=<<<|-1
>>>=<<|0
>>>>=<|2
>>>>>=|1000000";

// How two numbers are ordered, `?` where the comparisons don't agree.
fn order(x: Micro, y: Micro) -> char {
    match (x < y, x == y, x > y) {
        (true, false, false) => '<',
        (false, true, false) => '=',
        (false, false, true) => '>',
        _ => '?',
    }
}

// The order of a number and each of the six.
fn orders(alloc: Global, row: &str) -> Result<String, AllocError> {
    let number = Micro::new(row.parse::<i64>().unwrap_or(7));
    let mut text = String::new(alloc);
    for other in [-1_000_001, -1_000_000, -1, 0, 2, 1_000_000] {
        text.push(order(number, Micro::new(other)))?;
    }
    Ok(text)
}

#[test]
fn numbers_are_ordered_by_their_size(rt: HostRuntime) -> Result<(), TableFault> {
    check_rows(rt.alloc(), ORDERED, '|', 6, orders)
}

// The message on a fault, and its name.
const FAULTS: &str = "\
not a decimal number=NotANumber
a number beyond the limit=TooLarge";

// The message on the fault of a name.
fn message_of(alloc: Global, name: &str) -> Result<String, AllocError> {
    match name {
        "NotANumber" => format!(in alloc; "{}", NumberFault::NotANumber),
        "TooLarge" => format!(in alloc; "{}", NumberFault::TooLarge),
        _ => format!(in alloc; "malformed"),
    }
}

#[test]
fn faults_have_messages(rt: HostRuntime) -> Result<(), TableFault> {
    check_rows(rt.alloc(), FAULTS, '=', 2, message_of)
}
