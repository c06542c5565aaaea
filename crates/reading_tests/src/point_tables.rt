use csvpoints::{CsvError, CsvKind, Table, TableFields, read};
use mapdefs::{MAX_ITEMS, Text, Values};
use std::alloc::{AllocError, Global};
use test_tables::{TableFault, check_rows};

// The results for texts of tables, and after `|` the texts. A result is the table in the form of `written`,
// or the fault. In both `/` is a line feed and `^` a carriage return, and in texts also `@` is a tab, `~` the
// byte 255 and `%` a byte order mark.
const TABLES: &str = "\
x+y+n;1000000 2000000 1+2+a|x,y,n/1,2,a/
x+y|x,y
y+n+x;1000000 2000000 2+b+1;3000000 4000000 4+c+3|y,n,x/2,b,1/4,c,3/
x+y;1000000 2000000 1+2;3000000 4000000 3+4;5000000 6000000 5+6|x,y/1,2/3,4/5,6/
x+x+y+y;1000000 3000000 1+2+3+4|x,x,y,y/1,2,3,4/
x+y;1000000 2000000 1+2;3000000 4000000 3+4|x,y^/1,2^/3,4
x+y;1000000 2000000 1+2|x,y^1,2
x+y;1000000 2000000 1+2|%x,y/1,2
x+y;1000000 2000000 1+2;3000000 4000000 3+4|/^/x,y///1,2//3,4//
x+y;1000000 2000000 1+2|\"x\",y/\"1\",\"2\"
x+y+n;1000000 2000000 1+2+a,\"b\"^/c|x,y,n/1,2,\"a,\"\"b\"\"^/c\"/
x+y+n;1000000 2000000 1+2+a|x,y,n/1,2,\"a
x+y+n;1000000 2000000 1+2+ab|x,y,n/1,2,\"a\"b
x+y+n;1000000 2000000 1+2+a\"b|x,y,n/1,2,a\"b
x+y;1000000 -2500000  1 +  -2.5|x,y/ 1 ,  -2.5/
x+y+n;1 500000 1e-6++.5+  |x,y,n/1e-6,+.5,  /
x+y;1000000000 -1000000000 1000+-1000|x,y/1000,-1000/";

// Texts with a fault, likewise.
const FAULTS: &str = "\
row 1: no header|
row 1: no header|/^//
row 1: no header|%
row 1: no column of the coordinates|x,n/
row 1: no column of the coordinates|y/1
row 1: no column of the coordinates|x ,y/
row 1: no column of the coordinates|X,y/
row 1: a field that is not UTF-8|~,n/
row 1: a field that is not UTF-8|x,y,n~/1
row 2: another count of fields than the header has|x,y,n/1,2/
row 2: another count of fields than the header has|x,y,n/1,2,a,b/
row 3: another count of fields than the header has|x,y/1,2/\"\"/
row 3: another count of fields than the header has|x,y/1,2//3,~,4
row 2: a field that is not UTF-8|x,y,n/z,2,~
row 3: a field that is not UTF-8|x,y,n/1,2,b/1,~2,a
row 2: a coordinate that can't be read, or beyond 1,000 degrees|x,y,n/1,z,a/
row 2: a coordinate that can't be read, or beyond 1,000 degrees|x,y/z,1/1/
row 3: a coordinate that can't be read, or beyond 1,000 degrees|x,y/1,2//3 4,5
row 2: a coordinate that can't be read, or beyond 1,000 degrees|x,y/,1
row 2: a coordinate that can't be read, or beyond 1,000 degrees|x,y/1,  
row 2: a coordinate that can't be read, or beyond 1,000 degrees|x,y/1@,2
row 2: a coordinate that can't be read, or beyond 1,000 degrees|x,y/1000.000001,1
row 2: a coordinate that can't be read, or beyond 1,000 degrees|x,y/1,-1000.000001
row 5: more columns or rows than a table may have|x,y/1,2/3,4/5,6/z/
row 5: more columns or rows than a table may have|x,y/1,2/3,4/5,6/7,8/9,z";

// The bytes of a text of the rows.
fn bytes_of(alloc: Global, text: &str) -> Result<Vec<u8>, AllocError> {
    let mut bytes = Vec::new(alloc);
    for byte in text.as_bytes() {
        match *byte {
            b'/' => bytes.push(b'\n')?,
            b'^' => bytes.push(b'\r')?,
            b'@' => bytes.push(b'\t')?,
            b'~' => bytes.push(255)?,
            b'%' => bytes.extend_from_slice(&[0xEF, 0xBB, 0xBF])?,
            other => bytes.push(other)?,
        }
    }
    Ok(bytes)
}

// Adds texts with `+` between.
fn add_texts(out: &mut String, texts: &[Text]) -> Result<(), AllocError> {
    for (i, text) in texts.iter().enumerate() {
        if i > 0 {
            out.push_str("+")?;
        }
        out.push_str(text.as_str())?;
    }
    Ok(())
}

// Adds the values of a feature with `+` between.
fn add_values(out: &mut String, values: &Values) -> Result<(), AllocError> {
    for index in 0..MAX_ITEMS {
        let Some(value) = values.get(index) else {
            return Ok(());
        };
        if index > 0 {
            out.push_str("+")?;
        }
        out.push_str(value)?;
    }
    Ok(())
}

// The names of the columns, and of each feature a `;`, its points and its values.
fn written(alloc: Global, table: Table) -> Result<String, AllocError> {
    let TableFields { columns, features } = table.into_fields();
    let mut out = String::new(alloc);
    add_texts(&mut out, columns.as_slice())?;
    for feature in features.into_features(alloc)?.as_slice() {
        out.push_str(";")?;
        for part in feature.get().parts.as_slice() {
            for place in part.as_slice() {
                let (x, y) = (place.x().get().millionths(), place.y().get().millionths());
                write!(out, "{x} {y} ")?;
            }
        }
        add_values(&mut out, &feature.get().values)?;
    }
    Ok(out)
}

// The result for a text with the columns and the limit that are requested.
fn result_of(
    alloc: Global,
    text: &str,
    x: &str,
    y: &str,
    limit: u32,
) -> Result<String, AllocError> {
    let bytes = bytes_of(alloc, text)?;
    match read(alloc, bytes.as_slice(), x, y, limit) {
        Ok(table) => written(alloc, table),
        Err(error) => error.to_string(alloc),
    }
}

// The result for a text with the columns `x` and `y` and the limit 3.
fn result_of_text(alloc: Global, text: &str) -> Result<String, AllocError> {
    let result = result_of(alloc, text, "x", "y", 3)?;
    let result = result.replace(alloc, '\n', "/")?;
    result.replace(alloc, '\r', "^")
}

#[test]
fn texts_are_read_as_tables(rt: HostRuntime) -> Result<(), TableFault> {
    check_rows(rt.alloc(), TABLES, '|', 17, result_of_text)
}

#[test]
fn the_first_fault_is_reported(rt: HostRuntime) -> Result<(), TableFault> {
    check_rows(rt.alloc(), FAULTS, '|', 25, result_of_text)
}

// The result, and after `|` the columns and the limit that are requested, and the text.
const REQUESTED: &str = "\
row 2: more columns or rows than a table may have|x;y;0;x,y,n/1,2,a/
x+y+n|x;y;0;x,y,n/
x+y;4000000 3000000 3+4|y;x;1;x,y/3,4
x+y;4000000 4000000 3+4|y;y;4294967295;x,y/3,4
Länge+;3000000 4000000 3+4|Länge;;1;Länge,/3,4";

fn parts_of(row: &str) -> Option<(&str, &str, u32, &str)> {
    let (x, row) = row.split_once(';')?;
    let (y, row) = row.split_once(';')?;
    let (limit, text) = row.split_once(';')?;
    Some((x, y, limit.parse::<u32>().ok()?, text))
}

fn result_of_row(alloc: Global, row: &str) -> Result<String, AllocError> {
    match parts_of(row) {
        Some((x, y, limit, text)) => result_of(alloc, text, x, y, limit),
        None => String::from_str(alloc, "malformed"),
    }
}

#[test]
fn columns_and_limits_are_those_requested(rt: HostRuntime) -> Result<(), TableFault> {
    check_rows(rt.alloc(), REQUESTED, '|', 5, result_of_row)
}

// Likewise, of 64 and of 65 columns: two or three, and 62 more.
const COLUMNS: &str = "\
x+y+n+n+n+n+n+n+n+n+n+n+n+n+n+n+n+n+n+n+n+n+n+n+n+n+n+n+n+n+n+n+n+n+n+n+n+n+n+n+n+n+n+n+n+n+n+n+n+n+n+n+n+n+n+n+n+n+n+n+n+n+n+n;1000000 2000000 1+2+7+7+7+7+7+7+7+7+7+7+7+7+7+7+7+7+7+7+7+7+7+7+7+7+7+7+7+7+7+7+7+7+7+7+7+7+7+7+7+7+7+7+7+7+7+7+7+7+7+7+7+7+7+7+7+7+7+7+7+7+7+7|x;y;1;x,y,n,n,n,n,n,n,n,n,n,n,n,n,n,n,n,n,n,n,n,n,n,n,n,n,n,n,n,n,n,n,n,n,n,n,n,n,n,n,n,n,n,n,n,n,n,n,n,n,n,n,n,n,n,n,n,n,n,n,n,n,n,n/1,2,7,7,7,7,7,7,7,7,7,7,7,7,7,7,7,7,7,7,7,7,7,7,7,7,7,7,7,7,7,7,7,7,7,7,7,7,7,7,7,7,7,7,7,7,7,7,7,7,7,7,7,7,7,7,7,7,7,7,7,7,7,7/
row 1: more columns or rows than a table may have|x;y;1;n,n,n,n,n,n,n,n,n,n,n,n,n,n,n,n,n,n,n,n,n,n,n,n,n,n,n,n,n,n,n,n,n,n,n,n,n,n,n,n,n,n,n,n,n,n,n,n,n,n,n,n,n,n,n,n,n,n,n,n,n,n,n,n,n/1";

#[test]
fn a_table_has_sixty_four_columns_at_most(rt: HostRuntime) -> Result<(), TableFault> {
    check_rows(rt.alloc(), COLUMNS, '|', 2, result_of_row)
}

// How many features a table of 200,000 rows has with a limit, or its fault.
const MANY: &str = "\
200000 features|200000
row 200001: more columns or rows than a table may have|199999";

fn result_of_many(alloc: Global, limit: &str) -> Result<String, AllocError> {
    let rows = "12.5,-7.25,a\n".repeat(alloc, 200_000)?;
    let text = format!(in alloc; "x,y,n\n{rows}")?;
    let limit = limit.parse::<u32>().unwrap_or(0);
    match read(alloc, text.as_bytes(), "x", "y", limit) {
        Ok(table) => format!(in alloc; "{} features", table.get().features.len()),
        Err(error) => error.to_string(alloc),
    }
}

#[test]
fn a_table_may_have_many_rows(rt: HostRuntime) -> Result<(), TableFault> {
    check_rows(rt.alloc(), MANY, '|', 2, result_of_many)
}

const KINDS: [CsvKind; 6] = [
    CsvKind::NoHeader,
    CsvKind::NoColumn,
    CsvKind::BadNumber,
    CsvKind::Uneven,
    CsvKind::NotText,
    CsvKind::Limit,
];

// The number of each kind, and the message of an error.
const VALUES: &str = "\
[1, 2, 3, 4, 5, 6]|numbers
out of memory|no memory";

fn value_of(alloc: Global, name: &str) -> Result<String, AllocError> {
    match name {
        "numbers" => format!(in alloc; "{:?}", KINDS.map(|kind| kind.number())),
        _ => CsvError::NoMemory.to_string(alloc),
    }
}

#[test]
fn kinds_have_their_numbers(rt: HostRuntime) -> Result<(), TableFault> {
    check_rows(rt.alloc(), VALUES, '|', 2, value_of)
}
