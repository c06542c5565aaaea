// What is left of batches, worked by hand.

use compaction::LastChanges;
use std::alloc::{AllocError, Global};
use test_tables::{TableFault, check_rows};

// The number of commands, and what is left of each batch of which something is. Between batches stands `|`; an LF is written as `;`, and a CR as `^`.
const LEFT: &str = "\
# nothing undoes an APPEND, and an APPEND undoes nothing
2: APPEND 2 a;xyAPPEND 1 a;z=APPEND 2 a;xyAPPEND 1 a;z
2: CLEAR a;|APPEND 1 a;z=CLEAR a;|APPEND 1 a;z
# a CLEAR undoes the APPENDs and CLEARs of its layer, and of no other
4: APPEND 1 b;z|CLEAR a;=APPEND 2 a;xy|APPEND 1 b;z|APPEND 1 a;w|CLEAR a;
3: CLEAR a;=CLEAR a;|CLEAR a;|CLEAR a;
3: CLEAR a;=CLEAR a;|APPEND 1 a;x|CLEAR a;
3: CLEAR b;|CLEAR a;=CLEAR a;|CLEAR b;|CLEAR a;
3: CLEAR a;APPEND 1 a;y=APPEND 1 a;x|CLEAR a;APPEND 1 a;y
# ON and OFF undo an ON or OFF of their layer, and of no other
3: ON a;=ON a;|OFF a;|ON a;
3: OFF b;|ON a;=ON a;|OFF b;|ON a;
2: OFF a;=ON a;OFF a;
# neither undoes the other kind
3: ON a;|CLEAR a;|APPEND 1 a;x=ON a;|CLEAR a;|APPEND 1 a;x
3: CLEAR a;|APPEND 1 a;x|OFF a;=CLEAR a;|APPEND 1 a;x|OFF a;
4: CLEAR a;|ON a;=APPEND 1 a;x|ON a;|CLEAR a;|ON a;
# within a batch
5: CLEAR a;OFF b;APPEND 1 a;y=APPEND 1 a;x|ON b;CLEAR a;OFF b;APPEND 1 a;y
# a batch of which nothing is left, and an empty one
2: CLEAR a;=APPEND 3 a;x;y|CLEAR a;
1: ON a;=|ON a;|
0: =|
# the number of a command is counted over all batches
5: ON c;|CLEAR a;|OFF b;=ON b;APPEND 1 a;x|ON c;|CLEAR a;APPEND a|OFF b;
6: ON c;|CLEAR a;|OFF b;=ON b;APPEND 1 a;x|ON c;|CLEAR a;OFF b;|OFF b;
# names differ in case, in length, and in a space
3: ON a;|ON A;|OFF aa;=ON a;|ON A;|OFF aa;
3: OFF a ;|ON a;=ON a;|OFF a ;|ON a;
3: OFF ab;|ON a;=ON a;|OFF ab;|ON a;
2: ON ;=OFF ;|ON ;
# a CR before LF is no part of a name, and stays where it stands
2: ON a^;=OFF a;|ON a^;
2: OFF a^;|ON a^^;=OFF a^;|ON a^^;
3: CLEAR a;APPEND 1 a^;x=APPEND 1 a^;x|CLEAR a;APPEND 1 a^;x
# the bytes of a table are no commands
2: APPEND 9 a;CLEAR a;;ON b;=APPEND 9 a;CLEAR a;;ON b;
3: CLEAR b;|APPEND 9 a;CLEAR b;;=APPEND 1 b;x|CLEAR b;|APPEND 9 a;CLEAR b;;
# what can't be read ends a batch
2: OFF a;=ON a;ONa;|OFF a;
1: ON a;=ON a;OFF a";

// What is left of the batches of a row.
fn left_of(alloc: Global, row: &str) -> Result<String, AllocError> {
    let text = row.replace(alloc, ';', "\n")?;
    let text = text.as_str().replace(alloc, '^', "\r")?;
    let mut last = LastChanges::new(alloc);
    for batch in text.as_str().split('|') {
        last.note(batch.as_bytes())?;
    }
    let mut count = 0;
    let mut left = Vec::new(alloc);
    let mut found = String::new(alloc);
    for batch in text.as_str().split('|') {
        left.clear();
        count = last.add_left(count, batch.as_bytes(), &mut left)?;
        if !left.is_empty() {
            if !found.is_empty() {
                found.push_str("|")?;
            }
            found.push_str(str::from_utf8(left.as_slice()).unwrap_or("?"))?;
        }
    }
    let found = found.as_str().replace(alloc, '\n', ";")?;
    let found = found.as_str().replace(alloc, '\r', "^")?;
    format!(in alloc; "{count}: {found}")
}

#[test]
fn worked_commands_are_left(rt: HostRuntime) -> Result<(), TableFault> {
    check_rows(rt.alloc(), LEFT, '=', 30, left_of)
}
