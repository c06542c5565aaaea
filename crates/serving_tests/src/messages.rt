use httpedge::{Busy, EdgeFault};
use std::alloc::{AllocError, Global};
use streams::{PutFailed, TakeFailed, WriteFault};
use test_tables::{TableFault, check_rows};

// A message, `|` and its crate.
const MESSAGES: &str = "\
the reader failed, the writer failed, the writer failed after 98 bytes|mapmachine
the server is busy, the reader failed after 279 bytes were written, the writer failed after 98 bytes|httpedge
# whether faults of writing are equal that differ in their number of bytes
false false|others";

fn rows_of_messages(alloc: Global, row: &str) -> Result<String, AllocError> {
    let failed = WriteFault { written: 98 };
    let cut = EdgeFault::Write { written: 98 };
    let shorter = EdgeFault::Write { written: 97 };
    match row {
        "mapmachine" => format!(in alloc; "{}, {}, {failed}", TakeFailed, PutFailed),
        "httpedge" => format!(in alloc; "{}, {}, {cut}", Busy, EdgeFault::Read { written: 279 }),
        "others" => format!(in alloc;
            "{} {}",
            cut == shorter,
            failed == WriteFault { written: 97 }
        ),
        _ => String::from_str(alloc, "malformed"),
    }
}

#[test]
fn faults_have_messages(rt: HostRuntime) -> Result<(), TableFault> {
    check_rows(rt.alloc(), MESSAGES, '|', 3, rows_of_messages)
}
