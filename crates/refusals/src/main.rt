//! Makes calls that take memory, each on a worked row, and prints their answers. Standard input names the calls, a line
//! each. Where a call reports that memory was refused, it is made once more, and before that the state that it was to
//! change is printed.
//!
//! The lines `>` and `<` are before and after each call, so that a library which refuses memory knows when to:
//! `tests/gate/refusals.py` has one.
#![tactic(auto)]

mod changing;
mod journals;
mod marks;
mod reading;
mod sharing_rows;

use crate::changing::{append_row, batch_row, exchange_row, run_row, script_row};
use crate::journals::{compact_row, left_row, note_row, put_row, recover_row};
use crate::marks::print_answer;
use crate::reading::{
    document_row, expression_row, font_row, head_row, open_row, parse_row, pixmap_row, query_row,
    reply_row, smoothed_row, table_row,
};
use crate::sharing_rows::{accept_row, enter_row, share_row, submit_row};
use std::io;
use std::sync::Wait;

// Queries whose answers the machine takes memory for.
const PICTURE: &[u8] =
    b"VERSION=1.3.0&REQUEST=GetMap&LAYERS=a,p&STYLES=&CRS=CRS:84&BBOX=0,0,2,1&WIDTH=2&HEIGHT=1&FORMAT=image/x-portable-pixmap";

const PNG: &[u8] =
    b"VERSION=1.3.0&REQUEST=GetMap&LAYERS=a,p&STYLES=&CRS=CRS:84&BBOX=0,0,2,1&WIDTH=2&HEIGHT=1&FORMAT=image/png&TRANSPARENT=TRUE";

const MAP: &[u8] =
    b"VERSION=1.3.0&REQUEST=GetMap&LAYERS=a,p&STYLES=&CRS=CRS:84&BBOX=0,0,2,1&WIDTH=2&HEIGHT=1&FORMAT=image/x-portable-arbitrarymap&TRANSPARENT=TRUE";

const HITS: &[u8] =
    b"VERSION=1.3.0&REQUEST=GetFeatureInfo&LAYERS=p&CRS=CRS:84&BBOX=0,0,2,1&WIDTH=2&HEIGHT=1&QUERY_LAYERS=p&INFO_FORMAT=text/plain&I=0&J=0";

const CAPABILITIES: &[u8] = b"REQUEST=GetCapabilities&UPDATESEQUENCE=0";

// The answer of a call of this name that changes nothing. Without an answer memory was refused.
fn answer(rt: &HostRuntime, name: &str) -> io::Result<Option<String>> {
    match name {
        "parse" => parse_row(rt),
        "table" => table_row(rt),
        "pixmap" => pixmap_row(rt),
        "font" => font_row(rt),
        "expression" => expression_row(rt),
        "query" => query_row(rt),
        "document" => document_row(rt),
        "open" => open_row(rt),
        "head" => head_row(rt),
        "recover" => recover_row(rt),
        "note" => note_row(rt),
        "left" => left_row(rt),
        "picture" => reply_row(rt, PICTURE),
        "png" => reply_row(rt, PNG),
        "smoothed" => smoothed_row(rt, MAP),
        "hits" => reply_row(rt, HITS),
        _ => reply_row(rt, CAPABILITIES),
    }
}

// Makes the call of this name. A call that waits for readers gets the handle to wait.
fn play<R: AllocGlobal + Wait>(waits: &R, rt: &HostRuntime, name: &str) -> io::Result<()> {
    println!(rt; "== {name}")?;
    match name {
        "append" => append_row(rt),
        "batch" => batch_row(rt),
        "run" => run_row(rt),
        "script" => script_row(rt),
        "exchange" => exchange_row(rt),
        "put" => put_row(rt),
        "compact" => compact_row(rt),
        "share" => share_row(waits, rt),
        "submit" => submit_row(waits, rt),
        "accept" => accept_row(waits, rt),
        "enter" => enter_row(waits, rt),
        reading => {
            if !print_answer(rt, answer(rt, reading)?)? {
                print_answer(rt, answer(rt, reading)?)?;
            }
            Ok(())
        }
    }
}

fn main(rt: HostRuntime) -> io::Result<()> {
    for name in rt.lines(rt.alloc()) {
        play(&rt, &rt, name?.as_str())?;
    }
    Ok(())
}
