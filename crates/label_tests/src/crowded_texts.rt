use crate::entries::{Entry, label_of, plain_label};
use crate::fonts::fonts_of;
use crate::plain_program::compared;
use crate::sequences::{is_one_of, next, next_position, next_sides};
use geom::Factor;
use std::alloc::{AllocError, Global};
use test_tables::{TableFault, check_rows};

// Some 600 candidates of one text, on a picture or around it. Three in four are forced.
fn next_crowd(alloc: Global, state: &mut u64) -> Result<Vec<Entry>, AllocError> {
    let mut entries = Vec::new(alloc);
    for _ in 0..600_u16 {
        let (i, j) = (next(state, 300), next(state, 300));
        let mut fields = plain_label();
        fields.priority = [1, 1, 2, 3, 9, 10][next(state, 6).clamp(0, 5) as usize];
        fields.position = next_position(state);
        fields.mindistance = [0, 4, 9, 13, 13, 14, 20, 40][next(state, 8).clamp(0, 7) as usize];
        fields.partials = true;
        fields.force = !is_one_of(state, 4);
        entries.push(Entry {
            text: "A",
            i: i.wrapping_sub(100),
            j: j.wrapping_sub(100),
            label: label_of(fields),
            factor: Factor::of(if is_one_of(state, 3) { 2 } else { 1 }),
        })?;
    }
    Ok(entries)
}

// The result of 20 such sets, whose text has no pixel, so that anchors alone decide: `ok` where both programs place the same
// labels, of each set more than 300 and not all; else the number of the set.
fn result_of_crowds(alloc: Global, seed: &str) -> Result<String, AllocError> {
    let fonts = fonts_of(alloc, "flat")?;
    let mut state = seed.parse::<u64>().unwrap_or(0);
    for number in 0..20_u16 {
        let sides = next_sides(&mut state);
        let entries = next_crowd(alloc, &mut state)?;
        match compared(alloc, fonts.as_slice(), sides, &entries)? {
            Some((placed, left_out)) if placed > 300 && left_out > 50 => {}
            _ => return format!(in alloc; "set {number} differs"),
        }
    }
    format!(in alloc; "ok")
}

#[test]
fn crowds_of_one_text_are_those_of_a_plain_program(rt: HostRuntime) -> Result<(), TableFault> {
    check_rows(rt.alloc(), "ok=20267", '=', 1, result_of_crowds)
}
