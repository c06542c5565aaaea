use crate::map_replies::map_of;
use mapdefs::{Geometry, Items, Layer, Text};
use mapmachine::{BatchError, MAX_BATCH, Machine};
use std::alloc::{AllocError, Global};
use test_maps::layer_fields;
use test_tables::{TableFault, check_rows};

// The machine of a map with a layer of points `p`, which has none yet, as after so many batches.
fn machine(alloc: Global, sequence: u64) -> Result<Machine, AllocError> {
    let mut fields = layer_fields(alloc, Text::from_str(alloc, "p")?);
    fields.kind = Geometry::Point;
    fields.csv_x = Text::from_str(alloc, "x")?;
    fields.csv_y = Text::from_str(alloc, "y")?;
    let mut layers = Items::new(alloc);
    layers.push(Layer::new(fields))?;
    Machine::open_at(alloc, map_of(alloc, layers), sequence)
}

// Adds the command that appends so many points to `p`.
fn append(alloc: Global, batch: &mut String, count: usize) -> Result<(), AllocError> {
    let bytes = count.saturating_mul(4).saturating_add(4);
    let line = format!(in alloc; "APPEND {bytes} p\nx,y\n")?;
    batch.push_str(line.as_str())?;
    for _ in 0..count {
        batch.push_str("0,0\n")?;
    }
    Ok(())
}

// The result of a batch at a sequence, and the sequence after it.
fn result_of_batch(alloc: Global, sequence: u64, batch: &[u8]) -> Result<String, AllocError> {
    let mut machine = machine(alloc, sequence)?;
    let result = match machine.batch(batch) {
        Ok(number) => format!(in alloc; "published {number}")?,
        Err(BatchError::Fault(fault)) => {
            format!(in alloc; "refused {} {}", fault.index, fault.kind.number())?
        }
        Err(BatchError::NoMemory) => return Err(AllocError),
    };
    format!(in alloc; "{result}, then {}", machine.sequence())
}

// The result of a batch of commands that append points: at a sequence, how many each.
const APPENDS: &str = "\
published 1, then 1=0
published 43, then 43=42 1
refused 2 5, then 0=0 150000 150000
published 1, then 1=0 200000
refused 2 5, then 7=7 1 200000
refused 1 4, then 0=0 200001
published 18446744073709551615, then 18446744073709551615=18446744073709551614
refused 0 8, then 18446744073709551615=18446744073709551615
refused 0 8, then 18446744073709551615=18446744073709551615 1";

fn result_of_appends(alloc: Global, row: &str) -> Result<String, AllocError> {
    let (sequence, counts) = row.split_once(' ').unwrap_or((row, ""));
    let mut batch = String::new(alloc);
    for count in counts.split(' ') {
        if let Ok(count) = count.parse() {
            append(alloc, &mut batch, count)?;
        }
    }
    result_of_batch(
        alloc,
        sequence.parse().unwrap_or(0),
        batch.as_str().as_bytes(),
    )
}

#[test]
fn points_are_appended_up_to_the_most_of_a_layer(rt: HostRuntime) -> Result<(), TableFault> {
    check_rows(rt.alloc(), APPENDS, '=', 9, result_of_appends)
}

// The result of a batch of spaces: at a sequence, how many bytes it has beyond the most.
const LENGTHS: &str = "\
refused 1 6, then 3=3 0
refused 0 7, then 3=3 1
refused 0 7, then 18446744073709551615=18446744073709551615 1";

fn result_of_length(alloc: Global, row: &str) -> Result<String, AllocError> {
    let (sequence, more) = row.split_once(' ').unwrap_or((row, ""));
    let count = MAX_BATCH.saturating_add(more.parse().unwrap_or(0));
    let batch = vec![in alloc; b' '; count]?;
    result_of_batch(alloc, sequence.parse().unwrap_or(0), &batch)
}

#[test]
fn a_batch_has_at_most_so_many_bytes(rt: HostRuntime) -> Result<(), TableFault> {
    assert_eq!(rt; MAX_BATCH, 4_194_304);
    check_rows(rt.alloc(), LENGTHS, '=', 3, result_of_length)
}

// The sequences of a machine and of its copy, where the copy was changed, and then of both where the first was too.
fn result_of_copy(alloc: Global) -> Result<(u64, u64, u64, u64), AllocError> {
    let mut first = machine(alloc, 5)?;
    let mut copy = first.copy()?;
    let _ = copy.batch(b"OFF p\nON p\n");
    let between = (first.sequence(), copy.sequence());
    let _ = first.batch(b"");
    let _ = first.batch(b"CLEAR p\n");
    Ok((between.0, between.1, first.sequence(), copy.sequence()))
}

#[test]
fn a_copy_is_changed_by_itself(rt: HostRuntime) {
    let sequences = result_of_copy(rt.alloc());
    assert!(rt; matches!(sequences, Ok((5, 6, 7, 6))));
}
