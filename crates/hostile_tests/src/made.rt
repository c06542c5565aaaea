use crate::tally::Tally;
use std::alloc::{AllocError, Global};

// How many random sources are made, and how many bytes each has.
const SEEDS: u32 = 8;

const LENGTH: usize = 4_096;

// The source with another byte at an index.
fn replaced(alloc: Global, source: &[u8], at: usize, byte: u8) -> Result<Vec<u8>, AllocError> {
    let mut bytes = Vec::from_slice(alloc, source)?;
    if let Some(old) = bytes.get_mut(at) {
        *old = byte;
    }
    Ok(bytes)
}

// The next number of a sequence, below 65,536.
fn next(state: &mut u32) -> u32 {
    *state = state.wrapping_mul(1_103_515_245).wrapping_add(12_345);
    *state / 65_536
}

// Random bytes.
fn drawn(alloc: Global, seed: u32) -> Result<Vec<u8>, AllocError> {
    let mut state = seed;
    let mut bytes = Vec::new(alloc);
    for _ in 0..LENGTH {
        bytes.push((next(&mut state) % 256) as u8)?;
    }
    Ok(bytes)
}

// Random lines of the source.
fn of_lines(alloc: Global, source: &[u8], seed: u32) -> Result<Vec<u8>, AllocError> {
    let mut lines = Vec::new(alloc);
    for line in source.split(|byte| *byte == b'\n') {
        lines.push(line)?;
    }
    let mut state = seed;
    let mut bytes = Vec::new(alloc);
    for _ in 0..LENGTH {
        if bytes.len() >= LENGTH {
            break;
        }
        let number = next(&mut state) as usize;
        if let Some(index) = number.checked_rem(lines.len()) {
            bytes.extend_from_slice(lines.get(index).copied().unwrap_or(&[]))?;
        }
        bytes.push(b'\n')?;
    }
    bytes.truncate(LENGTH);
    Ok(bytes)
}

/// The tally of the inputs that are made of a source: `prefixes`, sources that are `drawn` or of its `lines`, or the
/// source with each byte replaced by the one of that number.
pub fn tally_of<F: Fn(Global, &[u8], &mut Tally) -> Result<(), AllocError>>(
    alloc: Global,
    source: &[u8],
    way: &str,
    add: F,
) -> Result<String, AllocError>
    requires { F.IsAlwaysCallable add }
{
    let mut tally = Tally::new();
    match way {
        "prefixes" => {
            for length in 0..=source.len() {
                add(alloc, source.get(..length).unwrap_or(source), &mut tally)?;
            }
        }
        "drawn" => {
            for seed in 0..SEEDS {
                add(alloc, &drawn(alloc, seed)?, &mut tally)?;
            }
        }
        "lines" => {
            for seed in 0..SEEDS {
                add(alloc, &of_lines(alloc, source, seed)?, &mut tally)?;
            }
        }
        number => {
            let byte = number.parse::<u8>().unwrap_or(0);
            for at in 0..source.len() {
                add(alloc, &replaced(alloc, source, at, byte)?, &mut tally)?;
            }
        }
    }
    tally.text(alloc)
}
