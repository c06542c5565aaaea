mod faults;
mod texts;

use bdffont::FontError;
use std::alloc::{AllocError, Global};

// A font of one glyph, whose rows are `##` and `#.`.
const TINY: &str = "\
STARTFONT 2.1\n\
FONT tiny\n\
SIZE 2 75 75\n\
FONTBOUNDINGBOX 2 2 0 0\n\
CHARS 1\n\
STARTCHAR A\n\
ENCODING 65\n\
SWIDTH 1440 0\n\
DWIDTH 3 0\n\
BBX 2 2 0 0\n\
BITMAP\n\
C0\n\
80\n\
ENDCHAR\n\
ENDFONT";

// Adds some lines, of which `;` is an LF and `~` a CR.
fn add_lines(source: &mut Vec<u8>, text: &str) -> Result<(), AllocError> {
    for byte in text.bytes() {
        let byte = match byte {
            b';' => b'\n',
            b'~' => b'\r',
            other => other,
        };
        source.push(byte)?;
    }
    source.push(b'\n')?;
    Ok(())
}

// The tiny font with other lines in the section of one, or none where they are `-`.
fn edited(alloc: Global, number: &str, text: &str) -> Result<Vec<u8>, AllocError> {
    let number = number.parse::<usize>().unwrap_or(0);
    let mut source = Vec::new(alloc);
    for (i, line) in TINY.lines().enumerate() {
        if i.checked_add(1) != Some(number) {
            add_lines(&mut source, line)?;
        } else if text != "-" {
            add_lines(&mut source, text)?;
        }
    }
    Ok(source)
}

// The kind's number and the line of a fault.
fn fault_text(alloc: Global, error: FontError) -> Result<String, AllocError> {
    match error {
        FontError::Fault(fault) => format!(in alloc; "{} {}", fault.kind.number(), fault.line),
        FontError::NoMemory => Err(AllocError),
    }
}
