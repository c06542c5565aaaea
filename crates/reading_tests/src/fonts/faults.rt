use super::{TINY, edited, fault_text};
use bdffont::{FontError, FontFault, FontKind, read};
use std::alloc::{AllocError, Global};
use test_tables::{TableFault, check_rows};

// The kind and the line of the fault, or zeros, the number of a line of the tiny font and what stands there.
const FAULTS: &str = "\
# lines that don't begin the file, and fields that are missing or can't be read
1 1|1|START 2.1
1 1|1|startfont 2.1
1 1|1|2.1 STARTFONT
1 1|1|
1 1|1|-
2 4|4|FONTBOUNDINGBOX 2 2 0
2 4|4|FONTBOUNDINGBOX 2 x 0 0
2 4|4|FONTBOUNDINGBOX -2 2 0 0
2 4|4|FONTBOUNDINGBOX 2 -2 0 0
2 5|4|-
2 5|5|-
2 4|4|ENDFONT
2 5|5|ENDFONT
2 5|5|CHARS
2 5|5|CHARS -1
2 5|5|CHARS +1
2 5|5|CHARS 1.0
2 10|7|-
2 7|7|ENCODING
2 7|7|ENCODING A
2 7|7|ENCODING -
2 10|9|-
2 9|9|DWIDTH 3
2 9|9|DWIDTH 256 0
2 9|9|DWIDTH -1 0
2 9|9|DWIDTH 3 x
2 10|10|-
2 10|10|BBX 2 2 0
2 10|10|BBX -1 2 0 0
2 10|10|BBX 65 -1 0 0
# keywords that stand where they may not
2 2|2|STARTFONT 2.1
2 2|2|ENDPROPERTIES
2 2|2|ENCODING 65
2 2|2|DWIDTH 3 0
2 2|2|BBX 2 2 0 0
2 2|2|BITMAP
2 2|2|ENDCHAR
2 8|8|STARTFONT 2.1
2 8|8|FONTBOUNDINGBOX 2 2 0 0
2 8|8|CHARS 1
2 8|8|STARTCHAR B
2 8|8|ENDCHAR
2 8|8|ENDFONT
2 8|8|ENDPROPERTIES
2 15|14|ENDCHAR;FONTBOUNDINGBOX 2 2 0 0
2 15|14|ENDCHAR;CHARS 1
2 15|14|ENDCHAR;BBX 2 2 0 0
2 15|14|ENDCHAR;BITMAP
2 15|14|ENDCHAR;ENDCHAR
# rows, counts, limits and ends
3 12|12|C
3 12|12|C00
3 12|12|C000
3 12|12|CG
3 12|12|C@
3 12|12| C0
3 12|12|C0 
3 12|12|
3 13|12|-
3 12|12|ENDCHAR
3 14|13|80;00
3 14|13|80;
3 14|13|80;ENDFONT
3 14|14|-
3 12|10|BBX 9 2 0 0
3 13|10|BBX 2 1 0 0
4 15|5|CHARS 2
4 15|5|CHARS 0
4 15|5|CHARS 4294967297
4 15|5|CHARS 18446744073709551617
4 6|5|CHARS 1;ENDFONT
5 4|4|FONTBOUNDINGBOX 65 2 0 0
5 4|4|FONTBOUNDINGBOX 2 65 0 0
5 4|4|FONTBOUNDINGBOX 2 2 65 0
5 4|4|FONTBOUNDINGBOX 2 2 0 -65
5 10|10|BBX 65 2 0 0
5 10|10|BBX 2 2 -65 0
5 10|10|BBX 2 2 0 65
5 10|10|BBX 2 99999999999999999999999 0 0
6 15|15|-
6 16|15|END
6 16|15|ENDFONT2
6 16|2|STARTPROPERTIES 1
# what is skipped or may be written so, and what a CR is
0 0|1| STARTFONT
0 0|3|
0 0|3|COMMENT ENDFONT
0 0|2|STARTPROPERTIES 3;CHARS 9;ENDFONT;STARTPROPERTIES;ENDPROPERTIES
0 0|8|STARTPROPERTIES 1;ENDCHAR;ENDPROPERTIES
0 0|14|ENDCHAR;STARTPROPERTIES 1;BITMAP;ENDPROPERTIES
0 0|14|ENDCHAR;;COMMENT
0 0|14|  ENDCHAR A
0 0|15|ENDFONT;CHARS x
0 0|4|FONTBOUNDINGBOX 64 64 -64 64
0 0|5|CHARS 9;CHARS  01 9
0 0|7|ENCODING 4294967295
0 0|7|ENCODING 4294967296
0 0|7|ENCODING 99999999999999999999999
0 0|7|ENCODING -1 65
0 0|7|ENCODING 66;ENCODING 65 x
0 0|8|BBX 64 64 64 -64
0 0|9|DWIDTH 255 -9
0 0|10|BBX 2 2 -0 00
0 0|12|c0~
0 0|15|ENDFONT~
0 0|8|SWIDTH 1~CHARS 1
3 12|12|C0~~
0 0|1|STARTFONT~
6 16|15|ENDFONT~x";

fn result_of(alloc: Global, source: &[u8]) -> Result<String, AllocError> {
    match read(alloc, source) {
        Ok(_) => String::from_str(alloc, "0 0"),
        Err(error) => fault_text(alloc, error),
    }
}

fn result_of_edited(alloc: Global, row: &str) -> Result<String, AllocError> {
    let Some((number, text)) = row.split_once('|') else {
        return String::from_str(alloc, "malformed");
    };
    let source = edited(alloc, number, text)?;
    result_of(alloc, &source)
}

#[test]
fn fonts_have_their_first_fault(rt: HostRuntime) -> Result<(), TableFault> {
    check_rows(rt.alloc(), FAULTS, '|', 107, result_of_edited)
}

// The same of a whole file, and of the tiny font.
const WHOLE: &str = "\
1 1|
6 2|STARTFONT 2.1
0 0|TINY";

fn result_of_whole(alloc: Global, text: &str) -> Result<String, AllocError> {
    if text == "TINY" {
        result_of(alloc, TINY.as_bytes())
    } else {
        result_of(alloc, text.as_bytes())
    }
}

#[test]
fn no_bytes_have_no_first_line(rt: HostRuntime) -> Result<(), TableFault> {
    check_rows(rt.alloc(), WHOLE, '|', 3, result_of_whole)
}

const KINDS: [FontKind; 6] = [
    FontKind::Start,
    FontKind::Field,
    FontKind::Row,
    FontKind::Count,
    FontKind::Limit,
    FontKind::Truncated,
];

fn fault_on(line: u64, kind: FontKind) -> FontFault {
    FontFault { line, kind }
}

fn number_and_message(alloc: Global, kind: FontKind) -> Result<String, AllocError> {
    format!(in alloc; "{} {kind}", kind.number())
}

// Each kind by its index in the list: its number and its message. Then the messages of a fault, of an error and
// of no memory.
const VALUES: &str = "\
1 the first line does not begin with STARTFONT|0
2 a field that is missing, out of place or can't be read|1
3 a row of a glyph with the wrong digits, or rows with no ENDCHAR after them|2
4 another number of glyphs than CHARS says|3
5 a box that is too large, or more than 65,536 glyphs|4
6 the file ends before ENDFONT|5
line 7: another number of glyphs than CHARS says|fault
line 7: another number of glyphs than CHARS says; out of memory|errors";

fn message_of(alloc: Global, name: &str) -> Result<String, AllocError> {
    let fault = fault_on(7, FontKind::Count);
    let (error, memory) = (FontError::Fault(fault), FontError::NoMemory);
    match name {
        "fault" => format!(in alloc; "{fault}"),
        "errors" => format!(in alloc; "{error}; {memory}"),
        index => match KINDS.get(index.parse::<usize>().unwrap_or(9)) {
            Some(kind) => number_and_message(alloc, *kind),
            None => String::from_str(alloc, "malformed"),
        },
    }
}

#[test]
fn faults_have_messages(rt: HostRuntime) -> Result<(), TableFault> {
    check_rows(rt.alloc(), VALUES, '|', 8, message_of)
}
