use crate::entries::{Entry, label_of, page_side, placed_of, plain_label};
use crate::fonts::fonts_of;
use crate::labelled_maps::colour_of;
use geom::Factor;
use labelcache::Placed;
use mapdefs::{LabelFields, Position, Rgb};
use std::alloc::{AllocError, Global};
use test_tables::{TableFault, check_rows};

// The position with this keyword of a mapfile.
fn position_of(keyword: &str) -> Position {
    match keyword {
        "UL" => Position::UpperLeft,
        "UC" => Position::UpperCentre,
        "UR" => Position::UpperRight,
        "CL" => Position::CentreLeft,
        "CR" => Position::CentreRight,
        "LL" => Position::LowerLeft,
        "LC" => Position::LowerCentre,
        "LR" => Position::LowerRight,
        "AUTO" => Position::Automatic,
        _ => Position::Centre,
    }
}

/// Sets the field of a code: `F` for FORCE, `P` for PARTIALS, `o` for an outline, `n` for no colour, a colour as `c#`
/// and that of an outline as `r#`, the width of an outline as `w2`, the index of its font as `t1`, a priority as `p2`, a buffer as `b3`, a distance as
/// `d5`, and else a position.
pub(crate) fn set(label: &mut LabelFields, code: &str) {
    if let Some(letter) = code.strip_prefix('c') {
        label.colour = colour_of(letter);
    } else if let Some(letter) = code.strip_prefix('r') {
        label.outline = colour_of(letter);
    } else if code == "F" {
        label.force = true;
    } else if code == "P" {
        label.partials = true;
    } else if code == "o" {
        label.outline = label.colour;
    } else if code == "n" {
        label.colour = None;
    } else if let Some(width) = code.strip_prefix('w') {
        label.outline_width = width.parse::<u8>().unwrap_or(0);
    } else if let Some(index) = code.strip_prefix('t') {
        label.font = index.parse::<usize>().ok();
    } else if let Some(priority) = code.strip_prefix('p') {
        label.priority = priority.parse::<u8>().unwrap_or(0);
    } else if let Some(buffer) = code.strip_prefix('b') {
        label.buffer = buffer.parse::<u8>().unwrap_or(0);
    } else if let Some(distance) = code.strip_prefix('d') {
        label.mindistance = distance.parse::<u16>().unwrap_or(0);
    } else {
        label.position = position_of(code);
    }
}

// The text of a row's code.
fn text_of(code: &str) -> Option<&'static str> {
    match code {
        "A" => Some("A"),
        "AA" => Some("AA"),
        "AB" => Some("AB"),
        "B" => Some("B"),
        _ => None,
    }
}

// A candidate as its text, the column and the row of its anchor, and the codes of its label, with a factor as `f2`.
fn entry(row: &str) -> Option<Entry> {
    let mut codes = row.split(' ');
    let text = text_of(codes.next()?)?;
    let i = codes.next()?.parse::<i64>().ok()?;
    let j = codes.next()?.parse::<i64>().ok()?;
    let mut fields = plain_label();
    let mut factor = Factor::of(1);
    for code in codes {
        if let Some(times) = code.strip_prefix('f') {
            factor = Factor::new(times.parse::<u8>().ok()?)?;
        } else {
            set(&mut fields, code);
        }
    }
    Some(Entry {
        text,
        i,
        j,
        label: label_of(fields),
        factor,
    })
}

// The candidates that `;` parts, one of them as often as a number after ` x` says. A malformed one ends a test as one for which memory is refused.
fn entries(alloc: Global, list: &str) -> Result<Vec<Entry>, AllocError> {
    let mut entries = Vec::new(alloc);
    for row in list.split(';') {
        let (row, times) = row.split_once(" x").unwrap_or((row, "1"));
        for _ in 0..times.parse::<usize>().unwrap_or(0) {
            entries.push(entry(row).ok_or(AllocError)?)?;
        }
    }
    Ok(entries)
}

// The labels of a row: the names of fonts, the sides of a square picture, and the candidates.
fn placed(alloc: Global, row: &str) -> Result<Vec<Placed>, AllocError> {
    let (page, list) = row.split_once('|').ok_or(AllocError)?;
    let (name, pixels) = page.split_once(' ').ok_or(AllocError)?;
    let side = page_side(pixels.parse::<i64>().unwrap_or(0));
    let fonts = fonts_of(alloc, name)?;
    let entries = entries(alloc, list)?;
    placed_of(alloc, side, side, fonts.as_slice(), &entries)
}

// Adds where a label stands, as its number, the upper left pixel of its text, and its box.
fn write_label(out: &mut String, label: &Placed) -> Result<(), AllocError> {
    let (at, taken) = (label.at, label.taken);
    write!(out, "{}@{},{}", label.number, at.i(), at.j())?;
    write!(
        out,
        ":{},{}-{},{} ",
        taken.left(),
        taken.top(),
        taken.right(),
        taken.bottom()
    )
}

// The result for all labels of a row, in order.
fn result_of_row(alloc: Global, row: &str) -> Result<String, AllocError> {
    let labels = placed(alloc, row)?;
    let mut text = String::new(alloc);
    for label in labels.as_slice() {
        write_label(&mut text, label)?;
    }
    Ok(text)
}

// Texts of `tiny` are 3 pixels wide for each A, without any width for a B, and 2 high; of `uneven` 2 for each A,
// 5 for each B, and 5 high; of `flat` 3 for each A, and without height.
const PLACED: &str = "\
# the higher number stands at the first position, and the other at the second
1@5,2:5,2-8,4 0@1,2:1,2-4,4 =tiny 10|A 4 4 AUTO;A 4 4 AUTO
# a higher priority goes first, whatever the numbers
1@3,3:3,3-6,5 =tiny 10|A 4 4 p2;A 4 4 p3;A 4 4 p2
0@3,3:3,3-6,5 2@3,6:3,6-6,8 1@3,0:3,0-6,2 =tiny 10|A 4 4 p10;A 4 1;A 4 7 p9
# with FORCE labels stand over others, and keep later ones away
1@3,3:3,3-6,5 0@3,3:3,3-6,5 =tiny 10|A 4 4 F;A 4 4 F
1@3,3:3,3-6,5 0@3,3:3,3-6,5 =tiny 10|A 4 4 F;A 4 4
1@3,3:3,3-6,5 =tiny 10|A 4 4;A 4 4 F
# without PARTIALS the whole box lies in the picture, with FORCE too
=tiny 10|A 0 4 F
0@-1,3:-1,3-2,5 =tiny 10|A 0 4 F P
0@0,0:0,0-3,2 =tiny 3|A 1 1
=tiny 2|A 1 1
0@0,0:0,0-3,2 =tiny 2|A 1 1 P
# boxes that share pixels off the picture alone collide
1@-3,3:-3,3-0,5 =tiny 10|A 0 4 CL P;A 0 4 CL P
1@-2,-2:-2,-2-1,0 0@-5,-2:-5,-2--2,0 =tiny 10|A -4 -1 P;A -1 -1 P
# equal texts keep the distance of the candidate that is tried
1@5,3:5,3-8,5 0@1,3:1,3-4,5 =tiny 10|A 2 4 d4;A 6 4 d4
1@5,3:5,3-8,5 =tiny 10|A 2 4 d5;A 6 4 d5
1@5,6:5,6-8,8 0@1,3:1,3-4,5 =tiny 10|A 2 4 d5;A 6 7
1@5,6:5,6-8,8 =tiny 10|A 2 4 d6;A 6 7
1@5,3:5,3-8,5 0@1,3:1,3-4,5 =tiny 10|A 2 4;A 6 4 d9
1@5,3:5,3-8,5 =tiny 10|A 2 4 d9;A 6 4
1@5,3:5,3-8,5 0@1,3:1,3-4,5 =tiny 10|A 2 4 d9 F;A 6 4
# other texts don't
1@4,3:4,3-10,5 0@1,3:1,3-4,5 =tiny 10|A 2 4 d9;AA 7 4 d9
# the buffer and an outline widen the box on all four sides
0@3,3:1,1-8,7 =tiny 10|A 4 4 b2
0@3,3:2,2-7,6 =tiny 10|A 4 4 o
0@3,3:0,0-9,8 =tiny 10|A 4 4 b2 o
=tiny 10|A 4 4 b3 o
0@3,3:0,0-9,8 =tiny 10|A 4 4 b3
1@3,3:2,2-7,6 =tiny 10|A 4 6;A 4 4 o
1@3,3:3,3-6,5 0@3,5:3,5-6,7 =tiny 10|A 4 6;A 4 4
# a label without a colour takes its room
1@3,3:3,3-6,5 =tiny 10|A 4 4;A 4 4 n
# the sides of texts, and boxes without a pixel
0@1,3:1,3-7,5 =tiny 10|AA 4 4
1@4,3:4,3-4,5 0@3,3:3,3-6,5 =tiny 10|A 4 4;B 4 4
1@4,3:3,2-5,6 =tiny 10|A 4 4;B 4 4 b1
1@3,4:3,4-6,4 0@3,4:3,4-6,4 =flat 10|A 4 4;A 4 4
1@3,4:3,4-6,4 =flat 10|A 4 4 d1;A 4 4
# odd sides are halved downwards
0@13,15:13,15-20,20 =uneven 40|AB 20 20 UL
0@17,15:17,15-24,20 =uneven 40|AB 20 20 UC
0@21,15:21,15-28,20 =uneven 40|AB 20 20 UR
0@13,18:13,18-20,23 =uneven 40|AB 20 20 CL
0@17,18:17,18-24,23 =uneven 40|AB 20 20 CC
0@21,18:21,18-28,23 =uneven 40|AB 20 20 CR
0@13,21:13,21-20,26 =uneven 40|AB 20 20 LL
0@17,21:17,21-24,26 =uneven 40|AB 20 20 LC
0@21,21:21,21-28,26 =uneven 40|AB 20 20 LR
# the width of an outline counts on fine pictures alone
0@3,3:2,2-7,6 =tiny 10|A 4 4 o w2
# a buffer, a distance and the width of an outline are those of the map
0@19,19:13,13-28,27 =tiny 40|A 20 20 b2 f3
0@19,19:11,11-30,29 =tiny 40|A 20 20 b1 o f4
0@19,19:10,10-31,30 =tiny 40|A 20 20 b1 o w2 f3
0@19,19:3,3-38,37 =tiny 40|A 20 20 o w8 f2
1@21,19:21,19-24,21 0@9,19:9,19-12,21 =tiny 40|A 10 20 d4 f3;A 22 20
1@21,19:21,19-24,21 =tiny 40|A 10 20 d4 f4;A 22 20
# each label has the sides of its own font, whichever comes first
0@3,2:3,2-5,7 =tiny+uneven 10|A 4 4 t1
0@3,3:3,3-6,5 =uneven+tiny 10|A 4 4 t1
0@3,3:3,3-6,5 =tiny+uneven 10|A 4 4 t0
# a label of a large font is shut out by one of a small, and the other way
1@4,1:4,1-7,3 =tiny+uneven 10|A 4 4 t1;A 5 2
1@4,1:4,1-7,3 0@3,3:3,3-6,5 =tiny+uneven 10|A 4 4;A 5 2
1@3,2:3,2-5,7 =tiny+uneven 10|A 5 2;A 4 4 t1
1@4,1:4,1-7,3 0@3,2:3,2-5,7 =tiny+uneven 10|A 4 4 t1 F;A 5 2
# equal texts keep their distance in other fonts too
1@5,2:5,2-7,7 =tiny+uneven 10|A 2 4 d5;A 6 4 t1
1@5,2:5,2-7,7 0@1,3:1,3-4,5 =tiny+uneven 10|A 2 4 d4;A 6 4 t1
# what is cut at the border goes by the label's font
=tiny+uneven 10|A 4 1 t1
0@3,-1:3,-1-5,4 =tiny+uneven 10|A 4 1 t1 P
0@3,0:3,0-6,2 =tiny+uneven 10|A 4 1
# the border round a text is wide in each font
0@3,2:1,0-7,9 =tiny+uneven 10|A 4 4 t1 b1 o
# a text has no sides where its font isn't there
0@4,4:4,4-4,4 =tiny+uneven 10|A 4 4 t2
# in the last corner of the largest picture, and a pixel too far right or down
0@8189,8190:8189,8190-8192,8192 =tiny 8192|A 8190 8191
=tiny 8192|A 8191 8191
=tiny 8192|A 8190 8192";

#[test]
fn labels_stand_at_worked_corners(rt: HostRuntime) -> Result<(), TableFault> {
    check_rows(rt.alloc(), PLACED, '=', 67, result_of_row)
}

// The result for the first candidate of a row: the corner of its text, or `-`.
fn corner_of_first(alloc: Global, row: &str) -> Result<String, AllocError> {
    let labels = placed(alloc, row)?;
    for label in labels.as_slice() {
        if label.number == 0 {
            let at = label.at;
            return format!(in alloc; "{},{}", at.i(), at.j());
        }
    }
    format!(in alloc; "-")
}

// 258 labels of one text are forced, the last two of them away from the others. One more keeps its distance to the 257th, to the 258th,
// and to one of the first 256; and then misses each by a pixel.
const MANY_OF_ONE_TEXT: &str = "\
12,23=tiny 40|A 13 24 d5;A 30 30 F;A 10 20 F;A 8 2 F;A 2 2 F x255
-=tiny 40|A 13 24 d6;A 30 30 F;A 10 20 F;A 8 2 F;A 2 2 F x255
24,17=tiny 40|A 25 18 d13;A 30 30 F;A 10 20 F;A 8 2 F;A 2 2 F x255
-=tiny 40|A 25 18 d14;A 30 30 F;A 10 20 F;A 8 2 F;A 2 2 F x255
7,9=tiny 40|A 8 10 d8;A 30 30 F;A 10 20 F;A 8 2 F;A 2 2 F x255
-=tiny 40|A 8 10 d9;A 30 30 F;A 10 20 F;A 8 2 F;A 2 2 F x255";

#[test]
fn many_labels_of_one_text_keep_their_distance(rt: HostRuntime) -> Result<(), TableFault> {
    check_rows(rt.alloc(), MANY_OF_ONE_TEXT, '=', 6, corner_of_first)
}

// Each row keeps the text from one position more: by a label that overlaps none that are tried later.
const AUTOMATIC: &str = "\
15,12=tiny 30|A 14 14 AUTO
11,12=tiny 30|A 14 14 AUTO;A 18 12 F
15,15=tiny 30|A 14 14 AUTO;A 18 12 F;A 10 12 F
11,15=tiny 30|A 14 14 AUTO;A 18 12 F;A 10 12 F;A 18 17 F
15,13=tiny 30|A 14 14 AUTO;A 18 12 F;A 10 12 F;A 18 17 F;A 10 17 F
11,13=tiny 30|A 14 14 AUTO;A 18 12 F;A 10 12 F;A 18 17 F;A 10 17 F;A 18 15 F
13,12=tiny 30|A 14 14 AUTO;A 18 12 F;A 10 12 F;A 18 17 F;A 10 17 F;A 18 15 F;A 10 15 F
13,15=tiny 30|A 14 14 AUTO;A 18 12 F;A 10 12 F;A 18 17 F;A 10 17 F;A 18 15 F;A 10 15 F;A 14 12 F
-=tiny 30|A 14 14 AUTO;A 18 12 F;A 10 12 F;A 18 17 F;A 10 17 F;A 18 15 F;A 10 15 F;A 14 12 F;A 14 17 F
# a label that says where it stands is tried there alone
-=tiny 30|A 14 14 UR;A 18 12 F";

#[test]
fn automatic_labels_take_the_first_free_position(rt: HostRuntime) -> Result<(), TableFault> {
    check_rows(rt.alloc(), AUTOMATIC, '=', 10, corner_of_first)
}
