use crate::entries::{Entry, label_of, placed_of, plain_label};
use crate::fonts::fonts_of;
use crate::sequences::{is_one_of, next, next_position, next_sides};
use bdffont::{extent, is_short};
use geom::{Factor, PictureSide, PxBox};
use labelcache::Placed;
use mapdefs::{Font, LabelFields, Position};
use std::alloc::{AllocError, Global};
use test_tables::{TableFault, check_rows};

// A box by its left, top, right and bottom side.
type Sides = [i64; 4];

// A label as the plain program places it: its number, the corner of its text, and its box.
#[derive(Clone, Copy)]
struct PlainLabel {
    number: usize,
    left: i64,
    top: i64,
    taken: Sides,
}

// What the plain program knows of the picture.
#[derive(Drop)]
struct Ground<'a> {
    width: i64,
    height: i64,
    fonts: &'a [Font],
}

// Where the left side of a text of that width stands, for an anchor in that column.
fn left_at(position: Position, column: i64, width: i64) -> i64 {
    match position {
        Position::UpperLeft | Position::CentreLeft | Position::LowerLeft => column.wrapping_sub(
            width,
        ),
        Position::UpperRight | Position::CentreRight | Position::LowerRight => {
            column.wrapping_add(1)
        }
        _ => column.wrapping_sub(width / 2),
    }
}

// Where its top side stands, for an anchor in that row.
fn top_at(position: Position, row: i64, height: i64) -> i64 {
    match position {
        Position::UpperLeft | Position::UpperCentre | Position::UpperRight => row.wrapping_sub(
            height,
        ),
        Position::LowerLeft | Position::LowerCentre | Position::LowerRight => row.wrapping_add(1),
        _ => row.wrapping_sub(height / 2),
    }
}

// The width and the height of a text.
fn size_of(font: &Font, text: &str) -> (i64, i64) {
    if is_short(text) {
        let (width, height) = extent(font, text);
        (i64::from(width), i64::from(height))
    } else {
        (0, 0)
    }
}

// The width and the height of an entry's text in its font.
fn size_in(fonts: &[Font], entry: &Entry) -> (i64, i64) {
    match fonts.get(entry.label.get().font.unwrap_or(0)) {
        Some(font) => size_of(font, entry.text),
        None => (0, 0),
    }
}

// Whether two boxes share a pixel.
fn share_a_pixel(a: Sides, b: Sides) -> bool {
    a[0].max(b[0]) < a[2].min(b[2]) && a[1].max(b[1]) < a[3].min(b[3])
}

// Whether a box lies in the picture.
fn is_inside(ground: &Ground<'_>, taken: Sides) -> bool {
    taken[0] >= 0 && taken[1] >= 0 && taken[2] <= ground.width && taken[3] <= ground.height
}

// The square of the distance of two anchors.
fn squared_distance(a: &Entry, b: &Entry) -> i64 {
    let (across, down) = (a.i.wrapping_sub(b.i), a.j.wrapping_sub(b.j));
    across
        .wrapping_mul(across)
        .wrapping_add(down.wrapping_mul(down))
}

// Whether an entry keeps its distance to a label, if that has the same text.
fn is_apart(entries: &[Entry], entry: &Entry, label: &PlainLabel) -> bool {
    let distance = entry.fine(i64::from(entry.label.get().mindistance));
    match entries.get(label.number) {
        Some(other) => {
            other.text != entry.text
                || squared_distance(entry, other) >= distance.wrapping_mul(distance)
        }
        None => false,
    }
}

// Whether an entry's label may take a box, by all labels before it.
fn passes(
    ground: &Ground<'_>,
    entries: &[Entry],
    placed: &[PlainLabel],
    entry: &Entry,
    taken: Sides,
) -> bool {
    let label = entry.label.get();
    if !label.partials && !is_inside(ground, taken) {
        return false;
    }
    if label.force {
        return true;
    }
    for other in placed {
        if share_a_pixel(taken, other.taken) || !is_apart(entries, entry, other) {
            return false;
        }
    }
    true
}

// The label of a number's entry at a position.
fn label_at(ground: &Ground<'_>, entry: &Entry, number: usize, position: Position) -> PlainLabel {
    let (width, height) = size_in(ground.fonts, entry);
    let (left, top) = (
        left_at(position, entry.i, width),
        top_at(position, entry.j, height),
    );
    let label = entry.label.get();
    let outline = match (label.outline, entry.factor.times()) {
        (None, _) => 0,
        (Some(_), 1) => 1,
        (Some(_), _) => entry.fine(i64::from(label.outline_width)),
    };
    let grown = entry.fine(i64::from(label.buffer)).wrapping_add(outline);
    PlainLabel {
        number,
        left,
        top,
        taken: [
            left.wrapping_sub(grown),
            top.wrapping_sub(grown),
            left.wrapping_add(width).wrapping_add(grown),
            top.wrapping_add(height).wrapping_add(grown),
        ],
    }
}

// The first of some positions where the label of a number's entry may stand.
fn first_of(
    ground: &Ground<'_>,
    entries: &[Entry],
    placed: &[PlainLabel],
    number: usize,
    positions: &[Position],
) -> Option<PlainLabel> {
    let entry = entries.get(number)?;
    for position in positions {
        let label = label_at(ground, entry, number, *position);
        if passes(ground, entries, placed, entry, label.taken) {
            return Some(label);
        }
    }
    None
}

// Where the label of a number's entry stands, if anywhere.
fn choice(
    ground: &Ground<'_>,
    entries: &[Entry],
    placed: &[PlainLabel],
    number: usize,
) -> Option<PlainLabel> {
    let entry = entries.get(number)?;
    match entry.label.get().position {
        Position::Automatic => first_of(
            ground,
            entries,
            placed,
            number,
            &[
                Position::UpperRight,
                Position::UpperLeft,
                Position::LowerRight,
                Position::LowerLeft,
                Position::CentreRight,
                Position::CentreLeft,
                Position::UpperCentre,
                Position::LowerCentre,
            ],
        ),
        position => first_of(ground, entries, placed, number, &[position]),
    }
}

// The numbers of entries with their priorities, in the order in which they are tried.
fn order(alloc: Global, entries: &[Entry]) -> Result<Vec<(u8, usize)>, AllocError> {
    let mut order = Vec::new(alloc);
    for (number, entry) in entries.iter().enumerate() {
        order.push((entry.label.get().priority, number))?;
    }
    order.sort()?;
    order.reverse();
    Ok(order)
}

// The labels of all entries, by the rule as it reads.
fn plain(
    alloc: Global,
    ground: &Ground<'_>,
    entries: &[Entry],
) -> Result<Vec<PlainLabel>, AllocError> {
    let order = order(alloc, entries)?;
    let mut placed = Vec::new(alloc);
    for (_, number) in order.as_slice() {
        if let Some(label) = choice(ground, entries, &placed, *number) {
            placed.push(label)?;
        }
    }
    Ok(placed)
}

// A text. In a font without its characters it has no advance.
fn next_text(state: &mut u64) -> &'static str {
    match next(state, 8) {
        0 | 1 => "A",
        2 => "AA",
        3 => "B",
        4 => "AB",
        5 => "ABA",
        6 => "BBAA",
        _ => "",
    }
}

// A label in one of so many fonts. Half of them have a distance, and each is forced in one of six.
fn next_label(state: &mut u64, fonts: usize) -> LabelFields {
    let plain = plain_label();
    let font = if fonts > 1 {
        next(state, 2).clamp(0, 1) as usize
    } else {
        0
    };
    LabelFields {
        outline: if is_one_of(state, 3) {
            plain.colour
        } else {
            None
        },
        colour: if is_one_of(state, 7) {
            None
        } else {
            plain.colour
        },
        outline_width: [1, 1, 2, 3, 5, 8][next(state, 6).clamp(0, 5) as usize],
        font: Some(font),
        lacks_font: false,
        priority: [1, 1, 2, 3, 9, 10][next(state, 6).clamp(0, 5) as usize],
        position: next_position(state),
        buffer: [0, 0, 0, 1, 2, 5][next(state, 6).clamp(0, 5) as usize],
        mindistance: [0, 0, 0, 1, 4, 5, 13, 40][next(state, 8).clamp(0, 7) as usize],
        partials: is_one_of(state, 2),
        force: is_one_of(state, 6),
    }
}

// A candidate on a picture of up to 60 pixels, or around it, of this text if one is given, in one of so many fonts. One in
// eight has the anchor of 5 5.
fn next_entry(state: &mut u64, text: Option<&'static str>, fonts: usize) -> Entry {
    let is_same = is_one_of(state, 8);
    let (i, j) = (next(state, 90), next(state, 90));
    Entry {
        text: match text {
            Some(text) => text,
            None => next_text(state),
        },
        i: if is_same { 5 } else { i.wrapping_sub(15) },
        j: if is_same { 5 } else { j.wrapping_sub(15) },
        label: label_of(next_label(state, fonts)),
        factor: Factor::of(if is_one_of(state, 3) { 2 } else { 1 }),
    }
}

// Some candidates, at most 60, all of one text if that is given, in so many fonts.
fn next_entries(
    alloc: Global,
    state: &mut u64,
    text: Option<&'static str>,
    fonts: usize,
) -> Result<Vec<Entry>, AllocError> {
    let mut entries = Vec::new(alloc);
    for _ in 0..next(state, 61) {
        entries.push(next_entry(state, text, fonts))?;
    }
    Ok(entries)
}

// Whether a label is one of the plain program.
fn is_same(label: &Placed, plain: &PlainLabel) -> bool {
    let (at, taken): (_, PxBox) = (label.at, label.taken);
    label.number == plain.number
        && at.i() == plain.left
        && at.j() == plain.top
        && [taken.left(), taken.top(), taken.right(), taken.bottom()] == plain.taken
}

// Whether all labels are those of the plain program, in the same order.
fn are_same(labels: &[Placed], plain: &[PlainLabel]) -> bool {
    labels.len() == plain.len()
        && labels
            .iter()
            .zip(plain.iter())
            .all(|(label, plain)| is_same(label, plain))
}

/// How many labels of some candidates are placed and left out, or none where the plain program says something
/// else.
pub(crate) fn compared(
    alloc: Global,
    fonts: &[Font],
    sides: (PictureSide, PictureSide),
    entries: &[Entry],
) -> Result<Option<(usize, usize)>, AllocError> {
    let (width, height) = sides;
    let ground = Ground {
        width: i64::from(width.pixels()),
        height: i64::from(height.pixels()),
        fonts,
    };
    let labels = placed_of(alloc, width.pixels(), height.pixels(), fonts, entries)?;
    let plain = plain(alloc, &ground, entries)?;
    if !are_same(&labels, &plain) {
        return Ok(None);
    }
    Ok(Some((labels.len(), entries.len().saturating_sub(labels.len()))))
}

// The only text of a row's candidates, if they have one.
fn only_text(code: &str) -> Option<&'static str> {
    match code {
        "A" => Some("A"),
        _ => None,
    }
}

// The result of 500 sets of candidates: `ok` where both programs place the same ones, many labels are placed and many left
// out, and more than 16 are placed in many sets; else the number of the set, or how many. A row has the names of fonts, the
// number from which a sequence begins, and the only text or `-`.
fn result_of_sets(alloc: Global, row: &str) -> Result<String, AllocError> {
    let (name, row) = row.split_once(' ').ok_or(AllocError)?;
    let (seed, code) = row.split_once(' ').ok_or(AllocError)?;
    let fonts = fonts_of(alloc, name)?;
    let mut state = seed.parse::<u64>().unwrap_or(0);
    let (mut placed, mut left_out, mut crowded) = (0_usize, 0_usize, 0_usize);
    for number in 0..500_u16 {
        let sides = next_sides(&mut state);
        let entries = next_entries(alloc, &mut state, only_text(code), fonts.len())?;
        match compared(alloc, fonts.as_slice(), sides, &entries)? {
            Some((some, others)) => {
                placed = placed.saturating_add(some);
                left_out = left_out.saturating_add(others);
                crowded = crowded.saturating_add(usize::from(some > 16));
            }
            None => return format!(in alloc; "set {number} differs"),
        }
    }
    if placed > 3_000 && left_out > 3_000 && crowded > 50 {
        format!(in alloc; "ok")
    } else {
        format!(in alloc; "{placed} placed, {left_out} left out, {crowded} crowded")
    }
}

const SETS: &str = "\
ok=tiny 20263 -
ok=uneven 20264 -
ok=flat 20265 -
ok=tiny 20266 A
ok=tiny+uneven 20268 -
ok=uneven+tiny 20269 A";

#[test]
fn labels_are_those_of_a_plain_program(rt: HostRuntime) -> Result<(), TableFault> {
    check_rows(rt.alloc(), SETS, '=', 6, result_of_sets)
}
