use crate::shapes::pixels;
use collide::{Boxes, MAX_SIDE};
use geom::PxBox;
use std::alloc::{AllocError, Global};
use std::test::Fail;
use test_tables::{TableFault, check_rows, numbers};

// The results of steps, the side of the picture in pixels, and the steps, which begin with no boxes. `ask`
// shows whether a box is hit, `#` or `-`, and `add` adds one. `note` shows whether it is hit before, adds it,
// and shows whether its first and its last pixel are hit after.
const STEPS: &str = "\
# a box hits what it shares a pixel with
--##=130|ask 2 2 4 4|add 0 0 3 3|add -9 -9 -5 -5|ask 3 0 5 2|ask 2 2 4 4|ask -6 -6 0 0
# an empty box hits nothing and isn't hit
-#---=64|add 5 5 5 9|add 7 9 12 6|ask 0 0 64 64|add 0 0 64 64|ask 0 0 64 64|ask 5 5 5 9|ask 7 9 12 6|ask 1099511627775 1099511627775 -1099511627775 -1099511627775
# boxes on the picture, off it on each side and at each corner, and across cells
(-##)(-##)(-##)(-##)(-##)(-##)(-##)(-##)(-##)(-##)(-##)(-##)#-=130|note 60 61 70 66|note -40 20 -30 27|note 140 30 150 39|note 40 -30 47 -20|note 50 140 59 150|note -90 -91 -80 -82|note 180 -93 190 -84|note -94 180 -85 190|note 180 181 190 192|note -1099511627775 100 -1099511627774 101|note 1099511627774 101 1099511627775 102|note 100 -1099511627774 102 1099511627775|ask -1099511627775 -1099511627775 1099511627775 1099511627775|ask 103 0 140 130
# boxes that share pixels off the picture alone: beside it, and further off
#-####-=64|add -9 10 0 20|ask -9 12 0 13|ask -20 12 -9 13|ask -10 12 -8 13|add 64 5 90 9|ask 64 7 70 8|ask 65 7 66 8|add 100 100 101 101|ask 63 8 65 10|ask 63 9 65 10
# at the last pixel of the largest picture, and beyond it
#-#-#=8192|add 8190 8188 8192 8192|ask 8191 8191 8192 8192|ask 8180 8180 8190 8190|ask 8189 8191 8191 8192|add 8192 0 8200 3|ask 8191 1 8192 2|ask 8192 2 8193 9";

// The mark of what is hit.
fn mark(is_hit: bool) -> char {
    if is_hit { '#' } else { '-' }
}

// The first pixel of a box.
fn first_pixel(area: PxBox) -> PxBox {
    let (left, top) = (area.left(), area.top());
    pixels([left, top, left.saturating_add(1), top.saturating_add(1)])
}

// The last pixel of a box.
fn last_pixel(area: PxBox) -> PxBox {
    let (right, bottom) = (area.right(), area.bottom());
    pixels([
        right.saturating_sub(1),
        bottom.saturating_sub(1),
        right,
        bottom,
    ])
}

// Adds a box. The marks of it before, and of its first and its last pixel after.
fn added(boxes: &mut Boxes, area: PxBox) -> Result<(char, char, char), AllocError> {
    let before = mark(boxes.hits(area));
    boxes.add(area)?;
    let first = mark(boxes.hits(first_pixel(area)));
    Ok((before, first, mark(boxes.hits(last_pixel(area)))))
}

// The keyword and the box of a step.
fn parts(step: &str) -> Option<(&str, PxBox)> {
    let (keyword, sides) = step.split_once(' ')?;
    Some((keyword, pixels(numbers(sides, ' ')?)))
}

// Makes a step, and adds its result.
fn make(out: &mut String, boxes: &mut Boxes, step: &str) -> Result<(), AllocError> {
    let Some((keyword, area)) = parts(step) else {
        return out.push('?');
    };
    match keyword {
        "ask" => out.push(mark(boxes.hits(area))),
        "add" => boxes.add(area),
        "note" => {
            let (before, first, last) = added(boxes, area)?;
            write!(out, "({before}{first}{last})")
        }
        _ => out.push('?'),
    }
}

// Makes all steps.
fn make_all(out: &mut String, boxes: &mut Boxes, steps: &str) -> Result<(), AllocError> {
    for step in steps.split('|') {
        make(out, boxes, step)?;
    }
    Ok(())
}

// The results of a row's steps.
fn steps(alloc: Global, row: &str) -> Result<String, AllocError> {
    let (pixels, steps) = row.split_once('|').unwrap_or(("", ""));
    let side = pixels.parse::<u16>().unwrap_or(0).min(MAX_SIDE);
    let mut boxes = Boxes::new(alloc, side, side)?;
    let mut text = String::new(alloc);
    make_all(&mut text, &mut boxes, steps)?;
    Ok(text)
}

#[test]
fn boxes_hit_what_they_share_a_pixel_with(rt: HostRuntime) -> Result<(), TableFault> {
    check_rows(rt.alloc(), STEPS, '=', 5, steps)
}

// The next number of a sequence.
fn next(state: &mut u64) -> u32 {
    *state = state
        .wrapping_mul(6_364_136_223_846_793_005)
        .wrapping_add(1_442_695_040_888_963_407);
    (*state >> 33) as u32
}

// A box of up to 19 columns and rows, on a picture of 130 by 130 pixels or around it.
fn next_box(state: &mut u64) -> PxBox {
    let left = i64::from(next(state) % 200) - 40;
    let top = i64::from(next(state) % 200) - 40;
    let right = left + i64::from(next(state) % 20);
    let bottom = top + i64::from(next(state) % 20);
    PxBox::new(left, top, right, bottom)
}

// Adds 200 boxes to both.
fn add_some(boxes: &mut Boxes, list: &mut Vec<PxBox>, state: &mut u64) -> Result<(), AllocError> {
    for _ in 0..200 {
        let area = next_box(state);
        boxes.add(area)?;
        list.push(area)?;
    }
    Ok(())
}

// How many of 500 boxes are hit, or the first one of which the list says something else.
fn hits(boxes: &Boxes, list: &[PxBox], state: &mut u64) -> Result<u32, PxBox> {
    let mut hits = 0_u32;
    for _ in 0..500 {
        let area = next_box(state);
        let is_hit = list.iter().any(|other| area.meets(*other));
        if boxes.hits(area) != is_hit {
            return Err(area);
        }
        hits = hits.wrapping_add(u32::from(is_hit));
    }
    Ok(hits)
}

// The hits of the boxes and the list that a sequence from that number on makes.
fn hits_from(alloc: Global, mut state: u64) -> Result<Result<u32, PxBox>, AllocError> {
    let mut boxes = Boxes::new(alloc, 130, 130)?;
    let mut list = Vec::new(alloc);
    add_some(&mut boxes, &mut list, &mut state)?;
    Ok(hits(&boxes, &list, &mut state))
}

#[test]
fn answers_are_those_of_a_plain_list(rt: HostRuntime) -> Result<(), Fail> {
    let hits = hits_from(rt.alloc(), 20_261)?;
    // both answers come often
    assert!(rt; matches!(hits, Ok(126..375)), "{hits:?}");
    Ok(())
}

// Adds 5,000 boxes that touch. How many aren't hit before, and are hit after.
fn tile(boxes: &mut Boxes) -> Result<u32, AllocError> {
    let mut count = 0_u32;
    for i in 0..5_000_i64 {
        let left = i % 100 * 20;
        let top = i / 100 * 40;
        if added(boxes, pixels([left, top, left + 20, top + 40]))? == ('-', '#', '#') {
            count = count.wrapping_add(1);
        }
    }
    Ok(count)
}

// How many of the 5,000 boxes fit, and whether the parts of a picture from four corners on are hit.
fn tiled(alloc: Global) -> Result<(u32, [bool; 4]), AllocError> {
    let mut boxes = Boxes::new(alloc, MAX_SIDE, MAX_SIDE)?;
    let count = tile(&mut boxes)?;
    let corners = [[0, 0], [1_999, 1_999], [2_000, 0], [0, 2_000]];
    Ok((
        count,
        corners.map(|[left, top]| boxes.hits(pixels([left, top, 8_192, 8_192]))),
    ))
}

#[test]
fn thousands_of_boxes_fit(rt: HostRuntime) -> Result<(), Fail> {
    let result = tiled(rt.alloc())?;
    assert_eq!(rt; result, (5_000, [true, true, false, false]));
    Ok(())
}
