ghost use Rattle.std.specs.Prelude.{◌≡◌, ◌^◌, ◌<◌, length, All, IfSome};
ghost use Rattle.geom.specs.Range.{IsBelow};

use crate::labelled_maps::{Unit, map_of_layers};
use compose::picture;
use geom::{Micro, PictureSide, WorldBox};
use layers::Layers;
use mapdefs::{AllFeatures, Map, Near, Picture, Rgb};
use scaledenom::Scale;
use std::alloc::{AllocError, Global};
use test_tables::{TableFault, check_rows};
use viewport::{Heights, View};

// The letter of a colour, `.` where there is none.
fn letter(colour: Option<Rgb>) -> char {
    let Some(colour) = colour else {
        return '.';
    };
    match (colour.red, colour.green, colour.blue) {
        (100, 60, 20) => '#',
        (10, 20, 30) => 'o',
        _ => '?',
    }
}

// The letters of a row of a picture, or none where nothing is painted.
fn row_of(alloc: Global, picture: &Picture, row: u16) -> Result<Option<String>, AllocError>
    requires { row < picture.now.height }
{
    let mut text = String::new(alloc);
    let mut is_painted = false;
    for column in 0..picture.get().width.pixels() {
        let letter = letter(picture.at(column, row));
        is_painted = is_painted || letter != '.';
        text.push(letter)?;
    }
    Ok(if is_painted { Some(text) } else { None })
}

// The rows of a picture in which something is painted, each with its number.
fn rows_of(alloc: Global, picture: &Picture) -> Result<String, AllocError> {
    let mut text = String::new(alloc);
    for row in 0..picture.get().height.pixels() {
        if let Some(letters) = row_of(alloc, picture, row)? {
            write!(text, "{}:{} ", row, letters.as_str())?;
        }
    }
    Ok(text)
}

// Ten degrees by ten from this one on, in ten pixels by ten.
fn view_from(low: i64) -> View
    requires { IsBelow (2 ^ 24) low }
{
    let (low, high) = (Micro::new(low), Micro::new(low + 10_000_000));
    let side = PictureSide::new(10).unwrap();
    View::new(
        Heights::Latitudes,
        WorldBox::new(low, low, high, high),
        side,
        side,
    )
}

// The picture of the chosen layers.
fn drawn<N: Near>(
    alloc: Global,
    map: &Map,
    near: &N,
    view: View,
    chosen: &[usize],
) -> Result<String, AllocError>
    requires near { N.map_of near.now ≡ map.now }
    requires layers { All (λ index. index < length map.now.layers) chosen.now }
{
    let scale = Scale::of(280_000, PictureSide::new(1).unwrap());
    let picture = picture(alloc, map, near, view, scale, chosen, None)?;
    rows_of(alloc, &picture)
}

// The indices of the layers that are chosen.
fn chosen_of(digits: &str) -> Option<&'static [usize]>
    ensures { IfSome result (λ chosen. All (λ index. index < 2) chosen.now) }
{
    match digits {
        "0" => Some(&[0]),
        "00" => Some(&[0, 0]),
        "01" => Some(&[0, 1]),
        "010" => Some(&[0, 1, 0]),
        "10" => Some(&[1, 0]),
        _ => None,
    }
}

// The number with which a view begins, by its letter, and what counts are in it.
fn ground_of(letter: &str) -> (i64, Unit)
    ensures { IsBelow (2 ^ 24) result.0 }
{
    match letter {
        "m" => (-5_000_000, Unit::Millionths),
        _ => (0, Unit::Tenths),
    }
}

// The fonts of the map of a letter, if it has any.
fn fonts_of_map(letter: &str) -> Option<&'static str> {
    match letter {
        "x" => None,
        "u" => Some("tiny+uneven"),
        _ => Some("tiny"),
    }
}

// The picture of a row, once by all features and once by those that served layers find. A row has a letter of the view,
// the layers that are chosen, and two layers. The letter is `t` where the view begins at 0 and counts are tenths of a
// degree, `m` where it begins at -5 and counts are millionths, `u` as `t` where the map has two fonts, and `x` as `t` where it
// has none.
fn labelled_picture(alloc: Global, row: &str) -> Result<String, AllocError> {
    let (ground, rows) = row.split_once('|').ok_or(AllocError)?;
    let (letter, digits) = ground.split_once(' ').ok_or(AllocError)?;
    let Some(chosen) = chosen_of(digits) else {
        return Err(AllocError);
    };
    let (low, unit) = ground_of(letter);
    let map = map_of_layers(alloc, rows, unit, fonts_of_map(letter))?;
    let view = view_from(low);
    let by_all = drawn(alloc, &map, &AllFeatures::of(alloc, &map), view, chosen)?;
    let layers = Layers::of(alloc, map)?;
    let by_layers = drawn(alloc, layers.map(), &layers, view, chosen)?;
    if by_all.as_str() == by_layers.as_str() {
        Ok(by_all)
    } else {
        format!(in alloc; "{} but {}", by_all.as_str(), by_layers.as_str())
    }
}

// An A is 3 pixels wide and 2 high, with ink in all but the lower right one of its first four. The second layer is
// often left out of those that are chosen.
const PICTURES: &str = "\
# the last feature stands at the first position, and the other at the second; a layer that is named twice has two
2:.oo..oo... 3:.o...o.... =t 0|p - AUTO;A - 45,55;A - 45,55|p - CC;- - 0,0
2:.oo..oo... 3:.o...o.... =t 00|p - AUTO;A - 45,55|p - CC;- - 0,0
2:.##..oo... 3:.#...o.... 5:.....oo... 6:.....o.... =t 010|p - AUTO;A - 45,55|p - AUTO c#;A - 45,55
# the order of trial goes by priority, and then by falling number
2:.##..oo... 3:.#...o.... =t 01|p - AUTO c#;A - 45,55|p - AUTO co;A - 45,55
2:.oo..##... 3:.o...#.... =t 01|p - AUTO c# p2;A - 45,55|p - AUTO co;A - 45,55
# with FORCE labels stand over others, but without PARTIALS in the picture alone
3:...oo..... 4:...o...... =t 0|p - CC F;A - 45,55;A - 45,55|p - CC;- - 0,0
=t 0|p - CC F;A - 5,55|p - CC;- - 0,0
3:o......... =t 0|p - CC F P;A - 5,55|p - CC;- - 0,0
# equal texts keep their distance
3:.oo..oo... 4:.o...o.... =t 0|p - CC d4;A - 25,55;A - 65,55|p - CC;- - 0,0
3:.....oo... 4:.....o.... =t 0|p - CC d5;A - 25,55;A - 65,55|p - CC;- - 0,0
# the outline lies below the text, and the buffer and it take their room
2:..####.... 3:..#oo#.... 4:..#o##.... 5:..###..... =t 0|p - CC r# b2;A - 45,55|p - CC;- - 0,0
=t 0|p - CC r# b3;A - 45,55|p - CC;- - 0,0
# an outline alone covers the pixels of the text that have a neighbour of it
2:..####.... 3:..####.... 4:..####.... 5:..###..... =t 0|p - CC r# n;A - 45,55|p - CC;- - 0,0
# labels lie above all features, those of later layers too
2:..#####... 3:..#oo##... 4:..#o###... 5:..#####... 6:..#####... =t 01|p - CC;A - 45,55|p # CC;- - 45,55
# a label without a colour takes its room
=t 01|p - CC;A - 45,55|p - CC n;A - 45,55
3:...oo..... 4:...o...... =t 10|p - CC;A - 45,55|p - CC n;A - 45,55
# anchors: of a ring that covers no pixel, of three vertices and of four, and halved downwards
3:...oo..... 4:...o...... =t 0|g - CC;A - 41,59 43,59 43,57|p - CC;- - 0,0
3:...oo..... 4:...o...... =t 0|l - CC;A - 95,5 45,55 15,15|p - CC;- - 0,0
3:...oo..... 4:...o...... =t 0|l - CC;A - 95,5 5,5 45,55 15,15|p - CC;- - 0,0
3:...oo..... 4:...o...... =t 0|p - CC;A - 45,55 85,15|p - CC;- - 0,0
4:...oo..... 5:...o...... =m 0|g - CC;A - -1,0 0,0 0,1|p - CC;- - 0,0
# an anchor off the picture has no label, though its text would be seen
=t 0|p - CR P;A - -5,55|p - CC;- - 0,0
3:.oo....... 4:.o........ =t 0|p - CR P;A - 5,55|p - CC;- - 0,0
# the text of a feature goes before its value, an empty one too
3:...oo..... 4:...o...... =t 0|p - CC;A AA 45,55|p - CC;- - 0,0
3:.oo.oo.... 4:.o..o..... =t 0|p - CC;- AA 45,55|p - CC;- - 0,0
=t 0|p - CC;empty AA 45,55|p - CC;- - 0,0
# 256 characters count, of two bytes too, and one without a glyph is skipped
3:...oo..... 4:...o...... =t 0|p - CC;long - 45,55|p - CC;- - 0,0
3:...oo..... 4:...o...... =t 0|p - CC;BA - 45,55|p - CC;- - 0,0
# a map without a font has no labels
=x 0|p - CC;A - 45,55|p - CC;- - 0,0
# the ink, its outline and the room of a label are those of its font
5:...o...... =u 0|p - CC t1;A - 45,55|p - CC;- - 0,0
4:..###..... 5:..#o#..... 6:..###..... =u 0|p - CC r# t1;A - 45,55|p - CC;- - 0,0
3:...oo..... 4:...o...... 8:......o... =u 01|p - CC;A - 45,55|p - CC t1;A - 75,25
5:...o...... 6:......oo.. 7:......o... =u 01|p - CC t1;A - 45,55|p - CC;A - 75,25
1:....oo.... 2:....o..... =u 01|p - CC t1;A - 45,55|p - CC;A - 55,75
# a label whose font isn't there is none, and takes no room
=u 0|p - CC t2;A - 45,55|p - CC;- - 0,0
3:...oo..... 4:...o...... =u 01|p - CC;A - 45,55|p - CC t2;A - 45,55";

#[test]
fn labels_of_maps_are_painted_as_worked(rt: HostRuntime) -> Result<(), TableFault> {
    check_rows(rt.alloc(), PICTURES, '=', 36, labelled_picture)
}
