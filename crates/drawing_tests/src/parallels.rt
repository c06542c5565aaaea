use crate::shapes::side;
use geom::{Micro, World, WorldBox};
use std::alloc::{AllocError, Global};
use test_maps::place;
use test_tables::{TableFault, check_rows, numbers};
use viewport::{Heights, Projection, View};

// Eight hundredths of a degree of the equator each way, from an ordinate on, in eight pixels by eight.
fn eight_by_eight(south: i64) -> Option<View> {
    if !(-100_000_000..100_000_000).contains(&south) {
        return None;
    }
    let (low, high) = (Micro::new(0), Micro::new(80_000));
    let (south, north) = (Micro::new(south), Micro::new(south + 80_000));
    Some(View::new(
        Heights::Mercator,
        WorldBox::new(low, south, high, north),
        side(8),
        side(8),
    ))
}

// The sixteenth and the pixel from the top, the ordinate of the south, and a latitude. A sixteenth is 625 millionths. The
// ordinates are 180 / pi * ln(tan(pi / 4 + phi / 2)) degrees, by logarithms of 36 digits: 10.0511597, 20.4189842, 31.4729237,
// 46.2274094 and 56.0637982.
const PARALLELS: &str = "\
79 4=10021000 10000000
99 6=20401000 20000000
43 2=31420000 30000000
114 7=46219000 41900000
61 3=56022000 48800000
80 5=-10081000 -10000000
102 6=-20435000 -20000000
46 2=-31524000 -30000000
115 7=-46235000 -41900000
63 3=-56104000 -48800000";

// The view and the place of a row.
fn view_and_place(row: &str) -> Option<(View, World)> {
    let [south, latitude] = numbers::<2>(row, ' ')?;
    Some((eight_by_eight(south)?, place([0, latitude])))
}

fn height(alloc: Global, row: &str) -> Result<String, AllocError> {
    let Some((view, place)) = view_and_place(row) else {
        return format!(in alloc; "malformed");
    };
    format!(in alloc; "{} {}", view.device(place).y(), view.pixel(place).j())
}

#[test]
fn parallels_lie_at_their_ordinates(rt: HostRuntime) -> Result<(), TableFault> {
    check_rows(rt.alloc(), PARALLELS, '=', 10, height)
}

fn projected(alloc: Global, row: &str) -> Result<String, AllocError> {
    let Some((view, place)) = view_and_place(row) else {
        return format!(in alloc; "malformed");
    };
    let projection = Projection::new(view);
    format!(in alloc;
        "{} {}",
        projection.device(place).y(),
        projection.pixel(place).j()
    )
}

#[test]
fn projections_have_the_same_parallels(rt: HostRuntime) -> Result<(), TableFault> {
    check_rows(rt.alloc(), PARALLELS, '=', 10, projected)
}
