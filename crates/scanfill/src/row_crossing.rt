ghost use Rattle.std.specs.Prelude.{◌≡◌, ◌<◌, ◌^◌, true, pos, neg_ℤ, ◌-ℤ◌, ◌*ℤ◌, ◌<ℤ◌};
ghost use Rattle.std.specs.Int.{int_div_euclid};
ghost use Rattle.geom.specs.Range.{IsBelow};
ghost use Rattle.geom.specs.declared.side.TheConstants.{MAX_PICTURE_SIDE};
ghost use Rattle.scanfill.specs.Column.{reach};

use geom::{Edge, row_centre};

/// Where an edge crosses a row.
#[derive(Clone, Copy)]
pub struct RowCrossing {
    /// The first column whose pixel centre lies at the crossing or right of it.
    pub column: i64,
    /// How far that centre lies right of the crossing, in sixteenths of a pixel times the edge's rise.
    pub over: i64,
}

/// How far an edge goes from row to row.
#[derive(Clone, Copy)]
pub struct Slope {
    /// The columns, rounded down.
    pub step: i64,
    /// A column, in sixteenths of a pixel times the edge's rise.
    pub whole: i64,
    /// What is left of it, in the same measure: less than a column.
    pub rest: i64,
}

impl RowCrossing {
    ghost use Rattle.geom.specs.Edge.{IsDeviceEdge};
    ghost use Rattle.clip.specs.EdgeClass.{crosses_row};
    ghost use Rattle.scanfill.specs.Walk.{AreSizes, next_crossing, crossing_at};

    /// Where the edge crosses a row.
    pub fn of(edge: Edge, row: u16) -> Self
        requires row { row < MAX_PICTURE_SIDE }
        requires crosses { crosses_row edge row ≡ true }
        ensures { result ≡ crossing_at edge row }
    {
        divide(reach(edge, row), sixteen_times(edge.rise()))
    }

    /// Where it crosses the next one. It divides nothing.
    pub fn next(self, slope: Slope) -> Self
        requires { AreSizes self slope }
        ensures { result ≡ next_crossing self slope }
    {
        if self.over < slope.rest {
            return RowCrossing {
                column: self.column + slope.step + 1,
                over: self.over - slope.rest + slope.whole,
            };
        }
        RowCrossing {
            column: self.column + slope.step,
            over: self.over - slope.rest,
        }
    }
}

impl Slope {
    ghost use Rattle.geom.specs.Edge.{rise};
    ghost use Rattle.scanfill.specs.Walk.{slope_of};

    /// The slope of an edge that isn't horizontal.
    pub fn of(edge: Edge) -> Self
        requires { pos 0 <ℤ rise edge }
        ensures { result ≡ slope_of edge }
    {
        let rise = edge.rise();
        let run = edge.run();
        let step = run.div_euclid(rise);
        Slope {
            step,
            whole: sixteen_times(rise),
            rest: sixteen_times(rest_of(run, step, rise)),
        }
    }
}

// How far the centre of column 0 lies right of the crossing in a row, in sixteenths of a pixel times the
// edge's rise.
fn reach(edge: Edge, row: u16) -> i128
    requires { row < MAX_PICTURE_SIDE }
    ensures value { result ≡ reach edge row }
    ensures range { IsBelow (2 ^ 97) result }
{
    let low = edge.low_end();
    let right = product(difference(8, low.x()), edge.rise());
    let down = product(difference(row_centre(row), low.y()), edge.run());
    minus(right, down)
}

// The difference of two coordinates.
fn difference(a: i64, b: i64) -> i128
    requires a { IsBelow (2 ^ 47) a }
    requires b { IsBelow (2 ^ 47) b }
    ensures value { result ≡ a -ℤ b }
    ensures range { IsBelow (2 ^ 48) result }
{
    i128::from(a - b)
}

// The product of two differences.
fn product(a: i128, b: i64) -> i128
    requires a { IsBelow (2 ^ 48) a }
    requires b { IsBelow (2 ^ 48) b }
    ensures value { result ≡ a *ℤ b }
    ensures range { IsBelow (2 ^ 96) result }
{
    a * i128::from(b)
}

// The difference of two products.
fn minus(a: i128, b: i128) -> i128
    requires a { IsBelow (2 ^ 96) a }
    requires b { IsBelow (2 ^ 96) b }
    ensures value { result ≡ a -ℤ b }
    ensures range { IsBelow (2 ^ 97) result }
{
    a - b
}

// Sixteen times a difference, or what is left of one.
fn sixteen_times(a: i64) -> i64
    requires { IsBelow (2 ^ 48) a }
    ensures value { result ≡ pos 16 *ℤ a }
    ensures range { IsBelow (2 ^ 52) result }
{
    16 * a
}

// The crossing by the quotient of a reach and a whole column.
fn divide(reach: i128, whole: i64) -> RowCrossing
    requires reach { IsBelow (2 ^ 97) reach }
    requires some { pos 0 <ℤ whole }
    requires whole { IsBelow (2 ^ 52) whole }
    requires column { IsBelow (2 ^ 44) (int_div_euclid reach whole) }
    ensures { let quotient = int_div_euclid reach whole in
        result ≡ record { column = neg_ℤ quotient; over = reach -ℤ quotient *ℤ whole } }
{
    let whole = i128::from(whole);
    let quotient = reach.div_euclid(whole);
    RowCrossing {
        column: -(quotient as i64),
        over: (reach - quotient * whole) as i64,
    }
}

// What is left of the run by its quotient with the rise.
fn rest_of(run: i64, quotient: i64, rise: i64) -> i64
    requires run { IsBelow (2 ^ 48) run }
    requires rise { IsBelow (2 ^ 48) rise }
    requires some { pos 0 <ℤ rise }
    requires quotient { quotient ≡ int_div_euclid run rise }
    ensures value { result ≡ run -ℤ quotient *ℤ rise }
    ensures range { IsBelow (2 ^ 48) result }
{
    run - quotient * rise
}
