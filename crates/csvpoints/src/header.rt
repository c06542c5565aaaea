ghost use Rattle.std.specs.Prelude.{◌≡◌, ◌<◌, length, IfOk, IfSome};
ghost use Rattle.csvpoints.specs.Row.{column_of, columns_in, HasColumns};

use crate::fault::CsvKind;
use mapdefs::{MAX_ITEMS, Text};

/// The columns of a header: how many there are, and the indices of those of the coordinates.
#[derive(Clone, Copy)]
pub struct Columns {
    /// How many columns there are.
    pub count: usize,
    /// The index of the column of the longitudes.
    pub x: usize,
    /// The index of the column of the latitudes.
    pub y: usize,
}

// The index of the first column of a name, compared byte by byte.
fn column_of(columns: &[Text], name: &str) -> Option<usize>
    ensures value { result ≡ column_of name.now columns.now }
    ensures bound { IfSome result (λ column. column < length columns.now) }
{
    columns.iter().position(|column| column.as_str() == name)
}

/// The columns of a header, by the names of those of the coordinates.
pub fn columns_of(names: &[Text], x: &str, y: &str) -> Result<Columns, CsvKind>
    ensures value { result ≡ columns_in x.now y.now names.now }
    ensures columns { IfOk result HasColumns }
{
    if names.len() > MAX_ITEMS {
        return Err(CsvKind::Limit);
    }
    match (column_of(names, x), column_of(names, y)) {
        (Some(x), Some(y)) => Ok(Columns {
            count: names.len(),
            x,
            y,
        }),
        _ => Err(CsvKind::NoColumn),
    }
}
