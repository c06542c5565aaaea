//! Laws of the definitions. A law is a function without arguments whose contract states it.

ghost use Rattle.csvpoints.specs.Table.{HasEachRow};

/// A table has the names of its header, and a feature for each row under it.
pub fn each_row_has_a_feature()
    ensures { HasEachRow }
{}
