//! Laws of the definitions. A law is a function without arguments whose contract states it.

ghost use Rattle.scanfill.specs.Law.{AreRunsInside};
ghost use Rattle.scanfill.specs.Runs.{AreThosePassing, RunsAreOne};

/// A pixel of the view lies inside of some rings exactly where an odd number of edges counts for it.
/// The edges that count lie left of the view in its row, or are walked there and have a column that is
/// at most the pixel's.
pub fn runs()
    ensures { AreRunsInside }
{}

/// A pixel of a row lies in one of the longest runs of those that pass a test exactly where it passes.
pub fn spans()
    ensures { AreThosePassing }
{}

/// A row has one list of longest runs of those of its pixels that pass a test.
pub fn one_list_of_runs()
    ensures { RunsAreOne }
{}
