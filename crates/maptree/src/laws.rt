//! Laws of the definitions that the contracts cite. A law is a function without arguments whose
//! contract states it.

ghost use Rattle.maptree.specs.Meaning.{CountIsEnough, FirstFaultIsReported};
ghost use Rattle.maptree.specs.Written.{WrittenIsRead};

/// A mapfile that is written out from what it says is read as that: no word is lost, none is taken for
/// another one, and none goes to another block.
pub fn written_mapfile_is_read()
    ensures { WrittenIsRead }
{}

/// The definition of reading has a bound on the tokens that it reads. Beyond the tokens that there are,
/// a larger bound changes nothing.
pub fn count_is_enough()
    ensures { CountIsEnough }
{}

/// The first fault in the order of tokens is the fault of the mapfile, whatever comes after it.
pub fn first_fault_is_reported()
    ensures { FirstFaultIsReported }
{}
