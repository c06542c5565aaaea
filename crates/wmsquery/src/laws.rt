//! Laws of the definitions. A law is a function without arguments whose contract states it.

ghost use Rattle.wmsquery.specs.Meaning.{LaterChangesNothing, MeaningIsOne};
ghost use Rattle.wmsquery.specs.Written.{WrittenIsMeant};

/// A query means the fault of its first parameter that is refused, whatever the parameters say that come
/// later in the order of refusal. A query that gives the same texts to the parameters up to that one means
/// the same fault.
pub fn later_parameters_change_nothing()
    ensures { LaterChangesNothing }
{}

/// A query means one request, or one fault: that of the first parameter that is refused.
pub fn one_meaning()
    ensures { MeaningIsOne }
{}

/// A query that is written out from a request, in any system that the map offers, means that request: each layer by
/// its name, the sides of the box in degrees or in metres, the background as hexadecimal digits.
pub fn written_requests()
    ensures { WrittenIsMeant }
{}
