ghost use Rattle.std.specs.Prelude.{◌≡◌, MatchBool};
ghost use Rattle.eventloop.specs.Working.{HasGivenWay};
ghost use Rattle.turns.specs.declared.pressure.Pressure.TheVariants.{Slot};

use crate::handed_over::Ending;
use turns::{Closed, ConnectionTable, Transport};

/// What a worker is to do now. It can't be let go: it is obeyed.
pub struct Orders {
    ending: Ending,
    // A further connection needs a descriptor.
    is_pressed: bool,
}

impl Orders {
    /// Whether the worker ends, and how; and whether a further connection needs a descriptor.
    pub(crate) fn new(ending: Ending, is_pressed: bool) -> Self
        ensures pressed { result.is_pressed ≡ is_pressed }
        ensures ending { result.ending ≡ ending }
    {
        Orders { ending, is_pressed }
    }

    /// Where a further connection needs a descriptor now, the connection gives way that comes first, if one may. Gives whether the
    /// worker ends, and how.
    pub(crate) fn obey<T: Transport + Drop>(
        self,
        table: &mut ConnectionTable<T>,
        now: u64,
    ) -> (Ending, Option<Closed<T>>)
        ensures ending { result.0 ≡ self.ending }
        ensures pressed { MatchBool self.is_pressed (HasGivenWay (Slot now) table.old table.new) (table.new ≡ table.old) }
    {
        let Orders { ending, is_pressed } = self;
        if is_pressed {
            let closed = table.close_for_descriptor(now);
            (ending, closed)
        } else {
            (ending, None)
        }
    }
}
