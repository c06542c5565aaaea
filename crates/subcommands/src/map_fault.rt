ghost use Rattle.std.specs.Prelude.{◌≡◌};
ghost use Rattle.subcommands.specs.Explained.{with_message};

use mapdefs::Text;
use mapparse::ParseFault;
use mapwords::Fault;
use std::alloc::AllocError;

/// Why a mapfile gives no map.
#[derive(Drop)]
pub enum MapFault {
    /// It has a fault.
    Faulty {
        /// Its first one.
        fault: Fault,
        /// The message on it, where it is requested and memory isn't refused for it.
        message: Option<Text>,
    },
    /// Memory was refused.
    NoMemory,
}

impl MapFault {
    /// A fault with the message on it.
    pub fn new(fault: ParseFault, message: Option<Text>) -> Self
        ensures { result ≡ with_message fault message }
    {
        match fault {
            ParseFault::At { line, kind } => MapFault::Faulty {
                fault: Fault { line, kind },
                message,
            },
            ParseFault::NoMemory => MapFault::NoMemory,
        }
    }
}

impl From<AllocError> for MapFault {
    ghost use Rattle.std.specs.Prelude.{◌≡◌};
    ghost use Rattle.subcommands.specs.declared.map_fault.MapFault.TheVariants.{NoMemory};

    ghost from_gives = { λ _ error. error ≡ NoMemory };

    fn from(_error: AllocError) -> MapFault {
        MapFault::NoMemory
    }
}
