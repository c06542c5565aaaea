use mapdefs::Map;
use mapmachine::Machine;
use mapparse::{Files, parse};
use std::alloc::{AllocError, Global};

// A layer of polygons and one of points. The map offers PNG.
const MAP: &[u8] =
    b"MAP CONFIG WMS_FORMATS image/png LAYER NAME a TYPE POLYGON END LAYER NAME p TYPE POINT END END";

/// The map of these two layers.
pub fn some_map(alloc: Global) -> Result<Map, AllocError> {
    parse(alloc, MAP, &Files::new(alloc)).map_err(|_| AllocError)
}

/// A machine of that map.
pub fn some_machine(alloc: Global) -> Result<Machine, AllocError> {
    Machine::open(alloc, some_map(alloc)?)
}
