use layers::Layers;
use mapdefs::Map;
use mapmachine::Machine;
use mapparse::{Files, parse};
use std::alloc::{AllocError, Global};

/// A square of two degrees on a layer of that name, in the colour 10 20 30.
pub const SQUARE: &str = "\
MAP
  LAYER
    NAME \"a\"
    TYPE POLYGON
    CLASS
      STYLE
        COLOR 10 20 30
      END
    END
    FEATURE
      POINTS 1 1 3 1 3 3 1 3 END
    END
  END
END
";

/// The query for the picture of that layer, four degrees by four in four pixels by four.
pub const QUERY: &[u8] =
    b"VERSION=1.3.0&REQUEST=GetMap&LAYERS=a&STYLES=&CRS=CRS:84&BBOX=0,0,4,4&WIDTH=4&HEIGHT=4\
&FORMAT=image/x-portable-pixmap";

/// The map of a mapfile that uses no files. A mapfile with a fault ends a test as one for which memory is refused.
pub fn map_of(alloc: Global, mapfile: &str) -> Result<Map, AllocError> {
    parse(alloc, mapfile.as_bytes(), &Files::new(alloc)).map_err(|_| AllocError)
}

/// The layers of that map.
pub fn layers_of(alloc: Global, mapfile: &str) -> Result<Layers, AllocError> {
    Layers::of(alloc, map_of(alloc, mapfile)?)
}

/// The machine of that map.
pub fn machine_of(alloc: Global, mapfile: &str) -> Result<Machine, AllocError> {
    Machine::open(alloc, map_of(alloc, mapfile)?)
}
