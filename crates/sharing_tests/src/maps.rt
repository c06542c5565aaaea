ghost use Rattle.std.specs.Prelude.{◌≤◌, length, All, IfOk};
ghost use Rattle.mapdefs.specs.MapLimits.{LayerNamesSymbolsOf};
ghost use Rattle.mapdefs.specs.declared.limits.TheConstants.{MAX_LAYERS};

use mapdefs::{Items, Layer, Map, Text};
use mapmachine::Machine;
use std::alloc::{AllocError, Global};
use test_maps::{layer_fields, map_fields};

// A layer `a` of polygons, without any.
fn layer(alloc: Global) -> Result<Layer, AllocError>
    ensures { IfOk result (LayerNamesSymbolsOf 0) }
{
    let name = Text::from_str(alloc, "a")?;
    Ok(Layer::new(layer_fields(alloc, name)))
}

// A map with these layers.
fn map_of(alloc: Global, layers: Items<Layer>) -> Map
    requires count { length layers ≤ MAX_LAYERS }
    requires symbols { All (LayerNamesSymbolsOf 0) layers }
{
    Map::new(map_fields(alloc, layers))
}

/// The machine of a map with that layer alone.
pub fn machine(alloc: Global) -> Result<Machine, AllocError> {
    let mut layers = Items::new(alloc);
    layers.push(layer(alloc)?)?;
    Machine::open(alloc, map_of(alloc, layers))
}

/// A text where LF is written `~` and CR `^`.
pub fn shown(alloc: Global, bytes: &[u8]) -> Result<String, AllocError> {
    let text = str::from_utf8(bytes).unwrap_or("bytes that are no text");
    let text = text.replace(alloc, '\r', "^")?;
    text.replace(alloc, '\n', "~")
}
