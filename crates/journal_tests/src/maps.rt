ghost use Rattle.std.specs.Prelude.{◌≡◌, ◌≤◌, length, All, IfOk};
ghost use Rattle.mapdefs.specs.MapLimits.{LayerNamesSymbolsOf};
ghost use Rattle.mapdefs.specs.declared.limits.TheConstants.{MAX_LAYERS};

use mapdefs::{Items, Layer, Map, Text};
use mapmachine::Machine;
use mapparse::{Files, parse};
use std::alloc::{AllocError, Global};
use test_maps::{layer_fields, map_fields};

// A layer of this name, of polygons, without any.
fn layer(alloc: Global, name: &str) -> Result<Layer, AllocError>
    ensures { IfOk result (LayerNamesSymbolsOf 0) }
{
    let name = Text::from_str(alloc, name)?;
    Ok(Layer::new(layer_fields(alloc, name)))
}

// A map with these layers.
fn map_of(alloc: Global, layers: Items<Layer>) -> Map
    requires count { length layers ≤ MAX_LAYERS }
    requires symbols { All (LayerNamesSymbolsOf 0) layers }
{
    Map::new(map_fields(alloc, layers))
}

/// The machine of a map with one layer of this name.
pub fn machine(alloc: Global, name: &str) -> Result<Machine, AllocError> {
    let mut layers = Items::new(alloc);
    layers.push(layer(alloc, name)?)?;
    Machine::open(alloc, map_of(alloc, layers))
}

// Two layers of points, without any.
const TWO_LAYERS: &[u8] = b"MAP \
LAYER NAME p TYPE POINT TEMPLATE t PROCESSING 'ITEMS=n' CLASS STYLE COLOR 4 5 6 END END END \
LAYER NAME q TYPE POINT TEMPLATE t PROCESSING 'ITEMS=n' CLASS STYLE COLOR 1 2 3 END END END END";

/// The machine of a map with two layers of points, `p` and `q`, as after so many batches.
pub fn two_layers(alloc: Global, sequence: u64) -> Result<Machine, AllocError>
    ensures { IfOk result (λ machine. machine.sequence ≡ sequence) }
{
    let map = parse(alloc, TWO_LAYERS, &Files::new(alloc)).map_err(|_| AllocError)?;
    Machine::open_at(alloc, map, sequence)
}

// The values of the features of a layer that lie at its place, or `off`.
fn values_of(alloc: Global, machine: &Machine, layer: &str) -> Result<String, AllocError> {
    let query = format!(in alloc;
        "VERSION=1.3.0&REQUEST=GetFeatureInfo&LAYERS={layer}&CRS=CRS:84&BBOX=0,0,2,1&WIDTH=2&HEIGHT=1\
&QUERY_LAYERS={layer}&INFO_FORMAT=text/plain&FEATURE_COUNT=9&I=0&J=0"
    )?;
    let answer = machine.reply(query.as_bytes())?;
    if answer.mime.text() != "text/plain" {
        return String::from_str(alloc, " off");
    }
    let mut values = String::new(alloc);
    for line in str::from_utf8(answer.body.as_slice()).unwrap_or("").lines() {
        if let Some((_, value)) = line.split_once(" = ") {
            values.push_str(" ")?;
            values.push_str(value)?;
        }
    }
    Ok(values)
}

/// What a machine of the two layers shows of each, and how many batches it has published.
pub fn shown(alloc: Global, machine: &Machine) -> Result<String, AllocError> {
    let p = values_of(alloc, machine, "p")?;
    let q = values_of(alloc, machine, "q")?;
    format!(in alloc; "p{p}, q{q}, sequence {}", machine.sequence())
}
