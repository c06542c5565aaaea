ghost use Rattle.std.specs.Prelude.{◌≡◌, ◌≤◌, [], length, All};
ghost use Rattle.mapdefs.specs.MapLimits.{LayerNamesSymbolsOf};
ghost use Rattle.mapdefs.specs.declared.limits.TheConstants.{MAX_LAYERS};

use mapdefs::{Items, Layer, MAX_LAYERS, Map, Rgb, Text};
use std::alloc::{AllocError, Global};
use test_maps::{layer_fields, map_fields};
use test_tables::{TableFault, check_rows};
use wmsquery::{Format, InformationRequest, MAX_NAMES, MapRequest, Request, read};

// A query without a fault. The first pair of a name counts, so that the rows put others before it.
const QUERY: &str =
    "VERSION=1.3.0&REQUEST=GetMap&LAYERS=a&STYLES=&CRS=CRS:84&BBOX=0,0,4,4&WIDTH=4&HEIGHT=4&FORMAT=image/x-portable-pixmap";

// A query for features without a fault.
const INFORMATION: &str =
    "VERSION=1.3.0&REQUEST=GetFeatureInfo&LAYERS=a,c,d&CRS=CRS:84&BBOX=0,0,4,4&WIDTH=4&HEIGHT=3&QUERY_LAYERS=d,a&INFO_FORMAT=text/plain&I=3&J=2";

// The result for each query, `|` and the query. `@` is the query without a fault, `$` the one for features,
// `*` are 63 layers and `#` 50,000 parameters that the server doesn't read. A line that begins with `# ` is a
// heading.
const QUERIES: &str = "\
# the names
MissingParameterValue: REQUEST|
InvalidParameterValue: SERVICE|SERVICE=wms&@
MissingParameterValue: REQUEST|REQUEST=&@
OperationNotSupported: REQUEST|REQUEST=getmap&@
MissingParameterValue: VERSION|VERSION=&@
InvalidParameterValue: VERSION|VERSION=1.1.1&@
MissingParameterValue: LAYERS|LAYERS=&@
LayerNotDefined: LAYERS|LAYERS=x&@
LayerNotDefined: LAYERS|LAYERS=A&@
LayerNotDefined: LAYERS|LAYERS=b&@
LayerNotDefined: LAYERS|LAYERS=a,&@
LayerNotDefined: LAYERS|LAYERS=%a&@
StyleNotDefined: STYLES|STYLES=x&@
StyleNotDefined: STYLES|STYLES=Default&@
InvalidParameterValue: STYLES|STYLES=default,default&@
InvalidParameterValue: STYLES|LAYERS=a,c&STYLES=default&@
MissingParameterValue: CRS|CRS=&@
InvalidCRS: CRS|CRS=EPSG:1&@
InvalidCRS: CRS|CRS=EPSG:3857&@
MissingParameterValue: STYLES|VERSION=1.3.0&REQUEST=GetMap&LAYERS=a&CRS=CRS:84&BBOX=0,0,4,4&WIDTH=4&HEIGHT=4&FORMAT=image/x-portable-pixmap
InvalidParameterValue: LAYERS|LAYERS=a*,c&@
# the numbers, the format and the colours
MissingParameterValue: BBOX|BBOX=&@
InvalidParameterValue: BBOX|BBOX=0,0,0,4&@
MissingParameterValue: WIDTH|WIDTH=&@
InvalidParameterValue: WIDTH|WIDTH=0&@
InvalidParameterValue: WIDTH|WIDTH=2049&@
InvalidParameterValue: WIDTH|WIDTH=4.0&@
MissingParameterValue: HEIGHT|HEIGHT=&@
InvalidParameterValue: HEIGHT|HEIGHT=0&@
InvalidParameterValue: HEIGHT|HEIGHT=2049&@
InvalidParameterValue: HEIGHT|HEIGHT=-4&@
MissingParameterValue: FORMAT|FORMAT=&@
InvalidFormat: FORMAT|FORMAT=image/png&@
InvalidFormat: FORMAT|FORMAT=image/x-portable-arbitrarymaps&@
InvalidParameterValue: TRANSPARENT|TRANSPARENT=yes&@
InvalidParameterValue: BGCOLOR|BGCOLOR=%23102030&@
InvalidParameterValue: BGCOLOR|BGCOLOR=0x1020&@
InvalidParameterValue: BGCOLOR|BGCOLOR=0x10203040&@
InvalidParameterValue: BGCOLOR|BGCOLOR=0x10203g&@
# two faults, of which the earlier in the order of refusal is reported
InvalidParameterValue: SERVICE|SERVICE=x&REQUEST=x&@
OperationNotSupported: REQUEST|REQUEST=x&VERSION=x&@
InvalidParameterValue: VERSION|VERSION=x&LAYERS=x&@
LayerNotDefined: LAYERS|LAYERS=x&STYLES=x&@
LayerNotDefined: LAYERS|LAYERS=x&CRS=EPSG:1&@
StyleNotDefined: STYLES|STYLES=x&CRS=x&@
InvalidCRS: CRS|CRS=x&BBOX=x&@
InvalidParameterValue: BBOX|BBOX=x&WIDTH=x&@
InvalidParameterValue: WIDTH|WIDTH=x&HEIGHT=&@
InvalidParameterValue: HEIGHT|HEIGHT=x&FORMAT=x&@
InvalidFormat: FORMAT|FORMAT=x&TRANSPARENT=x&@
InvalidParameterValue: TRANSPARENT|TRANSPARENT=x&BGCOLOR=x&@
InvalidParameterValue: SERVICE|BGCOLOR=x&SERVICE=x&@
LayerNotDefined: LAYERS|#LAYERS=x&@
# no fault, and the request worked by hand: the layers, then west, south, east and north in millionths
# of a degree, width, height and the background, and `map` where the format is PAM
0, 0 0 4000000 4000000 4 4 255 255 255|SERVICE=WMS&@
2, 0 0 4000000 4000000 4 4 255 255 255|layers=c&@&LAYERS=x
0, 0 0 4000000 4000000 4 4 255 255 255|StYlEs=default&@&STYLES=x
0,2, 0 0 4000000 4000000 4 4 255 255 255|LAYERS=a,c&STYLES=,default&@&WIDTH=0
0, 0 0 4000000 4000000 4 4 255 255 255|LAYERS=%61&@&HEIGHT=0
0, 0 0 4000000 4000000 4 4 255 255 255|TRANSPARENT=True&@&FORMAT=image/png
0, 0 0 4000000 4000000 4 4 255 255 255|transparent=false&@&CRS=EPSG:1
0, 0 0 4000000 4000000 4 4 10 20 30|BGCOLOR=0X0a141E&@&BGCOLOR=x
0, 0 0 4000000 4000000 4 4 10 20 30|TRANSPARENT=TRUE&BGCOLOR=0x0A141E&@
0, 0 0 4000000 4000000 4 4 10 20 30 map|FORMAT=image/x-portable-arbitrarymap&BGCOLOR=0x0A141E&@
0, 0 0 4000000 4000000 4 4 10 20 30 map|TRANSPARENT=FALSE&FORMAT=image/x-portable-arbitrarymap&BGCOLOR=0x0A141E&@
0, 0 0 4000000 4000000 4 4 nothing map|TRANSPARENT=true&FORMAT=image/x-portable-arbitrarymap&BGCOLOR=0x0A141E&@
0, 0 0 4000000 4000000 2048 1 255 255 255|WIDTH=2048&HEIGHT=0001&@&other
0, 0 0 4000000 4000000 4 4 255 255 255|EXCEPTIONS=x&=&&TIME=x&@&request=x
0, 0 0 4000000 4000000 4 4 255 255 255|TIME=%&%=%g1&@
0, 0 0 4000000 4000000 4 4 255 255 255|#@&#LAYERS=x
0, 0 0 4000000 4000000 4 4 255 255 255|UPDATESEQUENCE=x&QUERY_LAYERS=x&INFO_FORMAT=x&FEATURE_COUNT=x&I=x&J=x&@
0,2,2,2,2,2,2,2,2,2,2,2,2,2,2,2,2,2,2,2,2,2,2,2,2,2,2,2,2,2,2,2,2,2,2,2,2,2,2,2,2,2,2,2,2,2,2,2,2,2,2,2,2,2,2,2,2,2,2,2,2,2,2,2, 0 0 4000000 4000000 4 4 255 255 255|LAYERS=a*&@
2,0, 10000000 40000000 14000000 44500000 5 7 10 20 30|LAYERS=c,a&CRS=EPSG:4326&BBOX=40,10,44.5,14&WIDTH=5&HEIGHT=7&BGCOLOR=0x0A141e&@
0, 0 0 4000000 4000000 4 4 255 255 255|@";

// The same of the two other operations, at the sequence 2^64 - 1.
const OTHERS: &str = "\
# GetCapabilities, which reads three parameters
capabilities|REQUEST=GetCapabilities
capabilities|SERVICE=WMS&REQUEST=GetCapabilities&VERSION=x&LAYERS=x&STYLES=x&CRS=x&BBOX=x&WIDTH=x&FORMAT=x&QUERY_LAYERS=x&I=x
capabilities|REQUEST=GetCapabilities&UPDATESEQUENCE=
capabilities|REQUEST=GetCapabilities&UpdateSequence=18446744073709551614
capabilities|REQUEST=GetCapabilities&UPDATESEQUENCE=00
CurrentUpdateSequence: UPDATESEQUENCE|REQUEST=GetCapabilities&UPDATESEQUENCE=18446744073709551615
CurrentUpdateSequence: UPDATESEQUENCE|REQUEST=GetCapabilities&UPDATESEQUENCE=0018446744073709551615
InvalidUpdateSequence: UPDATESEQUENCE|REQUEST=GetCapabilities&UPDATESEQUENCE=18446744073709551616
InvalidUpdateSequence: UPDATESEQUENCE|REQUEST=GetCapabilities&UPDATESEQUENCE=1000000000000000000000000000000
InvalidUpdateSequence: UPDATESEQUENCE|REQUEST=GetCapabilities&UPDATESEQUENCE=-1
OperationNotSupported: REQUEST|REQUEST=getCapabilities
# two faults
InvalidParameterValue: SERVICE|SERVICE=x&REQUEST=x&UPDATESEQUENCE=x
OperationNotSupported: REQUEST|REQUEST=x&UPDATESEQUENCE=x
# GetFeatureInfo
MissingParameterValue: QUERY_LAYERS|QUERY_LAYERS=&$
InvalidParameterValue: QUERY_LAYERS|QUERY_LAYERS=c*,x&$
LayerNotDefined: QUERY_LAYERS|QUERY_LAYERS=d,x&$
LayerNotDefined: QUERY_LAYERS|QUERY_LAYERS=d,&$
LayerNotDefined: QUERY_LAYERS|QUERY_LAYERS=b&$
LayerNotDefined: QUERY_LAYERS|LAYERS=a,c&$
LayerNotDefined: QUERY_LAYERS|LAYERS=a,d&QUERY_LAYERS=c&$
LayerNotDefined: QUERY_LAYERS|QUERY_LAYERS=a,x,c&$
LayerNotQueryable: QUERY_LAYERS|QUERY_LAYERS=a,c,x&$
MissingParameterValue: INFO_FORMAT|INFO_FORMAT=&$
InvalidFormat: INFO_FORMAT|INFO_FORMAT=text/html&$
InvalidParameterValue: FEATURE_COUNT|FEATURE_COUNT=0&$
InvalidParameterValue: FEATURE_COUNT|FEATURE_COUNT=%2B1&$
MissingParameterValue: I|I=&$
InvalidPoint: I|I=4&$
InvalidPoint: I|I=1000000000000000000000000000000&$
MissingParameterValue: J|J=&$
InvalidPoint: J|J=3&$
InvalidPoint: J|J=1.0&$
InvalidParameterValue: STYLES|STYLES=,&$
# two faults, neighbours in the order of refusal
InvalidParameterValue: VERSION|VERSION=x&LAYERS=x&$
LayerNotDefined: LAYERS|LAYERS=x&STYLES=x&$
StyleNotDefined: STYLES|STYLES=,x,&CRS=x&$
InvalidCRS: CRS|CRS=x&BBOX=x&$
InvalidParameterValue: BBOX|BBOX=x&WIDTH=x&$
InvalidParameterValue: WIDTH|WIDTH=x&HEIGHT=x&$
InvalidParameterValue: HEIGHT|HEIGHT=x&FORMAT=x&$
InvalidFormat: FORMAT|FORMAT=x&TRANSPARENT=x&$
InvalidParameterValue: TRANSPARENT|TRANSPARENT=x&BGCOLOR=x&$
InvalidParameterValue: BGCOLOR|BGCOLOR=x&QUERY_LAYERS=x&$
LayerNotDefined: QUERY_LAYERS|QUERY_LAYERS=x&INFO_FORMAT=x&$
InvalidFormat: INFO_FORMAT|INFO_FORMAT=x&FEATURE_COUNT=x&$
InvalidParameterValue: FEATURE_COUNT|FEATURE_COUNT=x&I=x&$
InvalidPoint: I|I=x&J=x&$
# no fault: the picture as before, the queried layers, the count, the column and the row
0,2,3, 0 0 4000000 4000000 4 3 255 255 255; 3,0, 1 3 2|$
0,2,3, 0 0 4000000 4000000 4 3 10 20 30; 3,0,3, 7 3 0|QUERY_LAYERS=d,a,d&STYLES=,default,&FORMAT=&BGCOLOR=0x0a141e&FEATURE_COUNT=007&J=00&$
3,2,0, 0 0 4000000 4000000 4 3 nothing map; 0,3, 200000 1 2|LAYERS=d,c,a&QUERY_LAYERS=a,d&FORMAT=image/x-portable-arbitrarymap&TRANSPARENT=TRUE&FEATURE_COUNT=200001&I=0000000000000000000000001&$
0,2,3, 0 0 4000000 4000000 4 3 255 255 255; 3,0, 200000 3 2|FEATURE_COUNT=1000000000000000000000000000000&UPDATESEQUENCE=x&$";

// The same of a map that offers PNG and web mercator. `png` ends a picture in that format.
const OFFERED: &str = "\
# PNG
0, 0 0 4000000 4000000 4 4 255 255 255 png|FORMAT=image/png&@
0, 0 0 4000000 4000000 4 4 10 20 30 png|FORMAT=image/png&TRANSPARENT=FALSE&BGCOLOR=0x0A141E&@
0, 0 0 4000000 4000000 4 4 nothing png|TRANSPARENT=true&FORMAT=image/png&BGCOLOR=0x0A141E&@
0,2,3, 0 0 4000000 4000000 4 3 255 255 255 png; 3,0, 1 3 2|FORMAT=image/png&$
0, 0 0 4000000 4000000 4 4 255 255 255|@
0, 0 0 4000000 4000000 4 4 nothing map|TRANSPARENT=true&FORMAT=image/x-portable-arbitrarymap&@
InvalidFormat: FORMAT|FORMAT=image/PNG&@
InvalidFormat: FORMAT|FORMAT=image/gif&@
InvalidFormat: FORMAT|FORMAT=image/png%20&@
# web mercator: a degree of the equator has 111319.490793 metres. The width in millionths of a metre ends a picture
0, 1000000 2000000 3000000 5000000 4 4 255 255 255 222638981587m|CRS=EPSG:3857&BBOX=111319.490793,222638.981587,333958.472380,556597.453966&@
0, -180000000 -180000000 180000000 180000000 4 4 255 255 255 40075016685578m|CRS=EPSG:3857&BBOX=-20037508.342789244,-20037508.342789244,20037508.342789244,20037508.342789244&@
0, 0 0 4000000 4000000 4 4 255 255 255|CRS=CRS:84&@
InvalidParameterValue: BBOX|CRS=EPSG:3857&BBOX=0,0,111319490.8,4&@
InvalidParameterValue: BBOX|CRS=EPSG:3857&BBOX=0,0,0.04,4&@
InvalidCRS: CRS|CRS=EPSG:900913&@
InvalidCRS: CRS|CRS=epsg:3857&@";

// A layer of polygons without any.
fn layer(alloc: Global, name: Text, on: bool, queryable: bool) -> Layer
    ensures { result.classes ≡ [] }
{
    let mut fields = layer_fields(alloc, name);
    fields.on = on;
    fields.queryable = queryable;
    Layer::new(fields)
}

fn map_of(alloc: Global, layers: Vec<Layer>, offers: bool) -> Map
    requires count { length layers.items ≤ MAX_LAYERS }
    requires symbols { All (LayerNamesSymbolsOf 0) layers.items }
{
    let mut fields = map_fields(alloc, Items::of(layers));
    fields.png = offers;
    fields.mercator = offers;
    Map::new(fields)
}

// A map of the layers `a` to `d`, of which `b` is switched off and `c` isn't queryable. It offers PNG and web
// mercator or doesn't.
fn test_map(alloc: Global, offers: bool) -> Result<Map, AllocError> {
    let a = Text::from_str(alloc, "a")?;
    let b = Text::from_str(alloc, "b")?;
    let c = Text::from_str(alloc, "c")?;
    let d = Text::from_str(alloc, "d")?;
    let layers = vec![in alloc;
        layer(alloc, a, true, true),
        layer(alloc, b, false, true),
        layer(alloc, c, true, false),
        layer(alloc, d, true, true),
    ]?;
    Ok(map_of(alloc, layers, offers))
}

// Indices, each with a comma after it.
fn listed(alloc: Global, indices: &[usize]) -> Result<String, AllocError> {
    let mut list = String::new(alloc);
    for index in indices {
        list.push_str(format!(in alloc; "{index},")?.as_str())?;
    }
    Ok(list)
}

// The background of a request, and its format where that isn't PPM.
fn ground(alloc: Global, request: &MapRequest) -> Result<String, AllocError> {
    let mut text = match request.background {
        Some(Rgb { red, green, blue }) => format!(in alloc; "{red} {green} {blue}")?,
        None => String::from_str(alloc, "nothing")?,
    };
    match request.format {
        Format::Png => text.push_str(" png")?,
        Format::Pixmap => {}
        Format::ArbitraryMap => text.push_str(" map")?,
    }
    Ok(text)
}

// The width of the area of a request, where it is in metres.
fn metres(alloc: Global, request: &MapRequest) -> Result<String, AllocError> {
    match request.metres {
        Some(metres) => format!(in alloc; " {metres}m"),
        None => Ok(String::new(alloc)),
    }
}

// The picture of a request, as a row writes it.
fn picture(alloc: Global, request: &MapRequest) -> Result<String, AllocError> {
    let chosen = listed(alloc, request.chosen.as_slice())?;
    let area = request.area;
    let (west, south) = (area.minx().millionths(), area.miny().millionths());
    let (east, north) = (area.maxx().millionths(), area.maxy().millionths());
    let (width, height) = (request.width.pixels(), request.height.pixels());
    let ground = ground(alloc, request)?;
    let metres = metres(alloc, request)?;
    format!(in alloc; "{chosen} {west} {south} {east} {north} {width} {height} {ground}{metres}")
}

// A request for features, as a row writes it.
fn information(alloc: Global, request: &InformationRequest) -> Result<String, AllocError> {
    let picture = picture(alloc, &request.map)?;
    let queried = listed(alloc, request.layers.as_slice())?;
    let (count, column, row) = (request.count, request.column, request.row);
    format!(in alloc; "{picture}; {queried} {count} {column} {row}")
}

// A request as a row writes it.
fn shown(alloc: Global, request: &Request) -> Result<String, AllocError> {
    match request {
        Request::Capabilities => String::from_str(alloc, "capabilities"),
        Request::Map(request) => picture(alloc, request),
        Request::Information(request) => information(alloc, request),
    }
}

// The result for a query: its request, or the message of its refusal.
fn result_of(alloc: Global, query: &str, map: &Map) -> Result<String, AllocError> {
    match read(alloc, query.as_bytes(), map, u64::MAX) {
        Ok(request) => shown(alloc, &request),
        Err(error) => format!(in alloc; "{error}"),
    }
}

// A query in which all letters stand for themselves.
fn spelt(alloc: Global, query: &str) -> Result<String, AllocError> {
    let layers = ",c".repeat(alloc, 63)?;
    let others = "LAYER=%78&l=2&".repeat(alloc, 25_000)?;
    let query = query.replace(alloc, '@', QUERY)?;
    let query = query.replace(alloc, '$', INFORMATION)?;
    let query = query.replace(alloc, '*', layers.as_str())?;
    query.replace(alloc, '#', others.as_str())
}

fn rows_of_queries(alloc: Global, row: &str) -> Result<String, AllocError> {
    let query = spelt(alloc, row)?;
    let map = test_map(alloc, false)?;
    result_of(alloc, query.as_str(), &map)
}

fn rows_of_offers(alloc: Global, row: &str) -> Result<String, AllocError> {
    let query = spelt(alloc, row)?;
    let map = test_map(alloc, true)?;
    result_of(alloc, query.as_str(), &map)
}

#[test]
fn queries_have_worked_results(rt: HostRuntime) -> Result<(), TableFault> {
    check_rows(rt.alloc(), QUERIES, '|', 73, rows_of_queries)
}

#[test]
fn queries_of_other_operations_have_worked_results(rt: HostRuntime) -> Result<(), TableFault> {
    check_rows(rt.alloc(), OTHERS, '|', 51, rows_of_queries)
}

#[test]
fn offers_have_worked_results(rt: HostRuntime) -> Result<(), TableFault> {
    check_rows(rt.alloc(), OFFERED, '|', 16, rows_of_offers)
}

// A definition cites the same constant as the code, so only a test can find a wrong limit.
#[test]
fn limits_have_their_numbers(rt: HostRuntime) {
    assert_eq!(rt; MAX_NAMES, 64);
}
