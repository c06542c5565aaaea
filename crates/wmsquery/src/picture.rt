ghost use Rattle.std.specs.Prelude.{◌≡◌, ◌<◌, All, Ok, length, map as each, IfOk, MatchResult};
ghost use Rattle.geom.specs.World.{IsExtent};
ghost use Rattle.wmsquery.specs.Slots.{kept};
ghost use Rattle.wmsquery.specs.Query.{layer_names};
ghost use Rattle.wmsquery.specs.Reading.{IsErrorOf, layers_read, viewport_read, output_read, map_read};
ghost use Rattle.wmsquery.specs.Within.{IsMapWithin};

use crate::error::QueryError;
use crate::fault::{Parameter, WmsFault, checked};
use crate::lists::{layers, styles};
use crate::request::{Format, MapRequest};
use crate::texts::ParameterTexts;
use crate::values::{
    area, background, background_for, format, metres, side, system, transparent, version,
};
use crsaxes::Crs;
use geom::{PictureSide, WorldBox};
use mapdefs::{Items, Map, Rgb};
use operations::Operation;
use std::alloc::Global;

/// Which part of the world a picture shows, and by how many pixels.
#[derive(Clone, Copy)]
pub struct Viewport {
    pub crs: Crs,
    pub area: WorldBox,
    pub metres: Option<u64>,
    pub width: PictureSide,
    pub height: PictureSide,
}

/// The format of a picture, and its background: a colour, or nothing.
#[derive(Clone, Copy)]
pub struct Output {
    pub format: Format,
    pub background: Option<Rgb>,
}

/// The texts of a query for a picture, and the names that its LAYERS lists.
#[derive(Drop)]
pub struct PictureTexts<'a> {
    pub texts: &'a ParameterTexts,
    pub names: &'a [&'a str],
}

// The layers of a picture.
fn read_layers(
    alloc: Global,
    operation: Operation,
    query: &PictureTexts,
    map: &Map,
) -> Result<Items<usize>, QueryError>
    requires { each (λ x. x.now) query.now.names.now ≡ layer_names (kept query.now.texts.now) }
    ensures value { MatchResult result
        (λ chosen. layers_read map.now operation (kept query.now.texts.now) ≡ Ok chosen)
        (IsErrorOf (layers_read map.now operation (kept query.now.texts.now))) }
    ensures within { IfOk result (All (λ index. index < length map.now.layers)) }
{
    let version = version(query.texts.given(Parameter::Version));
    checked(Parameter::Version, version)?;
    let chosen = layers(alloc, map, query.names)?;
    let text = query.texts.text(Parameter::Styles);
    let styles = styles(alloc, operation, query.names.len(), text)?;
    checked(Parameter::Styles, styles)?;
    Ok(chosen)
}

// The area and the sides of a picture.
fn read_viewport(texts: &ParameterTexts, map: &Map) -> Result<Viewport, WmsFault>
    ensures value { result ≡ viewport_read map.now (kept texts.now) }
    ensures extent { IfOk result (λ viewport. IsExtent viewport.area) }
{
    let crs = checked(
        Parameter::Crs,
        system(map.get().mercator, texts.given(Parameter::Crs)),
    )?;
    let area = checked(Parameter::Bbox, area(crs, texts.given(Parameter::Bbox)))?;
    let metres = metres(crs, texts.given(Parameter::Bbox));
    let width = checked(Parameter::Width, side(texts.given(Parameter::Width)))?;
    let height = checked(Parameter::Height, side(texts.given(Parameter::Height)))?;
    Ok(Viewport {
        crs,
        area,
        metres,
        width,
        height,
    })
}

// The format and the background of a picture.
fn read_output(operation: Operation, texts: &ParameterTexts, map: &Map) -> Result<Output, WmsFault>
    ensures { result ≡ output_read map.now operation (kept texts.now) }
{
    let format = format(map.get().png, operation, texts.given(Parameter::Format));
    let format = checked(Parameter::Format, format)?;
    let transparent = transparent(texts.given(Parameter::Transparent));
    let transparent = checked(Parameter::Transparent, transparent)?;
    let colour = background(texts.given(Parameter::Bgcolor));
    let colour = checked(Parameter::Bgcolor, colour)?;
    Ok(Output {
        format,
        background: background_for(format, transparent, colour),
    })
}

/// The request for a picture, or for the picture whose features are requested.
pub fn read_map(
    alloc: Global,
    operation: Operation,
    query: &PictureTexts,
    map: &Map,
) -> Result<MapRequest, QueryError>
    requires { each (λ x. x.now) query.now.names.now ≡ layer_names (kept query.now.texts.now) }
    ensures value { MatchResult result
        (λ request. map_read map.now operation (kept query.now.texts.now) ≡ Ok request)
        (IsErrorOf (map_read map.now operation (kept query.now.texts.now))) }
    ensures within { IfOk result (IsMapWithin (length map.now.layers)) }
{
    let chosen = read_layers(alloc, operation, query, map)?;
    let viewport = read_viewport(query.texts, map)?;
    let output = read_output(operation, query.texts, map)?;
    Ok(MapRequest {
        chosen,
        crs: viewport.crs,
        area: viewport.area,
        metres: viewport.metres,
        width: viewport.width,
        height: viewport.height,
        format: output.format,
        background: output.background,
    })
}
