ghost use Rattle.std.specs.Prelude.{◌≡◌, ◌≤◌, ◌<◌, All, Ok, length, map as each, IfOk, MatchResult};
ghost use Rattle.mapdefs.specs.declared.limits.TheConstants.{MAX_FEATURES};
ghost use Rattle.wmsquery.specs.Slots.{kept};
ghost use Rattle.wmsquery.specs.Query.{layer_names};
ghost use Rattle.wmsquery.specs.Reading.{IsErrorOf, asked_read, pixel_read, information_read};
ghost use Rattle.wmsquery.specs.Within.{IsInformationWithin};

use crate::error::QueryError;
use crate::fault::{Parameter, WmsFault, checked};
use crate::lists::{asked_layers, names_of};
use crate::picture::{PictureTexts, read_map};
use crate::request::InformationRequest;
use crate::texts::ParameterTexts;
use crate::values::{feature_count, info_format, pixel};
use geom::PictureSide;
use mapdefs::{Items, Map};
use operations::Operation;
use std::alloc::Global;

/// The pixel near which features are searched for, and the most features of a layer in the answer.
#[derive(Clone, Copy)]
pub struct QueriedPixel {
    pub count: u32,
    pub column: u16,
    pub row: u16,
}

// The layers whose features are requested.
fn read_asked(alloc: Global, query: &PictureTexts, map: &Map) -> Result<Items<usize>, QueryError>
    requires { each (λ x. x.now) query.now.names.now ≡ layer_names (kept query.now.texts.now) }
    ensures value { MatchResult result
        (λ asked. asked_read map.now (kept query.now.texts.now) ≡ Ok asked)
        (IsErrorOf (asked_read map.now (kept query.now.texts.now))) }
    ensures within { IfOk result (All (λ index. index < length map.now.layers)) }
{
    let queried = names_of(alloc, query.texts.given(Parameter::QueryLayers))?;
    let asked = asked_layers(alloc, map, query.names, &queried)?;
    let format = info_format(query.texts.given(Parameter::InfoFormat));
    checked(Parameter::InfoFormat, format)?;
    Ok(asked)
}

// The pixel in a picture of these sides, and the count of features.
fn read_pixel(
    width: PictureSide,
    height: PictureSide,
    texts: &ParameterTexts,
) -> Result<QueriedPixel, WmsFault>
    ensures value { result ≡ pixel_read width height (kept texts.now) }
    ensures some { IfOk result (λ queried. 1 ≤ queried.count) }
    ensures most { IfOk result (λ queried. queried.count ≤ MAX_FEATURES) }
    ensures column { IfOk result (λ queried. queried.column < width) }
    ensures row { IfOk result (λ queried. queried.row < height) }
{
    let count = feature_count(texts.given(Parameter::FeatureCount));
    let count = checked(Parameter::FeatureCount, count)?;
    let column = pixel(width, texts.given(Parameter::Column));
    let column = checked(Parameter::Column, column)?;
    let row = pixel(height, texts.given(Parameter::Row));
    let row = checked(Parameter::Row, row)?;
    Ok(QueriedPixel { count, column, row })
}

/// The request for feature information.
pub fn read_information(
    alloc: Global,
    query: &PictureTexts,
    map: &Map,
) -> Result<InformationRequest, QueryError>
    requires { each (λ x. x.now) query.now.names.now ≡ layer_names (kept query.now.texts.now) }
    ensures value { MatchResult result
        (λ request. information_read map.now (kept query.now.texts.now) ≡ Ok request)
        (IsErrorOf (information_read map.now (kept query.now.texts.now))) }
    ensures within { IfOk result (IsInformationWithin (length map.now.layers)) }
{
    let picture = read_map(alloc, Operation::Information, query, map)?;
    let layers = read_asked(alloc, query, map)?;
    let queried = read_pixel(picture.width, picture.height, query.texts)?;
    Ok(InformationRequest {
        map: picture,
        layers,
        count: queried.count,
        column: queried.column,
        row: queried.row,
    })
}
