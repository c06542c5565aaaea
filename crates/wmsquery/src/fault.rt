ghost use Rattle.std.specs.Prelude.{◌≡◌};
ghost use Rattle.wmsquery.specs.Reading.{checked};

use thiserror::Error;

/// The parameters of a query that the server reads.
#[derive(Clone, Copy, Debug)]
pub enum Parameter {
    /// SERVICE, which is `WMS` where the query has it.
    Service,
    /// REQUEST: the name of an operation.
    Request,
    /// VERSION, which is `1.3.0`.
    Version,
    /// LAYERS: the names of layers.
    Layers,
    /// STYLES: an entry for each layer, or empty.
    Styles,
    /// CRS: the name of a coordinate reference system.
    Crs,
    /// BBOX: the area, in the axis order of CRS.
    Bbox,
    /// WIDTH: the picture's width in pixels.
    Width,
    /// HEIGHT: the picture's height in pixels.
    Height,
    /// FORMAT: the format of the picture.
    Format,
    /// TRANSPARENT: whether a picture is transparent where nothing is painted, if its format can be.
    Transparent,
    /// BGCOLOR: the colour of the background.
    Bgcolor,
    /// QUERY_LAYERS: the names of the layers whose features are requested.
    QueryLayers,
    /// INFO_FORMAT: the format of feature information.
    InfoFormat,
    /// FEATURE_COUNT: the most features of a layer in the answer.
    FeatureCount,
    /// I: the column of the pixel near which features are searched for.
    Column,
    /// J: the row of that pixel.
    Row,
    /// UPDATESEQUENCE: the sequence of the capabilities document that the client has.
    UpdateSequence,
}

/// The codes of service exceptions.
#[derive(Clone, Copy, Debug)]
pub enum Code {
    /// A required parameter is missing.
    MissingParameterValue,
    /// A value isn't one that its parameter may have.
    InvalidParameterValue,
    /// REQUEST names no operation.
    OperationNotSupported,
    /// A name is not that of a layer, or is that of a layer that is switched off.
    LayerNotDefined,
    /// STYLES names a style other than the default.
    StyleNotDefined,
    /// CRS names an unknown system.
    InvalidCrs,
    /// FORMAT or INFO_FORMAT names an unknown format.
    InvalidFormat,
    /// QUERY_LAYERS names a layer that is not queryable.
    LayerNotQueryable,
    /// I or J isn't the index of a column or row of the picture.
    InvalidPoint,
    /// The client has the capabilities document of the present sequence.
    CurrentUpdateSequence,
    /// UPDATESEQUENCE is no number, or a later sequence than the present one.
    InvalidUpdateSequence,
}

/// Why a query is refused: the code of the service exception, and the parameter at fault.
#[derive(Clone, Copy, Debug, Error)]
#[error("{}: {}", .code.text(), .parameter.text())]
pub struct WmsFault {
    /// The code of the service exception.
    pub code: Code,
    /// The parameter at fault.
    pub parameter: Parameter,
}

/// What a parameter means, or its refusal as a fault.
pub fn checked<T>(parameter: Parameter, value: Result<T, Code>) -> Result<T, WmsFault>
    ensures { result ≡ checked parameter value }
{
    match value {
        Ok(value) => Ok(value),
        Err(code) => Err(WmsFault { code, parameter }),
    }
}
