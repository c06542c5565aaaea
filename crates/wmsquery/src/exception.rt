ghost use Rattle.std.specs.Prelude.{◌≡◌, ◌++◌, IfOk, OnOk};
ghost use Rattle.wmsquery.specs.Report.{code_text, parameter_text, report_head, report_tail, report};

use crate::fault::{Code, Parameter, WmsFault};
use mapdefs::Items;
use std::alloc::{AllocError, Global};

// The document before the code.
const HEAD: &str =
    "<?xml version=\"1.0\" encoding=\"UTF-8\"?>\n<ServiceExceptionReport version=\"1.3.0\" xmlns=\"http://www.opengis.net/ogc\">\n<ServiceException code=\"";

// The document after the name of the parameter.
const TAIL: &str = "</ServiceException>\n</ServiceExceptionReport>\n";

impl Code {
    /// The name of the code, as documents write it.
    pub fn text(self) -> &'static str
        ensures { result.now ≡ code_text self }
    {
        match self {
            Code::MissingParameterValue => "MissingParameterValue",
            Code::InvalidParameterValue => "InvalidParameterValue",
            Code::OperationNotSupported => "OperationNotSupported",
            Code::LayerNotDefined => "LayerNotDefined",
            Code::StyleNotDefined => "StyleNotDefined",
            Code::InvalidCrs => "InvalidCRS",
            Code::InvalidFormat => "InvalidFormat",
            Code::LayerNotQueryable => "LayerNotQueryable",
            Code::InvalidPoint => "InvalidPoint",
            Code::CurrentUpdateSequence => "CurrentUpdateSequence",
            Code::InvalidUpdateSequence => "InvalidUpdateSequence",
        }
    }
}

impl Parameter {
    /// The name of the parameter, in upper case.
    pub fn text(self) -> &'static str
        ensures { result.now ≡ parameter_text self }
    {
        match self {
            Parameter::Service => "SERVICE",
            Parameter::Request => "REQUEST",
            Parameter::Version => "VERSION",
            Parameter::Layers => "LAYERS",
            Parameter::Styles => "STYLES",
            Parameter::Crs => "CRS",
            Parameter::Bbox => "BBOX",
            Parameter::Width => "WIDTH",
            Parameter::Height => "HEIGHT",
            Parameter::Format => "FORMAT",
            Parameter::Transparent => "TRANSPARENT",
            Parameter::Bgcolor => "BGCOLOR",
            Parameter::QueryLayers => "QUERY_LAYERS",
            Parameter::InfoFormat => "INFO_FORMAT",
            Parameter::FeatureCount => "FEATURE_COUNT",
            Parameter::Column => "I",
            Parameter::Row => "J",
            Parameter::UpdateSequence => "UPDATESEQUENCE",
        }
    }
}

// The document before the code.
#[tactic(auto, unfolding(crate::specs::Report::report_head))]
fn head() -> &'static str
    ensures { result.now ≡ report_head }
{
    HEAD
}

// The document after the name of the parameter.
#[tactic(auto, unfolding(crate::specs::Report::report_tail))]
fn tail() -> &'static str
    ensures { result.now ≡ report_tail }
{
    TAIL
}

// Adds a text.
fn add(bytes: &mut Vec<u8>, text: &str) -> Result<(), AllocError>
    ensures { OnOk result (bytes.new.items ≡ bytes.old.items ++ text.now) }
{
    bytes.extend_from_slice(text.as_bytes())
}

/// The document of a service exception. The error says that memory was refused.
pub fn report(alloc: Global, fault: WmsFault) -> Result<Items<u8>, AllocError>
    ensures { IfOk result (λ document. document ≡ report fault) }
{
    let mut bytes = Vec::new(alloc);
    add(&mut bytes, head())?;
    add(&mut bytes, fault.code.text())?;
    add(&mut bytes, "\">")?;
    add(&mut bytes, fault.parameter.text())?;
    add(&mut bytes, tail())?;
    Ok(Items::of(bytes))
}
