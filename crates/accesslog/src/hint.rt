//! The likely cause of a fault of `CRS` or `BBOX`.

use crsaxes::{AxisFault, bbox};
use std::alloc::Global;
use std::str;

// The most bytes of a document on a fault of these parameters.
const MOST_BYTES: usize = 300;

/// The likely cause of a fault of a request.
#[derive(Clone, Copy, Debug)]
pub enum Hint {
    /// It names the system by `SRS`, as WMS 1.1.1 does.
    OlderName,
    /// It asks for web mercator, which the map doesn't offer.
    NoMercator,
    /// It asks for a system that no map offers.
    UnknownSystem,
    /// Its box isn't four texts between commas.
    NotFour,
    /// A number of its box can't be read, or is too large.
    NoNumber,
    /// Its box has no area, in a system whose latitudes come first.
    NoAreaByLatitudes,
    /// Its box has no area, in another system.
    NoArea,
}

// The first value of a parameter in the query of a target, which is compared without case.
fn value_of(alloc: Global, target: &[u8], parameter: &str) -> Option<String> {
    let at = target.iter().position(|byte| *byte == b'?')?;
    for pair in form_urlencoded::parse(alloc, &target[at..][1..]) {
        let (name, value) = pair.ok()?;
        if name.eq_ignore_ascii_case(parameter) {
            return String::from_str(alloc, &value).ok();
        }
    }
    None
}

// The likely cause where no system is given.
fn hint_on_missing(alloc: Global, target: &[u8]) -> Option<Hint> {
    match value_of(alloc, target, "SRS") {
        Some(_) => Some(Hint::OlderName),
        None => None,
    }
}

// The likely cause where a system is refused.
fn hint_on_system(alloc: Global, target: &[u8]) -> Option<Hint> {
    let system = value_of(alloc, target, "CRS")?;
    if system.as_str() == "EPSG:3857" {
        Some(Hint::NoMercator)
    } else {
        Some(Hint::UnknownSystem)
    }
}

// The likely cause where a box is refused.
fn hint_on_box(alloc: Global, target: &[u8]) -> Option<Hint> {
    let system = value_of(alloc, target, "CRS")?;
    let area = value_of(alloc, target, "BBOX")?;
    match bbox(true, system.as_str(), area.as_str()) {
        Err(AxisFault::NotFour) => Some(Hint::NotFour),
        Err(AxisFault::NotANumber) => Some(Hint::NoNumber),
        Err(AxisFault::Empty) if system.as_str() == "EPSG:4326" => Some(Hint::NoAreaByLatitudes),
        Err(AxisFault::Empty) => Some(Hint::NoArea),
        Ok(_) | Err(AxisFault::UnknownCrs) => None,
    }
}

/// The likely cause of the fault that a document is on, by the target of its request. There is none where it isn't the document on a
/// fault of `CRS` or `BBOX`, where the cause isn't known, and where memory is refused.
pub fn hint_on(alloc: Global, target: &[u8], document: &[u8]) -> Option<Hint> {
    if document.len() > MOST_BYTES {
        return None;
    }
    let text = str::from_utf8(document).ok()?;
    if text.contains("code=\"MissingParameterValue\">CRS</ServiceException>") {
        hint_on_missing(alloc, target)
    } else if text.contains("code=\"InvalidCRS\">CRS</ServiceException>") {
        hint_on_system(alloc, target)
    } else if text.contains("code=\"InvalidParameterValue\">BBOX</ServiceException>") {
        hint_on_box(alloc, target)
    } else {
        None
    }
}
