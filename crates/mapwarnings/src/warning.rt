ghost use Rattle.std.specs.Prelude.{◌≡◌, ◌++◌, IfOk, OnOk};
ghost use Rattle.std.specs.List.{list_any};
ghost use Rattle.mapwords.specs.Rule.{is_comma};
ghost use Rattle.mapwarnings.specs.Unused.{is_bare, is_fontless, lacks_font, lacks_of_rule};
ghost use Rattle.mapwarnings.specs.Warning.{drawing_warnings, font_warnings, is_beyond_degrees, is_default_address, item_warnings, layer_warnings, layers_warnings, service_warnings, text_warnings, warned, warnings};
ghost use Rattle.mapwarnings.specs.Lines.{message_of};

use crate::unused::{is_bare, is_fontless, is_unclassed, lacks_font, lacks_named, lacks_of_rule};
use geom::{Micro, WorldBox};
use mapdefs::{Class, Layer, LayerFields, Map, MapFields, Text};
use std::alloc::{AllocError, Global};
use xmltext::has_forbidden;

/// What isn't as clients need it.
#[derive(Clone, Copy)]
pub enum Concern {
    /// The address is missing, and its default has no port.
    NoAddress,
    /// A name is empty, as no name in `LAYERS` may be.
    EmptyName,
    /// A name has a comma, which separates names in `LAYERS`.
    CommaInName,
    /// A name has a character that XML forbids.
    ForbiddenInName,
    /// A title has one.
    ForbiddenInTitle,
    /// The address has one.
    ForbiddenInAddress,
    /// The extent reaches beyond 180 degrees of longitude or 90 of latitude.
    BeyondDegrees,
    /// The item that labels show is none of the layer's.
    UnknownLabelItem,
    /// The item that classes look at is none of the layer's.
    UnknownClassItem,
    /// An item in the expression of a class is none of the layer's.
    UnknownItem,
    /// A class has a label without a font, since the map has none for those that name none.
    NoFont,
    /// A class has a label that names a font which the map doesn't have.
    UnknownFont,
    /// The layer has features, and no class that they could be of.
    NoClass,
    /// A class paints and labels nothing.
    BareClass,
}

/// That something isn't as clients need it.
#[derive(Clone, Copy)]
pub struct Warning {
    /// The number of the layer that it is about, counted from 1. There is none where it is about the service.
    pub layer: Option<usize>,
    /// What it is.
    pub concern: Concern,
}

impl Concern {
    /// The message on it, which comes after what it is about.
    #[tactic(auto, unfolding(crate::specs::Lines::message_of))]
    pub(crate) fn message(self) -> &'static str
        ensures { result.now ≡ message_of self }
    {
        match self {
            Concern::NoAddress => {
                " has no wms_onlineresource, and http://localhost/wms? has no port"
            }
            Concern::EmptyName => " has an empty NAME, so that LAYERS can't ask for it",
            Concern::CommaInName => " has a NAME with a comma, so that LAYERS can't ask for it",
            Concern::ForbiddenInName => " has a NAME with a character that XML forbids",
            Concern::ForbiddenInTitle => " has a title with a character that XML forbids",
            Concern::ForbiddenInAddress => " has an address with a character that XML forbids",
            Concern::BeyondDegrees => {
                " has an EXTENT beyond 180 degrees of longitude or 90 of latitude"
            }
            Concern::UnknownLabelItem => " has a LABELITEM that is none of its items",
            Concern::UnknownClassItem => " has a CLASSITEM that is none of its items",
            Concern::UnknownItem => " has an EXPRESSION on an item that is none of its items",
            Concern::NoFont => " has a LABEL, and the map has no LABELFONT",
            Concern::UnknownFont => " has a FONT that is none of the map's fonts",
            Concern::NoClass => " has features and no CLASS",
            Concern::BareClass => " has a CLASS without STYLE and LABEL",
        }
    }
}

// Adds a warning, where its condition holds.
fn add(out: &mut Vec<Warning>, holds: bool, warning: Warning) -> Result<(), AllocError>
    ensures { OnOk result (out.new.items ≡ out.old.items ++ warned holds warning) }
{
    if holds {
        out.push(warning)?;
    }
    Ok(())
}

// Whether a name has a comma.
fn has_comma(name: &str) -> bool
    ensures { result ≡ list_any is_comma name.now }
{
    name.as_bytes().iter().any(|byte| *byte == b',')
}

// Whether an address is the default one.
#[tactic(auto, unfolding(crate::specs::Warning::is_default_address))]
fn is_default_address(url: &str) -> bool
    ensures { result ≡ is_default_address url.now }
{
    url == "http://localhost/wms?"
}

// Whether a box reaches beyond 180 degrees of longitude or 90 of latitude.
#[tactic(auto, unfolding(crate::specs::Warning::is_beyond_degrees))]
fn is_beyond_degrees(area: WorldBox) -> bool
    ensures { result ≡ is_beyond_degrees area }
{
    area.minx() < Micro::new(-180_000_000)
        || area.maxx() > Micro::new(180_000_000)
        || area.miny() < Micro::new(-90_000_000)
        || area.maxy() > Micro::new(90_000_000)
}

// Adds the warnings on the texts of a layer of a number.
fn add_texts(out: &mut Vec<Warning>, number: usize, fields: &LayerFields) -> Result<(), AllocError>
    ensures { OnOk result (out.new.items ≡ out.old.items ++ text_warnings number fields.now) }
{
    let (name, title) = (fields.name.as_str(), fields.title.as_str());
    let layer = Some(number);
    let concern = Concern::EmptyName;
    add(out, name.is_empty(), Warning { layer, concern })?;
    let concern = Concern::CommaInName;
    add(out, has_comma(name), Warning { layer, concern })?;
    let concern = Concern::ForbiddenInName;
    add(out, has_forbidden(name), Warning { layer, concern })?;
    let concern = Concern::ForbiddenInTitle;
    add(out, has_forbidden(title), Warning { layer, concern })
}

// Whether the expression of some class looks at a missing item.
fn lacks_of_classes(items: &[Text], classes: &[Class]) -> bool
    ensures { result ≡ list_any (λ class. lacks_of_rule items.now class.rule) classes.now }
{
    classes
        .iter()
        .any(|class| lacks_of_rule(items, &class.get().rule))
}

// Adds the warnings on what looks at items that the layer doesn't have.
fn add_items(out: &mut Vec<Warning>, number: usize, fields: &LayerFields) -> Result<(), AllocError>
    ensures { OnOk result (out.new.items ≡ out.old.items ++ item_warnings number fields.now) }
{
    let items = fields.items.as_slice();
    let layer = Some(number);
    let concern = Concern::UnknownLabelItem;
    add(
        out,
        lacks_named(items, &fields.labelitem),
        Warning { layer, concern },
    )?;
    let concern = Concern::UnknownClassItem;
    add(
        out,
        lacks_named(items, &fields.classitem),
        Warning { layer, concern },
    )?;
    let concern = Concern::UnknownItem;
    let lacks = lacks_of_classes(items, fields.classes.as_slice());
    add(out, lacks, Warning { layer, concern })
}

// Whether some class paints and labels nothing.
fn has_bare(classes: &[Class]) -> bool
    ensures { result ≡ list_any is_bare classes.now }
{
    classes.iter().any(|class| is_bare(class.get()))
}

// Whether some class has a label without a font.
fn has_fontless(classes: &[Class]) -> bool
    ensures { result ≡ list_any is_fontless classes.now }
{
    classes.iter().any(|class| is_fontless(class.get()))
}

// Whether some class has a label whose FONT is none of the map's.
fn has_unknown_font(classes: &[Class]) -> bool
    ensures { result ≡ list_any lacks_font classes.now }
{
    classes.iter().any(|class| lacks_font(class.get()))
}

// Adds the warnings on the fonts of labels.
fn add_fonts(out: &mut Vec<Warning>, number: usize, fields: &LayerFields) -> Result<(), AllocError>
    ensures { OnOk result (out.new.items ≡ out.old.items ++ font_warnings number fields.now) }
{
    let layer = Some(number);
    let classes = fields.classes.as_slice();
    let concern = Concern::NoFont;
    add(out, has_fontless(classes), Warning { layer, concern })?;
    let concern = Concern::UnknownFont;
    let unknown = has_unknown_font(classes);
    add(out, unknown, Warning { layer, concern })
}

// Adds the warnings on what is never drawn.
fn add_drawing(
    out: &mut Vec<Warning>,
    number: usize,
    fields: &LayerFields,
) -> Result<(), AllocError>
    ensures { OnOk result (out.new.items ≡ out.old.items ++ drawing_warnings number fields.now) }
{
    let layer = Some(number);
    let concern = Concern::NoClass;
    add(out, is_unclassed(fields), Warning { layer, concern })?;
    let concern = Concern::BareClass;
    let bare = has_bare(fields.classes.as_slice());
    add(out, bare, Warning { layer, concern })
}

// Adds the warnings on a layer of a number.
fn add_layer(out: &mut Vec<Warning>, number: usize, fields: &LayerFields) -> Result<(), AllocError>
    ensures { OnOk result (out.new.items ≡ out.old.items ++ layer_warnings number fields.now) }
{
    add_texts(out, number, fields)?;
    add_items(out, number, fields)?;
    add_fonts(out, number, fields)?;
    add_drawing(out, number, fields)
}

// Adds the warnings on layers, of which the first has the number 1.
fn add_layers(out: &mut Vec<Warning>, layers: &[Layer]) -> Result<(), AllocError>
    ensures { OnOk result (out.new.items ≡ out.old.items ++ layers_warnings 1 layers.now) }
{
    for (index, layer) in layers.iter().enumerate() {
        add_layer(out, index + 1, layer.get())?;
    }
    Ok(())
}

// Adds the warnings on the service.
fn add_service(out: &mut Vec<Warning>, map: &MapFields) -> Result<(), AllocError>
    ensures { OnOk result (out.new.items ≡ out.old.items ++ service_warnings map.now) }
{
    let (title, url) = (map.title.as_str(), map.url.as_str());
    let layer = None;
    let concern = Concern::NoAddress;
    add(out, is_default_address(url), Warning { layer, concern })?;
    let concern = Concern::ForbiddenInTitle;
    add(out, has_forbidden(title), Warning { layer, concern })?;
    let concern = Concern::ForbiddenInAddress;
    add(out, has_forbidden(url), Warning { layer, concern })?;
    let concern = Concern::BeyondDegrees;
    let beyond = is_beyond_degrees(map.extent);
    add(out, beyond, Warning { layer, concern })
}

/// The warnings on the service and the layers of a map, those on the service first, and then those on its layers in their
/// order. The error is that memory was refused.
pub fn warnings(alloc: Global, map: &Map) -> Result<Vec<Warning>, AllocError>
    ensures { IfOk result (λ found. found.items ≡ warnings map.now) }
{
    let map = map.get();
    let mut out = Vec::new(alloc);
    add_service(&mut out, map)?;
    add_layers(&mut out, map.layers.as_slice())?;
    Ok(out)
}
