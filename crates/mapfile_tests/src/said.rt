use crate::results::fault_text;
use geom::Micro;
use mapdefs::{Class, Feature, Label, Layer, MAX_ITEMS, Map, Rgb, Rule, Style, Text, Values};
use mapparse::{Files, parse};
use std::alloc::{AllocError, Global};

fn write_colour(text: &mut String, colour: Option<Rgb>) -> Result<(), AllocError> {
    match colour {
        Some(Rgb { red, green, blue }) => write!(text, " {red} {green} {blue},"),
        None => text.push_str(" none,"),
    }
}

fn write_style(text: &mut String, style: &Style) -> Result<(), AllocError> {
    let style = style.get();
    text.push_str("style")?;
    write_colour(text, style.colour)?;
    write_colour(text, style.outline)?;
    let (width, size, symbol) = (style.width, style.size, style.symbol);
    write!(text, " {width} {size} {symbol:?}\n")
}

fn write_texts(text: &mut String, texts: &[Text]) -> Result<(), AllocError> {
    for one in texts {
        write!(text, " [{}]", one.as_str())?;
    }
    Ok(())
}

fn write_values(text: &mut String, values: &Values) -> Result<(), AllocError> {
    for index in 0..MAX_ITEMS {
        let Some(value) = values.get(index) else {
            return Ok(());
        };
        write!(text, " [{value}]")?;
    }
    Ok(())
}

fn write_rule(text: &mut String, rule: &Rule) -> Result<(), AllocError> {
    match rule {
        Rule::Always => text.push_str("class all"),
        Rule::Equals(value) => write!(text, "class is {}", value.as_str()),
        Rule::OneOf(values) => {
            text.push_str("class in")?;
            write_texts(text, values.as_slice())
        }
        Rule::Logic(expr) => write!(text, "class {expr:?}"),
    }
}

// Bounds on the scale in millionths.
fn write_bounds(
    text: &mut String,
    min: Option<Micro>,
    max: Option<Micro>,
) -> Result<(), AllocError> {
    for bound in [min, max] {
        match bound {
            Some(bound) => write!(text, " {}", bound.millionths())?,
            None => text.push_str(" -")?,
        }
    }
    text.push('\n')
}

fn write_label(text: &mut String, label: &Label) -> Result<(), AllocError> {
    let label = label.get();
    let (colour, outline, position) = (label.colour, label.outline, label.position);
    let (priority, buffer, distance) = (label.priority, label.buffer, label.mindistance);
    write!(
        text,
        "label {colour:?} {outline:?} {priority} {position:?} {buffer} {distance}"
    )?;
    if label.outline_width > 1 {
        write!(text, " outline {}", label.outline_width)?;
    }
    write!(text, " {} {}\n", label.partials, label.force)
}

fn write_class(text: &mut String, class: &Class) -> Result<(), AllocError> {
    let class = class.get();
    write_rule(text, &class.rule)?;
    write_bounds(text, class.min, class.max)?;
    if let Some(label) = &class.label {
        write_label(text, label)?;
    }
    for style in class.styles.as_slice() {
        write_style(text, style)?;
    }
    Ok(())
}

// A part is its vertices in millionths of a degree.
fn write_feature(text: &mut String, feature: &Feature) -> Result<(), AllocError> {
    let feature = feature.get();
    let own = match &feature.text {
        Some(own) => own.get().as_str(),
        None => "-",
    };
    write!(text, "feature {own}")?;
    write_values(text, &feature.values)?;
    text.push('\n')?;
    for part in feature.parts.as_slice() {
        text.push_str("part")?;
        for vertex in part.as_slice() {
            let (x, y) = (vertex.x().get().millionths(), vertex.y().get().millionths());
            write!(text, " {x} {y},")?;
        }
        text.push('\n')?;
    }
    Ok(())
}

fn text_or_dash(text: &Option<Text>) -> &str {
    match text {
        Some(text) => text.as_str(),
        None => "-",
    }
}

fn write_layer(text: &mut String, layer: &Layer) -> Result<(), AllocError> {
    let layer = layer.get();
    let (name, title, kind, on) = (
        layer.name.as_str(),
        layer.title.as_str(),
        layer.kind,
        layer.on,
    );
    write!(text, "layer {name} {title} {kind:?} {on}")?;
    write!(
        text,
        " {} {}",
        text_or_dash(&layer.classitem),
        text_or_dash(&layer.labelitem)
    )?;
    write_texts(text, layer.items.as_slice())?;
    let (x, y, queryable) = (layer.csv_x.as_str(), layer.csv_y.as_str(), layer.queryable);
    write!(text, " {x} {y} {queryable} {}", layer.tolerance)?;
    write_bounds(text, layer.min, layer.max)?;
    for class in layer.classes.as_slice() {
        write_class(text, class)?;
    }
    for feature in layer.features.as_slice() {
        write_feature(text, feature)?;
    }
    Ok(())
}

// All that a map says, a line for the map and for each layer, class, style, feature and part.
fn said_of(alloc: Global, map: &Map) -> Result<String, AllocError> {
    let map = map.get();
    let sides = [
        map.extent.minx(),
        map.extent.miny(),
        map.extent.maxx(),
        map.extent.maxy(),
    ];
    let mut text = format!(in alloc; "map {} {}", map.title.as_str(), map.url.as_str())?;
    for side in sides {
        write!(text, " {}", side.millionths())?;
    }
    let font = if map.fonts.len() == 0 {
        "None"
    } else {
        "a font"
    };
    write!(text, " {font} {}\n", map.symbols.len())?;
    for layer in map.layers.as_slice() {
        write_layer(&mut text, layer)?;
    }
    Ok(text)
}

/// What the map of a source says, in the form of `said_of`, or the line and the kind of its fault.
pub fn said(alloc: Global, source: &str) -> Result<String, AllocError> {
    match parse(alloc, source.as_bytes(), &Files::new(alloc)) {
        Ok(map) => said_of(alloc, &map),
        Err(fault) => fault_text(alloc, fault),
    }
}
