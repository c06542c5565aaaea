use mapdefs::{Items, Layer, Map, Text};
use mapparse::{Files, ParseFault, parse, wanted};
use std::alloc::{AllocError, Global};

// How many of each a map has in all.
#[derive(Drop)]
struct Totals {
    classes: usize,
    styles: usize,
    features: usize,
    vertices: usize,
}

fn add_layer(sums: &mut Totals, layer: &Layer) {
    let layer = layer.get();
    sums.classes = sums.classes.saturating_add(layer.classes.len());
    sums.features = sums.features.saturating_add(layer.features.len());
    for class in layer.classes.as_slice() {
        sums.styles = sums.styles.saturating_add(class.get().styles.len());
    }
    for feature in layer.features.as_slice() {
        for part in feature.get().parts.as_slice() {
            sums.vertices = sums.vertices.saturating_add(part.len());
        }
    }
}

// How many layers, classes, styles, features and vertices a map has.
fn totals_of(alloc: Global, map: &Map) -> Result<String, AllocError> {
    let layers = map.get().layers.as_slice();
    let mut sums = Totals {
        classes: 0,
        styles: 0,
        features: 0,
        vertices: 0,
    };
    for layer in layers {
        add_layer(&mut sums, layer);
    }
    format!(in alloc;
        "{} {} {} {} {}",
        layers.len(),
        sums.classes,
        sums.styles,
        sums.features,
        sums.vertices
    )
}

/// Adds a file of that name with a copy of the bytes.
pub fn add_file(
    files: &mut Files,
    alloc: Global,
    name: &str,
    bytes: &[u8],
) -> Result<(), AllocError> {
    let mut copy = Vec::new(alloc);
    copy.extend_from_slice(bytes)?;
    files.add(Text::from_str(alloc, name)?, Items::of(copy))
}

/// The line and the kind of a fault.
pub fn fault_text(alloc: Global, fault: ParseFault) -> Result<String, AllocError> {
    match fault {
        ParseFault::At { line, kind } => format!(in alloc; "{line} {kind:?}"),
        ParseFault::NoMemory => Err(AllocError),
    }
}

/// The names of the files that a source uses, each with a comma after it, or its fault.
pub fn used_files(alloc: Global, source: &str) -> Result<String, AllocError> {
    let names = match wanted(alloc, source.as_bytes()) {
        Ok(names) => names,
        Err(fault) => return fault_text(alloc, fault),
    };
    let mut text = String::new(alloc);
    for name in names.as_slice() {
        write!(text, "{},", name.as_str())?;
    }
    Ok(text)
}

/// What was made of a source, a colon, and the files that the source uses.
pub fn with_used_files(alloc: Global, made: &str, source: &str) -> Result<String, AllocError> {
    let used = used_files(alloc, source)?;
    format!(in alloc; "{made}:{used}")
}

/// The line and the kind of a source's fault, or how many of each its map has.
pub fn result_of(alloc: Global, source: &str) -> Result<String, AllocError> {
    match parse(alloc, source.as_bytes(), &Files::new(alloc)) {
        Ok(map) => totals_of(alloc, &map),
        Err(fault) => fault_text(alloc, fault),
    }
}

// The text before the first `{`, the count and the text of a repetition, and the text after it.
fn repetition(text: &str) -> Option<(&str, usize, &str, &str)> {
    let (head, rest) = text.split_once('{')?;
    let (count, rest) = rest.split_once('*')?;
    let (part, tail) = rest.split_once('}')?;
    Some((head, count.parse::<usize>().ok()?, part, tail))
}

/// The text, in which `{3*ab}` stands for `ababab`, at most once.
pub fn repeated(alloc: Global, text: &str) -> Result<String, AllocError> {
    match repetition(text) {
        Some((head, count, part, tail)) => {
            let parts = part.repeat(alloc, count)?;
            format!(in alloc; "{head}{parts}{tail}")
        }
        None => String::from_str(alloc, text),
    }
}

/// The source of a row, in which `|` stands for the end of a line and `{3*ab}` for `ababab`.
pub fn written(alloc: Global, row: &str) -> Result<String, AllocError> {
    let lines = row.replace(alloc, '|', "\n")?;
    repeated(alloc, lines.as_str())
}

/// The result for the source of a row.
pub fn result_of_row(alloc: Global, row: &str) -> Result<String, AllocError> {
    let source = written(alloc, row)?;
    result_of(alloc, source.as_str())
}
