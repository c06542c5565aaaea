ghost use Rattle.std.specs.Prelude.{◌≡◌, ◌<◌, false, length, option_map, Ok, IfOk, OnOk, MatchResult};
ghost use Rattle.mapdefs.specs.declared.limits.TheConstants.{MAX_SYMBOLS, MAX_LAYERS, MAX_CLASSES, MAX_STYLES, MAX_FEATURES};
ghost use Rattle.maptree.specs.Data.{table_fault};
ghost use Rattle.maptree.specs.Draft.{is_full};
ghost use Rattle.maptree.specs.End.{finished_layer, layer_end, symbol_end, map_end, class_end, style_end, label_end, feature_end, points_end, ends};
ghost use Rattle.mapwords.specs.Fault.{IsErrorOf};
ghost use Rattle.mapwords.specs.declared.table.TextKeyword.TheVariants.{Name};
ghost use Rattle.maptree.specs.Name.{is_taken};
ghost use Rattle.mapvalues.specs.Values.{geometry_in, last, text_in};

use crate::draft::{Drafts, FeatureDraft};
use crate::files::add_file;
use crate::outline::map_fault;
use crate::smoothing::discs_fault;
use crate::symbol::{finished_symbol, missing_of_symbol, symbols_fault};
use crate::tree::{ClassTree, FeatureTree, LayerBody, LayerTree};
use mapdefs::{Duplicate, Geometry};
use maplex::Token;
use mapvalues::Values;
use mapwords::{Block, Fault, Named, ParseFault, ParseKind, TextKeyword, fault_of};
use std::alloc::{AllocError, Global};
use std::mem;

// Whether one of the layers has the name.
fn is_taken(name: &str, layers: &[LayerTree]) -> bool
    ensures { result ≡ is_taken name.now layers.now }
{
    layers.iter().any(|layer| layer.name.text.as_str() == name)
}

// The fault of a table in a layer of a geometry that has none.
fn table_fault(geometry: Geometry, table: Option<&Named>) -> Option<Fault>
    ensures { result ≡ table_fault geometry (option_map (λ x. x.now) table.entry) }
{
    match (geometry, table) {
        (Geometry::Line | Geometry::Polygon, Some(table)) => Some(Fault {
            line: table.line,
            kind: ParseKind::WrongValue,
        }),
        _ => None,
    }
}

// A copy of a text, if there is one.
fn copied(named: Option<&Named>, alloc: Global) -> Result<Option<Named>, AllocError>
    ensures { IfOk result (λ made. made ≡ option_map (λ x. x.now) named.entry) }
{
    match named {
        Some(named) => Ok(Some(named.duplicate(alloc)?)),
        None => Ok(None),
    }
}

// The layer with what it says at its END, after the earlier layers.
fn finished_layer(
    body: LayerBody,
    earlier: &[LayerTree],
    end: &Token,
    alloc: Global,
) -> Result<LayerTree, ParseFault>
    ensures { let said = finished_layer (last (text_in Name) body.values) (last geometry_in body.values) body earlier.now end.now in
        MatchResult result (λ layer. said ≡ Ok layer) (IsErrorOf said) }
{
    let name = body.values.text(TextKeyword::Name);
    let (Some(name), Some(geometry)) = (name, body.values.geometry()) else {
        return Err(fault_of(ParseKind::MissingValue, end).into());
    };
    if is_taken(name.text.as_str(), earlier) {
        let kind = ParseKind::DuplicateName;
        let line = name.line;
        return Err(Fault { line, kind }.into());
    }
    let table = body.values.text(TextKeyword::Data);
    if let Some(fault) = table_fault(geometry, table) {
        return Err(fault.into());
    }
    let (name, table) = (name.duplicate(alloc)?, copied(table, alloc)?);
    Ok(LayerTree {
        name,
        geometry,
        table,
        body,
    })
}

impl Drafts {
    // Ends a LAYER: the map gets it, and uses the file of its table.
    fn end_layer(&mut self, end: &Token, alloc: Global) -> Result<(), ParseFault>
        requires { length self.old.map.layers < MAX_LAYERS }
        ensures { MatchResult result
            (λ _. layer_end self.old end.now ≡ Ok self.new)
            (IsErrorOf (layer_end self.old end.now)) }
    {
        let body = mem::replace(&mut self.layer, LayerBody::new(alloc));
        let layer = finished_layer(body, self.map.layers.as_slice(), end, alloc)?;
        add_file(&mut self.map.files, &layer.table, alloc)?;
        self.map.layers.push(layer)?;
        Ok(())
    }

    // Ends a SYMBOL: the map gets it, and uses the file of its image, if it has one.
    fn end_symbol(&mut self, end: &Token, alloc: Global) -> Result<(), ParseFault>
        requires { length self.old.map.symbols < MAX_SYMBOLS }
        ensures { MatchResult result
            (λ _. symbol_end self.old end.now ≡ Ok self.new)
            (IsErrorOf (symbol_end self.old end.now)) }
    {
        let values = mem::replace(&mut self.symbol, Values::new(alloc));
        let symbol = finished_symbol(&values, end, alloc)?;
        add_file(&mut self.map.files, &symbol.image, alloc)?;
        self.map.symbols.push(symbol)?;
        Ok(())
    }

    // Ends MAP: each symbol that a style names has to be there, and in a smoothed map the outlines of labels have widths.
    fn end_map(&self) -> Result<(), Fault>
        ensures { MatchResult result
            (λ _. map_end self.now ≡ Ok self.now)
            (λ fault. map_end self.now ≡ Err fault) }
    {
        match map_fault(&self.map) {
            None => Ok(()),
            Some(fault) => Err(fault),
        }
    }

    // Whether a style names a symbol that the map doesn't have.
    fn lacks_symbol(&self) -> bool {
        symbols_fault(self.map.symbols.as_slice(), self.map.layers.as_slice()).is_some()
    }

    // Whether the map has discs, but isn't smoothed.
    fn lacks_smoothing(&self) -> bool {
        discs_fault(&self.map.values, self.map.symbols.as_slice()).is_some()
    }

    // Ends a CLASS: the layer gets it.
    fn end_class(&mut self, alloc: Global) -> Result<(), AllocError>
        requires { length self.old.layer.classes < MAX_CLASSES }
        ensures { OnOk result (self.new ≡ class_end self.old) }
    {
        let class = mem::replace(&mut self.class, ClassTree::new(alloc));
        self.layer.classes.push(class)
    }

    // Ends a STYLE: the class gets it.
    fn end_style(&mut self, alloc: Global) -> Result<(), AllocError>
        requires { length self.old.class.styles < MAX_STYLES }
        ensures { OnOk result (self.new ≡ style_end self.old) }
    {
        let style = mem::replace(&mut self.style, Values::new(alloc));
        self.class.styles.push(style)
    }

    // Ends a LABEL: the class gets it.
    fn end_label(&mut self, alloc: Global)
        ensures { self.new ≡ label_end self.old }
    {
        let label = mem::replace(&mut self.label, Values::new(alloc));
        self.class.label = Some(label);
    }

    // Ends a FEATURE: the layer gets it.
    fn end_feature(&mut self, end: &Token, alloc: Global) -> Result<(), ParseFault>
        requires { length self.old.layer.features < MAX_FEATURES }
        ensures { MatchResult result
            (λ _. feature_end self.old end.now ≡ Ok self.new)
            (IsErrorOf (feature_end self.old end.now)) }
    {
        if self.feature.parts.is_empty() {
            return Err(fault_of(ParseKind::MissingValue, end).into());
        }
        let feature = mem::replace(&mut self.feature, FeatureDraft::new(alloc));
        let FeatureDraft { parts, text, items } = feature;
        self.layer.features.push(FeatureTree {
            parts: parts.into_parts(),
            text,
            items,
        })?;
        Ok(())
    }

    // Ends POINTS: the feature gets them as a part.
    fn end_points(&mut self, end: &Token, alloc: Global) -> Result<(), ParseFault>
        ensures { MatchResult result
            (λ _. points_end self.old end.now ≡ Ok self.new)
            (IsErrorOf (points_end self.old end.now)) }
    {
        if self.feature.parts.is_next_empty() {
            return Err(fault_of(ParseKind::MissingValue, end).into());
        }
        self.feature.parts.finish_part(alloc)?;
        Ok(())
    }

    /// Ends a block: its parent gets it, and the next block of the kind begins anew.
    pub fn close(&mut self, block: Block, end: &Token, alloc: Global) -> Result<(), ParseFault>
        requires { is_full block self.old ≡ false }
        ensures { MatchResult result
            (λ _. ends block self.old end.now ≡ Ok self.new)
            (IsErrorOf (ends block self.old end.now)) }
    {
        match block {
            Block::Map => self.end_map()?,
            Block::Symbol => self.end_symbol(end, alloc)?,
            Block::Layer => self.end_layer(end, alloc)?,
            Block::Class => self.end_class(alloc)?,
            Block::Style => self.end_style(alloc)?,
            Block::Label => self.end_label(alloc),
            Block::Feature => self.end_feature(end, alloc)?,
            Block::Points => self.end_points(end, alloc)?,
            // There is nothing to check, and nothing to keep.
            Block::Web
            | Block::WebMetadata
            | Block::LayerMetadata
            | Block::Validation
            | Block::Projection
            | Block::Skipped
            | Block::SkippedLabel => {}
        }
        Ok(())
    }

    /// The first part that the open block lacks of those that its END requires, as its keyword or in a word, for MAP a SYMBOL
    /// that a style names, or a WMS_SMOOTHING above 1 for its discs. It is `None` where it lacks nothing.
    pub fn missing_part(&self, block: Block) -> Option<&'static str> {
        let layer = &self.layer.values;
        match block {
            Block::Map if self.lacks_symbol() => Some("SYMBOL"),
            Block::Map if self.lacks_smoothing() => Some("WMS_SMOOTHING"),
            Block::Symbol => missing_of_symbol(&self.symbol),
            Block::Layer if layer.text(TextKeyword::Name).is_none() => Some("NAME"),
            Block::Layer if layer.geometry().is_none() => Some("TYPE"),
            Block::Feature if self.feature.parts.is_empty() => Some("POINTS"),
            Block::Points if self.feature.parts.is_next_empty() => Some("vertex"),
            _ => None,
        }
    }
}
