ghost use Rattle.std.specs.Prelude.{◌≡◌, ◌+◌, ◌≤◌, List, map, zip, length, option_map, unwrap_or, Ok, IfOk, IfErr};
ghost use Rattle.mapwords.specs.Fault.{IsFaultOf};
ghost use Rattle.geom.specs.World.{IsExtent};
ghost use Rattle.mapdefs.specs.declared.limits.TheConstants.{MAX_CLASSES, MAX_OUTLINE_WIDTH, MAX_SYMBOLS};
ghost use Rattle.mapdefs.specs.ClassLimits.{IsRuleWithinLimits};
ghost use Rattle.mapdefs.specs.declared.class.Rule.TheVariants.{Always};
ghost use Rattle.mapparse.specs.Mapping.{painted, label_of, class_of, layer_of, whole_world, map_with, made_of, map_of};
ghost use Rattle.mapparse.specs.declared.named_parts.NamedParts.{NamedParts as NamedPartsValue};
ghost use Rattle.mapparse.specs.Fonts.{font_keys, fonts_of};
ghost use Rattle.maptree.specs.Outline.{outline_width_of};
ghost use Rattle.mapparse.specs.Symbols.{symbols_of};
ghost use Rattle.mapparse.specs.Tables.{tables_of, HasRoom, HaveRoom};

use crate::features::with_items;
use crate::files::Files;
use crate::font::fonts_of;
use crate::font_key::{font_index, font_keys, is_unknown};
use crate::named_parts::NamedParts;
use crate::settings::{count_or, empty_layer, service_title, service_url, text_or};
use crate::symbol::{symbol_index, symbols_of};
use crate::table::tables_of;
use crate::uses::files_fault;
use csvpoints::Table;
use geom::{Micro, WorldBox};
use mapdefs::{
    Class, ClassFields, Font, Items, Label, LabelFields, Layer, LayerFields, MAX_CLASSES, Map,
    MapFields, Position, Rgb, Rule, SharedItems, Style, StyleFields, Symbol,
};
use maptree::{
    Capped, ClassRule, ClassTree, Extent, LayerBody, LayerTree, MapTree, Named, ParseFault,
    UsedFile, factor_in, outline_width_of, symbol_of,
};
use mapvalues::Values;
use mapwords::{ColourKeyword, CountKeyword, FlagKeyword, ScaleKeyword, TextKeyword};
use std::alloc::{AllocError, Global};

// A tree of a block, from which a part of the map is made.
trait Build: Drop + Sized {
    // The part of the map.
    type Part: Drop;

    // The part that the tree describes, in a map with these parts that it may name.
    ghost part: { NamedPartsValue → Self → Self.Part };

    // Makes the part.
    fn build(self, named: &NamedParts, alloc: Global) -> Result<Self::Part, AllocError>
        ensures { IfOk result (λ made. made ≡ part named.now self) };
}

// Makes the part of each tree, in their order.
fn build_all<T: Build>(
    trees: Vec<T>,
    named: &NamedParts,
    alloc: Global,
) -> Result<Items<T::Part>, AllocError>
    ensures { IfOk result (λ made. made ≡ map (T.part named.now) trees.items) }
{
    let mut parts = Vec::with_capacity(alloc, trees.len())?;
    for tree in trees {
        parts.push(tree.build(named, alloc)?)?;
    }
    Ok(Items::of(parts))
}

// The colour that is painted: that of a keyword, if it has one that isn't none.
fn painted(values: &Values, keyword: ColourKeyword) -> Option<Rgb>
    ensures { result ≡ painted keyword values.now }
{
    values.colour(keyword)?
}

impl Build for Values {
    type Part = Style;

    ghost use Rattle.mapparse.specs.Mapping.{style_of};

    ghost part = { style_of };

    fn build(self, named: &NamedParts, _alloc: Global) -> Result<Style, AllocError> {
        Ok(Style::new(StyleFields {
            colour: painted(&self, ColourKeyword::Color),
            outline: painted(&self, ColourKeyword::OutlineColor),
            width: count_or(&self, CountKeyword::Width, 1) as u8,
            size: count_or(&self, CountKeyword::Size, 1),
            symbol: symbol_index(symbol_of(&self), named.symbols.as_slice()),
        }))
    }
}

// The rule of a class.
fn rule_of(rule: Option<ClassRule>) -> Rule
    ensures value { result ≡ unwrap_or rule Always }
    ensures limits { ∥ IsRuleWithinLimits result ∥₁ }
{
    match rule {
        Some(rule) => rule.get(),
        None => Rule::Always,
    }
}

// The width of a label's outline, by default one pixel.
fn outline_width(label: &Values) -> u8
    ensures value { result ≡ unwrap_or (outline_width_of label.now) 1 }
    ensures some { 1 ≤ result }
    ensures most { result ≤ MAX_OUTLINE_WIDTH }
{
    outline_width_of(label).unwrap_or(1) as u8
}

// The label of a class.
fn label_of(values: Values, named: &NamedParts) -> Label
    ensures { result ≡ label_of named.now values }
{
    let fonts = named.fonts.as_slice();
    let black = Rgb {
        red: 0,
        green: 0,
        blue: 0,
    };
    let colour = values.colour(ColourKeyword::Color);
    let position = values.position();
    let partials = values.flag(FlagKeyword::Partials);
    let force = values.flag(FlagKeyword::Force);
    Label::new(LabelFields {
        colour: colour.unwrap_or(Some(black)),
        outline: painted(&values, ColourKeyword::OutlineColor),
        outline_width: outline_width(&values),
        font: font_index(values.plain_text(TextKeyword::Font), fonts),
        lacks_font: is_unknown(values.plain_text(TextKeyword::Font), fonts),
        priority: count_or(&values, CountKeyword::Priority, 1) as u8,
        position: position.unwrap_or(Position::Centre),
        buffer: count_or(&values, CountKeyword::Buffer, 0) as u8,
        mindistance: count_or(&values, CountKeyword::MinDistance, 0),
        partials: partials.unwrap_or(false),
        force: force.unwrap_or(false),
    })
}

impl Build for ClassTree {
    type Part = Class;

    ghost use Rattle.mapparse.specs.Mapping.{class_of};

    ghost part = { class_of };

    fn build(self, named: &NamedParts, alloc: Global) -> Result<Class, AllocError> {
        let ClassTree {
            values,
            styles,
            label,
        } = self;
        let min = values.scale(ScaleKeyword::Min);
        let max = values.scale(ScaleKeyword::Max);
        Ok(Class::new(ClassFields {
            rule: rule_of(values.into_rule()),
            min,
            max,
            styles: build_all(styles.into_vec(), named, alloc)?,
            label: label.map(|values| label_of(values, named)),
        }))
    }
}

// The classes of a layer.
fn classes_of(
    classes: Capped<ClassTree, MAX_CLASSES>,
    named: &NamedParts,
    alloc: Global,
) -> Result<SharedItems<Class>, AllocError>
    ensures value { IfOk result (λ made. made ≡ map (class_of named.now) classes) }
    ensures limit { IfOk result (λ made. length made ≤ MAX_CLASSES) }
{
    let classes = build_all(classes.into_vec(), named, alloc)?;
    SharedItems::new(alloc, classes)
}

// The layer of a tree, with its table, if it has one.
fn layer_of(
    tree: LayerTree,
    table: Option<Table>,
    named: &NamedParts,
    alloc: Global,
) -> Result<Layer, AllocError>
    requires { HasRoom tree table }
    ensures { IfOk result (λ made. made ≡ layer_of named.now (tree, table)) }
{
    let LayerTree {
        name: Named { text: name, .. },
        geometry,
        body,
        ..
    } = tree;
    let LayerBody {
        values,
        classes,
        features,
    } = body;
    let layer = empty_layer(&values, name, geometry, alloc)?;
    let classes = classes_of(classes, named, alloc)?;
    let (items, features) = with_items(values.into_items(), features, table, alloc)?;
    Ok(Layer::new(LayerFields {
        items,
        classes,
        features,
        ..layer
    }))
}

// The layers of a map, each with its table, if it has one.
fn layers_of(
    trees: Vec<LayerTree>,
    tables: Vec<Option<Table>>,
    named: &NamedParts,
    alloc: Global,
) -> Result<Items<Layer>, AllocError>
    requires { HaveRoom trees.items tables.items }
    ensures { IfOk result (λ made. made ≡ map (layer_of named.now) (zip trees.items tables.items)) }
{
    let mut layers = Vec::with_capacity(alloc, trees.len())?;
    let mut tables = tables.into_iter();
    for tree in trees {
        let table = match tables.next() {
            Some(table) => table,
            None => None,
        };
        layers.push(layer_of(tree, table, named, alloc)?)?;
    }
    Ok(Items::of(layers))
}

// The whole world: 180 degrees to the west and east, and 90 to the south and north.
fn whole_world() -> WorldBox
    ensures value { result ≡ whole_world }
    ensures limits { IsExtent result }
{
    WorldBox::new(
        Micro::new(-180_000_000),
        Micro::new(-90_000_000),
        Micro::new(180_000_000),
        Micro::new(90_000_000),
    )
}

// The part of the world that a map shows.
fn area_of(extent: Option<&Extent>) -> WorldBox
    ensures value { result ≡ unwrap_or (option_map (λ x. x.now) extent.entry) whole_world }
    ensures limits { IsExtent result }
{
    match extent {
        Some(extent) => extent.get(),
        None => whole_world(),
    }
}

// What the files of a mapfile are read as: the pixmaps of its symbols, the tables of its layers, and its fonts.
#[derive(Drop)]
struct FileParts {
    symbols: SharedItems<Symbol>,
    tables: Items<Option<Table>>,
    fonts: SharedItems<Font>,
}

// What the blocks of a map with these symbols may name, where it uses these files.
fn named_parts(
    symbols: SharedItems<Symbol>,
    files: Items<UsedFile>,
    alloc: Global,
) -> Result<NamedParts, AllocError>
    ensures { IfOk result (λ named. named ≡ record { symbols = symbols; fonts = font_keys files }) }
{
    Ok(NamedParts {
        symbols,
        fonts: font_keys(files.into_vec(), alloc)?,
    })
}

// The map of a tree with what its files are read as. It takes the vertices over as they are.
fn map_with(tree: MapTree, parts: FileParts, alloc: Global) -> Result<Map, AllocError>
    requires symbols { length parts.symbols ≤ MAX_SYMBOLS }
    requires room { HaveRoom tree.layers parts.tables }
    ensures { IfOk result (λ made. made ≡ map_with parts.symbols parts.tables parts.fonts tree) }
{
    let FileParts {
        symbols,
        tables,
        fonts,
    } = parts;
    let MapTree {
        values,
        layers,
        files,
        ..
    } = tree;
    let title = text_or(service_title(&values), "WMS", alloc)?;
    let url = text_or(service_url(&values), "http://localhost/wms?", alloc)?;
    let named = named_parts(symbols, files, alloc)?;
    let layers = layers_of(layers.into_vec(), tables.into_vec(), &named, alloc)?;
    let NamedParts { symbols, .. } = named;
    Ok(Map::new(MapFields {
        title,
        url,
        extent: area_of(values.extent()),
        png: values.flag(FlagKeyword::Png).unwrap_or(false),
        mercator: values.flag(FlagKeyword::Mercator).unwrap_or(false),
        smoothing: factor_in(&values),
        fonts,
        symbols,
        layers,
    }))
}

// Reads the files of a mapfile.
fn read_files(tree: &MapTree, files: &Files, alloc: Global) -> Result<FileParts, ParseFault>
    ensures symbols { IfOk result (λ made. symbols_of files.now tree.now.symbols ≡ Ok made.symbols) }
    ensures tables { IfOk result (λ made. tables_of files.now tree.now.layers ≡ Ok made.tables) }
    ensures fonts { IfOk result (λ made. fonts_of files.now tree.now ≡ Ok made.fonts) }
    ensures limit { IfOk result (λ made. length made.symbols ≤ MAX_SYMBOLS) }
    ensures room { IfOk result (λ made. HaveRoom tree.now.layers made.tables) }
    ensures fault { IfErr result (IsFaultOf (made_of files.now tree.now)) }
{
    Ok(FileParts {
        symbols: symbols_of(tree.symbols.as_slice(), files, alloc)?,
        tables: tables_of(tree.layers.as_slice(), files, alloc)?,
        fonts: fonts_of(tree, files, alloc)?,
    })
}

// The fault that is reported where a file has one: that of the first used of those that do.
fn reported_fault(tree: &MapTree, files: &Files, fault: ParseFault, alloc: Global) -> ParseFault
    requires { IsFaultOf (made_of files.now tree.now) fault }
    ensures { IsFaultOf (map_of files.now tree.now) result }
{
    if let ParseFault::NoMemory = fault {
        return ParseFault::NoMemory;
    }
    match files_fault(tree, files, alloc) {
        Ok(Some(first)) => first.fault().into(),
        Ok(None) => fault,
        Err(_) => ParseFault::NoMemory,
    }
}

/// The map that a mapfile describes, with the files that it uses.
pub fn map_of(tree: MapTree, files: &Files, alloc: Global) -> Result<Map, ParseFault>
    ensures map { IfOk result (λ made. map_of files.now tree ≡ Ok made) }
    ensures fault { IfErr result (IsFaultOf (map_of files.now tree)) }
{
    match read_files(&tree, files, alloc) {
        Ok(parts) => Ok(map_with(tree, parts, alloc)?),
        Err(fault) => Err(reported_fault(&tree, files, fault, alloc)),
    }
}
