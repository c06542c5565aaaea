ghost use Rattle.std.specs.Prelude.{◌≡◌, length, option_map, Ok, IfOk, IfErr};
ghost use Rattle.mapwords.specs.Fault.{IsFaultOf};
ghost use Rattle.mapparse.specs.Symbols.{last_named, symbol_index, pixmap_in, shape_in, symbols_of};

use crate::files::Files;
use mapdefs::{Duplicate, Items, Pixmap, SharedItems, Symbol, SymbolShape};
use maptree::{Named, ParseFault, ParseKind, SymbolTree};
use std::alloc::Global;
use symbols::{PixFault, read};

// The index of the last symbol of a name.
fn last_named(name: &str, symbols: &[Symbol]) -> Option<usize>
    ensures { result ≡ last_named name.now symbols.now }
{
    let mut found = None;
    for index in 0..symbols.len() {
        if symbols[index].name.as_str() == name {
            found = Some(index);
        }
    }
    found
}

/// The index of the symbol that a style names.
pub fn symbol_index(named: Option<&Named>, symbols: &[Symbol]) -> Option<usize>
    ensures { result ≡ symbol_index symbols.now (option_map (λ x. x.now) named.entry) }
{
    match named {
        Some(named) => last_named(named.text.as_str(), symbols),
        None => None,
    }
}

// The pixmap of a symbol's image.
fn pixmap_in(files: &Files, image: &Named, alloc: Global) -> Result<Pixmap, ParseFault>
    ensures pixmap { IfOk result (λ pixmap. pixmap_in files.now image.now ≡ Ok pixmap) }
    ensures fault { IfErr result (IsFaultOf (pixmap_in files.now image.now)) }
{
    let line = image.line;
    let Some(bytes) = files.bytes(image.text.as_str()) else {
        return Err(ParseFault::At {
            line,
            kind: ParseKind::MissingFile,
        });
    };
    match read(alloc, bytes) {
        Ok(pixmap) => Ok(pixmap),
        Err(PixFault::NoMemory) => Err(ParseFault::NoMemory),
        Err(_) => Err(ParseFault::At {
            line,
            kind: ParseKind::BadFile,
        }),
    }
}

// What the symbol of a tree draws.
fn shape_in(tree: &SymbolTree, files: &Files, alloc: Global) -> Result<SymbolShape, ParseFault>
    ensures shape { IfOk result (λ shape. shape_in files.now tree.now ≡ Ok shape) }
    ensures fault { IfErr result (IsFaultOf (shape_in files.now tree.now)) }
{
    match &tree.image {
        Some(image) => Ok(SymbolShape::Pixmap(pixmap_in(files, image, alloc)?)),
        None => Ok(SymbolShape::Disc),
    }
}

// The symbol of a tree.
fn symbol_of(tree: &SymbolTree, files: &Files, alloc: Global) -> Result<Symbol, ParseFault>
    ensures symbol { IfOk result (λ made. (shape_in files.now tree.now ≡ Ok made.shape) × (made.name ≡ tree.now.name.text)) }
    ensures fault { IfErr result (IsFaultOf (shape_in files.now tree.now)) }
{
    let shape = shape_in(tree, files, alloc)?;
    Ok(Symbol {
        name: tree.name.text.duplicate(alloc)?,
        shape,
    })
}

/// The symbols of a map, each with what it draws.
pub fn symbols_of(
    trees: &[SymbolTree],
    files: &Files,
    alloc: Global,
) -> Result<SharedItems<Symbol>, ParseFault>
    ensures symbols { IfOk result (λ made. symbols_of files.now trees.now ≡ Ok made) }
    ensures count { IfOk result (λ made. length made ≡ length trees.now) }
    ensures fault { IfErr result (IsFaultOf (symbols_of files.now trees.now)) }
{
    let mut symbols = Items::new(alloc);
    for tree in trees {
        symbols.push(symbol_of(tree, files, alloc)?)?;
    }
    Ok(SharedItems::new(alloc, symbols)?)
}
