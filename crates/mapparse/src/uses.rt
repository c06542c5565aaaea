ghost use Rattle.std.specs.Prelude.{◌≡◌, ◌&&◌, true, is_some, option_map, IfOk, IfSome, OnOk};
ghost use Rattle.std.specs.List.{list_any};
ghost use Rattle.mapwords.specs.declared.fault.ParseKind.TheVariants.{BadFile};
ghost use Rattle.mapparse.specs.Fault.{kind_of, fault_in};
ghost use Rattle.mapparse.specs.Uses.{is_among, with_use, first_uses, uses_of, is_named, lacks_pixmap, lacks_table, lacks_some_font, is_bad, refuses, is_same_use, is_used_there, is_font_there, keyword_of, keyword_by, file_fault, files_fault, IsOfUse};
ghost use Rattle.mapdefs.specs.Name.{is_same_name};
ghost use Rattle.mapparse.specs.Files.{bytes_in};
ghost use Rattle.mapparse.specs.Fonts.{is_font};

use crate::fault::{FileCause, FileFault};
use crate::files::Files;
use crate::font::{font_of, is_font, most_side};
use crate::table::table_for;
use bdffont::{FontError, FontFault};
use csvpoints::{CsvError, CsvFault};
use mapdefs::{Duplicate, Items, Text};
use maptree::{LayerTree, MapTree, Named, SymbolTree, UsedFile};
use mapwords::Keyword;
use std::alloc::{AllocError, Global};
use symbols::{PixFault, read};

// Whether one of the files has the name.
fn is_among(files: &[Named], name: &str) -> bool
    ensures { result ≡ is_among files.now name.now }
{
    files.iter().any(|file| file.text.as_str() == name)
}

// Adds a use of a file, unless its name is there already.
fn add_use(firsts: &mut Vec<Named>, file: &Named, alloc: Global) -> Result<(), AllocError>
    ensures { OnOk result (firsts.new.items ≡ with_use firsts.old.items file.now) }
{
    if is_among(firsts, file.text.as_str()) {
        return Ok(());
    }
    firsts.push(file.duplicate(alloc)?)?;
    Ok(())
}

// The first use of each file, in their order.
fn first_uses(tree: &MapTree, alloc: Global) -> Result<Vec<Named>, AllocError>
    ensures { IfOk result (λ firsts. firsts.items ≡ first_uses tree.now) }
{
    let mut firsts = Vec::new(alloc);
    let all = tree.files.as_slice();
    for used in all {
        add_use(&mut firsts, &used.file, alloc)?;
    }
    Ok(firsts)
}

/// The names of the files that a mapfile uses, each once, in the order of their first use.
pub fn uses_of(tree: &MapTree, alloc: Global) -> Result<Items<Text>, AllocError>
    ensures { IfOk result (λ names. names ≡ uses_of tree.now) }
{
    let firsts = first_uses(tree, alloc)?;
    let mut names = Vec::with_capacity(alloc, firsts.len())?;
    for file in firsts {
        let Named { text, .. } = file;
        names.push(text)?;
    }
    Ok(Items::of(names))
}

// Why the bytes of the file of this name are no pixmap, where a symbol has it as its image.
fn pixmap_fault(
    name: &str,
    bytes: &[u8],
    symbols: &[SymbolTree],
    alloc: Global,
) -> Result<Option<PixFault>, AllocError>
    ensures { IfOk result (λ found. is_some found ≡ list_any (lacks_pixmap name.now bytes.now) symbols.now) }
{
    for symbol in symbols {
        if is_named(name, &symbol.image) {
            match read(alloc, bytes) {
                Ok(_) => {}
                Err(PixFault::NoMemory) => return Err(AllocError),
                Err(fault) => return Ok(Some(fault)),
            }
        }
    }
    Ok(None)
}

// Whether a file is named, and has this name.
fn is_named(name: &str, file: &Option<Named>) -> bool
    ensures { result ≡ is_named name.now file.now }
{
    match file {
        Some(file) => file.text.as_str() == name,
        None => false,
    }
}

// Why the bytes of the file of this name are no table, where a layer has its table in it.
fn table_fault(
    name: &str,
    bytes: &[u8],
    layers: &[LayerTree],
    alloc: Global,
) -> Result<Option<CsvFault>, AllocError>
    ensures { IfOk result (λ found. is_some found ≡ list_any (lacks_table name.now bytes.now) layers.now) }
{
    for layer in layers {
        if is_named(name, &layer.table) {
            match table_for(layer, bytes, alloc) {
                Ok(_) => {}
                Err(CsvError::NoMemory) => return Err(AllocError),
                Err(CsvError::Fault(fault)) => return Ok(Some(fault)),
            }
        }
    }
    Ok(None)
}

// Whether a file of this name is used as a font.
fn is_font_named(name: &str, used: &UsedFile) -> bool
    ensures { result ≡ (is_font used.now && is_same_name used.now.file.text name.now) }
{
    is_font(used) && used.file.text.as_str() == name
}

// Why the bytes of the file of this name are no font, where the map has one of its fonts in it.
fn font_fault(
    tree: &MapTree,
    name: &str,
    bytes: &[u8],
    alloc: Global,
) -> Result<Option<FontFault>, AllocError>
    ensures { IfOk result (λ found. is_some found ≡ lacks_some_font tree.now name.now bytes.now) }
{
    let most = most_side(&tree.values);
    let all = tree.files.as_slice();
    for used in all {
        if is_font_named(name, used) {
            match font_of(most, bytes, alloc) {
                Ok(_) => {}
                Err(FontError::NoMemory) => return Err(AllocError),
                Err(FontError::Fault(fault)) => return Ok(Some(fault)),
            }
        }
    }
    Ok(None)
}

// Why the bytes of the file of this name don't fit some use of it.
fn cause_in(
    tree: &MapTree,
    name: &str,
    bytes: &[u8],
    alloc: Global,
) -> Result<Option<FileCause>, AllocError>
    ensures found { IfOk result (λ found. is_some found ≡ is_bad tree.now name.now bytes.now) }
    ensures refused { IfOk result (λ found. IfSome found (λ cause. refuses tree.now name.now bytes.now cause ≡ true)) }
    ensures kind { IfOk result (λ found. IfSome found (λ cause. kind_of cause ≡ BadFile)) }
{
    if let Some(fault) = pixmap_fault(name, bytes, tree.symbols.as_slice(), alloc)? {
        return Ok(Some(FileCause::NoPixmap(fault)));
    }
    if let Some(fault) = table_fault(name, bytes, tree.layers.as_slice(), alloc)? {
        return Ok(Some(FileCause::NoTable(fault)));
    }
    match font_fault(tree, name, bytes, alloc)? {
        Some(fault) => Ok(Some(FileCause::NoFont(fault))),
        None => Ok(None),
    }
}

// Whether two names of files are the same one, on the same line.
fn is_same_use(a: &Named, b: &Named) -> bool
    ensures { result ≡ is_same_use a.now b.now }
{
    a.line == b.line && a.text.as_str() == b.text.as_str()
}

// Whether a file is named, and that there.
fn is_used_there(file: &Named, named: &Option<Named>) -> bool
    ensures { result ≡ is_used_there file.now named.now }
{
    match named {
        Some(named) => is_same_use(named, file),
        None => false,
    }
}

// Whether the image of some symbol is named there.
fn is_image_use(file: &Named, symbols: &[SymbolTree]) -> bool
    ensures { result ≡ list_any (λ symbol. is_used_there file.now symbol.image) symbols.now }
{
    symbols
        .iter()
        .any(|symbol| is_used_there(file, &symbol.image))
}

// Whether the file of some font is named there.
fn is_font_use(file: &Named, files: &[UsedFile]) -> bool
    ensures { result ≡ list_any (is_font_there file.now) files.now }
{
    files
        .iter()
        .any(|used| is_font(used) && is_same_use(&used.file, file))
}

// The keyword that names a file there.
fn keyword_of(tree: &MapTree, file: &Named) -> Keyword
    ensures { result ≡ keyword_of tree.now file.now }
{
    if is_image_use(file, tree.symbols.as_slice()) {
        return Keyword::Image;
    }
    if is_font_use(file, tree.files.as_slice()) {
        return Keyword::Config;
    }
    Keyword::Data
}

// The keyword of the use that a cause is about.
fn keyword_by(tree: &MapTree, first: &Named, cause: FileCause) -> Keyword
    ensures { result ≡ keyword_by tree.now first.now cause }
{
    match cause {
        FileCause::Missing => keyword_of(tree, first),
        FileCause::NoPixmap(_) => Keyword::Image,
        FileCause::NoTable(_) => Keyword::Data,
        FileCause::NoFont(_) => Keyword::Config,
    }
}

// Why a file that is first used there isn't what it is used as.
fn file_cause(
    tree: &MapTree,
    first: &Named,
    files: &Files,
    alloc: Global,
) -> Result<Option<FileCause>, AllocError>
    ensures fault { IfOk result
        (λ found. option_map (λ cause. record { line = first.now.line; kind = kind_of cause }) found
        ≡ file_fault files.now tree.now first.now) }
    ensures refused { IfOk result
        (λ found. IfSome found
        (λ cause. IfSome
        (bytes_in first.now.text files.now)
        (λ bytes. refuses tree.now first.now.text bytes cause ≡ true))) }
{
    let name = first.text.as_str();
    match files.bytes(name) {
        Some(bytes) => cause_in(tree, name, bytes, alloc),
        None => Ok(Some(FileCause::Missing)),
    }
}

/// The fault of the first used of the files that have one.
pub fn files_fault(
    tree: &MapTree,
    files: &Files,
    alloc: Global,
) -> Result<Option<FileFault>, AllocError>
    ensures fault { IfOk result (λ found. option_map fault_in found ≡ files_fault files.now tree.now) }
    ensures said { IfOk result (λ found. IfSome found (IsOfUse files.now tree.now)) }
{
    let firsts = first_uses(tree, alloc)?;
    for (number, first) in firsts.iter().enumerate() {
        if let Some(cause) = file_cause(tree, first, files, alloc)? {
            return Ok(Some(FileFault {
                number,
                line: first.line,
                keyword: keyword_by(tree, first, cause),
                cause,
            }));
        }
    }
    Ok(None)
}
