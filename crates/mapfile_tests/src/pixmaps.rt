use crate::results::{add_file, fault_text, used_files, with_used_files, written};
use mapdefs::{Layer, Map, Symbol, SymbolShape};
use mapparse::{Files, parse};
use std::alloc::{AllocError, Global};
use test_tables::{TableFault, check_rows};

// A pixmap of one column and two rows, one of two columns and one row, and a file that is no pixmap.
fn some_files(alloc: Global) -> Result<Files, AllocError> {
    let mut files = Files::new(alloc);
    add_file(&mut files, alloc, "a.ppm", b"P6 1 2 255\nabcdef")?;
    add_file(&mut files, alloc, "b.ppm", b"P6 2 1 255\nghijkl")?;
    add_file(&mut files, alloc, "bad.ppm", b"P5")?;
    Ok(files)
}

fn write_styles(text: &mut String, layer: &Layer) -> Result<(), AllocError> {
    for class in layer.get().classes.as_slice() {
        for style in class.get().styles.as_slice() {
            match style.get().symbol {
                Some(index) => write!(text, " {index}")?,
                None => text.push_str(" -")?,
            }
        }
    }
    Ok(())
}

// Adds a symbol's name and its sides.
fn write_symbol(text: &mut String, symbol: &Symbol) -> Result<(), AllocError> {
    let name = symbol.name.as_str();
    match &symbol.shape {
        SymbolShape::Disc => write!(text, "{name} disc,"),
        SymbolShape::Pixmap(pixmap) => {
            let (width, height) = (pixmap.get().width, pixmap.get().height);
            write!(text, "{name} {width} by {height},")
        }
    }
}

// The symbols of a map with their sides, and the symbol of each style.
fn symbols_of(alloc: Global, map: &Map) -> Result<String, AllocError> {
    let mut text = String::new(alloc);
    for symbol in map.get().symbols.as_slice() {
        write_symbol(&mut text, symbol)?;
    }
    for layer in map.get().layers.as_slice() {
        write_styles(&mut text, layer)?;
    }
    Ok(text)
}

// What a source with the files above gives.
fn made(alloc: Global, source: &str) -> Result<String, AllocError> {
    let files = some_files(alloc)?;
    match parse(alloc, source.as_bytes(), &files) {
        Ok(map) => symbols_of(alloc, &map),
        Err(fault) => fault_text(alloc, fault),
    }
}

// The symbols that a source gives, the files that it uses, and the source: each row has the form `MADE:USED~SOURCE`, in
// which `|` stands for the end of a line.
const ROWS: &str = "\
:~MAP END
p 1 by 2,:a.ppm,~MAP SYMBOL NAME p TYPE PIXMAP IMAGE a.ppm END END
p 1 by 2,q 2 by 1, 1 0 - - -:a.ppm,b.ppm,~MAP SYMBOL NAME p TYPE PIXMAP IMAGE a.ppm END SYMBOL NAME q TYPE pixmap IMAGE 'b.ppm' END LAYER NAME x TYPE POINT CLASS STYLE SYMBOL q END STYLE SYMBOL 'p' END STYLE SYMBOL 0 END STYLE SYMBOL '0' END STYLE SYMBOL q SYMBOL 0 END END END END
# A layer may stand before the symbols, and names are compared letter by letter.
q 2 by 1,p 1 by 2, 1 - 0:b.ppm,a.ppm,~MAP LAYER NAME x TYPE POINT CLASS STYLE SYMBOL p END STYLE END STYLE SYMBOL q END END END SYMBOL NAME q TYPE PIXMAP IMAGE b.ppm END SYMBOL NAME p TYPE PIXMAP IMAGE a.ppm END END
2 WrongValue:2 WrongValue~MAP LAYER NAME x TYPE POINT CLASS STYLE|SYMBOL P END END END SYMBOL NAME p TYPE PIXMAP IMAGE a.ppm END END
# The last of equal keywords counts, and the last symbol of a name.
p 2 by 1,:b.ppm,~MAP SYMBOL NAME q IMAGE none.ppm TYPE PIXMAP TYPE PIXMAP NAME p IMAGE b.ppm END END
p 1 by 2,p 2 by 1,r 1 by 2, 1 2:a.ppm,b.ppm,~MAP SYMBOL NAME p TYPE PIXMAP IMAGE a.ppm END SYMBOL NAME p TYPE PIXMAP IMAGE b.ppm END SYMBOL NAME r TYPE PIXMAP IMAGE a.ppm END LAYER NAME x TYPE POINT CLASS STYLE SYMBOL p END STYLE SYMBOL none SYMBOL r END END END END
p 1 by 2,:a.ppm,~MAP SYMBOL TRANSPARENT 3 ANCHORPOINT 0.5 1 NAME p TYPE PIXMAP IMAGE a.ppm END END
# A STYLE in a LABEL is skipped.
 -:~MAP LAYER NAME x TYPE POINT CLASS LABEL STYLE SYMBOL none END END STYLE END END END END
# What a SYMBOL needs, and what it doesn't know.
3 MissingValue:3 MissingValue~MAP SYMBOL|TYPE PIXMAP IMAGE a.ppm|END END
3 MissingValue:3 MissingValue~MAP SYMBOL|NAME p IMAGE a.ppm|END END
3 MissingValue:3 MissingValue~MAP SYMBOL|NAME p TYPE PIXMAP|END END
2 WrongValue:2 WrongValue~MAP SYMBOL TYPE|ELLIPSE
2 UnknownWord:2 UnknownWord~MAP SYMBOL|POINTS
2 MissingValue:2 MissingValue~MAP SYMBOL IMAGE|END
2 MissingValue:2 MissingValue~MAP SYMBOL ANCHORPOINT 1|END
2 UnknownWord:2 UnknownWord~MAP SYMBOL NAME p TYPE PIXMAP IMAGE a.ppm END LAYER|SYMBOL p
# Each SYMBOL needs its own.
2 MissingValue:2 MissingValue~MAP SYMBOL NAME p TYPE PIXMAP IMAGE a.ppm END SYMBOL|END END
# Names that no symbol has, at the END of MAP: the first in the order of the file, before what comes after.
4 WrongValue:4 WrongValue~MAP LAYER NAME x TYPE POINT CLASS STYLE|SYMBOL p|END STYLE|SYMBOL r END STYLE|SYMBOL s END END END SYMBOL NAME p TYPE PIXMAP IMAGE a.ppm END|END FOO
3 UnknownWord:3 UnknownWord~MAP LAYER NAME x TYPE POINT CLASS STYLE|SYMBOL r END END END|FOO
# Files that are missing, or no pixmaps, at the line of their first use, after all other faults.
4 MissingFile:s.ppm,~MAP|SYMBOL NAME p|TYPE PIXMAP|IMAGE \"s.ppm\"|END|END
4 BadFile:bad.ppm,~MAP|SYMBOL NAME p|TYPE PIXMAP|IMAGE \"bad.ppm\"|END|END
2 MissingFile:A.ppm,~MAP SYMBOL NAME p TYPE PIXMAP IMAGE|A.ppm|END END
2 BadFile:bad.ppm,none.ppm,~MAP SYMBOL NAME p TYPE PIXMAP|IMAGE bad.ppm END SYMBOL NAME q TYPE PIXMAP|IMAGE none.ppm END SYMBOL NAME r TYPE PIXMAP|IMAGE bad.ppm END END
3 MissingFile:a.ppm,none.ppm,bad.ppm,~MAP SYMBOL NAME p TYPE PIXMAP|IMAGE a.ppm END SYMBOL NAME q TYPE PIXMAP|IMAGE none.ppm END SYMBOL NAME r TYPE PIXMAP|IMAGE bad.ppm END END
3 UnknownWord:3 UnknownWord~MAP SYMBOL NAME p TYPE PIXMAP|IMAGE none.ppm END END|END";

// What a source makes, and the files that it uses.
pub fn made_and_used(alloc: Global, row: &str) -> Result<String, AllocError> {
    let source = written(alloc, row)?;
    let made = made(alloc, source.as_str())?;
    with_used_files(alloc, made.as_str(), source.as_str())
}

#[test]
fn symbols_have_their_pixmaps(rt: HostRuntime) -> Result<(), TableFault> {
    check_rows(rt.alloc(), ROWS, '~', 26, made_and_used)
}

// The files that a source with 64 symbols uses, and the source, in the form of `written`.
const MANY: &str = "\
a.ppm,~MAP|{64*SYMBOL NAME p TYPE PIXMAP IMAGE a.ppm END|}END
67 Limit~MAP|{64*SYMBOL NAME p TYPE PIXMAP IMAGE a.ppm END|}# one more|SYMBOL";

fn used_of_row(alloc: Global, row: &str) -> Result<String, AllocError> {
    let source = written(alloc, row)?;
    used_files(alloc, source.as_str())
}

#[test]
fn a_map_has_at_most_64_symbols(rt: HostRuntime) -> Result<(), TableFault> {
    check_rows(rt.alloc(), MANY, '~', 2, used_of_row)
}

// The bytes of the file of a name, after two files were added. `|` stands for the end of a line.
const ADDED: &str = "\
P6 1 2 255|abcdef~a.ppm
new~b.ppm
P5~bad.ppm
other~c.ppm
no file~B.ppm";

fn letters_of(alloc: Global, bytes: Option<&[u8]>) -> Result<String, AllocError> {
    let Some(bytes) = bytes else {
        return String::from_str(alloc, "no file");
    };
    let mut text = String::new(alloc);
    for byte in bytes {
        text.push(if *byte == b'\n' {
            '|'
        } else {
            char::from(*byte)
        })?;
    }
    Ok(text)
}

fn file_of(alloc: Global, name: &str) -> Result<String, AllocError> {
    let mut files = some_files(alloc)?;
    add_file(&mut files, alloc, "b.ppm", b"new")?;
    add_file(&mut files, alloc, "c.ppm", b"other")?;
    letters_of(alloc, files.bytes(name))
}

#[test]
fn a_file_replaces_one_of_its_name(rt: HostRuntime) -> Result<(), TableFault> {
    check_rows(rt.alloc(), ADDED, '~', 5, file_of)
}
