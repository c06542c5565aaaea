use crate::results::{add_file, fault_text, with_used_files, written};
use mapdefs::{Class, Font, Map};
use mapparse::{Files, parse};
use std::alloc::{AllocError, Global};
use test_tables::{TableFault, check_rows};

// A font with the letter of a code, whose box has those sides.
fn font_of(alloc: Global, code: u8, sides: &str) -> Result<String, AllocError> {
    format!(in alloc;
        "STARTFONT 2.1\nFONTBOUNDINGBOX {sides} 0 0\nCHARS 1\nSTARTCHAR c\nENCODING {code}\nDWIDTH 3 0\nBBX 2 1 0 0\nBITMAP\nC0\nENDCHAR\nENDFONT\n"
    )
}

// Two fonts, one with the highest box that a smoothed map takes and one with a higher box, a pixmap, a table, and a font whose
// second glyph is missing.
fn some_files(alloc: Global) -> Result<Files, AllocError> {
    let mut files = Files::new(alloc);
    let (first, second) = (font_of(alloc, 65, "5 7")?, font_of(alloc, 66, "4 9")?);
    add_file(&mut files, alloc, "a.bdf", first.as_bytes())?;
    add_file(&mut files, alloc, "b.bdf", second.as_bytes())?;
    let (high, higher) = (font_of(alloc, 67, "9 255")?, font_of(alloc, 68, "9 256")?);
    add_file(&mut files, alloc, "high.bdf", high.as_bytes())?;
    add_file(&mut files, alloc, "higher.bdf", higher.as_bytes())?;
    add_file(&mut files, alloc, "p.ppm", b"P6 1 2 255\nabcdef")?;
    add_file(&mut files, alloc, "p.csv", b"x,y\n1,2\n")?;
    add_file(
        &mut files,
        alloc,
        "bad.bdf",
        b"STARTFONT 2.1\nFONTBOUNDINGBOX 5 7 0 0\nCHARS 1\nENDFONT\n",
    )?;
    Ok(files)
}

fn write_font(text: &mut String, font: &Font) -> Result<(), AllocError> {
    let font = font.get();
    let (width, height) = (font.bounds.width, font.bounds.height);
    write!(text, "{width} by {height}")?;
    for glyph in font.glyphs.as_slice() {
        write!(text, " {}", glyph.encoding)?;
    }
    Ok(())
}

// The index of the font of a class's label, if it has one: `-` where that has none, and `?` after it where the map lacks the one
// that it names.
fn write_label_font(text: &mut String, class: &Class) -> Result<(), AllocError> {
    let Some(label) = &class.get().label else {
        return Ok(());
    };
    let label = label.get();
    match label.font {
        Some(index) => write!(text, " label {index}")?,
        None => text.push_str(" label -")?,
    }
    if label.lacks_font {
        text.push('?')?;
    }
    Ok(())
}

// The sides of a map's fonts and the encodings of their glyphs, and the fonts of the labels of its layers.
fn fonts_in(alloc: Global, map: &Map) -> Result<String, AllocError> {
    let mut text = String::new(alloc);
    let map = map.get();
    for (index, font) in map.fonts.as_slice().iter().enumerate() {
        if index > 0 {
            text.push_str(", ")?;
        }
        write_font(&mut text, font)?;
    }
    if map.fonts.len() == 0 {
        text.push_str("none")?;
    }
    for layer in map.layers.as_slice() {
        for class in layer.get().classes.as_slice() {
            write_label_font(&mut text, class)?;
        }
    }
    Ok(text)
}

// What a source with the files above gives.
fn made(alloc: Global, source: &str) -> Result<String, AllocError> {
    let files = some_files(alloc)?;
    match parse(alloc, source.as_bytes(), &files) {
        Ok(map) => fonts_in(alloc, &map),
        Err(fault) => fault_text(alloc, fault),
    }
}

// The fonts that a source gives, the files that it uses, and the source: each row has the form `MADE:USED~SOURCE`, in
// which `|` stands for the end of a line.
const ROWS: &str = "\
none:~MAP CONFIG labelfont a.bdf END
5 by 7 65:a.bdf,~MAP CONFIG LABELFONT a.bdf END
4 by 9 66:b.bdf,~MAP CONFIG 'LABELFONT' \"b.bdf\" CONFIG LABELFONTS a.bdf END
# The last one counts, and one that it replaces is no use of its file.
4 by 9 66:b.bdf,~MAP CONFIG LABELFONT none.bdf config LABELFONT b.bdf END
# The file is used where the font is named: before, between and after those of symbols and of layers.
5 by 7 65:a.bdf,p.ppm,p.csv,~MAP CONFIG LABELFONT a.bdf SYMBOL NAME s TYPE PIXMAP IMAGE p.ppm END LAYER NAME l TYPE POINT DATA p.csv END END
5 by 7 65:p.ppm,a.bdf,p.csv,~MAP SYMBOL NAME s TYPE PIXMAP IMAGE p.ppm END CONFIG LABELFONT a.bdf LAYER NAME l TYPE POINT DATA p.csv END END
5 by 7 65:p.ppm,p.csv,a.bdf,~MAP CONFIG LABELFONT b.bdf SYMBOL NAME s TYPE PIXMAP IMAGE p.ppm END LAYER NAME l TYPE POINT DATA p.csv END CONFIG LABELFONT a.bdf END
# A file that is missing, or no font, has its fault at the line of its first use.
2 MissingFile:none.bdf,~MAP CONFIG LABELFONT|none.bdf|END
2 BadFile:bad.bdf,~MAP CONFIG LABELFONT|bad.bdf|END
2 BadFile:p.ppm,~MAP SYMBOL NAME s TYPE PIXMAP IMAGE|p.ppm END CONFIG LABELFONT|p.ppm END
2 BadFile:a.bdf,~MAP CONFIG LABELFONT|a.bdf SYMBOL NAME s TYPE PIXMAP IMAGE|a.bdf END END
# The first used file's fault is reported.
2 MissingFile:m.csv,bad.bdf,~MAP LAYER NAME l TYPE POINT DATA|m.csv END CONFIG LABELFONT|bad.bdf END
2 BadFile:bad.bdf,m.csv,~MAP CONFIG LABELFONT|bad.bdf LAYER NAME l TYPE POINT DATA|m.csv END END
3 UnknownWord:3 UnknownWord~MAP CONFIG LABELFONT|none.bdf END|END
# Fonts by their names stand beside it, in the order in which the last CONFIG of each stands.
5 by 7 65, 4 by 9 66:a.bdf,b.bdf,~MAP CONFIG LABELFONT a.bdf CONFIG 'LABELFONT two' b.bdf END
4 by 9 66, 5 by 7 65:b.bdf,a.bdf,~MAP CONFIG \"LABELFONT x-1_Z\" b.bdf CONFIG LABELFONT a.bdf END
4 by 9 66:b.bdf,~MAP CONFIG 'LABELFONT n' none.bdf CONFIG 'LABELFONT n' b.bdf END
5 by 7 65, 4 by 9 66:a.bdf,b.bdf,~MAP CONFIG 'LABELFONT n' b.bdf CONFIG LABELFONT a.bdf CONFIG 'LABELFONT n' b.bdf END
5 by 7 65, 5 by 7 65:a.bdf,~MAP CONFIG 'LABELFONT n' a.bdf CONFIG 'LABELFONT N' a.bdf END
5 by 7 65, 4 by 9 66:a.bdf,p.ppm,b.bdf,~MAP CONFIG 'LABELFONT m' a.bdf SYMBOL NAME s TYPE PIXMAP IMAGE p.ppm END CONFIG 'LABELFONT n' b.bdf END
# Another key has no effect, and a name has a letter, a digit, `-` or `_` at least, and nothing else.
none:~MAP CONFIG 'labelfont n' a.bdf CONFIG LABELFONTn a.bdf CONFIG ' LABELFONT n' a.bdf END
2 WrongValue:2 WrongValue~MAP CONFIG|'LABELFONT ' a.bdf END
2 WrongValue:2 WrongValue~MAP CONFIG|'LABELFONT a b' a.bdf END
2 WrongValue:2 WrongValue~MAP CONFIG|'LABELFONT  a' a.bdf END
2 WrongValue:2 WrongValue~MAP CONFIG|'LABELFONT a.b' a.bdf END
2 WrongValue:2 WrongValue~MAP CONFIG|'LABELFONT é' a.bdf END
# The first used file's fault is reported, also of one that has a name.
3 MissingFile:a.bdf,none.bdf,bad.bdf,~MAP CONFIG LABELFONT a.bdf CONFIG 'LABELFONT m'||none.bdf CONFIG 'LABELFONT n' bad.bdf END
2 BadFile:bad.bdf,none.bdf,~MAP CONFIG 'LABELFONT n'|bad.bdf CONFIG LABELFONT none.bdf END
# A label has the font that it names last, else that of labels that name none; where CONFIG stands is the same to it.
5 by 7 65, 4 by 9 66 label 1:a.bdf,b.bdf,~MAP CONFIG LABELFONT a.bdf CONFIG 'LABELFONT two' b.bdf LAYER NAME l TYPE POINT CLASS LABEL FONT two END END END END
5 by 7 65, 4 by 9 66 label 0:a.bdf,b.bdf,~MAP CONFIG LABELFONT a.bdf CONFIG 'LABELFONT two' b.bdf LAYER NAME l TYPE POINT CLASS LABEL END END END END
4 by 9 66, 5 by 7 65 label 0:b.bdf,a.bdf,~MAP LAYER NAME l TYPE POINT CLASS LABEL FONT 'two' END END END CONFIG 'LABELFONT two' b.bdf CONFIG LABELFONT a.bdf END
4 by 9 66, 5 by 7 65 label 1:b.bdf,a.bdf,~MAP LAYER NAME l TYPE POINT CLASS LABEL END END END CONFIG 'LABELFONT two' b.bdf CONFIG LABELFONT a.bdf END
5 by 7 65, 4 by 9 66 label 1:a.bdf,b.bdf,~MAP CONFIG 'LABELFONT one' a.bdf CONFIG 'LABELFONT two' b.bdf LAYER NAME l TYPE POINT CLASS LABEL FONT one FONT two END END END END
5 by 7 65, 4 by 9 66 label 0?:a.bdf,b.bdf,~MAP CONFIG LABELFONT a.bdf CONFIG 'LABELFONT two' b.bdf LAYER NAME l TYPE POINT CLASS LABEL FONT Two END END END END
4 by 9 66 label -?:b.bdf,~MAP CONFIG 'LABELFONT two' b.bdf LAYER NAME l TYPE POINT CLASS LABEL FONT LABELFONT END END END END
4 by 9 66 label -:b.bdf,~MAP CONFIG 'LABELFONT two' b.bdf LAYER NAME l TYPE POINT CLASS LABEL END END END END
none label -?:~MAP LAYER NAME l TYPE POINT CLASS LABEL FONT two END END END END
# Fonts of a smoothed map may have larger sides, by the smoothing that counts.
2 BadFile:high.bdf,~MAP CONFIG LABELFONT|high.bdf END
9 by 255 67:high.bdf,~MAP CONFIG WMS_SMOOTHING 2 CONFIG LABELFONT high.bdf END
9 by 255 67:high.bdf,~MAP CONFIG 'LABELFONT n' high.bdf CONFIG WMS_SMOOTHING 4 END
2 BadFile:high.bdf,~MAP CONFIG WMS_SMOOTHING 2 CONFIG LABELFONT|high.bdf CONFIG WMS_SMOOTHING 1 END
2 BadFile:higher.bdf,~MAP CONFIG WMS_SMOOTHING 4 CONFIG LABELFONT|higher.bdf END";

fn made_and_used(alloc: Global, row: &str) -> Result<String, AllocError> {
    let source = written(alloc, row)?;
    let made = made(alloc, source.as_str())?;
    with_used_files(alloc, made.as_str(), source.as_str())
}

#[test]
fn maps_have_the_fonts_that_they_name_last(rt: HostRuntime) -> Result<(), TableFault> {
    check_rows(rt.alloc(), ROWS, '~', 42, made_and_used)
}

// A map with the font of labels that name none, so many fonts named n1, n2 and so on, each on a line of its own, and one more with a
// name, or none where that is `-`.
fn named_fonts(alloc: Global, row: &str) -> Result<String, AllocError> {
    let (count, last) = row.split_once(' ').ok_or(AllocError)?;
    let mut source = String::from_str(alloc, "MAP CONFIG LABELFONT a.bdf\n")?;
    for number in 0..count.parse::<u8>().unwrap_or(0) {
        write!(source, "CONFIG 'LABELFONT n{}' a.bdf\n", number + 1)?;
    }
    if last != "-" {
        write!(source, "CONFIG 'LABELFONT {last}' a.bdf\n")?;
    }
    source.push_str("END")?;
    Ok(source)
}

// How many fonts the map of a row has, or its fault.
fn font_count(alloc: Global, row: &str) -> Result<String, AllocError> {
    let source = named_fonts(alloc, row)?;
    match parse(alloc, source.as_bytes(), &some_files(alloc)?) {
        Ok(map) => format!(in alloc; "{} fonts", map.get().fonts.len()),
        Err(fault) => fault_text(alloc, fault),
    }
}

// A name that is there already is no further one.
const COUNTS: &str = "\
17 fonts=16 -
18 Limit=17 -
17 fonts=16 n3
18 Limit=16 N3";

#[test]
fn maps_have_at_most_16_names_of_fonts(rt: HostRuntime) -> Result<(), TableFault> {
    check_rows(rt.alloc(), COUNTS, '=', 4, font_count)
}
