use crate::results::{add_file, fault_text, with_used_files, written};
use mapdefs::{FeatureFields, Layer, MAX_ITEMS, Map};
use mapparse::{Files, parse};
use std::alloc::{AllocError, Global};
use test_tables::{TableFault, check_rows};

// Tables of points, files that are none, and a pixmap.
fn some_files(alloc: Global) -> Result<Files, AllocError> {
    let mut files = Files::new(alloc);
    add_file(&mut files, alloc, "p.csv", b"x,y,n\n1,2,a\n")?;
    add_file(
        &mut files,
        alloc,
        "q.csv",
        b"lon,n,x,lat\n5,b,7,6\n-8,c,9,10.5\n",
    )?;
    add_file(
        &mut files,
        alloc,
        "r.csv",
        b"\xef\xbb\xbfx,y,n\r\n\r\n 1 ,2,\"a, \"\"b\"\"\nc\"\r\n",
    )?;
    add_file(&mut files, alloc, "none.csv", b"x,y,n\n")?;
    add_file(&mut files, alloc, "bad.csv", b"x,y\n1,2\n3,z\n")?;
    add_file(&mut files, alloc, "pix.csv", b"P6 1 2 255\nabcdef")?;
    Ok(files)
}

fn write_feature(text: &mut String, feature: &FeatureFields) -> Result<(), AllocError> {
    text.push_str(" (")?;
    for part in feature.parts.as_slice() {
        for place in part.as_slice() {
            let (x, y) = (place.x().get().millionths(), place.y().get().millionths());
            write!(text, "{x} {y}")?;
        }
    }
    text.push(')')?;
    for index in 0..MAX_ITEMS {
        let Some(value) = feature.values.get(index) else {
            return Ok(());
        };
        write!(text, "{value},")?;
    }
    Ok(())
}

fn write_layer(text: &mut String, layer: &Layer) -> Result<(), AllocError> {
    let layer = layer.get();
    text.push('[')?;
    for item in layer.items.as_slice() {
        write!(text, "{},", item.as_str())?;
    }
    text.push(']')?;
    for feature in layer.features.as_slice() {
        write_feature(text, feature.get())?;
    }
    Ok(())
}

// The items of each layer, and its features: in brackets their places, and then their values.
fn layers_of(alloc: Global, map: &Map) -> Result<String, AllocError> {
    let mut text = String::new(alloc);
    for layer in map.get().layers.as_slice() {
        write_layer(&mut text, layer)?;
    }
    text.replace(alloc, '\n', "|")
}

// What a source with the files above gives.
fn made(alloc: Global, source: &str) -> Result<String, AllocError> {
    let files = some_files(alloc)?;
    match parse(alloc, source.as_bytes(), &files) {
        Ok(map) => layers_of(alloc, &map),
        Err(fault) => fault_text(alloc, fault),
    }
}

// The layers that a source gives, the files that it uses, and the source: each row has the form `MADE:USED~SOURCE`, in
// which `|` stands for the end of a line.
const ROWS: &str = "\
[x,y,n,] (1000000 2000000)1,2,a,:p.csv,~MAP LAYER NAME l TYPE POINT DATA p.csv END END
[x,y,n,]:none.csv,~MAP LAYER NAME l DATA 'none.csv' type point END END
[x,y,n,] (1000000 2000000) 1 ,2,a, \"b\"|c,:r.csv,~MAP LAYER NAME l TYPE POINT DATA r.csv END END
# The rows come after the features of the mapfile, whose values are those of the columns, whatever ITEMS names.
[x,y,n,] (3000000 4000000)u,v,, (5000000 6000000),,, (1000000 2000000)1,2,a,:p.csv,~MAP LAYER NAME l TYPE POINT DATA p.csv FEATURE POINTS 3 4 END ITEMS 'u;v' END PROCESSING ITEMS=k FEATURE POINTS 5 6 END END END END
# The columns of the coordinates: by their names, exchanged, and one for both.
[lon,n,x,lat,] (5000000 6000000)5,b,7,6, (-8000000 10500000)-8,c,9,10.5,:q.csv,~MAP LAYER NAME l TYPE POINT DATA q.csv PROCESSING CSV_X=lon PROCESSING CSV_Y=lat END END
[x,y,n,] (2000000 1000000)1,2,a,:p.csv,~MAP LAYER NAME l TYPE POINT PROCESSING CSV_X=y PROCESSING CSV_Y=x DATA p.csv END END
[x,y,n,] (2000000 2000000)1,2,a,:p.csv,~MAP LAYER NAME l TYPE POINT PROCESSING CSV_X=y DATA p.csv END END
# A table that several layers read, each by its own columns.
[lon,n,x,lat,] (7000000 6000000)5,b,7,6, (9000000 10500000)-8,c,9,10.5,[lon,n,x,lat,] (6000000 5000000)5,b,7,6, (10500000 -8000000)-8,c,9,10.5,:q.csv,~MAP LAYER NAME l TYPE POINT DATA q.csv PROCESSING CSV_Y=lat END LAYER NAME m TYPE POINT DATA q.csv PROCESSING CSV_Y=lon PROCESSING CSV_X=lat END END
# The last DATA counts, and a layer without one has the items that it is given.
[x,y,n,] (1000000 2000000)1,2,a,[k,] (3000000 4000000)u,:p.csv,~MAP LAYER NAME l TYPE POINT DATA missing.csv DATA p.csv END LAYER NAME m TYPE POINT PROCESSING ITEMS=k FEATURE ITEMS u POINTS 3 4 END END END END
# Only a name that ends in .csv is one, and only a layer of points has a table.
2 WrongValue:2 WrongValue~MAP LAYER DATA|p.CSV
2 WrongValue:2 WrongValue~MAP LAYER DATA|'p.csv '
2 WrongValue:2 WrongValue~MAP LAYER DATA|(p.csv)
2 MissingValue:2 MissingValue~MAP LAYER DATA|END
2 MissingFile:.csv,~MAP LAYER NAME l TYPE POINT DATA|.csv END END
2 WrongValue:2 WrongValue~MAP LAYER NAME l TYPE LINE DATA|p.csv|END END
3 WrongValue:3 WrongValue~MAP LAYER NAME l TYPE LINE DATA|p.csv DATA|missing.csv TYPE|POLYGON|END END
2 WrongValue:2 WrongValue~MAP LAYER NAME l TYPE POLYGON DATA p.csv DATA|p.txt
[x,y,n,] (1000000 2000000)1,2,a,:p.csv,~MAP LAYER TYPE LINE DATA p.csv TYPE POINT NAME l END END
# What else the END of a layer requires is reported before.
3 MissingValue:3 MissingValue~MAP LAYER TYPE LINE DATA|p.csv|END
3 MissingValue:3 MissingValue~MAP LAYER NAME l DATA|p.csv|END
3 DuplicateName:3 DuplicateName~MAP LAYER NAME l TYPE LINE END LAYER TYPE LINE DATA|p.csv|NAME l|END
# Files in the order of their first use, those of symbols and of layers.
[x,y,n,] (1000000 2000000)1,2,a,[x,y,n,][x,y,n,] (1000000 2000000)1,2,a,:p.csv,pix.csv,none.csv,~MAP LAYER NAME l TYPE POINT DATA p.csv END SYMBOL NAME s TYPE PIXMAP IMAGE pix.csv END LAYER NAME m TYPE POINT DATA none.csv END LAYER NAME n TYPE POINT DATA p.csv END END
3 MissingFile:p.csv,m.ppm,m.csv,~MAP LAYER NAME l TYPE POINT DATA p.csv END SYMBOL NAME s TYPE PIXMAP IMAGE||m.ppm END LAYER NAME m TYPE POINT DATA|m.csv END END
2 MissingFile:m.csv,m.ppm,~MAP LAYER NAME l TYPE POINT DATA|m.csv END SYMBOL NAME s TYPE PIXMAP IMAGE|m.ppm END END
# A file that one of its uses refuses has its fault at the first of them, before those that are used later.
2 BadFile:bad.csv,m.csv,~MAP LAYER NAME l TYPE POINT DATA|bad.csv END LAYER NAME m TYPE POINT DATA|m.csv END END
2 BadFile:q.csv,m.csv,~MAP LAYER NAME l TYPE POINT PROCESSING CSV_Y=lat DATA|q.csv END LAYER NAME m TYPE POINT DATA|m.csv END LAYER NAME n TYPE POINT DATA|q.csv END END
3 MissingFile:q.csv,m.csv,bad.csv,~MAP LAYER NAME l TYPE POINT PROCESSING CSV_Y=lat DATA|q.csv END LAYER NAME m TYPE POINT DATA|m.csv END LAYER NAME n TYPE POINT DATA|bad.csv END END
2 BadFile:pix.csv,m.ppm,~MAP SYMBOL NAME s TYPE PIXMAP IMAGE|pix.csv END SYMBOL NAME t TYPE PIXMAP IMAGE|m.ppm END LAYER NAME l TYPE POINT DATA|pix.csv END END
2 BadFile:p.csv,~MAP LAYER NAME l TYPE POINT DATA|p.csv END SYMBOL NAME s TYPE PIXMAP IMAGE|p.csv END END
# Faults of the mapfile come before them.
3 UnknownWord:3 UnknownWord~MAP LAYER NAME l TYPE POINT DATA|bad.csv END END|END";

fn made_and_used(alloc: Global, row: &str) -> Result<String, AllocError> {
    let source = written(alloc, row)?;
    let made = made(alloc, source.as_str())?;
    with_used_files(alloc, made.as_str(), source.as_str())
}

#[test]
fn layers_have_the_rows_of_their_tables(rt: HostRuntime) -> Result<(), TableFault> {
    check_rows(rt.alloc(), ROWS, '~', 30, made_and_used)
}

// How many features a layer has with a table of so many rows, and some features of its own. `|` stands for the end of a
// line.
const LIMITS: &str = "\
200000~200000 MAP LAYER NAME l TYPE POINT DATA b.csv END END
2 BadFile~200001 MAP LAYER NAME l TYPE POINT DATA|b.csv END END
2 BadFile~200000 MAP LAYER NAME l TYPE POINT DATA|b.csv FEATURE POINTS 1 2 END END END END
200000~199998 MAP LAYER NAME l TYPE POINT DATA b.csv FEATURE POINTS 1 2 END END FEATURE POINTS 3 4 5 6 END END END END
2 BadFile~199999 MAP LAYER NAME l TYPE POINT FEATURE POINTS 1 2 END END DATA|b.csv FEATURE POINTS 3 4 5 6 END END END END";

// A table of points with so many rows.
fn table_of(alloc: Global, rows: usize) -> Result<String, AllocError> {
    let rows = "0,0\n".repeat(alloc, rows)?;
    format!(in alloc; "x,y\n{rows}")
}

// How many features a map has.
fn count_of(alloc: Global, map: &Map) -> Result<String, AllocError> {
    let mut count = 0_usize;
    for layer in map.get().layers.as_slice() {
        count = count.saturating_add(layer.get().features.len());
    }
    format!(in alloc; "{count}")
}

fn count_of_row(alloc: Global, row: &str) -> Result<String, AllocError> {
    let Some((rows, source)) = row.split_once(' ') else {
        return String::from_str(alloc, "no count");
    };
    let Ok(rows) = rows.parse::<usize>() else {
        return String::from_str(alloc, "no count");
    };
    let table = table_of(alloc, rows)?;
    let mut files = Files::new(alloc);
    add_file(&mut files, alloc, "b.csv", table.as_bytes())?;
    let source = written(alloc, source)?;
    match parse(alloc, source.as_bytes(), &files) {
        Ok(map) => count_of(alloc, &map),
        Err(fault) => fault_text(alloc, fault),
    }
}

#[test]
fn a_layer_has_at_most_200000_features(rt: HostRuntime) -> Result<(), TableFault> {
    check_rows(rt.alloc(), LIMITS, '~', 5, count_of_row)
}
