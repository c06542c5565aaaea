use mapdefs::{Items, Text};
use mapfaults::{MapfileAtHand, message_on_files};
use mapparse::{Files, Mapfile};
use std::alloc::{AllocError, Global};
use test_tables::{TableFault, check_rows};

// The file of a row, if it has one: its name and its text, with `=` between them. `~` is the end of a line.
fn files_of(alloc: Global, row: &str) -> Result<Files, AllocError> {
    let mut files = Files::new(alloc);
    if let Some((name, text)) = row.split_once('=') {
        let text = text.replace(alloc, '~', "\n")?;
        let bytes = Vec::from_slice(alloc, text.as_str().as_bytes())?;
        files.add(Text::from_str(alloc, name)?, Items::of(bytes))?;
    }
    Ok(files)
}

// The messages on the files of a row, whose file is written before its mapfile.
fn messages_of_row(alloc: Global, row: &str) -> Result<String, AllocError> {
    let (files, source) = row.split_once('|').unwrap_or(("", row));
    let files = files_of(alloc, files)?;
    let source = source.replace(alloc, '~', "\n")?;
    let source = source.as_str().as_bytes();
    let Ok(mapfile) = Mapfile::read(alloc, source) else {
        return String::from_str(alloc, "no mapfile");
    };
    let at_hand = MapfileAtHand {
        source,
        mapfile: &mapfile,
        files: &files,
    };
    let message = message_on_files(alloc, at_hand);
    let message = message.as_ref().map_or("none", |message| message.as_str());
    let message = String::from_str(alloc, message);
    // Dropped by name, through the one drop of its type.
    drop(mapfile);
    message
}

// The messages, the file, and the mapfile.
const ROWS: &str = "\
none||MAP END
none|a.csv=x,y~1,2|MAP LAYER NAME a TYPE POINT DATA a.csv END END
the file a.csv, which DATA names, can't be read||MAP LAYER NAME a TYPE POINT DATA a.csv END END
the file a.csv, which DATA names, can't be read|b.csv=x,y|MAP LAYER NAME b TYPE POINT DATA b.csv END LAYER NAME a TYPE POINT DATA a.csv END END
# which columns are looked for, and the header
the file that DATA names is no table of points: row 1: no column of the coordinates: x and y are looked for in lon,lat,name|a.csv=lon,lat,name~1,2,b|MAP LAYER NAME a TYPE POINT DATA a.csv END END
the file that DATA names is no table of points: row 1: no column of the coordinates: lon and y are looked for in x,y|a.csv=~x,y~|MAP LAYER NAME a TYPE POINT PROCESSING CSV_X=lon DATA a.csv END END
the file that DATA names is no table of points: row 1: no column of the coordinates: x and lat are looked for in x,y|a.csv=x,y|MAP LAYER NAME b TYPE POINT DATA a.csv END~LAYER NAME a TYPE POINT PROCESSING CSV_Y=lat DATA a.csv END END
the file that DATA names is no table of points: row 1: no column of the coordinates: x and y are looked for in a?b|b.csv=a\tb|MAP LAYER NAME a TYPE POINT DATA b.csv END END
# a file that fits its first use and not a later one, and one of two byte order marks
the file that DATA names is no table of points: row 1: no column of the coordinates: x and y are looked for in P6 1 1 255|a.csv=P6 1 1 255~abc|MAP SYMBOL NAME s TYPE PIXMAP IMAGE a.csv END~LAYER NAME a TYPE POINT DATA a.csv END END
the file that IMAGE names is no pixmap in Netpbm's P6 format of at most 256 by 256 pixels|a.csv=x,y~1,2|MAP LAYER NAME a TYPE POINT DATA a.csv END~SYMBOL NAME s TYPE PIXMAP IMAGE a.csv END END
the file that DATA names is no table of points: row 1: no column of the coordinates: x and y are looked for in \u{FEFF}x,y|a.csv=\u{FEFF}\u{FEFF}x,y|MAP LAYER NAME a TYPE POINT DATA a.csv END END
# one byte order mark is dropped, at the beginning of the file alone
the file that DATA names is no table of points: row 1: no column of the coordinates: x and y are looked for in x,b|a.csv=\u{FEFF}x,b|MAP LAYER NAME a TYPE POINT DATA a.csv END END
the file that DATA names is no table of points: row 1: no column of the coordinates: x and y are looked for in x,b|a.csv=\u{FEFF}~~x,b|MAP LAYER NAME a TYPE POINT DATA a.csv END END
the file that DATA names is no table of points: row 1: no column of the coordinates: x and y are looked for in \u{FEFF}x,y|a.csv=~\u{FEFF}x,y|MAP LAYER NAME a TYPE POINT DATA a.csv END END
none|a.csv=\u{FEFF}~x,y~1,2|MAP LAYER NAME a TYPE POINT DATA a.csv END END
# the value that is no coordinate, the longitude before the latitude; in the layer that has it
the file that DATA names is no table of points: row 3: a coordinate that can't be read, or beyond 1,000 degrees: y is \"2,5\"|a.csv=x,y~1,2~3,\"2,5\"~4,5|MAP LAYER NAME a TYPE POINT DATA a.csv END END
the file that DATA names is no table of points: row 2: a coordinate that can't be read, or beyond 1,000 degrees: lon is \"\"|a.csv=name,lat,lon~b,c,|MAP LAYER NAME a TYPE POINT PROCESSING CSV_X=lon PROCESSING CSV_Y=lat DATA a.csv END END
the file that DATA names is no table of points: row 2: a coordinate that can't be read, or beyond 1,000 degrees: y is \" 1000.5\"|a.csv=\u{FEFF}x,y~ 1 , 1000.5|MAP LAYER NAME a TYPE POINT DATA a.csv END END
the file that DATA names is no table of points: row 2: a coordinate that can't be read, or beyond 1,000 degrees: u is \"a?b\"|a.csv=x,y,u~1,2,a\tb|MAP LAYER NAME a TYPE POINT DATA a.csv END LAYER NAME b TYPE POINT PROCESSING CSV_X=u DATA a.csv END END
# the messages on other faults name no columns
the file that DATA names is no table of points: row 1: no header|a.csv=~|MAP LAYER NAME a TYPE POINT DATA a.csv END END
the file that DATA names is no table of points: row 2: another count of fields than the header has|a.csv=x,y~1|MAP LAYER NAME a TYPE POINT DATA a.csv END END
the file that IMAGE names is no pixmap in Netpbm's P6 format of at most 256 by 256 pixels|a.ppm=P5|MAP SYMBOL NAME s TYPE PIXMAP IMAGE a.ppm END END";

#[test]
fn faults_of_files_have_messages(rt: HostRuntime) -> Result<(), TableFault> {
    check_rows(rt.alloc(), ROWS, '|', 22, messages_of_row)
}
