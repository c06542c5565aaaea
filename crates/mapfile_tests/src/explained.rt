use crate::results::repeated;
use mapfaults::{Finding, explain};
use std::alloc::{AllocError, Global};
use test_tables::{TableFault, check_rows};

// The result for a source: its line and the message on its fault.
fn explanation_of(alloc: Global, source: &[u8]) -> Result<String, AllocError> {
    match explain(alloc, source) {
        Finding::Sound => String::from_str(alloc, "sound"),
        Finding::Faulty(fault) => {
            let (line, message) = (fault.line, fault.message(alloc, source)?);
            format!(in alloc; "{line}: {message}")
        }
        Finding::NoMemory => Err(AllocError),
    }
}

// The result for a source in which `~` stands for the end of a line, `^` for `~`, and `{3*ab}` for `ababab`.
fn explanation_of_row(alloc: Global, row: &str) -> Result<String, AllocError> {
    let lines = row.replace(alloc, '~', "\n")?;
    let lines = lines.replace(alloc, '^', "~")?;
    let source = repeated(alloc, lines.as_str())?;
    explanation_of(alloc, source.as_str().as_bytes())
}

// The results for sources, and the sources.
const ROWS: &str = "\
sound|MAP END
2: the mapfile has no MAP|# MAP~
2: LAYER stands where MAP has to begin|~LAYER END
2: \"MAP\" stands where MAP has to begin|~'MAP' END
2: END stands after the END of MAP|MAP LAYER NAME a TYPE LINE END END~END
2: (a) stands after the END of MAP|MAP END~(a)
4: COLOUR is no keyword of STYLE|MAP~LAYER~CLASS STYLE END~STYLE COLOUR 1
4: colour is no keyword of CLASS|map~layer~class style end~colour 1
2: \"NAME\" is no keyword of LAYER|MAP LAYER~'NAME' a
2: {a b} is no keyword of MAP|MAP~{a b}
2: MANY is no value of WIDTH, which takes a count from 1 to 32|MAP LAYER CLASS STYLE~WIDTH MANY
2: XX is no value of POSITION, which takes UL, UC, UR, CL, CC, CR, LL, LC, LR or AUTO|MAP LAYER CLASS LABEL~Position XX
2: 0.5 is no value of EXTENT, which takes a number up to 1000 that is greater than the first|MAP EXTENT 1 2~0.5 9
2: 2 is no value of EXTENT, which takes a number up to 1000 that is greater than the second|MAP EXTENT 1 2 3~2
2: x is no value of COLOR, which takes three counts from -1 to 255|MAP LAYER CLASS STYLE COLOR 1~x
2: RASTER is no value of TYPE, which takes POINT, LINE or POLYGON|MAP LAYER TYPE~RASTER
2: p.txt is no value of DATA, which takes the name of a file that ends in .csv: MapServer's other sources aren't supported|MAP LAYER DATA~p.txt
2: DATA needs a LAYER of TYPE POINT|MAP LAYER NAME a TYPE LINE DATA~p.csv~END END
2: VECTOR is no value of TYPE, which takes PIXMAP, or ELLIPSE after a WMS_SMOOTHING above 1|MAP SYMBOL TYPE~VECTOR
2: VECTOR is no value of TYPE, which takes PIXMAP or ELLIPSE|MAP CONFIG WMS_SMOOTHING 2 SYMBOL TYPE~VECTOR
2: 2 is no value of POINTS, which takes 1, 1 and END|MAP CONFIG WMS_SMOOTHING 2 SYMBOL POINTS 1~2
2: FALSE is no value of FILLED, which takes TRUE alone|MAP CONFIG WMS_SMOOTHING 2 SYMBOL FILLED~FALSE
2: IMAGE needs a SYMBOL of TYPE PIXMAP|MAP CONFIG WMS_SMOOTHING 2 SYMBOL NAME a TYPE ELLIPSE POINTS 1 1 END FILLED TRUE IMAGE~b~END
2: this WMS_SMOOTHING smooths nothing, and a SYMBOL of TYPE ELLIPSE needs one above 1|MAP CONFIG WMS_SMOOTHING 2 SYMBOL NAME a TYPE ELLIPSE POINTS 1 1 END FILLED TRUE END CONFIG WMS_SMOOTHING~1 END
2: 257 is no value of SIZE, which takes a count from 1 to 256|MAP LAYER CLASS STYLE SIZE~257
2: 65 is no value of TOLERANCE, which takes a count from 0 to 64|MAP LAYER TOLERANCE~65
2: 65 is no value of BUFFER, which takes a count from 0 to 64|MAP LAYER CLASS LABEL BUFFER~65
2: 11 is no value of PRIORITY, which takes a count from 1 to 10|MAP LAYER CLASS LABEL PRIORITY~11
2: 4097 is no value of MINDISTANCE, which takes a count from -1 to 4096|MAP LAYER CLASS LABEL MINDISTANCE~4097
2: YES is no value of PARTIALS, which takes TRUE or FALSE|MAP LAYER CLASS LABEL PARTIALS~YES
2: 1e13 is no value of MINSCALEDENOM, which takes a number from -1000000000000 to 1000000000000|MAP LAYER MINSCALEDENOM~1e13
2: 1001 is no value of EXTENT, which takes a number from -1000 to 1000|MAP EXTENT~1001
2: -1001 is no value of EXTENT, which takes a number from -1000 to 1000|MAP EXTENT 1~-1001
2: red is no value of COLOR, which takes '#rrggbb' or three counts from -1 to 255|MAP LAYER CLASS STYLE COLOR~red
2: METERS is no value of TOLERANCEUNITS, which takes PIXELS alone|MAP LAYER TOLERANCEUNITS~METERS
2: OFF is no value of LABELCACHE, which takes ON alone|MAP LAYER LABELCACHE~OFF
2: this SYMBOL names no symbol of MAP|MAP LAYER NAME a TYPE POINT CLASS STYLE SYMBOL~b END END END~END
2: this OUTLINEWIDTH is no count from 1 to 8, which a smoothed map requires|MAP CONFIG WMS_SMOOTHING 2 LAYER NAME a TYPE POINT CLASS LABEL OUTLINEWIDTH~9 END END END~END
1: (a) is no value of NAME, which takes a word or a quoted text|MAP LAYER NAME (a)
2: x is no longitude in POINTS: a number from -1000 to 1000|MAP LAYER FEATURE POINTS 1 2~x
2: 1001 is no latitude in POINTS: a number from -1000 to 1000|MAP LAYER FEATURE POINTS 1 2 3~1001
2: (a) is no key of METADATA|MAP WEB METADATA a b~(a)
1: (f) is no value of CONFIG, which takes a word or a quoted text|MAP CONFIG LABELFONT (f)
2: \"LABELFONT a.b\" is no value of CONFIG, which takes a key: after LABELFONT and a space comes a name of letters, digits, - and _|MAP CONFIG~'LABELFONT a.b' f
2: image/gif is no value of CONFIG, which takes image/png, image/x-portable-pixmap and image/x-portable-arbitrarymap, with spaces between them|MAP CONFIG WMS_FORMATS~image/gif
2: EPSG:25832 is no value of CONFIG, which takes EPSG:3857 alone|MAP CONFIG WMS_CRS~EPSG:25832
2: CONFIG has no value|MAP CONFIG WMS_CRS~END
2: 5 is no value of CONFIG, which takes 1, 2, 3 or 4|MAP CONFIG WMS_SMOOTHING~5
2: the mapfile ends inside LAYER of line 2, which has no END|MAP~LAYER NAME a
3: the mapfile ends inside LAYER of line 2, which has no END|MAP~LAYER~NAME
7: the mapfile ends inside LABEL of line 5, which has no END|MAP~LAYER CLASS~style end~STYLE END~LABEL~COLOR 1 2~
4: the mapfile ends inside LEGEND of line 2, which has no END|MAP~LEGEND~LABEL END~
3: the mapfile ends inside POINTS of line 2, which has no END|MAP LAYER FEATURE~POINTS 1~
4: LAYER of line 3 has no TYPE|MAP~LAYER NAME a TYPE LINE END~LAYER NAME b~END
4: LAYER of line 3 has no NAME|MAP~LAYER NAME a TYPE LINE END~LAYER TYPE LINE~END
3: FEATURE of line 3 has no POINTS|MAP LAYER~FEATURE POINTS 1 2 END END~FEATURE TEXT a END
3: SYMBOL of line 2 has no NAME|MAP SYMBOL NAME a TYPE PIXMAP IMAGE b END~SYMBOL TYPE PIXMAP IMAGE b~END
3: SYMBOL of line 2 has no TYPE|MAP SYMBOL NAME a TYPE PIXMAP IMAGE b END~SYMBOL IMAGE b NAME c~END
3: SYMBOL of line 2 has no IMAGE|MAP SYMBOL NAME a TYPE PIXMAP IMAGE b END~SYMBOL NAME c~TYPE PIXMAP END
3: SYMBOL of line 2 has no POINTS|MAP CONFIG WMS_SMOOTHING 2~SYMBOL NAME c TYPE ELLIPSE FILLED TRUE~END
3: SYMBOL of line 2 has no FILLED|MAP CONFIG WMS_SMOOTHING 2~SYMBOL NAME c TYPE ELLIPSE POINTS 1 1 END~END
4: POINTS of line 3 has no vertex|MAP LAYER FEATURE~POINTS 1 2 END~POINTS~END
3: the last vertex of POINTS of line 2 has no latitude|MAP LAYER FEATURE~POINTS 1 2~3 END
2: NAME has no value|MAP LAYER~NAME END
2: wms_title has no value|MAP WEB METADATA a b wms_title~END
2: COLOR has too few values|MAP LAYER CLASS STYLE COLOR 1~END
2: POINTS has no value|MAP CONFIG WMS_SMOOTHING 2 SYMBOL POINTS~END
2: POINTS has too few values|MAP CONFIG WMS_SMOOTHING 2 SYMBOL POINTS 1~END
2: EXTENT has too few values|MAP EXTENT 1 2~END
2: SIZE lacks a value|MAP SIZE 9~END
4: CLASS of line 3 has one LABEL too many|MAP LAYER~CLASS LABEL END END~CLASS LABEL END~LABEL END
4: an earlier LAYER has the NAME b|MAP LAYER~NAME a TYPE LINE END~LAYER NAME b TYPE LINE END LAYER~NAME b TYPE LINE~END
2: ('[a]' = ) is no expression: nothing is read from ) on|MAP LAYER CLASS~EXPRESSION ('[a]' = )
2: ([a] > 1 AND [b] 2) is no expression: nothing is read from 2) on|MAP LAYER CLASS~EXPRESSION ([a] > 1 AND [b] 2)
2: a bracket that closes nothing|MAP~)
3: a control character|MAP~~a\u{1}b
1: the mapfile begins with a byte order mark: save it without one|\u{FEFF}MAP END
2: the quoted text, expression or list that begins here is not closed|MAP LAYER~NAME 'a
2: \"a?b?c\" is no keyword of MAP: the quoted text that begins in line 2 goes over its line's end|MAP~'a~b\tc'
1: 1234567890123456789012345678901234567890 is no keyword of MAP|MAP 1234567890123456789012345678901234567890
1: 1234567890123456789012345678901234567890.. is no keyword of MAP|MAP 12345678901234567890123456789012345678901
1: éééééééééééééééééééééééééééééééééééééééé.. is no keyword of MAP|MAP ééééééééééééééééééééééééééééééééééééééééé
# what MapServer has in a block, and what it hasn't
2: SYMBOLSET is MapServer's and isn't supported: write SYMBOL blocks into the mapfile|MAP~SYMBOLSET 'a.sym'
2: symbolset is MapServer's and isn't supported: write SYMBOL blocks into the mapfile|map~symbolset a
2: \"SYMBOLSET\" is no keyword of MAP|MAP~'SYMBOLSET' a
2: SYMBOLSET is no keyword of LAYER|MAP LAYER~SYMBOLSET a
2: include is MapServer's and isn't supported: write into the mapfile what that file has|MAP LAYER CLASS~include 'a.map'
2: CONNECTION is MapServer's and isn't supported: write FEATURE blocks into the LAYER, or name a file that ends in .csv by DATA|MAP LAYER~CONNECTION 'a'
2: FILTER is MapServer's and isn't supported: write an EXPRESSION into each CLASS|MAP LAYER~FILTER 'a'
2: MINSCALE is MapServer's and isn't supported: write MINSCALEDENOM|MAP LAYER~MINSCALE 1
2: OPACITY is MapServer's and isn't supported|MAP LAYER~OPACITY 50
2: COLOR is MapServer's and isn't supported: write it into a STYLE of the CLASS|MAP LAYER CLASS~COLOR 1 2 3
2: METADATA is MapServer's and isn't supported|MAP LAYER CLASS~METADATA 'a' 'b' END
2: ANGLE is MapServer's and isn't supported|MAP LAYER CLASS STYLE~ANGLE 30
2: TEXT is MapServer's and isn't supported: name an item by LABELITEM in the LAYER|MAP LAYER CLASS LABEL~TEXT 'a'
2: FILLED is MapServer's and isn't supported, but for a disc after a WMS_SMOOTHING above 1|MAP SYMBOL~FILLED TRUE
2: WKT is MapServer's and isn't supported: write POINTS blocks|MAP LAYER FEATURE~WKT 'a'
2: TEMPPATH is MapServer's and isn't supported|MAP WEB~TEMPPATH 'a'
2: OPAC is no keyword of LAYER|MAP LAYER~OPAC 50
2: /* begins a comment of MapServer, which isn't supported: begin each of its lines with #|MAP~/* a */
2: /*a*/ begins a comment of MapServer, which isn't supported: begin each of its lines with #|MAP LAYER~/*a*/
2: /a/ is no expression: regular expressions are MapServer's and aren't supported|MAP LAYER CLASS EXPRESSION~/a/
2: ('[a]' ~ 'b') is no expression: ~ is MapServer's and isn't supported|MAP LAYER CLASS EXPRESSION~('[a]' ^ 'b')
2: ('[a]' ~* 'b') is no expression: ~ is MapServer's and isn't supported|MAP LAYER CLASS EXPRESSION~('[a]' ^* 'b')
2: (1 = 2 OR '[a]' ~ 'b') is no expression: ~ is MapServer's and isn't supported|MAP LAYER CLASS EXPRESSION~(1 = 2 OR '[a]' ^ 'b')
# a `~` in a quoted text, in the name of an item, and after the fault is not the fault
2: ('[a]' = \"'~\" = ) is no expression: nothing is read from = ) on|MAP LAYER CLASS EXPRESSION~('[a]' = \"'^\" = )
2: ([a~b] = ) is no expression: nothing is read from ) on|MAP LAYER CLASS EXPRESSION~([a^b] = )
2: ([a~b] = 1 AND) is no expression: nothing is read from ) on|MAP LAYER CLASS EXPRESSION~([a^b] = 1 AND)
2: ([a] = OR '[b]' ~ 'c') is no expression: nothing is read from OR '[b]' ~ 'c') on|MAP LAYER CLASS EXPRESSION~([a] = OR '[b]' ^ 'c')
# a closing quote that is missing: another token stands behind the text on its last line, or the text is the fault or the last token
4: towns.csv is no keyword of LAYER: the quoted text that begins in line 3 goes over its line's end|MAP~LAYER~NAME 'towns~DATA 'towns.csv'~END END
5: towns.csv is no keyword of LAYER: the quoted text that begins in line 4 goes over its line's end|MAP NAME 'a~b'~LAYER~NAME 'towns~DATA 'towns.csv'~END END
7: e is no keyword of MAP: the quoted text that begins in line 2 goes over its line's end|MAP WEB METADATA~a 'b~c' d 1~END END~NAME 'x~y'~e
4: the quoted text, expression or list that begins here is not closed: the quoted text that begins in line 3 goes over its line's end|MAP~WEB METADATA~'wms_title' 'a~'wms_x' 'b'~END END END
2: \"2?COLOR \" is no value of WIDTH, which takes a count from 1 to 32: the quoted text that begins in line 2 goes over its line's end|MAP LAYER CLASS STYLE~WIDTH '2~COLOR '10 20 30'
3: the mapfile ends inside LAYER of line 1, which has no END: the quoted text that begins in line 2 goes over its line's end|MAP LAYER~NAME 'a~TYPE LINE END END'
# a text of two lines with nothing behind it, an expression of two lines, and a bad byte
3: COLOUR is no keyword of MAP|MAP NAME 'a~b'~COLOUR 1
2: x is no keyword of CLASS|MAP LAYER CLASS EXPRESSION ('[a]'~= 'b') x
2: a bracket that closes nothing|MAP NAME 'a~b' SIZE )";

#[test]
fn faults_are_explained(rt: HostRuntime) -> Result<(), TableFault> {
    check_rows(rt.alloc(), ROWS, '|', 118, explanation_of_row)
}

// The result for sources with a block, a vertex or an item more than a map may have.
const LIMITS: &str = "\
1: MAP of line 1 has more than 64 SYMBOL blocks|MAP {65*SYMBOL NAME a TYPE PIXMAP IMAGE b END }
2: LAYER of line 2 has more than 64 CLASS blocks|MAP~LAYER {65*CLASS END }
3: CLASS of line 2 has more than 16 STYLE blocks|MAP LAYER~CLASS~{17*STYLE END }
4: FEATURE of line 2 has more than 65536 vertices|MAP LAYER~FEATURE~POINTS~{65537*1 2 }
2: PROCESSING names more than 64 items|MAP LAYER PROCESSING~ITEMS=a{64*,b}
2: MAP of line 1 has more than 16 fonts with names|MAP CONFIG 'LABELFONT a' f CONFIG 'LABELFONT b' f CONFIG 'LABELFONT c' f CONFIG 'LABELFONT d' f CONFIG 'LABELFONT e' f CONFIG 'LABELFONT f' f CONFIG 'LABELFONT g' f CONFIG 'LABELFONT h' f CONFIG 'LABELFONT i' f CONFIG 'LABELFONT j' f CONFIG 'LABELFONT k' f CONFIG 'LABELFONT l' f CONFIG 'LABELFONT m' f CONFIG 'LABELFONT n' f CONFIG 'LABELFONT o' f CONFIG 'LABELFONT p' f CONFIG~'LABELFONT q' f";

#[test]
fn limits_are_explained(rt: HostRuntime) -> Result<(), TableFault> {
    check_rows(rt.alloc(), LIMITS, '|', 6, explanation_of_row)
}

// The result for 128 layers and one more.
fn explanation_after_layers(alloc: Global, end: &str) -> Result<String, AllocError> {
    let mut source = String::from_str(alloc, "MAP\n")?;
    for i in 1..=128 {
        write!(source, "LAYER NAME {i} TYPE LINE END\n")?;
    }
    source.push_str(end)?;
    explanation_of(alloc, source.as_str().as_bytes())
}

#[test]
fn a_layer_too_many_is_explained(rt: HostRuntime) -> Result<(), TableFault> {
    const ROW: &str = "130: MAP of line 1 has more than 128 LAYER blocks|LAYER";
    check_rows(rt.alloc(), ROW, '|', 1, explanation_after_layers)
}

// The result for a source of letters, each the byte of its number, in which `~` stands for the end of a line.
fn explanation_of_bytes(alloc: Global, letters: &str) -> Result<String, AllocError> {
    let mut source = Vec::new(alloc);
    for letter in letters.chars() {
        let letter = if letter == '~' { '\n' } else { letter };
        source.push(u8::try_from(u32::from(letter)).unwrap_or(b'?'))?;
    }
    explanation_of(alloc, &source)
}

// Sources with bytes that no token may have.
const BYTES: &str = "\
2: a bracket that closes nothing|MAP~) # a
2: a control character|MAP~NAME 'a\x7f'~END
2: a byte that is not UTF-8: convert the mapfile, as with iconv -f ISO-8859-1 -t UTF-8|MAP~NAME 'caf\u{e9}'~END
# a comment may have any bytes, after a fault on its line too
2: a bracket that closes nothing|MAP~) # caf\u{e9}
2: a bracket that closes nothing|MAP~} #\x01
2: a control character|MAP~a\x01 # caf\u{e9}
3: a bracket that closes nothing|MAP~# caf\u{e9} \x0b~)
sound|MAP # caf\u{e9}\x01\x0b\x7f~END
# a vertical tab is no separator, a form feed is one
2: a control character|MAP~NAME\x0b'a'
2: a control character|MAP~\x0b)
2: a bracket that closes nothing|MAP~\x0c)
# an e with an accent is two bytes of UTF-8
sound|MAP NAME 'caf\u{c3}\u{a9}' END
2: a bracket that closes nothing|MAP~NAME 'caf\u{c3}\u{a9}' )
# the first of several, further down than its token begins
3: a control character|MAP~NAME 'a~\x0b' )
3: a control character|MAP~NAME 'a~\x0b~\u{e9}'
3: a byte that is not UTF-8: convert the mapfile, as with iconv -f ISO-8859-1 -t UTF-8|MAP~NAME 'a~\u{e9}~\x0b'
2: a control character|MAP~NAME a\x01\u{e9} )";

#[test]
fn bytes_that_no_token_may_have_are_named(rt: HostRuntime) -> Result<(), TableFault> {
    check_rows(rt.alloc(), BYTES, '|', 17, explanation_of_bytes)
}
