use crate::results::result_of_row;
use test_tables::{TableFault, check_rows};

// Sources with a fault, in the form of `result_of_row`.
const FAULTS: &str = "\
# No token, and a first token other than the bare word MAP.
1 MissingEnd:
3 MissingEnd:|# a comment|\x20
1 UnknownWord:LAYER END
2 UnknownWord:|\"MAP\" END
# Lexical faults, on their own lines. A fault that stands before one is the first.
1 Lex(BadByte):)
1 Lex(OpenString):(
3 Lex(OpenString):MAP|LAYER|NAME \"a|END|END|
4 Lex(BadByte):MAP|LAYER|NAME \"a|b\x01\"|END|END
2 UnknownWord:MAP|FOO|(
3 Lex(BadByte):MAP END|# (|)
1 Lex(OpenString):MAP END 'a
# Tokens that are no keywords of their block.
2 UnknownWord:MAP|FOO 1|END
2 UnknownWord:MAP|TYPE \"a\"|END
2 UnknownWord:MAP|'||' FOO|END
2 UnknownWord:MAP|\"LAYER\"|END|END
2 UnknownWord:MAP|MAP|END|END
3 UnknownWord:MAP|LAYER|STYLE|END|END|END
5 UnknownWord:MAP|LAYER|NAME 'a||' NAME 'b' 'c'|END
2 UnknownWord:MAP LAYER CLASS|COLOR 0 0 0
2 UnknownWord:MAP LAYER FEATURE|STYLE
# Logical expressions are no keywords and no values.
1 UnknownWord:(MAP) END
2 UnknownWord:MAP LAYER|(END) END
2 UnknownWord:MAP END|()
2 WrongValue:MAP LAYER NAME|(a) TYPE POLYGON END END
# A token after the last END.
3 UnknownWord:MAP END|# more|END
1 UnknownWord:MAP END \"\"
# ENDs where values are expected. A quoted text is no END.
3 MissingValue:MAP|LAYER|NAME END
4 MissingValue:MAP|LAYER|NAME \"END\"|TYPE eNd
3 MissingValue:MAP LAYER CLASS STYLE COLOR|1 2|end
2 MissingValue:MAP LAYER CLASS STYLE OUTLINECOLOR|END
2 MissingValue:MAP LAYER FEATURE POINTS 1|END
2 MissingValue:MAP LAYER FEATURE POINTS|END
2 MissingValue:MAP LAYER TOLERANCE|END
2 MissingValue:MAP LAYER FEATURE TEXT|END
# ENDs before a required keyword or value.
4 MissingValue:MAP|LAYER|TYPE POLYGON|END|END
4 MissingValue:MAP|LAYER|NAME a|END|END
4 MissingValue:MAP|LAYER|FEATURE|END|END|END
3 MissingValue:MAP LAYER FEATURE|TEXT a|END
2 MissingValue:MAP LAYER NAME a TYPE POLYGON END LAYER NAME a|END
# Values that their keyword doesn't take.
3 WrongValue:MAP|LAYER|TYPE RASTER|END|END
2 WrongValue:MAP LAYER|TYPE POINTS
3 WrongValue:MAP LAYER|TYPE|''
2 WrongValue:MAP LAYER CLASS STYLE|COLOR 0 0 256
3 WrongValue:MAP LAYER CLASS STYLE|COLOR 0|-2 x
3 WrongValue:MAP LAYER CLASS STYLE|COLOR -1|red
2 WrongValue:MAP LAYER CLASS STYLE|COLOR '#00ff0'
2 WrongValue:MAP LAYER CLASS STYLE|COLOR '#00ff0g'
2 WrongValue:MAP LAYER CLASS STYLE|COLOR 1 '#000000'
2 WrongValue:MAP LAYER CLASS STYLE|COLOR 255.5 0 0
2 WrongValue:MAP LAYER CLASS STYLE|COLOR -1.5 0 0
2 WrongValue:MAP LAYER CLASS STYLE|COLOR 9999999999999 0 0
2 WrongValue:MAP LAYER CLASS STYLE|OUTLINECOLOR 0 256 0
3 WrongValue:MAP LAYER CLASS STYLE|OUTLINECOLOR|red
4 WrongValue:MAP LAYER CLASS STYLE|OUTLINECOLOR|-1|'#000000' 0
2 WrongValue:MAP LAYER CLASS STYLE|WIDTH 0
2 WrongValue:MAP LAYER CLASS STYLE|WIDTH 33
3 WrongValue:MAP LAYER CLASS STYLE|WIDTH|32.5
2 WrongValue:MAP LAYER CLASS STYLE|SIZE 0
2 WrongValue:MAP LAYER CLASS STYLE|SIZE 257
2 WrongValue:MAP LAYER CLASS STYLE|SIZE -1
2 WrongValue:MAP LAYER|TOLERANCE 65
2 WrongValue:MAP LAYER|TOLERANCE -1
2 WrongValue:MAP LAYER|TOLERANCE x
1 WrongValue:MAP LAYER FEATURE POINTS 1 x
2 WrongValue:MAP LAYER FEATURE POINTS|1000.000001 0
2 WrongValue:MAP LAYER FEATURE POINTS 0|-1000.000001
# Names that an earlier layer has, byte by byte: at the line of the last value.
7 DuplicateName:MAP|LAYER|NAME \"a\"|TYPE POLYGON|END|LAYER|NAME \"a\"|TYPE POLYGON|END|END|
4 DuplicateName:MAP LAYER NAME A TYPE POLYGON END LAYER NAME a TYPE POLYGON END|LAYER NAME b|NAME|A|TYPE POLYGON|END END
# The end of the source, after a quoted text that spans lines and a comment that ends one.
# In a smoothed map the width of an outline, as it counts, is judged at the END of MAP, after the symbols.
2 WrongValue:MAP CONFIG WMS_SMOOTHING 2 LAYER NAME a TYPE POINT CLASS LABEL|OUTLINEWIDTH 0 END END END END
4 WrongValue:MAP LAYER NAME a TYPE POINT CLASS LABEL OUTLINEWIDTH 1|OUTLINEWIDTH 2|OUTLINEWIDTH 3|OUTLINEWIDTH 8.6 END END END CONFIG WMS_SMOOTHING 4 END
2 WrongValue:MAP CONFIG WMS_SMOOTHING 3 LAYER NAME a TYPE POINT CLASS LABEL|OUTLINEWIDTH auto END END CLASS LABEL|OUTLINEWIDTH 9 END END END END
3 WrongValue:MAP CONFIG WMS_SMOOTHING 2 LAYER NAME a TYPE POINT CLASS LABEL|OUTLINEWIDTH 9 END STYLE SYMBOL|b END END END END
2 WrongValue:MAP LAYER CLASS LABEL OUTLINEWIDTH|(1)
1 MissingEnd:MAP
2 MissingEnd:MAP|
4 MissingEnd:MAP LAYER NAME '||' # END|
1 MissingEnd:MAP LAYER NAME
2 MissingEnd:MAP LAYER FEATURE POINTS 1|
2 MissingEnd:MAP LAYER NAME a TYPE POLYGON END|
2 Lex(BadByte):MAP LAYER NAME a TYPE POLYGON END END|}";

#[test]
fn faults_have_their_lines_and_kinds(rt: HostRuntime) -> Result<(), TableFault> {
    check_rows(rt.alloc(), FAULTS, ':', 80, result_of_row)
}

// Sources with a list, which is no keyword and no value.
const LISTS: &str = "\
2 UnknownWord:MAP|{LAYER} END
2 WrongValue:MAP LAYER TYPE|{POLYGON} END END
2 WrongValue:MAP LAYER NAME|{END} END
2 WrongValue:MAP LAYER CLASS STYLE COLOR|{1} 2 3
2 WrongValue:MAP LAYER CLASS STYLE COLOR 1|{2} 3
2 WrongValue:MAP LAYER CLASS STYLE COLOR 1 2|{3}
2 WrongValue:MAP LAYER CLASS STYLE COLOR|{#000000}
2 WrongValue:MAP LAYER FEATURE POINTS|{1} 2
2 WrongValue:MAP LAYER FEATURE POINTS 1|{2}
2 WrongValue:MAP LAYER FEATURE POINTS|{END} END";

#[test]
fn lists_are_no_keywords_and_no_values(rt: HostRuntime) -> Result<(), TableFault> {
    check_rows(rt.alloc(), LISTS, ':', 10, result_of_row)
}

// Blocks and values that may stand in a layer, likewise.
const READ: &str = "\
1 0 0 0 0:map layer name x type polygon|end end
1 1 1 0 0:map layer name x type polygon|class style color -1 0 0 end end|end end
1 2 2 0 0:map layer name x type polygon|CLASS END CLASS STYLE END STYLE END END|end end
1 1 1 0 0:map layer name x type polygon|CLASS STYLE COLOR '#00Ff7A' COLOR 1 2 3 END END|end end
1 1 1 0 0:map layer name x type polygon|CLASS STYLE COLOR \"254.6\" -0.4 0 END END|end end
1 0 0 0 0:map layer name x type polygon|NAME END2 NAME 'END' NAME POLYGON|end end
1 0 0 0 0:map layer name x type polygon|TYPE 'polygon' TYPE Polygon|end end
1 1 2 0 0:map layer name x type polygon|CLASS STYLE WIDTH 32 SIZE 256 END STYLE WIDTH 0.5 SIZE '1' END END TOLERANCE 64 TOLERANCE -0.4|end end
1 0 0 1 2:map layer name x type polygon|FEATURE POINTS -1000 1000 END POINTS '1' 2. END END|end end
1 0 0 2 2:map layer name x type polygon|FEATURE POINTS 1 2 END END FEATURE POINTS 1 2 END END|end end
1 0 0 0 0:map layer name x type polygon|# END||end end
1 0 0 0 0:map layer name x type polygon|TYPE|POLYGON|NAME|a|end end
1 0 0 0 0:map layer name x type polygon|NAME ''|end end
1 1 0 0 0:map config WMS_SMOOTHING 1 layer name x type polygon|CLASS LABEL OUTLINEWIDTH 9 OUTLINEWIDTH 'auto' END END|end end
1 1 0 0 0:map config WMS_SMOOTHING 4 layer name x type polygon|CLASS LABEL OUTLINEWIDTH 9 OUTLINEWIDTH 7.6 END END|end end";

#[test]
fn keywords_and_values_are_read(rt: HostRuntime) -> Result<(), TableFault> {
    check_rows(rt.alloc(), READ, ':', 15, result_of_row)
}
