use crate::results::{result_of, result_of_row};
use std::alloc::{AllocError, Global};
use test_tables::{TableFault, check_rows};

// Sources up to a limit, each with one that goes further, in the form of `result_of_row`.
const LIMITS: &str = "\
1 0 0 0 0:MAP|LAYER|TYPE POLYGON NAME|{65536*a} END END
4 Lex(TooLong):MAP|LAYER|TYPE POLYGON NAME|{65536*a}a
1 1 16 0 0:MAP|LAYER NAME a TYPE POLYGON|CLASS|{16*STYLE|END|}END END END
36 Limit:MAP|LAYER NAME a TYPE POLYGON|CLASS|{16*STYLE|END|}STYLE
# Styles are counted anew in each class.
1 64 128 0 0:MAP|LAYER NAME a TYPE POLYGON|{64*CLASS|STYLE END|STYLE END|END|}END END
260 Limit:MAP|LAYER NAME a TYPE POLYGON|{64*CLASS|STYLE END|STYLE END|END|}|CLASS
# Vertices are counted anew in each feature.
1 0 0 200000 400000:MAP|LAYER NAME a TYPE POLYGON|{200000*FEATURE POINTS 1 2 3 4 END|END|}END END
400003 Limit:MAP|LAYER NAME a TYPE POLYGON|{200000*FEATURE POINTS 1 2 3 4 END|END|}FEATURE
1 0 0 1 65536:MAP|LAYER NAME a TYPE POLYGON|FEATURE|POINTS|{65536*1 2|}END END END END
65541 Limit:MAP|LAYER NAME a TYPE POLYGON|FEATURE|POINTS|{65536*1 2|}3
# Many rings, of which the first has one vertex.
1 0 0 1 65536:MAP|LAYER NAME a TYPE POLYGON|FEATURE|POINTS 7 8 END|{21845*POINTS 1 2|3 4|5 6 END|}END END END
65541 Limit:MAP|LAYER NAME a TYPE POLYGON|FEATURE|POINTS 7 8 END|{21845*POINTS 1 2|3 4|5 6 END|}POINTS|9
# A vertex too many isn't read.
1 0 0 1 65536:MAP|LAYER NAME a TYPE POLYGON|FEATURE|{32768*POINTS 1 2 3 4 END|}END END END
32772 Limit:MAP|LAYER NAME a TYPE POLYGON|FEATURE|{32768*POINTS 1 2 3 4 END|}POINTS x
# POINTS without a vertex are no vertex too many.
1 0 0 1 65536:MAP|LAYER NAME a TYPE POLYGON|FEATURE|{32768*POINTS 1 2|3 4 END|}END END END
65540 MissingValue:MAP|LAYER NAME a TYPE POLYGON|FEATURE|{32768*POINTS 1 2|3 4 END|}POINTS END
# There is room for one longitude, and so for one latitude.
1 0 0 1 65536:MAP|LAYER NAME a TYPE POLYGON|FEATURE|POINTS|{65535*1 2|}3 4 END END END END
65542 Limit:MAP|LAYER NAME a TYPE POLYGON|FEATURE|POINTS|{65535*1 2|}3|4|5";

#[test]
fn limits_may_be_reached_and_not_passed(rt: HostRuntime) -> Result<(), TableFault> {
    check_rows(rt.alloc(), LIMITS, ':', 18, result_of_row)
}

// What comes after 128 layers.
const AFTER_LAYERS: &str = "\
128 128 128 128 128:END
259 Limit:# one more|LAYER";

// The result for 128 layers and what comes after them.
fn result_after_layers(alloc: Global, end: &str) -> Result<String, AllocError> {
    let end = end.replace(alloc, '|', "\n")?;
    let mut source = String::from_str(alloc, "MAP\n")?;
    for i in 1..=128 {
        write!(
            source,
            "LAYER NAME {i} TYPE POLYGON\nCLASS STYLE END END FEATURE POINTS 1 2 END END END\n"
        )?;
    }
    source.push_str(end.as_str())?;
    result_of(alloc, source.as_str())
}

#[test]
fn a_map_has_at_most_128_layers(rt: HostRuntime) -> Result<(), TableFault> {
    check_rows(rt.alloc(), AFTER_LAYERS, ':', 2, result_after_layers)
}
