use crate::maps::machine_of;
use std::alloc::{AllocError, Global};
use test_tables::{TableFault, check_rows};

// Two layers of points: one with three of them in one pixel, and one whose second lies there alone.
const LAYERS: &str = "\
MAP
  LAYER
    NAME p
    TYPE POINT
    TEMPLATE t
    TOLERANCE 0
    PROCESSING \"ITEMS=name\"
    CLASS END
    FEATURE ITEMS x POINTS 1.5 2.5 END END
    FEATURE ITEMS y POINTS 1.5 2.5 END END
    FEATURE ITEMS w POINTS 1.5 2.5 END END
  END
  LAYER
    NAME q
    TYPE POINT
    TEMPLATE t
    TOLERANCE 0
    PROCESSING \"ITEMS=kind\"
    CLASS END
    FEATURE ITEMS v POINTS 3.5 0.5 END END
    FEATURE ITEMS z POINTS 1.5 2.5 END END
  END
END
";

// The query for at most two features of each queried layer, at the pixel where they lie.
const QUERY: &str =
    "VERSION=1.3.0&REQUEST=GetFeatureInfo&LAYERS=p,q&STYLES=&CRS=CRS:84&BBOX=0,0,4,4&WIDTH=4&HEIGHT=4\
&FORMAT=image/x-portable-pixmap&INFO_FORMAT=text/plain&FEATURE_COUNT=2&I=1&J=1&QUERY_LAYERS=";

// How many bytes answer the query for these layers, and the text, its line ends as `~`.
fn answer_text(alloc: Global, names: &str) -> Result<String, AllocError> {
    let machine = machine_of(alloc, LAYERS)?;
    let query = format!(in alloc; "{QUERY}{names}")?;
    let answer = machine.reply(query.as_str().as_bytes())?;
    let body = answer.body.as_slice();
    let text = str::from_utf8(body).unwrap_or("not UTF-8");
    let text = text.replace(alloc, '\n', "~")?;
    format!(in alloc; "{} {text}", body.len())
}

// 24 bytes for the first line, 66 for a mention of p, and 38 for one of q.
const ANSWERS: &str = "\
90 GetFeatureInfo results:~Layer 'p'~  Feature 0:~    name = 'x'~  Feature 1:~    name = 'y'~|p
194 GetFeatureInfo results:~Layer 'p'~  Feature 0:~    name = 'x'~  Feature 1:~    name = 'y'~\
Layer 'q'~  Feature 1:~    kind = 'z'~\
Layer 'p'~  Feature 0:~    name = 'x'~  Feature 1:~    name = 'y'~|p,q,p
204 GetFeatureInfo results:~Layer 'q'~  Feature 1:~    kind = 'z'~\
Layer 'p'~  Feature 0:~    name = 'x'~  Feature 1:~    name = 'y'~\
Layer 'q'~  Feature 1:~    kind = 'z'~Layer 'q'~  Feature 1:~    kind = 'z'~|q,p,q,q";

#[test]
fn each_mention_of_a_layer_has_its_hits(rt: HostRuntime) -> Result<(), TableFault> {
    check_rows(rt.alloc(), ANSWERS, '|', 3, answer_text)
}
