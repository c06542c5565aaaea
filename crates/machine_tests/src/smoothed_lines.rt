use crate::maps::machine_of;
use std::alloc::{AllocError, Global};
use test_tables::{TableFault, check_rows};

// A smoothed map of a wide line without length, near the lower left corner of its pixel.
const LINE: &str = "\
MAP
  CONFIG \"WMS_SMOOTHING\" \"4\"
  LAYER
    NAME l
    TYPE LINE
    TEMPLATE t
    TOLERANCE 0
    PROCESSING \"ITEMS=name\"
    CLASS
      STYLE
        COLOR 10 20 30
        WIDTH 3
      END
    END
    FEATURE ITEMS x POINTS 1.05 1.05 1.05 1.05 END END
  END
END
";

// The query for the features at a pixel of four degrees by four in four pixels by four.
const QUERY: &str =
    "VERSION=1.3.0&REQUEST=GetFeatureInfo&LAYERS=l&STYLES=&CRS=CRS:84&BBOX=0,0,4,4&WIDTH=4&HEIGHT=4\
&FORMAT=image/x-portable-pixmap&INFO_FORMAT=text/plain&QUERY_LAYERS=l&";

// The text for a pixel, its line ends as `~`.
fn clicked(alloc: Global, pixel: &str) -> Result<String, AllocError> {
    let machine = machine_of(alloc, LINE)?;
    let query = format!(in alloc; "{QUERY}{pixel}")?;
    let answer = machine.reply(query.as_str().as_bytes())?;
    let text = str::from_utf8(answer.body.as_slice()).unwrap_or("not UTF-8");
    text.replace(alloc, '\n', "~")
}

// The vertex lies in the pixel in column 1 and row 2, more than half a pixel from its centre: the line of width 1 covers it by
// its square. The round line is as wide as three pixels and reaches all pixels round that one, which no click finds.
const CLICKS: &str = "\
GetFeatureInfo results:~Layer 'l'~  Feature 0:~    name = 'x'~|I=1&J=2
GetFeatureInfo results:~|I=0&J=2
GetFeatureInfo results:~|I=1&J=3
GetFeatureInfo results:~|I=2&J=2";

#[test]
fn clicks_ask_about_stepped_lines(rt: HostRuntime) -> Result<(), TableFault> {
    check_rows(rt.alloc(), CLICKS, '|', 4, clicked)
}
