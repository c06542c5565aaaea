use crate::maps::map_of;
use capabilities::document;
use std::alloc::{AllocError, Global};
use std::test::Fail;
use test_tables::{TableFault, check_rows};

// Two layers, of which the first is queryable.
const LAYERS: &str = "\
MAP
  EXTENT 1 -2.5 30 4
  WEB METADATA \"wms_title\" \"Sea & land\" \"wms_onlineresource\" \"http://a.example/?\" END END
  LAYER NAME sea TYPE POLYGON TEMPLATE t MAXSCALEDENOM 500 END
  LAYER NAME land TYPE POINT END
END
";

// Their document as the greatest sequence has it.
const DOCUMENT: &str = "\
<?xml version=\"1.0\" encoding=\"UTF-8\"?>
<WMS_Capabilities version=\"1.3.0\" updateSequence=\"18446744073709551615\" xmlns=\"http://www.opengis.net/wms\" xmlns:xlink=\"http://www.w3.org/1999/xlink\">
<Service>
<Name>WMS</Name>
<Title>Sea &amp; land</Title>
<OnlineResource xlink:type=\"simple\" xlink:href=\"http://a.example/?\"/>
<LayerLimit>64</LayerLimit>
<MaxWidth>2048</MaxWidth>
<MaxHeight>2048</MaxHeight>
</Service>
<Capability>
<Request>
<GetCapabilities>
<Format>text/xml</Format>
<DCPType><HTTP><Get><OnlineResource xlink:type=\"simple\" xlink:href=\"http://a.example/?\"/></Get></HTTP></DCPType>
</GetCapabilities>
<GetMap>
<Format>image/x-portable-pixmap</Format>
<Format>image/x-portable-arbitrarymap</Format>
<DCPType><HTTP><Get><OnlineResource xlink:type=\"simple\" xlink:href=\"http://a.example/?\"/></Get></HTTP></DCPType>
</GetMap>
<GetFeatureInfo>
<Format>text/plain</Format>
<DCPType><HTTP><Get><OnlineResource xlink:type=\"simple\" xlink:href=\"http://a.example/?\"/></Get></HTTP></DCPType>
</GetFeatureInfo>
</Request>
<Exception>
<Format>XML</Format>
</Exception>
<Layer>
<Title>Sea &amp; land</Title>
<CRS>CRS:84</CRS>
<CRS>EPSG:4326</CRS>
<EX_GeographicBoundingBox><westBoundLongitude>1.000000</westBoundLongitude><eastBoundLongitude>30.000000</eastBoundLongitude><southBoundLatitude>-2.500000</southBoundLatitude><northBoundLatitude>4.000000</northBoundLatitude></EX_GeographicBoundingBox>
<BoundingBox CRS=\"CRS:84\" minx=\"1.000000\" miny=\"-2.500000\" maxx=\"30.000000\" maxy=\"4.000000\"/>
<BoundingBox CRS=\"EPSG:4326\" minx=\"-2.500000\" miny=\"1.000000\" maxx=\"4.000000\" maxy=\"30.000000\"/>
<Layer queryable=\"1\">
<Name>sea</Name>
<Title>sea</Title>
<MaxScaleDenominator>500.000000</MaxScaleDenominator>
</Layer>
<Layer queryable=\"0\">
<Name>land</Name>
<Title>land</Title>
</Layer>
</Layer>
</Capability>
</WMS_Capabilities>
";

// Whether the map has that document.
fn has_document(alloc: Global) -> Result<bool, AllocError> {
    let map = map_of(alloc, LAYERS)?;
    let bytes = document(alloc, u64::MAX, &map)?;
    Ok(bytes.as_slice() == DOCUMENT.as_bytes())
}

#[test]
fn a_map_has_its_document(rt: HostRuntime) -> Result<(), Fail> {
    assert!(rt; has_document(rt.alloc())?);
    Ok(())
}

// The sides of the box in metres, as far as there is one, and the words of a MAP that offers web mercator. They are worked out
// from the ordinates of docs/DRAWING.md: a degree of the equator has 111319.490793273... metres.
const METRES: &str = "\
minx=\"111319.490793\" miny=\"-278387.114659\" maxx=\"3339584.723799\" maxy=\"445640.085477\"|EXTENT 1 -2.5 30 4
# to the square world in the south and in the north, and beyond it in the east
minx=\"-20037508.342790\" miny=\"-20037508.342790\" maxx=\"20037508.342790\" maxy=\"20037508.342790\"|EXTENT -180 -90 180 90
minx=\"-20037508.342790\" miny=\"-20037508.342790\" maxx=\"20037508.342790\" maxy=\"20037508.342790\"|
minx=\"16697923.618991\" miny=\"-6446275.825838\" maxx=\"23377093.066588\" maxy=\"0.000000\"|EXTENT 150 -50 210 0
minx=\"1113194.907932\" miny=\"-20037508.342790\" maxx=\"2226389.815866\" maxy=\"-20037507.340913\"|EXTENT 10 -86 20 -85.051128
# beyond the square world
nothing|EXTENT 10 86 20 89
nothing|EXTENT 10 -86 20 -85.051129";

// What stands between two texts of a document, or `nothing`.
fn between<'a>(text: &'a str, before: &str, after: &str) -> &'a str {
    match text.split_once(before) {
        Some((_, rest)) => match rest.split_once(after) {
            Some((part, _)) => part,
            None => "nothing",
        },
        None => "nothing",
    }
}

fn metres_of(alloc: Global, words: &str) -> Result<String, AllocError> {
    let mapfile = format!(in alloc; "MAP CONFIG WMS_CRS EPSG:3857 {words} END")?;
    let map = map_of(alloc, mapfile.as_str())?;
    let bytes = document(alloc, 0, &map)?;
    match str::from_utf8(bytes.as_slice()) {
        Ok(text) => String::from_str(
            alloc,
            between(text, "<BoundingBox CRS=\"EPSG:3857\" ", "/>"),
        ),
        Err(_) => String::from_str(alloc, "not UTF-8"),
    }
}

#[test]
fn maps_have_their_box_in_metres(rt: HostRuntime) -> Result<(), TableFault> {
    check_rows(rt.alloc(), METRES, '|', 7, metres_of)
}
