use crate::maps::machine_of;
use mapmachine::Machine;
use std::alloc::{AllocError, Global};
use std::test::Fail;

// The ring of a square from 1 to 3 degrees, of 65,536 vertices: its left side has 65,533.
fn ring(alloc: Global) -> Result<String, AllocError> {
    let mut ring = String::new(alloc);
    for k in 0..65_533_u32 {
        let vertex = format!(in alloc; "1 {}e-6 ", 3_000_000 - 30 * k)?;
        ring.push_str(vertex.as_str())?;
    }
    ring.push_str("1 1 3 1 3 3 ")?;
    Ok(ring)
}

// A mapfile whose layers have the numbers from 0 to the last as their names, and that ring each. The blue of their
// colours is 30 more than their number.
fn mapfile(alloc: Global, last: u8) -> Result<String, AllocError> {
    let ring = ring(alloc)?;
    let mut mapfile = String::from_str(alloc, "MAP\n")?;
    for k in 0..=last.min(63) {
        let layer = format!(in alloc;
            "LAYER NAME \"{k}\" TYPE POLYGON CLASS STYLE COLOR 10 20 {} END END FEATURE POINTS {ring}END END END\n",
            30 + k
        )?;
        mapfile.push_str(layer.as_str())?;
    }
    mapfile.push_str("END\n")?;
    Ok(mapfile)
}

// The machine of that mapfile.
fn machine(alloc: Global, last: u8) -> Result<Machine, AllocError> {
    let mapfile = mapfile(alloc, last)?;
    machine_of(alloc, mapfile.as_str())
}

// The query for 64 layers: those from 0 to the last, and that one again for each that is missing.
fn query(alloc: Global, last: u8) -> Result<String, AllocError> {
    let mut names = String::from_str(alloc, "0")?;
    for k in 1..64_u8 {
        let name = format!(in alloc; ",{}", k.min(last))?;
        names.push_str(name.as_str())?;
    }
    format!(in alloc;
        "VERSION=1.3.0&REQUEST=GetMap&LAYERS={names}&STYLES=&CRS=CRS:84&BBOX=0,0,4,4&WIDTH=2048&HEIGHT=2048\
&FORMAT=image/x-portable-pixmap"
    )
}

// Whether a body shows the columns and the rows 512 to 1,535 in that blue, and all else white.
fn is_square(body: &[u8], blue: u8) -> bool {
    let Some(pixels) = body.strip_prefix(b"P6\n2048 2048\n255\n".as_slice()) else {
        return false;
    };
    for (at, pixel) in pixels.chunks(3).enumerate() {
        let (column, row) = (at % 2_048, at / 2_048);
        let is_in = (512..1_536).contains(&column) && (512..1_536).contains(&row);
        let colour = if is_in { [10, 20, blue] } else { [255; 3] };
        if pixel != colour.as_slice() {
            return false;
        }
    }
    pixels.len() == 3 * 2_048 * 2_048
}

// Whether the machine answers the query with that picture.
fn is_painted(alloc: Global, machine: &Machine, last: u8) -> Result<bool, AllocError> {
    let query = query(alloc, last)?;
    let answer = machine.reply(query.as_str().as_bytes())?;
    Ok(is_square(answer.body.as_slice(), last.saturating_add(30)))
}

// Whether the machine of the layers up to that one does.
fn is_answered(alloc: Global, last: u8) -> Result<bool, AllocError> {
    let machine = machine(alloc, last)?;
    is_painted(alloc, &machine, last)
}

#[test]
fn a_ring_of_65536_vertices_that_is_named_64_times_is_painted(rt: HostRuntime) -> Result<(), Fail> {
    assert!(rt; is_answered(rt.alloc(), 0)?);
    Ok(())
}

// A body that tests each edge for each pixel would make 2^44 tests.
#[test]
fn rings_of_64_layers_are_painted(rt: HostRuntime) -> Result<(), Fail> {
    assert!(rt; is_answered(rt.alloc(), 63)?);
    Ok(())
}
