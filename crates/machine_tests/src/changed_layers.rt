use crate::maps::layers_of;
use csvpoints::read;
use layers::{ChangeError, Layers};
use std::alloc::{AllocError, Global};
use test_tables::{TableFault, check_rows};

// Three layers, of which two have points: one of them none yet, the other one.
const LAYERS: &str = "\
MAP
  LAYER NAME roads TYPE LINE END
  LAYER NAME ports TYPE POINT PROCESSING \"ITEMS=name\" END
  LAYER NAME lights TYPE POINT FEATURE POINTS 7 8 END END END
END
";

// What becomes of a table that is appended to the layer of that name.
fn append(
    alloc: Global,
    layers: &mut Layers,
    name: &str,
    bytes: &str,
) -> Result<String, AllocError> {
    let Ok(table) = read(alloc, bytes.as_bytes(), "x", "y", 9) else {
        return format!(in alloc; "no table");
    };
    match layers.append(name.as_bytes(), table) {
        Ok(()) => format!(in alloc; "done"),
        Err(ChangeError::Refused(refusal)) => format!(in alloc; "{refusal}"),
        Err(ChangeError::NoMemory) => Err(AllocError),
    }
}

// How many features each of the layers has.
fn counts(alloc: Global, layers: &Layers) -> Result<String, AllocError> {
    let mut text = String::new(alloc);
    for layer in layers.map().get().layers.as_slice() {
        let count = format!(in alloc; " {}", layer.get().features.len())?;
        text.push_str(count.as_str())?;
    }
    Ok(text)
}

// The same of a row, the name of a layer and a table with `~` for its line ends, and how many features there are then.
fn appended(alloc: Global, row: &str) -> Result<String, AllocError> {
    let (name, table) = row.split_once(' ').unwrap_or((row, ""));
    let table = table.replace(alloc, '~', "\n")?;
    let mut layers = layers_of(alloc, LAYERS)?;
    let outcome = append(alloc, &mut layers, name, table.as_str())?;
    let counts = counts(alloc, &layers)?;
    format!(in alloc; "{outcome}:{counts}")
}

const APPENDS: &str = "\
done: 0 2 1=ports x,y,name~1,2,a~3,4,b~
done: 0 0 4=lights y,x~1,2~3,4~5,6~
done: 0 0 1=ports x,y~
no layer has this name: 0 0 1=Ports x,y~1,2~
the layer's features are not points: 0 0 1=roads x,y~1,2~";

#[test]
fn tables_are_appended_to_the_layer_of_their_name(rt: HostRuntime) -> Result<(), TableFault> {
    check_rows(rt.alloc(), APPENDS, '=', 5, appended)
}

// Which layer has a name, and of how many.
fn named(alloc: Global, name: &str) -> Result<String, AllocError> {
    let layers = layers_of(alloc, LAYERS)?;
    match layers.by_name(name.as_bytes()) {
        Some(index) => format!(in alloc; "{index} of {}", layers.len()),
        None => format!(in alloc; "none of {}", layers.len()),
    }
}

const NAMES: &str = "\
0 of 3=roads
1 of 3=ports
2 of 3=lights
none of 3=light
none of 3=LIGHTS
none of 3=";

#[test]
fn layers_are_found_by_their_names(rt: HostRuntime) -> Result<(), TableFault> {
    check_rows(rt.alloc(), NAMES, '=', 6, named)
}
