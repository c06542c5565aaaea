use crate::maps::layers_of;
use batches::{
    BatchError, BatchKind, CommandError, MAX_BATCH, apply_batch, apply_command, count_of,
    first_command, line_len,
};
use layers::{Draft, Layers};
use std::alloc::{AllocError, Global};
use test_tables::{TableFault, check_rows};

// A layer of lines and one of two points.
const LAYERS: &str = "\
MAP
  LAYER NAME a TYPE LINE END
  LAYER NAME p TYPE POINT FEATURE POINTS 1 2 END END FEATURE POINTS 3 4 END END END
END
";

// Of each layer whether it is switched on, and how many features it has.
fn state(alloc: Global, layers: &Layers) -> Result<String, AllocError> {
    let mut text = String::new(alloc);
    for layer in layers.map().get().layers.as_slice() {
        let layer = layer.get();
        let switched = if layer.on { "on" } else { "off" };
        let layer = format!(in alloc; "{switched} {}, ", layer.features.len())?;
        text.push_str(layer.as_str())?;
    }
    Ok(text)
}

// What becomes of the layers by the first command of some bytes, and how many bytes are left.
fn after_first(alloc: Global, layers: Layers, bytes: &[u8]) -> Result<String, AllocError> {
    let (command, rest) = match first_command(bytes) {
        Ok(read) => read,
        Err(fault) => return format!(in alloc; "refused {}", BatchKind::Unread(fault).number()),
    };
    let mut draft = Draft::of(alloc, layers)?;
    match apply_command(alloc, &mut draft, &command) {
        Ok(()) => {
            let layers = draft.into_layers()?;
            let state = state(alloc, &layers)?;
            format!(in alloc; "{state}{} left", rest.len())
        }
        Err(CommandError::Fault(kind)) => format!(in alloc; "refused {}", kind.number()),
        Err(CommandError::NoMemory) => Err(AllocError),
    }
}

// The same of a row, which has `~` for its line ends.
fn after_command(alloc: Global, row: &str) -> Result<String, AllocError> {
    let bytes = row.replace(alloc, '~', "\n")?;
    let layers = layers_of(alloc, LAYERS)?;
    after_first(alloc, layers, bytes.as_str().as_bytes())
}

const COMMANDS: &str = "\
on 0, on 0, 5 left=CLEAR p~ON a~
off 0, on 2, 0 left=OFF a~
on 0, on 2, 1 left=ON p~~
on 0, on 3, 3 left=APPEND 8 p~x,y~5,6~ON 
refused 1=on a~
refused 2=ON b~
refused 3=CLEAR a~
refused 4=APPEND 4 p~x,z~
refused 6=ON a
refused 6=APPEND 9 p~x,y~5,6~";

#[test]
fn commands_change_their_layer(rt: HostRuntime) -> Result<(), TableFault> {
    check_rows(rt.alloc(), COMMANDS, '=', 10, after_command)
}

#[test]
fn counts_have_up_to_ten_digits(rt: HostRuntime) {
    let counts = [count_of(b"0000000042"), count_of(b"9999999999")];
    assert_eq!(rt; counts, [Some(42), Some(9_999_999_999)]);
    let none = [count_of(b"00000000042"), count_of(b""), count_of(b"4 ")];
    assert_eq!(rt; none, [None, None, None]);
    assert_eq!(rt;
        [line_len(b"ON a\nON b\n"), line_len(b"ON"), line_len(b"\n")],
        [4, 2, 0]
    );
}

// Adds a command. A text that is a number stands for one that appends so many points to `p`.
fn add_command(alloc: Global, batch: &mut String, text: &str) -> Result<(), AllocError> {
    let Ok(count) = text.parse::<u32>() else {
        batch.push_str(text)?;
        return batch.push('\n');
    };
    let bytes = 4 * u64::from(count) + 4;
    let line = format!(in alloc; "APPEND {bytes} p\nx,y\n")?;
    batch.push_str(line.as_str())?;
    for _point in 0..count {
        batch.push_str("0,0\n")?;
    }
    Ok(())
}

// The batch of commands with a plus between them.
fn batch_of(alloc: Global, commands: &str) -> Result<String, AllocError> {
    let mut batch = String::new(alloc);
    for text in commands.split('+') {
        add_command(alloc, &mut batch, text)?;
    }
    Ok(batch)
}

// What becomes of the layers by a batch.
fn after_batch(alloc: Global, layers: &mut Layers, batch: &[u8]) -> Result<String, AllocError> {
    if batch.len() > MAX_BATCH {
        return format!(in alloc; "too long");
    }
    match apply_batch(alloc, layers, batch) {
        Ok(()) => state(alloc, layers),
        Err(BatchError::Fault(fault)) => {
            format!(in alloc; "refused {} {}, ", fault.index, fault.kind.number())
        }
        Err(BatchError::NoMemory) => Err(AllocError),
    }
}

// The same of the batches of a row, one after the other, with bars between them.
fn after_batches(alloc: Global, row: &str) -> Result<String, AllocError> {
    let mut layers = layers_of(alloc, LAYERS)?;
    let mut text = String::new(alloc);
    for commands in row.split('|') {
        let batch = batch_of(alloc, commands)?;
        let next = after_batch(alloc, &mut layers, batch.as_str().as_bytes())?;
        text.push_str(next.as_str())?;
    }
    Ok(text)
}

const BATCHES: &str = "\
on 0, on 0, on 0, on 150000, on 0, on 0, =CLEAR p|150000|CLEAR p
refused 2 5, =150000+150000
on 0, on 200000, =199998
refused 1 5, =199999
off 0, on 4, =1+OFF a+1
refused 3 2, =ON a+OFF a+ON b
on 0, on 3, =1+CLEAR p+1+0+2
refused 3 5, =199997+1+1
refused 2 2, on 0, on 2, =5+ON b|ON a";

#[test]
fn batches_change_their_layers(rt: HostRuntime) -> Result<(), TableFault> {
    check_rows(rt.alloc(), BATCHES, '=', 9, after_batches)
}
