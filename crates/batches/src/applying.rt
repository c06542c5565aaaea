ghost use Rattle.std.specs.Prelude.{◌≡◌, ◌<◌, ◌≤◌, length, Ok, Err, OnOk, OnErr, IfErr, IfOk};
ghost use Rattle.batches.specs.Batch.{IsErrorOf, IsBatchErrorOf, IsTableAt, at_index, batch, applied};
ghost use Rattle.batches.specs.declared.command.Command.TheVariants.{Append};
ghost use Rattle.batches.specs.declared.fault.TheConstants.{MAX_BATCH};

use crate::{BatchError, BatchFault, BatchKind, Command, CommandError, first_command};
use csvpoints::{CsvError, Table, read};
use layers::{ChangeError, Draft, Layers};
use mapdefs::MAX_FEATURES;
use std::alloc::Global;

// The table of some bytes, read by the columns that the layer at an index names.
fn table_at(alloc: Global, draft: &Draft, index: usize, bytes: &[u8]) -> Result<Table, CommandError>
    requires { index < length draft.now.layers }
    ensures { IsTableAt draft.now index bytes.now result }
{
    let (x, y) = draft.coordinate_columns(index);
    match read(alloc, bytes, x, y, MAX_FEATURES as u32) {
        Ok(table) => Ok(table),
        Err(CsvError::Fault(fault)) => Err(CommandError::Fault(BatchKind::Csv(fault))),
        Err(CsvError::NoMemory) => Err(CommandError::NoMemory),
    }
}

// Adds the rows of a table, by its bytes, to a layer.
fn append(alloc: Global, draft: &mut Draft, name: &[u8], bytes: &[u8]) -> Result<(), CommandError>
    ensures done { OnOk result (applied (Append name.now bytes.now) draft.old ≡ Ok draft.new) }
    ensures failed { IfErr result (IsErrorOf (applied (Append name.now bytes.now) draft.old)) }
{
    let index = match draft.points_named(name) {
        Ok(index) => index,
        Err(refusal) => return Err(CommandError::Fault(BatchKind::Refused(refusal))),
    };
    let table = match table_at(alloc, draft, index, bytes) {
        Ok(table) => table,
        Err(error) => return Err(error),
    };
    match draft.append_at(index, table) {
        Ok(()) => Ok(()),
        Err(ChangeError::Refused(refusal)) => {
            Err(CommandError::Fault(BatchKind::Refused(refusal)))
        }
        Err(ChangeError::NoMemory) => Err(CommandError::NoMemory),
    }
}

/// Applies one command to a draft of the layers. After an error the draft may have any value.
pub fn apply_command(
    alloc: Global,
    draft: &mut Draft,
    command: &Command,
) -> Result<(), CommandError>
    ensures done { OnOk result (applied command.now draft.old ≡ Ok draft.new) }
    ensures failed { IfErr result (IsErrorOf (applied command.now draft.old)) }
{
    let done = match command {
        Command::On(name) => draft.switch(name.get(), true),
        Command::Off(name) => draft.switch(name.get(), false),
        Command::Clear(name) => draft.clear(name.get()),
        Command::Append(name, bytes) => return append(alloc, draft, name.get(), bytes.get()),
    };
    match done {
        Ok(()) => Ok(()),
        Err(refusal) => Err(CommandError::Fault(BatchKind::Refused(refusal))),
    }
}

// The fault of the batch where the command at an index has an error.
fn at_index(index: u64, error: CommandError) -> BatchError
    ensures { result ≡ at_index index error }
{
    match error {
        CommandError::Fault(kind) => BatchError::Fault(BatchFault { index, kind }),
        CommandError::NoMemory => BatchError::NoMemory,
    }
}

// Applies the commands of a batch to a draft, up to the first that fails. After an error the draft may have any
// value.
fn apply_commands(alloc: Global, draft: &mut Draft, bytes: &[u8]) -> Result<(), BatchError>
    requires { length bytes.now ≤ MAX_BATCH }
    ensures done { OnOk result (batch bytes.now draft.old ≡ Ok draft.new) }
    ensures failed { IfErr result (IsBatchErrorOf (batch bytes.now draft.old)) }
{
    let mut rest = bytes;
    let mut index = 1;
    while !rest.is_empty() {
        let (command, after) = match first_command(rest) {
            Ok(read) => read,
            Err(fault) => {
                let kind = BatchKind::Unread(fault);
                return Err(BatchError::Fault(BatchFault { index, kind }));
            }
        };
        match apply_command(alloc, draft, &command) {
            Ok(()) => {}
            Err(error) => return Err(at_index(index, error)),
        }
        rest = after;
        index += 1;
    }
    Ok(())
}

/// The layers after the commands of a batch, or its first fault.
///
/// The commands change a draft, so that the list and the index of a layer are made once, however many of them
/// change it. The draft has a list of layers of its own, since the given ones stay as they are.
pub fn after_batch(alloc: Global, layers: &Layers, bytes: &[u8]) -> Result<Layers, BatchError>
    requires { length bytes.now ≤ MAX_BATCH }
    ensures done { IfOk result (λ after. batch bytes.now layers.now ≡ Ok after) }
    ensures failed { IfErr result (IsBatchErrorOf (batch bytes.now layers.now)) }
{
    let mut draft = Draft::of(alloc, layers.copy()?)?;
    apply_commands(alloc, &mut draft, bytes)?;
    Ok(draft.into_layers()?)
}

/// Applies the commands of a batch, or gives its first fault. After an error the layers stay as they are.
pub fn apply_batch(alloc: Global, layers: &mut Layers, bytes: &[u8]) -> Result<(), BatchError>
    requires { length bytes.now ≤ MAX_BATCH }
    ensures done { OnOk result (batch bytes.now layers.old ≡ Ok layers.new) }
    ensures failed { IfErr result (IsBatchErrorOf (batch bytes.now layers.old)) }
    ensures kept { OnErr result (layers.new ≡ layers.old) }
{
    *layers = after_batch(alloc, layers, bytes)?;
    Ok(())
}
