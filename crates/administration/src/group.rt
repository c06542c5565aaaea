ghost use Rattle.std.specs.Prelude.{◌≡◌, ◌≤◌, ◌++◌, [], ◌∷◌, ℕ, List, length, IfErr, IsTrue, OnErr, OnOk, Some};
ghost use Rattle.administration.specs.Commands.{Command, Submit, first_command};
ghost use Rattle.administration.specs.Reading.{HasReadGroup, IsHeldOf, IsOther};
ghost use Rattle.administration.specs.declared.group.TheConstants.{MAX_GROUP};
ghost use Rattle.journal.specs.Texts.{texts_of};

use crate::line::{ClientLine, MAX_LINE_BYTES, line_of};
use crate::reading::{ReadCommand, read_command};
use batches::line_len;
use std::alloc::Global;
use streams::BufferedSource;

/// The most batches that are kept by one sync.
pub const MAX_GROUP: usize = 64;

// A command that keeps no batch.
#[derive(Clone, Copy)]
pub(crate) enum Other {
    // To submit a batch, for whose bytes memory was refused.
    NoMemory,
    // To publish the pending batches.
    Retry,
    // No command.
    Malformed,
}

// What was read after some batches.
#[derive(Clone, Copy)]
pub(crate) enum Next {
    // Nothing.
    Nothing,
    // Another command.
    Command(Other),
    // The client ended, or its reader failed.
    End,
}

// Batches that came together, and what was read after them.
#[derive(Drop)]
pub(crate) struct Group {
    pub batches: Vec<Vec<u8>>,
    pub next: Next,
}

// Whether some bytes begin with a whole command to submit a batch.
fn starts_with_batch(bytes: &[u8]) -> bool
    ensures { IsTrue result → (batch rest : List ℕ) × (first_command bytes.now ≡ Some (Submit batch, rest)) }
{
    let (line, rest) = bytes.split_at(line_len(bytes));
    match rest {
        [_, rest @ ..] if line.len() < MAX_LINE_BYTES => match line_of(line) {
            ClientLine::Batch(count) => count <= rest.len(),
            ClientLine::Retry | ClientLine::Malformed => false,
        },
        _ => false,
    }
}

// Adds the batch that a command submits. Where it submits none, or memory is refused, it is another command.
fn add_batch(batches: &mut Vec<Vec<u8>>, asked: ReadCommand) -> Result<(), Other>
    ensures added { (command : Command) → IsHeldOf command asked
        → OnOk result ((batch : List ℕ) × (command ≡ Submit batch) × (texts_of batches.new.items ≡ texts_of batches.old.items ++ batch ∷ [])) }
    ensures other { (command : Command) → IsHeldOf command asked → IfErr result (λ other. IsOther command other) }
    ensures same { OnErr result (batches.new.items ≡ batches.old.items) }
{
    match asked {
        ReadCommand::Batch(Some(batch)) => batches.push(batch).map_err(|_| Other::NoMemory),
        ReadCommand::Batch(None) => Err(Other::NoMemory),
        ReadCommand::Retry => Err(Other::Retry),
        ReadCommand::Malformed => Err(Other::Malformed),
    }
}

// Reads the next command. If it is a batch, reads those batches that came with it, up to so many, and nothing that has to be waited for.
pub(crate) fn read_group<I: BufferedSource>(alloc: Global, reader: &mut I) -> Group
    ensures read { HasReadGroup (I.Source.left reader.old) (I.Source.left reader.new) (I.Source.take_failed reader.new)
        (texts_of result.batches.items) result.next }
    ensures few { length result.batches.items ≤ MAX_GROUP }
{
    let mut batches = Vec::new(alloc);
    for _ in 0..MAX_GROUP {
        let Some(asked) = read_command(alloc, reader) else {
            return Group {
                batches,
                next: Next::End,
            };
        };
        if let Err(other) = add_batch(&mut batches, asked) {
            return Group {
                batches,
                next: Next::Command(other),
            };
        }
        if !starts_with_batch(reader.buffer()) {
            break;
        }
    }
    Group {
        batches,
        next: Next::Nothing,
    }
}
