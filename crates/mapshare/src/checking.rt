//! Checking batches one after the other, and keeping those that are accepted.

ghost use Rattle.std.specs.Prelude.{◌≡◌, ◌≤◌, ◌++◌, ℕ, List, Some, Ok, Err, length, IfOk, IfErr, IsErrOf, OnOk, MatchOption};
ghost use Rattle.batches.specs.Batch.{IsBatchErrorOf, batched};
ghost use Rattle.batches.specs.declared.fault.BatchError.TheVariants.{NoMemory};
ghost use Rattle.journal.specs.Texts.{texts_of};
ghost use Rattle.keepers.specs.Crashes.{LeavesOnly, StandsWithFirst};
ghost use Rattle.keepers.specs.declared.cause.LogCause.{LogCause};
ghost use Rattle.keepers.specs.declared.keeps.KeepFault.TheVariants as keep_fault;
ghost use Rattle.mapshare.specs.Checking.{HasChecked, last_of};

use keepers::{KeepFault, Keeps};
use mapmachine::{BatchError, Machine};

/// How far some batches were accepted.
#[derive(Clone, Copy)]
pub struct Accepted {
    /// How many, from the first.
    pub count: usize,
    /// Why the next one isn't, if there is one.
    pub refused: Option<BatchError>,
}

impl Accepted {
    // None is accepted, since memory was refused.
    pub(crate) fn out_of_memory() -> Self
        ensures { result ≡ record { count = 0; refused = Some NoMemory } }
    {
        Accepted {
            count: 0,
            refused: Some(BatchError::NoMemory),
        }
    }
}

// The last machine, if there is one, or the first.
fn last_of<'a>(first: &'a Machine, last: &'a Option<Machine>) -> &'a Machine
    ensures { result.now ≡ last_of first.now last.now }
{
    match last {
        Some(last) => last,
        None => first,
    }
}

// The machine after one more batch, where there is room for it.
fn after_one(machine: &Machine, room: u64, batch: &[u8]) -> Result<Machine, BatchError>
    ensures accepted { IfOk result (λ next. batched batch.now machine.now ≡ Ok next) }
    ensures room { OnOk result (1 ≤ room) }
    ensures refused { IfErr result (IsBatchErrorOf (batched batch.now machine.now)) }
{
    if room == 0 {
        return Err(BatchError::NoMemory);
    }
    machine.after(batch)
}

// Checks batches, each in the state after those before it. It returns how many are accepted, no more than there is room for, and the machine
// after them, if there are any.
pub(crate) fn check(
    machine: &Machine,
    room: u64,
    batches: &[Vec<u8>],
) -> (Accepted, Option<Machine>)
    ensures checked { HasChecked machine.now (texts_of batches.now) result.0 (last_of machine.now result.1) }
    ensures some { MatchOption result.1 (result.0.count ≡ 0) (λ _. 1 ≤ result.0.count) }
    ensures room { result.0.count ≤ room }
{
    let mut last = None;
    for (count, batch) in batches.iter().enumerate() {
        let room_left = room - count as u64;
        match after_one(last_of(machine, &last), room_left, batch.as_slice()) {
            Ok(next) => last = Some(next),
            Err(error) => {
                let refused = Some(error);
                return (Accepted { count, refused }, last);
            }
        }
    }
    let count = batches.len();
    (
        Accepted {
            count,
            refused: None,
        },
        last,
    )
}

// Keeps batches, and returns a copy of the machine after them. The memory for the copy is taken before.
pub(crate) fn keep_and_copy<K: Keeps>(
    machine: &Machine,
    keeper: &mut K,
    batches: &[Vec<u8>],
) -> Result<Machine, KeepFault>
    requires ready { (kept : List (List ℕ)) × K.keeps keeper.old kept }
    ensures copied { IfOk result (λ copy. copy ≡ machine.now) }
    ensures kept { OnOk result ((kept : List (List ℕ)) → K.keeps keeper.old kept → K.keeps keeper.new (kept ++ texts_of batches.now)) }
    ensures any_moment { K.reliable → (kept : List (List ℕ)) → K.keeps keeper.old kept
        → LeavesOnly K.moment K.left_since keeper.old keeper.new (StandsWithFirst K.stands keeper.old kept (texts_of batches.now)) }
    ensures same_file { (file : List ℕ) (batches : List (List ℕ)) → K.stands keeper.new file batches → K.stands keeper.old file batches }
    ensures no_memory { result ≡ Err keep_fault.NoMemory → keeper.new ≡ keeper.old }
    ensures failed { (cause : LogCause) → IsErrOf result (keep_fault.Failed cause) → K.fails cause }
{
    let Ok(copy) = machine.copy() else {
        return Err(KeepFault::NoMemory);
    };
    match keeper.keep(batches) {
        Ok(()) => Ok(copy),
        Err(fault) => Err(fault),
    }
}
