ghost use Rattle.std.specs.Prelude.{◌≡◌, ◌≤◌, ◌<◌, ◌+◌, ◌++◌, ◌∷◌, [], length, OnOk, OnErr, MatchResult, true};
ghost use Rattle.streams.specs.Sent.{IsSent, IsCutSomewhere};
ghost use Rattle.administration.specs.Keeping.{accepted_results, results_of};
ghost use Rattle.administration.specs.Serving.{lines_of};
ghost use Rattle.administration.specs.declared.group.TheConstants.{MAX_GROUP};

use crate::done::{Done, send_line};
use crate::group::MAX_GROUP;
use batches::BatchError;
use std::marker::Model;
use streams::{PutFailed, Sink};

// How far some batches are done, from the first.
#[derive(Clone, Copy)]
pub(crate) struct Front {
    // How many were accepted.
    pub(crate) accepted: usize,
    // The sequence after the last of them, where they are published.
    pub(crate) sequence: Option<u64>,
    // Why the next one isn't accepted, if there is one.
    pub(crate) refused: Option<BatchError>,
}

// The result of an accepted batch that so many follow.
fn accepted_result(sequence: Option<u64>, left: usize) -> Done
    ensures { accepted_results sequence (left + 1) ≡ result ∷ accepted_results sequence left }
{
    match sequence {
        Some(last) => Done::Published(last.saturating_sub(left as u64)),
        None => Done::Held,
    }
}

// The results of batches that were submitted together.
#[derive(Drop)]
pub(crate) struct Results {
    room: [Done; MAX_GROUP],
    count: usize,
}

impl Model for Results {
    ghost use Rattle.std.specs.Prelude.{List, ◌≤◌, take};
    ghost use Rattle.administration.specs.declared.done.Done.{Done};
    ghost use Rattle.administration.specs.declared.group.TheConstants.{MAX_GROUP};

    ghost Value = { List Done };

    ghost view = { λ r. take r.count r.room };

    ghost invariant = { λ r. r.count ≤ MAX_GROUP };
}

impl Results {
    // None yet.
    pub(crate) fn new() -> Self
        ensures { result ≡ [] }
    {
        Results {
            room: [Done::Idle; MAX_GROUP],
            count: 0,
        }
    }

    // The results.
    pub(crate) fn as_slice(&self) -> &[Done]
        ensures { result.now ≡ self.now }
    {
        &self.room[..self.count]
    }

    // Adds one.
    pub(crate) fn push(&mut self, done: Done)
        requires { length self.old < MAX_GROUP }
        ensures { self.new ≡ self.old ++ done ∷ [] }
    {
        self.room[self.count] = done;
        self.count += 1;
    }

    // Adds the results of batches that were accepted together.
    fn add_accepted(&mut self, sequence: Option<u64>, count: usize)
        requires { length self.old + count ≤ MAX_GROUP }
        ensures { self.new ≡ self.old ++ accepted_results sequence count }
    {
        for left in (0..count).rev() {
            self.push(accepted_result(sequence, left));
        }
    }

    // Adds the results of some batches.
    pub(crate) fn add(&mut self, front: Front)
        requires { length self.old + length (results_of front) ≤ MAX_GROUP }
        ensures { self.new ≡ self.old ++ results_of front }
    {
        self.add_accepted(front.sequence, front.accepted);
        match front.refused {
            Some(BatchError::Fault(fault)) => self.push(Done::Refused(fault)),
            Some(BatchError::NoMemory) => self.push(Done::NoMemory),
            None => {}
        }
    }
}

// Writes the lines that report the results.
pub(crate) fn send_results<O: Sink>(writer: &mut O, results: &Results) -> Result<(), PutFailed>
    ensures sent { OnOk result (IsSent O.held O.taken writer.old (lines_of results.now) writer.new) }
    ensures cut { OnErr result (IsCutSomewhere O.held O.taken writer.old (lines_of results.now) writer.new) }
    ensures flag { MatchResult result (λ _. O.put_failed writer.new ≡ O.put_failed writer.old) (λ _. O.put_failed writer.new ≡ true) }
{
    for done in results.as_slice() {
        send_line(writer, *done)?;
    }
    Ok(())
}
