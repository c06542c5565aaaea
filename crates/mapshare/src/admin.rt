ghost use Rattle.std.specs.Prelude.{◌≡◌, ◌↔◌, ◌⊎◌, ◌+◌, ◌≤◌, ◌<◌, ◌++◌, ℕ, List, [], drop, length, take};
ghost use Rattle.std.specs.Prelude.{IsSome, IfOk, IsErrOf, IsTrue, MatchBool, MatchResult, OnErr, OnOk};
ghost use Rattle.std.specs.VecDeque.{deque_len, deque_capacity};
ghost use Rattle.sharing.specs.Sharing.{after};
ghost use Rattle.batches.specs.Batch.{accepted};
ghost use Rattle.history.specs.declared.prefix.TheConstants.{MAX_HISTORY};
ghost use Rattle.journal.specs.Texts.{texts_of};
ghost use Rattle.keepers.specs.Crashes.{LeavesOnly};
ghost use Rattle.keepers.specs.declared.cause.LogCause.TheVariants.{Overtaken};
ghost use Rattle.mapshare.specs.Admin.{HasAccepted, HasRetried, HasSubmitted, IsAccepted, IsIdle, IsPublished, all_of, with_batch, with_batches};
ghost use Rattle.mapshare.specs.Kept.{HasKept, StandsWithAccepted, StandsWithOne};
ghost use Rattle.mapshare.specs.Queue.{IsChain};

use crate::checking::{Accepted, check, keep_and_copy};
use crate::receipt::Receipt;
use crate::replica::{Replica, ReplicaValue};
use crate::rule::{MapWriter, Moves, Ruled, Sharing, View};
use crossbeam_utils::rule::Protocol;
use history::{History, MAX_HISTORY, Prefix, Shown};
use keepers::{KeepFault, Keeps, LogCause, Nowhere};
use left_right::Absorb;
use mapmachine::{BatchError, BatchFault, Machine};
use std::alloc::{AllocError, Global};
use std::collections::VecDeque;
use std::marker::{Model, PhantomData};
use std::slice::from_ref;
use std::sync::Wait;

/// The result of submitting a batch.
#[derive(Drop)]
pub enum Submitted<S: Sharing> {
    /// Readers see it, with all that was pending.
    Published(Receipt<S>),
    /// It was accepted, and is the last that is pending: there was no memory to show it.
    Held,
    /// It has this first fault, and nothing has changed.
    Refused(BatchFault),
    /// Memory was refused, and nothing has changed.
    NoMemory,
}

/// The keeper of batches failed. How many of the batches are kept is unknown, and nothing was published.
#[derive(Clone, Copy, Debug, PartialEq, Eq)]
pub struct KeepFailed {
    /// Why it failed.
    pub cause: LogCause,
}

/// The result of publishing the pending batches.
#[derive(Drop)]
pub enum Retried<S: Sharing> {
    /// Nothing was pending.
    Idle,
    /// Readers see it.
    Published(Receipt<S>),
    /// There was no memory to show it.
    Held,
}

/// A history that has no batch yet, and its prefix, which is empty.
pub(crate) struct UnwrittenHistory<S: Sharing> {
    pub history: History<S>,
    pub prefix: Prefix<S>,
}

/// The administrator of a shared map whose batches are kept by a `K`: only one of that type can have it accept a batch, and none is
/// published that wasn't accepted so. Contracts see it as the batches that are published and pending.
pub struct Admin<S: Sharing, K>
where
    Replica<S>: Absorb<Replica<S>, State = ReplicaValue>,
    Ruled<S>: Protocol<Replica<S>, View>,
{
    writer: MapWriter<S>,
    history: History<S>,
    // The replicas that are pending and weren't handed to the writer yet.
    queue: VecDeque<Replica<S>>,
    // The machine after all accepted batches.
    checked: Machine,
    published: Prefix<S>,
    last: Prefix<S>,
    kept_by: PhantomData<K>,
}

impl<S: Sharing, K> Model for Admin<S, K>
where
    Replica<S>: Absorb<Replica<S>, State = ReplicaValue>,
    Ruled<S>: Protocol<Replica<S>, View>,
{
    ghost use Rattle.std.specs.Prelude.{◌≡◌, ◌++◌, Some, drop, length};
    ghost use Rattle.sharing.specs.Sharing.{after};
    ghost use Rattle.batches.specs.Batch.{accepted};
    ghost use Rattle.mapshare.specs.Admin.{Batches};
    ghost use Rattle.mapshare.specs.Queue.{IsChain};

    ghost Value = { Batches };

    ghost view = { λ a. record { published = a.published; pending = drop (length a.published) a.last } };

    ghost invariant = { λ a. (a.writer.desk.shown.value.prefix ≡ a.published)
        × IsChain S.opening a.published (drop a.writer.behind a.writer.log.items ++ a.queue.items) a.last
        × (after accepted S.opening a.last ≡ Some a.checked) };
}

// Shows readers all replicas of the writer, which end with the last prefix.
fn show_all<S: Sharing, R: Wait>(
    rt: &R,
    writer: MapWriter<S>,
    last: &Prefix<S>,
) -> (MapWriter<S>, Result<(), AllocError>)
    requires chain { IsChain S.opening writer.desk.shown.value.prefix (drop writer.behind writer.log.items) last.now }
    ensures prefix { OnOk result.1 (result.0.desk.shown.value.prefix ≡ last.now) }
    ensures none_left { OnOk result.1 (drop result.0.behind result.0.log.items ≡ []) }
    ensures held { OnErr result.1 ((result.0.desk.shown.value ≡ writer.desk.shown.value)
        × (drop result.0.behind result.0.log.items ≡ drop writer.behind writer.log.items)) }
{
    let _last = last;
    writer.publish_as::<Moves, R>(rt)
}

// Hands waiting replicas to the writer, as long as there is memory.
fn fill<S: Sharing>(writer: &mut MapWriter<S>, queue: &mut VecDeque<Replica<S>>) -> bool
    ensures desk { writer.new.desk ≡ writer.old.desk }
    ensures all { drop writer.new.behind writer.new.log.items ++ queue.new.items ≡ drop writer.old.behind writer.old.log.items ++ queue.old.items }
    ensures empty { IsTrue result → queue.new.items ≡ [] }
{
    while let Some(replica) = queue.pop_front() {
        if let Err(replica) = writer.append(replica) {
            queue.push_front_reserved(replica);
            return false;
        }
    }
    true
}

// How many more batches may be accepted; there is room for one replica more in the queue then.
fn room_for_one<S: Sharing>(queue: &mut VecDeque<Replica<S>>, last: &Prefix<S>) -> u64
    ensures items { queue.new.items ≡ queue.old.items }
    ensures reserved { 1 ≤ result → deque_len queue.new < deque_capacity queue.new }
    ensures history { 1 ≤ result → length last.now + result ≤ MAX_HISTORY }
{
    if queue.reserve(1).is_err() {
        return 0;
    }
    MAX_HISTORY.saturating_sub(last.len())
}

// Adds batches after a prefix, if this is all of the history, and returns whether it did.
fn add_all<S: Sharing>(prefix: &mut Prefix<S>, history: &History<S>, batches: &[Vec<u8>]) -> bool
    requires room { length prefix.old + length batches.now ≤ MAX_HISTORY }
    ensures { IsTrue result → prefix.new ≡ prefix.old ++ texts_of batches.now }
{
    for batch in batches {
        if !prefix.add(history, batch) {
            return false;
        }
    }
    true
}

// Shows readers all waiting replicas, which end with the last prefix, and returns whether it did.
fn show_waiting<S: Sharing, R: Wait>(
    rt: &R,
    mut writer: MapWriter<S>,
    queue: &mut VecDeque<Replica<S>>,
    last: &Prefix<S>,
) -> (MapWriter<S>, bool)
    requires chain { IsChain S.opening writer.desk.shown.value.prefix (drop writer.behind writer.log.items ++ queue.old.items) last.now }
    ensures shown { MatchBool result.1 (result.0.desk.shown.value.prefix ≡ last.now)
        (result.0.desk.shown.value.prefix ≡ writer.desk.shown.value.prefix) }
    ensures left { MatchBool result.1 (drop result.0.behind result.0.log.items ++ queue.new.items ≡ [])
        (drop result.0.behind result.0.log.items ++ queue.new.items ≡ drop writer.behind writer.log.items ++ queue.old.items) }
{
    if !fill(&mut writer, queue) {
        return (writer, false);
    }
    match show_all(rt, writer, last) {
        (writer, Ok(())) => (writer, true),
        (writer, Err(_)) => (writer, false),
    }
}

impl<S: Sharing, K> Admin<S, K> {
    // The administrator of a map that was just opened.
    pub(crate) fn new(
        alloc: Global,
        writer: MapWriter<S>,
        checked: Machine,
        unwritten: UnwrittenHistory<S>,
    ) -> Self
        requires machine { checked ≡ S.opening }
        requires empty { unwritten.prefix ≡ [] }
        requires shown { writer.desk.shown.value.prefix ≡ [] }
        requires none_left { drop writer.behind writer.log.items ≡ [] }
        ensures { result ≡ record { published = []; pending = [] } }
    {
        let UnwrittenHistory { history, prefix } = unwritten;
        Admin {
            writer,
            history,
            queue: VecDeque::new(alloc),
            checked,
            published: prefix.copy(),
            last: prefix,
            kept_by: PhantomData,
        }
    }

    /// All batches that were accepted, those that are pending too, in order.
    pub fn all(&self) -> Shown
        ensures all { result ≡ all_of self.now }
        ensures accepted { IsSome (after accepted S.opening result) }
    {
        self.last.shown()
    }

    // Whether nothing is pending.
    fn is_idle(&self) -> bool
        ensures { IsTrue result ↔ (self.now.pending ≡ []) }
    {
        self.last.len() == self.published.len()
    }

    // The receipt of all that is published, where nothing is pending.
    fn receipt(&self) -> Receipt<S>
        requires idle { self.now.pending ≡ [] }
        ensures { result ≡ self.now.published }
    {
        Receipt::new(self.published.copy(), self.checked.sequence())
    }

    // Shows readers all pending batches, and returns whether it did.
    fn publish<R: Wait>(self, rt: &R) -> (Self, bool)
        ensures { MatchBool result.1 (IsPublished self result.0.published result.0) (result.0 ≡ self) }
    {
        let Admin {
            writer,
            history,
            mut queue,
            checked,
            published,
            last,
            kept_by,
        } = self;
        let (writer, done) = show_waiting(rt, writer, &mut queue, &last);
        let admin = Admin {
            writer,
            history,
            queue,
            checked,
            published: if done { last.copy() } else { published },
            last,
            kept_by,
        };
        (admin, done)
    }

    /// Publishes the pending batches, if there are any. It waits for readers that still read the older copy.
    pub fn retry<R: Wait>(self, rt: &R) -> (Self, Retried<S>)
        ensures idle { self.pending ≡ [] → IsIdle result.1 }
        ensures retried { HasRetried self result.1 result.0 }
    {
        if self.is_idle() {
            return (self, Retried::Idle);
        }
        let (admin, done) = self.publish(rt);
        if done {
            let receipt = admin.receipt();
            return (admin, Retried::Published(receipt));
        }
        (admin, Retried::Held)
    }

    /// Ends the sharing: no reader enters any more. Pending batches are lost. It waits for readers that still read.
    pub fn close<R: Wait>(self, rt: &R) {
        let Admin {
            writer,
            history: _history,
            queue: _queue,
            checked: _checked,
            published: _published,
            last: _last,
            kept_by: _kept_by,
        } = self;
        let _edition = writer.take(rt);
    }
}

impl<S: Sharing, K: Keeps> Admin<S, K> {
    /// Accepts batches: each is checked in the state after all that were accepted before it. Those before the first that isn't accepted are kept, by
    /// one sync, and are the last that are pending then; `retry` publishes them. Where memory is refused, none of them may be accepted. Where none is
    /// accepted, the keeper isn't called.
    ///
    /// The error is that some of them may be kept, and that nothing was published. Nothing may be submitted after it.
    pub fn accept_kept(
        &mut self,
        keeper: &mut K,
        batches: &[Vec<u8>],
    ) -> Result<Accepted, KeepFailed>
        requires ready { (kept : List (List ℕ)) × K.keeps keeper.old kept }
        ensures accepted { IfOk result (λ accepted. HasAccepted S.opening self.old (texts_of batches.now) accepted self.new) }
        ensures failed { OnErr result ((count : ℕ) × (1 ≤ count) × (count ≤ length batches.now)
            × IsAccepted S.opening (with_batches (take count (texts_of batches.now)) self.old) × (self.new ≡ self.old)) }
        ensures kept { (kept : List (List ℕ)) → K.keeps keeper.old kept
            → IfOk result (λ accepted. K.keeps keeper.new (kept ++ take accepted.count (texts_of batches.now))) }
        ensures unkept { IfOk result (λ accepted. accepted.count ≡ 0 → keeper.new ≡ keeper.old) }

        // A crash at any moment leaves the batches, and after them the first of these, which are accepted.
        ensures any_moment { K.reliable → (kept : List (List ℕ)) → K.keeps keeper.old kept → LeavesOnly K.moment K.left_since keeper.old keeper.new
            (StandsWithAccepted S.opening self.old K.stands keeper.old kept (texts_of batches.now)) }
        ensures same_file { (file : List ℕ) (batches : List (List ℕ)) → K.stands keeper.new file batches → K.stands keeper.old file batches }

        // A call of the keeper failed, or its batches can't follow those of the history.
        ensures cause { (failed : KeepFailed) → IsErrOf result failed → K.fails failed.cause ⊎ (failed.cause ≡ Overtaken) }
    {
        let room = room_for_one(&mut self.queue, &self.last);
        let (accepted, last) = check(&self.checked, room, batches);
        let Some(checked) = last else {
            return Ok(accepted);
        };
        let first = &batches[..accepted.count];
        let machine = match keep_and_copy(&checked, keeper, first) {
            Ok(machine) => machine,
            Err(KeepFault::NoMemory) => return Ok(Accepted::out_of_memory()),
            Err(KeepFault::Failed(cause)) => return Err(KeepFailed { cause }),
        };
        let mut prefix = self.last.copy();
        if !add_all(&mut prefix, &self.history, first) {
            return Err(KeepFailed {
                cause: LogCause::Overtaken,
            });
        }
        let replica = Replica {
            machine,
            prefix: prefix.copy(),
        };
        self.queue.push_back_reserved(replica);
        self.checked = checked;
        self.last = prefix;
        Ok(accepted)
    }

    /// Submits a batch as `submit` does, and keeps it between its check and its publishing. One that is accepted is kept before
    /// anything is published or reported, and one that isn't accepted is never kept.
    ///
    /// The error is that the batch may be kept or not, and that nothing was published. Nothing may be submitted after it.
    pub fn submit_kept<R: Wait>(
        mut self,
        rt: &R,
        keeper: &mut K,
        batch: Vec<u8>,
    ) -> (Self, Result<Submitted<S>, KeepFailed>)
        requires ready { (batches : List (List ℕ)) × K.keeps keeper.old batches }
        ensures submitted { MatchResult result.1 (λ submitted. HasSubmitted S.opening self batch.items submitted result.0)
            (λ _. IsAccepted S.opening (with_batch batch.items self) × (result.0 ≡ self)) }

        // It is kept exactly where it is published or held.
        ensures kept { (batches : List (List ℕ)) → K.keeps keeper.old batches
            → IfOk result.1 (λ submitted. HasKept K.keeps keeper.old batches batch.items submitted keeper.new) }

        // A crash at any moment leaves the batches, with this one, where it is accepted, or without it.
        ensures any_moment { K.reliable → (batches : List (List ℕ)) → K.keeps keeper.old batches → LeavesOnly K.moment K.left_since keeper.old keeper.new
            (StandsWithOne S.opening self K.stands keeper.old batches batch.items) }
    {
        let refused = match self.accept_kept(keeper, from_ref(&batch)) {
            Ok(accepted) => accepted.refused,
            Err(failed) => return (self, Err(failed)),
        };
        match refused {
            None => {}
            Some(BatchError::Fault(fault)) => return (self, Ok(Submitted::Refused(fault))),
            Some(BatchError::NoMemory) => return (self, Ok(Submitted::NoMemory)),
        }
        let (admin, done) = self.publish(rt);
        if done {
            let receipt = admin.receipt();
            return (admin, Ok(Submitted::Published(receipt)));
        }
        (admin, Ok(Submitted::Held))
    }
}

impl<S: Sharing> Admin<S, Nowhere> {
    /// Submits a batch: it is checked in the state after all batches that were accepted. One without a fault is accepted, and
    /// then all pending batches are published at once. The call waits for readers that still read the older copy.
    pub fn submit<R: Wait>(self, rt: &R, batch: Vec<u8>) -> (Self, Submitted<S>)
        ensures submitted { HasSubmitted S.opening self batch.items result.1 result.0 }
    {
        let mut nowhere = Nowhere;
        match self.submit_kept(rt, &mut nowhere, batch) {
            (admin, Ok(submitted)) => (admin, submitted),
            (admin, Err(_)) => (admin, Submitted::NoMemory),
        }
    }
}
