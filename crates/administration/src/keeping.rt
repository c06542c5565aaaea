//! Serving a client whose batches are kept.

ghost use Rattle.std.specs.Prelude.{◌≡◌, ◌≢◌, ◌≤◌, ◌-◌, ◌++◌, ℕ, List, [], length, take, IfErr, IfOk, IfSome, IsErrOf, MatchOption, MatchResult, OnErr, OnOk, Err, false, true};
ghost use Rattle.std.specs.Result.{is_err};
ghost use Rattle.streams.specs.Sent.{IsSent, IsCutSomewhere};
ghost use Rattle.streams.specs.Sides.{sides_view};
ghost use Rattle.journal.specs.Texts.{texts_of};
ghost use Rattle.mapshare.specs.Admin.{Batches, all_of};
ghost use Rattle.administration.specs.Commands.{Command};
ghost use Rattle.administration.specs.Keeping.{HasFailed, IsCause, IsCutShort, IsFailed, IsKeptSince, IsReported, NoneLost, failed_lines, results_of};
ghost use Rattle.administration.specs.Reading.{IsOther};
ghost use Rattle.administration.specs.Serving.{ArePublished, AreSubmitted, HasAdministered, HasDone, attended, lines_of};
ghost use Rattle.administration.specs.declared.group.TheConstants.{MAX_GROUP};
ghost use Rattle.administration.specs.declared.keeping.AdministerFault.TheVariants as fault;
ghost use Rattle.keepers.specs.declared.cause.LogCause.{LogCause};

use crate::client::Client;
use crate::done::{Done, send_line};
use crate::group::{Group, Next, Other, read_group};
use crate::results::{Front, Results, send_results};
use crate::serving::publish;
use keepers::{Keeps, LogCause};
use mapshare::{Accepted, Admin, KeepFailed, Retried, Sharing};
use std::sync::Wait;
use streams::{BufferedSource, Sink, Source, put_all};

/// Why a client isn't served to its end.
#[derive(Clone, Copy, Debug, PartialEq, Eq)]
pub enum AdministerFault {
    /// The writer failed. The commands that were read are done, although their lines weren't written, or not all of them.
    PutFailed,
    /// The keeper of batches failed, for this cause, and the client was sent `FAILED` for each batch that it may not have kept. The service
    /// has to stop.
    KeepFailed(LogCause),
}

// Publishes the pending batches, where some were just accepted, and returns the sequence after them. There is none where there was no memory.
fn publish_accepted<S: Sharing, K, R: Wait>(
    rt: &R,
    admin: Admin<S, K>,
    accepted: usize,
) -> (Admin<S, K>, Option<u64>)
    requires pending { 1 ≤ accepted → admin.pending ≢ [] }
    ensures published { MatchOption result.1 (result.0 ≡ admin) (λ sequence. ArePublished S.opening (all_of admin) sequence result.0) }
    ensures some { IfSome result.1 (λ _. 1 ≤ accepted) }
{
    if accepted == 0 {
        return (admin, None);
    }
    match admin.retry(rt) {
        (admin, Retried::Published(receipt)) => (admin, Some(receipt.sequence())),
        (admin, Retried::Held | Retried::Idle) => (admin, None),
    }
}

// Keeps the first of some batches, up to the first that isn't accepted, and publishes them, where there are any.
fn accept<S: Sharing, K: Keeps, R: Wait>(
    rt: &R,
    mut admin: Admin<S, K>,
    keeper: &mut K,
    batches: &[Vec<u8>],
) -> (Admin<S, K>, Result<Front, KeepFailed>)
    requires ready { (kept : List (List ℕ)) × K.keeps keeper.old kept }
    ensures some { IfOk result.1 (λ front. 1 ≤ length batches.now → 1 ≤ length (results_of front)) }
    ensures few { IfOk result.1 (λ front. length (results_of front) ≤ length batches.now) }
    ensures done { MatchResult result.1
        (λ front. AreSubmitted S.opening admin (take (length (results_of front)) (texts_of batches.now)) (results_of front) result.0)
        (λ _. HasFailed S.opening admin (texts_of batches.now) × (result.0 ≡ admin)) }
    ensures kept { (kept : List (List ℕ)) → K.keeps keeper.old kept → OnOk result.1 (IsKeptSince K.keeps admin kept result.0 keeper.new) }
    ensures crash { NoneLost ⟦<K as Keeps>⟧ S.opening admin keeper.old result.0 keeper.new }
    ensures cause { IfErr result.1 (λ failed. IsCause K.fails failed.cause) }
{
    let Accepted { count, refused } = match admin.accept_kept(keeper, batches) {
        Ok(accepted) => accepted,
        Err(failed) => return (admin, Err(failed)),
    };
    let (admin, sequence) = publish_accepted(rt, admin, count);
    let front = Front {
        accepted: count,
        sequence,
        refused,
    };
    (admin, Ok(front))
}

// Does all batches of a group. Where the keeper fails, the results are those of the batches before.
fn accept_all<S: Sharing, K: Keeps, R: Wait>(
    rt: &R,
    mut admin: Admin<S, K>,
    keeper: &mut K,
    batches: &[Vec<u8>],
) -> (Admin<S, K>, Results, Result<(), KeepFailed>)
    requires few { length batches.now ≤ MAX_GROUP }
    requires ready { (kept : List (List ℕ)) × K.keeps keeper.old kept }
    ensures done { OnOk result.2 (AreSubmitted S.opening admin (texts_of batches.now) result.1 result.0) }
    ensures failed { OnErr result.2 ((first failed : List (List ℕ)) × (texts_of batches.now ≡ first ++ failed)
        × AreSubmitted S.opening admin first result.1 result.0 × HasFailed S.opening result.0 failed) }
    ensures kept { (kept : List (List ℕ)) → K.keeps keeper.old kept → OnOk result.2 (IsKeptSince K.keeps admin kept result.0 keeper.new) }
    ensures crash { NoneLost ⟦<K as Keeps>⟧ S.opening admin keeper.old result.0 keeper.new }
    ensures cause { IfErr result.2 (λ failed. IsCause K.fails failed.cause) }
{
    let mut results = Results::new();
    let mut rest = batches;
    while !rest.is_empty() {
        let (after, front) = accept(rt, admin, keeper, rest);
        admin = after;
        match front {
            Ok(front) => results.add(front),
            Err(failed) => return (admin, results, Err(failed)),
        }
        rest = &batches[results.as_slice().len()..];
    }
    (admin, results, Ok(()))
}

// Does a command that keeps no batch.
fn perform_other<S: Sharing, K, R: Wait>(
    rt: &R,
    admin: Admin<S, K>,
    other: Other,
) -> (Admin<S, K>, Done)
    ensures done { (command : Command) → IsOther command other → HasDone S.opening admin command result.1 result.0 }
    ensures same { all_of result.0 ≡ all_of admin }
{
    match other {
        Other::NoMemory => (admin, Done::NoMemory),
        Other::Retry => publish(rt, admin),
        Other::Malformed => (admin, Done::Malformed),
    }
}

// Writes the lines that report the results, and a line for each batch that the keeper failed to keep, as far as the writer takes them.
fn send_failures<O: Sink>(writer: &mut O, results: &Results, failed: usize)
    ensures { IsReported O.held O.taken writer.old (lines_of results.now ++ failed_lines failed) writer.new }
{
    if send_results(writer, results).is_err() {
        return;
    }
    for _ in 0..failed {
        if put_all(writer, b"FAILED\n").is_err() {
            return;
        }
    }
}

// Writes the lines that report the results of the first of so many batches. Where the keeper failed, each of the others gets a line, too.
fn report<O: Sink>(
    writer: &mut O,
    results: &Results,
    batches: usize,
    kept: Result<(), KeepFailed>,
) -> Result<(), AdministerFault>
    requires few { length results.now ≤ batches }
    ensures sent { OnOk result ((is_err kept ≡ false) × IsSent O.held O.taken writer.old (lines_of results.now) writer.new) }
    ensures cut { IsErrOf result fault.PutFailed
        → (is_err kept ≡ false) × IsCutSomewhere O.held O.taken writer.old (lines_of results.now) writer.new }
    ensures failed { (cause : LogCause) → IsErrOf result (fault.KeepFailed cause)
        → (kept ≡ Err (record { cause = cause }))
        × IsReported O.held O.taken writer.old (lines_of results.now ++ failed_lines (batches - length results.now)) writer.new }
    ensures flag { MatchResult result (λ _. O.put_failed writer.new ≡ O.put_failed writer.old)
        (λ why. why ≡ fault.PutFailed → O.put_failed writer.new ≡ true) }
{
    if let Err(KeepFailed { cause }) = kept {
        send_failures(writer, results, batches - results.as_slice().len());
        return Err(AdministerFault::KeepFailed(cause));
    }
    send_results(writer, results).map_err(|_| AdministerFault::PutFailed)
}

/// Serves a client as `administer` does, and keeps each batch before it is published. Batches that came together are kept by one sync, and are published
/// together, before the lines of all are written. Where the keeper fails, the client is sent `FAILED` for each batch that it may not have kept, and is
/// served no more.
pub fn administer_kept<S: Sharing, K: Keeps, R: AllocGlobal + Wait, I: BufferedSource, O: Sink>(
    rt: &R,
    mut admin: Admin<S, K>,
    keeper: &mut K,
    client: &mut Client<I, O>,
) -> (Admin<S, K>, Result<(), AdministerFault>)
    requires ready { (kept : List (List ℕ)) × K.keeps keeper.old kept }
    ensures served { OnOk result.1
        (HasAdministered S.opening (sides_view ⟦<I as Source>⟧ ⟦<O as Sink>⟧) (attended client.old admin) (attended client.new result.0)) }
    ensures stopped { IsErrOf result.1 fault.PutFailed
        → IsCutShort S.opening (sides_view ⟦<I as Source>⟧ ⟦<O as Sink>⟧) (attended client.old admin) (attended client.new result.0) }
    ensures failed { (cause : LogCause) → IsErrOf result.1 (fault.KeepFailed cause)
        → IsFailed S.opening (sides_view ⟦<I as Source>⟧ ⟦<O as Sink>⟧) (attended client.old admin) (attended client.new result.0) }

    // All accepted batches are kept, unless the keeper failed.
    ensures kept { (kept : List (List ℕ)) → K.keeps keeper.old kept → MatchResult result.1
        (λ _. IsKeptSince K.keeps admin kept result.0 keeper.new)
        (λ why. why ≡ fault.PutFailed → IsKeptSince K.keeps admin kept result.0 keeper.new) }

    // A crash at any moment leaves those that were kept, and some that are accepted after them.
    ensures crash { NoneLost ⟦<K as Keeps>⟧ S.opening admin keeper.old result.0 keeper.new }
    ensures cause { (cause : LogCause) → IsErrOf result.1 (fault.KeepFailed cause) → IsCause K.fails cause }
    ensures flag { MatchResult result.1 (λ _. O.put_failed client.new.writer ≡ O.put_failed client.old.writer)
        (λ why. why ≡ fault.PutFailed → O.put_failed client.new.writer ≡ true) }
{
    for _ in rt.forever() {
        let Group { batches, next } = read_group(rt.alloc(), &mut client.reader);
        let (after, results, kept) = accept_all(rt, admin, keeper, batches.as_slice());
        admin = after;
        if let Err(fault) = report(&mut client.writer, &results, batches.len(), kept) {
            return (admin, Err(fault));
        }
        let other = match next {
            Next::Nothing => continue,
            Next::End => return (admin, Ok(())),
            Next::Command(other) => other,
        };
        let (after, done) = perform_other(rt, admin, other);
        admin = after;
        if send_line(&mut client.writer, done).is_err() {
            return (admin, Err(AdministerFault::PutFailed));
        }
        if done.ends() {
            return (admin, Ok(()));
        }
    }
    unreachable!()
}
