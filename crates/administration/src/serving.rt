ghost use Rattle.std.specs.Prelude.{◌≡◌, ℕ, List, OnOk, OnErr, MatchResult, true};
ghost use Rattle.streams.specs.Sides.{sides_view};
ghost use Rattle.mapshare.specs.Admin.{Batches, all_of};
ghost use Rattle.administration.specs.Commands.{Command, Publish, Submit, first_command};
ghost use Rattle.administration.specs.Reading.{IsHeldOf};
ghost use Rattle.administration.specs.Serving.{HasAdministered, HasDone, IsStopped, attended, done_of};
ghost use Rattle.administration.specs.declared.done.Done.{Done};

use crate::client::Client;
use crate::done::{Done, send_line};
use crate::reading::{ReadCommand, read_command};
use keepers::Nowhere;
use mapshare::{Admin, Retried, Sharing, Submitted};
use std::sync::Wait;
use streams::{PutFailed, Sink, Source};

// The result of a batch that was submitted.
fn done_of<S: Sharing>(submitted: Submitted<S>) -> Done
    ensures { result ≡ done_of S.opening submitted }
{
    match submitted {
        Submitted::Published(receipt) => Done::Published(receipt.sequence()),
        Submitted::Held => Done::Held,
        Submitted::Refused(fault) => Done::Refused(fault),
        Submitted::NoMemory => Done::NoMemory,
    }
}

// Publishes the pending batches, if there are any.
pub(crate) fn publish<S: Sharing, K, R: Wait>(rt: &R, admin: Admin<S, K>) -> (Admin<S, K>, Done)
    ensures done { HasDone S.opening admin Publish result.1 result.0 }
    ensures same { all_of result.0 ≡ all_of admin }
{
    match admin.retry(rt) {
        (admin, Retried::Published(receipt)) => (admin, Done::Published(receipt.sequence())),
        (admin, Retried::Held) => (admin, Done::Held),
        (admin, Retried::Idle) => (admin, Done::Idle),
    }
}

// Submits a batch, which nothing keeps.
fn submit<S: Sharing, R: Wait>(
    rt: &R,
    admin: Admin<S, Nowhere>,
    batch: Vec<u8>,
) -> (Admin<S, Nowhere>, Done)
    ensures { HasDone S.opening admin (Submit batch.items) result.1 result.0 }
{
    let (admin, submitted) = admin.submit(rt, batch);
    (admin, done_of(submitted))
}

// Does a command. No batch is kept.
fn perform<S: Sharing, R: Wait>(
    rt: &R,
    admin: Admin<S, Nowhere>,
    asked: ReadCommand,
) -> (Admin<S, Nowhere>, Done)
    ensures { (command : Command) → IsHeldOf command asked → HasDone S.opening admin command result.1 result.0 }
{
    match asked {
        ReadCommand::Batch(Some(batch)) => submit(rt, admin, batch),
        ReadCommand::Batch(None) => (admin, Done::NoMemory),
        ReadCommand::Retry => publish(rt, admin),
        ReadCommand::Malformed => (admin, Done::Malformed),
    }
}

/// Serves a client that administers a shared map: reads its commands, does one after the other, and reports the result of each in a
/// line of its own. It ends with the client's bytes, where the reader fails, or after a command that is malformed. Nothing is read
/// after a command before its line is written. An end within a command does nothing.
///
/// The error is that the writer failed, after the first bytes of a line: the command of that line is done all the same. It waits
/// for the client, and for readers of the map that still read an older state.
pub fn administer<S: Sharing, R: AllocGlobal + Wait, I: Source, O: Sink>(
    rt: &R,
    mut admin: Admin<S, Nowhere>,
    client: &mut Client<I, O>,
) -> (Admin<S, Nowhere>, Result<(), PutFailed>)
    ensures served { OnOk result.1
        (HasAdministered S.opening (sides_view ⟦<I as Source>⟧ ⟦<O as Sink>⟧) (attended client.old admin) (attended client.new result.0)) }
    ensures stopped { OnErr result.1
        (IsStopped S.opening (sides_view ⟦<I as Source>⟧ ⟦<O as Sink>⟧) (attended client.old admin) (attended client.new result.0)) }
    ensures flag { MatchResult result.1 (λ _. O.put_failed client.new.writer ≡ O.put_failed client.old.writer)
        (λ _. O.put_failed client.new.writer ≡ true) }
{
    for _ in rt.forever() {
        let Some(asked) = read_command(rt.alloc(), &mut client.reader) else {
            return (admin, Ok(()));
        };
        let (after, done) = perform(rt, admin, asked);
        admin = after;
        if send_line(&mut client.writer, done).is_err() {
            return (admin, Err(PutFailed));
        }
        if done.ends() {
            return (admin, Ok(()));
        }
    }
    unreachable!()
}
