ghost use Rattle.std.specs.Prelude.{◌≡◌, Err};
ghost use Rattle.std.specs.Process.{exit_status};
ghost use Rattle.console.specs.Console.{status_of};
ghost use Rattle.program.specs.Endings.{ended, ended_compacted, unserved, unstarted};

use console::Failure;
use journalfile::{CompactedJournal, Journal};
use keepers::LogCause;
use service::Served;
use std::io::Eprint;
use std::marker::Model;
use std::process::{ExitCode, Termination};

/// How the program ended, and what it served on ports P, if anything, with a journal on a log L where batches were kept: one that had them all, or one
/// that was compacted. Only `Program::answer`,
/// `Program::perform` and `without_memory` make one, and the exit status is 0 or that of its failure. So a `main` that returns one ends as they
/// state.
#[derive(Drop)]
pub struct Ending<P, L> {
    outcome: Result<(), Failure>,
    // Why the journal failed, if it did once it was opened.
    cause: Option<LogCause>,
    served: Option<Served<P, Option<Journal<L>>>>,
    compacted: Option<Served<P, CompactedJournal<L>>>,
}

impl<P, L> Model for Ending<P, L> {
    ghost use Rattle.std.specs.Coded.{codes};
    ghost use Rattle.mapdefs.specs.contracts.expr.Expr as expr;
    ghost use Rattle.program.specs.Endings.{EndingValue};

    ghost Value = { EndingValue P L };

    ghost coded = { Prim.hlevel (codes, expr.the_row.coded, P.code, L.code) };

    ghost view = { λ ending. record { outcome = ending.outcome; cause = ending.cause; served = ending.served; compacted = ending.compacted } };
}

impl<P, L> Ending<P, L> {
    // The end after this, where nothing was served.
    pub(crate) fn after(done: Result<(), Failure>) -> Self
        ensures { result ≡ unserved done }
    {
        Ending {
            outcome: done,
            cause: None,
            served: None,
            compacted: None,
        }
    }

    // The end where the journal failed, for this cause, before it was served.
    pub(crate) fn of_journal(cause: LogCause) -> Self
        ensures { result ≡ unstarted cause }
    {
        Ending {
            outcome: Err(Failure::JournalFailed),
            cause: Some(cause),
            served: None,
            compacted: None,
        }
    }

    // The end after a service.
    pub(crate) fn of_service(served: Served<P, Option<Journal<L>>>) -> Self
        ensures { result ≡ ended served }
    {
        Ending {
            outcome: served.outcome(),
            cause: served.cause(),
            served: Some(served),
            compacted: None,
        }
    }

    // The end after a service whose journal was compacted.
    pub(crate) fn of_compacted(served: Served<P, CompactedJournal<L>>) -> Self
        ensures { result ≡ ended_compacted served }
    {
        Ending {
            outcome: served.outcome(),
            cause: served.cause(),
            served: None,
            compacted: Some(served),
        }
    }

    /// The end of a program that has no memory for the buffer of its output.
    pub fn without_memory() -> Self
        ensures { result ≡ unserved (Err Failure.NoMemory) }
    {
        Ending::after(Err(Failure::NoMemory))
    }

    /// Success, or why the command wasn't done.
    pub fn outcome(&self) -> Result<(), Failure>
        ensures { result ≡ self.now.outcome }
    {
        self.outcome
    }

    // Why the journal failed, if it did once it was opened.
    pub(crate) fn cause(&self) -> Option<LogCause>
        ensures { result ≡ self.now.cause }
    {
        self.cause
    }
}

impl<P: Drop, L: Drop> Termination for Ending<P, L> {
    fn report<R: Eprint>(self, _rt: &R) -> ExitCode
        ensures { exit_status result ≡ status_of self.outcome }
    {
        match self.outcome {
            Ok(()) => ExitCode::from(0),
            Err(failure) => ExitCode::from(failure.status()),
        }
    }
}
