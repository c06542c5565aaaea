//! A host as contracts see it.

ghost use Rattle.program.specs.Journals.{journal_view};
ghost use Rattle.program.specs.Performing.{host_view};
ghost use Rattle.service.specs.declared.logging.LoggedPoller.{LoggedPoller};

use crate::host::{Files, Host};
use accesslog::LoggedTransport;
use journalfile::{Log, LogFailure};
use network::{Network, Port};
use service::Runtime;
use turns::Transport;

/// A host, as contracts see it. R is the runtime of the program.
pub trait Known<R>: Host {
    ghost use Rattle.program.specs.Journals.{JournalView};
    ghost use Rattle.program.specs.Performing.{HostView};

    // Its journals.
    ghost journals: { Self → JournalView Self.Log };

    // All of it.
    ghost view: { Self → HostView Self.Port Self.Log };
}

impl<R: Runtime, H: Host> Known<R> for H {
    ghost journals = { journal_view H.journal H.unopened ⟦<H::Log as Log>⟧ H.Log.Failure.cause };

    ghost view = { host_view ⟦<H as Files>⟧ H.listens H.refuses (journal_view H.journal H.unopened ⟦<H::Log as Log>⟧ H.Log.Failure.cause)
        ⟦<H::Port as Port<H::Connection>>⟧ ⟦<LoggedTransport<H::Transport, R> as Transport>⟧ (LoggedPoller H.Poller) };
}
