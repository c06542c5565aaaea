ghost use Rattle.std.specs.Prelude.{◌≡◌, IsSome, None, Err};
ghost use Rattle.batches.specs.Batch.{accepted};
ghost use Rattle.mapshare.specs.Admin.{all_of};
ghost use Rattle.sharing.specs.Sharing.{after};
ghost use Rattle.console.specs.declared.failure.Failure.TheVariants.{NoMemory};
ghost use Rattle.service.specs.Serving.{begun};

use commandline::Service;
use console::Failure;
use history::Shown;
use keepers::LogCause;
use mapmachine::Machine;
use mapshare::{Admin, Sharing};
use network::Ports;
use std::marker::Model;
use std::snapshot::Snapshot;

/// How a service ended, and why its keeper failed, if it did.
#[derive(Clone, Copy)]
pub(crate) struct ServiceEnd {
    pub outcome: Result<(), Failure>,
    pub cause: Option<LogCause>,
}

impl ServiceEnd {
    // An end at which the keeper didn't fail.
    pub(crate) fn after(outcome: Result<(), Failure>) -> Self
        ensures { result ≡ record { outcome = outcome; cause = None } }
    {
        ServiceEnd {
            outcome,
            cause: None,
        }
    }
}

/// A service: the map of a machine that it served, its two ports, its options, the keeper of its batches as it began, how it ended, why the
/// keeper failed, if it did, and then the keeper, and all batches that were accepted. Only `serve_by_threads` makes one, so a caller who has one knows which map, which
/// ports and which keeper that call was given. That it started a thread for each port is tested.
#[derive(Drop)]
pub struct Served<P, K> {
    machine: Snapshot<Machine>,
    keeper: Snapshot<K>,
    clients: Snapshot<P>,
    administration: Snapshot<P>,
    service: Service,
    outcome: Result<(), Failure>,
    cause: Option<LogCause>,
    last: Snapshot<K>,
    // None where the map wasn't shared.
    accepted: Option<Shown>,
}

impl<P, K> Model for Served<P, K> {
    ghost use Rattle.std.specs.Coded.{codes};
    ghost use Rattle.mapdefs.specs.contracts.expr.Expr as expr;
    ghost use Rattle.service.specs.Serving.{ServedValue, batches_of};

    ghost Value = { ServedValue P K };

    ghost coded = { Prim.hlevel (codes, expr.the_row.coded, P.code, K.code) };

    ghost view = { λ s. record {
      machine = s.machine.value;
      keeper = s.keeper.value;
      clients = s.clients.value;
      administration = s.administration.value;
      service = s.service;
      outcome = s.outcome;
      cause = s.cause;
      last = s.last.value;
      accepted = batches_of s.accepted;
    } };
}

impl<P, K> Served<P, K> {
    // A service that is about to begin, which ends well so far.
    pub(crate) fn begin<W, Q, I>(machine: &Machine, keeper: &K, ports: &Ports<P, W, Q, I>) -> Self
        ensures { result ≡ begun machine.now keeper.now ports.now }
    {
        Served {
            machine: Snapshot::of(machine),
            keeper: Snapshot::of(keeper),
            clients: Snapshot::of(ports.clients.get()),
            administration: Snapshot::of(ports.administration.get()),
            service: ports.service,
            outcome: Ok(()),
            cause: None,
            last: Snapshot::of(keeper),
            accepted: None,
        }
    }

    // The same where memory for the shared map was refused.
    pub(crate) fn unshared(self) -> Self
        ensures { result ≡ record self { outcome = Err NoMemory } }
    {
        Served {
            outcome: Err(Failure::NoMemory),
            ..self
        }
    }

    // The same, with how it ended, the keeper of batches then, and all batches that its administrator accepted.
    pub(crate) fn ended<S: Sharing>(self, end: ServiceEnd, last: &K, admin: &Admin<S, K>) -> Self
        ensures ended { result ≡ record self { outcome = end.outcome; cause = end.cause; last = last.now; accepted = all_of admin.now } }
        ensures accepted { IsSome (after accepted S.opening (all_of admin.now)) }
    {
        let Self {
            machine,
            keeper,
            clients,
            administration,
            service,
            ..
        } = self;
        Served {
            machine,
            keeper,
            clients,
            administration,
            service,
            outcome: end.outcome,
            cause: end.cause,
            last: Snapshot::of(last),
            accepted: Some(admin.all()),
        }
    }

    /// How it ended.
    pub fn outcome(&self) -> Result<(), Failure>
        ensures { result ≡ self.now.outcome }
    {
        self.outcome
    }

    /// Why the keeper of batches failed, if it did.
    pub fn cause(&self) -> Option<LogCause>
        ensures { result ≡ self.now.cause }
    {
        self.cause
    }
}
