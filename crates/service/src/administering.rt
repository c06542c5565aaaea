//! The connections of administrators: one after the other, each until it ends, and each accepted batch kept.

ghost use Rattle.std.specs.Prelude.{◌≡◌, ℕ, List, IfErr, IfNone, IfSome, OnOk, None};
ghost use Rattle.streams.specs.Sides.{sides_view};
ghost use Rattle.administration.specs.Keeping.{IsCause, IsKeptSince, NoneLost};
ghost use Rattle.service.specs.Administering.{Administers, cause_of, fault_of};
ghost use Rattle.network.specs.Opening.{IsServedOne};

use crate::clients::queue_of;
use crate::flags::{Flag, Left, Over};
use crate::runtime::Runtime;
use accesslog::{LogQueue, LoggedSink};
use administration::{AdministerFault, Client, administer_kept};
use httpedge::EdgeFault;
use keepers::{Keeps, LogCause};
use mapshare::{Admin, KeepFailed, Sharing};
use network::{Accepting, Acceptor, Administrators, Opens, Plan, Port, PortFor, Sides};
use std::alloc::Global;
use std::sync::Arc;
use streams::{Sink, Source};

// A connection of an administrator that was closed.
#[derive(Drop)]
struct Attempt<D> {
    // The rest of it.
    closed: D,
    // Why the keeper of batches failed, if it did.
    cause: Option<LogCause>,
}

// The fault with which a connection is closed: its writer failed. One that was sent `FAILED` has none, so that its client gets that
// line.
fn fault_of(served: Result<(), AdministerFault>, written: u128) -> Option<EdgeFault>
    ensures { result ≡ fault_of served written }
{
    match served {
        Ok(()) | Err(AdministerFault::KeepFailed(_)) => None,
        Err(AdministerFault::PutFailed) => Some(EdgeFault::Write { written }),
    }
}

// Why the keeper of batches failed, if it did.
fn cause_of(served: Result<(), AdministerFault>) -> Option<LogCause>
    ensures { result ≡ cause_of served }
{
    match served {
        Ok(()) | Err(AdministerFault::PutFailed) => None,
        Err(AdministerFault::KeepFailed(cause)) => Some(cause),
    }
}

// A connection of an administrator, its number, and the log of its commands, if there is one.
#[derive(Drop)]
struct Numbered<C, R> {
    connection: C,
    number: u64,
    log: Option<LogQueue<R>>,
}

// Serves one connection of an administrator, and closes it with the fault of that, if it had one. Each accepted batch is kept. A
// connection that can't be opened gives none.
fn administer_one<S: Sharing, K: Keeps, R: Runtime, C: Opens>(
    rt: &R,
    admin: Admin<S, K>,
    keeper: &mut K,
    numbered: Numbered<C, R>,
) -> (Admin<S, K>, Option<Attempt<C::Closed>>)
    requires ready { (kept : List (List ℕ)) × K.keeps keeper.old kept }
    ensures unopened { IfNone result.1 (C.opens numbered.connection None × (result.0 ≡ admin) × (keeper.new ≡ keeper.old)) }
    ensures served { IfSome result.1
        (λ attempt. IsServedOne C.opens C.closes
        (Administers S.opening (sides_view ⟦<C::Reader as Source>⟧ ⟦<C::Writer as Sink>⟧) attempt.cause)
        numbered.connection admin result.0 attempt.closed) }
    ensures kept { (kept : List (List ℕ)) → K.keeps keeper.old kept
        → IfSome result.1 (λ attempt. attempt.cause ≡ None → IsKeptSince K.keeps admin kept result.0 keeper.new) }
    ensures crash { NoneLost ⟦<K as Keeps>⟧ S.opening admin keeper.old result.0 keeper.new }
    ensures cause { IfSome result.1 (λ attempt. IfSome attempt.cause (IsCause K.fails)) }
{
    let Numbered {
        connection,
        number,
        log,
    } = numbered;
    let Some(sides) = connection.open(rt.alloc()) else {
        return (admin, None);
    };
    let Sides { reader, writer } = sides;
    let before = writer.taken();
    let writer = LoggedSink::new(rt.alloc(), writer, number, log);
    let mut client = Client { reader, writer };
    let (admin, served) = administer_kept(rt, admin, keeper, &mut client);
    let Client { reader, writer } = client;
    let writer = writer.into_inner();
    let fault = fault_of(served, writer.taken().saturating_sub(before));
    let attempt = Attempt {
        closed: C::close(Sides { reader, writer }, fault),
        cause: cause_of(served),
    };
    (admin, Some(attempt))
}

/// The port of administrators, what tells of clients, and the log of commands, if there is one.
#[derive(Drop)]
pub(crate) struct Administering<P, R> {
    pub port: Accepting<PortFor<Administrators, P>>,
    /// The service ends.
    pub is_over: Arc<Flag<Over>, Global>,
    /// The port of clients isn't served any more.
    pub is_left: Arc<Flag<Left>, Global>,
    pub log: Option<LogQueue<R>>,
}

// What follows on a call for a connection of an administrator.
#[derive(Drop)]
enum Came<C, R> {
    // A further call.
    Nothing,
    // No call: the service ends, no further connection is requested, or the port is given up.
    End,
    // A connection.
    Connection(Numbered<C, R>),
}

impl<P, R: Runtime> Administering<P, R> {
    // The next connection, by one call. The port isn't given up while clients are served.
    fn next<C>(&mut self, acceptor: &mut Acceptor) -> Came<C, R>
    where
        P: Port<C>,
        C: Drop,
    {
        let accepted = self.port.accept();
        if self.is_over.is_set() {
            return Came::End;
        }
        match acceptor.follow(Some(accepted)) {
            Plan::Wait => Came::Nothing,
            Plan::End => Came::End,
            Plan::HandOver { connection, number } => Came::Connection(Numbered {
                connection,
                number,
                log: queue_of(&self.log),
            }),
            Plan::Evict(eviction) => {
                if eviction.without_eviction() && self.is_left.is_set() {
                    Came::End
                } else {
                    Came::Nothing
                }
            }
        }
    }
}

/// Serves the connections of administrators, one after the other: up to the last, until the signal is given, or until the keeper of
/// batches fails. Without such a failure all accepted batches are kept. A call for a connection that fails is made again: the port is
/// given up where 100 fail one after the other and the port of clients isn't served any more.
pub(crate) fn administer_all<S, K, R, C, P>(
    rt: &R,
    admin: Admin<S, K>,
    keeper: &mut K,
    mut side: Administering<P, R>,
) -> (Admin<S, K>, Result<(), KeepFailed>)
where
    S: Sharing,
    K: Keeps,
    R: Runtime,
    C: Opens + Drop,
    P: Port<C> + Drop,
    requires ready { (kept : List (List ℕ)) × K.keeps keeper.old kept }
    ensures kept { (kept : List (List ℕ)) → K.keeps keeper.old kept → OnOk result.1 (IsKeptSince K.keeps admin kept result.0 keeper.new) }
    ensures crash { NoneLost ⟦<K as Keeps>⟧ S.opening admin keeper.old result.0 keeper.new }
    ensures cause { IfErr result.1 (λ failed. IsCause K.fails failed.cause) }
{
    let mut admin = admin;
    let mut acceptor = Acceptor::new();
    for _ in rt.forever() {
        let numbered = match side.next::<C>(&mut acceptor) {
            Came::Nothing => continue,
            Came::End => return (admin, Ok(())),
            Came::Connection(numbered) => numbered,
        };
        let (after, attempt) = administer_one(rt, admin, keeper, numbered);
        admin = after;
        let Some(Attempt { closed, cause }) = attempt else {
            continue;
        };
        drop(closed);
        match cause {
            None => {}
            Some(cause) => return (admin, Err(KeepFailed { cause })),
        }
    }
    unreachable!()
}
