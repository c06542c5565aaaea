use accesslog::Cause;
use turns::{OpenConnection, Phase, Timeouts};

/// Why a connection whose time is over ends before its client had all of its answers. There is no cause where it had them.
pub(crate) fn early_end<T>(
    connection: &OpenConnection<T>,
    timeouts: &Timeouts,
    now: u64,
) -> Option<Cause> {
    if connection.exchange.session.is_done() {
        return None;
    }
    match connection.phase {
        Phase::Opened { .. } | Phase::Idle { .. } => Some(Cause::Idle),
        Phase::Head { .. } => Some(Cause::Head),
        Phase::Answer { moved, sent, .. } if timeouts.still_until(moved, sent) <= now => {
            Some(Cause::Answer)
        }
        Phase::Answer { .. } => Some(Cause::Rate),
        Phase::Drain { .. } => None,
        Phase::Over => Some(Cause::Fault),
    }
}
