ghost use Rattle.std.specs.Prelude.{◌≡◌};
ghost use Rattle.turns.specs.Times.{answering, deadline, heading, phase_after, is_over, is_unanswered, still_until, time_of};

use crate::{Next, TurnResult};

/// How long a connection may take, in milliseconds.
#[derive(Clone, Copy, Debug)]
pub struct Timeouts {
    /// Between requests: from the last byte of an answer up to the first byte of a head.
    pub idle: u64,
    /// From the opening up to the first byte of a head; a head, from its first byte on; an answer of which no byte is taken.
    pub timeout: u64,
    /// A whole answer, besides the time that its bytes have at the least rate.
    pub grace: u64,
    /// The least rate of an answer, in bytes per millisecond: 1 where it is 0.
    pub rate: u64,
    /// After the last answer, up to the end of what the client sends.
    pub drain: u64,
    /// How many bytes of an answer its client may have to take, at most, before the system takes a further one: it takes many ahead,
    /// and goes on once some part of them is taken, half at most.
    pub ahead: u64,
}

/// The phase of a connection: what it does, and since when, in milliseconds of its worker's clock.
#[derive(Clone, Copy, Debug)]
pub enum Phase {
    /// It was opened, and no byte of a head was taken.
    Opened { since: u64 },
    /// It is between requests: no byte of a further head was taken.
    Idle { since: u64 },
    /// Bytes of a head came: since when, and when the last of them came.
    Head { since: u64, moved: u64 },
    /// An answer is to be sent: since when, when its last bytes were sent, and how many were.
    Answer { since: u64, moved: u64, sent: u64 },
    /// Its last answer was sent, and what its client still sends is dropped.
    Drain { since: u64 },
    /// It has failed, or its client has sent all.
    Over,
}

impl Timeouts {
    // How long so many bytes of an answer take at the least rate.
    fn time_of(&self, bytes: u64) -> u64
        ensures { result ≡ time_of self.now bytes }
    {
        bytes / self.rate.max(1)
    }

    /// Up to when no byte of an answer may be taken, after the last ones were, when so many had been in all.
    pub fn still_until(&self, moved: u64, sent: u64) -> u64
        ensures { result ≡ still_until self.now moved sent }
    {
        moved
            .saturating_add(self.timeout)
            .saturating_add(self.time_of((sent / 2).min(self.ahead)))
    }
}

impl Phase {
    /// When its time is over, if nothing happens: at that millisecond, and not before.
    pub fn deadline(&self, timeouts: &Timeouts) -> u64
        ensures { result ≡ deadline timeouts.now self.now }
    {
        match *self {
            Phase::Idle { since } => since.saturating_add(timeouts.idle),
            Phase::Opened { since } | Phase::Head { since, .. } => {
                since.saturating_add(timeouts.timeout)
            }
            Phase::Answer { since, moved, sent } => {
                let whole = since
                    .saturating_add(timeouts.grace)
                    .saturating_add(timeouts.time_of(sent));
                timeouts.still_until(moved, sent).min(whole)
            }
            Phase::Drain { since } => since.saturating_add(timeouts.drain),
            Phase::Over => 0,
        }
    }

    /// Whether it is over.
    pub fn is_over(&self) -> bool
        ensures { result ≡ is_over self.now }
    {
        matches!(*self, Phase::Over)
    }

    /// Whether it waits for a head, or bytes of one came.
    pub fn is_unanswered(&self) -> bool
        ensures { result ≡ is_unanswered self.now }
    {
        matches!(
            *self,
            Phase::Opened { .. } | Phase::Idle { .. } | Phase::Head { .. }
        )
    }

    // The phase while bytes of an answer are still to be sent, so many of which were sent now.
    fn answering(self, sent: usize, now: u64) -> Self
        ensures { result ≡ answering self sent now }
    {
        match self {
            Phase::Answer {
                since,
                moved,
                sent: before,
            } => Phase::Answer {
                since,
                moved: if sent == 0 { moved } else { now },
                sent: before.saturating_add(sent as u64),
            },
            _ => Phase::Answer {
                since: now,
                moved: now,
                sent: sent as u64,
            },
        }
    }

    // The phase while a head is read, bytes of which came now.
    fn heading(self, now: u64) -> Self
        ensures { result ≡ heading self now }
    {
        match self {
            Phase::Opened { .. } | Phase::Idle { .. } => Phase::Head {
                since: now,
                moved: now,
            },
            Phase::Head { since, .. } => Phase::Head { since, moved: now },
            other => other,
        }
    }

    /// The phase of a connection after a turn, where some or no bytes are still to be sent.
    pub(crate) fn after(self, turned: TurnResult, owes: bool, now: u64) -> Self
        ensures { result ≡ phase_after self turned owes now }
    {
        match turned.next {
            Next::Done => Phase::Drain { since: now },
            Next::Failed => Phase::Over,
            _ if owes => self.answering(turned.sent, now),
            _ if turned.sent > 0 => Phase::Idle { since: now },
            Next::Turn | Next::Room => self.heading(now),
            _ => self,
        }
    }
}
