//! Turns: how a worker serves many connections, none of which holds another up.
//!
//! A `ConnectionTable` has the connections of a worker. Each turn of one is at most one read, one query and one write, by
//! calls of its `Transport` that never wait. The slot that has waited longest is next. The caller waits for events (as
//! `epoll` gives them), reports each by `wake`, and calls `serve_next` for the turns.
//!
//! Proved: `ConnectionTable::serve_next` serves the first of the queue (`first`), whose bytes and queries go on as its
//! session does (`own`), and changes no other connection (`others`). A connection has no further turn only where a read or
//! a write would have waited, or where no query may be answered (`IsNext`, `turns`, `waits`). Responses that are to be sent
//! have at most `room` bytes and one response more (ghost field `bounded`). A quarter of the room is kept for small
//! answers; those that wait for room have it in order, of each size (`small`, `large`, `laws::room_serves`), and the first
//! of them has a turn while there is room (`laws::room_invites`). A connection leaves where its time is over, and it has no
//! turn and doesn't wait for room (`close_overdue`). It leaves before that in two cases alone: where another comes and no
//! slot or no descriptor is free (`close_for_slot`, `close_for_descriptor`), and where responses fill their room
//! (`close_for_room`). A worker that ends has `close_unanswered`. What follows a query is timed by the clock as it is
//! behind that (`read`). A slot in the queue has its turn before any slot that had one has another (`laws::fair`). Laws
//! over every run of such calls say what each connection was sent (`laws::runs_answer`), when a slot has its turn
//! (`laws::runs_serve`), and that none leaves that has a turn, unless its worker ends (`laws::keeps_until_served`).
//!
//! Terms: a *turn* is what is done for a connection at once. A *slot* is the number of a connection in its table. The
//! *phase* of a connection is what it does, and its time is over at its *deadline*. Bytes are *owed* to a connection while
//! they are to be sent to it. *Room* is the number of bytes that further responses may still have. An answer is *small* or
//! *large* by what its request lets expect. A connection *gives way* where it is closed for another. It is *pending* while
//! it has a turn or waits for room.
#![tactic(auto)]

mod answer_size;
mod buffered_session;
mod drained;
pub mod laws;
mod open_connection;
mod outcomes;
mod pressure;
mod queues;
mod read_buffer;
mod ready_queue;
mod room;
mod served;
mod slots;
mod table;
mod times;
mod transport;
mod turn;
mod turn_clock;
mod waiting_queues;

pub use answer_size::{AnswerSize, FEW_WAITING, LEAST_PATIENCE_MILLIS, SMALL_ANSWER_BYTES};
pub use buffered_session::BufferedSession;
pub use drained::MAX_DRAINED_BYTES;
pub use open_connection::{OpenConnection, TurnConditions, TurnEnd};
pub use pressure::{LONG_WAIT_MILLIS, PATIENCE_MILLIS, Pressure};
pub use read_buffer::{READ_BYTES, ReadBuffer};
pub use ready_queue::ReadyQueue;
pub use served::{Closed, Served};
pub use table::ConnectionTable;
pub use times::{Phase, Timeouts};
pub use transport::{Answered, ReadOutcome, Transport, WriteOutcome};
pub use turn::{Next, TurnResult, serve_turn};
pub use turn_clock::TurnClock;
pub use waiting_queues::WaitingQueues;
