use crate::connection::Connection;
use crate::gate::Gate;
use crate::queue::Queue;
use answers::Answer;
use httpedge::{Asks, Busy};
use std::alloc::Global;
use std::sync::{Arc, Wait};

/// The member of a worker, its gate, and the number of the connection that it serves.
#[derive(Drop)]
pub(crate) struct Worker<A, G: Drop> {
    member: A,
    gate: Arc<G, Global>,
    number: u64,
}

impl<A: Asks, G: Gate + Drop> Asks for Worker<A, G> {
    ghost answers = { λ old query said new. A.answers old.member query said new.member };

    fn answer(&mut self, query: &[u8]) -> Result<Answer, Busy> {
        self.gate.asked(self.number);
        let answer = self.member.answer(query);
        self.gate.answered(self.number);
        answer
    }
}

impl<A: Asks, G: Gate + Drop> Worker<A, G> {
    /// A member that has served nothing yet.
    pub fn new(member: A, gate: Arc<G, Global>) -> Self {
        Worker {
            member,
            gate,
            number: 0,
        }
    }

    // Serves the connection of a number.
    fn serve<C: Connection>(&mut self, alloc: Global, number: u64, connection: C) {
        self.number = number;
        connection.serve(alloc, self);
    }
}

/// Serves the connections of a queue, until it is closed.
pub(crate) fn run<R: Wait, A: Asks + Drop, G: Gate + Drop, C: Connection + Drop>(
    rt: &R,
    alloc: Global,
    mut worker: Worker<A, G>,
    queue: &Queue<(u64, C)>,
) {
    for _ in rt.forever() {
        let Some((number, connection)) = queue.take(rt) else {
            return;
        };
        worker.serve(alloc, number, connection);
    }
    unreachable!()
}
