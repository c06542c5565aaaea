use crate::Machine;
use answers::{Answer, Asks, Busy};

impl Asks for Machine {
    ghost use Rattle.mapmachine.specs.Answerer.{machine_answers};

    ghost answers = { machine_answers };

    fn answer(&mut self, query: &[u8]) -> Result<Answer, Busy> {
        match self.reply(query) {
            Ok(answer) => Ok(answer),
            Err(_) => Err(Busy),
        }
    }
}
