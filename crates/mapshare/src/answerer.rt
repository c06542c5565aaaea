use crate::{Reader, Sharing};
use answers::{Answer, Asks, Busy};

// A reader enters, answers and leaves for each query. It is busy where the sharing is closed, too.
impl<S: Sharing> Asks for Reader<S> {
    ghost use Rattle.mapshare.specs.Answerer.{reader_answers};

    ghost answers = { reader_answers S.opening };

    fn answer(&mut self, query: &[u8]) -> Result<Answer, Busy> {
        let Ok(entered) = self.enter() else {
            return Err(Busy);
        };
        match entered.answer(query) {
            Ok(answer) => Ok(answer),
            Err(_) => Err(Busy),
        }
    }
}
