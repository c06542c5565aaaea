//! Laws of the definitions. A law is a function without arguments whose contract states it.

ghost use Rattle.std.specs.Prelude.{◌≡◌, ◌++◌, ℕ, List, [], true};
ghost use Rattle.httpedge.specs.Session.{SessionState, HasRespondedWith, QueryOutcome, new_session, is_done, is_reading, says_as_listed};
ghost use Rattle.httpedge.specs.Exchange.{IsExchange, IsBegun};
ghost use Rattle.httpedge.specs.declared.conn.TheConstants.{REQUESTS};
ghost use Rattle.httpedge.specs.declared.stage.Stage.TheVariants.{Closed};
ghost use Rattle.httpedge.specs.Turn.{TurnIsOne};
ghost use Rattle.httpedge.specs.Reads.{PrefixesWant};
ghost use Rattle.httpedge.specs.Exchange.{ExchangeIsOne, HeadsAreAnsweredAlone, HeadsAnswerInTurn, BegunIsPrefix, StepsAnswer};

/// A rest has one first turn.
pub fn one_turn()
    ensures { TurnIsOne }
{}

/// A stream and the outcomes of its queries are answered by one text.
pub fn one_exchange()
    ensures { ExchangeIsOne }
{}

/// Up to 999 whole heads, none of which closes or announces a body, are answered one after the other by the bytes that
/// each gets alone.
pub fn answered_alone()
    ensures { HeadsAreAnsweredAlone }
{}

/// Heads that don't end the connection are answered as each alone, but for the Connection line.
pub fn heads_in_turn()
    ensures { HeadsAnswerInTurn }
{}

/// A text that was begun is a prefix of the whole text.
pub fn begun_is_prefix()
    ensures { BegunIsPrefix }
{}

/// Bytes that decide and go on are answered, and then the bytes after them.
pub fn steps_answer()
    ensures { StepsAnswer }
{}

/// Where a read is needed, each read before it was needed.
pub fn prefixes_want()
    ensures { PrefixesWant }
{}

/// What a session has sent, at any moment and however its stream was cut. A new session has sent nothing. A session that
/// is done has sent the answer to the bytes that it took; where a head closed it, whatever follows them. While a session
/// reads, what it sent and is to send is a prefix of every answer to them, whatever follows.
pub fn session_answers()
    ensures starts { HasRespondedWith [] [] [] new_session }
    ensures done { (s : SessionState) (read written : List ℕ) (queries : List QueryOutcome)
        → is_done s ≡ true
        → HasRespondedWith read queries written s
        → IsExchange says_as_listed REQUESTS read queries written [] }
    ensures begun { (s : SessionState) (read written more : List ℕ) (queries : List QueryOutcome)
        → is_reading s.stage ≡ true
        → HasRespondedWith read queries written s
        → IsBegun says_as_listed REQUESTS (read ++ more) queries (written ++ s.outgoing) [] }
    ensures closed { (s : SessionState) (read written more : List ℕ) (queries : List QueryOutcome)
        → s.stage ≡ Closed
        → HasRespondedWith read queries written s
        → IsExchange says_as_listed REQUESTS (read ++ more) queries (written ++ s.outgoing) [] }
{}
