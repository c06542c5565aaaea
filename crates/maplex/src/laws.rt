//! Laws of the definitions. A law is a function without arguments whose contract states it.

ghost use Rattle.maplex.specs.Grammar.{LexedFollowsGrammar, GrammarHasOneReading};
ghost use Rattle.maplex.specs.Lexed.{BytesAreEnough, EndIsOnLastLine};

/// What is lexed of a source is a reading of it by the grammar: blanks and comments, and tokens as
/// they are written, in turn. No byte is lost, and none is read twice. Each token is on the line that
/// is 1 more than the LF bytes before it.
pub fn lexed_follows_grammar()
    ensures { LexedFollowsGrammar }
{}

/// The grammar has no other reading of a source.
pub fn grammar_has_one_reading()
    ensures { GrammarHasOneReading }
{}

/// The line of the end is 1 more than the LF bytes of the source.
pub fn end_is_on_last_line()
    ensures { EndIsOnLastLine }
{}

/// The definition counts its steps by the bytes of the source, and more steps change nothing.
pub fn bytes_are_enough()
    ensures { BytesAreEnough }
{}
