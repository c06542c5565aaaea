//! Laws of the definitions. A law is a function without arguments whose contract states it.

ghost use Rattle.expressions.specs.Grammar.{LogicHasOneTree};
ghost use Rattle.expressions.specs.Reading.{ReadingFollowsGrammar};

/// The grammar relates a text to at most one tree.
pub fn logic_has_one_tree()
    ensures { LogicHasOneTree }
{}

/// The tree that `read` makes of a text, from its first byte to its last, is the one to which the grammar
/// relates it.
pub fn reading_follows_grammar()
    ensures { ReadingFollowsGrammar }
{}
