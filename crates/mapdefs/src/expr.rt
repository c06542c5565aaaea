use crate::{Boxed, Items, Text};
use geom::Micro;

/// How two operands of an expression are compared.
#[derive(Clone, Copy, Debug)]
pub enum Comparison {
    Equal,
    NotEqual,
    Less,
    Greater,
    AtMost,
    AtLeast,
    /// Equal texts without regard to ASCII case.
    EqualIgnoringCase,
    /// The left text is one of the right text's parts between commas.
    In,
}

/// One side of a comparison.
#[derive(Debug, Drop)]
pub enum Operand {
    /// A literal number, with its text as it is written.
    Number(Micro, Text),
    /// The value of an item, compared as a number.
    Item(Text),
    /// The value of an item, as a text.
    ItemText(Text),
    /// A literal text.
    Text(Text),
}

/// A logical expression over the items of a feature.
#[derive(Debug, Drop)]
pub enum Expr {
    /// True where one of two or more parts is.
    Or(Items<Expr>),
    /// True where each of two or more parts is.
    And(Items<Expr>),
    /// True where its part isn't.
    Not(Boxed<Expr>),
    /// A comparison: how, the left side, the right side.
    Compare(Comparison, Operand, Operand),
}
