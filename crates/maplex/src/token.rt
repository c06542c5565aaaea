use std::marker::Model;

/// The most bytes of a token's text.
pub const TOKEN_LIMIT: usize = 65_536;

/// The shape of a token.
#[derive(Clone, Copy, Debug)]
pub enum Shape {
    /// A bare word: bytes up to a separator, a quote, `#` or a bracket.
    Word,
    /// A quoted text: bytes between two quotes of one kind. A backslash is an ordinary byte.
    Text,
    /// A logical expression: bytes from `(` to the `)` that matches it. Brackets in quoted parts don't
    /// count.
    Logic,
    /// A list: bytes from `{` to the next `}`.
    List,
}

/// A token. Contracts see the bytes of its text.
#[derive(Drop)]
pub struct Token<'a> {
    /// How it is written.
    pub shape: Shape,
    /// Its text, a slice of the source. That of a quoted text has no quotes and that of a list no
    /// brackets; that of a logical expression has its outer brackets.
    pub text: &'a str,
    /// The line on which it begins, counted from 1.
    pub line: u64,
}

impl<'a> Model for Token<'a> {
    ghost use Rattle.maplex.specs.Token.{TokenValue};

    ghost Value = { TokenValue };

    ghost view = { λ t. record { shape = t.shape; text = t.text.now; line = t.line } };
}
