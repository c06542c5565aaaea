ghost use Rattle.std.specs.Prelude.{◌≡◌};
ghost use Rattle.maplex.specs.Byte.{is_separator, is_quote, is_bracket, is_closing, ends_word, is_control};

/// Whether the byte separates tokens.
pub fn is_separator(byte: u8) -> bool
    ensures { result ≡ is_separator byte }
{
    matches!(byte, b' ' | b'\t' | b'\n' | b'\r' | b'\x0c')
}

/// Whether the byte opens a quoted text.
pub fn is_quote(byte: u8) -> bool
    ensures { result ≡ is_quote byte }
{
    byte == b'"' || byte == b'\''
}

/// Whether the byte is a bracket.
pub fn is_bracket(byte: u8) -> bool
    ensures { result ≡ is_bracket byte }
{
    matches!(byte, b'(' | b')' | b'{' | b'}')
}

/// Whether the byte is a bracket that closes.
pub fn is_closing(byte: u8) -> bool
    ensures { result ≡ is_closing byte }
{
    byte == b')' || byte == b'}'
}

/// Whether a bare word ends before the byte.
pub fn ends_word(byte: u8) -> bool
    ensures { result ≡ ends_word byte }
{
    is_separator(byte) || is_quote(byte) || byte == b'#' || is_bracket(byte)
}

/// Whether no token may have the byte.
pub fn is_control(byte: u8) -> bool
    ensures { result ≡ is_control byte }
{
    byte < b' ' && !is_separator(byte) || byte == 127
}
