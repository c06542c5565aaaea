ghost use Rattle.std.specs.Prelude.{◌≡◌, ◌==◌, ◌<◌, ◌≤◌, not, [], ◌∷◌, length, slice_get, None, Some, MatchOption, IfSome};
ghost use Rattle.std.specs.List.{position_or_len};
ghost use Rattle.std.specs.Str.Lines.{lines, strip_carriage_return};
ghost use Rattle.bdffont.specs.Words.{is_space, words};

// The line without the CR before its LF.
fn without_carriage_return(line: &[u8]) -> &[u8]
    ensures { result.now ≡ strip_carriage_return line.now }
{
    match line {
        [prefix @ .., b'\r'] => prefix,
        _ => line,
    }
}

// How many bytes come before the first LF.
fn line_len(bytes: &[u8]) -> usize
    ensures count { result ≡ position_or_len (λ b. b == 10) bytes.now }
    ensures within { result ≤ length bytes.now }
{
    bytes.iter().take_while(|byte| **byte != b'\n').count()
}

/// The first line of some bytes, and the bytes after it; none where no bytes remain.
pub fn split_line(bytes: &[u8]) -> Option<(&[u8], &[u8])>
    ensures lines { MatchOption result (lines bytes.now ≡ []) (λ p. lines bytes.now ≡ p.0.now ∷ lines p.1.now) }
    ensures shorter { IfSome result (λ p. length p.1.now < length bytes.now) }
{
    if bytes.is_empty() {
        return None;
    }
    let at = line_len(bytes);
    if at == bytes.len() {
        Some((bytes, &[]))
    } else {
        Some((without_carriage_return(&bytes[..at]), &bytes[at + 1..]))
    }
}

// How many spaces a line begins with.
fn spaces_len(line: &[u8]) -> usize
    ensures count { result ≡ position_or_len (λ b. not (is_space b)) line.now }
    ensures within { result ≤ length line.now }
{
    line.iter().take_while(|byte| **byte == b' ').count()
}

// How many bytes come before the first space.
fn word_len(line: &[u8]) -> usize
    ensures count { result ≡ position_or_len is_space line.now }
    ensures within { result ≤ length line.now }
{
    line.iter().take_while(|byte| **byte != b' ').count()
}

// The first word of a line, and the bytes after it; none where there is no word.
fn split_word(line: &[u8]) -> Option<(&[u8], &[u8])>
    ensures { MatchOption result (words line.now ≡ []) (λ p. words line.now ≡ p.0.now ∷ words p.1.now) }
{
    let rest = &line[spaces_len(line)..];
    if rest.is_empty() {
        return None;
    }
    Some(rest.split_at(word_len(rest)))
}

/// The word of a line with this index, if it has so many.
pub fn word(line: &[u8], index: usize) -> Option<&[u8]>
    ensures { MatchOption result (slice_get (words line.now) index ≡ None) (λ w. slice_get (words line.now) index ≡ Some w.now) }
{
    let mut rest = line;
    for _ in 0..index {
        match split_word(rest) {
            Some((_, after)) => rest = after,
            None => return None,
        }
    }
    match split_word(rest) {
        Some((word, _)) => Some(word),
        None => None,
    }
}
