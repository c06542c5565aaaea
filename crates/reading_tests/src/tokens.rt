use maplex::Shape::{List, Logic, Text, Word};
use maplex::{LexFault, LexKind, TOKEN_LIMIT, Tail, Tokens};
use std::alloc::{AllocError, Global};
use test_tables::{TableFault, check_rows};

fn write_tail(text: &mut String, tail: Tail) -> Result<(), AllocError> {
    match tail {
        Tail::Ends(line) => write!(text, "ends {line}"),
        Tail::Breaks(LexFault { line, kind }) => write!(text, "{kind:?} {line}"),
    }
}

fn ends_on(left: &mut Tokens, line: u64) -> bool {
    matches!(left.next(), Err(Tail::Ends(end)) if end == line)
}

// The first eight tokens of a source, each with its line and its shape, and its tail: `ends` and the last line, or the
// fault's kind and its line.
fn tokens_of(alloc: Global, source: &[u8]) -> Result<String, AllocError> {
    let mut text = String::new(alloc);
    let mut left = Tokens::new(source);
    for _ in 0..9 {
        match left.next() {
            Ok(token) => {
                let (line, shape) = (token.line, token.shape);
                write!(text, "{line} {shape:?} {}, ", token.text)?;
            }
            Err(tail) => {
                write_tail(&mut text, tail)?;
                // after the tail nothing is left but an end on its line
                if !ends_on(&mut left, tail.line()) || !ends_on(&mut left, tail.line()) {
                    text.push_str(", and more")?;
                }
                return Ok(text);
            }
        }
    }
    Ok(text)
}

// The source of letters, each the byte of its number, or of `?` where there is none. `|` stands for a line
// feed.
fn source_of(alloc: Global, letters: &str) -> Result<Vec<u8>, AllocError> {
    let mut source = Vec::new(alloc);
    for letter in letters.chars() {
        let letter = if letter == '|' { '\n' } else { letter };
        source.push(u8::try_from(u32::from(letter)).unwrap_or(b'?'))?;
    }
    Ok(source)
}

// The result for the source of letters, with `|` for a line feed. The rows below are this, `~` and the
// letters.
fn tokens_of_letters(alloc: Global, letters: &str) -> Result<String, AllocError> {
    let source = source_of(alloc, letters)?;
    let tokens = tokens_of(alloc, &source)?;
    tokens.replace(alloc, '\n', "|")
}

// Sources of one line.
const ON_ONE_LINE: &str = "\
ends 1~
ends 1~ \t\r\x0c
1 Word NAME, 1 Text a#b, ends 1~NAME 'a#b' # c
1 Word a, 1 Word b, 1 Word c, ends 1~a\x0cb\tc
# quotes and comments end a bare word
1 Word a, 1 Text b, 1 Word c, 1 Text d, 1 Word e, ends 1~a'b'c\"d\"e#f
# a quote of the other kind, brackets and a backslash are ordinary in a quoted text
1 Text it's, 1 Text \"(){}, ends 1~\"it's\" '\"(){}'
1 Text a\\, 1 Word \\b, ends 1~'a\\' \\b
1 Text , 1 Text , 1 Word x, ends 1~'' \"\"x
1 Text \t \r, ends 1~'\t \r'
1 Word -1.5, 1 Word [a]=/b/, 1 Word \u{e9}, ends 1~-1.5 [a]=/b/ \u{c3}\u{a9}
# a comment may hold a zero byte, bytes that are not UTF-8, and brackets
1 Word a, ends 1~a #\x00\u{ff}(}'
ends 1~#";

#[test]
fn words_and_texts_are_cut(rt: HostRuntime) -> Result<(), TableFault> {
    check_rows(rt.alloc(), ON_ONE_LINE, '~', 12, tokens_of_letters)
}

const ON_LINES: &str = "\
# a carriage return doesn't end a comment
2 Word END, ends 2~# a\rMAP|END
ends 2~|
1 Word a, 2 Word b, 3 Word c, ends 4~a|b\r|c\r|
# a CR and a form feed end no line
1 Word a, 1 Word b, 1 Word c, ends 1~a\rb\x0cc
# a quoted text that spans lines has the line on which it begins
3 Text x|y, 4 Word z, ends 5~||'x|y' z|
1 Text ||, 3 Text a, ends 3~'||' 'a'
# the line of a comment ends as any other
3 Word MAP, 4 Word END, ends 4~# one|# two\r|MAP # three|END
1 Word a, 2 Word b, ends 2~a #\x00\u{ff}|b
1 Text #, 3 Text x, ends 3~'#'|#'|'x'";

#[test]
fn lines_are_counted_by_line_feeds(rt: HostRuntime) -> Result<(), TableFault> {
    check_rows(rt.alloc(), ON_LINES, '~', 9, tokens_of_letters)
}

const FAULTS: &str = "\
1 Word NAME, OpenString 1~NAME \"a
OpenString 2~| 'a||
OpenString 1~\"it's
1 Text a, OpenString 1~'a' '
# a bracket that closes nothing
BadByte 2~|)
1 Text }, BadByte 1~'}' }
1 Word a, BadByte 1~a) b
1 Word a, BadByte 2~a|b\x00c
1 Word a, BadByte 1~a \x7f b
# a vertical tab is no separator
1 Word a, BadByte 1~a \x0b b
BadByte 1~\x1f
BadByte 1~'\x00'
# in a quoted text the line is that of the byte
BadByte 3~'a||b\u{ff}c' d
BadByte 3~|'a|\x7f|'
# a character that is cut short, one half of a pair of UTF-16, and a form that is too long
BadByte 2~'a|\u{e2}\u{82}|'
BadByte 1~\u{ed}\u{a0}\u{80}
1 Word a, BadByte 1~a \u{c0}\u{af}
# of several bad bytes the first
BadByte 2~'a|\x01|\u{ff}'
BadByte 2~'a|\u{ff}|\x01'
# an open text is reported before its bad bytes
OpenString 1~'a|\x00
OpenString 2~|'a|\u{ff}
# a fault is reported before one further on
BadByte 1~a\x00b 'c";

#[test]
fn faults_have_worked_lines(rt: HostRuntime) -> Result<(), TableFault> {
    check_rows(rt.alloc(), FAULTS, '~', 22, tokens_of_letters)
}

// Logical expressions and lists. A letter before or after a bracket is a bare word.
const BRACKETS: &str = "\
1 Logic (a), 1 Word b, ends 1~(a) b
1 Logic (), 1 List , ends 1~(){}
1 Word a, 1 Logic (b), 1 Word c, 1 List d, 1 Word e, ends 1~a(b)c{d}e
1 Text a, 1 Logic (b), 1 Text c, ends 1~'a'(b)\"c\"
# an expression goes on up to the bracket that matches; its text has both
1 Logic (a(b)(c(d))), 1 Word e, ends 1~(a(b)(c(d)))e
1 Logic ((())), 1 Logic (()), ends 1~((()))(())
# brackets in quoted parts don't count, nor does the other quote
1 Logic (')' = \"(\"), 1 Word x, ends 1~(')' = \"(\") x
1 Logic (\"it's)\" '\")'), ends 1~(\"it's)\" '\")')
# square brackets hide nothing: neither a bracket nor a quote
1 Logic ([a), 1 Word ], ends 1~([a)]
1 Logic ([a\"]\"), 1 Word ], ends 1~([a\"]\")]
1 Logic ([a\"]\" = 'b'), 1 Word c, ends 1~([a\"]\" = 'b') c
# curly brackets, `#` and a backslash are ordinary in an expression
1 Logic (a # {\\), 1 Word b, ends 1~(a # {\\) b
# a list goes on up to the next bracket that closes one; nothing hides it
1 List a,b, ends 1~{a,b}
1 List a{b, 1 Word c, ends 1~{a{b} c
1 List  ('# , 1 Word c, ends 1~{ ('# }c
# the line is that of the opening bracket, and tokens after it are on theirs
2 Logic (a|b), 3 Word c, ends 4~|(a|b) c|
1 List |a|, 3 Word b, ends 3~{|a|} b
1 Logic ('|'), 2 List |, 3 Text x, ends 3~('|') {|} 'x'";

#[test]
fn expressions_and_lists_are_cut(rt: HostRuntime) -> Result<(), TableFault> {
    check_rows(rt.alloc(), BRACKETS, '~', 18, tokens_of_letters)
}

const BRACKET_FAULTS: &str = "\
1 Logic (a), BadByte 1~(a))
1 List a, BadByte 1~{a}}
1 Logic ({), BadByte 1~({)})
# the source ends inside an expression or a list, or inside a quoted part
1 Word FOO, OpenString 1~FOO(
OpenString 3~||{ a
OpenString 2~|((a)|b
1 Word a, OpenString 2~a|{b|
OpenString 1~(a|'))
OpenString 1~([a\"] = 'b')
# a quote in a list is ordinary, and the next one opens a text
1 List \", OpenString 1~{\"}\"}
# the line of a bad byte is its own; of several the first is reported
BadByte 2~(a|\x00)
BadByte 2~{|\u{ff}} b
1 Word a, BadByte 4~a|(b||'\x7f')
BadByte 2~(|\u{ff}|\x01)
BadByte 3~{||\x01|\u{ff}}
# an open expression or list is reported before its bad bytes
OpenString 1~(a|\x00
OpenString 2~|{a|\u{ff}";

#[test]
fn expressions_and_lists_have_faults(rt: HostRuntime) -> Result<(), TableFault> {
    check_rows(rt.alloc(), BRACKET_FAULTS, '~', 17, tokens_of_letters)
}

// `*` stands for 65,534 letters. The first row has the limit itself.
const LONG_TOKENS: &str = "\
65536~TOKEN_LIMIT
2 Text *aa, 2 Word b, ends 2~|'*aa' b
TooLong 2~|'*aaa' b
2 Text *aa, 2 Word b, ends 2~|\"*aa\"b
TooLong 3~||\"*aaa\"b
2 Word *aa, 2 Word b, ends 2~|*aa b
TooLong 2~|*aaa b
# the text of an expression has its brackets, that of a list hasn't
2 Logic (*), 2 Word b, ends 2~|(*)b
TooLong 2~|(*a)b
2 List *aa, 2 Word b, ends 2~|{*aa}b
TooLong 2~|{*aaa}b
# a bad byte is reported before the length, and an open token before both
BadByte 3~|'*aaa|\x00'
BadByte 3~|(*aaa|\x00)
BadByte 3~|{*aaa|\x00}
OpenString 2~|'*aaa|\x00
OpenString 2~|(*aaa|\x00
OpenString 2~|{*aaa|\x00";

// The result for the source of letters with `*`.
fn tokens_of_long(alloc: Global, letters: &str) -> Result<String, AllocError> {
    let many = "a".repeat(alloc, 65_534)?;
    let letters = letters.replace(alloc, '*', many.as_str())?;
    let tokens = tokens_of_letters(alloc, letters.as_str())?;
    tokens.replace(alloc, many.as_str(), "*")
}

fn limit_or_tokens(alloc: Global, letters: &str) -> Result<String, AllocError> {
    if letters == "TOKEN_LIMIT" {
        format!(in alloc; "{TOKEN_LIMIT}")
    } else {
        tokens_of_long(alloc, letters)
    }
}

#[test]
fn texts_have_at_most_65536_bytes(rt: HostRuntime) -> Result<(), TableFault> {
    check_rows(rt.alloc(), LONG_TOKENS, '~', 17, limit_or_tokens)
}

// `<` stands for 500,000 opening brackets, `>` for as many that close.
const DEEP: &str = "\
OpenString 1~<<
OpenString 1~(<>
TooLong 1~<>";

// The result for the source of letters with `<` and `>`.
fn tokens_of_deep(alloc: Global, letters: &str) -> Result<String, AllocError> {
    let opening = "(".repeat(alloc, 500_000)?;
    let closing = ")".repeat(alloc, 500_000)?;
    let letters = letters.replace(alloc, '<', opening.as_str())?;
    let letters = letters.replace(alloc, '>', closing.as_str())?;
    tokens_of_letters(alloc, letters.as_str())
}

#[test]
fn brackets_may_be_deep(rt: HostRuntime) -> Result<(), TableFault> {
    check_rows(rt.alloc(), DEEP, '~', 3, tokens_of_deep)
}

fn on(line: u64, kind: LexKind) -> LexFault {
    LexFault { line, kind }
}

// The message of each kind, and of a fault.
const VALUES: &str = "\
the quoted text, expression or list that begins here is not closed~OpenString
a bracket that closes nothing, a control character, or a byte that is not UTF-8~BadByte
the token that begins here is longer than 65,536 bytes~TooLong
line 7: the quoted text, expression or list that begins here is not closed~line 7";

fn message_of(alloc: Global, name: &str) -> Result<String, AllocError> {
    match name {
        "OpenString" => format!(in alloc; "{}", LexKind::OpenString),
        "BadByte" => format!(in alloc; "{}", LexKind::BadByte),
        "TooLong" => format!(in alloc; "{}", LexKind::TooLong),
        "line 7" => format!(in alloc; "{}", on(7, LexKind::OpenString)),
        _ => String::from_str(alloc, "malformed"),
    }
}

#[test]
fn faults_are_printed(rt: HostRuntime) -> Result<(), TableFault> {
    check_rows(rt.alloc(), VALUES, '~', 4, message_of)
}
