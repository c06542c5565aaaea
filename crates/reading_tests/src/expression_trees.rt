use expressions::{ExprError, ExprFault, read};
use mapdefs::{Comparison, Expr, Operand};
use std::alloc::{AllocError, Global};
use test_tables::{TableFault, check_rows};

// How a comparison is written in the rows.
fn sign(comparison: Comparison) -> &'static str {
    match comparison {
        Comparison::Equal => "=",
        Comparison::NotEqual => "!=",
        Comparison::Less => "<",
        Comparison::Greater => ">",
        Comparison::AtMost => "<=",
        Comparison::AtLeast => ">=",
        Comparison::EqualIgnoringCase => "=*",
        Comparison::In => "in",
    }
}

// An operand: a number's text and its millionths, an item in brackets, an item's text in double quotes too,
// another text in single ones.
fn write_operand(out: &mut String, operand: &Operand) -> Result<(), AllocError> {
    match operand {
        Operand::Number(number, text) => {
            let millionths = number.millionths();
            write!(out, "{}:{millionths}", text.as_str())
        }
        Operand::Item(name) => write!(out, "[{}]", name.as_str()),
        Operand::ItemText(name) => write!(out, "\"[{}]\"", name.as_str()),
        Operand::Text(text) => write!(out, "'{}'", text.as_str()),
    }
}

#[cycle(write_tree)]
fn write_parts(out: &mut String, word: &str, parts: &[Expr]) -> Result<(), AllocError> {
    out.push_str(word)?;
    for part in parts {
        out.push(' ')?;
        write_tree(out, part)?;
    }
    out.push(')')?;
    Ok(())
}

// A tree, each of its nodes in brackets.
#[cycle(write_tree)]
fn write_tree(out: &mut String, expr: &Expr) -> Result<(), AllocError> {
    match expr {
        Expr::Or(parts) => write_parts(out, "(or", parts.as_slice()),
        Expr::And(parts) => write_parts(out, "(and", parts.as_slice()),
        Expr::Not(part) => {
            out.push_str("(not ")?;
            write_tree(out, part.get())?;
            out.push(')')?;
            Ok(())
        }
        Expr::Compare(comparison, left, right) => {
            write_operand(out, left)?;
            out.push_str(sign(*comparison))?;
            write_operand(out, right)
        }
    }
}

// The tree of a text, or its fault and the byte.
fn tree_of(alloc: Global, text: &[u8]) -> Result<String, AllocError> {
    match read(alloc, text) {
        Ok(expr) => {
            let mut out = String::new(alloc);
            write_tree(&mut out, &expr)?;
            Ok(out)
        }
        Err(ExprError::Fault(ExprFault { at })) => format!(in alloc; "fault {at}"),
        Err(ExprError::NoMemory) => Err(AllocError),
    }
}

// The bytes of letters, each the byte of its number, or of `?` where there is none, and `%` a line feed.
fn bytes_of(alloc: Global, letters: &str) -> Result<Vec<u8>, AllocError> {
    let mut text = Vec::new(alloc);
    for letter in letters.chars() {
        let letter = if letter == '%' { '\n' } else { letter };
        text.push(u8::try_from(u32::from(letter)).unwrap_or(b'?'))?;
    }
    Ok(text)
}

// The result for letters.
fn tree_of_letters(alloc: Global, letters: &str) -> Result<String, AllocError> {
    let text = bytes_of(alloc, letters)?;
    tree_of(alloc, &text)
}

// The result, `~` and the letters of the text.
const TREES: &str = "\
# each comparison, with and without spaces and in both cases
[a]=1:1000000~([a]=1)
[a]=1:1000000~([a]==1)
[a]=1:1000000~([a]eq1)
[a]=1:1000000~([a] EQ 1)
[a]!=2:2000000~([a]!=2)
[a]!=2:2000000~([a]Ne2)
[a]<.5:500000~([a]<.5)
[a]<.5:500000~([a]lt.5)
[a]>-3:-3000000~([a]>-3)
[a]>+3:3000000~([a]GT+3)
[a]<=7.:7000000~([a]<=7.)
[a]<=4e2:400000000~([a]le4e2)
[a]>=4E-6:4~([a]>=4E-6)
[a]>=5:5000000~([a]gE5)
[a]=*'x'~([a]=*\"x\")
[a]in'x,y'~([a]in'x,y')
[a]in'x'~([a] IN \"x\")
# the e of an eq is no exponent
1:1000000=2:2000000~(1eq2)
1e1:10000000=2:2000000~(1e1eq2)
# a quoted text that is exactly an item, and others
\"[a]\"=[b]~(\"[a]\"=[b])
\"[a b]\"='c'~('[a b]'=\"c\")
'[a]x'='[]'~(\"[a]x\"=\"[]\")
'[a]b]'='[a'~('[a]b]'='[a')
'it's'='\"'~(\"it's\"='\"')
''=''~(\"\"='')
[a=1 AND]='b'~([a=1 AND]='b')
[\u{e9}]='\u{e9}'~([\u{c3}\u{a9}]='\u{c3}\u{a9}')
# spaces, tabs and line ends stand between all parts
[a]=1:1000000~(%[a]\t=\r%1 )
(and (not [a]=1:1000000) [b]=2:2000000)~( NOT ( [a] = 1 ) AND\t[b] = 2%)
(and [a]=1:1000000 [b]=2:2000000)~([a]=1 AND [b]=2)
(and [a]=1:1000000 [b]=2:2000000)~([a]eq1and[b]=2)
(and [a]=1:1000000 [b]=2:2000000)~([a]=1&&[b]=2)
(or [a]=1:1000000 [b]=2:2000000)~([a]=1Or[b]=2)
(or [a]=1:1000000 [b]=2:2000000)~([a]=1||[b]=2)
# AND binds before OR, and several parts of one kind are one list
(or [a]=1:1000000 (and [b]=2:2000000 [c]=3:3000000))~([a]=1 OR [b]=2 AND [c]=3)
(or (and [a]=1:1000000 [b]=2:2000000) [c]=3:3000000)~([a]=1 and [b]=2 or [c]=3)
(or [a]=1:1000000 [b]=2:2000000 [c]=3:3000000)~([a]=1 or [b]=2 || [c]=3)
(and [a]=1:1000000 [b]=2:2000000 [c]=3:3000000)~([a]=1 && [b]=2 and [c]=3)
(or [a]=1:1000000 (or [b]=2:2000000 [c]=3:3000000))~([a]=1 or ([b]=2 or [c]=3))
(and (or [a]=1:1000000 [b]=2:2000000) [c]=3:3000000)~(([a]=1 or [b]=2) and [c]=3)
# a single part stands for itself
[a]=1:1000000~((([a]=1)))
(not [a]=1:1000000)~(NOT [a]=1)
(not [a]=1:1000000)~(not([a]=1))
(not (not [a]=1:1000000))~(!NOT[a]=1)
(and (not [a]=1:1000000) [b]=2:2000000)~(![a]=1 AND [b]=2)
(not (or [a]=1:1000000 [b]=2:2000000))~(NOT([a]=1 OR [b]=2))
(and [a]=1:1000000 (not [b]=2:2000000))~([a]=1 ANDNOT[b]=2)
(and [pop]>=10:10000000 (not \"[t]\"='x'))~([pop] >= 10 AND NOT \"[t]\" = \"x\")";

#[test]
fn texts_have_worked_trees(rt: HostRuntime) -> Result<(), TableFault> {
    check_rows(rt.alloc(), TREES, '~', 48, tree_of_letters)
}

const FAULTS: &str = "\
fault 0~
fault 0~[a]=1
fault 1~(
fault 1~()
fault 8~([pop] >)
# items and quoted texts that don't end, or are not UTF-8
fault 2~([
fault 2~([]=1)
fault 6~([a=1)
fault 4~(\"ab
fault 3~([a\u{ff}]=1)
fault 2~(\"\u{ff}\"=1)
fault 2~(\"\u{ff}
# operands and signs that are none
fault 5~([a]=)
fault 5~([a]=x)
fault 5~([a]=~1)
fault 4~([a]~1)
fault 4~([a]&&1)
fault 5~([a]!1)
fault 6~([a] E 1)
fault 1~(\x0c[a]=1)
# numbers
fault 8~([a]=1.2.3)
fault 7~([a]=1e)
fault 6~([a]=-)
fault 6~([a]=.)
fault 5~([a]=1e99)
fault 5~(1e5e5)
fault 5~(1e5e
fault 3~(1ee5)
# what comes after a part, or doesn't
fault 6~([a]=1
fault 8~(([a]=1)
fault 7~([a]=1)x
fault 7~([a]=1)\x20
fault 6~([a]=1=2)
fault 7~([a]=1 [b]=2)
fault 9~([a]=1 AN [b]=2)
fault 10~([a]=1 AND)
fault 3~(NO [a]=1)
fault 5~(NOT )";

#[test]
fn faults_stand_at_worked_bytes(rt: HostRuntime) -> Result<(), TableFault> {
    check_rows(rt.alloc(), FAULTS, '~', 38, tree_of_letters)
}

// The result for a text, and its parts: how often a sign stands after the opening bracket, the sign, what
// comes then, and how many brackets close it.
const NESTED: &str = "\
[a]=1:1000000~63*(*[a]=1*64
fault 64~64*(*[a]=1*65
fault 64~64*!*[a]=1*1
fault 64~63*(*NO [a]=1*64
fault 65~62*(*NO [a]=1*63
(not (not (not (not (not (not (not (not (not (not (not (not (not (not (not (not (not (not (not (not (not (not (not (not (not (not (not (not (not (not (not (not (not (not (not (not (not (not (not (not (not (not (not (not (not (not (not (not (not (not (not (not (not (not (not (not (not (not (not (not (not (not (not [a]=1:1000000)))))))))))))))))))))))))))))))))))))))))))))))))))))))))))))))~63*!*[a]=1*1";

// Likewise, of texts of 65,536 bytes: more than so many signs are cut.
const LONG: &str = "\
fault 64~65536*(**0
fault 64~65536*!**0
fault 1~65536*=**0
fault 3~65536*'**0
fault 65536~65536*[**0
fault 65536~65536*[a]=1 OR **0";

fn parts(row: &str) -> Option<(usize, &str, &str, usize)> {
    let (count, row) = row.split_once('*')?;
    let (sign, row) = row.split_once('*')?;
    let (middle, closing) = row.split_once('*')?;
    Some((
        count.parse::<usize>().ok()?,
        sign,
        middle,
        closing.parse::<usize>().ok()?,
    ))
}

// The result for the text of some parts, cut after 65,536 bytes.
fn tree_of_parts(alloc: Global, row: &str) -> Result<String, AllocError> {
    let Some((count, sign, middle, closing)) = parts(row) else {
        return String::from_str(alloc, "malformed");
    };
    let signs = sign.repeat(alloc, count)?;
    let closing = ")".repeat(alloc, closing)?;
    let text = format!(in alloc; "({signs}{middle}{closing}")?;
    let bytes = text.as_str().as_bytes();
    tree_of(alloc, bytes.get(..65_536).unwrap_or(bytes))
}

#[test]
fn sixty_four_brackets_may_stand_within_one_another(rt: HostRuntime) -> Result<(), TableFault> {
    check_rows(rt.alloc(), NESTED, '~', 6, tree_of_parts)
}

#[test]
fn long_texts_are_read_to_their_fault(rt: HostRuntime) -> Result<(), TableFault> {
    check_rows(rt.alloc(), LONG, '~', 6, tree_of_parts)
}

// The messages of a fault and of no memory.
const ERRORS: &str = "no expression from byte 7 on; out of memory~";

fn errors(alloc: Global, _row: &str) -> Result<String, AllocError> {
    let fault = ExprError::Fault(ExprFault { at: 7 });
    format!(in alloc; "{fault}; {}", ExprError::NoMemory)
}

#[test]
fn errors_have_messages(rt: HostRuntime) -> Result<(), TableFault> {
    check_rows(rt.alloc(), ERRORS, '~', 1, errors)
}
