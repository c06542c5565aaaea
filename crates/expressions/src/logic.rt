ghost use Rattle.std.specs.Prelude.{◌≡◌, ℕ, ◌<◌, ◌≤◌, ◌-◌, [], ◌∷◌, length, Some, codes, IfOk, IfErr, IfSome, MatchResult};
ghost use Rattle.std.specs.Option.{option_copied};
ghost use Rattle.mapdefs.specs.ClassLimits.{IsExprWithinLimits};
ghost use Rattle.expressions.specs.Fault.{IsStop, IsRefusal};
ghost use Rattle.expressions.specs.Grammar.{IsLogic};
ghost use Rattle.expressions.specs.Reading.{after_joint, after_spaced, joined, compare_at, closed, part_of, joined_at, part_at, logic_of};

use crate::fault::{ExprError, ExprFault, ReadingError};
use crate::operand::operand_at;
use crate::word::{after_either, after_spaced, after_spaces, comparison_at, left_without};
use mapdefs::{Boxed, Expr, Items, MAX_NESTING};
use std::alloc::Global;

/// Whether parts are joined by OR or by AND.
#[derive(Clone, Copy)]
pub enum Joint {
    Or,
    And,
}

// The text after spaces and the keyword that joins parts.
fn after_joint(joint: Joint, text: &[u8]) -> Option<&[u8]>
    ensures value { option_copied result ≡ after_joint joint text.now }
    ensures shorter { IfSome result (λ rest. length rest.now < length text.now) }
{
    match joint {
        Joint::Or => after_either(b"OR", b"||", text),
        Joint::And => after_either(b"AND", b"&&", text),
    }
}

// At least two parts that are joined.
fn joined(joint: Joint, parts: Items<Expr>) -> Expr
    requires { 2 ≤ length parts }
    ensures { result ≡ joined joint parts }
{
    match joint {
        Joint::Or => Expr::Or(parts),
        Joint::And => Expr::And(parts),
    }
}

// The keywords and signs of comparisons.
const COMPARISONS: [&[u8]; 15] = [
    b"=", b"==", b"eq", b"!=", b"ne", b"<", b"lt", b">", b"gt", b"<=", b"le", b">=", b"ge", b"=*",
    b"IN",
];

// The keyword that may stand in place of an operand.
const NOT: [&[u8]; 1] = [b"NOT"];

// The keywords and signs that may stand after a part.
const AFTER_PART: [&[u8]; 5] = [b"OR", b"||", b"AND", b"&&", b")"];

// How many bytes are left where neither an operand, of which so many are, nor a NOT goes on.
fn left_or_begun(left: usize, text: &[u8], room: usize) -> usize {
    if room == 0 {
        return left;
    }
    left.min(left_without(&NOT, text))
}

// The comparison of two operands that stands here, and the text after it. Where there is room for a
// NOT, a NOT may begin here instead.
#[tactic(auto, unfolding(crate::specs::Reading::compare_at))]
fn compare_at(alloc: Global, text: &[u8], room: usize) -> Result<(Expr, &[u8]), ReadingError>
    ensures value { MatchResult result (λ r. compare_at text.now ≡ Some (r.0, r.1.now)) (IsStop (compare_at text.now)) }
    ensures shorter { IfOk result (λ r. length r.1.now < length text.now) }
{
    let (left, after) = match operand_at(alloc, text) {
        Ok(found) => found,
        Err(ReadingError::Fault { left }) => {
            let left = left_or_begun(left, text, room);
            return Err(ReadingError::Fault { left });
        }
        Err(ReadingError::NoMemory) => return Err(ReadingError::NoMemory),
    };
    let Some((comparison, rest)) = comparison_at(after) else {
        let left = left_without(&COMPARISONS, after);
        return Err(ReadingError::Fault { left });
    };
    match operand_at(alloc, rest) {
        Ok((right, rest)) => Ok((Expr::Compare(comparison, left, right), rest)),
        Err(stop) => {
            drop(left);
            Err(stop)
        }
    }
}

// The text after spaces and a closing bracket.
fn after_bracket(text: &[u8]) -> Result<&[u8], ReadingError>
    ensures value { MatchResult result (λ rest. after_spaced (codes ")") text.now ≡ Some rest.now) (IsStop (after_spaced (codes ")") text.now)) }
    ensures shorter { IfOk result (λ rest. length rest.now < length text.now) }
{
    match after_spaced(b")", text) {
        Some(rest) => Ok(rest),
        None => {
            let left = left_without(&AFTER_PART, text);
            Err(ReadingError::Fault { left })
        }
    }
}

// An expression in brackets, and the text after the one that closes it.
fn closed(expr: Expr, rest: &[u8]) -> Result<(Expr, &[u8]), ReadingError>
    ensures value { MatchResult result (λ r. closed (expr, rest.now) ≡ Some (r.0, r.1.now)) (IsStop (closed (expr, rest.now))) }
    ensures shorter { IfOk result (λ r. length r.1.now < length rest.now) }
{
    match after_bracket(rest) {
        Ok(after) => Ok((expr, after)),
        Err(stop) => {
            drop(expr);
            Err(stop)
        }
    }
}

// A part between ORs or between ANDs.
#[cycle(logic)]
fn part_of(
    alloc: Global,
    joint: Joint,
    text: &[u8],
    room: usize,
) -> Result<(Expr, &[u8]), ReadingError>
    ensures value { MatchResult result (λ r. part_of joint (part_at room) text.now ≡ Some (r.0, r.1.now)) (IsStop (part_of joint (part_at room) text.now)) }
    ensures shorter { IfOk result (λ r. length r.1.now < length text.now) }
{
    match joint {
        Joint::Or => joined_at(alloc, Joint::And, text, room),
        Joint::And => part_at(alloc, text, room),
    }
}

// The parts that stand here between ORs or between ANDs, and the text after them.
#[cycle(logic)]
fn joined_at(
    alloc: Global,
    joint: Joint,
    text: &[u8],
    room: usize,
) -> Result<(Expr, &[u8]), ReadingError>
    ensures value { MatchResult result
        (λ r. joined_at joint (part_at room) text.now ≡ Some (r.0, r.1.now))
        (IsStop (joined_at joint (part_at room) text.now)) }
    ensures shorter { IfOk result (λ r. length r.1.now < length text.now) }
{
    let (first, rest) = part_of(alloc, joint, text, room)?;
    let Some(mut next) = after_joint(joint, rest) else {
        return Ok((first, rest));
    };
    let mut parts = Items::new(alloc);
    parts.push(first)?;
    loop {
        let (part, rest) = part_of(alloc, joint, next, room)?;
        parts.push(part)?;
        match after_joint(joint, rest) {
            Some(further) => next = further,
            None => return Ok((joined(joint, parts), rest)),
        }
    }
}

// The part that stands here, with at most so many brackets and NOTs within one another, and the text
// after it.
#[cycle(logic)]
fn part_at(alloc: Global, text: &[u8], room: usize) -> Result<(Expr, &[u8]), ReadingError>
    ensures value { MatchResult result (λ r. part_at room text.now ≡ Some (r.0, r.1.now)) (IsStop (part_at room text.now)) }
    ensures shorter { IfOk result (λ r. length r.1.now < length text.now) }
{
    if let Some(rest) = after_either(b"NOT", b"!", text) {
        if room == 0 {
            let left = after_spaces(text).len();
            return Err(ReadingError::Fault { left });
        }
        let (part, rest) = part_at(alloc, rest, room - 1)?;
        return Ok((Expr::Not(Boxed::new(alloc, part)?), rest));
    }
    if let Some(rest) = after_spaced(b"(", text) {
        if room == 0 {
            let left = after_spaces(text).len();
            return Err(ReadingError::Fault { left });
        }
        let (expr, rest) = joined_at(alloc, Joint::Or, rest, room - 1)?;
        return closed(expr, rest);
    }
    compare_at(alloc, text, room)
}

// The tree of a text, if it is a Logic.
#[tactic(auto, unfolding(crate::specs::Reading::logic_of))]
fn logic_of(alloc: Global, text: &[u8]) -> Result<Expr, ReadingError>
    ensures { MatchResult result (λ e. logic_of text.now ≡ Some e) (IsStop (logic_of text.now)) }
{
    let [b'(', rest @ ..] = text else {
        return Err(ReadingError::Fault { left: text.len() });
    };
    let (expr, rest) = joined_at(alloc, Joint::Or, rest, MAX_NESTING - 1)?;
    let (expr, rest) = closed(expr, rest)?;
    if rest.is_empty() {
        Ok(expr)
    } else {
        drop(expr);
        Err(ReadingError::Fault { left: rest.len() })
    }
}

/// The tree of the text of a Logic: a bracket, an expression, and the bracket that closes it.
///
/// A `Fault` where the grammar relates the text to no tree, as where more than `MAX_NESTING` brackets and
/// NOTs stand within one another, or a literal number is beyond its limit. `NoMemory` only where memory
/// was refused; it is taken for the tree alone. It reads each byte a few times.
pub fn read(alloc: Global, text: &[u8]) -> Result<Expr, ExprError>
    ensures tree { IfOk result (λ e. IsLogic text.now e) }
    ensures limits { IfOk result (λ e. IsExprWithinLimits e) }
    ensures fault { IfErr result (λ error. IsRefusal text.now error) }
{
    match logic_of(alloc, text) {
        Ok(expr) => Ok(expr),
        Err(ReadingError::Fault { left }) => {
            let at = text.len().saturating_sub(left);
            Err(ExprError::Fault(ExprFault { at }))
        }
        Err(ReadingError::NoMemory) => Err(ExprError::NoMemory),
    }
}
