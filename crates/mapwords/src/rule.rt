ghost use Rattle.std.specs.Prelude.{◌≡◌, Some, IfOk, MatchResult, option_map};
ghost use Rattle.std.specs.List.{slice_split};
ghost use Rattle.mapdefs.specs.ClassLimits.{IsExprWithinLimits, IsRuleWithinLimits};
ghost use Rattle.mapdefs.specs.declared.class.Rule.TheVariants as RuleTree;
ghost use Rattle.expressions.specs.Reading.{logic_of};
ghost use Rattle.mapwords.specs.Rule.{is_comma, is_regex, rule_of, IsRuleErrorOf};

use crate::texts::{comma_parts, texts_of};
use expressions::{ExprError, read};
use mapdefs::{Expr, Items, Rule, Text};
use maplex::{Shape, Token};
use std::alloc::{AllocError, Global};
use std::marker::Model;

/// Why a token gives no rule.
pub enum RuleError {
    /// It is no expression.
    NoExpression,
    /// Memory was refused.
    NoMemory,
}

impl From<AllocError> for RuleError {
    ghost use Rattle.std.specs.Prelude.{◌≡◌};
    ghost use Rattle.mapwords.specs.declared.rule.RuleError.TheVariants.{NoMemory};

    ghost from_gives = { λ _ error. error ≡ NoMemory };

    fn from(_error: AllocError) -> RuleError {
        RuleError::NoMemory
    }
}

/// The rule of a class, within the limits of a class.
#[derive(Drop)]
pub struct ClassRule {
    rule: Rule,
}

impl Model for ClassRule {
    ghost use Rattle.mapdefs.specs.declared.class.Rule.{Rule as RuleValue};
    ghost use Rattle.mapdefs.specs.ClassLimits.{IsRuleWithinLimits};
    ghost use Rattle.mapdefs.specs.contracts.expr.Expr as expr;
    ghost use Rattle.std.specs.Coded.{codes};

    ghost Value = { RuleValue };

    ghost coded = { Prim.hlevel (codes, expr.the_row.coded) };

    ghost view = { λ r. r.rule };

    ghost invariant = { λ r. ∥ IsRuleWithinLimits r.rule ∥₁ };
}

// Texts between commas.
fn parts(alloc: Global, text: &str) -> Result<Items<Text>, AllocError>
    ensures { IfOk result (λ made. made ≡ slice_split is_comma text.now) }
{
    let parts = comma_parts(text, alloc)?;
    Ok(Items::of(texts_of(&parts, alloc)?))
}

// The tree of a Logic.
fn logic(text: &str, alloc: Global) -> Result<Expr, RuleError>
    ensures tree { MatchResult result
        (λ expr. logic_of text.now ≡ Some expr)
        (λ error. IsRuleErrorOf (option_map (λ expr. RuleTree.Logic expr) (logic_of text.now)) error) }
    ensures limits { IfOk result (λ expr. IsExprWithinLimits expr) }
{
    match read(alloc, text.as_bytes()) {
        Ok(expr) => Ok(expr),
        Err(ExprError::Fault(_)) => Err(RuleError::NoExpression),
        Err(ExprError::NoMemory) => Err(RuleError::NoMemory),
    }
}

// Whether a bare word is a regular expression, which no class may have.
fn is_regex(text: &str) -> bool
    ensures { result ≡ is_regex text.now }
{
    matches!(text.as_bytes(), [b'/', ..])
}

impl ClassRule {
    /// The rule that a token means.
    pub fn read(token: &Token, alloc: Global) -> Result<Self, RuleError>
        ensures { MatchResult result
            (λ rule. rule_of token.now.shape token.now.text ≡ Some rule)
            (IsRuleErrorOf (rule_of token.now.shape token.now.text)) }
    {
        let rule = match token.shape {
            Shape::Word if is_regex(token.text) => return Err(RuleError::NoExpression),
            Shape::Word | Shape::Text => Rule::Equals(Text::from_str(alloc, token.text)?),
            Shape::List => Rule::OneOf(parts(alloc, token.text)?),
            Shape::Logic => Rule::Logic(logic(token.text, alloc)?),
        };
        Ok(ClassRule { rule })
    }

    /// The rule.
    pub fn get(self) -> Rule
        ensures value { result ≡ self }
        ensures limits { ∥ IsRuleWithinLimits result ∥₁ }
    {
        let ClassRule { rule } = self;
        rule
    }
}
