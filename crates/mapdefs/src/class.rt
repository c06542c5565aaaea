use crate::{Expr, Items, Label, Limited, Limits, Style, Text};
use geom::Micro;

/// Which features belong to a class.
#[derive(Drop)]
pub enum Rule {
    /// All.
    Always,
    /// Those whose class item has this value.
    Equals(Text),
    /// Those whose class item has one of these values.
    OneOf(Items<Text>),
    /// Those for which the expression is true.
    Logic(Expr),
}

/// What a class says. `min` and `max` bound the scale denominator at which it is visible, in millionths.
/// `min` is included and `max` is not, and a `max` of 0 or less is none.
#[derive(Drop)]
pub struct ClassFields {
    pub rule: Rule,
    pub min: Option<Micro>,
    pub max: Option<Micro>,
    pub styles: Items<Style>,
    pub label: Option<Label>,
}

impl Limits for ClassFields {
    ghost use Rattle.mapdefs.specs.ClassLimits.{IsClassWithinLimits};

    ghost within = { IsClassWithinLimits };
}

/// A class: which features of a layer are painted and labelled how. It has at most `MAX_STYLES`
/// styles, and its expression at most `MAX_NESTING` brackets and NOTs within one another.
pub type Class = Limited<ClassFields>;
