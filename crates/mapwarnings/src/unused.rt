ghost use Rattle.std.specs.Prelude.{◌≡◌};
ghost use Rattle.std.specs.List.{list_any};
ghost use Rattle.mapwarnings.specs.Unused.{has_item, is_bare, is_fontless, is_unclassed, lacks_font, lacks_in, lacks_named, lacks_of_rule, lacks_side};

use mapdefs::{ClassFields, Expr, LayerFields, Operand, Rule, Text};

// Whether one of some items has this name, without regard to case of ASCII letters.
fn has_item(items: &[Text], name: &str) -> bool
    ensures { result ≡ has_item items.now name.now }
{
    items
        .iter()
        .any(|item| item.as_str().eq_ignore_ascii_case(name))
}

/// Whether an item is named, and none of the items has that name.
pub fn lacks_named(items: &[Text], name: &Option<Text>) -> bool
    ensures { result ≡ lacks_named items.now name.now }
{
    match name {
        Some(name) => !has_item(items, name.as_str()),
        None => false,
    }
}

// Whether a side of a comparison looks at a missing item.
fn lacks_side(items: &[Text], side: &Operand) -> bool
    ensures { result ≡ lacks_side items.now side.now }
{
    match side {
        Operand::Item(name) | Operand::ItemText(name) => !has_item(items, name.as_str()),
        Operand::Number(..) | Operand::Text(_) => false,
    }
}

// Whether one of some parts does.
#[cycle(missing)]
fn lacks_in_some(items: &[Text], parts: &[Expr]) -> bool
    ensures { result ≡ list_any (lacks_in items.now) parts.now }
{
    for part in parts {
        if lacks_in(items, part) {
            return true;
        }
    }
    false
}

// Whether an expression looks at a missing item.
#[cycle(missing)]
fn lacks_in(items: &[Text], expr: &Expr) -> bool
    ensures { result ≡ lacks_in items.now expr.now }
{
    match expr {
        Expr::Or(parts) => lacks_in_some(items, parts.as_slice()),
        Expr::And(parts) => lacks_in_some(items, parts.as_slice()),
        Expr::Not(part) => lacks_in(items, part.get()),
        Expr::Compare(_, left, right) => lacks_side(items, left) || lacks_side(items, right),
    }
}

/// Whether the expression of a class looks at a missing item.
pub fn lacks_of_rule(items: &[Text], rule: &Rule) -> bool
    ensures { result ≡ lacks_of_rule items.now rule.now }
{
    match rule {
        Rule::Logic(expr) => lacks_in(items, expr),
        Rule::Always | Rule::Equals(_) | Rule::OneOf(_) => false,
    }
}

/// Whether a class has a label without a font.
pub fn is_fontless(class: &ClassFields) -> bool
    ensures { result ≡ is_fontless class.now }
{
    match &class.label {
        Some(label) => label.get().font.is_none(),
        None => false,
    }
}

/// Whether a class has a label whose FONT is none of the map's.
pub fn lacks_font(class: &ClassFields) -> bool
    ensures { result ≡ lacks_font class.now }
{
    match &class.label {
        Some(label) => label.get().lacks_font,
        None => false,
    }
}

/// Whether a class paints and labels nothing.
pub fn is_bare(class: &ClassFields) -> bool
    ensures { result ≡ is_bare class.now }
{
    class.styles.as_slice().is_empty() && class.label.is_none()
}

/// Whether a layer has features, and no class that they could be of.
pub fn is_unclassed(layer: &LayerFields) -> bool
    ensures { result ≡ is_unclassed layer.now }
{
    !layer.features.as_slice().is_empty() && layer.classes.as_slice().is_empty()
}
