ghost use Rattle.std.specs.Prelude.{◌≡◌, position};
ghost use Rattle.std.specs.Str.{str_eq_ignore_ascii_case};
ghost use Rattle.std.specs.List.{list_any, list_all};
ghost use Rattle.mapdefs.specs.Truth.{item_value, text_of, asks_numbers, number_of, accepts, is_true_of_numbers, is_true_of_texts, is_true, truth};
ghost use Rattle.mapdefs.specs.Class.{holds};
ghost use Rattle.mapdefs.specs.Name.{is_same_name};

use geom::{Micro, NUMBER_LIMIT};
use mapdefs::{Comparison, Expr, Operand, Rule, Text, Values};
use std::cmp::Ordering;

// Whether two texts are equal without regard to case of ASCII letters.
fn is_alike(a: &str, b: &str) -> bool
    ensures { result ≡ str_eq_ignore_ascii_case a.now b.now }
{
    a.eq_ignore_ascii_case(b)
}

// The index of the first item with this name, without regard to case of ASCII letters.
fn item_index(names: &[Text], name: &str) -> Option<usize>
    ensures { result ≡ position (λ item. str_eq_ignore_ascii_case item name.now) names.now }
{
    names.iter().position(|item| is_alike(item.as_str(), name))
}

/// The value of the first item with this name, without regard to case of ASCII letters, or the empty
/// text where there is none.
pub fn item_value<'a>(names: &[Text], values: &'a Values, name: &str) -> &'a str
    ensures { result.now ≡ item_value names.now values.now name.now }
{
    let Some(index) = item_index(names, name) else {
        return "";
    };
    values.get(index).unwrap_or("")
}

// Whether an operand requires numbers.
fn asks_numbers(operand: &Operand) -> bool
    ensures { result ≡ asks_numbers operand.now }
{
    matches!(operand, Operand::Number(..) | Operand::Item(_))
}

// Whether a comparison is true of operands in this order.
fn accepts(comparison: Comparison, order: Ordering) -> bool
    ensures { result ≡ accepts comparison order }
{
    match comparison {
        Comparison::Equal => order.is_eq(),
        Comparison::NotEqual => order.is_ne(),
        Comparison::Less => order.is_lt(),
        Comparison::Greater => order.is_gt(),
        Comparison::AtMost => order.is_le(),
        Comparison::AtLeast => order.is_ge(),
        Comparison::EqualIgnoringCase | Comparison::In => false,
    }
}

// Whether a comparison is true of two numbers, where both exist.
fn is_true_of_numbers(comparison: Comparison, left: Option<Micro>, right: Option<Micro>) -> bool
    ensures { result ≡ is_true_of_numbers comparison left right }
{
    match (left, right) {
        (Some(left), Some(right)) => accepts(comparison, left.cmp(&right)),
        _ => false,
    }
}

// Whether a text is one of another's parts between commas.
fn is_one_of(text: &str, list: &str) -> bool
    ensures { result ≡ is_true_of_texts Comparison.In text.now list.now }
{
    list.split(',').any(|part| part == text)
}

// Whether a comparison is true of two texts.
fn is_true_of_texts(comparison: Comparison, left: &str, right: &str) -> bool
    ensures { result ≡ is_true_of_texts comparison left.now right.now }
{
    match comparison {
        Comparison::EqualIgnoringCase => is_alike(left, right),
        Comparison::In => is_one_of(left, right),
        _ => accepts(comparison, left.as_bytes().cmp(right.as_bytes())),
    }
}

// The items of a feature.
#[derive(Drop)]
struct FeatureItems<'a> {
    names: &'a [Text],
    values: &'a Values,
}

impl<'a> FeatureItems<'a> {
    // The text of an operand.
    fn text_of(&self, operand: &'a Operand) -> &'a str
        ensures { result.now ≡ text_of self.now.names.now self.now.values.now operand.now }
    {
        match operand {
            Operand::Number(_, text) | Operand::Text(text) => text.as_str(),
            Operand::Item(name) | Operand::ItemText(name) => {
                item_value(self.names, self.values, name.as_str())
            }
        }
    }

    // The number of an operand, if it has one.
    fn number_of(&self, operand: &'a Operand) -> Option<Micro>
        ensures { result ≡ number_of self.now.names.now self.now.values.now operand.now }
    {
        match operand {
            Operand::Number(number, _) => Some(*number),
            _ => Micro::read(self.text_of(operand).as_bytes(), NUMBER_LIMIT).ok(),
        }
    }

    // Whether a comparison of two operands is true.
    fn is_true(&self, comparison: Comparison, left: &'a Operand, right: &'a Operand) -> bool
        ensures { result ≡ is_true self.now.names.now self.now.values.now comparison left.now right.now }
    {
        let is_of_texts = matches!(comparison, Comparison::EqualIgnoringCase | Comparison::In);
        if !is_of_texts && (asks_numbers(left) || asks_numbers(right)) {
            let left = self.number_of(left);
            let right = self.number_of(right);
            return is_true_of_numbers(comparison, left, right);
        }
        let left = self.text_of(left);
        let right = self.text_of(right);
        is_true_of_texts(comparison, left, right)
    }
}

// Whether some part is true of a feature.
#[cycle(truth)]
fn is_any_true(names: &[Text], values: &Values, parts: &[Expr]) -> bool
    ensures { result ≡ list_any (truth names.now values.now) parts.now }
{
    for part in parts {
        if is_expr_true(names, values, part) {
            return true;
        }
    }
    false
}

// Whether each part is true of a feature.
#[cycle(truth)]
fn are_all_true(names: &[Text], values: &Values, parts: &[Expr]) -> bool
    ensures { result ≡ list_all (truth names.now values.now) parts.now }
{
    for part in parts {
        if !is_expr_true(names, values, part) {
            return false;
        }
    }
    true
}

// Whether an expression is true of a feature.
#[cycle(truth)]
fn is_expr_true(names: &[Text], values: &Values, expr: &Expr) -> bool
    ensures { result ≡ truth names.now values.now expr.now }
{
    match expr {
        Expr::Or(parts) => is_any_true(names, values, parts.as_slice()),
        Expr::And(parts) => are_all_true(names, values, parts.as_slice()),
        Expr::Not(part) => !is_expr_true(names, values, part.get()),
        Expr::Compare(comparison, left, right) => {
            let items = FeatureItems { names, values };
            items.is_true(*comparison, left, right)
        }
    }
}

// Whether a value is one of some texts.
fn is_among(texts: &[Text], value: &str) -> bool
    ensures { result ≡ list_any (λ text. is_same_name text value.now) texts.now }
{
    texts.iter().any(|text| text.as_str() == value)
}

/// Whether the rule of a class is true of a feature: by the names of its items and their values, and by
/// the value of the class item.
///
/// It takes no memory, and recurses as deep as the expression is nested.
pub fn holds(rule: &Rule, names: &[Text], values: &Values, class_value: &str) -> bool
    ensures { result ≡ holds rule.now names.now values.now class_value.now }
{
    match rule {
        Rule::Always => true,
        Rule::Equals(text) => text.as_str() == class_value,
        Rule::OneOf(texts) => is_among(texts.as_slice(), class_value),
        Rule::Logic(expr) => is_expr_true(names, values, expr),
    }
}
