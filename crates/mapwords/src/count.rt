ghost use Rattle.std.specs.Prelude.{◌≡◌, ◌≤◌, IfSome};
ghost use Rattle.mapwords.specs.Count.{read_count, counted, none_as_zero, number_of};
ghost use Rattle.mapwords.specs.Table.{least_of, most_of};

use crate::table::CountKeyword;
use geom::Micro;
use std::marker::Model;

/// A count that a keyword takes, within the bounds of the keyword.
#[derive(Drop)]
pub struct Count {
    keyword: CountKeyword,
    number: u16,
}

impl Model for Count {
    ghost use Rattle.std.specs.Prelude.{◌≤◌};
    ghost use Rattle.mapwords.specs.Count.{CountValue};
    ghost use Rattle.mapwords.specs.Table.{least_of, most_of};

    ghost Value = { CountValue };

    ghost view = { λ c. record { keyword = c.keyword; number = c.number } };

    ghost invariant = { λ c. (least_of c.keyword ≤ c.number) × (c.number ≤ most_of c.keyword) };
}

// A count, where -1 of MINDISTANCE is 0.
fn none_as_zero(keyword: CountKeyword, count: i64) -> i64
    ensures { result ≡ none_as_zero keyword count }
{
    match (keyword, count) {
        (CountKeyword::MinDistance, -1) => 0,
        _ => count,
    }
}

// The count that a text is, if it is within the bounds of the keyword.
fn counted(keyword: CountKeyword, text: &str) -> Option<u16>
    ensures value { result ≡ counted keyword text.now }
    ensures bounds { IfSome result (λ n. (least_of keyword ≤ n) × (n ≤ most_of keyword)) }
{
    let count = Micro::read_count(text.as_bytes())?;
    let number = u16::try_from(none_as_zero(keyword, count)).ok()?;
    if keyword.least() <= number && number <= keyword.most() {
        Some(number)
    } else {
        None
    }
}

impl Count {
    /// The count of a keyword that a text is, if it is within the bounds of the keyword.
    pub fn read(keyword: CountKeyword, text: &str) -> Option<Count>
        ensures { result ≡ read_count keyword text.now }
    {
        let number = counted(keyword, text)?;
        Some(Count { keyword, number })
    }

    /// The count, if it is one of this keyword.
    pub fn of(&self, keyword: CountKeyword) -> Option<u16>
        ensures value { result ≡ number_of keyword self.now }
        ensures bounds { IfSome result (λ n. (least_of keyword ≤ n) × (n ≤ most_of keyword)) }
    {
        if self.keyword.number() == keyword.number() {
            Some(self.number)
        } else {
            None
        }
    }
}
