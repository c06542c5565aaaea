ghost use Rattle.std.specs.Prelude.{◌≡◌, ◌^◌, pos, neg_ℤ, ◌+ℤ◌, ◌<ℤ◌, ◌≤ℤ◌};
ghost use Rattle.std.specs.Int.{int_div_euclid};
ghost use Rattle.geom.specs.Range.{IsBelow};

use std::marker::Model;

/// A number that grows or falls by equal steps, and its quotient by another number, rounded down. One division
/// finds the first quotient, and none the next ones.
#[derive(Drop)]
pub struct Steps {
    quotient: i64,
    left: i64,
    by: i64,
    each: i64,
}

impl Model for Steps {
    ghost use Rattle.std.specs.Prelude.{◌+ℤ◌, ◌*ℤ◌};
    ghost use Rattle.strokes.specs.Strip.{StepsValue, IsStepping};

    ghost Value = { StepsValue };

    ghost view = { λ s. record { at = s.quotient *ℤ s.each +ℤ s.left; by = s.by; each = s.each } };

    ghost invariant = { λ s. IsStepping s.quotient s.left s.by s.each };
}

impl Steps {
    /// Begins with the number `at`. Each step adds `by`, which is at most the divisor `each` in size.
    pub fn new(at: i64, by: i64, each: i64) -> Self
        requires some { pos 0 <ℤ each }
        requires divisor { IsBelow (2 ^ 40) each }
        requires forth { by ≤ℤ each }
        requires back { neg_ℤ each ≤ℤ by }
        requires number { IsBelow (2 ^ 53) at }
        ensures { result ≡ record { at = at; by = by; each = each } }
    {
        let quotient = at.div_euclid(each);
        Steps {
            quotient,
            left: at - quotient * each,
            by,
            each,
        }
    }

    /// The number by the divisor, rounded down.
    pub fn quotient(&self) -> i64
        ensures value { result ≡ int_div_euclid self.now.at self.now.each }
        ensures range { IsBelow (2 ^ 53) result }
    {
        self.quotient
    }

    /// Goes a step on.
    pub fn next(&mut self)
        requires { IsBelow (2 ^ 53) (self.old.at +ℤ self.old.by) }
        ensures { self.new ≡ record self.old { at = self.old.at +ℤ self.old.by } }
    {
        let left = self.left + self.by;
        if left >= self.each {
            self.left = left - self.each;
            self.quotient += 1;
        } else if left < 0 {
            self.left = left + self.each;
            self.quotient -= 1;
        } else {
            self.left = left;
        }
    }
}
