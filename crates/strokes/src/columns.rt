ghost use Rattle.std.specs.Prelude.{◌≡◌, ℕ, ◌<◌, ◌≤◌, ◌^◌, ◌&&◌, pos, ◌+ℤ◌, ◌*ℤ◌, neg_ℤ, int_lt, int_le, ◌<ℤ◌};
ghost use Rattle.std.specs.Int.{int_div_euclid};
ghost use Rattle.geom.specs.Range.{IsBelow};
ghost use Rattle.scanfill.specs.Runs.{has_column};
ghost use Rattle.strokes.specs.Columns.{is_kept};

use clip::clamped;
use scanfill::Span;

/// The columns of the span in which so many times the column, and an offset, are no less than 0. They may
/// be rows, too.
pub fn kept(span: Span, scale: i64, offset: i128) -> Span
    requires scale { IsBelow (2 ^ 54) scale }
    requires offset { IsBelow (2 ^ 100) offset }
    ensures all { (i : ℕ) → has_column result i ≡ (has_column span i && is_kept scale offset i) }
    ensures within { result.to ≤ span.to }
{
    if scale > 0 {
        let least = clamped(-quotient(offset, scale), span.to);
        Span {
            from: span.from.max(least),
            to: span.to,
        }
    } else if scale < 0 {
        let past = clamped(quotient(offset, -scale) + 1, span.to);
        Span {
            from: span.from,
            to: past,
        }
    } else if offset < 0 {
        Span { from: 0, to: 0 }
    } else {
        span
    }
}

// The quotient, rounded down.
fn quotient(offset: i128, scale: i64) -> i128
    requires some { pos 0 <ℤ scale }
    requires scale { IsBelow (2 ^ 54) scale }
    requires offset { IsBelow (2 ^ 100) offset }
    ensures value { result ≡ int_div_euclid offset scale }
    ensures range { IsBelow (2 ^ 100) result }
{
    offset.div_euclid(i128::from(scale))
}
