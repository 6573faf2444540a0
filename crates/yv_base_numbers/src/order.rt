//! The order of intervals.
ghost use Rattle.std.specs.Prelude.{◌≡◌, true, map};
ghost use Rattle.yv_base_numbers.specs.{Intervals.{interval, ends_below, ascend, are_among}, Numbers.{integer}};

use crate::integer::{Integer, is_at_most};
use crate::intervals::Span;

/// Whether none is empty, and each begins above the one before it.
pub fn ascend(spans: &[Span]) -> bool
    ensures { result ≡ ascend (map interval spans.now) }
{
    let mut rest = spans;
    while let Some((span, others)) = rest.split_first() {
        if !is_at_most(span.low, span.high) || !ends_below(*span, others) {
            return false;
        }
        rest = others;
    }
    true
}

fn ends_below(span: Span, others: &[Span]) -> bool
    ensures { result ≡ ends_below (interval span) (map interval others.now) }
{
    match others.first() {
        Some(next) => !is_at_most(next.low, span.high),
        None => true,
    }
}

/// Whether the number lies in one of some intervals that ascend: in the last that doesn't begin
/// above it, or in none.
pub fn are_among(spans: &[Span], number: Integer) -> bool
    requires { ascend (map interval spans.now) ≡ true }
    ensures { result ≡ are_among (map interval spans.now) (integer number) }
{
    let count = spans.partition_point(|span| is_at_most(span.low, number));
    if count == 0 {
        return false;
    }
    is_at_most(number, spans[count - 1].high)
}
