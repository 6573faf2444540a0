//! Which intervals lie within others.
ghost use Rattle.std.specs.{Prelude.{◌≡◌, true, map, int_le, [], ◌++◌, ◌∷◌, IfSome, IfNone}, List.{list_any}};
ghost use Rattle.yv_base_numbers.specs.RestrictedIntervals.{interval, ascend, lies_in, lie_within};

use crate::integer::is_at_most;
use crate::intervals::Span;

/// Whether each of some intervals that ascend lies within one interval of a base that ascends, too.
pub fn lie_within(base: &[Span], spans: &[Span]) -> bool
    requires whole { ascend (map interval base.now) ≡ true }
    requires parts { ascend (map interval spans.now) ≡ true }
    ensures { result ≡ lie_within (map interval base.now) (map interval spans.now) }
{
    let mut rest = spans;
    while let Some((span, others)) = rest.split_first() {
        if !lies_in_any(base, *span) {
            return false;
        }
        rest = others;
    }
    true
}

// The base is halved at its middle interval as long as the other doesn't lie within that one.
fn lies_in_any(base: &[Span], span: Span) -> bool
    requires whole { ascend (map interval base.now) ≡ true }
    requires part { int_le (interval span).low (interval span).high ≡ true }
    ensures { result ≡ list_any (lies_in (interval span)) (map interval base.now) }
{
    let mut rest = base;
    while let Some((lower, middle, higher)) = halves(rest) {
        if lies_in(span, middle) {
            return true;
        }
        rest = if is_at_most(span.low, middle.high) {
            lower
        } else {
            higher
        };
    }
    false
}

// The intervals below the middle one, that one, and those above it.
fn halves(spans: &[Span]) -> Option<(&[Span], Span, &[Span])>
    ensures some { IfSome result (λ h. spans.now ≡ h.0.now ++ h.1 ∷ h.2.now) }
    ensures none { IfNone result (spans.now ≡ []) }
{
    let (lower, others) = spans.split_at(spans.len() / 2);
    match others.split_first() {
        Some((middle, higher)) => Some((lower, *middle, higher)),
        None => None,
    }
}

fn lies_in(span: Span, whole: Span) -> bool
    ensures { result ≡ lies_in (interval span) (interval whole) }
{
    is_at_most(whole.low, span.low) && is_at_most(span.high, whole.high)
}
