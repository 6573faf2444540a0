//! Restrictions by `range` and by `length`.
ghost use Rattle.std.specs.Prelude.{◌≡◌, List, map, true, false, ◌&&◌, IfOk, IfSome, IfNone};
ghost use Rattle.yv_base_numbers.specs.{RestrictedIntervals.{Interval, interval, ascend, lie_within}, Restrictions.{Restricts}};

use crate::intervals::{Intervals, Span};
use crate::parts::{intervals_of, pieces};
use crate::restriction_order::lie_within;
use std::alloc::{AllocError, Global};

/// The intervals that the argument of a `range` leaves of a type's (RFC 7950, sections 9.2.4 and
/// 9.3.4), or that of a `length` (section 9.4.4), or `None` where it doesn't restrict that type.
/// The type's numbers are whole, or decimals with so many fraction digits, which count as the
/// number scaled by them. It takes time linear in the text, and for each of its parts one
/// logarithmic in the count of the type's intervals.
pub fn restrict(
    alloc: Global,
    text: &str,
    base: &Intervals,
    digits: Option<u32>,
) -> Result<Option<Intervals>, AllocError>
    // The intervals are those to which the text restricts the base.
    ensures restricts { IfOk result (λ found. IfSome found (Restricts digits base.now text.now)) }
    // None is returned only if the text restricts the base to nothing.
    ensures refuses { IfOk result (λ found. IfNone found
        ((is : List Interval) → Restricts digits base.now text.now is → ⊥)) }
{
    let pieces = pieces(alloc, text)?;
    match intervals_of(alloc, digits, base.spans(), &pieces)? {
        Some(spans) => restricted_to(base, spans),
        None => Ok(None),
    }
}

// These intervals, where they ascend and lie within the base's.
fn restricted_to(base: &Intervals, spans: Vec<Span>) -> Result<Option<Intervals>, AllocError>
    ensures some { IfOk result (λ found. IfSome found (λ v. v ≡ map interval spans.items)) }
    ensures takes { IfOk result
        (λ found. IfSome found
        (λ v. (ascend (map interval spans.items) && lie_within base.now (map interval spans.items))
        ≡ true)) }
    ensures refuses { IfOk result
        (λ found. IfNone found
        ((ascend (map interval spans.items) && lie_within base.now (map interval spans.items))
        ≡ false)) }
{
    match Intervals::new(spans)? {
        Some(intervals) => {
            if lie_within(base.spans(), intervals.spans()) {
                Ok(Some(intervals))
            } else {
                Ok(None)
            }
        }
        None => Ok(None),
    }
}
