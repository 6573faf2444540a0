//! The intervals of a type's numbers.
ghost use Rattle.std.specs.{Prelude.{◌≡◌, true, false, map, IfOk, IfSome, IfNone}, Rc.{rc_slice_items}};
ghost use Rattle.yv_base_numbers.specs.{Intervals.{interval, ascend, are_among}, Numbers.{integer}};

use crate::integer::Integer;
use crate::order::{are_among, ascend};
use std::alloc::AllocError;
use std::marker::Model;
use std::rc::RcSlice;

/// A span of numbers: those from the low one to the high one, both included.
#[derive(Clone, Copy, Drop)]
pub struct Span {
    pub low: Integer,
    pub high: Integer,
}

/// The intervals of a type's numbers, or of the lengths of its texts or octets: none is empty, and
/// each begins above the one before it, as RFC 7950, sections 9.2.4 and 9.4.4, ask of a `range` and
/// of a `length`. So a number is found by binary search. Copies share one list. Contracts see it as
/// the list of the intervals.
#[derive(Drop)]
pub struct Intervals {
    spans: RcSlice<Span>,
}

impl Model for Intervals {
    ghost use Rattle.std.specs.{Prelude.{◌≡◌, List, map, true}, Rc.{rc_slice_items}};
    ghost use Rattle.yv_base_numbers.specs.Intervals.{Interval, interval, ascend};

    ghost Value = { List Interval };

    ghost view = { λ b. map interval (rc_slice_items b.spans) };

    ghost invariant = { λ b. ascend (map interval (rc_slice_items b.spans)) ≡ true };
}

impl Intervals {
    /// These intervals, or `None` where they don't ascend or one is empty. It takes linear time.
    pub fn new(spans: Vec<Span>) -> Result<Option<Intervals>, AllocError>
        // They are these intervals.
        ensures same { IfOk result (λ found. IfSome found (λ v. v ≡ map interval spans.items)) }
        // They ascend.
        ensures orders { IfOk result
            (λ found. IfSome found (λ v. ascend (map interval spans.items) ≡ true)) }
        // None is returned only if they don't ascend.
        ensures refuses { IfOk result
            (λ found. IfNone found (ascend (map interval spans.items) ≡ false)) }
    {
        if ascend(&spans) {
            Ok(Some(Intervals {
                spans: RcSlice::from_vec(spans)?,
            }))
        } else {
            Ok(None)
        }
    }

    /// Whether the number lies in one of the intervals. It takes time logarithmic in their count.
    pub fn holds(&self, number: Integer) -> bool
        ensures { result ≡ are_among self.now (integer number) }
    {
        are_among(&self.spans, number)
    }

    /// The intervals, in ascending order.
    pub fn spans(&self) -> &[Span]
        // The intervals that contracts see.
        ensures same { map interval result.now ≡ self.now }
        // They ascend.
        ensures orders { ascend self.now ≡ true }
    {
        &self.spans
    }

    /// The same intervals once more, over the same list. It takes constant time.
    pub fn copy(&self) -> Result<Intervals, AllocError>
        ensures { IfOk result (λ copy. copy ≡ self.now) }
    {
        Ok(Intervals {
            spans: self.spans.clone()?,
        })
    }
}
