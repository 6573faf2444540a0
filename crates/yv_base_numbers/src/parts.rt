//! The parts of a restriction's text.
ghost use Rattle.std.specs.{Prelude.{◌≡◌, ◌==◌, map, option_map, IfOk}, List.{slice_split}};
ghost use Rattle.yv_base_numbers.specs.{RestrictedIntervals.{interval}, InnerParts.{all_of}, Restrictions.{part_of}};

use crate::bound::part_of;
use crate::intervals::Span;
use std::alloc::{AllocError, Global};

/// What the text is cut into at each bar.
pub fn pieces<'a>(alloc: Global, text: &'a str) -> Result<Vec<&'a str>, AllocError>
    ensures { IfOk result (λ v. map (λ w. w.now) v.items ≡ slice_split (λ c. c == 124) text.now) }
{
    text.split('|').collect(alloc)
}

/// The intervals that the pieces say, where each says one.
pub fn intervals_of(
    alloc: Global,
    digits: Option<u32>,
    base: &[Span],
    pieces: &[&str],
) -> Result<Option<Vec<Span>>, AllocError>
    ensures { IfOk result (λ found. option_map (λ v. map interval v.items) found
        ≡ all_of (part_of digits (map interval base.now)) (map (λ w. w.now) pieces.now)) }
{
    let mut spans = Vec::new(alloc);
    for piece in pieces {
        match part_of(digits, base, piece.as_bytes()) {
            Some(span) => spans.push(span)?,
            None => return Ok(None),
        }
    }
    Ok(Some(spans))
}
