//! Parts that lie in a buffer one after the other.
ghost use Rattle.std.specs.Prelude.{◌≡◌, ◌≤◌, ◌-◌, ℕ, List, drop, length, take, map, IfOk, MatchOption};
ghost use Rattle.yv_call.specs.Parts.{AreParts, HaveNoParts};

use std::alloc::{AllocError, Global};

// The bytes from one place to another: none if they are not in order, or past the bytes.
fn part_between(bytes: &[u8], start: usize, end: usize) -> Option<&[u8]>
    ensures { MatchOption result ((start ≤ end) × (end ≤ length bytes.now) → ⊥)
        (λ part. (start ≤ end) × (end ≤ length bytes.now)
        × (part.now ≡ take (end - start) (drop start bytes.now))) }
{
    if start <= end && end <= bytes.len() {
        Some(&bytes[start..end])
    } else {
        None
    }
}

/// The parts of some bytes by the places where they end: none if these fall, or lie past the bytes.
pub fn parts_of<'a>(
    alloc: Global,
    bytes: &'a [u8],
    ends: &[usize],
) -> Result<Option<Vec<&'a [u8]>>, AllocError>
    ensures { IfOk result (λ parts. MatchOption parts (HaveNoParts bytes.now ends.now)
        (λ v. AreParts bytes.now ends.now (map (λ p. p.now) v.items))) }
{
    let mut parts = Vec::new(alloc);
    let mut start = 0;
    for end in ends {
        match part_between(bytes, start, *end) {
            Some(part) => parts.push(part)?,
            None => return Ok(None),
        }
        start = *end;
    }
    Ok(Some(parts))
}
