//! Where the items below an item end.
ghost use Rattle.std.specs.Prelude.{◌≡◌, ◌<◌, ℕ, length, slice_get, slice_index_or, IfOk};
ghost use Rattle.yv_expand_uses.specs.{Ends.{end_at}, InnerEnds.{AreEnds, is_from_at}};

use std::alloc::{AllocError, Global};
use yv_expand::Item;

// Whether there is a next item, and it is below this one or one after it.
fn is_from(items: &[Item], number: usize, next: usize) -> bool
    ensures { result ≡ is_from_at number (slice_get items.now next) }
{
    match items.get(next) {
        Some(item) => match item.parent {
            Some(parent) => parent >= number,
            None => false,
        },
        None => false,
    }
}

// The number after the last item below this one, where that of each item after it is known.
fn end(items: &[Item], ends: &[usize], number: usize) -> usize
    requires within { number < length items.now }
    requires each { length ends.now ≡ length items.now }
    requires knows { (i : ℕ) → number < i → i < length items.now → slice_index_or ends.now i 0
        ≡ end_at items.now i }
    ensures { result ≡ end_at items.now number }
{
    let mut next = number + 1;
    while is_from(items, number, next) {
        next = ends[next];
    }
    next
}

/// For each item the number after that of the last item below it. Takes time linear in items. Err
/// only if memory runs out.
pub fn item_ends(alloc: Global, items: &[Item]) -> Result<Vec<usize>, AllocError>
    ensures { IfOk result (λ ends. AreEnds items.now ends.items) }
{
    let mut ends = vec![in alloc; 0; items.len()]?;
    let mut left = items.len();
    while left > 0 {
        left -= 1;
        ends[left] = end(items, &ends, left);
    }
    Ok(ends)
}
