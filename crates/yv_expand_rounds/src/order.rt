//! The order of items of one place: first what no augment of a module gives, then what such
//! augments give, each by number.
ghost use Rattle.std.specs.{Prelude.{◌≡◌}, Ordering.{is_lt}, List.Sorted.{IsPermutation, IsSorted}};
ghost use Rattle.yv_expand_rounds.specs.Order.{is_given, sibling_cmp};

use crate::label::Label;

// Whether an augment of a module gives an item.
fn is_given(labels: &[Label], item: usize) -> bool
    ensures { result ≡ is_given labels.now item }
{
    match labels.get(item) {
        Some(label) => label.given,
        None => false,
    }
}

/// Whether an item comes before another.
pub(crate) fn comes_before(labels: &[Label], item: usize, other: usize) -> bool
    ensures { result ≡ is_lt (sibling_cmp labels.now item other) }
{
    match (is_given(labels, item), is_given(labels, other)) {
        (false, true) => true,
        (true, false) => false,
        _ => item < other,
    }
}

/// Puts items in order.
pub(crate) fn sort(labels: &[Label], items: &mut Vec<usize>)
    ensures permutation { IsPermutation items.old.items items.new.items }
    ensures sorts { IsSorted (sibling_cmp labels.now) items.new.items }
{
    items.sort_unstable_by_key(|item| (is_given(labels, *item), *item));
}
