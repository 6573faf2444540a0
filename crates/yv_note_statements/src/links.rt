//! Numbered items in lists.
ghost use Rattle.std.specs.Prelude.{◌≡◌, ◌<◌, ℕ, length, IfOk, Option, None, slice_index_or};
ghost use Rattle.yv_note_statements.specs.Lists.{Puts, first_at, item_of, next_at};

use std::alloc::{AllocError, Global};

/// For each number the first item of the list of that number, and for each item the next one of
/// its list. An item is kept as its number and one, and none as 0, so that little memory is
/// written.
#[derive(Drop)]
pub(crate) struct Links {
    first: Vec<usize>,
    next: Vec<usize>,
}

// The item that is kept at a place of a table, if it has that place.
fn item_at(kept: &[usize], place: usize) -> Option<usize>
    ensures { result ≡ item_of (slice_index_or kept.now place 0) }
{
    if place < kept.len() {
        kept[place].checked_sub(1)
    } else {
        None
    }
}

impl Links {
    /// So many items, of which none is in a list.
    pub(crate) fn new(alloc: Global, count: usize) -> Result<Links, AllocError>
        ensures firsts { IfOk result (λ links. length links.first.items ≡ count) }
        ensures nexts { IfOk result (λ links. length links.next.items ≡ count) }
        ensures none { IfOk result (λ links. (list : ℕ) → first_at links list ≡ None) }
    {
        Ok(Links {
            first: vec![in alloc; 0; count]?,
            next: vec![in alloc; 0; count]?,
        })
    }

    /// Puts an item, which comes before all items so far, into a list.
    pub(crate) fn put(&mut self, list: Option<usize>, item: usize)
        requires { item < length self.old.next.items }
        ensures { Puts list item self.old self.new }
    {
        if let Some(list) = list {
            if list < self.first.len() {
                self.next[item] = self.first[list];
                self.first[list] = item + 1;
            }
        }
    }

    /// The first item of a list.
    pub(crate) fn first(&self, list: usize) -> Option<usize>
        ensures { result ≡ first_at self.now list }
    {
        item_at(&self.first, list)
    }

    /// The next item of the list in which an item is.
    pub(crate) fn next(&self, item: usize) -> Option<usize>
        ensures { result ≡ next_at self.now item }
    {
        item_at(&self.next, item)
    }
}
