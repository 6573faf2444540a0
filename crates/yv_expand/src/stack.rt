//! The items that are still to be expanded.
ghost use Rattle.std.specs.Prelude.{◌≡◌, ◌<◌, ◌≤◌, ◌+◌, ◌++◌, length, reverse, vec_capacity, OnErr, OnOk};
ghost use Rattle.yv_expand.specs.InnerItems.{items_below, origins};

use crate::item::Item;
use std::alloc::AllocError;
use yv_expand_statements::Origin;

/// Puts the items of statements of one parent on a stack, the first on top.
pub(crate) fn put(
    stack: &mut Vec<Item>,
    numbers: &[usize],
    parent: Option<usize>,
) -> Result<(), AllocError>
    ensures items { OnOk result
        (stack.new.items ≡ stack.old.items ++ reverse (items_below parent (origins numbers.now))) }
    ensures full { OnErr result
        (vec_capacity stack.old < length stack.old.items + length numbers.now) }
    ensures grows { vec_capacity stack.old ≤ vec_capacity stack.new }
{
    let mut rest = numbers;
    while let Some((last, others)) = rest.split_last() {
        stack.push(Item {
            origin: Origin::Statement(*last),
            parent,
        })?;
        rest = others;
    }
    Ok(())
}
