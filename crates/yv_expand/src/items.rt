//! Items with all that is below them, as one list.
ghost use Rattle.std.specs.Prelude.{◌≡◌, ◌≤◌, ◌<◌, ◌+◌, ◌++◌, ◌⊎◌, ℕ, [], None, length, vec_capacity, OnErr, OnOk};
ghost use Rattle.yv_link_scopes.specs.Views.{lent_in, files_in, rows_in};
ghost use Rattle.yv_link_definitions.specs.Meanings.{AreNames};
ghost use Rattle.yv_expand.specs.{Tree.{Tree, count, item_list}, InnerItems.{AreBlocks, Give, origins}};

use crate::blocks::Blocks;
use crate::expansion::Expansion;
use crate::item::Item;
use crate::stack::put;
use std::alloc::AllocError;
use yv_expand_statements::Origin;
use yv_link_definitions::Names;
use yv_link_scopes::Rows;

/// Adds the items of these statements after the others, at the top, each with all that is below it,
/// which must fit the limit. The caller lends the stack. An error occurs only where one of the two
/// lists had no room for the limit, and more memory had to be allocated.
pub(crate) fn add_items(
    rows: &Rows<'_, '_>,
    names: &Names,
    blocks: &Blocks,
    firsts: &[usize],
    stack: &mut Vec<Item>,
    expansion: &mut Expansion,
) -> Result<(), AllocError>
    requires empty { stack.old.items ≡ [] }
    requires names { AreNames (lent_in rows.now) names.now }
    requires blocks { AreBlocks (rows_in rows.now) blocks.now }
    requires fits { (t : Tree) × Give (files_in rows.now) (rows_in rows.now) (origins firsts.now) t
        × (length expansion.old.items + count t ≤ expansion.old.limit) }
    ensures full { OnErr result
        ((vec_capacity stack.old < expansion.old.limit)
        ⊎ (expansion.old.capacity < expansion.old.limit)) }
    ensures empty { OnOk result (stack.new.items ≡ []) }
    ensures limit { expansion.new.limit ≡ expansion.old.limit }
    ensures items { (t : Tree) → Give (files_in rows.now) (rows_in rows.now) (origins firsts.now) t
        → OnOk result
        (expansion.new.items ≡ expansion.old.items
        ++ item_list None (length expansion.old.items) t) }
{
    crate::expansion_laws::a_tree_is_listed_whole::<Origin>();
    put(stack, firsts, None)?;
    while let Some(item) = stack.pop() {
        let number = expansion.len();
        expansion.push(item)?;
        blocks.put_below(rows, names, stack, item.origin, Some(number as usize))?;
    }
    Ok(())
}
