//! What is left of the final tree.
ghost use Rattle.std.specs.Prelude.{◌≡◌, ◌++◌, ◌&&◌, not, None, slice_get, IfOk, OnOk};
ghost use Rattle.yv_expand_rounds.specs.Tree.{Tree, tree_list};
ghost use Rattle.yv_expand_augments.specs.{Remains.{is_left, is_some_uses, remains}, InnerRemains.{cut_after, is_below, is_left_under, one_if, scan}};

use std::alloc::{AllocError, Global};
use yv_base_graph::is_marked;
use yv_expand_rounds::ItemRow;
use yv_expand_uses::{Spot, is_uses};

// Whether an item is below one of this depth.
fn is_below(cut: Option<usize>, depth: usize) -> bool
    ensures { result ≡ is_below cut depth }
{
    match cut {
        Some(cut) => cut < depth,
        None => false,
    }
}

// Whether an item is a uses, where there is one.
fn is_some_uses(spot: Option<Spot>) -> bool
    ensures { result ≡ is_some_uses spot }
{
    match spot {
        Some(spot) => is_uses(spot.label.kind),
        None => false,
    }
}

// Whether an item is a node that is kept.
fn is_left(spots: &[Spot], marks: &[bool], number: usize) -> bool
    ensures { result ≡ is_left spots.now marks.now number }
{
    is_marked(marks, number) && !is_some_uses(spots.get(number).copied())
}

// The depth of the item that isn't kept after an item of this depth, and whether that one is left.
fn step(cut: Option<usize>, kept: bool, depth: usize) -> (Option<usize>, bool)
    ensures cuts { result.0 ≡ cut_after cut kept depth }
    ensures is_left { result.1 ≡ is_left_under cut kept depth }
{
    if is_below(cut, depth) {
        return (cut, false);
    }
    if kept {
        (None, true)
    } else {
        (Some(depth), false)
    }
}

// One item more, if it is left.
fn add(rows: &mut Vec<ItemRow>, row: ItemRow, is_left: bool) -> Result<(), AllocError>
    ensures { OnOk result (rows.new.items ≡ rows.old.items ++ one_if is_left row) }
{
    if is_left {
        rows.push(row)?;
    }
    Ok(())
}

// The items of a list that are left.
fn scan(
    alloc: Global,
    spots: &[Spot],
    tree: &[ItemRow],
    marks: &[bool],
) -> Result<Vec<ItemRow>, AllocError>
    ensures { IfOk result (λ rows. rows.items ≡ scan (is_left spots.now marks.now) None tree.now) }
{
    let mut rows = Vec::with_capacity(alloc, tree.len())?;
    let mut cut = None;
    for row in tree {
        let (next, is_left) = step(cut, is_left(spots, marks, row.number), row.depth);
        add(&mut rows, *row, is_left)?;
        cut = next;
    }
    Ok(rows)
}

/// What is left of the final tree, as a list. An item without a mark is left out, and so is a uses,
/// which is not a schema node, with everything below either. Takes time and memory linear in the
/// list.
pub fn remaining_rows(
    alloc: Global,
    spots: &[Spot],
    tree: &[ItemRow],
    marks: &[bool],
) -> Result<Vec<ItemRow>, AllocError>
    ensures { (t : Tree) → tree.now ≡ tree_list None 1 t
        → IfOk result
        (λ rows. rows.items ≡ tree_list None 1 (remains (is_left spots.now marks.now) t)) }
{
    scan(alloc, spots, tree, marks)
}
