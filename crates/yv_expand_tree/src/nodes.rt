//! What is left of a final tree as nodes.
ghost use Rattle.std.specs.Prelude.{◌≡◌, ℕ, None, slice_index_or, IfOk, OnOk};
ghost use Rattle.yv_expand.specs.Tree as expansion;
ghost use Rattle.yv_expand_rounds.specs.Tree.{Tree, tree_list};
ghost use Rattle.yv_expand_tree.specs.{Remains.{nodes_of}, InnerNodes.{enter, last_above}};

use std::alloc::{AllocError, Global};
use yv_expand::RemainingNode;
use yv_expand_rounds::ItemRow;

// Notes the place of a node, which is now the last of its depth.
fn put(places: &mut Vec<Option<usize>>, depth: usize, place: usize) -> Result<(), AllocError>
    ensures { OnOk result
        ((d : ℕ) → slice_index_or places.new.items d None
        ≡ enter depth place (λ e. slice_index_or places.old.items e None) d) }
{
    while places.len() <= depth {
        places.push(None)?;
    }
    places[depth] = Some(place);
    Ok(())
}

// The place of the node above what is at a depth: the last of the depth before.
fn above(places: &[Option<usize>], depth: usize) -> Option<usize>
    ensures { result ≡ last_above (λ d. slice_index_or places.now d None) depth }
{
    if depth == 0 {
        return None;
    }
    places.get(depth - 1).copied().unwrap_or(None)
}

/// The items of a tree as nodes: each with the number of its item as its origin, and the place of
/// the node above it.
pub(crate) fn nodes(alloc: Global, tree: &[ItemRow]) -> Result<Vec<RemainingNode>, AllocError>
    ensures { (t : Tree) → tree.now ≡ tree_list None 1 t
        → IfOk result (λ nodes. nodes.items ≡ expansion.item_list None 0 (nodes_of t)) }
{
    // The place of the last node at each depth.
    let mut places = Vec::new(alloc);
    let mut nodes = Vec::with_capacity(alloc, tree.len())?;
    for (place, row) in tree.iter().enumerate() {
        nodes.push(RemainingNode {
            origin: row.number,
            parent: above(&places, row.depth),
        })?;
        put(&mut places, row.depth, place)?;
    }
    Ok(nodes)
}
