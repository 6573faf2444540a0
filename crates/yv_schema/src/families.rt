//! Which nodes are below which.
ghost use Rattle.std.specs.Prelude.{◌≡◌, ◌<◌, ◌++◌, ◌∷◌, [], None, length, slice_index_or, slice_set, IfOk, OnOk};
ghost use Rattle.yv_expand.specs.Tree.{Nodes, item_list};
ghost use Rattle.yv_schema.specs.Families.{below_from, lists_of, numbers_from};

use std::alloc::{AllocError, Global};
use yv_expand::RemainingNode;

/// The lists of children: the numbers of the nodes at the top, and of those below each node, in
/// order.
#[derive(Drop)]
pub struct ChildLists {
    pub top: Vec<usize>,
    pub below: Vec<Vec<usize>>,
}

// Puts a number after those of a list that there is.
fn push_at(lists: &mut Vec<Vec<usize>>, place: usize, number: usize) -> Result<(), AllocError>
    ensures { OnOk result (lists_of lists.new.items
        ≡ slice_set (lists_of lists.old.items) place
        (slice_index_or (lists_of lists.old.items) place [] ++ number ∷ [])) }
{
    if place < lists.len() {
        lists[place].push(number)?;
    }
    Ok(())
}

impl ChildLists {
    ghost use Rattle.yv_schema.specs.InnerChildren.{AreEmpty, hang, lists_in};

    // So many nodes, none of which has a place yet.
    fn new(alloc: Global, count: usize) -> Result<ChildLists, AllocError>
        ensures top { IfOk result (λ f. f.top.items ≡ []) }
        ensures each { IfOk result (λ f. length (lists_of f.below.items) ≡ count) }
        ensures below { IfOk result (λ f. AreEmpty (lists_of f.below.items)) }
    {
        let mut below = Vec::with_capacity(alloc, count)?;
        for _ in 0..count {
            below.push(Vec::new(alloc))?;
        }
        Ok(ChildLists {
            top: Vec::new(alloc),
            below,
        })
    }

    // Puts a number at the top or below a node.
    fn hang(&mut self, number: usize, parent: Option<usize>) -> Result<(), AllocError>
        ensures { OnOk result (lists_in self.new ≡ hang number parent (lists_in self.old)) }
    {
        match parent {
            Some(place) => push_at(&mut self.below, place, number)?,
            None => self.top.push(number)?,
        }
        Ok(())
    }
}

/// The families of nodes in an order that has each before those below it. Numbers begin at 0.
pub fn families_of(alloc: Global, nodes: &[RemainingNode]) -> Result<ChildLists, AllocError>
    // The numbers of the nodes at the top, and of those below each node, in order.
    ensures top { IfOk result
        (λ f. (t : Nodes) → nodes.now ≡ item_list None 0 t → f.top.items ≡ numbers_from 0 t) }
    // For each node the numbers of those below it, in order.
    ensures below { IfOk result
        (λ f. (t : Nodes) → nodes.now ≡ item_list None 0 t → lists_of f.below.items
        ≡ below_from 0 t) }
{
    yv_expand::expansion_laws::a_tree_is_listed_whole::<usize>();
    let mut families = ChildLists::new(alloc, nodes.len())?;
    for (number, node) in nodes.iter().enumerate() {
        families.hang(number, node.parent)?;
    }
    Ok(families)
}
