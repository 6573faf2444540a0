//! What is kept of a final tree.
ghost use Rattle.std.specs.Prelude.{◌≡◌, ◌≤◌, ℕ, List, Some, length, slice_get};
ghost use Rattle.yv_expand_tree.specs.FinalTree.{source_at, source_of_spot, module_file_of_item, origin_at};

use std::marker::Model;
use yv_expand::{Expansion, RemainingNode};
use yv_expand_refines::Changes;
use yv_expand_statements::Origin;
use yv_expand_uses::Spot;

/// The final tree of the files of implemented modules. Items go by their numbers in the expansion,
/// and nodes, which are the items that are left, by their places in the order of the schema.
#[derive(Drop)]
pub struct FinalTree {
    pub(crate) expansion: Expansion,
    pub(crate) spots: Vec<Spot>,
    pub(crate) augments: Vec<usize>,
    pub(crate) changes: Changes,
    pub(crate) left: Vec<RemainingNode>,
}

impl Model for FinalTree {
    ghost use Rattle.yv_expand_tree.specs.FinalTree.{FinalTreeView};

    ghost Value = { FinalTreeView };

    ghost view = { λ t. record {
      limit = t.expansion.limit;
      items = t.expansion.items;
      spots = t.spots.items;
      augments = t.augments.items;
      changes = t.changes;
      left = t.left.items;
    } };
}

// The place of the augment of a module in whose block an item is, of so many items and augments.
fn source_of(items: usize, augments: usize, spot: &Spot) -> Option<usize>
    ensures { (list : List ℕ) → length list ≡ augments → result
        ≡ source_of_spot items list (Some spot.now) }
{
    if spot.group <= items {
        return None;
    }
    let place = spot.group - items - 1;
    if place < augments { Some(place) } else { None }
}

impl FinalTree {
    /// How many items there are.
    pub fn len(&self) -> u32
        // The number of items.
        ensures count { result ≡ length self.now.items }
        // There are no more than the limit.
        ensures within { length self.now.items ≤ self.now.limit }
    {
        self.expansion.len()
    }

    /// What an item is made of: the statement that it copies, or the operation that doesn't write
    /// it; statement 0 past the last item.
    pub fn origin(&self, item: usize) -> Origin
        ensures { result ≡ origin_at self.now.items item }
    {
        match self.expansion.items().get(item) {
            Some(item) => item.origin,
            None => Origin::Statement(0),
        }
    }

    /// The number of the file of the module to which an item belongs; 0 past the last item.
    pub fn module_file(&self, item: usize) -> u32
        ensures { result ≡ module_file_of_item self.now.spots item }
    {
        match self.spots.get(item) {
            Some(spot) => spot.module_file,
            None => 0,
        }
    }

    /// The place among the augments of modules of the one whose block contains an item, if one
    /// does; a uses there is looked through, and what is below a node belongs to that node.
    pub fn source(&self, item: usize) -> Option<usize>
        ensures { result ≡ source_at self.now.spots self.now.augments item }
    {
        source_of(self.spots.len(), self.augments.len(), self.spots.get(item)?)
    }

    /// The refines that change each item, in the order in which they do: those of an inner uses
    /// come before those of an outer one.
    pub fn changes(&self) -> &Changes
        ensures { result.now ≡ self.now.changes }
    {
        &self.changes
    }

    /// The statements of the augments of modules, by file and statement (RFC 7950, section 7.17).
    pub fn augments(&self) -> &[usize]
        ensures { result.now ≡ self.now.augments }
    {
        &self.augments
    }

    /// The nodes that are left, each with the number of its item as its origin and the place of the
    /// node above it. A node is after the one above it, and after all that is before it in the
    /// schema.
    pub fn remaining_nodes(&self) -> &[RemainingNode]
        ensures { result.now ≡ self.now.left }
    {
        &self.left
    }
}
