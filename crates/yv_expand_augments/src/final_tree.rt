//! The final tree.
ghost use Rattle.std.specs.{Prelude.{◌≡◌, List}, BTreeMap.{get}, Ordering.{nat_cmp}};
ghost use Rattle.yv_text_statement.specs.Order.{IsLeast};
ghost use Rattle.yv_expand.specs.Tree.{Item};
ghost use Rattle.yv_expand_rounds.specs.Turns.{State};
ghost use Rattle.yv_expand_augments.specs.{FinalItems.{AreAugmentedTree}, MissingTargets.{MissesTarget}};
ghost use Rattle.yv_expand_uses.specs.Spots.{Whole};

use std::collections::BTreeMap;
use yv_expand_refines::Refinements;
use yv_expand_rounds::ItemRow;
use yv_expand_uses::Spot;
use yv_text_statement::{Refusal, lesser};

/// The final tree when all augments were applied, and what was known of items and refines before.
#[derive(Drop)]
pub struct AugmentedTree {
    /// What was known of each item before any augment was applied.
    pub spots: Vec<Spot>,
    /// What the refines of each `uses` mean, those of an inner one before those of an outer one:
    /// the node at which the path of each ends, among what the `uses` gives before its own
    /// augments. Copies of one `uses` in one module share what its refines aim at.
    pub refined: Refinements,
    /// The final tree in order: each item before those below it and, of the children of one parent,
    /// those that augments of modules give after the others, each by number. A uses is among them,
    /// with nothing below it: what it gives follows it as its siblings. What an augment without a
    /// target gives isn't among them.
    pub tree: Vec<ItemRow>,
    // The least refusal of the augments of an item, where there is one.
    pub(crate) missing: BTreeMap<usize, Refusal>,
}

impl AugmentedTree {
    /// The least `AugmentTarget` of an augment of a `uses` that is an item of the final tree: in
    /// its turn the augment added to no node. Takes time n log n in items, and none where there is
    /// no such augment.
    pub fn first_untargeted(&self) -> Option<Refusal>
        ensures { (w : Whole) (items : List Item) (st : State)
            → AreAugmentedTree w items st self.now
            → IsLeast (MissesTarget w items self.now.tree.items) result }
    {
        let mut least = None;
        if self.missing.is_empty() {
            return least;
        }
        for row in &self.tree {
            least = lesser(least, self.missing_of(row.number));
        }
        least
    }

    // The least refusal of the augments of an item.
    fn missing_of(&self, number: usize) -> Option<Refusal>
        ensures { result ≡ get nat_cmp self.now.missing number }
    {
        self.missing.get(&number).copied()
    }
}
