//! Laws about the definitions only. These functions do nothing: the contract of each is the law.
ghost use Rattle.std.specs.Prelude.{◌≡◌, ◌<◌, ℕ, List, None, Some, length, slice_get};
ghost use Rattle.yv_expand.specs.Tree.{Item};
ghost use Rattle.yv_expand_rounds.specs.{Placements.{StandOnce}, Tree.{IsTree, Tree, tree_list}, Turns.{State, target_of}, declared.row.ItemRow.{ItemRow}};
ghost use Rattle.yv_expand_augments.specs.Augmentation.{AreAugmented};
ghost use Rattle.yv_expand_uses.specs.{Spots.{Whole, copy_group, labels_of, layout_of}, declared.spot.Spot.{Spot}};

/// Applying augments leads to one state.
pub fn augments_come_to_one()
    ensures { (w : Whole) (items : List Item) (a b : State) → AreAugmented w items a
        → AreAugmented w items b → a ≡ b }
{
    yv_expand_rounds::laws::rounds_come_to_one();
}

/// Once all augments are applied, each item is in exactly one group, once.
pub fn items_stand_once()
    ensures { (w : Whole) (items : List Item) (st : State) → w.items ≡ length items
        → AreAugmented w items st
        → StandOnce (length items) st.groups }
{
    yv_expand_rounds::laws::each_item_stands_once();
}

/// What an augment of a module gives is in the final tree only below the node to which the augment
/// adds.
pub fn what_is_given_stands_below_its_target()
    ensures { (w : Whole) (items : List Item) (st : State) (t : Tree) (k place : ℕ) (row : ItemRow)
        (s : Spot) → w.items ≡ length items
        → AreAugmented w items st → IsTree (labels_of (layout_of w items).spots) st.groups t
        → slice_get (tree_list None 1 t) k ≡ Some row
        → slice_get (layout_of w items).spots row.number ≡ Some s → place < length w.augments
        → s.group ≡ copy_group w place
        → (p : ℕ) × (row.parent ≡ Some p)
        × (target_of (labels_of (layout_of w items).spots) st.ends place ≡ Some p) }
{
    yv_expand_rounds::laws::a_tree_has_no_item_twice();
    yv_expand_rounds::laws::each_item_stands_once();
    yv_expand_rounds::laws::entering_keeps_groups();
    yv_expand_rounds::laws::items_stand_in_one_group();
    yv_expand_rounds::laws::items_stay_when_others_enter();
    yv_expand_rounds::laws::parents_come_first();
    yv_expand_rounds::laws::what_is_given_follows_the_augment();
}
