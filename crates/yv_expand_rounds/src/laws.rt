//! Laws about the definitions only. These functions do nothing: the contract of each is the law.
ghost use Rattle.std.specs.Prelude.{◌≡◌, ℕ, ◌+◌, ◌<◌, ◌≤◌, List, None, Some, length, slice_get};
ghost use Rattle.yv_expand_rounds.specs.{declared.label.Label.{Label}, declared.row.ItemRow.{ItemRow}, Groups.{Groups, IsIn, times}, Turns.{State, given_group, turn}, Placements.{HaveEntered, StandOnce, enter}, Rounds.{AreApplied, LeadsNowhere}, Tree.{AreRows, IsTree, StandsInTree, Tree, group_under, tree_list}};

/// An augment of a module that was never applied has no target among what is there at the end:
/// "never applied" can be read without rounds.
pub fn what_is_left_leads_nowhere()
    ensures { (labels : List Label) (first : ℕ) (paths : List (List ℕ)) (old new : State)
        → AreApplied labels first paths old new
        → LeadsNowhere labels first paths new }
{}

/// No round removes an item or adds one twice: each is in groups as often as before.
pub fn rounds_keep_items()
    ensures { (labels : List Label) (first : ℕ) (paths : List (List ℕ)) (old new : State) (item : ℕ)
        → AreApplied labels first paths old new → length old.groups ≡ length labels + 1
        + length old.ends
        → first + length paths ≤ length old.ends
        → times item new.groups ≡ times item old.groups }
{}

/// A turn leaves as many augments as there were.
pub fn turns_keep_augments()
    ensures { (labels : List Label) (number start limit : ℕ) (names : List ℕ) (st : State)
        → length (turn labels number start limit names st).ends ≡ length st.ends }
{}

/// When all items have entered, each is in exactly one group, once, and still is when the augments
/// of modules are applied.
pub fn each_item_stands_once()
    // When all items have entered, each is in exactly one group, once.
    ensures enters { (labels : List Label) (augments : ℕ) (st : State)
        → HaveEntered labels augments 0 st
        → StandOnce (length labels) st.groups }
    // So it is after the augments of a module are applied.
    ensures applies { (labels : List Label) (augments first : ℕ) (paths : List (List ℕ))
        (old new : State)
        → HaveEntered labels augments 0 old → first + length paths ≤ augments
        → AreApplied labels first paths old new
        → StandOnce (length labels) new.groups }
{}

/// While items enter there are as many groups and augments as at first.
pub fn entering_keeps_groups()
    // There is a group for the top, one for each item, and one for each augment.
    ensures groups { (labels : List Label) (augments first : ℕ) (st : State)
        → HaveEntered labels augments first st
        → length st.groups ≡ length labels + 1 + augments }
    // There are as many ends as augments.
    ensures augments { (labels : List Label) (augments first : ℕ) (st : State)
        → HaveEntered labels augments first st
        → length st.ends ≡ augments }
{}

/// In the list of the final tree an item is at the top, or after the item above it and one level
/// deeper.
pub fn parents_come_first()
    ensures { (labels : List Label) (groups : Groups) (rows : List ItemRow) (k : ℕ) (row : ItemRow)
        → AreRows labels groups rows → slice_get rows k ≡ Some row
        → StandsInTree rows k row }
{}

/// Groups have one final tree, and one list of it.
pub fn the_final_tree_is_one()
    ensures { (labels : List Label) (groups : Groups) (first second : List ItemRow)
        → AreRows labels groups first → AreRows labels groups second → first ≡ second }
{}

/// Rounds lead to one result: a round that applies none changes nothing.
pub fn rounds_come_to_one()
    ensures { (labels : List Label) (first : ℕ) (paths : List (List ℕ)) (old a b : State)
        → AreApplied labels first paths old a
        → AreApplied labels first paths old b → a ≡ b }
{}

/// Groups have one tree.
pub fn groups_have_one_tree()
    ensures { (labels : List Label) (groups : Groups) (a b : Tree) → IsTree labels groups a
        → IsTree labels groups b → a ≡ b }
{}

/// Where each item is in groups once, none is twice in the tree: it has no more items than there
/// are.
pub fn a_tree_has_no_item_twice()
    // The tree has no more items than there are.
    ensures count { (labels : List Label) (groups : Groups) (items : ℕ) (t : Tree)
        → IsTree labels groups t → StandOnce items groups → length (tree_list None 1 t) ≤ items }
    // It has only items that exist.
    ensures within { (labels : List Label) (groups : Groups) (items k : ℕ) (row : ItemRow)
        (t : Tree) → IsTree labels groups t → StandOnce items groups
        → slice_get (tree_list None 1 t) k ≡ Some row → row.number < items }
    // It has each at one place.
    ensures once { (labels : List Label) (groups : Groups) (items i k : ℕ) (a b : ItemRow)
        (t : Tree) → IsTree labels groups t → StandOnce items groups
        → slice_get (tree_list None 1 t) i ≡ Some a → slice_get (tree_list None 1 t) k ≡ Some b
        → a.number ≡ b.number → i ≡ k }
{}

/// An item of the tree is in the group of the item above it and, where each is in groups once, in
/// no other.
pub fn items_stand_in_one_group()
    // An item of the tree is in the group of the item above it.
    ensures below { (labels : List Label) (groups : Groups) (k : ℕ) (row : ItemRow) (t : Tree)
        → IsTree labels groups t → slice_get (tree_list None 1 t) k ≡ Some row
        → IsIn row.number (group_under row.parent) groups }
    // It is in no other group.
    ensures one { (groups : Groups) (items i g h : ℕ) → StandOnce items groups → IsIn i g groups
        → IsIn i h groups → g ≡ h }
{}

/// An item that enters a group is in it, and still is when others enter.
pub fn items_stay_when_others_enter()
    // An item that enters a group is in it.
    ensures enters { (i g : ℕ) (st : State) → g < length st.groups
        → IsIn i g (enter i g st).groups }
    // It stays there when others enter.
    ensures stays { (i g other h : ℕ) (st : State) → IsIn i g st.groups
        → IsIn i g (enter other h st).groups }
{}

/// What an augment gives is in its group while it adds to no node, and then below the node to which
/// it adds: so it is after each turn, and after the rounds.
pub fn what_is_given_follows_the_augment()
    // So it is after a turn of any augment.
    ensures turns { (labels : List Label) (number start limit augment item : ℕ) (names : List ℕ)
        (st : State)
        → length st.groups ≡ length labels + 1 + length st.ends → number < length st.ends → augment
        < length st.ends
        → IsIn item (given_group labels st.ends augment) st.groups
        → IsIn item (given_group labels (turn labels number start limit names st).ends augment)
        (turn labels number start limit names st).groups }
    // So it is after the augments of a module are applied.
    ensures applies { (labels : List Label) (first augment item : ℕ) (paths : List (List ℕ))
        (old new : State)
        → AreApplied labels first paths old new → length old.groups ≡ length labels + 1
        + length old.ends
        → first + length paths ≤ length old.ends → augment < length old.ends
        → IsIn item (given_group labels old.ends augment) old.groups
        → IsIn item (given_group labels new.ends augment) new.groups }
{}

/// An item at the top or below a node stays there, whatever augments do.
pub fn items_stay_below_their_nodes()
    // So it is after a turn of any augment.
    ensures turns { (labels : List Label) (number start limit group item : ℕ) (names : List ℕ)
        (st : State)
        → length st.groups ≡ length labels + 1 + length st.ends → number < length st.ends → group
        ≤ length labels
        → IsIn item group st.groups
        → IsIn item group (turn labels number start limit names st).groups }
    // So it is after the augments of a module are applied.
    ensures applies { (labels : List Label) (first group item : ℕ) (paths : List (List ℕ))
        (old new : State)
        → AreApplied labels first paths old new → length old.groups ≡ length labels + 1
        + length old.ends
        → first + length paths ≤ length old.ends → group ≤ length labels
        → IsIn item group old.groups → IsIn item group new.groups }
{}
