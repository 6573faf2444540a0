//! What holds of the definitions.
ghost use Rattle.std.specs.{Prelude.{◌≡◌, List, Option, Some}, Option.{option_map}};
ghost use Rattle.yv_nodes.specs.{declared.node.NodeId.{NodeId}, Tree.{Forest, Tree}, Numbers.{rows_from}, Rows.{Row}};
ghost use Rattle.yv_node_content.specs.Steps.{Step};
ghost use Rattle.yv_node_keys.specs.{Targets.{default_case, key_leaf, unique_leaf}, declared.targets.LeafTargets.{LeafTargets}, LeafTargets.{AreLeafTargets}, LeafNames.{HaveLeafs}, Numbers.{default_case_at, key_leaf_at, tree_at, unique_leaf_at}};

/// The number that a name in a key leads to is that of the leaf to which the tree leads.
pub fn a_key_has_the_number_of_its_leaf()
    ensures { (ts : Forest) (list : NodeId) (t : Tree) (s : Option Step) → tree_at ts list ≡ Some t
        → option_map (tree_at ts) (key_leaf_at (rows_from 0 ts) list s)
        ≡ option_map (λ leaf. Some leaf) (key_leaf t s) }
{}

/// The number that a path leads to is that of the leaf to which the tree leads.
pub fn a_path_has_the_number_of_its_leaf()
    ensures { (ts : Forest) (list : NodeId) (t : Tree) (path : List (Option Step)) → tree_at ts list
        ≡ Some t
        → option_map (tree_at ts) (unique_leaf_at (rows_from 0 ts) list path)
        ≡ option_map (λ leaf. Some leaf) (unique_leaf t path) }
{}

/// The number of the default case of a choice is that of the tree's.
pub fn a_choice_has_the_number_of_its_default_case()
    ensures { (ts : Forest) (choice : NodeId) (t : Tree) → tree_at ts choice ≡ Some t
        → option_map (tree_at ts) (default_case_at (rows_from 0 ts) choice)
        ≡ option_map (λ case. Some case) (default_case t) }
{}

/// Where all lists name what they may, each name of a key and each path of a `unique` statement
/// names a leaf.
pub fn targets_are_leafs()
    ensures { (rows : List Row) (targets : LeafTargets) → AreLeafTargets rows targets
        → HaveLeafs rows }
{}
