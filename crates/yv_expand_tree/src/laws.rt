//! Laws about the definitions only. These functions do nothing: the contract of each is the law.
ghost use Rattle.std.specs.Prelude.{◌≡◌, ◌≤◌, ◌<◌, false, ℕ, List, true, None, Some, length, map, slice_get, slice_index_or};
ghost use Rattle.yv_text_statement.specs.{Codes.{phase_of}, Tree.{Tree as Root}, declared.refusal.Refusal.{Refusal}, Selection.{ModuleChoice}};
ghost use Rattle.yv_link_scopes.specs.{Files.{Files, brief_of}, RowList.{rows_of}};
ghost use Rattle.yv_expand.specs.{Tree.{Item, Node, Nodes, count, item_list}, Conformance.{Conform}};
ghost use Rattle.yv_expand_statements.specs.{StatementBlocks.{given_before}, Weigh.{Weigh}};
ghost use Rattle.yv_expand_statements.specs.Kinds.{is_uses};
ghost use Rattle.yv_expand_uses.specs.{Kinds.{kind_of}, declared.spot.Spot.{Spot}};
ghost use Rattle.yv_expand_statements.specs.Truth.{Truth};
ghost use Rattle.yv_expand_tree.specs.{Refusals.{BadExpansion}, Final.{Final, IsFinal, spots_of}, FinalTree.{source_at, targets_of}, Remains.{AreLeft}, Lowest.{is_lowest}};
ghost use Rattle.yv_expand_statements.specs.FileOrder.{HaveModuleFiles, is_given, marks_of};

/// What is wrong with the expansion of files is refused in the phases 7 and 8.
pub fn refusals_of_expansions_have_phases()
    ensures { (choice : ModuleChoice) (files : Files) (limit : ℕ) (f : Refusal)
        → BadExpansion choice files limit f
        → (6 < phase_of f.code) × (phase_of f.code ≤ 8) }
{}

/// The files of implemented modules have one final tree.
pub fn files_have_one_final_tree()
    ensures { (choice : ModuleChoice) (files : Files) (a b : Final) → IsFinal choice files a
        → IsFinal choice files b → a ≡ b }
{
    yv_expand::laws::a_whole_is_one();
    yv_expand_augments::laws::augments_come_to_one();
    yv_expand_rounds::laws::groups_have_one_tree();
}

/// What is left of a final tree is one list of nodes.
pub fn what_is_left_is_one()
    ensures { (choice : ModuleChoice) (files : Files) (truth : Truth) (f : Final) (a b : Nodes)
        → IsFinal choice files f
        → AreLeft truth files f a → AreLeft truth files f b → a ≡ b }
{
    yv_expand_uses::laws::if_features_have_one_answer();
}

/// What is left of a final tree has no more nodes than units were counted for the files of the
/// implemented modules.
pub fn nodes_are_within_units()
    ensures { (choice : ModuleChoice) (files : Files) (truth : Truth) (f : Final) (nodes : Nodes)
        (units : ℕ) → IsFinal choice files f
        → AreLeft truth files f nodes
        → Weigh (map brief_of files) (rows_of files)
        (given_before (map brief_of files) (rows_of files) (marks_of choice files) (length files))
        units
        → count nodes ≤ units }
{
    yv_expand::laws::a_whole_is_within_units();
    yv_expand_rounds::laws::a_tree_has_no_item_twice();
    yv_expand_augments::laws::items_stand_once();
}

/// What is left of a final tree has no more nodes than there are items.
pub fn nodes_are_within_items()
    ensures { (choice : ModuleChoice) (files : Files) (truth : Truth) (f : Final) (nodes : Nodes)
        → IsFinal choice files f
        → AreLeft truth files f nodes → count nodes ≤ length f.items }
{
    yv_expand_rounds::laws::a_tree_has_no_item_twice();
    yv_expand_augments::laws::items_stand_once();
}

/// What is left are items that aren't uses.
pub fn what_is_left_are_nodes()
    ensures { (choice : ModuleChoice) (files : Files) (truth : Truth) (f : Final) (nodes : Nodes)
        (place : ℕ) (x : Node)
        → IsFinal choice files f → AreLeft truth files f nodes
        → slice_get (item_list None 0 nodes) place ≡ Some x
        → (s : Spot) × (item : Item) × (slice_get (spots_of files f) x.origin ≡ Some s)
        × (slice_get f.items x.origin ≡ Some item)
        × (is_uses (kind_of (rows_of files) item.origin) ≡ false) }
{
    yv_expand_rounds::laws::a_tree_has_no_item_twice();
    yv_expand_augments::laws::items_stand_once();
}

/// No item is left twice.
pub fn no_item_is_left_twice()
    ensures { (choice : ModuleChoice) (files : Files) (truth : Truth) (f : Final) (nodes : Nodes)
        (i k : ℕ) (x y : Node)
        → IsFinal choice files f → AreLeft truth files f nodes
        → slice_get (item_list None 0 nodes) i ≡ Some x
        → slice_get (item_list None 0 nodes) k ≡ Some y → x.origin ≡ y.origin → i ≡ k }
{
    yv_expand_rounds::laws::a_tree_has_no_item_twice();
    yv_expand_augments::laws::items_stand_once();
}

/// An item belongs to a module that is implemented, where the files of such modules have these.
pub fn module_files_are_of_modules()
    ensures { (choice : ModuleChoice) (files : Files) (f : Final) (item : ℕ) (s : Spot)
        → HaveModuleFiles choice files → IsFinal choice files f
        → slice_get (spots_of files f) item ≡ Some s
        → (module_file : Root) × (slice_get files s.module_file ≡ Some module_file)
        × (is_given choice module_file ≡ true) }
{}

/// A node that an augment of a module gives is below the one to which the augment adds, which is
/// left as well.
pub fn given_nodes_stand_below_their_target()
    ensures { (choice : ModuleChoice) (files : Files) (truth : Truth) (f : Final) (nodes : Nodes)
        (place giver : ℕ) (x : Node)
        → IsFinal choice files f → AreLeft truth files f nodes
        → slice_get (item_list None 0 nodes) place ≡ Some x
        → source_at (spots_of files f) f.augments x.origin ≡ Some giver
        → (target : ℕ) × (node : Node) × (x.parent ≡ Some target)
        × (slice_get (item_list None 0 nodes) target ≡ Some node)
        × (slice_index_or (targets_of files f) giver None ≡ Some node.origin) }
{
    yv_expand_rounds::laws::a_tree_has_no_item_twice();
    yv_expand_augments::laws::items_stand_once();
    yv_expand_augments::laws::what_is_given_stands_below_its_target();
}

/// In files that conform, a node that is left and isn't at the top is below one that isn't a leaf,
/// leaf-list, anydata or anyxml.
pub fn nothing_stands_below_a_leaf()
    ensures { (choice : ModuleChoice) (files : Files) (truth : Truth) (f : Final) (nodes : Nodes)
        (place p : ℕ) (x : Node) → Conform files
        → IsFinal choice files f → AreLeft truth files f nodes
        → slice_get (item_list None 0 nodes) place ≡ Some x → x.parent ≡ Some p
        → (above : Node) × (item : Item) × (slice_get (item_list None 0 nodes) p ≡ Some above)
        × (slice_get f.items above.origin ≡ Some item)
        × (is_lowest (kind_of (rows_of files) item.origin) ≡ false) }
{
    yv_expand::conformance_laws::no_node_stands_in_a_leaf();
    yv_expand_rounds::laws::a_tree_has_no_item_twice();
    yv_expand_rounds::laws::items_stand_in_one_group();
    yv_expand_augments::laws::items_stand_once();
}
