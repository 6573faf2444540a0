//! Laws about the definitions only. These functions do nothing: the contract of each is the law.
ghost use Rattle.std.specs.Prelude.{◌≡◌, ◌≤◌, ℕ, Bool, List, Option, false, length, map};
ghost use Rattle.yv_link_scopes.specs.{Files.{Briefs, Files, brief_of}, RowList.{rows_of}, Rows.{Row}};
ghost use Rattle.yv_expand.specs.{Expansion.{IsWhole}, Tree.{Item}};
ghost use Rattle.yv_expand_definition.specs.{Expansion.{AllRefer, AreMarked, Expand}, Gives.{Product}};
ghost use Rattle.yv_expand_rounds.specs.declared.label.Label.{Label};
ghost use Rattle.yv_expand_uses.specs.Spots.{Whole};
ghost use Rattle.yv_expand_laws.specs.{FirstItems.{BeginningShows}, Conditions.{FilesAsk, MarksAreConditions, MarksAsk}, Conformance.{AreAccepted, ConformingLeftIsSchema, ConformingRefusalsAreOne, NoFileIsBad}, CopiesGive.{CopiesGive}, CopyEnds.{CopiesEnd}, Depths.{DepthsAreOne}, BlockEntry.{BlockKeeps, BlockShows, SpotsEnter}, Expansions.{ExpansionLies, PlacedIsTold}, Files.{FilesShow, HaveRoots, ItemsShow, ModulesShow}, FinalTree.{FinalTreeShows}, StatementItems.{AreSound, StatementsShow}, Impositions.{ImpositionsAreOne, UsesAreOptional}, Marks.{BlocksAreMarked}, LeftSchema.{LeftIsSchema}, Misplacements.{MisplacementsAreOne, MisplacementsByModulesAreOne, MisplacementsByUsesAreOne}, ModuleBlocks.{ModuleBlocksAreOne}, PathTargets.{PathsReach}, RefinedBlocks.{BlockIsMissed, BlockIsRefined}, Refines.{RefinesAreOne}, RefineStep.{RefineChanges, RefineMisses}, Refusals.{FinalRefusalsAreOne, RefusalsAreOne}, Rounds.{RoundAdds, RoundMisses, RoundTakes, RoundWaits}, Schema.{LeftShows}, Shows.{AreLabels, Items}, Start.{StartShows}, TakenBlocks.{TargetsTake}, Targets.{TargetsAreOne}, ItemProperties.{ExpansionsHaveStatements, LabelsTell, PathsAgree}, Trees.{TreeShows}, Turn.{TurnAdds, TurnMisses}, Under.{BeginningStands, BlockStands, FinalStands}, UsesBlocks.{UsesBlocksAreOne}, UsesTargets.{UsesTargetsAreOne}, WholeRounds.{RoundsShow}};

/// What an augment of a uses gives is added, in its turn, after what the node has to which its
/// path leads; where the path leads to no such node nothing moves (RFC 7950, section 7.17).
pub fn a_turn_adds_to_its_target()
    // In its turn, an augment of a uses puts its items after those of the node to which its path
    // leads.
    ensures adds { (labels : List Label) (its : Items) (mark : ℕ → Bool) → AreLabels labels its
        → TurnAdds labels its mark }
    // If there is no such node nothing moves.
    ensures misses { (labels : List Label) (its : Items) (mark : ℕ → Bool) → AreLabels labels its
        → TurnMisses labels its mark }
{}

/// When the items of a block enter, with the turns of the augments of its uses, nothing else
/// changes.
pub fn a_block_leaves_the_rest()
    ensures { (labels : List Label) → BlockKeeps labels }
{}

/// When the items of a block have entered they show what the block gives (RFC 7950, sections 7.12
/// to 7.17).
pub fn a_block_shows_what_it_gives()
    ensures { (labels : List Label) (its : Items) (mark : ℕ → Bool) → AreLabels labels its
        → ((x : ℕ) → x ≤ length labels → mark x ≡ false)
        → BlockShows labels its mark }
{}

/// The items of an expansion lie in blocks as they are laid, one after the other: a uses above its
/// copies and what its augments give (RFC 7950, sections 7.12 to 7.17).
pub fn an_expansion_lies_in_blocks()
    ensures { (w : Whole) (labels : List Label) → ExpansionLies w labels }
{}

/// Items that lie in a block enter as the block does, and of a spot no more is asked than what is
/// known of it.
pub fn what_lies_in_a_block_enters_so()
    // Of a spot no more is asked than what is known of it.
    ensures tells { (w : Whole) (labels : List Label) → PlacedIsTold w labels }
    // Items in a block enter as the block does.
    ensures enters { (labels : List Label) → SpotsEnter labels }
{}

/// Each item of an expansion is made of a statement that is there. Labels tell of the items what
/// the nodes do that they show. A path by numbers names the nodes that the path by steps does,
/// where no more statements are than `yv_link_scopes` reads (RFC 7950, section 6.5).
pub fn what_is_told_of_items_is_so()
    // Each item of an expansion is made of a statement that is there.
    ensures statements { (files : Briefs) (rows : List Row) → ExpansionsHaveStatements files rows }
    // Labels tell of items what their nodes do.
    ensures labels { (w : Whole) (items : List Item) (its : Items) → LabelsTell w items its }
    // A path by numbers names the nodes that the path by steps does.
    ensures paths { (files : Files) (augments : List ℕ) (count : ℕ) (items : List Item)
        (its : Items) → PathsAgree files augments count items its }
{}

/// In a block of an expansion an augment of a module gives all items of a group or none, so that
/// the first of a name is the first also of those that come before a limit.
pub fn groups_of_blocks_have_one_mark()
    ensures { (w : Whole) (items : List Item) → BlocksAreMarked w items }
{}

/// All of this together: what statements expand to, laid and placed, shows at the top what its
/// block gives, where no augment of a module gives any of it.
pub fn an_expansion_shows_what_it_gives()
    ensures { (w : Whole) → StartShows w }
{}

/// Before any augment of a module has its turn, the top shows what the modules give, and the group
/// of each of their augments what its block gives (RFC 7950, section 7.17).
pub fn modules_and_their_augments_begin_apart()
    ensures { (labels : List Label) (its : Items) (mark : ℕ → Bool) → AreLabels labels its
        → ((x : ℕ) → x ≤ length labels → mark x ≡ false)
        → BeginningShows labels its mark }
{}

/// A refine means the item that shows the node to which its path leads, and no item where its path
/// leads to no node (RFC 7950, section 7.13.2).
pub fn a_refine_means_the_node_of_its_path()
    // A refine means the item of the node to which its path leads.
    ensures changes { (labels : List Label) (its : Items) → AreLabels labels its
        → RefineChanges labels its }
    // It means none if there is no such node.
    ensures misses { (labels : List Label) (its : Items) → AreLabels labels its
        → RefineMisses labels its }
{}

/// Statements of one module show what they give, when their items are laid and have entered: a uses
/// shows the copies of what is in its grouping, changed by its refines, with what its augments add
/// (RFC 7950, sections 7.12 to 7.17).
pub fn statements_show_what_they_give()
    ensures { (files : Files) (augments : List ℕ) → StatementsShow files augments }
{
    yv_link_scopes::laws::a_name_means_one_thing();
}

/// Each expansion of files has the nodes that its items show: each with what gives it, the uses and
/// augments around that, its refines and its augment of a module (RFC 7950, sections 7.12 to 7.17).
pub fn items_of_files_show_nodes()
    ensures { (files : Files) → ItemsShow files }
{}

/// Before any augment of a module has its turn, the items of files show at the top what the files
/// of the implemented modules give, each with what refines change and augments of uses add; and in
/// a group for each augment of a module what its block gives (RFC 7950, sections 7.12 to 7.17).
pub fn modules_show_what_they_give()
    ensures { (files : Files) → ModulesShow files }
{
    yv_link_scopes::laws::a_name_means_one_thing();
}

/// When a refine means an item of a block, and that item has it, the block gives the nodes with it.
/// Where the refine's path leads to no node, it means no item (RFC 7950, section 7.13.2).
pub fn a_refined_block_gives_refined_nodes()
    // A refine means an item of the block of its uses, and if that item has it the block gives the
    // nodes with it.
    ensures changes { (labels : List Label) (its : Items) (mark : ℕ → Bool) → AreLabels labels its
        → ((x : ℕ) → x ≤ length labels → mark x ≡ false)
        → BlockIsRefined labels its mark }
    // If its path leads to no node it means no item.
    ensures misses { (labels : List Label) (its : Items) (mark : ℕ → Bool) → AreLabels labels its
        → ((x : ℕ) → x ≤ length labels → mark x ≡ false)
        → BlockIsMissed labels its mark }
{}

/// What an augment of a module gives is added, in its turn, after what its target has, but
/// before what later augments gave, in whichever round that is (RFC 7950, section 7.17).
pub fn a_round_adds_to_its_target()
    ensures { (labels : List Label) (its : Items) (giver_of : ℕ → Option ℕ) → AreLabels labels its
        → RoundAdds labels its giver_of }
{}

/// When the rounds are over, in which augments of modules have their turns, the items show what the
/// rounds make of the nodes that were shown before (RFC 7950, section 7.17).
pub fn rounds_show_what_they_make()
    ensures { (labels : List Label) (its : Items) (giver_of : ℕ → Option ℕ) → AreLabels labels its
        → RoundsShow labels its giver_of }
{}

/// An augment of a module whose path leads nowhere waits on. One whose path leads to some end is
/// applied; where that isn't a node to which it may add, nothing moves (RFC 7950, section 7.17).
pub fn a_round_takes_what_leads_somewhere()
    // An augment of a module whose path leads nowhere waits on and changes nothing.
    ensures waits { (labels : List Label) (its : Items) → AreLabels labels its
        → RoundWaits labels its }
    // One whose path leads to some end is applied.
    ensures takes { (labels : List Label) (its : Items) → AreLabels labels its
        → RoundTakes labels its }
    // If that isn't a node to which it may add, nothing moves.
    ensures misses { (labels : List Label) (its : Items) → AreLabels labels its
        → RoundMisses labels its }
{}

/// What the items at the top show, with all that is below, is what the final tree by number shows.
pub fn the_final_tree_shows_the_same()
    ensures { (labels : List Label) (its : Items) → AreLabels labels its → TreeShows labels its }
{}

/// When no augment of a module can be applied any more, the items of files show at the top, with
/// all that is below, what the files expand to, before any condition is asked (RFC 7950, sections
/// 7.12 to 7.17).
pub fn files_show_what_they_expand_to()
    ensures { (files : Files) → FilesShow files }
{
    yv_link_scopes::laws::a_name_means_one_thing();
}

/// Before any condition is asked, the final tree by number shows what the files of the implemented
/// modules expand to (RFC 7950, sections 7.12 to 7.17).
pub fn the_final_tree_is_what_files_expand_to()
    ensures { (files : Files) → FinalTreeShows files }
{
    yv_link_scopes::laws::a_name_means_one_thing();
    yv_expand_augments::laws::items_stand_once();
}

/// The conditions of the uses and augments round a node of what files expand to are those that are
/// asked at the node itself, up to the next node in whose block one of them is, and conditions of
/// nodes above it (RFC 7950, sections 7.13, 7.17 and 7.20.2).
pub fn conditions_are_asked_at_or_above_a_node()
    ensures { (files : Files) → FilesAsk files }
{}

/// A numbered statement that is in a block, and isn't an extension's, has a mark exactly where each
/// of its `if-feature` statements is true in its file (RFC 7950, section 7.20.2).
pub fn marks_tell_which_conditions_hold()
    ensures { (files : Files) → MarksAreConditions files }
{}

/// An item that is a node has a mark where all conditions of its node hold; and where it has one,
/// its own hold, those of the refines that change it, and those of the uses and augments round it
/// up to the next node (RFC 7950, sections 7.13, 7.17 and 7.20.2).
pub fn marks_ask_up_to_the_next_node()
    ensures { (files : Files) → MarksAsk files }
{}

/// What is left of the final tree when conditions were asked shows the nodes of the schema of the
/// files (RFC 7950, section 7.20.2).
pub fn what_is_left_is_the_schema()
    ensures { (files : Files) → LeftShows files }
{
    yv_link_scopes::laws::a_name_means_one_thing();
    yv_expand_augments::laws::items_stand_once();
    yv_link_features::laws::an_expression_has_one_truth();
}

/// A node is refused for its depth in the final tree by number exactly where it is in the tree to
/// which the files expand (RFC 7950, sections 7.12 to 7.17).
pub fn depths_are_one()
    ensures { (files : Files) → DepthsAreOne files }
{
    yv_link_scopes::laws::a_name_means_one_thing();
    yv_expand_augments::laws::items_stand_once();
    yv_expand_rounds::laws::a_tree_has_no_item_twice();
}

/// An augment of a module is refused for a mandatory node in the final tree by number exactly
/// where it is in the tree to which the files expand (RFC 7950, sections 3 and 7.17).
pub fn impositions_are_one()
    ensures { (files : Files) → ImpositionsAreOne files }
{
    yv_link_scopes::laws::a_name_means_one_thing();
    yv_expand_augments::laws::items_stand_once();
    yv_expand_rounds::laws::a_tree_has_no_item_twice();
}

/// An augment of a module is refused for its target by number exactly where it is refused so in
/// what the files expand to: no round applies it to a node that may be its target (RFC 7950,
/// section 7.17).
pub fn targets_are_one()
    ensures { (files : Files) → TargetsAreOne files }
{
    yv_link_scopes::laws::a_name_means_one_thing();
}

/// When a block has entered a group, what is there at any depth is what was there before and the
/// items of the block, but for those of augments of uses whose paths lead to no node to which they
/// may add (RFC 7950, sections 7.13 and 7.17).
pub fn a_block_keeps_its_items()
    ensures { (labels : List Label) (its : Items) (mark : ℕ → Bool) → AreLabels labels its
        → ((x : ℕ) → x ≤ length labels → mark x ≡ false) → BlockStands labels its mark }
{}

/// The items of the final tree are those that were at the top before any augment of a module had
/// its turn, at any depth, and those of what the augments of modules give that add to a node (RFC
/// 7950, section 7.17).
pub fn items_of_the_final_tree_were_placed()
    ensures { FinalStands }
{
    yv_expand_rounds::laws::each_item_stands_once();
    yv_expand_rounds::laws::items_stand_in_one_group();
    yv_expand_rounds::laws::entering_keeps_groups();
}

/// In its turn an augment of a uses adds to the item that shows the node to which its path leads,
/// if that may be its target; and to no item where the path leads to no such node (RFC 7950,
/// section 7.17).
pub fn a_path_of_a_uses_reaches_its_target()
    ensures { (labels : List Label) (its : Items) → AreLabels labels its → PathsReach labels its }
{}

/// A target doesn't take what is in the block of an augment where a statement of the block gives
/// an item that it doesn't take (RFC 7950, section 7.17).
pub fn a_target_takes_a_block_item_by_item()
    ensures { (rows : List Row) → TargetsTake rows }
{}

/// Before any augment of a module has its turn, what is at the top, at any depth, is what the block
/// of the modules keeps, and what is in the group of each of their augments is what its block keeps
/// (RFC 7950, sections 7.13 and 7.17).
pub fn what_blocks_keep_stands_at_first()
    ensures { (labels : List Label) (its : Items) (mark : ℕ → Bool) → AreLabels labels its
        → ((x : ℕ) → x ≤ length labels → mark x ≡ false) → BeginningStands labels its mark }
{}

/// A refine is refused by number, at an item of the final tree, exactly where it is refused in what
/// the files expand to: it means no node, or isn't fit for the one that it means (RFC 7950,
/// section 7.13.2).
pub fn refines_are_one()
    ensures { (files : Files) → RefinesAreOne files }
{
    yv_link_scopes::laws::a_name_means_one_thing();
    items_of_the_final_tree_were_placed();
}

/// An augment of a uses is refused for its target by number, at its uses in the final tree, exactly
/// where it is refused so in what the files expand to: in its turn its path leads to no node that
/// may be its target (RFC 7950, sections 7.13 and 7.17).
pub fn targets_of_uses_are_one()
    ensures { (files : Files) → UsesTargetsAreOne files }
{
    yv_link_scopes::laws::a_name_means_one_thing();
    items_of_the_final_tree_were_placed();
}

/// An augment of a uses is refused for its block in what the files expand to exactly where, at its
/// uses in the final tree by number, it adds in its turn to an item that doesn't take what is in
/// the block (RFC 7950, sections 7.13 and 7.17).
pub fn blocks_of_uses_are_one()
    ensures { (files : Files) → UsesBlocksAreOne files }
{
    yv_link_scopes::laws::a_name_means_one_thing();
    items_of_the_final_tree_were_placed();
}

/// An augment of a module is refused for its block in what the files expand to exactly where, by
/// number, it adds to an item that doesn't take what is in the block (RFC 7950, section 7.17).
pub fn blocks_of_modules_are_one()
    ensures { (files : Files) → ModuleBlocksAreOne files }
{
    yv_link_scopes::laws::a_name_means_one_thing();
}

/// An augment of a module is refused by number, at an item of the final tree that is in its block
/// and below a node that doesn't take it, exactly where it is refused for its block in what the
/// files expand to (RFC 7950, section 7.17).
pub fn misplacements_by_modules_are_one()
    ensures { (files : Files) → MisplacementsByModulesAreOne files }
{
    yv_link_scopes::laws::a_name_means_one_thing();
    yv_expand_augments::laws::what_is_given_stands_below_its_target();
    yv_expand_rounds::laws::each_item_stands_once();
    yv_expand_rounds::laws::entering_keeps_groups();
    yv_expand_rounds::laws::items_stand_in_one_group();
    yv_expand_rounds::laws::items_stay_when_others_enter();
    yv_expand_rounds::laws::items_stay_below_their_nodes();
    items_of_the_final_tree_were_placed();
    blocks_of_modules_are_one();
}

/// When all augments were applied, a copy of an augment of a uses adds to the node to which it
/// added in its turn, and to none where it added to none: what comes later doesn't change that (RFC
/// 7950, sections 7.13 and 7.17).
pub fn a_copy_ends_where_its_turn_led()
    ensures { CopiesEnd }
{
    yv_expand_rounds::laws::entering_keeps_groups();
}

/// What a copy of an augment of a uses gives is in the final tree only below the node to which it
/// added in its turn (RFC 7950, sections 7.13 and 7.17).
pub fn what_a_copy_gives_stands_below_its_target()
    ensures { CopiesGive }
{
    yv_expand_rounds::laws::a_tree_has_no_item_twice();
    yv_expand_rounds::laws::each_item_stands_once();
    yv_expand_rounds::laws::entering_keeps_groups();
    yv_expand_rounds::laws::items_stand_in_one_group();
    yv_expand_rounds::laws::items_stay_when_others_enter();
    yv_expand_rounds::laws::parents_come_first();
    yv_expand_rounds::laws::what_is_given_follows_the_augment();
    a_copy_ends_where_its_turn_led();
}

/// An augment of a uses is refused by number, at an item of the final tree that is in its block and
/// below a node that doesn't take it, exactly where it is refused for its block in what the files
/// expand to (RFC 7950, sections 7.13 and 7.17).
pub fn misplacements_by_uses_are_one()
    ensures { (files : Files) → MisplacementsByUsesAreOne files }
{
    yv_expand_augments::laws::what_is_given_stands_below_its_target();
    yv_expand_rounds::laws::each_item_stands_once();
    yv_expand_rounds::laws::entering_keeps_groups();
    yv_expand_rounds::laws::items_stand_in_one_group();
    yv_expand_rounds::laws::items_stay_when_others_enter();
    yv_expand_rounds::laws::items_stay_below_their_nodes();
    yv_expand_rounds::laws::what_is_given_follows_the_augment();
    a_copy_ends_where_its_turn_led();
    what_a_copy_gives_stands_below_its_target();
    blocks_of_uses_are_one();
}

/// An augment is refused by number, at an item of the final tree that is in its block and below a
/// node that doesn't take it, exactly where it is refused for its block in what the files expand to
/// (RFC 7950, section 7.17).
pub fn misplacements_are_one()
    ensures { (files : Files) → MisplacementsAreOne files }
{
    misplacements_by_modules_are_one();
    misplacements_by_uses_are_one();
}

/// Files that have an expansion expand to a tree, where each uses refers to a grouping and all
/// files of the order are marked: each path leads to an end or to none, and the rounds of augments
/// come to an end (RFC 7950, sections 7.12 to 7.17).
pub fn files_expand_to_a_tree()
    ensures { (files : Files) (marks : List Bool) (order : List ℕ) (own : ℕ) (items : List Item)
        → AllRefer (map brief_of files) (rows_of files) → AreMarked marks order
        → IsWhole files marks order own items → (m : Product) × Expand files marks order m }
{}

/// A final tree of files is refused by number exactly for what is refused of what the files expand
/// to: for depths, refines and augments (RFC 7950, sections 3 and 7.12 to 7.17).
pub fn refusals_are_one()
    ensures { (files : Files) → RefusalsAreOne files }
{
    yv_expand_definition::laws::files_expand_to_one_tree();
    files_expand_to_a_tree();
    items_of_files_show_nodes();
    depths_are_one();
    refines_are_one();
    targets_are_one();
    targets_of_uses_are_one();
    misplacements_are_one();
    impositions_are_one();
}

/// Where files have a final tree, they are refused for a final tree exactly where they are refused
/// for what they expand to (RFC 7950, sections 3 and 7.12 to 7.17).
pub fn refusals_of_final_trees_are_one()
    ensures { (files : Files) → FinalRefusalsAreOne files }
{
    refusals_are_one();
}

/// The items of files show nodes, and what is left of the final tree when conditions were asked
/// shows, of these, the nodes of the schema of the files (RFC 7950, section 7.20.2).
pub fn what_is_left_shows_the_schema()
    ensures { (files : Files) → LeftIsSchema files }
{
    files_expand_to_a_tree();
    items_of_files_show_nodes();
    what_is_left_is_the_schema();
}

/// Where nothing is refused of any file by itself, the root of none is an augment: each is a module
/// or a submodule (RFC 7950, sections 7.1 and 7.2).
pub fn files_that_conform_have_roots()
    ensures { (files : Files) → NoFileIsBad files → HaveRoots files }
{
    yv_expand::conformance_laws::what_is_not_refused_fits();
}

/// Where nothing is refused of any file by itself, no uses says that it is mandatory: `mandatory`
/// and `min-elements` aren't substatements of it (RFC 7950, section 7.13.1).
pub fn uses_that_conform_are_optional()
    ensures { (files : Files) → NoFileIsBad files → UsesAreOptional files }
{
    yv_expand::conformance_laws::what_is_not_refused_fits();
    yv_expand::conformance_laws::numbered_statements_fit();
    yv_link_scopes::laws::statements_have_their_rows();
}

/// Where nothing is refused of files by themselves, nor of the names of their definitions, they are
/// sound: each uses refers to a grouping, and an augment that gives something has a statement in
/// its block that gives a schema node, or a uses (RFC 7950, sections 7.13 and 7.17).
pub fn files_that_conform_are_sound()
    ensures { (files : Files) → AreAccepted files → AreSound files }
{
    yv_base_tables::laws::a_number_is_listed_at_its_place();
    yv_expand::conformance_laws::what_is_not_refused_fits();
    yv_expand::conformance_laws::numbered_statements_fit();
    yv_link_scopes::laws::a_name_means_something_or_nothing();
    yv_link_scopes::laws::modules_are_files();
    yv_link_scopes::laws::roots_come_first();
    yv_link_scopes::laws::statements_have_their_rows();
    yv_link_scopes::laws::statements_stand_in_their_blocks();
}

/// Where nothing is refused of files by themselves, nor of the names of their definitions, they are
/// refused for their final tree exactly where they are refused for what they expand to (RFC 7950,
/// sections 3 and 7.12 to 7.17).
pub fn refusals_of_conforming_files_are_one()
    ensures { (files : Files) → ConformingRefusalsAreOne files }
{
    files_that_conform_have_roots();
    uses_that_conform_are_optional();
    files_that_conform_are_sound();
    refusals_of_final_trees_are_one();
}

/// Where nothing is refused of files by themselves, nor of the names of their definitions, nor of
/// their features, what is left of their final tree when conditions were asked shows the nodes of
/// their schema (RFC 7950, section 7.20.2).
pub fn what_is_left_of_conforming_files_shows_the_schema()
    ensures { (files : Files) → ConformingLeftIsSchema files }
{
    files_that_conform_have_roots();
    files_that_conform_are_sound();
    what_is_left_shows_the_schema();
}
