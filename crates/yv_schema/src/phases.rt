//! The compilation of linked files, phase by phase.
ghost use Rattle.std.specs.Prelude.{◌≡◌, ◌≢◌, ◌≤◌, ℕ, length, IfOk, OnOk, Some, None, Err};
ghost use Rattle.yv_text_statement.specs.{declared.refusal.Refusal.{Refusal}, declared.refusal.Stop.TheVariants.{Fault, PatternBuild}, Order.{IsLeast}, Selection.{ModuleChoice, selected_of}};
ghost use Rattle.yv_link_scopes.specs.Files.{Files};
ghost use Rattle.yv_type_restrictions.specs.Types.{HasTypePattern};
ghost use Rattle.yv_link_definitions.specs.Meanings.{AreNames};
ghost use Rattle.yv_link.specs.LinkedFiles.{AreLinked as AreLinkedFiles, truth_in};
ghost use Rattle.yv_types.specs.{Refusals.{BadTypes}, Types.{AreTypes}};
ghost use Rattle.yv_schema.specs.{InnerPhases.{AreClear, AreExpanded, AreNamed, Compiles, ShowsTree, SomeClear, SomeExpanded, SomeNamed}, Refuses.{RefusesExpansion}};

use crate::build::build;
use crate::parts::schema_parts;
use std::alloc::Global;
use yv_expand::expansion_laws::a_tree_is_listed_whole;
use yv_expand_laws::laws::{
    files_that_conform_are_sound, files_that_conform_have_roots,
    refusals_of_conforming_files_are_one, what_is_left_shows_the_schema,
};
use yv_expand_tree::laws::{
    given_nodes_stand_below_their_target, no_item_is_left_twice, nodes_are_within_items,
    nodes_are_within_units, nothing_stands_below_a_leaf, what_is_left_are_nodes,
};
use yv_expand_tree::{FinalTree, final_tree};
use yv_link::Linked;
use yv_link::laws::{linked_files_tell_what_holds, links_have_phases};
use yv_link_definitions::{Names, names};
use yv_link_features::laws::an_expression_has_one_truth;
use yv_node_leafrefs::laws::a_tree_is_typed_once;
use yv_node_statements::laws::{files_have_one_typing, types_tell_typing};
use yv_schema_tables::Schema;
use yv_text_grammar::laws::skipping_refuses_no_more;
use yv_text_statement::{Selection, Stop};
use yv_types::{Types, types};

/// The schema of linked files in which nothing is refused so far, or the least refusal of the
/// phases that follow.
pub(crate) fn of_linked(
    alloc: Global,
    linked: &Linked<'_, '_>,
    selection: &Selection,
    limit: u32,
) -> Result<Schema, Stop>
    requires { SomeClear (selected_of selection.now) linked.now }
    ensures { (files : Files) → AreClear (selected_of selection.now) files linked.now
        → Compiles (selected_of selection.now) files limit result }
{
    links_have_phases();
    nodes_are_within_items();
    a_tree_is_listed_whole::<usize>();
    let names = match names(alloc, linked.rows()) {
        Ok(names) => names,
        Err(stop) => return Err(stop),
    };
    let tree = match expanded_tree(alloc, linked, &names, selection, limit) {
        Ok(tree) => tree,
        Err(stop) => return Err(stop),
    };
    // There are no more items than the limit.
    let _items = tree.len();
    of_expanded(alloc, linked, names, tree, selection, limit)
}

// The final tree of files, whose nodes that are left are those of the schema; or the least refusal
// of their expansion.
fn expanded_tree(
    alloc: Global,
    linked: &Linked<'_, '_>,
    names: &Names,
    selection: &Selection,
    limit: u32,
) -> Result<FinalTree, Stop>
    requires { SomeNamed (selected_of selection.now) linked.now names.now }
    ensures shows { (files : Files)
        → AreNamed (selected_of selection.now) files linked.now names.now
        → IfOk result (ShowsTree (selected_of selection.now) files (truth_in linked.now)) }
    ensures limit { IfOk result (λ t. t.limit ≡ limit) }
    ensures clear { (files : Files)
        → AreNamed (selected_of selection.now) files linked.now names.now
        → OnOk result (IsLeast (RefusesExpansion (selected_of selection.now) files limit) None) }
    ensures refusal { (files : Files)
        → AreNamed (selected_of selection.now) files linked.now names.now
        → (r : Refusal) → result ≡ Err (Fault r)
        → IsLeast (RefusesExpansion (selected_of selection.now) files limit) (Some r) }
    ensures builds { result ≢ Err PatternBuild }
{
    linked_files_tell_what_holds();
    files_that_conform_are_sound();
    files_that_conform_have_roots();
    refusals_of_conforming_files_are_one();
    what_is_left_shows_the_schema();
    skipping_refuses_no_more();
    final_tree(alloc, linked, linked.rows(), names, selection, limit)
}

// The schema of expanded files in which nothing is refused so far, or the least refusal of their
// types and their nodes.
fn of_expanded(
    alloc: Global,
    linked: &Linked<'_, '_>,
    names: Names,
    tree: FinalTree,
    selection: &Selection,
    limit: u32,
) -> Result<Schema, Stop>
    requires gives { SomeExpanded (selected_of selection.now) limit linked.now names tree }
    requires room { length tree.left ≤ limit }
    ensures { (files : Files)
        → AreExpanded (selected_of selection.now) files limit linked.now names tree
        → Compiles (selected_of selection.now) files limit result }
{
    linked_files_tell_what_holds();
    an_expression_has_one_truth();
    types_tell_typing();
    files_have_one_typing();
    a_tree_is_typed_once();
    what_is_left_are_nodes();
    given_nodes_stand_below_their_target();
    no_item_is_left_twice();
    nodes_are_within_units();
    nothing_stands_below_a_leaf();
    yv_expand_definition::laws::files_have_one_schema();
    yv_expand::conformance_laws::what_is_not_refused_fits();
    skipping_refuses_no_more();
    yv_link_scopes::laws::statements_have_their_rows();
    yv_types::leafref_laws::an_origin_is_a_leafref();
    let types = match last_types(alloc, linked, names) {
        Ok(types) => types,
        Err(stop) => return Err(stop),
    };
    let parts = schema_parts(alloc, linked.rows(), types, tree, selection, limit)?;
    build(alloc, parts)
}

// The types of linked files, the names being theirs, which aren't needed any longer: their memory
// is given back before nodes are built.
fn last_types(alloc: Global, linked: &Linked<'_, '_>, names: Names) -> Result<Types, Stop>
    ensures makes { IfOk result
        (λ types. (files : Files) (choice : ModuleChoice)
        → AreLinkedFiles files choice linked.now
        → AreNames files names
        → AreTypes files choice (truth_in linked.now) types) }
    ensures clear { OnOk result
        ((files : Files) (choice : ModuleChoice) → AreLinkedFiles files choice linked.now
        → AreNames files names
        → IsLeast (BadTypes files (truth_in linked.now)) None) }
    ensures refusal { (r : Refusal) → result ≡ Err (Fault r)
        → (files : Files) (choice : ModuleChoice) → AreLinkedFiles files choice linked.now
        → AreNames files names
        → IsLeast (BadTypes files (truth_in linked.now)) (Some r) }
    ensures builds { result ≡ Err PatternBuild
        → (files : Files) (choice : ModuleChoice) → AreLinkedFiles files choice linked.now
        → HasTypePattern files }
{
    types(alloc, linked, &names)
}
