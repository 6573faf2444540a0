//! The final tree of files.
ghost use Rattle.std.specs.Prelude.{◌≡◌, ◌≢◌, None, Some, Err, length, IfOk, OnOk};
ghost use Rattle.yv_text_statement.specs.{Order.{IsLeast}, declared.refusal.Refusal.{Refusal}, declared.refusal.Stop.TheVariants.{Fault, PatternBuild}, Selection.{ModuleChoice, selected_of}};
ghost use Rattle.yv_link_scopes.specs.Views.{files_in, lent_in, rows_in};
ghost use Rattle.yv_link_definitions.specs.Meanings.{AreNames};
ghost use Rattle.yv_link.specs.LinkedFiles.{truth_in};
ghost use Rattle.yv_expand.specs.{ItemLimit.{ParentsComeFirst}, Expansion.{IsWhole}};
ghost use Rattle.yv_expand_statements.specs.{Limit.{TooMany}, StatementBlocks.{augments_of}};
ghost use Rattle.yv_expand.specs.Tree as expansion;
ghost use Rattle.yv_expand_rounds.specs.Turns.{State};
ghost use Rattle.yv_expand_refines.specs.Changes.{each};
ghost use Rattle.yv_expand_augments.specs.{Refusals.{BadTarget}, FinalItems.{AreAugmentedTree}};
ghost use Rattle.yv_expand_uses.specs.Spots.{whole};
ghost use Rattle.yv_expand_tree.specs.{Refusals.{BadExpansion, BadFinal}, Final.{Final, changes_of, final_items, whole_of}, FinalTree.{AreKept}, Remains.{AreLeft}};
ghost use Rattle.yv_expand_statements.specs.FileOrder.{marks_of, order_of};

use crate::file_order::{marks, order};
use crate::nodes::nodes;
use crate::tree::FinalTree;
use crate::wrong::Judgement;
use std::alloc::{AllocError, Global};
use yv_expand::{FileExpansion, Item, RemainingNode, expand};
use yv_expand_augments::{AugmentedTree, apply_augments, remaining_rows};
use yv_expand_changes::{changes, item_marks, statement_marks};
use yv_expand_uses::items_on;
use yv_link::Linked;
use yv_link_definitions::Names;
use yv_link_scopes::Rows;
use yv_text_statement::{Refusal, Selection, Stop};

// The expansion of the files of implemented modules, module by module, or the refusal of the first
// file with which their units pass the limit.
fn expand_files(
    alloc: Global,
    rows: &Rows<'_, '_>,
    names: &Names,
    selection: &Selection,
    limit: u32,
) -> Result<FileExpansion, Stop>
    requires { AreNames (lent_in rows.now) names.now }
    ensures whole { AreNames (lent_in rows.now) names.now
        → IfOk result
        (λ e. IsWhole (lent_in rows.now) (marks_of (selected_of selection.now) (lent_in rows.now))
        (order_of (selected_of selection.now) (lent_in rows.now)) e.own e.expansion.items) }
    ensures augments { IfOk result (λ e. e.augments.items
        ≡ augments_of (files_in rows.now) (rows_in rows.now)
        (marks_of (selected_of selection.now) (lent_in rows.now))) }
    ensures limit { IfOk result (λ e. e.expansion.limit ≡ limit) }
    ensures fits { AreNames (lent_in rows.now) names.now
        → OnOk result
        (IsLeast
        (TooMany (lent_in rows.now) (marks_of (selected_of selection.now) (lent_in rows.now)) limit)
        None) }
    ensures refusal { AreNames (lent_in rows.now) names.now → (r : Refusal) → result ≡ Err (Fault r)
        → IsLeast
        (TooMany (lent_in rows.now) (marks_of (selected_of selection.now) (lent_in rows.now)) limit)
        (Some r) }
    ensures builds { result ≢ Err PatternBuild }
{
    let given = marks(alloc, rows, selection)?;
    let files = order(alloc, rows, selection)?;
    expand(alloc, rows, names, &given, &files, limit)
}

// The final tree of items, and the least refusal of an augment of a module that adds to no node.
fn augmented_tree(
    alloc: Global,
    rows: &Rows<'_, '_>,
    items: &[Item],
    augments: &[usize],
) -> Result<(AugmentedTree, Option<Refusal>), AllocError>
    ensures { IfOk result (λ g. (st : State)
        × AreAugmentedTree
        (whole (files_in rows.now) (rows_in rows.now) augments.now (length items.now)) items.now st
        g.0
        × IsLeast
        (BadTarget (whole (files_in rows.now) (rows_in rows.now) augments.now (length items.now))
        items.now st) g.1) }
{
    let augmented_items = apply_augments(alloc, rows, items, augments)?;
    let missing = augmented_items.first_without_target(rows, augments);
    let full_tree = augmented_items.into_tree()?;
    Ok((full_tree, missing))
}

// The nodes that are left of a final tree by the conditions of its statements, in order.
fn remains<'a, 'b>(
    alloc: Global,
    linked: &Linked<'a, 'b>,
    judged: &Judgement<'_, 'a, 'b>,
) -> Result<Vec<RemainingNode>, AllocError>
    requires { ParentsComeFirst judged.now.items.now }
    ensures { (final : Final) → judged.now.items.now ≡ final.items
        → AreAugmentedTree (whole_of (lent_in judged.now.rows.now) final) final.items final.state
        judged.now.full_tree.now
        → judged.now.augments.now ≡ final.augments → judged.now.full_tree.now.tree.items
        ≡ final_items final
        → each judged.now.changes.now ≡ changes_of (lent_in judged.now.rows.now) final
        → IfOk result
        (λ list. (nodes : expansion.Nodes)
        × AreLeft (truth_in linked.now) (lent_in judged.now.rows.now) final nodes
        × (list.items ≡ expansion.item_list None 0 nodes)) }
{
    let spots = &judged.full_tree.spots;
    let statements = statement_marks(alloc, linked, judged.rows)?;
    let own = item_marks(alloc, &statements, spots, judged.changes)?;
    let on = items_on(alloc, judged.rows, spots, judged.items, &statements, &own)?;
    let tree = remaining_rows(alloc, spots, &judged.full_tree.tree, &on)?;
    nodes(alloc, &tree)
}

// The final tree of an expansion, or the least of what is wrong with it.
fn finish<'a, 'b>(
    alloc: Global,
    linked: &Linked<'a, 'b>,
    rows: &Rows<'a, 'b>,
    expanded: FileExpansion,
) -> Result<FinalTree, Stop>
    ensures keeps { (choice : ModuleChoice)
        → IsWhole (lent_in rows.now) (marks_of choice (lent_in rows.now))
        (order_of choice (lent_in rows.now)) expanded.own expanded.expansion.items
        → expanded.augments.items
        ≡ augments_of (files_in rows.now) (rows_in rows.now) (marks_of choice (lent_in rows.now))
        → IfOk result (AreKept choice (lent_in rows.now) (truth_in linked.now)) }
    ensures limit { IfOk result (λ t. t.limit ≡ expanded.expansion.limit) }
    ensures clear { (choice : ModuleChoice)
        → IsWhole (lent_in rows.now) (marks_of choice (lent_in rows.now))
        (order_of choice (lent_in rows.now)) expanded.own expanded.expansion.items
        → expanded.augments.items
        ≡ augments_of (files_in rows.now) (rows_in rows.now) (marks_of choice (lent_in rows.now))
        → OnOk result (IsLeast (BadFinal choice (lent_in rows.now)) None) }
    ensures refusal { (choice : ModuleChoice) (r : Refusal)
        → IsWhole (lent_in rows.now) (marks_of choice (lent_in rows.now))
        (order_of choice (lent_in rows.now)) expanded.own expanded.expansion.items
        → expanded.augments.items
        ≡ augments_of (files_in rows.now) (rows_in rows.now) (marks_of choice (lent_in rows.now))
        → result ≡ Err (Fault r) → IsLeast (BadFinal choice (lent_in rows.now)) (Some r) }
    ensures builds { result ≢ Err PatternBuild }
{
    crate::laws::files_have_one_final_tree();
    let FileExpansion {
        expansion,
        own: _,
        augments,
    } = expanded;
    let (full_tree, missing) = augmented_tree(alloc, rows, expansion.items(), &augments)?;
    let changes = changes(alloc, rows, &full_tree.spots, &full_tree.refined)?;
    let judged = Judgement {
        rows,
        items: expansion.items(),
        augments: &augments,
        full_tree: &full_tree,
        changes: &changes,
    };
    if let Some(refusal) = judged.first_wrong(alloc, missing)? {
        return Err(Stop::Fault(refusal));
    }
    let left = remains(alloc, linked, &judged)?;
    Ok(FinalTree {
        expansion,
        spots: full_tree.spots,
        augments,
        changes,
        left,
    })
}

/// The final tree of the files of implemented modules (RFC 7950, sections 5.6.5, 7.12, 7.13, 7.17
/// and 7.20.2): their expansion, module by module in the order of the schema, with each augment
/// applied. Where the units of these files pass the limit, the refusal of the first file with which
/// they do; else the least refusal, by file and offset, of a schema node of the final tree that is
/// too deep, of a refine that names no node or isn't fit for it, and of an augment that adds to no
/// node or adds what is not allowed there.
pub fn final_tree<'a, 'b>(
    alloc: Global,
    linked: &Linked<'a, 'b>,
    rows: &Rows<'a, 'b>,
    names: &Names,
    selection: &Selection,
    limit: u32,
) -> Result<FinalTree, Stop>
    // The names are those of these files.
    requires { AreNames (lent_in rows.now) names.now }
    // What is kept of the implemented modules: the items of their expansion in schema order, what
    // the refines change, and the nodes of the final tree that remain by their own conditions,
    // those of their refines, of what gave them, and of what is above them.
    ensures keeps { AreNames (lent_in rows.now) names.now
        → IfOk result
        (AreKept (selected_of selection.now) (lent_in rows.now) (truth_in linked.now)) }
    // The limit is this one.
    ensures limit { IfOk result (λ t. t.limit ≡ limit) }
    // A tree is returned only if nothing is refused of the expansion.
    ensures clear { AreNames (lent_in rows.now) names.now
        → OnOk result
        (IsLeast (BadExpansion (selected_of selection.now) (lent_in rows.now) limit) None) }
    // A refusal is the least that applies to it.
    ensures refusal { AreNames (lent_in rows.now) names.now → (r : Refusal) → result ≡ Err (Fault r)
        → IsLeast (BadExpansion (selected_of selection.now) (lent_in rows.now) limit) (Some r) }
    // `PatternBuild` is never returned.
    ensures builds { result ≢ Err PatternBuild }
{
    match expand_files(alloc, rows, names, selection, limit) {
        Ok(expanded) => finish(alloc, linked, rows, expanded),
        Err(stop) => Err(stop),
    }
}
