//! The augments of modules that add nodes.
ghost use Rattle.std.specs.{Prelude.{◌≡◌, ◌<◌, ◌≤◌, All, length, map, option_to_list, IfOk, IfErr, slice_get}, Option.{option_and_then}};
ghost use Rattle.yv_text_statement.specs.declared.refusal.Stop.TheVariants.{NoMemory};
ghost use Rattle.yv_link_scopes.specs.{Files.{module_file_at}, Views.{files_in, lent_in, rows_in}};
ghost use Rattle.yv_expand.specs.Tree.{Node};
ghost use Rattle.yv_expand_tree.specs.FinalTree.{source_at};
ghost use Rattle.yv_schema.specs.{InnerContext.{IsTold, Tells}, InnerRows.{IsWithin, numbers_at}, InnerBasis.{NumberedBasis}, InnerNotes.{note_of_augment, notes_of}};

use crate::context::Context;
use crate::name::name_of;
use crate::tree::{number_at, numbers_at};
use std::alloc::{AllocError, Global};
use std::rc::RcStr;
use yv_base_tables::Families;
use yv_expand_tree::FinalTree;
use yv_expand_tree::laws::{given_nodes_stand_below_their_target, no_item_is_left_twice};
use yv_link_scopes::Rows;
use yv_schema_tables::AugmentNote;
use yv_text_statement::Stop;

// For each node that is left the place of the augment that gives it, if one does.
fn sources(alloc: Global, tree: &FinalTree) -> Result<Vec<Option<usize>>, AllocError>
    ensures { IfOk result
        (λ givers. givers.items
        ≡ map (λ x. source_at tree.now.spots tree.now.augments x.origin) tree.now.left) }
{
    let mut givers = Vec::new(alloc);
    for node in tree.remaining_nodes() {
        givers.push(tree.source(node.origin))?;
    }
    Ok(givers)
}

// The place of the node above the first of these nodes, if there is one.
fn target_of(tree: &FinalTree, nodes: &[usize]) -> Option<usize>
    ensures { result
        ≡ option_and_then (λ (x : Node). x.parent)
        (option_and_then (slice_get tree.now.left) (slice_get nodes.now 0)) }
{
    let first = nodes.first()?;
    tree.remaining_nodes().get(*first)?.parent
}

// The number of the file of the module to which a file belongs.
fn module_file_of(rows: &Rows<'_, '_>, file: u32) -> u32
    ensures { result ≡ module_file_at (files_in rows.now) file }
{
    yv_link_scopes::laws::modules_are_files();
    let _files = rows.files();
    rows.module_file(file as usize) as u32
}

// The note of an augment that adds these nodes below that one; none of one that adds no node.
fn note(
    alloc: Global,
    rows: &Rows<'_, '_>,
    augment: usize,
    target: Option<usize>,
    nodes: &[usize],
) -> Result<Option<AugmentNote>, Stop>
    requires target { IsWithin target 4294967296 }
    requires nodes { All (λ place. place < 4294967296) nodes.now }
    ensures note { (b : NumberedBasis) → b.files ≡ lent_in rows.now
        → IfOk result (λ note. option_to_list note
        ≡ note_of_augment b (slice_get (rows_in rows.now) augment) target (numbers_at nodes.now)) }
    ensures memory { IfErr result (λ stop. stop ≡ NoMemory) }
{
    if nodes.is_empty() {
        return Ok(None);
    }
    let (Some(entry), Some(target)) = (rows.entries().get(augment), target) else {
        return Ok(None);
    };
    Ok(Some(AugmentNote {
        module_file: module_file_of(rows, entry.file),
        argument: RcStr::from_str(alloc, name_of(entry.statement))?,
        target: number_at(target),
        nodes: numbers_at(alloc, nodes)?,
    }))
}

/// The augments at the tops of modules and submodules that leave a node, by file and statement,
/// each with the node to which it adds and those that it adds.
pub(crate) fn notes(
    alloc: Global,
    rows: &Rows<'_, '_>,
    context: &Context<'_, '_, '_>,
) -> Result<Vec<AugmentNote>, Stop>
    requires few { length context.now.tree.now.left ≤ 4294967296 }
    requires tells { IsTold context.now }
    ensures notes { (b : NumberedBasis) → Tells b context.now → b.files ≡ lent_in rows.now
        → IfOk result (λ notes. notes.items ≡ notes_of b) }
    ensures memory { IfErr result (λ stop. stop ≡ NoMemory) }
{
    given_nodes_stand_below_their_target();
    no_item_is_left_twice();
    let tree = context.tree;
    let augments = tree.augments();
    let givers = sources(alloc, tree)?;
    let added = Families::new(alloc, &givers, augments.len())?;
    let mut notes = Vec::new(alloc);
    for (place, augment) in augments.iter().enumerate() {
        let nodes = added.at(place);
        let target = target_of(tree, nodes);
        if let Some(note) = note(alloc, rows, *augment, target, nodes)? {
            notes.push(note)?;
        }
    }
    Ok(notes)
}
