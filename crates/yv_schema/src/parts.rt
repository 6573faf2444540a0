//! What a schema is made of.
ghost use Rattle.std.specs.Prelude.{◌≡◌, ◌≤◌, length, IfErr, IfOk};
ghost use Rattle.yv_text_statement.specs.{declared.refusal.Stop.TheVariants.{NoMemory}, Selection.{selected_of}};
ghost use Rattle.yv_link_scopes.specs.Views.{lent_in};
ghost use Rattle.yv_schema.specs.{InnerBasis.{NumberedBasis}, Module.{modules_of}, InnerContext.{Tells, TellsOf}, InnerBuild.{AreNames}, InnerParts.{AreParts, AreReady, HaveBasis, IsBasisOf}};

use crate::context::{Context, refined_definitions};
use crate::leafrefs::{ResolvedLeafrefs, resolve};
use crate::module_names::{ModuleNames, modules};
use crate::notes::notes;
use crate::tree::{Builder, NumberedNodes};
use std::alloc::Global;
use yv_expand_tree::FinalTree;
use yv_expand_tree::laws::{
    given_nodes_stand_below_their_target, module_files_are_of_modules, no_item_is_left_twice,
    what_is_left_are_nodes,
};
use yv_link_scopes::Rows;
use yv_link_scopes::laws::statements_have_their_rows;
use yv_node_checks::least_in_tree;
use yv_node_leafrefs::laws::{rows_are_typed, tops_are_typed};
use yv_node_statements::Definitions;
use yv_nodes::{Links, NodeId, Nodes};
use yv_schema_tables::laws::{types_leave_forms, types_leave_notes};
use yv_schema_tables::{AugmentNote, Module};
use yv_text_statement::{Refusal, Selection, Stop, lesser};
use yv_types::Types;

/// What a schema is made of, without what it was read from.
#[derive(Drop)]
pub(crate) struct SchemaParts {
    /// The nodes, whose leafrefs are resolved.
    pub(crate) nodes: Nodes,
    /// The numbers of those at the top.
    pub(crate) top: Vec<NodeId>,
    pub(crate) modules: Vec<Module>,
    pub(crate) notes: Vec<AugmentNote>,
    pub(crate) links: Links,
    /// The least of what is wrong with the tree and with leafrefs.
    pub(crate) wrong: Option<Refusal>,
}

/// The parts of the schema of files that have these types and this final tree. These aren't needed
/// any longer: their memory is given back before the schema's tables are made.
pub(crate) fn schema_parts(
    alloc: Global,
    rows: &Rows<'_, '_>,
    types: Types,
    tree: FinalTree,
    selection: &Selection,
    limit: u32,
) -> Result<SchemaParts, Stop>
    requires few { length (lent_in rows.now) ≤ 4294967296 }
    requires names { AreNames (selected_of selection.now) (lent_in rows.now) }
    requires basis { HaveBasis (selected_of selection.now) (lent_in rows.now) types tree }
    requires room { length tree.left ≤ limit }
    ensures parts { (b : NumberedBasis)
        → IsBasisOf (selected_of selection.now) (lent_in rows.now) types tree b
        → IfOk result (AreParts b) }
    ensures ready { IfOk result AreReady }
    ensures modules { IfOk result
        (λ p. p.modules.items ≡ modules_of (selected_of selection.now) (lent_in rows.now)) }
    ensures limit { IfOk result (λ p. p.nodes.limit ≡ limit) }
    ensures memory { IfErr result (λ stop. stop ≡ NoMemory) }
{
    let definitions = Definitions::read(alloc, rows, &types)?;
    let refined = refined_definitions(alloc, &definitions, &tree)?;
    let context = Context::new(&definitions, &refined, &tree);
    let parts = parts_of(alloc, rows, &context, selection, limit)?;
    Ok(parts)
}

// The parts that the context tells.
fn parts_of<'a>(
    alloc: Global,
    rows: &Rows<'a, '_>,
    context: &Context<'_, 'a, '_>,
    selection: &Selection,
    limit: u32,
) -> Result<SchemaParts, Stop>
    requires few { length (lent_in rows.now) ≤ 4294967296 }
    requires names { AreNames (selected_of selection.now) (lent_in rows.now) }
    requires basis { TellsOf (selected_of selection.now) (lent_in rows.now) context.now }
    requires room { length context.now.tree.now.left ≤ limit }
    ensures parts { (b : NumberedBasis) → Tells b context.now → b.files ≡ lent_in rows.now
        → IfOk result (AreParts b) }
    ensures ready { IfOk result AreReady }
    ensures modules { IfOk result
        (λ p. p.modules.items ≡ modules_of (selected_of selection.now) (lent_in rows.now)) }
    ensures limit { IfOk result (λ p. p.nodes.limit ≡ limit) }
    ensures memory { IfErr result (λ stop. stop ≡ NoMemory) }
{
    module_files_are_of_modules();
    what_is_left_are_nodes();
    given_nodes_stand_below_their_target();
    no_item_is_left_twice();
    statements_have_their_rows();
    rows_are_typed();
    tops_are_typed();
    types_leave_forms();
    types_leave_notes();
    let module_files = ModuleNames::read(alloc, rows)?;
    let builder = Builder {
        alloc,
        context: &*context,
        module_files: &module_files,
        statements: rows.entries().len(),
    };
    let NumberedNodes { nodes: stated, top } = builder.number_nodes(limit)?;
    let ResolvedLeafrefs {
        nodes,
        links,
        fault,
    } = resolve(alloc, rows, context, stated)?;
    let modules = modules(alloc, rows, &module_files, selection)?;
    let notes = notes(alloc, rows, context)?;
    let wrong = lesser(least_in_tree(alloc, &nodes)?, fault);
    Ok(SchemaParts {
        nodes,
        top,
        modules,
        notes,
        links,
        wrong,
    })
}
