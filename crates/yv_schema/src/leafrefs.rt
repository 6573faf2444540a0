//! The leafrefs of a schema tree, resolved.
ghost use Rattle.std.specs.Prelude.{◌≡◌, ◌≢◌, ◌<◌, ◌^◌, [], None, false, map, length, IfOk};
ghost use Rattle.yv_link_scopes.specs.Views.{lent_in, rows_in};
ghost use Rattle.yv_expand_tree.specs.FinalTree.{origin_at};
ghost use Rattle.yv_node_statements.specs.Context.{files_in, typing_in};
ghost use Rattle.yv_nodes.specs.Numbers.{rows_from};
ghost use Rattle.yv_node_leafrefs.specs.{Above.{AreBehind}, Leafrefs.{AreLeafrefs}, Links.{AreLinks}};
ghost use Rattle.yv_schema.specs.{InnerBasis.{NumberedBasis, stated_of}, InnerContext.{Tells}, InnerResolution.{AreSilent, AreStated, IsAnswered, no_links, schema_of_rows, statement_number}};

use crate::all_referrals::referrals;
use crate::context::Context;
use crate::referral_table::Referrals;
use std::alloc::{AllocError, Global};
use yv_expand_statements::Origin;
use yv_expand_tree::FinalTree;
use yv_link_scopes::Rows;
use yv_link_scopes::laws::statements_have_their_rows;
use yv_node_leafrefs::laws::{alike_schemas_have_the_same_leafrefs, rows_of_a_tree_are_behind};
use yv_node_leafrefs::link_laws::{
    alike_schemas_have_the_same_links, links_lead, types_leave_links,
};
use yv_node_leafrefs::{Leafrefs, links};
use yv_node_statements::Definitions;
use yv_nodes::{Links, Nodes};
use yv_text_statement::Refusal;

/// Nodes whose leafrefs are resolved where nothing is wrong with these, where the paths of those
/// lead that require an instance, and the least that is wrong.
#[derive(Drop)]
pub(crate) struct ResolvedLeafrefs {
    pub(crate) nodes: Nodes,
    pub(crate) links: Links,
    pub(crate) fault: Option<Refusal>,
}

// The origins of the nodes that are left, in order.
fn origins(alloc: Global, tree: &FinalTree) -> Result<Vec<Origin>, AllocError>
    ensures { IfOk result
        (λ origins. origins.items ≡ map (λ x. origin_at tree.now.items x.origin) tree.now.left) }
{
    let mut origins = Vec::new(alloc);
    for node in tree.remaining_nodes() {
        origins.push(tree.origin(node.origin))?;
    }
    Ok(origins)
}

// A number for the statement that defines a node: all inputs have one, and all outputs, since these
// have one name. So would all statements after the last one.
fn statement_number(rows: &Rows<'_, '_>, origin: Origin) -> usize
    ensures { result ≡ statement_number (length (rows_in rows.now)) origin }
{
    match origin {
        Origin::Input(_) => 0,
        Origin::Output(_) => 1,
        Origin::Statement(number) => number.min(rows.len()) + 2,
    }
}

// Those of nodes of these origins.
fn statement_numbers(
    alloc: Global,
    rows: &Rows<'_, '_>,
    origins: &[Origin],
) -> Result<Vec<usize>, AllocError>
    ensures { IfOk result
        (λ numbers. numbers.items
        ≡ map (statement_number (length (rows_in rows.now))) origins.now) }
{
    let mut numbers = Vec::new(alloc);
    for origin in origins {
        numbers.push(statement_number(rows, *origin))?;
    }
    Ok(numbers)
}

// Nodes none of which is a leafref stay as they are, and have no links.
fn without_leafrefs(alloc: Global, nodes: Nodes) -> ResolvedLeafrefs
    ensures nodes { result.nodes ≡ nodes }
    ensures links { result.links ≡ no_links (length nodes.rows) }
    ensures fault { result.fault ≡ None }
    ensures few { length nodes.rows < 2 ^ 32 }
{
    let count = nodes.len() as usize;
    ResolvedLeafrefs {
        nodes,
        links: Links::blank(alloc, count),
        fault: None,
    }
}

// Whether a node that some statement defines is a leafref. Each statement is asked once.
fn has_leafrefs(rows: &Rows<'_, '_>, definitions: &Definitions<'_, '_, '_>) -> bool
    requires { files_in definitions.now ≡ lent_in rows.now }
    ensures { result ≡ false
        → AreSilent (typing_in definitions.now) (files_in definitions.now) }
{
    statements_have_their_rows();
    for number in 0..rows.len() {
        if definitions.leafref_of(Origin::Statement(number)).is_some() {
            return true;
        }
    }
    false
}

/// Resolves the leafrefs among the nodes of a tree as it is stated (RFC 7950, section 9.9): where
/// something is wrong with one, the nodes stay as they are. Where no statement defines one, it
/// takes no more time than to see that, and no memory.
pub(crate) fn resolve<'a>(
    alloc: Global,
    rows: &Rows<'a, '_>,
    context: &Context<'_, 'a, '_>,
    nodes: Nodes,
) -> Result<ResolvedLeafrefs, AllocError>
    requires { AreStated (lent_in rows.now) context.now nodes.rows }
    ensures answers { (b : NumberedBasis) → Tells b context.now → b.files ≡ lent_in rows.now
        → nodes.rows ≡ rows_from 0 (stated_of b)
        → IfOk result (IsAnswered b) }
    ensures limit { IfOk result (λ r. r.nodes.limit ≡ nodes.limit) }
{
    links_lead();
    if !has_leafrefs(rows, context.definitions()) {
        return Ok(without_leafrefs(alloc, nodes));
    }
    resolve_leafrefs(alloc, rows, context, nodes)
}

// The same, where some statement may define a leafref.
fn resolve_leafrefs<'a>(
    alloc: Global,
    rows: &Rows<'a, '_>,
    context: &Context<'_, 'a, '_>,
    nodes: Nodes,
) -> Result<ResolvedLeafrefs, AllocError>
    requires { AreStated (lent_in rows.now) context.now nodes.rows }
    ensures answers { (b : NumberedBasis) → Tells b context.now → b.files ≡ lent_in rows.now
        → nodes.rows ≡ rows_from 0 (stated_of b)
        → IfOk result (IsAnswered b) }
    ensures limit { IfOk result (λ r. r.nodes.limit ≡ nodes.limit) }
{
    statements_have_their_rows();
    rows_of_a_tree_are_behind();
    alike_schemas_have_the_same_leafrefs();
    alike_schemas_have_the_same_links();
    links_lead();
    types_leave_links();
    let mut nodes = nodes;
    let origins = origins(alloc, context.tree)?;
    let said = referrals(alloc, rows, context.definitions(), &origins)?;
    if said.leafrefs.as_slice().is_empty() {
        return Ok(without_leafrefs(alloc, nodes));
    }
    let statements = statement_numbers(alloc, rows, &origins)?;
    let leafrefs = Leafrefs::read(alloc, &nodes, &statements, &said.of, &said.leafrefs)?;
    let fault = leafrefs.refusal();
    let links = links_unless(alloc, fault, &nodes, &said, &leafrefs)?;
    leafrefs.resolve(alloc, &mut nodes)?;
    Ok(ResolvedLeafrefs {
        nodes,
        links,
        fault,
    })
}

// Where the paths of leafrefs lead; no links where something is wrong with leafrefs.
fn links_unless(
    alloc: Global,
    fault: Option<Refusal>,
    nodes: &Nodes,
    said: &Referrals,
    leafrefs: &Leafrefs,
) -> Result<Links, AllocError>
    requires behind { AreBehind nodes.now.rows }
    requires reads { AreLeafrefs
        (schema_of_rows nodes.now.rows said.now.of.items said.now.leafrefs.items) leafrefs.now }
    ensures some { fault ≡ None
        → IfOk result
        (AreLinks (schema_of_rows nodes.now.rows said.now.of.items said.now.leafrefs.items)) }
    ensures none { fault ≢ None → IfOk result (λ links. links ≡ []) }
{
    match fault {
        Some(_) => Ok(Links::none(alloc)),
        None => links(alloc, nodes, &said.of, &said.leafrefs, leafrefs),
    }
}
