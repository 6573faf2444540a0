//! The leafs that `unique` statements name.
ghost use Rattle.std.specs.{Prelude.{◌≡◌, ◌&&◌, ℕ, Some, false, length, not, map, slice_get, is_some, IfOk, IfSome}, List.{list_any}};
ghost use Rattle.yv_nodes.specs.{Tree.{Forest}, Places.{Place, places}, Numbers.{rows_from}};
ghost use Rattle.yv_node_keys.specs.{Numbers.{tree_in, unique_leaf_at}, Refusals.{is_bad_unique}, InnerMixedConfig.{is_bad_statement_at, is_config_at, is_mixed_at}};
ghost use Rattle.yv_node_content.specs.Definition.{paths_in};

use crate::index::Index;
use crate::moved_leafs::counterpart_uniques;
use crate::node_numbers::node_at;
use crate::walk::unique_leaf;
use std::alloc::{AllocError, Global};
use yv_node_content::PathStep;
use yv_nodes::{Node, NodeId, Nodes};

// The leafs that the paths of a statement name, in order.
fn named_leafs<'n>(
    alloc: Global,
    index: &mut Index<'n>,
    list: NodeId,
    paths: &'n [Vec<Option<PathStep>>],
) -> Result<Option<Vec<NodeId>>, AllocError>
    ensures rows { index.new ≡ index.old }
    ensures lacks { IfOk result (λ leafs. is_some leafs
        ≡ not
        (list_any (λ path. not (is_some (unique_leaf_at index.old list path)))
        (map (λ path. path.items) paths.now))) }
    ensures numbers { IfOk result (λ leafs. IfSome leafs (λ numbers.
        map (λ n. Some n) numbers.items
        ≡ map (unique_leaf_at index.old list) (map (λ path. path.items) paths.now))) }
{
    let mut leafs = Vec::new(alloc);
    for path in paths {
        match unique_leaf(alloc, index, list, path)? {
            Some(leaf) => leafs.push(leaf)?,
            None => return Ok(None),
        }
    }
    Ok(Some(leafs))
}

// Whether the node of a number is configuration, or is none, as wanted.
fn is_config(nodes: &[Node], number: NodeId, wanted: bool) -> bool
    ensures { result ≡ is_config_at nodes.now wanted number }
{
    match node_at(nodes, number) {
        Some(node) => node.config() == wanted,
        None => false,
    }
}

// Whether one of these nodes is.
fn any_config(nodes: &[Node], leafs: &[NodeId], wanted: bool) -> bool
    ensures { result ≡ list_any (is_config_at nodes.now wanted) leafs.now }
{
    for leaf in leafs {
        if is_config(nodes, *leaf, wanted) {
            return true;
        }
    }
    false
}

/// Whether there are both among these nodes.
pub(crate) fn is_mixed(nodes: &[Node], leafs: &[NodeId]) -> bool
    ensures { result ≡ is_mixed_at nodes.now leafs.now }
{
    any_config(nodes, leafs, true) && any_config(nodes, leafs, false)
}

// The same, where all of them are configuration, or none is.
fn statement_leafs<'n>(
    alloc: Global,
    index: &mut Index<'n>,
    list: NodeId,
    paths: &'n [Vec<Option<PathStep>>],
) -> Result<Option<Vec<NodeId>>, AllocError>
    ensures rows { index.new ≡ index.old }
    ensures bad { IfOk result
        (λ leafs. is_some leafs
        ≡ not (is_bad_statement_at index.old list (map (λ path. path.items) paths.now))) }
    ensures numbers { IfOk result (λ leafs. IfSome leafs (λ numbers.
        map (λ n. Some n) numbers.items
        ≡ map (unique_leaf_at index.old list) (map (λ path. path.items) paths.now))) }
{
    let Some(leafs) = named_leafs(alloc, index, list, paths)? else {
        return Ok(None);
    };
    if is_mixed(index.nodes(), &leafs) {
        return Ok(None);
    }
    Ok(Some(leafs))
}

// Those of all statements.
fn all_leafs<'n>(
    alloc: Global,
    nodes: &'n [Node],
    list: NodeId,
    statements: &'n [Vec<Vec<Option<PathStep>>>],
) -> Result<Option<Vec<Vec<NodeId>>>, AllocError>
    ensures bad { IfOk result
        (λ leafs. is_some leafs
        ≡ not (list_any (is_bad_statement_at nodes.now list) (map paths_in statements.now))) }
    ensures numbers { IfOk result (λ leafs. IfSome leafs (λ found.
        map (λ numbers. map (λ n. Some n) numbers.items) found.items
        ≡ map (map (unique_leaf_at nodes.now list)) (map paths_in statements.now))) }
{
    let mut index = Index::new(alloc, nodes);
    let mut found = Vec::new(alloc);
    for paths in statements {
        match statement_leafs(alloc, &mut index, list, paths)? {
            Some(leafs) => found.push(leafs)?,
            None => return Ok(None),
        }
    }
    Ok(Some(found))
}

// The leafs that statements name, by those that they name in an earlier list, if these are known.
fn known_leafs(
    alloc: Global,
    nodes: &Nodes,
    list: NodeId,
    statements: &[Vec<Vec<Option<PathStep>>>],
    earlier: NodeId,
    known: &[Vec<NodeId>],
) -> Result<Option<Vec<Vec<NodeId>>>, AllocError>
    requires { length known.now ≡ length statements.now
        → map (λ v. map (λ n. Some n) v.items) known.now
        ≡ map (map (unique_leaf_at nodes.now.rows earlier)) (map paths_in statements.now) }
    ensures numbers { IfOk result (λ leafs. IfSome leafs (λ found.
        map (λ numbers. map (λ n. Some n) numbers.items) found.items
        ≡ map (map (unique_leaf_at nodes.now.rows list)) (map paths_in statements.now))) }
    ensures good { IfOk result (λ leafs. IfSome leafs (λ found.
        list_any (is_bad_statement_at nodes.now.rows list) (map paths_in statements.now)
        ≡ false)) }
{
    if statements.is_empty() || known.len() != statements.len() {
        return Ok(None);
    }
    let leafs = counterpart_uniques(alloc, nodes, list, earlier, statements, known)?;
    Ok(leafs)
}

/// The same as `unique_leafs`, where those are known that the statements name in an earlier list,
/// if there are as many lists of them: then no path is followed where the nodes below both lists
/// are the same.
pub(crate) fn unique_leafs_like<'n>(
    alloc: Global,
    nodes: &'n Nodes,
    list: NodeId,
    statements: &'n [Vec<Vec<Option<PathStep>>>],
    earlier: NodeId,
    known: &[Vec<NodeId>],
) -> Result<Option<Vec<Vec<NodeId>>>, AllocError>
    requires { length known.now ≡ length statements.now
        → map (λ v. map (λ n. Some n) v.items) known.now
        ≡ map (map (unique_leaf_at nodes.now.rows earlier)) (map paths_in statements.now) }
    ensures refuses { (ts : Forest) → nodes.now.rows ≡ rows_from 0 ts → (p : Place)
        → slice_get (places ts) list.0 ≡ Some p
        → IfOk result
        (λ leafs. is_some leafs ≡ not (is_bad_unique (tree_in p) (map paths_in statements.now))) }
    ensures numbers { IfOk result (λ leafs. IfSome leafs (λ found.
        map (λ numbers. map (λ n. Some n) numbers.items) found.items
        ≡ map (map (unique_leaf_at nodes.now.rows list)) (map paths_in statements.now))) }
{
    if statements.len() > 64 {
        return Ok(None);
    }
    if let Some(known) = known_leafs(alloc, nodes, list, statements, earlier, known)? {
        return Ok(Some(known));
    }
    let leafs = all_leafs(alloc, nodes.all(), list, statements)?;
    Ok(leafs)
}

/// For each of a list's `unique` statements the numbers of the leafs that its paths name, in order
/// (RFC 7950, section 7.8.3): none where there are more than 64 statements, or a path of one names
/// no leaf, or leafs of one are and aren't configuration. Of nodes of one module and name below the
/// same node the first is meant, whatever its kind; a path goes through no list, and names the
/// cases that are left out. The nodes directly below each one that paths pass are looked at once,
/// so that it takes time n log n in their names and those of the paths; names of modules are
/// compared where the nodes' are the same. Err only if memory runs out.
pub fn unique_leafs<'n>(
    alloc: Global,
    nodes: &'n Nodes,
    list: NodeId,
    statements: &'n [Vec<Vec<Option<PathStep>>>],
) -> Result<Option<Vec<Vec<NodeId>>>, AllocError>
    // None exactly if there are more than 64 statements, a path of one leads to no leaf, or the
    // leafs of one are partly configuration and partly not.
    ensures refuses { (ts : Forest) → nodes.now.rows ≡ rows_from 0 ts → (p : Place)
        → slice_get (places ts) list.0 ≡ Some p
        → IfOk result
        (λ leafs. is_some leafs ≡ not (is_bad_unique (tree_in p) (map paths_in statements.now))) }
    // Otherwise the leafs that the paths of each statement name, in order.
    ensures numbers { IfOk result (λ leafs. IfSome leafs (λ found.
        map (λ numbers. map (λ n. Some n) numbers.items) found.items
        ≡ map (map (unique_leaf_at nodes.now.rows list)) (map paths_in statements.now))) }
{
    unique_leafs_like(alloc, nodes, list, statements, list, &[])
}
