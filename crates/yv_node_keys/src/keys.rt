//! The leafs that a key names.
ghost use Rattle.std.specs.{Prelude.{◌≡◌, ℕ, Some, length, not, map, slice_get, is_some, IfOk, IfSome}, List.{list_any}};
ghost use Rattle.yv_node_content.specs.Steps.{Step};
ghost use Rattle.yv_nodes.specs.{Tree.{Forest}, Places.{Place, places}, Numbers.{rows_from}};
ghost use Rattle.yv_node_keys.specs.{Numbers.{child_at, children_at, key_leaf_at, tree_in}, Refusals.{is_bad_key}, InnerNames.{AreNamesIfKept}, InnerNamesakes.{HaveNames}};
ghost use Rattle.yv_nodes.specs.InnerNamesakes.{HaveName};

use crate::cases::first_called;
use crate::counterparts::counterpart_leafs;
use crate::names::ChildNames;
use crate::node_numbers::{children_at, leaf_of, module_file_at};
use std::alloc::{AllocError, Global};
use yv_node_content::PathStep;
use yv_nodes::{Node, NodeId, Nodes};

/// Up to how many names of a key are looked up among the nodes one by one.
pub(crate) const FEW: usize = 4;

// The names of the nodes directly below a list. None are kept for a key of few names: to put them
// in order would take longer.
fn names_for<'n>(
    alloc: Global,
    nodes: &'n [Node],
    list: NodeId,
    keys: &[Option<PathStep>],
) -> Result<Option<ChildNames<'n>>, AllocError>
    ensures { IfOk result (AreNamesIfKept nodes.now (children_at nodes.now list)) }
{
    if keys.len() <= FEW {
        return Ok(None);
    }
    let names = ChildNames::below(alloc, nodes, list)?;
    Ok(Some(names))
}

// The first node directly below a list that has this module and this name, whatever its kind.
fn child_called<'n>(
    nodes: &Nodes,
    names: &Option<ChildNames<'n>>,
    list: NodeId,
    module_file: u32,
    name: &'n str,
    namesake: Option<NodeId>,
) -> Option<NodeId>
    requires { HaveName nodes.now.rows name.now namesake }
    ensures { AreNamesIfKept nodes.now.rows (children_at nodes.now.rows list) names.now
        → result ≡ child_at nodes.now.rows module_file name.now list }
{
    match names {
        Some(names) => names.get(module_file, name),
        None => first_called(
            nodes,
            module_file,
            name,
            namesake,
            children_at(nodes.all(), list),
        ),
    }
}

// The leaf directly below a list that a name in its key names, of those below it by these names.
fn key_leaf<'n>(
    nodes: &Nodes,
    names: &Option<ChildNames<'n>>,
    list: NodeId,
    key: &'n Option<PathStep>,
    namesake: Option<NodeId>,
) -> Option<NodeId>
    requires { (s : Step) → key.now ≡ Some s → HaveName nodes.now.rows s.name namesake }
    ensures { AreNamesIfKept nodes.now.rows (children_at nodes.now.rows list) names.now
        → result ≡ key_leaf_at nodes.now.rows list key.now }
{
    match key {
        Some(step) => {
            let own = module_file_at(nodes.all(), list);
            let module_file = step.module_file().unwrap_or(own);
            let child = child_called(nodes, names, list, module_file, step.name(), namesake)?;
            leaf_of(nodes.all(), child)
        }
        None => None,
    }
}

// Those that all names name, of the nodes by these names. Nodes are known that have the first of
// the names.
fn leafs_by<'n>(
    alloc: Global,
    nodes: &Nodes,
    names: &Option<ChildNames<'n>>,
    list: NodeId,
    keys: &'n [Option<PathStep>],
    namesakes: &[NodeId],
) -> Result<Option<Vec<NodeId>>, AllocError>
    requires names { AreNamesIfKept nodes.now.rows (children_at nodes.now.rows list) names.now }
    requires namesakes { HaveNames nodes.now.rows keys.now namesakes.now }
    ensures lacks { IfOk result (λ leafs. is_some leafs
        ≡ not (list_any (λ key. not (is_some (key_leaf_at nodes.now.rows list key))) keys.now)) }
    ensures numbers { IfOk result (λ leafs. IfSome leafs (λ numbers.
        map (λ n. Some n) numbers.items ≡ map (key_leaf_at nodes.now.rows list) keys.now)) }
{
    let mut leafs = Vec::new(alloc);
    for (place, key) in keys.iter().enumerate() {
        let namesake = namesakes.get(place).copied();
        match key_leaf(nodes, names, list, key, namesake) {
            Some(leaf) => leafs.push(leaf)?,
            None => return Ok(None),
        }
    }
    Ok(Some(leafs))
}

// The leafs that many names name, by those that they name in another list, if these are known.
fn known_leafs<'n>(
    alloc: Global,
    nodes: &Nodes,
    list: NodeId,
    keys: &'n [Option<PathStep>],
    other: NodeId,
    namesakes: &[NodeId],
) -> Result<Option<Vec<NodeId>>, AllocError>
    requires { length namesakes.now ≡ length keys.now
        → map (λ n. Some n) namesakes.now ≡ map (key_leaf_at nodes.now.rows other) keys.now }
    ensures { IfOk result (λ leafs. IfSome leafs (λ numbers.
        map (λ n. Some n) numbers.items ≡ map (key_leaf_at nodes.now.rows list) keys.now)) }
{
    if keys.len() <= FEW || namesakes.len() != keys.len() {
        return Ok(None);
    }
    let leafs = counterpart_leafs(alloc, nodes, list, other, namesakes)?;
    Ok(leafs)
}

/// The same as `key_leafs`, where nodes are known that have the first of the names, and, if of all,
/// those that these name in another list: they need not be read where it is known that the same is
/// said of such a node as of one below the list.
pub(crate) fn key_leafs_like<'n>(
    alloc: Global,
    nodes: &'n Nodes,
    list: NodeId,
    keys: &'n [Option<PathStep>],
    other: NodeId,
    namesakes: &[NodeId],
) -> Result<Option<Vec<NodeId>>, AllocError>
    requires names { HaveNames nodes.now.rows keys.now namesakes.now }
    requires known { length namesakes.now ≡ length keys.now
        → map (λ n. Some n) namesakes.now ≡ map (key_leaf_at nodes.now.rows other) keys.now }
    ensures refuses { (ts : Forest) → nodes.now.rows ≡ rows_from 0 ts → (p : Place)
        → slice_get (places ts) list.0 ≡ Some p
        → IfOk result (λ leafs. is_some leafs ≡ not (is_bad_key (tree_in p) keys.now)) }
    ensures numbers { IfOk result (λ leafs. IfSome leafs (λ numbers.
        map (λ n. Some n) numbers.items ≡ map (key_leaf_at nodes.now.rows list) keys.now)) }
{
    if let Some(known) = known_leafs(alloc, nodes, list, keys, other, namesakes)? {
        return Ok(Some(known));
    }
    let names = names_for(alloc, nodes.all(), list, keys)?;
    let leafs = leafs_by(alloc, nodes, &names, list, keys, namesakes)?;
    Ok(leafs)
}

/// The numbers of the leafs that the names of a list's key name, in order (RFC 7950, section
/// 7.8.2): none where one of them is that of no leaf directly below. Of nodes of one module and
/// name the first is meant, whatever its kind. Takes time n log n in the names of the nodes
/// directly below and those of the key; names of modules are compared where the nodes' are the
/// same. Err only if memory runs out.
pub fn key_leafs<'n>(
    alloc: Global,
    nodes: &'n Nodes,
    list: NodeId,
    keys: &'n [Option<PathStep>],
) -> Result<Option<Vec<NodeId>>, AllocError>
    // None exactly if one of the names does not name a leaf directly below the list.
    ensures refuses { (ts : Forest) → nodes.now.rows ≡ rows_from 0 ts → (p : Place)
        → slice_get (places ts) list.0 ≡ Some p
        → IfOk result (λ leafs. is_some leafs ≡ not (is_bad_key (tree_in p) keys.now)) }
    // Otherwise the leafs that the names name, in order.
    ensures numbers { IfOk result (λ leafs. IfSome leafs (λ numbers.
        map (λ n. Some n) numbers.items ≡ map (key_leaf_at nodes.now.rows list) keys.now)) }
{
    key_leafs_like(alloc, nodes, list, keys, list, &[])
}
