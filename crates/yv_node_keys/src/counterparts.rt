//! The leafs that a key names, by those that it names in another list of which the same is said.
ghost use Rattle.std.specs.{Prelude.{◌≡◌, ◌≤◌, List, Option, Some, true, length, map, take, IfOk, IfSome}, BTreeMap.{get}, Ordering.{nat_cmp}};
ghost use Rattle.yv_nodes.specs.{declared.node.NodeId.{NodeId}};
ghost use Rattle.yv_node_content.specs.Steps.{Step};
ghost use Rattle.yv_node_keys.specs.{Numbers.{key_leaf_at}, InnerCounterparts.{AreCalledAlike, ArePairs, counterpart, leaf_counterpart}};

use crate::node_numbers::{children_at, leaf_of, module_file_at};
use std::alloc::{AllocError, Global};
use std::collections::BTreeMap;
use yv_nodes::{NodeId, Nodes};

/// Of nodes directly below one list those that correspond to these of another.
type Counterparts = BTreeMap<u32, NodeId>;

/// Whether two nodes have one module and one name. Names are read only where it is not known that
/// the same is said of both.
pub(crate) fn are_called_alike(nodes: &Nodes, one: NodeId, other: NodeId) -> bool
    ensures { result ≡ true → AreCalledAlike nodes.now.rows one other }
{
    if one.number() >= nodes.len() || other.number() >= nodes.len() {
        return false;
    }
    nodes.get(one).module_file() == nodes.get(other).module_file()
        && nodes.have_one_name(one, other)
}

// How many pairs of nodes, from the first on, have one module and one name.
fn count_pairs(nodes: &Nodes, ones: &[NodeId], others: &[NodeId]) -> usize
    ensures ones { result ≤ length ones.now }
    ensures others { result ≤ length others.now }
    ensures pairs { ArePairs nodes.now.rows (take result ones.now) (take result others.now) }
{
    let mut count = 0;
    while count < ones.len() && count < others.len() {
        if !are_called_alike(nodes, ones[count], others[count]) {
            return count;
        }
        count += 1;
    }
    count
}

// The second of each pair, by the first.
fn counterparts(
    alloc: Global,
    ones: &[NodeId],
    others: &[NodeId],
) -> Result<Counterparts, AllocError>
    requires { length ones.now ≡ length others.now }
    ensures { IfOk result
        (λ found. (n : NodeId) → get nat_cmp found n.0 ≡ counterpart n ones.now others.now) }
{
    let mut found = BTreeMap::new(alloc);
    let mut left = ones.len();
    while left > 0 {
        left -= 1;
        found.insert(ones[left].number(), others[left])?;
    }
    Ok(found)
}

// The leaf that corresponds to a node.
fn leaf_by(nodes: &Nodes, found: &Counterparts, node: NodeId) -> Option<NodeId>
    ensures { (ones others : List NodeId)
        → ((n : NodeId) → get nat_cmp found.now n.0 ≡ counterpart n ones others)
        → result ≡ leaf_counterpart nodes.now.rows ones others node }
{
    let leaf = *found.get(&node.number())?;
    leaf_of(nodes.all(), leaf)
}

// The leafs that correspond to these nodes: none where one has none.
fn leafs_by(
    alloc: Global,
    nodes: &Nodes,
    found: &Counterparts,
    known: &[NodeId],
) -> Result<Option<Vec<NodeId>>, AllocError>
    ensures { (ones others : List NodeId)
        → ((n : NodeId) → get nat_cmp found.now n.0 ≡ counterpart n ones others)
        → IfOk result (λ leafs. IfSome leafs (λ numbers.
        map (λ n. Some n) numbers.items
        ≡ map (leaf_counterpart nodes.now.rows ones others) known.now)) }
{
    let mut leafs = Vec::with_capacity(alloc, known.len())?;
    for leaf in known {
        match leaf_by(nodes, found, *leaf) {
            Some(leaf) => leafs.push(leaf)?,
            None => return Ok(None),
        }
    }
    Ok(Some(leafs))
}

/// The leafs that the names of a list's key name, where those are known that they name in a list of
/// the same module: none if the nodes below both lists differ before one of them. It takes time
/// n log n in the nodes directly below the lists, and names are read only where it is not known
/// that the same is said of the nodes of a pair.
pub(crate) fn counterpart_leafs(
    alloc: Global,
    nodes: &Nodes,
    list: NodeId,
    other: NodeId,
    known: &[NodeId],
) -> Result<Option<Vec<NodeId>>, AllocError>
    ensures { (keys : List (Option Step))
        → map (λ n. Some n) known.now ≡ map (key_leaf_at nodes.now.rows other) keys
        → IfOk result (λ leafs. IfSome leafs (λ numbers.
        map (λ n. Some n) numbers.items ≡ map (key_leaf_at nodes.now.rows list) keys)) }
{
    let all = nodes.all();
    if module_file_at(all, list) != module_file_at(all, other) {
        return Ok(None);
    }
    let ones = children_at(all, other);
    let others = children_at(all, list);
    let count = count_pairs(nodes, ones, others);
    let found = counterparts(alloc, &ones[..count], &others[..count])?;
    leafs_by(alloc, nodes, &found, known)
}
