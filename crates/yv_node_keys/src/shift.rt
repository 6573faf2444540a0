//! How far the nodes below a list are from those below another of which the same is said.
ghost use Rattle.std.specs.Prelude.{◌≡◌, ◌<◌, ◌≤◌, true, length, map, IfSome};
ghost use Rattle.yv_node_keys.specs.{Numbers.{module_file_at}, InnerShifts.{AreInside, AreMoved, IsInside, IsMoved, moved_id}};

use crate::counterparts::are_called_alike;
use crate::node_numbers::module_file_at;
use yv_nodes::{NodeId, Nodes};

/// Nodes, from the first number on and before another, and how far from each is the one that is the
/// same.
#[derive(Clone, Copy)]
pub(crate) struct Shift {
    pub(crate) first: u32,
    pub(crate) end: u32,
    pub(crate) by: u32,
}

impl Shift {
    /// The node so far from one of these nodes.
    pub(crate) fn counterpart(self, node: NodeId) -> Option<NodeId>
        ensures inside { IfSome result (λ other. IsInside self node) }
        ensures is { IfSome result (λ other. other ≡ moved_id self.by node) }
    {
        if node.number() < self.first || self.end <= node.number() {
            return None;
        }
        let number = node.number().checked_add(self.by)?;
        Some(NodeId(number))
    }
}

// Whether one node is so far from another.
fn is_moved_to(shift: Shift, one: NodeId, other: NodeId) -> bool
    ensures inside { result ≡ true → IsInside shift one }
    ensures is { result ≡ true → other ≡ moved_id shift.by one }
{
    match shift.counterpart(one) {
        Some(moved) => moved == other,
        None => false,
    }
}

// Whether nodes are so far from these, one by one.
fn are_moved_to(shift: Shift, ones: &[NodeId], others: &[NodeId]) -> bool
    ensures inside { result ≡ true → AreInside shift ones.now }
    ensures are { result ≡ true → others.now ≡ map (moved_id shift.by) ones.now }
{
    if ones.len() != others.len() {
        return false;
    }
    let mut place = 0;
    while place < ones.len() {
        if !is_moved_to(shift, ones[place], others[place]) {
            return false;
        }
        place += 1;
    }
    true
}

// Whether a node and the one so far from it are called alike and are of one kind, and those below
// them are so far from each other.
fn is_moved(nodes: &Nodes, shift: Shift, node: NodeId) -> bool
    ensures { result ≡ true → IsMoved nodes.now.rows shift node }
{
    let Some(other) = shift.counterpart(node) else {
        return false;
    };
    if other.number() >= nodes.len() || !are_called_alike(nodes, node, other) {
        return false;
    }
    let one = nodes.get(node);
    let other = nodes.get(other);
    one.kind() == other.kind() && are_moved_to(shift, one.children(), other.children())
}

// Whether all nodes of a shift are so.
fn are_moved(nodes: &Nodes, shift: Shift) -> bool
    ensures { result ≡ true → AreMoved nodes.now.rows shift }
{
    let mut number = shift.first;
    while number < shift.end {
        if !is_moved(nodes, shift, NodeId(number)) {
            return false;
        }
        number += 1;
    }
    true
}

// A number that comes after those of a node and of all nodes below it, where each comes after those
// before it in the tree.
fn end_below(nodes: &Nodes, node: NodeId) -> u32 {
    let mut end = node.number();
    while end < nodes.len() {
        match nodes.get(NodeId(end)).children().last() {
            Some(child) if child.number() > end => end = child.number(),
            _ => return end + 1,
        }
    }
    end
}

/// How far the nodes below a list are from those below an earlier one of the same module: None if
/// they differ, or are more than so many. It takes time linear in these nodes.
pub(crate) fn shift_between(
    nodes: &Nodes,
    earlier: NodeId,
    list: NodeId,
    most: usize,
) -> Option<Shift>
    ensures moved { IfSome result (λ shift. AreMoved nodes.now.rows shift) }
    ensures inside { IfSome result (λ shift. IsInside shift earlier) }
    ensures list { IfSome result (λ shift. list ≡ moved_id shift.by earlier) }
    ensures own { IfSome result
        (λ shift. module_file_at nodes.now.rows list ≡ module_file_at nodes.now.rows earlier) }
{
    let all = nodes.all();
    let shift = Shift {
        first: earlier.number(),
        end: end_below(nodes, earlier),
        by: list.number().checked_sub(earlier.number())?,
    };
    let count = shift.end.saturating_sub(shift.first);
    if count as usize > most || module_file_at(all, list) != module_file_at(all, earlier) {
        return None;
    }
    if !is_moved_to(shift, earlier, list) || !are_moved(nodes, shift) {
        return None;
    }
    Some(shift)
}
