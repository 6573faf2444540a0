//! What an earlier copy shows of a node.
ghost use Rattle.std.specs.Prelude.{◌≡◌, ◌<◌, ◌≤◌, ℕ, List, true, length, IfOk, IfSome, slice_index_or};
ghost use Rattle.yv_schema.specs.{InnerBasis.{NumberedBasis}, InnerContext.{Tells}, InnerRows.{AreOfItems, is_key_above, is_key_at, no_node, said_at}};

use crate::copies::{FirstCopies, Original};
use crate::tree::{Builder, number_at};
use std::alloc::AllocError;
use yv_expand::RemainingNode as LeftNode;
use yv_node_content::NodeKind;
use yv_nodes::{NodeId, Nodes};

// For names up to this length, reading the list's key again is faster than a look-up.
const SHORT: usize = 256;

/// The first node of which the same is said, and whether the node is a key of the list just above,
/// where an earlier one shows that.
#[derive(Clone, Copy)]
pub(crate) struct Precedent {
    pub(crate) earlier: Option<usize>,
    pub(crate) is_key: Option<bool>,
}

impl Builder<'_, '_, '_> {
    /// What an earlier copy shows of the node of the item at this place. `copies` is made from the
    /// items before this one.
    pub(crate) fn precedent(
        &self,
        items: &[LeftNode],
        place: usize,
        nodes: &Nodes,
        copies: &mut FirstCopies,
    ) -> Result<Precedent, AllocError>
        requires within { place < length items.now }
        requires few { length items.now ≤ 4294967296 }
        requires each { length nodes.now.rows ≡ place }
        ensures before { IfOk result (λ shown. IfSome shown.earlier (λ e. e < place)) }
        ensures same { (b : NumberedBasis) → Tells b self.now.context.now
            → IfOk result (λ shown. IfSome shown.earlier (λ e.
            said_at b (slice_index_or items.now place no_node).origin
            ≡ said_at b (slice_index_or items.now e no_node).origin)) }
        ensures key { (b : NumberedBasis) → Tells b self.now.context.now
            → AreOfItems b items.now nodes.now.rows
            → IfOk result (λ shown. IfSome shown.is_key (λ is_key. is_key
            ≡ is_key_at b items.now (slice_index_or items.now place no_node))) }
    {
        let item = items[place].origin;
        let origin = self.context.tree.origin(item);
        let sequence = self.context.tree.changes().sequence(item);
        let found = copies.place(origin, sequence);
        let Some(earlier) = self.earlier_copy(items, place, found) else {
            copies.keep(origin, sequence, place as u32)?;
            return Ok(Precedent {
                earlier: None,
                is_key: None,
            });
        };
        let is_key = self.known_key(items, place, nodes, copies, earlier)?;
        Ok(Precedent {
            earlier: Some(earlier),
            is_key,
        })
    }

    // The place that was found, where it is before this one and the same is said of both nodes.
    fn earlier_copy(&self, items: &[LeftNode], place: usize, found: Option<usize>) -> Option<usize>
        requires { place < length items.now }
        ensures before { IfSome result (λ e. e < place) }
        ensures same { (b : NumberedBasis) → Tells b self.now.context.now
            → IfSome result (λ e. said_at b (slice_index_or items.now place no_node).origin
            ≡ said_at b (slice_index_or items.now e no_node).origin) }
    {
        let found = found?;
        if found < place
            && self
                .context
                .are_copies(items[place].origin, items[found].origin)
        {
            Some(found)
        } else {
            None
        }
    }

    // Whether the node of an item is a key of the list just above, if an earlier leaf shows it: a
    // copy of this node below a copy of that list. `earlier` has the same name, so its length is
    // read.
    fn known_key(
        &self,
        items: &[LeftNode],
        place: usize,
        nodes: &Nodes,
        copies: &mut FirstCopies,
        earlier: usize,
    ) -> Result<Option<bool>, AllocError>
        requires within { place < length items.now }
        requires few { length items.now ≤ 4294967296 }
        requires each { length nodes.now.rows ≡ place }
        requires earlier { earlier < place }
        ensures { (b : NumberedBasis) → Tells b self.now.context.now
            → AreOfItems b items.now nodes.now.rows
            → IfOk result (λ known. IfSome known (λ is_key. is_key
            ≡ is_key_at b items.now (slice_index_or items.now place no_node))) }
    {
        let Some(above) = long_leaf_below(nodes, number_at(earlier), items[place].parent) else {
            return Ok(None);
        };
        let first = nodes.first_alike(number_at(earlier));
        let leaf = (
            first.number(),
            self.context.module_file(items[place].origin),
        );
        let list = original(nodes, above);
        match copies.leaf(leaf, list) {
            Some(found) => Ok(self.key_by(items, place, nodes, found)),
            None => {
                copies.keep_leaf(leaf, list, place as u32)?;
                Ok(None)
            }
        }
    }

    // Whether the node of an item is a key, if the node at the place that was found is alike and so
    // shows it.
    fn key_by(&self, items: &[LeftNode], place: usize, nodes: &Nodes, found: usize) -> Option<bool>
        requires within { place < length items.now }
        requires few { length items.now ≤ 4294967296 }
        requires each { length nodes.now.rows ≡ place }
        ensures { (b : NumberedBasis) → Tells b self.now.context.now
            → AreOfItems b items.now nodes.now.rows
            → IfSome result (λ is_key. is_key
            ≡ is_key_at b items.now (slice_index_or items.now place no_node)) }
    {
        if found < place && self.are_alike(items, &items[place], &items[found]) {
            Some(nodes.get(number_at(found)).is_key())
        } else {
            None
        }
    }

    // Whether the same is said of the nodes of two items and of those just above, and the modules
    // are the same.
    fn are_alike(&self, items: &[LeftNode], one: &LeftNode, other: &LeftNode) -> bool
        ensures { (b : NumberedBasis) → Tells b self.now.context.now → result ≡ true
            → is_key_at b items.now one.now ≡ is_key_at b items.now other.now }
    {
        self.context.are_copies(one.origin, other.origin)
            && self.context.are_of_one_module(one.origin, other.origin)
            && self.are_alike_above(items, one.parent, other.parent)
    }

    // The same of the nodes just above.
    fn are_alike_above(&self, items: &[LeftNode], one: Option<usize>, other: Option<usize>) -> bool
        ensures { (b : NumberedBasis) → Tells b self.now.context.now → result ≡ true
            → (module_file : ℕ) (name : List ℕ)
            → is_key_above b items.now one module_file name
            ≡ is_key_above b items.now other module_file name }
    {
        match (one, other) {
            (Some(one), Some(other)) if one < items.len() && other < items.len() => {
                self.context
                    .are_copies(items[one].origin, items[other].origin)
                    && self
                        .context
                        .are_of_one_module(items[one].origin, items[other].origin)
            }
            _ => false,
        }
    }
}

// The number of the node above a leaf, where the leaf's name is long.
fn long_leaf_below(nodes: &Nodes, leaf: NodeId, above: Option<usize>) -> Option<NodeId>
    requires { leaf.0 < length nodes.now.rows }
    ensures { IfSome result (λ list. list.0 < length nodes.now.rows) }
{
    let above = above?;
    let leaf = nodes.get(leaf);
    if leaf.kind() == NodeKind::Leaf && leaf.name().len() > SHORT && above < nodes.len() as usize {
        Some(NodeId(above as u32))
    } else {
        None
    }
}

// The first node of which the same is said, and the file of this node's module.
fn original(nodes: &Nodes, number: NodeId) -> Original
    requires { number.0 < length nodes.now.rows }
{
    (
        nodes.first_alike(number).number(),
        nodes.get(number).module_file(),
    )
}
