//! The nodes of a schema.
ghost use Rattle.std.specs.{Prelude.{◌≡◌, ◌<◌, ◌≤◌, ◌+◌, [], ◌∷◌, ◌++◌, ◌&&◌, ℕ, All, List, Some, length, IfOk, IfErr, IfSome, OnOk, slice_get, slice_index_or}, Rc.{rc_str_bytes}};
ghost use Rattle.yv_text_statement.specs.declared.refusal.Stop.TheVariants.{NoMemory};
ghost use Rattle.yv_schema.specs.{Families.{lists_of}, InnerBasis.{NumberedBasis, label_at, stated_of}, InnerContext.{IsTold, Tells}, InnerModuleNames.{AreModuleNames}, InnerRows.{AreSeen, IsWithin, line_at, number_at, numbers_at, parent_of, row_of, rows_of_items}};
ghost use Rattle.yv_expand.specs.Tree.{Node as Left};
ghost use Rattle.yv_nodes.specs.{Numbers.{numbers_from, rows_from}, Tree.{Label}, Above.{seen_of}, Labels.{has_key_called, label_of}, Member.{row_with}, Rows.{blank_row, rank}};
ghost use Rattle.yv_node_content.specs.Kinds.{is_leaf};

use crate::context::Context;
use crate::copies::FirstCopies;
use crate::families::families_of;
use crate::module_names::ModuleNames;
use std::alloc::{AllocError, Global};
use yv_expand::RemainingNode as LeftNode;
use yv_node_content::Definition;
use yv_nodes::{Above, Node, NodeId, NodePlace, Nodes};
use yv_schema_tables::Schema;
use yv_text_statement::Stop;

/// The nodes of a final tree, numbered, and the numbers of those at the top.
#[derive(Drop)]
pub(crate) struct NumberedNodes {
    pub(crate) nodes: Nodes,
    pub(crate) top: Vec<NodeId>,
}

/// What nodes are built of.
#[derive(Clone, Copy)]
pub(crate) struct Builder<'c, 'a, 'b> {
    pub(crate) alloc: Global,
    pub(crate) context: &'c Context<'c, 'a, 'b>,
    pub(crate) module_files: &'c ModuleNames,
    /// How many statements there are.
    pub(crate) statements: usize,
}

impl Builder<'_, '_, '_> {
    /// The nodes that are left, each before those below it, of which there are no more than the
    /// limit.
    pub(crate) fn number_nodes(&self, limit: u32) -> Result<NumberedNodes, Stop>
        requires room { length self.now.context.now.tree.now.left ≤ limit }
        requires tells { IsTold self.now.context.now }
        ensures rows { (b : NumberedBasis) → Tells b self.now.context.now
            → AreModuleNames b.files self.now.module_files.now
            → IfOk result (λ n. n.nodes.rows ≡ rows_from 0 (stated_of b)) }
        ensures top { (b : NumberedBasis) → Tells b self.now.context.now
            → AreModuleNames b.files self.now.module_files.now
            → IfOk result (λ n. n.top.items ≡ numbers_from 0 (stated_of b)) }
        ensures limit { IfOk result (λ n. n.nodes.limit ≡ limit) }
        ensures memory { IfErr result (λ stop. stop ≡ NoMemory) }
    {
        let left = self.context.remaining_nodes();
        let families = families_of(self.alloc, left)?;
        let mut nodes = Nodes::with_room(self.alloc, limit, left.len())?;
        self.add_nodes(left, &families.below, &mut nodes)?;
        let top = numbers_at(self.alloc, &families.top)?;
        Ok(NumberedNodes { nodes, top })
    }

    // Adds the nodes of items to an empty list. `below` says which items are below each.
    fn add_nodes(
        &self,
        items: &[LeftNode],
        below: &[Vec<usize>],
        nodes: &mut Nodes,
    ) -> Result<(), Stop>
        requires none { nodes.old.rows ≡ [] }
        requires room { length nodes.old.rows + length items.now ≤ nodes.old.limit }
        requires few { length items.now ≤ 4294967296 }
        requires parents { (place : ℕ) (item : Left) → slice_get items.now place ≡ Some item
            → IsWithin item.parent place }
        requires children { (place : ℕ)
            → All (λ child. child < 4294967296) (slice_index_or (lists_of below.now) place []) }
        ensures rows { (b : NumberedBasis) → Tells b self.now.context.now
            → AreModuleNames b.files self.now.module_files.now → OnOk result (nodes.new.rows
            ≡ nodes.old.rows ++ rows_of_items b (lists_of below.now) [] 0 items.now) }
        ensures limit { nodes.new.limit ≡ nodes.old.limit }
        ensures memory { IfErr result (λ stop. stop ≡ NoMemory) }
    {
        let top = Above::top();
        let mut aboves = Vec::with_capacity(self.alloc, items.len())?;
        let mut copies = FirstCopies::new(self.alloc, self.statements)?;
        for (place, item) in items.iter().enumerate() {
            let above = above_at(&top, &aboves, item.parent);
            let parent = parent_of(item.parent);
            let children = numbers_at(self.alloc, places_at(below, place))?;
            let shown = self.precedent(items, place, nodes, &mut copies)?;
            let made = self.node(item, above, parent, children, shown.is_key)?;
            aboves.push(made.above_others)?;
            add_node(nodes, made.node, shown.earlier)?;
        }
        Ok(())
    }

    // The node of an item below these, with this parent and these children. `is_key` says whether
    // it is a key, if that is known.
    fn node(
        &self,
        item: &LeftNode,
        above: &Above,
        parent: NodeId,
        children: Vec<NodeId>,
        is_key: Option<bool>,
    ) -> Result<MadeNodes, AllocError>
        ensures node { (b : NumberedBasis) (ls : List Label) → Tells b self.now.context.now
            → AreModuleNames b.files self.now.module_files.now
            → above.now ≡ seen_of ls
            → IfSome is_key (λ known. known ≡ (label_at b ls item.now.origin).is_key)
            → IfOk result (λ made. made.node ≡ row_of b ls item.now parent children.items) }
        ensures above { (b : NumberedBasis) (ls : List Label) → Tells b self.now.context.now
            → AreModuleNames b.files self.now.module_files.now
            → above.now ≡ seen_of ls
            → IfSome is_key (λ known. known ≡ (label_at b ls item.now.origin).is_key)
            → IfOk result
            (λ made. made.above_others ≡ seen_of (label_at b ls item.now.origin ∷ ls)) }
        ensures parent { IfOk result (λ made. made.node.parent ≡ parent) }
    {
        let definition = self.context.definition(item.origin)?;
        let module_file = self.context.module_file(item.origin);
        let name = self.module_files.name(module_file)?;
        let standing = node_place(above, &definition, module_file, is_key)?;
        let above_others = above.below(&definition, module_file, standing)?;
        Ok(MadeNodes {
            node: Node::new(definition, module_file, name, standing, parent, children),
            above_others,
        })
    }
}

// What an item gives: its node, and what this and the nodes above it make of those below.
#[derive(Drop)]
struct MadeNodes {
    node: Node,
    above_others: Above,
}

// What the nodes above an item make of it, by the place of the item above it; none are above one at
// the top.
fn above_at<'k>(top: &'k Above, aboves: &'k [Above], parent: Option<usize>) -> &'k Above
    ensures { (lines : List (List Label)) → top.now ≡ seen_of [] → AreSeen lines aboves.now
        → result.now ≡ seen_of (line_at lines parent) }
{
    match parent {
        Some(place) => aboves.get(place).unwrap_or(top),
        None => top,
    }
}

// The place in the tree of the node that a statement defines, below these nodes. `is_key` says
// whether it is a key, if that is known.
fn node_place(
    above: &Above,
    definition: &Definition,
    module_file: u32,
    is_key: Option<bool>,
) -> Result<NodePlace, AllocError>
    ensures { (ls : List Label) → above.now ≡ seen_of ls → IfSome is_key (λ known. known
        ≡ (is_leaf definition.now.kind && has_key_called ls module_file definition.now.name))
        → IfOk result (λ standing.
        (module_name : List ℕ) (parent : NodeId) (children : List NodeId)
        → (row_with definition.now module_file module_name standing parent children).label
        ≡ label_of definition.now module_file module_name ls) }
{
    match is_key {
        Some(is_key) => Ok(above.place_with(definition, module_file, is_key)),
        None => above.place_of(definition, module_file),
    }
}

// Adds a node, with the number of an earlier one of which the same is said, if there is one.
fn add_node(nodes: &mut Nodes, node: Node, earlier: Option<usize>) -> Result<(), AllocError>
    requires room { length nodes.old.rows < nodes.old.limit }
    requires parent { rank node.parent ≤ length nodes.old.rows }
    requires earlier { IfSome earlier (λ e. e < length nodes.old.rows) }
    requires few { length nodes.old.rows ≤ 4294967296 }
    ensures rows { IfSome earlier (λ e.
        (slice_index_or nodes.old.rows e blank_row).label.defined ≡ node.label.defined)
        → OnOk result (nodes.new.rows ≡ nodes.old.rows ++ node ∷ []) }
    ensures count { OnOk result (length nodes.new.rows ≡ length nodes.old.rows + 1) }
    ensures limit { nodes.new.limit ≡ nodes.old.limit }
{
    match earlier {
        Some(earlier) => nodes.push_alike(node, number_at(earlier)),
        None => nodes.push(node),
    }
}

// The places of the nodes below one.
fn places_at(below: &[Vec<usize>], place: usize) -> &[usize]
    ensures { result.now ≡ slice_index_or (lists_of below.now) place [] }
{
    match below.get(place) {
        Some(places) => places,
        None => &[],
    }
}

/// The number of the node at a place.
pub(crate) fn number_at(place: usize) -> NodeId
    requires { place < 4294967296 }
    ensures { result ≡ number_at place }
{
    NodeId(place as u32)
}

// The number of the node above one: the root's at the top.
fn parent_of(place: Option<usize>) -> NodeId
    requires { IsWithin place 4294967296 }
    ensures { result ≡ parent_of place }
{
    match place {
        Some(place) => number_at(place),
        None => Schema::ROOT,
    }
}

/// The numbers of the nodes at these places.
pub(crate) fn numbers_at(alloc: Global, places: &[usize]) -> Result<Vec<NodeId>, AllocError>
    requires { All (λ place. place < 4294967296) places.now }
    ensures { IfOk result (λ numbers. numbers.items ≡ numbers_at places.now) }
{
    let mut numbers = Vec::with_capacity(alloc, places.len())?;
    for place in places {
        numbers.push(number_at(*place))?;
    }
    Ok(numbers)
}
